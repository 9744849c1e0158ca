//! The file that keeps what is held from one run to the next.

use metrics_exporter::Exporter;
use metrics_textfile::write_textfile;
use std::alloc::{AllocError, Global};
use std::rt::Files;
use std::{fs, io};
use tool_grammar::unit_text;
use tool_prometheus::{Options, PrefixBounds, PrefixPlaces, UnitBounds};
use tool_state::{StateError, read_state, write_state};

/// A state: its path, and the title that says what its runs have alike.
#[derive(Clone, Copy)]
pub struct Place<'a> {
    pub path: &'a str,
    pub title: &'a str,
}

/// Appends numbers, with a comma between two.
fn push_numbers(title: &mut String, numbers: &[i64]) -> Result<(), AllocError> {
    for (place, number) in numbers.iter().enumerate() {
        if place > 0 {
            title.push(',')?;
        }
        write!(title, "{number}")?;
    }
    Ok(())
}

/// Appends the bounds of prefixes, in the order of the prefixes.
fn push_bounds(
    alloc: Global,
    title: &mut String,
    given: &[PrefixBounds],
) -> Result<(), AllocError> {
    let mut rows = Vec::with_capacity(alloc, given.len())?;
    for one in given {
        rows.push((one.prefix.as_str(), one.bounds.as_slice()))?;
    }
    rows.sort_unstable();
    for (prefix, bounds) in &rows {
        write!(title, ", bounds of \"{}\" ", prefix.escape_debug())?;
        push_numbers(title, bounds)?;
    }
    Ok(())
}

/// Appends the bounds by units.
fn push_units(title: &mut String, given: &[UnitBounds]) -> Result<(), AllocError> {
    for one in given {
        write!(title, ", in {} ", unit_text(Some(one.unit)))?;
        push_numbers(title, one.bounds.as_slice())?;
    }
    Ok(())
}

/// Appends the decimal places of names, in the order of the names as they are kept.
fn push_places(
    alloc: Global,
    title: &mut String,
    prefix: &str,
    given: &[PrefixPlaces],
) -> Result<(), AllocError> {
    let mut rows = Vec::with_capacity(alloc, given.len())?;
    for one in given {
        rows.push((one.prefix.as_str(), one.places))?;
    }
    rows.sort_unstable();
    for (name, places) in &rows {
        let prefix = prefix.escape_debug();
        let name = name.escape_debug();
        write!(title, ", places of \"{prefix}{name}\" {places}")?;
    }
    Ok(())
}

/// The title of the states of runs with these options: they have the same bounds and the same decimal places, whatever the order
/// of the options.
pub fn title_of(alloc: Global, options: &Options) -> Result<String, AllocError> {
    let mut title = String::from_str(alloc, "metrics_prometheus_tool state 1, bounds ")?;
    push_numbers(&mut title, options.plan.bounds.as_slice())?;
    push_units(&mut title, options.units.as_slice())?;
    push_bounds(alloc, &mut title, options.prefixes.as_slice())?;
    let front = match &options.prefix {
        Some(prefix) => format!(in alloc; "{}.", prefix.as_str())?,
        None => String::new(alloc),
    };
    let places = options.dialect.places.as_slice();
    push_places(alloc, &mut title, front.as_str(), places)?;
    Ok(title)
}

/// Reports why a state can't be read, and returns the status.
fn refused_state(host: &HostRuntime, path: &str, why: StateError) -> u8 {
    match why {
        StateError::Memory => {
            let _ = eprintln!(host; "memory");
            1
        }
        StateError::Foreign => {
            let _ = eprintln!(host;
                "{path}: not a state of this program with these bounds and decimal places"
            );
            2
        }
        _ => {
            let _ = eprintln!(host; "{path}: {why}");
            2
        }
    }
}

/// Reads the state into an exporter, or nothing if no file is there. Reports a fault, and returns the status then. The file
/// stays as it is.
pub fn begin(host: &HostRuntime, on: &mut Exporter, place: Place<'_>) -> Option<u8> {
    let Place { path, title } = place;
    let bytes = match fs::read(host, path) {
        Ok(bytes) => bytes,
        Err(e) if e.kind() == io::ErrorKind::NotFound => return None,
        Err(e) if e.kind() == io::ErrorKind::OutOfMemory => {
            return Some(refused_state(host, path, StateError::Memory));
        }
        Err(e) => {
            let _ = eprintln!(host; "can't read {path}: {e}");
            return Some(1);
        }
    };
    match read_state(host.alloc(), on, title, &bytes) {
        Ok(()) => None,
        Err(why) => Some(refused_state(host, path, why)),
    }
}

/// Writes what an exporter holds into the file, whole or not at all. Reports a fault, and returns whether it succeeded.
pub fn keep<R: AllocGlobal + Eprint + Files>(rt: &R, on: &Exporter, place: Place<'_>) -> bool {
    let alloc = rt.alloc();
    let text = match write_state(alloc, on, place.title) {
        Ok(text) => text,
        Err(e) => {
            let _ = eprintln!(rt; "can't write {}: {e}", place.path);
            return false;
        }
    };
    match write_textfile(rt, alloc, place.path, text.as_str()) {
        Ok(()) => true,
        Err(e) => {
            let _ = eprintln!(rt; "{e}");
            false
        }
    }
}
