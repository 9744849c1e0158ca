//! The values of options that the command line's parser doesn't check.

use metrics::{Items, Label};
use std::alloc::{AllocError, AllocFailed, Global};
use std::fmt;
use tool_prometheus::{BadLabel, bad_label};

/// Why the value of an option can't be used.
#[derive(Clone, Copy, Debug)]
pub enum Unfit<'a> {
    /// Out of memory.
    Memory,
    /// The option with its value's form, the value, and what is accepted.
    Value(&'static str, &'a str, &'static str),
}

impl From<AllocError> for Unfit<'_> {
    fn from(_error: AllocError) -> Self {
        Unfit::Memory
    }
}

impl<T: Drop> From<AllocFailed<T>> for Unfit<'_> {
    fn from(_error: AllocFailed<T>) -> Self {
        Unfit::Memory
    }
}

impl fmt::Display for Unfit<'_> {
    fn fmt<W: fmt::Write>(&self, f: &mut fmt::Formatter<W>) -> fmt::Result {
        match self {
            Unfit::Memory => f.write_str("memory"),
            Unfit::Value(option, given, accepted) => {
                write!(f, "invalid value '{given}' for '{option}': {accepted}")
            }
        }
    }
}

/// The whole number of an option, which is the least one or more, if it is given.
fn number_of<'a>(
    given: Option<&'a str>,
    least: u64,
    option: &'static str,
    accepted: &'static str,
) -> Result<Option<u64>, Unfit<'a>> {
    let Some(given) = given else {
        return Ok(None);
    };
    match given.parse::<u64>() {
        Ok(number) if number >= least => Ok(Some(number)),
        _ => Err(Unfit::Value(option, given, accepted)),
    }
}

/// The timeout of idle series.
pub fn idle_of(given: Option<&str>) -> Result<Option<u64>, Unfit<'_>> {
    let accepted = "N is a whole number from 0 to 18446744073709551615";
    number_of(given, 0, "--idle <N>", accepted)
}

/// How many seconds are between two scrapes by the clock.
pub fn every_of(given: Option<&str>) -> Result<Option<u64>, Unfit<'_>> {
    let accepted = "SECONDS is a whole number from 1 to 18446744073709551615";
    number_of(given, 1, "--every <SECONDS>", accepted)
}

/// The most series that are held.
pub fn most_of(given: Option<&str>) -> Result<Option<u64>, Unfit<'_>> {
    let accepted = "N is a whole number from 1 to 18446744073709551615";
    number_of(given, 1, "--max-series <N>", accepted)
}

/// What is wrong with the name of a label that would stand beside others.
fn flaw_of(labels: &[Label], name: &str) -> Option<&'static str> {
    match bad_label(labels, name)? {
        BadLabel::Repeated => Some("each LABEL is given once"),
        _ => Some(
            "LABEL has letters, digits and _, begins with neither a digit nor __, and is not le",
        ),
    }
}

/// The label that a value of the option adds to the others, or what is wrong with it.
fn label_of<'a>(labels: &[Label], given: &'a str) -> Result<(&'a str, &'a str), &'static str> {
    let Some((name, value)) = given.split_once('=') else {
        return Err("it has no '='");
    };
    if let Some(flaw) = flaw_of(labels, name) {
        return Err(flaw);
    }
    if value.bytes().any(|byte| byte.is_ascii_control()) {
        return Err("VALUE has no control characters");
    }
    Ok((name, value))
}

/// The labels of each series, in the order of the command line.
pub fn labels_of<'a>(alloc: Global, given: Option<&[&'a str]>) -> Result<Items<Label>, Unfit<'a>> {
    let Some(given) = given else {
        return Ok(Items::from(Vec::new(alloc)));
    };
    let mut labels = Vec::with_capacity(alloc, given.len())?;
    for word in given {
        match label_of(&labels, word) {
            Ok((name, value)) => match Label::new(alloc, name, value) {
                Ok(label) => labels.push(label)?,
                Err(_) => return Err(Unfit::Memory),
            },
            Err(accepted) => return Err(Unfit::Value("--label <LABEL=VALUE>", word, accepted)),
        }
    }
    Ok(Items::from(labels))
}
