//! Reads a state.
ghost use Rattle.std.specs.Prelude.{◌≡◌, ◌∷◌, ◌++◌, [], codes, decimal, length, List, IfOk, OnOk};
ghost use Rattle.std.specs.List.{AllByRecursion};
ghost use Rattle.tool_grammar.specs.Cuts.{Lacks};
ghost use Rattle.tool_state.specs.State.{StateLine, IsLine, IsLineOf, lines_text, entries_of, Entry, DoesAll, ReadsState};

use crate::entries::{do_entry, entry_of};
use crate::error::StateError;
use metrics_exporter::Exporter;
use std::alloc::Global;
use tool_grammar::{number_of, split_at_first, strip_prefix};

/// The number of lines that the first line says, and the other lines.
fn head_of<'a>(title: &str, bytes: &'a [u8]) -> Result<(u64, &'a [u8]), StateError>
    ensures { IfOk result (λ h.
        bytes.now ≡ title.now ++ 32 ∷ (decimal h.0 ++ 32 ∷ (codes "lines\n" ++ h.1.now))) }
{
    let Some(rest) = strip_prefix(bytes, title.as_bytes()) else {
        return Err(StateError::Foreign);
    };
    let Some(rest) = strip_prefix(rest, b" ") else {
        return Err(StateError::Foreign);
    };
    let Some((digits, rest)) = split_at_first(rest, b' ') else {
        return Err(StateError::Foreign);
    };
    let Some(number) = number_of(digits) else {
        return Err(StateError::Foreign);
    };
    match strip_prefix(rest, b"lines\n") {
        Some(lines) => Ok((number, lines)),
        None => Err(StateError::Foreign),
    }
}

/// Does what one line says.
fn do_line(alloc: Global, on: &mut Exporter, line: &[u8]) -> Result<(), StateError>
    requires { Lacks 10 line.now }
    ensures { OnOk result ((entry : Entry) × IsLine line.now entry × DoesAll (entry ∷ []) on.old on.new) }
{
    let (times, unit, request) = entry_of(alloc, line)?;
    do_entry(on, times, unit, &request)?;
    Ok(())
}

/// Does what the lines say, and returns their number.
fn do_lines(alloc: Global, on: &mut Exporter, bytes: &[u8]) -> Result<u64, StateError>
    ensures { IfOk result (λ number. (lines : List StateLine) × AllByRecursion IsLineOf lines × (number ≡ length lines)
        × (bytes.now ≡ lines_text lines) × DoesAll (entries_of lines) on.old on.new) }
{
    let mut rest = bytes;
    let mut number = 0u64;
    while !rest.is_empty() {
        let Some((line, others)) = split_at_first(rest, b'\n') else {
            return Err(StateError::Cut);
        };
        let Some(next) = number.checked_add(1) else {
            return Err(StateError::Cut);
        };
        do_line(alloc, on, line)?;
        number = next;
        rest = others;
    }
    Ok(number)
}

/// Reads a state of this title into an exporter: makes the updates, and describes the names.
///
/// Into a new one of the same setup as the state's it brings the series with their values, and the descriptions of their names.
/// After an error what the exporter holds is not specified.
///
/// # Errors
///
/// `StateError::Foreign` for bytes that begin otherwise than a state of this title, `Cut` for one that isn't whole, `BadLine`,
/// and `Memory`.
pub fn read_state(
    alloc: Global,
    on: &mut Exporter,
    title: &str,
    bytes: &[u8],
) -> Result<(), StateError>
    ensures { OnOk result (ReadsState title.now bytes.now on.old on.new) }
{
    let (wanted, lines) = head_of(title, bytes)?;
    let number = do_lines(alloc, on, lines)?;
    if number == wanted {
        Ok(())
    } else {
        Err(StateError::Cut)
    }
}
