//! The lines of a state, one after another.
ghost use Rattle.std.specs.Prelude.{◌≡◌, ◌∷◌, ◌++◌, [], IfOk, OnOk, true, string_bytes, None as Nothing};
ghost use Rattle.tool_grammar.specs.Cuts.{Lacks};
ghost use Rattle.tool_state.specs.State.{IsLine};
ghost use Rattle.tool_state.specs.Written.{Adds};
ghost use Rattle.tool_requests.specs.declared.requests.Request.TheVariants.{Change, Describe};

use crate::entries::entry_of;
use crate::error::StateError;
use crate::lines::{description_line, update_line};
use metrics::{Key, MetricKind, Unit, Update};
use std::alloc::{AllocError, Global};
use tool_grammar::place_of;
use tool_prometheus::Request;

/// Lines so far, and their number.
#[derive(Drop)]
pub(crate) struct Body {
    pub text: String,
    pub number: u64,
}

impl Body {
    /// No lines.
    pub fn new(alloc: Global) -> Body
        ensures { (string_bytes result.text ≡ []) × (result.number ≡ 0) }
    {
        Body {
            text: String::new(alloc),
            number: 0,
        }
    }
}

/// Whether bytes have no line feed.
fn is_one_line(line: &[u8]) -> bool
    ensures { result ≡ true → Lacks 10 line.now }
{
    place_of(line, b'\n') == line.len()
}

/// Appends a line and a line feed.
fn push_text(text: &mut String, line: &str) -> Result<(), AllocError>
    ensures { OnOk result (string_bytes text.new ≡ (string_bytes text.old ++ line.now) ++ 10 ∷ []) }
{
    text.push_str(line)?;
    text.push_str("\n")?;
    Ok(())
}

/// Appends a line, and counts it.
fn push_line(body: &mut Body, line: &str) -> Result<(), StateError>
    ensures { OnOk result ((entry : _) → IsLine line.now entry → Adds (entry ∷ []) body.old body.new) }
{
    let Some(number) = body.number.checked_add(1) else {
        return Err(StateError::NoLine);
    };
    push_text(&mut body.text, line)?;
    body.number = number;
    Ok(())
}

/// Whether two keys are equal.
fn is_key(a: &Key, b: &Key) -> bool
    ensures { result ≡ true → a.now ≡ b.now }
{
    *a == *b
}

/// Whether two updates are equal.
fn is_change(a: Update, b: Update) -> bool
    ensures { result ≡ true → a ≡ b }
{
    match (a, b) {
        (Update::Increment(x), Update::Increment(y)) => x == y,
        (Update::Absolute(x), Update::Absolute(y)) => x == y,
        (Update::Add(x), Update::Add(y)) => x == y,
        (Update::Subtract(x), Update::Subtract(y)) => x == y,
        (Update::Set(x), Update::Set(y)) => x == y,
        (Update::Record(x), Update::Record(y)) => x == y,
        _ => false,
    }
}

/// Whether a request is this update.
fn is_update(request: &Request, key: &Key, by: Update) -> bool
    ensures { result ≡ true → request.now ≡ Change key.now by }
{
    match request {
        Request::Change(other, update) => is_key(other, key) && is_change(*update, by),
        _ => false,
    }
}

/// Whether a request is this description.
fn is_description(
    request: &Request,
    kind: MetricKind,
    name: &str,
    unit: Option<Unit>,
    note: &str,
) -> bool
    ensures { result ≡ true → request.now ≡ Describe kind name.now unit note.now }
{
    match request {
        Request::Describe(other, n, u, text) => {
            *other == kind && n.as_str() == name && *u == unit && text.as_str() == note
        }
        _ => false,
    }
}

/// Reads a line back, unless it has a line feed.
fn read_back(alloc: Global, line: &str) -> Result<(u64, Option<Unit>, Request), StateError>
    ensures { IfOk result (IsLine line.now) }
{
    if !is_one_line(line.as_bytes()) {
        return Err(StateError::NoLine);
    }
    match entry_of(alloc, line.as_bytes()) {
        Ok(entry) => Ok(entry),
        Err(StateError::Memory) => Err(StateError::Memory),
        Err(_) => Err(StateError::NoLine),
    }
}

/// Adds the line of an update that is made so many times, in a unit if it is a histogram's. It is read back, so that no line
/// says anything else.
pub(crate) fn add_update(
    alloc: Global,
    body: &mut Body,
    times: u64,
    unit: Option<Unit>,
    key: &Key,
    by: Update,
) -> Result<(), StateError>
    ensures { OnOk result (Adds ((times, unit, Change key.now by) ∷ []) body.old body.new) }
{
    let line = update_line(alloc, times, unit, key, by)?;
    let line = line.as_str();
    let (found, measure, request) = read_back(alloc, line)?;
    if found == times && measure == unit && is_update(&request, key, by) {
        push_line(body, line)
    } else {
        Err(StateError::NoLine)
    }
}

/// Adds the line of a description, likewise.
pub(crate) fn add_description(
    alloc: Global,
    body: &mut Body,
    kind: MetricKind,
    name: &str,
    unit: Option<Unit>,
    note: &str,
) -> Result<(), StateError>
    ensures { OnOk result (Adds ((1, Nothing, Describe kind name.now unit note.now) ∷ []) body.old body.new) }
{
    let line = description_line(alloc, kind, name, unit, note)?;
    let line = line.as_str();
    let (found, measure, request) = read_back(alloc, line)?;
    if found == 1 && measure.is_none() && is_description(&request, kind, name, unit, note) {
        push_line(body, line)
    } else {
        Err(StateError::NoLine)
    }
}
