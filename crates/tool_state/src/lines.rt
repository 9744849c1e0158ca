//! Prints the lines of a state. What they say is decided where they are read back.

use metrics::{Key, MetricKind, Unit, Update};
use std::alloc::{AllocError, Global};
use tool_grammar::unit_text;

/// The name in one word: a dash is the empty one.
fn word_of_name(name: &str) -> &str {
    if name.is_empty() { "-" } else { name }
}

/// Whether a value needs quotes.
fn needs_quotes(value: &str) -> bool {
    value.bytes().any(|byte| byte == b'"' || byte == b'\\' || byte == b' ' || byte == b'\n')
}

fn push_quoted(line: &mut String, value: &str) -> Result<(), AllocError> {
    line.push('"')?;
    for c in value.chars() {
        match c {
            '"' => line.push_str("\\\"")?,
            '\\' => line.push_str("\\\\")?,
            '\n' => line.push_str("\\n")?,
            c => line.push(c)?,
        }
    }
    line.push('"')
}

/// Appends the name and the labels.
fn push_key(line: &mut String, key: &Key) -> Result<(), AllocError> {
    line.push_str(word_of_name(key.name()))?;
    for label in key.labels() {
        write!(line, " {}=", label.key())?;
        if needs_quotes(label.value()) {
            push_quoted(line, label.value())?;
        } else {
            line.push_str(label.value())?;
        }
    }
    Ok(())
}

/// Appends the word of an update, and its amount.
fn push_update(line: &mut String, by: Update) -> Result<(), AllocError> {
    match by {
        Update::Increment(n) => write!(line, "increment {n}"),
        Update::Absolute(n) => write!(line, "absolute {n}"),
        Update::Add(n) => write!(line, "add {n}"),
        Update::Subtract(n) => write!(line, "sub {n}"),
        Update::Set(n) => write!(line, "set {n}"),
        Update::Record(n) => write!(line, "record {n}"),
    }
}

/// The line of an update that is made so many times, in a unit if it is a histogram's.
pub(crate) fn update_line(
    alloc: Global,
    times: u64,
    unit: Option<Unit>,
    key: &Key,
    by: Update,
) -> Result<String, AllocError> {
    let mut line = String::new(alloc);
    let unit = unit_text(unit);
    write!(line, "{times} {unit} ")?;
    push_update(&mut line, by)?;
    line.push(' ')?;
    push_key(&mut line, key)?;
    Ok(line)
}

/// The line of a description.
pub(crate) fn description_line(
    alloc: Global,
    kind: MetricKind,
    name: &str,
    unit: Option<Unit>,
    note: &str,
) -> Result<String, AllocError> {
    let mut line = String::new(alloc);
    let name = word_of_name(name);
    let unit = unit_text(unit);
    write!(line, "1 - describe {} {name} {unit} {note}", kind.as_str())?;
    Ok(line)
}
