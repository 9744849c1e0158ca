//! Names and label values as Prometheus allows and writes them.
ghost use Rattle.std.specs.Prelude.{◌≡◌, ◌<◌, ◌++◌, true, false, if◌then◌else◌, IfOk, OnOk};
ghost use Rattle.std.specs.Prelude.{string_bytes, chars};
ghost use Rattle.std.specs.List.{list_all};
ghost use Rattle.metrics_exposition.specs.Names.{begins, goes_on, or_underscore, spelled};
ghost use Rattle.metrics_exposition.specs.Names.{or_one, metric_name, label_name, is_name};
ghost use Rattle.metrics_exposition.specs.Names.{escape, escaped, is_plain, help_escape, help_escaped};

use crate::shown::ShownName;
use metrics::Key;
use std::alloc::{AllocError, Global};

/// Whether a name may begin with the character; only a metric's may have colons.
fn begins(c: char, colons: bool) -> bool
    ensures { result ≡ begins colons c }
{
    c.is_ascii_alphabetic() || c == '_' || (colons && c == ':')
}

/// The character, or an underscore if it isn't allowed there.
fn allowed(c: char, is_first: bool, colons: bool) -> char
    ensures value { result ≡ or_underscore (if is_first then begins colons c else goes_on colons c) c }
    ensures ascii { result < 128 }
{
    if begins(c, colons) || (!is_first && c.is_ascii_digit()) {
        c
    } else {
        '_'
    }
}

/// A name of allowed characters alone, each that isn't an underscore. The empty name stays empty.
fn spell(alloc: Global, name: &str, colons: bool) -> Result<String, AllocError>
    ensures { IfOk result (λ s. string_bytes s ≡ spelled colons (chars name.now)) }
{
    let mut spelled = String::new(alloc);
    for c in name.chars() {
        spelled.push(allowed(c, spelled.is_empty(), colons))?;
    }
    Ok(spelled)
}

/// The name, or an underscore in place of the empty one.
fn or_one(name: String) -> Result<String, AllocError>
    ensures { IfOk result (λ s. string_bytes s ≡ or_one (string_bytes name)) }
{
    let mut name = name;
    if name.is_empty() {
        name.push_str("_")?;
    }
    Ok(name)
}

/// Returns whether bytes are all allowed after the first one of a name.
fn go_on(bytes: &[u8], colons: bool) -> bool
    ensures { result ≡ list_all (goes_on colons) bytes.now }
{
    for c in bytes {
        if !begins(*c as char, colons) && !c.is_ascii_digit() {
            return false;
        }
    }
    true
}

/// Returns whether Prometheus allows a name as it is, with colons or without: only names of metrics may have them.
pub fn is_name(name: &str, colons: bool) -> bool
    ensures { result ≡ is_name colons name.now }
{
    match name.as_bytes() {
        [] => false,
        [first, rest @ ..] => begins(*first as char, colons) && go_on(rest, colons),
    }
}

/// Returns the name of a metric as Prometheus allows it. Each other character becomes an underscore, and so does the empty name.
pub fn metric_name(alloc: Global, name: &str) -> Result<String, AllocError>
    ensures { IfOk result (λ s. string_bytes s ≡ metric_name name.now) }
{
    or_one(spell(alloc, name, true)?)
}

/// Returns a key's name as `metric_name` does. A name that is allowed allocates nothing.
pub fn allowed_name<'a>(alloc: Global, key: &'a Key) -> Result<ShownName<'a>, AllocError>
    ensures { IfOk result (λ n. n ≡ metric_name key.now.name) }
{
    if is_name(key.name(), true) {
        return Ok(ShownName::given(key));
    }
    Ok(ShownName::made(metric_name(alloc, key.name())?))
}

/// Returns the name of a label as Prometheus allows it: as `metric_name`, without colons.
pub fn label_name(alloc: Global, name: &str) -> Result<String, AllocError>
    ensures { IfOk result (λ s. string_bytes s ≡ label_name name.now) }
{
    or_one(spell(alloc, name, false)?)
}

/// Writes a character of a label's value.
fn write_escaped(text: &mut String, c: char) -> Result<(), AllocError>
    ensures { OnOk result (string_bytes text.new ≡ string_bytes text.old ++ escape c) }
{
    match c {
        '\\' => text.push_str("\\\\"),
        '"' => text.push_str("\\\""),
        '\n' => text.push_str("\\n"),
        _ => text.push(c),
    }
}

/// Returns whether a byte is written unescaped in a label's value.
fn is_unescaped(c: u8) -> bool
    ensures { result ≡ is_plain c }
{
    c != b'\\' && c != b'"' && c != b'\n'
}

/// As `are_plain`, of a few bytes.
#[inline(always)]
fn are_few_plain(bytes: &[u8]) -> bool
    ensures { result ≡ list_all is_plain bytes.now }
{
    // Each byte is looked at, so that a step takes many at once.
    let mut are_plain = true;
    for c in bytes {
        are_plain &= is_unescaped(*c);
    }
    are_plain
}

/// Returns whether each byte is written unescaped in a label's value. One step looks at 16.
fn are_plain(bytes: &[u8]) -> bool
    ensures { result ≡ list_all is_plain bytes.now }
{
    let mut rest = bytes;
    while let Some((chunk, more)) = rest.split_first_chunk::<16>() {
        if !are_few_plain(chunk) {
            return false;
        }
        rest = more;
    }
    are_few_plain(rest)
}

/// Writes a label's value, escaped character by character.
fn write_escapes(text: &mut String, value: &str) -> Result<(), AllocError>
    ensures { OnOk result (string_bytes text.new ≡ string_bytes text.old ++ escaped value.now) }
{
    for c in value.chars() {
        write_escaped(text, c)?;
    }
    Ok(())
}

/// Writes a label's value. Backslashes, double quotes and line feeds are escaped.
///
/// Fails when out of memory, after a part of the value.
pub fn write_value(text: &mut String, value: &str) -> Result<(), AllocError>
    ensures { OnOk result (string_bytes text.new ≡ string_bytes text.old ++ escaped value.now) }
{
    if are_plain(value.as_bytes()) {
        return text.push_str(value);
    }
    write_escapes(text, value)
}

/// Writes a character of a description.
fn write_help_escaped(text: &mut String, c: char) -> Result<(), AllocError>
    ensures { OnOk result (string_bytes text.new ≡ string_bytes text.old ++ help_escape c) }
{
    match c {
        '\\' => text.push_str("\\\\"),
        '\n' => text.push_str("\\n"),
        _ => text.push(c),
    }
}

/// Writes a description. Backslashes and line feeds are escaped.
///
/// Fails when out of memory, after a part of the description.
pub fn write_help_text(text: &mut String, help: &str) -> Result<(), AllocError>
    ensures { OnOk result (string_bytes text.new ≡ string_bytes text.old ++ help_escaped help.now) }
{
    for c in help.chars() {
        write_help_escaped(text, c)?;
    }
    Ok(())
}
