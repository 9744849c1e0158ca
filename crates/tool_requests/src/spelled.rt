//! Names that the text spells otherwise, since Prometheus doesn't allow them as they are.
ghost use Rattle.std.specs.Prelude.{◌≡◌, if◌then◌else◌};
ghost use Rattle.std.specs.List.{list_all};
ghost use Rattle.metrics_exposition.specs.Names.{begins, goes_on};
ghost use Rattle.tool_requests.specs.Spelled.{stays, is_rest};

use crate::flaws::{SHOWN, Shown};
use std::fmt;

/// Whether a name may begin with the character; only a metric's may have colons.
fn begins(c: char, colons: bool) -> bool
    ensures { result ≡ begins colons c }
{
    c.is_ascii_alphabetic() || c == '_' || (colons && c == ':')
}

/// Whether a name may have the character there.
fn is_allowed(c: char, is_first: bool, colons: bool) -> bool
    ensures { result ≡ (if is_first then begins colons c else goes_on colons c) }
{
    begins(c, colons) || (!is_first && c.is_ascii_digit())
}

/// Whether all bytes are allowed after the first one of a name.
fn go_on(bytes: &[u8], colons: bool) -> bool
    ensures { result ≡ list_all (goes_on colons) bytes.now }
{
    for byte in bytes {
        if !is_allowed(*byte as char, false, colons) {
            return false;
        }
    }
    true
}

/// Whether Prometheus allows this as a name, or as the end of one.
fn is_name(name: &[u8], is_whole: bool, colons: bool) -> bool
    ensures { result ≡ (if is_whole then stays colons 0 name.now else is_rest colons name.now) }
{
    match name {
        [] => false,
        [first, rest @ ..] => is_allowed(*first as char, is_whole, colons) && go_on(rest, colons),
    }
}

/// Returns whether the text has a name as it is, apart from so many bytes at its front.
pub fn is_as_given(name: &str, front: usize, colons: bool) -> bool
    ensures { result ≡ stays colons front name.now }
{
    match name.as_bytes().get(front..) {
        Some(rest) => is_name(rest, front == 0, colons),
        None => false,
    }
}

/// A name that the text spells otherwise.
#[derive(Drop)]
pub struct Spelled<'a> {
    /// The number of the line that has it.
    pub number: u64,
    /// What it names.
    pub what: &'static str,
    /// The name as the line has it.
    pub name: &'a str,
    /// Colons are allowed.
    pub colons: bool,
}

impl fmt::Display for Spelled<'_> {
    fn fmt<W: fmt::Write>(&self, f: &mut fmt::Formatter<W>) -> fmt::Result {
        let Spelled {
            number,
            what,
            name,
            colons,
        } = *self;
        write!(
            f,
            "line {number}: {what} {} is spelled \"",
            Shown(name.as_bytes())
        )?;
        if name.is_empty() {
            f.write_char('_')?;
        }
        for (place, c) in name.chars().take(SHOWN).enumerate() {
            f.write_char(if is_allowed(c, place == 0, colons) {
                c
            } else {
                '_'
            })?;
        }
        f.write_str(if name.len() > SHOWN { "\".." } else { "\"" })
    }
}
