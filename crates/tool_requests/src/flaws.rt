//! Why a line is bad, and the message for it.
ghost use Rattle.std.specs.Prelude.{◌≡◌};

use crate::amounts::Limits;
use metrics::Refused;
use std::alloc::AllocError;
use std::fmt;
use tool_grammar::split_before;

/// What is wrong with a word of a line, or with a line.
#[derive(Clone, Copy, Debug, PartialEq, Eq)]
pub enum Cause {
    /// No line begins with this word.
    FirstWord,
    /// The line ends before this word.
    Missing(&'static str),
    /// Two spaces are side by side, or one is at the end.
    Empty,
    /// Expected a number from 0 to 2^64 - 1.
    Whole,
    /// Expected a number from -2^63 to 2^63 - 1.
    Signed,
    /// Expected a number with so many decimal places at most.
    Number(u8),
    /// The number has more decimal places than these.
    Places(u8),
    /// The number is too large or too small: whether it may be negative, and the decimal places of its name.
    Range(bool, u8),
    /// Expected a kind of series.
    Kind,
    /// Expected a unit.
    Unit,
    /// Expected `LABEL=VALUE`.
    Label,
    /// Another label of the line has this key.
    Twice,
    /// A quoted value has no quote at its end.
    Unclosed,
    /// A backslash precedes a character other than a quote, a backslash or an n.
    Escape,
    /// Something other than a space follows a quoted value.
    AfterQuote,
    /// A name, a label or a TEXT has a control character.
    Control,
    /// A word isn't UTF-8.
    Bytes,
    /// A name has braces, a quote, a comma or an equals sign: a series with its labels in one word.
    Name,
    /// The line has more than 1,000 labels.
    Many,
    /// The last line has no line feed.
    Partial,
}

/// Why a line is no request.
#[derive(Clone, Copy, Debug)]
pub enum Unread<'a> {
    /// Out of memory for the request.
    Memory,
    /// The line is bad: what is wrong, and with which word.
    Bad(Cause, &'a [u8]),
}

impl<'a> From<Refused> for Unread<'a> {
    ghost use Rattle.tool_requests.specs.declared.flaws.Unread.TheVariants.{Memory};

    ghost from_gives = { λ _ e. e ≡ Memory };

    fn from(_error: Refused) -> Unread<'a> {
        Unread::Memory
    }
}

impl<'a> From<AllocError> for Unread<'a> {
    ghost use Rattle.tool_requests.specs.declared.flaws.Unread.TheVariants.{Memory};

    ghost from_gives = { λ _ e. e ≡ Memory };

    fn from(_error: AllocError) -> Unread<'a> {
        Unread::Memory
    }
}

/// The message for a bad line.
#[derive(Drop)]
pub struct Message<'a> {
    /// The number of the line, from 1.
    pub number: u64,
    /// The line without its line feed.
    pub line: &'a [u8],
    /// Why it is bad.
    pub cause: Cause,
    /// The word at fault.
    pub word: &'a [u8],
}

impl fmt::Display for Message<'_> {
    fn fmt<W: fmt::Write>(&self, f: &mut fmt::Formatter<W>) -> fmt::Result {
        let number = self.number;
        let form = form_of(split_before(self.line, b' ').0);
        let word = Shown(self.word);
        let wanted = wanted(self.cause, self.word);
        match self.cause {
            Cause::Missing(what) => write!(f, "line {number}: {what} is missing{form}"),
            Cause::Empty => write!(f, "line {number}: {wanted}{form}"),
            Cause::Partial => write!(f, "line {number}: {word} {wanted}"),
            Cause::Number(places) => {
                let places = AtMost(places);
                write!(
                    f,
                    "line {number}: {word} is no number of at most {places}, without needless zeros{form}"
                )
            }
            Cause::Places(places) => {
                let places = AtMost(places);
                write!(f, "line {number}: {word} has more than {places}{form}")
            }
            Cause::Range(signed, places) => {
                let limits = Limits { signed, places };
                write!(f, "line {number}: {word} is not from {limits}{form}")
            }
            Cause::Twice | Cause::Many => {
                write!(f, "line {number}: label {word} {wanted}{form}")
            }
            _ => write!(f, "line {number}: {word} {wanted}{form}"),
        }
    }
}

/// A number of decimal places.
#[derive(Drop)]
struct AtMost(u8);

impl fmt::Display for AtMost {
    fn fmt<W: fmt::Write>(&self, f: &mut fmt::Formatter<W>) -> fmt::Result {
        let places = self.0;
        let end = if places == 1 { "" } else { "s" };
        write!(f, "{places} decimal place{end}")
    }
}

/// How many bytes of a word a message shows.
pub(crate) const SHOWN: usize = 80;

/// A word in quotes, with its length if only a beginning is shown. Bytes that are no text are in hexadecimal.
#[derive(Drop)]
pub(crate) struct Shown<'a>(pub &'a [u8]);

impl fmt::Display for Shown<'_> {
    fn fmt<W: fmt::Write>(&self, f: &mut fmt::Formatter<W>) -> fmt::Result {
        let word = self.0;
        let front = &word[..word.len().min(SHOWN)];
        f.write_char('"')?;
        for chunk in front.utf8_chunks() {
            write!(f, "{}", chunk.valid().escape_debug())?;
            for byte in chunk.invalid() {
                write!(f, "\\x{byte:02x}")?;
            }
        }
        f.write_char('"')?;
        if front.len() < word.len() {
            write!(f, ".. of {} bytes", word.len())?;
        }
        Ok(())
    }
}

/// The message for a word with this flaw.
fn wanted(cause: Cause, word: &[u8]) -> &'static str {
    match cause {
        Cause::FirstWord => "is not increment, absolute, add, sub, set, record, describe or scrape",
        Cause::Whole if is_digits(word) =>
            "is not from 0 to 18446744073709551615, without needless zeros",
        Cause::Signed if is_digits(word) => {
            "is not from -9223372036854775808 to 9223372036854775807, without needless zeros"
        }
        Cause::Whole | Cause::Signed if word.is_empty() => {
            "is no number: one space stands between two words"
        }
        Cause::Whole | Cause::Signed => "is not a whole number",
        Cause::Kind => "is not counter, gauge or histogram",
        Cause::Unit => {
            "is not -, count, percent, seconds, milliseconds, microseconds, nanoseconds or bytes"
        }
        Cause::Label => "is not LABEL=VALUE",
        Cause::Unclosed => "has no quote at its end",
        Cause::Escape => "is not \\\", \\\\ or \\n",
        Cause::AfterQuote => "follows a closing quote: put a space between",
        Cause::Control => "has a control character",
        Cause::Bytes => "is not UTF-8",
        Cause::Name =>
            "is no NAME: it has {, }, \", a comma or =, and each label is a word of its own",
        Cause::Many => "is past the 1000th",
        Cause::Partial => "has no line feed at its end, and is not counted",
        Cause::Twice => "comes twice",
        Cause::Empty => "a word is empty: one space stands between two words",
        Cause::Missing(_) => "is missing",
        Cause::Number(_) | Cause::Places(_) | Cause::Range(_, _) => "is no number here",
    }
}

/// Whether a word is digits, with or without a minus.
fn is_digits(word: &[u8]) -> bool {
    let digits = word.strip_prefix(b"-").unwrap_or(word);
    !digits.is_empty() && digits.iter().all(|byte| byte.is_ascii_digit())
}

/// The form of the lines that begin with a word.
fn form_of(word: &[u8]) -> &'static str {
    match word {
        b"increment" => " (increment N NAME LABEL=VALUE ..)",
        b"absolute" => " (absolute N NAME LABEL=VALUE ..)",
        b"add" => " (add N NAME LABEL=VALUE ..)",
        b"sub" => " (sub N NAME LABEL=VALUE ..)",
        b"set" => " (set N NAME LABEL=VALUE ..)",
        b"record" => " (record N NAME LABEL=VALUE ..)",
        b"describe" => " (describe KIND NAME UNIT TEXT)",
        b"scrape" => " (scrape NOW, or scrape alone)",
        _ => "",
    }
}
