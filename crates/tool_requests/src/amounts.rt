//! What is wrong with the amount of an update.

use crate::flaws::Cause;
use std::fmt;
use tool_numbers::{has_place_too_many, is_numeral};

/// Whether the amounts of a line that begins with this word may be negative, if it is an update.
fn is_signed(word: &[u8]) -> Option<bool> {
    match word {
        b"increment" | b"absolute" => Some(false),
        b"add" | b"sub" | b"set" | b"record" => Some(true),
        _ => None,
    }
}

/// Whether a line may begin with this word and this amount, whatever its name.
pub(crate) fn is_amount(word: &[u8], amount: &[u8]) -> bool {
    is_signed(word).is_some() && is_numeral(amount)
}

/// What is wrong with a first word that is no update.
fn first_word_flaw(word: &[u8]) -> Cause {
    if word.is_empty() {
        Cause::Empty
    } else {
        Cause::FirstWord
    }
}

/// What is wrong with a line that ends after its first word.
pub(crate) fn no_amount(word: &[u8]) -> Cause {
    match is_signed(word) {
        Some(_) => Cause::Missing("N"),
        None => first_word_flaw(word),
    }
}

/// What is wrong with an amount of so many decimal places at most.
fn number_flaw(signed: bool, amount: &[u8], places: u8) -> Cause {
    let is_number = is_numeral(amount);
    let is_plain = places == 0 && !amount.contains(&b'e');
    if is_number && !is_plain && !has_place_too_many(amount, places) {
        return Cause::Range(signed, places);
    }
    match (places, signed) {
        (0, true) => Cause::Signed,
        (0, false) => Cause::Whole,
        _ if is_number => Cause::Places(places),
        _ => Cause::Number(places),
    }
}

/// What is wrong with a first word and an amount that are no update, and with which of the two.
pub(crate) fn amount_flaw<'a>(word: &'a [u8], amount: &'a [u8], places: u8) -> (Cause, &'a [u8]) {
    match is_signed(word) {
        Some(signed) => (number_flaw(signed, amount, places), amount),
        None => (first_word_flaw(word), word),
    }
}

/// The least and the greatest amount with so many decimal places.
#[derive(Drop)]
pub(crate) struct Limits {
    pub signed: bool,
    pub places: u8,
}

impl fmt::Display for Limits {
    fn fmt<W: fmt::Write>(&self, f: &mut fmt::Formatter<W>) -> fmt::Result {
        let Limits { signed, places } = *self;
        if signed {
            write!(f, "-")?;
            write_pointed(f, 1 << 63, places)?;
            write!(f, " to ")?;
            write_pointed(f, (1 << 63) - 1, places)
        } else {
            write!(f, "0 to ")?;
            write_pointed(f, u64::MAX, places)
        }
    }
}

/// Writes so many units of the last of so many decimal places.
fn write_pointed<W: fmt::Write>(f: &mut fmt::Formatter<W>, units: u64, places: u8) -> fmt::Result {
    match 10u64.checked_pow(u32::from(places)) {
        Some(one) if places > 0 => {
            let rest = units % one;
            write!(f, "{}.{rest:0width$}", units / one, width = places as usize)
        }
        _ => write!(f, "{units}"),
    }
}
