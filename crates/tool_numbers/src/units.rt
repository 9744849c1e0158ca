//! What a number in decimal notation is in units of the last of so many decimal places.
ghost use Rattle.std.specs.Prelude.{◌≡◌, true, false, ◌<◌, ◌^◌, ◌≤◌, ℕ, ℤ, pos, ◌&&◌, nat_lt, FitsSigned, MatchOption};
ghost use Rattle.std.specs.Int.{w64};
ghost use Rattle.metrics.specs.declared.handles.Update.{Update as Change};
ghost use Rattle.tool_grammar.specs.Grammar.{update_word};
ghost use Rattle.tool_numbers.specs.Numerals.{IsNumber, IsAmount, signed};
ghost use Rattle.tool_numbers.specs.Parts.{HasParts};

use crate::numerals::{Parts, parts_of};
use crate::shifts::shifted;
use metrics::Update;
use tool_grammar::{number_of, signed_number_of};

/// Whether a word is a number in decimal notation, with any decimal places.
pub fn is_numeral(word: &[u8]) -> bool {
    word != b"-0".as_slice() && parts_of(word).is_some()
}

/// Whether the number of a word is no whole number of units of the last of so many decimal places.
pub fn has_place_too_many(word: &[u8], places: u8) -> bool {
    match parts_of(word) {
        Some(parts) => has_too_many(&parts, places) || is_cut(&parts, places),
        None => false,
    }
}

/// Whether a number with a power of ten has units only in part.
fn is_cut(parts: &Parts, places: u8) -> bool {
    let up = u32::from(places).saturating_add(parts.up);
    let down = parts.places.saturating_add(parts.down);
    if down <= up {
        return false;
    }
    match 10u128.checked_pow(down - up) {
        Some(power) => power > 0 && parts.digits % power != 0,
        None => parts.digits != 0,
    }
}

/// Whether a number has more decimal places than these.
fn has_too_many(parts: &Parts, places: u8) -> bool
    ensures { result ≡ (parts.now.is_plain && nat_lt places parts.now.places) }
{
    parts.is_plain && parts.places > u32::from(places)
}

/// Whether the number of a word is below zero, and how many units it is without its sign, if they are below 2^64.
fn units_of(word: &[u8], places: u8) -> Option<(bool, u64)>
    ensures { MatchOption result
        ((minus : _) (units : ℕ) → units < 2 ^ 64 → IsNumber places (signed minus units) word.now → ⊥)
        (λ f. IsNumber places (signed f.0 f.1) word.now) }
{
    if word == b"-0".as_slice() {
        return None;
    }
    let Some(parts) = parts_of(word) else {
        return None;
    };
    if has_too_many(&parts, places) {
        return None;
    }
    match shifted(
        parts.digits,
        u32::from(places) + parts.up,
        parts.places + parts.down,
    ) {
        Some(units) => Some((parts.minus, units)),
        None => None,
    }
}

/// A number of units with its sign, if it is none below zero.
fn unsigned(minus: bool, units: u64) -> Option<u64>
    ensures { MatchOption result ((n : ℕ) → pos n ≡ signed minus units → ⊥) (λ n. pos n ≡ signed minus units) }
{
    if minus && units != 0 {
        None
    } else {
        Some(units)
    }
}

/// The number from 0 to 2^64 - 1 of units that a word is.
fn count_in(word: &[u8], places: u8) -> Option<u64>
    ensures { MatchOption result ((n : ℕ) → n < 2 ^ 64 → IsNumber places (pos n) word.now → ⊥)
        (λ n. IsNumber places (pos n) word.now) }
{
    if places == 0 {
        if let Some(n) = number_of(word) {
            return Some(n);
        }
    }
    match units_of(word, places) {
        Some((minus, units)) => unsigned(minus, units),
        None => None,
    }
}

/// The number from -2^63 to 2^63 - 1 of units that a word is.
fn level_in(word: &[u8], places: u8) -> Option<i64>
    ensures { MatchOption result ((z : ℤ) → FitsSigned w64 z → IsNumber places z word.now → ⊥)
        (λ z. IsNumber places z word.now) }
{
    if places == 0 {
        if let Some(n) = signed_number_of(word) {
            return Some(n);
        }
    }
    match units_of(word, places) {
        Some((minus, units)) => small_level(minus, units),
        None => None,
    }
}

/// A number of units with its sign, if it is from -2^63 to 2^63 - 1.
fn small_level(minus: bool, units: u64) -> Option<i64>
    ensures { MatchOption result (FitsSigned w64 (signed minus units) → ⊥) (λ z. z ≡ signed minus units) }
{
    let wide = i128::from(units);
    let wide = if minus { -wide } else { wide };
    if i128::from(i64::MIN) <= wide && wide <= i128::from(i64::MAX) {
        Some(wide as i64)
    } else {
        None
    }
}

/// Whether a word is this one.
fn is_word(word: &[u8], other: &[u8]) -> bool
    ensures yes { result ≡ true → word.now ≡ other.now }
    ensures no { result ≡ false → word.now ≡ other.now → ⊥ }
{
    word == other
}

/// Returns the update that a line's first word names, by the amount in the last one: in units of the last of so many decimal
/// places.
#[tactic(auto, using(crate::proofs::VerbLemmas::verbs))]
pub fn update_in(word: &[u8], amount: &[u8], places: u8) -> Option<Update>
    ensures { MatchOption result
        ((by : Change) → IsAmount places by amount.now → word.now ≡ update_word by → ⊥)
        (λ by. IsAmount places by amount.now × (word.now ≡ update_word by)) }
{
    if is_word(word, b"increment") {
        return match count_in(amount, places) {
            Some(n) => Some(Update::Increment(n)),
            None => None,
        };
    }
    if is_word(word, b"absolute") {
        return match count_in(amount, places) {
            Some(n) => Some(Update::Absolute(n)),
            None => None,
        };
    }
    if is_word(word, b"add") {
        return match level_in(amount, places) {
            Some(n) => Some(Update::Add(n)),
            None => None,
        };
    }
    if is_word(word, b"sub") {
        return match level_in(amount, places) {
            Some(n) => Some(Update::Subtract(n)),
            None => None,
        };
    }
    if is_word(word, b"set") {
        return match level_in(amount, places) {
            Some(n) => Some(Update::Set(n)),
            None => None,
        };
    }
    if is_word(word, b"record") {
        return match level_in(amount, places) {
            Some(n) => Some(Update::Record(n)),
            None => None,
        };
    }
    None
}
