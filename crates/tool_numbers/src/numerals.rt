//! The parts of a number in decimal notation.
ghost use Rattle.std.specs.Prelude.{◌≡◌, ◌<◌, ◌≤◌, ◌+◌, ◌*◌, ◌^◌, ℕ, List, ◌++◌, length, MatchOption, IfSome, codes};
ghost use Rattle.std.specs.Str.Parse.{AllDigits, digits_value};
ghost use Rattle.tool_numbers.specs.Numerals.{whole_word, point_word, power_word, numeral_word, Power, Numeral};
ghost use Rattle.tool_numbers.specs.Numerals.{IsExponent, IsPower, IsFraction, IsNumeral, up, down};
ghost use Rattle.tool_numbers.specs.Parts.{HasParts};

use tool_grammar::{digit_of, number_of, split_before, strip_prefix};

/// The number that at most 18 digits write.
fn value_of(digits: &[u8]) -> Option<u64>
    requires { length digits.now ≤ 18 }
    ensures { MatchOption result (AllDigits 10 digits.now → ⊥)
        (λ n. AllDigits 10 digits.now × (n ≡ digits_value 10 digits.now)) }
{
    let mut n: u64 = 0;
    for byte in digits {
        let Some(digit) = digit_of(*byte) else {
            return None;
        };
        n = n * 10 + digit;
    }
    Some(n)
}

/// The exponent that one digit or two write.
fn exponent_of(digits: &[u8]) -> Option<u32>
    ensures { MatchOption result (IsExponent digits.now → ⊥)
        (λ n. IsExponent digits.now × (n ≡ digits_value 10 digits.now) × (n < 100)) }
{
    if digits.is_empty() || digits.len() > 2 {
        return None;
    }
    let Some(exponent) = value_of(digits) else {
        return None;
    };
    Some(exponent as u32)
}

/// By how many places a power of ten moves the point to the right, and to the left.
fn power_of(bytes: &[u8]) -> Option<(u32, u32)>
    ensures { MatchOption result ((power : Power) → IsPower power → bytes.now ≡ power_word power → ⊥)
        (λ f. (power : Power) × IsPower power × (bytes.now ≡ power_word power) × (f.0 ≡ up power) × (f.1 ≡ down power)
        × (f.0 < 100) × (f.1 < 100)) }
{
    if bytes.is_empty() {
        return Some((0, 0));
    }
    let Some(rest) = strip_prefix(bytes, b"e") else {
        return None;
    };
    if let Some(digits) = strip_prefix(rest, b"+") {
        return match exponent_of(digits) {
            Some(up) => Some((up, 0)),
            None => None,
        };
    }
    if let Some(digits) = strip_prefix(rest, b"-") {
        return match exponent_of(digits) {
            Some(down) => Some((0, down)),
            None => None,
        };
    }
    match exponent_of(rest) {
        Some(up) => Some((up, 0)),
        None => None,
    }
}

/// How many digits follow the point, and the number that they write.
fn fraction_of(bytes: &[u8]) -> Option<(u32, u64)>
    ensures { MatchOption result ((ds : List ℕ) → IsFraction ds → bytes.now ≡ point_word ds → ⊥)
        (λ f. (ds : List ℕ) × IsFraction ds × (bytes.now ≡ point_word ds) × (f.0 ≡ length ds)
        × (f.1 ≡ digits_value 10 ds) × (f.1 < 10 ^ f.0)) }
{
    if bytes.is_empty() {
        return Some((0, 0));
    }
    let Some(digits) = strip_prefix(bytes, b".") else {
        return None;
    };
    if digits.is_empty() || digits.len() > 18 {
        return None;
    }
    match value_of(digits) {
        Some(value) => Some((digits.len() as u32, value)),
        None => None,
    }
}

/// Whether a minus comes first, and the number before the point.
fn whole_of(bytes: &[u8]) -> Option<(bool, u64)>
    ensures { MatchOption result ((minus : _) (n : ℕ) → n < 2 ^ 64 → bytes.now ≡ whole_word minus n → ⊥)
        (λ f. (bytes.now ≡ whole_word f.0 f.1) × (f.1 < 2 ^ 64)) }
{
    match strip_prefix(bytes, b"-") {
        Some(digits) => match number_of(digits) {
            Some(n) => Some((true, n)),
            None => None,
        },
        None => match number_of(bytes) {
            Some(n) => Some((false, n)),
            None => None,
        },
    }
}

/// The parts of a number.
#[derive(Clone, Copy)]
pub(crate) struct Parts {
    /// A minus comes first.
    pub minus: bool,
    /// The number of its digits, without the point.
    pub digits: u128,
    /// How many digits follow the point.
    pub places: u32,
    /// There is no power of ten.
    pub is_plain: bool,
    /// By how many places the power moves the point to the right.
    pub up: u32,
    /// By how many places the power moves the point to the left.
    pub down: u32,
}

/// The number of the digits before the point and of those after it.
fn joined(whole: u64, places: u32, fraction: u64) -> u128
    requires { (places ≤ 18) × (fraction < 10 ^ places) }
    ensures { result ≡ whole * 10 ^ places + fraction }
{
    u128::from(whole) * 10u128.pow(places) + u128::from(fraction)
}

/// The parts of the number that a word writes.
pub(crate) fn parts_of(word: &[u8]) -> Option<Parts>
    ensures parts { MatchOption result ((n : Numeral) → IsNumeral n → word.now ≡ numeral_word n → ⊥)
        (λ p. (n : Numeral) × IsNumeral n × (word.now ≡ numeral_word n) × HasParts n p) }
    ensures few { IfSome result (λ p. (p.places ≤ 18) × (p.up < 100) × (p.down < 100)) }
{
    let (number, rest) = split_before(word, b'e');
    let (whole, tail) = split_before(number, b'.');
    let Some((minus, whole)) = whole_of(whole) else {
        return None;
    };
    let Some((places, fraction)) = fraction_of(tail) else {
        return None;
    };
    let Some((up, down)) = power_of(rest) else {
        return None;
    };
    Some(Parts {
        minus,
        digits: joined(whole, places, fraction),
        places,
        is_plain: rest.is_empty(),
        up,
        down,
    })
}
