//! Numbers in decimal notation.
ghost use Rattle.std.specs.Prelude.{◌≡◌, ◌<◌, ◌^◌, ℕ, ℤ, List, [], ◌∷◌, ◌++◌};
ghost use Rattle.std.specs.Prelude.{FitsSigned, MatchOption, decimal};
ghost use Rattle.std.specs.Char.{digit_value};
ghost use Rattle.std.specs.Fmt.{signed_decimal};
ghost use Rattle.std.specs.Int.{IsInRange, w64};

use crate::cuts::strip_prefix;

/// Returns the value of a digit.
pub fn digit_of(byte: u8) -> Option<u64>
    ensures { MatchOption result (IsInRange 48 57 byte → ⊥)
        (λ d. IsInRange 48 57 byte × (d ≡ digit_value byte) × (d < 10)) }
{
    if b'0' <= byte && byte <= b'9' {
        Some((byte - b'0') as u64)
    } else {
        None
    }
}

/// The number that prints as `n` does, with one byte more.
fn with_digit(n: u64, byte: u8) -> Option<u64>
    ensures { MatchOption result
        ((m : ℕ) (others : List ℕ) → m < 2 ^ 64 → decimal m ≡ decimal n ++ byte ∷ others → ⊥)
        (λ m. decimal m ≡ decimal n ++ byte ∷ []) }
{
    if n == 0 {
        return None;
    }
    let digit = digit_of(byte)?;
    n.checked_mul(10)?.checked_add(digit)
}

/// Returns the number below 2^64 that the digits print, in its printed form alone.
pub fn number_of(digits: &[u8]) -> Option<u64>
    ensures { MatchOption result ((n : ℕ) → n < 2 ^ 64 → digits.now ≡ decimal n → ⊥)
        (λ n. digits.now ≡ decimal n) }
{
    let (first, others) = digits.split_first()?;
    let mut n = digit_of(*first)?;
    for byte in others {
        n = with_digit(n, *byte)?;
    }
    Some(n)
}

/// The number from 0 to 2^63 - 1 that the digits of `n` print.
fn signed(n: u64) -> Option<i64>
    ensures { MatchOption result ((m : ℤ) → FitsSigned w64 m → signed_decimal m ≡ decimal n → ⊥)
        (λ m. signed_decimal m ≡ decimal n) }
{
    if n <= i64::MAX as u64 {
        Some(n as i64)
    } else {
        None
    }
}

/// The number from -2^63 to -1 that the digits of `n` print after a minus.
fn negated(n: u64) -> Option<i64>
    ensures { MatchOption result ((m : ℤ) → FitsSigned w64 m → signed_decimal m ≡ 45 ∷ decimal n → ⊥)
        (λ m. signed_decimal m ≡ 45 ∷ decimal n) }
{
    if n == 0 || n > 1 << 63 {
        return None;
    }
    Some(-((n - 1) as i64) - 1)
}

/// Returns the number from -2^63 to 2^63 - 1 that the word prints, in its printed form alone.
pub fn signed_number_of(word: &[u8]) -> Option<i64>
    ensures { MatchOption result ((n : ℤ) → FitsSigned w64 n → word.now ≡ signed_decimal n → ⊥)
        (λ n. word.now ≡ signed_decimal n) }
{
    match strip_prefix(word, b"-") {
        None => signed(number_of(word)?),
        Some(digits) => negated(number_of(digits)?),
    }
}
