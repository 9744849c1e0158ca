//! Cuts bytes at a byte.
ghost use Rattle.std.specs.Prelude.{◌≡◌, ℕ, List, ◌∷◌, ◌++◌, ◌<◌, ◌≤◌, take, length, MatchOption};
ghost use Rattle.std.specs.Prelude.{slice_index};
ghost use Rattle.tool_grammar.specs.Cuts.{Lacks, StartsAt};

use memchr::memchr;

/// Returns how many bytes precede the first such byte, or the number of all.
pub fn place_of(bytes: &[u8], byte: u8) -> usize
    ensures bound { result ≤ length bytes.now }
    ensures before { Lacks byte (take result bytes.now) }
    ensures at { result < length bytes.now → slice_index bytes.now result ≡ byte }
{
    match memchr(byte, bytes) {
        Some(place) => place,
        None => bytes.len(),
    }
}

/// Returns what follows `front`, if the line begins with it.
pub fn strip_prefix<'a>(line: &'a [u8], front: &[u8]) -> Option<&'a [u8]>
    ensures { MatchOption result ((rest : List ℕ) → line.now ≡ front.now ++ rest → ⊥)
        (λ rest. line.now ≡ front.now ++ rest.now) }
{
    line.strip_prefix(front)
}

/// Returns the bytes before the first such byte, and the others.
pub fn split_before(bytes: &[u8], byte: u8) -> (&[u8], &[u8])
    ensures whole { bytes.now ≡ result.0.now ++ result.1.now }
    ensures before { Lacks byte result.0.now }
    ensures others { StartsAt byte result.1.now }
{
    let place = place_of(bytes, byte);
    (&bytes[..place], &bytes[place..])
}

/// Returns the bytes before the first such byte, and those after it.
pub fn split_at_first(bytes: &[u8], byte: u8) -> Option<(&[u8], &[u8])>
    ensures { MatchOption result ((front back : List ℕ) → bytes.now ≡ front ++ byte ∷ back → ⊥)
        (λ parts. (bytes.now ≡ parts.0.now ++ byte ∷ parts.1.now) × Lacks byte parts.0.now) }
{
    let place = place_of(bytes, byte);
    if place < bytes.len() {
        Some((&bytes[..place], &bytes[place + 1..]))
    } else {
        None
    }
}
