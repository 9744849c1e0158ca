//! The words of a line.
ghost use Rattle.std.specs.Prelude.{◌≡◌, ℕ, List, ◌++◌, All, true, false, MatchResult};
ghost use Rattle.tool_grammar.specs.Cuts.{Lacks, StartsAt};
ghost use Rattle.tool_requests.specs.Lines.{IsPlain, IsText, IsOfName, Fails};

use crate::flaws::{Cause, Unread};
use tool_grammar::split_before;

/// Whether a byte is no control character.
pub(crate) fn is_plain(byte: u8) -> bool
    ensures yes { result ≡ true → IsPlain byte }
    ensures no { result ≡ false → IsPlain byte → ⊥ }
{
    32 <= byte && byte != 127
}

/// Whether a text has no control character.
fn are_plain(text: &[u8]) -> bool
    ensures yes { result ≡ true → All IsPlain text.now }
    ensures no { result ≡ false → All IsPlain text.now → ⊥ }
{
    for byte in text {
        if !is_plain(*byte) {
            return false;
        }
    }
    true
}

/// Whether a byte is no brace, quote, comma or equals sign.
fn is_of_name(byte: u8) -> bool
    ensures yes { result ≡ true → IsOfName byte }
    ensures no { result ≡ false → IsOfName byte → ⊥ }
{
    byte != b'{' && byte != b'}' && byte != b'"' && byte != b',' && byte != b'='
}

/// Whether a text has no character that a name can't have, where a series is written with its labels.
pub(crate) fn are_of_name(text: &[u8]) -> bool
    ensures yes { result ≡ true → All IsOfName text.now }
    ensures no { result ≡ false → All IsOfName text.now → ⊥ }
{
    for byte in text {
        if !is_of_name(*byte) {
            return false;
        }
    }
    true
}

/// A text without control characters.
pub(crate) fn text_of(word: &[u8]) -> Result<&str, Unread<'_>>
    ensures { MatchResult result (λ text. IsText word.now × (text.now ≡ word.now)) (Fails (IsText word.now → ⊥)) }
{
    if !are_plain(word) {
        return Err(Unread::Bad(Cause::Control, word));
    }
    match str::from_utf8(word) {
        Ok(text) => Ok(text),
        Err(_) => Err(Unread::Bad(Cause::Bytes, word)),
    }
}

/// The text without control characters before the first such byte, and the others.
pub(crate) fn text_before(bytes: &[u8], end: u8) -> Result<(&str, &[u8]), Unread<'_>>
    ensures { MatchResult result
        (λ f. IsText f.0.now × Lacks end f.0.now × (bytes.now ≡ f.0.now ++ f.1.now) × StartsAt end f.1.now)
        (Fails ((text rest : List ℕ) → IsText text → Lacks end text → StartsAt end rest
        → bytes.now ≡ text ++ rest → ⊥)) }
{
    let (word, rest) = split_before(bytes, end);
    let text = text_of(word)?;
    Ok((text, rest))
}
