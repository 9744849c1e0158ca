//! Parses lines into calls.
ghost use Rattle.std.specs.Prelude.{◌≡◌, ℕ, List, ◌∷◌, ◌++◌, ◌<◌, ◌^◌, IsUtf8};
ghost use Rattle.std.specs.Prelude.{MatchResult, MatchOption, Option, Some, decimal, codes};
ghost use Rattle.metrics_names.specs.declared.kind.MetricKind.{MetricKind};
ghost use Rattle.metrics_names.specs.declared.refused.Refused.TheVariants.{Memory};
ghost use Rattle.metrics_names.specs.declared.common.Unit.{Unit as Measure};
ghost use Rattle.metrics.specs.declared.handles.Update.{Update as Change};
ghost use Rattle.metrics_names.specs.Names.{KeyParts, name_word, label_words, kind_word};
ghost use Rattle.tool_grammar.specs.Cuts.{Lacks};
ghost use Rattle.tool_grammar.specs.Grammar.{unit_word, update_word, amount_word};
ghost use Rattle.tool_grammar.specs.Grammar.{IsName, IsLabel, AreLabels, IsInRange, Spells, IsBad};

use crate::cuts::{split_at_first, split_before, strip_prefix};
use crate::numbers::number_of;
use crate::words::{kind_of, name_of, unit_of, update_of};
use metrics::{Call, Key, KeyName, Label, MetricKind, Refused, Reset, Text, Unit};
use std::alloc::Global;

/// The unit and text of a describe line.
fn unit_and_text(bytes: &[u8]) -> Option<(Option<Unit>, &str)>
    ensures { MatchOption result
        ((unit : Option Measure) (text : List ℕ) → IsUtf8 text → bytes.now ≡ unit_word unit ++ 32 ∷ text → ⊥)
        (λ found. IsUtf8 found.1.now × (bytes.now ≡ unit_word found.0 ++ 32 ∷ found.1.now)) }
{
    let (word, rest) = split_at_first(bytes, b' ')?;
    let unit = unit_of(word)?;
    let text = str::from_utf8(rest).ok()?;
    Some((unit, text))
}

/// The name, unit and text of a describe line.
fn described(bytes: &[u8]) -> Option<(&str, Option<Unit>, &str)>
    ensures { MatchOption result
        ((name : List ℕ) (unit : Option Measure) (text : List ℕ) → IsName name → IsUtf8 text →
        bytes.now ≡ name_word name ++ 32 ∷ (unit_word unit ++ 32 ∷ text) → ⊥)
        (λ found. IsName found.0.now × IsUtf8 found.2.now
        × (bytes.now ≡ name_word found.0.now ++ 32 ∷ (unit_word found.1 ++ 32 ∷ found.2.now))) }
{
    let (word, rest) = split_at_first(bytes, b' ')?;
    let name = name_of(word)?;
    let (unit, text) = unit_and_text(rest)?;
    Some((name, unit, text))
}

/// The kind of a line, and what follows it.
fn kind_and_rest(bytes: &[u8]) -> Option<(MetricKind, &[u8])>
    ensures { MatchOption result
        ((kind : MetricKind) (rest : List ℕ) → bytes.now ≡ kind_word kind ++ 32 ∷ rest → ⊥)
        (λ found. bytes.now ≡ kind_word found.0 ++ 32 ∷ found.1.now) }
{
    let (word, rest) = split_at_first(bytes, b' ')?;
    let kind = kind_of(word)?;
    Some((kind, rest))
}

/// The call of a describe line, from the bytes after its first word.
fn describe_of(alloc: Global, bytes: &[u8]) -> Result<Option<Call>, Refused>
    ensures { let line = codes "describe " ++ bytes.now in
        MatchResult result (λ found. MatchOption found (IsBad line) (Spells line)) (λ e. e ≡ Memory 0) }
{
    let Some((kind, rest)) = kind_and_rest(bytes) else {
        return Ok(None);
    };
    let Some((name, unit, text)) = described(rest) else {
        return Ok(None);
    };
    let name = KeyName::new(alloc, name)?;
    let text = Text::new(alloc, text)?;
    Ok(Some(Call::Describe(kind, name, unit, text)))
}

/// A label, from the bytes of its word.
fn label_of(alloc: Global, word: &[u8]) -> Result<Option<Label>, Refused>
    requires { Lacks 32 word.now }
    ensures { MatchResult result (λ found. MatchOption found
        ((l : List ℕ × List ℕ) → IsLabel l → word.now ≡ l.0 ++ 61 ∷ l.1 → ⊥)
        (λ l. IsLabel l × (word.now ≡ l.0 ++ 61 ∷ l.1))) (λ e. e ≡ Memory 0) }
{
    let Some((key, value)) = split_at_first(word, b'=') else {
        return Ok(None);
    };
    let Ok(key_text) = str::from_utf8(key) else {
        return Ok(None);
    };
    let Ok(value_text) = str::from_utf8(value) else {
        return Ok(None);
    };
    Ok(Some(Label::new(alloc, key_text, value_text)?))
}

/// The most labels that there can be: each has a space before it.
fn room_for(bytes: &[u8]) -> usize {
    bytes.iter().filter(|byte| **byte == b' ').count()
}

/// The labels of a register line, each with a space before it.
fn labels_of(alloc: Global, bytes: &[u8]) -> Result<Option<Vec<Label>>, Refused>
    ensures { MatchResult result (λ found. MatchOption found
        ((ls : List (List ℕ × List ℕ)) → AreLabels ls → bytes.now ≡ label_words ls → ⊥)
        (λ ls. AreLabels ls.items × (bytes.now ≡ label_words ls.items))) (λ e. e ≡ Memory 0) }
{
    let mut labels = Vec::with_capacity(alloc, room_for(bytes))?;
    let mut rest = bytes;
    while !rest.is_empty() {
        let Some(others) = strip_prefix(rest, b" ") else {
            return Ok(None);
        };
        let (word, after) = split_before(others, b' ');
        match label_of(alloc, word)? {
            Some(label) => labels.push(label)?,
            None => return Ok(None),
        }
        rest = after;
    }
    Ok(Some(labels))
}

/// Returns the key that name and labels spell, if they spell one. Fails only when out of memory.
pub fn key_of(alloc: Global, bytes: &[u8]) -> Result<Option<Key>, Refused>
    ensures { MatchResult result (λ found. MatchOption found
        ((key : KeyParts) → IsName key.name → AreLabels key.labels →
        bytes.now ≡ name_word key.name ++ label_words key.labels → ⊥)
        (λ key. IsName key.name × AreLabels key.labels
        × (bytes.now ≡ name_word key.name ++ label_words key.labels))) (λ e. e ≡ Memory 0) }
{
    let (word, rest) = split_before(bytes, b' ');
    let Some(name) = name_of(word) else {
        return Ok(None);
    };
    match labels_of(alloc, rest)? {
        Some(labels) => Ok(Some(Key::from_parts(alloc, name, labels)?)),
        None => Ok(None),
    }
}

/// The call of a register line, from the bytes after its first word.
fn register_of(alloc: Global, bytes: &[u8]) -> Result<Option<Call>, Refused>
    ensures { let line = codes "register " ++ bytes.now in
        MatchResult result (λ found. MatchOption found (IsBad line) (Spells line)) (λ e. e ≡ Memory 0) }
{
    let Some((kind, rest)) = kind_and_rest(bytes) else {
        return Ok(None);
    };
    match key_of(alloc, rest)? {
        Some(key) => Ok(Some(Call::Register(kind, key))),
        None => Ok(None),
    }
}

/// The number of a handle, and what follows it.
fn handle_and_rest(bytes: &[u8]) -> Option<(u64, &[u8])>
    ensures { MatchOption result
        ((h : ℕ) (rest : List ℕ) → h < 2 ^ 64 → bytes.now ≡ decimal h ++ 32 ∷ rest → ⊥)
        (λ found. (found.0 < 2 ^ 64) × (bytes.now ≡ decimal found.0 ++ 32 ∷ found.1.now)) }
{
    let (word, rest) = split_at_first(bytes, b' ')?;
    let handle = number_of(word)?;
    Some((handle, rest))
}

/// The call of an update line, from its first word and the bytes after it.
fn update_call_of(word: &[u8], bytes: &[u8]) -> Option<Call>
    ensures { MatchOption result
        ((h : ℕ) (by : Change) → h < 2 ^ 64 → IsInRange by →
        word.now ≡ update_word by → bytes.now ≡ decimal h ++ 32 ∷ amount_word by → ⊥)
        (Spells (word.now ++ 32 ∷ bytes.now)) }
{
    let (handle, amount) = handle_and_rest(bytes)?;
    let by = update_of(word, amount)?;
    Some(Call::Update(handle as usize, by))
}

/// The call of a snapshot line, from the bytes after its first word.
fn snapshot_of(bytes: &[u8]) -> Option<Call>
    ensures { let line = codes "snapshot " ++ bytes.now in MatchOption result (IsBad line) (Spells line) }
{
    let Some((book, word)) = split_at_first(bytes, b' ') else {
        let book = number_of(bytes)?;
        return Some(Call::Snapshot(book as usize));
    };
    let book = number_of(book)?;
    if word == b"keep".as_slice() {
        Some(Call::SnapshotWith(book as usize, Reset::KeepGauges))
    } else {
        None
    }
}

/// Returns the call that a line spells, if it spells one. Fails only when out of memory.
pub fn call_of(alloc: Global, line: &[u8]) -> Result<Option<Call>, Refused>
    ensures { MatchResult result (λ found. MatchOption found (IsBad line.now) (Spells line.now))
        (λ e. e ≡ Memory 0) }
{
    let Some((word, rest)) = split_at_first(line, b' ') else {
        return Ok(None);
    };
    if word == b"describe".as_slice() {
        return describe_of(alloc, rest);
    }
    if word == b"register".as_slice() {
        return register_of(alloc, rest);
    }
    if word == b"snapshot".as_slice() {
        return Ok(snapshot_of(rest));
    }
    Ok(update_call_of(word, rest))
}
