//! The labels of a line.
ghost use Rattle.std.specs.Prelude.{◌≡◌, ◌≤◌, ℕ, List, [], ◌∷◌, ◌++◌, IsUtf8, true, false, insert};
ghost use Rattle.std.specs.Prelude.{MatchBool, MatchResult, MatchOption, IfErr, IfOk, OnOk, length};
ghost use Rattle.std.specs.Cmp.Lexicographic.{slice_cmp};
ghost use Rattle.std.specs.List.{AllByRecursion};
ghost use Rattle.std.specs.List.Sorted.{IsSorted};
ghost use Rattle.std.specs.Ordering.{nat_cmp};
ghost use Rattle.metrics.specs.declared.error.Error.TheVariants.{Memory as OutOfMemory};
ghost use Rattle.metrics_names.specs.Names.{label_cmp};
ghost use Rattle.metrics_exposition.specs.Labels.{placed};
ghost use Rattle.tool_grammar.specs.Cuts.{Lacks, StartsAt};
ghost use Rattle.tool_requests.specs.Lines.{IsText, escape, escaped, Written, label_word, label_words, StartsElse};
ghost use Rattle.tool_requests.specs.Lines.{CanBeValue, IsWritten, AreWritten, value_word, in_order, Fails};
ghost use Rattle.tool_requests.specs.Lines.{IsQuotable, LacksKey, HasRoom, with_label, with_labels};
ghost use Rattle.tool_requests.specs.declared.flaws.Unread.TheVariants.{Memory as NoMemory};

use crate::flaws::{Cause, Unread};
use crate::words::{is_plain, text_before, text_of};
use metrics::{Error, Label, Refused};
use std::alloc::{AllocError, Global};
use std::cmp::Ordering;
use tool_grammar::{place_of, split_at_first, split_before, strip_prefix};

/// The character that a backslash and this one spell.
fn unescaped(byte: u8) -> Option<u8>
    ensures { MatchOption result ((c : ℕ) → escape c ≡ 92 ∷ byte ∷ [] → ⊥)
        (λ c. IsQuotable c × (escape c ≡ 92 ∷ byte ∷ [])) }
{
    match byte {
        b'"' => Some(b'"'),
        b'\\' => Some(b'\\'),
        b'n' => Some(b'\n'),
        _ => None,
    }
}

/// So many of the first bytes, or all.
fn front(bytes: &[u8], count: usize) -> &[u8] {
    bytes.get(..count).unwrap_or(bytes)
}

/// The first byte of a quoted value that is not at its end, and what follows it.
fn next_byte(bytes: &[u8]) -> Result<(u8, &[u8]), Unread<'_>>
    requires { StartsElse 34 bytes.now }
    ensures { MatchResult result (λ f. IsQuotable f.0 × (bytes.now ≡ escape f.0 ++ f.1.now))
        (Fails ((c : ℕ) (rest : List ℕ) → IsQuotable c → bytes.now ≡ escape c ++ rest → ⊥)) }
{
    let Some((first, others)) = bytes.split_first() else {
        return Err(Unread::Bad(Cause::Unclosed, bytes));
    };
    if *first != b'\\' {
        return if is_plain(*first) {
            Ok((*first, others))
        } else {
            Err(Unread::Bad(Cause::Control, front(bytes, 1)))
        };
    }
    let Some((second, left)) = others.split_first() else {
        return Err(Unread::Bad(Cause::Unclosed, bytes));
    };
    match unescaped(*second) {
        Some(byte) => Ok((byte, left)),
        None => Err(Unread::Bad(Cause::Escape, front(bytes, 2))),
    }
}

/// Appends a byte.
fn put(value: &mut Vec<u8>, byte: u8) -> Result<(), AllocError>
    ensures { OnOk result (value.new.items ≡ value.old.items ++ byte ∷ []) }
{
    value.push(byte)?;
    Ok(())
}

/// The value after its first quote, and what follows its last one.
fn quoted(alloc: Global, bytes: &[u8]) -> Result<(Vec<u8>, &[u8]), Unread<'_>>
    ensures { MatchResult result
        (λ f. AllByRecursion IsQuotable f.0.items × (bytes.now ≡ escaped f.0.items ++ 34 ∷ f.1.now))
        (Fails ((value rest : List ℕ) → AllByRecursion IsQuotable value
        → bytes.now ≡ escaped value ++ 34 ∷ rest → ⊥)) }
{
    let mut value = Vec::new(alloc);
    let mut rest = bytes;
    while !rest.is_empty() {
        if let Some(left) = strip_prefix(rest, b"\"") {
            return Ok((value, left));
        }
        let (byte, others) = next_byte(rest)?;
        put(&mut value, byte)?;
        rest = others;
    }
    Err(Unread::Bad(Cause::Unclosed, bytes))
}

/// The value after its first quote, and what follows its last one: nothing, or a space.
fn closed(alloc: Global, bytes: &[u8]) -> Result<(Vec<u8>, &[u8]), Unread<'_>>
    ensures { MatchResult result (λ f. AllByRecursion IsQuotable f.0.items × (bytes.now ≡ escaped f.0.items ++ 34 ∷ f.1.now)
        × StartsAt 32 f.1.now)
        (Fails ((value rest : List ℕ) → AllByRecursion IsQuotable value → StartsAt 32 rest
        → bytes.now ≡ escaped value ++ 34 ∷ rest → ⊥)) }
{
    let (value, rest) = quoted(alloc, bytes)?;
    if !starts_at_space(rest) {
        return Err(Unread::Bad(Cause::AfterQuote, split_before(rest, b' ').0));
    }
    Ok((value, rest))
}

/// Whether the bytes are empty or begin with a space.
fn starts_at_space(bytes: &[u8]) -> bool
    ensures yes { result ≡ true → StartsAt 32 bytes.now }
    ensures no { result ≡ false → StartsAt 32 bytes.now → ⊥ }
{
    match bytes.first() {
        Some(first) => *first == b' ',
        None => true,
    }
}

/// A label of this key and this value.
fn label_of<'a>(
    alloc: Global,
    key: &str,
    value: &[u8],
    bytes: &'a [u8],
) -> Result<Label, Unread<'a>>
    ensures { MatchResult result (λ l. (l ≡ (key.now, value.now)) × IsUtf8 value.now) (Fails (IsUtf8 value.now → ⊥)) }
{
    match str::from_utf8(value) {
        Ok(value) => Ok(Label::new(alloc, key, value)?),
        Err(_) => Err(Unread::Bad(Cause::Bytes, bytes)),
    }
}

/// A label of this key with a quoted value, from after its first quote, and what follows it.
fn quoted_label<'a>(
    alloc: Global,
    key: &str,
    bytes: &'a [u8],
) -> Result<(Label, &'a [u8]), Unread<'a>>
    ensures { MatchResult result
        (λ f. (f.0.0 ≡ key.now) × CanBeValue true f.0.1 × (34 ∷ bytes.now ≡ value_word true f.0.1 ++ f.1.now)
        × StartsAt 32 f.1.now)
        (Fails ((value rest : List ℕ) → CanBeValue true value → StartsAt 32 rest
        → 34 ∷ bytes.now ≡ value_word true value ++ rest → ⊥)) }
{
    let (value, rest) = closed(alloc, bytes)?;
    let label = label_of(alloc, key, &value, bytes)?;
    Ok((label, rest))
}

/// A label of this key with an unquoted value, and what follows it.
fn bare_label<'a>(
    alloc: Global,
    key: &str,
    bytes: &'a [u8],
) -> Result<(Label, &'a [u8]), Unread<'a>>
    requires { StartsElse 34 bytes.now }
    ensures { MatchResult result
        (λ f. (f.0.0 ≡ key.now) × CanBeValue false f.0.1 × (bytes.now ≡ f.0.1 ++ f.1.now) × StartsAt 32 f.1.now)
        (Fails ((value rest : List ℕ) → CanBeValue false value → StartsAt 32 rest
        → bytes.now ≡ value ++ rest → ⊥)) }
{
    let (value, rest) = text_before(bytes, b' ')?;
    let label = Label::new(alloc, key, value)?;
    Ok((label, rest))
}

/// A label of this key with the value that begins here, and what follows it.
fn label_from<'a>(
    alloc: Global,
    key: &str,
    bytes: &'a [u8],
) -> Result<(Label, &'a [u8]), Unread<'a>>
    ensures { MatchResult result
        (λ f. (f.0.0 ≡ key.now) × ((quotes : _) × CanBeValue quotes f.0.1
        × (bytes.now ≡ value_word quotes f.0.1 ++ f.1.now) × StartsAt 32 f.1.now))
        (Fails ((quotes : _) (value rest : List ℕ) → CanBeValue quotes value → StartsAt 32 rest
        → bytes.now ≡ value_word quotes value ++ rest → ⊥)) }
{
    match strip_prefix(bytes, b"\"") {
        Some(bytes) => quoted_label(alloc, key, bytes),
        None => bare_label(alloc, key, bytes),
    }
}

/// The key of a label, and what follows its equals sign.
fn key_and_value(bytes: &[u8]) -> Result<(&str, &[u8]), Unread<'_>>
    ensures { MatchResult result
        (λ f. IsText f.0.now × Lacks 32 f.0.now × Lacks 61 f.0.now × (bytes.now ≡ f.0.now ++ 61 ∷ f.1.now))
        (Fails ((key rest : List ℕ) → IsText key → Lacks 32 key → Lacks 61 key
        → bytes.now ≡ key ++ 61 ∷ rest → ⊥)) }
{
    let Some((key, value)) = split_at_first(bytes, b'=') else {
        return Err(Unread::Bad(Cause::Label, split_before(bytes, b' ').0));
    };
    if place_of(key, b' ') < key.len() {
        return Err(Unread::Bad(Cause::Label, split_before(bytes, b' ').0));
    }
    let key = text_of(key)?;
    Ok((key, value))
}

/// The label that begins here with a space, and what follows it.
fn next_label(alloc: Global, bytes: &[u8]) -> Result<(Label, &[u8]), Unread<'_>>
    ensures { MatchResult result
        (λ f. (w : Written) × IsWritten w × (f.0 ≡ (w.key, w.value)) × (bytes.now ≡ label_word w ++ f.1.now)
        × StartsAt 32 f.1.now)
        (Fails ((w : Written) (rest : List ℕ) → IsWritten w → StartsAt 32 rest
        → bytes.now ≡ label_word w ++ rest → ⊥)) }
{
    let Some(bytes) = strip_prefix(bytes, b" ") else {
        return Err(Unread::Bad(Cause::AfterQuote, bytes));
    };
    let (key, value) = key_and_value(bytes)?;
    label_from(alloc, key, value)
}

/// Where a label's key is in order beside another key.
fn key_order(label: &Label, key: &str) -> Ordering
    ensures { result ≡ slice_cmp nat_cmp label.now.0 key.now }
{
    label.key().as_bytes().cmp(key.as_bytes())
}

/// The place of the label that has this key, or the place of a label with this key among those that lack it.
fn find_key(labels: &[Label], key: &str) -> Result<usize, usize>
    requires { IsSorted label_cmp labels.now }
    ensures { MatchResult result (λ _. LacksKey key.now labels.now → ⊥)
        (λ place. LacksKey key.now labels.now × (place ≤ length labels.now)
        × ((value : List ℕ) → insert labels.now place (key.now, value) ≡ placed (key.now, value) labels.now)) }
{
    labels.binary_search_by(|label| key_order(label, key))
}

/// Inserts a label at its place, unless another has its key. Returns whether it did.
fn put_label(labels: &mut Vec<Label>, label: Label) -> Result<bool, AllocError>
    requires { IsSorted label_cmp labels.old.items }
    ensures { IfOk result (λ is_new. MatchBool is_new
        (LacksKey label.0 labels.old.items × (labels.new.items ≡ placed label labels.old.items))
        (LacksKey label.0 labels.old.items → ⊥)) }
{
    match find_key(labels, label.key()) {
        Ok(_) => Ok(false),
        Err(place) => {
            labels.insert(place, label)?;
            Ok(true)
        }
    }
}

/// The most labels of a line.
const MOST: usize = 1000;

/// Reads the label that begins here, and inserts it at its place among the others. Returns what follows it.
fn read_label<'a>(
    alloc: Global,
    bytes: &'a [u8],
    labels: &mut Vec<Label>,
) -> Result<&'a [u8], Unread<'a>>
    requires { IsSorted label_cmp labels.old.items }
    ensures { MatchResult result
        (λ rest. (w : Written) × IsWritten w × LacksKey w.key labels.old.items × HasRoom labels.old.items
        × (labels.new.items ≡ placed (w.key, w.value) labels.old.items) × (bytes.now ≡ label_word w ++ rest.now)
        × StartsAt 32 rest.now)
        (Fails ((w : Written) (rest : List ℕ) → IsWritten w → StartsAt 32 rest → bytes.now ≡ label_word w ++ rest
        → LacksKey w.key labels.old.items → HasRoom labels.old.items → ⊥)) }
{
    if labels.len() >= MOST {
        return Err(Unread::Bad(Cause::Many, key_in(bytes)));
    }
    let (label, rest) = next_label(alloc, bytes)?;
    if !put_label(labels, label)? {
        return Err(Unread::Bad(Cause::Twice, key_in(bytes)));
    }
    Ok(rest)
}

/// The key of the label that begins here.
fn key_in(bytes: &[u8]) -> &[u8] {
    let word = split_before(bytes, b'=').0;
    word.strip_prefix(b" ").unwrap_or(word)
}

/// The most labels that there can be: each has a space before it.
fn room_for(bytes: &[u8]) -> usize {
    bytes.iter().filter(|byte| **byte == b' ').count().min(MOST)
}

/// The labels of a line, each with a space before it, in the order of their keys.
pub(crate) fn labels_of(alloc: Global, bytes: &[u8]) -> Result<Vec<Label>, Unread<'_>>
    ensures words { MatchResult result
        (λ labels. (ws : List Written) × AreWritten ws × (labels.items ≡ in_order ws) × (bytes.now ≡ label_words ws))
        (Fails ((ws : List Written) → AreWritten ws → bytes.now ≡ label_words ws → ⊥)) }
    ensures sorted { IfOk result (λ labels. IsSorted label_cmp labels.items) }
{
    let mut labels = Vec::with_capacity(alloc, room_for(bytes))?;
    let mut rest = bytes;
    while !rest.is_empty() {
        rest = read_label(alloc, rest, &mut labels)?;
    }
    Ok(labels)
}

/// Puts a copy of a common label in its place, unless a label has its key.
fn put_common(alloc: Global, labels: &mut Vec<Label>, common: &Label) -> Result<(), Refused>
    requires { IsSorted label_cmp labels.old.items }
    ensures { OnOk result (labels.new.items ≡ with_label common.now labels.old.items) }
{
    let Err(place) = find_key(labels, common.key()) else {
        return Ok(());
    };
    let copy = Label::new(alloc, common.key(), common.value())?;
    labels.insert(place, copy)?;
    Ok(())
}

/// A series' own labels in order, and the common ones beside them.
pub(crate) fn with_labels<'a>(
    alloc: Global,
    common: &[Label],
    own: Vec<Label>,
) -> Result<Vec<Label>, Unread<'a>>
    requires { IsSorted label_cmp own.items }
    ensures ok { IfOk result (λ all. all.items ≡ with_labels common.now own.items) }
    ensures err { IfErr result (λ e. e ≡ NoMemory) }
{
    let mut all = own;
    for label in common {
        put_common(alloc, &mut all, label)?;
    }
    Ok(all)
}

/// Returns the labels of a series that has none of its own: the common ones, in order. Fails only when out of memory.
pub fn common_labels(alloc: Global, common: &[Label]) -> Result<Vec<Label>, Error>
    ensures ok { IfOk result (λ all. all.items ≡ with_labels common.now []) }
    ensures err { IfErr result (λ e. e ≡ OutOfMemory) }
{
    match with_labels(alloc, common, Vec::new(alloc)) {
        Ok(labels) => Ok(labels),
        Err(_) => Err(Error::Memory),
    }
}
