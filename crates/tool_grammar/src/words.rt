//! The words of a line: names, kinds, units and updates.
ghost use Rattle.std.specs.Prelude.{◌≡◌, ◌≢◌, ℕ, List, MatchOption, Option, Some, codes};
ghost use Rattle.metrics_names.specs.declared.kind.MetricKind.{MetricKind};
ghost use Rattle.metrics_names.specs.declared.common.Unit.{Unit as Measure};
ghost use Rattle.metrics.specs.declared.handles.Update.{Update as Change};
ghost use Rattle.tool_grammar.specs.Cuts.{Lacks};
ghost use Rattle.tool_grammar.specs.Grammar.{unit_word, update_word, amount_word, IsName, IsInRange};
ghost use Rattle.tool_grammar.specs.Kinds.{HasKind, kinds_word};
ghost use Rattle.metrics_names.specs.Names.{name_word, kind_word};

use crate::numbers::{number_of, signed_number_of};
use metrics::{MetricKind, MetricKindMask, Unit, Update};

/// Returns the text of a word, where a dash is the empty text.
pub fn name_of(word: &[u8]) -> Option<&str>
    requires { Lacks 32 word.now }
    ensures { MatchOption result ((name : List ℕ) → IsName name → word.now ≡ name_word name → ⊥)
        (λ name. IsName name.now × (word.now ≡ name_word name.now)) }
{
    if word == b"-".as_slice() {
        return Some("");
    }
    if word.is_empty() {
        return None;
    }
    str::from_utf8(word).ok()
}

/// Returns the kind that a word names.
pub fn kind_of(word: &[u8]) -> Option<MetricKind>
    ensures { MatchOption result ((kind : MetricKind) → word.now ≡ kind_word kind → ⊥)
        (λ kind. word.now ≡ kind_word kind) }
{
    match word {
        b"counter" => Some(MetricKind::Counter),
        b"gauge" => Some(MetricKind::Gauge),
        b"histogram" => Some(MetricKind::Histogram),
        _ => None,
    }
}

/// Returns the kinds that the letters of a word name.
pub fn kinds_of(word: &[u8]) -> Option<MetricKindMask>
    ensures { MatchOption result ((kinds : ℕ) → HasKind kinds → word.now ≡ kinds_word kinds → ⊥)
        (λ kinds. HasKind kinds × (word.now ≡ kinds_word kinds)) }
{
    match word {
        b"c" => Some(MetricKindMask::COUNTER),
        b"g" => Some(MetricKindMask::GAUGE),
        b"h" => Some(MetricKindMask::HISTOGRAM),
        b"cg" => Some(MetricKindMask::COUNTER | MetricKindMask::GAUGE),
        b"ch" => Some(MetricKindMask::COUNTER | MetricKindMask::HISTOGRAM),
        b"gh" => Some(MetricKindMask::GAUGE | MetricKindMask::HISTOGRAM),
        b"cgh" => Some(MetricKindMask::ALL),
        _ => None,
    }
}

/// Returns the unit that a word names; a dash is none.
pub fn unit_of(word: &[u8]) -> Option<Option<Unit>>
    ensures { MatchOption result ((unit : Option Measure) → word.now ≡ unit_word unit → ⊥)
        (λ unit. word.now ≡ unit_word unit) }
{
    if word == b"-".as_slice() {
        return Some(None);
    }
    match time_of(word) {
        Some(unit) => Some(Some(unit)),
        None => Some(Some(amount_unit_of(word)?)),
    }
}

/// The unit of time that a word names.
fn time_of(word: &[u8]) -> Option<Unit>
    ensures { MatchOption result
        ((word.now ≢ codes "seconds") × (word.now ≢ codes "milliseconds")
        × (word.now ≢ codes "microseconds") × (word.now ≢ codes "nanoseconds"))
        (λ unit. word.now ≡ unit_word (Some unit)) }
{
    if word == b"milliseconds".as_slice() {
        return Some(Unit::Milliseconds);
    }
    if word == b"microseconds".as_slice() {
        return Some(Unit::Microseconds);
    }
    if word == b"seconds".as_slice() {
        return Some(Unit::Seconds);
    }
    if word == b"nanoseconds".as_slice() {
        return Some(Unit::Nanoseconds);
    }
    None
}

/// The unit, other than of time, that a word names.
fn amount_unit_of(word: &[u8]) -> Option<Unit>
    ensures { MatchOption result
        ((word.now ≢ codes "count") × (word.now ≢ codes "percent") × (word.now ≢ codes "bytes"))
        (λ unit. word.now ≡ unit_word (Some unit)) }
{
    if word == b"count".as_slice() {
        return Some(Unit::Count);
    }
    if word == b"percent".as_slice() {
        return Some(Unit::Percent);
    }
    if word == b"bytes".as_slice() {
        return Some(Unit::Bytes);
    }
    None
}

/// Returns the word of a unit; a dash is none.
pub fn unit_text(unit: Option<Unit>) -> &'static str
    ensures { result.now ≡ unit_word unit }
{
    match unit {
        None => "-",
        Some(Unit::Count) => "count",
        Some(Unit::Percent) => "percent",
        Some(Unit::Seconds) => "seconds",
        Some(Unit::Milliseconds) => "milliseconds",
        Some(Unit::Microseconds) => "microseconds",
        Some(Unit::Nanoseconds) => "nanoseconds",
        Some(Unit::Bytes) => "bytes",
    }
}

/// Returns the update that a line's first word names, by the amount in the last one.
pub fn update_of(word: &[u8], amount: &[u8]) -> Option<Update>
    ensures { MatchOption result
        ((by : Change) → IsInRange by → word.now ≡ update_word by → amount.now ≡ amount_word by → ⊥)
        (λ by. IsInRange by × (word.now ≡ update_word by) × (amount.now ≡ amount_word by)) }
{
    match word {
        b"increment" => Some(Update::Increment(number_of(amount)?)),
        b"absolute" => Some(Update::Absolute(number_of(amount)?)),
        b"add" => Some(Update::Add(signed_number_of(amount)?)),
        b"sub" => Some(Update::Subtract(signed_number_of(amount)?)),
        b"set" => Some(Update::Set(signed_number_of(amount)?)),
        b"record" => Some(Update::Record(signed_number_of(amount)?)),
        _ => None,
    }
}
