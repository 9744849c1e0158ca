//! The labels of a series as Prometheus is shown them.
ghost use Rattle.std.specs.Prelude.{◌≡◌, ◌≤◌, length, insert, MatchResult, IfOk, OnOk, All, is_some, option_map, true, IsTrue};
ghost use Rattle.std.specs.List.Sorted.{IsSorted};
ghost use Rattle.std.specs.Cmp.Lexicographic.{pointwise};
ghost use Rattle.std.specs.Str.{IsUtf8};
ghost use Rattle.metrics.specs.declared.error.Error.TheVariants.{Memory as OutOfMemory};
ghost use Rattle.metrics_names.specs.Names.{label_eq, label_cmp};
ghost use Rattle.metrics_exposition.specs.Labels.{placed, added, shown_labels, is_whole, first_key};
ghost use Rattle.metrics_exposition.specs.Labels.{first_value, repeats, is_last, is_reserved, reserved_of, are_fit, AreReady};

use crate::names::{is_name, label_name};
use crate::shown::ShownLabels;
use metrics::{Error, Key, Label, MetricKind};
use metrics_names::{are_sorted, is_before};
use std::alloc::Global;

/// Returns the key of the first label, and an empty text if there is none.
pub fn first_key(labels: &[Label]) -> &str
    ensures { result.now ≡ first_key labels.now }
{
    match labels {
        [] => "",
        [first, ..] => first.key(),
    }
}

/// Returns the value of the first label, and an empty text if there is none.
pub fn first_value(labels: &[Label]) -> &str
    ensures { result.now ≡ first_value labels.now }
{
    match labels {
        [] => "",
        [first, ..] => first.value(),
    }
}

/// Returns whether labels are equal. First values mostly decide.
pub fn are_equal(labels: &[Label], other: &[Label]) -> bool
    ensures { result ≡ pointwise label_eq labels.now other.now }
{
    if first_value(labels) != first_value(other) {
        return false;
    }
    labels == other
}

/// The place of a label among others in order.
fn place_of(labels: &[Label], label: &Label) -> usize
    requires { IsSorted label_cmp labels.now }
    ensures within { result ≤ length labels.now }
    ensures placed { insert labels.now result label.now ≡ placed label.now labels.now }
{
    labels.partition_point(|other| !is_before(label, other))
}

/// Adds a label by its name as Prometheus allows it, unless it has no value.
fn add_label(alloc: Global, shown: &mut Vec<Label>, label: &Label) -> Result<(), Error>
    requires { IsSorted label_cmp shown.old.items }
    ensures shown { MatchResult result (λ _. shown.new.items ≡ added label.now.0 label.now.1 shown.old.items)
        (λ e. e ≡ OutOfMemory) }
    ensures text { OnOk result (IsUtf8 label.now.1) }
{
    let value = label.value();
    if value.is_empty() {
        return Ok(());
    }
    let name = label_name(alloc, label.key())?;
    let named = Label::new(alloc, &name, value)?;
    let at = place_of(shown, &named);
    shown.insert(at, named)?;
    Ok(())
}

/// Copies of the labels that Prometheus is shown, in order of their names.
fn made_labels(alloc: Global, labels: &[Label]) -> Result<Vec<Label>, Error>
    ensures shown { MatchResult result (λ shown. shown.items ≡ shown_labels labels.now) (λ e. e ≡ OutOfMemory) }
    ensures sorted { IfOk result (λ shown. IsSorted label_cmp shown.items) }
    ensures texts { OnOk result (All (λ l. IsUtf8 l.1) labels.now) }
{
    let mut shown = Vec::new(alloc);
    for label in labels {
        add_label(alloc, &mut shown, label)?;
    }
    Ok(shown)
}

/// Whether a label is shown as it is.
fn is_whole(label: &Label) -> bool
    ensures whole { result ≡ is_whole label.now }
    ensures text { IsUtf8 label.now.1 }
{
    let value = label.value();
    is_name(label.key(), false) && !value.is_empty()
}

/// Whether each label is shown as it is.
fn are_whole(labels: &[Label]) -> bool
    ensures whole { IsTrue result → All (λ l. is_whole l ≡ true) labels.now }
    ensures texts { IsTrue result → All (λ l. IsUtf8 l.1) labels.now }
{
    for label in labels {
        if !is_whole(label) {
            return false;
        }
    }
    true
}

/// Returns a key's labels as Prometheus is shown them, in order of their names: those with an empty value are dropped. Labels
/// that are shown unchanged allocate nothing.
///
/// Fails only with `Error::Memory`.
pub fn shown_labels<'a>(alloc: Global, key: &'a Key) -> Result<ShownLabels<'a>, Error>
    ensures shown { MatchResult result (λ shown. shown ≡ shown_labels key.now.labels) (λ e. e ≡ OutOfMemory) }
    ensures texts { OnOk result (All (λ l. IsUtf8 l.1) key.now.labels) }
{
    let labels = key.labels();
    if are_sorted(labels) && are_whole(labels) {
        return Ok(ShownLabels::given(key));
    }
    Ok(ShownLabels::made(alloc, made_labels(alloc, labels)?)?)
}

/// Returns whether a name is the one before.
pub fn is_last(last: Option<&str>, name: &str) -> bool
    ensures { result ≡ is_last (option_map (λ l. l.now) last.entry) name.now }
{
    match last {
        Some(last) => name == last,
        None => false,
    }
}

/// Returns whether two labels, of some in order as `shown_labels` returns them, have one name.
pub fn repeats(labels: &[Label]) -> bool
    requires { IsSorted label_cmp labels.now }
    ensures { result ≡ repeats labels.now }
{
    let mut last = None;
    for label in labels {
        if is_last(last, label.key()) {
            return true;
        }
        last = Some(label.key());
    }
    false
}

/// Returns whether Prometheus keeps a label of that name for itself: it begins with two underscores, or is `le` in a histogram.
pub fn is_reserved(kind: MetricKind, name: &str) -> bool
    ensures { result ≡ is_reserved kind name.now }
{
    name.as_bytes().starts_with(b"__") || (kind == MetricKind::Histogram && name == "le")
}

/// Returns the first name of a label that Prometheus keeps for itself, in a series of the kind.
pub fn reserved_of(kind: MetricKind, labels: &[Label]) -> Option<&str>
    ensures { option_map (λ n. n.now) result ≡ reserved_of kind labels.now }
{
    for label in labels {
        if is_reserved(kind, label.key()) {
            return Some(label.key());
        }
    }
    None
}

fn has_reserved(kind: MetricKind, labels: &[Label]) -> bool
    ensures { result ≡ is_some (reserved_of kind labels.now) }
{
    match reserved_of(kind, labels) {
        Some(_) => true,
        None => false,
    }
}

/// Returns whether a series of the kind can be shown with these labels: no two have one name, and Prometheus keeps none for
/// itself. They are in order, as `shown_labels` returns them.
pub fn are_fit(kind: MetricKind, labels: &[Label]) -> bool
    requires { IsSorted label_cmp labels.now }
    ensures { result ≡ are_fit kind labels.now }
{
    !repeats(labels) && !has_reserved(kind, labels)
}

/// Returns whether a series of any kind is shown with these very labels: they are in order, each is allowed and has a value, no
/// two have one name, and Prometheus keeps none for itself.
pub fn are_ready(labels: &[Label]) -> bool
    ensures { IsTrue result → AreReady labels.now }
{
    are_sorted(labels) && are_whole(labels) && are_fit(MetricKind::Histogram, labels)
}
