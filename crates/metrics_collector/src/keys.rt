//! The keys under which series are kept: with the labels that all series have, in order.
ghost use Rattle.std.specs.Prelude.{◌≡◌, ◌++◌, ◌∷◌, [], bytes_eq, IfErr, IfOk, OnOk, IsTrue};
ghost use Rattle.std.specs.List.{list_any};
ghost use Rattle.metrics.specs.declared.error.Error.TheVariants.{Memory as OutOfMemory};
ghost use Rattle.metrics_collector.specs.Labelling.{new_among, IsKept};

use metrics::{Error, Key, Label};
use metrics_names::{are_sorted, sort_labels};
use std::alloc::Global;

/// Returns whether a label has this name.
fn has_name(labels: &[Label], name: &str) -> bool
    ensures { result ≡ list_any (λ m. bytes_eq m.0 name.now) labels.now }
{
    for label in labels {
        if label.key() == name {
            return true;
        }
    }
    false
}

/// Adds a copy of a label, unless an own label has its name.
fn push_new(alloc: Global, all: &mut Vec<Label>, own: &[Label], label: &Label) -> Result<(), Error>
    ensures ok { OnOk result (all.new.items ≡ all.old.items ++ new_among own.now (label.now ∷ [])) }
    ensures err { IfErr result (λ e. e ≡ OutOfMemory) }
{
    if has_name(own, label.key()) {
        return Ok(());
    }
    all.push(Label::new(alloc, label.key(), label.value())?)?;
    Ok(())
}

/// Adds copies of the labels whose names no own label has.
fn add_new(
    alloc: Global,
    labels: Vec<Label>,
    own: &[Label],
    more: &[Label],
) -> Result<Vec<Label>, Error>
    ensures ok { IfOk result (λ all. all.items ≡ labels.items ++ new_among own.now more.now) }
    ensures err { IfErr result (λ e. e ≡ OutOfMemory) }
{
    let mut all = labels;
    for label in more {
        push_new(alloc, &mut all, own, label)?;
    }
    Ok(all)
}

/// Returns copies of labels.
pub(crate) fn copies(alloc: Global, labels: &[Label]) -> Result<Vec<Label>, Error>
    ensures ok { IfOk result (λ all. all.items ≡ labels.now) }
    ensures err { IfErr result (λ e. e ≡ OutOfMemory) }
{
    let mut all = Vec::with_capacity(alloc, labels.len())?;
    for label in labels {
        all.push(Label::new(alloc, label.key(), label.value())?)?;
    }
    Ok(all)
}

/// Returns whether a collector with these labels keeps the series under the key itself.
pub(crate) fn is_kept(key: &Key, more: &[Label]) -> bool
    ensures { IsTrue result → IsKept more.now key.now key.now }
{
    more.is_empty() && are_sorted(key.labels())
}

/// Returns the key under which a collector with these labels keeps the series.
pub(crate) fn kept_key(alloc: Global, key: &Key, more: &[Label]) -> Result<Key, Error>
    ensures ok { IfOk result (IsKept more.now key.now) }
    ensures err { IfErr result (λ e. e ≡ OutOfMemory) }
{
    let labels = copies(alloc, key.labels())?;
    let mut all = add_new(alloc, labels, key.labels(), more)?;
    sort_labels(&mut all);
    Ok(Key::from_parts(alloc, key.name(), all)?)
}
