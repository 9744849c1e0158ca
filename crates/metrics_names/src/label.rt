//! Labels, and their order.
ghost use Rattle.std.specs.Prelude.{◌≡◌, MatchResult, IsTrue};
ghost use Rattle.std.specs.List.Sorted.{IsSorted};
ghost use Rattle.std.specs.Ordering.{is_lt};
ghost use Rattle.metrics_names.specs.declared.refused.Refused.TheVariants.{Memory};
ghost use Rattle.metrics_names.specs.Names.{LabelParts, label_cmp, AreOrdered};

use crate::refused::Refused;
use crate::text::Text;
use std::alloc::Global;
use std::marker::Model;

/// A label of a key: the label's own key, and its value. Labels are ordered by key, then by value.
#[derive(Clone, Debug, PartialEq, Eq, PartialOrd, Ord, Hash, Drop)]
pub struct Label {
    pub(crate) key: Text,
    pub(crate) value: Text,
}

impl Model for Label {
    ghost use Rattle.std.specs.Prelude.{ℕ, List};

    ghost Value = { List ℕ × List ℕ };

    ghost view = { λ a. (a.key, a.value) };

    ghost inverse = { λ l. record { key = l.0; value = l.1 } };
}

impl Label {
    /// Makes a label of copies of both texts.
    ///
    /// Fails only when out of memory.
    pub fn new(alloc: Global, key: &str, value: &str) -> Result<Label, Refused>
        ensures { MatchResult result (λ l. l ≡ (key.now, value.now)) (λ e. e ≡ Memory 0) }
    {
        Ok(Label {
            key: Text::new(alloc, key)?,
            value: Text::new(alloc, value)?,
        })
    }

    /// Returns the label's own key.
    pub fn key(&self) -> &str
        ensures { result.now ≡ self.now.0 }
    {
        self.key.as_str()
    }

    /// Returns the label's value.
    pub fn value(&self) -> &str
        ensures { result.now ≡ self.now.1 }
    {
        self.value.as_str()
    }
}

/// Does nothing. Its contract says what the order of labels is.
fn label_order()
    ensures { (a b : LabelParts) → ⟦<Label as Ord>⟧.cmp a b ≡ label_cmp a b }
{}

/// Returns whether a label comes before another.
pub fn is_before(label: &Label, other: &Label) -> bool
    ensures { result ≡ is_lt (label_cmp label.now other.now) }
{
    label_order();
    label.cmp(other).is_lt()
}

/// Returns whether labels are in order.
pub fn are_sorted(labels: &[Label]) -> bool
    ensures { IsTrue result → IsSorted label_cmp labels.now }
{
    for i in 1..labels.len() {
        if is_before(&labels[i], &labels[i - 1]) {
            return false;
        }
    }
    true
}

/// Puts labels in order.
pub fn sort_labels(labels: &mut Vec<Label>)
    ensures { AreOrdered labels.old.items labels.new.items }
{
    label_order();
    labels.sort_unstable();
}
