//! What Prometheus is shown: a key's own name and labels if they are allowed, and else others made of them.
ghost use Rattle.std.specs.Prelude.{◌≡◌, ◌==◌, IfOk, IsTrue, Some, refl, string_bytes};
ghost use Rattle.std.specs.Ordering.{nat_cmp};
ghost use Rattle.std.specs.Cmp.{partial_equiv_from_equiv};
ghost use Rattle.std.specs.Cmp.Lexicographic.{pointwise, slice_cmp, nat_list_eq_equiv, nat_list_cmp_total};
ghost use Rattle.std.specs.Cmp.Lexicographic.{texts_po, texts_ties};
ghost use Rattle.metrics_names.specs.Names.{label_eq, label_cmp};
ghost use Rattle.metrics_exposition.specs.Labels.{AreReady};
ghost use Rattle.metrics_exposition.specs.LabelOrder.{labels_equiv, labels_total, labels_ties, labels_po};

use metrics::{Key, Label};
use std::alloc::{AllocError, Global};
use std::cmp::Ordering;
use std::marker::Model;

/// A key with its own name, or a name that was made.
#[derive(Drop)]
enum NameText<'a> {
    Given(&'a Key),
    Made(String),
}

/// A name that is shown: a key's own, or one that was made. Contracts see it as its bytes, by which names are ordered.
#[derive(Drop)]
pub struct ShownName<'a> {
    name: NameText<'a>,
}

impl<'a> Model for ShownName<'a> {
    ghost use Rattle.std.specs.Prelude.{ℕ, List};
    ghost use Rattle.metrics_exposition.specs.Shown.{bytes_in};

    ghost Value = { List ℕ };

    ghost view = { λ a. bytes_in a.name };
}

impl<'a> ShownName<'a> {
    /// Returns the name of a key. Allocates nothing.
    pub fn given(key: &'a Key) -> ShownName<'a>
        ensures { result ≡ key.now.name }
    {
        ShownName {
            name: NameText::Given(key),
        }
    }

    /// Returns a name that was made.
    pub fn made(name: String) -> ShownName<'a>
        ensures { result ≡ string_bytes name }
    {
        ShownName {
            name: NameText::Made(name),
        }
    }

    /// Returns the name's text.
    pub fn as_str(&self) -> &str
        ensures { result.now ≡ self.now }
    {
        match &self.name {
            NameText::Given(key) => key.name(),
            NameText::Made(name) => name.as_str(),
        }
    }
}

impl PartialEq for ShownName<'_> {
    ghost eq = { pointwise ◌==◌ };

    ghost laws = { partial_equiv_from_equiv nat_list_eq_equiv };

    fn eq(&self, other: &Self) -> bool {
        self.as_str() == other.as_str()
    }
}

impl Eq for ShownName<'_> {
    ghost laws = { nat_list_eq_equiv };
}

impl PartialOrd for ShownName<'_> {
    ghost partial_cmp = { λ s t. Some (slice_cmp nat_cmp s t) };

    ghost laws = { texts_po };

    fn partial_cmp(&self, other: &Self) -> Option<Ordering> {
        Some(self.cmp(other))
    }
}

impl Ord for ShownName<'_> {
    ghost cmp = { slice_cmp nat_cmp };

    ghost total = { nat_list_cmp_total };

    ghost matches_partial_cmp = { λ s t. refl };

    ghost matches_eq = { λ s t. texts_ties s t };

    fn cmp(&self, other: &Self) -> Ordering {
        self.as_str().cmp(other.as_str())
    }
}

/// A key whose own labels are ready, a key with its own labels, or labels that were made.
#[derive(Drop)]
enum LabelList<'a> {
    Ready(&'a Key),
    Given(&'a Key),
    Made(Box<Vec<Label>>),
}

/// Labels that are shown: a key's own, or some that were made. Contracts see them as their list. They compare label by label.
#[derive(Drop)]
pub struct ShownLabels<'a> {
    list: LabelList<'a>,
}

impl<'a> Model for ShownLabels<'a> {
    ghost use Rattle.std.specs.Prelude.{List};
    ghost use Rattle.metrics_names.specs.Names.{LabelParts};
    ghost use Rattle.metrics_exposition.specs.Shown.{labels_in, AreKnown};

    ghost Value = { List LabelParts };

    ghost view = { λ a. labels_in a.list };

    ghost invariant = { λ a. AreKnown a.list };
}

impl<'a> ShownLabels<'a> {
    /// Returns the labels of a key, which are ready. Allocates nothing.
    pub fn ready(key: &'a Key) -> ShownLabels<'a>
        requires { AreReady key.now.labels }
        ensures { result ≡ key.now.labels }
    {
        ShownLabels {
            list: LabelList::Ready(key),
        }
    }

    /// Returns the labels of a key. Allocates nothing.
    pub fn given(key: &'a Key) -> ShownLabels<'a>
        ensures { result ≡ key.now.labels }
    {
        ShownLabels {
            list: LabelList::Given(key),
        }
    }

    /// Returns labels that were made. Fails when out of memory.
    pub fn made(alloc: Global, list: Vec<Label>) -> Result<ShownLabels<'a>, AllocError>
        ensures { IfOk result (λ l. l ≡ list.items) }
    {
        Ok(ShownLabels {
            list: LabelList::Made(Box::new(alloc, list)?),
        })
    }

    /// Returns the labels.
    pub fn as_slice(&self) -> &[Label]
        ensures { result.now ≡ self.now }
    {
        match &self.list {
            LabelList::Ready(key) => key.labels(),
            LabelList::Given(key) => key.labels(),
            LabelList::Made(list) => list.as_slice(),
        }
    }

    /// Returns whether they are known to be ready.
    pub fn is_ready(&self) -> bool
        ensures { IsTrue result → AreReady self.now }
    {
        match &self.list {
            LabelList::Ready(_) => true,
            LabelList::Given(_) => false,
            LabelList::Made(_) => false,
        }
    }
}

impl PartialEq for ShownLabels<'_> {
    ghost eq = { pointwise label_eq };

    ghost laws = { partial_equiv_from_equiv labels_equiv };

    fn eq(&self, other: &Self) -> bool {
        self.as_slice() == other.as_slice()
    }
}

impl Eq for ShownLabels<'_> {
    ghost laws = { labels_equiv };
}

impl PartialOrd for ShownLabels<'_> {
    ghost partial_cmp = { λ s t. Some (slice_cmp label_cmp s t) };

    ghost laws = { labels_po };

    fn partial_cmp(&self, other: &Self) -> Option<Ordering> {
        Some(self.cmp(other))
    }
}

impl Ord for ShownLabels<'_> {
    ghost cmp = { slice_cmp label_cmp };

    ghost total = { labels_total };

    ghost matches_partial_cmp = { λ s t. refl };

    ghost matches_eq = { labels_ties };

    fn cmp(&self, other: &Self) -> Ordering {
        self.as_slice().cmp(&other.as_slice())
    }
}
