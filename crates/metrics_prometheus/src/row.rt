//! A series as Prometheus is shown it.
ghost use Rattle.std.specs.Prelude.{◌≡◌};
ghost use Rattle.std.specs.List.Sorted.{IsSorted};
ghost use Rattle.metrics_names.specs.Names.{label_cmp};
ghost use Rattle.metrics_exposition.specs.Labels.{are_fit};

use metrics::{Key, MetricKind};
use metrics_exporter::ReadingRef;
use metrics_exposition::{ShownLabels, ShownName, are_fit};
use std::rc::Rc;

/// What the series of a kind and name are shown with: a name and the kind, by which heads compare, and the description of the
/// name.
#[derive(Drop)]
#[derive_where(PartialEq, Eq, PartialOrd, Ord)]
pub(crate) struct Head<'a> {
    pub name: ShownName<'a>,
    pub kind: MetricKind,
    /// The decimal places of the series' numbers.
    #[derive_where(skip)]
    pub places: u16,
    #[derive_where(skip)]
    pub help: Option<&'a str>,
}

/// A series as Prometheus is shown it: its head, which other rows may share, its labels, and beside them its own key. Rows
/// compare in this order. What the series has goes along.
#[derive(Drop)]
#[derive_where(PartialEq, Eq, PartialOrd, Ord)]
pub(crate) struct ShownRow<'a> {
    pub head: Rc<Head<'a>>,
    pub labels: ShownLabels<'a>,
    pub key: &'a Key,
    #[derive_where(skip)]
    pub reading: ReadingRef<'a>,
}

/// Returns whether a row's labels are fit.
pub(crate) fn is_fit(row: &ShownRow<'_>) -> bool
    requires { IsSorted label_cmp row.now.labels }
    ensures { result ≡ are_fit row.now.head.value.kind row.now.labels }
{
    row.labels.is_ready() || are_fit(row.head.kind, row.labels.as_slice())
}
