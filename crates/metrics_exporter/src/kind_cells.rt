//! What the cells of one kind of series hold.
ghost use Rattle.std.specs.Prelude.{◌≡◌};
ghost use Rattle.metrics_names.specs.declared.kind.MetricKind.{MetricKind as AnyKind};
ghost use Rattle.metrics_names.specs.declared.kind.MetricKind.TheVariants.{Counter as CounterKind, Gauge as GaugeKind};
ghost use Rattle.metrics_names.specs.declared.kind.MetricKind.TheVariants.{Histogram as HistogramKind};
ghost use Rattle.metrics_exporter.specs.Exporting.{Reading, count, level, samples};
ghost use Rattle.metrics_exporter.specs.CellKinds.{cell_kind};
ghost use Rattle.metrics_exporter.specs.Gathering.{cell_in, cell_shown};

use crate::series::CellRef;
use metrics::MetricKind;
use metrics_registry::Counted;
use metrics_storage::Histogram;

/// What a cell of one kind holds.
pub(crate) trait KindCell: Drop {
    ghost kind_held: { AnyKind };

    ghost shows: { Self → Reading };

    /// Returns the kind.
    fn kind() -> MetricKind
        ensures { result ≡ kind_held };

    /// Returns a cell of the kind by reference.
    fn cell_ref(cell: &Counted<Self>) -> CellRef<'_>
        ensures kind { cell_kind result ≡ kind_held }
        ensures shown { cell_shown result ≡ cell_in shows cell.now };
}

impl KindCell for u64 {
    ghost kind_held = { CounterKind };

    ghost shows = { count };

    fn kind() -> MetricKind {
        MetricKind::Counter
    }

    fn cell_ref(cell: &Counted<u64>) -> CellRef<'_> {
        CellRef::Counter(cell)
    }
}

impl KindCell for i64 {
    ghost kind_held = { GaugeKind };

    ghost shows = { level };

    fn kind() -> MetricKind {
        MetricKind::Gauge
    }

    fn cell_ref(cell: &Counted<i64>) -> CellRef<'_> {
        CellRef::Gauge(cell)
    }
}

impl KindCell for Histogram {
    ghost kind_held = { HistogramKind };

    ghost shows = { samples };

    fn kind() -> MetricKind {
        MetricKind::Histogram
    }

    fn cell_ref(cell: &Counted<Histogram>) -> CellRef<'_> {
        CellRef::Histogram(cell)
    }
}
