//! A series that is held, by reference.
ghost use Rattle.std.specs.Prelude.{◌≡◌};
ghost use Rattle.metrics_exporter.specs.CellKinds.{cell_kind};

use crate::readings::{ReadingRef, SeriesReading};
use metrics::{Key, MetricKind};
use metrics_registry::{Counted, Generation};
use metrics_storage::Histogram;

/// The cell of a series, by reference.
#[derive(Clone, Copy)]
pub(crate) enum CellRef<'a> {
    Counter(&'a Counted<u64>),
    Gauge(&'a Counted<i64>),
    Histogram(&'a Counted<Histogram>),
}

impl<'a> CellRef<'a> {
    ghost use Rattle.metrics_exporter.specs.Gathering.{cell_shown};
    ghost use Rattle.metrics_exporter.specs.Readings.{kind_shown, reading_shown};

    /// Returns the generation of the cell.
    pub fn generation(&self) -> Generation
        ensures { result ≡ (cell_shown self.now).generation }
    {
        match self {
            CellRef::Counter(cell) => cell.get_generation(),
            CellRef::Gauge(cell) => cell.get_generation(),
            CellRef::Histogram(cell) => cell.get_generation(),
        }
    }

    /// Returns what the cell holds.
    pub fn reading(&self) -> ReadingRef<'a>
        ensures kind { kind_shown result ≡ cell_kind self.now }
        ensures shown { reading_shown result ≡ (cell_shown self.now).reading }
    {
        match self {
            CellRef::Counter(cell) => ReadingRef::Count(*cell.get_inner()),
            CellRef::Gauge(cell) => ReadingRef::Level(*cell.get_inner()),
            CellRef::Histogram(cell) => ReadingRef::Samples(cell.get_inner()),
        }
    }
}

/// A series that is held, by reference. It compares as its composite key does.
#[derive(Clone, Copy)]
#[derive_where(PartialEq, Eq, PartialOrd, Ord)]
pub struct SeriesRef<'a> {
    pub(crate) kind: MetricKind,
    pub(crate) key: &'a Key,
    #[derive_where(skip)]
    pub(crate) cell: CellRef<'a>,
    ghost own_kind: { cell_kind cell ≡ kind },
}

impl<'a> SeriesRef<'a> {
    ghost use Rattle.metrics_exporter.specs.Gathering.{series_shown};
    ghost use Rattle.metrics_exporter.specs.Readings.{keyed_reading, series_read};

    /// Returns the kind.
    pub fn kind(&self) -> MetricKind
        ensures { result ≡ (series_shown self.now).kind }
    {
        self.kind
    }

    /// Returns the key.
    pub fn key(&self) -> &'a Key
        ensures { result.now ≡ (series_shown self.now).key }
    {
        self.key
    }

    /// Returns the series with what it has.
    pub fn reading(&self) -> SeriesReading<'a>
        ensures { keyed_reading result ≡ series_read self.now }
    {
        SeriesReading {
            key: self.key,
            reading: self.cell.reading(),
        }
    }
}
