//! The cell of a series.
ghost use Rattle.std.specs.Prelude.{◌≡◌, if◌then◌else◌, IfOk, IfErr};
ghost use Rattle.metrics_names.specs.declared.refused.Refused.TheVariants.{Memory};
ghost use Rattle.metrics.specs.Book.{new_value, resets, snapshot_value};
ghost use Rattle.metrics_debugging.specs.DebuggingCells.{value_of, kind_of_value, UpdatesValue};

use metrics::{DebugValue, HistogramCell, Items, MetricKind, Refused, Reset, Update};
use metrics_storage::OwnedBucket;
use std::alloc::Global;

/// The value of a series, in a form that accepts updates.
#[derive(Drop)]
pub(crate) enum Cell {
    Counter(u64),
    Gauge(i64),
    Histogram(OwnedBucket<i64>),
}

impl Cell {
    /// Makes the cell of a new series. It allocates nothing.
    pub fn new(alloc: Global, kind: MetricKind) -> Cell
        ensures { value_of result ≡ new_value kind }
    {
        match kind {
            MetricKind::Counter => Cell::Counter(0),
            MetricKind::Gauge => Cell::Gauge(0),
            MetricKind::Histogram => Cell::Histogram(OwnedBucket::new(alloc)),
        }
    }

    /// Returns the kind of the series.
    pub fn kind(&self) -> MetricKind
        ensures { result ≡ kind_of_value (value_of self.now) }
    {
        match self {
            Cell::Counter(_) => MetricKind::Counter,
            Cell::Gauge(_) => MetricKind::Gauge,
            Cell::Histogram(_) => MetricKind::Histogram,
        }
    }

    /// Applies an update of its kind.
    pub fn update(&mut self, by: Update) -> Result<(), Refused>
        ensures updates { UpdatesValue (value_of self.old) (value_of self.new) by result }
        ensures kind { kind_of_value (value_of self.new) ≡ kind_of_value (value_of self.old) }
    {
        match (self, by) {
            (Cell::Counter(count), Update::Increment(_) | Update::Absolute(_)) => {
                *count = by.count_after(*count);
            }
            (Cell::Gauge(gauge), Update::Add(_) | Update::Subtract(_) | Update::Set(_)) => {
                *gauge = by.level_after(*gauge);
            }
            (Cell::Histogram(samples), Update::Record(sample)) => {
                if samples.record(sample).is_err() {
                    return Err(Refused::Memory { acted: 0 });
                }
            }
            _ => return Err(Refused::NoSuchAddress),
        }
        Ok(())
    }

    /// Holds the value of a new series again, if its kind is reset. A histogram frees its blocks.
    pub fn reset(&mut self, reset: Reset)
        ensures { value_of self.new ≡ (if resets reset (kind_of_value (value_of self.old))
            then new_value (kind_of_value (value_of self.old)) else value_of self.old) }
    {
        if !reset.resets(self.kind()) {
            return;
        }
        match self {
            Cell::Counter(count) => *count = 0,
            Cell::Gauge(gauge) => *gauge = 0,
            Cell::Histogram(samples) => samples.clear(),
        }
    }

    /// Returns the value as a snapshot reports it: samples in bucket order.
    pub fn value(&self) -> Result<DebugValue, Refused>
        ensures ok { IfOk result (λ v. v ≡ snapshot_value (value_of self.now)) }
        ensures memory { IfErr result (λ e. e ≡ Memory 0) }
    {
        match self {
            Cell::Counter(count) => Ok(DebugValue::Counter(*count)),
            Cell::Gauge(gauge) => Ok(DebugValue::Gauge(*gauge)),
            Cell::Histogram(samples) => match samples.data() {
                Ok(samples) => Ok(DebugValue::Histogram(Items::from(samples))),
                Err(_) => Err(Refused::Memory { acted: 0 }),
            },
        }
    }
}
