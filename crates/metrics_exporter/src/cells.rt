//! What the exporter keeps of each series.
ghost use Rattle.std.specs.Prelude.{◌≡◌, pos, MatchResult};
ghost use Rattle.metrics.specs.declared.error.Error.TheVariants.{Memory as OutOfMemory};
ghost use Rattle.metrics_storage.specs.Histogram.{no_samples};
ghost use Rattle.metrics_exporter.specs.Choice.{bounds_in, bounds_for};
ghost use Rattle.metrics_exporter.specs.Describing.{unit_from};
ghost use Rattle.metrics_exporter.specs.Stepping.{new_counted};

use crate::bounds::Bounds;
use metrics::{Error, Key, MetricKind, Unit};
use metrics_descriptions::Descriptions;
use metrics_registry::{Counted, HistogramMaker, Storage};
use metrics_storage::Histogram;

/// Makes cells at generation 0: a `u64` for a counter, an `i64` for a gauge, and for a histogram one at the bounds of its name.
#[derive(Drop)]
pub struct CountedCells {
    bounds: Bounds,
}

impl CountedCells {
    /// Makes histograms at these bounds.
    pub(crate) fn new(bounds: Bounds) -> CountedCells
        ensures { result.bounds ≡ bounds }
    {
        CountedCells { bounds }
    }

    /// Returns the bounds.
    pub(crate) fn bounds(&self) -> &Bounds
        ensures { result.now ≡ self.now.bounds }
    {
        &self.bounds
    }

    /// Makes a histogram in a unit, if any.
    fn histogram_in(&self, unit: Option<Unit>, key: &Key) -> Result<Counted<Histogram>, Error>
        ensures { MatchResult result
            (λ cell. cell ≡ new_counted (no_samples (bounds_in self.now.bounds unit key.now.name))) (λ e. e ≡ OutOfMemory) }
    {
        let empty = self.bounds.of_unit(unit, key.name()).clone()?;
        Ok(Counted::new(empty))
    }
}

impl Storage<Key> for CountedCells {
    type Counter = Counted<u64>;

    type Gauge = Counted<i64>;

    type Histogram = Counted<Histogram>;

    ghost makes_counter = { λ storage key cell. cell ≡ record { inner = 0; generation = 0 } };

    ghost makes_gauge = { λ storage key cell. cell ≡ record { inner = pos 0; generation = 0 } };

    ghost makes_histogram = { λ storage key cell.
        cell ≡ record { inner = no_samples (bounds_for storage.bounds key.name); generation = 0 } };

    fn counter(&self, _key: &Key) -> Result<Counted<u64>, Error> {
        Ok(Counted::new(0))
    }

    fn gauge(&self, _key: &Key) -> Result<Counted<i64>, Error> {
        Ok(Counted::new(0))
    }

    fn histogram(&self, key: &Key) -> Result<Counted<Histogram>, Error> {
        self.histogram_in(None, key)
    }
}

/// Where the unit of a new histogram comes from.
#[derive(Clone, Copy)]
pub(crate) enum UnitSource<'a> {
    /// It is this one, if any.
    Given(Option<Unit>),
    /// It is that of the description of its name, if any.
    Described(&'a Descriptions),
}

impl<'a> UnitSource<'a> {
    /// Returns the unit of a new histogram.
    fn unit(&self, key: &Key) -> Option<Unit>
        ensures { result ≡ unit_from self.now key.now }
    {
        match self {
            UnitSource::Given(unit) => *unit,
            UnitSource::Described(descriptions) => {
                match descriptions.get(MetricKind::Histogram, key.name()) {
                    Some(described) => described.unit(),
                    None => None,
                }
            }
        }
    }
}

impl<'a> HistogramMaker<Key, CountedCells> for UnitSource<'a> {
    ghost makes = { λ source storage key cell.
        cell ≡ record { inner = no_samples (bounds_in storage.bounds (unit_from source key) key.name); generation = 0 } };

    fn make(&self, storage: &CountedCells, key: &Key) -> Result<Counted<Histogram>, Error> {
        storage.histogram_in(self.unit(key), key)
    }
}
