//! What makes the cells of a registry.
ghost use Rattle.std.specs.Prelude.{◌≡◌, MatchResult};
ghost use Rattle.std.specs.Arc.{arc_value};
ghost use Rattle.metrics.specs.declared.error.Error.TheVariants.{Memory as OutOfMemory};

use metrics::Error;
use std::sync::Arc;

/// Makes the cells of a registry over keys of type `K`.
///
/// It fails only when out of memory, with `Error::Memory`.
pub trait Storage<K> {
    /// The cell of a counter.
    type Counter;

    /// The cell of a gauge.
    type Gauge;

    /// The cell of a histogram.
    type Histogram;

    /// Whether a cell is one that the storage makes for the key.
    ghost makes_counter: { Self → K → Self.Counter → Type 0 };

    ghost makes_gauge: { Self → K → Self.Gauge → Type 0 };

    ghost makes_histogram: { Self → K → Self.Histogram → Type 0 };

    /// Makes a new counter.
    fn counter(&self, key: &K) -> Result<Self::Counter, Error>
        ensures { MatchResult result (makes_counter self.now key.now) (λ e. e ≡ OutOfMemory) };

    /// Makes a new gauge.
    fn gauge(&self, key: &K) -> Result<Self::Gauge, Error>
        ensures { MatchResult result (makes_gauge self.now key.now) (λ e. e ≡ OutOfMemory) };

    /// Makes a new histogram.
    fn histogram(&self, key: &K) -> Result<Self::Histogram, Error>
        ensures { MatchResult result (makes_histogram self.now key.now) (λ e. e ≡ OutOfMemory) };
}

/// Makes the cells that the storage inside makes.
impl<K, T: Storage<K>> Storage<K> for Arc<T> {
    type Counter = T::Counter;

    type Gauge = T::Gauge;

    type Histogram = T::Histogram;

    ghost makes_counter = { λ storage key cell. T.makes_counter (arc_value storage) key cell };

    ghost makes_gauge = { λ storage key cell. T.makes_gauge (arc_value storage) key cell };

    ghost makes_histogram = { λ storage key cell. T.makes_histogram (arc_value storage) key cell };

    fn counter(&self, key: &K) -> Result<T::Counter, Error> {
        (**self).counter(key)
    }

    fn gauge(&self, key: &K) -> Result<T::Gauge, Error> {
        (**self).gauge(key)
    }

    fn histogram(&self, key: &K) -> Result<T::Histogram, Error> {
        (**self).histogram(key)
    }
}

/// Makes a histogram's cell in the place of a storage, which it may read.
///
/// It fails only when out of memory, with `Error::Memory`.
pub trait HistogramMaker<K, S: Storage<K>> {
    /// Whether a cell is one that it makes for the key beside the storage.
    ghost makes: { Self → S → K → S.Histogram → Type 0 };

    /// Makes a new histogram.
    fn make(&self, storage: &S, key: &K) -> Result<S::Histogram, Error>
        ensures { MatchResult result (makes self.now storage.now key.now) (λ e. e ≡ OutOfMemory) };
}

/// Makes the histograms that the storage makes.
pub(crate) struct ByStorage;

impl<K, S: Storage<K>> HistogramMaker<K, S> for ByStorage {
    ghost makes = { λ maker storage key cell. S.makes_histogram storage key cell };

    fn make(&self, storage: &S, key: &K) -> Result<S::Histogram, Error> {
        storage.histogram(key)
    }
}
