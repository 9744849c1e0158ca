//! A recorder that threads share.
ghost use Rattle.std.specs.Prelude.{◌≡◌, ℕ, List, MatchResult};
ghost use Rattle.metrics.specs.declared.error.Error.TheVariants.{Memory as OutOfMemory};
ghost use Rattle.metrics_names.specs.Names.{KeyParts};
ghost use Rattle.metrics_names.specs.declared.kind.MetricKind.{MetricKind as AnyKind};

use metrics::{Error, Key, MetricKind, Unit};
use metrics_cells::{CounterFn, GaugeFn, HistogramFn};
use std::alloc::Global;
use std::sync::Wait;

/// A recorder that threads share by reference. A thread asks for a handle once, and then changes its cells with no look-up.
///
/// Calls fail only when out of memory, with `Error::Memory`.
pub trait SharedRecorder {
    /// The handle of a counter.
    type Counter: CounterFn + Clone + Drop;

    /// The handle of a gauge.
    type Gauge: GaugeFn + Clone + Drop;

    /// The handle of a histogram.
    type Histogram: HistogramFn + Clone + Drop;

    /// Whether a handle is one that the recorder gives for the key.
    ghost gives_counter: { Self → KeyParts → Self.Counter → Type 0 };

    ghost gives_gauge: { Self → KeyParts → Self.Gauge → Type 0 };

    ghost gives_histogram: { Self → KeyParts → Self.Histogram → Type 0 };

    /// How many targets a name of this kind has there.
    ghost targets_of: { Self → AnyKind → List ℕ → ℕ };

    /// Returns the number of the epoch. Whoever keeps handles for later look-ups drops them once it sees another one.
    ///
    /// A recorder ends an epoch after it removed a key of which some thread may have a handle, and when such a handle keeps it
    /// from removing one.
    fn epoch(&self) -> u64;

    /// Replaces the text of a name of this kind in each of its targets, and the unit if there is a new one. Returns how many
    /// targets there are. A call that fails may have described the first of them.
    fn describe<W: Wait>(
        &self,
        rt: &W,
        alloc: Global,
        kind: MetricKind,
        name: &str,
        unit: Option<Unit>,
        text: &str,
    ) -> Result<usize, Error>
        ensures { MatchResult result (λ n. n ≡ targets_of self.now kind name.now) (λ e. e ≡ OutOfMemory) };

    /// Returns a handle of the counter that a key names.
    fn counter<W: Wait>(&self, rt: &W, key: &Key) -> Result<Self::Counter, Error>
        ensures { MatchResult result (gives_counter self.now key.now) (λ e. e ≡ OutOfMemory) };

    /// Returns a handle of the gauge that a key names.
    fn gauge<W: Wait>(&self, rt: &W, key: &Key) -> Result<Self::Gauge, Error>
        ensures { MatchResult result (gives_gauge self.now key.now) (λ e. e ≡ OutOfMemory) };

    /// Returns a handle of the histogram that a key names.
    fn histogram<W: Wait>(&self, rt: &W, key: &Key) -> Result<Self::Histogram, Error>
        ensures { MatchResult result (gives_histogram self.now key.now) (λ e. e ≡ OutOfMemory) };
}
