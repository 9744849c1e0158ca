//! Cells that a caller owns and changes in place.
ghost use Rattle.std.specs.Prelude.{◌≡◌, ℕ, ℤ, List, MatchResult};
ghost use Rattle.metrics.specs.Cells.{IsCountAfter, IsGaugeAfter, AreSamplesAfter};
ghost use Rattle.metrics.specs.declared.handles.Update.TheVariants.{Increment, Absolute, Add, Subtract, Set, Record};

use crate::handles::Update;

/// The cell of a counter.
pub trait CounterCell {
    /// The count that it holds.
    ghost count: { Self → ℕ };

    /// Adds to the count, modulo 2^64.
    fn increment(&mut self, value: u64)
        ensures { IsCountAfter (Increment value) (count self.old) (count self.new) };

    /// Raises the count to the value, if it is below that.
    fn absolute(&mut self, value: u64)
        ensures { IsCountAfter (Absolute value) (count self.old) (count self.new) };
}

/// The cell of a gauge.
pub trait GaugeCell {
    /// The value that it holds.
    ghost gauge: { Self → ℤ };

    /// Adds to the value, and saturates at the ends of `i64`.
    fn increment(&mut self, value: i64)
        ensures { IsGaugeAfter (Add value) (gauge self.old) (gauge self.new) };

    /// Subtracts from the value, and saturates at the ends of `i64`.
    fn decrement(&mut self, value: i64)
        ensures { IsGaugeAfter (Subtract value) (gauge self.old) (gauge self.new) };

    /// Replaces the value.
    fn set(&mut self, value: i64)
        ensures { IsGaugeAfter (Set value) (gauge self.old) (gauge self.new) };
}

/// The cell of a histogram.
pub trait HistogramCell {
    /// Why a sample was rejected.
    type Error: Drop;

    /// The samples that it holds, in the order in which they were recorded.
    ghost samples: { Self → List ℤ };

    /// Which cells may reject a sample, and with which error.
    ghost refuses: { Self → Self.Error → Type 0 };

    /// Records a sample. A cell that rejects it stays unchanged.
    fn record(&mut self, value: i64) -> Result<(), Self::Error>
        ensures { MatchResult result
            (λ _. AreSamplesAfter (Record value) (samples self.old) (samples self.new))
            (λ e. refuses self.old e × (self.new ≡ self.old)) };
}

impl CounterCell for u64 {
    ghost count = { λ n. n };

    fn increment(&mut self, value: u64) {
        *self = Update::Increment(value).count_after(*self);
    }

    fn absolute(&mut self, value: u64) {
        *self = Update::Absolute(value).count_after(*self);
    }
}

impl GaugeCell for i64 {
    ghost gauge = { λ n. n };

    fn increment(&mut self, value: i64) {
        *self = Update::Add(value).level_after(*self);
    }

    fn decrement(&mut self, value: i64) {
        *self = Update::Subtract(value).level_after(*self);
    }

    fn set(&mut self, value: i64) {
        *self = value;
    }
}
