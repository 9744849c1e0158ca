//! The calls of a cell that any thread may make.
//!
//! No contract says what a cell holds, since other threads may change it at any time.

use std::alloc::Allocator;
use std::sync::{Arc, Wait};

/// The cell of a counter. `counter_value` reads the count of a word of 64 bits.
pub trait CounterFn {
    /// Adds to the count, modulo 2^64.
    fn increment(&self, value: u64);

    /// Raises the count to the value, if it is below that.
    fn absolute(&self, value: u64);
}

/// The cell of a gauge. `gauge_value` reads the value of a word of 64 bits.
pub trait GaugeFn {
    /// Adds to the value, and saturates at the ends of `i64`. It may have to try again while other threads change the cell.
    fn increment<W: Wait>(&self, rt: &W, value: i64);

    /// Subtracts from the value, and saturates at the ends of `i64`. It may have to try again while other threads change the
    /// cell.
    fn decrement<W: Wait>(&self, rt: &W, value: i64);

    /// Replaces the value.
    fn set(&self, value: i64);
}

/// The cell of a histogram.
pub trait HistogramFn {
    /// Why a sample was rejected.
    type Error: Drop;

    /// Records a sample.
    fn record<W: Wait>(&self, rt: &W, value: i64) -> Result<(), Self::Error>;
}

impl<T: CounterFn, A: Allocator> CounterFn for Arc<T, A> {
    fn increment(&self, value: u64) {
        (**self).increment(value);
    }

    fn absolute(&self, value: u64) {
        (**self).absolute(value);
    }
}

impl<T: GaugeFn, A: Allocator> GaugeFn for Arc<T, A> {
    fn increment<W: Wait>(&self, rt: &W, value: i64) {
        (**self).increment(rt, value);
    }

    fn decrement<W: Wait>(&self, rt: &W, value: i64) {
        (**self).decrement(rt, value);
    }

    fn set(&self, value: i64) {
        (**self).set(value);
    }
}

impl<T: HistogramFn, A: Allocator> HistogramFn for Arc<T, A> {
    type Error = T::Error;

    fn record<W: Wait>(&self, rt: &W, value: i64) -> Result<(), T::Error> {
        (**self).record(rt, value)
    }
}
