//! The cells of a name's targets, changed together.
ghost use Rattle.std.specs.Prelude.{◌≡◌, []};
ghost use Rattle.metrics_layered.specs.Handing.{handles_of};

use crate::handles::Handles;
use metrics_cells::{CounterFn, GaugeFn, HistogramFn};
use std::sync::Wait;

/// The counters of a name's targets. An update changes each of them.
#[derive(Clone, Drop)]
pub struct CounterHandles<H> {
    cells: Handles<H>,
}

impl<H: Drop> CounterHandles<H> {
    /// Makes a handle of these counters.
    pub fn of(cells: Handles<H>) -> CounterHandles<H>
        ensures { result.cells ≡ cells }
    {
        CounterHandles { cells }
    }

    /// Makes a handle of no counter: an update does nothing.
    pub fn noop() -> CounterHandles<H>
        ensures { handles_of result.cells ≡ [] }
    {
        CounterHandles::of(Handles::noop())
    }

    /// Returns the counters, in the order of the targets.
    pub fn cells(&self) -> &Handles<H>
        ensures { result.now ≡ self.now.cells }
    {
        &self.cells
    }
}

impl<H: CounterFn> CounterHandles<H> {
    /// Adds to each count, modulo 2^64.
    #[inline(always)]
    pub fn increment(&self, value: u64) {
        if let Handles::One(cell) = &self.cells {
            CounterFn::increment(cell, value);
        } else {
            for cell in self.cells.several() {
                CounterFn::increment(cell, value);
            }
        }
    }

    /// Raises each count to the value, if it is below that.
    #[inline(always)]
    pub fn absolute(&self, value: u64) {
        if let Handles::One(cell) = &self.cells {
            CounterFn::absolute(cell, value);
        } else {
            for cell in self.cells.several() {
                CounterFn::absolute(cell, value);
            }
        }
    }
}

impl<H: CounterFn> CounterFn for CounterHandles<H> {
    #[inline(always)]
    fn increment(&self, value: u64) {
        self.increment(value);
    }

    fn absolute(&self, value: u64) {
        self.absolute(value);
    }
}

/// The gauges of a name's targets. An update changes each of them.
#[derive(Clone, Drop)]
pub struct GaugeHandles<H> {
    cells: Handles<H>,
}

impl<H: Drop> GaugeHandles<H> {
    /// Makes a handle of these gauges.
    pub fn of(cells: Handles<H>) -> GaugeHandles<H>
        ensures { result.cells ≡ cells }
    {
        GaugeHandles { cells }
    }

    /// Makes a handle of no gauge: an update does nothing.
    pub fn noop() -> GaugeHandles<H>
        ensures { handles_of result.cells ≡ [] }
    {
        GaugeHandles::of(Handles::noop())
    }

    /// Returns the gauges, in the order of the targets.
    pub fn cells(&self) -> &Handles<H>
        ensures { result.now ≡ self.now.cells }
    {
        &self.cells
    }
}

impl<H: GaugeFn> GaugeHandles<H> {
    /// Adds to each value, and saturates at the ends of `i64`. It may have to try again while other threads change a cell.
    pub fn increment<W: Wait>(&self, rt: &W, value: i64) {
        if let Handles::One(cell) = &self.cells {
            GaugeFn::increment(cell, rt, value);
        } else {
            for cell in self.cells.several() {
                GaugeFn::increment(cell, rt, value);
            }
        }
    }

    /// Subtracts from each value, and saturates at the ends of `i64`. It may have to try again while other threads change a
    /// cell.
    pub fn decrement<W: Wait>(&self, rt: &W, value: i64) {
        if let Handles::One(cell) = &self.cells {
            GaugeFn::decrement(cell, rt, value);
        } else {
            for cell in self.cells.several() {
                GaugeFn::decrement(cell, rt, value);
            }
        }
    }

    /// Replaces each value.
    #[inline(always)]
    pub fn set(&self, value: i64) {
        if let Handles::One(cell) = &self.cells {
            GaugeFn::set(cell, value);
        } else {
            for cell in self.cells.several() {
                GaugeFn::set(cell, value);
            }
        }
    }
}

impl<H: GaugeFn> GaugeFn for GaugeHandles<H> {
    fn increment<W: Wait>(&self, rt: &W, value: i64) {
        self.increment(rt, value);
    }

    fn decrement<W: Wait>(&self, rt: &W, value: i64) {
        self.decrement(rt, value);
    }

    fn set(&self, value: i64) {
        self.set(value);
    }
}

/// The histograms of a name's targets. A sample is recorded into each of them.
#[derive(Clone, Drop)]
pub struct HistogramHandles<H> {
    cells: Handles<H>,
}

impl<H: Drop> HistogramHandles<H> {
    /// Makes a handle of these histograms.
    pub fn of(cells: Handles<H>) -> HistogramHandles<H>
        ensures { result.cells ≡ cells }
    {
        HistogramHandles { cells }
    }

    /// Makes a handle of no histogram: a sample goes nowhere.
    pub fn noop() -> HistogramHandles<H>
        ensures { handles_of result.cells ≡ [] }
    {
        HistogramHandles::of(Handles::noop())
    }

    /// Returns the histograms, in the order of the targets.
    pub fn cells(&self) -> &Handles<H>
        ensures { result.now ≡ self.now.cells }
    {
        &self.cells
    }
}

impl<H: HistogramFn> HistogramHandles<H> {
    /// Records a sample into each cell, also after one has rejected it. Fails if some cell did, with the error of the first.
    pub fn record<W: Wait>(&self, rt: &W, value: i64) -> Result<(), H::Error> {
        if let Handles::One(cell) = &self.cells {
            return cell.record(rt, value);
        }
        let mut answer: Result<(), H::Error> = Ok(());
        for cell in self.cells.several() {
            let recorded = cell.record(rt, value);
            if answer.is_ok() {
                answer = recorded;
            }
        }
        answer
    }
}

impl<H: HistogramFn> HistogramFn for HistogramHandles<H> {
    type Error = H::Error;

    fn record<W: Wait>(&self, rt: &W, value: i64) -> Result<(), H::Error> {
        self.record(rt, value)
    }
}
