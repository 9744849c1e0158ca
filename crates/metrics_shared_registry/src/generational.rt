//! Cells that count their changes, whoever makes them.
ghost use Rattle.std.specs.Prelude.{◌≡◌, IfOk, IfErr};
ghost use Rattle.std.specs.Fn.{FnReturnsAt};
ghost use Rattle.metrics.specs.declared.error.Error.TheVariants.{Memory as OutOfMemory};

use metrics::Error;
use metrics_cells::{AtomicGeneration, CounterFn, GaugeFn, HistogramFn};
use metrics_registry::Generation;
use std::alloc::Global;
use std::sync::{Arc, Wait};

/// A cell with its generation. A clone has a clone of the cell and the same generation: a change through either raises it.
#[derive(Clone, Drop)]
pub struct Generational<T> {
    inner: T,
    generation: Arc<AtomicGeneration>,
}

impl<T: Drop> Generational<T> {
    /// Makes a cell at generation 0.
    ///
    /// Fails only when out of memory.
    pub fn new(alloc: Global, inner: T) -> Result<Generational<T>, Error>
        ensures ok { IfOk result (λ g. g.inner ≡ inner) }
        ensures err { IfErr result (λ e. e ≡ OutOfMemory) }
    {
        let generation = Arc::new(alloc, AtomicGeneration::new())?;
        Ok(Generational { inner, generation })
    }
}

impl<T> Generational<T> {
    /// Returns the cell.
    pub fn get_inner(&self) -> &T
        ensures { result.now ≡ self.now.inner }
    {
        &self.inner
    }

    /// Returns how often the cell was changed, modulo 2^64.
    pub fn get_generation(&self) -> Generation {
        Generation::new(self.generation.load())
    }

    /// Returns whether a clone of this cell exists at the moment.
    ///
    /// If there is none, and no other thread can reach this cell, then no thread changes it, and every change that was made
    /// through a clone is visible.
    pub fn has_clones(&self) -> bool {
        Arc::strong_count(&self.generation) > 1
    }

    /// Calls `f` once on the cell and then raises the generation, whatever `f` returns.
    pub fn with_increment<V, F: Fn(&T) -> V>(&self, f: F) -> V
        requires { F.IsAlwaysCallable f }
        ensures { FnReturnsAt F.Fn f self.now.inner result }
    {
        let answer = f(&self.inner);
        self.generation.raise();
        answer
    }
}

impl<T: CounterFn> CounterFn for Generational<T> {
    fn increment(&self, value: u64) {
        self.with_increment(|cell: &T| cell.increment(value));
    }

    fn absolute(&self, value: u64) {
        self.with_increment(|cell: &T| cell.absolute(value));
    }
}

impl<T: GaugeFn> GaugeFn for Generational<T> {
    fn increment<W: Wait>(&self, rt: &W, value: i64) {
        self.with_increment(|cell: &T| cell.increment(rt, value));
    }

    fn decrement<W: Wait>(&self, rt: &W, value: i64) {
        self.with_increment(|cell: &T| cell.decrement(rt, value));
    }

    fn set(&self, value: i64) {
        self.with_increment(|cell: &T| cell.set(value));
    }
}

/// A sample that is rejected raises the generation too.
impl<T: HistogramFn> HistogramFn for Generational<T> {
    type Error = T::Error;

    fn record<W: Wait>(&self, rt: &W, value: i64) -> Result<(), T::Error> {
        self.with_increment(|cell: &T| cell.record(rt, value))
    }
}
