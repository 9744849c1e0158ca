//! A sampling reservoir under a lock.
ghost use Rattle.std.specs.Prelude.{◌≡◌, ◌≤◌, ◌<◌, ◌+◌, ◌↔◌, ℕ, IfErr, IsErr, MatchResult};
ghost use Rattle.metrics.specs.declared.error.Error.TheVariants.{Memory as OutOfMemory, CountFull};
ghost use Rattle.metrics_storage.specs.Drains.{Drained};
ghost use Rattle.metrics_storage.specs.Sample.{new_sample, after_push};

use metrics::Error;
use metrics_cells::HistogramFn;
use metrics_storage::reservoir::{Drain, Reservoir};
use rand::RngExt;
use rand_core::Rng;
use std::alloc::Global;
use std::marker::Model;
use std::mem;
use std::sync::{Mutex, Wait};

/// The half that accepts values, with the generator that draws their places once all places are filled.
#[derive(Drop)]
struct Filling<G> {
    reservoir: Reservoir,
    size: u64,
    generator: G,
}

impl<G: Rng> Filling<G> {
    /// Accepts a value, with a draw from 0 to the number of values before it, both included.
    fn push(&mut self, value: i64) -> Result<(), Error>
        ensures step { (draw : ℕ) × (draw ≤ self.old.reservoir.pushed) × MatchResult result
            (λ _. self.new.reservoir ≡ after_push value draw self.old.reservoir)
            (λ e. (e ≡ CountFull) × (self.new.reservoir ≡ self.old.reservoir)) }
        ensures refused { IsErr result ↔ (u64.MAX < self.old.reservoir.pushed + 1) }
        ensures size { self.new.size ≡ self.old.size }
    {
        let pushed = self.reservoir.pushed();
        let draw = if pushed < self.size {
            0
        } else {
            self.generator.random_range(0..=pushed)
        };
        self.reservoir.push(value, draw)
    }
}

/// The half that waits, which has no values while no one consumes.
#[derive(Drop)]
struct Waiting {
    reservoir: Reservoir,
}

impl Model for Waiting {
    ghost use Rattle.std.specs.Prelude.{◌≡◌, ℕ};
    ghost use Rattle.metrics_storage.specs.Sample.{new_sample};

    ghost Value = { ℕ };

    ghost view = { λ w. w.reservoir.places };

    ghost invariant = { λ w. w.reservoir ≡ new_sample w.reservoir.places };
}

impl Waiting {
    fn new(alloc: Global, size: usize) -> Result<Waiting, Error>
        ensures { MatchResult result (λ w. w ≡ size) (λ e. e ≡ OutOfMemory) }
    {
        Ok(Waiting {
            reservoir: Reservoir::new(alloc, size)?,
        })
    }

    /// Exchanges the halves, and shows what the other one held.
    fn consume<W: Wait, G: Rng, F: FnMut(Drain<'_>)>(
        &mut self,
        rt: &W,
        filling: &Mutex<Filling<G>>,
        f: F,
    )
        requires { (held : Drained) → F.pre f held }
        ensures { (held : Drained) × (after : F) × F.step f held tt after }
    {
        mem::swap(&mut self.reservoir, &mut filling.lock(rt).reservoir);
        self.reservoir.consume(f);
    }
}

/// A fixed number of places for values, out of all that any thread pushed. Each value is kept with the same chance if the
/// generator's draws are even.
///
/// It has two halves of that size. Values go to one while the other is read.
#[derive(Drop)]
pub struct AtomicSamplingReservoir<G> {
    filling: Mutex<Filling<G>>,
    waiting: Mutex<Waiting>,
}

impl<G: Rng + Drop> AtomicSamplingReservoir<G> {
    /// Makes an empty reservoir, and allocates all its room. One of size 0 counts and keeps nothing.
    ///
    /// Fails only when out of memory.
    pub fn new(
        alloc: Global,
        size: usize,
        generator: G,
    ) -> Result<AtomicSamplingReservoir<G>, Error>
        ensures { IfErr result (λ e. e ≡ OutOfMemory) }
    {
        let waiting = Waiting::new(alloc, size)?;
        let reservoir = Reservoir::new(alloc, size)?;
        Ok(AtomicSamplingReservoir {
            filling: Mutex::new(Filling {
                reservoir,
                size: size as u64,
                generator,
            }),
            waiting: Mutex::new(waiting),
        })
    }

    /// Returns whether no value was pushed since the last `consume` began.
    pub fn is_empty<W: Wait>(&self, rt: &W) -> bool {
        self.filling.lock(rt).reservoir.is_empty()
    }

    /// Counts a value, and keeps it while there is room, then by a draw.
    ///
    /// Fails with `Error::CountFull` if the count would pass 2^64 - 1.
    pub fn push<W: Wait>(&self, rt: &W, value: i64) -> Result<(), Error>
        ensures { IfErr result (λ e. e ≡ CountFull) }
    {
        self.filling.lock(rt).push(value)
    }

    /// Shows `f` what was kept of the values pushed so far. They are forgotten once `f` returned, however few it used.
    ///
    /// What is pushed meanwhile goes to the other half. A second `consume` waits until `f` returned, so one inside `f` waits for
    /// ever.
    pub fn consume<W: Wait, F: FnMut(Drain<'_>)>(&self, rt: &W, f: F)
        requires { (held : Drained) → F.pre f held }
        ensures { (held : Drained) × (after : F) × F.step f held tt after }
    {
        self.waiting.lock(rt).consume(rt, &self.filling, f);
    }
}

impl<G: Rng + Drop> HistogramFn for AtomicSamplingReservoir<G> {
    type Error = Error;

    fn record<W: Wait>(&self, rt: &W, value: i64) -> Result<(), Error>
        ensures { IfErr result (λ e. e ≡ CountFull) }
    {
        self.push(rt, value)
    }
}
