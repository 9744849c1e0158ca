//! Shared by tests that check the state after a failed call: the marks between which memory may run out, and what is
//! expected then. Also by tests of threads: steps in an order, and whether each value came out once.
#![tactic(auto)]

mod steps;

ghost use Rattle.std.specs.Prelude.{◌≡◌, ◌↔◌, ◌+◌, ◌-◌, ◌^◌, min};
ghost use Rattle.std.specs.Prelude.{IsTrue, IsOk, IsErr, IfOk, MatchResult};
ghost use Rattle.metrics.specs.declared.error.Error.TheVariants.{Memory as OutOfMemory};
ghost use Rattle.metrics_names.specs.declared.refused.Refused.TheVariants.{Memory as MemoryRefused};

use metrics::{Error, Refused};
use std::alloc::Global;
pub use steps::{is_reached, sleep};

/// What went wrong.
pub type Wrong = &'static str;

/// A request of this size asks the preload library to count requests from here on. It is never met.
const COUNTS_FROM_HERE: usize = 1_000_000_000_007;

/// A request of this size asks it to count none from here on.
const COUNTS_TO_HERE: usize = 1_000_000_000_039;

/// A test that continues after a failed call: how many of its calls ran out of memory.
#[derive(Drop)]
pub struct Trial {
    /// The memory that calls allocate from.
    pub alloc: Global,
    /// How many calls ran out of memory.
    pub refusals: u64,
}

fn mark(alloc: Global, size: usize) {
    let asked: Result<Vec<u8>, _> = Vec::with_capacity(alloc, size);
    drop(asked);
}

impl Trial {
    /// Returns a test without failed calls.
    pub fn new(alloc: Global) -> Trial
        ensures { result ≡ record { alloc = alloc; refusals = 0 } }
    {
        Trial { alloc, refusals: 0 }
    }

    /// Lets memory run out from here on.
    pub fn begin(&self) {
        mark(self.alloc, COUNTS_FROM_HERE);
    }

    /// Lets no allocation fail from here on.
    pub fn calm(&self) {
        mark(self.alloc, COUNTS_TO_HERE);
    }

    /// Notes a failed call. Any cause other than out of memory is wrong.
    pub fn note(&mut self, error: Error) -> Result<(), Wrong>
        ensures counted { self.new ≡ record self.old { refusals = min (self.old.refusals + 1) (2 ^ 64 - 1) } }
        ensures memory { IsOk result ↔ (error ≡ OutOfMemory) }
    {
        self.refusals = self.refusals.saturating_add(1);
        expect(error == Error::Memory, "another refusal than memory")
    }

    /// Notes a failed call that acted on nothing.
    pub fn note_refused(&mut self, refused: Refused) -> Result<(), Wrong>
        ensures counted { self.new ≡ record self.old { refusals = min (self.old.refusals + 1) (2 ^ 64 - 1) } }
        ensures memory { IsOk result ↔ (refused ≡ MemoryRefused 0) }
    {
        self.refusals = self.refusals.saturating_add(1);
        expect(
            refused == Refused::Memory { acted: 0 },
            "another refusal than memory, acted 0",
        )
    }
}

/// Fails with `otherwise` unless `holds`.
pub fn expect(holds: bool, otherwise: Wrong) -> Result<(), Wrong>
    ensures { IsOk result ↔ IsTrue holds }
{
    if holds { Ok(()) } else { Err(otherwise) }
}

/// Returns the result of a call that has memory available.
pub fn done<T: Drop, E: Drop>(answer: Result<T, E>) -> Result<T, Wrong>
    ensures { MatchResult answer (λ v. result ≡ Ok v) (λ _. IsErr result) }
{
    match answer {
        Ok(value) => Ok(value),
        Err(_) => Err("refused with memory at hand"),
    }
}

/// Returns the result of a call that is made while memory may run out, and again with memory available if it did.
pub fn made<T: Drop, F: Fn() -> Result<T, Error>>(trial: &mut Trial, make: &F) -> Result<T, Wrong>
    requires { F.IsAlwaysCallable make.now }
    ensures { IfOk result (λ v. F.post make.now (Ok v)) }
{
    trial.begin();
    let first = make();
    trial.calm();
    match first {
        Ok(value) => Ok(value),
        Err(error) => {
            trial.note(error)?;
            done(make())
        }
    }
}

/// Returns whether these are the numbers from 0 on, below `count`, each once, in any order.
pub fn are_all_once(mut values: Vec<u64>, count: usize) -> bool {
    values.sort_unstable();
    let mut want = 0u64;
    for value in values.as_slice() {
        if *value != want {
            return false;
        }
        want = want.wrapping_add(1);
    }
    values.len() == count
}
