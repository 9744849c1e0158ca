//! Which series are still in use, asked by several threads.
ghost use Rattle.std.specs.Prelude.{◌≡◌, IfErr, true, false};
ghost use Rattle.metrics.specs.Layers.{mask_has};
ghost use Rattle.metrics.specs.declared.error.Error.TheVariants.{Memory as OutOfMemory};
ghost use Rattle.metrics_registry.specs.Recency.{is_watched};

use crate::registry::Registry;
use metrics::{Error, MetricKind, MetricKindMask};
use metrics_registry::{EqualClone, Generation, Hashable, OwnedRecency, Storage};
use std::alloc::Global;
use std::sync::{Mutex, Wait};

/// An `OwnedRecency` under a lock, over a `Registry`.
///
/// A check of a kind that is watched holds this lock until it returns. To remove a cell it also takes the lock of the key's
/// shard.
#[derive(Drop)]
pub struct Recency<K: Hashable> {
    mask: MetricKindMask,
    timeout: Option<u64>,
    noted: Mutex<OwnedRecency<K>>,
}

impl<K: Hashable + EqualClone + Drop> Recency<K> {
    ghost use Rattle.metrics_shared_registry.specs.Watching.{rules_of};

    /// Makes a recency without notes, for the kinds of the mask.
    ///
    /// Moments and the timeout are in one unit of the caller's choice, as nanoseconds. Without a timeout no series is idle.
    pub fn new(alloc: Global, mask: MetricKindMask, timeout: Option<u64>) -> Recency<K>
        ensures { rules_of result ≡ record { timeout = timeout; mask = λ kind. mask_has kind mask } }
    {
        Recency {
            mask,
            timeout,
            noted: Mutex::new(OwnedRecency::new(alloc, mask, timeout)),
        }
    }

    /// Returns whether it notes series of the kind: there is a timeout, and the mask has the kind.
    fn watches(&self, kind: MetricKind) -> bool
        ensures { result ≡ is_watched (rules_of self.now) kind }
    {
        self.timeout.is_some() && self.mask.matches(kind)
    }

    /// One check: `remove` removes the series from the registry and returns whether it was held.
    fn check<W: Wait, F: FnOnce() -> bool + Drop>(
        &self,
        rt: &W,
        kind: MetricKind,
        key: &K,
        generation: Generation,
        now: u64,
        remove: F,
    ) -> Result<bool, Error>
        requires { F.IsAlwaysCallable remove }
        ensures err { IfErr result (λ e. e ≡ OutOfMemory) }
        ensures unwatched { is_watched (rules_of self.now) kind ≡ false → result ≡ Ok true }
    {
        if !self.watches(kind) {
            return Ok(true);
        }
        let mut noted = self.noted.lock(rt);
        if noted.note(kind, key, generation, now)? || !remove() {
            return Ok(true);
        }
        noted.forget(kind, key);
        Ok(false)
    }

    /// Returns whether a counter that has this generation at this moment is still in use, and removes it if it isn't.
    ///
    /// Without a timeout, or if the mask lacks counters, it returns true and takes no lock.
    /// Fails only when out of memory, and then changes nothing.
    pub fn should_store_counter<W: Wait, S: Storage<K> + Drop>(
        &self,
        rt: &W,
        key: &K,
        generation: Generation,
        now: u64,
        registry: &Registry<K, S>,
    ) -> Result<bool, Error>
    where
        S::Counter: Drop,
        S::Gauge: Drop,
        S::Histogram: Drop,
        ensures err { IfErr result (λ e. e ≡ OutOfMemory) }
        ensures unwatched { is_watched (rules_of self.now) MetricKind.Counter ≡ false → result ≡ Ok true }
    {
        let remove = || registry.delete_counter(rt, key);
        self.check(rt, MetricKind::Counter, key, generation, now, remove)
    }

    /// Returns whether a gauge that has this generation at this moment is still in use, and removes it if it isn't.
    ///
    /// Without a timeout, or if the mask lacks gauges, it returns true and takes no lock.
    /// Fails only when out of memory, and then changes nothing.
    pub fn should_store_gauge<W: Wait, S: Storage<K> + Drop>(
        &self,
        rt: &W,
        key: &K,
        generation: Generation,
        now: u64,
        registry: &Registry<K, S>,
    ) -> Result<bool, Error>
    where
        S::Counter: Drop,
        S::Gauge: Drop,
        S::Histogram: Drop,
        ensures err { IfErr result (λ e. e ≡ OutOfMemory) }
        ensures unwatched { is_watched (rules_of self.now) MetricKind.Gauge ≡ false → result ≡ Ok true }
    {
        let remove = || registry.delete_gauge(rt, key);
        self.check(rt, MetricKind::Gauge, key, generation, now, remove)
    }

    /// Returns whether a histogram that has this generation at this moment is still in use, and removes it if it isn't.
    ///
    /// Without a timeout, or if the mask lacks histograms, it returns true and takes no lock.
    /// Fails only when out of memory, and then changes nothing.
    pub fn should_store_histogram<W: Wait, S: Storage<K> + Drop>(
        &self,
        rt: &W,
        key: &K,
        generation: Generation,
        now: u64,
        registry: &Registry<K, S>,
    ) -> Result<bool, Error>
    where
        S::Counter: Drop,
        S::Gauge: Drop,
        S::Histogram: Drop,
        ensures err { IfErr result (λ e. e ≡ OutOfMemory) }
        ensures unwatched { is_watched (rules_of self.now) MetricKind.Histogram ≡ false → result ≡ Ok true }
    {
        let remove = || registry.delete_histogram(rt, key);
        self.check(rt, MetricKind::Histogram, key, generation, now, remove)
    }
}
