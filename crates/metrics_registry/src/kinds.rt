//! One shard: the cells of each kind.
ghost use Rattle.std.specs.Prelude.{◌≡◌, ◌<◌, ◌%◌, ⊤, [], OnOk, true};
ghost use Rattle.std.specs.Fn.{FnOnceReturnsAtMut, FnOnceTakesAtMut};
ghost use Rattle.std.specs.Int.{is_power_of_two};
ghost use Rattle.std.specs.List.{IsDistinct};
ghost use Rattle.std.specs.Map.{keys_of};
ghost use Rattle.metrics_registry.specs.Held.{MayCall, GetsOrCreates, is_shard_count as is_count};

use crate::cells::Cells;
use crate::keys::{EqualClone, Hashable};
use crate::storage::{ByStorage, HistogramMaker, Storage};
use metrics::Error;
use std::alloc::Global;
use std::hash::Hash;

/// The cells of each kind, independent of one another.
#[derive(Drop)]
pub struct Kinds<K: Hash, S: Storage<K>> {
    pub counters: Cells<K, S::Counter>,
    pub gauges: Cells<K, S::Gauge>,
    pub histograms: Cells<K, S::Histogram>,
}

impl<K: Hash + EqualClone + Drop, S: Storage<K>> Kinds<K, S>
where
    S::Counter: Drop,
    S::Gauge: Drop,
    S::Histogram: Drop,
{
    /// Makes empty maps for all kinds, without allocating.
    pub fn new(alloc: Global) -> Kinds<K, S>
        ensures counters { result.counters ≡ [] }
        ensures gauges { result.gauges ≡ [] }
        ensures histograms { result.histograms ≡ [] }
    {
        Kinds {
            counters: Cells::new(alloc),
            gauges: Cells::new(alloc),
            histograms: Cells::new(alloc),
        }
    }

    /// Removes every entry of every kind.
    pub fn clear(&mut self)
        ensures counters { self.new.counters ≡ [] }
        ensures gauges { self.new.gauges ≡ [] }
        ensures histograms { self.new.histograms ≡ [] }
    {
        self.counters.clear();
        self.gauges.clear();
        self.histograms.clear();
    }

    /// Calls `op` once on the cell of a counter, and returns its result. The storage makes the cell if the key isn't held.
    ///
    /// A call that fails changes nothing. A call for a held key never fails.
    pub fn get_or_create_counter<V, F: FnOnce(&mut S::Counter) -> V + Drop>(
        &mut self,
        storage: &S,
        key: &K,
        op: F,
    ) -> Result<V, Error>
        requires { MayCall K.eq (S.makes_counter storage.now) (FnOnceTakesAtMut F.FnOnce op) key.now self.old.counters }
        ensures counters { GetsOrCreates K.eq K.is_clone (S.makes_counter storage.now) (FnOnceReturnsAtMut F.FnOnce op) ⊤
            key.now result self.old.counters self.new.counters }
        ensures rest { (self.new.gauges ≡ self.old.gauges) × (self.new.histograms ≡ self.old.histograms) }
        ensures once { OnOk result (IsDistinct K.eq (keys_of self.new.counters)) }
    {
        match self.counters.change(key, op) {
            Ok(answer) => Ok(answer),
            Err(op) => {
                let cell = storage.counter(key)?;
                self.counters.create(key, cell, op)
            }
        }
    }

    /// Calls `op` once on the cell of a gauge, and returns its result. The storage makes the cell if the key isn't held.
    ///
    /// A call that fails changes nothing. A call for a held key never fails.
    pub fn get_or_create_gauge<V, F: FnOnce(&mut S::Gauge) -> V + Drop>(
        &mut self,
        storage: &S,
        key: &K,
        op: F,
    ) -> Result<V, Error>
        requires { MayCall K.eq (S.makes_gauge storage.now) (FnOnceTakesAtMut F.FnOnce op) key.now self.old.gauges }
        ensures gauges { GetsOrCreates K.eq K.is_clone (S.makes_gauge storage.now) (FnOnceReturnsAtMut F.FnOnce op) ⊤
            key.now result self.old.gauges self.new.gauges }
        ensures rest { (self.new.counters ≡ self.old.counters) × (self.new.histograms ≡ self.old.histograms) }
        ensures once { OnOk result (IsDistinct K.eq (keys_of self.new.gauges)) }
    {
        match self.gauges.change(key, op) {
            Ok(answer) => Ok(answer),
            Err(op) => {
                let cell = storage.gauge(key)?;
                self.gauges.create(key, cell, op)
            }
        }
    }

    /// Calls `op` once on the cell of a histogram, and returns its result. The storage makes the cell if the key isn't held.
    ///
    /// A call that fails changes nothing. A call for a held key never fails.
    pub fn get_or_create_histogram<V, F: FnOnce(&mut S::Histogram) -> V + Drop>(
        &mut self,
        storage: &S,
        key: &K,
        op: F,
    ) -> Result<V, Error>
        requires { MayCall K.eq (S.makes_histogram storage.now) (FnOnceTakesAtMut F.FnOnce op) key.now self.old.histograms }
        ensures histograms { GetsOrCreates K.eq K.is_clone (S.makes_histogram storage.now) (FnOnceReturnsAtMut F.FnOnce op) ⊤
            key.now result self.old.histograms self.new.histograms }
        ensures rest { (self.new.counters ≡ self.old.counters) × (self.new.gauges ≡ self.old.gauges) }
        ensures once { OnOk result (IsDistinct K.eq (keys_of self.new.histograms)) }
    {
        self.get_or_make_histogram(storage, &ByStorage, key, op)
    }

    /// Calls `op` once on the cell of a histogram, and returns its result. The maker makes the cell if the key isn't held.
    ///
    /// A call that fails changes nothing. A call for a held key never fails.
    pub fn get_or_make_histogram<
        V,
        M: HistogramMaker<K, S>,
        F: FnOnce(&mut S::Histogram) -> V + Drop,
    >(&mut self, storage: &S, maker: &M, key: &K, op: F) -> Result<V, Error>
        requires { MayCall K.eq (M.makes maker.now storage.now) (FnOnceTakesAtMut F.FnOnce op) key.now self.old.histograms }
        ensures histograms { GetsOrCreates K.eq K.is_clone (M.makes maker.now storage.now) (FnOnceReturnsAtMut F.FnOnce op) ⊤
            key.now result self.old.histograms self.new.histograms }
        ensures rest { (self.new.counters ≡ self.old.counters) × (self.new.gauges ≡ self.old.gauges) }
        ensures once { OnOk result (IsDistinct K.eq (keys_of self.new.histograms)) }
    {
        match self.histograms.change(key, op) {
            Ok(answer) => Ok(answer),
            Err(op) => {
                let cell = maker.make(storage, key)?;
                self.histograms.create(key, cell, op)
            }
        }
    }
}

/// Returns the number of a key's shard among so many.
pub fn shard_of<K: Hashable>(key: &K, count: usize) -> usize
    requires { 0 < count }
    ensures shard { result ≡ K.number key.now % count }
    ensures within { result < count }
{
    (key.hashable() % count as u64) as usize
}

/// Returns the number of a key's shard among so many, a power of two, without a division.
pub fn shard_by_mask<K: Hashable>(key: &K, count: usize) -> usize
    requires { is_power_of_two count ≡ true }
    ensures shard { result ≡ K.number key.now % count }
    ensures within { result < count }
{
    (key.hashable() & (count as u64 - 1)) as usize
}

/// Returns whether a registry may have so many shards: a power of two from 1 to 1,024.
pub fn is_shard_count(shards: usize) -> bool
    ensures answer { result ≡ is_count shards }
    ensures some { result ≡ true → 0 < shards }
    ensures power { result ≡ true → is_power_of_two shards ≡ true }
{
    shards.is_power_of_two() && shards <= 1024
}
