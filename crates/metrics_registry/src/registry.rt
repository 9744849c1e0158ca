//! A registry that has one owner: for each kind a map from keys to cells, in shards.
ghost use Rattle.std.specs.Prelude.{◌≡◌, true, [], map, IfOk, IfErr, if◌then◌else◌};
ghost use Rattle.std.specs.Option.{option_copied};
ghost use Rattle.std.specs.Fn.{FnOnceReturnsAtMut, FnOnceTakesAtMut};
ghost use Rattle.std.specs.List.{IsDistinct};
ghost use Rattle.std.specs.Map.{keys_of};
ghost use Rattle.metrics.specs.declared.error.Error.TheVariants.{Memory as OutOfMemory, BadShards as NotShards};
ghost use Rattle.metrics_registry.specs.Held.{held, entries_of, IsShardOf, MayCall, GetsOrCreates, Removes, AreCopied};
ghost use Rattle.metrics_registry.specs.Held.{TakesEach, CallsEach, RetainsEach};
ghost use Rattle.metrics_registry.specs.Held.{CountersAlone, GaugesAlone, HistogramsAlone, is_shard_count as is_count};

use crate::keys::{EqualClone, Hashable};
use crate::kinds::{Kinds, is_shard_count, shard_by_mask};
use crate::storage::{ByStorage, HistogramMaker, Storage};
use metrics::Error;
use std::alloc::Global;
use std::collections::HashMap;
use std::marker::Model;

/// A registry that has one owner: for each kind of metric a map from keys to cells.
///
/// Contracts see its storage, the number of its shards, and for each kind the list of the entries of all shards, one shard
/// after another. Each key occurs once among the entries of a kind. `Hashable::hashable` of a key picks its shard; within its
/// shard a key is found by its own `Hash`.
#[derive(Drop)]
pub struct OwnedRegistry<K: Hashable, S: Storage<K>> {
    pub(crate) storage: S,
    pub(crate) shards: Vec<Kinds<K, S>>,
}

impl<K: Hashable, S: Storage<K>> Model for OwnedRegistry<K, S> {
    ghost use Rattle.std.specs.Prelude.{◌≡◌, true, vec_len, map};
    ghost use Rattle.std.specs.Int.{is_power_of_two};
    ghost use Rattle.metrics_registry.specs.Held.{Registry, entries_of, ArePlaced};

    ghost Value = { Registry S K S.Counter S.Gauge S.Histogram };

    ghost view = { λ r. record {
      storage = r.storage;
      count = vec_len r.shards;
      counters = entries_of (map (λ s. s.counters) r.shards.items);
      gauges = entries_of (map (λ s. s.gauges) r.shards.items);
      histograms = entries_of (map (λ s. s.histograms) r.shards.items);
    } };

    ghost invariant = { λ r. (is_power_of_two (vec_len r.shards) ≡ true)
        × ArePlaced K.eq K.number (vec_len r.shards) 0 (map (λ s. s.counters) r.shards.items)
        × ArePlaced K.eq K.number (vec_len r.shards) 0 (map (λ s. s.gauges) r.shards.items)
        × ArePlaced K.eq K.number (vec_len r.shards) 0 (map (λ s. s.histograms) r.shards.items) };
}

impl<K: Hashable + EqualClone + Drop, S: Storage<K> + Drop> OwnedRegistry<K, S>
where
    S::Counter: Drop,
    S::Gauge: Drop,
    S::Histogram: Drop,
{
    /// Makes an empty registry of this many shards, a power of two from 1 to 1,024.
    pub fn new(alloc: Global, storage: S, shards: usize) -> Result<Self, Error>
        ensures ok { IfOk result (λ r. (is_count shards ≡ true)
            × (r ≡ record { storage = storage; count = shards; counters = []; gauges = []; histograms = [] })) }
        ensures err { IfErr result (λ e. e ≡ (if is_count shards then OutOfMemory else NotShards)) }
    {
        if !is_shard_count(shards) {
            return Err(Error::BadShards);
        }
        let mut kinds = Vec::new(alloc);
        kinds.reserve(shards)?;
        for _ in 0..shards {
            kinds.push_reserved(Kinds::new(alloc));
        }
        Ok(OwnedRegistry {
            storage,
            shards: kinds,
        })
    }

    /// Removes every entry of every kind.
    pub fn clear(&mut self)
        ensures { self.new
            ≡ record { storage = self.old.storage; count = self.old.count; counters = []; gauges = []; histograms = [] } }
    {
        for i in 0..self.shards.len() {
            let shard = &mut self.shards[i];
            shard.counters.clear();
            shard.gauges.clear();
            shard.histograms.clear();
        }
    }

    /// Returns the shards, for a walk over the cells by reference.
    pub fn shards(&self) -> &[Kinds<K, S>]
        ensures counters { entries_of (map (λ s. s.counters) result.now) ≡ self.now.counters }
        ensures gauges { entries_of (map (λ s. s.gauges) result.now) ≡ self.now.gauges }
        ensures histograms { entries_of (map (λ s. s.histograms) result.now) ≡ self.now.histograms }
        ensures once { IsDistinct K.eq (keys_of self.now.counters) × IsDistinct K.eq (keys_of self.now.gauges)
            × IsDistinct K.eq (keys_of self.now.histograms) }
    {
        &self.shards
    }

    /// Returns the storage, which makes the cells.
    pub fn storage(&self) -> &S
        ensures { result.now ≡ self.now.storage }
    {
        &self.storage
    }

    /// Returns the shard of a key. No other shard holds the key, and each key occurs once in a kind.
    pub fn shard(&self, key: &K) -> &Kinds<K, S>
        ensures counters { IsShardOf K.eq key.now result.now.counters self.now.counters }
        ensures gauges { IsShardOf K.eq key.now result.now.gauges self.now.gauges }
        ensures histograms { IsShardOf K.eq key.now result.now.histograms self.now.histograms }
    {
        let shard = shard_by_mask(key, self.shards.len());
        &self.shards[shard]
    }

    /// Returns the cell of a counter, if the key is held.
    pub fn get_counter(&self, key: &K) -> Option<&S::Counter>
        ensures { option_copied result ≡ held K.eq self.now.counters key.now }
    {
        self.shard(key).counters.get(key)
    }

    /// Calls `op` once on the cell of a counter, and returns its result. The storage makes the cell if the key isn't held.
    ///
    /// A call that fails changes nothing. A call for a held key never fails.
    pub fn get_or_create_counter<V, F: FnOnce(&mut S::Counter) -> V + Drop>(
        &mut self,
        key: &K,
        op: F,
    ) -> Result<V, Error>
        requires { MayCall K.eq (S.makes_counter self.old.storage) (FnOnceTakesAtMut F.FnOnce op) key.now self.old.counters }
        ensures counters { GetsOrCreates K.eq K.is_clone (S.makes_counter self.old.storage)
            (FnOnceReturnsAtMut F.FnOnce op) (self.old.count ≡ 1) key.now result self.old.counters self.new.counters }
        ensures rest { CountersAlone self.old self.new }
    {
        let shard = shard_by_mask(key, self.shards.len());
        self.shards[shard].get_or_create_counter(&self.storage, key, op)
    }

    /// Calls `f` once for each counter, in some order.
    pub fn visit_counters<F: FnMut(&K, &S::Counter) + Drop>(&self, f: F)
        requires { TakesEach F.FnMut f self.now.counters }
        ensures calls { (last : F) × CallsEach F.FnMut f self.now.counters last }
        ensures once { IsDistinct K.eq (keys_of self.now.counters) }
    {
        let mut f = f;
        for shard in &self.shards {
            f = shard.counters.visit(f);
        }
    }

    /// Returns the keys of the counters, each with a clone of its cell.
    ///
    /// Fails only when out of memory, and never if there are no counters.
    pub fn get_counter_handles(&self, alloc: Global) -> Result<HashMap<K, S::Counter>, Error>
    where
        S::Counter: Clone,
        ensures { AreCopied K.eq S.Counter.is_clone self.now.counters result }
    {
        let mut handles = HashMap::new(alloc);
        for shard in &self.shards {
            shard.counters.copy_into(&mut handles)?;
        }
        Ok(handles)
    }

    /// Keeps the counters for which `f` returns true. It calls `f` once for each counter, in some order.
    pub fn retain_counters<F: FnMut(&K, &S::Counter) -> bool + Drop>(&mut self, f: F)
        requires { TakesEach F.FnMut f self.old.counters }
        ensures retains { (last : F) × RetainsEach F.FnMut f self.old.counters self.new.counters last }
        ensures once { IsDistinct K.eq (keys_of self.old.counters) }
        ensures rest { CountersAlone self.old self.new }
    {
        let mut f = f;
        for i in 0..self.shards.len() {
            let shard = &mut self.shards[i];
            f = shard.counters.retain(f);
        }
    }

    /// Removes a counter, and returns whether it was held.
    pub fn delete_counter(&mut self, key: &K) -> bool
        ensures removed { Removes K.eq key.now result self.old.counters self.new.counters }
        ensures rest { CountersAlone self.old self.new }
    {
        let shard = shard_by_mask(key, self.shards.len());
        self.shards[shard].counters.remove(key)
    }

    /// Returns the cell of a gauge, if the key is held.
    pub fn get_gauge(&self, key: &K) -> Option<&S::Gauge>
        ensures { option_copied result ≡ held K.eq self.now.gauges key.now }
    {
        self.shard(key).gauges.get(key)
    }

    /// Calls `op` once on the cell of a gauge, and returns its result. The storage makes the cell if the key isn't held.
    ///
    /// A call that fails changes nothing. A call for a held key never fails.
    pub fn get_or_create_gauge<V, F: FnOnce(&mut S::Gauge) -> V + Drop>(
        &mut self,
        key: &K,
        op: F,
    ) -> Result<V, Error>
        requires { MayCall K.eq (S.makes_gauge self.old.storage) (FnOnceTakesAtMut F.FnOnce op) key.now self.old.gauges }
        ensures gauges { GetsOrCreates K.eq K.is_clone (S.makes_gauge self.old.storage)
            (FnOnceReturnsAtMut F.FnOnce op) (self.old.count ≡ 1) key.now result self.old.gauges self.new.gauges }
        ensures rest { GaugesAlone self.old self.new }
    {
        let shard = shard_by_mask(key, self.shards.len());
        self.shards[shard].get_or_create_gauge(&self.storage, key, op)
    }

    /// Calls `f` once for each gauge, in some order.
    pub fn visit_gauges<F: FnMut(&K, &S::Gauge) + Drop>(&self, f: F)
        requires { TakesEach F.FnMut f self.now.gauges }
        ensures calls { (last : F) × CallsEach F.FnMut f self.now.gauges last }
        ensures once { IsDistinct K.eq (keys_of self.now.gauges) }
    {
        let mut f = f;
        for shard in &self.shards {
            f = shard.gauges.visit(f);
        }
    }

    /// Returns the keys of the gauges, each with a clone of its cell.
    ///
    /// Fails only when out of memory, and never if there are no gauges.
    pub fn get_gauge_handles(&self, alloc: Global) -> Result<HashMap<K, S::Gauge>, Error>
    where
        S::Gauge: Clone,
        ensures { AreCopied K.eq S.Gauge.is_clone self.now.gauges result }
    {
        let mut handles = HashMap::new(alloc);
        for shard in &self.shards {
            shard.gauges.copy_into(&mut handles)?;
        }
        Ok(handles)
    }

    /// Keeps the gauges for which `f` returns true. It calls `f` once for each gauge, in some order.
    pub fn retain_gauges<F: FnMut(&K, &S::Gauge) -> bool + Drop>(&mut self, f: F)
        requires { TakesEach F.FnMut f self.old.gauges }
        ensures retains { (last : F) × RetainsEach F.FnMut f self.old.gauges self.new.gauges last }
        ensures once { IsDistinct K.eq (keys_of self.old.gauges) }
        ensures rest { GaugesAlone self.old self.new }
    {
        let mut f = f;
        for i in 0..self.shards.len() {
            let shard = &mut self.shards[i];
            f = shard.gauges.retain(f);
        }
    }

    /// Removes a gauge, and returns whether it was held.
    pub fn delete_gauge(&mut self, key: &K) -> bool
        ensures removed { Removes K.eq key.now result self.old.gauges self.new.gauges }
        ensures rest { GaugesAlone self.old self.new }
    {
        let shard = shard_by_mask(key, self.shards.len());
        self.shards[shard].gauges.remove(key)
    }

    /// Returns the cell of a histogram, if the key is held.
    pub fn get_histogram(&self, key: &K) -> Option<&S::Histogram>
        ensures { option_copied result ≡ held K.eq self.now.histograms key.now }
    {
        self.shard(key).histograms.get(key)
    }

    /// Calls `op` once on the cell of a histogram, and returns its result. The storage makes the cell if the key isn't held.
    ///
    /// A call that fails changes nothing. A call for a held key never fails.
    pub fn get_or_create_histogram<V, F: FnOnce(&mut S::Histogram) -> V + Drop>(
        &mut self,
        key: &K,
        op: F,
    ) -> Result<V, Error>
        requires { MayCall K.eq (S.makes_histogram self.old.storage) (FnOnceTakesAtMut F.FnOnce op) key.now self.old.histograms }
        ensures histograms { GetsOrCreates K.eq K.is_clone (S.makes_histogram self.old.storage)
            (FnOnceReturnsAtMut F.FnOnce op) (self.old.count ≡ 1) key.now result self.old.histograms self.new.histograms }
        ensures rest { HistogramsAlone self.old self.new }
    {
        self.get_or_make_histogram(&ByStorage, key, op)
    }

    /// Calls `op` once on the cell of a histogram, and returns its result. The maker makes the cell if the key isn't held.
    ///
    /// A call that fails changes nothing. A call for a held key never fails.
    pub fn get_or_make_histogram<
        V,
        M: HistogramMaker<K, S>,
        F: FnOnce(&mut S::Histogram) -> V + Drop,
    >(&mut self, maker: &M, key: &K, op: F) -> Result<V, Error>
        requires { MayCall K.eq (M.makes maker.now self.old.storage) (FnOnceTakesAtMut F.FnOnce op) key.now self.old.histograms }
        ensures histograms { GetsOrCreates K.eq K.is_clone (M.makes maker.now self.old.storage)
            (FnOnceReturnsAtMut F.FnOnce op) (self.old.count ≡ 1) key.now result self.old.histograms self.new.histograms }
        ensures rest { HistogramsAlone self.old self.new }
    {
        let shard = shard_by_mask(key, self.shards.len());
        self.shards[shard].get_or_make_histogram(&self.storage, maker, key, op)
    }

    /// Calls `f` once for each histogram, in some order.
    pub fn visit_histograms<F: FnMut(&K, &S::Histogram) + Drop>(&self, f: F)
        requires { TakesEach F.FnMut f self.now.histograms }
        ensures calls { (last : F) × CallsEach F.FnMut f self.now.histograms last }
        ensures once { IsDistinct K.eq (keys_of self.now.histograms) }
    {
        let mut f = f;
        for shard in &self.shards {
            f = shard.histograms.visit(f);
        }
    }

    /// Returns the keys of the histograms, each with a clone of its cell.
    ///
    /// Fails only when out of memory, and never if there are no histograms.
    pub fn get_histogram_handles(&self, alloc: Global) -> Result<HashMap<K, S::Histogram>, Error>
    where
        S::Histogram: Clone,
        ensures { AreCopied K.eq S.Histogram.is_clone self.now.histograms result }
    {
        let mut handles = HashMap::new(alloc);
        for shard in &self.shards {
            shard.histograms.copy_into(&mut handles)?;
        }
        Ok(handles)
    }

    /// Keeps the histograms for which `f` returns true. It calls `f` once for each histogram, in some order.
    pub fn retain_histograms<F: FnMut(&K, &S::Histogram) -> bool + Drop>(&mut self, f: F)
        requires { TakesEach F.FnMut f self.old.histograms }
        ensures retains { (last : F) × RetainsEach F.FnMut f self.old.histograms self.new.histograms last }
        ensures once { IsDistinct K.eq (keys_of self.old.histograms) }
        ensures rest { HistogramsAlone self.old self.new }
    {
        let mut f = f;
        for i in 0..self.shards.len() {
            let shard = &mut self.shards[i];
            f = shard.histograms.retain(f);
        }
    }

    /// Removes a histogram, and returns whether it was held.
    pub fn delete_histogram(&mut self, key: &K) -> bool
        ensures removed { Removes K.eq key.now result self.old.histograms self.new.histograms }
        ensures rest { HistogramsAlone self.old self.new }
    {
        let shard = shard_by_mask(key, self.shards.len());
        self.shards[shard].histograms.remove(key)
    }
}
