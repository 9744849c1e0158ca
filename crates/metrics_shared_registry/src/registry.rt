//! Shards, each under a lock of its own.
ghost use Rattle.std.specs.Prelude.{◌≡◌, true, false, List, IfOk, IfErr, IfSome, if◌then◌else◌, vec_len};
ghost use Rattle.std.specs.Fn.{FnOnceReturnsAt, FnOnceReturnsAtMut};
ghost use Rattle.std.specs.Int.{is_power_of_two};
ghost use Rattle.metrics.specs.declared.error.Error.TheVariants.{Memory as OutOfMemory, BadShards as NotShards};
ghost use Rattle.metrics_registry.specs.Held.{CallsEach, is_shard_count as is_count};
ghost use Rattle.metrics_shared_registry.specs.Made.{FitsKey, EachFits};

use crate::lock::Lock;
use crate::shard::Shard;
use crate::storage::AtomicStorage;
use crossbeam_utils::CachePadded;
use metrics::{Error, Key};
use metrics_registry::{EqualClone, Hashable, Storage, is_shard_count, shard_by_mask};
use std::alloc::Global;
use std::collections::HashMap;
use std::sync::Wait;

/// A registry that any thread may call: for each kind of metric a map from keys to cells, in shards.
///
/// A key's shard is `Hashable::hashable` of it modulo the number of shards; there it is found by its own `Hash`. A call of one
/// key runs its closure under the lock of its shard; calls that change no shard share the lock.
/// Calls of all keys go from shard to shard, and hold one lock at a time: they may or may not see a change made meanwhile.
/// A closure that calls this registry again may wait for ever.
///
/// No contract says what a shard holds, since other threads may change it at any time.
#[derive(Drop)]
pub struct Registry<K: Hashable, S: Storage<K>> {
    storage: S,
    shards: Vec<CachePadded<Lock<Shard<K, S>>>>,
    ghost power: { is_power_of_two (vec_len shards) ≡ true },
}

impl<K: Hashable + EqualClone + Drop, S: Storage<K> + Drop> Registry<K, S>
where
    S::Counter: Drop,
    S::Gauge: Drop,
    S::Histogram: Drop,
{
    /// Makes an empty registry of this many shards, a power of two from 1 to 1,024.
    pub fn new(alloc: Global, storage: S, shards: usize) -> Result<Registry<K, S>, Error>
        ensures ok { IfOk result (λ r. (is_count shards ≡ true) × (r.storage ≡ storage) × (vec_len r.shards ≡ shards)) }
        ensures err { IfErr result (λ e. e ≡ (if is_count shards then OutOfMemory else NotShards)) }
    {
        if !is_shard_count(shards) {
            return Err(Error::BadShards);
        }
        let shards = new_shards(alloc, shards)?;
        Ok(Registry { storage, shards })
    }

    /// Returns the storage, which makes the cells.
    pub fn storage(&self) -> &S
        ensures { result.now ≡ self.now.storage }
    {
        &self.storage
    }

    /// Returns the shard of a key.
    fn shard(&self, key: &K) -> &Lock<Shard<K, S>> {
        &self.shards[shard_by_mask(key, self.shards.len())]
    }

    /// Removes every entry of every kind.
    pub fn clear<W: Wait>(&self, rt: &W) {
        for shard in &self.shards {
            shard.write(rt).clear();
        }
    }

    /// Returns a clone of the cell of a counter, if the key is held.
    ///
    /// Fails only when out of memory.
    pub fn get_counter<W: Wait>(&self, rt: &W, key: &K) -> Result<Option<S::Counter>, Error>
    where
        S::Counter: Clone,
        ensures ok { IfOk result
            (λ found. IfSome found (λ h. (c : S.Counter) × FitsKey K.eq S.makes_counter key.now c × S.Counter.is_clone c h)) }
        ensures err { IfErr result (λ e. e ≡ OutOfMemory) }
    {
        match self.shard(key).read(rt).counters.get(key) {
            Some(cell) => Ok(Some(cell.clone()?)),
            None => Ok(None),
        }
    }

    /// Calls `op` once on the cell of a counter, and returns its result. The storage makes the cell if the key isn't held.
    ///
    /// A call that fails changes nothing, and one for a held key never fails: tests show both. A new cell is made before the
    /// shard is locked: if another thread adds the key meanwhile, `op` is called on that thread's cell, and this one is dropped.
    pub fn get_or_create_counter<W: Wait, V, F: FnOnce(&S::Counter) -> V + Drop>(
        &self,
        rt: &W,
        key: &K,
        op: F,
    ) -> Result<V, Error>
        requires { F.IsAlwaysCallable op }
        ensures called { IfOk result (λ v. (c : S.Counter) × FitsKey K.eq S.makes_counter key.now c
            × FnOnceReturnsAt F.FnOnce op c v) }
        ensures err { IfErr result (λ e. e ≡ OutOfMemory) }
    {
        if let Some(cell) = self.shard(key).read(rt).counters.get(key) {
            return Ok(op(cell));
        }
        self.create_counter(rt, key, op)
    }

    /// Does so for a key that wasn't held. It isn't inlined, so that a look-up needs no room for what a writer takes.
    #[inline(never)]
    fn create_counter<W: Wait, V, F: FnOnce(&S::Counter) -> V + Drop>(
        &self,
        rt: &W,
        key: &K,
        op: F,
    ) -> Result<V, Error>
        requires { F.IsAlwaysCallable op }
        ensures called { IfOk result (λ v. (c : S.Counter) × FitsKey K.eq S.makes_counter key.now c
            × FnOnceReturnsAt F.FnOnce op c v) }
        ensures err { IfErr result (λ e. e ≡ OutOfMemory) }
    {
        let cell = self.storage.counter(key)?;
        let mut shard = self.shard(key).write(rt);
        shard.counters.get_or_insert(key, cell, op)
    }

    /// Calls `f` once for each counter, in some order.
    pub fn visit_counters<W: Wait, F: FnMut(&K, &S::Counter) + Drop>(&self, rt: &W, f: F)
        requires { F.IsAlwaysCallable f }
        ensures { (es : List (K × S.Counter)) × (last : F) × EachFits K.eq S.makes_counter es
            × CallsEach F.FnMut f es last }
    {
        let mut f = f;
        for shard in &self.shards {
            f = shard.read(rt).counters.visit(f);
        }
    }

    /// Returns the keys of the counters, each with a clone of its cell.
    ///
    /// Fails only when out of memory.
    pub fn get_counter_handles<W: Wait>(
        &self,
        rt: &W,
        alloc: Global,
    ) -> Result<HashMap<K, S::Counter>, Error>
    where
        S::Counter: Clone,
        ensures { IfErr result (λ e. e ≡ OutOfMemory) }
    {
        let mut handles = HashMap::new(alloc);
        for shard in &self.shards {
            shard.read(rt).counters.copy_into(&mut handles)?;
        }
        Ok(handles)
    }

    /// Keeps the counters for which `f` returns true. It calls `f` once for each counter, in some order.
    pub fn retain_counters<W: Wait, F: FnMut(&K, &S::Counter) -> bool + Drop>(&self, rt: &W, f: F)
        requires { F.IsAlwaysCallable f }
    {
        let mut f = f;
        for shard in &self.shards {
            f = shard.write(rt).counters.retain(f);
        }
    }

    /// Removes a counter if `f` returns true for its cell, and returns whether it did. Otherwise `f` leaves the cell as it was.
    ///
    /// It locks one shard, for `f` alone.
    pub fn remove_counter_if<W: Wait, F: FnOnce(&mut S::Counter) -> bool + Drop>(
        &self,
        rt: &W,
        key: &K,
        f: F,
    ) -> bool
        requires call { F.IsAlwaysCallable f }
        requires keeps { (cell : S.Counter) (left : S.Counter) → FnOnceReturnsAtMut F.FnOnce f cell false left
            → left ≡ cell }
        ensures { result ≡ true → (cell : S.Counter) × (left : S.Counter)
            × FitsKey K.eq S.makes_counter key.now cell × FnOnceReturnsAtMut F.FnOnce f cell true left }
    {
        self.shard(key).write(rt).counters.remove_if(key, f)
    }

    /// Removes a counter, and returns whether it was held.
    pub fn delete_counter<W: Wait>(&self, rt: &W, key: &K) -> bool {
        self.shard(key).write(rt).counters.remove(key)
    }

    /// Returns a clone of the cell of a gauge, if the key is held.
    ///
    /// Fails only when out of memory.
    pub fn get_gauge<W: Wait>(&self, rt: &W, key: &K) -> Result<Option<S::Gauge>, Error>
    where
        S::Gauge: Clone,
        ensures ok { IfOk result
            (λ found. IfSome found (λ h. (c : S.Gauge) × FitsKey K.eq S.makes_gauge key.now c × S.Gauge.is_clone c h)) }
        ensures err { IfErr result (λ e. e ≡ OutOfMemory) }
    {
        match self.shard(key).read(rt).gauges.get(key) {
            Some(cell) => Ok(Some(cell.clone()?)),
            None => Ok(None),
        }
    }

    /// Calls `op` once on the cell of a gauge, and returns its result. The storage makes the cell if the key isn't held.
    ///
    /// A call that fails changes nothing, and one for a held key never fails: tests show both. A new cell is made before the
    /// shard is locked: if another thread adds the key meanwhile, `op` is called on that thread's cell, and this one is dropped.
    pub fn get_or_create_gauge<W: Wait, V, F: FnOnce(&S::Gauge) -> V + Drop>(
        &self,
        rt: &W,
        key: &K,
        op: F,
    ) -> Result<V, Error>
        requires { F.IsAlwaysCallable op }
        ensures called { IfOk result (λ v. (c : S.Gauge) × FitsKey K.eq S.makes_gauge key.now c
            × FnOnceReturnsAt F.FnOnce op c v) }
        ensures err { IfErr result (λ e. e ≡ OutOfMemory) }
    {
        if let Some(cell) = self.shard(key).read(rt).gauges.get(key) {
            return Ok(op(cell));
        }
        self.create_gauge(rt, key, op)
    }

    /// Does so for a key that wasn't held. It isn't inlined, so that a look-up needs no room for what a writer takes.
    #[inline(never)]
    fn create_gauge<W: Wait, V, F: FnOnce(&S::Gauge) -> V + Drop>(
        &self,
        rt: &W,
        key: &K,
        op: F,
    ) -> Result<V, Error>
        requires { F.IsAlwaysCallable op }
        ensures called { IfOk result (λ v. (c : S.Gauge) × FitsKey K.eq S.makes_gauge key.now c
            × FnOnceReturnsAt F.FnOnce op c v) }
        ensures err { IfErr result (λ e. e ≡ OutOfMemory) }
    {
        let cell = self.storage.gauge(key)?;
        let mut shard = self.shard(key).write(rt);
        shard.gauges.get_or_insert(key, cell, op)
    }

    /// Calls `f` once for each gauge, in some order.
    pub fn visit_gauges<W: Wait, F: FnMut(&K, &S::Gauge) + Drop>(&self, rt: &W, f: F)
        requires { F.IsAlwaysCallable f }
        ensures { (es : List (K × S.Gauge)) × (last : F) × EachFits K.eq S.makes_gauge es
            × CallsEach F.FnMut f es last }
    {
        let mut f = f;
        for shard in &self.shards {
            f = shard.read(rt).gauges.visit(f);
        }
    }

    /// Returns the keys of the gauges, each with a clone of its cell.
    ///
    /// Fails only when out of memory.
    pub fn get_gauge_handles<W: Wait>(
        &self,
        rt: &W,
        alloc: Global,
    ) -> Result<HashMap<K, S::Gauge>, Error>
    where
        S::Gauge: Clone,
        ensures { IfErr result (λ e. e ≡ OutOfMemory) }
    {
        let mut handles = HashMap::new(alloc);
        for shard in &self.shards {
            shard.read(rt).gauges.copy_into(&mut handles)?;
        }
        Ok(handles)
    }

    /// Keeps the gauges for which `f` returns true. It calls `f` once for each gauge, in some order.
    pub fn retain_gauges<W: Wait, F: FnMut(&K, &S::Gauge) -> bool + Drop>(&self, rt: &W, f: F)
        requires { F.IsAlwaysCallable f }
    {
        let mut f = f;
        for shard in &self.shards {
            f = shard.write(rt).gauges.retain(f);
        }
    }

    /// Removes a gauge if `f` returns true for its cell, and returns whether it did. Otherwise `f` leaves the cell as it was.
    ///
    /// It locks one shard, for `f` alone.
    pub fn remove_gauge_if<W: Wait, F: FnOnce(&mut S::Gauge) -> bool + Drop>(
        &self,
        rt: &W,
        key: &K,
        f: F,
    ) -> bool
        requires call { F.IsAlwaysCallable f }
        requires keeps { (cell : S.Gauge) (left : S.Gauge) → FnOnceReturnsAtMut F.FnOnce f cell false left
            → left ≡ cell }
        ensures { result ≡ true → (cell : S.Gauge) × (left : S.Gauge)
            × FitsKey K.eq S.makes_gauge key.now cell × FnOnceReturnsAtMut F.FnOnce f cell true left }
    {
        self.shard(key).write(rt).gauges.remove_if(key, f)
    }

    /// Removes a gauge, and returns whether it was held.
    pub fn delete_gauge<W: Wait>(&self, rt: &W, key: &K) -> bool {
        self.shard(key).write(rt).gauges.remove(key)
    }

    /// Returns a clone of the cell of a histogram, if the key is held.
    ///
    /// Fails only when out of memory.
    pub fn get_histogram<W: Wait>(&self, rt: &W, key: &K) -> Result<Option<S::Histogram>, Error>
    where
        S::Histogram: Clone,
        ensures ok { IfOk result
            (λ found. IfSome found (λ h. (c : S.Histogram) × FitsKey K.eq S.makes_histogram key.now c
            × S.Histogram.is_clone c h)) }
        ensures err { IfErr result (λ e. e ≡ OutOfMemory) }
    {
        match self.shard(key).read(rt).histograms.get(key) {
            Some(cell) => Ok(Some(cell.clone()?)),
            None => Ok(None),
        }
    }

    /// Calls `op` once on the cell of a histogram, and returns its result. The storage makes the cell if the key isn't held.
    ///
    /// A call that fails changes nothing, and one for a held key never fails: tests show both. A new cell is made before the
    /// shard is locked: if another thread adds the key meanwhile, `op` is called on that thread's cell, and this one is dropped.
    pub fn get_or_create_histogram<W: Wait, V, F: FnOnce(&S::Histogram) -> V + Drop>(
        &self,
        rt: &W,
        key: &K,
        op: F,
    ) -> Result<V, Error>
        requires { F.IsAlwaysCallable op }
        ensures called { IfOk result (λ v. (c : S.Histogram) × FitsKey K.eq S.makes_histogram key.now c
            × FnOnceReturnsAt F.FnOnce op c v) }
        ensures err { IfErr result (λ e. e ≡ OutOfMemory) }
    {
        if let Some(cell) = self.shard(key).read(rt).histograms.get(key) {
            return Ok(op(cell));
        }
        self.create_histogram(rt, key, op)
    }

    /// Does so for a key that wasn't held. It isn't inlined, so that a look-up needs no room for what a writer takes.
    #[inline(never)]
    fn create_histogram<W: Wait, V, F: FnOnce(&S::Histogram) -> V + Drop>(
        &self,
        rt: &W,
        key: &K,
        op: F,
    ) -> Result<V, Error>
        requires { F.IsAlwaysCallable op }
        ensures called { IfOk result (λ v. (c : S.Histogram) × FitsKey K.eq S.makes_histogram key.now c
            × FnOnceReturnsAt F.FnOnce op c v) }
        ensures err { IfErr result (λ e. e ≡ OutOfMemory) }
    {
        let cell = self.storage.histogram(key)?;
        let mut shard = self.shard(key).write(rt);
        shard.histograms.get_or_insert(key, cell, op)
    }

    /// Calls `f` once for each histogram, in some order.
    pub fn visit_histograms<W: Wait, F: FnMut(&K, &S::Histogram) + Drop>(&self, rt: &W, f: F)
        requires { F.IsAlwaysCallable f }
        ensures { (es : List (K × S.Histogram)) × (last : F) × EachFits K.eq S.makes_histogram es
            × CallsEach F.FnMut f es last }
    {
        let mut f = f;
        for shard in &self.shards {
            f = shard.read(rt).histograms.visit(f);
        }
    }

    /// Returns the keys of the histograms, each with a clone of its cell.
    ///
    /// Fails only when out of memory.
    pub fn get_histogram_handles<W: Wait>(
        &self,
        rt: &W,
        alloc: Global,
    ) -> Result<HashMap<K, S::Histogram>, Error>
    where
        S::Histogram: Clone,
        ensures { IfErr result (λ e. e ≡ OutOfMemory) }
    {
        let mut handles = HashMap::new(alloc);
        for shard in &self.shards {
            shard.read(rt).histograms.copy_into(&mut handles)?;
        }
        Ok(handles)
    }

    /// Keeps the histograms for which `f` returns true. It calls `f` once for each histogram, in some order.
    pub fn retain_histograms<W: Wait, F: FnMut(&K, &S::Histogram) -> bool + Drop>(
        &self,
        rt: &W,
        f: F,
    )
        requires { F.IsAlwaysCallable f }
    {
        let mut f = f;
        for shard in &self.shards {
            f = shard.write(rt).histograms.retain(f);
        }
    }

    /// Removes a histogram if `f` returns true for its cell, and returns whether it did. Otherwise `f` leaves the cell as it was.
    ///
    /// It locks one shard, for `f` alone.
    pub fn remove_histogram_if<W: Wait, F: FnOnce(&mut S::Histogram) -> bool + Drop>(
        &self,
        rt: &W,
        key: &K,
        f: F,
    ) -> bool
        requires call { F.IsAlwaysCallable f }
        requires keeps { (cell : S.Histogram) (left : S.Histogram) → FnOnceReturnsAtMut F.FnOnce f cell false left
            → left ≡ cell }
        ensures { result ≡ true → (cell : S.Histogram) × (left : S.Histogram)
            × FitsKey K.eq S.makes_histogram key.now cell × FnOnceReturnsAtMut F.FnOnce f cell true left }
    {
        self.shard(key).write(rt).histograms.remove_if(key, f)
    }

    /// Removes a histogram, and returns whether it was held.
    pub fn delete_histogram<W: Wait>(&self, rt: &W, key: &K) -> bool {
        self.shard(key).write(rt).histograms.remove(key)
    }
}

impl Registry<Key, AtomicStorage> {
    /// Makes an empty registry of a metric's keys, in this many shards, a power of two from 1 to 1,024.
    ///
    /// Any thread may change its cells. Its histograms have 16 blocks.
    pub fn atomic(alloc: Global, shards: usize) -> Result<Registry<Key, AtomicStorage>, Error>
        ensures ok { IfOk result (λ r. (is_count shards ≡ true) × (vec_len r.shards ≡ shards)) }
        ensures blocks { IfOk result (λ r. r.storage.blocks ≡ 16) }
        ensures err { IfErr result (λ e. e ≡ (if is_count shards then OutOfMemory else NotShards)) }
    {
        Registry::new(alloc, AtomicStorage::new(alloc), shards)
    }
}

/// Makes shards with nothing in them.
fn new_shards<K: Hashable + EqualClone + Drop, S: Storage<K>>(
    alloc: Global,
    count: usize,
) -> Result<Vec<CachePadded<Lock<Shard<K, S>>>>, Error>
where
    S::Counter: Drop,
    S::Gauge: Drop,
    S::Histogram: Drop,
    ensures ok { IfOk result (λ v. vec_len v ≡ count) }
    ensures err { IfErr result (λ e. e ≡ OutOfMemory) }
{
    let mut shards = Vec::new(alloc);
    shards.reserve(count)?;
    for _ in 0..count {
        let shard = Lock::new(alloc, Shard::new(alloc))?;
        shards.push_reserved(CachePadded::new(shard));
    }
    Ok(shards)
}
