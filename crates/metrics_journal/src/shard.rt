//! A shard that keeps a journal.
ghost use Rattle.std.specs.Prelude.{◌≡◌, ◌<◌, ◌%◌, ◌++◌, ◌∷◌, [], true, false, IfOk, IfErr};
ghost use Rattle.metrics.specs.declared.error.Error.TheVariants.{Memory as OutOfMemory, BadShards as NotShards};
ghost use Rattle.metrics_names.specs.declared.kind.MetricKind.{MetricKind as AnyKind};
ghost use Rattle.metrics_registry.specs.Held.{is_shard_count as is_count};
ghost use Rattle.metrics_journal.specs.Journal.{IsLegal, AreOfShard, holds, key_of};
ghost use Rattle.metrics_journal.specs.Cells.{has_key, HasMadeCells, KeepsCells};

use crate::calls::ShardCall;
use crate::steps::answer;
use metrics::Error;
use metrics_registry::{EqualClone, Hashable, Kinds, Storage, is_shard_count};
use std::alloc::Global;
use std::marker::Model;

/// What a shard has besides its storage: the cells of its keys, and the calls that were made with their replies.
///
/// Each reply is that of a finite map after the earlier calls, and the cells are those of the keys that the journal says.
#[derive(Drop)]
pub(crate) struct ShardCells<K: Hashable, S: Storage<K>> {
    shard: usize,
    shards: usize,
    kinds: Kinds<K, S>,
    journal: Vec<(ShardCall<K>, bool)>,
}

impl<K: Hashable, S: Storage<K>> Model for ShardCells<K, S> {
    ghost use Rattle.std.specs.Prelude.{◌≡◌};
    ghost use Rattle.metrics_names.specs.declared.kind.MetricKind.{MetricKind as AnyKind};
    ghost use Rattle.metrics_registry.specs.declared.kinds.Kinds.{Kinds};
    ghost use Rattle.metrics_journal.specs.Journal.{IsLegal, AreOfShard, holds};
    ghost use Rattle.metrics_journal.specs.Cells.{has_key};
    ghost use Rattle.metrics_journal.specs.Shard.{ShardParts};

    ghost Value = { ShardParts K (Kinds K S S.Counter S.Gauge S.Histogram) };

    ghost view = { λ s. record { shard = s.shard; shards = s.shards; kinds = s.kinds; journal = s.journal.items } };

    ghost invariant = { λ s. IsLegal K.eq s.journal.items
        × AreOfShard K.number s.shards s.shard s.journal.items
        × ((kind : AnyKind) (key : K) → has_key K.eq s.kinds kind key ≡ holds K.eq s.journal.items kind key) };
}

impl<K: Hashable + EqualClone + Drop, S: Storage<K>> ShardCells<K, S>
where
    S::Counter: Drop,
    S::Gauge: Drop,
    S::Histogram: Drop,
{
    /// Makes the shard of this number, from 0, among this many shards, with no calls and no keys. It allocates nothing.
    pub fn new(alloc: Global, shard: usize, shards: usize) -> ShardCells<K, S>
        ensures place { (result.shard ≡ shard) × (result.shards ≡ shards) }
        ensures empty { (result.journal ≡ []) × (result.kinds.counters ≡ []) × (result.kinds.gauges ≡ [])
            × (result.kinds.histograms ≡ []) }
    {
        ShardCells {
            shard,
            shards,
            kinds: Kinds::new(alloc),
            journal: Vec::new(alloc),
        }
    }

    /// Makes a call of a key of this shard, and notes it with its reply. A call that fails changes nothing.
    pub fn call(&mut self, storage: &S, call: ShardCall<K>) -> Result<bool, Error>
        requires { K.number (key_of call) % self.old.shards ≡ self.old.shard }
        ensures ok { IfOk result (λ reply. self.new.journal ≡ self.old.journal ++ (call, reply) ∷ []) }
        ensures err { IfErr result (λ e. (e ≡ OutOfMemory) × (self.new ≡ self.old)) }
        ensures place { (self.new.shard ≡ self.old.shard) × (self.new.shards ≡ self.old.shards) }
        ensures cells { KeepsCells K.eq self.old.kinds self.new.kinds }
        ensures made { HasMadeCells K.eq S.makes_counter S.makes_gauge S.makes_histogram storage.now self.old.kinds
            → HasMadeCells K.eq S.makes_counter S.makes_gauge S.makes_histogram storage.now self.new.kinds }
    {
        self.journal.reserve(1)?;
        let reply = answer(storage, &mut self.kinds, &call)?;
        self.journal.push_reserved((call, reply));
        Ok(reply)
    }

    /// Returns the calls with their replies, in their order.
    pub fn journal(&self) -> &[(ShardCall<K>, bool)]
        ensures journal { result.now ≡ self.now.journal }
        ensures legal { IsLegal K.eq result.now }
        ensures keys { AreOfShard K.number self.now.shards self.now.shard result.now }
    {
        self.journal.as_slice()
    }

    /// Returns the cells of each kind.
    pub fn kinds(&self) -> &Kinds<K, S>
        ensures kinds { result.now ≡ self.now.kinds }
        ensures keys { (kind : AnyKind) (key : K) → has_key K.eq result.now kind key ≡ holds K.eq self.now.journal kind key }
    {
        &self.kinds
    }

    /// Returns the calls with their replies, and drops the cells.
    pub fn into_journal(self) -> Vec<(ShardCall<K>, bool)>
        ensures journal { result.items ≡ self.journal }
        ensures legal { IsLegal K.eq result.items }
        ensures keys { AreOfShard K.number self.shards self.shard result.items }
    {
        self.journal
    }
}

/// A shard of a registry: the cells of the shard's keys, and the calls that were made with their replies.
///
/// Each reply is that of a finite map after the earlier calls, and the shard holds the keys that the journal says.
#[derive(Drop)]
pub struct JournaledShard<K: Hashable, S: Storage<K>> {
    storage: S,
    cells: ShardCells<K, S>,
}

impl<K: Hashable, S: Storage<K>> Model for JournaledShard<K, S> {
    ghost use Rattle.metrics_registry.specs.declared.kinds.Kinds.{Kinds};
    ghost use Rattle.metrics_journal.specs.Cells.{HasMadeCells};
    ghost use Rattle.metrics_journal.specs.Shard.{ShardState};

    ghost Value = { ShardState K S (Kinds K S S.Counter S.Gauge S.Histogram) };

    ghost view = { λ s. record {
      storage = s.storage;
      shard = s.cells.shard;
      shards = s.cells.shards;
      kinds = s.cells.kinds;
      journal = s.cells.journal;
    } };

    ghost invariant = { λ s. HasMadeCells K.eq S.makes_counter S.makes_gauge S.makes_histogram s.storage s.cells.kinds };
}

impl<K: Hashable + EqualClone + Drop, S: Storage<K> + Drop> JournaledShard<K, S>
where
    S::Counter: Drop,
    S::Gauge: Drop,
    S::Histogram: Drop,
{
    /// Makes the shard of this number, from 0, among this many shards, with no calls and no keys.
    ///
    /// The number of shards is a power of two from 1 to 1,024.
    pub fn new(alloc: Global, storage: S, shard: usize, shards: usize) -> Result<Self, Error>
        requires { shard < shards }
        ensures ok { IfOk result (λ s. (is_count shards ≡ true) × (s.storage ≡ storage) × (s.shard ≡ shard)
            × (s.shards ≡ shards) × (s.journal ≡ [])
            × (s.kinds.counters ≡ []) × (s.kinds.gauges ≡ []) × (s.kinds.histograms ≡ [])) }
        ensures err { IfErr result (λ e. (is_count shards ≡ false) × (e ≡ NotShards)) }
    {
        if !is_shard_count(shards) {
            return Err(Error::BadShards);
        }
        let cells = ShardCells::new(alloc, shard, shards);
        Ok(JournaledShard { storage, cells })
    }

    /// Makes a call of a key of this shard, and notes it with its reply. A call that fails changes nothing.
    pub fn call(&mut self, call: ShardCall<K>) -> Result<bool, Error>
        requires { K.number (key_of call) % self.old.shards ≡ self.old.shard }
        ensures ok { IfOk result (λ reply. self.new.journal ≡ self.old.journal ++ (call, reply) ∷ []) }
        ensures err { IfErr result (λ e. (e ≡ OutOfMemory) × (self.new ≡ self.old)) }
        ensures place { (self.new.storage ≡ self.old.storage) × (self.new.shard ≡ self.old.shard)
            × (self.new.shards ≡ self.old.shards) }
        ensures cells { KeepsCells K.eq self.old.kinds self.new.kinds }
    {
        self.cells.call(&self.storage, call)
    }

    /// Returns the calls with their replies, in their order.
    pub fn journal(&self) -> &[(ShardCall<K>, bool)]
        ensures journal { result.now ≡ self.now.journal }
        ensures legal { IsLegal K.eq result.now }
        ensures keys { AreOfShard K.number self.now.shards self.now.shard result.now }
    {
        self.cells.journal()
    }

    /// Returns the cells of each kind.
    pub fn kinds(&self) -> &Kinds<K, S>
        ensures kinds { result.now ≡ self.now.kinds }
        ensures keys { (kind : AnyKind) (key : K) → has_key K.eq result.now kind key ≡ holds K.eq self.now.journal kind key }
        ensures made { HasMadeCells K.eq S.makes_counter S.makes_gauge S.makes_histogram self.now.storage result.now }
    {
        self.cells.kinds()
    }

    /// Returns the storage, which makes the cells.
    pub fn storage(&self) -> &S
        ensures { result.now ≡ self.now.storage }
    {
        &self.storage
    }
}
