//! All shards under one lock.
ghost use Rattle.std.specs.Prelude.{◌≡◌, ◌<◌, ◌≤◌, ◌+◌, true, false, if◌then◌else◌, map, IfOk};
ghost use Rattle.std.specs.Prelude.{IfErr, vec_len, vec_capacity};
ghost use Rattle.metrics.specs.declared.error.Error.TheVariants.{Memory as OutOfMemory, BadShards as NotShards};
ghost use Rattle.metrics_registry.specs.Held.{is_shard_count as is_count};
ghost use Rattle.metrics_journal.specs.Journal.{AreJournals, replies_in};
ghost use Rattle.metrics_journal.specs.Tally.{counted};
ghost use Rattle.metrics_journal.specs.Journals.{journals_of, AreShards};

use crate::calls::ShardCall;
use crate::shard::ShardCells;
use crate::tally::Tally;
use metrics::Error;
use metrics_registry::{EqualClone, Hashable, Storage, is_shard_count, shard_of};
use std::alloc::Global;
use std::marker::Model;
use std::sync::ledger::{Blank, Book, Ledger};
use std::sync::{Mutex, Wait};

/// All shards and the storage that they share, room for their journals, and how many of their replies were true and how many
/// false.
#[derive(Drop)]
struct Journals<K: Hashable, S: Storage<K>, T: Ledger, F: Ledger> {
    storage: S,
    shards: Vec<ShardCells<K, S>>,
    room: Vec<Vec<(ShardCall<K>, bool)>>,
    trues: Book<T>,
    falses: Book<F>,
}

impl<K: Hashable, S: Storage<K>, T: Ledger, F: Ledger> Model for Journals<K, S, T, F> {
    ghost use Rattle.std.specs.Prelude.{◌≡◌, ◌<◌, ◌≤◌, ◌+◌, ◌*◌, true, false, List, vec_len};
    ghost use Rattle.std.specs.Prelude.{vec_capacity};
    ghost use Rattle.metrics_journal.specs.Journal.{Journal, replies_in};
    ghost use Rattle.metrics_journal.specs.Journals.{journals_of, AreShards};

    ghost Value = { List (Journal K) };

    ghost view = { λ s. journals_of s.shards.items };

    ghost invariant = { λ s. (0 < vec_len s.shards)
        × AreShards (vec_len s.shards) 0 s.shards.items
        × (s.trues.total ≡ vec_len s.shards + 2048 * replies_in true (journals_of s.shards.items))
        × (s.falses.total ≡ replies_in false (journals_of s.shards.items))
        × (vec_len s.room ≡ 0)
        × (vec_len s.shards ≤ vec_capacity s.room)
        × (vec_len s.shards ≤ 1024) };
}

impl<K: Hashable + EqualClone + Drop, S: Storage<K> + Drop, T: Ledger, F: Ledger> Journals<
    K,
    S,
    T,
    F,
>
where
    S::Counter: Drop,
    S::Gauge: Drop,
    S::Histogram: Drop,
{
    fn call(&mut self, tally: &mut Tally<T, F>, call: ShardCall<K>) -> Result<bool, Error>
        ensures ok { IfOk result (λ reply. tally.new ≡ counted reply tally.old) }
        ensures err { IfErr result (λ e. (e ≡ OutOfMemory) × (tally.new ≡ tally.old)) }
    {
        let shard = shard_of(call.key(), self.shards.len());
        let reply = self.shards[shard].call(&self.storage, call)?;
        tally.count(&mut self.trues, &mut self.falses, reply);
        Ok(reply)
    }

    fn finish(self, tally: Tally<T, F>) -> Vec<Vec<(ShardCall<K>, bool)>>
        requires whole { tally.weight ≡ 1024 }
        ensures legal { AreJournals K.eq K.number (vec_len result) 0 (map (λ v. v.items) result.items) }
        ensures len { vec_len result ≡ tally.shards }
        ensures trues { replies_in true (map (λ v. v.items) result.items) ≡ tally.trues }
        ensures falses { replies_in false (map (λ v. v.items) result.items) ≡ tally.falses }
    {
        let Journals {
            storage: _,
            shards,
            room,
            mut trues,
            mut falses,
        } = self;
        tally.audit(&mut trues, &mut falses);
        journals_in(shards, room)
    }
}

/// Makes shards in order, with empty journals.
fn new_shards<K: Hashable + EqualClone + Drop, S: Storage<K>>(
    alloc: Global,
    count: usize,
) -> Result<Vec<ShardCells<K, S>>, Error>
where
    S::Counter: Drop,
    S::Gauge: Drop,
    S::Histogram: Drop,
    ensures shards { IfOk result (λ v. AreShards count 0 v.items) }
    ensures empty { IfOk result (λ v. (b : _) → replies_in b (journals_of v.items) ≡ 0) }
    ensures len { IfOk result (λ v. vec_len v ≡ count) }
    ensures err { IfErr result (λ e. e ≡ OutOfMemory) }
{
    let mut shards = Vec::new(alloc);
    shards.reserve(count)?;
    for shard in 0..count {
        shards.push_reserved(ShardCells::new(alloc, shard, count));
    }
    Ok(shards)
}

/// Appends the journals of the shards, in order, to a list that has room for them.
fn journals_in<K: Hashable + EqualClone + Drop, S: Storage<K>>(
    shards: Vec<ShardCells<K, S>>,
    room: Vec<Vec<(ShardCall<K>, bool)>>,
) -> Vec<Vec<(ShardCall<K>, bool)>>
where
    S::Counter: Drop,
    S::Gauge: Drop,
    S::Histogram: Drop,
    requires shards { AreShards (vec_len shards) 0 shards.items }
    requires room { (vec_len room ≡ 0) × (vec_len shards ≤ vec_capacity room) }
    ensures journals { map (λ v. v.items) result.items ≡ journals_of shards.items }
    ensures legal { AreJournals K.eq K.number (vec_len shards) 0 (journals_of shards.items) }
    ensures len { vec_len result ≡ vec_len shards }
{
    let mut journals = room;
    for shard in shards {
        journals.push_reserved(shard.into_journal());
    }
    journals
}

/// A registry whose shards keep journals. Any thread calls it with a tally.
///
/// All its shards are under one lock. `T` names the ledger of the calls with reply true, and `F` that of those with reply
/// false.
#[derive(Drop)]
pub struct JournaledRegistry<K: Hashable, S: Storage<K>, T: Ledger, F: Ledger> {
    journals: Mutex<Journals<K, S, T, F>>,
}

impl<K: Hashable + EqualClone + Drop, S: Storage<K> + Drop, T: Ledger, F: Ledger> JournaledRegistry<
    K,
    S,
    T,
    F,
>
where
    S::Counter: Drop,
    S::Gauge: Drop,
    S::Histogram: Drop,
{
    /// Makes a registry of this many shards, a power of two from 1 to 1,024, and the whole tally.
    ///
    /// The two blanks open the ledgers of the true and the false replies, each of 1,024 parts. The shards share the storage.
    /// It allocates all that `finish` needs.
    pub fn new(
        alloc: Global,
        storage: S,
        shards: usize,
        trues: Blank,
        falses: Blank,
    ) -> Result<(Self, Tally<T, F>), Error>
        requires trues { (trues.name ≡ T.name) × (trues.parts ≡ T.parts) × (T.parts ≡ 1024) }
        requires falses { (falses.name ≡ F.name) × (falses.parts ≡ F.parts) × (F.parts ≡ 1024) }
        ensures ok { IfOk result (λ r. (is_count shards ≡ true)
            × (r.1 ≡ record { weight = 1024; shards = shards; trues = 0; falses = 0 })) }
        ensures err { IfErr result (λ e. e ≡ (if is_count shards then OutOfMemory else NotShards)) }
    {
        if !is_shard_count(shards) {
            return Err(Error::BadShards);
        }
        let made = new_shards(alloc, shards)?;
        let mut room = Vec::new(alloc);
        room.reserve(shards)?;
        let (trues, falses, tally) = Tally::open(trues, falses, shards);
        let journals = Journals {
            storage,
            shards: made,
            room,
            trues,
            falses,
        };
        Ok((
            JournaledRegistry {
                journals: Mutex::new(journals),
            },
            tally,
        ))
    }

    /// Makes a call in the shard of its key, and counts the reply in the tally. A call that fails changes nothing.
    pub fn call<R: Wait>(
        &self,
        rt: &R,
        tally: &mut Tally<T, F>,
        call: ShardCall<K>,
    ) -> Result<bool, Error>
        ensures ok { IfOk result (λ reply. tally.new ≡ counted reply tally.old) }
        ensures err { IfErr result (λ e. (e ≡ OutOfMemory) × (tally.new ≡ tally.old)) }
    {
        self.journals.lock(rt).call(tally, call)
    }

    /// Returns the journal of each shard, in the order of the shards. It needs the whole tally, and allocates nothing.
    pub fn finish(self, tally: Tally<T, F>) -> Vec<Vec<(ShardCall<K>, bool)>>
        requires whole { tally.weight ≡ 1024 }
        ensures legal { AreJournals K.eq K.number (vec_len result) 0 (map (λ v. v.items) result.items) }
        ensures len { vec_len result ≡ tally.shards }
        ensures trues { replies_in true (map (λ v. v.items) result.items) ≡ tally.trues }
        ensures falses { replies_in false (map (λ v. v.items) result.items) ≡ tally.falses }
    {
        self.journals.into_inner().finish(tally)
    }
}
