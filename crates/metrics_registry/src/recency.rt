//! Which series are still in use.
ghost use Rattle.std.specs.Prelude.{◌≡◌, ◌&&◌, true, if◌then◌else◌, Some, None, OnOk, OnErr, IfOk, IfErr};
ghost use Rattle.std.specs.Prelude.{is_some};
ghost use Rattle.std.specs.List.{IsDistinct};
ghost use Rattle.std.specs.Map.{keys_of};
ghost use Rattle.std.specs.HashMap.{get};
ghost use Rattle.metrics.specs.Layers.{mask_has};
ghost use Rattle.metrics_names.specs.declared.kind.MetricKind.{MetricKind as AnyKind};
ghost use Rattle.metrics_names.specs.declared.kind.MetricKind.TheVariants.{Counter as CounterKind, Gauge as GaugeKind};
ghost use Rattle.metrics_names.specs.declared.kind.MetricKind.TheVariants.{Histogram as HistogramKind};
ghost use Rattle.metrics_registry.specs.Held.{held, StaysOrGoes, CountersAlone, GaugesAlone, HistogramsAlone};
ghost use Rattle.metrics_registry.specs.Recency.{watch_step, IsNoted};
ghost use Rattle.metrics.specs.declared.error.Error.TheVariants.{Memory as OutOfMemory};
ghost use Rattle.metrics_names.specs.Names.{kind_eq};

use crate::cells::Cells;
use crate::generation::Generation;
use crate::keys::{EqualClone, Hashable};
use crate::kinds::shard_by_mask;
use crate::registry::OwnedRegistry;
use crate::storage::Storage;
use metrics::{Error, MetricKind, MetricKindMask, PerKind};
use std::alloc::Global;
use std::collections::HashMap;
use std::hash::Hash;

/// The generation and the moment of a check.
#[derive(Clone, Copy, Debug, PartialEq, Eq)]
pub(crate) struct Noted {
    generation: Generation,
    moment: u64,
}

/// Whether a key that is noted stays, if it is held.
fn stays(note: &Noted, timeout: u64, seen: Noted) -> bool
    ensures { result ≡ (watch_step (Some timeout) seen true (Some note.now)).0 }
{
    note.generation != seen.generation || seen.moment.saturating_sub(note.moment) <= timeout
}

/// Checks a key of a watched kind, whether it is held or not, as long as this adds no note: one that isn't noted stays so. One
/// that goes is no longer noted.
fn recheck<K: Hash + Drop>(noted: &mut HashMap<K, Noted>, timeout: u64, key: &K, seen: Noted)
    ensures { (q : K) → get K.eq noted.new q ≡ (if is_some (get K.eq noted.old q) && K.eq key.now q
        then (watch_step (Some timeout) seen true (get K.eq noted.old key.now)).1 else get K.eq noted.old q) }
{
    let Some(note) = noted.get_mut(key) else {
        return;
    };
    if note.generation != seen.generation {
        *note = seen;
    } else if !stays(note, timeout, seen) {
        noted.remove(key);
    }
}

/// Notes a check of a key of a watched kind, and returns whether the key stays, whether it is held or not.
fn note<K: Hash + EqualClone + Drop>(
    noted: &mut HashMap<K, Noted>,
    timeout: u64,
    key: &K,
    seen: Noted,
) -> Result<bool, Error>
    ensures answer { IfOk result (λ stays. stays ≡ (watch_step (Some timeout) seen true (get K.eq noted.old key.now)).0) }
    ensures ok { IfOk result (λ stays. (q : K) → get K.eq noted.new q
        ≡ (if stays && K.eq key.now q then (watch_step (Some timeout) seen true (get K.eq noted.old key.now)).1
        else get K.eq noted.old q)) }
    ensures err { IfErr result (λ e. (e ≡ OutOfMemory) × ((q : K) → get K.eq noted.new q ≡ get K.eq noted.old q)
        × (get K.eq noted.old key.now ≡ None)) }
{
    let Some(note) = noted.get_mut(key) else {
        noted.insert(key.clone()?, seen)?;
        return Ok(true);
    };
    if note.generation != seen.generation {
        *note = seen;
        return Ok(true);
    }
    Ok(stays(note, timeout, seen))
}

/// One check of a key among the cells of a watched kind.
fn check<K: Hash + EqualClone + Drop, C: Drop>(
    noted: &mut HashMap<K, Noted>,
    timeout: u64,
    key: &K,
    seen: Noted,
    cells: &mut Cells<K, C>,
) -> Result<bool, Error>
    ensures noted { IsNoted K.eq (watch_step (Some timeout) seen (is_some (held K.eq cells.old key.now))
        (get K.eq noted.old key.now))
        key.now result (get K.eq noted.old) (get K.eq noted.new) }
    ensures cells { IfOk result (λ stays. StaysOrGoes K.eq key.now stays cells.old cells.new) }
    ensures once { OnOk result (IsDistinct K.eq (keys_of cells.old) → IsDistinct K.eq (keys_of cells.new)) }
    ensures err { OnErr result ((cells.new ≡ cells.old) × (get K.eq noted.old key.now ≡ None)) }
{
    if note(noted, timeout, key, seen)? || !cells.remove(key) {
        return Ok(true);
    }
    noted.remove(key);
    Ok(false)
}

/// Says which cells of a registry have not changed for longer than a timeout, and removes them.
///
/// For each kind and key it notes a generation and a moment.
#[derive(Drop)]
pub struct OwnedRecency<K: Hashable> {
    mask: MetricKindMask,
    timeout: Option<u64>,
    noted: PerKind<HashMap<K, Noted>>,
}

impl<K: Hashable + EqualClone + Drop> OwnedRecency<K> {
    ghost use Rattle.metrics_registry.specs.Recency.{new_table};
    ghost use Rattle.metrics_registry.specs.RecencyEntries.{rules_of, table_of, check_of, IsChecked};

    /// Makes a recency without notes, for the kinds of the mask.
    ///
    /// Moments and the timeout are in one unit of the caller's choice, as nanoseconds. Without a timeout no series is idle.
    pub fn new(alloc: Global, mask: MetricKindMask, timeout: Option<u64>) -> OwnedRecency<K>
        ensures rules { rules_of result ≡ record { timeout = timeout; mask = λ kind. mask_has kind mask } }
        ensures empty { (kind : AnyKind) (key : K) → table_of K.eq result kind key ≡ new_table kind key }
    {
        OwnedRecency {
            mask,
            timeout,
            noted: PerKind {
                counter: HashMap::new(alloc),
                gauge: HashMap::new(alloc),
                histogram: HashMap::new(alloc),
            },
        }
    }

    /// The timeout, if the kind is watched.
    fn timeout_of(&self, kind: MetricKind) -> Option<u64>
        ensures { result ≡ (if mask_has kind self.now.mask then self.now.timeout else None) }
    {
        if self.mask.matches(kind) {
            self.timeout
        } else {
            None
        }
    }

    /// Returns whether a series that has this generation at this moment is still in use, by the note of its kind and key.
    ///
    /// It removes a series that isn't from the cells of its kind.
    /// Fails only when out of memory, and then changes nothing. It never fails for a series that is noted, without a timeout,
    /// or for a kind that the mask lacks.
    pub fn check<C: Drop>(
        &mut self,
        kind: MetricKind,
        key: &K,
        generation: Generation,
        now: u64,
        cells: &mut Cells<K, C>,
    ) -> Result<bool, Error>
        ensures rules { rules_of self.new ≡ rules_of self.old }
        ensures checked { IsChecked K.eq (rules_of self.old)
            (check_of kind key.now generation now (is_some (held K.eq cells.old key.now))) result
            (table_of K.eq self.old) (table_of K.eq self.new) cells.old cells.new }
        ensures once { IsDistinct K.eq (keys_of cells.old) → IsDistinct K.eq (keys_of cells.new) }
    {
        let Some(timeout) = self.timeout_of(kind) else {
            return Ok(true);
        };
        let seen = Noted {
            generation,
            moment: now,
        };
        check(self.noted.of_mut(kind), timeout, key, seen, cells)
    }

    /// Returns whether a counter that has this generation at this moment is still in use, and removes it if it isn't.
    ///
    /// Fails only when out of memory, and then changes nothing. It never fails for a counter that is noted, without a timeout,
    /// or if the mask lacks counters.
    pub fn should_store_counter<S: Storage<K> + Drop>(
        &mut self,
        key: &K,
        generation: Generation,
        now: u64,
        registry: &mut OwnedRegistry<K, S>,
    ) -> Result<bool, Error>
    where
        S::Counter: Drop,
        S::Gauge: Drop,
        S::Histogram: Drop,
        ensures rules { rules_of self.new ≡ rules_of self.old }
        ensures checked { IsChecked K.eq (rules_of self.old)
            (check_of CounterKind key.now generation now (is_some (held K.eq registry.old.counters key.now))) result
            (table_of K.eq self.old) (table_of K.eq self.new) registry.old.counters registry.new.counters }
        ensures rest { CountersAlone registry.old registry.new }
    {
        let shard = shard_by_mask(key, registry.shards.len());
        let cells = &mut registry.shards[shard].counters;
        self.check(MetricKind::Counter, key, generation, now, cells)
    }

    /// Returns whether a gauge that has this generation at this moment is still in use, and removes it if it isn't.
    ///
    /// Fails only when out of memory, and then changes nothing. It never fails for a gauge that is noted, without a timeout,
    /// or if the mask lacks gauges.
    pub fn should_store_gauge<S: Storage<K> + Drop>(
        &mut self,
        key: &K,
        generation: Generation,
        now: u64,
        registry: &mut OwnedRegistry<K, S>,
    ) -> Result<bool, Error>
    where
        S::Counter: Drop,
        S::Gauge: Drop,
        S::Histogram: Drop,
        ensures rules { rules_of self.new ≡ rules_of self.old }
        ensures checked { IsChecked K.eq (rules_of self.old)
            (check_of GaugeKind key.now generation now (is_some (held K.eq registry.old.gauges key.now))) result
            (table_of K.eq self.old) (table_of K.eq self.new) registry.old.gauges registry.new.gauges }
        ensures rest { GaugesAlone registry.old registry.new }
    {
        let shard = shard_by_mask(key, registry.shards.len());
        let cells = &mut registry.shards[shard].gauges;
        self.check(MetricKind::Gauge, key, generation, now, cells)
    }

    /// Returns whether a histogram that has this generation at this moment is still in use, and removes it if it isn't.
    ///
    /// Fails only when out of memory, and then changes nothing. It never fails for a histogram that is noted, without a timeout,
    /// or if the mask lacks histograms.
    pub fn should_store_histogram<S: Storage<K> + Drop>(
        &mut self,
        key: &K,
        generation: Generation,
        now: u64,
        registry: &mut OwnedRegistry<K, S>,
    ) -> Result<bool, Error>
    where
        S::Counter: Drop,
        S::Gauge: Drop,
        S::Histogram: Drop,
        ensures rules { rules_of self.new ≡ rules_of self.old }
        ensures checked { IsChecked K.eq (rules_of self.old)
            (check_of HistogramKind key.now generation now (is_some (held K.eq registry.old.histograms key.now))) result
            (table_of K.eq self.old) (table_of K.eq self.new) registry.old.histograms registry.new.histograms }
        ensures rest { HistogramsAlone registry.old registry.new }
    {
        let shard = shard_by_mask(key, registry.shards.len());
        let cells = &mut registry.shards[shard].histograms;
        self.check(MetricKind::Histogram, key, generation, now, cells)
    }
}

/// The two parts of a check, for a caller that reads the cells only if the notes require it.
impl<K: Hashable + EqualClone + Drop> OwnedRecency<K> {
    ghost use Rattle.metrics_registry.specs.Recency.{is_watched, table_answer, table_after, glance, rechecked};
    ghost use Rattle.metrics_registry.specs.RecencyEntries.{rules_of, table_of, check_of};

    /// Returns whether a series may be idle at all: without a timeout none ever is.
    pub fn has_timeout(&self) -> bool
        ensures { result ≡ is_some (rules_of self.now).timeout }
    {
        self.timeout.is_some()
    }

    /// Returns whether a series that has this generation at this moment is still in use, as far as the notes say.
    ///
    /// If it isn't, nothing is noted yet: remove the series, then call `forget`.
    /// Fails only when out of memory, and then changes nothing. It never fails for a series that is noted, without a timeout,
    /// or for a kind that the mask lacks.
    pub fn note(
        &mut self,
        kind: MetricKind,
        key: &K,
        generation: Generation,
        now: u64,
    ) -> Result<bool, Error>
        ensures rules { rules_of self.new ≡ rules_of self.old }
        ensures answer { IfOk result (λ stays. stays
            ≡ table_answer (rules_of self.old) (check_of kind key.now generation now true) (table_of K.eq self.old)) }
        ensures ok { IfOk result (λ stays. (k : AnyKind) (q : K) → table_of K.eq self.new k q
            ≡ (if stays then table_after K.eq (rules_of self.old) (check_of kind key.now generation now true)
            (table_of K.eq self.old) k q else table_of K.eq self.old k q)) }
        ensures err { IfErr result (λ e. (e ≡ OutOfMemory)
            × ((k : AnyKind) (q : K) → table_of K.eq self.new k q ≡ table_of K.eq self.old k q)
            × (table_of K.eq self.old kind key.now ≡ None)) }
        ensures watched { OnErr result (is_watched (rules_of self.old) kind ≡ true) }
    {
        let Some(timeout) = self.timeout_of(kind) else {
            return Ok(true);
        };
        let seen = Noted {
            generation,
            moment: now,
        };
        note(self.noted.of_mut(kind), timeout, key, seen)
    }

    /// Returns what `note` would answer, or `None` if it would add a note. It notes nothing.
    pub fn peek(&self, kind: MetricKind, key: &K, generation: Generation, now: u64) -> Option<bool>
        ensures { result ≡ glance (rules_of self.now) (check_of kind key.now generation now true)
            (table_of K.eq self.now kind key.now) }
    {
        let Some(timeout) = self.timeout_of(kind) else {
            return Some(true);
        };
        let note = self.noted.of(kind).get(key)?;
        let seen = Noted {
            generation,
            moment: now,
        };
        Some(stays(note, timeout, seen))
    }

    /// Checks a series in place, and removes the note of one that is no longer in use. It does nothing where `peek` returns
    /// `None`.
    pub fn recheck(&mut self, kind: MetricKind, key: &K, generation: Generation, now: u64)
        ensures rules { rules_of self.new ≡ rules_of self.old }
        ensures checked { (k : AnyKind) (q : K) → table_of K.eq self.new k q
            ≡ (if kind_eq kind k && K.eq key.now q then rechecked (rules_of self.old)
            (check_of kind key.now generation now true) (table_of K.eq self.old kind key.now) else table_of K.eq self.old k q) }
    {
        let Some(timeout) = self.timeout_of(kind) else {
            return;
        };
        let seen = Noted {
            generation,
            moment: now,
        };
        recheck(self.noted.of_mut(kind), timeout, key, seen);
    }

    /// Removes the note of a series.
    pub fn forget(&mut self, kind: MetricKind, key: &K)
        ensures rules { rules_of self.new ≡ rules_of self.old }
        ensures gone { (k : AnyKind) (q : K) → table_of K.eq self.new k q
            ≡ (if kind_eq kind k && K.eq key.now q then None else table_of K.eq self.old k q) }
    {
        self.noted.of_mut(kind).remove(key);
    }
}
