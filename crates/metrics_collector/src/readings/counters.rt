//! Readings of counters.
ghost use Rattle.std.specs.Prelude.{◌≡◌, ℕ, true, None, OnOk, IfErr};
ghost use Rattle.std.specs.Arc.{arc_value};
ghost use Rattle.metrics.specs.declared.error.Error.TheVariants.{Memory as OutOfMemory};
ghost use Rattle.metrics_names.specs.Names.{key_eq};
ghost use Rattle.metrics_counts.specs.Noting.{noted_of, IsNoLess, IsLateCount, OthersStay};
ghost use Rattle.metrics_collector.specs.Counts.{IsLookedAt};

use crate::cells::{CollectorCells, CounterHandle, SharedCell};
use crate::gathered::Value;
use crate::readings::{Idle, Kind, Reading, Readings};
use metrics::{Error, Key};
use metrics_counts::CountNotes;
use metrics_registry::Generation;
use metrics_shared_registry::Registry;
use std::marker::PhantomData;
use std::sync::{Arc, Wait};

/// How many handles a counter's cell has besides those of threads: that of the registry, and that of its note.
const OWN_HANDLES: usize = 2;

/// Returns whether a counter leaves: nobody else holds its cell, and its last count is the noted one, which was found changed
/// more than the timeout ago. What is noted of it goes with it.
///
/// While a thread has a handle the note stays. If the count changed since the look the note goes and the counter stays, so the
/// next reading finds it new.
fn counter_leaves<W: Wait, C: SharedCell>(
    rt: &W,
    counts: &mut CountNotes<Key>,
    key: &Key,
    cell: &mut Arc<C>,
    now: u64,
) -> bool
    ensures timeout { counts.new.timeout ≡ counts.old.timeout }
    ensures alone { result ≡ true → (count : ℕ) × C.is_last (arc_value cell.old) count
        × IsLateCount counts.old.timeout now (noted_of key_eq counts.old key.now) count }
    ensures others { OthersStay key_eq key.now (noted_of key_eq counts.old) (noted_of key_eq counts.new) }
    ensures forgotten { result ≡ true → noted_of key_eq counts.new key.now ≡ None }
    ensures same { cell.new ≡ cell.old }
{
    if Arc::strong_count(cell) > OWN_HANDLES {
        return false;
    }
    let Some(count) = counts.take_late(key, now) else {
        return false;
    };
    match Arc::get_mut(cell) {
        Some(alone) => alone.last_generation(rt) == Generation::new(count),
        None => false,
    }
}

impl Kind for CounterHandle {
    fn visit<W: Wait>(
        registry: &Registry<Key, CollectorCells>,
        rt: &W,
        readings: &mut Readings,
        reading: &mut Reading,
        found: &mut Vec<Idle<CounterHandle>>,
    ) {
        registry.visit_counters(
            rt,
            |key, cell| readings.gather_counter(reading, found, key, cell),
        );
    }

    fn remove<W: Wait>(
        registry: &Registry<Key, CollectorCells>,
        rt: &W,
        readings: &mut Readings,
        idle: &Idle<CounterHandle>,
        now: u64,
    ) {
        let counts = &mut readings.counts;
        let leaves = |cell: &mut CounterHandle| -> bool
            ensures { cell.new ≡ cell.old }
        { counter_leaves(rt, counts, &idle.key, &mut cell.cell, now) };
        registry.remove_counter_if(rt, &idle.key, leaves);
    }
}

/// Adds an idle counter to what was found, of which it seems that no thread has a handle.
fn push_idle(found: &mut Vec<Idle<CounterHandle>>, key: &Key) -> Result<(), Error>
    ensures { IfErr result (λ e. e ≡ OutOfMemory) }
{
    let key = key.clone()?;
    found.push(Idle {
        key,
        of: PhantomData,
    })?;
    Ok(())
}

impl Readings {
    /// Looks at a counter, and adds it to the reading with its count. An idle one is added to what was found idle, if it seems
    /// that no thread has a handle of it.
    #[tactic(auto, using(crate::proofs::CountLemmas::no_less_kept))]
    fn look_at_counter(
        &mut self,
        reading: &mut Reading,
        found: &mut Vec<Idle<CounterHandle>>,
        key: &Key,
        cell: &CounterHandle,
    ) -> Result<(), Error>
        ensures timeout { self.new.counts.timeout ≡ self.old.counts.timeout }
        ensures rises { IsNoLess (noted_of key_eq self.old.counts key.now) (noted_of key_eq self.new.counts key.now) }
        ensures others { OthersStay key_eq key.now (noted_of key_eq self.old.counts) (noted_of key_eq self.new.counts) }
        ensures looked { OnOk result (IsLookedAt self.old.counts.timeout key.now reading.old.now
            (noted_of key_eq self.old.counts key.now) (noted_of key_eq self.new.counts key.now)
            reading.old.rows reading.new.rows) }
        ensures err { IfErr result (λ e. e ≡ OutOfMemory) }
    {
        let Some(count) = self.counts.look(key, &cell.cell, reading.now)? else {
            if Arc::strong_count(&cell.cell) > OWN_HANDLES {
                reading.has_held_idle = true;
                return Ok(());
            }
            return push_idle(found, key);
        };
        match reading.rows.push(key, Value::Count(count)) {
            Ok(()) => Ok(()),
            Err(_) => {
                self.counts.show_again(key);
                Err(Error::Memory)
            }
        }
    }

    /// Looks at a counter, unless the reading has failed.
    fn gather_counter(
        &mut self,
        reading: &mut Reading,
        found: &mut Vec<Idle<CounterHandle>>,
        key: &Key,
        cell: &CounterHandle,
    ) {
        if reading.refused.is_none() {
            reading.refused = self.look_at_counter(reading, found, key, cell).err();
        }
    }
}
