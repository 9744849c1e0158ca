//! Idle entries that are removed.

use crate::entries::{add, ones};
use crate::kinds::{Cell, Entries, KINDS, of_kind};
use crate::refused::Known;
use metrics::{Error, Key, MetricKind, MetricKindMask};
use metrics_registry::{Counted, Generation, OwnedRecency, OwnedRegistry, Storage};
use metrics_shared_registry::{
    AtomicStorage, Generational, GenerationalAtomicStorage, GenerationalStorage, Recency, Registry,
};
use std::process::Abort;
use std::sync::{Arc, Wait};
use test_trial::{Trial, Wrong, expect, made};

/// The longest time that an entry may be idle.
const TIMEOUT: u64 = 5;

/// A cell by its kind, its key and its generation, and the moment of a look at it.
type Look<'a> = (MetricKind, &'a Key, Generation, u64);

/// What checks the entries of a registry.
trait Checks<E>: Drop {
    /// Whether a cell is still in use.
    fn is_used<W: Wait>(&mut self, rt: &W, on: &mut E, look: Look<'_>) -> Result<bool, Error>;
}

impl Checks<OwnedRegistry<Key, AtomicStorage>> for OwnedRecency<Key> {
    fn is_used<W: Wait>(
        &mut self,
        _rt: &W,
        on: &mut OwnedRegistry<Key, AtomicStorage>,
        (kind, key, generation, now): Look<'_>,
    ) -> Result<bool, Error> {
        of_kind!(kind, self, should_store_counter should_store_gauge should_store_histogram,
            (key, generation, now, on))
    }
}

impl<'a, S: Storage<Key> + Drop> Checks<&'a Registry<Key, S>> for Recency<Key>
where
    S::Counter: Drop,
    S::Gauge: Drop,
    S::Histogram: Drop,
{
    fn is_used<W: Wait>(
        &mut self,
        rt: &W,
        on: &mut &'a Registry<Key, S>,
        (kind, key, generation, now): Look<'_>,
    ) -> Result<bool, Error> {
        of_kind!(kind, self, should_store_counter should_store_gauge should_store_histogram,
            (rt, key, generation, now, *on))
    }
}

/// The mask that has a kind alone, and another kind.
fn mask_of(kind: MetricKind) -> (MetricKindMask, MetricKind) {
    match kind {
        MetricKind::Counter => (MetricKindMask::COUNTER, MetricKind::Gauge),
        MetricKind::Gauge => (MetricKindMask::GAUGE, MetricKind::Counter),
        MetricKind::Histogram => (MetricKindMask::HISTOGRAM, MetricKind::Counter),
    }
}

/// The moments of the checks, and whether the key is held then.
const CHECKS: [(u64, bool); 7] = [
    (10, true),
    (15, true),
    (16, false),
    (17, true),
    (18, true),
    (23, true),
    (24, true),
];

/// A registry and what checks its entries.
#[derive(Drop)]
struct Watched<'a, E, C> {
    on: &'a mut E,
    checks: C,
}

impl<E: Entries, C: Checks<E>> Watched<'_, E, C> {
    /// One check. A failed one notes nothing; otherwise a held key is removed if it was noted for longer than the timeout.
    fn check<W: Wait>(
        &mut self,
        rt: &W,
        trial: &mut Trial,
        known: &Known,
        now: u64,
        noted: Option<u64>,
    ) -> Result<Option<u64>, Wrong> {
        let first = Counted::new(0u64).get_generation();
        trial.begin();
        let look = (known.kind, &known.key, first, now);
        let answer = self.checks.is_used(rt, self.on, look);
        trial.calm();
        match answer {
            Ok(is_used) => {
                let since = noted.unwrap_or(now);
                let goes = known.is_held() && now.saturating_sub(since) > TIMEOUT;
                expect(is_used == !goes, "another answer")?;
                Ok(if goes { None } else { Some(since) })
            }
            Err(error) => {
                trial.note(error)?;
                expect(noted.is_none(), "a refusal at a key that is noted")?;
                Ok(None)
            }
        }
    }

    /// All moments, one after another: the key is held or not, and is checked.
    fn take_turns<W: Wait>(
        &mut self,
        rt: &W,
        trial: &mut Trial,
        known: &mut Known,
    ) -> Result<(), Wrong> {
        let mut noted = None;
        for (now, is_held) in CHECKS {
            let placed = match (is_held, known.is_held()) {
                (true, false) => known.add_one(rt, trial, self.on, false),
                (false, true) => known.delete(rt, trial, self.on),
                _ => Ok(()),
            };
            let after = self.check(rt, trial, known, now, noted)?;
            if noted.is_some() && after.is_none() {
                known.forget();
            }
            placed.and(known.expect_held(rt, self.on))?;
            noted = after;
        }
        Ok(())
    }

    /// Checks of one key of a kind that the mask has. An entry of another kind, which it lacks, stays.
    fn check_all<W: Wait>(
        &mut self,
        rt: &W,
        trial: &mut Trial,
        known: &mut Known,
        stays: &mut Known,
    ) -> Result<(), Wrong> {
        stays
            .add_one(rt, trial, self.on, false)
            .and(self.take_turns(rt, trial, known))
            .and(self.check(rt, trial, stays, 99, Some(99)))?;
        stays.expect_held(rt, self.on)
    }
}

/// Checks a key of a kind, beside an entry of another kind, which the mask lacks.
fn play<W: Wait + Abort, E: Entries, C: Checks<E>>(
    rt: &W,
    trial: &mut Trial,
    mut on: E,
    checks: C,
    kind: MetricKind,
) {
    let (_, other) = mask_of(kind);
    let mut stays = Known::new(trial, other, "a").expect(rt, "wrong");
    let mut known = Known::new(trial, kind, "a").expect(rt, "wrong");
    let mut watched = Watched {
        on: &mut on,
        checks,
    };
    let checked = watched.check_all(rt, trial, &mut known, &mut stays);
    checked.expect(rt, "wrong");
}

#[test]
fn idle_entries_of_one_owner_go(rt: HostRuntime) {
    let alloc = rt.alloc();
    let mut trial = Trial::new(alloc);
    for kind in KINDS {
        let make = move || OwnedRegistry::new(alloc, AtomicStorage::new(alloc), 2);
        let on = made(&mut trial, &make).expect(&rt, "wrong");
        let checks = OwnedRecency::new(alloc, mask_of(kind).0, Some(TIMEOUT));
        play(&rt, &mut trial, on, checks, kind);
    }
}

#[test]
fn idle_entries_under_locks_go(rt: HostRuntime) {
    let alloc = rt.alloc();
    let mut trial = Trial::new(alloc);
    for kind in KINDS {
        let on = made(&mut trial, &move || Registry::atomic(alloc, 2)).expect(&rt, "wrong");
        let checks = Recency::new(alloc, mask_of(kind).0, Some(TIMEOUT));
        play(&rt, &mut trial, &on, checks, kind);
    }
}

/// A registry of cells with generations, whose storage is shared.
type Dated = Registry<Key, Arc<GenerationalAtomicStorage>>;

/// The generation of a clone of a cell, through which a one is added then.
fn changed<W: Wait, C: Cell>(
    rt: &W,
    cell: Result<Option<Generational<C>>, Error>,
) -> Result<Option<Generation>, Error> {
    match cell {
        Ok(Some(cell)) => {
            let before = cell.get_generation();
            cell.add(rt);
            Ok(Some(before))
        }
        Ok(None) => Ok(None),
        Err(error) => Err(error),
    }
}

/// The generation of the cell of a key, which is then changed through a clone.
fn change<R: Abort + Wait>(rt: &R, on: &Dated, (kind, key): (MetricKind, &Key)) -> Generation {
    let found = of_kind!(kind, changed(rt), on, get_counter get_gauge get_histogram, (rt, key));
    let found = found.expect(rt, "out of memory");
    found.expect(rt, "no cell")
}

/// The moments of the checks, all further apart than the timeout, and how many ones the cell has then.
const CHANGES: [(u64, u64); 3] = [(10, 1), (20, 2), (30, 3)];

/// A changed generation counts as use, and a change through a clone is seen in the registry. Once there is no more
/// change the entry is removed.
fn expect_changed_stays<R: Abort + Wait>(
    rt: &R,
    on: &Dated,
    checks: &mut Recency<Key>,
    at: (MetricKind, &Key),
) {
    let (kind, key) = at;
    let mut entries = on;
    assert!(rt; add(rt, &mut entries, kind, key) == 1);
    for (now, sum) in CHANGES {
        assert!(rt; ones(rt, &entries, kind, key) == Some(sum), "at {now}");
        let seen = change(rt, on, at);
        let is_used = checks.is_used(rt, &mut entries, (kind, key, seen, now));
        assert!(rt; is_used.expect(rt, "out of memory"), "at {now}");
    }
    let last = change(rt, on, at);
    for (now, is_kept) in [(40, true), (45, true), (46, false)] {
        let is_used = checks.is_used(rt, &mut entries, (kind, key, last, now));
        assert!(rt; is_used.expect(rt, "out of memory") == is_kept, "at {now}");
    }
    assert!(rt; ones(rt, &entries, kind, key) == None);
}

fn expect_each_stays<R: Abort + Wait>(rt: &R, on: &Dated, checks: &mut Recency<Key>, key: &Key) {
    for kind in KINDS {
        expect_changed_stays(rt, on, checks, (kind, key));
    }
}

#[test]
fn a_changed_cell_stays(rt: HostRuntime) {
    let alloc = rt.alloc();
    let key = Key::from_name(alloc, "a").expect(&rt, "out of memory");
    let storage = Arc::new(alloc, GenerationalStorage::atomic(alloc)).expect(&rt, "out of memory");
    let on = Registry::new(alloc, storage, 8).expect(&rt, "out of memory");
    let mut checks = Recency::new(alloc, MetricKindMask::ALL, Some(TIMEOUT));
    expect_each_stays(&rt, &on, &mut checks, &key);
}
