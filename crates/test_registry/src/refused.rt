//! Entries that run out of memory, by the plain rules of a finite map.

use crate::copies::Copies;
use crate::kinds::{Entries, Handles, KINDS};
use metrics::{Key, MetricKind};
use metrics_registry::OwnedRegistry;
use metrics_shared_registry::{AtomicStorage, GenerationalStorage, Registry};
use std::process::Abort;
use std::sync::{Arc, Wait};
use test_trial::{Trial, Wrong, done, expect, made};

/// A key of a kind, and how many ones were added to its cell, if it is held.
#[derive(Drop)]
pub struct Known {
    /// The kind.
    pub kind: MetricKind,
    /// The key.
    pub key: Key,
    ones: Option<u64>,
}

impl Known {
    /// Returns a key without an entry.
    pub fn new(trial: &Trial, kind: MetricKind, name: &str) -> Result<Known, Wrong> {
        let key = done(Key::from_name(trial.alloc, name))?;
        let ones = None;
        Ok(Known { kind, key, ones })
    }

    /// Returns whether the entry is held.
    pub fn is_held(&self) -> bool {
        self.ones.is_some()
    }

    /// Notes that the entry is gone.
    pub fn forget(&mut self) {
        self.ones = None;
    }

    /// Checks that the registry has what is known.
    pub fn expect_held<W: Wait, E: Entries>(&self, rt: &W, on: &E) -> Result<(), Wrong> {
        expect(
            done(on.ones(rt, self.kind, &self.key))? == self.ones,
            "another entry",
        )
    }

    /// Checks the same, where the look itself may fail first. A failed one changes nothing.
    fn look<W: Wait, E: Entries>(&self, rt: &W, trial: &mut Trial, on: &E) -> Result<(), Wrong> {
        trial.begin();
        let found = on.ones(rt, self.kind, &self.key);
        trial.calm();
        let looked = match found {
            Ok(found) => expect(found == self.ones, "another entry"),
            Err(error) => trial.note(error),
        };
        looked.and(self.expect_held(rt, on))
    }

    /// Adds a one, and notes the result.
    fn add<W: Wait, E: Entries>(
        &mut self,
        rt: &W,
        trial: &mut Trial,
        on: &mut E,
    ) -> Result<(), Wrong> {
        let added = on.add(rt, self.kind, &self.key);
        match added.ones {
            Ok(ones) => {
                let wanted = self.ones.unwrap_or(0).saturating_add(1);
                self.ones = Some(wanted);
                expect(added.calls == 1, "another number of calls").and(expect(
                    ones == wanted,
                    "another sum",
                ))
            }
            Err(error) => {
                expect(added.calls == 0, "the closure of a refused call is called")
                    .and(expect(self.ones.is_none(), "a refusal at a key that is held"))
                    .and(trial.note(error))
            }
        }
    }

    /// Adds a one. A failed call leaves all as it was.
    pub fn add_one<W: Wait, E: Entries>(
        &mut self,
        rt: &W,
        trial: &mut Trial,
        on: &mut E,
        may_refuse: bool,
    ) -> Result<(), Wrong> {
        let refusals = trial.refusals;
        if may_refuse {
            trial.begin();
        }
        let added = self.add(rt, trial, on);
        trial.calm();
        added
            .and(expect(
                may_refuse || trial.refusals == refusals,
                "refused with memory at hand",
            ))
            .and(self.expect_held(rt, on))
    }

    /// Deletes the key, which allocates nothing.
    pub fn delete<W: Wait, E: Entries>(
        &mut self,
        rt: &W,
        trial: &Trial,
        on: &mut E,
    ) -> Result<(), Wrong> {
        trial.begin();
        let was_held = on.delete(rt, self.kind, &self.key);
        let is_held = on.delete(rt, self.kind, &self.key);
        trial.calm();
        let looked = expect(was_held == self.is_held(), "another entry is deleted").and(expect(
            !is_held,
            "an entry is deleted twice",
        ));
        self.forget();
        looked.and(self.expect_held(rt, on))
    }
}

/// How many of the keys are held.
fn count(all: &[Known]) -> usize {
    let mut count = 0usize;
    for known in all {
        count = count.wrapping_add(usize::from(known.is_held()));
    }
    count
}

/// Checks that a list of handles has what is known of a key, and as many keys as are held.
fn expect_list((length, ones): Handles, known: &Known, all: &[Known]) -> Result<(), Wrong> {
    expect(length == count(all), "another number of handles").and(expect(
        ones == known.ones,
        "another handle",
    ))
}

/// Checks that the handles are those of the keys that are held, whether or not memory may run out.
fn expect_handles<W: Wait, E: Entries>(
    rt: &W,
    trial: &mut Trial,
    on: &E,
    all: &[Known],
) -> Result<(), Wrong> {
    for known in all {
        trial.begin();
        let first = on.handles(rt, trial.alloc, (known.kind, &known.key, false));
        trial.calm();
        let looked = match first {
            Ok(handles) => expect_list(handles, known, all),
            Err(error) => trial.note(error),
        };
        let again = done(on.handles(rt, trial.alloc, (known.kind, &known.key, false)))?;
        looked.and(expect_list(again, known, all))?;
    }
    Ok(())
}

/// Keeps the names that begin with `foo`, which allocates nothing, and visits what is left.
fn retain<W: Wait, E: Entries>(
    rt: &W,
    trial: &Trial,
    on: &mut E,
    kind: MetricKind,
    all: &mut [Known],
) -> Result<(), Wrong> {
    trial.begin();
    let calls = on.retain(rt, kind, "foo");
    let visits = on.visits(rt, kind);
    trial.calm();
    let held = count(all);
    for known in all.iter_mut() {
        if !known.key.name().starts_with("foo") {
            known.forget();
        }
        known.expect_held(rt, on)?;
    }
    expect(calls == held, "a retain calls another number of times").and(expect(
        visits == count(all),
        "a visit calls another number of times",
    ))
}

/// Keys come and go: after a failed create the second try lacks memory too, and the last has it.
fn come_and_go<W: Wait, E: Entries>(
    rt: &W,
    trial: &mut Trial,
    on: &mut E,
    kind: MetricKind,
    all: &mut [Known],
) -> Result<(), Wrong> {
    for known in all.iter_mut() {
        known
            .expect_held(rt, on)
            .and(known.add_one(rt, trial, on, true))
            .and(known.add_one(rt, trial, on, true))
            .and(known.look(rt, trial, on))?;
    }
    expect_handles(rt, trial, on, all).and(retain(rt, trial, on, kind, all))?;
    for known in all.iter_mut() {
        known
            .add_one(rt, trial, on, false)
            .and(known.delete(rt, trial, on))
            .and(known.add_one(rt, trial, on, true))?;
    }
    expect_handles(rt, trial, on, all)?;
    trial.begin();
    on.clear(rt);
    trial.calm();
    for known in all.iter_mut() {
        known.forget();
        known.expect_held(rt, on)?;
    }
    expect_handles(rt, trial, on, all)
}

/// Plays with two keys of a kind.
fn play_kind<W: Wait, E: Entries>(
    rt: &W,
    trial: &mut Trial,
    on: &mut E,
    kind: MetricKind,
) -> Result<(), Wrong> {
    let mut all = [
        Known::new(trial, kind, "foobar")?,
        Known::new(trial, kind, "baz")?,
    ];
    come_and_go(rt, trial, on, kind, &mut all)
}

/// Plays with keys of each kind.
fn play<W: Wait + Abort, E: Entries>(rt: &W, trial: &mut Trial, mut on: E) {
    for kind in KINDS {
        play_kind(rt, trial, &mut on, kind).expect(rt, "wrong");
    }
}

#[test]
fn entries_of_one_owner_come_and_go(rt: HostRuntime) {
    let alloc = rt.alloc();
    let mut trial = Trial::new(alloc);
    for shards in [1usize, 2, 8] {
        let make = move || OwnedRegistry::new(alloc, AtomicStorage::new(alloc), shards);
        let on = made(&mut trial, &make).expect(&rt, "wrong");
        play(&rt, &mut trial, on);
    }
}

#[test]
fn entries_under_locks_come_and_go(rt: HostRuntime) {
    let alloc = rt.alloc();
    let mut trial = Trial::new(alloc);
    for shards in [1usize, 2, 8] {
        let on = made(&mut trial, &move || Registry::atomic(alloc, shards)).expect(&rt, "wrong");
        play(&rt, &mut trial, &on);
    }
}

#[test]
fn entries_with_generations_come_and_go(rt: HostRuntime) {
    let alloc = rt.alloc();
    let mut trial = Trial::new(alloc);
    for shards in [1usize, 2, 8] {
        let make = move || {
            let storage = Arc::new(alloc, GenerationalStorage::atomic(alloc))?;
            Registry::new(alloc, storage, shards)
        };
        let on = made(&mut trial, &make).expect(&rt, "wrong");
        play(&rt, &mut trial, &on);
    }
}

#[test]
fn entries_whose_clones_take_memory_come_and_go(rt: HostRuntime) {
    let alloc = rt.alloc();
    let mut trial = Trial::new(alloc);
    let make = move || Registry::new(alloc, Copies { alloc }, 2);
    let on = made(&mut trial, &make).expect(&rt, "wrong");
    play(&rt, &mut trial, &on);
}
