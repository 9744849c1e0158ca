//! Entries that come and go, and handles.

use crate::kinds::{Cell, Entries, KINDS};
use metrics::{Error, Key, MetricKind};
use metrics_registry::{OwnedRegistry, PlainStorage, Storage};
use metrics_shared_registry::{AtomicStorage, GenerationalStorage, Registry};
use metrics_storage::OwnedBucket;
use std::alloc::Global;
use std::process::Abort;
use std::sync::{Arc, Wait};

/// Adds a one, and returns how many there are.
pub fn add<R: Abort + Wait, E: Entries>(rt: &R, on: &mut E, kind: MetricKind, key: &Key) -> u64 {
    let added = on.add(rt, kind, key);
    assert!(rt; added.calls == u64::from(added.ones.is_ok()));
    added.ones.expect(rt, "out of memory")
}

/// Returns how many ones were added to a cell, if the key is held.
pub fn ones<R: Abort + Wait, E: Entries>(
    rt: &R,
    on: &E,
    kind: MetricKind,
    key: &Key,
) -> Option<u64> {
    on.ones(rt, kind, key).expect(rt, "out of memory")
}

/// Adds to a first key, and keeps it beside a second.
fn expect_first<R: Abort + Wait, E: Entries>(
    rt: &R,
    on: &mut E,
    kind: MetricKind,
    (first, second): (&Key, &Key),
) {
    assert!(rt; add(rt, on, kind, first) == 1);
    assert!(rt; add(rt, on, kind, first) == 2);
    assert!(rt; add(rt, on, kind, second) == 1);
    assert!(rt; on.retain(rt, kind, "foo") == 2);
    assert!(rt; on.visits(rt, kind) == 1);
    assert!(rt; ones(rt, on, kind, first) == Some(2));
}

/// Deletes the first, and makes the second again.
fn expect_second<R: Abort + Wait, E: Entries>(
    rt: &R,
    alloc: Global,
    on: &mut E,
    kind: MetricKind,
    (first, second): (&Key, &Key),
) {
    assert!(rt; on.delete(rt, kind, first));
    assert!(rt; !on.delete(rt, kind, first));
    let handles = on.handles(rt, alloc, (kind, first, false));
    assert!(rt; handles.expect(rt, "out of memory") == (0, None));
    assert!(rt; add(rt, on, kind, second) == 1);
    assert!(rt; ones(rt, on, kind, second) == Some(1));
    on.clear(rt);
    assert!(rt; ones(rt, on, kind, second) == None);
}

fn expect_course<R: Abort + Wait, E: Entries>(rt: &R, alloc: Global, mut on: E) {
    let first = Key::from_name(alloc, "foobar").expect(rt, "out of memory");
    let second = Key::from_name(alloc, "baz").expect(rt, "out of memory");
    for kind in KINDS {
        expect_first(rt, &mut on, kind, (&first, &second));
        expect_second(rt, alloc, &mut on, kind, (&first, &second));
    }
}

fn expect_shared_course<R: Abort + Wait, S: Storage<Key> + Drop>(
    rt: &R,
    alloc: Global,
    made: Registry<Key, S>,
)
where
    S::Counter: Cell,
    S::Gauge: Cell,
    S::Histogram: Cell,
{
    expect_course(rt, alloc, &made);
}

#[test]
fn entries_of_one_owner_take_their_course(rt: HostRuntime) {
    for shards in [1, 2, 8] {
        let made = OwnedRegistry::new(rt.alloc(), AtomicStorage::new(rt.alloc()), shards);
        expect_course(&rt, rt.alloc(), made.expect(&rt, "out of memory"));
    }
}

#[test]
fn entries_under_locks_take_their_course(rt: HostRuntime) {
    for shards in [1, 2, 8] {
        let made = Registry::atomic(rt.alloc(), shards).expect(&rt, "out of memory");
        expect_shared_course(&rt, rt.alloc(), made);
    }
}

#[test]
fn entries_with_generations_take_their_course(rt: HostRuntime) {
    for shards in [1, 2, 8] {
        let storage = Arc::new(rt.alloc(), GenerationalStorage::atomic(rt.alloc())).expect(
            &rt,
            "out of memory",
        );
        let made = Registry::new(rt.alloc(), storage, shards).expect(&rt, "out of memory");
        expect_shared_course(&rt, rt.alloc(), made);
    }
}

const NAMES: [&str; 8] = ["a", "b", "c", "d", "e", "f", "g", "h"];

/// Makes each name under each kind.
fn fill<R: Abort + Wait, E: Entries>(rt: &R, alloc: Global, on: &mut E) {
    for name in NAMES {
        let key = Key::from_name(alloc, name).expect(rt, "out of memory");
        for kind in KINDS {
            assert!(rt; add(rt, on, kind, &key) == 1);
        }
    }
}

/// Each kind has entries of its own: a retain that keeps none removes those of its kind alone. A second one is called
/// for what is left.
fn expect_none_is_kept<R: Abort + Wait, E: Entries>(rt: &R, on: &mut E, gone: MetricKind) {
    assert!(rt; on.retain(rt, gone, "none") == 8);
    for kind in KINDS {
        let left = if kind == gone { 0 } else { 8 };
        assert!(rt; on.retain(rt, kind, "none") == left);
    }
}

fn expect_filled<R: Abort + Wait, E: Entries>(rt: &R, alloc: Global, mut on: E) {
    for gone in KINDS {
        fill(rt, alloc, &mut on);
        expect_none_is_kept(rt, &mut on, gone);
    }
}

#[test]
fn a_retain_may_keep_none(rt: HostRuntime) {
    for shards in [1, 2, 8] {
        let made = Registry::atomic(rt.alloc(), shards).expect(&rt, "out of memory");
        expect_filled(&rt, rt.alloc(), &made);
        let owned = OwnedRegistry::new(rt.alloc(), AtomicStorage::new(rt.alloc()), shards);
        expect_filled(&rt, rt.alloc(), owned.expect(&rt, "out of memory"));
    }
}

/// Of a cell at 1 the handle makes 2.
fn expect_shared<R: Abort + Wait, E: Entries>(rt: &R, alloc: Global, mut on: E, key: &Key) {
    for kind in KINDS {
        assert!(rt; add(rt, &mut on, kind, key) == 1);
        let handles = on.handles(rt, alloc, (kind, key, true));
        assert!(rt; handles.expect(rt, "out of memory") == (1, Some(2)));
        assert!(rt; add(rt, &mut on, kind, key) == 3);
    }
}

#[test]
fn a_handle_has_the_very_cell(rt: HostRuntime) {
    let key = Key::from_name(rt.alloc(), "a").expect(&rt, "out of memory");
    let made = Registry::atomic(rt.alloc(), 8).expect(&rt, "out of memory");
    expect_shared(&rt, rt.alloc(), &made, &key);
    let owned = OwnedRegistry::new(rt.alloc(), AtomicStorage::new(rt.alloc()), 8);
    expect_shared(&rt, rt.alloc(), owned.expect(&rt, "out of memory"), &key);
}

/// Adds a one to the plain cell of each kind, which then has so many.
fn expect_plain<R: Abort>(rt: &R, on: &mut OwnedRegistry<Key, PlainStorage>, key: &Key, sum: u64) {
    let count = on.get_or_create_counter(key, |cell: &mut u64| {
        *cell = cell.wrapping_add(1);
        *cell
    });
    assert!(rt; count.expect(rt, "out of memory") == sum);
    let level = on.get_or_create_gauge(key, |cell: &mut i64| {
        *cell = cell.wrapping_add(1);
        cell.unsigned_abs()
    });
    assert!(rt; level.expect(rt, "out of memory") == sum);
    let pushed = on.get_or_create_histogram(key, |cell: &mut OwnedBucket<i64>| cell.push(1));
    let pushed = pushed.expect(rt, "out of memory");
    pushed.ok().expect(rt, "out of memory");
}

#[test]
fn plain_cells_have_what_was_added(rt: HostRuntime) {
    let alloc = rt.alloc();
    let key = Key::from_name(alloc, "a").expect(&rt, "out of memory");
    let made = OwnedRegistry::new(alloc, PlainStorage::new(alloc), 2);
    let mut on = made.expect(&rt, "out of memory");
    for sum in [1, 2] {
        expect_plain(&rt, &mut on, &key, sum);
    }
}

#[test]
fn shards_are_a_power_of_two(rt: HostRuntime) {
    for shards in [0, 3, 2048] {
        let refused = Registry::atomic(rt.alloc(), shards).err();
        assert!(rt; refused == Some(Error::BadShards), "{shards} shards");
    }
}
