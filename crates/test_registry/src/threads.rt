//! Two threads on one registry.

use crate::entries::ones;
use crate::kinds::{Cell, Entries, KINDS, of_kind};
use metrics::{Error, Key, MetricKind};
use metrics_registry::DefaultHashable;
use metrics_shared_registry::{AtomicStorage, Registry};
use std::alloc::Global;
use std::process::Abort;
use std::sync::Wait;
use std::thread::{Threads, join};
use test_trial::Trial;

/// Adds ones to the cell of the shared key, while the thread's own key comes and goes. Whether that was each time new,
/// and then held.
fn add_all<W: Wait>(
    rt: &W,
    on: &Registry<Key, AtomicStorage>,
    kind: MetricKind,
    (key, own): (&Key, &Key),
    times: u64,
) -> Result<bool, Error> {
    let mut entries = on;
    let mut is_good = true;
    for _ in 0..times {
        entries.add(rt, kind, key).ones?;
        let is_new = entries.add(rt, kind, own).ones? == 1;
        is_good = entries.delete(rt, kind, own) && is_new && is_good;
    }
    Ok(is_good)
}

/// Both threads make the first key's cell if it isn't there, and add to it.
fn expect_sum<R: Threads + Wait + Abort + Sync>(
    rt: &R,
    on: &Registry<Key, AtomicStorage>,
    kind: MetricKind,
    [key, one, other]: [&Key; 3],
    times: u64,
) {
    let (one, other) = join(
        rt,
        || add_all(rt, on, kind, (key, one), times),
        || add_all(rt, on, kind, (key, other), times),
    );
    assert!(rt; one.expect(rt, "out of memory") && other.expect(rt, "out of memory"));
    let mut entries = on;
    assert!(rt; ones(rt, &entries, kind, key) == Some(times.wrapping_mul(2)));
    assert!(rt; entries.retain(rt, kind, "none") == 1);
}

fn expect_each_sum<R: Threads + Wait + Abort + Sync>(
    rt: &R,
    on: &Registry<Key, AtomicStorage>,
    keys: [&Key; 3],
    times: u64,
) {
    for kind in KINDS {
        expect_sum(rt, on, kind, keys, times);
    }
}

fn expect_sums<R: Threads + Wait + Abort + Sync>(rt: &R, alloc: Global, shards: usize, times: u64) {
    let key = Key::from_name(alloc, "a").expect(rt, "out of memory");
    let one = Key::from_name(alloc, "b").expect(rt, "out of memory");
    let other = Key::from_name(alloc, "c").expect(rt, "out of memory");
    let on = Registry::atomic(alloc, shards).expect(rt, "out of memory");
    expect_each_sum(rt, &on, [&key, &one, &other], times);
}

/// Memory may run out in a first run of a few rounds.
#[test]
fn two_threads_add_to_one_cell(rt: HostRuntime) {
    expect_sums(&rt, rt.alloc(), 2, 3);
    Trial::new(rt.alloc()).calm();
    for shards in [1, 8] {
        expect_sums(&rt, rt.alloc(), shards, 500);
    }
}

/// A registry whose keys allocate nothing.
pub type Numbers = Registry<DefaultHashable<u64>, AtomicStorage>;

/// Adds a one to the cell of each number below the count.
pub fn add_to_each<W: Wait>(
    rt: &W,
    on: &Numbers,
    kind: MetricKind,
    count: u64,
) -> Result<(), Error> {
    for number in 0..count {
        let key = DefaultHashable(number);
        of_kind!(kind, on, get_or_create_counter get_or_create_gauge get_or_create_histogram,
            (rt, &key, |cell| cell.add(rt)))?;
    }
    Ok(())
}

/// Counts a cell that has two ones.
fn count_two<W: Wait, C: Cell>(rt: &W, count: &mut u64, cell: &C) {
    if cell.ones(rt) == 2 {
        *count = count.wrapping_add(1);
    }
}

/// Both threads make each cell if it isn't there. A number has one cell, to which both have added.
fn expect_pairs<R: Threads + Wait + Abort + Sync>(
    rt: &R,
    on: &Numbers,
    kind: MetricKind,
    count: u64,
) {
    let (one, other) = join(
        rt,
        || add_to_each(rt, on, kind, count),
        || add_to_each(rt, on, kind, count),
    );
    one.expect(rt, "out of memory");
    other.expect(rt, "out of memory");
    let mut pairs = 0u64;
    of_kind!(kind, on, visit_counters visit_gauges visit_histograms,
        (rt, |_, cell| count_two(rt, &mut pairs, cell)));
    assert!(rt; pairs == count);
    on.clear(rt);
}

fn expect_pairs_of_each<R: Threads + Wait + Abort + Sync>(rt: &R, alloc: Global, count: u64) {
    let storage = AtomicStorage::with_blocks(alloc, 1).expect(rt, "one block");
    let on = Registry::new(alloc, storage, 1).expect(rt, "out of memory");
    for kind in KINDS {
        expect_pairs(rt, &on, kind, count);
    }
}

/// Memory may run out in a first run of a few keys.
#[test]
fn a_raced_create_makes_one_cell(rt: HostRuntime) {
    expect_pairs_of_each(&rt, rt.alloc(), 5);
    Trial::new(rt.alloc()).calm();
    expect_pairs_of_each(&rt, rt.alloc(), 2000);
}
