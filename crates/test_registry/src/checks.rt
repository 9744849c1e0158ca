//! Two checks of one idle entry at once.
ghost use Rattle.std.specs.Thread.{IsSync};

use crate::entries::add;
use crate::kinds::{KINDS, of_kind};
use metrics::{Key, MetricKind, MetricKindMask};
use metrics_registry::Counted;
use metrics_shared_registry::{AtomicStorage, Recency, Registry};
use std::alloc::Global;
use std::process::Abort;
use std::sync::Wait;
use std::sync::atomic::{AtomicU64, Ordering};
use std::thread::{self, Threads};
use test_trial::{Trial, is_reached, sleep};

/// The longest time that an entry may be idle.
const TIMEOUT: u64 = 5;

/// How long a thread waits for the others at most, in milliseconds.
const LONG: u64 = 5000;

/// How long it then stays inside a shard.
const STAY: u64 = 20;

/// A registry with one shard, and what checks a key of a kind there.
#[derive(Clone, Copy)]
struct Checked<'a> {
    on: &'a Registry<Key, AtomicStorage>,
    checks: &'a Recency<Key>,
    kind: MetricKind,
    key: &'a Key,
}

/// Checks the key at a moment, by the generation of a cell that never changed. Whether it is still in use.
fn is_used<R: Abort + Wait>(rt: &R, at: Checked<'_>, now: u64) -> bool {
    let first = Counted::new(0u64).get_generation();
    let answer = of_kind!(at.kind, at.checks,
        should_store_counter should_store_gauge should_store_histogram,
        (rt, at.key, first, now, at.on));
    answer.expect(rt, "out of memory")
}

/// Waits until two checks are under way, and some time more.
fn wait_inside<W: Wait>(rt: &W, step: &AtomicU64) {
    step.fetch_add(1, Ordering::SeqCst);
    is_reached(rt, step, 3, LONG);
    sleep(rt, STAY);
}

/// The first thread is inside the shard while two more check the key. Whether that is removed.
fn removes<R: Abort + Wait>(rt: &R, at: Checked<'_>, thread: usize, step: &AtomicU64) -> bool {
    if thread == 0 {
        of_kind!(at.kind, at.on, visit_counters visit_gauges visit_histograms,
            (rt, |_, _| wait_inside(rt, step)));
        return false;
    }
    is_reached(rt, step, 1, LONG);
    step.fetch_add(1, Ordering::SeqCst);
    !is_used(rt, at, 16)
}

/// One of two checks removes the entry. The other one finds it new, and notes it.
fn expect_one_removes<R: Abort + Threads + Wait + Sync>(rt: &R, alloc: Global, at: Checked<'_>)
    requires { IsSync R.row }
{
    let mut entries = at.on;
    add(rt, &mut entries, at.kind, at.key);
    assert!(rt; is_used(rt, at, 10));
    let step = &AtomicU64::new(0);
    let removes = |thread: usize| removes(rt, at, thread, step);
    let mut removed = 0u64;
    for is_removed in thread::map_indices(rt, alloc, 3, &removes).expect(rt, "out of memory") {
        removed = removed.wrapping_add(u64::from(is_removed));
    }
    assert_eq!(rt; removed, 1);
    add(rt, &mut entries, at.kind, at.key);
    assert!(rt; !is_used(rt, at, 22), "no check noted the entry");
}

/// No memory is refused.
#[test]
fn a_check_of_recency_holds_its_lock_until_it_has_noted(rt: HostRuntime) {
    let alloc = rt.alloc();
    Trial::new(alloc).calm();
    let key = Key::from_name(alloc, "a").expect(&rt, "out of memory");
    for kind in KINDS {
        let at = Checked {
            on: &Registry::atomic(alloc, 1).expect(&rt, "out of memory"),
            checks: &Recency::new(alloc, MetricKindMask::ALL, Some(TIMEOUT)),
            kind,
            key: &key,
        };
        expect_one_removes(&rt, alloc, at);
    }
}
