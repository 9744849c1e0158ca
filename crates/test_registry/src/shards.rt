//! Handles of keys in several shards.

use crate::kinds::{Cell, KINDS, of_kind};
use crate::threads::{Numbers, add_to_each};
use metrics::{Error, MetricKind};
use metrics_registry::DefaultHashable;
use metrics_shared_registry::{AtomicStorage, Registry};
use std::collections::HashMap;
use std::process::Abort;
use std::sync::Wait;

/// How many keys there are of each kind.
const COUNT: u64 = 32;

/// Adds to each handle as many ones as its key says. There is one for each key.
fn add_to_handles<R: Abort + Wait, C: Cell>(
    rt: &R,
    handles: Result<HashMap<DefaultHashable<u64>, C>, Error>,
) {
    let handles = handles.expect(rt, "out of memory");
    assert_eq!(rt; handles.len() as u64, COUNT);
    for number in 0..COUNT {
        let cell = handles.get(&DefaultHashable(number));
        let cell = cell.expect(rt, "no handle");
        for _ in 0..number {
            cell.add(rt);
        }
    }
}

/// Counts a cell that has one more than its key says.
fn count_right<W: Wait, C: Cell>(rt: &W, count: &mut u64, key: &DefaultHashable<u64>, cell: &C) {
    if cell.ones(rt) == key.0.wrapping_add(1) {
        *count = count.wrapping_add(1);
    }
}

/// The handles of a kind are those of all keys of all shards, and the very cells.
fn expect_handles<R: AllocGlobal + Abort + Wait>(rt: &R, on: &Numbers, kind: MetricKind) {
    add_to_each(rt, on, kind, COUNT).expect(rt, "out of memory");
    of_kind!(kind, add_to_handles(rt), on,
        get_counter_handles get_gauge_handles get_histogram_handles, (rt, rt.alloc()));
    let mut right = 0u64;
    of_kind!(kind, on, visit_counters visit_gauges visit_histograms,
        (rt, |key, cell| count_right(rt, &mut right, key, cell)));
    assert_eq!(rt; right, COUNT);
}

#[test]
fn handles_of_each_kind_are_those_of_all_shards(rt: HostRuntime) {
    let storage = AtomicStorage::with_blocks(rt.alloc(), 1).expect(&rt, "one block");
    let on = Registry::new(rt.alloc(), storage, 4).expect(&rt, "out of memory");
    for kind in KINDS {
        expect_handles(&rt, &on, kind);
    }
}
