//! A counter that is described and incremented through a lock.

use crate::books::{AT, Named, name_and_key, new_book};
use metrics::{DebugValue, MetricKind, Recorder, Snapshot, Update};
use metrics_shared::Shared;
use std::alloc::Global;
use std::process::Abort;
use std::sync::Wait;

/// Whether the first row is a counter at 2 with the text `t`.
fn is_two(rows: &Snapshot) -> bool {
    match rows.as_slice().first() {
        Some((_, None, Some(text), DebugValue::Counter(count))) => {
            text.as_str() == "t" && *count == 2
        }
        _ => false,
    }
}

fn expect_course<R: Abort + Wait, B: Recorder>(
    rt: &R,
    alloc: Global,
    shared: &Shared<B>,
    Named { name, key }: &Named,
) {
    let described = shared.describe(rt, alloc, MetricKind::Counter, name, None, "t");
    assert_eq!(rt; described.expect(rt, "out of memory"), 1);
    let found = shared.register(rt, alloc, MetricKind::Counter, key);
    assert!(rt; found.expect(rt, "out of memory").as_slice() == [AT].as_slice());
    for _ in 0..2 {
        shared
            .update(rt, AT, Update::Increment(1))
            .expect(rt, "an address");
    }
    let rows = shared.snapshot(rt, alloc, 0).expect(rt, "out of memory");
    assert!(rt; rows.as_slice().len() == 1 && is_two(&rows));
}

#[test]
fn a_shared_counter_has_its_text_and_its_sum(rt: HostRuntime) {
    let alloc = rt.alloc();
    let named = name_and_key(&rt, alloc, "foobar");
    expect_course(&rt, alloc, &Shared::new(new_book(&rt, alloc)), &named);
}
