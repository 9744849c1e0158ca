//! A book that threads share.

use crate::books::{
    AT, Named, count_of, expect_all_done, expect_counted, is_gauge, key, name_and_key, new_book,
};
use metrics::{MetricKind, Recorder, Refused, Reset, Row, Update};
use metrics_shared::Shared;
use std::alloc::Global;
use std::process::Abort;
use std::sync::Wait;
use std::thread::{self, Threads};

/// Whether the first series is described without a unit, by `t`.
fn is_described(rows: &[Row]) -> bool {
    match rows.first() {
        Some((_, None, Some(text), _)) => text.as_str() == "t",
        _ => false,
    }
}

fn expect_counter<R: Abort + Wait, B: Recorder>(rt: &R, alloc: Global, on: &Shared<B>) {
    let kind = MetricKind::Counter;
    let Named { name, key } = name_and_key(rt, alloc, "c");
    let answer = on.describe(rt, alloc, kind, &name, None, "t");
    assert_eq!(rt; answer.expect(rt, "out of memory"), 1);
    let found = on.register(rt, alloc, kind, &key);
    assert_eq!(rt;
        found.expect(rt, "out of memory").as_slice(),
        [AT].as_slice()
    );
    for _ in 0..2 {
        assert_eq!(rt; on.update(rt, AT, Update::Increment(1)), Ok(()));
    }
    let rows = on.snapshot(rt, alloc, 0).expect(rt, "out of memory");
    assert!(rt; is_described(rows.as_slice()));
    assert_eq!(rt;
        (rows.as_slice().len(), count_of(rows.as_slice())),
        (1, Some(2))
    );
}

#[test]
fn a_shared_counter_is_described_and_raised(rt: HostRuntime) {
    let alloc = rt.alloc();
    expect_counter(&rt, alloc, &Shared::new(new_book(&rt, alloc)));
}

/// How a snapshot resets, and the value of the gauge before.
const RESETS: [(Reset, i64); 3] = [
    (Reset::KeepGauges, 5),
    (Reset::All, 5),
    (Reset::KeepGauges, 0),
];

/// A gauge is set to 5, and snapshots reset it.
fn expect_gauges<R: Abort + Wait, B: Recorder>(rt: &R, alloc: Global, on: &Shared<B>) {
    let found = on.register(rt, alloc, MetricKind::Gauge, &key(rt, alloc, "g"));
    let _found = found.expect(rt, "out of memory");
    assert_eq!(rt; on.update(rt, AT, Update::Set(5)), Ok(()));
    for (reset, value) in RESETS {
        let rows = on.snapshot_with(rt, alloc, 0, reset);
        assert!(rt; is_gauge(rows.expect(rt, "out of memory").as_slice(), value));
    }
    let refused = on.snapshot_with(rt, alloc, 1, Reset::All);
    assert!(rt; refused.err() == Some(Refused::NoSuchBook));
}

#[test]
fn snapshots_of_a_shared_book(rt: HostRuntime) {
    let alloc = rt.alloc();
    expect_gauges(&rt, alloc, &Shared::new(new_book(&rt, alloc)));
}

/// Adds 1 to the counter a thousand times, and returns whether each was done.
fn add_many<R: Wait, B: Recorder>(rt: &R, on: &Shared<B>) -> bool {
    let mut is_done = true;
    for _ in 0..1000 {
        is_done &= on.update(rt, AT, Update::Increment(1)).is_ok();
    }
    is_done
}

fn expect_sum<R: Abort + Threads + Wait + Sync, B: Recorder + Send>(
    rt: &R,
    alloc: Global,
    on: &Shared<B>,
) {
    let found = on.register(rt, alloc, MetricKind::Counter, &key(rt, alloc, "c"));
    let _found = found.expect(rt, "out of memory");
    let done = thread::map_indices(rt, alloc, 4, &|_| add_many(rt, on));
    expect_all_done(rt, done);
    expect_counted(rt, alloc, on, 4000);
}

#[test]
fn four_threads_add(rt: HostRuntime) {
    let alloc = rt.alloc();
    expect_sum(&rt, alloc, &Shared::new(new_book(&rt, alloc)));
}
