//! Series of one kind that leave, beside series of the other kinds that stay.

use crate::given::{MEMORY, collector, count, counter, gauge, histogram, record};
use metrics::{MetricKind, MetricKindMask};
use metrics_cells::GaugeFn;
use metrics_collector::{Collector, Value};
use std::process::Abort;
use std::sync::Wait;

const KINDS: [MetricKind; 3] = [
    MetricKind::Counter,
    MetricKind::Gauge,
    MetricKind::Histogram,
];

/// Makes one update by 1, and keeps no handle.
fn update<R: AllocGlobal + Abort + Wait>(rt: &R, on: &Collector, kind: MetricKind) {
    match kind {
        MetricKind::Counter => count(rt, on, "a", 1),
        MetricKind::Gauge => GaugeFn::increment(&gauge(rt, on, "a"), rt, 1),
        MetricKind::Histogram => record(rt, on, "a", 1),
    }
}

/// Asks for a handle, and drops it.
fn ask<R: AllocGlobal + Abort + Wait>(rt: &R, on: &Collector, kind: MetricKind) {
    match kind {
        MetricKind::Counter => drop(counter(rt, on, "a")),
        MetricKind::Gauge => drop(gauge(rt, on, "a")),
        MetricKind::Histogram => drop(histogram(rt, on, "a")),
    }
}

/// How many updates a reading shows of the counter, the gauge and the histogram.
fn shown<R: AllocGlobal + Abort + Wait>(rt: &R, on: &Collector, now: u64) -> [Option<u64>; 3] {
    let gathered = on.gather(rt, rt.alloc(), now).expect(rt, MEMORY);
    let mut shown = [None, None, None];
    for series in &gathered.series {
        match &series.value {
            Value::Count(count) => shown[0] = Some(*count),
            Value::Level(level) => shown[1] = u64::try_from(*level).ok(),
            Value::Samples(samples) => shown[2] = Some(samples.count()),
        }
    }
    shown
}

/// A reading shows these updates of the kind, and these of the other kinds.
fn expect_shown<R: AllocGlobal + Abort + Wait>(
    rt: &R,
    on: &Collector,
    now: u64,
    kind: MetricKind,
    (own, others): (Option<u64>, Option<u64>),
) {
    let shown = shown(rt, on, now);
    for (each, updates) in KINDS.iter().zip(&shown) {
        let wanted = if *each == kind { own } else { others };
        assert!(rt; *updates == wanted, "at {now}");
    }
}

/// A series of the kind leaves, and begins anew when it is asked for, while those of the other kinds stay. Then those leave.
fn expect_alone<R: AllocGlobal + Abort + Wait>(rt: &R, on: &Collector, kind: MetricKind) {
    for each in KINDS {
        update(rt, on, each);
    }
    expect_shown(rt, on, 10, kind, (Some(1), Some(1)));
    for other in KINDS {
        if other != kind {
            update(rt, on, other);
        }
    }
    expect_shown(rt, on, 14, kind, (Some(1), Some(2)));
    expect_shown(rt, on, 16, kind, (None, Some(2)));
    ask(rt, on, kind);
    expect_shown(rt, on, 17, kind, (Some(0), Some(2)));
    expect_shown(rt, on, 20, kind, (Some(0), None));
    for each in KINDS {
        ask(rt, on, each);
    }
    expect_shown(rt, on, 21, kind, (Some(0), Some(0)));
}

/// The series of all kinds have the same key.
#[test]
fn each_kind_leaves_alone(rt: HostRuntime) {
    for kind in KINDS {
        expect_alone(&rt, &collector(&rt, MetricKindMask::ALL), kind);
    }
}
