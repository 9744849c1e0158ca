//! A book by its typed calls, masks of kinds, and an error's text.

use crate::given::Test;
use metrics::MetricKind::{Counter, Gauge, Histogram};
use metrics::{
    DebugValue, Error, Key, KeyName, MetricKind, MetricKindMask, Recorder, Reset, Row, Unit,
};
use metrics_debugging::Snapshotter;
use std::process::Abort;

/// Whether these are the rows of the three kinds, described by `all`.
fn are_all(rows: &[Row]) -> bool {
    let [counter, gauge, histogram] = rows else {
        return false;
    };
    for row in rows {
        if row.2.as_ref().map_or("", |text| text.as_str()) != "all" {
            return false;
        }
    }
    match (&counter.3, &gauge.3, &histogram.3) {
        (DebugValue::Counter(9), DebugValue::Gauge(7), DebugValue::Histogram(samples)) => {
            samples.as_slice() == [3].as_slice()
        }
        _ => false,
    }
}

/// Describes a name by the call of a kind. Returns how many books accepted it.
fn described<P: Abort, R: Recorder>(test: &Test<P>, on: &mut R, kind: MetricKind) -> usize {
    let name = test.ok(KeyName::new(test.alloc, "hits"));
    let seen = match kind {
        Counter => on.describe_counter(test.alloc, &name, Some(Unit::Count), "all"),
        Gauge => on.describe_gauge(test.alloc, &name, None, "all"),
        Histogram => on.describe_histogram(test.alloc, &name, None, "all"),
    };
    test.ok(seen)
}

fn update_counter<P: Abort, R: Recorder>(test: &Test<P>, on: &mut R, key: &Key) {
    let counter = test.ok(on.register_counter(test.alloc, key));
    assert!(test.rt; counter.absolute(on, 7) == Ok(1));
    assert!(test.rt; counter.increment(on, 2) == Ok(1));
}

fn update_gauge<P: Abort, R: Recorder>(test: &Test<P>, on: &mut R, key: &Key) {
    let gauge = test.ok(on.register_gauge(test.alloc, key));
    assert!(test.rt; gauge.set(on, 5) == Ok(1));
    assert!(test.rt; gauge.increment(on, 4) == Ok(1));
    assert!(test.rt; gauge.decrement(on, 2) == Ok(1));
}

fn update_histogram<P: Abort, R: Recorder>(test: &Test<P>, on: &mut R, key: &Key) {
    let histogram = test.ok(on.register_histogram(test.alloc, key));
    assert!(test.rt; test.ok(histogram.record(on, 3)) == 1);
    assert!(test.rt; histogram.addresses().len() == 1);
}

/// Registers a key of each kind, and updates it.
fn update_all<P: Abort, R: Recorder>(test: &Test<P>, on: &mut R) {
    let key = test.ok(Key::from_name(test.alloc, "hits"));
    update_counter(test, on, &key);
    update_gauge(test, on, &key);
    update_histogram(test, on, &key);
}

fn expect_all<P: Abort, R: Recorder>(test: &Test<P>, mut on: R) {
    for kind in [Counter, Gauge, Histogram] {
        assert!(test.rt; described(test, &mut on, kind) == 1);
    }
    update_all(test, &mut on);
    let rows = Snapshotter::of(0).snapshot_with(test.alloc, &mut on, Reset::All);
    assert!(test.rt; are_all(test.ok(rows).as_slice()));
}

#[test]
fn typed_calls_of_each_kind(rt: HostRuntime) {
    let test = Test::whole(&rt, rt.alloc());
    expect_all(&test, test.book());
}

#[test]
fn a_mask_matches_its_kinds(rt: HostRuntime) {
    for (mask, wanted) in [
        (
            MetricKindMask::COUNTER | MetricKindMask::HISTOGRAM,
            [true, false, true],
        ),
        (MetricKindMask::NONE, [false, false, false]),
        (MetricKindMask::ALL, [true, true, true]),
    ] {
        let found = [
            mask.matches(Counter),
            mask.matches(Gauge),
            mask.matches(Histogram),
        ];
        assert_eq!(rt; found, wanted, "at {mask:?}");
    }
}

#[test]
fn errors_say_why(rt: HostRuntime) {
    let printed = format!(in rt.alloc(); "{}", Error::Memory).expect(&rt, "out of memory");
    assert_eq!(rt; printed.as_str(), "memory");
}
