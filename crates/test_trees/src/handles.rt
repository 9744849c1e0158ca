//! Handles that a recorder didn't return.

use crate::given::{Registered, Test};
use metrics::{
    Address, Counter, DebugValue, Gauge, Histogram, Key, MetricKind, Recorder, Refused, Reset, Row,
};
use std::process::Abort;

const COUNTER: Address = Address { book: 0, series: 0 };

const GAUGE: Address = Address { book: 0, series: 1 };

/// The counter's place in a second book.
const BEYOND: Address = Address { book: 1, series: 0 };

/// Whether these are a counter and a gauge of 0.
fn are_zero(rows: &[Row]) -> bool {
    match rows {
        [
            (_, _, _, DebugValue::Counter(0)),
            (_, _, _, DebugValue::Gauge(0)),
        ] => true,
        _ => false,
    }
}

fn vec_of<P: Abort, const N: usize>(test: &Test<P>, all: [Address; N]) -> Vec<Address> {
    test.ok(Vec::from_array(test.alloc, all))
}

/// Checks that a counter's handle changes nothing.
fn expect_no_counter<P: Abort, R: Recorder>(test: &Test<P>, on: &mut R, found: Vec<Address>) {
    let counter = Counter::from(found);
    assert!(test.rt; counter.increment(on, 1) == Err(Refused::NoSuchAddress));
    assert!(test.rt; counter.absolute(on, 1) == Err(Refused::NoSuchAddress));
}

/// Handles of a counter, one of which names the gauge and one goes past the only book, and handles of a gauge and of a
/// histogram that name the counter.
fn expect_no_such<P: Abort, R: Recorder>(test: &Test<P>, on: &mut R) {
    expect_no_counter(test, on, vec_of(test, [GAUGE]));
    expect_no_counter(test, on, vec_of(test, [COUNTER, BEYOND]));
    let gauge = Gauge::from(vec_of(test, [COUNTER]));
    assert!(test.rt; gauge.set(on, 1) == Err(Refused::NoSuchAddress));
    let histogram = Histogram::from(vec_of(test, [COUNTER]));
    assert!(test.rt; histogram.record(on, 1) == Err(Refused::NoSuchAddress));
}

fn expect_unchanged<P: Abort, R: Recorder>(test: &Test<P>, mut on: R) {
    let both: [Registered; 2] = [
        (MetricKind::Counter, "a", &[(0, 0)]),
        (MetricKind::Gauge, "a", &[(0, 1)]),
    ];
    test.expect_registered(&mut on, &both);
    expect_no_such(test, &mut on);
    let rows = test.ok(on.snapshot_with(test.alloc, 0, Reset::KeepGauges));
    assert!(test.rt; are_zero(rows.as_slice()));
}

#[test]
fn a_handle_of_another_kind_changes_nothing(rt: HostRuntime) {
    let test = Test::whole(&rt, rt.alloc());
    expect_unchanged(&test, test.book());
}

/// What the only counter counts.
fn count<P: Abort, R: Recorder>(test: &Test<P>, on: &mut R) -> Option<u64> {
    match test.ok(on.snapshot(test.alloc, 0)).as_slice() {
        [(_, _, _, DebugValue::Counter(n))] => Some(*n),
        _ => None,
    }
}

/// A handle of the counter `a`.
fn handle_of<P: Abort, R: Recorder>(test: &Test<P>, on: &mut R) -> Counter {
    let key = test.ok(Key::from_name(test.alloc, "a"));
    test.ok(on.register_counter(test.alloc, &key))
}

fn expect_taken<P: Abort, R: Recorder>(test: &Test<P>, mut first: R, mut second: R) {
    let _own = handle_of(test, &mut first);
    let foreign = handle_of(test, &mut second);
    assert!(test.rt; foreign.increment(&mut first, 3) == Ok(1));
    assert!(test.rt; count(test, &mut first) == Some(3));
    assert!(test.rt; count(test, &mut second) == Some(0));
}

/// The first book accepts the handle of the second, which stays as it was: a handle is its addresses.
#[test]
fn a_handle_of_another_tree_is_taken(rt: HostRuntime) {
    let test = Test::whole(&rt, rt.alloc());
    expect_taken(&test, test.book(), test.book());
}
