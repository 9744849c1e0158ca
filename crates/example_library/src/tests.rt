//! The library over a registry and over a collector, with the values read back by key.

use crate::{Requests, describe};
use metrics::{Key, MetricKindMask};
use metrics_util::collector::{Bounds, Collector};
use metrics_util::layered::SharedRecorder;
use metrics_util::registry::{AtomicStorage, Registry};
use metrics_util::{counter_value, gauge_value};
use std::process::Abort;
use std::sync::Wait;

const MEMORY: &str = "out of memory";

fn key<R: AllocGlobal + Abort>(rt: &R, name: &str) -> Key {
    Key::from_name(rt.alloc(), name).expect(rt, MEMORY)
}

/// Answers two requests.
fn work<R: AllocGlobal + Abort + Wait, S: SharedRecorder>(rt: &R, on: &S) {
    let requests = Requests::new(rt, on).expect(rt, MEMORY);
    requests.answer(rt, 30, 7);
    requests.answer(rt, 10, 0);
}

type Cells = Registry<Key, AtomicStorage>;

/// The counter and the gauge that the requests left.
fn expect_numbers<R: AllocGlobal + Abort + Wait>(rt: &R, on: &Cells) {
    let answered = on.get_counter(rt, &key(rt, "requests")).expect(rt, MEMORY);
    assert_eq!(rt; answered.map(|cell| counter_value(&cell)), Some(2));
    let open = on.get_gauge(rt, &key(rt, "http.open")).expect(rt, MEMORY);
    assert_eq!(rt; open.map(|cell| gauge_value(&cell)), Some(0));
}

fn expect_samples<R: AllocGlobal + Abort + Wait>(rt: &R, on: &Cells) {
    let took = on.get_histogram(rt, &key(rt, "http.took"));
    let took = took.expect(rt, MEMORY).expect(rt, "a histogram");
    let samples = took.data(rt, rt.alloc()).expect(rt, MEMORY);
    assert!(rt; samples.as_slice() == [30, 10].as_slice());
}

#[test]
fn a_registry_has_each_value(rt: HostRuntime) {
    let on = Registry::new(rt.alloc(), AtomicStorage::new(rt.alloc()), 4).expect(&rt, MEMORY);
    work(&rt, &on);
    expect_numbers(&rt, &on);
    expect_samples(&rt, &on);
}

fn expect_values<R: AllocGlobal + Abort + Wait>(rt: &R, on: &Collector) {
    let answered = on.counter(rt, &key(rt, "requests")).expect(rt, MEMORY);
    assert_eq!(rt; answered.value(), 2);
    let open = on.gauge(rt, &key(rt, "http.open")).expect(rt, MEMORY);
    assert_eq!(rt; open.value(), 0);
}

fn expect_sums<R: AllocGlobal + Abort + Wait>(rt: &R, on: &Collector) {
    let took = on.histogram(rt, &key(rt, "http.took")).expect(rt, MEMORY);
    assert_eq!(rt; took.count(rt), 2);
    assert_eq!(rt; took.sum(rt).expect(rt, MEMORY), 40);
}

#[test]
fn a_collector_has_each_value(rt: HostRuntime) {
    let bounds = Bounds::new(rt.alloc(), &[10]).expect(&rt, MEMORY);
    let made = Collector::new(rt.alloc(), 4, MetricKindMask::ALL, None, bounds);
    let on = made.expect(&rt, MEMORY);
    describe(&rt, &on).expect(&rt, MEMORY);
    work(&rt, &on);
    expect_values(&rt, &on);
    expect_sums(&rt, &on);
}
