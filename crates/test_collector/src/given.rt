//! A collector, handles of a key without labels, and what a text is to be.

use metrics::{Key, Label, MetricKindMask};
use metrics_cells::{CounterFn, GaugeFn, HistogramFn};
use metrics_collector::{Bounds, Collector, CounterHandle, GaugeHandle, HistogramHandle};
use std::alloc::Global;
use std::process::Abort;
use std::sync::Wait;
use std::sync::atomic::AtomicUsize;

/// How an end because memory ran out is reported.
pub const MEMORY: &str = "out of memory";

/// The longest time that a series may be idle.
pub const TIMEOUT: u64 = 5;

/// What threads share: a collector, how many of them have ended, and how often each does its part.
#[derive(Clone, Copy)]
pub struct Shared<'a> {
    pub alloc: Global,
    pub collector: &'a Collector,
    pub ended: &'a AtomicUsize,
    pub rounds: u64,
}

/// Returns a collector whose series may be idle for 5, and whose histograms count at 10.
pub fn collector<R: AllocGlobal + Abort>(rt: &R, mask: MetricKindMask) -> Collector {
    let bounds = Bounds::new(rt.alloc(), &[10]).expect(rt, MEMORY);
    Collector::new(rt.alloc(), 4, mask, Some(TIMEOUT), bounds).expect(rt, MEMORY)
}

/// Returns two labels that all series have.
pub fn labels<R: AllocGlobal + Abort>(rt: &R) -> Vec<Label> {
    let mut all = Vec::new(rt.alloc());
    for (name, value) in [("zone", "e"), ("host", "h")] {
        let label = Label::new(rt.alloc(), name, value).expect(rt, MEMORY);
        all.push(label).expect(rt, MEMORY);
    }
    all
}

/// Returns the key of a name without labels.
pub fn key<R: AllocGlobal + Abort>(rt: &R, name: &str) -> Key {
    Key::from_name(rt.alloc(), name).expect(rt, MEMORY)
}

/// Returns a handle of a counter.
pub fn counter<R: AllocGlobal + Abort + Wait>(rt: &R, on: &Collector, name: &str) -> CounterHandle {
    on.counter(rt, &key(rt, name)).expect(rt, MEMORY)
}

/// Returns a handle of a gauge.
pub fn gauge<R: AllocGlobal + Abort + Wait>(rt: &R, on: &Collector, name: &str) -> GaugeHandle {
    on.gauge(rt, &key(rt, name)).expect(rt, MEMORY)
}

/// Returns a handle of a histogram.
pub fn histogram<R: AllocGlobal + Abort + Wait>(
    rt: &R,
    on: &Collector,
    name: &str,
) -> HistogramHandle {
    on.histogram(rt, &key(rt, name)).expect(rt, MEMORY)
}

/// Adds to a counter, and keeps no handle.
pub fn count<R: AllocGlobal + Abort + Wait>(rt: &R, on: &Collector, name: &str, by: u64) {
    CounterFn::increment(&counter(rt, on, name), by);
}

/// Sets a gauge, and keeps no handle.
pub fn set<R: AllocGlobal + Abort + Wait>(rt: &R, on: &Collector, name: &str, to: i64) {
    GaugeFn::set(&gauge(rt, on, name), to);
}

/// Records into a histogram, and keeps no handle.
pub fn record<R: AllocGlobal + Abort + Wait>(rt: &R, on: &Collector, name: &str, sample: i64) {
    let recorded = histogram(rt, on, name).record(rt, sample);
    recorded.expect(rt, "the count fits");
}

/// Updates a counter, a gauge and a histogram, and keeps no handle.
pub fn update_each<R: AllocGlobal + Abort + Wait>(
    rt: &R,
    on: &Collector,
    [c, g, h]: [&str; 3],
    (by, to, sample): (u64, i64, i64),
) {
    count(rt, on, c, by);
    set(rt, on, g, to);
    record(rt, on, h, sample);
}

/// Renders, and compares the text.
pub fn expect_text<R: AllocGlobal + Abort + Wait>(rt: &R, on: &Collector, now: u64, wanted: &str) {
    let text = on.render(rt, rt.alloc(), now).expect(rt, MEMORY);
    assert_eq!(rt; text.as_str(), wanted, "at {now}");
}

/// Renders at some moments, and compares the texts.
pub fn expect_texts<R: AllocGlobal + Abort + Wait>(rt: &R, on: &Collector, wanted: &[(u64, &str)]) {
    for (now, text) in wanted {
        expect_text(rt, on, *now, text);
    }
}
