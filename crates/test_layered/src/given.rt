//! Collectors under rules, updates of a key without labels, and what texts are to be.

use metrics::{Error, Key, MetricKindMask};
use metrics_cells::{CounterFn, GaugeFn, HistogramFn};
use metrics_collector::{Bounds, Collector};
use metrics_layered::{Layered, SharedRecorder};
use metrics_layers::{FilterLayer, PrefixLayer};
use metrics_rules::Rules;
use std::process::Abort;
use std::sync::Wait;

/// How an end because memory ran out is reported.
pub const MEMORY: &str = "out of memory";

/// Returns what a builder answers.
pub fn taken<R: Abort, T: Drop>(rt: &R, answer: Result<T, (Error, Rules)>) -> T {
    answer.ok().expect(rt, MEMORY)
}

/// Puts a prefix over rules.
pub fn prefixed<R: AllocGlobal + Abort>(rt: &R, prefix: &str, rules: Rules) -> Rules {
    let layer = PrefixLayer::new(rt.alloc(), prefix).expect(rt, MEMORY);
    taken(rt, rules.prefix(rt.alloc(), &layer))
}

/// Puts a filter over rules.
pub fn filtered<R: AllocGlobal + Abort>(rt: &R, pattern: &str, rules: Rules) -> Rules {
    let layer = FilterLayer::from_patterns(rt.alloc(), &[pattern]).expect(rt, MEMORY);
    taken(rt, rules.filter(rt.alloc(), &layer))
}

/// Returns a collector whose histograms count at 10.
pub fn collector<R: AllocGlobal + Abort>(rt: &R) -> Collector {
    let bounds = Bounds::new(rt.alloc(), &[10]).expect(rt, MEMORY);
    Collector::new(rt.alloc(), 1, MetricKindMask::ALL, None, bounds).expect(rt, MEMORY)
}

/// Puts a collector at each leaf.
pub fn layered<R: AllocGlobal + Abort>(rt: &R, rules: Rules) -> Layered<Collector> {
    let mut all = Vec::new(rt.alloc());
    for _ in 0..rules.leaves() {
        all.push(collector(rt)).expect(rt, MEMORY);
    }
    Layered::new(rt.alloc(), rules, all)
        .ok()
        .expect(rt, "a collector for each leaf")
}

/// Returns the key of a name without labels.
pub fn key<R: AllocGlobal + Abort>(rt: &R, name: &str) -> Key {
    Key::from_name(rt.alloc(), name).expect(rt, MEMORY)
}

/// Adds to a counter of any recorder.
pub fn count<R: AllocGlobal + Abort + Wait, S: SharedRecorder>(
    rt: &R,
    on: &S,
    name: &str,
    by: u64,
) {
    let handle = on.counter(rt, &key(rt, name)).expect(rt, MEMORY);
    CounterFn::increment(&handle, by);
}

/// Sets a gauge of any recorder.
pub fn set<R: AllocGlobal + Abort + Wait, S: SharedRecorder>(rt: &R, on: &S, name: &str, to: i64) {
    let handle = on.gauge(rt, &key(rt, name)).expect(rt, MEMORY);
    GaugeFn::set(&handle, to);
}

/// Records a sample into a histogram of any recorder.
pub fn record<R: AllocGlobal + Abort + Wait, S: SharedRecorder>(
    rt: &R,
    on: &S,
    name: &str,
    sample: i64,
) {
    let handle = on.histogram(rt, &key(rt, name)).expect(rt, MEMORY);
    assert!(rt; handle.record(rt, sample).is_ok());
}

/// Expects the text of a leaf's collector.
pub fn expect_leaf<R: AllocGlobal + Abort + Wait>(
    rt: &R,
    on: &Layered<Collector>,
    leaf: usize,
    wanted: &str,
) {
    let collector = on.leaf(leaf).expect(rt, "a leaf of that number");
    let text = collector.render(rt, rt.alloc(), 10).expect(rt, MEMORY);
    assert_eq!(rt; text.as_str(), wanted);
}
