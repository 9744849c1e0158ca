//! A collector, updates by a `Local`, and what a reading shows.

use metrics::{Error, Key, MetricKind, MetricKindMask};
use metrics_cells::{CounterFn, GaugeFn, HistogramFn};
use metrics_collector::{Bounds, Collector, Value};
use metrics_layered::SharedRecorder;
use metrics_local::Local;
use std::process::Abort;
use std::sync::Wait;

/// How an end because memory ran out is reported.
pub const MEMORY: &str = "out of memory";

pub const KINDS: [MetricKind; 3] = [
    MetricKind::Counter,
    MetricKind::Gauge,
    MetricKind::Histogram,
];

/// Returns a collector whose series may be idle for 5, and whose histograms count at 10.
pub fn collector<R: AllocGlobal + Abort>(rt: &R) -> Collector {
    let bounds = Bounds::new(rt.alloc(), &[10]).expect(rt, MEMORY);
    Collector::new(rt.alloc(), 4, MetricKindMask::ALL, Some(5), bounds).expect(rt, MEMORY)
}

/// Returns the key of a name without labels.
pub fn key<R: AllocGlobal + Abort>(rt: &R, name: &str) -> Key {
    Key::from_name(rt.alloc(), name).expect(rt, MEMORY)
}

/// Adds to a counter that was looked up.
fn count<C: CounterFn>(found: Result<&C, Error>, by: u64) -> Result<(), Error> {
    found?.increment(by);
    Ok(())
}

/// Adds to a gauge that was looked up.
fn raise<W: Wait, G: GaugeFn>(rt: &W, found: Result<&G, Error>, by: i64) -> Result<(), Error> {
    found?.increment(rt, by);
    Ok(())
}

/// Records a sample into a histogram that was looked up.
fn record<W: Wait, H: HistogramFn>(rt: &W, found: Result<&H, Error>, sample: i64) -> Option<Error> {
    match found {
        Ok(histogram) => {
            let _full = histogram.record(rt, sample);
            None
        }
        Err(error) => Some(error),
    }
}

/// Adds to a series of a kind, which is looked up. Returns why it wasn't found.
pub fn try_add<W: Wait, S: SharedRecorder>(
    rt: &W,
    local: &mut Local<S>,
    kind: MetricKind,
    key: &Key,
    by: u32,
) -> Option<Error> {
    match kind {
        MetricKind::Counter => count(local.counter(rt, key), by.into()).err(),
        MetricKind::Gauge => raise(rt, local.gauge(rt, key), by.into()).err(),
        MetricKind::Histogram => record(rt, local.histogram(rt, key), by.into()),
    }
}

/// Adds to a series of a kind, which is looked up.
pub fn add<R: AllocGlobal + Abort + Wait, S: SharedRecorder>(
    rt: &R,
    local: &mut Local<S>,
    kind: MetricKind,
    name: &str,
    by: u32,
) {
    let error = try_add(rt, local, kind, &key(rt, name), by);
    assert!(rt; error.is_none(), "out of memory: Memory");
}

/// Returns what a reading shows of the series of a kind and name: the count, the value or the sum.
fn shown<R: AllocGlobal + Abort + Wait>(
    rt: &R,
    on: &Collector,
    now: u64,
    kind: MetricKind,
    name: &str,
) -> Option<i128> {
    let gathered = on.gather(rt, rt.alloc(), now).expect(rt, MEMORY);
    let mut found = None;
    for series in &gathered.series {
        if series.kind() == kind && series.key.name() == name {
            found = Some(match &series.value {
                Value::Count(count) => i128::from(*count),
                Value::Level(level) => i128::from(*level),
                Value::Samples(samples) => samples.sum(),
            });
        }
    }
    found
}

/// Reads, and compares what is shown of the series `a` of a kind.
pub fn expect_a<R: AllocGlobal + Abort + Wait>(
    rt: &R,
    on: &Collector,
    now: u64,
    kind: MetricKind,
    wanted: Option<i128>,
) {
    let shown = shown(rt, on, now, kind, "a");
    assert!(rt; shown == wanted, "at {now}");
}
