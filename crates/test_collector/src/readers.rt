//! Two threads that read one collector at once, each with a counter of its own to change.
ghost use Rattle.std.specs.Thread.{IsSync};

use crate::given::{MEMORY, collector, counter, gauge, histogram};
use metrics::MetricKindMask;
use metrics_cells::CounterFn;
use metrics_collector::{Collector, CounterHandle, Gathered, Value};
use std::alloc::Global;
use std::process::Abort;
use std::sync::Wait;
use std::sync::atomic::{AtomicU64, Ordering};
use std::thread::{Threads, join};
use test_trial::Trial;

/// What the threads share.
#[derive(Clone, Copy)]
struct Shared<'a> {
    alloc: Global,
    collector: &'a Collector,
    now: &'a AtomicU64,
    /// How often a count was shown, of the counter `a`.
    first: &'a [AtomicU64],
    /// The same of `b`.
    second: &'a [AtomicU64],
}

/// Notes each count that is shown. No other series is.
fn note<R: Abort>(rt: &R, on: Shared<'_>, gathered: &Gathered) {
    for series in &gathered.series {
        let name = series.key.name();
        assert!(rt; name == "a" || name == "b", "{name} is hidden");
        let counts = if name == "a" { on.first } else { on.second };
        if let Value::Count(count) = &series.value {
            if let Some(shown) = counts.get(*count as usize) {
                shown.fetch_add(1, Ordering::SeqCst);
            }
        }
    }
}

/// Increments a counter and reads, in turn. Each reading is later than the timeout after the last one.
fn change_and_read<R: Abort + Wait>(rt: &R, on: Shared<'_>, own: &CounterHandle) {
    for _ in 1..on.first.len() {
        CounterFn::increment(own, 1);
        let now = on.now.fetch_add(10, Ordering::SeqCst);
        let gathered = on.collector.gather(rt, on.alloc, now);
        note(rt, on, &gathered.expect(rt, MEMORY));
    }
}

/// A number of zeros.
fn zeros<R: Abort>(rt: &R, alloc: Global, count: usize) -> Vec<AtomicU64> {
    let mut all = Vec::new(alloc);
    for _ in 0..count {
        all.push(AtomicU64::new(0)).expect(rt, MEMORY);
    }
    all
}

/// Each count from 1 on was shown.
fn expect_each<R: Abort>(rt: &R, counts: &[AtomicU64]) {
    for shown in counts.iter().skip(1) {
        assert!(rt; shown.load(Ordering::SeqCst) > 0, "a count isn't shown");
    }
}

/// Reads at once in two threads, while series of each kind are hidden.
fn expect_readings<R: AllocGlobal + Abort + Threads + Wait + Sync>(
    rt: &R,
    alloc: Global,
    on: &Collector,
    readings: usize,
)
    requires { IsSync R.row }
{
    let _hidden = (
        counter(rt, on, "c"),
        gauge(rt, on, "g"),
        histogram(rt, on, "h"),
    );
    on.gather(rt, alloc, 0).expect(rt, MEMORY);
    let (first, second) = (zeros(rt, alloc, readings), zeros(rt, alloc, readings));
    let on = Shared {
        alloc,
        collector: on,
        now: &AtomicU64::new(10),
        first: &first,
        second: &second,
    };
    let (a, b) = (
        counter(rt, on.collector, "a"),
        counter(rt, on.collector, "b"),
    );
    join(
        rt,
        || change_and_read(rt, on, &a),
        || change_and_read(rt, on, &b),
    );
    expect_each(rt, &first);
    expect_each(rt, &second);
}

/// Memory may be refused in a first run of a few readings.
#[test]
fn two_readers_at_once_show_each_change_and_nothing_that_is_hidden(rt: HostRuntime) {
    for readings in [4, 2000] {
        expect_readings(
            &rt,
            rt.alloc(),
            &collector(&rt, MetricKindMask::ALL),
            readings,
        );
        Trial::new(rt.alloc()).calm();
    }
}
