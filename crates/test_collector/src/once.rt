//! A thread that makes one change at a time, beside one that reads meanwhile.
ghost use Rattle.std.specs.Thread.{IsSync};

use crate::given::{MEMORY, collector, counter, gauge, histogram};
use crate::turns::{LOOKS, Turns};
use metrics::{Error, MetricKindMask};
use metrics_cells::{CounterFn, GaugeFn, HistogramFn};
use metrics_collector::{Collector, CounterHandle, Gathered, GaugeHandle, HistogramHandle, Value};
use std::alloc::Global;
use std::process::Abort;
use std::sync::Wait;
use std::sync::atomic::{AtomicU64, Ordering};
use std::thread::{Threads, join};
use test_trial::Trial;

/// Handles of a series of each kind.
#[derive(Drop)]
struct Handles {
    hits: CounterHandle,
    open: GaugeHandle,
    took: HistogramHandle,
}

/// What the threads share.
#[derive(Clone, Copy)]
struct Shared<'a> {
    alloc: Global,
    collector: &'a Collector,
    /// How many readings there were, and `u64::MAX` once there are no more.
    read: &'a AtomicU64,
    readings: u64,
}

/// Changes each series.
fn change<W: Wait>(rt: &W, handles: &Handles) -> Result<(), Error> {
    CounterFn::increment(&handles.hits, 1);
    GaugeFn::increment(&handles.open, rt, 1);
    handles.took.record(rt, 5)
}

/// Changes each series once in two readings or more, at another moment of a reading each time.
fn write<W: Wait>(rt: &W, on: Shared<'_>, handles: &Handles) -> Result<(), Error> {
    let mut turns = Turns::new();
    for _ in 0..on.readings.saturating_mul(LOOKS) {
        let read = on.read.load(Ordering::SeqCst);
        if read == u64::MAX {
            break;
        }
        if turns.is_due(read) {
            change(rt, handles)?;
            turns.made(read);
        }
    }
    Ok(())
}

/// What was shown last.
#[derive(Clone, Copy)]
struct Shown {
    hits: u64,
    open: i64,
    took: u64,
}

/// What is shown after a reading: of a counter and a histogram more than before, and of a gauge no less.
fn shown_after<R: Abort>(rt: &R, last: Shown, gathered: &Gathered) -> Shown {
    let mut shown = last;
    for series in &gathered.series {
        match &series.value {
            Value::Count(count) => shown.hits = grown(rt, last.hits, *count),
            Value::Level(level) => shown.open = *level,
            Value::Samples(samples) => shown.took = grown(rt, last.took, samples.count()),
        }
    }
    assert!(rt;
        last.open <= shown.open,
        "{} falls to {}",
        last.open,
        shown.open
    );
    shown
}

fn grown<R: Abort>(rt: &R, last: u64, shown: u64) -> u64 {
    assert!(rt; last < shown, "{shown} is shown after {last}");
    shown
}

/// Reads so often that each series is idle that hasn't changed between two readings.
fn read<R: Abort + Wait>(rt: &R, on: Shared<'_>) -> Result<(), Error> {
    let mut shown = Shown {
        hits: 0,
        open: 0,
        took: 0,
    };
    for number in 1..on.readings {
        let now = number.wrapping_mul(10);
        let gathered = on.collector.gather(rt, on.alloc, now)?;
        shown = shown_after(rt, shown, &gathered);
        on.read.store(number, Ordering::SeqCst);
    }
    Ok(())
}

fn read_all<R: Abort + Wait>(rt: &R, on: Shared<'_>) -> Result<(), Error> {
    let ended = read(rt, on);
    on.read.store(u64::MAX, Ordering::SeqCst);
    ended
}

/// The last text shows as many changes of each series.
fn expect_last<R: Abort + Wait>(rt: &R, on: Shared<'_>, handles: &Handles) {
    change(rt, handles).expect(rt, MEMORY);
    let hits = handles.hits.value();
    let text = on.collector.render(rt, on.alloc, u64::MAX);
    let wanted = format!(in on.alloc;
        "# TYPE hits counter\nhits {hits}\n# TYPE open gauge\nopen {hits}\n# TYPE took histogram\n\
        took_bucket{{le=\"10\"}} {hits}\ntook_bucket{{le=\"+Inf\"}} {hits}\n\
        took_sum {}\ntook_count {hits}\n",
        hits.wrapping_mul(5)
    );
    let text = text.expect(rt, MEMORY);
    assert_eq!(rt; text.as_str(), wanted.expect(rt, MEMORY).as_str());
}

fn expect_each_once<R: AllocGlobal + Abort + Threads + Wait + Sync>(
    rt: &R,
    alloc: Global,
    readings: u64,
)
    requires { IsSync R.row }
{
    let on = &collector(rt, MetricKindMask::ALL);
    let handles = &Handles {
        hits: counter(rt, on, "hits"),
        open: gauge(rt, on, "open"),
        took: histogram(rt, on, "took"),
    };
    let on = Shared {
        alloc,
        collector: on,
        read: &AtomicU64::new(0),
        readings,
    };
    change(rt, handles).expect(rt, MEMORY);
    let (wrote, read) = join(rt, || write(rt, on, handles), || read_all(rt, on));
    wrote.expect(rt, MEMORY);
    read.expect(rt, MEMORY);
    expect_last(rt, on, handles);
}

/// One reading alone shows a change as new, also where the change comes during a reading. That of a gauge may be shown again.
///
/// Memory may be refused in a first run of a few readings.
#[test]
fn each_change_is_new_in_one_reading(rt: HostRuntime) {
    expect_each_once(&rt, rt.alloc(), 4);
    Trial::new(rt.alloc()).calm();
    expect_each_once(&rt, rt.alloc(), 10_000);
}
