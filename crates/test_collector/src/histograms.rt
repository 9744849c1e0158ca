//! Four threads that record into one histogram, beside one that reads the collector and one that reads by a handle.
ghost use Rattle.std.specs.Thread.{IsSync};

use crate::given::{MEMORY, Shared, collector, histogram};
use metrics::MetricKindMask;
use metrics_cells::HistogramFn;
use metrics_collector::{HistogramHandle, Value};
use std::alloc::Global;
use std::process::Abort;
use std::sync::Wait;
use std::sync::atomic::{AtomicUsize, Ordering};
use std::thread::{self, Threads};
use test_trial::Trial;

const WORKERS: usize = 4;

/// A sample in the bucket of 10.
const LOW: i64 = 7;

/// A sample above it.
const HIGH: i64 = 11;

/// The numbers of low and of high samples.
#[derive(Clone, Copy, Default)]
struct Counts {
    low: u64,
    high: u64,
}

fn record<R: Abort + Wait>(rt: &R, on: Shared<'_>, took: &HistogramHandle) {
    for _ in 0..on.rounds {
        took.record(rt, LOW).expect(rt, MEMORY);
        took.record(rt, HIGH).expect(rt, MEMORY);
    }
    on.ended.fetch_add(1, Ordering::SeqCst);
}

/// The counts of a reading. Its count, its sum and its bucket agree.
fn counts_of<R: Abort>(rt: &R, buckets: &[(i64, u64)], count: u64, sum: i128) -> Counts {
    let low = buckets.first().expect(rt, "no bucket").1;
    let high = count.wrapping_sub(low);
    let wanted = i128::from(low) * i128::from(LOW) + i128::from(high) * i128::from(HIGH);
    assert_eq!(rt; sum, wanted, "{low} low samples and {high} high ones");
    Counts { low, high }
}

/// Reads the collector.
fn gather<R: Abort + Wait>(rt: &R, on: Shared<'_>) -> Counts {
    let gathered = on.collector.gather(rt, on.alloc, 1).expect(rt, MEMORY);
    let mut counts = Counts::default();
    for series in &gathered.series {
        if let Value::Samples(samples) = &series.value {
            let buckets = samples.buckets().expect(rt, MEMORY);
            counts = counts_of(rt, &buckets, samples.count(), samples.sum());
        }
    }
    counts
}

/// Reads the histogram by a handle.
fn read_by<R: Abort + Wait>(rt: &R, took: &HistogramHandle) -> Counts {
    let samples = took.read(rt).expect(rt, MEMORY);
    let buckets = samples.buckets().expect(rt, MEMORY);
    counts_of(rt, &buckets, samples.count(), samples.sum())
}

/// How many readings there are at most, for each round.
const READINGS: u64 = 1000;

/// Reads until all workers have ended. No count falls.
fn read<R: Abort + Wait>(rt: &R, on: Shared<'_>, by: Option<&HistogramHandle>) {
    let mut last = Counts::default();
    for _ in 0..on.rounds.saturating_mul(READINGS) {
        let counts = match by {
            Some(took) => read_by(rt, took),
            None => gather(rt, on),
        };
        assert!(rt;
            last.low <= counts.low && last.high <= counts.high,
            "a count falls"
        );
        last = counts;
        if on.ended.load(Ordering::SeqCst) >= WORKERS {
            break;
        }
    }
}

fn take_part<R: AllocGlobal + Abort + Wait>(rt: &R, on: Shared<'_>, thread: usize) {
    let took = histogram(rt, on.collector, "h");
    match thread.checked_sub(WORKERS) {
        None => record(rt, on, &took),
        Some(0) => read(rt, on, None),
        Some(_) => read(rt, on, Some(&took)),
    }
}

/// Runs all threads. The last reading has all samples.
fn expect_samples<R: AllocGlobal + Abort + Threads + Wait + Sync>(
    rt: &R,
    alloc: Global,
    stripes: usize,
    rounds: u64,
)
    requires { IsSync R.row }
{
    let on = Shared {
        alloc,
        collector: &collector(rt, MetricKindMask::ALL).with_stripes(stripes),
        ended: &AtomicUsize::new(0),
        rounds,
    };
    let part = |thread: usize| take_part(rt, on, thread);
    let done = thread::map_indices(rt, alloc, WORKERS + 2, &part);
    done.expect(rt, MEMORY);
    let counts = gather(rt, on);
    let wanted = rounds.wrapping_mul(WORKERS as u64);
    assert_eq!(rt; (counts.low, counts.high), (wanted, wanted));
}

/// Memory may be refused in a first run of a few samples.
#[test]
fn count_sum_and_bucket_of_a_histogram_agree_and_never_fall(rt: HostRuntime) {
    expect_samples(&rt, rt.alloc(), 2, 1);
    Trial::new(rt.alloc()).calm();
    for stripes in [2, 8] {
        expect_samples(&rt, rt.alloc(), stripes, 10_000);
    }
}
