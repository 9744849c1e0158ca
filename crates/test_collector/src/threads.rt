//! Eight threads that update, beside one that reads the texts.
ghost use Rattle.std.specs.Thread.{IsSync};

use crate::given::{MEMORY, Shared, collector, counter, gauge, histogram};
use metrics::{Error, Key, MetricKindMask};
use metrics_cells::{CounterFn, GaugeFn, HistogramFn};
use metrics_collector::{Collector, HistogramHandle};
use std::alloc::Global;
use std::process::Abort;
use std::sync::Wait;
use std::sync::atomic::{AtomicUsize, Ordering};
use std::thread::{self, Threads};
use test_trial::Trial;

const WORKERS: usize = 8;

/// What the updates add up to. A text shows each of these on a line.
#[derive(Clone, Copy, Default)]
struct Sums {
    hits: u64,
    low_samples: u64,
    sum: u64,
    samples: u64,
}

impl Sums {
    fn add(&mut self, more: Sums) {
        self.hits = self.hits.wrapping_add(more.hits);
        self.low_samples = self.low_samples.wrapping_add(more.low_samples);
        self.sum = self.sum.wrapping_add(more.sum);
        self.samples = self.samples.wrapping_add(more.samples);
    }
}

fn count<R: Wait>(rt: &R, on: Shared<'_>, by: u64) -> Result<(), Error> {
    let key = Key::from_name(on.alloc, "hits")?;
    let hits = on.collector.counter(rt, &key);
    CounterFn::increment(&hits?, by);
    Ok(())
}

fn open<R: Wait>(rt: &R, on: Shared<'_>, by: i64) -> Result<(), Error> {
    let key = Key::from_name(on.alloc, "open")?;
    let open = on.collector.gauge(rt, &key);
    GaugeFn::increment(&open?, rt, by);
    Ok(())
}

fn record<R: Wait>(rt: &R, took: &HistogramHandle) -> Result<(), Error> {
    for sample in 7..17 {
        took.record(rt, sample)?;
    }
    Ok(())
}

fn take<R: Wait>(rt: &R, on: Shared<'_>) -> Result<(), Error> {
    let key = Key::from_name(on.alloc, "took")?;
    let took = on.collector.histogram(rt, &key);
    record(rt, &took?)
}

/// Asks for handles, and makes updates. Returns what they add.
fn update<R: Wait>(rt: &R, on: Shared<'_>, by: u64) -> Result<Sums, Error> {
    open(rt, on, 1)?;
    count(rt, on, by)?;
    take(rt, on)?;
    open(rt, on, -1)?;
    Ok(Sums {
        hits: by,
        low_samples: 4,
        sum: 115,
        samples: 10,
    })
}

fn work<R: Wait>(rt: &R, on: Shared<'_>, thread: usize) -> Result<Sums, Error> {
    let mut sums = Sums::default();
    for _ in 0..on.rounds {
        sums.add(update(rt, on, thread as u64)?);
    }
    Ok(sums)
}

/// The number of the line that begins so.
fn number_after(text: &str, front: &str) -> Option<u64> {
    for line in text.lines() {
        if let Some(number) = line.strip_prefix(front) {
            return number.parse::<u64>().ok();
        }
    }
    None
}

/// What a text shows on a line, which is no less than what the one before showed. A line that isn't there is hidden.
fn grown<R: Abort>(rt: &R, last: u64, text: &str, front: &str) -> u64 {
    let shown = number_after(text, front).unwrap_or(last);
    assert!(rt; last <= shown, "{front}falls from {last} to {shown}");
    shown
}

fn shown_after<R: Abort>(rt: &R, last: Sums, text: &str) -> Sums {
    Sums {
        hits: grown(rt, last.hits, text, "hits "),
        low_samples: grown(rt, last.low_samples, text, "took_bucket{le=\"10\"} "),
        sum: grown(rt, last.sum, text, "took_sum "),
        samples: grown(rt, last.samples, text, "took_count "),
    }
}

/// How many texts are read at most.
const TEXTS: u64 = 100_000;

/// Reads the texts until all workers have ended. It adds nothing.
fn read<R: Abort + Wait>(rt: &R, on: Shared<'_>) -> Result<Sums, Error> {
    let mut shown = Sums::default();
    for now in 1..TEXTS {
        let text = on.collector.render(rt, on.alloc, now)?;
        shown = shown_after(rt, shown, text.as_str());
        if on.ended.load(Ordering::SeqCst) >= WORKERS {
            break;
        }
    }
    Ok(Sums::default())
}

fn take_part<R: Abort + Wait>(rt: &R, on: Shared<'_>, thread: usize) -> Result<Sums, Error> {
    if thread < WORKERS {
        let sums = work(rt, on, thread);
        on.ended.fetch_add(1, Ordering::SeqCst);
        sums
    } else {
        read(rt, on)
    }
}

/// Runs all threads, and adds up what they did.
fn sums_of_all<R: Abort + Threads + Wait + Sync>(rt: &R, on: Shared<'_>) -> Sums
    requires { IsSync R.row }
{
    let mut sums = Sums::default();
    let part = |thread: usize| take_part(rt, on, thread);
    let worked = thread::map_indices(rt, on.alloc, WORKERS + 1, &part);
    for one in worked.expect(rt, MEMORY) {
        sums.add(one.expect(rt, MEMORY));
    }
    sums
}

/// Compares the text with the sums.
fn expect_sums<R: Abort + Wait>(rt: &R, on: Shared<'_>, sums: Sums) {
    let Sums {
        hits,
        low_samples,
        sum,
        samples,
    } = sums;
    let text = on
        .collector
        .render(rt, on.alloc, u64::MAX)
        .expect(rt, MEMORY);
    let wanted = format!(in on.alloc;
        "# TYPE hits counter\nhits {hits}\n# TYPE open gauge\nopen 0\n# TYPE took histogram\n\
        took_bucket{{le=\"10\"}} {low_samples}\ntook_bucket{{le=\"+Inf\"}} {samples}\n\
        took_sum {sum}\ntook_count {samples}\n"
    );
    assert_eq!(rt; text.as_str(), wanted.expect(rt, MEMORY).as_str());
}

/// Keeps handles meanwhile, so that no series leaves, and makes one more update, so that none is hidden.
fn expect_all<R: AllocGlobal + Abort + Threads + Wait + Sync>(
    rt: &R,
    alloc: Global,
    collector: &Collector,
    rounds: u64,
)
    requires { IsSync R.row }
{
    let _hits = counter(rt, collector, "hits");
    let _open = gauge(rt, collector, "open");
    let _took = histogram(rt, collector, "took");
    let on = Shared {
        alloc,
        collector,
        ended: &AtomicUsize::new(0),
        rounds,
    };
    let mut sums = sums_of_all(rt, on);
    sums.add(update(rt, on, 1).expect(rt, MEMORY));
    expect_sums(rt, on, sums);
}

/// Memory may run out in a first run of a few rounds.
#[test]
fn eight_threads_and_a_reader_count_each_update_once(rt: HostRuntime) {
    for rounds in [1, 1000] {
        let on = collector(&rt, MetricKindMask::ALL);
        expect_all(&rt, rt.alloc(), &on, rounds);
        Trial::new(rt.alloc()).calm();
    }
}
