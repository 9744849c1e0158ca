//! A collector: seven threads change two series whose handles they keep and make series that they change once, and
//! one reads the text meanwhile. Each series is idle that hasn't changed between two readings.
ghost use Rattle.std.specs.Thread.{IsSync};

use crate::Deadline;
use anyhow::{Result, anyhow};
use metrics::{Error, Key, Label, MetricKindMask};
use metrics_cells::{CounterFn, GaugeFn, HistogramFn};
use metrics_collector::{Bounds, Collector};
use std::alloc::Global;
use std::rt::Clock;
use std::sync::Wait;
use std::sync::atomic::{AtomicUsize, Ordering};
use std::thread::{self, Threads};

const WORKERS: usize = 7;

/// How many changes are between two looks at the clock.
const CHANGES: i64 = 1024;

/// How often the kept series were changed, how many series of each kind were made that are changed once, and how often such
/// ones were shown with their change.
#[derive(Clone, Copy)]
struct Counts {
    changed: u64,
    made: u64,
    counters: u64,
    gauges: u64,
    histograms: u64,
}

impl Counts {
    fn none() -> Counts {
        Counts {
            changed: 0,
            made: 0,
            counters: 0,
            gauges: 0,
            histograms: 0,
        }
    }

    fn join(&mut self, other: Counts) {
        self.changed = self.changed.wrapping_add(other.changed);
        self.made = self.made.wrapping_add(other.made);
        self.counters = self.counters.wrapping_add(other.counters);
        self.gauges = self.gauges.wrapping_add(other.gauges);
        self.histograms = self.histograms.wrapping_add(other.histograms);
    }
}

/// What the threads share.
#[derive(Clone, Copy)]
struct Shared<'a> {
    alloc: Global,
    deadline: Deadline,
    collector: &'a Collector,
    ended: &'a AtomicUsize,
}

fn collector(alloc: Global) -> Result<Collector, Error> {
    let bounds = Bounds::new(alloc, &[10, 100])?;
    Collector::new(alloc, 4, MetricKindMask::ALL, Some(0), bounds)
}

/// Changes each kept series so often.
fn change<W: Wait>(rt: &W, on: Shared<'_>, times: i64) -> Result<(), Error> {
    let counter = on
        .collector
        .counter(rt, &Key::from_name(on.alloc, "kept")?)?;
    let histogram = on
        .collector
        .histogram(rt, &Key::from_name(on.alloc, "samples")?)?;
    for sample in 0..times {
        CounterFn::increment(&counter, 1);
        histogram.record(rt, sample)?;
    }
    Ok(())
}

/// The key of a series that is changed once.
fn once(alloc: Global, name: &str, at: &str) -> Result<Key, Error> {
    let mut labels = Vec::new(alloc);
    labels.push(Label::new(alloc, "at", at)?)?;
    Ok(Key::from_parts(alloc, name, labels)?)
}

/// Makes a series of each kind, and changes it once.
fn change_once<W: Wait>(rt: &W, on: Shared<'_>, at: &str) -> Result<(), Error> {
    let counter = on.collector.counter(rt, &once(on.alloc, "counter", at)?)?;
    CounterFn::increment(&counter, 1);
    let gauge = on.collector.gauge(rt, &once(on.alloc, "gauge", at)?)?;
    GaugeFn::set(&gauge, 1);
    let histogram = on
        .collector
        .histogram(rt, &once(on.alloc, "histogram", at)?)?;
    histogram.record(rt, 5)
}

fn work<R: Clock + Wait>(rt: &R, on: Shared<'_>, thread: usize) -> Result<Counts, Error> {
    let mut counts = Counts::none();
    for round in 0..u64::MAX {
        change(rt, on, CHANGES)?;
        let at = format!(in on.alloc; "{thread}.{round}")?;
        change_once(rt, on, at.as_str())?;
        counts.changed = counts.changed.wrapping_add(CHANGES as u64);
        counts.made = counts.made.wrapping_add(1);
        if on.deadline.is_over(rt) {
            break;
        }
    }
    Ok(counts)
}

/// How many lines of a text begin so and end with a 1.
fn ones(text: &str, front: &str) -> u64 {
    let mut shown = 0u64;
    for line in text.lines() {
        if line.starts_with(front) && line.ends_with(" 1") {
            shown = shown.wrapping_add(1);
        }
    }
    shown
}

fn shown_in(text: &str) -> Counts {
    Counts {
        changed: 0,
        made: 0,
        counters: ones(text, "counter{"),
        gauges: ones(text, "gauge{"),
        histograms: ones(text, "histogram_count{"),
    }
}

/// Reads the text until all workers have ended, and then once more.
fn read<W: Wait>(rt: &W, on: Shared<'_>) -> Result<Counts, Error> {
    let mut counts = Counts::none();
    for now in 1..u64::MAX {
        let is_last = on.ended.load(Ordering::SeqCst) >= WORKERS;
        let text = on.collector.render(rt, on.alloc, now)?;
        counts.join(shown_in(text.as_str()));
        if is_last {
            break;
        }
    }
    Ok(counts)
}

fn take_part<R: Clock + Wait>(rt: &R, on: Shared<'_>, thread: usize) -> Result<Counts, Error> {
    if thread == WORKERS {
        return read(rt, on);
    }
    let counts = work(rt, on, thread);
    on.ended.fetch_add(1, Ordering::SeqCst);
    counts
}

fn run_all<R: Clock + Threads + Wait + Sync>(rt: &R, on: Shared<'_>) -> Result<Counts>
    requires { IsSync R.row }
{
    let mut counts = Counts::none();
    let part = |thread: usize| take_part(rt, on, thread);
    for one in thread::map_indices(rt, on.alloc, WORKERS + 1, &part)? {
        counts.join(one?);
    }
    Ok(counts)
}

/// The kept series show each change, one more of each kind included.
fn expect_kept(alloc: Global, text: &str, changed: u64) -> Result<()> {
    let all = changed.wrapping_add(1);
    for front in ["\nkept ", "\nsamples_count "] {
        let line = format!(in alloc; "{front}{all}\n")?;
        if !text.contains(line.as_str()) {
            return Err(anyhow!("{} is not in {}", line, text));
        }
    }
    Ok(())
}

/// One text shows the change of a counter or a histogram. That of a gauge is in one or two: its value changes first, and then the
/// number of its changes.
fn expect_shown(counts: Counts) -> Result<()> {
    let made = counts.made;
    let twice = made.wrapping_mul(2);
    let is_shown = counts.counters == made && counts.histograms == made;
    if made == 0 || !is_shown || counts.gauges < made || counts.gauges > twice {
        return Err(anyhow!(
            "{} series of each kind were made; counters were shown {} times, gauges {}, histograms {}",
            made,
            counts.counters,
            counts.gauges,
            counts.histograms
        ));
    }
    Ok(())
}

fn soak_beside<R: Clock + Threads + Wait + Sync>(rt: &R, on: Shared<'_>) -> Result<()>
    requires { IsSync R.row }
{
    let counts = run_all(rt, on)?;
    expect_shown(counts)?;
    change(rt, on, 1)?;
    let text = on.collector.render(rt, on.alloc, u64::MAX)?;
    expect_kept(on.alloc, text.as_str(), counts.changed)
}

/// Handles are kept meanwhile, so that the kept series stay.
pub fn soak<R: Clock + Threads + Wait + Sync>(
    rt: &R,
    alloc: Global,
    deadline: Deadline,
) -> Result<()>
    requires { IsSync R.row }
{
    let collector = &collector(alloc)?;
    let counter = collector.counter(rt, &Key::from_name(alloc, "kept")?);
    let histogram = collector.histogram(rt, &Key::from_name(alloc, "samples")?);
    let ended = &AtomicUsize::new(0);
    let on = Shared {
        alloc,
        deadline,
        collector,
        ended,
    };
    soak_beside(rt, on)?;
    counter?;
    histogram?;
    Ok(())
}
