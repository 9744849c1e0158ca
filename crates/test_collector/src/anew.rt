//! A thread that asks anew for its handles at each change and drops them, beside one that reads meanwhile.
ghost use Rattle.std.specs.Thread.{IsSync};

use crate::given::{MEMORY, collector, counter, gauge, histogram, update_each};
use crate::kept::ask_twice;
use crate::turns::{LOOKS, Limit, Turns};
use metrics::MetricKindMask;
use metrics_collector::{Collector, CounterHandle, GaugeHandle, HistogramHandle, Value};
use std::alloc::Global;
use std::process::Abort;
use std::rt::Clock;
use std::sync::Wait;
use std::sync::atomic::{AtomicU64, Ordering};
use std::thread::{Threads, join};
use test_trial::Trial;

/// How many series of a kind there are. A reading passes most of them after the one that leaves: so that this one is asked for
/// meanwhile.
const SERIES: usize = 40;

/// The most parts of a histogram. A reading looks at each, and a sample goes into the next.
const STRIPES: usize = 500;

/// What the threads share.
#[derive(Clone, Copy)]
struct Shared<'a> {
    alloc: Global,
    collector: &'a Collector,
    /// How many readings there were, and `u64::MAX` once there are no more.
    read: &'a AtomicU64,
    /// How many changes there were, and `u64::MAX` once there are no more.
    changed: &'a AtomicU64,
    /// How many there are to be.
    changes: u64,
    change: Change,
    /// The name of the series that change.
    name: &'a str,
}

/// What a writer does at each of its turns.
#[derive(Clone, Copy)]
pub enum Change {
    Update,
    AskTwice,
}

/// Updates a series of each kind.
fn update<R: AllocGlobal + Abort + Wait>(rt: &R, on: &Collector, name: &str, number: i64) {
    update_each(rt, on, [name, name, name], (1, number, 5));
}

/// Makes changes, with at least one whole reading between two. Returns how many there were.
fn write<R: AllocGlobal + Abort + Wait>(rt: &R, on: Shared<'_>) -> i64 {
    let mut turns = Turns::new();
    let mut changes = 0u64;
    for _ in 0..on.changes.saturating_mul(LOOKS) {
        let read = on.read.load(Ordering::SeqCst);
        if read == u64::MAX {
            break;
        }
        if turns.is_due(read) {
            changes = changes.wrapping_add(1);
            match on.change {
                Change::Update => update(rt, on.collector, on.name, changes.cast_signed()),
                Change::AskTwice => ask_twice(rt, on.collector, on.name, on.read),
            }
            turns.made(on.read.load(Ordering::SeqCst));
            on.changed.store(changes, Ordering::SeqCst);
        }
    }
    on.changed.store(u64::MAX, Ordering::SeqCst);
    changes.cast_signed()
}

/// How often a series of each kind was shown with something new: a count above 0, a greater value, and some samples.
#[derive(Clone, Copy)]
pub struct Shown {
    pub hits: i64,
    pub open: i64,
    pub took: i64,
    value: i64,
}

/// What was shown after one more reading.
fn shown_after<R: Abort + Wait>(rt: &R, on: Shared<'_>, before: Shown, now: u64) -> Shown {
    let mut shown = before;
    let gathered = on.collector.gather(rt, on.alloc, now).expect(rt, MEMORY);
    for series in &gathered.series {
        match &series.value {
            Value::Count(count) => shown.hits = shown.hits.wrapping_add(i64::from(*count > 0)),
            Value::Level(value) => {
                shown.open = shown.open.wrapping_add(i64::from(*value > shown.value));
                shown.value = shown.value.max(*value);
            }
            Value::Samples(samples) => {
                shown.took = shown.took.wrapping_add(i64::from(samples.count() > 0));
            }
        }
    }
    shown
}

/// Reads until all changes were made or the time is up. Each series leaves that hasn't changed between two readings.
fn read<R: Abort + Clock + Wait>(rt: &R, on: Shared<'_>) -> Shown {
    let mut shown = Shown {
        hits: 0,
        open: 0,
        took: 0,
        value: 0,
    };
    let limit = Limit::new(rt, 4);
    for number in 1..u64::MAX {
        shown = shown_after(rt, on, shown, number.wrapping_mul(10));
        on.read.store(number, Ordering::SeqCst);
        if on.changed.load(Ordering::SeqCst) >= on.changes || limit.is_over(rt) {
            break;
        }
    }
    on.read.store(u64::MAX, Ordering::SeqCst);
    shown
}

/// The name of a series by its number.
fn name_of<R: AllocGlobal + Abort>(rt: &R, number: usize) -> String {
    format!(in rt.alloc(); "series{number}").expect(rt, MEMORY)
}

/// Makes series of each kind, and returns the number of those that readings visit first.
fn first_of<R: AllocGlobal + Abort + Wait>(rt: &R, on: &Collector) -> usize {
    for number in 0..SERIES {
        update(rt, on, name_of(rt, number).as_str(), 1);
    }
    let gathered = on.gather(rt, rt.alloc(), 0).expect(rt, MEMORY);
    let first = gathered.series.first().expect(rt, "no series");
    let number = first.key.name().strip_prefix("series");
    number
        .expect(rt, "another name")
        .parse::<usize>()
        .expect(rt, "another name")
}

/// Returns handles of the series of all numbers but this one.
fn others<R: AllocGlobal + Abort + Wait>(
    rt: &R,
    on: &Collector,
    first: usize,
) -> Vec<(CounterHandle, GaugeHandle, HistogramHandle)> {
    let mut others = Vec::new(rt.alloc());
    for number in 0..SERIES {
        if number != first {
            let name = name_of(rt, number);
            let handles = (
                counter(rt, on, name.as_str()),
                gauge(rt, on, name.as_str()),
                histogram(rt, on, name.as_str()),
            );
            others.push(handles).expect(rt, MEMORY);
        }
    }
    others
}

/// Makes changes beside readings. Returns how many, and what all readings and a last one showed.
pub fn changed<R: AllocGlobal + Abort + Clock + Threads + Wait + Sync>(
    rt: &R,
    alloc: Global,
    changes: u64,
    change: Change,
) -> (i64, Shown)
    requires { IsSync R.row }
{
    let made = collector(rt, MetricKindMask::ALL).with_stripes(1);
    let first = first_of(rt, &made);
    let _others = others(rt, &made, first);
    let name = name_of(rt, first);
    let on = &made.with_stripes(STRIPES);
    let on = Shared {
        alloc,
        collector: on,
        read: &AtomicU64::new(0),
        changed: &AtomicU64::new(0),
        changes,
        change,
        name: name.as_str(),
    };
    let (changes, shown) = join(rt, || write(rt, on), || read(rt, on));
    (changes, shown_after(rt, on, shown, u64::MAX))
}

fn expect_each<R: AllocGlobal + Abort + Clock + Threads + Wait + Sync>(
    rt: &R,
    alloc: Global,
    changes: u64,
)
    requires { IsSync R.row }
{
    let (changes, shown) = changed(rt, alloc, changes, Change::Update);
    assert_eq!(rt;
        (shown.hits, shown.open, shown.took),
        (changes, changes, changes)
    );
}

/// A series that nobody holds leaves between two changes, or while it is asked for.
///
/// Memory may be refused in a first run of a few changes.
#[test]
fn a_key_that_is_asked_for_anew_at_each_change_loses_none(rt: HostRuntime) {
    expect_each(&rt, rt.alloc(), 2);
    Trial::new(rt.alloc()).calm();
    expect_each(&rt, rt.alloc(), 2000);
}
