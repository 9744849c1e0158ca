//! Two threads that change gauges, beside one that reads them.
ghost use Rattle.std.specs.Thread.{IsSync};

use crate::given::{MEMORY, collector, gauge};
use crate::turns::Limit;
use metrics::MetricKindMask;
use metrics_cells::GaugeFn;
use metrics_collector::{Collector, GaugeHandle, Value};
use std::alloc::Global;
use std::hint;
use std::process::Abort;
use std::rt::Clock;
use std::sync::Wait;
use std::sync::atomic::{AtomicU64, Ordering};
use std::thread::{self, Threads};
use test_trial::Trial;

/// How many threads change gauges.
const WRITERS: usize = 2;

/// How many gauges each of them has. The fewer, the shorter a reading, and the likelier a change falls between two of its steps.
const OWN: usize = 4;

const GAUGES: usize = WRITERS * OWN;

/// How often a thread changes each of them at most between the end of a reading and a wait for a whole one.
const MORE: u64 = 20;

/// How many spin hints a thread makes at most between two changes of a gauge. Each time it makes another number, so that changes
/// are as far apart as any two steps of a reading.
const HINTS: u64 = 50;

/// How many readings there are at most.
const READINGS: u64 = 200_000;

/// A gauge, which only rises, and the last value of which it is known that its change has ended.
#[derive(Drop)]
struct Rising {
    gauge: GaugeHandle,
    ended: AtomicU64,
}

/// What the threads share.
#[derive(Clone, Copy)]
struct Shared<'a> {
    alloc: Global,
    collector: &'a Collector,
    gauges: &'a [Rising],
    /// How many readings there were, and `u64::MAX` once there are no more.
    read: &'a AtomicU64,
}

/// Raises a gauge by 1 to the value, in one of three ways.
fn raise<R: Wait>(rt: &R, gauge: &GaugeHandle, value: u64) {
    match value % 8 {
        0 => GaugeFn::increment(gauge, rt, 1),
        1 => GaugeFn::decrement(gauge, rt, -1),
        _ => GaugeFn::set(gauge, value.cast_signed()),
    }
}

/// Raises each gauge of a thread to the next value, which it returns, after a pause of some hints.
fn raise_own<R: Wait>(rt: &R, on: Shared<'_>, thread: usize, last: u64, hints: u64) -> u64 {
    for _ in 0..hints {
        hint::spin_loop();
    }
    let value = last.wrapping_add(1);
    for own in on.gauges.iter().skip(thread.wrapping_mul(OWN)).take(OWN) {
        raise(rt, &own.gauge, value);
        own.ended.store(value, Ordering::SeqCst);
    }
    value
}

/// How many hints there are before a change: none in every other wait for a reading.
fn hints(ended: u64, value: u64) -> u64 {
    if ended % 2 == 0 { value % HINTS } else { 0 }
}

/// Raises the gauges of a thread until the reading is over that has ended as the number says, and some times more: so a next
/// reading that shows a gauge meets its last change, each time at another step. Returns the last value.
fn raise_on<R: Wait>(rt: &R, on: Shared<'_>, thread: usize, last: u64, ended: u64) -> u64 {
    let mut value = last;
    for _ in rt.forever() {
        value = raise_own(rt, on, thread, value, hints(ended, value));
        if on.read.load(Ordering::SeqCst) != ended {
            break;
        }
    }
    for _ in 0..value % MORE {
        value = raise_own(rt, on, thread, value, hints(ended, value));
    }
    value
}

/// Changes the gauges of a thread, and waits for a whole reading, in turn.
fn write<R: Wait>(rt: &R, on: Shared<'_>, thread: usize) {
    let (mut wanted, mut value) = (0u64, 0u64);
    for _ in rt.forever() {
        let read = on.read.load(Ordering::SeqCst);
        if read == u64::MAX {
            break;
        }
        if read >= wanted {
            value = raise_on(rt, on, thread, value, read);
            wanted = on.read.load(Ordering::SeqCst).saturating_add(2);
        }
    }
}

/// The place of a gauge, by its name.
fn place_of(name: &str) -> Option<usize> {
    name.strip_prefix("g")?.parse::<usize>().ok()
}

/// Reads, and notes each value that is shown. A gauge without a change isn't.
fn note_shown<R: Abort + Wait>(rt: &R, on: Shared<'_>, shown: &mut [u64], now: u64) {
    let gathered = on.collector.gather(rt, on.alloc, now).expect(rt, MEMORY);
    for series in &gathered.series {
        if let Value::Level(value) = &series.value {
            let place = place_of(series.key.name()).expect(rt, "another name");
            if place < shown.len() {
                shown[place] = value.cast_unsigned();
            }
        }
    }
}

/// Reads once. Each change that ended before is shown, or was by a reading before.
fn read_once<R: Abort + Wait>(rt: &R, on: Shared<'_>, shown: &mut [u64], now: u64) {
    let mut ended = [0u64; GAUGES];
    for (value, rising) in ended.iter_mut().zip(on.gauges) {
        *value = rising.ended.load(Ordering::SeqCst);
    }
    note_shown(rt, on, shown, now);
    for (value, wanted) in shown.iter().zip(&ended) {
        assert!(rt; value >= wanted, "{value} is shown, and not {wanted}");
    }
}

/// Reads so often, or until the time is up.
fn read<R: Abort + Clock + Wait>(rt: &R, on: Shared<'_>) {
    let limit = Limit::new(rt, 8);
    let mut shown = [0u64; GAUGES];
    for number in 1..READINGS {
        read_once(rt, on, &mut shown, number.wrapping_mul(10));
        on.read.store(number, Ordering::SeqCst);
        if limit.is_over(rt) {
            break;
        }
    }
    on.read.store(u64::MAX, Ordering::SeqCst);
}

fn take_part<R: Abort + Clock + Wait>(rt: &R, on: Shared<'_>, thread: usize) {
    if thread == WRITERS {
        return read(rt, on);
    }
    write(rt, on, thread);
}

/// Makes all gauges, and keeps their handles.
fn gauges<R: AllocGlobal + Abort + Wait>(rt: &R, on: &Collector) -> Vec<Rising> {
    let mut gauges = Vec::new(rt.alloc());
    for place in 0..GAUGES {
        let name = format!(in rt.alloc(); "g{place}").expect(rt, MEMORY);
        let rising = Rising {
            gauge: gauge(rt, on, name.as_str()),
            ended: AtomicU64::new(0),
        };
        gauges.push(rising).expect(rt, MEMORY);
    }
    gauges
}

fn expect_no_change_missed<R: AllocGlobal + Abort + Clock + Threads + Wait + Sync>(
    rt: &R,
    alloc: Global,
)
    requires { IsSync R.row }
{
    let collector = &collector(rt, MetricKindMask::ALL);
    let gauges = gauges(rt, collector);
    let on = Shared {
        alloc,
        collector,
        gauges: &gauges,
        read: &AtomicU64::new(0),
    };
    let part = |thread: usize| take_part(rt, on, thread);
    let done = thread::map_indices(rt, alloc, WRITERS + 1, &part);
    done.expect(rt, MEMORY);
}

/// Some millions of changes, or as many as there is time for. No memory is refused.
#[test]
fn no_set_of_a_gauge_is_missed(rt: HostRuntime) {
    Trial::new(rt.alloc()).calm();
    expect_no_change_missed(&rt, rt.alloc());
}
