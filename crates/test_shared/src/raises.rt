//! Raises of a count and of a generation, beside another thread.
ghost use Rattle.std.specs.Thread.{IsSync};

use metrics_cells::{AtomicGeneration, CounterFn, counter_value};
use std::process::Abort;
use std::sync::Wait;
use std::sync::atomic::{AtomicU64, Ordering};
use std::thread::{Threads, join};

/// How often a count is raised.
const TIMES: u64 = 1_000_000;

/// How often a thread increments at most, for each raise.
const MOST: u64 = 100_000;

/// Increments a count until it is told to stop.
fn increment_meanwhile(count: &AtomicU64, is_over: &AtomicU64) {
    for _ in 0..TIMES * MOST {
        if is_over.load(Ordering::SeqCst) == 1 {
            break;
        }
        CounterFn::increment(count, 1);
    }
}

/// Raises a count to 100 more than it is, each time. Whether it always was no less then.
fn raise_far(count: &AtomicU64, is_over: &AtomicU64) -> bool {
    let mut is_raised = true;
    for _ in 0..TIMES {
        let wanted = counter_value(count).wrapping_add(100);
        count.absolute(wanted);
        is_raised &= counter_value(count) >= wanted;
    }
    is_over.store(1, Ordering::SeqCst);
    is_raised
}

#[test]
fn no_raise_is_lost_beside_increments(rt: HostRuntime) {
    let count = AtomicU64::new(0);
    let is_over = AtomicU64::new(0);
    let ((), is_raised) = join(
        &rt,
        || increment_meanwhile(&count, &is_over),
        || raise_far(&count, &is_over),
    );
    assert!(rt; is_raised);
}

/// Raises a count to the next multiple above it, each time. Whether it was no less then, and a multiple of 3 or 5.
fn raise_to_multiples(count: &AtomicU64, of: u64) -> bool {
    let mut is_right = true;
    let mut value = counter_value(count);
    for _ in 0..TIMES {
        let wanted = value.wrapping_sub(value % of.max(1)).wrapping_add(of);
        count.absolute(wanted);
        value = counter_value(count);
        is_right &= value >= wanted && (value % 3 == 0 || value % 5 == 0);
    }
    is_right
}

/// One thread raises a count to multiples of 3, and the other to multiples of 5.
#[test]
fn a_count_is_raised_to_no_more_than_the_value(rt: HostRuntime) {
    let count = AtomicU64::new(0);
    let (one, other) = join(
        &rt,
        || raise_to_multiples(&count, 3),
        || raise_to_multiples(&count, 5),
    );
    assert!(rt; one && other);
}

/// How often each of two threads raises a generation.
const RAISES: u64 = 1_000_000;

fn raise_often(generation: &AtomicGeneration) {
    for _ in 0..RAISES {
        generation.raise();
    }
}

fn expect_raises<R: Abort + Threads + Wait + Sync>(rt: &R, generation: &AtomicGeneration)
    requires { IsSync R.row }
{
    join(rt, || raise_often(generation), || raise_often(generation));
    assert_eq!(rt; generation.load(), RAISES * 2);
}

#[test]
fn a_generation_counts_each_raise(rt: HostRuntime) {
    expect_raises(&rt, &AtomicGeneration::new());
}
