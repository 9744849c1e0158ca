//! Cells, used by one thread and by several, with expected values from outside.

use metrics_cells::{CounterFn, GaugeFn, HistogramFn, counter_value, gauge_value};
use std::process::Abort;
use std::sync::atomic::AtomicU64;
use std::sync::{Arc, Wait};
use std::test::Fail;
use std::thread::{Threads, join};

fn expect_count<C: CounterFn>(rt: &impl Abort, cell: &C, word: &AtomicU64) {
    cell.increment(u64::MAX);
    cell.increment(2);
    assert_eq!(rt; counter_value(word), 1);
    cell.absolute(7);
    cell.absolute(5);
    assert_eq!(rt; counter_value(word), 7);
}

fn expect_value(rt: &impl Abort, word: &AtomicU64, want: i64) {
    assert_eq!(rt; gauge_value(word), want);
}

fn expect_gauge<R: Abort + Wait, G: GaugeFn>(rt: &R, cell: &G, word: &AtomicU64) {
    cell.decrement(rt, 500);
    expect_value(rt, word, -500);
    cell.set(i64::MAX);
    cell.increment(rt, 1);
    expect_value(rt, word, i64::MAX);
    cell.set(-2);
    cell.decrement(rt, i64::MAX);
    expect_value(rt, word, i64::MIN);
}

/// Returns a word that is shared.
fn shared_word<R: AllocGlobal + Abort>(rt: &R) -> Arc<AtomicU64> {
    Arc::new(rt.alloc(), AtomicU64::new(0)).expect(rt, "out of memory")
}

#[test]
fn a_word_is_a_counter(rt: HostRuntime) {
    let word = AtomicU64::new(0);
    expect_count(&rt, &word, &word);
}

#[test]
fn a_word_is_a_gauge(rt: HostRuntime) {
    let word = AtomicU64::new(0);
    expect_gauge(&rt, &word, &word);
}

#[test]
fn a_shared_word_is_a_counter(rt: HostRuntime) {
    let word = shared_word(&rt);
    expect_count(&rt, &word, &word);
}

#[test]
fn a_shared_word_is_a_gauge(rt: HostRuntime) {
    let word = shared_word(&rt);
    expect_gauge(&rt, &word, &word);
}

/// How often each of two threads changes a cell.
const TIMES: u64 = 100_000;

fn increment_often<C: CounterFn>(cell: &C) {
    for _ in 0..TIMES {
        cell.increment(3);
    }
}

#[test]
fn two_threads_increment_a_counter(rt: HostRuntime) {
    let word = shared_word(&rt);
    join(&rt, || increment_often(&word), || increment_often(&word));
    assert_eq!(&rt; counter_value(&word), 600_000);
}

fn raise_often<W: Wait, G: GaugeFn>(rt: &W, cell: &G) {
    for _ in 0..TIMES {
        cell.increment(rt, 3);
    }
}

fn lower_often<W: Wait, G: GaugeFn>(rt: &W, cell: &G) {
    for _ in 0..TIMES {
        cell.decrement(rt, 5);
    }
}

fn expect_sum<R: Abort + Threads + Wait + Sync>(rt: &R, word: &Arc<AtomicU64>) {
    join(rt, || raise_often(rt, word), || lower_often(rt, word));
    expect_value(rt, word, -200_000);
}

#[test]
fn two_threads_change_a_gauge(rt: HostRuntime) {
    let word = shared_word(&rt);
    expect_sum(&rt, &word);
}

/// The sum of the samples, none of them below 0.
#[derive(Drop)]
struct Sum(AtomicU64);

impl HistogramFn for Sum {
    type Error = i64;

    fn record<W: Wait>(&self, _rt: &W, value: i64) -> Result<(), i64> {
        let Ok(sample) = u64::try_from(value) else {
            return Err(value);
        };
        CounterFn::increment(&self.0, sample);
        Ok(())
    }
}

fn expect_samples<R: Abort + Wait, H: HistogramFn<Error = i64>>(
    rt: &R,
    cell: &H,
    word: &AtomicU64,
) {
    assert!(rt; cell.record(rt, 3).is_ok());
    assert!(rt; cell.record(rt, 4).is_ok());
    assert!(rt; cell.record(rt, -1).err() == Some(-1));
    assert_eq!(rt; counter_value(word), 7);
}

#[test]
fn a_shared_sum_is_a_histogram(rt: HostRuntime) -> Result<(), Fail> {
    let sum = Arc::new(rt.alloc(), Sum(AtomicU64::new(0)))?;
    expect_samples(&rt, &sum, &sum.0);
    Ok(())
}

/// Increments a count. Whether it never fell.
fn is_rising(count: &AtomicU64) -> bool {
    let mut is_rising = true;
    let mut before = 0;
    for _ in 0..TIMES {
        CounterFn::increment(count, 1);
        let now = counter_value(count);
        is_rising &= now > before;
        before = now;
    }
    is_rising
}

/// Raises a count to a value that it has.
fn raise_to_one(count: &AtomicU64) {
    for _ in 0..TIMES {
        count.absolute(1);
    }
}

#[test]
fn absolute_loses_no_increment(rt: HostRuntime) {
    let count = AtomicU64::new(1);
    let (is_rising, ()) = join(&rt, || is_rising(&count), || raise_to_one(&count));
    assert!(rt; counter_value(&count) == 100_001);
    assert!(rt; is_rising);
}

/// Raises a count by one, each time, where no other thread does.
fn raise_past(count: &AtomicU64) {
    for _ in 0..TIMES {
        count.absolute(counter_value(count).wrapping_add(1));
    }
}

#[test]
fn a_raised_count_never_falls(rt: HostRuntime) {
    let count = AtomicU64::new(1);
    let (is_rising, ()) = join(&rt, || is_rising(&count), || raise_past(&count));
    assert!(rt; is_rising);
    assert!(rt; counter_value(&count) > TIMES);
}
