//! Cells, used as what they hold.

use metrics::Key;
use metrics_bucket::AtomicBucket;
use metrics_cells::{CounterFn, GaugeFn, HistogramFn};
use metrics_registry::{Generation, Storage};
use metrics_shared_registry::{Generational, Registry};
use std::process::Abort;
use std::sync::Wait;
use std::sync::atomic::{AtomicU64, Ordering};

/// A histogram that rejects every sample.
#[derive(Drop)]
struct Full;

impl HistogramFn for Full {
    type Error = i64;

    fn record<W: Wait>(&self, _rt: &W, value: i64) -> Result<(), i64> {
        Err(value)
    }
}

/// The cell was changed so often.
fn expect_changes<R: Abort, T>(rt: &R, cell: &Generational<T>, changes: u64) {
    assert!(rt; cell.get_generation() == Generation::new(changes));
}

/// What the cell holds, after so many changes.
fn expect_value<R: Abort>(rt: &R, cell: &Generational<AtomicU64>, changes: u64, value: u64) {
    expect_changes(rt, cell, changes);
    assert!(rt; cell.get_inner().load(Ordering::SeqCst) == value);
}

/// The word is used as a counter, and then as a gauge. The generation is raised once a closure ran.
fn expect_raised<R: Abort + Wait>(rt: &R, cell: &Generational<AtomicU64>) {
    CounterFn::increment(cell, 3);
    expect_value(rt, cell, 1, 3);
    cell.absolute(9);
    expect_value(rt, cell, 2, 9);
    cell.set(5);
    expect_value(rt, cell, 3, 5);
    GaugeFn::increment(cell, rt, 3);
    expect_value(rt, cell, 4, 8);
    cell.decrement(rt, 1);
    expect_value(rt, cell, 5, 7);
    let inside = cell.with_increment(|_: &AtomicU64| cell.get_generation());
    assert!(rt; inside == Generation::new(5));
    expect_value(rt, cell, 6, 7);
}

#[test]
fn each_call_raises_the_generation_by_one_once_it_ran(rt: HostRuntime) {
    let word = Generational::new(rt.alloc(), AtomicU64::new(0));
    expect_raised(&rt, &word.expect(&rt, "out of memory"));
    let full = Generational::new(rt.alloc(), Full).expect(&rt, "out of memory");
    assert!(rt; full.record(&rt, 3) == Err(3));
    expect_changes(&rt, &full, 1);
}

/// A histogram that a registry's storage makes has room for 1,024 samples, and again once it is cleared.
fn expect_room<R: Abort + Wait>(rt: &R, cell: &AtomicBucket<i64>) {
    for _ in 0..2 {
        for sample in 0..1024 {
            assert!(rt; cell.record(rt, sample).is_ok());
        }
        assert!(rt; cell.record(rt, 0).is_err());
        assert!(rt; cell.clear(rt) == Ok(1024));
    }
}

#[test]
fn a_histogram_has_room(rt: HostRuntime) {
    let key = Key::from_name(rt.alloc(), "a").expect(&rt, "out of memory");
    let registry = Registry::atomic(rt.alloc(), 1).expect(&rt, "out of memory");
    let cell = registry.storage().histogram(&key);
    expect_room(&rt, &cell.expect(&rt, "out of memory"));
}
