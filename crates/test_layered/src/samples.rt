//! Updates of several cells, also where one rejects a sample.

use crate::given::MEMORY;
use metrics_cells::{HistogramFn, counter_value, gauge_value};
use metrics_layered::{CounterHandles, GaugeHandles, Handles, HistogramHandles};
use std::process::Abort;
use std::sync::atomic::{AtomicU64, Ordering};
use std::sync::{Arc, Wait};

/// A cell that adds up its samples, and rejects those above a limit with the limit.
#[derive(Drop)]
struct Limited {
    sum: AtomicU64,
    most: i64,
}

impl HistogramFn for Limited {
    type Error = i64;

    fn record<W: Wait>(&self, _rt: &W, value: i64) -> Result<(), i64> {
        if value > self.most {
            return Err(self.most);
        }
        self.sum.fetch_add(value.cast_unsigned(), Ordering::SeqCst);
        Ok(())
    }
}

fn several<R: AllocGlobal + Abort>(rt: &R, limits: &[i64]) -> HistogramHandles<Limited> {
    let mut all = Vec::new(rt.alloc());
    for most in limits {
        let sum = AtomicU64::new(0);
        all.push(Limited { sum, most: *most }).expect(rt, MEMORY);
    }
    HistogramHandles::of(Handles::Several(all))
}

fn sums<R: AllocGlobal + Abort>(rt: &R, on: &Handles<Limited>) -> Vec<u64> {
    let mut sums = Vec::new(rt.alloc());
    for target in 0..on.len() {
        if let Some(cell) = on.get(target) {
            sums.push(counter_value(&cell.sum)).expect(rt, MEMORY);
        }
    }
    sums
}

#[test]
fn a_sample_reaches_the_cells_after_one_that_rejects_it(rt: HostRuntime) {
    let on = several(&rt, &[9, 5, 3, 9]);
    assert_eq!(rt; on.record(&rt, 4), Err(3));
    assert_eq!(rt; on.record(&rt, 6), Err(5));
    assert_eq!(rt; on.record(&rt, 1), Ok(()));
    assert!(rt; sums(&rt, on.cells()).as_slice() == [11, 5, 1, 11].as_slice());
}

fn words<R: AllocGlobal + Abort>(rt: &R, number: usize) -> Vec<Arc<AtomicU64>> {
    let mut all = Vec::new(rt.alloc());
    for _ in 0..number {
        all.push(Arc::new(rt.alloc(), AtomicU64::new(0)).expect(rt, MEMORY))
            .expect(rt, MEMORY);
    }
    all
}

/// The words of the cells, in order.
fn values<R: AllocGlobal + Abort>(rt: &R, on: &Handles<Arc<AtomicU64>>) -> Vec<u64> {
    let mut values = Vec::new(rt.alloc());
    for target in 0..on.len() {
        if let Some(cell) = on.get(target) {
            values.push(counter_value(cell)).expect(rt, MEMORY);
        }
    }
    values
}

#[test]
fn each_update_changes_each_cell_once(rt: HostRuntime) {
    let counters = CounterHandles::of(Handles::Several(words(&rt, 3)));
    counters.increment(2);
    counters.absolute(5);
    counters.increment(1);
    let gauges = GaugeHandles::of(Handles::Several(words(&rt, 3)));
    gauges.set(7);
    gauges.increment(&rt, 5);
    gauges.decrement(&rt, 20);
    assert!(rt; values(&rt, counters.cells()).as_slice() == [6, 6, 6].as_slice());
    let wanted = (-8i64).cast_unsigned();
    assert!(rt; values(&rt, gauges.cells()).as_slice() == [wanted, wanted, wanted].as_slice());
}

#[test]
fn a_handle_of_one_target_changes_its_cell(rt: HostRuntime) {
    let word = Arc::new(rt.alloc(), AtomicU64::new(0)).expect(&rt, MEMORY);
    let gauges = GaugeHandles::of(Handles::One(word));
    gauges.set(-2);
    gauges.increment(&rt, 7);
    assert_eq!(rt;
        gauges.cells().get(0).map(|cell| gauge_value(cell)),
        Some(5)
    );
    assert!(rt; gauges.cells().get(1).is_none());
}

#[test]
fn a_handle_of_no_cell_does_nothing(rt: HostRuntime) {
    let none: HistogramHandles<Limited> = HistogramHandles::noop();
    assert_eq!(rt; none.record(&rt, 4), Ok(()));
    assert_eq!(rt; none.cells().len(), 0);
    let none: CounterHandles<Arc<AtomicU64>> = CounterHandles::noop();
    none.increment(4);
    assert!(rt; none.cells().get(0).is_none());
    let none: GaugeHandles<Arc<AtomicU64>> = GaugeHandles::noop();
    none.set(4);
    assert_eq!(rt; none.cells().len(), 0);
}
