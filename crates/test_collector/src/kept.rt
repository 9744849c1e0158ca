//! A series that is asked for again while a handle of it is kept.

use crate::anew::{Change, changed};
use crate::given::{MEMORY, collector, counter, expect_text, gauge, histogram};
use crate::turns::LOOKS;
use metrics::MetricKindMask;
use metrics_cells::{CounterFn, GaugeFn, HistogramFn};
use metrics_collector::{Collector, HistogramHandle};
use std::process::Abort;
use std::sync::Wait;
use std::sync::atomic::{AtomicU64, Ordering};
use test_trial::Trial;

fn samples<R: Abort + Wait>(rt: &R, took: &HistogramHandle) -> u64 {
    took.read(rt).expect(rt, MEMORY).count()
}

/// Waits until one more reading has ended, if one does.
fn wait_for(read: &AtomicU64) {
    let before = read.load(Ordering::SeqCst);
    for _ in 0..LOOKS {
        if read.load(Ordering::SeqCst) != before {
            break;
        }
    }
}

/// Asks for a series before a reading ends and after that, and updates it by each handle. Both show both updates.
pub fn ask_twice<R: AllocGlobal + Abort + Wait>(
    rt: &R,
    on: &Collector,
    name: &str,
    read: &AtomicU64,
) {
    let hits = counter(rt, on, name);
    let open = gauge(rt, on, name);
    let took = histogram(rt, on, name);
    CounterFn::increment(&hits, 1);
    GaugeFn::increment(&open, rt, 1);
    took.record(rt, 5).expect(rt, MEMORY);
    wait_for(read);
    let again = counter(rt, on, name);
    CounterFn::increment(&again, 1);
    assert_eq!(rt; hits.value(), again.value());
    let again = gauge(rt, on, name);
    GaugeFn::increment(&again, rt, 1);
    assert_eq!(rt; open.value(), again.value());
    let again = histogram(rt, on, name);
    again.record(rt, 5).expect(rt, MEMORY);
    assert_eq!(rt; samples(rt, &took), samples(rt, &again));
}

/// Memory may be refused in a first run of a few changes.
#[test]
fn handles_of_a_key_share_one_series_while_it_would_leave(rt: HostRuntime) {
    changed(&rt, rt.alloc(), 2, Change::AskTwice);
    Trial::new(rt.alloc()).calm();
    changed(&rt, rt.alloc(), 1000, Change::AskTwice);
}

const TWICE: &str = "# TYPE c counter\nc 2\n# TYPE g gauge\ng 2\n# TYPE h histogram\n\
    h_bucket{le=\"10\"} 2\nh_bucket{le=\"+Inf\"} 2\nh_sum 2\nh_count 2\n";

/// Updates a series of each kind by 1, by a handle that is kept over idle readings and by one that is asked for then.
fn update_twice<R: AllocGlobal + Abort + Wait>(rt: &R, on: &Collector) {
    let (c, g, h) = (
        counter(rt, on, "c"),
        gauge(rt, on, "g"),
        histogram(rt, on, "h"),
    );
    for now in [10, 20, 30] {
        on.gather(rt, rt.alloc(), now).expect(rt, MEMORY);
    }
    CounterFn::increment(&counter(rt, on, "c"), 1);
    GaugeFn::increment(&gauge(rt, on, "g"), rt, 1);
    histogram(rt, on, "h").record(rt, 1).expect(rt, MEMORY);
    on.gather(rt, rt.alloc(), 40).expect(rt, MEMORY);
    CounterFn::increment(&c, 1);
    GaugeFn::increment(&g, rt, 1);
    h.record(rt, 1).expect(rt, MEMORY);
    expect_text(rt, on, 50, TWICE);
}

#[test]
fn a_handle_that_is_kept_over_idle_readings_is_of_the_series_asked_for_then(rt: HostRuntime) {
    update_twice(&rt, &collector(&rt, MetricKindMask::ALL));
}
