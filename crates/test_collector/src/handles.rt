//! Handles by their own calls, with no trait in scope.

use crate::given::{MEMORY, TIMEOUT, collector, counter, expect_text, gauge, histogram};
use metrics::MetricKindMask;
use metrics_collector::{Bounds, Collector, CounterHandle, GaugeHandle, HistogramHandle, Quantile};
use std::process::Abort;
use std::sync::Wait;

#[test]
fn a_counter_is_incremented_and_raised(rt: HostRuntime) {
    let on = collector(&rt, MetricKindMask::ALL);
    let hits = counter(&rt, &on, "hits");
    hits.increment(2);
    hits.absolute(7);
    hits.absolute(5);
    hits.increment(1);
    assert_eq!(rt; hits.value(), 8);
    assert_eq!(rt; counter(&rt, &on, "hits").value(), 8);
}

/// A counter wraps, and a gauge doesn't.
#[test]
fn a_gauge_stops_at_the_ends_of_its_range(rt: HostRuntime) {
    let on = collector(&rt, MetricKindMask::ALL);
    let open = gauge(&rt, &on, "open");
    open.set(i64::MAX);
    open.increment(&rt, 1);
    assert_eq!(rt; open.value(), i64::MAX);
    open.set(i64::MIN);
    open.decrement(&rt, 1);
    assert_eq!(rt; open.value(), i64::MIN);
    open.set(-1);
    open.increment(&rt, 5);
    assert_eq!(rt; gauge(&rt, &on, "open").value(), 4);
}

/// Whoever has the cell has the series: a clone that stays keeps it, and what it changes is shown.
#[test]
fn what_a_clone_changes_is_shown(rt: HostRuntime) {
    let on = collector(&rt, MetricKindMask::ALL);
    let kept = gauge(&rt, &on, "open").clone().expect(&rt, MEMORY);
    kept.set(1);
    expect_text(&rt, &on, 1, "# TYPE open gauge\nopen 1\n");
    expect_text(&rt, &on, 2 + TIMEOUT, "");
    kept.increment(&rt, 1);
    expect_text(&rt, &on, 3 + TIMEOUT, "# TYPE open gauge\nopen 2\n");
}

#[test]
fn a_histogram_tells_its_count_and_sum(rt: HostRuntime) {
    let on = collector(&rt, MetricKindMask::ALL);
    let took = histogram(&rt, &on, "ms");
    assert_eq!(rt; took.count(&rt), 0);
    let other = took.clone().expect(&rt, MEMORY);
    for sample in [7, -40, 30] {
        took.record(&rt, sample).expect(&rt, "the count fits");
        other.record(&rt, sample).expect(&rt, "the count fits");
    }
    assert_eq!(rt; took.count(&rt), 6);
    assert_eq!(rt; other.sum(&rt).expect(&rt, MEMORY), -6);
}

/// Records the samples 1 to 100.
fn record_all<R: Abort + Wait>(rt: &R, into: &HistogramHandle) {
    for sample in 1..101u8 {
        into.record(rt, i64::from(sample))
            .expect(rt, "the count fits");
    }
}

/// Of the samples 1 to 100: the nearest rank of p50 is 50, of p90 90, and so on. Bounds come in any order.
#[test]
fn a_histogram_tells_an_upper_bound_for_a_quantile(rt: HostRuntime) {
    let bounds = Bounds::new(rt.alloc(), &[90, 10, 49, 50, 90]).expect(&rt, MEMORY);
    let on = Collector::new(rt.alloc(), 1, MetricKindMask::ALL, None, bounds).expect(&rt, MEMORY);
    let took = histogram(&rt, &on, "ms");
    let half = Quantile::new(rt.alloc(), 500_000_000).expect(&rt, MEMORY);
    assert_eq!(rt; took.quantile_bound(&rt, &half).expect(&rt, MEMORY), None);
    record_all(&rt, &took);
    for (billionths, bound) in [
        (0, Some(10)),
        (100_000_000, Some(10)),
        (100_000_001, Some(49)),
        (490_000_000, Some(49)),
        (500_000_000, Some(50)),
        (500_000_001, Some(90)),
        (900_000_000, Some(90)),
        (900_000_001, None),
        (1_000_000_000, None),
    ] {
        let quantile = Quantile::new(rt.alloc(), billionths).expect(&rt, MEMORY);
        let found = took.quantile_bound(&rt, &quantile).expect(&rt, MEMORY);
        assert_eq!(rt; found, bound, "at {billionths}");
    }
}

#[test]
fn a_handle_of_no_collector_counts_apart(rt: HostRuntime) {
    let on = collector(&rt, MetricKindMask::ALL);
    let hits = CounterHandle::noop(rt.alloc()).expect(&rt, MEMORY);
    let open = GaugeHandle::noop(rt.alloc()).expect(&rt, MEMORY);
    let took = HistogramHandle::noop(rt.alloc()).expect(&rt, MEMORY);
    hits.increment(2);
    open.set(-2);
    took.record(&rt, 2).expect(&rt, "the count fits");
    expect_text(&rt, &on, 1, "");
    let other = CounterHandle::noop(rt.alloc()).expect(&rt, MEMORY);
    assert_eq!(rt; other.value(), 0);
}
