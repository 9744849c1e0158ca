//! What several collectors gathered, together.

use crate::given::{MEMORY, collector, count, record, update_each};
use crate::series::sums_of;
use metrics::MetricKindMask;
use metrics_collector::{AbsorbError, Bounds, Collector, Gathered};
use std::process::Abort;
use std::sync::Wait;

/// Reads a collector.
fn gather<R: AllocGlobal + Abort + Wait>(rt: &R, on: &Collector) -> Gathered {
    on.gather(rt, rt.alloc(), 10).expect(rt, MEMORY)
}

/// A collector with series of each kind, by one number.
fn filled<R: AllocGlobal + Abort + Wait>(rt: &R, number: u64) -> Collector {
    let on = collector(rt, MetricKindMask::ALL);
    let level = number.cast_signed();
    update_each(rt, &on, ["hits", "open", "took"], (number, level, level));
    on
}

/// Adds what one collector has to what another has, and writes it.
fn text_of_both<R: AllocGlobal + Abort + Wait>(
    rt: &R,
    on: &Collector,
    other: &Collector,
) -> String {
    let mut gathered = gather(rt, on);
    let absorbed = gathered.absorb(rt.alloc(), &gather(rt, other));
    absorbed.expect(rt, MEMORY);
    let text = on.text_of(rt, rt.alloc(), &gathered);
    text.expect(rt, MEMORY)
}

const BOTH: &str = "# TYPE hits counter\nhits 7\n# TYPE open gauge\nopen 5\n\
    # TYPE own counter\nown 3\n# TYPE took histogram\n\
    took_bucket{le=\"10\"} 2\ntook_bucket{le=\"+Inf\"} 2\ntook_sum 7\ntook_count 2\n";

/// Compares the text of both.
fn expect_both<R: AllocGlobal + Abort + Wait>(rt: &R, on: &Collector, other: &Collector) {
    let text = text_of_both(rt, on, other);
    assert_eq!(rt; text.as_str(), BOTH);
}

/// Counts are sums, of a gauge the other's value stays, samples are merged, and what one of them has alone is there.
#[test]
fn two_collectors_together(rt: HostRuntime) {
    let (on, other) = (filled(&rt, 2), filled(&rt, 5));
    count(&rt, &on, "own", 3);
    expect_both(&rt, &on, &other);
}

#[test]
fn a_series_of_the_other_alone_is_added(rt: HostRuntime) {
    let (on, other) = (filled(&rt, 2), filled(&rt, 5));
    count(&rt, &other, "own", 3);
    expect_both(&rt, &on, &other);
}

/// A collector that counts these names, by one number.
fn counting<R: AllocGlobal + Abort + Wait>(rt: &R, names: [&str; 3], number: u64) -> Collector {
    let on = collector(rt, MetricKindMask::ALL);
    for name in names {
        count(rt, &on, name, number);
    }
    on
}

#[test]
fn counters_in_either_order_have_one_text(rt: HostRuntime) {
    let on = counting(&rt, ["a", "b", "c"], 3);
    let other = counting(&rt, ["d", "c", "a"], 4);
    let one = text_of_both(&rt, &on, &other);
    let turned = text_of_both(&rt, &other, &on);
    assert_eq!(&rt; one.as_str(), turned.as_str());
    let wanted =
        "# TYPE a counter\na 7\n# TYPE b counter\nb 3\n# TYPE c counter\nc 7\n# TYPE d counter\nd 4\n";
    assert_eq!(&rt; one.as_str(), wanted);
}

/// A collector whose histograms count at these bounds, with one sample.
fn at_bounds<R: AllocGlobal + Abort + Wait>(rt: &R, bounds: &[i64]) -> Collector {
    let bounds = Bounds::new(rt.alloc(), bounds).expect(rt, MEMORY);
    let made = Collector::new(rt.alloc(), 1, MetricKindMask::ALL, None, bounds);
    let on = made.expect(rt, MEMORY);
    count(rt, &on, "hits", 1);
    record(rt, &on, "took", 4);
    on
}

/// Nothing is added then, no counter either.
#[test]
fn other_bounds_are_an_error_that_changes_nothing(rt: HostRuntime) {
    let mut gathered = gather(&rt, &at_bounds(&rt, &[5, 10]));
    for bounds in [&[5][..], &[10, 5][..], &[5, 10, 20][..]] {
        let other = gather(&rt, &at_bounds(&rt, bounds));
        let absorbed = gathered.absorb(rt.alloc(), &other);
        if let Err(AbsorbError::Memory) = absorbed {
            panic!(&rt; "out of memory: Memory")
        }
        assert_eq!(&rt; absorbed, Err(AbsorbError::OtherBounds));
        assert_eq!(&rt; sums_of(&gathered), (1, 0, 1));
    }
}

/// It is the other's number, 2^64 - 1, that is added modulo 2^64.
#[test]
fn counts_are_added_modulo_two_to_the_64(rt: HostRuntime) {
    let (on, other) = (filled(&rt, 2), collector(&rt, MetricKindMask::ALL));
    count(&rt, &other, "hits", u64::MAX);
    let mut gathered = gather(&rt, &on);
    let absorbed = gathered.absorb(rt.alloc(), &gather(&rt, &other));
    absorbed.expect(&rt, MEMORY);
    assert_eq!(&rt; sums_of(&gathered), (1, 2, 1));
}
