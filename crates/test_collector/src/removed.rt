//! Series that a caller removes.

use crate::given::{
    MEMORY, collector, count, counter, expect_text, expect_texts, key, labels, record, set,
};
use metrics::{Key, Label, MetricKind, MetricKindMask};
use metrics_collector::{Bounds, Collector};
use std::process::Abort;
use std::rt::Clock;
use std::sync::Wait;
use std::thread::sleep;
use std::time::{Duration, Instant};

/// Removes the series `a` of each kind, and returns which of them were there.
fn remove_all<R: AllocGlobal + Abort + Wait>(rt: &R, on: &Collector) -> (bool, bool, bool) {
    let remove = |kind| on.remove(rt, kind, &key(rt, "a")).expect(rt, MEMORY);
    (
        remove(MetricKind::Counter),
        remove(MetricKind::Gauge),
        remove(MetricKind::Histogram),
    )
}

/// The series of that kind and key leaves, and no other.
#[test]
fn a_removed_series_leaves(rt: HostRuntime) {
    let on = collector(&rt, MetricKindMask::ALL);
    count(&rt, &on, "a", 1);
    set(&rt, &on, "a", 7);
    count(&rt, &on, "b", 2);
    assert_eq!(&rt; remove_all(&rt, &on), (true, true, false));
    assert_eq!(&rt; remove_all(&rt, &on), (false, false, false));
    record(&rt, &on, "a", 7);
    assert_eq!(&rt; remove_all(&rt, &on), (false, false, true));
    expect_text(&rt, &on, 10, "# TYPE b counter\nb 2\n");
}

/// A kept handle counts into nothing, and a new one begins at 0: it is shown at once, whatever was noted of the old series.
#[test]
fn a_handle_of_a_removed_series_counts_into_nothing(rt: HostRuntime) {
    let on = collector(&rt, MetricKindMask::ALL);
    let kept = counter(&rt, &on, "a");
    expect_texts(&rt, &on, &[(10, "# TYPE a counter\na 0\n"), (16, "")]);
    assert_eq!(&rt; remove_all(&rt, &on), (true, false, false));
    kept.increment(5);
    expect_text(&rt, &on, 17, "");
    let anew = counter(&rt, &on, "a");
    kept.increment(5);
    expect_text(&rt, &on, 18, "# TYPE a counter\na 0\n");
    anew.increment(1);
    expect_text(&rt, &on, 19, "# TYPE a counter\na 1\n");
}

/// The key is taken as it is when a handle is asked for: labels in any order, and the collector's beside them.
#[test]
fn a_series_is_removed_by_the_key_that_was_asked_for(rt: HostRuntime) {
    let made = collector(&rt, MetricKindMask::ALL).with_labels(labels(&rt));
    let on = made.ok().expect(&rt, "good labels");
    let one = Key::from_labels(rt.alloc(), "a", &[("x", "1"), ("y", "2")]).expect(&rt, MEMORY);
    let other = Key::from_labels(rt.alloc(), "a", &[("y", "2"), ("x", "1")]).expect(&rt, MEMORY);
    on.increment(&rt, &one, 1).expect(&rt, MEMORY);
    let removed = on.remove(&rt, MetricKind::Counter, &other);
    assert!(&rt; removed.expect(&rt, MEMORY));
    expect_text(&rt, &on, 10, "");
}

/// A moment by a duration is in whole seconds: the timeout is 5 of them.
#[test]
fn render_after_is_in_seconds(rt: HostRuntime) {
    let on = collector(&rt, MetricKindMask::ALL);
    count(&rt, &on, "a", 1);
    for (millis, wanted) in [
        (1900, "# TYPE a counter\na 1\n"),
        (6999, "# TYPE a counter\na 1\n"),
        (7000, ""),
    ] {
        let text = on.render_after(&rt, rt.alloc(), Duration::from_millis(millis));
        assert_eq!(&rt; text.expect(&rt, MEMORY).as_str(), wanted, "{millis}");
    }
}

/// Renders at a moment of the machine's clock, and compares the text.
fn expect_now<R: AllocGlobal + Abort + Clock + Wait>(
    rt: &R,
    on: &Collector,
    start: Instant,
    wanted: &str,
) {
    let since = start.elapsed(rt).expect(rt, "a clock");
    let text = on.render_after(rt, rt.alloc(), since).expect(rt, MEMORY);
    assert_eq!(rt; text.as_str(), wanted);
}

/// A series that is idle for more than a second goes.
#[test]
fn an_idle_series_goes_by_a_real_clock(rt: HostRuntime) {
    let bounds = Bounds::new(rt.alloc(), &[10]).expect(&rt, MEMORY);
    let made = Collector::new(rt.alloc(), 1, MetricKindMask::ALL, Some(1), bounds);
    let on = made.expect(&rt, MEMORY);
    let start = Instant::now(&rt).expect(&rt, "a clock");
    count(&rt, &on, "a", 1);
    expect_now(&rt, &on, start, "# TYPE a counter\na 1\n");
    sleep(&rt, Duration::from_millis(2100));
    expect_now(&rt, &on, start, "");
}
