//! Series that are computed at a scrape, a part of what was gathered, and the number of what is left out.

use crate::given::{MEMORY, collector, count, expect_text, key, labels, record, set};
use metrics::{MetricKind, MetricKindMask, Unit};
use metrics_collector::{Collector, Gathered, Naming, left_out};
use std::process::Abort;
use std::sync::Wait;

/// Reads a collector, and adds a counter and a gauge.
fn gather<R: AllocGlobal + Abort + Wait>(rt: &R, on: &Collector) -> Gathered {
    let mut gathered = on.gather(rt, rt.alloc(), 10).expect(rt, MEMORY);
    let pushed = gathered.push_counter(key(rt, "cpu"), 1500);
    assert!(rt; pushed.is_ok());
    let pushed = gathered.push_gauge(key(rt, "queue"), -2);
    assert!(rt; pushed.is_ok());
    gathered
}

/// A collector with a description, recommended names and a counter.
fn described<R: AllocGlobal + Abort + Wait>(rt: &R) -> Collector {
    let on = collector(rt, MetricKindMask::ALL).with_naming(Naming::Recommended);
    let unit = Some(Unit::Milliseconds);
    let described = on.describe(rt, rt.alloc(), MetricKind::Counter, "cpu", unit, "time");
    described.expect(rt, MEMORY);
    count(rt, &on, "hits", 3);
    on
}

fn expect_text_of<R: AllocGlobal + Abort + Wait>(
    rt: &R,
    on: &Collector,
    gathered: &Gathered,
    wanted: &str,
) {
    let text = on.text_of(rt, rt.alloc(), gathered).expect(rt, MEMORY);
    assert_eq!(rt; text.as_str(), wanted);
}

/// What is pushed is written with the collector's descriptions, units and names.
#[test]
fn pushed_series_are_in_the_text(rt: HostRuntime) {
    let on = described(&rt);
    let gathered = gather(&rt, &on);
    let wanted =
        "# HELP cpu_seconds_total time\n# TYPE cpu_seconds_total counter\ncpu_seconds_total 1.5\n\
        # TYPE hits_total counter\nhits_total 3\n# TYPE queue gauge\nqueue -2\n";
    expect_text_of(&rt, &on, &gathered, wanted);
}

/// It keeps what the closure says, by kind and by key.
#[test]
fn a_part_of_what_was_gathered(rt: HostRuntime) {
    let on = described(&rt);
    let mut gathered = gather(&rt, &on);
    gathered.retain(|row| row.kind() == MetricKind::Counter && row.key.name() != "cpu");
    expect_text_of(
        &rt,
        &on,
        &gathered,
        "# TYPE hits_total counter\nhits_total 3\n",
    );
}

const LEFT_OUT: &str = "# TYPE a counter\na 1\n# left out: gauge a: name taken by a counter\n\
    # left out: histogram a: name taken by a counter\n";

/// A name of three kinds: two series are left out.
fn clashing<R: AllocGlobal + Abort + Wait>(rt: &R, on: &Collector) {
    count(rt, on, "a", 1);
    set(rt, on, "a", 7);
    record(rt, on, "a", 9);
}

/// The number of series that a text leaves out is in it, also 0.
#[test]
fn what_is_left_out_is_counted(rt: HostRuntime) {
    let on = collector(&rt, MetricKindMask::ALL).with_left_out_gauge();
    let none = "# TYPE metrics_left_out_series gauge\nmetrics_left_out_series 0\n";
    expect_text(&rt, &on, 5, none);
    clashing(&rt, &on);
    let wanted = format!(in rt.alloc();
        "{LEFT_OUT}# TYPE metrics_left_out_series gauge\nmetrics_left_out_series 2\n"
    );
    expect_text(&rt, &on, 10, wanted.expect(&rt, MEMORY).as_str());
}

/// The gauge has the collector's labels. Without the call there is none.
#[test]
fn the_gauge_of_what_is_left_out_has_the_labels(rt: HostRuntime) {
    let on = collector(&rt, MetricKindMask::ALL);
    clashing(&rt, &on);
    expect_text(&rt, &on, 10, LEFT_OUT);
    let on = on.with_left_out_gauge().with_labels(labels(&rt)).ok();
    let gathered = Gathered {
        series: Vec::new(rt.alloc()),
    };
    let wanted =
        "# TYPE metrics_left_out_series gauge\nmetrics_left_out_series{host=\"h\",zone=\"e\"} 0\n";
    expect_text_of(&rt, &on.expect(&rt, "good labels"), &gathered, wanted);
}

/// `left_out` is at hand beside the collector.
#[test]
fn left_out_reads_a_text(rt: HostRuntime) {
    let lines = left_out(rt.alloc(), LEFT_OUT).expect(&rt, MEMORY);
    assert_eq!(&rt; lines.len(), 2);
}

/// A series that was gathered and is pushed again has a line, and is counted.
#[test]
fn a_series_that_comes_again_is_left_out(rt: HostRuntime) {
    let on = collector(&rt, MetricKindMask::ALL).with_left_out_gauge();
    count(&rt, &on, "hits", 1);
    let mut gathered = on.gather(&rt, rt.alloc(), 10).expect(&rt, MEMORY);
    let pushed = gathered.push_counter(key(&rt, "hits"), 2);
    assert!(&rt; pushed.is_ok());
    let wanted =
        "# TYPE hits counter\nhits 1\n# left out: counter hits: labels equal those of hits\n\
        # TYPE metrics_left_out_series gauge\nmetrics_left_out_series 1\n";
    expect_text_of(&rt, &on, &gathered, wanted);
}
