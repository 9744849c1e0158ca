//! Both namings, and the list of what is left out.

use crate::given::{Given, MEMORY, fill};
use metrics::{MetricKind, MetricKindMask, Unit, Update};
use metrics_exporter::Exporter;
use metrics_prometheus::{Naming, exposition_named, left_out};
use std::alloc::Global;
use std::process::Abort;

/// A kind, a name, its unit, and a text.
type About = (MetricKind, &'static str, Unit, &'static str);

const ABOUT: [About; 7] = [
    (
        MetricKind::Counter,
        "busy_total",
        Unit::Microseconds,
        "time at work",
    ),
    (
        MetricKind::Counter,
        "sent_bytes_total",
        Unit::Bytes,
        "what was sent",
    ),
    (
        MetricKind::Gauge,
        "drift",
        Unit::Nanoseconds,
        "of the clock",
    ),
    (MetricKind::Gauge, "full", Unit::Percent, "of the disk"),
    (MetricKind::Gauge, "jobs", Unit::Count, "at work"),
    (
        MetricKind::Gauge,
        "up_seconds",
        Unit::Seconds,
        "since the start",
    ),
    (
        MetricKind::Histogram,
        "lat",
        Unit::Milliseconds,
        "time to the answer",
    ),
];

const SERIES: [Given; 11] = [
    ("busy_total", &[], Update::Increment(1_250_000)),
    ("drift", &[], Update::Set(-250)),
    ("full", &[], Update::Set(-7)),
    ("full", &[("disk", "a")], Update::Set(105)),
    ("hits", &[], Update::Increment(3)),
    ("jobs", &[], Update::Set(4)),
    ("lat", &[], Update::Record(4)),
    ("lat", &[], Update::Record(-1254)),
    ("sent_bytes_total", &[], Update::Increment(9)),
    ("temp", &[], Update::Set(-3)),
    ("up_seconds", &[], Update::Set(60)),
];

/// The lines of the text: as they are given, and with recommended names and base units.
const LINES: [(&str, &str); 31] = [
    (
        "# HELP busy_total time at work",
        "# HELP busy_seconds_total time at work",
    ),
    (
        "# TYPE busy_total counter",
        "# TYPE busy_seconds_total counter",
    ),
    ("busy_total 1250000", "busy_seconds_total 1.25"),
    (
        "# HELP drift of the clock",
        "# HELP drift_seconds of the clock",
    ),
    ("# TYPE drift gauge", "# TYPE drift_seconds gauge"),
    ("drift -250", "drift_seconds -0.00000025"),
    ("# HELP full of the disk", "# HELP full_ratio of the disk"),
    ("# TYPE full gauge", "# TYPE full_ratio gauge"),
    ("full -7", "full_ratio -0.07"),
    ("full{disk=\"a\"} 105", "full_ratio{disk=\"a\"} 1.05"),
    ("# TYPE hits counter", "# TYPE hits_total counter"),
    ("hits 3", "hits_total 3"),
    ("# HELP jobs at work", "# HELP jobs at work"),
    ("# TYPE jobs gauge", "# TYPE jobs gauge"),
    ("jobs 4", "jobs 4"),
    (
        "# HELP lat time to the answer",
        "# HELP lat_seconds time to the answer",
    ),
    ("# TYPE lat histogram", "# TYPE lat_seconds histogram"),
    (
        "lat_bucket{le=\"-250\"} 1",
        "lat_seconds_bucket{le=\"-0.25\"} 1",
    ),
    (
        "lat_bucket{le=\"5\"} 2",
        "lat_seconds_bucket{le=\"0.005\"} 2",
    ),
    (
        "lat_bucket{le=\"5000\"} 2",
        "lat_seconds_bucket{le=\"5\"} 2",
    ),
    (
        "lat_bucket{le=\"+Inf\"} 2",
        "lat_seconds_bucket{le=\"+Inf\"} 2",
    ),
    ("lat_sum -1250", "lat_seconds_sum -1.25"),
    ("lat_count 2", "lat_seconds_count 2"),
    (
        "# HELP sent_bytes_total what was sent",
        "# HELP sent_bytes_total what was sent",
    ),
    (
        "# TYPE sent_bytes_total counter",
        "# TYPE sent_bytes_total counter",
    ),
    ("sent_bytes_total 9", "sent_bytes_total 9"),
    ("# TYPE temp gauge", "# TYPE temp gauge"),
    ("temp -3", "temp -3"),
    (
        "# HELP up_seconds since the start",
        "# HELP up_seconds since the start",
    ),
    ("# TYPE up_seconds gauge", "# TYPE up_seconds gauge"),
    ("up_seconds 60", "up_seconds 60"),
];

fn text_of(rt: &impl Abort, alloc: Global, is_recommended: bool) -> String {
    let mut text = String::new(alloc);
    for (given, recommended) in LINES {
        let line = if is_recommended { recommended } else { given };
        text.push_str(line).expect(rt, MEMORY);
        text.push('\n').expect(rt, MEMORY);
    }
    text
}

fn describe(rt: &impl Abort, exporter: &mut Exporter, about: &[About]) {
    for (kind, name, unit, text) in about {
        exporter
            .describe(*kind, name, Some(*unit), text)
            .expect(rt, MEMORY);
    }
}

fn filled(rt: &impl Abort, alloc: Global, about: &[About], updates: &[Given]) -> Exporter {
    let bounds = [5000, -250, 5, 5];
    let mut exporter = Exporter::new(alloc, 2, MetricKindMask::NONE, None, &bounds).expect(
        rt, MEMORY,
    );
    describe(rt, &mut exporter, about);
    fill(rt, alloc, &mut exporter, updates);
    exporter
}

#[test]
fn numbers_are_shown_as_they_are_given(rt: HostRuntime) {
    let exporter = filled(&rt, rt.alloc(), &ABOUT, &SERIES);
    let shown = exposition_named(&exporter, rt.alloc(), Naming::default()).expect(&rt, MEMORY);
    assert_eq!(rt; shown.as_str(), text_of(&rt, rt.alloc(), false).as_str());
}

#[test]
fn recommended_names_and_base_units_are_shown(rt: HostRuntime) {
    let exporter = filled(&rt, rt.alloc(), &ABOUT, &SERIES);
    let shown = exposition_named(&exporter, rt.alloc(), Naming::Recommended).expect(&rt, MEMORY);
    assert_eq!(rt; shown.as_str(), text_of(&rt, rt.alloc(), true).as_str());
}

/// Names that are shown as one, labels that keep a series from the text, and one that doesn't.
const UNFIT: [Given; 5] = [
    ("a b", &[], Update::Increment(1)),
    ("a_b_total", &[], Update::Increment(2)),
    ("line\nfeed\r", &[("__name__", "x")], Update::Set(1)),
    ("whole", &[("le", "1")], Update::Record(1)),
    ("shown", &[("what", "# left out: x")], Update::Set(1)),
];

fn is_list(found: &[&str], wanted: &[&str]) -> bool {
    found == wanted
}

#[test]
fn what_is_left_out_is_listed(rt: HostRuntime) {
    let exporter = filled(&rt, rt.alloc(), &[], &UNFIT);
    let shown = exposition_named(&exporter, rt.alloc(), Naming::Recommended).expect(&rt, MEMORY);
    let lines = left_out(rt.alloc(), &shown).expect(&rt, MEMORY);
    assert!(rt;
        is_list(
            &lines,
            &[
                "counter a_b_total: labels equal those of a b",
                "gauge line\\nfeed\r{__name__=\"x\"}: label __name__",
                "histogram whole{le=\"1\"}: label le",
            ]
        )
    );
    let none = left_out(rt.alloc(), "# HELP left out: x\n").expect(&rt, MEMORY);
    assert!(rt; none.is_empty());
}
