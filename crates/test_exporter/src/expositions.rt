//! Whole texts of series whose names and values no line of the program can spell.

use crate::given::{Exports, Given, MEMORY, expect_shown, expect_text, exporter_of, fill, key};
use metrics::{CompositeKey, DebugValue, MetricKind, SharedText, Snapshot, Unit, Update};
use std::alloc::Global;
use std::process::Abort;

const SERIES: [Given; 4] = [
    ("temp", &[], Update::Set(-3)),
    (
        "lat\nency",
        &[("zone", "e u"), ("tier", "")],
        Update::Record(12),
    ),
    (
        "lat\nency",
        &[("zone", "e u"), ("tier", "")],
        Update::Record(30),
    ),
    (
        "all hits",
        &[("the\npath", "a\"b\\c\nd"), ("host", "é")],
        Update::Increment(2),
    ),
];

const EXPOSITION: &str = "# TYPE all_hits counter\n\
    all_hits{host=\"é\",the_path=\"a\\\"b\\\\c\\nd\"} 2\n\
    # TYPE lat_ency histogram\n\
    lat_ency_bucket{zone=\"e u\",le=\"10\"} 0\n\
    lat_ency_bucket{zone=\"e u\",le=\"25\"} 1\n\
    lat_ency_bucket{zone=\"e u\",le=\"+Inf\"} 2\n\
    lat_ency_sum{zone=\"e u\"} 42\n\
    lat_ency_count{zone=\"e u\"} 2\n\
    # TYPE temp gauge\n\
    temp -3\n";

const TEXT: &str = "counter all hits the\npath=a\"b\\c\nd host=é value 2\n\
    gauge temp value -3\n\
    histogram lat\nency zone=e u tier= count 2 sum 42 le 10 0 le 25 1\n";

fn expect_escaped<E: Exports>(rt: &impl Abort, alloc: Global, mut exporter: E) {
    fill(rt, alloc, &mut exporter, &SERIES);
    expect_shown(rt, alloc, &exporter, EXPOSITION);
    expect_text(rt, &exporter, TEXT);
}

#[test]
fn line_feeds_are_escaped_in_an_exposition_alone(rt: HostRuntime) {
    expect_escaped(&rt, rt.alloc(), exporter_of(&rt, rt.alloc(), &[10, 25]));
}

const BESIDE: [Given; 2] = [
    ("a.b", &[], Update::Increment(1)),
    ("a_b", &[("k", "v")], Update::Increment(2)),
];

const DESCRIBED: &str =
    "# HELP a_b one\\\\two\\nthree \"four\"\n# TYPE a_b counter\na_b 1\na_b{k=\"v\"} 2\n";

fn expect_described<E: Exports>(rt: &impl Abort, alloc: Global, mut exporter: E) {
    for (name, text) in [("a.b", "one\\two\nthree \"four\""), ("a_b", "hidden")] {
        let answer = exporter.describe(MetricKind::Counter, name, text);
        answer.expect(rt, MEMORY);
    }
    fill(rt, alloc, &mut exporter, &BESIDE);
    expect_shown(rt, alloc, &exporter, DESCRIBED);
}

/// The first written of two names that are shown as one provides the description.
#[test]
fn a_description_is_shown_before_its_kind(rt: HostRuntime) {
    expect_described(&rt, rt.alloc(), exporter_of(&rt, rt.alloc(), &[10]));
}

/// A row of a counter of 2, with a unit and a text.
fn described_row(rt: &impl Abort, alloc: Global) -> Snapshot {
    let hits = CompositeKey::new(MetricKind::Counter, key(rt, alloc, "hits", &[]));
    let text = SharedText::new(alloc, "all hits").expect(rt, MEMORY);
    let row = (hits, Some(Unit::Count), Some(text), DebugValue::Counter(2));
    Snapshot::from(Vec::from_array(alloc, [row]).expect(rt, MEMORY))
}

fn expect_absorbed<E: Exports>(rt: &impl Abort, alloc: Global, mut exporter: E) {
    exporter
        .absorb(&described_row(rt, alloc))
        .expect(rt, MEMORY);
    let unit = exporter.unit(MetricKind::Counter, "hits");
    assert_eq!(rt; unit, Some(Unit::Count));
    expect_shown(
        rt,
        alloc,
        &exporter,
        "# HELP hits all hits\n# TYPE hits counter\nhits 2\n",
    );
}

#[test]
fn an_absorbed_row_tells_its_description(rt: HostRuntime) {
    expect_absorbed(&rt, rt.alloc(), exporter_of(&rt, rt.alloc(), &[10]));
}
