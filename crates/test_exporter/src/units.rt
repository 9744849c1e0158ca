//! Histograms that count at bounds by the units of their names.

use crate::given::{Exports, MEMORY, expect_text, key};
use metrics::{MetricKindMask, Unit, Update};
use metrics_exporter::{Bounds, Exporter};
use std::alloc::Global;
use std::process::Abort;

/// Names, each with the unit that it is described in.
const NAMES: [(&str, Option<Unit>); 6] = [
    ("plain", None),
    ("percent", Some(Unit::Percent)),
    ("size", Some(Unit::Bytes)),
    ("time", Some(Unit::Seconds)),
    ("api.size", Some(Unit::Bytes)),
    ("api.exact", Some(Unit::Seconds)),
];

const LINES: &str = "histogram api.exact count 1 sum 0 le 5 1
histogram api.size count 1 sum 0 le 4 1
histogram percent count 1 sum 0 le 1 1
histogram plain count 1 sum 0 le 1 1
histogram size count 1 sum 0 le 2 1
histogram time count 1 sum 0 le 3 1
";

/// Those of the first two samples of a name.
const HELD: &str = "histogram size count 2 sum 0 le 2 2
";

/// That of a name that was removed and described in another unit.
const AGAIN: &str = "histogram size count 1 sum 0 le 3 1
";

/// Returns the default bounds 1, those of two units, of a prefix, and of one name.
fn bounds_of(rt: &impl Abort, alloc: Global) -> Bounds {
    let mut bounds = Bounds::new(alloc, &[1]).expect(rt, MEMORY);
    let units = [(Unit::Bytes, 9), (Unit::Seconds, 3), (Unit::Bytes, 2)];
    for (unit, bound) in units {
        bounds.set_unit(alloc, unit, &[bound]).expect(rt, MEMORY);
    }
    bounds.set(alloc, "api.", &[4]).expect(rt, MEMORY);
    bounds
        .set_exact(alloc, "api.exact", &[5])
        .expect(rt, MEMORY);
    bounds
}

/// Returns an exporter that removes a histogram once it is idle for longer than 5.
fn exporter_of(rt: &impl Abort, alloc: Global) -> Exporter {
    let bounds = bounds_of(rt, alloc);
    Exporter::with_bounds(alloc, 2, MetricKindMask::HISTOGRAM, Some(5), bounds).expect(rt, MEMORY)
}

fn describe<E: Exports>(rt: &impl Abort, exporter: &mut E, name: &str, unit: Option<Unit>) {
    if let Some(unit) = unit {
        exporter.describe_histogram(name, unit).expect(rt, MEMORY);
    }
}

fn record<E: Exports>(rt: &impl Abort, alloc: Global, exporter: &mut E, name: &str) {
    let key = key(rt, alloc, name, &[]);
    exporter
        .update_described(&key, Update::Record(0))
        .expect(rt, MEMORY);
}

fn expect_lines<E: Exports>(rt: &impl Abort, alloc: Global, mut exporter: E) {
    for (name, unit) in NAMES {
        describe(rt, &mut exporter, name, unit);
        record(rt, alloc, &mut exporter, name);
    }
    expect_text(rt, &exporter, LINES);
}

fn expect_kept<E: Exports>(rt: &impl Abort, alloc: Global, mut exporter: E) {
    describe(rt, &mut exporter, "size", Some(Unit::Bytes));
    record(rt, alloc, &mut exporter, "size");
    describe(rt, &mut exporter, "size", Some(Unit::Seconds));
    record(rt, alloc, &mut exporter, "size");
    exporter.expire(10).expect(rt, MEMORY);
    expect_text(rt, &exporter, HELD);
    exporter.expire(16).expect(rt, MEMORY);
    record(rt, alloc, &mut exporter, "size");
    expect_text(rt, &exporter, AGAIN);
}

#[test]
fn histograms_have_the_bounds_of_names_and_of_units(rt: HostRuntime) {
    let alloc = rt.alloc();
    expect_lines(&rt, alloc, exporter_of(&rt, alloc));
}

#[test]
fn a_histogram_keeps_the_bounds_that_it_was_made_at(rt: HostRuntime) {
    let alloc = rt.alloc();
    expect_kept(&rt, alloc, exporter_of(&rt, alloc));
}
