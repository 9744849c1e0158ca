//! Updates that tests make, and what they ask of an exporter.

use metrics::{Error, Key, MetricKind, MetricKindMask, Snapshot, Unit, Update};
use metrics_exporter::{Exporter, PartlyAbsorbed};
use metrics_prometheus::exposition;
use std::alloc::Global;
use std::process::Abort;

/// A name, labels, and an update.
pub type Given = (
    &'static str,
    &'static [(&'static str, &'static str)],
    Update,
);

/// The message of an end out of memory.
pub const MEMORY: &str = "out of memory";

/// What tests ask of an exporter. Helpers over any of these don't read an exporter's contracts, so they are proved fast.
pub trait Exports: Drop {
    fn update(&mut self, key: &Key, by: Update) -> Result<(), Error>;

    fn update_described(&mut self, key: &Key, by: Update) -> Result<(), Error>;

    fn describe(&mut self, kind: MetricKind, name: &str, text: &str) -> Result<(), Error>;

    fn describe_histogram(&mut self, name: &str, unit: Unit) -> Result<(), Error>;

    fn absorb(&mut self, rows: &Snapshot) -> Result<(), PartlyAbsorbed>;

    fn absorb_from(&mut self, rows: &Snapshot, part: PartlyAbsorbed) -> Result<(), PartlyAbsorbed>;

    fn expire(&mut self, now: u64) -> Result<usize, Error>;

    fn len(&self) -> usize;

    fn unit(&self, kind: MetricKind, name: &str) -> Option<Unit>;

    fn text(&self) -> Result<String, Error>;

    fn exposition(&self, alloc: Global) -> Result<String, Error>;
}

impl Exports for Exporter {
    fn update(&mut self, key: &Key, by: Update) -> Result<(), Error> {
        Exporter::update(self, key, by)
    }

    fn update_described(&mut self, key: &Key, by: Update) -> Result<(), Error> {
        Exporter::update_described(self, key, by)
    }

    fn describe(&mut self, kind: MetricKind, name: &str, text: &str) -> Result<(), Error> {
        Exporter::describe(self, kind, name, None, text)
    }

    fn describe_histogram(&mut self, name: &str, unit: Unit) -> Result<(), Error> {
        Exporter::describe(self, MetricKind::Histogram, name, Some(unit), "")
    }

    fn absorb(&mut self, rows: &Snapshot) -> Result<(), PartlyAbsorbed> {
        Exporter::absorb(self, rows)
    }

    fn absorb_from(&mut self, rows: &Snapshot, part: PartlyAbsorbed) -> Result<(), PartlyAbsorbed> {
        Exporter::absorb_from(self, rows, part)
    }

    fn expire(&mut self, now: u64) -> Result<usize, Error> {
        Exporter::expire(self, now)
    }

    fn len(&self) -> usize {
        Exporter::len(self)
    }

    fn unit(&self, kind: MetricKind, name: &str) -> Option<Unit> {
        match self.descriptions().get(kind, name) {
            Some(described) => described.unit(),
            None => None,
        }
    }

    fn text(&self) -> Result<String, Error> {
        Exporter::text(self)
    }

    fn exposition(&self, alloc: Global) -> Result<String, Error> {
        exposition(self, alloc)
    }
}

/// Returns an exporter that removes nothing.
pub fn exporter_of(rt: &impl Abort, alloc: Global, bounds: &[i64]) -> Exporter {
    Exporter::new(alloc, 2, MetricKindMask::NONE, None, bounds).expect(rt, MEMORY)
}

/// Returns a key of a name and labels.
pub fn key(rt: &impl Abort, alloc: Global, name: &str, labels: &[(&str, &str)]) -> Key {
    Key::from_labels(alloc, name, labels).expect(rt, MEMORY)
}

/// Makes the updates in order.
pub fn fill<E: Exports>(rt: &impl Abort, alloc: Global, exporter: &mut E, updates: &[Given]) {
    for (name, labels, by) in updates {
        let key = key(rt, alloc, name, labels);
        exporter.update(&key, *by).expect(rt, MEMORY);
    }
}

/// Compares the lines of the series that are held.
pub fn expect_text<E: Exports>(rt: &impl Abort, exporter: &E, wanted: &str) {
    let text = exporter.text().expect(rt, MEMORY);
    assert_eq!(rt; text.as_str(), wanted);
}

/// Compares the exposition.
pub fn expect_shown<E: Exports>(rt: &impl Abort, alloc: Global, exporter: &E, wanted: &str) {
    let shown = exporter.exposition(alloc).expect(rt, MEMORY);
    assert_eq!(rt; shown.as_str(), wanted);
}
