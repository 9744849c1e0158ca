//! Exporters that tests write and read.

use metrics::{Error, Key, MetricKind, MetricKindMask, Unit, Update};
use metrics_exporter::{Bounds, Exporter};
use metrics_prometheus::exposition;
use std::alloc::{AllocError, Global};
use std::process::Abort;
use tool_state::{StateError, read_state, write_state};

/// The message of an end out of memory.
pub const MEMORY: &str = "out of memory";

/// What tests ask of an exporter.
pub trait States: Drop {
    fn update(&mut self, key: &Key, by: Update) -> Result<(), Error>;

    /// Updates in the unit that the name has now.
    fn measure(&mut self, key: &Key, by: Update) -> Result<(), Error>;

    fn describe(&mut self, name: &str, unit: Option<Unit>, text: &str) -> Result<(), Error>;

    /// Describes the histograms of a name.
    fn describe_samples(&mut self, name: &str, unit: Unit) -> Result<(), Error>;

    fn exposition(&self, alloc: Global) -> Result<String, Error>;

    fn write(&self, alloc: Global, title: &str) -> Result<String, StateError>;

    fn read(&mut self, alloc: Global, title: &str, bytes: &[u8]) -> Result<(), StateError>;
}

impl States for Exporter {
    fn update(&mut self, key: &Key, by: Update) -> Result<(), Error> {
        Exporter::update(self, key, by)
    }

    fn measure(&mut self, key: &Key, by: Update) -> Result<(), Error> {
        Exporter::update_described(self, key, by)
    }

    fn describe(&mut self, name: &str, unit: Option<Unit>, text: &str) -> Result<(), Error> {
        Exporter::describe(self, MetricKind::Counter, name, unit, text)
    }

    fn describe_samples(&mut self, name: &str, unit: Unit) -> Result<(), Error> {
        Exporter::describe(self, MetricKind::Histogram, name, Some(unit), "Samples.")
    }

    fn exposition(&self, alloc: Global) -> Result<String, Error> {
        exposition(self, alloc)
    }

    fn write(&self, alloc: Global, title: &str) -> Result<String, StateError> {
        write_state(alloc, self, title)
    }

    fn read(&mut self, alloc: Global, title: &str, bytes: &[u8]) -> Result<(), StateError> {
        read_state(alloc, self, title, bytes)
    }
}

/// An exporter of one shard that removes nothing.
pub fn new_exporter(rt: &impl Abort, alloc: Global, bounds: &[i64]) -> Exporter {
    Exporter::new(alloc, 1, MetricKindMask::NONE, None, bounds).expect(rt, MEMORY)
}

/// An exporter that removes nothing, with bounds of its own for bytes and for seconds.
pub fn new_exporter_by_unit(rt: &impl Abort, alloc: Global) -> Exporter {
    let mut bounds = Bounds::new(alloc, &[10, 25]).expect(rt, MEMORY);
    for (unit, own) in [
        (Unit::Bytes, [1024, 4096].as_slice()),
        (Unit::Seconds, &[1, 60, 3600]),
    ] {
        bounds.set_unit(alloc, unit, own).expect(rt, MEMORY);
    }
    Exporter::with_bounds(alloc, 1, MetricKindMask::NONE, None, bounds).expect(rt, MEMORY)
}

/// Makes an update.
pub fn update<E: States>(
    rt: &impl Abort,
    alloc: Global,
    on: &mut E,
    (name, labels, by): (&str, &[(&str, &str)], Update),
) {
    let key = Key::from_labels(alloc, name, labels).expect(rt, MEMORY);
    on.update(&key, by).expect(rt, MEMORY);
}

/// Adds samples to a histogram, which is made in the unit that its name has now.
pub fn measure<E: States>(
    rt: &impl Abort,
    alloc: Global,
    on: &mut E,
    (name, samples): (&str, &[i64]),
) {
    let key = Key::from_name(alloc, name).expect(rt, MEMORY);
    for sample in samples {
        on.measure(&key, Update::Record(*sample)).expect(rt, MEMORY);
    }
}

/// The state of an exporter.
fn state_of<E: States>(rt: &impl Abort, alloc: Global, on: &E) -> String {
    on.write(alloc, "test 1").expect(rt, MEMORY)
}

/// Compares the state of an exporter.
pub fn expect_state<E: States>(rt: &impl Abort, alloc: Global, on: &E, wanted: &str) {
    let state = state_of(rt, alloc, on);
    assert!(rt; state.as_str() == wanted, "{state}");
}

/// Whether an exporter that reads the other one's state shows the same.
pub fn is_read_back<E: States>(rt: &impl Abort, alloc: Global, old: &E, new: &mut E) -> bool {
    let state = state_of(rt, alloc, old);
    new.read(alloc, "test 1", state.as_bytes())
        .expect(rt, MEMORY);
    let before = old.exposition(alloc).expect(rt, MEMORY);
    let after = new.exposition(alloc).expect(rt, MEMORY);
    before == after
}

/// Ends the test if memory was refused.
fn end_if_refused(rt: &impl Abort, is_refused: bool) {
    let found = if is_refused { Err(AllocError) } else { Ok(()) };
    found.expect(rt, MEMORY);
}

/// What an exporter answers to a state.
pub fn answer_to<E: States>(
    rt: &impl Abort,
    alloc: Global,
    on: &mut E,
    bytes: &[u8],
) -> Result<(), StateError> {
    let answer = on.read(alloc, "test 1", bytes);
    end_if_refused(rt, answer == Err(StateError::Memory));
    answer
}

/// Why the state of an exporter can't be written, if it can't.
pub fn refusal_of<E: States>(rt: &impl Abort, alloc: Global, on: &E) -> Option<StateError> {
    let refusal = on.write(alloc, "test 1").err();
    end_if_refused(rt, refusal == Some(StateError::Memory));
    refusal
}
