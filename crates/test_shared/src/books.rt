//! What the tests share: books, names, and what the first series of a book has.

use metrics::{Address, DebugValue, Key, KeyName, MetricKind, Recorder, Reset, Row, Update};
use metrics_debugging::DebuggingRecorder;
use metrics_shared::Shared;
use std::alloc::Global;
use std::fmt::Debug;
use std::process::Abort;
use std::sync::Wait;

/// The first series of the first book.
pub const AT: Address = Address { book: 0, series: 0 };

/// Returns a new book.
pub fn new_book(rt: &impl Abort, alloc: Global) -> DebuggingRecorder {
    DebuggingRecorder::new(alloc).expect(rt, "out of memory")
}

/// Returns the key of a name without labels.
pub fn key(rt: &impl Abort, alloc: Global, name: &str) -> Key {
    Key::from_name(alloc, name).expect(rt, "out of memory")
}

/// A name, and its key without labels.
#[derive(Drop)]
pub struct Named {
    pub name: KeyName,
    pub key: Key,
}

/// Returns a name and its key.
pub fn name_and_key(rt: &impl Abort, alloc: Global, name: &str) -> Named {
    Named {
        name: KeyName::new(alloc, name).expect(rt, "out of memory"),
        key: key(rt, alloc, name),
    }
}

/// Returns the count of the first series, if it is a counter.
pub fn count_of(rows: &[Row]) -> Option<u64> {
    match rows.first() {
        Some((_, _, _, DebugValue::Counter(n))) => Some(*n),
        _ => None,
    }
}

/// Checks that the first series of a shared book is a counter of this count.
pub fn expect_counted<R: Abort + Wait, B: Recorder>(
    rt: &R,
    alloc: Global,
    on: &Shared<B>,
    count: u64,
) {
    let rows = on.snapshot(rt, alloc, 0).expect(rt, "out of memory");
    assert_eq!(rt; count_of(rows.as_slice()), Some(count));
}

/// Checks that each of some threads did what it was to do.
pub fn expect_all_done<E: Debug>(rt: &impl Abort, done: Result<Vec<bool>, E>) {
    for is_done in done.expect(rt, "out of memory") {
        assert!(rt; is_done);
    }
}

/// Returns whether the only series is a gauge of this value.
pub fn is_gauge(rows: &[Row], value: i64) -> bool {
    match rows.first() {
        Some((_, _, _, DebugValue::Gauge(found))) => rows.len() == 1 && *found == value,
        _ => false,
    }
}

/// Adds a first series to a recorder of one book, a gauge of this value.
pub fn with_gauge<B: Recorder>(rt: &impl Abort, alloc: Global, mut on: B, value: i64) -> B {
    let key = key(rt, alloc, "g");
    let found = on.register(alloc, MetricKind::Gauge, &key);
    assert_eq!(rt;
        found.expect(rt, "out of memory").as_slice(),
        [AT].as_slice()
    );
    assert_eq!(rt; on.update(AT, Update::Set(value)), Ok(()));
    on
}

/// Checks that a recorder of one book has a gauge of this value alone.
pub fn expect_gauge<B: Recorder>(rt: &impl Abort, alloc: Global, on: &mut B, value: i64) {
    let rows = on.snapshot_with(alloc, 0, Reset::KeepGauges);
    assert!(rt; is_gauge(rows.expect(rt, "out of memory").as_slice(), value));
}
