//! The snapshotter of a book.

use crate::given::{MEMORY, key};
use metrics::{MetricKind, Recorder, Reset};
use metrics_debugging::DebuggingRecorder;

/// Its snapshots have the book's series, however many there are.
#[test]
fn a_book_has_its_own_snapshotter(rt: HostRuntime) {
    let mut book = DebuggingRecorder::new(rt.alloc()).expect(&rt, MEMORY);
    for (name, count) in [("a", 1), ("b", 2)] {
        let key = key(&rt, rt.alloc(), name, &[]);
        let found = book.register(rt.alloc(), MetricKind::Counter, &key);
        found.expect(&rt, MEMORY);
        let snapshotter = book.snapshotter();
        let rows = snapshotter.snapshot_with(rt.alloc(), &mut book, Reset::All);
        assert_eq!(&rt; rows.expect(&rt, MEMORY).as_slice().len(), count);
    }
}
