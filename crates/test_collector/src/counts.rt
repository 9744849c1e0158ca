//! A counter's cell and its watches.

use crate::given::{MEMORY, key};
use metrics::Key;
use metrics_counts::{CountCell, CountNotes, Watch};
use std::process::Abort;
use std::sync::Arc;

fn cell<R: AllocGlobal + Abort>(rt: &R) -> Arc<CountCell<Key>> {
    let cell = CountCell::new(&key(rt, "hits"));
    Arc::new(rt.alloc(), cell).expect(rt, MEMORY)
}

fn watch<R: Abort>(rt: &R, cell: &Arc<CountCell<Key>>) -> Watch<Key> {
    Watch::new(cell.clone().expect(rt, MEMORY))
}

#[test]
fn watches_see_what_others_add(rt: HostRuntime) {
    let cell = cell(&rt);
    let mut first = watch(&rt, &cell);
    let mut second = watch(&rt, &cell);
    assert!(rt; first.increment(5) == 0);
    assert!(rt; second.read() == 5);
    cell.increment(3);
    assert!(rt; first.read() == 8);
    assert!(rt; second.absolute(10) == 8);
    assert!(rt; second.absolute(4) == 10);
    assert!(rt; first.read() == 10);
    cell.absolute(12);
    cell.absolute(11);
    assert!(rt; first.increment(1) == 12);
    assert!(rt; cell.value() == 13);
}

#[test]
fn a_count_begins_anew_after_the_greatest(rt: HostRuntime) {
    let cell = cell(&rt);
    let mut watch = watch(&rt, &cell);
    cell.absolute(u64::MAX);
    assert!(rt; watch.read() == u64::MAX);
    cell.increment(2);
    assert!(rt; watch.read() == 1);
    cell.absolute(3);
    assert!(rt; watch.read() == 3);
}

/// Looks at a counter, which never fails but for memory.
fn look<R: Abort>(
    rt: &R,
    notes: &mut CountNotes<Key>,
    of: &Key,
    cell: &Arc<CountCell<Key>>,
    now: u64,
) -> Option<u64> {
    notes.look(of, cell, now).expect(rt, MEMORY)
}

#[test]
fn a_noted_count_is_idle_after_the_timeout(rt: HostRuntime) {
    let of = key(&rt, "hits");
    let cell = cell(&rt);
    let mut notes = CountNotes::new(rt.alloc(), Some(10));
    cell.increment(5);
    assert!(rt; look(&rt, &mut notes, &of, &cell, 0) == Some(5));
    assert!(rt; look(&rt, &mut notes, &of, &cell, 10) == Some(5));
    assert!(rt; look(&rt, &mut notes, &of, &cell, 11).is_none());
    notes.show_again(&of);
    assert!(rt; look(&rt, &mut notes, &of, &cell, 11) == Some(5));
    assert!(rt; notes.take_late(&of, 21).is_none());
    cell.increment(2);
    assert!(rt; look(&rt, &mut notes, &of, &cell, 30) == Some(7));
    assert!(rt; notes.take_late(&of, 41) == Some(7));
    notes.forget(&of);
    assert!(rt; look(&rt, &mut notes, &of, &cell, 99) == Some(7));
}
