//! A handle that names what a recorder under a lock doesn't hold.

use crate::books::{expect_counted, key, new_book};
use metrics::{Address, Counter, MetricKind, Recorder, Refused};
use metrics_shared::Shared;
use std::alloc::Global;
use std::process::Abort;
use std::sync::Wait;

/// The counter of the only book, and the same place of a second one.
const BAD: [Address; 2] = [
    Address { book: 0, series: 0 },
    Address { book: 1, series: 0 },
];

fn expect_bad<R: Abort + Wait, B: Recorder>(rt: &R, alloc: Global, on: &Shared<B>) {
    let key = key(rt, alloc, "a");
    let found = on.register(rt, alloc, MetricKind::Counter, &key);
    let _found = found.expect(rt, "out of memory");
    let bad = Counter::from(Vec::from_array(alloc, BAD).expect(rt, "out of memory"));
    let answer = on.with(rt, |book| bad.increment(book, 1));
    assert_eq!(rt; answer, Err(Refused::NoSuchAddress));
    expect_counted(rt, alloc, on, 0);
}

#[test]
fn a_bad_handle_changes_nothing_under_a_lock(rt: HostRuntime) {
    let alloc = rt.alloc();
    expect_bad(&rt, alloc, &Shared::new(new_book(&rt, alloc)));
}
