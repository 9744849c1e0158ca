//! The state under a lock after its recorder failed a call.

use crate::books::{AT, Named, name_and_key};
use crate::own::{Own, no_ends};
use metrics::{DebugValue, MetricKind, Recorder, Refused, Row, Unit, Update};
use metrics_shared::{RecoverableRecorder, Shared};
use std::alloc::Global;
use std::process::Abort;
use std::sync::Wait;

/// Whether the first series is a histogram with the one sample 5, which is described by a unit and `u`.
fn is_five(rows: &[Row]) -> bool {
    match rows.first() {
        Some((_, unit, Some(text), DebugValue::Histogram(samples))) => {
            let is_described = *unit == Some(Unit::Count) && text.as_str() == "u";
            is_described && samples.as_slice() == [5].as_slice()
        }
        _ => false,
    }
}

/// Checks that a call reports on how many targets its recorder had acted. If memory really ran out it had acted on none.
fn expect_refusal<T: Drop>(rt: &impl Abort, answer: Result<T, Refused>) {
    let refused = answer.err();
    assert!(rt;
        refused != Some(Refused::Memory { acted: 0 }),
        "out of memory"
    );
    assert_eq!(rt; refused, Some(Refused::Memory { acted: 1 }));
}

/// Checks that the first sample is accepted, and the second fails.
fn expect_updated(rt: &impl Abort, first: Result<(), Refused>, second: Result<(), Refused>) {
    first.expect(rt, "out of memory");
    assert_eq!(rt; second, Err(Refused::Memory { acted: 0 }));
}

/// Calls what shares a recorder. The recorder fails the second description, the registration and the second update.
macro_rules! call_each {
    ($rt:expr, $alloc:expr, $on:expr, $named:expr) => {
        let kind = MetricKind::Histogram;
        let first = $on.describe($rt, $alloc, kind, &$named.name, Some(Unit::Count), "t");
        assert_eq!($rt; first.expect($rt, "out of memory"), 1);
        expect_refusal($rt, $on.describe($rt, $alloc, kind, &$named.name, None, "u"));
        expect_refusal($rt, $on.register($rt, $alloc, kind, &$named.key));
        let first = $on.update($rt, AT, Update::Record(5));
        expect_updated($rt, first, $on.update($rt, AT, Update::Record(6)));
    };
}

fn expect_shared<R: Abort + Wait, B: Recorder>(rt: &R, alloc: Global, book: B, named: &Named) {
    let shared = Shared::new(book);
    call_each!(rt, alloc, shared, named);
    let rows = shared.snapshot(rt, alloc, 0).expect(rt, "out of memory");
    assert!(rt; is_five(rows.as_slice()));
}

/// Calls a recorder through a slot, and checks it after it is taken back.
fn expect_slot<R: Abort + Wait, B: Recorder>(rt: &R, alloc: Global, book: B, named: &Named) {
    let built = RecoverableRecorder::new(book).build(rt, alloc).ok();
    let (slot, handle) = built.expect(rt, "out of memory");
    call_each!(rt, alloc, slot, named);
    let mut book = handle.into_inner(rt).expect(rt, "the slot is empty");
    let rows = book.snapshot(alloc, 0).expect(rt, "out of memory");
    assert!(rt; is_five(rows.as_slice()));
}

#[test]
fn a_book_stands_after_a_refusal(rt: HostRuntime) {
    let alloc = rt.alloc();
    let named = name_and_key(&rt, alloc, "h");
    let ends = no_ends(&rt, alloc);
    expect_shared(&rt, alloc, Own::new(&rt, alloc, &ends), &named);
    expect_slot(&rt, alloc, Own::new(&rt, alloc, &ends), &named);
}
