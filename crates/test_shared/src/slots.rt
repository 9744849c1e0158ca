//! Recorders that can be taken back.

use crate::books::{AT, expect_gauge, key, new_book, with_gauge};
use crate::own::{Ends, Own, ended, no_ends};
use metrics::{Address, DebugValue, KeyName, MetricKind, Recorder, Row, Update};
use metrics_shared::{RecoverableRecorder, RecoveryHandle, SlotRecorder};
use std::alloc::Global;
use std::process::Abort;
use std::sync::Wait;
use test_trial::Trial;

/// Returns what is taken out of a slot, which allocates nothing.
pub fn taken_out<R: Abort + Wait, B: Recorder>(
    rt: &R,
    trial: &Trial,
    handle: RecoveryHandle<B>,
) -> B {
    trial.begin();
    let recovered = handle.into_inner(rt);
    trial.calm();
    recovered.expect(rt, "the slot is empty")
}

/// Puts a recorder with the gauge 3 into a slot. A failed first try returns it unchanged.
fn built<R: Abort + Wait, B: Recorder>(
    rt: &R,
    trial: &mut Trial,
    on: B,
) -> (SlotRecorder<B>, RecoveryHandle<B>) {
    trial.begin();
    let answer = RecoverableRecorder::new(on).build(rt, trial.alloc);
    trial.calm();
    match answer {
        Ok(built) => built,
        Err((error, mut back)) => {
            trial.note(error).expect(rt, "refused");
            expect_gauge(rt, trial.alloc, &mut back, 3);
            let built = RecoverableRecorder::new(back).build(rt, trial.alloc);
            built.ok().expect(rt, "refused with memory at hand")
        }
    }
}

/// Checks that a slot returns its recorder unchanged, and that it ends when it is dropped and not before.
fn expect_back<R: Abort + Wait, B: Recorder>(rt: &R, trial: &mut Trial, on: B, ends: &Ends) {
    let (slot, handle) = built(rt, trial, on);
    assert_eq!(rt; slot.with(rt, |on| on.books()), Some(1));
    drop(slot);
    let mut on = taken_out(rt, trial, handle);
    expect_gauge(rt, trial.alloc, &mut on, 3);
    assert_eq!(rt; ended(ends), 0);
    drop(on);
    assert_eq!(rt; ended(ends), 1);
}

#[test]
fn a_slot_gives_its_recorder_back(rt: HostRuntime) {
    let alloc = rt.alloc();
    let ends = no_ends(&rt, alloc);
    let on = with_gauge(&rt, alloc, Own::new(&rt, alloc, &ends), 3);
    expect_back(&rt, &mut Trial::new(alloc), on, &ends);
}

/// A series of each kind, its update by 5, and how often that is made.
const FIVES: [(MetricKind, Update, u64); 3] = [
    (MetricKind::Counter, Update::Increment(5), 1),
    (MetricKind::Gauge, Update::Add(5), 2),
    (MetricKind::Histogram, Update::Record(5), 3),
];

/// Registers a series of each kind through a slot, and makes its updates.
fn make_fives<R: Abort + Wait, B: Recorder>(rt: &R, alloc: Global, slot: &SlotRecorder<B>) {
    let key = key(rt, alloc, "k");
    for (series, (kind, by, times)) in FIVES.into_iter().enumerate() {
        let at = Address { book: 0, series };
        let found = slot
            .register(rt, alloc, kind, &key)
            .expect(rt, "out of memory");
        assert_eq!(rt; found.as_slice(), [at].as_slice());
        for _ in 0..times {
            slot.update(rt, at, by).expect(rt, "out of memory");
        }
    }
}

/// What a slot accepts once its recorder was taken out: each call is done, and reaches nothing.
fn make_sevens<R: Abort + Wait, B: Recorder>(rt: &R, alloc: Global, slot: &SlotRecorder<B>) {
    let name = KeyName::new(alloc, "k").expect(rt, "out of memory");
    let key = key(rt, alloc, "k");
    for (kind, by) in [
        (MetricKind::Counter, Update::Increment(7)),
        (MetricKind::Gauge, Update::Add(7)),
        (MetricKind::Histogram, Update::Record(7)),
    ] {
        assert_eq!(rt; slot.describe(rt, alloc, kind, &name, None, "t"), Ok(0));
        let found = slot.register(rt, alloc, kind, &key).expect(rt, "refused");
        assert!(rt; found.is_empty());
        assert_eq!(rt; slot.update(rt, AT, by), Ok(()));
    }
    assert_eq!(rt; slot.with(rt, |on| on.books()), None);
}

/// Whether these are the three series with their updates by 5, undescribed.
fn are_fives(rows: &[Row]) -> bool {
    let mut rows = rows.iter();
    let is_counter = matches!(rows.next(), Some((_, _, None, DebugValue::Counter(5))));
    let is_gauge = matches!(rows.next(), Some((_, _, None, DebugValue::Gauge(10))));
    let is_histogram = match rows.next() {
        Some((_, _, None, DebugValue::Histogram(found))) => found.as_slice()
            == [5, 5, 5].as_slice(),
        _ => false,
    };
    is_counter && is_gauge && is_histogram && rows.next().is_none()
}

fn expect_fives<R: Abort + Wait, B: Recorder>(rt: &R, alloc: Global, on: B) {
    let built = RecoverableRecorder::new(on).build(rt, alloc).ok();
    let (slot, handle) = built.expect(rt, "out of memory");
    make_fives(rt, alloc, &slot);
    let mut on = handle.into_inner(rt).expect(rt, "the slot is empty");
    make_sevens(rt, alloc, &slot);
    let rows = on.snapshot(alloc, 0).expect(rt, "out of memory");
    assert!(rt; are_fives(rows.as_slice()));
}

#[test]
fn a_recovered_book_has_what_its_slot_took(rt: HostRuntime) {
    let alloc = rt.alloc();
    expect_fives(&rt, alloc, new_book(&rt, alloc));
}
