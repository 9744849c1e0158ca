//! Cells that are filled with a recorder.

use crate::books::{expect_gauge, is_gauge, key, new_book, with_gauge};
use crate::slots::taken_out;
use metrics::{Error, Key, MetricKind, Recorder};
use metrics_layers::Stack;
use metrics_shared::{
    Install, RecoverableRecorder, RecoveryHandle, SetRecorderError, Shared, SlotRecorder,
};
use std::alloc::Global;
use std::process::Abort;
use std::sync::atomic::{AtomicU64, Ordering};
use std::sync::{OnceLock, Wait};
use std::thread::{Threads, join};
use test_trial::Trial;

#[test]
fn a_refused_install_is_reported(rt: HostRuntime) {
    let alloc = rt.alloc();
    for (error, text) in [
        (
            SetRecorderError::Taken(()),
            "a recorder is installed already: Taken(..)",
        ),
        (SetRecorderError::Memory(()), "memory: Memory(..)"),
    ] {
        let printed = format!(in alloc; "{error}: {error:?}").expect(&rt, "out of memory");
        assert_eq!(&rt; printed.as_str(), text);
    }
}

/// Checks that a cell that is taken returns this recorder, with this gauge.
fn expect_taken<M: Drop, B: Recorder>(
    rt: &impl Abort,
    alloc: Global,
    answer: Result<M, SetRecorderError<B>>,
    value: i64,
) {
    match answer {
        Err(SetRecorderError::Taken(mut back)) => expect_gauge(rt, alloc, &mut back, value),
        _ => panic!(rt; "the cell isn't taken"),
    }
}

/// Fills a cell with a recorder of the gauge 3, which is found there, and tries one of the gauge 4, which is returned.
/// Neither allocates.
fn install_twice<R: Abort + Wait, B: Recorder>(rt: &R, alloc: Global, first: B, second: B) {
    let cell = OnceLock::new();
    let answer = first.install(rt, &cell);
    let again = second.install(rt, &cell);
    answer.expect(rt, "not installed");
    expect_taken(rt, alloc, again, 4);
    let rows = cell.get().expect(rt, "no recorder").snapshot(rt, alloc, 0);
    assert!(rt; is_gauge(rows.expect(rt, "out of memory").as_slice(), 3));
}

#[test]
fn a_recorder_is_installed_once(rt: HostRuntime) {
    let alloc = rt.alloc();
    let book = |value| with_gauge(&rt, alloc, new_book(&rt, alloc), value);
    install_twice(&rt, alloc, book(3), book(4));
    install_twice(&rt, alloc, Stack::new(book(3)), Stack::new(book(4)));
}

/// Fills a cell with the slot of a recorder of this gauge. If the first try runs out of memory it returns the slot unchanged.
fn installed<R: Abort + Wait, B: Recorder>(
    rt: &R,
    trial: &mut Trial,
    cell: &OnceLock<SlotRecorder<B>>,
    on: B,
    value: i64,
) -> Result<RecoveryHandle<B>, SetRecorderError<B>> {
    trial.begin();
    let answer = RecoverableRecorder::new(on).install(rt, trial.alloc, cell);
    trial.calm();
    match answer {
        Err(SetRecorderError::Memory(mut back)) => {
            trial.note(Error::Memory).expect(rt, "refused");
            expect_gauge(rt, trial.alloc, &mut back, value);
            RecoverableRecorder::new(back).install(rt, trial.alloc, cell)
        }
        answer => answer,
    }
}

/// Fills a cell with the slot of a recorder of the gauge 3, and tries one of the gauge 4, which is returned.
fn install_slots<R: Abort + Wait, B: Recorder>(rt: &R, trial: &mut Trial, first: B, second: B) {
    let cell = OnceLock::new();
    let handle = installed(rt, trial, &cell, first, 3).expect(rt, "not installed");
    let slot = cell.get().expect(rt, "no slot");
    assert_eq!(rt; slot.with(rt, |on| on.books()), Some(1));
    let again = installed(rt, trial, &cell, second, 4);
    expect_taken(rt, trial.alloc, again, 4);
    let mut on = taken_out(rt, trial, handle);
    expect_gauge(rt, trial.alloc, &mut on, 3);
}

#[test]
fn a_slot_is_installed_once(rt: HostRuntime) {
    let alloc = rt.alloc();
    let book = |value| with_gauge(&rt, alloc, new_book(&rt, alloc), value);
    install_slots(&rt, &mut Trial::new(alloc), book(3), book(4));
}

/// How many targets a register call meets that is made as soon as the cell is filled. `None` if it never is.
fn targets_when_filled<R: Wait, B: Recorder>(
    rt: &R,
    alloc: Global,
    cell: &OnceLock<SlotRecorder<B>>,
    is_over: &AtomicU64,
    key: &Key,
) -> Option<usize> {
    for _ in 0..u32::MAX {
        let was_over = is_over.load(Ordering::SeqCst) == 1;
        if let Some(slot) = cell.get() {
            let found = slot.register(rt, alloc, MetricKind::Counter, key);
            return Some(found.ok()?.len());
        }
        if was_over {
            return None;
        }
    }
    None
}

/// How many targets a second thread meets, which registers as soon as the recorder can be found. `None` if memory ran out.
fn targets_while_installed<R: Threads + Wait + Sync, B: Recorder + Send>(
    rt: &R,
    alloc: Global,
    on: B,
    key: &Key,
) -> Option<usize> {
    let cell = OnceLock::new();
    let is_over = AtomicU64::new(0);
    let (targets, _) = join(
        rt,
        || targets_when_filled(rt, alloc, &cell, &is_over, key),
        || {
            let answer = RecoverableRecorder::new(on).install(rt, alloc, &cell);
            is_over.store(1, Ordering::SeqCst);
            answer
        },
    );
    targets
}

/// Memory may run out at the first of them.
#[test]
fn a_recorder_is_there_once_it_can_be_found(rt: HostRuntime) {
    let alloc = rt.alloc();
    let trial = Trial::new(alloc);
    let key = key(&rt, alloc, "c");
    for _ in 0..20_000 {
        let targets = targets_while_installed(&rt, alloc, new_book(&rt, alloc), &key);
        trial.calm();
        assert_eq!(&rt; targets.expect(&rt, "out of memory"), 1);
    }
}
