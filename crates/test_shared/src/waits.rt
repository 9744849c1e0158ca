//! Calls of a slot that another thread holds.
ghost use Rattle.std.specs.Thread.{IsSync};

use crate::books::{AT, count_of, expect_all_done, key, new_book};
use metrics::{KeyName, MetricKind, Recorder, Update};
use metrics_shared::{RecoverableRecorder, RecoveryHandle, SlotRecorder};
use std::alloc::Global;
use std::process::Abort;
use std::sync::Wait;
use std::sync::atomic::{AtomicU64, Ordering};
use std::thread::{self, Threads, join};
use test_trial::{Trial, is_reached};

/// A slot and the handle of its recorder.
type Built<B> = (SlotRecorder<B>, RecoveryHandle<B>);

/// Puts a recorder with a counter into a slot.
fn built<R: Abort + Wait, B: Recorder>(rt: &R, alloc: Global, on: B) -> Built<B> {
    let built = RecoverableRecorder::new(on).build(rt, alloc).ok();
    let (slot, handle) = built.expect(rt, "out of memory");
    let found = slot.register(rt, alloc, MetricKind::Counter, &key(rt, alloc, "c"));
    assert_eq!(rt;
        found.expect(rt, "out of memory").as_slice(),
        [AT].as_slice()
    );
    (slot, handle)
}

/// Adds 1 to the counter a thousand times, and returns whether each was done.
fn add_many<R: Wait, B: Recorder>(rt: &R, slot: &SlotRecorder<B>) -> bool {
    let mut is_done = true;
    for _ in 0..1000 {
        is_done &= slot.update(rt, AT, Update::Increment(1)).is_ok();
    }
    is_done
}

/// Checks the count of a recovered recorder.
fn expect_count<R: Abort + Wait, B: Recorder>(
    rt: &R,
    alloc: Global,
    handle: RecoveryHandle<B>,
    wanted: u64,
) {
    let mut on = handle.into_inner(rt).expect(rt, "the slot is empty");
    let rows = on.snapshot(alloc, 0).expect(rt, "out of memory");
    assert_eq!(rt; count_of(rows.as_slice()), Some(wanted));
}

fn expect_sum<R: Abort + Threads + Wait + Sync, B: Recorder + Send>(rt: &R, alloc: Global, on: B)
    requires { IsSync R.row }
{
    let (slot, handle) = built(rt, alloc, on);
    let done = thread::map_indices(rt, alloc, 4, &|_| add_many(rt, &slot));
    expect_all_done(rt, done);
    expect_count(rt, alloc, handle, 4000);
}

#[test]
fn four_threads_add_through_a_slot(rt: HostRuntime) {
    let alloc = rt.alloc();
    expect_sum(&rt, alloc, new_book(&rt, alloc));
}

/// How long a thread stays inside, in milliseconds, unless the other call comes back before.
const STAY: u64 = 20;

/// How long the other thread waits for it at most.
const LONG: u64 = 5000;

/// Stays inside a slot. Whether the other call came back meanwhile.
fn stay<R: Wait, B: Recorder>(rt: &R, slot: &SlotRecorder<B>, step: &AtomicU64) -> Option<bool> {
    slot.with(rt, |_on| {
        step.store(1, Ordering::SeqCst);
        is_reached(rt, step, 2, STAY)
    })
}

/// A call through a slot, or of the handle of its recorder.
#[derive(Clone, Copy)]
enum Call {
    With,
    Describe,
    Register,
    Update,
    IntoInner,
}

const CALLS: [Call; 5] = [
    Call::With,
    Call::Describe,
    Call::Register,
    Call::Update,
    Call::IntoInner,
];

/// Makes a call. Whether it reached the recorder.
fn is_made<R: Abort + Wait, B: Recorder>(
    rt: &R,
    alloc: Global,
    (slot, handle): (&SlotRecorder<B>, RecoveryHandle<B>),
    call: Call,
) -> bool {
    let name = KeyName::new(alloc, "c").expect(rt, "out of memory");
    let kind = MetricKind::Counter;
    match call {
        Call::With => slot.with(rt, |on| on.books()) == Some(1),
        Call::Describe => slot.describe(rt, alloc, kind, &name, None, "t") == Ok(1),
        Call::Register => {
            let found = slot.register(rt, alloc, kind, &key(rt, alloc, "d"));
            !found.expect(rt, "out of memory").is_empty()
        }
        Call::Update => slot.update(rt, AT, Update::Increment(1)) == Ok(()),
        Call::IntoInner => handle.into_inner(rt).is_ok(),
    }
}

/// A thread stays inside a slot, and another makes a call then. It reaches the recorder, once the first thread has left.
fn expect_wait<R: Abort + Threads + Wait + Sync, B: Recorder + Send>(
    rt: &R,
    alloc: Global,
    on: B,
    call: Call,
)
    requires { IsSync R.row }
{
    let (slot, handle) = built(rt, alloc, on);
    let step = &AtomicU64::new(0);
    let (came_back, is_made) = join(
        rt,
        || stay(rt, &slot, step),
        || {
            is_reached(rt, step, 1, LONG);
            let is_made = is_made(rt, alloc, (&slot, handle), call);
            step.store(2, Ordering::SeqCst);
            is_made
        },
    );
    assert!(rt; is_made);
    assert!(rt; came_back == Some(false));
}

/// No memory is refused.
#[test]
fn each_call_waits_for_a_slot_that_is_held(rt: HostRuntime) {
    let alloc = rt.alloc();
    Trial::new(alloc).calm();
    for call in CALLS {
        expect_wait(&rt, alloc, new_book(&rt, alloc), call);
    }
}
