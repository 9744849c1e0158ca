//! `AtomicBucket`, used by several threads at once.

use crate::atomic::bucket_of;
use metrics::Error;
use metrics_bucket::AtomicBucket;
use std::process::Abort;
use std::sync::Wait;
use std::sync::atomic::{AtomicUsize, Ordering};
use std::thread::{Threads, join, map_indices, scope, scope_env};
use test_trial::are_all_once;

/// Pushes the values from `from` on, below `end`, each until it is in.
fn push_all<R: Wait>(rt: &R, bucket: &AtomicBucket<u64>, from: u64, end: u64) {
    for value in from..end {
        for _ in rt.forever() {
            match bucket.push(rt, value) {
                Err((Error::Full, _)) => {}
                _ => break,
            }
        }
    }
}

/// Two threads push the numbers below `end`, and then report that they ended.
fn push_in_two<R: Threads + Wait + Sync>(
    rt: &R,
    bucket: &AtomicBucket<u64>,
    end: u64,
    ended: &AtomicUsize,
) {
    join(
        rt,
        || push_all(rt, bucket, 0, end / 2),
        || push_all(rt, bucket, end / 2, end),
    );
    ended.store(1, Ordering::SeqCst);
}

/// What a thread does beside two that push.
#[derive(Clone, Copy)]
enum Task {
    /// It clears, and keeps what it is shown.
    Clear,
    /// It walks in each way.
    Walk,
}

/// Clears, and adds what is shown to the list. A clear that is `Busy` shows nothing.
fn clear_into<R: Abort + Wait>(rt: &R, bucket: &AtomicBucket<u64>, shown: &mut Vec<u64>) {
    let _ = bucket.clear_with(rt, |part| {
        shown.extend_from_slice(part).expect(rt, "out of memory");
    });
}

/// Walks of each kind, one after another. None is `Busy`, since no other walk is under way. Right after a clear a walk finds few
/// values, some of which are still being pushed.
fn walk_each_way<R: AllocGlobal + Abort + Wait>(rt: &R, bucket: &AtomicBucket<u64>) {
    assert!(rt; bucket.data_with(rt, |_| {}).is_ok());
    for _ in 0..8u32 {
        assert!(rt; bucket.clear(rt).is_ok());
    }
    assert!(rt; bucket.data(rt, rt.alloc()).err() != Some(Error::Busy));
    assert!(rt; bucket.clear_with(rt, |_| {}).is_ok());
}

/// Does its task until the pushes ended, and once more. Returns what it kept.
fn work_to_the_end<R: AllocGlobal + Abort + Wait>(
    rt: &R,
    bucket: &AtomicBucket<u64>,
    ended: &AtomicUsize,
    task: Task,
) -> Vec<u64> {
    let mut shown = Vec::new(rt.alloc());
    for _ in rt.forever() {
        let last = ended.load(Ordering::SeqCst) == 1;
        match task {
            Task::Clear => clear_into(rt, bucket, &mut shown),
            Task::Walk => walk_each_way(rt, bucket),
        }
        if last {
            break;
        }
    }
    shown
}

/// A thread does its task while two others push the numbers below `end`. Returns what it kept. The others wait for it, so the
/// test ends here if it can't be started.
fn push_beside<R: AllocGlobal + Abort + Threads + Wait + Sync>(
    rt: &R,
    bucket: &AtomicBucket<u64>,
    end: u64,
    task: Task,
) -> Vec<u64> {
    let ended = &AtomicUsize::new(0);
    scope(scope_env(), rt, |scope| {
        let worker = scope
            .spawn(move || work_to_the_end(rt, bucket, ended, task))
            .map_err(|_| Error::Memory)
            .expect(rt, "out of memory");
        push_in_two(rt, bucket, end, ended);
        worker.join(rt)
    })
}

#[test]
fn each_value_comes_out_once(rt: HostRuntime) {
    let bucket = bucket_of(&rt, rt.alloc(), 1);
    let shown = push_beside(&rt, &bucket, 2000, Task::Clear);
    assert!(rt; are_all_once(shown, 2000) && bucket.is_empty(&rt) == Ok(true));
}

/// Pushes 8,000 values, each once, and counts those that were rejected.
fn refusals<R: Wait>(rt: &R, bucket: &AtomicBucket<u64>) -> usize {
    let mut refused = 0usize;
    for value in 0..8000u64 {
        if bucket.push(rt, value).is_err() {
            refused = refused.wrapping_add(1);
        }
    }
    refused
}

#[test]
fn no_push_is_refused_beside_others(rt: HostRuntime) {
    let bucket = bucket_of(&rt, rt.alloc(), 1024);
    let shared = &bucket;
    let refused = map_indices(&rt, rt.alloc(), 8, &|_| refusals(&rt, shared)).expect(
        &rt,
        "out of memory",
    );
    assert!(rt; refused.iter().all(|count| *count == 0));
    assert!(rt; bucket.data_with(&rt, |_| {}) == Ok(64_000));
}

#[test]
fn a_walk_alone_is_never_busy(rt: HostRuntime) {
    let bucket = bucket_of(&rt, rt.alloc(), 1);
    push_beside(&rt, &bucket, 20_000, Task::Walk);
    assert!(rt; bucket.is_empty(&rt) == Ok(true));
}
