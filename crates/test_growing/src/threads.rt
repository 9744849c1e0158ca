//! A bucket that grows, used by several threads at once.
ghost use Rattle.metrics_growing.specs.Parts.{IsOf};

use crate::chains::{bucket_of_one, merged, split_off};
use metrics_growing::{GrowPen, GrowingBucket};
use std::ops::Range;
use std::process::Abort;
use std::sync::Wait;
use std::sync::atomic::{AtomicU64, Ordering};
use std::thread::{Threads, join};
use test_trial::are_all_once;

/// Pushes the values, and counts them.
fn push_all<R: Abort + Wait>(
    rt: &R,
    bucket: &GrowingBucket<u64>,
    mut pen: GrowPen,
    values: Range<u64>,
    pushed: &AtomicU64,
) -> GrowPen
    requires { IsOf bucket.now pen }
    ensures { IsOf bucket.now result }
{
    for value in values {
        bucket.push(rt, &mut pen, value).expect(rt, "out of memory");
        pushed.fetch_add(1, Ordering::SeqCst);
    }
    pen
}

/// 2 to this power threads push the values.
fn push_in<R: Abort + Threads + Wait + Sync>(
    rt: &R,
    bucket: &GrowingBucket<u64>,
    mut pen: GrowPen,
    values: Range<u64>,
    depth: u64,
    pushed: &AtomicU64,
) -> GrowPen
    requires { IsOf bucket.now pen }
    ensures { IsOf bucket.now result }
{
    if depth == 0 {
        return push_all(rt, bucket, pen, values, pushed);
    }
    let other = split_off(rt, bucket, &mut pen);
    let Range { start, end } = values;
    let middle = (start / 2).wrapping_add(end / 2);
    let depth = depth - 1;
    let (pen, other) = join(
        rt,
        || -> GrowPen
            requires { IsOf bucket.now pen }
            ensures { IsOf bucket.entry.now result }
        { push_in(rt, bucket, pen, start..middle, depth, pushed) },
        || -> GrowPen
            requires { IsOf bucket.now other }
            ensures { IsOf bucket.entry.now result }
        { push_in(rt, bucket, other, middle..end, depth, pushed) },
    );
    merged(rt, bucket, pen, other)
}

/// Eight threads push 0 to 1999, and then report that they ended.
fn push_to_the_end<R: Abort + Threads + Wait + Sync>(
    rt: &R,
    bucket: &GrowingBucket<u64>,
    pen: GrowPen,
    pushed: &AtomicU64,
    ended: &AtomicU64,
) -> GrowPen
    requires { IsOf bucket.now pen }
    ensures { IsOf bucket.now result }
{
    let pen = push_in(rt, bucket, pen, 0..2000, 3, pushed);
    ended.store(1, Ordering::SeqCst);
    pen
}

/// Clears once 480 values were pushed, which fill the first three segments, at each 100 more, and when the pushes ended.
fn clear_to_the_end<R: AllocGlobal + Abort + Wait>(
    rt: &R,
    bucket: &GrowingBucket<u64>,
    mut pen: GrowPen,
    pushed: &AtomicU64,
    ended: &AtomicU64,
) -> (GrowPen, Vec<u64>)
    requires { IsOf bucket.now pen }
    ensures { IsOf bucket.now result.0 }
{
    let mut shown = Vec::new(rt.alloc());
    let mut due = 480u64;
    for _ in rt.forever() {
        let last = ended.load(Ordering::SeqCst) == 1;
        if last || pushed.load(Ordering::SeqCst) >= due {
            due = due.wrapping_add(100);
            let _ = bucket.clear_with(rt, &mut pen, |part| {
                shown.extend_from_slice(part).expect(rt, "out of memory");
            });
        }
        if last {
            break;
        }
    }
    (pen, shown)
}

/// Eight pushers and a clearer at once, each with a part of the pen. They return it, with what the clearer showed. If no thread
/// can be started for the clearer, it is last.
fn push_and_clear<R: AllocGlobal + Abort + Threads + Wait + Sync>(
    rt: &R,
    bucket: &GrowingBucket<u64>,
    mut pusher: GrowPen,
) -> (GrowPen, Vec<u64>)
    requires { IsOf bucket.now pusher }
    ensures { IsOf bucket.now result.0 }
{
    let clearer = split_off(rt, bucket, &mut pusher);
    let pushed = &AtomicU64::new(0);
    let ended = &AtomicU64::new(0);
    let ((pen, shown), other) = join(
        rt,
        || -> (GrowPen, Vec<u64>)
            requires { IsOf bucket.now clearer }
            ensures { IsOf bucket.entry.now result.0 }
        { clear_to_the_end(rt, bucket, clearer, pushed, ended) },
        || -> GrowPen
            requires { IsOf bucket.now pusher }
            ensures { IsOf bucket.entry.now result }
        { push_to_the_end(rt, bucket, pusher, pushed, ended) },
    );
    (merged(rt, bucket, pen, other), shown)
}

#[test]
fn eight_threads_and_a_clearer_lose_nothing(rt: HostRuntime) {
    let (bucket, pen) = bucket_of_one(&rt, rt.alloc());
    let (mut pen, mut shown) = push_and_clear(&rt, &bucket, pen);
    let rest = bucket
        .settle(&rt, rt.alloc(), &mut pen)
        .expect(&rt, "out of memory");
    shown
        .extend_from_slice(rest.as_slice())
        .expect(&rt, "out of memory");
    assert!(rt; are_all_once(shown, 2000));
}
