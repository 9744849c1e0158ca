//! `RuledBucket`, used by several threads at once.
ghost use Rattle.std.specs.Prelude.{◌≡◌, ◌<◌, true, false};

use crate::ruled::{bucket_of, settled, split_off};
use metrics::Error;
use metrics_bucket::{Pen, RuledBucket};
use std::alloc::Global;
use std::process::Abort;
use std::snapshot::Snapshot;
use std::sync::Wait;
use std::sync::atomic::{AtomicUsize, Ordering};
use std::thread::{Promise, Threads, join, scope, scope_env};
use test_trial::are_all_once;

/// Pushes one value; if it waits, it retries while the bucket is full.
fn push_waiting<R: Wait>(rt: &R, bucket: &RuledBucket<u64>, pen: &mut Pen, value: u64, waits: bool)
    requires { (pen.old.home ≡ bucket.now) × (pen.old.ticket ≡ false) }
    ensures { (pen.new.home ≡ pen.old.home) × (pen.new.weight ≡ pen.old.weight) × (pen.new.ticket ≡ false) }
{
    for _ in rt.forever() {
        if bucket.push_as(rt, pen, value).is_ok() || !waits {
            return;
        }
    }
    unreachable!()
}

/// Pushes the values from `from` on, below `end`: each until it is in, or each once.
fn push_all<R: Wait>(
    rt: &R,
    bucket: &RuledBucket<u64>,
    mut pen: Pen,
    from: u64,
    end: u64,
    waits: bool,
) -> Pen
    requires { (pen.home ≡ bucket.now) × (pen.ticket ≡ false) }
    ensures { (result.home ≡ pen.home) × (result.weight ≡ pen.weight) × (result.ticket ≡ false) }
{
    for value in from..end {
        push_waiting(rt, bucket, &mut pen, value, waits);
    }
    pen
}

/// 2 to this power threads push the values from `from` on, below `end`.
fn push_in<R: Abort + Threads + Wait + Sync>(
    rt: &R,
    bucket: &RuledBucket<u64>,
    mut pen: Pen,
    from: u64,
    end: u64,
    depth: u64,
    waits: bool,
) -> Pen
    requires { (pen.home ≡ bucket.now) × (pen.ticket ≡ false) }
    ensures { (result.home ≡ bucket.now) × (result.ticket ≡ false) }
{
    if depth == 0 {
        return push_all(rt, bucket, pen, from, end, waits);
    }
    let other = split_off(rt, &mut pen);
    let middle = (from / 2).wrapping_add(end / 2);
    let depth = depth - 1;
    let (mut pen, other) = join(
        rt,
        || -> Pen
            requires { (pen.home ≡ bucket.now) × (pen.ticket ≡ false) }
            ensures { (result.home ≡ bucket.entry.now) × (result.ticket ≡ false) }
        { push_in(rt, bucket, pen, from, middle, depth, waits) },
        || -> Pen
            requires { (other.home ≡ bucket.now) × (other.ticket ≡ false) }
            ensures { (result.home ≡ bucket.entry.now) × (result.ticket ≡ false) }
        { push_in(rt, bucket, other, middle, end, depth, waits) },
    );
    pen.join(other);
    pen
}

/// Eight threads push the values below `count`, each once, into a bucket of so many blocks, which they fill.
fn fill_by_eight<R: Abort + Threads + Wait + Sync>(
    rt: &R,
    alloc: Global,
    blocks: usize,
    count: usize,
) {
    let (bucket, pen) = bucket_of(rt, alloc, blocks);
    let pen = push_in(rt, &bucket, pen, 0, count as u64, 3, false);
    let values = settled(rt, alloc, bucket, pen);
    assert!(rt; are_all_once(values, count));
}

#[test]
fn eight_threads_of_eight_pushes_fill_a_block(rt: HostRuntime) {
    fill_by_eight(&rt, rt.alloc(), 1, 64);
}

#[test]
fn a_lost_race_isnt_full(rt: HostRuntime) {
    fill_by_eight(&rt, rt.alloc(), 1000, 64_000);
}

/// A clearer that ended: its pen, the values that it was shown, and how many its clears answered.
#[derive(Drop)]
struct Cleared {
    pen: Pen,
    shown: Vec<u64>,
    count: usize,
}

/// Checks that a clearer returns the pen that it was given.
#[derive(Drop)]
struct Clears {
    pen: Snapshot<Pen>,
}

impl Promise<Cleared> for Clears {
    ghost use Rattle.std.specs.Prelude.{◌≡◌, false};

    ghost kept_by = { λ p c. (c.pen.home ≡ p.pen.value.home) × (c.pen.ticket ≡ false) };
}

/// Clears at least once, and until the others report that they ended.
fn clear_to_the_end<R: Abort + Wait>(
    rt: &R,
    alloc: Global,
    bucket: &RuledBucket<u64>,
    mut pen: Pen,
    ended: &AtomicUsize,
) -> Cleared
    requires { (pen.home ≡ bucket.now) × (pen.ticket ≡ false) }
    ensures { (result.pen.home ≡ pen.home) × (result.pen.ticket ≡ false) }
{
    let mut shown = Vec::new(alloc);
    let mut count = 0usize;
    for _ in rt.forever() {
        let last = ended.load(Ordering::SeqCst) == 1;
        let answer = bucket.clear_with_as(rt, &mut pen, |part| {
            shown.extend_from_slice(part).expect(rt, "out of memory");
        });
        count = count.wrapping_add(answer.unwrap_or(0));
        if last {
            break;
        }
    }
    Cleared { pen, shown, count }
}

/// Does this while a thread clears, and returns what both returned. Ends the test here if the thread can't be started.
fn beside_a_clearer<R: Abort + Threads + Wait + Sync, T, F: FnOnce() -> T>(
    rt: &R,
    alloc: Global,
    bucket: &RuledBucket<u64>,
    clearer: Pen,
    ended: &AtomicUsize,
    f: F,
) -> (Cleared, T)
    requires clearer { (clearer.home ≡ bucket.now) × (clearer.ticket ≡ false) }
    requires call { F.pre f }
    ensures clearer { (result.0.pen.home ≡ bucket.now) × (result.0.pen.ticket ≡ false) }
    ensures call { F.post f result.1 }
{
    scope(
        scope_env(),
        rt,
        |scope| -> (Cleared, T)
            requires { (clearer.home ≡ bucket.now) × (clearer.ticket ≡ false) × F.pre f }
            ensures { (result.0.pen.home ≡ bucket.entry.now) × (result.0.pen.ticket ≡ false) × F.post f result.1 }
        {
            let promise = Clears {
                pen: Snapshot::of(&clearer),
            };
            let thread = scope
                .spawn_with(
                    promise,
                    move || -> Cleared
                        requires { (clearer.home ≡ bucket.now) × (clearer.ticket ≡ false) }
                        ensures { (result.pen.home ≡ clearer.home) × (result.pen.ticket ≡ false) }
                    { clear_to_the_end(rt, alloc, bucket, clearer, ended) },
                )
                .map_err(|_| Error::Memory)
                .expect(rt, "out of memory");
            let given = f();
            (thread.join(rt), given)
        },
    )
}

/// Four threads push 0 to 3999, and then report that they ended.
fn push_to_the_end<R: Abort + Threads + Wait + Sync>(
    rt: &R,
    bucket: &RuledBucket<u64>,
    pen: Pen,
    ended: &AtomicUsize,
) -> Pen
    requires { (pen.home ≡ bucket.now) × (pen.ticket ≡ false) }
    ensures { (result.home ≡ bucket.now) × (result.ticket ≡ false) }
{
    let pen = push_in(rt, bucket, pen, 0, 4000, 2, true);
    ended.store(1, Ordering::SeqCst);
    pen
}

/// Reads at least once, and until the others report that they ended. Each value is below 4000.
fn read_to_the_end<R: Abort + Wait>(
    rt: &R,
    bucket: &RuledBucket<u64>,
    mut pen: Pen,
    ended: &AtomicUsize,
) -> Pen
    requires { (pen.home ≡ bucket.now) × (pen.ticket ≡ false) }
    ensures { (result.home ≡ pen.home) × (result.ticket ≡ false) }
{
    for _ in rt.forever() {
        let last = ended.load(Ordering::SeqCst) == 1;
        let _ = bucket.data_with_as(rt, &mut pen, |part| {
            assert!(rt; part.iter().all(|value| *value < 4000));
        });
        if last {
            break;
        }
    }
    pen
}

/// Pushers and a reader at once. The reader is last if no thread can be started for it.
fn push_and_read<R: Abort + Threads + Wait + Sync>(
    rt: &R,
    bucket: &RuledBucket<u64>,
    pusher: Pen,
    reader: Pen,
    ended: &AtomicUsize,
) -> Pen
    requires pusher { (pusher.home ≡ bucket.now) × (pusher.ticket ≡ false) }
    requires reader { (reader.home ≡ bucket.now) × (reader.ticket ≡ false) }
    ensures { (result.home ≡ bucket.now) × (result.ticket ≡ false) }
{
    let (mut pen, pusher) = join(
        rt,
        || -> Pen
            requires { (reader.home ≡ bucket.now) × (reader.ticket ≡ false) }
            ensures { (result.home ≡ bucket.entry.now) × (result.ticket ≡ false) }
        { read_to_the_end(rt, bucket, reader, ended) },
        || -> Pen
            requires { (pusher.home ≡ bucket.now) × (pusher.ticket ≡ false) }
            ensures { (result.home ≡ bucket.entry.now) × (result.ticket ≡ false) }
        { push_to_the_end(rt, bucket, pusher, ended) },
    );
    pen.join(pusher);
    pen
}

/// Pushers, a reader and a clearer at once, each with a part of the pen. They return it, and what the clearer was shown.
fn push_read_and_clear<R: Abort + Threads + Wait + Sync>(
    rt: &R,
    alloc: Global,
    bucket: &RuledBucket<u64>,
    mut pusher: Pen,
) -> (Pen, Vec<u64>)
    requires { (pusher.home ≡ bucket.now) × (pusher.ticket ≡ false) }
    ensures { (result.0.home ≡ bucket.now) × (result.0.ticket ≡ false) }
{
    let clearer = split_off(rt, &mut pusher);
    let reader = split_off(rt, &mut pusher);
    let ended = &AtomicUsize::new(0);
    let (cleared, pen) = beside_a_clearer(
        rt,
        alloc,
        bucket,
        clearer,
        ended,
        || -> Pen
            requires { (pusher.home ≡ bucket.now) × (pusher.ticket ≡ false) × (reader.home ≡ bucket.now)
                × (reader.ticket ≡ false) }
            ensures { (result.home ≡ bucket.entry.now) × (result.ticket ≡ false) }
        { push_and_read(rt, bucket, pusher, reader, ended) },
    );
    let Cleared {
        pen: mut clearer,
        shown,
        count,
    } = cleared;
    assert!(rt; count == shown.len());
    clearer.join(pen);
    (clearer, shown)
}

#[test]
fn each_value_comes_out_once(rt: HostRuntime) {
    let (bucket, pen) = bucket_of(&rt, rt.alloc(), 4);
    let (pen, mut shown) = push_read_and_clear(&rt, rt.alloc(), &bucket, pen);
    let rest = settled(&rt, rt.alloc(), bucket, pen);
    shown
        .extend_from_slice(rest.as_slice())
        .expect(&rt, "out of memory");
    assert!(rt; are_all_once(shown, 4000));
}

/// Once the clear has taken the side, a push goes to the other one and a second clear is busy. Then the first push ends.
fn push_beside<R: Abort + Wait>(
    rt: &R,
    bucket: &RuledBucket<u64>,
    mut slow: Pen,
    mut other: Pen,
) -> (Pen, Pen)
    requires slow { (slow.home ≡ bucket.now) × (slow.ticket ≡ true) }
    requires other { (other.home ≡ bucket.now) × (other.ticket ≡ false) }
    ensures slow { (result.0.home ≡ bucket.now) × (result.0.ticket ≡ false) }
    ensures other { (result.1.home ≡ bucket.now) × (result.1.ticket ≡ false) }
{
    for _ in rt.forever() {
        if bucket.is_empty_as(&mut other) {
            break;
        }
    }
    assert!(rt; bucket.try_push_as(&mut other, 3).is_ok());
    assert!(rt; bucket.clear_with_as(rt, &mut other, |_| {}) == Err(Error::Busy));
    bucket.finish_as(&mut slow, 1);
    (slow, other)
}

/// The slow pen's push began. The pens are returned once a clear has waited for it.
fn clear_beside<R: Abort + Threads + Wait + Sync>(
    rt: &R,
    alloc: Global,
    bucket: &RuledBucket<u64>,
    slow: Pen,
    other: Pen,
    clearer: Pen,
) -> (Pen, Pen)
    requires slow { (slow.home ≡ bucket.now) × (slow.ticket ≡ true) }
    requires other { (other.home ≡ bucket.now) × (other.ticket ≡ false) }
    requires clearer { (clearer.home ≡ bucket.now) × (clearer.ticket ≡ false) }
    ensures joined { (result.0.home ≡ bucket.now) × (result.0.ticket ≡ false) }
    ensures other { (result.1.home ≡ bucket.now) × (result.1.ticket ≡ false) }
{
    let once = &AtomicUsize::new(1);
    let (cleared, (mut pen, other)) = beside_a_clearer(
        rt,
        alloc,
        bucket,
        clearer,
        once,
        || -> (Pen, Pen)
            requires { (slow.home ≡ bucket.now) × (slow.ticket ≡ true) × (other.home ≡ bucket.now)
                × (other.ticket ≡ false) }
            ensures { (result.0.home ≡ bucket.entry.now) × (result.0.ticket ≡ false)
                × (result.1.home ≡ bucket.entry.now) × (result.1.ticket ≡ false) }
        { push_beside(rt, bucket, slow, other) },
    );
    assert!(rt; cleared.count == 2 && cleared.shown.as_slice() == [1, 2].as_slice());
    pen.join(cleared.pen);
    (pen, other)
}

/// A reading finds what was pushed then, while the pens are still apart.
#[test]
fn a_clear_waits_for_a_push(rt: HostRuntime) {
    let (bucket, mut pen) = bucket_of(&rt, rt.alloc(), 1);
    let mut slow = split_off(&rt, &mut pen);
    let mut other = split_off(&rt, &mut pen);
    let clearer = split_off(&rt, &mut pen);
    bucket.begin_as(&mut slow).expect(&rt, "a ticket");
    assert!(rt; bucket.try_push_as(&mut pen, 2).is_ok());
    assert!(rt; !bucket.is_empty_as(&mut other));
    let (joined, mut other) = clear_beside(&rt, rt.alloc(), &bucket, slow, other, clearer);
    let values = bucket
        .data_as(&rt, rt.alloc(), &mut other)
        .expect(&rt, "out of memory");
    assert!(rt; values.as_slice() == [3].as_slice());
    pen.join(joined);
    pen.join(other);
    let values = settled(&rt, rt.alloc(), bucket, pen);
    assert!(rt; values.as_slice() == [3].as_slice());
}
