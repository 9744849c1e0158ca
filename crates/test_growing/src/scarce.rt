//! A bucket that grows, after a failed call: every value and every pen is in its place.
ghost use Rattle.metrics_growing.specs.Parts.{IsOf};

use crate::chains::{bucket_of_one, split_off};
use metrics::Error;
use metrics_growing::{GrowPen, GrowingBucket};
use std::process::Abort;
use std::sync::Wait;
use test_trial::Trial;

/// Returns a trial, a new bucket and its pen.
fn start<R: AllocGlobal + Abort>(rt: &R) -> (Trial, GrowingBucket<u64>, GrowPen)
    ensures { IsOf result.1 result.2 }
{
    let (bucket, pen) = bucket_of_one(rt, rt.alloc());
    (Trial::new(rt.alloc()), bucket, pen)
}

/// Pushes a value. A failed push returns it, and it is pushed again with memory available.
fn push<R: Abort>(
    rt: &R,
    trial: &mut Trial,
    bucket: &GrowingBucket<u64>,
    value: u64,
    pen: &mut GrowPen,
)
    requires { IsOf bucket.now pen.old }
    ensures { IsOf bucket.now pen.new }
{
    trial.begin();
    let first = bucket.try_push(pen, value);
    trial.calm();
    if let Err((error, back)) = first {
        assert!(rt; trial.note(error).is_ok() && back == value);
        assert!(rt; bucket.try_push(pen, back).is_ok());
    }
}

/// Pushes the values below 65, the last of which needs a second segment.
fn push_65<R: Abort>(rt: &R, trial: &mut Trial, bucket: &GrowingBucket<u64>, pen: &mut GrowPen)
    requires { IsOf bucket.now pen.old }
    ensures { IsOf bucket.now pen.new }
{
    let before = trial.refusals;
    for value in 0..65u64 {
        push(rt, trial, bucket, value, pen);
        assert!(rt; value == 64 || trial.refusals == before);
    }
}

/// Checks that a settling returns the values of `from` on, below `end`, in order. The first try may run out of memory.
fn expect_settled<R: Abort + Wait>(
    rt: &R,
    trial: &mut Trial,
    bucket: &GrowingBucket<u64>,
    pen: &mut GrowPen,
    from: u64,
    end: u64,
)
    requires { IsOf bucket.now pen.old }
{
    trial.begin();
    let first = bucket.settle(rt, trial.alloc, pen);
    trial.calm();
    let values = match first {
        Ok(values) => values,
        Err(error) => {
            assert!(rt; trial.note(error).is_ok());
            bucket
                .settle(rt, trial.alloc, pen)
                .expect(rt, "refused with memory at hand")
        }
    };
    expect_run(rt, values.as_slice(), from, end);
}

/// Checks that these are the values of `from` on, below `end`, in order.
fn expect_run<R: Abort>(rt: &R, values: &[u64], from: u64, end: u64) {
    let mut next = from;
    for value in values {
        assert!(rt; *value == next);
        next = next.wrapping_add(1);
    }
    assert!(rt; next == end);
}

/// Clears 65 values, where the first try may run out of memory. A pen that doesn't know a segment allocates a pen of it.
fn expect_cleared<R: Abort + Wait>(
    rt: &R,
    trial: &mut Trial,
    bucket: &GrowingBucket<u64>,
    pen: &mut GrowPen,
)
    requires { IsOf bucket.now pen.old }
    ensures { IsOf bucket.now pen.new }
{
    trial.begin();
    let first = bucket.clear_with(rt, pen, |_| {});
    trial.calm();
    match first {
        Ok(count) => assert!(rt; count == 65),
        Err(error) => {
            assert!(rt; trial.note(error).is_ok());
            assert!(rt; bucket.clear_with(rt, pen, |_| {}) == Ok(65));
        }
    }
}

#[test]
fn a_refused_settling_leaves_all(rt: HostRuntime) {
    let (mut trial, bucket, mut pen) = start(&rt);
    push_65(&rt, &mut trial, &bucket, &mut pen);
    expect_settled(&rt, &mut trial, &bucket, &mut pen, 0, 65);
}

#[test]
fn a_refused_clear_leaves_all(rt: HostRuntime) {
    let (mut trial, bucket, mut pen) = start(&rt);
    push_65(&rt, &mut trial, &bucket, &mut pen);
    expect_cleared(&rt, &mut trial, &bucket, &mut pen);
    push(&rt, &mut trial, &bucket, 7, &mut pen);
    expect_settled(&rt, &mut trial, &bucket, &mut pen, 7, 8);
}

/// A pen of half the weight, where the first try may run out of memory and leaves the pen.
fn half<R: Abort>(
    rt: &R,
    trial: &mut Trial,
    bucket: &GrowingBucket<u64>,
    pen: &mut GrowPen,
) -> GrowPen
    requires { IsOf bucket.now pen.old }
    ensures rest { IsOf bucket.now pen.new }
    ensures given { IsOf bucket.now result }
{
    trial.begin();
    let given = pen.split();
    trial.calm();
    match given {
        Ok(other) => other,
        Err(error) => {
            assert!(rt; trial.note(error).is_ok());
            split_off(rt, bucket, pen)
        }
    }
}

/// Joins the pens, where the first try may run out of memory and leaves both.
fn join<R: Abort>(
    rt: &R,
    trial: &mut Trial,
    bucket: &GrowingBucket<u64>,
    pen: &mut GrowPen,
    other: GrowPen,
)
    requires pen { IsOf bucket.now pen.old }
    requires other { IsOf bucket.now other }
    ensures { IsOf bucket.now pen.new }
{
    trial.begin();
    let first = pen.join(other);
    trial.calm();
    if let Err((error, other)) = first {
        assert!(rt; trial.note(error).is_ok());
        assert!(rt; pen.join(other).is_ok());
    }
}

/// Returns a trial, a new bucket and two pens of it.
fn start_with_two<R: AllocGlobal + Abort>(rt: &R) -> (Trial, GrowingBucket<u64>, GrowPen, GrowPen)
    ensures pen { IsOf result.1 result.2 }
    ensures other { IsOf result.1 result.3 }
{
    let (mut trial, bucket, mut pen) = start(rt);
    let other = half(rt, &mut trial, &bucket, &mut pen);
    (trial, bucket, pen, other)
}

#[test]
fn another_pen_clears_what_it_does_not_know(rt: HostRuntime) {
    let (mut trial, bucket, mut pen, mut other) = start_with_two(&rt);
    push_65(&rt, &mut trial, &bucket, &mut pen);
    expect_cleared(&rt, &mut trial, &bucket, &mut other);
    join(&rt, &mut trial, &bucket, &mut pen, other);
    expect_settled(&rt, &mut trial, &bucket, &mut pen, 0, 0);
}

/// The pen that pushed nothing takes in what the other knows.
#[test]
fn a_pen_learns_what_another_knows(rt: HostRuntime) {
    let (mut trial, bucket, mut pen, mut other) = start_with_two(&rt);
    push_65(&rt, &mut trial, &bucket, &mut other);
    join(&rt, &mut trial, &bucket, &mut pen, other);
    expect_settled(&rt, &mut trial, &bucket, &mut pen, 0, 65);
}

/// With or without memory, a settling without all pens fails, and leaves the value.
#[test]
fn settle_wants_all_pens(rt: HostRuntime) {
    let (mut trial, bucket, mut pen) = start(&rt);
    push(&rt, &mut trial, &bucket, 1, &mut pen);
    let other = half(&rt, &mut trial, &bucket, &mut pen);
    trial.begin();
    let settled = bucket.settle(&rt, trial.alloc, &mut pen).err();
    trial.calm();
    assert!(rt; settled == Some(Error::NoPen) || settled == Some(Error::Memory));
    join(&rt, &mut trial, &bucket, &mut pen, other);
    expect_settled(&rt, &mut trial, &bucket, &mut pen, 1, 2);
}
