//! `RuledBucket` after a call that ran out of memory.
ghost use Rattle.std.specs.Prelude.{◌≡◌, false, IfOk};

use crate::ruled::{bucket_of, settled, split_off};
use metrics::Error;
use metrics_bucket::{Pen, RuledBucket};
use std::alloc::Global;
use std::process::Abort;
use std::sync::Wait;
use test_trial::Trial;

/// A bucket with 5 and 7, and its whole pen.
fn two_pushed<R: Abort>(rt: &R, alloc: Global) -> (RuledBucket<u64>, Pen)
    ensures { (result.1.home ≡ result.0) × (result.1.ticket ≡ false) }
{
    let (bucket, mut pen) = bucket_of(rt, alloc, 1);
    assert!(rt; bucket.try_push_as(&mut pen, 5).is_ok());
    assert!(rt; bucket.try_push_as(&mut pen, 7).is_ok());
    (bucket, pen)
}

/// Checks that 5 and 7 are left, where the first try to settle may run out of memory.
fn expect_settled<R: Abort>(rt: &R, trial: &Trial, bucket: RuledBucket<u64>, pen: Pen)
    requires { (pen.home ≡ bucket) × (pen.ticket ≡ false) }
{
    assert!(rt; pen.is_whole());
    trial.begin();
    let first = bucket.settle(trial.alloc, pen);
    trial.calm();
    let values = match first {
        Ok(values) => values,
        Err((bucket, pen)) => settled(rt, trial.alloc, bucket, pen),
    };
    assert!(rt; values.as_slice() == [5, 7].as_slice());
}

#[test]
fn settle_gives_bucket_and_pen_back(rt: HostRuntime) {
    let trial = Trial::new(rt.alloc());
    let (bucket, pen) = two_pushed(&rt, rt.alloc());
    expect_settled(&rt, &trial, bucket, pen);
}

/// Whether 5 and 7 were read. Otherwise memory ran out.
fn is_read<R: Abort + Wait>(
    rt: &R,
    trial: &mut Trial,
    bucket: &RuledBucket<u64>,
    pen: &mut Pen,
) -> bool
    requires { (pen.old.home ≡ bucket.now) × (pen.old.ticket ≡ false) }
    ensures { (pen.new.home ≡ bucket.now) × (pen.new.ticket ≡ false) }
{
    match bucket.data_as(rt, trial.alloc, pen) {
        Ok(values) => {
            assert!(rt; values.as_slice() == [5, 7].as_slice());
            true
        }
        Err(error) => {
            assert!(rt; trial.note(error).is_ok());
            false
        }
    }
}

/// So the next walk isn't busy, to a pen that isn't whole either.
#[test]
fn a_refused_reading_leaves(rt: HostRuntime) {
    let mut trial = Trial::new(rt.alloc());
    let (bucket, mut pen) = two_pushed(&rt, rt.alloc());
    let mut other = split_off(&rt, &mut pen);
    trial.begin();
    is_read(&rt, &mut trial, &bucket, &mut pen);
    is_read(&rt, &mut trial, &bucket, &mut other);
    trial.calm();
    assert!(rt; is_read(&rt, &mut trial, &bucket, &mut pen));
    assert!(rt; bucket.clear_as(&rt, &mut other) == Ok(2));
}

/// A pen of half the weight, where the first try may run out of memory.
fn split_again<R: Abort>(rt: &R, trial: &mut Trial, pen: &mut Pen) -> Result<Pen, Error>
    requires { pen.old.ticket ≡ false }
    ensures rest { (pen.new.home ≡ pen.old.home) × (pen.new.ticket ≡ false) }
    ensures given { IfOk result (λ p. (p.home ≡ pen.old.home) × (p.ticket ≡ false)) }
{
    trial.begin();
    let first = pen.split();
    trial.calm();
    match first {
        Err(Error::Memory) => {
            assert!(rt; trial.note(Error::Memory).is_ok());
            pen.split()
        }
        answer => answer,
    }
}

#[test]
fn a_refused_split_leaves_the_pen(rt: HostRuntime) {
    let mut trial = Trial::new(rt.alloc());
    let (bucket, mut pen) = two_pushed(&rt, rt.alloc());
    let other = split_again(&rt, &mut trial, &mut pen).expect(&rt, "refused with memory at hand");
    pen.join(other);
    expect_settled(&rt, &trial, bucket, pen);
}

fn split_ten_times<R: Abort>(rt: &R, pen: &mut Pen)
    requires { pen.old.ticket ≡ false }
    ensures { pen.new.ticket ≡ false }
{
    for _ in 0..10u64 {
        pen.split().expect(rt, "out of memory");
    }
}

#[test]
fn the_lightest_pen_is_not_split(rt: HostRuntime) {
    let (_bucket, mut pen) = bucket_of(&rt, rt.alloc(), 1);
    split_ten_times(&rt, &mut pen);
    assert!(rt; pen.split().err() == Some(Error::NoPen));
}
