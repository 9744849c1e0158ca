//! `RuledBucket`, used by one thread.
ghost use Rattle.std.specs.Prelude.{◌≡◌, false};

use metrics::Error;
use metrics_bucket::{Pen, RuledBucket, Sample, bucket_law};
use std::alloc::Global;
use std::process::Abort;
use std::sync::Wait;

/// Returns a bucket of so many blocks, and its whole pen.
pub fn bucket_of<R: Abort>(rt: &R, alloc: Global, blocks: usize) -> (RuledBucket<u64>, Pen)
    ensures { (result.1.home ≡ result.0) × (result.1.ticket ≡ false) }
{
    RuledBucket::<u64>::new(alloc, blocks).expect(rt, "out of memory")
}

/// Returns a pen of half the weight.
pub fn split_off<R: Abort>(rt: &R, pen: &mut Pen) -> Pen
    requires { pen.old.ticket ≡ false }
    ensures rest { (pen.new.home ≡ pen.old.home) × (pen.new.ticket ≡ false) }
    ensures given { (result.home ≡ pen.old.home) × (result.ticket ≡ false) }
{
    pen.split().expect(rt, "out of memory")
}

/// Pushes the values below `end`, which allocates nothing.
pub fn push_below<R: Abort>(rt: &R, bucket: &RuledBucket<u64>, pen: &mut Pen, end: u64)
    requires { (pen.old.home ≡ bucket.now) × (pen.old.ticket ≡ false) }
    ensures { (pen.new.home ≡ bucket.now) × (pen.new.ticket ≡ false) }
{
    for value in 0..end {
        assert!(rt; bucket.try_push_as(pen, value).is_ok());
    }
}

/// Returns what is left in the bucket at its end.
pub fn settled<R: Abort>(rt: &R, alloc: Global, bucket: RuledBucket<u64>, pen: Pen) -> Vec<u64>
    requires { (pen.home ≡ bucket) × (pen.ticket ≡ false) }
{
    assert!(rt; pen.is_whole());
    bucket
        .settle(alloc, pen)
        .map_err(|_| Error::Memory)
        .expect(rt, "out of memory")
}

#[test]
fn words_of_samples(rt: HostRuntime) {
    assert!(rt; u64::of_word(u64::MAX.to_word()) == u64::MAX);
    assert!(rt; i64::of_word(i64::MIN.to_word()) == i64::MIN);
    bucket_law();
}

#[test]
fn signed_values(rt: HostRuntime) {
    let (bucket, mut pen) = RuledBucket::<i64>::new(rt.alloc(), 2).expect(&rt, "out of memory");
    assert!(rt; !pen.has_ticket());
    assert!(rt; bucket.push_as(&rt, &mut pen, i64::MIN).is_ok());
    assert!(rt; bucket.push_as(&rt, &mut pen, -1).is_ok());
    let values = bucket
        .data_as(&rt, rt.alloc(), &mut pen)
        .expect(&rt, "out of memory");
    assert!(rt; values.as_slice() == [i64::MIN, -1].as_slice());
    assert!(rt; bucket.clear_as(&rt, &mut pen) == Ok(2));
    assert!(rt; bucket.is_empty_as(&mut pen));
}

#[test]
fn closures_are_shown_chunks(rt: HostRuntime) {
    let (bucket, mut pen) = bucket_of(&rt, rt.alloc(), 2);
    push_below(&rt, &bucket, &mut pen, 65);
    let mut lengths = (0usize, 0usize);
    let read = bucket.data_with_as(&rt, &mut pen, |part| lengths = (lengths.1, part.len()));
    assert!(rt; read == Ok(65) && lengths == (1, 64));
    let taken = bucket.clear_with_as(&rt, &mut pen, |part| lengths = (part.len(), lengths.0));
    assert!(rt; taken == Ok(65) && lengths == (64, 1));
}

#[test]
fn blocks_are_1_to_1024(rt: HostRuntime) {
    for blocks in [0, 1025] {
        let refused = RuledBucket::<u64>::new(rt.alloc(), blocks).err();
        assert!(rt; refused == Some(Error::BadBlocks));
    }
    let (bucket, mut pen) = bucket_of(&rt, rt.alloc(), 1024);
    push_below(&rt, &bucket, &mut pen, 65_536);
    assert!(rt; bucket.try_push_as(&mut pen, 9) == Err((Error::Full, 9)));
}

#[test]
fn a_full_bucket_gives_the_value_back(rt: HostRuntime) {
    let (bucket, mut pen) = bucket_of(&rt, rt.alloc(), 1);
    push_below(&rt, &bucket, &mut pen, 64);
    assert!(rt; bucket.try_push_as(&mut pen, 9) == Err((Error::Full, 9)));
    assert!(rt; bucket.push_as(&rt, &mut pen, 9) == Err((Error::Full, 9)));
}

/// A push that began first has its place before one that began later and ended earlier.
#[test]
fn tickets_keep_their_places(rt: HostRuntime) {
    let (bucket, mut first) = bucket_of(&rt, rt.alloc(), 1);
    let mut second = split_off(&rt, &mut first);
    bucket.begin_as(&mut first).expect(&rt, "a ticket");
    assert!(rt; bucket.try_push_as(&mut second, 7).is_ok());
    bucket.finish_as(&mut first, 5);
    first.join(second);
    let values = settled(&rt, rt.alloc(), bucket, first);
    assert!(rt; values.as_slice() == [5, 7].as_slice());
}

/// A pen with its bucket, as a walk's closure may hold it.
#[derive(Drop)]
struct Held<'a> {
    bucket: &'a RuledBucket<u64>,
    pen: Pen,
    ghost own: { pen.home ≡ bucket.now },
    ghost free: { pen.ticket ≡ false },
}

impl<'a> Held<'a> {
    /// Splits a pen off, and holds it with its bucket.
    fn split_off<R: Abort>(rt: &R, bucket: &'a RuledBucket<u64>, pen: &mut Pen) -> Held<'a>
        requires { (pen.old.home ≡ bucket.now) × (pen.old.ticket ≡ false) }
        ensures { (pen.new.home ≡ bucket.now) × (pen.new.ticket ≡ false) }
    {
        Held {
            bucket,
            pen: split_off(rt, pen),
        }
    }

    fn push(&mut self, value: u64) -> bool {
        self.bucket.try_push_as(&mut self.pen, value).is_ok()
    }

    fn count<R: Wait>(&mut self, rt: &R) -> Result<usize, Error> {
        self.bucket.data_with_as(rt, &mut self.pen, |_| {})
    }

    fn clear<R: Wait>(&mut self, rt: &R) -> Result<usize, Error> {
        self.bucket.clear_as(rt, &mut self.pen)
    }

    /// A clear and a reading that are `Busy` have not called their closures.
    fn expect_unseen<R: Abort + Wait>(&mut self, rt: &R) {
        let mut calls = 0u64;
        let cleared = self
            .bucket
            .clear_with_as(rt, &mut self.pen, |_| calls = calls.wrapping_add(1));
        assert!(rt; cleared == Err(Error::Busy) && calls == 0);
        let read = self
            .bucket
            .data_with_as(rt, &mut self.pen, |_| calls = calls.wrapping_add(1));
        assert!(rt; read == Err(Error::Busy) && calls == 0);
    }
}

/// No pen is whole, and none is busy.
#[test]
fn a_clears_closure_may_push_with_another_pen(rt: HostRuntime) {
    let (bucket, mut pen) = bucket_of(&rt, rt.alloc(), 1);
    let mut other = Held::split_off(&rt, &bucket, &mut pen);
    assert!(rt; bucket.try_push_as(&mut pen, 1).is_ok());
    let mut pushed = 0u64;
    let cleared = bucket.clear_with_as(&rt, &mut pen, |_| {
        pushed = pushed.wrapping_add(u64::from(other.push(2)));
    });
    assert!(rt; cleared == Ok(1) && pushed == 1);
    let values = bucket
        .data_as(&rt, rt.alloc(), &mut pen)
        .expect(&rt, "out of memory");
    assert!(rt; values.as_slice() == [2].as_slice());
    assert!(rt; other.count(&rt) == Ok(1) && other.clear(&rt) == Ok(1));
}

#[test]
fn a_busy_call_shows_nothing(rt: HostRuntime) {
    let (bucket, mut pen) = bucket_of(&rt, rt.alloc(), 1);
    let mut other = Held::split_off(&rt, &bucket, &mut pen);
    assert!(rt; bucket.try_push_as(&mut pen, 1).is_ok());
    let read = bucket.data_with_as(&rt, &mut pen, |_| other.expect_unseen(&rt));
    assert!(rt; read == Ok(1));
    let cleared = bucket.clear_with_as(&rt, &mut pen, |_| other.expect_unseen(&rt));
    assert!(rt; cleared == Ok(1));
}
