//! A bucket that grows, used by one thread.
ghost use Rattle.metrics_growing.specs.Parts.{IsOf};

use metrics::Error;
use metrics_bucket::Visitor;
use metrics_growing::{GrowPen, GrowingBucket, chain_law};
use std::alloc::Global;
use std::process::Abort;
use std::sync::Wait;

/// Returns a bucket whose first segment has one block, and its pen.
pub fn bucket_of_one<R: Abort>(rt: &R, alloc: Global) -> (GrowingBucket<u64>, GrowPen)
    ensures { IsOf result.0 result.1 }
{
    GrowingBucket::<u64>::new(alloc, 1).expect(rt, "out of memory")
}

/// Returns another pen of the same bucket, with half of the weight.
pub fn split_off<R: Abort>(rt: &R, bucket: &GrowingBucket<u64>, pen: &mut GrowPen) -> GrowPen
    requires { IsOf bucket.now pen.old }
    ensures rest { IsOf bucket.now pen.new }
    ensures given { IsOf bucket.now result }
{
    pen.split().expect(rt, "out of memory")
}

/// Pushes the values below `end`.
fn push_below<R: Abort>(rt: &R, bucket: &GrowingBucket<u64>, pen: &mut GrowPen, end: u64)
    requires { IsOf bucket.now pen.old }
    ensures { IsOf bucket.now pen.new }
{
    for value in 0..end {
        bucket.try_push(pen, value).expect(rt, "out of memory");
    }
}

/// Clears, and returns the first value of each chunk and how many it has. Their number in all is what the clear returns.
fn cleared_chunks<R: Abort + Wait>(
    rt: &R,
    alloc: Global,
    bucket: &GrowingBucket<u64>,
    pen: &mut GrowPen,
) -> Vec<(u64, usize)>
    requires { IsOf bucket.now pen.old }
    ensures { IsOf bucket.now pen.new }
{
    let mut chunks = Vec::new(alloc);
    let mut count = 0usize;
    let answer = bucket.clear_with(rt, pen, |part| {
        if let Some(first) = part.first() {
            chunks
                .push((*first, part.len()))
                .expect(rt, "out of memory");
        }
        count = count.wrapping_add(part.len());
    });
    assert!(rt; answer.expect(rt, "out of memory") == count);
    chunks
}

#[test]
fn each_segment_has_twice_the_places_of_the_one_before(rt: HostRuntime) {
    let (bucket, mut pen) = bucket_of_one(&rt, rt.alloc());
    push_below(&rt, &bucket, &mut pen, 449);
    let chunks = cleared_chunks(&rt, rt.alloc(), &bucket, &mut pen);
    assert!(rt;
        chunks.as_slice()
            == [
                (0, 64),
                (128, 64),
                (64, 64),
                (384, 64),
                (320, 64),
                (256, 64),
                (192, 64),
                (448, 1)
            ]
            .as_slice()
    );
    chain_law();
}

/// The pen isn't whole, and knows both segments when it pushes again.
#[test]
fn a_push_takes_the_first_segment_that_has_room(rt: HostRuntime) {
    let (bucket, mut pen) = bucket_of_one(&rt, rt.alloc());
    let _other = split_off(&rt, &bucket, &mut pen);
    let wanted = [(0u64, 64usize), (64, 1)];
    push_below(&rt, &bucket, &mut pen, 65);
    let chunks = cleared_chunks(&rt, rt.alloc(), &bucket, &mut pen);
    assert!(rt; chunks.as_slice() == wanted.as_slice());
    push_below(&rt, &bucket, &mut pen, 65);
    let chunks = cleared_chunks(&rt, rt.alloc(), &bucket, &mut pen);
    assert!(rt; chunks.as_slice() == wanted.as_slice());
}

/// Pushes 65 values with a pen, and clears them with another, which shows 64 of the first segment and one of the second.
fn push_and_clear_apart<R: Abort + Wait>(
    rt: &R,
    alloc: Global,
    bucket: &GrowingBucket<u64>,
    pen: &mut GrowPen,
    other: &mut GrowPen,
)
    requires pen { IsOf bucket.now pen.old }
    requires other { IsOf bucket.now other.old }
    ensures pen { IsOf bucket.now pen.new }
    ensures other { IsOf bucket.now other.new }
{
    push_below(rt, bucket, pen, 65);
    let chunks = cleared_chunks(rt, alloc, bucket, other);
    assert!(rt; chunks.as_slice() == [(0, 64), (64, 1)].as_slice());
}

/// Only by looking anew can the pen know that there is room in the first segment.
#[test]
fn a_push_takes_the_room_that_another_pen_made(rt: HostRuntime) {
    let (bucket, mut pen) = bucket_of_one(&rt, rt.alloc());
    let mut other = split_off(&rt, &bucket, &mut pen);
    push_and_clear_apart(&rt, rt.alloc(), &bucket, &mut pen, &mut other);
    push_and_clear_apart(&rt, rt.alloc(), &bucket, &mut pen, &mut other);
    push_and_clear_apart(&rt, rt.alloc(), &bucket, &mut pen, &mut other);
}

/// The pen isn't whole, and nothing else is under way.
#[test]
fn a_part_pen_clears_one_two_and_three_segments(rt: HostRuntime) {
    let (bucket, mut pen) = bucket_of_one(&rt, rt.alloc());
    let _other = split_off(&rt, &bucket, &mut pen);
    push_below(&rt, &bucket, &mut pen, 64);
    let chunks = cleared_chunks(&rt, rt.alloc(), &bucket, &mut pen);
    assert!(rt; chunks.as_slice() == [(0, 64)].as_slice());
    push_below(&rt, &bucket, &mut pen, 192);
    let chunks = cleared_chunks(&rt, rt.alloc(), &bucket, &mut pen);
    assert!(rt; chunks.as_slice() == [(0, 64), (128, 64), (64, 64)].as_slice());
    push_below(&rt, &bucket, &mut pen, 193);
    let chunks = cleared_chunks(&rt, rt.alloc(), &bucket, &mut pen);
    assert!(rt; chunks.as_slice() == [(0, 64), (128, 64), (64, 64), (192, 1)].as_slice());
}

/// The error of a call, unless it is out of memory.
fn refusal<R: Abort, T: Drop>(rt: &R, answer: Result<T, Error>) -> Option<Error> {
    match answer {
        Ok(_) => None,
        Err(Error::Memory) => Err(Error::Memory).expect(rt, "out of memory"),
        Err(error) => Some(error),
    }
}

/// Returns one pen of both.
pub fn merged<R: Abort>(
    rt: &R,
    bucket: &GrowingBucket<u64>,
    mut pen: GrowPen,
    other: GrowPen,
) -> GrowPen
    requires pen { IsOf bucket.now pen }
    requires other { IsOf bucket.now other }
    ensures { IsOf bucket.now result }
{
    match pen.join(other) {
        Ok(()) => pen,
        Err((error, _)) => Err(error).expect(rt, "out of memory"),
    }
}

/// Splits the pen into 2 to this power, pushes a value with each, and joins them.
fn push_apart<R: Abort>(
    rt: &R,
    bucket: &GrowingBucket<u64>,
    mut pen: GrowPen,
    depth: u64,
) -> GrowPen
    requires { IsOf bucket.now pen }
    ensures { IsOf bucket.now result }
{
    if depth == 0 {
        bucket.try_push(&mut pen, 7).expect(rt, "out of memory");
        return pen;
    }
    let other = split_off(rt, bucket, &mut pen);
    let pen = push_apart(rt, bucket, pen, depth - 1);
    let other = push_apart(rt, bucket, other, depth - 1);
    merged(rt, bucket, pen, other)
}

/// Finds no pen of the second segment.
fn expect_no_pen<R: Abort + Wait>(rt: &R, bucket: &GrowingBucket<u64>, late: &mut GrowPen)
    requires { IsOf bucket.now late.old }
    ensures { IsOf bucket.now late.new }
{
    let pushed = bucket.try_push(late, 7).map_err(|(error, _)| error);
    assert!(rt; refusal(rt, pushed) == Some(Error::NoPen));
    let pushed = bucket.push(rt, late, 7).map_err(|(error, _)| error);
    assert!(rt; refusal(rt, pushed) == Some(Error::NoPen));
    let cleared = bucket.clear_with(rt, late, |_| {});
    assert!(rt; refusal(rt, cleared) == Some(Error::NoPen));
}

/// The first of 128 pens makes the second segment, and each other gets one of its 127 spare pens.
#[test]
fn spare_pens_are_used_up_and_gathered(rt: HostRuntime) {
    let (bucket, mut pen) = bucket_of_one(&rt, rt.alloc());
    let mut late = split_off(&rt, &bucket, &mut pen);
    push_below(&rt, &bucket, &mut pen, 64);
    let pen = push_apart(&rt, &bucket, pen, 7);
    expect_no_pen(&rt, &bucket, &mut late);
    let mut pen = merged(&rt, &bucket, pen, late);
    let values = bucket
        .settle(&rt, rt.alloc(), &mut pen)
        .expect(&rt, "out of memory");
    assert!(rt; values.len() == 192);
}

/// Clears an empty bucket so many times.
fn clear_often<R: Abort + Wait>(rt: &R, bucket: &GrowingBucket<u64>, pen: &mut GrowPen, times: u64)
    requires { IsOf bucket.now pen.old }
    ensures { IsOf bucket.now pen.new }
{
    for _ in 0..times {
        assert!(rt;
            bucket
                .clear_with(rt, pen, |_| {})
                .expect(rt, "out of memory")
                == 0
        );
    }
}

/// Who makes a segment has one of its 128 pens. So if clears or a settling had made one, the last of 128 other pens would find
/// no pen of it.
#[test]
fn clears_and_settlings_make_no_segment(rt: HostRuntime) {
    let (bucket, mut pen) = bucket_of_one(&rt, rt.alloc());
    let mut clearer = split_off(&rt, &bucket, &mut pen);
    clear_often(&rt, &bucket, &mut clearer, 3);
    let settled = bucket.settle(&rt, rt.alloc(), &mut clearer);
    assert!(rt; refusal(&rt, settled) == Some(Error::NoPen));
    push_below(&rt, &bucket, &mut pen, 64);
    let pen = push_apart(&rt, &bucket, pen, 7);
    let mut pen = merged(&rt, &bucket, pen, clearer);
    let taken = bucket.clear_with(&rt, &mut pen, |_| {});
    assert!(rt; taken.expect(&rt, "out of memory") == 192);
    clear_often(&rt, &bucket, &mut pen, 100);
}

/// A pen with its bucket, as a clear's closure may hold it.
#[derive(Drop)]
struct Held<'a> {
    bucket: &'a GrowingBucket<u64>,
    pen: GrowPen,
    ghost own: { IsOf bucket.now pen },
}

impl<'a> Held<'a> {
    /// Splits a pen off, and holds it with its bucket.
    fn split_off<R: Abort>(rt: &R, bucket: &'a GrowingBucket<u64>, pen: &mut GrowPen) -> Held<'a>
        requires { IsOf bucket.now pen.old }
        ensures { IsOf bucket.now pen.new }
    {
        Held {
            bucket,
            pen: split_off(rt, bucket, pen),
        }
    }

    /// Clears. A clear that fails has not called its closure.
    fn clear<R: Abort + Wait>(&mut self, rt: &R) -> Result<usize, Error> {
        let mut calls = 0u64;
        let answer = self
            .bucket
            .clear_with(rt, &mut self.pen, |_| calls = calls.wrapping_add(1));
        assert!(rt; answer.is_ok() || calls == 0);
        answer
    }
}

/// It pushes a value into the bucket for each chunk that it is shown.
impl Visitor<u64> for Held<'_> {
    ghost use Rattle.std.specs.Prelude.{⊤};

    ghost ready = { λ _. ⊤ };

    ghost saw = { λ _ _ _. ⊤ };

    fn see(&mut self, _part: &[u64]) {
        let _ = self.bucket.try_push(&mut self.pen, 7);
    }
}

/// What it pushes goes to the first segment, which is just cleared, so that allocates nothing.
#[test]
fn a_clears_visitor_may_push(rt: HostRuntime) {
    let (bucket, mut pen) = bucket_of_one(&rt, rt.alloc());
    let mut visitor = Held::split_off(&rt, &bucket, &mut pen);
    push_below(&rt, &bucket, &mut pen, 65);
    let taken = bucket
        .clear_to(&rt, &mut pen, &mut visitor)
        .expect(&rt, "out of memory");
    assert!(rt; taken == 65);
    let chunks = cleared_chunks(&rt, rt.alloc(), &bucket, &mut pen);
    assert!(rt; chunks.as_slice() == [(7, 2)].as_slice());
}

/// The first segment's turn is held, so the inner clear ends at once. It would wait for a later segment's.
#[test]
fn a_clear_inside_a_clear_is_busy(rt: HostRuntime) {
    let (bucket, mut pen) = bucket_of_one(&rt, rt.alloc());
    let mut other = Held::split_off(&rt, &bucket, &mut pen);
    push_below(&rt, &bucket, &mut pen, 65);
    let mut chunks = 0u64;
    let taken = bucket.clear_with(&rt, &mut pen, |_| {
        if chunks == 0 {
            let inner = other.clear(&rt);
            assert!(rt; refusal(&rt, inner) == Some(Error::Busy));
        }
        chunks = chunks.wrapping_add(1);
    });
    assert!(rt; taken.expect(&rt, "out of memory") == 65 && chunks == 2);
    assert!(rt; other.clear(&rt).expect(&rt, "out of memory") == 0);
}
