//! `AtomicBucket`, used by one thread.

use metrics::Error;
use metrics_bucket::AtomicBucket;
use metrics_cells::HistogramFn;
use std::alloc::Global;
use std::process::Abort;
use std::sync::{Arc, Wait};
use test_trial::Trial;

/// Returns a bucket of so many blocks.
pub fn bucket_of<R: Abort>(rt: &R, alloc: Global, blocks: usize) -> AtomicBucket<u64> {
    AtomicBucket::<u64>::new(alloc, blocks).expect(rt, "out of memory")
}

/// Pushes the values below `end`, which allocates nothing.
fn push_below<R: Abort + Wait>(rt: &R, bucket: &AtomicBucket<u64>, end: u64) {
    for value in 0..end {
        assert!(rt; bucket.push(rt, value).is_ok());
    }
}

/// The values below `end`, in blocks of 64, the newest block first.
fn in_blocks<R: Abort>(rt: &R, alloc: Global, end: u64) -> Vec<u64> {
    let mut values = Vec::new(alloc);
    for start in [192u64, 128, 64, 0] {
        for value in start..end.min(start.wrapping_add(64)) {
            values.push(value).expect(rt, "out of memory");
        }
    }
    values
}

/// Checks that a reading found these values, or ran out of memory.
fn expect_read<R: Abort>(
    rt: &R,
    trial: &mut Trial,
    answer: Result<Vec<u64>, Error>,
    wanted: &[u64],
) {
    match answer {
        Ok(values) => assert!(rt; values.as_slice() == wanted),
        Err(error) => assert!(rt; trial.note(error).is_ok()),
    }
}

/// Reads 70 times while memory may run out, and then with memory available.
fn read_again<R: Abort + Wait>(
    rt: &R,
    trial: &mut Trial,
    bucket: &AtomicBucket<u64>,
    wanted: &[u64],
) {
    for _ in 0..70u32 {
        trial.begin();
        let answer = bucket.data(rt, trial.alloc);
        trial.calm();
        expect_read(rt, trial, answer, wanted);
    }
    let last = bucket
        .data(rt, trial.alloc)
        .expect(rt, "refused with memory at hand");
    assert!(rt; last.as_slice() == wanted);
}

#[test]
fn the_newest_block_comes_first(rt: HostRuntime) {
    let mut trial = Trial::new(rt.alloc());
    let bucket = bucket_of(&rt, rt.alloc(), 3);
    let wanted = in_blocks(&rt, rt.alloc(), 130);
    trial.begin();
    push_below(&rt, &bucket, 130);
    trial.calm();
    read_again(&rt, &mut trial, &bucket, wanted.as_slice());
    assert!(rt; wanted.as_slice().starts_with(&[128, 129, 64]));
    assert!(rt; bucket.clear(&rt) == Ok(130));
    read_again(&rt, &mut trial, &bucket, &[]);
}

#[test]
fn a_single_value_is_read(rt: HostRuntime) {
    let bucket = bucket_of(&rt, rt.alloc(), 1);
    assert!(rt; bucket.push(&rt, 42).is_ok());
    let values = bucket.data(&rt, rt.alloc()).expect(&rt, "out of memory");
    assert!(rt; values.as_slice() == [42].as_slice());
}

#[test]
fn a_full_block_is_cleared(rt: HostRuntime) {
    let bucket = bucket_of(&rt, rt.alloc(), 1);
    push_below(&rt, &bucket, 64);
    assert!(rt; bucket.push(&rt, 9) == Err((Error::Full, 9)));
    assert!(rt; bucket.clear_with(&rt, |_| {}) == Ok(64));
    assert!(rt; bucket.push(&rt, 9).is_ok());
    assert!(rt; bucket.data_with(&rt, |_| {}) == Ok(1));
    assert!(rt; bucket.clear(&rt) == Ok(1));
    assert!(rt; bucket.is_empty(&rt) == Ok(true));
}

/// One chunk more, and the sum of its values.
fn counted(seen: (u64, u64), chunk: &[u64]) -> (u64, u64) {
    let mut sum = seen.1;
    for value in chunk {
        sum = sum.wrapping_add(*value);
    }
    (seen.0.wrapping_add(1), sum)
}

/// Reads and clears so many values, which come in four chunks and have this sum.
fn expect_chunks<R: Abort + Wait>(rt: &R, bucket: &AtomicBucket<u64>, (count, sum): (usize, u64)) {
    let mut read = (0u64, 0u64);
    let mut taken = (0u64, 0u64);
    assert!(rt; bucket.data_with(rt, |chunk| read = counted(read, chunk)) == Ok(count));
    assert!(rt; bucket.clear_with(rt, |chunk| taken = counted(taken, chunk)) == Ok(count));
    assert!(rt; read == (4, sum) && taken == (4, sum));
}

#[test]
fn values_come_in_chunks_of_64(rt: HostRuntime) {
    for (count, sum) in [(224u64, 24976u64), (256, 32640)] {
        let bucket = bucket_of(&rt, rt.alloc(), 4);
        push_below(&rt, &bucket, count);
        let values = bucket.data(&rt, rt.alloc()).expect(&rt, "out of memory");
        let wanted = in_blocks(&rt, rt.alloc(), count);
        assert!(rt; values.as_slice() == wanted.as_slice());
        expect_chunks(&rt, &bucket, (values.len(), sum));
        let rest = bucket.data(&rt, rt.alloc()).expect(&rt, "out of memory");
        assert!(rt; rest.is_empty());
    }
}

/// Each clear changes the side that pushes go to.
#[test]
fn a_bucket_is_empty_until_a_push_and_after_each_clear(rt: HostRuntime) {
    let bucket = bucket_of(&rt, rt.alloc(), 2);
    for count in [128usize, 1, 1] {
        assert!(rt; bucket.is_empty(&rt) == Ok(true));
        for value in 0..count as u64 {
            assert!(rt; bucket.push(&rt, value).is_ok());
            assert!(rt; bucket.is_empty(&rt) == Ok(false));
        }
        assert!(rt; bucket.clear(&rt) == Ok(count));
    }
    assert!(rt; bucket.is_empty(&rt) == Ok(true));
}

/// Pushes each value, and 1000 more.
fn echo<R: Abort + Wait>(rt: &R, bucket: &AtomicBucket<u64>, part: &[u64]) {
    for value in part {
        assert!(rt; bucket.push(rt, value.wrapping_add(1000)).is_ok());
    }
}

#[test]
fn a_clears_closure_may_push(rt: HostRuntime) {
    let bucket = bucket_of(&rt, rt.alloc(), 4);
    push_below(&rt, &bucket, 100);
    let mut inner = Ok(0);
    let cleared = bucket.clear_with(&rt, |part| {
        echo(&rt, &bucket, part);
        inner = bucket.clear(&rt);
    });
    assert!(rt; cleared == Ok(100) && inner == Err(Error::Busy));
    let values = bucket.data(&rt, rt.alloc()).expect(&rt, "out of memory");
    assert!(rt; values.len() == 100 && values.iter().all(|value| *value >= 1000));
}

/// That 70 clears and 70 readings are `Busy`.
fn expect_busy<R: Abort + Wait>(rt: &R, alloc: Global, bucket: &AtomicBucket<u64>) {
    for _ in 0..70 {
        assert!(rt; bucket.clear(rt) == Err(Error::Busy));
        assert!(rt; bucket.data(rt, alloc).err() == Some(Error::Busy));
    }
}

/// More calls fail than there may be at once.
#[test]
fn calls_that_are_refused_leave_the_bucket(rt: HostRuntime) {
    let bucket = bucket_of(&rt, rt.alloc(), 1);
    push_below(&rt, &bucket, 64);
    for value in 64..194u64 {
        assert!(rt; bucket.push(&rt, value) == Err((Error::Full, value)));
    }
    let cleared = bucket.clear_with(&rt, |_| expect_busy(&rt, rt.alloc(), &bucket));
    assert!(rt; cleared == Ok(64) && bucket.push(&rt, 7).is_ok());
}

/// A clear and a reading that are `Busy` have not called their closures.
fn expect_unseen<R: Abort + Wait>(rt: &R, bucket: &AtomicBucket<u64>) {
    let mut calls = 0u64;
    let cleared = bucket.clear_with(rt, |_| calls = calls.wrapping_add(1));
    assert!(rt; cleared == Err(Error::Busy) && calls == 0);
    let read = bucket.data_with(rt, |_| calls = calls.wrapping_add(1));
    assert!(rt; read == Err(Error::Busy) && calls == 0);
}

#[test]
fn a_busy_call_shows_nothing(rt: HostRuntime) {
    let bucket = bucket_of(&rt, rt.alloc(), 1);
    push_below(&rt, &bucket, 64);
    assert!(rt; bucket.data_with(&rt, |_| expect_unseen(&rt, &bucket)) == Ok(64));
    assert!(rt; bucket.clear_with(&rt, |_| expect_unseen(&rt, &bucket)) == Ok(64));
}

/// Records 64 samples, and one more that finds no place.
fn record_64<R: Abort + Wait, H: HistogramFn<Error = Error>>(rt: &R, cell: &H) {
    for value in -32..32 {
        assert!(rt; cell.record(rt, value).is_ok());
    }
    assert!(rt; cell.record(rt, 7).err() == Some(Error::Full));
}

#[test]
fn samples_are_recorded(rt: HostRuntime) {
    let bucket = AtomicBucket::<i64>::new(rt.alloc(), 1).expect(&rt, "out of memory");
    let bucket = Arc::new(rt.alloc(), bucket).expect(&rt, "out of memory");
    record_64(&rt, &bucket);
    let values = bucket.data(&rt, rt.alloc()).expect(&rt, "out of memory");
    let mut want = -32i64;
    for value in values.as_slice() {
        assert!(rt; *value == want);
        want = want.wrapping_add(1);
    }
    assert!(rt; want == 32);
}
