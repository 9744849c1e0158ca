//! Blocks and buckets with one owner, for values of three types.

use crate::values::{Ending, Numbered, check, firsts, text};
use metrics::{Error, HistogramCell};
use metrics_storage::{Block, OwnedBucket};
use std::alloc::Global;
use std::cell::Cell;
use std::process::Abort;
use test_trial::{Trial, made};

/// Pushes the numbers 0 to 63 into a new block, and 42, which is returned.
fn fill_block<R: Abort, T: Numbered, F: Fn(i64) -> T>(rt: &R, alloc: Global, make: &F)
    requires { F.IsAlwaysCallable make.now }
{
    let mut block = Block::<T>::new(alloc).expect(rt, "out of memory");
    for number in 0..64i64 {
        check(rt, block.push(make(number)).is_ok());
    }
    let back = block.push(make(42)).err().expect(rt, "not full");
    check(rt, back.number() == 42);
    check(rt, (block.len(), firsts(1, block.data())) == (64, 1000));
}

#[test]
fn a_block_of_64(rt: HostRuntime) {
    let alloc = rt.alloc();
    fill_block(&rt, alloc, &|number: i64| number);
    fill_block(&rt, alloc, &|number: i64| text(&rt, alloc, number));
    let ends = &Cell::new(0u64);
    fill_block(&rt, alloc, &|number: i64| Ending { number, ends });
    check(&rt, ends.get() == 65);
}

#[test]
fn a_block_takes_values_without_size(rt: HostRuntime) {
    let mut block = Block::<()>::new(rt.alloc()).expect(&rt, "out of memory");
    for _value in 0..64 {
        check(&rt, block.push(()).is_ok());
    }
    check(&rt, block.push(()).is_err());
    check(&rt, block.data().len() == 64);
    drop(block);
}

#[test]
fn samples_are_recorded(rt: HostRuntime) {
    let mut bucket = OwnedBucket::<i64>::new(rt.alloc());
    bucket.record(7).expect(&rt, "out of memory");
    let samples = bucket.data().expect(&rt, "out of memory");
    check(&rt, samples.as_slice() == [7].as_slice());
    drop(samples);
    drop(bucket);
}

/// Pushes a value that was returned when memory ran out: the bucket needs a block.
fn push_again<R: Abort, T: Numbered>(rt: &R, on: &mut OwnedBucket<T>, back: T, number: i64) {
    check(rt, back.number() == number && number % 64 == 0);
    assert!(rt; on.push(back).is_ok(), "refused with memory at hand");
}

/// Pushes a value, and again if memory ran out.
fn push<R: Abort, T: Numbered>(rt: &R, trial: &mut Trial, on: &mut OwnedBucket<T>, value: T) {
    let number = value.number();
    trial.begin();
    let first = on.push(value);
    trial.calm();
    if let Err(back) = first {
        trial.note(Error::Memory).expect(rt, "refused");
        push_again(rt, on, back, number);
    }
}

/// Pushes the numbers 0 to 129, and reads them chunk by chunk, the newest first.
fn fill<R: Abort, T: Numbered, F: Fn(i64) -> T>(
    rt: &R,
    trial: &mut Trial,
    on: &mut OwnedBucket<T>,
    make: &F,
)
    requires { F.IsAlwaysCallable make.now }
{
    check(rt, on.is_empty());
    for number in 0..130i64 {
        push(rt, trial, on, make(number));
    }
    check(rt, !on.is_empty());
    trial.begin();
    let mut seen = 0;
    on.data_with(|chunk| seen = firsts(seen, chunk));
    trial.calm();
    check(rt, seen == 128_064_000);
}

/// Takes the numbers 0 to 129 out, which allocates nothing.
fn clear<R: Abort, T: Numbered>(rt: &R, trial: &Trial, on: &mut OwnedBucket<T>) {
    trial.begin();
    let mut seen = 0;
    on.clear_with(|chunk| seen = firsts(seen, chunk));
    trial.calm();
    check(rt, seen == 128_064_000);
    check(rt, on.is_empty());
}

/// Whether these are the numbers 128 and 129, 64 to 127, and 0 to 63.
fn are_newest_first<T: Numbered>(values: &[T]) -> bool {
    let (newest, older) = values.split_at(values.len().min(2));
    let (middle, oldest) = older.split_at(older.len().min(64));
    let seen = firsts(firsts(firsts(0, newest), middle), oldest);
    newest.len() == 2 && middle.len() == 64 && oldest.len() == 64 && seen == 128_064_000
}

/// Reads them, where the first try may run out of memory.
fn read<R: Abort, T: Numbered + Clone>(rt: &R, trial: &mut Trial, on: &OwnedBucket<T>) {
    let values = made(trial, &|| on.data()).expect(rt, "refused");
    check(rt, are_newest_first(values.as_slice()));
    drop(values);
}

/// A closure that the caller keeps is shown the numbers 128 and 129, 64 to 127, and 0 to 63.
#[test]
fn a_kept_closure_is_shown_each_block(rt: HostRuntime) {
    let mut bucket = OwnedBucket::<i64>::new(rt.alloc());
    for number in 0..130i64 {
        bucket.record(number).expect(&rt, "out of memory");
    }
    let mut seen = 0;
    let mut note = |chunk: &[i64]| seen = firsts(seen, chunk);
    bucket.data_to(&mut note);
    check(&rt, seen == 128_064_000);
    drop(bucket);
}

#[test]
fn numbers_come_newest_block_first(rt: HostRuntime) {
    let mut trial = Trial::new(rt.alloc());
    let mut bucket = OwnedBucket::new(rt.alloc());
    fill(&rt, &mut trial, &mut bucket, &|number: i64| number);
    read(&rt, &mut trial, &bucket);
    clear(&rt, &trial, &mut bucket);
    drop(bucket);
}

#[test]
fn texts_come_newest_block_first(rt: HostRuntime) {
    let alloc = rt.alloc();
    let mut trial = Trial::new(alloc);
    let mut bucket = OwnedBucket::new(alloc);
    fill(
        &rt,
        &mut trial,
        &mut bucket,
        &|number: i64| text(&rt, alloc, number),
    );
    read(&rt, &mut trial, &bucket);
    clear(&rt, &trial, &mut bucket);
    drop(bucket);
}

/// Returns a bucket of values whose ends are counted.
fn filled_with_endings<'a, R: Abort>(
    rt: &R,
    trial: &mut Trial,
    ends: &'a Cell<u64>,
) -> OwnedBucket<Ending<'a>> {
    let mut bucket = OwnedBucket::new(trial.alloc);
    fill(
        rt,
        trial,
        &mut bucket,
        &|number: i64| Ending { number, ends },
    );
    bucket
}

/// Also if a value was returned first.
#[test]
fn each_value_ends_once(rt: HostRuntime) {
    let mut trial = Trial::new(rt.alloc());
    let ends = &Cell::new(0u64);
    let mut bucket = filled_with_endings(&rt, &mut trial, ends);
    check(&rt, ends.get() == 0);
    clear(&rt, &trial, &mut bucket);
    check(&rt, ends.get() == 130);
    fill(
        &rt,
        &mut trial,
        &mut bucket,
        &|number: i64| Ending { number, ends },
    );
    bucket.clear();
    check(&rt, ends.get() == 260);
    drop(bucket);
    check(&rt, ends.get() == 260);
}

#[test]
fn the_end_of_a_bucket_ends_its_values(rt: HostRuntime) {
    let mut trial = Trial::new(rt.alloc());
    let ends = &Cell::new(0u64);
    let bucket = filled_with_endings(&rt, &mut trial, ends);
    drop(bucket);
    check(&rt, ends.get() == 130);
}
