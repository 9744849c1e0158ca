//! Values of three types, each known by its number: whole numbers, texts, and values that count their ends.

use std::alloc::Global;
use std::cell::Cell;
use std::process::Abort;

/// Checks that a fact holds.
pub fn check<R: Abort>(rt: &R, holds: bool) {
    assert!(rt; holds);
}

/// A value that has a number.
pub trait Numbered: Drop {
    fn number(&self) -> i64;
}

impl Numbered for i64 {
    fn number(&self) -> i64 {
        *self
    }
}

impl Numbered for String {
    fn number(&self) -> i64 {
        self.as_str().parse::<i64>().unwrap_or(-1)
    }
}

/// Has a number, and counts its end.
pub struct Ending<'a> {
    /// Its number.
    pub number: i64,
    /// How many have ended.
    pub ends: &'a Cell<u64>,
}

impl<'a> Drop for Ending<'a> {
    fn drop(self) {
        let Ending { number: _, ends } = self;
        ends.set(ends.get().wrapping_add(1));
    }
}

impl<'a> Numbered for Ending<'a> {
    fn number(&self) -> i64 {
        self.number
    }
}

/// Returns the text of a number.
pub fn text(rt: &impl Abort, alloc: Global, number: i64) -> String {
    format!(in alloc; "{number}").expect(rt, "out of memory")
}

/// Returns the first number of a chunk, after those of the chunks before it; or -1 if its numbers don't rise one by one.
pub fn firsts<T: Numbered>(seen: i64, chunk: &[T]) -> i64 {
    let first = chunk.first().map_or(-1, |first| first.number());
    let mut next = first;
    for value in chunk {
        if value.number() != next {
            return -1;
        }
        next = next.wrapping_add(1);
    }
    seen.wrapping_mul(1000).wrapping_add(first)
}
