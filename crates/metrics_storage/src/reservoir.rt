//! A sampling reservoir: a fixed number of values out of all that were pushed. With even draws each is kept with the same
//! chance.
ghost use Rattle.std.specs.Prelude.{◌≡◌, ◌+◌, ◌*◌, ◌^◌, ◌<◌, ◌≤◌, ◌==◌, ◌↔◌, min, length};
ghost use Rattle.std.specs.Prelude.{[], vec_capacity, pos, neg_ℤ, ◌≤ℤ◌, IsErr, OnErr, IfOk, IfSome, MatchResult, Some};
ghost use Rattle.std.specs.Iterator.{at_most, UpTo};
ghost use Rattle.metrics_storage.specs.Reservoir.{place_step};
ghost use Rattle.metrics_storage.specs.Drains.{Drained, drain_of, drain_step, rate_of};
ghost use Rattle.metrics_storage.specs.Sample.{Sampled, new_sample, after_push};
ghost use Rattle.metrics.specs.declared.error.Error.TheVariants.{Memory as OutOfMemory, CountFull};

use metrics::Error;
use std::alloc::{AllocError, Global};
use std::marker::Model;

/// A fixed number of places for values, and the number and the sum of all that were pushed.
#[derive(Drop)]
pub struct Reservoir {
    values: Vec<i64>,
    size: usize,
    pushed: u64,
    sum: i128,
}

impl Model for Reservoir {
    ghost Value = { Sampled };

    ghost view = { λ r. record { places = r.size; held = r.values.items; pushed = r.pushed; total = r.sum } };

    ghost invariant = { λ r.
        (length r.values.items ≡ min r.size r.pushed)
        × (r.size ≤ vec_capacity r.values)
        × (neg_ℤ (pos (r.pushed * 2 ^ 63)) ≤ℤ r.sum)
        × (r.sum ≤ℤ pos (r.pushed * 2 ^ 63)) };
}

/// Room for so many values. Room for none allocates nothing.
fn room(alloc: Global, size: usize) -> Result<Vec<i64>, AllocError>
    ensures empty { IfOk result (λ v. v.items ≡ []) }
    ensures fits { IfOk result (λ v. size ≤ vec_capacity v) }
    ensures refused { OnErr result (0 < size) }
{
    if size == 0 {
        return Ok(Vec::new(alloc));
    }
    Vec::with_capacity(alloc, size)
}

impl Reservoir {
    /// Makes an empty reservoir of `size` places, and allocates them now. One of size 0 counts and keeps nothing. Fails with
    /// `Error::Memory` when out of memory, and never at size 0.
    pub fn new(alloc: Global, size: usize) -> Result<Reservoir, Error>
        ensures { MatchResult result (λ r. r ≡ new_sample size) (λ e. (e ≡ OutOfMemory) × (0 < size)) }
    {
        Ok(Reservoir {
            values: room(alloc, size)?,
            size,
            pushed: 0,
            sum: 0,
        })
    }

    /// Returns whether no value was pushed.
    pub fn is_empty(&self) -> bool
        ensures { result ≡ (self.now.pushed == 0) }
    {
        self.pushed == 0
    }

    /// Returns how many values were pushed.
    pub fn pushed(&self) -> u64
        ensures { result ≡ self.now.pushed }
    {
        self.pushed
    }

    /// Adds a value, with a draw from 0 to the number of values before it, both included.
    ///
    /// While there is a free place the value takes the next one, and the draw is ignored. After that it replaces the value in
    /// the place that was drawn, if there is such a place. Fails with `Error::CountFull` if the count would pass 2^64 - 1.
    pub fn push(&mut self, value: i64, draw: u64) -> Result<(), Error>
        requires { draw ≤ self.old.pushed }
        ensures step { MatchResult result (λ _. self.new ≡ after_push value draw self.old)
            (λ e. (e ≡ CountFull) × (self.new ≡ self.old)) }
        ensures refused { IsErr result ↔ (u64.MAX < self.old.pushed + 1) }
    {
        if self.pushed == u64::MAX {
            return Err(Error::CountFull);
        }
        place(&mut self.values, self.size, self.pushed, value, draw);
        self.pushed += 1;
        self.sum += i128::from(value);
        Ok(())
    }

    /// Returns what it holds now.
    pub fn drain(&self) -> Drain<'_>
        ensures { result ≡ drain_of self.now }
    {
        Drain {
            rest: &self.values,
            held: self.values.len() as u64,
            pushed: self.pushed,
            sum: self.sum,
        }
    }

    /// Forgets all values.
    pub fn reset(&mut self)
        ensures { self.new ≡ new_sample self.old.places }
    {
        self.values.clear();
        self.pushed = 0;
        self.sum = 0;
    }

    /// Returns what it holds as an iterator. After that all values are forgotten, however few were read.
    pub fn consume<F: FnMut(Drain<'_>)>(&mut self, mut f: F)
        requires { F.pre f (drain_of self.old) }
        ensures called { (after : F) × F.step f (drain_of self.old) tt after }
        ensures emptied { self.new ≡ new_sample self.old.places }
    {
        f(self.drain());
        self.reset();
    }
}

/// Stores the value of an index at its place, if it gets one.
fn place(values: &mut Vec<i64>, size: usize, index: u64, value: i64, draw: u64)
    requires filled { length values.old.items ≡ min size index }
    requires room { size ≤ vec_capacity values.old }
    ensures step { values.new.items ≡ place_step size index value draw values.old.items }
    ensures filled { length values.new.items ≡ min size (index + 1) }
    ensures room { size ≤ vec_capacity values.new }
{
    if index < size as u64 {
        let Ok(()) = values.push(value) else {
            unreachable!()
        };
        return;
    }
    if draw < size as u64 {
        values[draw as usize] = value;
    }
}

/// What a reservoir held: an iterator over the values in its places.
#[derive(Drop)]
pub struct Drain<'a> {
    rest: &'a [i64],
    held: u64,
    pushed: u64,
    sum: i128,
}

impl<'a> Model for Drain<'a> {
    ghost Value = { Drained };

    ghost view = { λ d. record { left = d.rest.now; held = d.held; pushed = d.pushed; total = d.sum } };
}

impl<'a> Drain<'a> {
    /// Returns how many values were pushed.
    pub fn unsampled_len(&self) -> u64
        ensures { result ≡ self.now.pushed }
    {
        self.pushed
    }

    /// Returns how many values were held, of how many that were pushed, and (1, 1) if none was dropped.
    pub fn sample_rate(&self) -> (u64, u64)
        ensures { result ≡ rate_of self.now }
    {
        if self.held == self.pushed {
            (1, 1)
        } else {
            (self.held, self.pushed)
        }
    }

    /// Returns the sum of all values that were pushed.
    pub fn unsampled_sum(&self) -> i128
        ensures { result ≡ self.now.total }
    {
        self.sum
    }
}

impl<'a> Iterator for Drain<'a> {
    type Item = i64;

    ghost next_gives = { drain_step };

    ghost remaining = { λ d. at_most (length d.left) };

    fn next(&mut self) -> Option<i64> {
        let (first, rest) = self.rest.split_first()?;
        self.rest = rest;
        Some(*first)
    }

    fn size_hint(&self) -> (usize, Option<usize>)
        ensures lower { result.0 ≤ length self.now.left }
        ensures upper { IfSome result.1 (UpTo (at_most (length self.now.left))) }
        ensures exact { result ≡ (length self.now.left, Some (length self.now.left)) }
    {
        (self.rest.len(), Some(self.rest.len()))
    }
}

impl<'a> ExactSizeIterator for Drain<'a> {
    fn len(&self) -> usize {
        self.rest.len()
    }
}
