//! What the histograms of the same bounds have alike.
ghost use Rattle.std.specs.Prelude.{◌≡◌, ◌<◌, ◌≤◌, ℤ, List, All, FitsSigned, IfOk, OnOk, length};
ghost use Rattle.std.specs.Int.{w64};
ghost use Rattle.metrics_storage.specs.Histogram.{order_of, own_ranks, place_added, rank};

use std::alloc::{AllocError, Global};
use std::marker::Model;

/// Bounds in the caller's order. Contracts see the bounds.
#[derive(Drop)]
pub(crate) struct Scale {
    bounds: Vec<i64>,
    /// The rank of each bound: how many of the bounds are below it.
    own: Vec<usize>,
    /// The places of the bounds in ascending order, equal bounds once.
    order: Vec<usize>,
}

impl Model for Scale {
    ghost Value = { List ℤ };

    ghost view = { λ s. s.bounds.items };

    ghost invariant = { λ s. (s.own.items ≡ own_ranks s.bounds.items) × (s.order.items ≡ order_of s.bounds.items)
        × All (FitsSigned w64) s.bounds.items };
}

impl Scale {
    /// Copies the bounds.
    pub fn new(alloc: Global, bounds: &[i64]) -> Result<Scale, AllocError>
        ensures same { IfOk result (λ s. s ≡ bounds.now) }
        ensures fits { IfOk result (λ _. All (FitsSigned w64) bounds.now) }
    {
        Ok(Scale {
            bounds: copy_of(alloc, bounds)?,
            own: ranks_of(alloc, bounds)?,
            order: order_of(alloc, bounds)?,
        })
    }

    /// Returns the bounds.
    pub fn bounds(&self) -> &[i64]
        ensures value { result.now ≡ self.now }
        ensures fits { All (FitsSigned w64) self.now }
    {
        &self.bounds
    }

    /// Returns the rank of each bound.
    pub fn own(&self) -> &[usize]
        ensures { result.now ≡ own_ranks self.now }
    {
        &self.own
    }

    /// Returns the places of the bounds in ascending order, equal bounds once.
    pub fn order(&self) -> &[usize]
        ensures { result.now ≡ order_of self.now }
    {
        &self.order
    }
}

/// A copy of the bounds, each of which has been read.
fn copy_of(alloc: Global, bounds: &[i64]) -> Result<Vec<i64>, AllocError>
    ensures same { IfOk result (λ v. v.items ≡ bounds.now) }
    ensures fits { IfOk result (λ _. All (FitsSigned w64) bounds.now) }
{
    let mut copy = Vec::with_capacity(alloc, bounds.len())?;
    for bound in bounds {
        copy.push(*bound)?;
    }
    Ok(copy)
}

/// Adds a bound's place before those of greater bounds, unless an equal bound is there.
fn add_place(bounds: &[i64], at: usize, order: &mut Vec<usize>) -> Result<(), AllocError>
    requires within { at < length bounds.now }
    requires order { All (λ k. k < length bounds.now) order.old.items }
    ensures { OnOk result (order.new.items ≡ place_added bounds.now at order.old.items) }
{
    let bound = bounds[at];
    for i in 0..order.len() {
        let other = bounds[order[i]];
        if bound < other {
            order.insert(i, at)?;
            return Ok(());
        }
        if bound == other {
            return Ok(());
        }
    }
    order.push(at)?;
    Ok(())
}

/// The places of the bounds in ascending order, equal bounds once.
fn order_of(alloc: Global, bounds: &[i64]) -> Result<Vec<usize>, AllocError>
    ensures { IfOk result (λ v. v.items ≡ order_of bounds.now) }
{
    let mut order = Vec::with_capacity(alloc, bounds.len())?;
    for at in 0..bounds.len() {
        add_place(bounds, at, &mut order)?;
    }
    Ok(order)
}

/// The rank of each bound.
fn ranks_of(alloc: Global, bounds: &[i64]) -> Result<Vec<usize>, AllocError>
    ensures { IfOk result (λ v. v.items ≡ own_ranks bounds.now) }
{
    let mut ranks = Vec::with_capacity(alloc, bounds.len())?;
    for bound in bounds {
        ranks.push(rank_of(bounds, *bound))?;
    }
    Ok(ranks)
}

/// How many of the bounds are below the sample.
pub(crate) fn rank_of(bounds: &[i64], sample: i64) -> usize
    ensures value { result ≡ rank bounds.now sample }
    ensures most { result ≤ length bounds.now }
{
    let mut rank = 0usize;
    for bound in bounds {
        rank += usize::from(*bound < sample);
    }
    rank
}
