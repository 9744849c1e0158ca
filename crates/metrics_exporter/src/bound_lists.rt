//! Lists of bounds, made by a rule.
ghost use Rattle.std.specs.Prelude.{◌≡◌, ◌<◌, ◌⊎◌, ◌+ℤ◌, ◌*ℤ◌, ◌<ℤ◌, ◌↔◌, pos};
ghost use Rattle.std.specs.Prelude.{IfOk, IfErr, IfSome, IsSome, OnOk, MatchResult, FitsSigned};
ghost use Rattle.std.specs.Int.{w64};
ghost use Rattle.metrics_exporter.specs.declared.bound_lists.BoundsError.TheVariants.{Memory as OutOfMemory, Overflow as Past};
ghost use Rattle.metrics_exporter.specs.declared.bound_lists.BoundsError.TheVariants.{BadStart as NotStart};
ghost use Rattle.metrics_exporter.specs.declared.bound_lists.BoundsError.TheVariants.{BadWidth as NotWidth};
ghost use Rattle.metrics_exporter.specs.declared.bound_lists.BoundsError.TheVariants.{BadFactor as NotFactor};
ghost use Rattle.metrics_exporter.specs.declared.bound_lists.BoundsError.TheVariants.{BadCount as NotCount};
ghost use Rattle.metrics_exporter.specs.BoundLists.{AreSteps, OneIsPast, stepped};

use crate::bounds::Bounds;
use std::alloc::{AllocError, AllocFailed, Global};
use thiserror::Error as ThisError;

/// Why no list of bounds was made.
#[derive(Clone, Copy, Debug, PartialEq, Eq, ThisError)]
pub enum BoundsError {
    /// Out of memory.
    #[error("memory")]
    Memory,
    /// The start of bounds that are multiplied is less than 1.
    #[error("bad start: wanted 1 or more")]
    BadStart,
    /// The width is less than 1.
    #[error("bad width: wanted 1 or more")]
    BadWidth,
    /// The factor is less than 2.
    #[error("bad factor: wanted 2 or more")]
    BadFactor,
    /// There would be no bounds.
    #[error("bad count: wanted 1 or more")]
    BadCount,
    /// A bound would pass 2^63 - 1.
    #[error("bad count: wanted no bound above 9223372036854775807")]
    Overflow,
}

impl From<AllocError> for BoundsError {
    ghost from_gives = { λ e r. r ≡ OutOfMemory };

    fn from(_error: AllocError) -> BoundsError {
        BoundsError::Memory
    }
}

impl<T: Drop> From<AllocFailed<T>> for BoundsError {
    ghost from_gives = { λ e r. r ≡ OutOfMemory };

    fn from(_error: AllocFailed<T>) -> BoundsError {
        BoundsError::Memory
    }
}

/// What leads from a bound to the next.
#[derive(Clone, Copy)]
enum Step {
    Add(i64),
    Multiply(i64),
}

impl Step {
    /// Returns the next bound, if it fits.
    fn after(self, bound: i64) -> Option<i64>
        ensures value { IfSome result (λ b. b ≡ stepped self bound) }
        ensures fits { IsSome result ↔ FitsSigned w64 (stepped self bound) }
    {
        match self {
            Step::Add(width) => bound.checked_add(width),
            Step::Multiply(factor) => bound.checked_mul(factor),
        }
    }
}

/// Returns this many bounds.
fn steps(alloc: Global, start: i64, step: Step, count: usize) -> Result<Vec<i64>, BoundsError>
    ensures ok { IfOk result (λ v. AreSteps (stepped step) start count v.items) }
    ensures err { IfErr result (λ e. (e ≡ OutOfMemory) ⊎ ((e ≡ Past) × OneIsPast (stepped step) start count)) }
{
    let mut bounds = Vec::new(alloc);
    let mut next = Some(start);
    for k in 0..count {
        let Some(bound) = next else {
            return Err(BoundsError::Overflow);
        };
        bounds.push(bound)?;
        next = step.after(bound);
    }
    Ok(bounds)
}

impl Bounds {
    /// Returns `count` bounds for `new`, `set` or `set_exact`: the start, and each other one the width above the one before.
    ///
    /// # Errors
    ///
    /// `BadWidth` if the width is less than 1, otherwise `BadCount` if the count is 0. Otherwise `Overflow`, only if a bound
    /// would pass 2^63 - 1, and `Memory`.
    pub fn linear(
        alloc: Global,
        start: i64,
        width: i64,
        count: usize,
    ) -> Result<Vec<i64>, BoundsError>
        ensures bounds { IfOk result (λ v. AreSteps (λ b. b +ℤ width) start count v.items) }
        ensures width { width <ℤ pos 1 → MatchResult result (λ v. ⊥) (λ e. e ≡ NotWidth) }
        ensures count { pos 0 <ℤ width → count ≡ 0 → MatchResult result (λ v. ⊥) (λ e. e ≡ NotCount) }
        ensures err { pos 0 <ℤ width → 0 < count
            → IfErr result (λ e. (e ≡ OutOfMemory) ⊎ ((e ≡ Past) × OneIsPast (λ b. b +ℤ width) start count)) }
    {
        if width < 1 {
            return Err(BoundsError::BadWidth);
        }
        if count == 0 {
            return Err(BoundsError::BadCount);
        }
        steps(alloc, start, Step::Add(width), count)
    }

    /// Returns `count` bounds for `new`, `set` or `set_exact`: the start, and each other one the factor times the one before.
    ///
    /// # Errors
    ///
    /// `BadStart` if the start is less than 1, otherwise `BadFactor` if the factor is less than 2, otherwise `BadCount` if the
    /// count is 0. Otherwise `Overflow`, only if a bound would pass 2^63 - 1, and `Memory`.
    pub fn exponential(
        alloc: Global,
        start: i64,
        factor: i64,
        count: usize,
    ) -> Result<Vec<i64>, BoundsError>
        ensures bounds { IfOk result (λ v. AreSteps (λ b. b *ℤ factor) start count v.items) }
        ensures start { start <ℤ pos 1 → MatchResult result (λ v. ⊥) (λ e. e ≡ NotStart) }
        ensures factor { pos 0 <ℤ start → factor <ℤ pos 2 → MatchResult result (λ v. ⊥) (λ e. e ≡ NotFactor) }
        ensures count { pos 0 <ℤ start → pos 1 <ℤ factor → count ≡ 0
            → MatchResult result (λ v. ⊥) (λ e. e ≡ NotCount) }
        ensures err { pos 0 <ℤ start → pos 1 <ℤ factor → 0 < count
            → IfErr result (λ e. (e ≡ OutOfMemory) ⊎ ((e ≡ Past) × OneIsPast (λ b. b *ℤ factor) start count)) }
    {
        if start < 1 {
            return Err(BoundsError::BadStart);
        }
        if factor < 2 {
            return Err(BoundsError::BadFactor);
        }
        if count == 0 {
            return Err(BoundsError::BadCount);
        }
        steps(alloc, start, Step::Multiply(factor), count)
    }
}
