//! Samples that have the counts and the sum of a histogram: a few values, each many times.
ghost use Rattle.std.specs.Prelude.{IfOk};
ghost use Rattle.tool_state.specs.Runs.{AreSamplesOf};

use crate::error::StateError;
use crate::totals::are_samples_of;
use metrics_storage::Histogram;
use std::alloc::{AllocError, Global};

/// How many samples are from `low` to `high`.
#[derive(Clone, Copy)]
struct Rank {
    times: u64,
    low: i64,
    high: i64,
}

impl Rank {
    /// The value that its samples have first: the one that is nearest to the bounds.
    fn base(&self) -> i64 {
        if self.low == i64::MIN {
            self.high
        } else {
            self.low
        }
    }

    /// The sum of its samples at first.
    fn base_sum(&self) -> i128 {
        i128::from(self.times).saturating_mul(i128::from(self.base()))
    }

    /// How much of an excess its samples can have.
    fn share(&self, excess: i128) -> i128 {
        let times = i128::from(self.times);
        let base = i128::from(self.base());
        let most = times.saturating_mul(i128::from(self.high).saturating_sub(base));
        let least = times.saturating_mul(i128::from(self.low).saturating_sub(base));
        excess.min(most).max(least)
    }
}

/// The samples between bounds, from ascending buckets.
fn ranks_of(alloc: Global, ascending: &[(i64, u64)], count: u64) -> Result<Vec<Rank>, AllocError> {
    let mut ranks = Vec::new(alloc);
    let mut low = i64::MIN;
    let mut before = 0u64;
    for (bound, at_most) in ascending {
        ranks.push(Rank {
            times: at_most.saturating_sub(before),
            low,
            high: *bound,
        })?;
        low = bound.saturating_add(1);
        before = *at_most;
    }
    ranks.push(Rank {
        times: count.saturating_sub(before),
        low,
        high: i64::MAX,
    })?;
    Ok(ranks)
}

/// What a sum has beyond that of the first values.
fn excess_of(ranks: &[Rank], sum: i128) -> i128 {
    let mut excess = sum;
    for rank in ranks {
        excess = excess.saturating_sub(rank.base_sum());
    }
    excess
}

fn push_run(runs: &mut Vec<(u64, i64)>, times: i128, value: i128) -> Result<(), AllocError> {
    let times = u64::try_from(times).unwrap_or(0);
    if times == 0 {
        return Ok(());
    }
    runs.push((times, i64::try_from(value).unwrap_or(0)))?;
    Ok(())
}

/// Adds so many samples with this sum, of two neighboring values at most.
fn push_even(runs: &mut Vec<(u64, i64)>, times: u64, sum: i128) -> Result<(), AllocError> {
    let times = i128::from(times);
    let value = sum.checked_div_euclid(times).unwrap_or(0);
    let greater = sum.checked_rem_euclid(times).unwrap_or(0);
    push_run(runs, times.saturating_sub(greater), value)?;
    push_run(runs, greater, value.saturating_add(1))
}

/// Samples for these ranks with this sum, if there are any.
fn spread(alloc: Global, ranks: &[Rank], sum: i128) -> Result<Vec<(u64, i64)>, AllocError> {
    let mut runs = Vec::new(alloc);
    let mut excess = excess_of(ranks, sum);
    for rank in ranks {
        let share = rank.share(excess);
        excess = excess.saturating_sub(share);
        push_even(&mut runs, rank.times, rank.base_sum().saturating_add(share))?;
    }
    Ok(runs)
}

/// The buckets in ascending order.
fn ascending_of(alloc: Global, buckets: &[(i64, u64)]) -> Result<Vec<(i64, u64)>, AllocError> {
    let mut ascending = Vec::with_capacity(alloc, buckets.len())?;
    for bucket in buckets {
        ascending.push(*bucket)?;
    }
    ascending.sort_unstable();
    Ok(ascending)
}

/// Returns samples with the counts and the sum of a histogram that has some: values, and how many samples have each.
pub(crate) fn runs_of(alloc: Global, histogram: &Histogram) -> Result<Vec<(u64, i64)>, StateError>
    ensures { IfOk result (λ runs. AreSamplesOf runs.items histogram.now) }
{
    let buckets = histogram.buckets()?;
    let ascending = ascending_of(alloc, &buckets)?;
    let ranks = ranks_of(alloc, &ascending, histogram.count())?;
    let runs = spread(alloc, &ranks, histogram.sum())?;
    if are_samples_of(&runs, histogram, &buckets) {
        Ok(runs)
    } else {
        Err(StateError::NoLine)
    }
}
