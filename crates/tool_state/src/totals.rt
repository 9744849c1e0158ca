//! The counts and the sum of runs of equal samples.
ghost use Rattle.std.specs.Prelude.{◌≡◌, ◌<◌, ◌+◌, ◌+ℤ◌, ◌*ℤ◌, true, pos, length, if◌then◌else◌, IfSome, int_le, All};
ghost use Rattle.metrics_storage.specs.Histogram.{at_most, sum_of};
ghost use Rattle.tool_state.specs.Runs.{samples_in, AreSamplesOf};

use metrics_storage::Histogram;

/// A count with more, if they count.
fn with_more(count: u64, more: u64, counts: bool) -> Option<u64>
    ensures { IfSome result (λ n. n ≡ count + (if counts then more else 0)) }
{
    if counts {
        count.checked_add(more)
    } else {
        Some(count)
    }
}

/// How many samples are at most the bound.
fn count_at_most(runs: &[(u64, i64)], bound: i64) -> Option<u64>
    ensures { IfSome result (λ n. n ≡ at_most bound (samples_in runs.now)) }
{
    let mut count = 0u64;
    for (times, sample) in runs {
        count = with_more(count, *times, *sample <= bound)?;
    }
    Some(count)
}

/// How many samples there are.
fn count_all(runs: &[(u64, i64)]) -> Option<u64>
    ensures { IfSome result (λ n. n ≡ length (samples_in runs.now)) }
{
    let mut count = 0u64;
    for (times, _sample) in runs {
        count = count.checked_add(*times)?;
    }
    Some(count)
}

/// A sum with so many equal samples more.
fn with_run(sum: i128, times: u64, sample: i64) -> Option<i128>
    ensures { IfSome result (λ n. n ≡ sum +ℤ pos times *ℤ sample) }
{
    let own = i128::from(times).checked_mul(i128::from(sample))?;
    sum.checked_add(own)
}

/// The sum of all samples.
fn sum_all(runs: &[(u64, i64)]) -> Option<i128>
    ensures { IfSome result (λ n. n ≡ sum_of (samples_in runs.now)) }
{
    let mut sum = 0i128;
    for (times, sample) in runs {
        sum = with_run(sum, *times, *sample)?;
    }
    Some(sum)
}

/// Whether so many samples are at most the bound.
fn has_count(runs: &[(u64, i64)], bound: i64, count: u64) -> bool
    ensures { result ≡ true → count ≡ at_most bound (samples_in runs.now) }
{
    match count_at_most(runs, bound) {
        Some(found) => found == count,
        None => false,
    }
}

/// Whether each bucket has its count.
fn has_counts(runs: &[(u64, i64)], buckets: &[(i64, u64)]) -> bool
    ensures { result ≡ true → All (λ b. b.1 ≡ at_most b.0 (samples_in runs.now)) buckets.now }
{
    for (bound, count) in buckets {
        if !has_count(runs, *bound, *count) {
            return false;
        }
    }
    true
}

/// Whether there are so many samples.
fn has_number(runs: &[(u64, i64)], count: u64) -> bool
    ensures { result ≡ true → (0 < count) × (count ≡ length (samples_in runs.now)) }
{
    match count_all(runs) {
        Some(found) => 0 < count && found == count,
        None => false,
    }
}

/// Whether the samples have this sum.
fn has_sum(runs: &[(u64, i64)], sum: i128) -> bool
    ensures { result ≡ true → sum ≡ sum_of (samples_in runs.now) }
{
    match sum_all(runs) {
        Some(found) => found == sum,
        None => false,
    }
}

/// Whether the samples have the counts and the sum of a histogram with these buckets.
pub(crate) fn are_samples_of(
    runs: &[(u64, i64)],
    histogram: &Histogram,
    buckets: &[(i64, u64)],
) -> bool
    requires { buckets.now ≡ histogram.now.buckets }
    ensures { result ≡ true → AreSamplesOf runs.now histogram.now }
{
    if !has_number(runs, histogram.count()) {
        return false;
    }
    if !has_sum(runs, histogram.sum()) {
        return false;
    }
    has_counts(runs, buckets)
}
