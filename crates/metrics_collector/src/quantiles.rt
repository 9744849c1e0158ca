//! Upper bounds for the quantiles of histograms.
ghost use Rattle.std.specs.Prelude.{◌≡◌, MatchResult};
ghost use Rattle.metrics.specs.declared.error.Error.TheVariants.{Memory as OutOfMemory};
ghost use Rattle.metrics_collector.specs.Quantiles.{rank_of, better, least_reaching, quantile_bound};

use metrics::Error;
use metrics_registry::Quantile;
use metrics_storage::Histogram;

/// The rank of a quantile in billionths among so many samples.
fn rank_of(billionths: u64, count: u64) -> u128
    ensures { result ≡ rank_of billionths count }
{
    let parts = u128::from(billionths) * u128::from(count);
    ((parts + 999_999_999) / 1_000_000_000).max(1)
}

/// The lesser of the least bound so far and that of a bucket, if the bucket has at least so many samples.
fn better(rank: u128, least: Option<i64>, bound: i64, count: u64) -> Option<i64>
    ensures { result ≡ better rank least (bound, count) }
{
    if u128::from(count) < rank {
        return least;
    }
    match least {
        None => Some(bound),
        Some(other) => {
            if other <= bound {
                Some(other)
            } else {
                Some(bound)
            }
        }
    }
}

/// The least bound that at least so many samples are at most.
fn least_reaching(rank: u128, buckets: &[(i64, u64)]) -> Option<i64>
    ensures { result ≡ least_reaching rank buckets.now }
{
    let mut least = None;
    for (bound, count) in buckets {
        least = better(rank, least, *bound, *count);
    }
    least
}

/// Returns the least bound of a histogram that the sample at a quantile is at most, and `None` if that sample is above all
/// bounds, or there is none.
///
/// The sample is the one of the nearest rank, as `Quantile::of_sorted` has it. Fails with `Error::Memory` when out of memory.
pub fn quantile_bound(samples: &Histogram, quantile: &Quantile) -> Result<Option<i64>, Error>
    ensures { MatchResult result (λ found. found ≡ quantile_bound quantile.now samples.now) (λ e. e ≡ OutOfMemory) }
{
    let buckets = samples.buckets()?;
    let rank = rank_of(quantile.value().unsigned_abs(), samples.count());
    Ok(least_reaching(rank, &buckets))
}
