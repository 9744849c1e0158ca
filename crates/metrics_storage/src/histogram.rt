//! A histogram over fixed bounds.
//!
//! Its counts are 64-bit words, and a sample past the greatest is refused. Its sum has 128 bits, which so many samples
//! can't pass.
ghost use Rattle.std.specs.Prelude.{◌≡◌, ◌+◌, ◌^◌, ◌<◌, ◌≤◌, [], ◌∷◌, length, replicate, None};
ghost use Rattle.std.specs.Prelude.{IfOk, IsErr, IsTrue, MatchResult, MatchOption, Ok, OnOk, ◌↔◌};
ghost use Rattle.metrics_storage.specs.Histogram.{Distribution, sum_of, no_samples, with_samples, sum_up_to, buckets_of};
ghost use Rattle.std.specs.Arc.{arc_value};
ghost use Rattle.std.specs.Prelude.{All, FitsSigned};
ghost use Rattle.std.specs.Int.{w64};
ghost use Rattle.metrics_storage.specs.Histogram.{ascending, order_of};
ghost use Rattle.metrics_storage.specs.Histogram.{ranked, all_ranked, total, IsSumOf, own_ranks};
ghost use Rattle.metrics_storage.specs.Histogram.{TakesBuckets, ShowsBuckets, bounds_of, merged, both_ranked};
ghost use Rattle.metrics.specs.declared.error.Error.TheVariants.{Memory as OutOfMemory, CountFull};

use crate::scale::{Scale, rank_of};
use metrics::Error;
use std::alloc::{AllocError, Global};
use std::marker::Model;
use std::sync::Arc;

/// For each of its bounds the number of samples that are at most that bound, and the count and the sum of all.
///
/// The bounds keep the caller's order. They may fall, and they may be repeated.
#[derive(Drop)]
pub struct Histogram {
    /// A clone has the same.
    scale: Arc<Scale>,
    /// At each rank the number of samples above so many bounds. A bucket is the sum up to its bound's own rank. So a sample
    /// changes one number, whatever the order of the bounds.
    ranks: Vec<u64>,
    count: u64,
    sum: i128,
}

impl Model for Histogram {
    ghost Value = { Distribution };

    ghost view = { λ h. record { buckets = buckets_of (arc_value h.scale) h.ranks.items; count = h.count; sum = h.sum } };

    ghost invariant = { λ h. (length h.ranks.items ≡ length (arc_value h.scale) + 1)
        × (total h.ranks.items ≡ h.count) × (h.count < 2 ^ 64) × IsSumOf h.count h.sum };
}

impl Histogram {
    /// Makes a histogram without samples, and returns `None` if there are no bounds.
    ///
    /// Fails with `Error::Memory` when out of memory. Without bounds it allocates nothing.
    pub fn new(alloc: Global, bounds: &[i64]) -> Result<Option<Histogram>, Error>
        ensures { MatchResult result
            (λ found. MatchOption found (bounds.now ≡ [])
            (λ h. (0 < length bounds.now) × (h ≡ no_samples bounds.now) × All (FitsSigned w64) bounds.now))
            (λ e. (e ≡ OutOfMemory) × (0 < length bounds.now)) }
    {
        if bounds.is_empty() {
            return Ok(None);
        }
        Ok(Some(Histogram {
            scale: Arc::new(alloc, Scale::new(alloc, bounds)?)?,
            ranks: zeros(alloc, bounds.len() + 1)?,
            count: 0,
            sum: 0,
        }))
    }

    /// Makes a histogram without samples at the same bounds, which both share.
    pub fn new_like(&self) -> Result<Histogram, AllocError>
        ensures { IfOk result (λ h. h ≡ no_samples (bounds_of self.now)) }
    {
        Ok(Histogram {
            scale: self.scale.clone()?,
            ranks: zeros(*self.ranks.allocator(), self.ranks.len())?,
            count: 0,
            sum: 0,
        })
    }

    /// Returns the bounds, in the caller's order.
    pub fn bounds(&self) -> &[i64]
        ensures value { result.now ≡ bounds_of self.now }
        ensures fits { All (FitsSigned w64) (bounds_of self.now) }
    {
        self.scale.bounds()
    }

    /// Returns the sum of all samples.
    pub fn sum(&self) -> i128
        ensures { result ≡ self.now.sum }
    {
        self.sum
    }

    /// Returns the number of all samples.
    pub fn count(&self) -> u64
        ensures { result ≡ self.now.count }
    {
        self.count
    }

    /// Returns each bound with the number of samples at most that bound, in the caller's order of the bounds. Fails with
    /// `Error::Memory` when out of memory.
    pub fn buckets(&self) -> Result<Vec<(i64, u64)>, Error>
        ensures { MatchResult result (λ v. v.items ≡ self.now.buckets) (λ e. e ≡ OutOfMemory) }
    {
        Ok(bucket_counts(
            *self.ranks.allocator(),
            self.scale.bounds(),
            self.scale.own(),
            &self.ranks,
        )?)
    }

    /// Calls `f` once for each bound, with the number of samples at most that bound, in the caller's order of the bounds.
    /// Returns `f` as the calls left it. It allocates nothing.
    ///
    /// One pass over the counts serves bounds that rise or that fall. Where they turn, it goes back over those between.
    pub fn visit_buckets<F: FnMut(i64, u64)>(&self, f: F) -> F
        requires { TakesBuckets F.FnMut f self.now.buckets }
        ensures { ShowsBuckets F.FnMut f self.now.buckets result }
    {
        show(self.scale.bounds(), self.scale.own(), &self.ranks, f)
    }

    /// Calls `f` once for each bound, with the number of samples at most that bound, in ascending order, and returns it as the
    /// calls left it. A repeated bound is shown once. It allocates nothing.
    pub fn visit_ascending<F: FnMut(i64, u64)>(&self, f: F) -> F
        requires { TakesBuckets F.FnMut f (ascending self.now.buckets) }
        ensures { ShowsBuckets F.FnMut f (ascending self.now.buckets) result }
    {
        let scale = &self.scale;
        show_in_order(scale.bounds(), scale.own(), scale.order(), &self.ranks, f)
    }

    /// Adds a sample. Fails with `Error::CountFull` if the count would pass 2^64 - 1.
    pub fn record(&mut self, sample: i64) -> Result<(), Error>
        ensures step { MatchResult result (λ _. self.new ≡ with_samples (sample ∷ []) self.old)
            (λ e. (e ≡ CountFull) × (self.new ≡ self.old)) }
        ensures refused { IsErr result ↔ (u64.MAX < self.old.count + 1) }
    {
        if self.count == u64::MAX {
            return Err(Error::CountFull);
        }
        add_sample(self.scale.bounds(), &mut self.ranks, sample);
        self.count += 1;
        self.sum += i128::from(sample);
        Ok(())
    }

    /// Adds samples, each as `record` does. Fails with `Error::CountFull`, and adds none, if the count would pass 2^64 - 1.
    pub fn record_many(&mut self, samples: &[i64]) -> Result<(), Error>
        ensures step { MatchResult result (λ _. self.new ≡ with_samples samples.now self.old)
            (λ e. (e ≡ CountFull) × (self.new ≡ self.old)) }
        ensures refused { IsErr result ↔ (u64.MAX < self.old.count + length samples.now) }
    {
        if u64::MAX - self.count < samples.len() as u64 {
            return Err(Error::CountFull);
        }
        add_samples(self.scale.bounds(), &mut self.ranks, samples);
        self.sum += sum_all(samples);
        self.count += samples.len() as u64;
        Ok(())
    }

    /// Returns whether the other histogram has the same bounds in the same order.
    pub fn same_bounds(&self, other: &Histogram) -> bool
        ensures { IsTrue result ↔ (bounds_of self.now ≡ bounds_of other.now) }
    {
        self.scale.bounds() == other.scale.bounds()
    }

    /// Adds the samples of a histogram with the same bounds in the same order. It allocates nothing.
    ///
    /// # Errors
    ///
    /// `Error::CountFull` if the counts together would pass 2^64 - 1.
    pub fn merge(&mut self, other: &Histogram) -> Result<(), Error>
        requires { bounds_of self.old ≡ bounds_of other.now }
        ensures step { MatchResult result (λ _. self.new ≡ merged self.old other.now)
            (λ e. (e ≡ CountFull) × (self.new ≡ self.old)) }
        ensures refused { IsErr result ↔ (u64.MAX < self.old.count + other.now.count) }
    {
        if u64::MAX - self.count < other.count {
            return Err(Error::CountFull);
        }
        add_ranks(&mut self.ranks, &other.ranks);
        self.sum += other.sum;
        self.count += other.count;
        Ok(())
    }
}

impl Clone for Histogram {
    ghost is_clone = { λ x y. y ≡ x };

    fn clone(&self) -> Result<Histogram, AllocError> {
        Ok(Histogram {
            scale: self.scale.clone()?,
            ranks: self.ranks.clone()?,
            count: self.count,
            sum: self.sum,
        })
    }
}

/// So many zeros.
fn zeros(alloc: Global, len: usize) -> Result<Vec<u64>, AllocError>
    ensures { IfOk result (λ v. v.items ≡ replicate len 0) }
{
    Vec::from_elem(alloc, 0, len)
}

/// Each bound with its count.
fn bucket_counts(
    alloc: Global,
    bounds: &[i64],
    own: &[usize],
    ranks: &[u64],
) -> Result<Vec<(i64, u64)>, AllocError>
    requires same { length ranks.now ≡ length bounds.now + 1 }
    requires fits { total ranks.now ≤ u64.MAX }
    requires own { own.now ≡ own_ranks bounds.now }
    ensures { IfOk result (λ v. v.items ≡ buckets_of bounds.now ranks.now) }
{
    let mut bucket_counts = Vec::with_capacity(alloc, bounds.len())?;
    let mut first = 0usize;
    let mut sum = 0u64;
    for i in 0..bounds.len() {
        let next = own[i] + 1;
        sum = moved(ranks, first, sum, next);
        first = next;
        bucket_counts.push((bounds[i], sum))?;
    }
    Ok(bucket_counts)
}

/// Shows each bound with its count to `f`.
fn show<F: FnMut(i64, u64)>(bounds: &[i64], own: &[usize], ranks: &[u64], f: F) -> F
    requires same { length ranks.now ≡ length bounds.now + 1 }
    requires fits { total ranks.now ≤ u64.MAX }
    requires own { own.now ≡ own_ranks bounds.now }
    requires takes { TakesBuckets F.FnMut f (buckets_of bounds.now ranks.now) }
    ensures { ShowsBuckets F.FnMut f (buckets_of bounds.now ranks.now) result }
{
    let mut f = f;
    let mut first = 0usize;
    let mut sum = 0u64;
    for i in 0..bounds.len() {
        let next = own[i] + 1;
        sum = moved(ranks, first, sum, next);
        first = next;
        f(bounds[i], sum);
    }
    f
}

/// Shows each bound with its count to `f`, in ascending order.
fn show_in_order<F: FnMut(i64, u64)>(
    bounds: &[i64],
    own: &[usize],
    order: &[usize],
    ranks: &[u64],
    f: F,
) -> F
    requires same { length ranks.now ≡ length bounds.now + 1 }
    requires fits { total ranks.now ≤ u64.MAX }
    requires own { own.now ≡ own_ranks bounds.now }
    requires order { order.now ≡ order_of bounds.now }
    requires takes { TakesBuckets F.FnMut f (ascending (buckets_of bounds.now ranks.now)) }
    ensures { ShowsBuckets F.FnMut f (ascending (buckets_of bounds.now ranks.now)) result }
{
    let mut f = f;
    let mut first = 0usize;
    let mut sum = 0u64;
    for at in order {
        let i = *at;
        let next = own[i] + 1;
        sum = moved(ranks, first, sum, next);
        first = next;
        f(bounds[i], sum);
    }
    f
}

/// The sum of the first `to` numbers, from that of the first `from`.
fn moved(ranks: &[u64], from: usize, sum: u64, to: usize) -> u64
    requires within { (from ≤ length ranks.now) × (to ≤ length ranks.now) }
    requires fits { total ranks.now ≤ u64.MAX }
    requires sum { sum ≡ sum_up_to from ranks.now }
    ensures { result ≡ sum_up_to to ranks.now }
{
    if from <= to {
        raised(ranks, from, sum, to)
    } else {
        lowered(ranks, from, sum, to)
    }
}

/// The sum of the first `to` numbers, from that of fewer.
fn raised(ranks: &[u64], from: usize, sum: u64, to: usize) -> u64
    requires within { (from ≤ to) × (to ≤ length ranks.now) }
    requires fits { total ranks.now ≤ u64.MAX }
    requires sum { sum ≡ sum_up_to from ranks.now }
    ensures { result ≡ sum_up_to to ranks.now }
{
    let mut sum = sum;
    for i in from..to {
        sum += ranks[i];
    }
    sum
}

/// The sum of the first `to` numbers, from that of more.
fn lowered(ranks: &[u64], from: usize, sum: u64, to: usize) -> u64
    requires within { (to ≤ from) × (from ≤ length ranks.now) }
    requires sum { sum ≡ sum_up_to from ranks.now }
    ensures { result ≡ sum_up_to to ranks.now }
{
    let mut sum = sum;
    for i in to..from {
        sum -= ranks[i];
    }
    sum
}

/// Counts a sample at its rank.
fn add_sample(bounds: &[i64], ranks: &mut [u64], sample: i64)
    requires same { length ranks.old ≡ length bounds.now + 1 }
    requires room { total ranks.old < u64.MAX }
    ensures { ranks.new ≡ ranked bounds.now sample ranks.old }
{
    ranks[rank_of(bounds, sample)] += 1;
}

/// Counts each sample at its rank.
fn add_samples(bounds: &[i64], ranks: &mut [u64], samples: &[i64])
    requires same { length ranks.old ≡ length bounds.now + 1 }
    requires room { total ranks.old + length samples.now ≤ u64.MAX }
    ensures { ranks.new ≡ all_ranked bounds.now samples.now ranks.old }
{
    for sample in samples {
        add_sample(bounds, ranks, *sample);
    }
}

/// Adds to each number the one at its place.
fn add_ranks(ranks: &mut [u64], more: &[u64])
    requires same { length ranks.old ≡ length more.now }
    requires room { total ranks.old + total more.now ≤ u64.MAX }
    ensures { ranks.new ≡ both_ranked ranks.old more.now }
{
    for i in 0..more.len() {
        ranks[i] += more[i];
    }
}

/// The sum of samples.
fn sum_all(samples: &[i64]) -> i128
    requires { length samples.now < 2 ^ 64 }
    ensures value { result ≡ sum_of samples.now }
    ensures fits { IsSumOf (length samples.now) result }
{
    let mut sum = 0i128;
    for sample in samples {
        sum += i128::from(*sample);
    }
    sum
}
