//! Histograms over fixed bounds.

use crate::values::check;
use metrics::Error;
use metrics_storage::Histogram;
use std::alloc::Global;
use std::process::Abort;

/// The bounds of a histogram, the samples that it records at once and the one that follows alone, how many there are
/// and their sum, and the counts of its buckets.
struct Samples {
    bounds: &'static [i64],
    many: &'static [i64],
    one: i64,
    count: u64,
    sum: i128,
    buckets: &'static [(i64, u64)],
}

const SAMPLES: [Samples; 2] = [
    Samples {
        bounds: &[10, 25, 100],
        many: &[3, 2, 6, 12, 56, 82, 202, 100, 29],
        one: 89,
        count: 10,
        sum: 581,
        buckets: &[(10, 3), (25, 4), (100, 9)],
    },
    Samples {
        bounds: &[25, 10],
        many: &[],
        one: 12,
        count: 1,
        sum: 12,
        buckets: &[(25, 1), (10, 0)],
    },
];

/// A bucket after those that were shown before it, as one number.
fn shown(before: i64, (bound, count): (i64, u64)) -> i64 {
    before
        .wrapping_mul(100)
        .wrapping_add(bound)
        .wrapping_mul(100)
        .wrapping_add_unsigned(count)
}

/// Checks that a histogram reports these samples, and shows them too.
fn expect_refusal(rt: &impl Abort, histogram: &Histogram, samples: &Samples) {
    check(
        rt,
        (histogram.count(), histogram.sum()) == (samples.count, samples.sum),
    );
    let buckets = histogram.buckets().expect(rt, "out of memory");
    check(rt, buckets.as_slice() == samples.buckets);
    let mut found = 0;
    histogram.visit_buckets(|bound, count| found = shown(found, (bound, count)));
    let mut wanted = 0;
    for bucket in samples.buckets {
        wanted = shown(wanted, *bucket);
    }
    check(rt, found == wanted);
    drop(buckets);
}

/// Records, which allocates nothing, and copies.
fn expect_samples(rt: &impl Abort, alloc: Global, samples: &Samples) {
    let made = Histogram::new(alloc, samples.bounds).expect(rt, "out of memory");
    let mut histogram = made.expect(rt, "no histogram");
    histogram
        .record_many(samples.many)
        .expect(rt, "many records are refused");
    histogram
        .record(samples.one)
        .expect(rt, "a record is refused");
    expect_refusal(rt, &histogram, samples);
    let copy = histogram.clone().expect(rt, "out of memory");
    expect_refusal(rt, &copy, samples);
    drop(copy);
    drop(histogram);
}

#[test]
fn samples_are_counted_up_to_each_bound(rt: HostRuntime) {
    for samples in &SAMPLES {
        expect_samples(&rt, rt.alloc(), samples);
    }
}

#[test]
fn no_bounds_make_no_histogram(rt: HostRuntime) {
    let made = Histogram::new(rt.alloc(), &[]).expect(&rt, "refused");
    check(&rt, made.is_none());
    drop(made);
}

/// A histogram of these samples.
fn histogram_of(rt: &impl Abort, alloc: Global, bounds: &[i64], samples: &[i64]) -> Histogram {
    let made = Histogram::new(alloc, bounds).expect(rt, "out of memory");
    let mut histogram = made.expect(rt, "no bounds");
    histogram.record_many(samples).expect(rt, "count full");
    histogram
}

/// Adds the samples of a histogram of the same bounds.
fn merge(rt: &impl Abort, all: &mut Histogram, more: &Histogram) {
    check(rt, all.same_bounds(more));
    if all.same_bounds(more) {
        all.merge(more).expect(rt, "count full");
    }
}

/// Doubles the samples of a histogram, and adds one.
fn double_and_add(rt: &impl Abort, all: &mut Histogram, one: &Histogram) {
    let copy = all.clone().expect(rt, "out of memory");
    merge(rt, all, &copy);
    merge(rt, all, one);
    drop(copy);
}

#[test]
fn the_greatest_count_refuses_a_sample(rt: HostRuntime) {
    let one = histogram_of(&rt, rt.alloc(), &[10], &[3]);
    let mut full = histogram_of(&rt, rt.alloc(), &[10], &[3]);
    for _ in 0..63 {
        double_and_add(&rt, &mut full, &one);
    }
    check(&rt, full.record(3) == Err(Error::CountFull));
    check(&rt, full.record_many(&[3]) == Err(Error::CountFull));
    check(
        &rt,
        (full.count(), full.sum()) == (u64::MAX, 55_340_232_221_128_654_845),
    );
    let buckets = full.buckets().expect(&rt, "out of memory");
    check(&rt, buckets.as_slice() == [(10, u64::MAX)].as_slice());
    drop(buckets);
    drop(full);
    drop(one);
}

#[test]
fn merging_adds_the_samples(rt: HostRuntime) {
    let mut all = histogram_of(&rt, rt.alloc(), &[10, -5, 10], &[-7, 8]);
    let more = histogram_of(&rt, rt.alloc(), &[10, -5, 10], &[4, 12]);
    let other = histogram_of(&rt, rt.alloc(), &[-5, 10], &[]);
    check(&rt, !all.same_bounds(&other));
    check(&rt, all.bounds() == [10, -5, 10].as_slice());
    merge(&rt, &mut all, &more);
    check(&rt, (all.count(), all.sum()) == (4, 17));
    let mut found = 0;
    all.visit_ascending(|bound, count| found = shown(found, (bound, count)));
    check(&rt, found == -4_988_997);
    drop(other);
    drop(more);
    drop(all);
}
