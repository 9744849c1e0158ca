//! Quantiles and their labels, and composite keys.

use crate::values::check;
use metrics::{CompositeKey, Key, MetricKind};
use metrics_registry::{Quantile, parse_quantiles};
use std::cmp::Ordering;
use std::process::Abort;

const LABELS: [(i64, &str); 11] = [
    (990_000_000, "p99"),
    (550_000_000, "p55"),
    (5_000_000, "p05"),
    (1, "p00000001"),
    (-1, "min"),
    (-1_000_000_000, "min"),
    (0, "min"),
    (999_000_000, "p999"),
    (999_900_000, "p9999"),
    (1_000_000_000, "max"),
    (1_200_000_000, "max"),
];

#[test]
fn labels_of_quantiles(rt: HostRuntime) {
    for (value, label) in LABELS {
        let quantile = Quantile::new(rt.alloc(), value).expect(&rt, "out of memory");
        check(&rt, quantile.label() == label);
        drop(quantile);
    }
}

/// Quantiles that are parsed together, and their labels.
const PARSED: [(&[i64], &[&str]); 2] = [
    (&[], &[]),
    (&[0, 500_000_000, 1_000_000_000], &["min", "p50", "max"]),
];

fn expect_labels(rt: &impl Abort, quantiles: &[Quantile], labels: &[&str]) {
    check(rt, quantiles.len() == labels.len());
    for (quantile, label) in quantiles.iter().zip(labels) {
        check(rt, quantile.label() == *label);
    }
}

#[test]
fn quantiles_are_parsed_in_order(rt: HostRuntime) {
    for (values, labels) in PARSED {
        let quantiles = parse_quantiles(rt.alloc(), values).expect(&rt, "out of memory");
        expect_labels(&rt, quantiles.as_slice(), labels);
        drop(quantiles);
    }
}

/// Parts of 1,000,000,000, and the value of that rank among 10, 20, 30 and 40: the rank is rounded up.
const RANKED: [(i64, i64); 5] = [
    (0, 10),
    (250_000_000, 10),
    (250_000_001, 20),
    (750_000_001, 40),
    (1_000_000_000, 40),
];

#[test]
fn quantiles_of_sorted_values(rt: HostRuntime) {
    for (value, wanted) in RANKED {
        let quantile = Quantile::new(rt.alloc(), value).expect(&rt, "out of memory");
        check(&rt, quantile.of_sorted(&[10, 20, 30, 40]) == Some(wanted));
        check(&rt, quantile.of_sorted(&[]) == None);
        drop(quantile);
    }
}

#[test]
fn a_counter_comes_before_a_gauge_of_its_key(rt: HostRuntime) {
    let key = || Key::from_name(rt.alloc(), "a").expect(&rt, "out of memory");
    let counter = CompositeKey::new(MetricKind::Counter, key());
    let gauge = CompositeKey::new(MetricKind::Gauge, key());
    check(&rt, counter != gauge);
    check(&rt, counter.cmp(&gauge) == Ordering::Less);
    drop(gauge);
    drop(counter);
}

#[test]
fn a_composite_key_comes_apart(rt: HostRuntime) {
    let key = || {
        let key = Key::from_labels(rt.alloc(), "a", &[("x", "1"), ("y", "2")]);
        key.expect(&rt, "out of memory")
    };
    let (kind, parted) = CompositeKey::new(MetricKind::Gauge, key()).into_parts();
    check(&rt, kind == MetricKind::Gauge && parted == key());
    drop(parted);
}
