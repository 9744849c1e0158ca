//! Bounds of exact names, and lists of bounds by a rule.

use crate::given::{MEMORY, expect_text, record};
use metrics::{Error, MetricKindMask};
use metrics_collector::{Bounds, BoundsError, Collector};
use std::process::Abort;
use test_trial::Trial;

/// Each name counts at 1, names that begin with `http.` at 2, and `http.took` at 3.
fn bounds<R: AllocGlobal + Abort>(rt: &R) -> Bounds {
    let mut bounds = Bounds::new(rt.alloc(), &[1]).expect(rt, MEMORY);
    let set = bounds.set(rt.alloc(), "http.", &[2]);
    set.expect(rt, MEMORY);
    let set = bounds.set_exact(rt.alloc(), "http.took", &[3]);
    set.expect(rt, MEMORY);
    bounds
}

/// A sample of 3 in histograms at these bounds.
const TOOK: &str = "# TYPE http_took histogram\n\
    http_took_bucket{le=\"3\"} 1\nhttp_took_bucket{le=\"+Inf\"} 1\nhttp_took_sum 3\nhttp_took_count 1\n\
    # TYPE http_took_by histogram\n\
    http_took_by_bucket{le=\"2\"} 0\nhttp_took_by_bucket{le=\"+Inf\"} 1\nhttp_took_by_sum 3\nhttp_took_by_count 1\n";

/// Compares the lowest bounds of names.
fn expect_bounds<R: Abort>(rt: &R, bounds: &Bounds, wanted: &[(&str, i64)]) {
    for (name, bound) in wanted {
        let found = bounds.of(name).bounds().first().copied();
        assert_eq!(rt; found, Some(*bound), "{name}");
    }
}

#[test]
fn exact_bounds_win_over_those_of_prefixes(rt: HostRuntime) {
    let mut bounds = bounds(&rt);
    let before = [
        ("htt", 1),
        ("http.", 2),
        ("http.took", 3),
        ("http.took_by", 2),
    ];
    expect_bounds(&rt, &bounds, &before);
    let set = bounds.set(rt.alloc(), "http.took", &[4]);
    set.expect(&rt, MEMORY);
    expect_bounds(&rt, &bounds, &[("http.took", 3), ("http.took_by", 4)]);
    let set = bounds.set_exact(rt.alloc(), "http.took", &[5]);
    set.expect(&rt, MEMORY);
    expect_bounds(&rt, &bounds, &[("http.took", 5), ("http.took_by", 4)]);
    let set = bounds.set_exact(rt.alloc(), "http.took", &[]);
    assert_eq!(&rt; set, Err(Error::NoBounds));
    expect_bounds(&rt, &bounds, &[("http.took", 5)]);
}

#[test]
fn a_collector_counts_at_exact_bounds(rt: HostRuntime) {
    let made = Collector::new(rt.alloc(), 1, MetricKindMask::NONE, None, bounds(&rt));
    let on = made.expect(&rt, MEMORY);
    record(&rt, &on, "http.took", 3);
    record(&rt, &on, "http.took_by", 3);
    expect_text(&rt, &on, 10, TOOK);
}

/// Sets the bound of a name. A call that runs out of memory keeps the one before.
#[test]
fn exact_bounds_without_memory_change_nothing(rt: HostRuntime) {
    let mut trial = Trial::new(rt.alloc());
    let mut bounds = bounds(&rt);
    for (name, before, bound) in [("http.took", 3, 6), ("http.new", 2, 7)] {
        trial.begin();
        let error = bounds.set_exact(trial.alloc, name, &[bound]).err();
        trial.calm();
        if let Some(error) = error {
            trial.note(error).expect(&rt, "another error");
            expect_bounds(&rt, &bounds, &[(name, before)]);
            let again = bounds.set_exact(trial.alloc, name, &[bound]);
            assert_eq!(&rt; again, Ok(()));
        }
        expect_bounds(&rt, &bounds, &[(name, bound)]);
    }
}

/// A start, a step and a count, and the list or the error.
type Row = (i64, i64, usize, Result<&'static [i64], BoundsError>);

const LINEAR: [Row; 9] = [
    (10, 5, 3, Ok(&[10, 15, 20])),
    (-10, 10, 3, Ok(&[-10, 0, 10])),
    (i64::MIN, i64::MAX, 3, Ok(&[i64::MIN, -1, i64::MAX - 1])),
    (i64::MAX, 1, 1, Ok(&[i64::MAX])),
    (i64::MAX, 1, 2, Err(BoundsError::Overflow)),
    (0, i64::MAX, 3, Err(BoundsError::Overflow)),
    (0, 0, 0, Err(BoundsError::BadWidth)),
    (0, -1, 3, Err(BoundsError::BadWidth)),
    (0, 1, 0, Err(BoundsError::BadCount)),
];

const EXPONENTIAL: [Row; 8] = [
    (1, 2, 4, Ok(&[1, 2, 4, 8])),
    (5, 10, 3, Ok(&[5, 50, 500])),
    (1 << 62, 2, 1, Ok(&[1 << 62])),
    (1 << 62, 2, 2, Err(BoundsError::Overflow)),
    (1, 2, 64, Err(BoundsError::Overflow)),
    (0, 1, 0, Err(BoundsError::BadStart)),
    (1, 1, 0, Err(BoundsError::BadFactor)),
    (1, 2, 0, Err(BoundsError::BadCount)),
];

fn expect_list<R: Abort>(
    rt: &R,
    made: Result<Vec<i64>, BoundsError>,
    wanted: Result<&[i64], BoundsError>,
) {
    match made {
        Ok(list) => assert_eq!(rt; Ok(list.as_slice()), wanted),
        Err(BoundsError::Memory) => panic!(rt; "out of memory: Memory"),
        Err(error) => assert_eq!(rt; Err(error), wanted),
    }
}

#[test]
fn bounds_by_a_width(rt: HostRuntime) {
    for (start, width, count, wanted) in LINEAR {
        expect_list(&rt, Bounds::linear(rt.alloc(), start, width, count), wanted);
    }
}

#[test]
fn bounds_by_a_factor(rt: HostRuntime) {
    for (start, factor, count, wanted) in EXPONENTIAL {
        expect_list(
            &rt,
            Bounds::exponential(rt.alloc(), start, factor, count),
            wanted,
        );
    }
}

/// An error says which word is bad, and what was wanted.
#[test]
fn an_error_names_the_word(rt: HostRuntime) {
    for (error, wanted) in [
        (BoundsError::BadWidth, "bad width: wanted 1 or more"),
        (BoundsError::BadFactor, "bad factor: wanted 2 or more"),
        (BoundsError::BadCount, "bad count: wanted 1 or more"),
    ] {
        let shown = format!(in rt.alloc(); "{error}").expect(&rt, MEMORY);
        assert_eq!(&rt; shown.as_str(), wanted);
    }
}
