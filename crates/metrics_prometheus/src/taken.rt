//! The names that histograms use for their samples.
ghost use Rattle.std.specs.Prelude.{◌≡◌, false, IfOk, IsTrue, is_some, option_map};
ghost use Rattle.std.specs.List.{AllByRecursion};
ghost use Rattle.std.specs.List.Sorted.{IsSorted};
ghost use Rattle.std.specs.Cmp.Lexicographic.{slice_cmp};
ghost use Rattle.std.specs.Ordering.{nat_cmp};
ghost use Rattle.metrics_names.specs.declared.kind.MetricKind.TheVariants.{Histogram};
ghost use Rattle.metrics_names.specs.Names.{kind_eq, label_cmp};
ghost use Rattle.metrics_prometheus.specs.Exposition.{row_cmp, is_fit_histogram, is_fit_number, last_number, uses_name};
ghost use Rattle.metrics_prometheus.specs.Exposition.{histogram_names, found_in, part_of, whole_of};
ghost use Rattle.metrics_prometheus.specs.Heads.{HaveOneHead};
ghost use Rattle.metrics_prometheus.specs.Places.{rows_placed};
ghost use Rattle.metrics_prometheus.specs.Rows.{row_shown, rows_shown, names_shown};

use crate::row::{ShownRow, is_fit};
use crate::rows::Place;
use metrics::MetricKind;
use metrics_exposition::is_last;
use std::alloc::{AllocError, Global};
use std::cmp::Ordering;

/// Returns whether a row is a counter or a gauge whose labels are fit.
fn is_fit_number(row: &ShownRow<'_>) -> bool
    requires { IsSorted label_cmp row.now.labels }
    ensures { result ≡ is_fit_number (row_shown row.now) }
{
    row.head.kind != MetricKind::Histogram && is_fit(row)
}

/// The name of the fit counter or gauge that came last.
fn last_number<'r>(last: Option<&'r str>, row: &'r ShownRow<'_>) -> Option<&'r str>
    requires { IsSorted label_cmp row.now.labels }
    ensures { option_map (λ n. n.now) result ≡ last_number (option_map (λ n. n.now) last.entry) (row_shown row.now) }
{
    if is_fit_number(row) {
        Some(row.head.name.as_str())
    } else {
        last
    }
}

/// Returns whether a row is a histogram whose labels are fit.
fn is_fit_histogram(row: &ShownRow<'_>) -> bool
    requires { IsSorted label_cmp row.now.labels }
    ensures { result ≡ is_fit_histogram (row_shown row.now) }
{
    row.head.kind == MetricKind::Histogram && is_fit(row)
}

/// Returns whether a name is a part of a histogram of these names.
fn is_part(histograms: &[&str], name: &[u8]) -> bool
    requires { IsSorted (slice_cmp nat_cmp) (names_shown histograms.now) }
    ensures { result ≡ is_some (whole_of (names_shown histograms.now) name.now) }
{
    match whole_of(histograms, name) {
        Some(_) => true,
        None => false,
    }
}

/// Returns whether a row is a histogram that uses its name, after histograms of these names and a counter or gauge of that one.
fn uses_name(histograms: &[&str], last: Option<&str>, row: &ShownRow<'_>) -> bool
    requires sorted { IsSorted (slice_cmp nat_cmp) (names_shown histograms.now) }
    requires labels { IsSorted label_cmp row.now.labels }
    ensures { result ≡ uses_name (names_shown histograms.now) (option_map (λ n. n.now) last.entry) (row_shown row.now) }
{
    is_fit_histogram(row)
        && (!is_last(last, row.head.name.as_str())
            && !is_part(histograms, row.head.name.as_str().as_bytes()))
}

/// Returns whether rows that are known to have one head are no histograms.
fn are_numbers(places: &[Place<'_, '_>], have_one_head: bool) -> bool
    requires { IsTrue have_one_head → HaveOneHead (rows_placed places.now) }
    ensures { IsTrue result → AllByRecursion (λ p. kind_eq p.row.now.head.value.kind Histogram ≡ false) places.now }
{
    if !have_one_head {
        return false;
    }
    match places {
        [] => true,
        [first, ..] => first.row.head.kind != MetricKind::Histogram,
    }
}

/// The names that histograms use for their samples, in order: those of the histograms that are written. Rows may be known to have
/// one head.
pub(crate) fn histogram_names<'r>(
    alloc: Global,
    places: &[Place<'r, '_>],
    have_one_head: bool,
) -> Result<Vec<&'r str>, AllocError>
    requires sorted { IsSorted row_cmp (rows_shown (rows_placed places.now)) }
    requires labels { AllByRecursion (λ p. IsSorted label_cmp p.row.now.labels) places.now }
    requires head { IsTrue have_one_head → HaveOneHead (rows_placed places.now) }
    ensures names { IfOk result (λ names. names_shown names.items ≡ histogram_names (rows_shown (rows_placed places.now))) }
    ensures sorted { IfOk result (λ names. IsSorted (slice_cmp nat_cmp) (names_shown names.items)) }
{
    let mut names = Vec::new(alloc);
    if are_numbers(places, have_one_head) {
        return Ok(names);
    }
    let mut last = None;
    for place in places {
        if uses_name(&names, last, place.row) {
            names.push(place.row.head.name.as_str())?;
        }
        last = last_number(last, place.row);
    }
    Ok(names)
}

/// The order of two names.
fn name_place(name: &str, other: &[u8]) -> Ordering
    ensures { result ≡ slice_cmp nat_cmp name.now other.now }
{
    name.as_bytes().cmp(other)
}

/// The name, if it is one of these.
fn found_in<'r>(names: &[&'r str], name: &[u8]) -> Option<&'r str>
    requires { IsSorted (slice_cmp nat_cmp) (names_shown names.now) }
    ensures { option_map (λ n. n.now) result ≡ found_in (names_shown names.now) name.now }
{
    match names.binary_search_by(|other| name_place(other, name)) {
        Ok(place) => Some(names[place]),
        Err(_) => None,
    }
}

/// The histogram whose name comes before the suffix of a name.
fn part_of<'r>(histograms: &[&'r str], name: &[u8], end: &[u8]) -> Option<&'r str>
    requires { IsSorted (slice_cmp nat_cmp) (names_shown histograms.now) }
    ensures { option_map (λ n. n.now) result ≡ part_of (names_shown histograms.now) name.now end.now }
{
    if !name.ends_with(end) {
        return None;
    }
    found_in(histograms, &name[..name.len() - end.len()])
}

/// The histogram whose samples have that name.
pub(crate) fn whole_of<'r>(histograms: &[&'r str], name: &[u8]) -> Option<&'r str>
    requires { IsSorted (slice_cmp nat_cmp) (names_shown histograms.now) }
    ensures { option_map (λ n. n.now) result ≡ whole_of (names_shown histograms.now) name.now }
{
    if let Some(whole) = part_of(histograms, name, b"_bucket") {
        return Some(whole);
    }
    if let Some(whole) = part_of(histograms, name, b"_sum") {
        return Some(whole);
    }
    part_of(histograms, name, b"_count")
}
