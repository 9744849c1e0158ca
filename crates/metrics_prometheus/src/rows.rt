//! Series in the order in which they are written.
ghost use Rattle.std.specs.Prelude.{◌≡◌, List, MatchResult, OnOk, IfOk, IsTrue, All, map};
ghost use Rattle.std.specs.List.{AllByRecursion};
ghost use Rattle.std.specs.Str.{IsUtf8};
ghost use Rattle.metrics.specs.declared.error.Error.TheVariants.{Memory as OutOfMemory};
ghost use Rattle.metrics_exporter.specs.Readings.{KeyedReading, keyed_reading};
ghost use Rattle.metrics_exposition.specs.Labels.{AreReady, shown_labels};
ghost use Rattle.metrics_prometheus.specs.Exposition.{row_cmp};
ghost use Rattle.metrics_exposition.specs.Reading.{IsOfKind};
ghost use Rattle.metrics_prometheus.specs.Rows.{HasTexts};

use crate::row::{Head, ShownRow};
use metrics::{Error, Key, Label, MetricKind};
use metrics_exporter::{Descriptions, ReadingRef, SeriesReading};
use metrics_exposition::{
    DecimalPlaces, Naming, ReadSeries, ShownLabels, ShownName, all_places, first_value,
    reading_kind, shown_labels, shown_name, shown_places,
};
use std::alloc::{AllocError, Global};
use std::rc::Rc;

/// The head of the last row, and the name of its series.
#[derive(Drop)]
struct Known<'a> {
    name: &'a str,
    head: Rc<Head<'a>>,
    /// Whether no other head came before.
    is_first: bool,
}

ghost use Rattle.std.specs.Prelude.{IfSome};
ghost use Rattle.metrics_descriptions.specs.Legends.{described_by};
ghost use Rattle.metrics_exposition.specs.Naming.{Display, display_by};
ghost use Rattle.metrics_prometheus.specs.Rows.{row_shown, pair_shown, pair_of, AreRowsOf};
ghost use Rattle.metrics_prometheus.specs.Heads.{head_cmp, IsHead, IsKnown, IsLast, Follows, is_only, HaveOneHead};
ghost use Rattle.metrics_prometheus.specs.declared.row.Head.{Head as HeadParts};
ghost use Rattle.metrics_prometheus.specs.declared.row.ShownRow.{ShownRow as RowParts};

/// Looks up what a kind and name are shown with.
fn found_head<'a, P: DecimalPlaces>(
    alloc: Global,
    naming: Naming,
    scale: &P,
    descriptions: &'a Descriptions,
    kind: MetricKind,
    key: &'a Key,
) -> Result<Head<'a>, Error>
    ensures { MatchResult result
        (λ head. IsHead (display_by naming (described_by descriptions.now) (P.places scale.now)) kind key.now.name head)
        (λ e. e ≡ OutOfMemory) }
{
    let described = descriptions.get(kind, key.name());
    let unit = described.and_then(|found| found.unit());
    let help = described.map(|found| found.text());
    let shown = shown_name(alloc, naming, kind, unit, key)?;
    Ok(Head {
        name: shown,
        kind,
        places: all_places(scale.places_of(key.name()), shown_places(naming, unit)),
        help,
    })
}

/// What a kind and name are shown with, if they were the last ones.
fn known_head<'l, 'a>(
    last: &'l Option<Known<'a>>,
    kind: MetricKind,
    name: &str,
) -> Option<&'l Rc<Head<'a>>>
    ensures head { (display : Display) → IfSome last.now (IsKnown display)
        → IfSome result (λ h. IsHead display kind name.now h.now.value) }
    ensures last { IfSome result (λ h. IsLast last.now h.now.value) }
{
    match last {
        Some(known) => {
            if known.head.kind == kind && known.name == name {
                Some(&known.head)
            } else {
                None
            }
        }
        None => None,
    }
}

/// What a kind and name are shown with. It is looked up unless the row before has them, which then shares it.
fn head_of<'a, P: DecimalPlaces>(
    alloc: Global,
    naming: Naming,
    scale: &P,
    descriptions: &'a Descriptions,
    last: &mut Option<Known<'a>>,
    kind: MetricKind,
    key: &'a Key,
) -> Result<Rc<Head<'a>>, Error>
    requires { IfSome last.old (IsKnown (display_by naming (described_by descriptions.now) (P.places scale.now))) }
    ensures head { MatchResult result
        (λ head. IsHead (display_by naming (described_by descriptions.now) (P.places scale.now)) kind key.now.name head.value)
        (λ e. e ≡ OutOfMemory) }
    ensures last { IfSome last.new (IsKnown (display_by naming (described_by descriptions.now) (P.places scale.now))) }
    ensures follows { IfOk result (λ head. Follows last.old head.value last.new) }
{
    if let Some(head) = known_head(last, kind, key.name()) {
        return Ok(head.clone()?);
    }
    let found = found_head(alloc, naming, scale, descriptions, kind, key)?;
    let head = Rc::new(alloc, found)?;
    *last = Some(Known {
        name: key.name(),
        head: head.clone()?,
        is_first: last.is_none(),
    });
    Ok(head)
}

/// The labels that Prometheus is shown. Ready ones are the key's own.
fn labels_of<'a>(alloc: Global, key: &'a Key, is_ready: bool) -> Result<ShownLabels<'a>, Error>
    requires { IsTrue is_ready → AreReady key.now.labels }
    ensures shown { MatchResult result (λ shown. shown ≡ shown_labels key.now.labels) (λ e. e ≡ OutOfMemory) }
    ensures texts { OnOk result (All (λ l. IsUtf8 l.1) key.now.labels) }
{
    if is_ready {
        return Ok(ShownLabels::ready(key));
    }
    shown_labels(alloc, key)
}

/// The row of a series. What its kind and name are shown with is kept for the next one.
fn row_of<'a, P: DecimalPlaces>(
    alloc: Global,
    naming: Naming,
    scale: &P,
    descriptions: &'a Descriptions,
    last: &mut Option<Known<'a>>,
    series: SeriesReading<'a>,
    is_ready: bool,
) -> Result<ShownRow<'a>, Error>
    requires known { IfSome last.old (IsKnown (display_by naming (described_by descriptions.now) (P.places scale.now))) }
    requires ready { IsTrue is_ready → AreReady (keyed_reading series).0.key.labels }
    ensures row { MatchResult result
        (λ row. pair_shown row
        ≡ pair_of (display_by naming (described_by descriptions.now) (P.places scale.now)) (keyed_reading series.entry))
        (λ e. e ≡ OutOfMemory) }
    ensures texts { OnOk result (HasTexts (keyed_reading series.entry)) }
    ensures kind { OnOk result (IsOfKind (keyed_reading series.entry)) }
    ensures last { IfSome last.new (IsKnown (display_by naming (described_by descriptions.now) (P.places scale.now))) }
    ensures follows { IfOk result (λ row. Follows last.old row.head.value last.new) }
{
    reading_kind(series.reading);
    let kind = series.reading.kind();
    let labels = labels_of(alloc, series.key, is_ready)?;
    let head = head_of(alloc, naming, scale, descriptions, last, kind, series.key)?;
    Ok(ShownRow {
        head,
        labels,
        key: series.key,
        reading: series.reading,
    })
}

/// Whether the head of the last row is the only one.
fn is_only(last: &Option<Known<'_>>) -> bool
    ensures { result ≡ is_only last.now }
{
    match last {
        Some(known) => known.is_first,
        None => false,
    }
}

/// A row for each series, in their order, and whether they are known to have one head.
pub(crate) fn rows_of<'a, P: DecimalPlaces, S: ReadSeries>(
    alloc: Global,
    naming: Naming,
    scale: &P,
    descriptions: &'a Descriptions,
    series: &'a [S],
) -> Result<(Vec<ShownRow<'a>>, bool), Error>
    ensures rows { MatchResult result
        (λ r. map pair_shown r.0.items
        ≡ map (pair_of (display_by naming (described_by descriptions.now) (P.places scale.now))) (map S.keyed series.now))
        (λ e. e ≡ OutOfMemory) }
    ensures texts { OnOk result (All HasTexts (map S.keyed series.now)) }
    ensures kinds { OnOk result (All IsOfKind (map S.keyed series.now)) }
    ensures one { IfOk result (λ r. IsTrue r.1 → HaveOneHead r.0.items) }
{
    let mut rows = Vec::with_capacity(alloc, series.len())?;
    let mut last = None;
    for one in series {
        let row = row_of(
            alloc,
            naming,
            scale,
            descriptions,
            &mut last,
            one.reading(),
            one.has_ready_labels(),
        )?;
        rows.push(row)?;
    }
    let have_one_head = is_only(&last);
    Ok((rows, have_one_head))
}

/// Does nothing. Its contract says what the order of heads is.
fn head_order()
    ensures { (a b : HeadParts) → ⟦<Head<'static> as Ord>⟧.cmp a b ≡ head_cmp a b }
{}

/// Does nothing. Its contract says what the order of rows is.
pub(crate) fn row_order()
    ensures { (a b : RowParts) → ⟦<ShownRow<'static> as Ord>⟧.cmp a b ≡ row_cmp (row_shown a) (row_shown b) }
{
    head_order();
}

/// Returns whether two rows are of one series. The numbers of their keys mostly decide.
fn are_same<'a>(row: &ShownRow<'a>, other: &ShownRow<'a>) -> bool
    ensures { result ≡ ⟦<ShownRow<'static> as PartialEq>⟧.eq row.now other.now }
{
    row.key == other.key && row == other
}

/// A row by reference. Before the row itself, this text decides its place: the value of its first label, if all rows are known
/// to have one head and one first label's key, and nothing otherwise.
#[derive(Clone, Copy, PartialEq, Eq, PartialOrd, Ord)]
pub(crate) struct Place<'r, 'a> {
    pub value: &'r str,
    pub row: &'r ShownRow<'a>,
}

ghost use Rattle.metrics_prometheus.specs.declared.rows.Place.{Place as PlaceParts};
ghost use Rattle.metrics_prometheus.specs.Places.{rows_placed, place_cmp, value_placed, IsPlaced};
ghost use Rattle.metrics_prometheus.specs.Places.{are_led, IsLed, AreLed, AreAlike};

/// Does nothing. Its contract says what the order of places is.
fn place_order()
    ensures { (a b : PlaceParts) → ⟦<Place<'static, 'static> as Ord>⟧.cmp a b ≡ place_cmp a b }
{}

fn place_of<'r, 'a>(row: &'r ShownRow<'a>, are_alike: bool) -> Place<'r, 'a>
    ensures row { result.row.now ≡ row.now }
    ensures value { result.value.now ≡ value_placed are_alike row.now }
{
    let value = if are_alike {
        first_value(row.labels.as_slice())
    } else {
        ""
    };
    Place { value, row }
}

/// A place for each row, in their order.
fn places_of<'r, 'a>(
    alloc: Global,
    rows: &'r [ShownRow<'a>],
    are_alike: bool,
) -> Result<Vec<Place<'r, 'a>>, AllocError>
    ensures rows { IfOk result (λ places. rows_placed places.items ≡ rows.now) }
    ensures placed { IfOk result (λ places. AllByRecursion (IsPlaced are_alike) places.items) }
{
    let mut places = Vec::with_capacity(alloc, rows.len())?;
    for row in rows {
        places.push(place_of(row, are_alike))?;
    }
    Ok(places)
}

/// Returns whether labels of both lists come first with one key.
fn are_led(labels: &[Label], other: &[Label]) -> bool
    ensures { result ≡ are_led labels.now other.now }
{
    match labels {
        [] => false,
        [first, ..] => match other {
            [] => false,
            [label, ..] => first.key() == label.key(),
        },
    }
}

/// Returns whether each row has such a first label's key.
fn have_key(rows: &[ShownRow<'_>], labels: &[Label]) -> bool
    ensures { IsTrue result → All (IsLed labels.now) rows.now }
{
    for row in rows {
        if !are_led(labels, row.labels.as_slice()) {
            return false;
        }
    }
    true
}

/// Returns whether all rows have one first label's key.
fn have_one_key(rows: &[ShownRow<'_>]) -> bool
    ensures { IsTrue result → AreLed rows.now }
{
    match rows {
        [] => false,
        [first, ..] => have_key(rows, first.labels.as_slice()),
    }
}

/// Returns whether all rows have one head, as is known, and one first label's key.
fn are_alike(rows: &[ShownRow<'_>], have_one_head: bool) -> bool
    requires { IsTrue have_one_head → HaveOneHead rows.now }
    ensures head { IsTrue result → HaveOneHead rows.now }
    ensures key { IsTrue result → AreLed rows.now }
{
    have_one_head && have_one_key(rows)
}

/// The rows, in order, and whether they are alike: of one head and one first label's key. A repeated series has one row.
pub(crate) fn sorted_rows<'r, 'a>(
    alloc: Global,
    rows: &'r [ShownRow<'a>],
    have_one_head: bool,
) -> Result<(Vec<Place<'r, 'a>>, bool), AllocError>
    requires { IsTrue have_one_head → HaveOneHead rows.now }
    ensures rows { (display : Display) (keyed : List KeyedReading) → map pair_shown rows.now ≡ map (pair_of display) keyed
        → IfOk result (λ r. AreRowsOf display keyed (rows_placed r.0.items)) }
    ensures alike { IfOk result (λ r. IsTrue r.1 → AreAlike (rows_placed r.0.items)) }
{
    let are_alike = are_alike(rows, have_one_head);
    let mut places = places_of(alloc, rows, are_alike)?;
    row_order();
    place_order();
    places.sort()?;
    places.dedup_by(|place, last| are_same(place.row, last.row));
    Ok((places, are_alike))
}
