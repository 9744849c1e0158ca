//! Why a series is left out, and the line that says so.
ghost use Rattle.std.specs.Prelude.{◌≡◌, ◌++◌, List, OnOk, IfSome, option_map, string_bytes};
ghost use Rattle.std.specs.List.Sorted.{IsSorted};
ghost use Rattle.std.specs.Cmp.Lexicographic.{slice_cmp};
ghost use Rattle.std.specs.Ordering.{nat_cmp};
ghost use Rattle.metrics_names.specs.Names.{label_cmp};
ghost use Rattle.metrics_prometheus.specs.Exposition.{Row, histogram_names, labels_reason, name_reason};
ghost use Rattle.metrics_prometheus.specs.Exposition.{same_name_reason, last_reason, reason_of};
ghost use Rattle.metrics_prometheus.specs.Exposition.{reason_text, series_named, left_out_line};
ghost use Rattle.metrics_exposition.specs.Names.{help_escaped};

use crate::row::ShownRow;
use crate::taken::whole_of;
use metrics::MetricKind;
use metrics_exposition::{are_equal, repeats, reserved_of, write_help_text, write_labels};
use std::alloc::AllocError;

/// Why a series is left out.
#[derive(Clone, Copy)]
pub(crate) enum Reason<'r> {
    /// Two of its labels have one name.
    LabelTwice,
    /// Prometheus keeps this name of a label for itself.
    LabelReserved(&'r str),
    /// Its name is that of a bucket, the sum or the count of this histogram.
    PartOf(&'r str),
    /// A series of this kind was written under its name.
    NameTaken(MetricKind),
    /// The series of this own name was written under its name, with the same labels.
    LabelsTaken(&'r str),
}

ghost use Rattle.metrics_prometheus.specs.Rows.{reason_shown, row_shown, names_shown};

/// Why a row's labels keep it from the text.
fn labels_reason<'r>(row: &'r ShownRow<'_>) -> Option<Reason<'r>>
    requires { IsSorted label_cmp row.now.labels }
    ensures { option_map reason_shown result ≡ labels_reason row.now.head.value.kind row.now.labels }
{
    if row.labels.is_ready() {
        return None;
    }
    let labels = row.labels.as_slice();
    if repeats(labels) {
        return Some(Reason::LabelTwice);
    }
    match reserved_of(row.head.kind, labels) {
        Some(name) => Some(Reason::LabelReserved(name)),
        None => None,
    }
}

fn name_reason<'r>(histograms: &[&'r str], name: &[u8]) -> Option<Reason<'r>>
    requires { IsSorted (slice_cmp nat_cmp) (names_shown histograms.now) }
    ensures { option_map reason_shown result ≡ name_reason (names_shown histograms.now) name.now }
{
    if histograms.is_empty() {
        return None;
    }
    match whole_of(histograms, name) {
        Some(whole) => Some(Reason::PartOf(whole)),
        None => None,
    }
}

/// Why a row can't be next to one of its name that was written.
fn same_name_reason<'r>(written: &'r ShownRow<'_>, row: &ShownRow<'_>) -> Option<Reason<'r>>
    ensures { option_map reason_shown result ≡ same_name_reason (row_shown written.now) (row_shown row.now) }
{
    if written.head.kind != row.head.kind {
        return Some(Reason::NameTaken(written.head.kind));
    }
    if are_equal(written.labels.as_slice(), row.labels.as_slice()) {
        return Some(Reason::LabelsTaken(written.key.name()));
    }
    None
}

/// Why a row can't be next to the one that was written last, if that has its name.
fn last_reason<'r>(last: Option<&'r ShownRow<'_>>, row: &ShownRow<'_>) -> Option<Reason<'r>>
    requires { IfSome last (λ w. w.now.head.value.name ≡ row.now.head.value.name) }
    ensures { option_map reason_shown result ≡ last_reason (option_map (λ w. row_shown w.now) last.entry) (row_shown row.now) }
{
    match last {
        Some(written) => same_name_reason(written, row),
        None => None,
    }
}

/// Why a row is left out beside rows with these histograms, if it is. The row that was written last counts if it has its name.
pub(crate) fn reason_of<'r>(
    histograms: &[&'r str],
    last: Option<&'r ShownRow<'_>>,
    row: &'r ShownRow<'_>,
) -> Option<Reason<'r>>
    requires sorted { IsSorted (slice_cmp nat_cmp) (names_shown histograms.now) }
    requires labels { IsSorted label_cmp row.now.labels }
    requires named { IfSome last (λ w. w.now.head.value.name ≡ row.now.head.value.name) }
    ensures { (rows : List Row) → names_shown histograms.now ≡ histogram_names rows → option_map reason_shown result
        ≡ reason_of rows (option_map (λ w. row_shown w.now) last.entry) (row_shown row.now) }
{
    if let Some(reason) = labels_reason(row) {
        return Some(reason);
    }
    if let Some(reason) = name_reason(histograms, row.head.name.as_str().as_bytes()) {
        return Some(reason);
    }
    last_reason(last, row)
}

/// Writes a text, and after it a name as it is in a description.
fn write_named(text: &mut String, what: &str, name: &str) -> Result<(), AllocError>
    ensures { OnOk result (string_bytes text.new ≡ string_bytes text.old ++ (what.now ++ help_escaped name.now)) }
{
    text.push_str(what)?;
    write_help_text(text, name)
}

fn write_reason(text: &mut String, reason: Reason<'_>) -> Result<(), AllocError>
    ensures { OnOk result (string_bytes text.new ≡ string_bytes text.old ++ reason_text (reason_shown reason.entry)) }
{
    match reason {
        Reason::LabelTwice => text.push_str("two labels of one name"),
        Reason::LabelReserved(name) => write_named(text, "label ", name),
        Reason::PartOf(name) => write_named(text, "name of a part of histogram ", name),
        Reason::NameTaken(kind) => {
            text.push_str("name taken by a ")?;
            text.push_str(kind.as_str())
        }
        Reason::LabelsTaken(name) => write_named(text, "labels equal those of ", name),
    }
}

/// Writes the kind, the own name and the labels of a series.
fn write_series(text: &mut String, row: &ShownRow<'_>) -> Result<(), AllocError>
    ensures { OnOk result (string_bytes text.new ≡ string_bytes text.old ++ series_named (row_shown row.now)) }
{
    text.push_str(row.head.kind.as_str())?;
    text.push_str(" ")?;
    write_help_text(text, row.key.name())?;
    write_labels(text, row.labels.as_slice())
}

/// Writes that a row is left out, and why.
pub(crate) fn write_left_out(
    text: &mut String,
    row: &ShownRow<'_>,
    reason: Reason<'_>,
) -> Result<(), AllocError>
    ensures { OnOk result (string_bytes text.new
        ≡ string_bytes text.old ++ left_out_line (row_shown row.now) (reason_shown reason.entry)) }
{
    text.push_str("# left out: ")?;
    write_series(text, row)?;
    text.push_str(": ")?;
    write_reason(text, reason)?;
    text.push_str("\n")?;
    Ok(())
}
