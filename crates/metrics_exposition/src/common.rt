//! Labels that all series of a text have.
ghost use Rattle.std.specs.Prelude.{◌≡◌, bytes_eq, []};
ghost use Rattle.std.specs.List.{list_any};
ghost use Rattle.metrics_exposition.specs.Common.{bad_label, first_bad_label};

use crate::labels::is_reserved;
use crate::names::is_name;
use metrics::{Label, MetricKind};
use std::error::Error;
use std::fmt;

/// Why a label can't be one of all series.
#[derive(Clone, Copy, Debug, PartialEq, Eq)]
pub enum BadLabel {
    /// Prometheus allows no such name: it is empty, begins with a digit, or has something else than letters, digits and `_`.
    Name,
    /// Prometheus keeps the name for itself: it begins with two underscores, or is `le`.
    Reserved,
    /// An earlier label has the name.
    Repeated,
}

impl fmt::Display for BadLabel {
    fn fmt<W: fmt::Write>(&self, f: &mut fmt::Formatter<W>) -> fmt::Result {
        f.write_str(match self {
            BadLabel::Name => "no label has such a name",
            BadLabel::Reserved => "label name is reserved",
            BadLabel::Repeated => "label name is given twice",
        })
    }
}

impl Error for BadLabel {}

/// Returns whether a label has this name.
fn has_name(labels: &[Label], name: &str) -> bool
    ensures { result ≡ list_any (λ m. bytes_eq m.0 name.now) labels.now }
{
    for label in labels {
        if label.key() == name {
            return true;
        }
    }
    false
}

/// Returns why no label of this name can be added to the labels of all series, and `None` if one can.
pub fn bad_label(labels: &[Label], name: &str) -> Option<BadLabel>
    ensures { result ≡ bad_label labels.now name.now }
{
    if !is_name(name, false) {
        return Some(BadLabel::Name);
    }
    if is_reserved(MetricKind::Histogram, name) {
        return Some(BadLabel::Reserved);
    }
    if has_name(labels, name) {
        return Some(BadLabel::Repeated);
    }
    None
}

/// Returns why the first of these labels that can't be one of all series can't be, and `None` if each can.
pub fn first_bad_label(labels: &[Label]) -> Option<BadLabel>
    ensures { result ≡ first_bad_label [] labels.now }
{
    for at in 0..labels.len() {
        let bad = bad_label(&labels[..at], labels[at].key());
        if bad.is_some() {
            return bad;
        }
    }
    None
}
