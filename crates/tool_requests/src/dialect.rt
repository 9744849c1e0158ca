//! How lines are read.

use crate::places::PrefixPlaces;
use metrics::{Items, Label};

/// How lines are read.
#[derive(Drop)]
pub struct Dialect {
    /// Labels of each series beside its own, which win.
    pub labels: Items<Label>,
    /// Decimal places of numbers, by prefixes of names.
    pub places: Items<PrefixPlaces>,
}
