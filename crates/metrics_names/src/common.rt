//! Units.

/// The unit of a metric's values. A unit is a note for whoever reads a snapshot: no value is converted.
#[derive(Clone, Copy, Debug, PartialEq, Eq, PartialOrd, Ord, Hash)]
pub enum Unit {
    Count,
    Percent,
    Seconds,
    Milliseconds,
    Microseconds,
    Nanoseconds,
    Bytes,
}
