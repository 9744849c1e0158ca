//! A series with what it has, by reference, for texts of other forms.
ghost use Rattle.std.specs.Prelude.{◌≡◌};
ghost use Rattle.metrics_exporter.specs.Readings.{kind_shown};

use metrics::{Key, MetricKind};
use metrics_storage::Histogram;

/// What a series has: a count, a gauge's value, or samples.
#[derive(Clone, Copy)]
pub enum ReadingRef<'a> {
    Count(u64),
    Level(i64),
    Samples(&'a Histogram),
}

impl<'a> ReadingRef<'a> {
    /// Returns the kind of the series that has it.
    pub fn kind(&self) -> MetricKind
        ensures { result ≡ kind_shown self.now }
    {
        match self {
            ReadingRef::Count(_) => MetricKind::Counter,
            ReadingRef::Level(_) => MetricKind::Gauge,
            ReadingRef::Samples(_) => MetricKind::Histogram,
        }
    }
}

/// A series by reference, with what it has. Its kind is that of its reading.
#[derive(Clone, Copy)]
pub struct SeriesReading<'a> {
    pub key: &'a Key,
    pub reading: ReadingRef<'a>,
}
