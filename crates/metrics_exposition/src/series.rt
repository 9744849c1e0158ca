//! Series of which texts are written.
ghost use Rattle.std.specs.Prelude.{◌≡◌, Some, IsTrue};
ghost use Rattle.std.specs.List.{AllByRecursion};
ghost use Rattle.metrics_exporter.specs.Readings.{KeyedReading, keyed_reading, kind_shown, reading_shown, series_read};
ghost use Rattle.metrics_exposition.specs.Reading.{IsSmall, ReadsAs};
ghost use Rattle.metrics_exposition.specs.Labels.{AreReady};

use crate::labels::are_ready;
use metrics_exporter::{ReadingRef, SeriesReading, SeriesRef};
use metrics_storage::Histogram;

/// A series with what it has.
pub trait ReadSeries {
    ghost keyed: { Self → KeyedReading };

    /// Returns the series by reference.
    fn reading(&self) -> SeriesReading<'_>
        ensures { keyed_reading result ≡ keyed self.now };

    /// Returns whether its labels are ready, as `are_ready` says. It may keep that with its key; a series that returns false has
    /// its labels looked at for each text.
    fn has_ready_labels(&self) -> bool
        ensures { IsTrue result → AreReady (keyed self.now).0.key.labels };
}

impl ReadSeries for SeriesReading<'_> {
    ghost keyed = { keyed_reading };

    fn reading(&self) -> SeriesReading<'_> {
        *self
    }

    fn has_ready_labels(&self) -> bool {
        are_ready(self.key.labels())
    }
}

impl ReadSeries for SeriesRef<'_> {
    ghost keyed = { series_read };

    fn reading(&self) -> SeriesReading<'_> {
        self.reading()
    }

    fn has_ready_labels(&self) -> bool {
        are_ready(self.key().labels())
    }
}

/// Does nothing. Its contract says that the bounds are numbers of 64 bits.
fn small_bounds(histogram: &Histogram)
    ensures { AllByRecursion IsSmall histogram.now.buckets }
{
    histogram.bounds();
}

/// Does nothing. Its contract says that a reading is of its kind.
pub fn reading_kind(reading: ReadingRef<'_>)
    ensures { ReadsAs (kind_shown reading.entry) (Some (reading_shown reading.entry)) }
{
    match reading {
        ReadingRef::Count(_) => {}
        ReadingRef::Level(_) => {}
        ReadingRef::Samples(histogram) => small_bounds(histogram),
    }
}
