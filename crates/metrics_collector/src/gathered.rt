//! What was read of a collector.
ghost use Rattle.std.specs.Prelude.{◌≡◌, List, IfOk, IfErr, string_bytes};
ghost use Rattle.metrics.specs.declared.error.Error.TheVariants.{Memory as OutOfMemory};
ghost use Rattle.metrics_exporter.specs.Readings.{KeyedReading, AreReadings, AreOnce, cells_of_readings};
ghost use Rattle.metrics_exporter.specs.Exporting.{Cells};
ghost use Rattle.metrics_descriptions.specs.Legends.{described_by};
ghost use Rattle.metrics_prometheus.specs.Exposition.{IsDescribed};
ghost use Rattle.metrics_exposition.specs.Reading.{AreOfKinds};

use crate::row_key::RowKey;
use metrics::{Error, MetricKind};
use metrics_prometheus::{
    Descriptions, Naming, ReadSeries, ReadingRef, SeriesReading, exposition_of,
};
use metrics_storage::Histogram;
use std::alloc::Global;

/// What a series had when it was read: a count, a gauge's value, or samples.
#[derive(Drop)]
pub enum Value {
    Count(u64),
    Level(i64),
    Samples(Box<Histogram>),
}

/// A series with what it had. Its kind is that of its value.
#[derive(Drop)]
pub struct GatheredSeries {
    pub key: RowKey,
    pub value: Value,
}

/// The series that were in use, each with what it had.
#[derive(Drop)]
pub struct Gathered {
    pub series: Vec<GatheredSeries>,
}

ghost use Rattle.metrics_collector.specs.Gathering.{keyed_gathered, all_gathered, kind_of};

impl GatheredSeries {
    /// Returns the kind of the series, which is that of its value.
    pub fn kind(&self) -> MetricKind
        ensures { result ≡ kind_of self.now.value }
    {
        match &self.value {
            Value::Count(_) => MetricKind::Counter,
            Value::Level(_) => MetricKind::Gauge,
            Value::Samples(_) => MetricKind::Histogram,
        }
    }
}

impl ReadSeries for GatheredSeries {
    ghost keyed = { keyed_gathered };

    fn reading(&self) -> SeriesReading<'_> {
        let reading = match &self.value {
            Value::Count(count) => ReadingRef::Count(*count),
            Value::Level(level) => ReadingRef::Level(*level),
            Value::Samples(histogram) => ReadingRef::Samples(histogram),
        };
        SeriesReading {
            key: &self.key,
            reading,
        }
    }

    fn has_ready_labels(&self) -> bool {
        self.key.is_ready()
    }
}

impl Gathered {
    /// Writes the series in Prometheus's text exposition format, each name after its description. The naming decides names and
    /// units. A series that comes again is written once; `Collector::text_of` says so in a line.
    pub fn text(
        &self,
        alloc: Global,
        naming: Naming,
        descriptions: &Descriptions,
    ) -> Result<String, Error>
        ensures ok { (cells : Cells) → AreReadings cells (all_gathered self.now)
            → IfOk result (λ text. IsDescribed naming (described_by descriptions.now) cells (string_bytes text)) }
        ensures each { IfOk result (λ text. (kept : List KeyedReading) × AreOnce (all_gathered self.now) kept
            × AreOfKinds (cells_of_readings kept)
            × IsDescribed naming (described_by descriptions.now) (cells_of_readings kept) (string_bytes text)) }
        ensures err { IfErr result (λ e. e ≡ OutOfMemory) }
    {
        exposition_of(alloc, naming, descriptions, &self.series)
    }
}
