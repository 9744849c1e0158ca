//! The series about the program itself.
ghost use Rattle.std.specs.Prelude.{◌≡◌, ◌++◌, ◌∷◌, [], pos, min, ◌^◌, ◌-◌, IfOk, IfErr, OnOk};
ghost use Rattle.metrics.specs.declared.error.Error.TheVariants.{Memory as OutOfMemory};
ghost use Rattle.metrics_names.specs.Names.{series_key_eq};
ghost use Rattle.metrics_exporter.specs.Exporting.{Cells};
ghost use Rattle.metrics_exporter.specs.Readings.{AreReadings, all_read, keyed_reading, keyed_readings};
ghost use Rattle.tool_prometheus.specs.declared.own.OwnSeries.{OwnSeries as Row};
ghost use Rattle.tool_prometheus.specs.Own.{own_key, with_series, with_own, own_names};
ghost use Rattle.tool_prometheus.specs.OwnRows.{keyed_own, all_own};

use metrics::{Error, Key, Label};
use metrics_prometheus::{ReadingRef, SeriesReading, SeriesRef};
use std::alloc::{AllocError, Global};
use tool_requests::common_labels;

/// The lines that were read, with bad ones.
pub(crate) const LINES: &str = "metrics_prometheus_tool_lines_total";

/// The bad lines that were skipped.
pub(crate) const BAD_LINES: &str = "metrics_prometheus_tool_bad_lines_total";

/// The calls that were refused.
pub(crate) const REFUSED_CALLS: &str = "metrics_prometheus_tool_refused_calls_total";

/// The series that are held.
pub(crate) const SERIES: &str = "metrics_prometheus_tool_series";

/// The series that the text leaves out.
pub(crate) const LEFT_OUT: &str = "metrics_prometheus_tool_left_out_series";

/// The moment of the last scrape.
pub(crate) const SCRAPED: &str = "metrics_prometheus_tool_scrape_timestamp_seconds";

/// What a series about the program has: a count, or a gauge's number.
#[derive(Clone, Copy)]
pub(crate) enum OwnReading {
    Count(u64),
    /// The greatest number of a gauge at most is shown.
    Level(u64),
}

/// A series about the program, with what it has.
#[derive(Drop)]
pub(crate) struct OwnSeries {
    pub key: Key,
    pub reading: OwnReading,
}

impl OwnSeries {
    /// The series by reference.
    fn reading(&self) -> SeriesReading<'_>
        ensures { keyed_reading result ≡ keyed_own self.now }
    {
        let reading = match self.reading {
            OwnReading::Count(count) => ReadingRef::Count(count),
            OwnReading::Level(number) => ReadingRef::Level(level_of(number)),
        };
        SeriesReading {
            key: &self.key,
            reading,
        }
    }
}

/// What a gauge has for a number: the greatest one of a gauge at most.
fn level_of(number: u64) -> i64
    ensures { result ≡ pos (min number (2 ^ 63 - 1)) }
{
    i64::try_from(number).unwrap_or(i64::MAX)
}

/// The key of a series about the program, with the labels of all series.
fn own_key(alloc: Global, labels: &[Label], name: &str) -> Result<Key, Error>
    ensures ok { IfOk result (λ key. key ≡ own_key labels.now name.now) }
    ensures err { IfErr result (λ e. e ≡ OutOfMemory) }
{
    let labels = common_labels(alloc, labels)?;
    Ok(Key::from_parts(alloc, name, labels)?)
}

/// Adds a series about the program.
pub(crate) fn push_own(
    alloc: Global,
    labels: &[Label],
    name: &str,
    reading: OwnReading,
    rows: &mut Vec<OwnSeries>,
) -> Result<(), Error>
    ensures ok { OnOk result (all_own rows.new.items
        ≡ all_own rows.old.items ++ keyed_own (record { key = own_key labels.now name.now; reading = reading }) ∷ []) }
    ensures err { IfErr result (λ e. e ≡ OutOfMemory) }
{
    let key = own_key(alloc, labels, name)?;
    rows.push(OwnSeries { key, reading })?;
    Ok(())
}

/// The readings of what is held, with room for so many more.
pub(crate) fn read_all<'a>(
    alloc: Global,
    held: &[SeriesRef<'a>],
    more: usize,
) -> Result<Vec<SeriesReading<'a>>, AllocError>
    ensures { IfOk result (λ all. keyed_readings all.items ≡ all_read held.now) }
{
    let mut all = Vec::with_capacity(alloc, held.len().saturating_add(more))?;
    for one in held {
        all.push(one.reading())?;
    }
    Ok(all)
}

/// Whether two rows are of one series.
fn are_same(row: &SeriesReading<'_>, other: &SeriesReading<'_>) -> bool
    ensures { result ≡ series_key_eq (keyed_reading row.now).0 (keyed_reading other.now).0 }
{
    row.reading.kind() == other.reading.kind() && row.key == other.key
}

/// Gives a series this reading, in place of what it had.
fn set_series<'a>(
    all: Vec<SeriesReading<'a>>,
    one: SeriesReading<'a>,
) -> Result<Vec<SeriesReading<'a>>, AllocError>
    ensures { (cells : Cells) → AreReadings cells (keyed_readings all.entry.items)
        → IfOk result (λ all. AreReadings (with_series (keyed_reading one.entry) cells) (keyed_readings all.items)) }
{
    let mut all = all;
    all.retain(|row| !are_same(&one, row));
    all.push(one)?;
    Ok(all)
}

/// Gives each series about the program its reading, beside the others.
pub(crate) fn set_own<'a>(
    all: Vec<SeriesReading<'a>>,
    own: &'a [OwnSeries],
) -> Result<Vec<SeriesReading<'a>>, AllocError>
    ensures { (cells : Cells) → AreReadings cells (keyed_readings all.entry.items)
        → IfOk result (λ all. AreReadings (with_own (all_own own.now) cells) (keyed_readings all.items)) }
{
    let mut all = all;
    for one in own {
        all = set_series(all, one.reading())?;
    }
    Ok(all)
}
