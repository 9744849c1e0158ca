//! The lines of series.
ghost use Rattle.std.specs.Prelude.{◌≡◌, ◌++◌, Some, OnOk, IfErr, string_bytes};
ghost use Rattle.metrics.specs.declared.error.Error.TheVariants.{Memory as OutOfMemory};
ghost use Rattle.metrics_exporter.specs.Exporting.{samples};
ghost use Rattle.metrics_exporter.specs.ExporterText.{bucket_words, reading_words};
ghost use Rattle.metrics_exporter.specs.ExporterText.{series_line};
ghost use Rattle.metrics_exporter.specs.Gathering.{series_shown, cell_shown};

use crate::series::{CellRef, SeriesRef};
use metrics::Error;
use metrics_storage::Histogram;
use std::alloc::AllocError;

fn write_buckets(text: &mut String, buckets: &[(i64, u64)]) -> Result<(), AllocError>
    ensures { OnOk result (string_bytes text.new ≡ string_bytes text.old ++ bucket_words buckets.now) }
{
    for (bound, count) in buckets {
        write!(text, " le {bound} {count}")?;
    }
    Ok(())
}

fn write_samples(text: &mut String, histogram: &Histogram) -> Result<(), Error>
    ensures ok { OnOk result (string_bytes text.new ≡ string_bytes text.old ++ reading_words (samples histogram.now)) }
    ensures err { IfErr result (λ e. e ≡ OutOfMemory) }
{
    let buckets = histogram.buckets()?;
    let count = histogram.count();
    let sum = histogram.sum();
    write!(text, " count {count} sum {sum}")?;
    write_buckets(text, &buckets)?;
    Ok(())
}

/// Writes the value of a cell.
fn write_cell(text: &mut String, cell: &CellRef<'_>) -> Result<(), Error>
    ensures ok { OnOk result (string_bytes text.new ≡ string_bytes text.old ++ reading_words (cell_shown cell.now).reading) }
    ensures err { IfErr result (λ e. e ≡ OutOfMemory) }
{
    match cell {
        CellRef::Counter(cell) => {
            let count = *cell.get_inner();
            write!(text, " value {count}")?;
            Ok(())
        }
        CellRef::Gauge(cell) => {
            let level = *cell.get_inner();
            write!(text, " value {level}")?;
            Ok(())
        }
        CellRef::Histogram(cell) => write_samples(text, cell.get_inner()),
    }
}

/// Writes the line of a series.
pub(crate) fn write_series(text: &mut String, series: &SeriesRef<'_>) -> Result<(), Error>
    ensures ok { OnOk result (string_bytes text.new
        ≡ string_bytes text.old ++ series_line (series_shown series.now) (Some (cell_shown series.now.cell))) }
    ensures err { IfErr result (λ e. e ≡ OutOfMemory) }
{
    let word = series.kind.as_str();
    write!(text, "{word} ")?;
    series.key.write_words(text)?;
    write_cell(text, &series.cell)?;
    text.push_str("\n")?;
    Ok(())
}
