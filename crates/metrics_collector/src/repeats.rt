//! Rows of a series that comes again.
ghost use Rattle.std.specs.Prelude.{◌≡◌, ◌++◌, [], IfOk, IfErr, string_bytes};
ghost use Rattle.std.specs.List.{list_any};
ghost use Rattle.metrics.specs.declared.error.Error.TheVariants.{Memory as OutOfMemory};
ghost use Rattle.metrics_collector.specs.Merging.{are_same};
ghost use Rattle.metrics_collector.specs.Repeats.{repeated_lines};

use crate::gathered::GatheredSeries;
use crate::merging::are_same;
use metrics::Error;
use metrics_prometheus::{CountedText, write_repeated};
use std::alloc::Global;

/// Returns whether one of these rows is of a row's series.
fn has_series(rows: &[GatheredSeries], row: &GatheredSeries) -> bool
    ensures { result ≡ list_any (are_same row.now) rows.now }
{
    for other in rows {
        if are_same(row, other) {
            return true;
        }
    }
    false
}

/// Adds a line for each row whose series comes before it.
pub(crate) fn with_repeated(
    alloc: Global,
    counted: CountedText,
    rows: &[GatheredSeries],
) -> Result<CountedText, Error>
    ensures ok { IfOk result (λ all. string_bytes all.text
        ≡ string_bytes counted.text ++ repeated_lines [] rows.now) }
    ensures err { IfErr result (λ e. e ≡ OutOfMemory) }
{
    let mut all = counted;
    for at in 0..rows.len() {
        let row = &rows[at];
        if has_series(&rows[..at], row) {
            all = write_repeated(alloc, all, row.kind(), &row.key)?;
        }
    }
    Ok(all)
}
