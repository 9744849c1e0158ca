//! A gauge with the number of series that a text leaves out.
ghost use Rattle.std.specs.Prelude.{◌≡◌, IfOk, IfErr, string_bytes, min, pos};
ghost use Rattle.metrics.specs.declared.error.Error.TheVariants.{Memory as OutOfMemory};
ghost use Rattle.metrics_names.specs.declared.kind.MetricKind.TheVariants.{Gauge as GaugeKind};
ghost use Rattle.metrics_exporter.specs.Exporting.{level};
ghost use Rattle.metrics_exporter.specs.Gathering.{series_at};
ghost use Rattle.metrics_collector.specs.Gathering.{keyed_gathered};
ghost use Rattle.metrics_collector.specs.LeftOut.{IsLeftOutNumber, IsLeftOutGauge, IsCounted};

use crate::gathered::{GatheredSeries, Value};
use crate::keys::copies;
use crate::row_key::RowKey;
use metrics::{Error, Key, Label};
use metrics_prometheus::{CountedText, Descriptions, Naming, exposition_of};
use std::alloc::Global;

/// The name of the gauge with the number of series that a text leaves out.
pub const LEFT_OUT_NAME: &str = "metrics_left_out_series";

/// Returns the number of series that a text leaves out, as that of a gauge.
fn gauge_number(counted: &CountedText) -> i64
    ensures { IsLeftOutNumber (string_bytes counted.now.text) result }
{
    i64::try_from(counted.left_out.len()).unwrap_or(i64::MAX)
}

/// Returns the row of the gauge.
fn gauge_row(key: Key, number: i64) -> GatheredSeries
    ensures { keyed_gathered result ≡ (series_at GaugeKind key, level number) }
{
    GatheredSeries {
        key: RowKey::new(key),
        value: Value::Level(number),
    }
}

/// Returns the text of the gauge alone.
fn gauge_text(alloc: Global, labels: &[Label], number: i64) -> Result<String, Error>
    ensures ok { IfOk result (λ text. IsLeftOutGauge labels.now number (string_bytes text)) }
    ensures err { IfErr result (λ e. e ≡ OutOfMemory) }
{
    let key = Key::from_parts(alloc, LEFT_OUT_NAME, copies(alloc, labels)?)?;
    let rows = vec![in alloc; gauge_row(key, number)]?;
    exposition_of(alloc, Naming::AsGiven, &Descriptions::new(alloc), &rows)
}

/// Adds the gauge to a text.
pub(crate) fn with_number(
    alloc: Global,
    counted: CountedText,
    labels: &[Label],
) -> Result<String, Error>
    ensures ok { IfOk result (λ all. IsCounted labels.now (string_bytes counted.text) (string_bytes all)) }
    ensures err { IfErr result (λ e. e ≡ OutOfMemory) }
{
    let gauge = gauge_text(alloc, labels, gauge_number(&counted))?;
    let mut all = counted.text;
    all.push_str(&gauge)?;
    Ok(all)
}
