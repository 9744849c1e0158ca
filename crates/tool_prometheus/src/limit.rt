//! How many series may be held.
ghost use Rattle.std.specs.Prelude.{MatchBool};
ghost use Rattle.metrics_exporter.specs.Exporting.{Setup, Log, steps, cells_after, series_of};
ghost use Rattle.metrics_exporter.specs.Kept.{IsAfter};
ghost use Rattle.tool_prometheus.specs.Limit.{IsBeyond, IsWithin};

use metrics::{Key, Update};
use metrics_exporter::Exporter;

/// Whether an update would make one series too many.
pub(crate) fn is_beyond(exporter: &Exporter, most: Option<u64>, key: &Key, by: Update) -> bool
    ensures { (setup : Setup) (log : Log) → IsAfter setup log exporter.now →
        MatchBool result (IsBeyond most (cells_after setup (steps log)) (series_of key.now by))
        (IsWithin most (cells_after setup (steps log)) (series_of key.now by)) }
{
    let Some(most) = most else {
        return false;
    };
    if (exporter.len() as u64) < most {
        return false;
    }
    !exporter.holds(by.kind(), key)
}
