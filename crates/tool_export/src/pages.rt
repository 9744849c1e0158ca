//! Pages: what scrapes show of an exporter.
ghost use Rattle.std.specs.Prelude.{◌≡◌, ℕ, List, MatchResult, OnErr, string_bytes};
ghost use Rattle.metrics.specs.declared.error.Error.TheVariants.{Memory as OutOfMemory};
ghost use Rattle.metrics_exporter.specs.declared.exporter.Exporter.{Exporter as Holder};
ghost use Rattle.metrics_exporter.specs.Exporting.{Setup, Log, Cells, HoldsSome, cells_after, steps};
ghost use Rattle.metrics_exporter.specs.Kept.{IsAfter, described};
ghost use Rattle.tool_export.specs.Exported.{Scrapes};

use metrics::Error;
use metrics_exporter::Exporter;

/// A text of what an exporter holds.
pub trait Page {
    /// The texts that show these cells of an exporter.
    ghost shows: { Self → Holder → Cells → List ℕ → Type 0 };

    /// Returns the text. Fails only when out of memory, and never if no series is held.
    fn text(&self, on: &Exporter) -> Result<String, Error>
        ensures text { (setup : Setup) (log : Log) → IsAfter setup log on.now → MatchResult result
            (λ text. shows self.now on.now (cells_after setup (steps log)) (string_bytes text)) (λ e. e ≡ OutOfMemory) }
        ensures refused { (setup : Setup) (log : Log) → IsAfter setup log on.now →
            OnErr result (HoldsSome (cells_after setup (steps log))) };
}

/// Removes the series idle at this moment, and returns the page of the rest. Never fails if no series is held.
pub fn shown_at<P: Page>(page: &P, on: &mut Exporter, now: u64) -> Result<String, Error>
    ensures shown { Scrapes (λ cells text. P.shows page.now on.new cells (string_bytes text)) on.old on.new now result }
    ensures legend { described on.new ≡ described on.old }
{
    match on.expire(now) {
        Ok(_) => page.text(on),
        Err(e) => Err(e),
    }
}
