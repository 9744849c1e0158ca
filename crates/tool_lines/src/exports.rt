//! The words of a command line that ask for an exporter.
ghost use Rattle.std.specs.Prelude.{◌≡◌, true, false, map, MatchResult, MatchOption};
ghost use Rattle.tool_export.specs.declared.plans.ExportPlan.{ExportPlan as Plan};
ghost use Rattle.tool_lines.specs.Exports.{AsksExport};
ghost use Rattle.tool_lines.specs.declared.requests.Request.{Request as Asked};
ghost use Rattle.tool_lines.specs.Requests.{Asks};

use std::alloc::{AllocError, Global};
use tool_export::{ExportPlan, plan_of};

/// Whether words begin as those that ask for an exporter.
pub fn is_export(words: &[&str]) -> bool
    ensures export { result ≡ true → (asked : Asked) → Asks (map (λ w. w.now) words.now) asked → ⊥ }
    ensures other { result ≡ false → (plan : Plan) → AsksExport (map (λ w. w.now) words.now) plan → ⊥ }
{
    match words {
        [word, ..] => *word == "export",
        [] => false,
    }
}

/// Returns the plan of the words `export S M T B`, if they ask for an exporter. Fails only without memory for the
/// bounds of such a plan.
pub fn export_of(alloc: Global, words: &[&str]) -> Result<Option<ExportPlan>, AllocError>
    ensures { MatchResult result
        (λ found. MatchOption found ((plan : Plan) → AsksExport (map (λ w. w.now) words.now) plan → ⊥)
        (λ plan. AsksExport (map (λ w. w.now) words.now) plan))
        (λ _. (plan : Plan) × AsksExport (map (λ w. w.now) words.now) plan) }
{
    match words {
        [word, shards, kinds, timeout, bounds] if *word == "export" => {
            plan_of(alloc, shards, kinds, timeout, bounds)
        }
        _ => Ok(None),
    }
}
