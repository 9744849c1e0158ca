//! Laws of the definitions.
ghost use Rattle.std.specs.Prelude.{◌≡◌, ◌++◌, ℕ, List};
ghost use Rattle.metrics_exporter.specs.Exporting.{Setup};
ghost use Rattle.tool_export.specs.declared.requests.Request.{Request};
ghost use Rattle.tool_export.specs.Requests.{Spells};
ghost use Rattle.tool_export.specs.Exported.{IsExported};
ghost use Rattle.tool_export.specs.declared.plans.ExportPlan.{ExportPlan as Plan};
ghost use Rattle.tool_export.specs.Plans.{IsAllowed, plan_words};

use metrics_exporter::exporter_law;

/// Does nothing: its contract states the laws of what lines print.
pub fn export_law()
    // A line spells at most one request.
    ensures request { (line : List ℕ) (r s : Request) → Spells line r → Spells line s → r ≡ s }
    // Words are those of at most one plan.
    ensures plan { (a b : Plan) → IsAllowed a → IsAllowed b → plan_words a ≡ plan_words b → a ≡ b }
    // Lines print at most one text.
    ensures one { (setup : Setup) (ls : List (List ℕ)) (a b : List ℕ) → IsExported setup ls a → IsExported setup ls b
        → a ≡ b }
    // The text of the first lines begins the text of all.
    ensures begins { (setup : Setup) (ls later : List (List ℕ)) (a b : List ℕ) → IsExported setup ls a
        → IsExported setup (ls ++ later) b → (more : List ℕ) × (b ≡ a ++ more) }
{
    exporter_law();
}
