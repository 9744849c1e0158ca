//! Laws of the definitions.
ghost use Rattle.std.specs.Prelude.{◌≡◌, ℕ, List};
ghost use Rattle.metrics.specs.declared.calls.Call.{Call};
ghost use Rattle.tool_grammar.specs.Grammar.{Spells};

/// States that a line spells at most one call.
pub fn one_call_at_most()
    ensures { (line : List ℕ) (c d : Call) → Spells line c → Spells line d → c ≡ d }
{}
