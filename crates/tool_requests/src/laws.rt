//! Laws of the definitions.
ghost use Rattle.std.specs.Prelude.{◌≡◌, ℕ, List};
ghost use Rattle.std.specs.Option.{option_or};
ghost use Rattle.metrics_names.specs.Names.{LabelParts};
ghost use Rattle.tool_requests.specs.declared.dialect.Dialect.{Dialect};
ghost use Rattle.tool_requests.specs.declared.requests.Request.{Request as Asked};
ghost use Rattle.tool_requests.specs.Lines.{Spells, IsBad, with_labels, value_of};

/// Does nothing: its contract states the laws of lines.
pub fn line_law()
    // A line spells at most one request.
    ensures one { (dialect : Dialect) (line : List ℕ) (q r : Asked) → Spells dialect line q → Spells dialect line r → q ≡ r }
    // A line that spells a request is not bad.
    ensures apart { (dialect : Dialect) (line : List ℕ) (q : Asked) → Spells dialect line q → IsBad dialect line → ⊥ }
{}

/// Does nothing: its contract states the law of the labels that all series have.
pub fn label_law()
    // A key has its value among a series' own labels, or else among the common ones.
    ensures { (common own : List LabelParts) (key : List ℕ) →
        value_of key (with_labels common own) ≡ option_or (value_of key own) (value_of key common) }
{}
