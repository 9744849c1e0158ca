//! Laws of the definitions.
ghost use Rattle.std.specs.Prelude.{◌≡◌, ◌++◌, ℕ, List, []};
ghost use Rattle.tool_stream.specs.Lines.{lines_of};
ghost use Rattle.tool_lines.specs.Examples.{first_input, first_output};
ghost use Rattle.tool_trees.specs.Trees.{meaning_of};
ghost use Rattle.tool_lines.specs.Output.{Input, printed, Prints, IsAnswered, AnswersPart};

/// States that lines are at most one input, so there is one text for them.
pub fn one_text_at_most()
    ensures input { (ls : List (List ℕ)) (i j : Input ls) → (i.tree ≡ j.tree) × (i.calls ≡ j.calls)
        × (i.rest ≡ j.rest) }
    ensures text { (ls : List (List ℕ)) (a b : List ℕ) → Prints ls a → Prints ls b → a ≡ b }
{}

/// States that what is written when memory or the device fails begins an answer to all calls of the lines.
pub fn part_begins_whole()
    ensures { (ls : List (List ℕ)) (text : List ℕ) → AnswersPart ls (λ written. written ≡ text)
        → (i : Input ls) → (more : List ℕ) × IsAnswered (meaning_of i.tree) i.calls (text ++ more) }
{}

/// States a first run: its input, and what is printed for it.
pub fn first_run()
    ensures { (i : Input (lines_of first_input)) × (i.rest ≡ []) × (printed i ≡ first_output) }
{}
