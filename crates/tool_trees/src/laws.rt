//! Laws of the definitions.
ghost use Rattle.std.specs.Prelude.{◌≡◌, ℕ, List};
ghost use Rattle.tool_trees.specs.declared.tree_line.RouteWord.{RouteWord as Written};
ghost use Rattle.tool_trees.specs.Trees.{Tree, BeginsWithTree, NameTargets, NameInOrder};

/// States that lines begin with at most one tree.
pub fn one_tree_at_most()
    ensures { (ls : List (List ℕ)) (s t : Tree) (rest others : List (List ℕ)) →
        BeginsWithTree ls s rest → BeginsWithTree ls t others → (s ≡ t) × (rest ≡ others) }
{}

/// States what is required of the targets of routes, in words: all are named, and each lower target before it.
#[tactic(auto, using(crate::proofs::Orders::in_words, crate::proofs::Orders::from_words))]
pub fn targets_in_order()
    ensures says { (n : ℕ) (routes : List Written) → NameTargets n 0 routes → NameInOrder n routes }
    ensures enough { (n : ℕ) (routes : List Written) → NameInOrder n routes → NameTargets n 0 routes }
{}
