//! Trees that each get each name.
ghost use Rattle.std.specs.Prelude.{◌≡◌, ◌++◌, ◌∷◌, [], MatchResult};
ghost use Rattle.metrics.specs.Layers.{joined_all};
ghost use Rattle.metrics_rules.specs.Branches.{LeavesFit, refusal};
ghost use Rattle.metrics_rules.specs.Builders.{fanout_branches};
ghost use Rattle.metrics_rules.specs.Meanings.{rules_meaning};

use crate::branches::{Branches, MOST_LEAVES};
use crate::rules::Rules;
use metrics::Error;
use std::alloc::Global;

/// Combines rules into a fanout: each name goes to each of them, in the order in which they are added.
#[derive(Drop)]
pub struct FanoutBuilder {
    branches: Branches,
}

impl FanoutBuilder {
    /// Makes a builder without rules. It allocates nothing.
    pub fn default(alloc: Global) -> FanoutBuilder
        ensures { fanout_branches result ≡ [] }
    {
        FanoutBuilder {
            branches: Branches::new(alloc),
        }
    }

    /// Adds rules at the end, whose leaves are numbered after those of the rules before.
    ///
    /// If that fails it returns them, and changes nothing.
    ///
    /// # Errors
    ///
    /// `TooManyBooks` if there would be more than 65,536 leaves, and else `Memory`.
    pub fn add_child(&mut self, child: Rules) -> Result<(), (Error, Rules)>
        ensures { let one = rules_meaning child in MatchResult result
            (λ done. LeavesFit (fanout_branches self.old) one
            × (fanout_branches self.new ≡ fanout_branches self.old ++ one ∷ []))
            (λ e. (e.0 ≡ refusal (fanout_branches self.old) one) × (e.1 ≡ child)
            × (fanout_branches self.new ≡ fanout_branches self.old)) }
    {
        if child.leaves() > MOST_LEAVES - self.branches.leaves {
            return Err((Error::TooManyBooks, child));
        }
        if self.branches.reserve(1).is_err() {
            return Err((Error::Memory, child));
        }
        self.branches.push_reserved(child);
        Ok(())
    }

    /// Returns all that were added, as one.
    pub fn build(self) -> Rules
        ensures { rules_meaning result ≡ joined_all (fanout_branches self) }
    {
        self.branches.into_rules(None)
    }
}
