//! Recorders that each get each name.
ghost use Rattle.std.specs.Prelude.{◌≡◌, ◌++◌, ◌∷◌, [], length, MatchResult};
ghost use Rattle.metrics.specs.Layers.{joined_all};
ghost use Rattle.metrics_rules.specs.Nodes.{leaves_in};
ghost use Rattle.metrics_rules.specs.Builders.{fanout_branches};
ghost use Rattle.metrics_trees.specs.Leaves.{recorders_of};
ghost use Rattle.metrics_trees.specs.Recorders.{BooksFit, refusal};

use crate::child::{Child, Fanout};
use crate::leaves::Leaves;
use crate::visits::Below;
use metrics::{Error, Recorder};
use metrics_rules::FanoutBuilder as RulesBuilder;
use std::alloc::Global;

/// Combines recorders into a `Fanout`, in the order in which they are added.
#[derive(Drop)]
pub struct FanoutBuilder<B: Recorder> {
    alloc: Global,
    rules: RulesBuilder,
    leaves: Leaves<B>,
    ghost as_many: { leaves_in (fanout_branches rules) ≡ length (recorders_of leaves) },
}

impl<B: Recorder> FanoutBuilder<B> {
    ghost use Rattle.metrics_trees.specs.Builders.{fanout_recorders};

    /// Makes a builder without recorders.
    pub fn default(alloc: Global) -> FanoutBuilder<B>
        ensures { fanout_recorders result ≡ [] }
    {
        FanoutBuilder {
            alloc,
            rules: RulesBuilder::default(alloc),
            leaves: Leaves::Empty,
        }
    }

    /// Adds a recorder at the end. If that fails it returns the recorder, and changes nothing.
    ///
    /// # Errors
    ///
    /// `TooManyBooks` if there would be more than 65,536 books, and else `Memory`, also if there would be more than 65,536
    /// leaves.
    pub fn add_recorder(&mut self, child: Child<B>) -> Result<(), (Error, Child<B>)>
        ensures { let one = ⟦<Child<B> as Recorder>⟧.meaning child in MatchResult result
            (λ done. BooksFit (fanout_recorders self.old) one
            × (fanout_recorders self.new ≡ fanout_recorders self.old ++ one ∷ []))
            (λ e. (e.0 ≡ refusal (fanout_recorders self.old) one) × (e.1 ≡ child)
            × (fanout_recorders self.new ≡ fanout_recorders self.old)) }
    {
        let others = &child.below.registrar.leaves;
        if let Err(error) = self.leaves.make_room(self.alloc, others) {
            return Err((error, child));
        }
        let Child { rules, below } = child;
        match self.rules.add_child(rules) {
            Ok(()) => {
                let registrar = below.registrar;
                self.leaves.append_reserved(registrar.leaves);
                Ok(())
            }
            Err((_error, rules)) => Err((Error::Memory, Child { rules, below })),
        }
    }

    /// Returns all that were added, as one recorder.
    #[tactic(auto, using(crate::proofs::OverLemmas::over_branches))]
    pub fn build(self) -> Fanout<B>
        ensures { ⟦<Fanout<B> as Recorder>⟧.meaning result ≡ joined_all (fanout_recorders self) }
    {
        Child {
            rules: self.rules.build(),
            below: Below::new(self.leaves),
        }
    }
}
