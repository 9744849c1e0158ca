//! Recorders. Each name goes to one of them.
ghost use Rattle.std.specs.Prelude.{◌≡◌, ◌<◌, ◌-◌, ◌++◌, ◌∷◌, [], List, suc, false};
ghost use Rattle.std.specs.Prelude.{nat_eq, length, MatchResult};
ghost use Rattle.metrics.specs.Layers.{Route, routed, joined_all};
ghost use Rattle.metrics_rules.specs.Nodes.{leaves_in};
ghost use Rattle.metrics_rules.specs.Builders.{router_branches};
ghost use Rattle.metrics_trees.specs.Leaves.{recorders_of};
ghost use Rattle.metrics_trees.specs.Recorders.{BooksFit, route_refusal, target_refusal};

use crate::child::{Child, Router};
use crate::leaves::Leaves;
use crate::visits::Below;
use metrics::{Error, MetricKindMask, Recorder};
use metrics_rules::RouterBuilder as RulesBuilder;
use std::alloc::Global;

/// Combines a default, targets and the routes to them into a `Router`.
#[derive(Drop)]
pub struct RouterBuilder<B: Recorder> {
    alloc: Global,
    rules: RulesBuilder,
    /// The leaves of the default, and then those of the targets.
    leaves: Leaves<B>,
    ghost as_many: { leaves_in (router_branches rules) ≡ length (recorders_of leaves) },
}

impl<B: Recorder> RouterBuilder<B> {
    ghost use Rattle.metrics_trees.specs.Builders.{router_recorders, HasRoutes, GainsRoute, IsUnchanged};

    /// Makes a builder with a default, which gets each name that no route fits. It allocates nothing.
    pub fn from_recorder(alloc: Global, default: Child<B>) -> RouterBuilder<B>
        ensures recorders { router_recorders result ≡ ⟦<Child<B> as Recorder>⟧.meaning default ∷ [] }
        ensures routes { HasRoutes result [] }
    {
        let Child { rules, below } = default;
        let registrar = below.registrar;
        RouterBuilder {
            alloc,
            rules: RulesBuilder::new(alloc, rules),
            leaves: registrar.leaves,
        }
    }

    /// Adds a route to a target of its own, and returns the target's number: 0, 1, 2 in order.
    ///
    /// If that fails it returns the target, and changes nothing.
    ///
    /// # Errors
    ///
    /// `EmptyMask` for a mask without kinds, else `TooManyBooks` if there would be more than 65,536 books, and else
    /// `Memory`, also if there would be more than 65,536 leaves.
    pub fn add_route(
        &mut self,
        mask: MetricKindMask,
        pattern: &str,
        target: Child<B>,
    ) -> Result<usize, (Error, Child<B>)>
        ensures { let one = ⟦<Child<B> as Recorder>⟧.meaning target in MatchResult result
            (λ n. (suc n ≡ length (router_recorders self.old)) × (nat_eq mask 0 ≡ false)
            × BooksFit (router_recorders self.old) one
            × (router_recorders self.new ≡ router_recorders self.old ++ one ∷ [])
            × GainsRoute self.old self.new mask pattern.now n)
            (λ e. (e.0 ≡ route_refusal mask (router_recorders self.old) one) × (e.1 ≡ target)
            × IsUnchanged self.old self.new) }
    {
        if mask.is_empty() {
            return Err((Error::EmptyMask, target));
        }
        let others = &target.below.registrar.leaves;
        if let Err(error) = self.leaves.make_room(self.alloc, others) {
            return Err((error, target));
        }
        let Child { rules, below } = target;
        match self.rules.add_route(mask, pattern, rules) {
            Ok(number) => {
                let registrar = below.registrar;
                self.leaves.append_reserved(registrar.leaves);
                Ok(number)
            }
            Err((_error, rules)) => Err((Error::Memory, Child { rules, below })),
        }
    }

    /// Adds a route to the target of an earlier route, by its number. A call that fails changes nothing.
    ///
    /// # Errors
    ///
    /// `EmptyMask` for a mask without kinds, else `NoSuchTarget` if no target has the number, and else `Memory`.
    pub fn add_route_to(
        &mut self,
        mask: MetricKindMask,
        pattern: &str,
        target: usize,
    ) -> Result<(), Error>
        ensures { MatchResult result
            (λ done. (nat_eq mask 0 ≡ false) × (suc target < length (router_recorders self.old))
            × (router_recorders self.new ≡ router_recorders self.old)
            × GainsRoute self.old self.new mask pattern.now target)
            (λ e. (e ≡ target_refusal mask target (length (router_recorders self.old) - 1))
            × IsUnchanged self.old self.new) }
    {
        self.rules.add_route_to(mask, pattern, target)
    }

    /// Returns the default, the targets and the routes as one recorder.
    #[tactic(auto, using(crate::proofs::OverLemmas::over_branches))]
    pub fn build(self) -> Router<B>
        ensures routed { (rs : List Route) → HasRoutes self rs →
            ⟦<Router<B> as Recorder>⟧.meaning result ≡ routed rs (router_recorders self) }
        ensures contents { (⟦<Router<B> as Recorder>⟧.meaning result).contents
            ≡ (joined_all (router_recorders self)).contents }
    {
        Child {
            rules: self.rules.build(),
            below: Below::new(self.leaves),
        }
    }
}
