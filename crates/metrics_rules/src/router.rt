//! Trees. Each name goes to one of them.
ghost use Rattle.std.specs.Prelude.{◌≡◌, ◌≤◌, ◌<◌, ◌-◌, ◌++◌, ◌∷◌, [], List, suc, false, Some};
ghost use Rattle.std.specs.Prelude.{nat_eq, length, MatchResult};
ghost use Rattle.metrics.specs.Layers.{Route, routed, joined_all};
ghost use Rattle.metrics_rules.specs.Nodes.{node_meaning, leaves_in, most_leaves, IsWithin};
ghost use Rattle.metrics_rules.specs.Branches.{all_meanings, LeavesFit, HasSpare, route_refusal};
ghost use Rattle.metrics_rules.specs.Branches.{target_refusal};

use crate::branches::{Branches, MOST_LEAVES};
use crate::routes::Routes;
use crate::rules::Rules;
use metrics::{Error, MetricKindMask};
use std::alloc::Global;
use std::mem;

/// Combines a default, targets and the routes to them into a router: each name goes to the target of the route that wins, or else
/// to the default. The default's leaves come first, then those of the targets.
#[derive(Drop)]
pub struct RouterBuilder {
    /// The default, while there is no target.
    default: Rules,
    /// The default and then the targets, once there is one.
    branches: Branches,
    routes: Routes,
    ghost within: { IsWithin (Some routes) (length (all_meanings default.node branches.children.items)) },
}

impl RouterBuilder {
    ghost use Rattle.metrics_rules.specs.Meanings.{rules_meaning};
    ghost use Rattle.metrics_rules.specs.Builders.{router_branches, HasRoutes, GainsRoute, IsUnchanged};

    /// Makes a builder with a default, which gets each name that no route fits. It allocates nothing.
    pub fn new(alloc: Global, default: Rules) -> RouterBuilder
        ensures branches { router_branches result ≡ rules_meaning default ∷ [] }
        ensures routes { HasRoutes result [] }
    {
        RouterBuilder {
            default,
            branches: Branches::new(alloc),
            routes: Routes::new(alloc),
        }
    }

    /// Adds a route to a target of its own, and returns the target's number: 0, 1, 2 in order.
    ///
    /// If that fails it returns the target, and changes nothing.
    ///
    /// # Errors
    ///
    /// `EmptyMask` for a mask without kinds, else `TooManyBooks` if there would be more than 65,536 leaves, and else `Memory`.
    pub fn add_route(
        &mut self,
        mask: MetricKindMask,
        pattern: &str,
        target: Rules,
    ) -> Result<usize, (Error, Rules)>
        ensures { let one = rules_meaning target in MatchResult result
            (λ n. (suc n ≡ length (router_branches self.old)) × (nat_eq mask 0 ≡ false)
            × LeavesFit (router_branches self.old) one
            × (router_branches self.new ≡ router_branches self.old ++ one ∷ [])
            × GainsRoute self.old self.new mask pattern.now n)
            (λ e. (e.0 ≡ route_refusal mask (router_branches self.old) one) × (e.1 ≡ target)
            × IsUnchanged self.old self.new) }
    {
        if mask.is_empty() {
            return Err((Error::EmptyMask, target));
        }
        if target.leaves() > MOST_LEAVES - self.leaves() {
            return Err((Error::TooManyBooks, target));
        }
        let number = self.targets();
        if self.branches.reserve(2).is_err() {
            return Err((Error::Memory, target));
        }
        if self.routes.add(mask, pattern, number).is_err() {
            return Err((Error::Memory, target));
        }
        push_target(&mut self.default, &mut self.branches, target);
        Ok(number)
    }

    /// Adds a route to the target of an earlier route, by its number. A call that fails changes nothing.
    ///
    /// # Errors
    ///
    /// `EmptyMask` for a mask without kinds, else `NoSuchTarget` if no target has the number, and else `Memory`.
    pub fn add_route_to(
        &mut self,
        mask: MetricKindMask,
        pattern: &str,
        target: usize,
    ) -> Result<(), Error>
        ensures { MatchResult result
            (λ done. (nat_eq mask 0 ≡ false) × (suc target < length (router_branches self.old))
            × (router_branches self.new ≡ router_branches self.old)
            × GainsRoute self.old self.new mask pattern.now target)
            (λ e. (e ≡ target_refusal mask target (length (router_branches self.old) - 1))
            × IsUnchanged self.old self.new) }
    {
        if mask.is_empty() {
            return Err(Error::EmptyMask);
        }
        if target >= self.targets() {
            return Err(Error::NoSuchTarget);
        }
        if self.routes.add(mask, pattern, target).is_err() {
            return Err(Error::Memory);
        }
        Ok(())
    }

    /// Returns the default, the targets and the routes as one.
    pub fn build(self) -> Rules
        ensures routed { (rs : List Route) → HasRoutes self rs →
            rules_meaning result ≡ routed rs (router_branches self) }
        ensures contents { (rules_meaning result).contents
            ≡ (joined_all (router_branches self)).contents }
    {
        if self.branches.children.is_empty() {
            return self.default;
        }
        self.branches.into_rules(Some(self.routes))
    }

    /// The number of leaves of all, at most 65,536.
    fn leaves(&self) -> usize
        ensures all { result ≡ leaves_in (router_branches self.now) }
        ensures most { result ≤ most_leaves }
    {
        if self.branches.children.is_empty() {
            return self.default.leaves();
        }
        self.branches.leaves
    }

    /// The number of targets.
    fn targets(&self) -> usize
        ensures { suc result ≡ length (router_branches self.now) }
    {
        self.branches.children.len().saturating_sub(1)
    }
}

/// Adds a target at the end. A default that was alone moves before it.
fn push_target(default: &mut Rules, branches: &mut Branches, target: Rules)
    requires spare { HasSpare 2 branches.old.children branches.old.starts }
    requires few { LeavesFit (all_meanings default.old.node branches.old.children.items)
        (node_meaning target.node) }
    ensures { all_meanings default.new.node branches.new.children.items
        ≡ all_meanings default.old.node branches.old.children.items ++ node_meaning target.node ∷ [] }
{
    if branches.children.is_empty() {
        branches.push_reserved(mem::replace(default, Rules::noop()));
    }
    branches.push_reserved(target);
}
