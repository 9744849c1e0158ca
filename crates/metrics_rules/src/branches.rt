//! Trees side by side, for builders.
ghost use Rattle.std.specs.Prelude.{◌≡◌, ◌≤◌, ◌++◌, ◌∷◌, [], suc, ℕ, length, OnOk};
ghost use Rattle.metrics_rules.specs.Nodes.{node_meaning, group_meaning, leaves_in, most_leaves, AreStarts, IsWithin};
ghost use Rattle.metrics_rules.specs.Branches.{meanings, AreSound, AreSound-prop, LeavesFit, HasSpare};

use crate::node::Node;
use crate::routes::Routes;
use crate::rules::Rules;
use std::alloc::{AllocError, Global};

/// How many leaves there may be in all.
pub(crate) const MOST_LEAVES: usize = 65_536;

/// Trees side by side, the branches of a fanout or a router, with at most 65,536 leaves in all.
#[derive(Drop)]
pub struct Branches {
    pub(crate) children: Vec<Node>,
    /// The number of leaves before each.
    starts: Vec<usize>,
    /// The number of leaves of all.
    pub(crate) leaves: usize,
    ghost starts_are: { AreStarts starts.items (meanings children.items) },
    ghost count: { leaves ≡ leaves_in (meanings children.items) },
    ghost sound: { AreSound children.items } by { AreSound-prop children.items },
    ghost most: { leaves ≤ most_leaves },
}

impl Branches {
    /// No branches.
    pub(crate) fn new(alloc: Global) -> Branches
        ensures { result.children.items ≡ [] }
    {
        Branches {
            children: Vec::new(alloc),
            starts: Vec::new(alloc),
            leaves: 0,
        }
    }

    /// Makes room for so many branches more. The branches stay, whatever the result.
    pub(crate) fn reserve(&mut self, additional: usize) -> Result<(), AllocError>
        ensures items { self.new.children.items ≡ self.old.children.items }
        ensures spare { OnOk result (HasSpare additional self.new.children self.new.starts) }
    {
        self.children.reserve(additional)?;
        self.starts.reserve(additional)
    }

    /// Adds a branch at the end, which has room for it.
    pub(crate) fn push_reserved(&mut self, child: Rules)
        requires spare { HasSpare 1 self.old.children self.old.starts }
        requires few { LeavesFit (meanings self.old.children.items)
            (node_meaning child.node) }
        ensures items { self.new.children.items ≡ self.old.children.items ++ child.node ∷ [] }
        ensures spare { (n : ℕ) → HasSpare (suc n) self.old.children self.old.starts →
            HasSpare n self.new.children self.new.starts }
    {
        let end = self.leaves + child.leaves();
        self.children.push_reserved(child.node);
        self.starts.push_reserved(self.leaves);
        self.leaves = end;
    }

    /// All of them as one tree, with routes if each name goes to one of them.
    pub(crate) fn into_rules(self, routes: Option<Routes>) -> Rules
        requires { IsWithin routes (length self.children.items) }
        ensures { node_meaning result.node
            ≡ group_meaning routes (meanings self.children.items) }
    {
        Rules {
            node: Node::Group(self.children, self.starts, self.leaves, routes),
        }
    }
}
