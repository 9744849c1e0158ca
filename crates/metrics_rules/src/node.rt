//! The tree below `Rules`.
ghost use Rattle.std.specs.Prelude.{◌≡◌, ◌≤◌, ◌+◌};
ghost use Rattle.metrics.specs.Targets.{raise};
ghost use Rattle.metrics_rules.specs.Nodes.{node_meaning, leaves_of, most_leaves, IsTree};
ghost use Rattle.metrics_rules.specs.Visits.{Visits};

use crate::named::Named;
use crate::routes::Routes;
use crate::scratch::Scratch;
use crate::visitor::{Stopped, Visitor, show, with_more};
use metrics::{MetricKind, Text};
use metrics_layers::is_refused;
use prefix_match::SubstringSet;

/// Where names go.
#[derive(Drop)]
pub enum Node {
    Leaf,
    Noop,
    Prefixed(Text, Box<Node>),
    Filtered(SubstringSet, Box<Node>),
    /// Trees side by side, the number of leaves before each, that of all, and the routes if a name goes to one of them.
    Group(Vec<Node>, Vec<usize>, usize, Option<Routes>),
}

impl Node {
    pub(crate) fn leaves(&self) -> usize
        requires tree { IsTree self.now }
        ensures { result ≡ leaves_of (node_meaning self.now) }
    {
        match self {
            Node::Leaf => 1,
            Node::Noop => 0,
            Node::Prefixed(_, inner) => inner.leaves(),
            Node::Filtered(_, inner) => inner.leaves(),
            Node::Group(_children, _starts, leaves, _routes) => *leaves,
        }
    }

    /// The branch that a name goes to by routes, and the number of leaves before it; or else the tree itself.
    #[inline(always)]
    pub(crate) fn branch(&self, kind: MetricKind, name: &str) -> (&Node, usize)
        requires { IsTree self.now }
        ensures tree { IsTree result.0.now }
        ensures fits { result.1 + leaves_of (node_meaning result.0.now) ≤ leaves_of (node_meaning self.now) }
        ensures targets { raise result.1 ((node_meaning result.0.now).targets kind name.now)
            ≡ (node_meaning self.now).targets kind name.now }
    {
        if let Node::Group(children, starts, _leaves, routes) = self {
            if let Some(routes) = routes {
                let number = routes.branch(kind, name);
                return (&children[number], starts[number]);
            }
        }
        (self, 0)
    }

    /// Visits the targets of a key or a name, whose leaves are numbered from `front`.
    pub(crate) fn visit<K: Named, V: Visitor<K>>(
        &self,
        kind: MetricKind,
        key: &K,
        front: usize,
        scratch: &mut Scratch<K>,
        visitor: &mut V,
    ) -> Result<usize, Stopped>
        requires tree { IsTree self.now }
        requires few { front + leaves_of (node_meaning self.now) ≤ most_leaves }
        ensures { Visits V.accepts V.refuses (K.parts key.now).labels visitor.old
            (raise front ((node_meaning self.now).targets kind (K.parts key.now).name)) visitor.new result }
    {
        match self {
            Node::Leaf => show(visitor, front, key),
            Node::Noop => Ok(0),
            Node::Prefixed(prefix, inner) => {
                let prefix = prefix.as_str();
                if let Err(refused) = scratch.there.set_below(scratch.alloc, prefix, key) {
                    return Err(Stopped {
                        accepted: 0,
                        refused,
                    });
                }
                let there = &scratch.there;
                match (&**inner, &mut scratch.below) {
                    (Node::Leaf, _) => show(visitor, front, there),
                    (inner, Some(below)) => inner.visit(kind, there, front, below, visitor),
                    (inner, None) => {
                        let mut below = Scratch::new(scratch.alloc);
                        let visited = inner.visit(kind, there, front, &mut below, visitor);
                        scratch.keep(below);
                        visited
                    }
                }
            }
            Node::Filtered(automaton, inner) => {
                if is_refused(automaton, key.name()) {
                    Ok(0)
                } else {
                    inner.visit(kind, key, front, scratch, visitor)
                }
            }
            Node::Group(children, starts, _leaves, routes) => match routes {
                Some(routes) => {
                    let number = routes.branch(kind, key.name());
                    let there = front + starts[number];
                    children[number].visit(kind, key, there, scratch, visitor)
                }
                None => {
                    let mut accepted: usize = 0;
                    let count = children.len();
                    for i in 0..count {
                        let child = &children[i];
                        let there = front + starts[i];
                        let visited = match child {
                            Node::Leaf => show(visitor, there, key),
                            child => child.visit(kind, key, there, scratch, visitor),
                        };
                        match with_more(accepted, visited) {
                            Ok(more) => accepted = more,
                            Err(stopped) => return Err(stopped),
                        }
                    }
                    Ok(accepted)
                }
            },
        }
    }
}
