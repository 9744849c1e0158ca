//! Where names go.
ghost use Rattle.std.specs.Prelude.{◌≡◌, ◌≤◌, None, map, unwrap_or, MatchResult};
ghost use Rattle.metrics.specs.Book.{new_book};
ghost use Rattle.metrics.specs.Layers.{prefixed, filtered};
ghost use Rattle.metrics.specs.Meaning.{nothing, one_book};
ghost use Rattle.metrics_layers.specs.Filters.{fault_of};
ghost use Rattle.metrics_rules.specs.Nodes.{leaves_of, most_leaves, IsTree, IsTree-prop};
ghost use Rattle.metrics_rules.specs.Visits.{Visits, listed};
ghost use Rattle.metrics.specs.declared.error.Error.TheVariants.{Memory};

use crate::named::Named;
use crate::node::Node;
use crate::scratch::Scratch;
use crate::visitor::{Stopped, Visitor, show};
use metrics::{Error, Key, MetricKind, Refused};
use metrics_layers::{FilterLayer, PrefixLayer};
use std::alloc::Global;

/// Where each name goes: a tree of prefixes, filters, fanouts and routers over leaves, which are numbered from 0, from left to
/// right. It keeps nothing of the names that it has seen, so any number of threads may use it.
#[derive(Drop)]
pub struct Rules {
    pub(crate) node: Node,
    ghost tree: { IsTree node } by { IsTree-prop node },
}

impl Rules {
    ghost use Rattle.metrics_rules.specs.Meanings.{rules_meaning};

    /// Makes rules of one leaf, to which each name goes as it is.
    pub fn leaf() -> Rules
        ensures { rules_meaning result ≡ one_book new_book }
    {
        Rules { node: Node::Leaf }
    }

    /// Makes rules without leaves, which reject each name.
    pub fn noop() -> Rules
        ensures { rules_meaning result ≡ nothing }
    {
        Rules { node: Node::Noop }
    }

    /// Puts a prefix and a dot before each name. Returns the rules when out of memory.
    pub fn prefix(self, alloc: Global, layer: &PrefixLayer) -> Result<Rules, (Error, Rules)>
        ensures { MatchResult result
            (λ r. rules_meaning r ≡ prefixed layer.now (rules_meaning self))
            (λ e. (e.0 ≡ Memory) × (e.1 ≡ self)) }
    {
        let Ok(prefix) = layer.prefix() else {
            return Err((Error::Memory, self));
        };
        let inner = self.boxed(alloc)?;
        Ok(Rules {
            node: Node::Prefixed(prefix, inner),
        })
    }

    /// Drops the names in which a pattern occurs. Returns the rules if that fails.
    ///
    /// # Errors
    ///
    /// `PatternsTooLong` if the patterns have more than 1,048,576 bytes together, and else `Memory`.
    pub fn filter(self, alloc: Global, layer: &FilterLayer) -> Result<Rules, (Error, Rules)>
        ensures { MatchResult result
            (λ r. (fault_of layer.now ≡ None)
            × (rules_meaning r ≡ filtered layer.now.fold_case layer.now.listed (rules_meaning self)))
            (λ e. (e.0 ≡ unwrap_or (fault_of layer.now) Memory) × (e.1 ≡ self)) }
    {
        let automaton = match layer.automaton(alloc) {
            Ok(automaton) => automaton,
            Err(error) => return Err((error, self)),
        };
        let inner = self.boxed(alloc)?;
        Ok(Rules {
            node: Node::Filtered(automaton, inner),
        })
    }

    /// The tree's node in a box. Returns the rules when out of memory.
    fn boxed(self, alloc: Global) -> Result<Box<Node>, (Error, Rules)>
        ensures { MatchResult result
            (λ inner. inner.value ≡ self.node)
            (λ e. (e.0 ≡ Memory) × (e.1 ≡ self)) }
    {
        match Box::new(alloc, self.node) {
            Ok(inner) => Ok(inner),
            Err(refused) => Err((
                Error::Memory,
                Rules {
                    node: refused.value,
                },
            )),
        }
    }

    /// Returns the number of leaves.
    pub fn leaves(&self) -> usize
        ensures count { result ≡ leaves_of (rules_meaning self.now) }
        ensures most { result ≤ most_leaves }
    {
        self.node.leaves()
    }

    /// Shows the targets of a key or a name to a visitor, in order: for each the number of the leaf, and the key or name as it is
    /// there. Returns how many there were.
    ///
    /// It takes memory only for names below prefixes: for keys only where they are longer than all earlier ones of this
    /// `scratch`.
    ///
    /// # Errors
    ///
    /// The first target that the visitor refuses ends the visit. So does a name that finds no memory: `Memory` with `acted` 0.
    #[inline(always)]
    pub fn visit<K: Named, V: Visitor<K>>(
        &self,
        kind: MetricKind,
        key: &K,
        scratch: &mut Scratch<K>,
        visitor: &mut V,
    ) -> Result<usize, Stopped>
        ensures { Visits V.accepts V.refuses (K.parts key.now).labels visitor.old
            ((rules_meaning self.now).targets kind (K.parts key.now).name) visitor.new result }
    {
        // The way to a leaf alone, or to one of a router, is short.
        let (branch, front) = self.node.branch(kind, key.name());
        match branch {
            Node::Leaf => show(visitor, front, key),
            branch => branch.visit(kind, key, front, scratch, visitor),
        }
    }

    /// Returns the targets of a key, in order: for each the number of the leaf, and the key as it is there.
    ///
    /// Fails only when out of memory.
    pub fn targets(
        &self,
        alloc: Global,
        kind: MetricKind,
        key: &Key,
    ) -> Result<Vec<(usize, Key)>, Error>
        ensures { MatchResult result
            (λ v. v.items ≡ map (listed key.now.labels) ((rules_meaning self.now).targets kind key.now.name))
            (λ e. e ≡ Memory) }
    {
        let mut scratch = Scratch::new(alloc);
        let mut copies = Copies {
            found: Vec::new(alloc),
        };
        match self.visit(kind, key, &mut scratch, &mut copies) {
            Ok(_count) => Ok(copies.found),
            Err(_stopped) => Err(Error::Memory),
        }
    }
}

/// Copies each target.
#[derive(Drop)]
struct Copies {
    found: Vec<(usize, Key)>,
}

impl Visitor<Key> for Copies {
    ghost use Rattle.std.specs.Prelude.{◌≡◌, ◌++◌, ◌∷◌, []};
    ghost use Rattle.metrics_names.specs.declared.refused.Refused.TheVariants.{Memory};

    ghost accepts = { λ v leaf key w. w.found.items ≡ v.found.items ++ (leaf, key) ∷ [] };

    ghost refuses = { λ v leaf key e w. e ≡ Memory 0 };

    fn visit(&mut self, leaf: usize, key: &Key) -> Result<(), Refused> {
        self.found.push((leaf, key.clone()?))?;
        Ok(())
    }
}
