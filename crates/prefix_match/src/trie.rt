//! The longest stored pattern that a text begins with.
ghost use Rattle.std.specs.Prelude.{◌≡◌, ◌≢◌, ℕ, List, [], Option, Some, IfOk, OnOk, IfErr, OnErr, IfSome, IfNone};
ghost use Rattle.std.specs.Prelude.{IsOk};
ghost use Rattle.prefix_match.specs.TriePatterns.{stored, HasNoFront, IsLongest, HasRoom};
ghost use Rattle.prefix_match.specs.declared.error.MatchError.TheVariants.{Memory};

use crate::error::MatchError;
use std::alloc::Global;
use std::marker::Model;

mod tree;

use tree::Tree;

/// A set of patterns, each with a value. It finds the longest one that a text begins with.
///
/// It is a radix trie over bytes, so a pattern may end inside a character. A search reads the text once, up to where no pattern
/// goes on, however many patterns there are. It allocates nothing.
#[derive(Drop)]
pub struct PrefixTrie {
    tree: Tree,
}

impl Model for PrefixTrie {
    ghost use Rattle.prefix_match.specs.TriePatterns.{Patterns};

    ghost Value = { Patterns };

    ghost use Rattle.prefix_match.specs.TrieTree.{patterns_of};

    ghost view = { λ trie. patterns_of trie.tree.nodes.items };
}

impl PrefixTrie {
    /// Makes a trie without patterns, without allocating.
    pub fn new(alloc: Global) -> PrefixTrie
        ensures pairs { result.pairs ≡ [] }
        ensures room { result.room ≡ [] }
    {
        PrefixTrie {
            tree: Tree::new(alloc),
        }
    }

    /// Stores the value under the pattern, and returns the value that was there.
    ///
    /// # Errors
    ///
    /// `Memory`, also if only the split of an edge lacks it.
    pub fn insert(&mut self, pattern: &[u8], value: usize) -> Result<Option<usize>, MatchError>
        ensures old { IfOk result (λ old. old ≡ stored self.old.pairs pattern.now) }
        ensures value { OnOk result (stored self.new.pairs pattern.now ≡ Some value) }
        ensures others { OnOk result ((q : List ℕ) →
            q ≢ pattern.now → stored self.new.pairs q ≡ stored self.old.pairs q) }

        // An insert that fails leaves the pairs as they were. None fails if the pattern has room.
        ensures err { OnErr result (self.new.pairs ≡ self.old.pairs) }
        ensures memory { IfErr result (λ e. e ≡ Memory) }
        ensures ready { HasRoom self.old pattern.now → IsOk result }

        // Room, once made, stays.
        ensures room { OnOk result (HasRoom self.new pattern.now) }
        ensures keeps_room { (q : List ℕ) → HasRoom self.old q → HasRoom self.new q }
    {
        let node = self.tree.place(pattern)?;
        Ok(self.tree.store(node, value))
    }

    /// Makes room for the pattern, so that an `insert` of it allocates nothing from then on.
    ///
    /// The room is kept as long as the trie is, whether the pattern comes or not.
    ///
    /// # Errors
    ///
    /// `Memory`.
    pub fn reserve(&mut self, pattern: &[u8]) -> Result<(), MatchError>
        ensures pairs { self.new.pairs ≡ self.old.pairs }
        ensures ok { OnOk result (HasRoom self.new pattern.now) }
        ensures keeps_room { (q : List ℕ) → HasRoom self.old q → HasRoom self.new q }
        ensures ready { HasRoom self.old pattern.now → IsOk result }
        ensures memory { IfErr result (λ e. e ≡ Memory) }
    {
        self.tree.place(pattern)?;
        Ok(())
    }

    /// Returns the value of the longest stored pattern that the text begins with.
    pub fn longest(&self, text: &[u8]) -> Option<usize>
        ensures longest { IfSome result (IsLongest self.now.pairs text.now) }
        ensures none { IfNone result (HasNoFront self.now.pairs text.now) }
    {
        self.tree.longest(text)
    }
}
