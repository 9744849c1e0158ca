//! The nodes of a radix trie.
ghost use Rattle.std.specs.Prelude.{◌≡◌, ℕ, ◌<◌, ◌≢◌, [], None, Some, length, take, IfOk};
ghost use Rattle.std.specs.Prelude.{OnOk, IfErr, OnErr, IfSome, IfNone, IsOk, slice_index, slice_set};
ghost use Rattle.std.specs.List.{Contains};
ghost use Rattle.prefix_match.specs.TrieTree.{AreTree, FitsBelow, GoesOn, Begins, IsDeepest, IsNext, Best, SameNodes, AddsNode};
ghost use Rattle.prefix_match.specs.TrieTree.{IsCommonLen, path_at, value_at, child_at, next_child, child_in, paths, values};
ghost use Rattle.prefix_match.specs.TrieTree.{Grows};
ghost use Rattle.prefix_match.specs.declared.error.MatchError.TheVariants.{Memory};

use crate::error::MatchError;
use std::alloc::{AllocError, Global};
use std::collections::BTreeMap;

/// A place in the tree: the bytes on the way to it from the root, and its children by the byte that
/// comes next on the way to each. The edge to a child carries what the child's path has past the node's.
#[derive(Drop)]
pub struct Node {
    pub path: Vec<u8>,
    pub value: Option<usize>,
    pub children: BTreeMap<u8, usize>,
}

/// The nodes of a radix tree, which refer to one another by index. The root is first; until the first pattern there is none. A
/// pattern adds at most two nodes, and twice its bytes.
#[derive(Drop)]
pub struct Tree {
    pub nodes: Vec<Node>,
    alloc: Global,
    ghost tree: { AreTree nodes.items },
}

const ROOT: usize = 0;

impl Tree {
    /// Makes a tree without nodes, without allocating.
    pub fn new(alloc: Global) -> Tree
        ensures { result.nodes.items ≡ [] }
    {
        Tree {
            nodes: Vec::new(alloc),
            alloc,
        }
    }

    /// Returns the value of the deepest node with a value on the way along the text.
    pub fn longest(&self, text: &[u8]) -> Option<usize>
        ensures { Best self.now.nodes.items text.now (length text.now) result }
    {
        if self.nodes.is_empty() {
            return None;
        }
        let mut node = ROOT;
        let mut best = self.nodes[ROOT].value;
        while let Some(child) = self.next(node, text) {
            node = child;
            best = self.nodes[node].value.or(best);
        }
        best
    }

    /// Returns the node of the pattern, and adds it if there is none.
    pub fn place(&mut self, pattern: &[u8]) -> Result<usize, MatchError>
        ensures ok { IfOk result (λ n. n < length self.new.nodes.items) }
        ensures path { IfOk result (λ n. path_at self.new.nodes.items n ≡ pattern.now) }
        ensures grows { Grows self.old.nodes.items self.new.nodes.items }
        ensures ready { Contains (paths self.old.nodes.items) pattern.now → IsOk result }
        ensures memory { IfErr result (λ e. e ≡ Memory) }
    {
        self.plant()?;
        let node = self.deepest(pattern);
        let depth = self.path(node).len();
        if depth == pattern.len() {
            return Ok(node);
        }
        match self.child(node, pattern[depth]) {
            None => self.add_leaf(node, pattern),
            Some(child) => self.fork(node, child, pattern),
        }
    }

    /// Stores the value at the node, and returns the one that it replaced.
    pub fn store(&mut self, node: usize, value: usize) -> Option<usize>
        requires { node < length self.old.nodes.items }
        ensures old { result ≡ value_at self.old.nodes.items node }
        ensures paths { paths self.new.nodes.items ≡ paths self.old.nodes.items }
        ensures values { let old = values self.old.nodes.items in
            values self.new.nodes.items ≡ slice_set old node (Some value) }
    {
        self.nodes[node].value.replace(value)
    }

    /// The bytes on the way to the node.
    fn path(&self, node: usize) -> &[u8]
        requires { node < length self.now.nodes.items }
        ensures { result.now ≡ path_at self.now.nodes.items node }
    {
        self.nodes[node].path.as_slice()
    }

    /// The child of the node on the way that continues with the byte.
    fn child(&self, node: usize, byte: u8) -> Option<usize>
        requires { node < length self.now.nodes.items }
        ensures value { result ≡ child_at self.now.nodes.items node byte }
        ensures within { IfSome result (λ c. c < length self.now.nodes.items) }
        ensures onward { let path = path_at self.now.nodes.items in
            IfSome result (λ c. GoesOn (path node) (path c) byte) }
    {
        self.nodes[node].children.get(&byte).copied()
    }

    /// The child of the node that lies on the way along the text.
    fn next(&self, node: usize, text: &[u8]) -> Option<usize>
        requires within { node < length self.now.nodes.items }
        requires begins { Begins (path_at self.now.nodes.items node) text.now }
        ensures next { IfSome result (IsNext self.now.nodes.items text.now node) }
        ensures last { IfNone result (IsDeepest self.now.nodes.items text.now node) }
    {
        let depth = self.path(node).len();
        if depth == text.len() {
            return None;
        }
        let child = self.child(node, text[depth])?;
        let past = depth + 1;
        if text[past..].starts_with(&self.path(child)[past..]) {
            Some(child)
        } else {
            None
        }
    }

    /// The deepest node on the way along the text.
    fn deepest(&self, text: &[u8]) -> usize
        requires { 0 < length self.now.nodes.items }
        ensures { IsDeepest self.now.nodes.items text.now result }
    {
        let mut node = ROOT;
        while let Some(child) = self.next(node, text) {
            node = child;
        }
        node
    }

    /// Makes the root, if there is none.
    fn plant(&mut self) -> Result<(), MatchError>
        ensures ok { OnOk result (0 < length self.new.nodes.items) }
        ensures grows { Grows self.old.nodes.items self.new.nodes.items }
        ensures ready { 0 < length self.old.nodes.items → IsOk result }
        ensures memory { IfErr result (λ e. e ≡ Memory) }
    {
        if !self.nodes.is_empty() {
            return Ok(());
        }
        let root = Node {
            path: Vec::new(self.alloc),
            value: None,
            children: BTreeMap::new(self.alloc),
        };
        if self.nodes.push(root).is_err() {
            return Err(MatchError::Memory);
        }
        Ok(())
    }

    /// Adds a node for the pattern below `parent`, which has no child for the pattern's next byte.
    fn add_leaf(&mut self, parent: usize, pattern: &[u8]) -> Result<usize, MatchError>
        requires within { parent < length self.old.nodes.items }
        requires longer { length (path_at self.old.nodes.items parent) < length pattern.now }
        requires begins { Begins (path_at self.old.nodes.items parent) pattern.now }
        requires free { next_child self.old.nodes.items parent pattern.now ≡ None }
        ensures ok { IfOk result (AddsNode self.old.nodes.items self.new.nodes.items pattern.now) }
        ensures err { OnErr result (SameNodes self.old.nodes.items self.new.nodes.items) }
        ensures memory { IfErr result (λ e. e ≡ Memory) }
    {
        let path = copied(self.alloc, pattern)?;
        self.attach(parent, path, BTreeMap::new(self.alloc))
    }

    /// Adds a node for the pattern at the point where its way leaves the one from `parent` to `child`.
    fn fork(&mut self, parent: usize, child: usize, pattern: &[u8]) -> Result<usize, MatchError>
        requires deepest { IsDeepest self.old.nodes.items pattern.now parent }
        requires longer { length (path_at self.old.nodes.items parent) < length pattern.now }
        requires child { next_child self.old.nodes.items parent pattern.now ≡ Some child }
        ensures ok { IfOk result (λ n. n < length self.new.nodes.items) }
        ensures path { IfOk result (λ n. path_at self.new.nodes.items n ≡ pattern.now) }
        ensures grows { Grows self.old.nodes.items self.new.nodes.items }
        ensures memory { IfErr result (λ e. e ≡ Memory) }
    {
        let shared = common_len(self.path(child), pattern);
        let middle = self.split(parent, child, shared)?;
        if shared == pattern.len() {
            return Ok(middle);
        }
        self.add_leaf(middle, pattern)
    }

    /// Inserts a node between `parent` and its child, after the first `len` bytes of the child's path.
    fn split(&mut self, parent: usize, child: usize, len: usize) -> Result<usize, MatchError>
        requires within { parent < length self.old.nodes.items }
        requires child { let path = path_at self.old.nodes.items child in
            next_child self.old.nodes.items parent path ≡ Some child }
        requires past { length (path_at self.old.nodes.items parent) < len }
        requires before { len < length (path_at self.old.nodes.items child) }
        ensures ok { let path = take len (path_at self.old.nodes.items child) in
            IfOk result (AddsNode self.old.nodes.items self.new.nodes.items path) }
        ensures others { let next = slice_index (path_at self.old.nodes.items child) len in
            IfOk result (λ n. (byte : ℕ) → byte ≢ next → child_at self.new.nodes.items n byte ≡ None) }
        ensures err { OnErr result (SameNodes self.old.nodes.items self.new.nodes.items) }
        ensures memory { IfErr result (λ e. e ≡ Memory) }
    {
        let long = self.path(child);
        let path = copied(self.alloc, &long[..len])?;
        let mut children = BTreeMap::new(self.alloc);
        if children.insert(long[len], child).is_err() {
            return Err(MatchError::Memory);
        }
        self.attach(parent, path, children)
    }

    /// Adds a node without a value, as the child of `parent` for the next byte of its path.
    fn attach(
        &mut self,
        parent: usize,
        path: Vec<u8>,
        children: BTreeMap<u8, usize>,
    ) -> Result<usize, MatchError>
        requires { FitsBelow self.old.nodes.items parent path.items children.entries }
        ensures ok { IfOk result (AddsNode self.old.nodes.items self.new.nodes.items path.items) }
        ensures children { IfOk result (λ n. (byte : ℕ) →
            child_at self.new.nodes.items n byte ≡ child_in children.entries byte) }
        ensures err { OnErr result (SameNodes self.old.nodes.items self.new.nodes.items) }
        ensures memory { IfErr result (λ e. e ≡ Memory) }
    {
        let added = self.nodes.len();
        if self.nodes.reserve(1).is_err() {
            return Err(MatchError::Memory);
        }
        let above = &mut self.nodes[parent];
        let byte = path[above.path.len()];
        if above.children.insert(byte, added).is_err() {
            return Err(MatchError::Memory);
        }
        self.nodes.push_reserved(Node {
            path,
            value: None,
            children,
        });
        Ok(added)
    }
}

/// A copy of the bytes.
fn copied(alloc: Global, bytes: &[u8]) -> Result<Vec<u8>, MatchError>
    ensures ok { IfOk result (λ copy. copy.items ≡ bytes.now) }
    ensures memory { IfErr result (λ e. e ≡ Memory) }
{
    Vec::from_slice(alloc, bytes).map_err(|_: AllocError| MatchError::Memory)
}

/// How many bytes the two have in common at the beginning.
fn common_len(a: &[u8], b: &[u8]) -> usize
    ensures { IsCommonLen a.now b.now result }
{
    let end = a.len().min(b.len());
    for i in 0..end {
        if a[i] != b[i] {
            return i;
        }
    }
    end
}
