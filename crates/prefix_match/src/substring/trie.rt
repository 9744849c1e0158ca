//! The trie of the patterns, from which both forms are made.
ghost use Rattle.std.specs.Prelude.{◌≡◌, ℕ, ◌+◌, ◌^◌, ◌<◌, ◌≤◌, List, [], ◌∷◌, ◌++◌, map};
ghost use Rattle.std.specs.Prelude.{length, IfSome, IfNone, IfOk, OnOk};
ghost use Rattle.std.specs.Vec.{vec_len};
ghost use Rattle.std.specs.List.{sum_by};
ghost use Rattle.prefix_match.specs.Substring.{lowered};
ghost use Rattle.prefix_match.specs.SubstringStates.{IsTree, IsChild, HasNoChild, with_child, IsTrie, IsByDepth};

use super::bytes::lowered;
use std::alloc::{AllocError, Global};

/// A state of the automaton: the bytes that lead to it from the root, which is state 0.
#[derive(Clone, Copy)]
pub struct Node {
    /// The last byte of those that lead here.
    pub byte: u8,
    /// Whether some pattern ends here: at first this state's bytes themselves, and once linked some end of them.
    pub matching: bool,
    pub parent: u32,
    /// The child that was added last, or 0.
    pub first_child: u32,
    /// The child of the same parent that was added before this one, or 0.
    pub next_sibling: u32,
    /// The state of the longest end, other than the whole, that is a state's.
    pub fail: u32,
}

const ROOT: Node = Node {
    byte: 0,
    matching: false,
    parent: 0,
    first_child: 0,
    next_sibling: 0,
    fail: 0,
};

/// Returns the state that `byte` leads to from `state`. It reads the children one by one, at most 256 of them.
#[inline(always)]
pub fn child(nodes: &[Node], state: usize, byte: u8) -> Option<usize>
    requires tree { IsTree nodes.now }
    requires state { state < length nodes.now }
    ensures found { IfSome result (IsChild nodes.now state byte) }
    ensures none { IfNone result (HasNoChild nodes.now state byte) }
{
    let mut sibling = nodes[state].first_child as usize;
    while sibling != 0 {
        let node = nodes[sibling];
        if node.byte == byte {
            return Some(sibling);
        }
        sibling = node.next_sibling as usize;
    }
    None
}

/// Adds a child of `state`, which has none by this byte.
fn add(nodes: &mut Vec<Node>, state: usize, byte: u8) -> Result<usize, AllocError>
    requires state { state < vec_len nodes.old }
    requires room { vec_len nodes.old < 2 ^ 32 }
    ensures made { IfOk result (λ made. made ≡ vec_len nodes.old) }
    ensures nodes { OnOk result (nodes.new.items ≡ with_child nodes.old.items state byte) }
{
    let made = nodes.len();
    let next_sibling = nodes[state].first_child;
    nodes.push(Node {
        byte,
        matching: false,
        parent: state as u32,
        first_child: 0,
        next_sibling,
        fail: 0,
    })?;
    nodes[state].first_child = made as u32;
    Ok(made)
}

/// Adds the states of one pattern.
fn insert(nodes: &mut Vec<Node>, fold_case: bool, pattern: &[u8]) -> Result<(), AllocError>
    requires tree { IsTree nodes.old.items }
    requires room { vec_len nodes.old + length pattern.now < 2 ^ 32 }
    ensures tree { OnOk result (IsTree nodes.new.items) }
    ensures room { OnOk result (vec_len nodes.new ≤ vec_len nodes.old + length pattern.now) }
    ensures trie { OnOk result ((ps : List (List ℕ)) → IsTrie ps nodes.old.items →
        IsTrie (ps ++ lowered fold_case pattern.now ∷ []) nodes.new.items) }
{
    let mut state = 0;
    for byte in pattern {
        let low = lowered(fold_case, *byte);
        state = match child(nodes, state, low) {
            Some(next) => next,
            None => add(nodes, state, low)?,
        };
    }
    nodes[state].matching = true;
    Ok(())
}

/// Makes the states of all prefixes of the patterns.
pub fn grown(alloc: Global, fold_case: bool, patterns: &[Vec<u8>]) -> Result<Vec<Node>, AllocError>
    requires { sum_by (λ p. vec_len p) patterns.now < 2 ^ 31 }
    ensures trie { IfOk result (λ v. IsTrie (map (λ p. lowered fold_case p.items) patterns.now) v.items) }
    ensures room { IfOk result (λ v. vec_len v ≤ 1 + sum_by (λ p. vec_len p) patterns.now) }
{
    let mut nodes = Vec::new(alloc);
    nodes.push(ROOT)?;
    for pattern in patterns {
        insert(&mut nodes, fold_case, pattern)?;
    }
    Ok(nodes)
}

/// A state, and how many bytes lead to it.
#[derive(Clone, Copy)]
pub struct Place {
    pub depth: usize,
    pub state: usize,
}

/// Returns the states, those with fewer bytes first.
pub fn by_depth(alloc: Global, nodes: &[Node]) -> Result<Vec<Place>, AllocError>
    requires { IsTree nodes.now }
    ensures { IfOk result (λ v. IsByDepth nodes.now v.items) }
{
    let mut places: Vec<Place> = Vec::new(alloc);
    places.push(Place { depth: 0, state: 0 })?;
    for state in 1..nodes.len() {
        let depth = places[nodes[state].parent as usize].depth + 1;
        places.push(Place { depth, state })?;
    }
    places.sort_by_key(|place| place.depth)?;
    Ok(places)
}
