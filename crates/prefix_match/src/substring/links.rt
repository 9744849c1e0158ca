//! The automaton as a trie with fail links.
ghost use Rattle.std.specs.Prelude.{◌≡◌, ◌≢◌, ℕ, ◌+◌, ◌*◌, ◌^◌, ◌<◌, ◌≤◌, List, []};
ghost use Rattle.std.specs.Prelude.{map, length, IfOk};
ghost use Rattle.std.specs.List.{sum_by};
ghost use Rattle.std.specs.Vec.{vec_len};
ghost use Rattle.prefix_match.specs.Substring.{lowered, pattern_limit};
ghost use Rattle.prefix_match.specs.SubstringStates.{node_at, text_of, IsTree, IsRootRow, IsByDepth, KeepsShape};
ghost use Rattle.prefix_match.specs.SubstringStates.{Falls, FallsBelow, StepsTo, FailsTo, LinksState, LinksAll};
ghost use Rattle.prefix_match.specs.SubstringStates.{IsLinked, WalksLinks};
ghost use Rattle.prefix_match.specs.SubstringForms.{IsAutomatonOf};

use super::bytes::lowered;
use super::trie::{Node, Place, by_depth, child, grown};
use std::alloc::{AllocError, Global};

/// The automaton as a trie with fail links.
#[derive(Drop)]
pub struct Links {
    pub nodes: Vec<Node>,
    /// The root's child by each byte, or 0.
    pub roots: Vec<u32>,
}

/// The linked states, and their order.
#[derive(Drop)]
pub struct Automaton {
    pub nodes: Vec<Node>,
    pub roots: Vec<u32>,
    /// The states, those with fewer bytes first.
    pub order: Vec<Place>,
}

/// The state that a byte leads to, and the moves on the way.
#[derive(Clone, Copy)]
struct Step {
    state: usize,
    moves: u64,
}

/// Walks from the root to the first match, or else over the whole text, and counts the moves.
#[inline(always)]
pub fn walk(nodes: &[Node], roots: &[u32], fold_case: bool, text: &[u8]) -> (bool, u64)
    requires linked { (ps : List (List ℕ)) × IsLinked ps nodes.now }
    requires roots { IsRootRow nodes.now roots.now }
    ensures { WalksLinks nodes.now (lowered fold_case text.now) result.0 result.1 }
{
    let mut state = 0;
    let mut moves = 0;
    if nodes[0].matching {
        return (true, 0);
    }
    for byte in text {
        let step = follow(nodes, roots, state, lowered(fold_case, *byte));
        state = step.state;
        moves += step.moves;
        if nodes[state].matching {
            return (true, moves);
        }
    }
    (false, moves)
}

/// Moves on by `byte`: along fail links to the first state that has such a child, or else to the root.
#[inline(always)]
fn follow(nodes: &[Node], roots: &[u32], from: usize, byte: u8) -> Step
    requires tree { IsTree nodes.now }
    requires roots { IsRootRow nodes.now roots.now }
    requires from { from < length nodes.now }
    requires falls { FallsBelow nodes.now (length (text_of nodes.now from) + 1) }
    ensures within { result.state < length nodes.now }
    ensures cost { result.moves + length (text_of nodes.now result.state) ≤ length (text_of nodes.now from) + 2 }
    ensures rise { length (text_of nodes.now result.state) ≤ length (text_of nodes.now from) + result.moves }
    ensures short { length (text_of nodes.now result.state) ≤ length (text_of nodes.now from) + 1 }
    ensures text { StepsTo nodes.now from byte result.state }
{
    let mut state = from;
    let mut moves = 0;
    while state != 0 {
        if let Some(next) = child(nodes, state, byte) {
            return Step {
                state: next,
                moves: moves + 1,
            };
        }
        state = nodes[state].fail as usize;
        moves += 1;
    }
    let next = roots[byte as usize] as usize;
    if next == 0 {
        Step { state: 0, moves }
    } else {
        Step {
            state: next,
            moves: moves + 1,
        }
    }
}

/// The root's child by each byte.
fn root_row(alloc: Global, nodes: &[Node]) -> Result<Vec<u32>, AllocError>
    requires tree { IsTree nodes.now }
    requires room { length nodes.now < 2 ^ 32 }
    ensures { IfOk result (λ v. IsRootRow nodes.now v.items) }
{
    let mut roots = Vec::with_capacity(alloc, 256)?;
    for byte in 0..256usize {
        let next = child(nodes, 0, byte as u8).unwrap_or(0);
        roots.push(next as u32)?;
    }
    Ok(roots)
}

/// The fail link of a state, if all shorter states are linked.
fn fail_of(nodes: &[Node], roots: &[u32], state: usize) -> usize
    requires tree { IsTree nodes.now }
    requires roots { IsRootRow nodes.now roots.now }
    requires state { state < length nodes.now }
    requires falls { FallsBelow nodes.now (length (text_of nodes.now state)) }
    ensures within { result < length nodes.now }
    ensures root { state ≡ 0 → result ≡ 0 }
    ensures falls { 0 < state → length (text_of nodes.now result) < length (text_of nodes.now state) }
    ensures link { FailsTo nodes.now state result }
{
    let parent = nodes[state].parent as usize;
    if parent == 0 {
        return 0;
    }
    let above = nodes[parent].fail as usize;
    follow(nodes, roots, above, nodes[state].byte).state
}

/// Sets the fail link of a state, if all shorter states are linked.
fn link(nodes: &mut [Node], roots: &[u32], state: usize)
    requires tree { IsTree nodes.old }
    requires roots { IsRootRow nodes.old roots.now }
    requires state { state < length nodes.old }
    requires room { length nodes.old < 2 ^ 32 }
    requires falls { FallsBelow nodes.old (length (text_of nodes.old state)) }
    ensures shape { KeepsShape nodes.old nodes.new }
    ensures others { (x : ℕ) → x ≢ state → node_at nodes.new x ≡ node_at nodes.old x }
    ensures falls { Falls nodes.new state }
    ensures link { LinksState nodes.old nodes.new state }
{
    let fail = fail_of(nodes, roots, state);
    let matching = nodes[state].matching || nodes[fail].matching;
    let linked = &mut nodes[state];
    linked.fail = fail as u32;
    linked.matching = matching;
}

/// Links all states, which `order` has with those of fewer bytes first.
fn link_all(nodes: &mut [Node], roots: &[u32], order: &[Place])
    requires tree { IsTree nodes.old }
    requires roots { IsRootRow nodes.old roots.now }
    requires room { length nodes.old < 2 ^ 32 }
    requires order { IsByDepth nodes.old order.now }
    ensures shape { KeepsShape nodes.old nodes.new }
    ensures roots { IsRootRow nodes.new roots.now }
    ensures order { IsByDepth nodes.new order.now }
    ensures links { LinksAll nodes.old nodes.new }
{
    for place in order {
        link(nodes, roots, place.state);
    }
}

/// Links the states of the patterns.
pub fn linked(alloc: Global, fold_case: bool, patterns: &[Vec<u8>]) -> Result<Automaton, AllocError>
    requires { sum_by (λ p. vec_len p) patterns.now ≤ pattern_limit }
    ensures { IfOk result (IsAutomatonOf (map (λ p. lowered fold_case p.items) patterns.now)) }
{
    let mut nodes = grown(alloc, fold_case, patterns)?;
    let roots = root_row(alloc, &nodes)?;
    let order = by_depth(alloc, &nodes)?;
    link_all(&mut nodes, &roots, &order);
    Ok(Automaton {
        nodes,
        roots,
        order,
    })
}
