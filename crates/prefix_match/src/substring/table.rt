//! The automaton as a full table.
ghost use Rattle.std.specs.Prelude.{◌≡◌, ℕ, ◌+◌, ◌*◌, ◌<◌, ◌≤◌, ◌⊎◌, false, true, List};
ghost use Rattle.std.specs.Prelude.{length, get_or, IfOk};
ghost use Rattle.prefix_match.specs.Substring.{lowered, lowered_byte};
ghost use Rattle.prefix_match.specs.SubstringStates.{IsTree, IsByDepth, Falls, IsLinked};
ghost use Rattle.prefix_match.specs.SubstringTable.{entry_of, MarksBytes, IsNumbering, HasColumns, WritesChildren, CopiesRow};
ghost use Rattle.prefix_match.specs.SubstringTable.{FillsRow, IsSomeTable, WalksTable, IsTableOf};

use super::bytes::lowered;
use super::trie::{Node, Place};
use std::alloc::{AllocError, Global};

/// An entry that leads to a match. All states that match are one here, since a walk ends there.
const MATCHED: u32 = u32::MAX;

/// The automaton as a full table: a row for each state, and in it a column for each class of bytes.
#[derive(Drop)]
pub struct Table {
    /// The column of each byte. Bytes that occur in no pattern share column 0.
    classes: [u16; 256],
    /// Where the next state's row begins.
    next: Vec<u32>,
    matches_empty: bool,
}

impl Table {
    /// Walks over the text up to the first match, and counts the moves.
    #[inline(always)]
    pub fn walk(&self, text: &[u8]) -> (bool, u64)
        requires { IsSomeTable self.now.classes self.now.next.items self.now.matches_empty }
        ensures { WalksTable self.now.classes self.now.next.items self.now.matches_empty text.now result.0
            result.1 }
    {
        if self.matches_empty {
            return (true, 0);
        }
        walk(&self.classes, &self.next, text)
    }
}

/// The entry in a column of the row that begins at `row`.
///
/// The row is added last: in a walk it is known later than the column.
#[inline(always)]
fn entry_at(next: &[u32], column: usize, row: usize) -> u32
    requires { row + column < length next.now }
    ensures { result ≡ get_or next.now (row + column) 0 }
{
    next[column..][row]
}

/// Walks from the root, which is no match.
#[inline(always)]
fn walk(classes: &[u16; 256], next: &[u32], text: &[u8]) -> (bool, u64)
    requires { IsSomeTable classes.now next.now false }
    ensures { WalksTable classes.now next.now false text.now result.0 result.1 }
{
    let mut row = 0;
    let mut moves = 0;
    for byte in text {
        let entry = entry_at(next, classes[*byte as usize] as usize, row);
        if entry == MATCHED {
            return (true, moves + 1);
        }
        let to = entry as usize;
        if to != row {
            moves += 1;
        }
        row = to;
    }
    (false, moves)
}

/// The columns of a table.
#[derive(Clone, Copy)]
struct Columns {
    of: [u16; 256],
    width: usize,
}

/// The bytes that lead to some state.
fn used_bytes(nodes: &[Node]) -> [bool; 256]
    ensures { MarksBytes nodes.now result }
{
    let mut used = [false; 256];
    for state in 1..nodes.len() {
        used[nodes[state].byte as usize] = true;
    }
    used
}

/// Numbers the bytes in use from 1 on, and the others 0.
fn numbered(used: &[bool; 256]) -> Columns
    ensures numbering { IsNumbering used.now result.of result.width }
    ensures width { result.width ≤ 257 }
{
    let mut of = [0u16; 256];
    let mut last = 0u16;
    for byte in 0..256usize {
        if used[byte] {
            last += 1;
            of[byte] = last;
        }
    }
    Columns {
        of,
        width: last as usize + 1,
    }
}

/// The column of each byte by that of the byte as it is compared.
fn folded(fold_case: bool, columns: &[u16; 256]) -> [u16; 256]
    ensures { (b : ℕ) → b < 256 → get_or result b 0 ≡ get_or columns.now (lowered_byte fold_case b) 0 }
{
    let mut classes = [0u16; 256];
    for byte in 0..256usize {
        classes[byte] = columns[lowered(fold_case, byte as u8) as usize];
    }
    classes
}

/// How a table names a state.
fn entry(nodes: &[Node], width: usize, state: usize) -> u32
    requires state { state < length nodes.now }
    requires room { length nodes.now ≤ 1048577 }
    requires width { width ≤ 257 }
    ensures { result ≡ entry_of nodes.now width state }
{
    if nodes[state].matching {
        MATCHED
    } else {
        (state * width) as u32
    }
}

/// Copies the row that begins at `from` to the one that begins at `to`.
fn copy_row(next: &mut [u32], width: usize, from: usize, to: usize)
    requires from { from + width ≤ length next.old }
    requires to { to + width ≤ length next.old }
    requires apart { (from + width ≤ to) ⊎ (to + width ≤ from) }
    ensures { CopiesRow width from to next.old next.new }
{
    for column in 0..width {
        next[to + column] = next[from + column];
    }
}

/// Writes a state's children to its row, which begins at `row`.
fn write_children(next: &mut [u32], nodes: &[Node], columns: &Columns, state: usize, row: usize)
    requires tree { IsTree nodes.now }
    requires state { state < length nodes.now }
    requires room { length nodes.now ≤ 1048577 }
    requires width { columns.now.width ≤ 257 }
    requires columns { HasColumns nodes.now columns.now.of columns.now.width }
    requires row { row + columns.now.width ≤ length next.old }
    ensures { WritesChildren nodes.now columns.now.of columns.now.width state row next.old next.new }
{
    let mut child = nodes[state].first_child as usize;
    while child != 0 {
        let node = nodes[child];
        let column = columns.of[node.byte as usize] as usize;
        next[row + column] = entry(nodes, columns.width, child);
        child = node.next_sibling as usize;
    }
}

/// Makes the table of the linked states, which `order` lists with those of fewer bytes first.
pub fn tabled(
    alloc: Global,
    fold_case: bool,
    nodes: &[Node],
    order: &[Place],
) -> Result<Table, AllocError>
    requires linked { (ps : List (List ℕ)) × IsLinked ps nodes.now }
    requires room { length nodes.now ≤ 1048577 }
    requires order { IsByDepth nodes.now order.now }
    ensures { IfOk result (λ t.
        IsTableOf nodes.now fold_case t.classes t.next.items t.matches_empty) }
{
    let columns = numbered(&used_bytes(nodes));
    let mut next = vec![in alloc; entry(nodes, columns.width, 0); nodes.len() * columns.width]?;
    for place in order {
        fill_row(&mut next, nodes, &columns, place.state);
    }
    Ok(Table {
        classes: folded(fold_case, &columns.of),
        next,
        matches_empty: nodes[0].matching,
    })
}

/// Fills the row of a state, if all shorter states have theirs.
fn fill_row(next: &mut [u32], nodes: &[Node], columns: &Columns, state: usize)
    requires tree { IsTree nodes.now }
    requires state { state < length nodes.now }
    requires falls { Falls nodes.now state }
    requires room { length nodes.now ≤ 1048577 }
    requires width { columns.now.width ≤ 257 }
    requires columns { HasColumns nodes.now columns.now.of columns.now.width }
    requires len { length next.old ≡ length nodes.now * columns.now.width }
    ensures { FillsRow nodes.now columns.now.of columns.now.width state next.old next.new }
{
    let row = state * columns.width;
    if state != 0 {
        let from = nodes[state].fail as usize * columns.width;
        copy_row(next, columns.width, from, row);
    }
    write_children(next, nodes, columns, state, row);
}
