//! The words of tree lines.
ghost use Rattle.std.specs.Prelude.{◌≡◌, ℕ, List, ◌++◌, ◌<◌, Bool, codes};
ghost use Rattle.std.specs.Prelude.{IfOk, MatchOption};
ghost use Rattle.std.specs.List.{AllByRecursion};
ghost use Rattle.tool_grammar.specs.Cuts.{Lacks};
ghost use Rattle.tool_grammar.specs.Grammar.{IsName};
ghost use Rattle.metrics_names.specs.Names.{name_word};
ghost use Rattle.tool_trees.specs.Words.{words, flags_word, route_word, IsRoute, Says};

use crate::tree_line::{RouteWord, TreeLine};
use metrics::{Items, Text};
use std::alloc::{AllocError, Global};
use tool_grammar::{kinds_of, name_of, number_of, split_at_first, split_before, strip_prefix};

/// What words without spaces are read as.
trait Word: Drop {
    /// Which of them can be written, and how.
    ghost is: { Self → Type 0 };

    ghost spelled: { Self → List ℕ };

    fn read(alloc: Global, word: &[u8]) -> Result<Option<Self>, AllocError>
        requires { Lacks 32 word.now }
        ensures { IfOk result (λ found. MatchOption found ((x : Self) → is x → word.now ≡ spelled x → ⊥)
            (λ x. is x × (word.now ≡ spelled x))) };
}

/// A name.
impl Word for Text {
    ghost is = { IsName };

    ghost spelled = { name_word };

    fn read(alloc: Global, word: &[u8]) -> Result<Option<Text>, AllocError> {
        match name_of(word) {
            Some(name) => Ok(Some(Text::new(alloc, name)?)),
            None => Ok(None),
        }
    }
}

impl Word for RouteWord {
    ghost is = { IsRoute };

    ghost spelled = { route_word };

    fn read(alloc: Global, word: &[u8]) -> Result<Option<RouteWord>, AllocError> {
        let Some((kinds, rest)) = split_at_first(word, b'/') else {
            return Ok(None);
        };
        let Some((target, pattern)) = split_at_first(rest, b'/') else {
            return Ok(None);
        };
        let Some(kinds) = kinds_of(kinds) else {
            return Ok(None);
        };
        let Some(target) = number_of(target) else {
            return Ok(None);
        };
        let Ok(pattern) = str::from_utf8(pattern) else {
            return Ok(None);
        };
        Ok(Some(RouteWord {
            kinds,
            target,
            pattern: Text::new(alloc, pattern)?,
        }))
    }
}

/// The words of a line, each with a space before it.
fn words_of<T: Word>(alloc: Global, bytes: &[u8]) -> Result<Option<Vec<T>>, AllocError>
    requires { (x : T) → T.is x → Lacks 32 (T.spelled x) }
    ensures { IfOk result (λ found. MatchOption found
        ((xs : List T) → AllByRecursion T.is xs → bytes.now ≡ words T.spelled xs → ⊥)
        (λ xs. AllByRecursion T.is xs.items × (bytes.now ≡ words T.spelled xs.items))) }
{
    let mut read = Vec::new(alloc);
    let mut rest = bytes;
    while !rest.is_empty() {
        let Some(others) = strip_prefix(rest, b" ") else {
            return Ok(None);
        };
        let (word, after) = split_before(others, b' ');
        match T::read(alloc, word)? {
            Some(one) => read.push(one)?,
            None => return Ok(None),
        }
        rest = after;
    }
    Ok(Some(read))
}

/// The flags of a filter line, and what follows them.
#[tactic(auto, using(crate::proofs::Lines::no_flags))]
fn flags_of(bytes: &[u8]) -> Option<(bool, bool, &[u8])>
    ensures { MatchOption result ((fold table : Bool) (others : List ℕ) → bytes.now ≡ flags_word fold table ++ others → ⊥)
        (λ found. bytes.now ≡ flags_word found.0 found.1 ++ found.2.now) }
{
    if let Some(others) = strip_prefix(bytes, b"cs links") {
        return Some((false, false, others));
    }
    if let Some(others) = strip_prefix(bytes, b"cs dfa") {
        return Some((false, true, others));
    }
    if let Some(others) = strip_prefix(bytes, b"ci links") {
        return Some((true, false, others));
    }
    Some((true, true, strip_prefix(bytes, b"ci dfa")?))
}

/// The line of a prefix, from the bytes after its first word.
#[tactic(auto, using(crate::proofs::Lines::no_prefix))]
fn prefix_line(alloc: Global, bytes: &[u8]) -> Result<Option<TreeLine>, AllocError>
    ensures { IfOk result (Says (codes "prefix " ++ bytes.now)) }
{
    let (word, others) = split_before(bytes, b' ');
    if others.is_empty() {
        return match Text::read(alloc, word)? {
            Some(prefix) => Ok(Some(TreeLine::Prefix(prefix))),
            None => Ok(None),
        };
    }
    Ok(None)
}

/// The line of a filter, likewise.
#[tactic(auto, using(crate::proofs::Lines::no_filter, crate::proofs::Lines::flags_same))]
fn filter_line(alloc: Global, bytes: &[u8]) -> Result<Option<TreeLine>, AllocError>
    ensures { IfOk result (Says (codes "filter " ++ bytes.now)) }
{
    let Some((fold, table, others)) = flags_of(bytes) else {
        return Ok(None);
    };
    match words_of::<Text>(alloc, others)? {
        Some(patterns) => Ok(Some(TreeLine::Filter(fold, table, Items::from(patterns)))),
        None => Ok(None),
    }
}

/// The line of a fanout, likewise.
#[tactic(auto, using(crate::proofs::Lines::no_fanout))]
fn fanout_line(bytes: &[u8]) -> Option<TreeLine>
    ensures { Says (codes "fanout " ++ bytes.now) result }
{
    let count = number_of(bytes)?;
    if count <= 65_536 {
        Some(TreeLine::Fanout(count))
    } else {
        None
    }
}

/// The line of a router, likewise.
#[tactic(auto, using(crate::proofs::Lines::lacks_route))]
fn router_line(alloc: Global, bytes: &[u8]) -> Result<Option<TreeLine>, AllocError>
    ensures { IfOk result (Says (codes "router " ++ bytes.now)) }
{
    let (word, others) = split_before(bytes, b' ');
    let Some(targets) = number_of(word) else {
        return Ok(None);
    };
    match words_of::<RouteWord>(alloc, others)? {
        Some(routes) => Ok(Some(TreeLine::Router(targets, Items::from(routes)))),
        None => Ok(None),
    }
}

/// Returns what a line says, if it is a tree line. Fails only when out of memory.
#[tactic(auto, using(crate::proofs::Lines::no_line))]
pub fn tree_line_of(alloc: Global, line: &[u8]) -> Result<Option<TreeLine>, AllocError>
    ensures { IfOk result (Says line.now) }
{
    if let Some(bytes) = strip_prefix(line, b"prefix ") {
        return prefix_line(alloc, bytes);
    }
    if let Some(bytes) = strip_prefix(line, b"filter ") {
        return filter_line(alloc, bytes);
    }
    if let Some(bytes) = strip_prefix(line, b"fanout ") {
        return Ok(fanout_line(bytes));
    }
    if let Some(bytes) = strip_prefix(line, b"router ") {
        return router_line(alloc, bytes);
    }
    match line {
        b"book" => Ok(Some(TreeLine::Book)),
        b"noop" => Ok(Some(TreeLine::Noop)),
        b"end" => Ok(Some(TreeLine::End)),
        _ => Ok(None),
    }
}
