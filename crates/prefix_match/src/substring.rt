//! Sets of patterns, which report whether one of them occurs in a text.
ghost use Rattle.std.specs.Prelude.{◌≡◌, ℕ, ◌*◌, ◌<◌, ◌≤◌, ◌↔◌, List, map, length, IsTrue};
ghost use Rattle.std.specs.Prelude.{IfOk};
ghost use Rattle.std.specs.Bool.{OnTrue, OnFalse};
ghost use Rattle.std.specs.List.{sum_by};
ghost use Rattle.std.specs.Vec.{vec_len};
ghost use Rattle.prefix_match.specs.Substring.{Patterns, Occurs, OccursWithin, moves_of, pattern_limit};
ghost use Rattle.prefix_match.specs.SubstringForms.{IsAutomatonOf, IsFormOf, is_table};

use std::alloc::{AllocError, Global};
use std::marker::Model;

mod bytes;
mod links;
mod table;
mod trie;

use crate::error::MatchError;
use links::{Automaton, Links};
use table::Table;

/// How many bytes the patterns may have together.
const LIMIT: usize = 1_048_576;

/// The two forms of the automaton.
#[derive(Drop)]
enum Form {
    Links(Links),
    Table(Table),
}

/// A set of patterns, made once, that reports whether one of them occurs in a text.
///
/// A walk reads each byte of the text once, and ends at the first match.
#[derive(Drop)]
pub struct SubstringSet {
    patterns: Vec<Vec<u8>>,
    fold_case: bool,
    form: Form,
}

impl Model for SubstringSet {
    ghost use Rattle.prefix_match.specs.Substring.{Patterns};

    ghost Value = { Patterns };

    ghost use Rattle.prefix_match.specs.SubstringForms.{patterns_of, IsSet};

    ghost view = { patterns_of };

    ghost invariant = { IsSet };
}

impl SubstringSet {
    /// Makes a set of the patterns: with fail links if `table` is false, and as a full table if it is true.
    ///
    /// Every pattern counts towards the limit, also one that is listed twice.
    pub fn new(
        alloc: Global,
        patterns: &[&str],
        fold_case: bool,
        table: bool,
    ) -> Result<SubstringSet, MatchError>
        ensures ok { IfOk result (λ s.
            s ≡ record { listed = map (λ p. p.now) patterns.now; fold_case = fold_case; table = table }) }
        ensures too_long { (result ≡ Err MatchError.PatternsTooLong)
            ↔ (pattern_limit < sum_by (λ p. length p.now) patterns.now) }
    {
        if !are_within_limit(patterns) {
            return Err(MatchError::PatternsTooLong);
        }
        match make(alloc, patterns, fold_case, table) {
            Ok(set) => Ok(set),
            Err(_) => Err(MatchError::Memory),
        }
    }

    /// Returns whether some pattern occurs in the text.
    #[inline(always)]
    pub fn is_match(&self, text: &[u8]) -> bool
        ensures { IsTrue result ↔ Occurs self.now text.now }
    {
        self.is_match_counted(text).0
    }

    /// Returns the result of `is_match`, and how many moves the walk made.
    ///
    /// A move is a change of state in the table, and a step down a fail link or to a child along the links.
    #[inline(always)]
    pub fn is_match_counted(&self, text: &[u8]) -> (bool, u64)
        ensures found { IsTrue result.0 ↔ Occurs self.now text.now }
        ensures least { IsTrue result.0 → OccursWithin self.now text.now result.1 }
        ensures table_moves { OnTrue self.now.table (result.1 ≡ moves_of self.now text.now) }
        ensures link_moves { OnFalse self.now.table (result.1 ≤ 2 * length text.now) }
    {
        match &self.form {
            Form::Links(links) => links::walk(&links.nodes, &links.roots, self.fold_case, text),
            Form::Table(table) => table.walk(text),
        }
    }
}

/// Whether the patterns have at most `LIMIT` bytes together.
fn are_within_limit(patterns: &[&str]) -> bool
    ensures { IsTrue result ↔ (sum_by (λ p. length p.now) patterns.now ≤ pattern_limit) }
{
    let mut left = LIMIT;
    for pattern in patterns {
        if pattern.len() > left {
            return false;
        }
        left -= pattern.len();
    }
    true
}

/// Makes a set of patterns that are within the limit.
fn make(
    alloc: Global,
    patterns: &[&str],
    fold_case: bool,
    table: bool,
) -> Result<SubstringSet, AllocError>
    requires { sum_by (λ p. length p.now) patterns.now ≤ pattern_limit }
    ensures { IfOk result (λ s.
        s ≡ record { listed = map (λ p. p.now) patterns.now; fold_case = fold_case; table = table }) }
{
    let patterns = copied(alloc, patterns)?;
    let linked = links::linked(alloc, fold_case, &patterns)?;
    let form = form_of(alloc, fold_case, linked, table)?;
    Ok(SubstringSet {
        patterns,
        fold_case,
        form,
    })
}

/// The form to build.
fn form_of(
    alloc: Global,
    fold_case: bool,
    linked: Automaton,
    table: bool,
) -> Result<Form, AllocError>
    requires { (ps : List (List ℕ)) × IsAutomatonOf ps linked }
    ensures form { IfOk result (λ f.
        (ps : List (List ℕ)) → IsAutomatonOf ps linked → IsFormOf ps fold_case f) }
    ensures table { IfOk result (λ f. is_table f ≡ table) }
{
    let Automaton {
        nodes,
        roots,
        order,
    } = linked;
    if table {
        let table = table::tabled(alloc, fold_case, &nodes, &order)?;
        return Ok(Form::Table(table));
    }
    Ok(Form::Links(Links { nodes, roots }))
}

fn copied(alloc: Global, patterns: &[&str]) -> Result<Vec<Vec<u8>>, AllocError>
    ensures bytes { IfOk result (λ v. map (λ p. p.items) v.items ≡ map (λ p. p.now) patterns.now) }
    ensures len { IfOk result (λ v.
        sum_by (λ p. vec_len p) v.items ≡ sum_by (λ p. length p.now) patterns.now) }
{
    let mut kept = Vec::new(alloc);
    for pattern in patterns {
        let bytes = Vec::from_slice(alloc, pattern.as_bytes())?;
        kept.push(bytes)?;
    }
    Ok(kept)
}
