//! The plan that the words after `export` describe.
ghost use Rattle.std.specs.Prelude.{◌≡◌, ℕ, ℤ, List, [], ◌∷◌, ◌<◌, ◌^◌, Option as Maybe, IfSome};
ghost use Rattle.std.specs.Prelude.{◌≤◌, ◌++◌, true, IfOk, MatchResult, MatchOption, decimal};
ghost use Rattle.metrics_registry.specs.Held.{is_shard_count as is_count};
ghost use Rattle.tool_grammar.specs.Printing.{samples_text};
ghost use Rattle.tool_export.specs.declared.plans.ExportPlan.{ExportPlan as Plan};
ghost use Rattle.tool_export.specs.Plans.{IsAllowed, AreSamples, plan_words, timeout_word, watched_word};

use metrics::{Items, MetricKindMask};
use metrics_registry::is_shard_count;
use std::alloc::{AllocError, Global};
use tool_grammar::{kinds_of, number_of, signed_number_of, split_at_first};

/// How an exporter is to be made.
#[derive(Drop)]
pub struct ExportPlan {
    /// The shards of the registry.
    pub shards: usize,
    /// The kinds whose series may be idle.
    pub watched: MetricKindMask,
    /// The longest time that a series may be idle, or none.
    pub idle_timeout: Option<u64>,
    /// In the order of the command line.
    pub bounds: Items<i64>,
}

/// The kinds that a word of letters names; a dash names none.
fn watched_of(word: &[u8]) -> Option<MetricKindMask>
    ensures { MatchOption result ((kinds : ℕ) → kinds ≤ 7 → word.now ≡ watched_word kinds → ⊥)
        (λ kinds. (kinds ≤ 7) × (word.now ≡ watched_word kinds)) }
{
    if word == b"-".as_slice() {
        return Some(MetricKindMask::NONE);
    }
    kinds_of(word)
}

/// A number, or a dash for none.
fn timeout_of(word: &[u8]) -> Option<Option<u64>>
    ensures { MatchOption result
        ((timeout : Maybe ℕ) → IfSome timeout (λ n. n < 2 ^ 64) → word.now ≡ timeout_word timeout → ⊥)
        (λ timeout. IfSome timeout (λ n. n < 2 ^ 64) × (word.now ≡ timeout_word timeout)) }
{
    if word == b"-".as_slice() {
        return Some(None);
    }
    let timeout = number_of(word)?;
    Some(Some(timeout))
}

/// The bounds with one more. Without memory for it, and after that, there are none.
fn with_bound(bounds: Result<Vec<i64>, AllocError>, bound: i64) -> Result<Vec<i64>, AllocError>
    ensures { IfOk result (λ more. MatchResult bounds (λ few. more.items ≡ few.items ++ bound ∷ []) (λ _. ⊥)) }
{
    let mut bounds = bounds?;
    bounds.push(bound)?;
    Ok(bounds)
}

/// At least one number, with a comma between two. Fails without memory for them, and only if the word has such numbers.
fn bounds_of(alloc: Global, word: &[u8]) -> Result<Option<Vec<i64>>, AllocError>
    ensures { MatchResult result (λ found. MatchOption found
        ((ns : List ℤ) → AreSamples ns → word.now ≡ samples_text ns → ⊥)
        (λ ns. AreSamples ns.items × (word.now ≡ samples_text ns.items)))
        (λ _. (ns : List ℤ) × AreSamples ns × (word.now ≡ samples_text ns)) }
{
    let mut bounds = Ok(Vec::new(alloc));
    let mut rest = word;
    while let Some((digits, later)) = split_at_first(rest, b',') {
        let Some(bound) = signed_number_of(digits) else {
            return Ok(None);
        };
        bounds = with_bound(bounds, bound);
        rest = later;
    }
    match signed_number_of(rest) {
        Some(last) => Ok(Some(with_bound(bounds, last)?)),
        None => Ok(None),
    }
}

/// How many shards a word asks for: a power of two from 1 to 1,024.
fn shards_of(word: &[u8]) -> Option<usize>
    ensures { MatchOption result ((n : ℕ) → is_count n ≡ true → word.now ≡ decimal n → ⊥)
        (λ n. (is_count n ≡ true) × (word.now ≡ decimal n)) }
{
    let shards = number_of(word)? as usize;
    if is_shard_count(shards) {
        Some(shards)
    } else {
        None
    }
}

/// Returns the plan of the words S, M, T and B: shards, the kinds whose series may be idle, the timeout, and the bounds
/// of histograms. Fails only without memory for the bounds, and only if the words describe an exporter.
pub fn plan_of(
    alloc: Global,
    shards: &str,
    kinds: &str,
    timeout: &str,
    bounds: &str,
) -> Result<Option<ExportPlan>, AllocError>
    ensures { let words = shards.now ∷ kinds.now ∷ timeout.now ∷ bounds.now ∷ [] in
        MatchResult result (λ found. MatchOption found
        ((plan : Plan) → IsAllowed plan → words ≡ plan_words plan → ⊥)
        (λ plan. IsAllowed plan × (words ≡ plan_words plan)))
        (λ _. (plan : Plan) × IsAllowed plan × (words ≡ plan_words plan)) }
{
    let Some(shards) = shards_of(shards.as_bytes()) else {
        return Ok(None);
    };
    let Some(watched) = watched_of(kinds.as_bytes()) else {
        return Ok(None);
    };
    let Some(idle_timeout) = timeout_of(timeout.as_bytes()) else {
        return Ok(None);
    };
    match bounds_of(alloc, bounds.as_bytes()) {
        Ok(Some(found)) => Ok(Some(ExportPlan {
            shards,
            watched,
            idle_timeout,
            bounds: Items::from(found),
        })),
        Ok(None) => Ok(None),
        Err(refused) => Err(refused),
    }
}
