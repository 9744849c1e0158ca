//! What the words of a command line ask for.
ghost use Rattle.std.specs.Prelude.{◌≡◌, ◌≤◌, ℕ, map, decimal, MatchOption};
ghost use Rattle.tool_lines.specs.declared.requests.Request.{Request as Asked};
ghost use Rattle.tool_lines.specs.declared.requests.StormPlan.{StormPlan as Plan};
ghost use Rattle.tool_lines.specs.Requests.{IsAllowedPlan, IsPlanOf, Asks};

use tool_grammar::number_of;

/// How many workers a storm has, how many values each pushes, and how many blocks the bucket has.
#[derive(Clone, Copy)]
pub struct StormPlan {
    /// The number of workers.
    pub pushers: usize,
    /// How many values each pushes.
    pub values: u64,
    /// The blocks of the bucket, or of a growing one's first segment.
    pub blocks: usize,
}

/// What a command line asks for.
#[derive(Clone, Copy)]
pub enum Request {
    /// To answer the lines of the input.
    Run,
    /// To run a storm.
    Storm(StormPlan),
    /// To run a storm on a growing bucket.
    GrowingStorm(StormPlan),
}

/// A number from `least` to `most`, as it is printed, and nothing else.
fn number_within(word: &str, least: u64, most: u64) -> Option<u64>
    ensures { MatchOption result ((n : ℕ) → least ≤ n → n ≤ most → word.now ≡ decimal n → ⊥)
        (λ n. (least ≤ n) × (n ≤ most) × (word.now ≡ decimal n)) }
{
    let number = number_of(word.as_bytes())?;
    if least <= number && number <= most {
        Some(number)
    } else {
        None
    }
}

/// A storm of these numbers, where it allows them: 1 to 64 pushers, at most 1,000,000 values, 1 to 1,024 blocks.
fn plan_of(pushers: &str, values: &str, blocks: &str) -> Option<StormPlan>
    ensures { MatchOption result ((plan : Plan) → IsAllowedPlan plan → IsPlanOf pushers.now values.now blocks.now plan
        → ⊥)
        (λ plan. IsAllowedPlan plan × IsPlanOf pushers.now values.now blocks.now plan) }
{
    let pushers = number_within(pushers, 1, 64)?;
    let values = number_within(values, 0, 1_000_000)?;
    let blocks = number_within(blocks, 1, 1024)?;
    Some(StormPlan {
        pushers: pushers as usize,
        values,
        blocks: blocks as usize,
    })
}

/// Returns what the words after the program's name ask for: `run`, or `storm P V B` or `storm P V B grow` with numbers
/// that a storm allows.
pub fn request_of(words: &[&str]) -> Option<Request>
    ensures { MatchOption result ((asked : Asked) → Asks (map (λ w. w.now) words.now) asked → ⊥)
        (λ asked. Asks (map (λ w. w.now) words.now) asked) }
{
    match words {
        [word] if *word == "run" => Some(Request::Run),
        [word, pushers, values, blocks] if *word == "storm" => Some(Request::Storm(plan_of(
            pushers, values, blocks,
        )?)),
        [word, pushers, values, blocks, last] if *word == "storm" && *last == "grow" => {
            Some(Request::GrowingStorm(plan_of(pushers, values, blocks)?))
        }
        _ => None,
    }
}
