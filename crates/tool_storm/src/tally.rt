//! How many values, and their sum, both modulo 2^64.
ghost use Rattle.std.specs.Prelude.{◌≡◌, ◌+◌, ◌%◌, ◌^◌};
ghost use Rattle.tool_storm.specs.Numbers.{sum_of};
ghost use Rattle.tool_storm.specs.Tallies.{Adds};

use metrics_bucket::Visitor;

/// How many values there were, and their sum, both modulo 2^64.
#[derive(Clone, Copy, PartialEq, Eq, Debug, Drop)]
pub(crate) struct Tally {
    pub(crate) count: u64,
    pub(crate) sum: u64,
}

/// The sum of these values, on top of a start.
fn added(start: u64, part: &[u64]) -> u64
    ensures { result ≡ (start + sum_of part.now) % 2 ^ 64 }
{
    let mut sum = start;
    for value in part {
        sum = sum.wrapping_add(*value);
    }
    sum
}

impl Tally {
    pub(crate) fn new() -> Tally
        ensures { (result.count ≡ 0) × (result.sum ≡ 0) }
    {
        Tally { count: 0, sum: 0 }
    }

    /// Adds the other's values.
    pub(crate) fn add(&mut self, other: Tally)
        ensures { Adds self.old other.count other.sum self.new }
    {
        self.count = self.count.wrapping_add(other.count);
        self.sum = self.sum.wrapping_add(other.sum);
    }
}

impl Visitor<u64> for Tally {
    ghost use Rattle.std.specs.Prelude.{⊤};
    ghost use Rattle.tool_storm.specs.Numbers.{count_of, sum_of};
    ghost use Rattle.tool_storm.specs.Tallies.{Adds};

    ghost ready = { λ _. ⊤ };

    ghost saw = { λ t xs u. Adds t (count_of xs) (sum_of xs) u };

    fn see(&mut self, part: &[u64]) {
        self.count = self.count.wrapping_add(part.len() as u64);
        self.sum = added(self.sum, part);
    }
}
