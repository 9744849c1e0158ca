//! Quantiles and their labels.
ghost use Rattle.std.specs.Prelude.{◌≡◌, ◌≤◌, ◌<◌, ◌+◌, ◌/◌, ◌%◌, ◌^◌, ◌++◌, ◌∷◌, []};
ghost use Rattle.std.specs.Prelude.{◌-◌, length, map, pos, string_bytes, IfOk, OnOk, MatchResult};
ghost use Rattle.std.specs.Fmt.{decimal};
ghost use Rattle.metrics.specs.declared.error.Error.TheVariants.{Memory as OutOfMemory};
ghost use Rattle.metrics_registry.specs.Quantiles.{clamped, low_digits, without_trailing_zeros, label_of};
ghost use Rattle.metrics_registry.specs.Quantiles.{nearest_rank, of_sorted};

use metrics::Error;
use metrics_names::Text;
use std::alloc::{AllocError, Global};
use std::marker::Model;

/// One whole, in billionths.
const WHOLE: u64 = 1_000_000_000;

/// The parts of a percentile that its seven decimals count.
const PERCENT: u64 = 10_000_000;

/// Adds the seven decimals without their trailing zeros.
fn push_decimals(label: &mut String, decimals: u64) -> Result<(), AllocError>
    ensures { OnOk result (string_bytes label.new ≡ string_bytes label.old ++ without_trailing_zeros (low_digits 7 decimals)) }
{
    let mut places = 7;
    while decimals % 10u64.pow(places) != 0 {
        places -= 1;
        let digit = decimals / 10u64.pow(places) % 10;
        label.push((b'0' + digit as u8) as char)?;
    }
    Ok(())
}

/// The label of a quantile that is neither the least nor the greatest.
fn percentile(alloc: Global, billionths: u64) -> Result<String, AllocError>
    ensures { IfOk result (λ s. string_bytes s
        ≡ 112 ∷ decimal (billionths / 10 ^ 7) ++ without_trailing_zeros (low_digits 7 (billionths % 10 ^ 7))) }
{
    let mut label = format!(in alloc; "p{}", billionths / PERCENT)?;
    push_decimals(&mut label, billionths % PERCENT)?;
    Ok(label)
}

/// The label of a quantile.
fn label_of(alloc: Global, billionths: u64) -> Result<String, AllocError>
    ensures { IfOk result (λ s. string_bytes s ≡ label_of billionths) }
{
    match billionths {
        0 => String::from_str(alloc, "min"),
        WHOLE => String::from_str(alloc, "max"),
        _ => percentile(alloc, billionths),
    }
}

/// The index of the nearest rank among `len` values.
#[tactic(auto, using(crate::proofs::RankLemmas::parts_le, crate::proofs::RankLemmas::rank_le))]
fn nearest_index(billionths: u64, len: usize) -> usize
    requires whole { billionths ≤ 1000000000 }
    requires some { 0 < len }
    ensures value { result ≡ nearest_rank billionths len - 1 }
    ensures within { result < len }
{
    let parts = u128::from(billionths) * len as u128;
    let rank = (parts + u128::from(WHOLE - 1)) / u128::from(WHOLE);
    (rank as usize).saturating_sub(1)
}

/// A quantile in whole billionths, from 0 to 1,000,000,000, with its label.
///
/// Contracts see its value.
#[derive(Clone, Debug, PartialEq, Drop)]
pub struct Quantile {
    billionths: u64,
    label: Text,
}

impl Model for Quantile {
    ghost use Rattle.std.specs.Prelude.{◌≡◌, ◌≤◌, ℕ};
    ghost use Rattle.metrics_registry.specs.Quantiles.{label_of};

    ghost Value = { ℕ };

    ghost view = { λ q. q.billionths };

    ghost invariant = { λ q. (q.label ≡ label_of q.billionths) × (q.billionths ≤ 1000000000) };

    ghost inverse = { λ n. record { billionths = n; label = label_of n } };
}

impl Quantile {
    /// Makes the quantile of this many billionths, clamped to the range from 0 to 1,000,000,000.
    ///
    /// Fails only when out of memory.
    pub fn new(alloc: Global, billionths: i64) -> Result<Quantile, Error>
        ensures { MatchResult result (λ q. q ≡ clamped billionths) (λ e. e ≡ OutOfMemory) }
    {
        let billionths = billionths.clamp(0, WHOLE as i64) as u64;
        let label = Text::from(label_of(alloc, billionths)?);
        Ok(Quantile { billionths, label })
    }

    /// Returns `min`, `max`, or `p` with the digits of the percentile: `p99`, and `p999` for 99.9.
    pub fn label(&self) -> &str
        ensures { result.now ≡ label_of self.now }
    {
        self.label.as_str()
    }

    /// Returns the quantile in billionths, from 0 to 1,000,000,000.
    pub fn value(&self) -> i64
        ensures { result ≡ pos self.now }
    {
        self.billionths as i64
    }

    /// Returns the quantile of values in ascending order, by nearest rank, and `None` if there are none.
    ///
    /// Of n values it is number `value() * n / 1,000,000,000`, rounded up, counted from 1, and at 0 the first one. In values
    /// of another order it is the one at that place.
    pub fn of_sorted(&self, sorted: &[i64]) -> Option<i64>
        ensures { result ≡ of_sorted self.now sorted.now }
    {
        if sorted.is_empty() {
            return None;
        }
        Some(sorted[nearest_index(self.billionths, sorted.len())])
    }
}

/// Makes the quantile of each number of billionths, in their order.
///
/// Fails only when out of memory, and never for an empty list.
pub fn parse_quantiles(alloc: Global, values: &[i64]) -> Result<Vec<Quantile>, Error>
    ensures { MatchResult result (λ qs. qs.items ≡ map clamped values.now)
        (λ e. (e ≡ OutOfMemory) × (0 < length values.now)) }
{
    let mut quantiles = Vec::new(alloc);
    for value in values {
        quantiles.push(Quantile::new(alloc, *value)?)?;
    }
    Ok(quantiles)
}
