//! The text of a storm's totals.
ghost use Rattle.std.specs.Prelude.{◌≡◌, ◌++◌, OnOk, IfOk, string_bytes};
ghost use Rattle.tool_storm.specs.Texts.{pair_text, sampled_text, totals_text};

use crate::totals::Totals;
use std::alloc::{AllocError, Global};

/// The line of a number of values and their sum.
fn write_pair(text: &mut String, name: &str, pair: (u64, u64)) -> Result<(), AllocError>
    ensures { OnOk result (string_bytes text.new ≡ string_bytes text.old ++ pair_text name.now pair) }
{
    let (count, sum) = pair;
    writeln!(text, "{name} {count} sum {sum}")
}

/// The line of what the reservoir held, of how many values, and their sum.
fn write_sampled(text: &mut String, sampled: (u64, u64, i128)) -> Result<(), AllocError>
    ensures { OnOk result (string_bytes text.new ≡ string_bytes text.old ++ sampled_text sampled) }
{
    let (held, count, sum) = sampled;
    writeln!(text, "sampled {held} of {count} sum {sum}")
}

/// Returns the three lines of a storm.
pub fn text_of_totals(alloc: Global, totals: &Totals) -> Result<String, AllocError>
    ensures { IfOk result (λ text. string_bytes text ≡ totals_text totals.now) }
{
    let mut text = String::new(alloc);
    write_pair(&mut text, "pushed", totals.pushed)?;
    write_pair(&mut text, "found", totals.found)?;
    write_sampled(&mut text, totals.sampled)?;
    Ok(text)
}
