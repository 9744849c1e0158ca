//! The exporter that the options ask for.
ghost use Rattle.std.specs.Prelude.{◌≡◌, ℕ, List, Option as Maybe, None as Nothing, IfOk};
ghost use Rattle.metrics_names.specs.declared.common.Unit.{Unit as Measure};
ghost use Rattle.metrics_storage.specs.Histogram.{no_samples};
ghost use Rattle.metrics_exporter.specs.Choice.{bounds_in, set_for, exact_for, unit_for};
ghost use Rattle.metrics_exporter.specs.Prefixes.{at_longest};
ghost use Rattle.tool_prometheus.specs.Making.{set_by, set_in, or_set_in};
ghost use Rattle.tool_prometheus.specs.Serving.{Begins, new_start};

use crate::commands::Options;
use metrics::{Error, Items, Text, Unit};
use metrics_exporter::{Bounds, Exporter};
use std::alloc::Global;

/// The bounds of the histograms whose names begin with a prefix.
#[derive(Drop)]
pub struct PrefixBounds {
    /// As series have it, so after the prefix of the options.
    pub prefix: Text,
    /// In the order of the command line.
    pub bounds: Items<i64>,
}

/// The bounds of the histograms that are made while their names have a unit.
#[derive(Drop)]
pub struct UnitBounds {
    pub unit: Unit,
    /// In the order of the command line.
    pub bounds: Items<i64>,
}

/// Returns the bounds of each unit: those that are set for it, otherwise the default ones.
fn unit_bounds_from(alloc: Global, default: &[i64], units: &[UnitBounds]) -> Result<Bounds, Error>
    ensures default { IfOk result (λ b. b.default ≡ no_samples default.now) }
    ensures exact { IfOk result (λ b. (name : List ℕ) → exact_for b name ≡ Nothing) }
    ensures prefixes { IfOk result (λ b. (prefix : List ℕ) → set_for b prefix ≡ Nothing) }
    ensures units { IfOk result (λ b. (unit : Measure) → unit_for b unit ≡ set_in units.now unit) }
{
    let mut bounds = Bounds::new(alloc, default)?;
    for one in units {
        bounds.set_unit(alloc, one.unit, one.bounds.as_slice())?;
    }
    Ok(bounds)
}

/// Returns the bounds of each name: those of its longest prefix, otherwise those of its unit, otherwise the default ones.
fn bounds_from(
    alloc: Global,
    default: &[i64],
    prefixes: &[PrefixBounds],
    units: &[UnitBounds],
) -> Result<Bounds, Error>
    ensures { IfOk result (λ b. (unit : Maybe Measure) (name : List ℕ)
        → bounds_in b unit name ≡ at_longest (or_set_in units.now default.now unit) (set_by prefixes.now) name) }
{
    let mut bounds = unit_bounds_from(alloc, default, units)?;
    for one in prefixes {
        bounds.set(alloc, one.prefix.as_str(), one.bounds.as_slice())?;
    }
    Ok(bounds)
}

/// Returns a new exporter as the options describe it.
pub fn exporter_for(alloc: Global, options: &Options) -> Result<Exporter, Error>
    ensures { IfOk result (Begins options.now new_start) }
{
    let plan = &options.plan;
    let prefixes = options.prefixes.as_slice();
    let units = options.units.as_slice();
    let bounds = bounds_from(alloc, plan.bounds.as_slice(), prefixes, units)?;
    Exporter::with_bounds(alloc, plan.shards, plan.watched, plan.idle_timeout, bounds)
}
