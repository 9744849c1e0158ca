//! The names that series get by the options.
ghost use Rattle.std.specs.Prelude.{◌≡◌, ℕ, List, [], ◌∷◌, true, false, IfOk, None as Missing};
ghost use Rattle.metrics_names.specs.declared.kind.MetricKind.{MetricKind as Kind};
ghost use Rattle.metrics_rules.specs.Meanings.{rules_meaning};
ghost use Rattle.tool_prometheus.specs.Names.{below, name_by};
ghost use Rattle.tool_requests.specs.Names.{ruled_name};

use crate::commands::Options;
use metrics::{Error, Text};
use metrics_layers::{FilterLayer, PrefixLayer};
use metrics_rules::Rules;
use std::alloc::Global;

/// Rules that put a prefix and a dot before each name, if there is one.
#[tactic(auto, using(crate::proofs::NamesLemmas::leaf_targets, crate::proofs::NamesLemmas::prefixed_targets))]
fn rules_below(alloc: Global, prefix: &Option<Text>) -> Result<Rules, Error>
    ensures { IfOk result (λ r. (kind : Kind) (name : List ℕ)
        → (rules_meaning r).targets kind name ≡ (0, below prefix.now name) ∷ []) }
{
    let rules = Rules::leaf();
    let Some(prefix) = prefix else {
        return Ok(rules);
    };
    let layer = PrefixLayer::new(alloc, prefix.as_str())?;
    match rules.prefix(alloc, &layer) {
        Ok(rules) => Ok(rules),
        Err((error, _)) => Err(error),
    }
}

/// A filter of the names in which one of the texts occurs.
fn filter_of(alloc: Global, drops: &[Text]) -> Result<FilterLayer, Error>
    ensures { IfOk result (λ f. f ≡ record { listed = drops.now; fold_case = false; table = true }) }
{
    let mut layer = FilterLayer::default(alloc);
    for text in drops {
        layer.add_pattern(text.as_str())?;
    }
    Ok(layer)
}

/// Whether each name stays as it is.
fn is_unnamed(options: &Options) -> bool
    ensures { result ≡ true → (options.now.prefix ≡ Missing) × (options.now.drops ≡ []) }
{
    match &options.prefix {
        None => options.drops.as_slice().is_empty(),
        Some(_) => false,
    }
}

/// The rules of the options, or none if each name stays as it is.
#[tactic(auto, using(crate::proofs::NamesLemmas::undropped))]
pub(crate) fn rules_for(alloc: Global, options: &Options) -> Result<Option<Rules>, Error>
    ensures { IfOk result (λ r. (kind : Kind) (name : List ℕ) → ruled_name r kind name ≡ name_by options.now kind name) }
{
    if is_unnamed(options) {
        return Ok(None);
    }
    let below = rules_below(alloc, &options.prefix)?;
    if options.drops.as_slice().is_empty() {
        return Ok(Some(below));
    }
    let filter = filter_of(alloc, options.drops.as_slice())?;
    match below.filter(alloc, &filter) {
        Ok(rules) => Ok(Some(rules)),
        Err((error, _)) => Err(error),
    }
}
