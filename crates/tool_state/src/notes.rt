//! The descriptions of series' names as lines.
ghost use Rattle.std.specs.Prelude.{◌≡◌, true, Some, OnOk};
ghost use Rattle.std.specs.List.{AllByRecursion};
ghost use Rattle.metrics_descriptions.specs.Legends.{description_of};
ghost use Rattle.metrics_exporter.specs.Readings.{all_read};
ghost use Rattle.tool_state.specs.Written.{TellsSame, TellsSo, AddsNotes, KeepsSo, KeepsSame};

use crate::body::{Body, add_description};
use crate::error::StateError;
use metrics::{MetricKind, Unit};
use metrics_exporter::{Described, Descriptions, SeriesRef};
use std::alloc::Global;

/// Whether this is a description of this text and unit, or of no unit if that is none.
fn is_so(described: &Described, unit: Option<Unit>, text: &str) -> bool
    ensures { result ≡ true → description_of (Some described.now) ≡ record { unit = unit; text = Some text.now } }
{
    described.unit() == unit && described.text() == text
}

/// Adds the line of a description, unless it was added before. `told` has those that were.
fn add_text(
    alloc: Global,
    body: &mut Body,
    told: &mut Descriptions,
    kind: MetricKind,
    name: &str,
    unit: Option<Unit>,
    text: &str,
) -> Result<(), StateError>
    ensures adds { OnOk result (AddsNotes told.old told.new body.old body.new) }
    ensures same { OnOk result (TellsSo told.new kind name.now unit text.now) }
    ensures keeps { OnOk result (KeepsSo told.old told.new kind name.now) }
{
    match told.get(kind, name) {
        Some(described) => {
            if is_so(described, unit, text) {
                Ok(())
            } else {
                Err(StateError::NoLine)
            }
        }
        None => {
            told.describe(alloc, kind, name, unit, text)?;
            add_description(alloc, body, kind, name, unit, text)
        }
    }
}

/// Adds the line of a name's description, if it has one.
fn add_note(
    alloc: Global,
    body: &mut Body,
    told: &mut Descriptions,
    on: &Descriptions,
    kind: MetricKind,
    name: &str,
) -> Result<(), StateError>
    ensures adds { OnOk result (AddsNotes told.old told.new body.old body.new) }
    ensures same { OnOk result (TellsSame told.new on.now kind name.now) }
    ensures keeps { OnOk result (KeepsSame told.old told.new on.now) }
{
    match on.get(kind, name) {
        Some(described) => {
            let unit = described.unit();
            add_text(alloc, body, told, kind, name, unit, described.text())
        }
        None => {
            if told.get(kind, name).is_none() {
                Ok(())
            } else {
                Err(StateError::NoLine)
            }
        }
    }
}

/// Adds the descriptions of the series' names, each once.
pub(crate) fn add_notes(
    alloc: Global,
    body: &mut Body,
    told: &mut Descriptions,
    on: &Descriptions,
    series: &[SeriesRef<'_>],
) -> Result<(), StateError>
    ensures adds { OnOk result (AddsNotes told.old told.new body.old body.new) }
    ensures same { OnOk result (AllByRecursion (λ k. TellsSame told.new on.now k.0.kind k.0.key.name)
        (all_read series.now)) }
{
    for one in series {
        add_note(alloc, body, told, on, one.kind(), one.key().name())?;
    }
    Ok(())
}
