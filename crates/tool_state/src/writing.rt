//! Writes a state.
ghost use Rattle.std.specs.Prelude.{◌≡◌, ◌<◌, ◌^◌, ◌++◌, ◌∷◌, [], map, codes, decimal, IfOk, OnOk, string_bytes};
ghost use Rattle.std.specs.Prelude.{List, Option, None as Nothing};
ghost use Rattle.metrics_names.specs.declared.common.Unit.{Unit as Measure};
ghost use Rattle.metrics_storage.specs.Histogram.{bounds_of};
ghost use Rattle.metrics_exporter.specs.Choice.{bounds_in};
ghost use Rattle.metrics_exporter.specs.Readings.{all_read, keyed_reading};
ghost use Rattle.metrics.specs.declared.handles.Update.TheVariants.{Increment, Set};
ghost use Rattle.tool_requests.specs.declared.requests.Request.TheVariants.{Change};
ghost use Rattle.tool_state.specs.State.{Entry};
ghost use Rattle.tool_state.specs.Runs.{Run, AreSamplesOf};
ghost use Rattle.tool_state.specs.Held.{recorded, MakeReading, IsStateOf};
ghost use Rattle.tool_state.specs.Written.{Adds, AddsReadings};

use crate::body::{Body, add_update};
use crate::error::StateError;
use crate::notes::add_notes;
use crate::runs::runs_of;
use crate::units::unit_at;
use metrics::{Key, Unit, Update};
use metrics_exporter::{Bounds, Descriptions, Exporter, ReadingRef, SeriesReading, SeriesRef};
use metrics_storage::Histogram;
use std::alloc::{AllocError, Global};

/// Adds a line for each run of equal samples of a histogram that is made in this unit.
fn add_runs(
    alloc: Global,
    body: &mut Body,
    unit: Option<Unit>,
    key: &Key,
    runs: &[(u64, i64)],
) -> Result<(), StateError>
    ensures { OnOk result (Adds (map (recorded unit key.now) runs.now) body.old body.new) }
{
    for (times, sample) in runs {
        add_update(alloc, body, *times, unit, key, Update::Record(*sample))?;
    }
    Ok(())
}

/// Adds the line that makes a count.
fn add_count(alloc: Global, body: &mut Body, key: &Key, count: u64) -> Result<(), StateError>
    ensures adds { OnOk result (Adds ((1, Nothing, Change key.now (Increment count)) ∷ []) body.old body.new) }
    ensures small { count < 2 ^ 64 }
{
    add_update(alloc, body, 1, None, key, Update::Increment(count))
}

/// Adds the line that makes a gauge's value.
fn add_level(alloc: Global, body: &mut Body, key: &Key, level: i64) -> Result<(), StateError>
    ensures { OnOk result (Adds ((1, Nothing, Change key.now (Set level)) ∷ []) body.old body.new) }
{
    add_update(alloc, body, 1, None, key, Update::Set(level))
}

/// Adds the lines that make a histogram, which has samples.
fn add_samples(
    alloc: Global,
    body: &mut Body,
    bounds: &Bounds,
    key: &Key,
    histogram: &Histogram,
) -> Result<(), StateError>
    ensures { OnOk result ((unit : Option Measure) × (runs : List Run)
        × (bounds_in bounds.now unit key.now.name ≡ bounds_of histogram.now) × AreSamplesOf runs histogram.now
        × Adds (map (recorded unit key.now) runs) body.old body.new) }
{
    let Some(unit) = unit_at(bounds, key.name(), histogram) else {
        return Err(StateError::NoLine);
    };
    let runs = runs_of(alloc, histogram)?;
    add_runs(alloc, body, unit, key, &runs)
}

/// Adds the lines that make what a series has.
fn add_reading(
    alloc: Global,
    body: &mut Body,
    bounds: &Bounds,
    one: SeriesReading<'_>,
) -> Result<(), StateError>
    ensures { OnOk result ((entries : List Entry) × Adds entries body.old body.new
        × MakeReading (bounds_in bounds.now) (keyed_reading one.entry) entries) }
{
    match one.reading {
        ReadingRef::Count(n) => add_count(alloc, body, one.key, n),
        ReadingRef::Level(n) => add_level(alloc, body, one.key, n),
        ReadingRef::Samples(histogram) => add_samples(alloc, body, bounds, one.key, histogram),
    }
}

/// Adds the lines that make what the series have.
fn add_readings(
    alloc: Global,
    body: &mut Body,
    bounds: &Bounds,
    series: &[SeriesRef<'_>],
) -> Result<(), StateError>
    ensures { OnOk result (AddsReadings (bounds_in bounds.now) (all_read series.now) body.old body.new) }
{
    for one in series {
        add_reading(alloc, body, bounds, one.reading())?;
    }
    Ok(())
}

/// The first line, and those of the body.
fn text_of(alloc: Global, title: &str, body: &Body) -> Result<String, AllocError>
    ensures { IfOk result (λ text. (body.now.number < 2 ^ 64) × (string_bytes text
        ≡ title.now ++ 32 ∷ (decimal body.now.number ++ 32 ∷ (codes "lines\n" ++ string_bytes body.now.text)))) }
{
    let mut text = String::new(alloc);
    let number = body.number;
    write!(text, "{title} {number} lines\n")?;
    text.push_str(&body.text)?;
    Ok(text)
}

/// Writes what an exporter holds as a state with this title: the descriptions of its series' names, and for each series lines of
/// the program's language that make its value, each after how many times it is made. A histogram's lines are samples that have
/// its counts and its sum, in the first unit in which the exporter makes a histogram of its name at its bounds.
///
/// The title may be any text without a line feed. It is for what a reader has to have alike, as the bounds of histograms and
/// the decimal places of names: a state has whole numbers of the last place.
///
/// # Errors
///
/// `StateError::Memory`, and `StateError::NoLine` for a name, a label or a description that no line of the language has.
pub fn write_state(alloc: Global, on: &Exporter, title: &str) -> Result<String, StateError>
    ensures { IfOk result (λ text. IsStateOf title.now on.now (string_bytes text)) }
{
    let series = on.readings()?;
    let mut told = Descriptions::new(alloc);
    let mut body = Body::new(alloc);
    add_notes(alloc, &mut body, &mut told, on.descriptions(), &series)?;
    add_readings(alloc, &mut body, on.bounds(), &series)?;
    Ok(text_of(alloc, title, &body)?)
}
