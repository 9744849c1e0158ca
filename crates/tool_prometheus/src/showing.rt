//! What a text shows: what is held, and the series about the program itself, if those are shown.
ghost use Rattle.std.specs.Prelude.{◌≡◌, ◌++◌, Some as Just, IfOk, IfErr, OnOk, OnErr, MatchResult, true};
ghost use Rattle.metrics.specs.declared.error.Error.TheVariants.{Memory as OutOfMemory};
ghost use Rattle.metrics_exporter.specs.Exporting.{Setup, Log, steps, cells_after, HoldsSome};
ghost use Rattle.metrics_exporter.specs.Kept.{IsAfter, described};
ghost use Rattle.metrics_prometheus.specs.Counted.{counted_bytes};
ghost use Rattle.metrics_prometheus.specs.Exposition.{IsScaled};
ghost use Rattle.tool_requests.specs.Places.{kept_places};
ghost use Rattle.tool_prometheus.specs.Own.{own_moment, own_series, own_places, with_own, IsExposedOwn, IsShown};
ghost use Rattle.tool_prometheus.specs.OwnRows.{all_own};
ghost use Rattle.tool_prometheus.specs.Exposed.{own_of, Shows, ShowsAt, UnlessTold};

use crate::answering::Served;
use crate::own::{
    BAD_LINES, LEFT_OUT, LINES, OwnReading, OwnSeries, REFUSED_CALLS, SCRAPED, SERIES, push_own,
    read_all, set_own,
};
use crate::own_places::{OwnPlaces, kept_places_of};
use metrics::Error;
use metrics_prometheus::{CountedText, counted_exposition, counted_exposition_of};
use std::alloc::Global;

/// Adds the moment of the last scrape, if there was one.
fn push_moment(alloc: Global, on: &Served, rows: &mut Vec<OwnSeries>) -> Result<(), Error>
    ensures ok { OnOk result (all_own rows.new.items
        ≡ all_own rows.old.items ++ own_moment (own_of on.now) on.now.last) }
    ensures err { IfErr result (λ e. e ≡ OutOfMemory) }
{
    let Some(moment) = on.last else {
        return Ok(());
    };
    let labels = on.dialect.labels.as_slice();
    push_own(alloc, labels, SCRAPED, OwnReading::Level(moment), rows)
}

/// Adds the series about the program itself, where so many series are held and a text leaves so many out.
fn push_all(
    alloc: Global,
    on: &Served,
    held: u64,
    left_out: u64,
    rows: &mut Vec<OwnSeries>,
) -> Result<(), Error>
    ensures ok { OnOk result (all_own rows.new.items
        ≡ all_own rows.old.items ++ own_series (own_of on.now) held left_out) }
    ensures err { IfErr result (λ e. e ≡ OutOfMemory) }
{
    let counts = on.counts;
    let labels = on.dialect.labels.as_slice();
    push_own(alloc, labels, LINES, OwnReading::Count(counts.lines), rows)?;
    push_own(
        alloc,
        labels,
        BAD_LINES,
        OwnReading::Count(counts.bad),
        rows,
    )?;
    push_own(
        alloc,
        labels,
        REFUSED_CALLS,
        OwnReading::Count(counts.refused),
        rows,
    )?;
    push_own(alloc, labels, SERIES, OwnReading::Level(held), rows)?;
    push_own(alloc, labels, LEFT_OUT, OwnReading::Level(left_out), rows)?;
    push_moment(alloc, on, rows)
}

/// The text of what is held, and of these series about the program.
fn text_with(alloc: Global, on: &Served, rows: &[OwnSeries]) -> Result<CountedText, Error>
    ensures ok { (setup : Setup) (log : Log) → IsAfter setup log on.now.exporter → IfOk result
        (λ shown. IsScaled on.now.naming (described on.now.exporter)
        (own_places (kept_places on.now.dialect.places on.now.front))
        (with_own (all_own rows.now) (cells_after setup (steps log))) (counted_bytes shown)) }
    ensures err { IfErr result (λ e. e ≡ OutOfMemory) }
{
    let held = on.exporter.readings()?;
    let all = read_all(alloc, &held, rows.len())?;
    let all = set_own(all, rows)?;
    let places = OwnPlaces {
        kept: kept_places_of(&on.dialect, on.front),
    };
    counted_exposition_of(alloc, on.naming, &places, on.exporter.descriptions(), &all)
}

/// The text of what is held, and of the series about the program itself, where so many series are held and a text leaves so
/// many out.
fn text_leaving(alloc: Global, on: &Served, held: u64, left_out: u64) -> Result<CountedText, Error>
    ensures ok { (setup : Setup) (log : Log) → IsAfter setup log on.now.exporter → IfOk result
        (λ shown. IsExposedOwn (own_of on.now) held left_out on.now.naming (described on.now.exporter)
        (kept_places on.now.dialect.places on.now.front) (cells_after setup (steps log)) (counted_bytes shown)) }
    ensures err { IfErr result (λ e. e ≡ OutOfMemory) }
{
    let mut rows = Vec::new(alloc);
    push_all(alloc, on, held, left_out, &mut rows)?;
    text_with(alloc, on, &rows)
}

/// The text of what is held, and of the series about the program itself.
fn own_text(alloc: Global, on: &Served) -> Result<CountedText, Error>
    ensures ok { (setup : Setup) (log : Log) → IsAfter setup log on.now.exporter → IfOk result
        (λ shown. IsShown true (own_of on.now) on.now.naming (described on.now.exporter)
        (kept_places on.now.dialect.places on.now.front) (cells_after setup (steps log)) (counted_bytes shown)) }
    ensures err { IfErr result (λ e. e ≡ OutOfMemory) }
{
    let held = on.exporter.len() as u64;
    let shown = text_leaving(alloc, on, held, 0)?;
    let left_out = shown.left_out.len();
    if left_out == 0 {
        return Ok(shown);
    }
    drop(shown);
    text_leaving(alloc, on, held, left_out as u64)
}

/// The text of what is held.
fn plain_text(alloc: Global, on: &Served) -> Result<CountedText, Error>
    ensures text { (setup : Setup) (log : Log) → IsAfter setup log on.now.exporter → MatchResult result
        (λ shown. IsScaled on.now.naming (described on.now.exporter)
        (kept_places on.now.dialect.places on.now.front) (cells_after setup (steps log)) (counted_bytes shown))
        (λ e. e ≡ OutOfMemory) }
    ensures refused { (setup : Setup) (log : Log) → IsAfter setup log on.now.exporter →
        OnErr result (HoldsSome (cells_after setup (steps log))) }
{
    let places = kept_places_of(&on.dialect, on.front);
    counted_exposition(&on.exporter, alloc, on.naming, &places)
}

/// The text of what is held, and of the series about the program itself, if those are shown. Fails only when out of memory,
/// and without those never if no series is held.
pub(crate) fn text_of(alloc: Global, on: &Served) -> Result<CountedText, Error>
    ensures text { (setup : Setup) (log : Log) → IsAfter setup log on.now.exporter → MatchResult result
        (λ shown. Shows setup log on.now (counted_bytes shown)) (λ e. e ≡ OutOfMemory) }
    ensures refused { (setup : Setup) (log : Log) → IsAfter setup log on.now.exporter →
        OnErr result (UnlessTold on.now.tells_self (HoldsSome (cells_after setup (steps log)))) }
{
    if on.tells_self {
        own_text(alloc, on)
    } else {
        plain_text(alloc, on)
    }
}

/// Notes the moment, removes the series that are idle then, and returns the text of the rest.
pub(crate) fn shown_at(alloc: Global, on: &mut Served, now: u64) -> Result<CountedText, Error>
    ensures shown { ShowsAt counted_bytes on.old on.new now result }
    ensures others { on.new ≡ record on.old { exporter = on.new.exporter; last = Just now } }
    ensures legend { described on.new.exporter ≡ described on.old.exporter }
{
    on.last = Some(now);
    match on.exporter.expire(now) {
        Ok(_) => text_of(alloc, on),
        Err(e) => Err(e),
    }
}
