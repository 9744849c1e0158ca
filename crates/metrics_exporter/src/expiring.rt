//! The checks of one expiry.
//!
//! The checks of different series don't meet: in whatever order all are made, their answers and the notes are the same. And only
//! a check that adds a note can be refused. So a walk first finds what needs memory, and changes nothing; then the new notes are
//! added, or none; and the checks that a second walk makes can't fail. Neither gathers the series.
ghost use Rattle.std.specs.Prelude.{◌≡◌, ◌++◌, List, IfOk, IfErr, OnOk, MatchResult};
ghost use Rattle.metrics.specs.declared.error.Error.TheVariants.{Memory as OutOfMemory};
ghost use Rattle.metrics_names.specs.Names.{key_eq};
ghost use Rattle.metrics_registry.specs.RecencyEntries.{rules_of, table_of};
ghost use Rattle.metrics_exporter.specs.Gathering.{Seen, all_seen, all_shown, seen_in, walk_of};
ghost use Rattle.metrics_exporter.specs.Kept.{cells_of};
ghost use Rattle.metrics_exporter.specs.Stepping.{AreChecked, AreFound, AreUnnoted, Rechecks};
ghost use Rattle.metrics_exporter.specs.Stepping.{noted_if_kept, notes_without, table_with_all};

use crate::cells::CountedCells;
use crate::kind_cells::KindCell;
use crate::series::SeriesRef;
use metrics::{CompositeKey, Error, Key};
use metrics_registry::{Cells, Counted, Kinds, OwnedRecency, OwnedRegistry};
use std::alloc::Global;

/// What a walk finds that needs memory: the idle series, and those whose checks add a note.
#[derive(Drop)]
pub(crate) struct Found<'a> {
    idle: Vec<CompositeKey>,
    unnoted: Vec<SeriesRef<'a>>,
}

/// Adds what is found among the cells of one kind.
fn look_at_cells<'a, C: KindCell>(
    recency: &OwnedRecency<Key>,
    now: u64,
    cells: &'a Cells<Key, Counted<C>>,
    found: Found<'a>,
) -> Result<Found<'a>, Error>
    ensures ok { IfOk result (λ all. (walk : List Seen)
        → AreFound (rules_of recency.now) now (table_of key_eq recency.now) walk found.entry
        → AreFound (rules_of recency.now) now (table_of key_eq recency.now)
        (walk ++ seen_in C.kind_held C.shows cells.now) all) }
    ensures err { IfErr result (λ e. e ≡ OutOfMemory) }
{
    let kind = C::kind();
    let mut found = found;
    for (key, counted) in cells.iter() {
        match recency.peek(kind, key, counted.get_generation(), now) {
            Some(true) => {}
            Some(false) => found.idle.push(CompositeKey::new(kind, key.clone()?))?,
            None => {
                let cell = C::cell_ref(counted);
                found.unnoted.push(SeriesRef { kind, key, cell })?;
            }
        }
    }
    Ok(found)
}

/// What is found in all shards.
fn look<'a>(
    alloc: Global,
    recency: &OwnedRecency<Key>,
    now: u64,
    shards: &'a [Kinds<Key, CountedCells>],
) -> Result<Found<'a>, Error>
    ensures { MatchResult result
        (λ all. AreFound (rules_of recency.now) now (table_of key_eq recency.now) (walk_of shards.now) all)
        (λ e. e ≡ OutOfMemory) }
{
    let mut found = Found {
        idle: Vec::new(alloc),
        unnoted: Vec::new(alloc),
    };
    for shard in shards {
        found = look_at_cells(recency, now, &shard.counters, found)?;
        found = look_at_cells(recency, now, &shard.gauges, found)?;
        found = look_at_cells(recency, now, &shard.histograms, found)?;
    }
    Ok(found)
}

/// Removes the notes of series.
fn forget(recency: &mut OwnedRecency<Key>, series: &[SeriesRef<'_>])
    ensures rules { rules_of recency.new ≡ rules_of recency.old }
    ensures notes { table_of key_eq recency.new ≡ notes_without (all_shown series.now) (table_of key_eq recency.old) }
{
    for one in series {
        recency.forget(one.kind, one.key);
    }
}

/// Notes series that are not noted yet. If it fails it notes none.
fn note_all(
    recency: &mut OwnedRecency<Key>,
    now: u64,
    unnoted: &[SeriesRef<'_>],
) -> Result<(), Error>
    requires { AreUnnoted (table_of key_eq recency.old) (all_seen unnoted.now) }
    ensures rules { rules_of recency.new ≡ rules_of recency.old }
    ensures ok { OnOk result (table_of key_eq recency.new
        ≡ table_with_all (noted_if_kept (rules_of recency.old)) now (all_seen unnoted.now) (table_of key_eq recency.old)) }
    ensures err { IfErr result (λ e. (e ≡ OutOfMemory) × (table_of key_eq recency.new ≡ table_of key_eq recency.old)) }
{
    for i in 0..unnoted.len() {
        let series = unnoted[i];
        if let Err(refused) = recency.note(series.kind, series.key, series.cell.generation(), now) {
            forget(recency, &unnoted[..i]);
            return Err(refused);
        }
    }
    Ok(())
}

/// Checks the cells of one kind whose checks add no note.
fn recheck_cells<C: KindCell>(
    recency: &mut OwnedRecency<Key>,
    now: u64,
    cells: &Cells<Key, Counted<C>>,
)
    ensures { Rechecks now (seen_in C.kind_held C.shows cells.now) recency.old recency.new }
{
    for (key, counted) in cells.iter() {
        recency.recheck(C::kind(), key, counted.get_generation(), now);
    }
}

/// The same in all shards.
fn recheck(recency: &mut OwnedRecency<Key>, now: u64, shards: &[Kinds<Key, CountedCells>])
    ensures { Rechecks now (walk_of shards.now) recency.old recency.new }
{
    for shard in shards {
        recheck_cells(recency, now, &shard.counters);
        recheck_cells(recency, now, &shard.gauges);
        recheck_cells(recency, now, &shard.histograms);
    }
}

/// Checks every series that is held, and returns those that are idle, whose notes are removed. If it fails it makes no check.
pub(crate) fn check_all(
    alloc: Global,
    registry: &OwnedRegistry<Key, CountedCells>,
    recency: &mut OwnedRecency<Key>,
    now: u64,
) -> Result<Vec<CompositeKey>, Error>
    ensures rules { rules_of recency.new ≡ rules_of recency.old }
    ensures ok { IfOk result (λ idle. AreChecked (rules_of recency.old) now (cells_of registry.now)
        (table_of key_eq recency.old) (table_of key_eq recency.new) idle.items) }
    ensures err { IfErr result (λ e. (e ≡ OutOfMemory) × (table_of key_eq recency.new ≡ table_of key_eq recency.old)) }
{
    let shards = registry.shards();
    let found = look(alloc, recency, now, shards)?;
    note_all(recency, now, &found.unnoted)?;
    recheck(recency, now, shards);
    Ok(found.idle)
}
