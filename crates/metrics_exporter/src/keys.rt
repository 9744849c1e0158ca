//! The series that are held, by reference.
ghost use Rattle.std.specs.Prelude.{◌≡◌, ◌<◌, ◌++◌, ℕ, min, is_some, IfOk, OnErr, MatchResult};
ghost use Rattle.metrics_names.specs.Names.{SeriesKey, series_key_eq, series_key_cmp};
ghost use Rattle.metrics.specs.declared.error.Error.TheVariants.{Memory as OutOfMemory};
ghost use Rattle.metrics_exporter.specs.declared.series.SeriesRef.{SeriesRef as Shown};
ghost use Rattle.metrics_exporter.specs.Gathering.{all_seen, seen_in, series_shown, series_at, AreGathered, AreSeen};
ghost use Rattle.metrics_exporter.specs.Exporting.{HaveFirst, IsHeldNumber};
ghost use Rattle.metrics_exporter.specs.Kept.{cells_of};

use crate::cells::CountedCells;
use crate::kind_cells::KindCell;
use crate::series::SeriesRef;
use metrics::{CompositeKey, Error, Key, MetricKind};
use metrics_registry::{Cells, Counted, OwnedRegistry};
use std::alloc::{AllocError, Global};

/// Adds the series of one kind at the end.
fn gather<'a, C: KindCell>(
    cells: &'a Cells<Key, Counted<C>>,
    series: Vec<SeriesRef<'a>>,
) -> Result<Vec<SeriesRef<'a>>, AllocError>
    ensures { IfOk result
        (λ all. all_seen all.items ≡ all_seen series.entry.items ++ seen_in C.kind_held C.shows cells.now) }
{
    let kind = C::kind();
    let mut series = series;
    for (key, cell) in cells.iter() {
        let cell = C::cell_ref(cell);
        series.push(SeriesRef { kind, key, cell })?;
    }
    Ok(series)
}

/// The series that are held, in the order of a walk over the shards. There are about so many.
fn gathered_series<'a>(
    alloc: Global,
    registry: &'a OwnedRegistry<Key, CountedCells>,
    number: usize,
) -> Result<Vec<SeriesRef<'a>>, AllocError>
    ensures { IfOk result (λ all. AreGathered (cells_of registry.now) all.items) }
{
    let mut series = Vec::with_capacity(alloc, number)?;
    for shard in registry.shards() {
        series = gather(&shard.counters, series)?;
        series = gather(&shard.gauges, series)?;
        series = gather(&shard.histograms, series)?;
    }
    Ok(series)
}

/// Returns each held series once, in the order of a walk over the shards. If none is held it allocates nothing.
pub(crate) fn held_series<'a>(
    alloc: Global,
    registry: &'a OwnedRegistry<Key, CountedCells>,
) -> Result<Vec<SeriesRef<'a>>, Error>
    ensures gathered { MatchResult result (λ all. AreGathered (cells_of registry.now) all.items) (λ e. e ≡ OutOfMemory) }
    ensures refused { OnErr result ((held : ℕ) × IsHeldNumber (cells_of registry.now) held × (0 < held)) }
{
    let number = held_number(registry);
    if number == 0 {
        return Ok(Vec::new(alloc));
    }
    let series = gathered_series(alloc, registry, number)?;
    Ok(series)
}

/// Does nothing. Its contract says what `==` and the order of composite keys and of series are.
pub(crate) fn key_order()
    ensures equality { (a b : SeriesKey) → ⟦<CompositeKey as PartialEq>⟧.eq a b ≡ series_key_eq a b }
    ensures order { (a b : SeriesKey) → ⟦<CompositeKey as Ord>⟧.cmp a b ≡ series_key_cmp a b }
    ensures rows { (a b : Shown) → ⟦<SeriesRef<'static> as Ord>⟧.cmp a b ≡ series_key_cmp (series_shown a) (series_shown b) }
{}

/// Returns the series that are held, in composite key order. If none is held it allocates nothing.
pub(crate) fn sorted_series<'a>(
    alloc: Global,
    registry: &'a OwnedRegistry<Key, CountedCells>,
) -> Result<Vec<SeriesRef<'a>>, Error>
    ensures { MatchResult result (λ all. AreSeen (cells_of registry.now) all.items)
        (λ e. (e ≡ OutOfMemory) × HaveFirst (cells_of registry.now)) }
{
    key_order();
    let mut series = held_series(alloc, registry)?;
    series.sort_unstable();
    Ok(series)
}

/// Whether a series of this kind and key is held.
pub(crate) fn is_held(
    registry: &OwnedRegistry<Key, CountedCells>,
    kind: MetricKind,
    key: &Key,
) -> bool
    ensures { result ≡ is_some (cells_of registry.now (series_at kind key.now)) }
{
    match kind {
        MetricKind::Counter => registry.get_counter(key).is_some(),
        MetricKind::Gauge => registry.get_gauge(key).is_some(),
        MetricKind::Histogram => registry.get_histogram(key).is_some(),
    }
}

/// The number of the series that are held, or the greatest `usize`.
pub(crate) fn held_number(registry: &OwnedRegistry<Key, CountedCells>) -> usize
    ensures { (held : ℕ) × IsHeldNumber (cells_of registry.now) held × (result ≡ min held usize.MAX) }
{
    let mut number = 0usize;
    for shard in registry.shards() {
        number = number
            .saturating_add(shard.counters.len())
            .saturating_add(shard.gauges.len())
            .saturating_add(shard.histograms.len());
    }
    number
}
