//! Updates and removals of the cells.
ghost use Rattle.std.specs.Prelude.{◌≡◌, true, ◌↔◌, ◌+◌, ◌<◌, ◌∷◌, [], pos, IsErr, Err, None};
ghost use Rattle.std.specs.Prelude.{OnOk, IfErr, MatchResult, if◌then◌else◌};
ghost use Rattle.metrics_names.specs.Names.{SeriesKey, key_eq, series_key_eq};
ghost use Rattle.metrics.specs.declared.error.Error.TheVariants.{Memory as OutOfMemory, CountFull};
ghost use Rattle.metrics_storage.specs.Histogram.{with_samples};
ghost use Rattle.metrics_registry.specs.Held.{held, CountersAlone, GaugesAlone, HistogramsAlone};
ghost use Rattle.metrics_exporter.specs.Exporting.{series_of};
ghost use Rattle.metrics_exporter.specs.Kept.{cells_of, empty_in, KeepsSetting};
ghost use Rattle.metrics_exporter.specs.Describing.{unit_from};
ghost use Rattle.metrics.specs.Cells.{count_with, level_with};
ghost use Rattle.metrics_exporter.specs.Stepping.{counted_with, has_room, TakesSample, UpdatesEntry, UpdatesCells};
ghost use Rattle.metrics_exporter.specs.Stepping.{TakesUpdate, RefusesUpdate};

use crate::cells::{CountedCells, UnitSource};
use metrics::{CompositeKey, Error, Key, MetricKind, Update};
use metrics_registry::{Counted, OwnedRegistry};
use metrics_storage::Histogram;

fn update_counter(
    registry: &mut OwnedRegistry<Key, CountedCells>,
    key: &Key,
    by: Update,
) -> Result<(), Error>
    ensures ok { OnOk result (UpdatesEntry (count_with by) 0 key.now registry.old.counters registry.new.counters) }
    ensures err { IfErr result (λ e. (e ≡ OutOfMemory) × (registry.new ≡ registry.old)
        × (held key_eq registry.old.counters key.now ≡ None)) }
    ensures rest { CountersAlone registry.old registry.new }
{
    registry.get_or_create_counter(
        key,
        |cell: &mut Counted<u64>|
            ensures { cell.new ≡ counted_with (count_with by) cell.old }
        {
            cell.with_increment(
                |count: &mut u64|
                    ensures { count.new ≡ count_with by count.old }
                { *count = by.count_after(*count) },
            )
        },
    )
}

fn update_gauge(
    registry: &mut OwnedRegistry<Key, CountedCells>,
    key: &Key,
    by: Update,
) -> Result<(), Error>
    ensures ok { OnOk result (UpdatesEntry (level_with by) (pos 0) key.now registry.old.gauges registry.new.gauges) }
    ensures err { IfErr result (λ e. (e ≡ OutOfMemory) × (registry.new ≡ registry.old)
        × (held key_eq registry.old.gauges key.now ≡ None)) }
    ensures rest { GaugesAlone registry.old registry.new }
{
    registry.get_or_create_gauge(
        key,
        |cell: &mut Counted<i64>|
            ensures { cell.new ≡ counted_with (level_with by) cell.old }
        {
            cell.with_increment(
                |level: &mut i64|
                    ensures { level.new ≡ level_with by level.old }
                { *level = by.level_after(*level) },
            )
        },
    )
}

/// Adds a sample to the cell of a key.
fn record(
    registry: &mut OwnedRegistry<Key, CountedCells>,
    source: &UnitSource<'_>,
    key: &Key,
    sample: i64,
) -> Result<(), Error>
    ensures ok { OnOk result (UpdatesEntry (with_samples (sample ∷ []))
        (empty_in registry.old (unit_from source.now key.now) key.now.name)
        key.now registry.old.histograms registry.new.histograms) }
    ensures room { OnOk result (has_room (held key_eq registry.old.histograms key.now) ≡ true) }
    ensures err { IfErr result (λ e.
        (e ≡ (if has_room (held key_eq registry.old.histograms key.now) then OutOfMemory else CountFull))
        × (registry.new ≡ registry.old)) }
    ensures absent { result ≡ Err OutOfMemory → held key_eq registry.old.histograms key.now ≡ None }
    ensures rest { HistogramsAlone registry.old registry.new }
{
    let _shards = registry.shards();
    registry.get_or_make_histogram(
        source,
        key,
        |cell: &mut Counted<Histogram>| -> Result<(), Error>
            ensures { TakesSample sample cell.old result cell.new }
        {
            cell.try_increment(
                |histogram: &mut Histogram| -> Result<(), Error>
                    ensures step { MatchResult result (λ _. histogram.new ≡ with_samples (sample ∷ []) histogram.old)
                        (λ e. (e ≡ CountFull) × (histogram.new ≡ histogram.old)) }
                    ensures refused { IsErr result ↔ (u64.MAX < histogram.old.count + 1) }
                { histogram.record(sample) },
            )
        },
    )?
}

/// Updates the cell of a key, and makes it if there is none, a histogram in the unit of the source.
pub(crate) fn update_cells(
    registry: &mut OwnedRegistry<Key, CountedCells>,
    source: &UnitSource<'_>,
    key: &Key,
    by: Update,
) -> Result<(), Error>
    ensures ok { OnOk result (UpdatesCells (empty_in registry.old (unit_from source.now key.now) key.now.name)
        (series_of key.now by) by (cells_of registry.old) (cells_of registry.new)) }
    ensures room { OnOk result (TakesUpdate (cells_of registry.old (series_of key.now by))) }
    ensures err { IfErr result (λ e. RefusesUpdate (cells_of registry.old (series_of key.now by)) e
        × (registry.new ≡ registry.old)) }
    ensures absent { result ≡ Err OutOfMemory → cells_of registry.old (series_of key.now by) ≡ None }
    ensures storage { KeepsSetting registry.old registry.new }
{
    match by {
        Update::Increment(_) | Update::Absolute(_) => update_counter(registry, key, by),
        Update::Add(_) | Update::Subtract(_) | Update::Set(_) => update_gauge(registry, key, by),
        Update::Record(sample) => record(registry, source, key, sample),
    }
}

/// Removes a series, and leaves its note.
pub(crate) fn remove_series(registry: &mut OwnedRegistry<Key, CountedCells>, series: &CompositeKey)
    ensures cells { (s : SeriesKey) → cells_of registry.new s
        ≡ (if series_key_eq series.now s then None else cells_of registry.old s) }
    ensures storage { KeepsSetting registry.old registry.new }
{
    let key = series.key();
    match series.kind() {
        MetricKind::Counter => registry.delete_counter(key),
        MetricKind::Gauge => registry.delete_gauge(key),
        MetricKind::Histogram => registry.delete_histogram(key),
    };
}
