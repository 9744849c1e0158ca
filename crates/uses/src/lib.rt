//! What READMEs of crates show under *Use*, and no example shows.
#![tactic(auto)]

use metrics::{Error, Key, KeyName, MetricKind, Recorder, Refused, Unit};
use metrics_counts::{CountCell, Watch};
use metrics_util::collector::Collector;
use metrics_util::exporter::{Descriptions, TextfileError, write_textfile};
use metrics_util::layered::Local;
use metrics_util::layers::{Layer, Prefix, PrefixLayer};
use metrics_util::registry::{GenerationalAtomicStorage, OwnedRegistry, PlainStorage, Registry};
use metrics_util::storage::AtomicBucket;
use metrics_util::{CounterFn, Shared, counter_value};
use std::alloc::Global;
use std::rt::Files;
use std::sync::{Arc, Wait};

/// `metrics_bucket`: pushes a value, and takes all in chunks.
pub fn clear_bucket<R: AllocGlobal + Wait>(rt: &R) -> Result<usize, Error> {
    let alloc = rt.alloc();
    let bucket: AtomicBucket<i64> = AtomicBucket::new(alloc, 16)?;
    bucket.push(rt, 5)?;
    let mut values: usize = 0;
    bucket.clear_with(rt, |chunk| values = values.saturating_add(chunk.len()))?;
    Ok(values)
}

/// `metrics_counts`: a cell, and a view of it.
pub fn watch_counter(alloc: Global, key: &Key) -> Result<u64, Error> {
    let cell = Arc::new(alloc, CountCell::new(key))?;
    let mut watch = Watch::new(Arc::try_clone(&cell)?);
    cell.increment(5);
    Ok(watch.read())
}

/// `metrics_descriptions`: describes a name, and looks up its unit.
pub fn unit_of_hits(alloc: Global, descriptions: &mut Descriptions) -> Result<Option<Unit>, Error> {
    descriptions.describe(alloc, MetricKind::Counter, "hits", None, "all hits")?;
    let unit = match descriptions.get(MetricKind::Counter, "hits") {
        Some(described) => described.unit(),
        None => None,
    };
    Ok(unit)
}

/// `metrics_layers`: a recorder below a prefix.
pub fn put_below_prefix<R: Recorder + Drop>(
    alloc: Global,
    recorder: R,
) -> Result<Prefix<R>, Error> {
    let layer = PrefixLayer::new(alloc, "app")?;
    let on = layer.layer(alloc, recorder)?;
    Ok(on)
}

/// `metrics_local`: counts by keys that come at run time.
pub fn count_by_keys<R: AllocGlobal + Wait>(
    rt: &R,
    on: &Collector,
    keys: &[Key],
) -> Result<(), Error> {
    let mut local = Local::new(rt.alloc(), on);
    for key in keys {
        local.counter(rt, key)?.increment(1);
    }
    Ok(())
}

/// `metrics_registry`: an empty registry.
pub fn make_registry(alloc: Global) -> Result<OwnedRegistry<Key, PlainStorage>, Error> {
    OwnedRegistry::new(alloc, PlainStorage::new(alloc), 4)
}

/// `metrics_registry`: a cell for a key.
pub fn count_in_registry(
    registry: &mut OwnedRegistry<Key, PlainStorage>,
    key: &Key,
) -> Result<(), Error> {
    registry.get_or_create_counter(key, |count| *count = count.wrapping_add(1))
}

/// `metrics_shared`: a recorder behind a lock.
pub fn describe_behind_lock<W: AllocGlobal + Wait, R: Recorder + Drop>(
    rt: &W,
    recorder: R,
    name: &KeyName,
) -> Result<(), Refused> {
    let shared = Shared::new(recorder);
    shared.describe(rt, rt.alloc(), MetricKind::Counter, name, None, "requests")?;
    Ok(())
}

/// `metrics_shared_registry`: a cell that threads share, and the sum of all.
pub fn sum_of_cells<W: Wait>(
    rt: &W,
    cells: &Registry<Key, GenerationalAtomicStorage>,
    key: &Key,
) -> Result<u64, Error> {
    let mut sum: u64 = 0;
    cells.get_or_create_counter(rt, key, |cell| CounterFn::increment(cell, 1))?;
    cells.visit_counters(
        rt,
        |_, cell| sum = sum.wrapping_add(counter_value(cell.get_inner())),
    );
    Ok(sum)
}

/// `metrics_textfile`: a file for node_exporter.
pub fn publish<R: AllocGlobal + Files>(rt: &R, text: &str) -> Result<(), TextfileError> {
    write_textfile(rt, rt.alloc(), "/var/lib/node_exporter/backup.prom", text)
}
