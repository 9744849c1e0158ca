//! Calls of a shard whose contracts say only which keys are held.
ghost use Rattle.std.specs.Prelude.{◌≡◌, ◌&&◌, ◌||◌, not, OnOk, IfOk, IfErr};
ghost use Rattle.metrics.specs.declared.error.Error.TheVariants.{Memory as OutOfMemory};
ghost use Rattle.metrics_names.specs.declared.kind.MetricKind.{MetricKind as AnyKind};
ghost use Rattle.metrics_names.specs.Names.{kind_eq};
ghost use Rattle.metrics_journal.specs.Cells.{has_key, HasMadeCells, KeepsCells, Replies};

use crate::calls::ShardCall;
use metrics::{Error, MetricKind};
use metrics_registry::{EqualClone, Hashable, Kinds, Storage};

/// Returns whether a key is held.
fn has<K: Hashable + EqualClone + Drop, S: Storage<K>>(
    cells: &Kinds<K, S>,
    kind: MetricKind,
    key: &K,
) -> bool
where
    S::Counter: Drop,
    S::Gauge: Drop,
    S::Histogram: Drop,
    ensures { result ≡ has_key K.eq cells.now kind key.now }
{
    match kind {
        MetricKind::Counter => cells.counters.get(key).is_some(),
        MetricKind::Gauge => cells.gauges.get(key).is_some(),
        MetricKind::Histogram => cells.histograms.get(key).is_some(),
    }
}

/// Makes a cell if the key isn't held.
fn create<K: Hashable + EqualClone + Drop, S: Storage<K>>(
    storage: &S,
    cells: &mut Kinds<K, S>,
    kind: MetricKind,
    key: &K,
) -> Result<(), Error>
where
    S::Counter: Drop,
    S::Gauge: Drop,
    S::Histogram: Drop,
    ensures ok { OnOk result ((k : AnyKind) (q : K)
        → has_key K.eq cells.new k q ≡ (has_key K.eq cells.old k q || (kind_eq kind k && K.eq key.now q))) }
    ensures err { IfErr result (λ e. (e ≡ OutOfMemory) × (cells.new ≡ cells.old)) }
    ensures kept { KeepsCells K.eq cells.old cells.new }
    ensures made { HasMadeCells K.eq S.makes_counter S.makes_gauge S.makes_histogram storage.now cells.old
        → HasMadeCells K.eq S.makes_counter S.makes_gauge S.makes_histogram storage.now cells.new }
{
    match kind {
        MetricKind::Counter => {
            let leave = |cell: &mut S::Counter| -> ()
                ensures { cell.new ≡ cell.old }
            {
                let _ = cell;
            };
            cells.get_or_create_counter(storage, key, leave)
        }
        MetricKind::Gauge => {
            let leave = |cell: &mut S::Gauge| -> ()
                ensures { cell.new ≡ cell.old }
            {
                let _ = cell;
            };
            cells.get_or_create_gauge(storage, key, leave)
        }
        MetricKind::Histogram => {
            let leave = |cell: &mut S::Histogram| -> ()
                ensures { cell.new ≡ cell.old }
            {
                let _ = cell;
            };
            cells.get_or_create_histogram(storage, key, leave)
        }
    }
}

/// Removes a cell, and returns whether the key was held.
fn delete<K: Hashable + EqualClone + Drop, S: Storage<K>>(
    cells: &mut Kinds<K, S>,
    kind: MetricKind,
    key: &K,
) -> bool
where
    S::Counter: Drop,
    S::Gauge: Drop,
    S::Histogram: Drop,
    ensures answer { result ≡ has_key K.eq cells.old kind key.now }
    ensures removed { (k : AnyKind) (q : K) → has_key K.eq cells.new k q
        ≡ (has_key K.eq cells.old k q && not (kind_eq kind k && K.eq key.now q)) }
    ensures kept { KeepsCells K.eq cells.old cells.new }
    ensures made { (storage : S) → HasMadeCells K.eq S.makes_counter S.makes_gauge S.makes_histogram storage cells.old
        → HasMadeCells K.eq S.makes_counter S.makes_gauge S.makes_histogram storage cells.new }
{
    match kind {
        MetricKind::Counter => cells.counters.remove(key),
        MetricKind::Gauge => cells.gauges.remove(key),
        MetricKind::Histogram => cells.histograms.remove(key),
    }
}

/// Makes a call, and returns its reply.
pub(crate) fn answer<K: Hashable + EqualClone + Drop, S: Storage<K>>(
    storage: &S,
    cells: &mut Kinds<K, S>,
    call: &ShardCall<K>,
) -> Result<bool, Error>
where
    S::Counter: Drop,
    S::Gauge: Drop,
    S::Histogram: Drop,
    ensures ok { IfOk result (λ reply. Replies K.eq cells.old cells.new call.now reply) }
    ensures err { IfErr result (λ e. (e ≡ OutOfMemory) × (cells.new ≡ cells.old)) }
    ensures kept { KeepsCells K.eq cells.old cells.new }
    ensures made { HasMadeCells K.eq S.makes_counter S.makes_gauge S.makes_histogram storage.now cells.old
        → HasMadeCells K.eq S.makes_counter S.makes_gauge S.makes_histogram storage.now cells.new }
{
    match call {
        ShardCall::Create(kind, key) => {
            let held = has(cells, *kind, key);
            create(storage, cells, *kind, key)?;
            Ok(!held)
        }
        ShardCall::Delete(kind, key) => Ok(delete(cells, *kind, key)),
        ShardCall::Has(kind, key) => Ok(has(cells, *kind, key)),
    }
}
