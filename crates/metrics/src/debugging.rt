//! Values and rows of a snapshot.
ghost use Rattle.std.specs.Prelude.{◌≡◌, ◌≤◌, ◌<◌, ◌+◌, [], IfOk, IfErr, Some, cond};
ghost use Rattle.std.specs.HashMap.{get, spare};
ghost use Rattle.metrics_names.specs.Names.{SeriesKey, series_key_eq};
ghost use Rattle.metrics.specs.Book.{resets};
ghost use Rattle.metrics.specs.Rows.{last_row};

use metrics_names::{CompositeKey, Items, MetricKind, SharedText, Unit};
use std::alloc::Global;
use std::collections::HashMap;
use std::marker::Model;

/// The value of a series.
#[derive(Debug, PartialEq, Eq, Hash, Drop)]
pub enum DebugValue {
    Counter(u64),
    Gauge(i64),
    /// The samples. In a snapshot they are in bucket order: in blocks of 64, the newest block first, and each block's samples
    /// in the order in which they were recorded.
    Histogram(Items<i64>),
}

/// A row of a snapshot: composite key, unit, description and value.
pub type Row = (CompositeKey, Option<Unit>, Option<SharedText>, DebugValue);

/// A row without its composite key.
pub type RowValue = (Option<Unit>, Option<SharedText>, DebugValue);

/// Which series a snapshot resets: counters and gauges to 0, histograms to no samples.
#[derive(Clone, Copy, Debug, PartialEq, Eq)]
pub enum Reset {
    /// Those of all kinds.
    All,
    /// Counters and histograms; gauges keep their values.
    KeepGauges,
}

impl Reset {
    /// Returns whether the series of a kind are reset.
    pub fn resets(self, kind: MetricKind) -> bool
        ensures { result ≡ resets self kind }
    {
        match self {
            Reset::All => true,
            Reset::KeepGauges => !matches!(kind, MetricKind::Gauge),
        }
    }
}

/// The rows of a book, in order of first registration, and which of their series were active.
///
/// A series is active if it was registered or updated, with any value, since the last successful snapshot of its book.
#[derive(Debug, Drop)]
pub struct Snapshot {
    rows: Vec<Row>,
    active: Vec<bool>,
}

impl Model for Snapshot {
    ghost use Rattle.metrics.specs.Book.{SnapshotParts};

    ghost Value = { SnapshotParts };

    ghost view = { λ a. record { rows = a.rows.items; active = a.active.items } };
}

impl From<Vec<Row>> for Snapshot {
    ghost from_gives = { λ v s. s ≡ record { rows = v.items; active = [] } };

    fn from(rows: Vec<Row>) -> Snapshot {
        let active = Vec::new(*rows.allocator());
        Snapshot { rows, active }
    }
}

impl Snapshot {
    /// Makes a snapshot of these rows, with, for each in order, whether its series was active.
    pub fn with_activity(rows: Vec<Row>, active: Vec<bool>) -> Snapshot
        ensures { result ≡ record { rows = rows.items; active = active.items } }
    {
        Snapshot { rows, active }
    }

    /// Returns for each row, in order, whether its series was active. Rows past the end are active, so all of them are if the
    /// snapshot was made from rows alone.
    pub fn activity(&self) -> &[bool]
        ensures { result.now ≡ self.now.active }
    {
        self.active.as_slice()
    }

    /// Returns the rows.
    pub fn as_slice(&self) -> &[Row]
        ensures { result.now ≡ self.now.rows }
    {
        self.rows.as_slice()
    }

    /// Returns the rows as a `Vec`, without allocating.
    pub fn into_vec(self) -> Vec<Row>
        ensures { result.items ≡ self.rows }
    {
        let Snapshot { rows, active: _ } = self;
        rows
    }

    /// Returns the rows in a map by their composite keys.
    ///
    /// If rows share a key, the last one stays; no snapshot of a recorder has such rows.
    /// Returns the snapshot when out of memory.
    pub fn into_hashmap(self, alloc: Global) -> Result<HashMap<CompositeKey, RowValue>, Snapshot>
        ensures ok { IfOk result (λ m. (k : SeriesKey) → get series_key_eq m k ≡ last_row k self.rows) }
        ensures err { IfErr result (λ s. s ≡ self) }
    {
        let Ok(mut map) = HashMap::with_capacity(alloc, self.rows.len()) else {
            return Err(self);
        };
        let Snapshot { rows, active: _ } = self;
        for (key, unit, text, value) in rows {
            put(&mut map, key, (unit, text, value));
        }
        Ok(map)
    }
}

/// Inserts a row into a map that has room for it.
fn put(map: &mut HashMap<CompositeKey, RowValue>, key: CompositeKey, value: RowValue)
    requires { 0 < spare map.old }
    ensures rows { (k : SeriesKey) → get series_key_eq map.new k
        ≡ cond (series_key_eq key k) (Some value) (get series_key_eq map.old k) }
    ensures room { spare map.old ≤ spare map.new + 1 }
{
    let Ok(_) = map.insert(key, value) else {
        unreachable!()
    };
}
