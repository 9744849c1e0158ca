//! The rows of a reading.
ghost use Rattle.std.specs.Prelude.{◌≡◌, ◌∷◌, ◌++◌, [], OnOk, length};

use crate::gathered::{GatheredSeries, Value};
use crate::row_key::RowKey;
use metrics::Key;
use std::alloc::AllocError;
use std::marker::Model;

/// The rows of a reading, made in the memory of those of an earlier one. Where both have the same key in the same place, the
/// key isn't copied.
#[derive(Drop)]
pub(crate) struct Rows {
    /// The rows so far, and after them those that are left of the earlier reading.
    series: Vec<GatheredSeries>,
    count: usize,
}

impl Model for Rows {
    ghost use Rattle.std.specs.Prelude.{◌≤◌, List, length, take};
    ghost use Rattle.metrics_collector.specs.declared.gathered.GatheredSeries.{GatheredSeries as Row};

    ghost Value = { List Row };

    ghost view = { λ a. take a.count a.series.items };

    ghost invariant = { λ a. a.count ≤ length a.series.items };
}

/// Gives a row this key and this value. The key is copied only if the row has another one, and its labels are looked at only in
/// a row that stays.
fn refill(row: &mut GatheredSeries, key: &Key, value: Value) -> Result<(), AllocError>
    ensures { OnOk result (row.new ≡ record { key = key.now; value = value }) }
{
    if *row.key == *key {
        row.key.look();
        row.value = value;
        return Ok(());
    }
    let key = RowKey::new(key.clone()?);
    *row = GatheredSeries { key, value };
    Ok(())
}

impl Rows {
    /// Begins without rows, in the memory of these.
    pub fn reusing(series: Vec<GatheredSeries>) -> Rows
        ensures { result ≡ [] }
    {
        Rows { series, count: 0 }
    }

    /// Adds a row.
    pub fn push(&mut self, key: &Key, value: Value) -> Result<(), AllocError>
        ensures { OnOk result (self.new ≡ self.old ++ record { key = key.now; value = value } ∷ []) }
    {
        let at = self.count;
        if at < self.series.len() {
            refill(&mut self.series[at], key, value)?;
        } else {
            let key = RowKey::new(key.clone()?);
            self.series.push(GatheredSeries { key, value })?;
        }
        self.count = at + 1;
        Ok(())
    }

    /// Returns the rows as a `Vec`, without allocating.
    pub fn into_vec(self) -> Vec<GatheredSeries>
        ensures { result.items ≡ self }
    {
        let Rows { mut series, count } = self;
        series.truncate(count);
        series
    }
}
