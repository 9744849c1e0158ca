//! Series that are added to what was gathered, or left out of it.
ghost use Rattle.std.specs.Prelude.{◌≡◌, ◌++◌, ◌∷◌, [], MatchResult};
ghost use Rattle.std.specs.Fn.{CalledAt};
ghost use Rattle.std.specs.List.Retain.{IsFiltered};
ghost use Rattle.metrics.specs.declared.error.Error.TheVariants.{Memory as OutOfMemory};
ghost use Rattle.metrics_collector.specs.declared.gathered.Value.TheVariants.{Count as Counted, Level as Leveled};

use crate::gathered::{Gathered, GatheredSeries, Value};
use crate::row_key::RowKey;
use metrics::{Error, Key};

/// Adds a row. Out of memory, it returns the key.
fn push(gathered: &mut Gathered, key: Key, value: Value) -> Result<(), (Error, Key)>
    ensures { MatchResult result
        (λ _. gathered.new.series.items ≡ gathered.old.series.items ++ record { key = key; value = value } ∷ [])
        (λ e. (e.0 ≡ OutOfMemory) × (e.1 ≡ key) × (gathered.new.series.items ≡ gathered.old.series.items)) }
{
    let key = RowKey::new(key);
    match gathered.series.push(GatheredSeries { key, value }) {
        Ok(()) => Ok(()),
        Err(refused) => {
            let GatheredSeries { key, value: _ } = refused.value;
            Err((Error::Memory, key.into_key()))
        }
    }
}

impl Gathered {
    /// Adds a counter with this count, such as one that is computed at a scrape. The series has the labels of its key alone.
    ///
    /// If that series is there, `Collector::text_of` leaves this one out, with a line that says so.
    ///
    /// Fails only when out of memory, and returns the key.
    pub fn push_counter(&mut self, key: Key, count: u64) -> Result<(), (Error, Key)>
        ensures { MatchResult result
            (λ _. self.new.series.items ≡ self.old.series.items ++ record { key = key; value = Counted count } ∷ [])
            (λ e. (e.0 ≡ OutOfMemory) × (e.1 ≡ key) × (self.new.series.items ≡ self.old.series.items)) }
    {
        push(self, key, Value::Count(count))
    }

    /// Adds a gauge with this value, such as a queue's length. The series has the labels of its key alone.
    ///
    /// If that series is there, `Collector::text_of` leaves this one out, with a line that says so.
    ///
    /// Fails only when out of memory, and returns the key.
    pub fn push_gauge(&mut self, key: Key, value: i64) -> Result<(), (Error, Key)>
        ensures { MatchResult result
            (λ _. self.new.series.items ≡ self.old.series.items ++ record { key = key; value = Leveled value } ∷ [])
            (λ e. (e.0 ≡ OutOfMemory) × (e.1 ≡ key) × (self.new.series.items ≡ self.old.series.items)) }
    {
        push(self, key, Value::Level(value))
    }

    /// Keeps the series for which the closure returns true, in their order. It is called once for each.
    pub fn retain<F: FnMut(&GatheredSeries) -> bool>(&mut self, keep: F)
        requires { F.IsAlwaysCallable keep }
        ensures { IsFiltered (CalledAt F.FnMut) keep self.old.series.items self.new.series.items }
    {
        self.series.retain(keep);
    }
}
