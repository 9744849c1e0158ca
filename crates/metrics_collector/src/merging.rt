//! Two readings together.
ghost use Rattle.std.specs.Prelude.{◌≡◌, ◌⊎◌, ◌++◌, ◌∷◌, [], Some as Just, IfOk, IfErr, OnOk, OnErr, map};
ghost use Rattle.std.specs.List.{position_or_len};
ghost use Rattle.metrics_names.specs.declared.kind.MetricKind.TheVariants.{Counter as CounterKind, Histogram as HistogramKind};
ghost use Rattle.metrics_storage.specs.Histogram.{merged};
ghost use Rattle.metrics_exporter.specs.Exporting.{count as counted, samples as taken};
ghost use Rattle.metrics_collector.specs.Gathering.{kind_of, reading_of, keyed_gathered, all_gathered};
ghost use Rattle.metrics_collector.specs.Merging.{are_same, joined, with_reading, with_all, reading_of_series, AreJoined};
ghost use Rattle.metrics_collector.specs.Merging.{AreRefused, IsRefused, HasRefused, HasEachOnce};
ghost use Rattle.metrics_collector.specs.declared.merging.AbsorbError.TheVariants.{Memory as OutOfMemory};

use crate::gathered::{Gathered, GatheredSeries, Value};
use metrics_storage::Histogram;
use std::alloc::{AllocError, AllocFailed, Global};
use std::error::Error;
use std::fmt;

/// Why one reading could not be added to another. Neither has changed.
#[derive(Clone, Copy, Debug, PartialEq, Eq)]
pub enum AbsorbError {
    /// Out of memory.
    Memory,
    /// Both have a histogram of one series, and its bounds differ, also if only in order.
    OtherBounds,
    /// A histogram would have more than 2^64 - 1 samples.
    CountFull,
}

impl fmt::Display for AbsorbError {
    fn fmt<W: fmt::Write>(&self, f: &mut fmt::Formatter<W>) -> fmt::Result {
        f.write_str(match self {
            AbsorbError::Memory => "memory",
            AbsorbError::OtherBounds => "other bounds",
            AbsorbError::CountFull => "count full",
        })
    }
}

impl Error for AbsorbError {}

impl From<AllocError> for AbsorbError {
    ghost from_gives = { λ e r. r ≡ OutOfMemory };

    fn from(_error: AllocError) -> AbsorbError {
        AbsorbError::Memory
    }
}

impl<T: Drop> From<AllocFailed<T>> for AbsorbError {
    ghost from_gives = { λ e r. r ≡ OutOfMemory };

    fn from(_error: AllocFailed<T>) -> AbsorbError {
        AbsorbError::Memory
    }
}

/// Returns whether two rows are of one series.
pub(crate) fn are_same(row: &GatheredSeries, other: &GatheredSeries) -> bool
    ensures { result ≡ are_same row.now other.now }
{
    row.kind() == other.kind() && *row.key == *other.key
}

/// Returns the place of the first row of a row's series, or else the number of rows.
fn place_of(rows: &[GatheredSeries], row: &GatheredSeries) -> usize
    ensures { result ≡ position_or_len (are_same row.now) rows.now }
{
    for (place, other) in rows.iter().enumerate() {
        if are_same(row, other) {
            return place;
        }
    }
    rows.len()
}

/// Returns a value of samples.
fn samples_of(alloc: Global, samples: Histogram) -> Result<Value, AbsorbError>
    ensures value { IfOk result (λ v. reading_of v ≡ taken samples) }
    ensures kind { IfOk result (λ v. kind_of v ≡ HistogramKind) }
    ensures err { IfErr result (λ e. e ≡ OutOfMemory) }
{
    Ok(Value::Samples(Box::new(alloc, samples)?))
}

/// Returns a copy of a value.
fn copy_of(alloc: Global, value: &Value) -> Result<Value, AbsorbError>
    ensures value { IfOk result (λ v. reading_of v ≡ reading_of value.now) }
    ensures kind { IfOk result (λ v. kind_of v ≡ kind_of value.now) }
    ensures err { IfErr result (λ e. e ≡ OutOfMemory) }
{
    match value {
        Value::Count(count) => Ok(Value::Count(*count)),
        Value::Level(level) => Ok(Value::Level(*level)),
        Value::Samples(samples) => samples_of(alloc, Histogram::clone(samples)?),
    }
}

/// Returns the samples of both, which have to have the same bounds.
fn merged(total: &Histogram, more: &Histogram) -> Result<Histogram, AbsorbError>
    ensures ok { IfOk result (λ h. h ≡ merged total.now more.now) }
    ensures joins { OnOk result ((e : AbsorbError) → ¬ AreRefused e total.now more.now) }
    ensures err { IfErr result (λ e. (e ≡ OutOfMemory) ⊎ AreRefused e total.now more.now) }
{
    if !total.same_bounds(more) {
        return Err(AbsorbError::OtherBounds);
    }
    let mut all = total.clone()?;
    match all.merge(more) {
        Ok(()) => Ok(all),
        Err(_) => Err(AbsorbError::CountFull),
    }
}

/// Returns a count with what was there before.
fn with_count(old: &Value, count: u64) -> Value
    ensures value { reading_of result ≡ joined (reading_of old.now) (counted count) }
    ensures kind { kind_of result ≡ CounterKind }
{
    match old {
        Value::Count(total) => Value::Count(total.wrapping_add(count)),
        Value::Level(_) => Value::Count(count),
        Value::Samples(_) => Value::Count(count),
    }
}

/// Returns samples with what was there before.
fn with_samples(alloc: Global, old: &Value, more: &Histogram) -> Result<Value, AbsorbError>
    ensures value { IfOk result (λ v. reading_of v ≡ joined (reading_of old.now) (taken more.now)) }
    ensures kind { IfOk result (λ v. kind_of v ≡ HistogramKind) }
    ensures joins { OnOk result ((e : AbsorbError) → ¬ IsRefused e (Just (reading_of old.now)) (taken more.now)) }
    ensures err { IfErr result (λ e. (e ≡ OutOfMemory) ⊎ IsRefused e (Just (reading_of old.now)) (taken more.now)) }
{
    match old {
        Value::Samples(total) => samples_of(alloc, merged(total, more)?),
        Value::Count(_) => samples_of(alloc, more.clone()?),
        Value::Level(_) => samples_of(alloc, more.clone()?),
    }
}

/// Returns what a series has that had one value and then another.
fn joined(alloc: Global, old: &Value, new: &Value) -> Result<Value, AbsorbError>
    ensures value { IfOk result (λ v. reading_of v ≡ joined (reading_of old.now) (reading_of new.now)) }
    ensures kind { IfOk result (λ v. kind_of v ≡ kind_of new.now) }
    ensures joins { OnOk result ((e : AbsorbError) → ¬ IsRefused e (Just (reading_of old.now)) (reading_of new.now)) }
    ensures err { IfErr result (λ e. (e ≡ OutOfMemory) ⊎ IsRefused e (Just (reading_of old.now)) (reading_of new.now)) }
{
    match new {
        Value::Count(count) => Ok(with_count(old, *count)),
        Value::Level(latest) => Ok(Value::Level(*latest)),
        Value::Samples(samples) => with_samples(alloc, old, samples),
    }
}

/// Adds a copy of a row.
fn push_copy(
    alloc: Global,
    rows: &mut Vec<GatheredSeries>,
    row: &GatheredSeries,
) -> Result<(), AbsorbError>
    ensures ok { OnOk result (map keyed_gathered rows.new.items
        ≡ map keyed_gathered rows.old.items ++ keyed_gathered row.now ∷ []) }
    ensures err { IfErr result (λ e. e ≡ OutOfMemory) }
{
    let key = row.key.clone()?;
    let value = copy_of(alloc, &row.value)?;
    rows.push(GatheredSeries { key, value })?;
    Ok(())
}

/// Joins a row with the first of its series, or adds it.
fn put(
    alloc: Global,
    rows: &mut Vec<GatheredSeries>,
    row: &GatheredSeries,
) -> Result<(), AbsorbError>
    ensures ok { OnOk result (map keyed_gathered rows.new.items
        ≡ with_reading (keyed_gathered row.now) (map keyed_gathered rows.old.items)) }
    ensures joins { OnOk result ((e : AbsorbError) → ¬ IsRefused e (reading_of_series (keyed_gathered row.now).0
        (map keyed_gathered rows.old.items)) (keyed_gathered row.now).1) }
    ensures err { IfErr result (λ e. (e ≡ OutOfMemory) ⊎ IsRefused e (reading_of_series (keyed_gathered row.now).0
        (map keyed_gathered rows.old.items)) (keyed_gathered row.now).1) }
{
    let place = place_of(rows, row);
    if place >= rows.len() {
        return push_copy(alloc, rows, row);
    }
    let value = joined(alloc, &rows[place].value, &row.value)?;
    rows[place].value = value;
    Ok(())
}

/// Returns copies of rows.
fn copies(alloc: Global, rows: &[GatheredSeries]) -> Result<Vec<GatheredSeries>, AbsorbError>
    ensures ok { IfOk result (λ all. map keyed_gathered all.items ≡ map keyed_gathered rows.now) }
    ensures err { IfErr result (λ e. e ≡ OutOfMemory) }
{
    let mut all = Vec::with_capacity(alloc, rows.len())?;
    for row in rows {
        push_copy(alloc, &mut all, row)?;
    }
    Ok(all)
}

/// Returns the rows of both, each series of the others joined with that of the rows.
fn together(
    alloc: Global,
    rows: &[GatheredSeries],
    others: &[GatheredSeries],
) -> Result<Vec<GatheredSeries>, AbsorbError>
    ensures ok { IfOk result (λ all. map keyed_gathered all.items
        ≡ with_all (map keyed_gathered others.now) (map keyed_gathered rows.now)) }
    ensures joins { OnOk result ((e : AbsorbError)
        → ¬ HasRefused e (map keyed_gathered rows.now) (map keyed_gathered others.now)) }
    ensures err { IfErr result (λ e. (e ≡ OutOfMemory)
        ⊎ HasRefused e (map keyed_gathered rows.now) (map keyed_gathered others.now)) }
{
    let mut all = copies(alloc, rows)?;
    for other in others {
        put(alloc, &mut all, other)?;
    }
    Ok(all)
}

impl Gathered {
    /// Adds what another collector's reading has. Counters are added modulo 2^64, histograms of one series are merged, and a
    /// gauge has the other's value. A series that only one of both has is as it was there.
    ///
    /// Each series of the other is looked for among all here, one after another. A call that fails changes nothing.
    ///
    /// # Errors
    ///
    /// `OtherBounds` if both have a histogram of one series and their bounds differ, also if only in order; `CountFull` if two
    /// histograms of one series have more than 2^64 - 1 samples together; and `Memory`.
    pub fn absorb(&mut self, alloc: Global, other: &Gathered) -> Result<(), AbsorbError>
        ensures series { OnOk result (AreJoined (all_gathered self.old) (all_gathered other.now) (all_gathered self.new)) }
        ensures once { OnOk result (HasEachOnce (all_gathered self.old) → HasEachOnce (all_gathered self.new)) }
        ensures joins { OnOk result ((e : AbsorbError) → ¬ HasRefused e (all_gathered self.old) (all_gathered other.now)) }
        ensures refused { IfErr result (λ e. (e ≡ OutOfMemory)
            ⊎ HasRefused e (all_gathered self.old) (all_gathered other.now)) }
        ensures err { OnErr result (self.new ≡ self.old) }
    {
        self.series = together(alloc, &self.series, &other.series)?;
        Ok(())
    }
}
