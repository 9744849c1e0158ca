//! Snapshots of a recorder's books as updates of series.
ghost use Rattle.std.specs.Prelude.{◌≡◌, ◌+◌, ◌<◌, ◌≤◌, ◌∷◌, [], true, IsSome, OnOk, IfErr};
ghost use Rattle.std.specs.Prelude.{map, length, drop, get_or};
ghost use Rattle.metrics.specs.declared.error.Error.TheVariants.{Memory as OutOfMemory};
ghost use Rattle.metrics.specs.declared.handles.Update.TheVariants.{Record as RecordUpdate};
ghost use Rattle.metrics_exporter.specs.Exporting.{Setup, Log};
ghost use Rattle.metrics_exporter.specs.Kept.{IsAfter};
ghost use Rattle.metrics_exporter.specs.Absorbing.{marked, updates_of, MakesUpdates, AbsorbsRow, Absorbs};
ghost use Rattle.metrics_exporter.specs.Absorbing.{remaining_samples, remaining_row, AbsorbsRemaining};
ghost use Rattle.metrics_descriptions.specs.Legends.{SameLegend};
ghost use Rattle.metrics_exporter.specs.Describing.{legend_with, legend_by_row, legend_by_rows};

use crate::exporter::Exporter;
use metrics::{CompositeKey, DebugValue, Error, Key, Row, SharedText, Snapshot, Unit, Update};
use thiserror::Error as ThisError;

/// Why a snapshot was absorbed in part, and which part: all of the first `rows` rows, and of the next one the first `samples`
/// samples. Nothing of the rest was absorbed.
#[derive(Clone, Copy, Debug, PartialEq, Eq, ThisError)]
#[error("{error} after {rows} rows and {samples} samples")]
pub struct PartlyAbsorbed {
    /// The error of the next row's description or update: `Error::Memory`, or `Error::CountFull` at a sample.
    pub error: Error,
    /// The number of rows that were absorbed whole, from the first on.
    pub rows: usize,
    /// The number of samples of the next row that were recorded, from the first on; 0 if that row is no histogram's.
    pub samples: usize,
}

/// Lets `?` pass the error through. It no longer says which part was absorbed.
impl From<PartlyAbsorbed> for Error {
    ghost from_gives = { λ part e. e ≡ part.error };

    fn from(part: PartlyAbsorbed) -> Error {
        part.error
    }
}

impl Exporter {
    ghost use Rattle.metrics_exporter.specs.Kept.{described};

    /// Absorbs a snapshot of a recorder's book, row by row, in their order. A row with a description describes its key's name,
    /// with its unit, as `describe` does. Then the row is an update of the series of its key and of its value's kind. If its
    /// series was active, a count is added, even 0, and a gauge is set, even to the value that it has. If it was idle, only a
    /// count other than 0 is added. Each sample is recorded.
    ///
    /// So a counter or a gauge stays for as long as it is registered or updated between snapshots, with any value, and a
    /// histogram for as long as it is recorded: one that is only registered has no sample, so that its row means no update, and
    /// `expire` removes it. An idle series is removed once.
    ///
    /// Each book needs one reader: take its snapshots by `snapshot_with` and `Reset::KeepGauges`, and absorb each of them.
    /// `snapshot` resets gauges too, so that `absorb` sees a change and no level: a gauge that counts 5, 6, 7 is set to 5, 1,
    /// 1. Any snapshot that isn't absorbed takes away counts, samples and activity.
    ///
    /// The book keeps its series also once the exporter has let them go, so this way is for a fixed set of names.
    ///
    /// An error says which part was absorbed; `absorb_from` goes on from there.
    pub fn absorb(&mut self, snapshot: &Snapshot) -> Result<(), PartlyAbsorbed>
        ensures absorbs { (setup : Setup) (log : Log) → IsAfter setup log self.old
            → Absorbs setup log (marked snapshot.now.rows snapshot.now.active) result self.new }
        ensures tells { OnOk result (SameLegend (described self.new)
            (legend_by_rows snapshot.now.rows (described self.old))) }
        ensures shards { self.new.registry.count ≡ self.old.registry.count }
    {
        absorb_rows(self, snapshot.as_slice(), snapshot.activity())
    }

    /// Goes on with a snapshot of which a part was absorbed, and absorbs the rest of it as `absorb` does. The row in which it
    /// stopped is described again.
    ///
    /// An error says which part was absorbed by all these calls. A part after the last row leaves nothing to do.
    pub fn absorb_from(
        &mut self,
        snapshot: &Snapshot,
        part: PartlyAbsorbed,
    ) -> Result<(), PartlyAbsorbed>
        ensures absorbs { (setup : Setup) (log : Log) → IsAfter setup log self.old
            → AbsorbsRemaining setup log part (marked snapshot.now.rows snapshot.now.active) result self.new }
        ensures tells { OnOk result (SameLegend (described self.new)
            (legend_by_rows (drop part.rows snapshot.now.rows) (described self.old))) }
        ensures shards { self.new.registry.count ≡ self.old.registry.count }
    {
        absorb_remaining(self, snapshot.as_slice(), snapshot.activity(), part)
    }
}

ghost use Rattle.metrics_exporter.specs.Kept.{described};

/// Describes a row's name, if the row has a description.
fn describe_row(
    on: &mut Exporter,
    series: &CompositeKey,
    unit: Option<Unit>,
    text: &Option<SharedText>,
) -> Result<(), Error>
    ensures tells { OnOk result (SameLegend (described on.new) (legend_with series.now unit text.now (described on.old))) }
    ensures calls { (setup : Setup) (log : Log) → IsAfter setup log on.old → IsAfter setup log on.new }
    ensures err { IfErr result (λ e. (e ≡ OutOfMemory) × IsSome text.now) }
    ensures shards { on.new.registry.count ≡ on.old.registry.count }
{
    match text {
        Some(text) => on.describe(series.kind(), series.key().name(), unit, text.as_str()),
        None => Ok(()),
    }
}

/// Returns the items after the first ones.
fn rest_of<T>(items: &[T], first: usize) -> &[T]
    ensures { result.now ≡ drop first items.now }
{
    &items[first.min(items.len())..]
}

/// Returns whether a row's series was active.
fn is_active(activity: &[bool], row: usize) -> bool
    ensures { result ≡ get_or activity.now row true }
{
    match activity.get(row) {
        Some(active) => *active,
        None => true,
    }
}

/// Describes a row's name, and then makes the updates of its value after its first samples.
fn absorb_row(
    on: &mut Exporter,
    row: &Row,
    active: bool,
    samples: usize,
) -> Result<(), (Error, usize)>
    ensures makes { (setup : Setup) (log : Log) → IsAfter setup log on.old
        → AbsorbsRow setup log (remaining_row samples (record { row = row.now; active = active })) result on.new }
    ensures tells { OnOk result (SameLegend (described on.new) (legend_by_row row.now (described on.old))) }
    ensures shards { on.new.registry.count ≡ on.old.registry.count }
    ensures within { IfErr result (λ e. samples + e.1 ≤ usize.MAX) }
{
    let (series, unit, text, value) = row;
    match describe_row(on, series, *unit, text) {
        Ok(()) => absorb_value(on, series.key(), value, active, samples),
        Err(error) => Err((error, 0)),
    }
}

/// Absorbs rows, in order.
fn absorb_rows(on: &mut Exporter, rows: &[Row], activity: &[bool]) -> Result<(), PartlyAbsorbed>
    ensures absorbs { (setup : Setup) (log : Log) → IsAfter setup log on.old
        → Absorbs setup log (marked rows.now activity.now) result on.new }
    ensures tells { OnOk result (SameLegend (described on.new) (legend_by_rows rows.now (described on.old))) }
    ensures shards { on.new.registry.count ≡ on.old.registry.count }
    ensures within { IfErr result (λ stop. stop.rows < length rows.now) }
{
    for (i, row) in rows.iter().enumerate() {
        if let Err((error, samples)) = absorb_row(on, row, is_active(activity, i), 0) {
            return Err(PartlyAbsorbed {
                error,
                rows: i,
                samples,
            });
        }
    }
    Ok(())
}

/// Absorbs the rows after a part, in order.
fn absorb_remaining(
    on: &mut Exporter,
    rows: &[Row],
    activity: &[bool],
    part: PartlyAbsorbed,
) -> Result<(), PartlyAbsorbed>
    ensures absorbs { (setup : Setup) (log : Log) → IsAfter setup log on.old
        → AbsorbsRemaining setup log part (marked rows.now activity.now) result on.new }
    ensures tells { OnOk result (SameLegend (described on.new)
        (legend_by_rows (drop part.rows rows.now) (described on.old))) }
    ensures shards { on.new.registry.count ≡ on.old.registry.count }
{
    let first = part.rows;
    if first >= rows.len() {
        return Ok(());
    }
    let active = is_active(activity, first);
    if let Err((error, samples)) = absorb_row(on, &rows[first], active, part.samples) {
        return Err(PartlyAbsorbed {
            error,
            rows: first,
            samples: part.samples + samples,
        });
    }
    let rest = first + 1;
    match absorb_rows(on, rest_of(rows, rest), rest_of(activity, rest)) {
        Ok(()) => Ok(()),
        Err(stop) => Err(PartlyAbsorbed {
            error: stop.error,
            rows: rest + stop.rows,
            samples: stop.samples,
        }),
    }
}

/// Makes one update.
fn update_once(on: &mut Exporter, key: &Key, by: Update) -> Result<(), (Error, usize)>
    ensures makes { (setup : Setup) (log : Log) → IsAfter setup log on.old
        → MakesUpdates setup log key.now (by ∷ []) result on.new }
    ensures first { IfErr result (λ e. e.1 ≡ 0) }
    ensures descriptions { described on.new ≡ described on.old }
    ensures shards { on.new.registry.count ≡ on.old.registry.count }
{
    match on.update(key, by) {
        Ok(()) => Ok(()),
        Err(error) => Err((error, 0)),
    }
}

/// Records samples, in order.
fn absorb_samples(on: &mut Exporter, key: &Key, samples: &[i64]) -> Result<(), (Error, usize)>
    ensures makes { (setup : Setup) (log : Log) → IsAfter setup log on.old
        → MakesUpdates setup log key.now (map RecordUpdate samples.now) result on.new }
    ensures within { IfErr result (λ e. e.1 < length samples.now) }
    ensures descriptions { described on.new ≡ described on.old }
    ensures shards { on.new.registry.count ≡ on.old.registry.count }
{
    for (i, sample) in samples.iter().enumerate() {
        if let Err(error) = on.update(key, Update::Record(*sample)) {
            return Err((error, i));
        }
    }
    Ok(())
}

/// Makes the updates of a row's value after its first samples.
fn absorb_value(
    on: &mut Exporter,
    key: &Key,
    value: &DebugValue,
    active: bool,
    samples: usize,
) -> Result<(), (Error, usize)>
    ensures makes { (setup : Setup) (log : Log) → IsAfter setup log on.old
        → MakesUpdates setup log key.now (updates_of active (remaining_samples samples value.now)) result on.new }
    ensures within { IfErr result (λ e. samples + e.1 ≤ usize.MAX) }
    ensures descriptions { described on.new ≡ described on.old }
    ensures shards { on.new.registry.count ≡ on.old.registry.count }
{
    match value {
        DebugValue::Counter(count) => {
            if *count == 0 && !active {
                return Ok(());
            }
            update_once(on, key, Update::Increment(*count))
        }
        DebugValue::Gauge(level) => {
            if !active {
                return Ok(());
            }
            update_once(on, key, Update::Set(*level))
        }
        DebugValue::Histogram(all) => { absorb_samples(on, key, rest_of(all.as_slice(), samples)) }
    }
}
