//! A recorder that keeps one book in memory.
ghost use Rattle.std.specs.Prelude.{◌≡◌, MatchResult, IsOk, IfErr};
ghost use Rattle.std.specs.Result.{result_map_both};
ghost use Rattle.metrics_names.specs.declared.refused.Refused.TheVariants.{Memory};
ghost use Rattle.metrics.specs.Meaning.{KeepsTargets, Registers, Snapshots};
ghost use Rattle.metrics_debugging.specs.Debugging.{IsNewBook, one_if_held};
ghost use Rattle.metrics_debugging.specs.DebuggingSeries.{series_key};

mod cells;
mod series;

use metrics::{
    Address, Key, KeyName, MetricKind, Recorder, Refused, Reset, Snapshot, Unit, Update,
};
use metrics_descriptions::Descriptions;
use series::SeriesList;
use std::alloc::Global;
use std::marker::Model;

/// One book in memory. It has each name as it is, and keeps each series from its first registration on.
#[derive(Drop)]
pub struct DebuggingRecorder {
    series: SeriesList,
    descriptions: Descriptions,
}

impl DebuggingRecorder {
    /// Makes a new book. It allocates nothing yet.
    pub fn new(alloc: Global) -> Result<DebuggingRecorder, Refused>
        ensures new_book { MatchResult result (λ r. IsNewBook (⟦<DebuggingRecorder as Recorder>⟧.meaning r))
            (λ e. e ≡ Memory 0) }
        ensures succeeds { IsOk result }
    {
        Ok(DebuggingRecorder {
            series: SeriesList::new(alloc),
            descriptions: Descriptions::new(alloc),
        })
    }

    /// Returns the snapshotter of this book, also if the recorder is the first below another one.
    pub fn snapshotter(&self) -> Snapshotter
        ensures { result ≡ 0 }
    {
        Snapshotter::of(0)
    }
}

impl Recorder for DebuggingRecorder {
    ghost use Rattle.metrics_debugging.specs.DebuggingMeaning.{meaning_of};

    ghost meaning = { meaning_of };

    fn books(&self) -> usize {
        1
    }

    fn describe(
        &mut self,
        alloc: Global,
        kind: MetricKind,
        name: &KeyName,
        unit: Option<Unit>,
        text: &str,
    ) -> Result<usize, Refused> {
        self.descriptions
            .describe(alloc, kind, name.as_str(), unit, text)?;
        Ok(1)
    }

    /// A call that fails reports 1 if the book held the series already, and else 0. A registration is activity, also of a series
    /// that is held, and also if the call fails then.
    fn register(
        &mut self,
        alloc: Global,
        kind: MetricKind,
        key: &Key,
    ) -> Result<Vec<Address>, Refused>
        ensures keeps { KeepsTargets (meaning_of self.old) (meaning_of self.new) }
        ensures registers { Registers (meaning_of self.old) (meaning_of self.new) kind key.now
            (result_map_both (λ v. v.items) (λ e. e) result) }
        ensures acted { IfErr result (λ e. e ≡ Memory (one_if_held (series_key kind key.now)
            (meaning_of self.old))) }
    {
        let Some(series) = self.series.find(kind, key) else {
            let mut found = Vec::with_capacity(alloc, 1)?;
            let description = self.descriptions.place(kind, key.name());
            let series = self.series.add(alloc, kind, key, description)?;
            found.push_reserved(Address { book: 0, series });
            return Ok(found);
        };
        self.series.touch(series);
        let Ok(mut found) = Vec::with_capacity(alloc, 1) else {
            return Err(Refused::Memory { acted: 1 });
        };
        found.push_reserved(Address { book: 0, series });
        Ok(found)
    }

    fn holds(&self, kind: MetricKind, at: Address) -> bool {
        at.book == 0 && self.series.kind_at(at.series) == Some(kind)
    }

    /// An update that succeeds is activity, whatever its value.
    fn update(&mut self, at: Address, by: Update) -> Result<(), Refused> {
        if at.book != 0 {
            return Err(Refused::NoSuchAddress);
        }
        self.series.update(at.series, by)
    }

    /// The snapshot reports which series were registered or updated since the last one. All of them are idle then.
    fn snapshot_with(
        &mut self,
        alloc: Global,
        book: usize,
        reset: Reset,
    ) -> Result<Snapshot, Refused> {
        if book != 0 {
            return Err(Refused::NoSuchBook);
        }
        let rows = self.series.rows(alloc, &self.descriptions)?;
        let active = self.series.activity(alloc)?;
        self.series.reset(reset);
        Ok(Snapshot::with_activity(rows, active))
    }
}

/// Takes snapshots of one book of a recorder, by the book's number there.
#[derive(Clone, Copy, Debug, PartialEq, Eq, PartialOrd, Ord, Hash)]
pub struct Snapshotter {
    book: usize,
}

impl Model for Snapshotter {
    ghost use Rattle.std.specs.Prelude.{ℕ};

    ghost Value = { ℕ };

    ghost view = { λ a. a.book };

    ghost inverse = { λ n. record { book = n } };
}

impl Snapshotter {
    /// Returns the snapshotter of the book of this number.
    pub fn of(book: usize) -> Snapshotter
        ensures { result ≡ book }
    {
        Snapshotter { book }
    }

    /// Takes the recorder's snapshot of the book, and resets the series of some kinds.
    pub fn snapshot_with<R: Recorder>(
        &self,
        alloc: Global,
        on: &mut R,
        reset: Reset,
    ) -> Result<Snapshot, Refused>
        ensures keeps { KeepsTargets (R.meaning on.old) (R.meaning on.new) }
        ensures snapshots { Snapshots (R.meaning on.old) (R.meaning on.new) self.now reset result }
    {
        on.snapshot_with(alloc, self.book, reset)
    }

    /// Takes the recorder's snapshot of the book, and resets the series of all kinds.
    ///
    /// An exporter that absorbs the book needs `snapshot_with` and `Reset::KeepGauges`: it would see what a gauge changed by
    /// since this call, and miss the activity before it.
    pub fn snapshot<R: Recorder>(&self, alloc: Global, on: &mut R) -> Result<Snapshot, Refused>
        ensures keeps { KeepsTargets (R.meaning on.old) (R.meaning on.new) }
        ensures snapshots { Snapshots (R.meaning on.old) (R.meaning on.new) self.now Reset.All result }
    {
        on.snapshot(alloc, self.book)
    }
}
