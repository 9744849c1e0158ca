//! Series in order of first registration.
ghost use Rattle.std.specs.Prelude.{◌≡◌, ◌∷◌, [], ◌++◌, ◌<◌, OnOk, OnErr, IfOk, IfErr};
ghost use Rattle.std.specs.Prelude.{MatchResult, if◌then◌else◌};
ghost use Rattle.std.specs.Prelude.{None, true, false, length, map, option_map, slice_get, position};
ghost use Rattle.metrics_names.specs.declared.refused.Refused.TheVariants.{Memory};
ghost use Rattle.metrics.specs.Book.{is_of, new_series, new_value, resets, after_reset, row_of, active_at, idle};
ghost use Rattle.metrics_descriptions.specs.Legends.{described_by};
ghost use Rattle.metrics_debugging.specs.Debugging.{content_of};
ghost use Rattle.metrics_debugging.specs.DebuggingCells.{value_of, kind_of_value, UpdatesValue};
ghost use Rattle.metrics_debugging.specs.DebuggingSeries.{Agrees, IsWithin, series_at, series_key, spot};
ghost use Rattle.metrics_debugging.specs.DebuggingUpdates.{UpdatesAt};

use crate::debugging::cells::Cell;
use metrics::{
    CompositeKey, Key, MetricKind, PerKind, Refused, Reset, Row, SharedText, Unit, Update,
};
use metrics_descriptions::Descriptions;
use metrics_registry::Cells;
use std::alloc::{AllocError, Global};

/// A series: its cell, which is of its kind, the place of its key among those of the kind, where to look first for the
/// description of its name, and whether it was registered or updated since the last successful snapshot.
#[derive(Drop)]
pub(crate) struct Stored {
    cell: Cell,
    place: usize,
    description: u32,
    active: bool,
}

impl Stored {
    /// Updates the cell. An update that succeeds is activity.
    fn update(&mut self, by: Update) -> Result<(), Refused>
        ensures updates { UpdatesValue (value_of self.old.cell) (value_of self.new.cell) by result }
        ensures stays { spot self.new ≡ spot self.old }
        ensures active { MatchResult result (λ _. self.new.active ≡ true) (λ _. self.new.active ≡ self.old.active) }
    {
        match self.cell.update(by) {
            Ok(()) => {
                self.active = true;
                Ok(())
            }
            Err(refused) => Err(refused),
        }
    }

    /// Resets the cell if its kind is reset. The series is idle in each case.
    fn reset(&mut self, reset: Reset)
        ensures value { value_of self.new.cell ≡ (if resets reset (kind_of_value (value_of self.old.cell))
            then new_value (kind_of_value (value_of self.old.cell)) else value_of self.old.cell) }
        ensures stays { spot self.new ≡ spot self.old }
        ensures idle { self.new.active ≡ false }
    {
        self.cell.reset(reset);
        self.active = false;
    }
}

/// Returns the unit and the text that a name is described with, if any. It shares the text, and tries the place first.
fn told_of(
    descriptions: &Descriptions,
    kind: MetricKind,
    name: &str,
    place: u32,
) -> Result<(Option<Unit>, Option<SharedText>), AllocError>
    ensures { IfOk result (λ d. record { unit = d.0; text = d.1 } ≡ described_by descriptions.now kind name.now) }
{
    match descriptions.get_from(kind, name, place) {
        Some(described) => Ok((described.unit(), Some(described.shared_text()?))),
        None => Ok((None, None)),
    }
}

/// The series of a book in order of first registration, and the number of each by kind and key.
#[derive(Drop)]
pub(crate) struct SeriesList {
    numbers: PerKind<Cells<Key, usize>>,
    series: Vec<Stored>,
    ghost agree: { Agrees numbers (map spot series.items) },
}

impl SeriesList {
    ghost use Rattle.metrics_debugging.specs.DebuggingOrder.{series_of, activity_of};

    /// Makes a list without series. It allocates nothing yet.
    pub fn new(alloc: Global) -> SeriesList
        ensures series { series_of result ≡ [] }
        ensures active { activity_of result ≡ [] }
    {
        SeriesList {
            numbers: PerKind {
                counter: Cells::new(alloc),
                gauge: Cells::new(alloc),
                histogram: Cells::new(alloc),
            },
            series: Vec::new(alloc),
        }
    }

    /// Returns the number of the series of a key.
    pub fn find(&self, kind: MetricKind, key: &Key) -> Option<usize>
        ensures { result ≡ position (is_of (series_key kind key.now)) (series_of self.now) }
    {
        self.numbers.of(kind).get(key).copied()
    }

    /// Adds a series of a key that has none, with where to look first for its description. Returns its number.
    pub fn add(
        &mut self,
        alloc: Global,
        kind: MetricKind,
        key: &Key,
        description: u32,
    ) -> Result<usize, Refused>
        requires { position (is_of (series_key kind key.now)) (series_of self.old) ≡ None }
        ensures number { IfOk result (λ s. s ≡ length (series_of self.old)) }
        ensures ok { OnOk result (series_of self.new ≡ series_of self.old ++ new_series (series_key kind key.now) ∷ []) }
        ensures err { OnErr result (series_of self.new ≡ series_of self.old) }
        ensures active { MatchResult result (λ _. activity_of self.new ≡ activity_of self.old ++ true ∷ [])
            (λ _. activity_of self.new ≡ activity_of self.old) }
        ensures memory { IfErr result (λ e. e ≡ Memory 0) }
    {
        let number = self.series.len();
        self.series.reserve(1)?;
        let cell = Cell::new(alloc, kind);
        let numbers = self.numbers.of_mut(kind);
        match numbers.insert(key, number) {
            Ok(place) => {
                self.series.push_reserved(Stored {
                    cell,
                    place,
                    description,
                    active: true,
                });
                Ok(number)
            }
            Err(_) => Err(Refused::Memory { acted: 0 }),
        }
    }

    /// Notes that a series was registered again.
    pub fn touch(&mut self, series: usize)
        ensures series { series_of self.new ≡ series_of self.old }
        ensures active { activity_of self.new ≡ active_at series (activity_of self.old) }
    {
        if series < self.series.len() {
            self.series[series].active = true;
        }
    }

    /// Returns the kind of a series.
    pub fn kind_at(&self, series: usize) -> Option<MetricKind>
        ensures { result ≡ option_map (λ s. s.key.kind) (slice_get (series_of self.now) series) }
    {
        if series >= self.series.len() {
            return None;
        }
        Some(self.series[series].cell.kind())
    }

    /// Updates a series.
    pub fn update(&mut self, series: usize, by: Update) -> Result<(), Refused>
        ensures updates { UpdatesAt (series_of self.old) (series_of self.new) series by result }
        ensures active { MatchResult result (λ _. activity_of self.new ≡ active_at series (activity_of self.old))
            (λ _. activity_of self.new ≡ activity_of self.old) }
    {
        if series >= self.series.len() {
            return Err(Refused::NoSuchAddress);
        }
        self.series[series].update(by)
    }

    /// The row of a series of this book.
    fn row(&self, stored: &Stored, descriptions: &Descriptions) -> Result<Row, Refused>
        requires { IsWithin self.now.numbers (spot stored.now) }
        ensures ok { IfOk result (λ r. r ≡ row_of (content_of [] [] descriptions.now) (series_at self.now.numbers stored.now)) }
        ensures memory { IfErr result (λ e. e ≡ Memory 0) }
    {
        let kind = stored.cell.kind();
        let Some((key, _number)) = self.numbers.of(kind).at(stored.place) else {
            unreachable!()
        };
        let value = stored.cell.value()?;
        let (unit, text) = told_of(descriptions, kind, key.name(), stored.description)?;
        let key = CompositeKey::new(kind, key.clone()?);
        Ok((key, unit, text, value))
    }

    /// Returns the rows of the book.
    pub fn rows(&self, alloc: Global, descriptions: &Descriptions) -> Result<Vec<Row>, Refused>
        ensures ok { IfOk result (λ v. v.items ≡ map (row_of (content_of [] [] descriptions.now)) (series_of self.now)) }
        ensures memory { IfErr result (λ e. e ≡ Memory 0) }
    {
        let mut rows = Vec::with_capacity(alloc, self.series.len())?;
        for stored in &self.series {
            rows.push(self.row(stored, descriptions)?)?;
        }
        Ok(rows)
    }

    /// Returns for each series whether it was registered or updated since the last successful snapshot.
    pub fn activity(&self, alloc: Global) -> Result<Vec<bool>, Refused>
        ensures ok { IfOk result (λ v. v.items ≡ activity_of self.now) }
        ensures memory { IfErr result (λ e. e ≡ Memory 0) }
    {
        let mut active = Vec::with_capacity(alloc, self.series.len())?;
        for stored in &self.series {
            active.push(stored.active)?;
        }
        Ok(active)
    }

    /// Resets each series of the kinds that are reset. All of them are idle then.
    pub fn reset(&mut self, reset: Reset)
        ensures series { series_of self.new ≡ map (after_reset reset) (series_of self.old) }
        ensures idle { activity_of self.new ≡ map idle (activity_of self.old) }
    {
        for series in 0..self.series.len() {
            self.series[series].reset(reset);
        }
    }
}
