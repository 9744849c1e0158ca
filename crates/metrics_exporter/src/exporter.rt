//! An exporter of series as text.
ghost use Rattle.std.specs.Prelude.{◌≡◌, ◌↔◌, ◌+◌, ◌<◌, ◌++◌, ◌∷◌, ℕ, List, Option as Maybe};
ghost use Rattle.std.specs.Prelude.{[], true, length, if◌then◌else◌, string_bytes, Ok, Err, None, IfOk, IfErr, OnOk};
ghost use Rattle.std.specs.Prelude.{MatchResult, OnErr, ◌⊎◌, nat_lt, min, is_some};
ghost use Rattle.metrics.specs.declared.error.Error.TheVariants.{Memory as OutOfMemory, BadShards as NotShards};
ghost use Rattle.metrics.specs.declared.error.Error.TheVariants.{NoBounds as WithoutBounds, CountFull as Full};
ghost use Rattle.metrics.specs.Layers.{mask_has};
ghost use Rattle.metrics_names.specs.declared.common.Unit.{Unit as Measure};
ghost use Rattle.metrics_names.specs.Names.{KeyParts, SeriesKey};
ghost use Rattle.metrics_registry.specs.Held.{is_shard_count as is_count};
ghost use Rattle.metrics_registry.specs.Idleness.{Answered};
ghost use Rattle.metrics_exporter.specs.Exporting.{Setup, Log, updates, expires, steps, IsFull, IsExpiry, IsHeldNumber};
ghost use Rattle.metrics_exporter.specs.Exporting.{updates_in, cells_after, series_of, HoldsSome};
ghost use Rattle.metrics_exporter.specs.Gathering.{series_at};
ghost use Rattle.metrics.specs.Book.{no_description};
ghost use Rattle.metrics_descriptions.specs.Legends.{DescribesName, described_by};
ghost use Rattle.metrics_exporter.specs.Describing.{unit_told};
ghost use Rattle.metrics_exporter.specs.ExporterText.{IsText};
ghost use Rattle.metrics_exporter.specs.Readings.{AreReadings, all_read};

use crate::bounds::Bounds;
use crate::cells::{CountedCells, UnitSource};
use crate::changes::{remove_series, update_cells};
use crate::expiring::check_all;
use crate::keys::{held_number, held_series, is_held, key_order, sorted_series};
use crate::lines::write_series;
use crate::series::SeriesRef;
use metrics::{CompositeKey, Error, Key, MetricKind, MetricKindMask, Unit, Update};
use metrics_descriptions::Descriptions;
use metrics_registry::{OwnedRecency, OwnedRegistry, is_shard_count, recency_law};
use std::alloc::Global;

/// Series by kind and key. It writes their values as text, and removes idle ones.
#[derive(Drop)]
pub struct Exporter {
    alloc: Global,
    registry: OwnedRegistry<Key, CountedCells>,
    recency: OwnedRecency<Key>,
    descriptions: Descriptions,
}

impl Exporter {
    ghost use Rattle.metrics_exporter.specs.Kept.{IsAfter, held_cells, described, KeepsSetting};
    ghost use Rattle.metrics_exporter.specs.Stepping.{cells_without};
    ghost use Rattle.metrics_exporter.specs.Choice.{bounds_in};

    /// Makes an exporter without series. Its registry has so many shards, a power of two from 1 to 1,024. Its histograms count
    /// at the bounds, of which there has to be one.
    ///
    /// `expire` removes a series of a kind of the mask that has kept its generation over checks further apart than the timeout.
    /// Without a timeout it removes none. The timeout and the moments are in one unit of the caller's choice.
    pub fn new(
        alloc: Global,
        shards: usize,
        mask: MetricKindMask,
        idle_timeout: Option<u64>,
        bounds: &[i64],
    ) -> Result<Exporter, Error>
        ensures ok { IfOk result (IsAfter (record {
          bounds = λ unit name. bounds.now;
          rules = record { timeout = idle_timeout; mask = λ kind. mask_has kind mask };
        }) []) }
        ensures shards { IfOk result (λ e. e.registry.count ≡ shards) }
        ensures undescribed { IfOk result (λ e. (kind : _) (name : _) → described e kind name ≡ no_description) }
        ensures asked { OnOk result ((is_count shards ≡ true) × (0 < length bounds.now)) }
        ensures err { IfErr result (λ e. e ≡
            (if is_count shards then (if nat_lt 0 (length bounds.now) then OutOfMemory else WithoutBounds) else NotShards)) }
    {
        if !is_shard_count(shards) {
            return Err(Error::BadShards);
        }
        let bounds = Bounds::new(alloc, bounds)?;
        Exporter::with_bounds(alloc, shards, mask, idle_timeout, bounds)
    }

    /// Makes an exporter as `new` does, whose histograms count at the bounds of their names and units.
    pub fn with_bounds(
        alloc: Global,
        shards: usize,
        mask: MetricKindMask,
        idle_timeout: Option<u64>,
        bounds: Bounds,
    ) -> Result<Exporter, Error>
        ensures ok { IfOk result (IsAfter (record {
          bounds = bounds_in bounds;
          rules = record { timeout = idle_timeout; mask = λ kind. mask_has kind mask };
        }) []) }
        ensures shards { IfOk result (λ e. e.registry.count ≡ shards) }
        ensures undescribed { IfOk result (λ e. (kind : _) (name : _) → described e kind name ≡ no_description) }
        ensures asked { OnOk result (is_count shards ≡ true) }
        ensures err { IfErr result (λ e. e ≡ (if is_count shards then OutOfMemory else NotShards)) }
    {
        recency_law::<Key>();
        let registry = OwnedRegistry::new(alloc, CountedCells::new(bounds), shards)?;
        let recency = OwnedRecency::new(alloc, mask, idle_timeout);
        Ok(Exporter {
            alloc,
            registry,
            recency,
            descriptions: Descriptions::new(alloc),
        })
    }

    /// Updates the series of the key and of the update's own kind, and makes it if it isn't held.
    ///
    /// A call that fails changes nothing. It fails with `Error::Memory` only if the series isn't held, and with
    /// `Error::CountFull` if the count of a histogram's samples would pass 2^64 - 1.
    pub fn update(&mut self, key: &Key, by: Update) -> Result<(), Error>
        ensures calls { (setup : Setup) (log : Log) → IsAfter setup log self.old
            → IsAfter setup (log ++ updates key.now by result ∷ []) self.new }
        ensures full { (setup : Setup) (log : Log) → IsAfter setup log self.old
            → (result ≡ Err Full) ↔ IsFull (steps log) key.now by }
        ensures absent { (setup : Setup) (log : Log) → IsAfter setup log self.old → result ≡ Err OutOfMemory
            → cells_after setup (steps log) (series_of key.now by) ≡ None }
        ensures shards { self.new.registry.count ≡ self.old.registry.count }
        ensures descriptions { described self.new ≡ described self.old }
        ensures err { IfErr result (λ e. ((e ≡ OutOfMemory) ⊎ (e ≡ Full)) × (self.new ≡ self.old)) }
    {
        self.update_in(None, key, by)
    }

    /// Updates as `update` does. A histogram that it makes counts at the bounds of this unit, unless those of its name are
    /// others. It keeps its bounds until `expire` removes it, whatever the units of later updates.
    pub fn update_in(&mut self, unit: Option<Unit>, key: &Key, by: Update) -> Result<(), Error>
        ensures calls { (setup : Setup) (log : Log) → IsAfter setup log self.old
            → IsAfter setup (log ++ updates_in unit key.now by result ∷ []) self.new }
        ensures full { (setup : Setup) (log : Log) → IsAfter setup log self.old
            → (result ≡ Err Full) ↔ IsFull (steps log) key.now by }
        ensures absent { (setup : Setup) (log : Log) → IsAfter setup log self.old → result ≡ Err OutOfMemory
            → cells_after setup (steps log) (series_of key.now by) ≡ None }
        ensures shards { self.new.registry.count ≡ self.old.registry.count }
        ensures descriptions { described self.new ≡ described self.old }
        ensures err { IfErr result (λ e. ((e ≡ OutOfMemory) ⊎ (e ≡ Full)) × (self.new ≡ self.old)) }
    {
        update_cells(&mut self.registry, &UnitSource::Given(unit), key, by)
    }

    /// Updates as `update_in` does, in the unit that the name has by its description, if any. It looks that up only where it
    /// makes a histogram.
    pub fn update_described(&mut self, key: &Key, by: Update) -> Result<(), Error>
        ensures calls { (setup : Setup) (log : Log) → IsAfter setup log self.old
            → IsAfter setup (log ++ updates_in (unit_told (described self.old) key.now by) key.now by result ∷ []) self.new }
        ensures full { (setup : Setup) (log : Log) → IsAfter setup log self.old
            → (result ≡ Err Full) ↔ IsFull (steps log) key.now by }
        ensures absent { (setup : Setup) (log : Log) → IsAfter setup log self.old → result ≡ Err OutOfMemory
            → cells_after setup (steps log) (series_of key.now by) ≡ None }
        ensures shards { self.new.registry.count ≡ self.old.registry.count }
        ensures descriptions { described self.new ≡ described self.old }
        ensures err { IfErr result (λ e. ((e ≡ OutOfMemory) ⊎ (e ≡ Full)) × (self.new ≡ self.old)) }
    {
        let source = UnitSource::Described(&self.descriptions);
        update_cells(&mut self.registry, &source, key, by)
    }

    /// Returns the bounds that its histograms are made at.
    pub fn bounds(&self) -> &Bounds
        ensures { (setup : Setup) (log : Log) → IsAfter setup log self.now
            → (unit : Maybe Measure) (name : List ℕ) → bounds_in result.now unit name ≡ setup.bounds unit name }
    {
        self.registry.storage().bounds()
    }

    /// Checks every series that is held, and removes those that are idle. Returns how many.
    ///
    /// The checks are as if made in composite key order. It makes all, whose order can't be seen, so it sorts no series; or none,
    /// and a call that fails changes nothing. It never fails if no series is held. Without a timeout it looks at none. It
    /// allocates only for series that are idle, or that it sees for the first time.
    pub fn expire(&mut self, now: u64) -> Result<usize, Error>
        ensures expired { (setup : Setup) (log : Log) → IsAfter setup log self.old →
            (checks : List (Answered KeyParts)) × IsExpiry setup (steps log) now checks result
            × IsAfter setup (log ++ expires now checks result ∷ []) self.new }
        ensures refused { OnErr result
            ((setup : Setup) (log : Log) → IsAfter setup log self.old → IsAfter setup log self.new) }
        ensures shards { self.new.registry.count ≡ self.old.registry.count }
        ensures descriptions { described self.new ≡ described self.old }
    {
        key_order();
        let held = held_number(&self.registry);
        if held == 0 {
            return Ok(0);
        }
        if !self.recency.has_timeout() {
            return Ok(0);
        }
        let idle = check_all(self.alloc, &self.registry, &mut self.recency, now)?;
        self.remove_all(&idle);
        Ok(idle.len())
    }

    /// Removes series, and leaves their notes.
    fn remove_all(&mut self, idle: &[CompositeKey])
        ensures cells { (s : SeriesKey) → held_cells self.new s ≡ cells_without idle.now (held_cells self.old) s }
        ensures storage { KeepsSetting self.old.registry self.new.registry }
        ensures rest { (self.new.recency ≡ self.old.recency) × (self.new.descriptions ≡ self.old.descriptions) }
    {
        for series in idle {
            remove_series(&mut self.registry, series);
        }
    }

    /// Replaces the text of a name of this kind, and the unit if there is a new one, whether or not a series of that name is
    /// held. No expiry removes it. A call that fails changes nothing. Repeating a description allocates nothing.
    pub fn describe(
        &mut self,
        kind: MetricKind,
        name: &str,
        unit: Option<Unit>,
        text: &str,
    ) -> Result<(), Error>
        ensures ok { OnOk result (DescribesName kind name.now unit text.now (described self.old) (described self.new)) }
        ensures err { OnErr result ((kind : _) (name : _) → described self.new kind name ≡ described self.old kind name) }
        ensures memory { IfErr result (λ e. e ≡ OutOfMemory) }
        ensures calls { (setup : Setup) (log : Log) → IsAfter setup log self.old → IsAfter setup log self.new }
        ensures shards { self.new.registry.count ≡ self.old.registry.count }
    {
        self.descriptions
            .describe(self.alloc, kind, name, unit, text)?;
        Ok(())
    }

    /// Returns the descriptions of names.
    pub fn descriptions(&self) -> &Descriptions
        ensures { (kind : _) (name : _) → described_by result.now kind name ≡ described self.now kind name }
    {
        &self.descriptions
    }

    /// Returns each held series once, by reference, in no order of its own. It never fails if none is held.
    pub fn readings(&self) -> Result<Vec<SeriesRef<'_>>, Error>
        ensures readings { MatchResult result (λ all. AreReadings (held_cells self.now) (all_read all.items))
            (λ e. e ≡ OutOfMemory) }
        ensures refused { OnErr result (HoldsSome (held_cells self.now)) }
    {
        held_series(self.alloc, &self.registry)
    }

    /// Writes a line for each series that is held, in composite key order. It never fails if none is held.
    pub fn text(&self) -> Result<String, Error>
        ensures text { (setup : Setup) (log : Log) → IsAfter setup log self.now →
            MatchResult result (λ text. IsText (cells_after setup (steps log)) (string_bytes text)) (λ e. e ≡ OutOfMemory) }
        ensures refused { (setup : Setup) (log : Log) → IsAfter setup log self.now →
            OnErr result (HoldsSome (cells_after setup (steps log))) }
    {
        let series = sorted_series(self.alloc, &self.registry)?;
        let mut text = String::new(self.alloc);
        for row in &series {
            write_series(&mut text, row)?;
        }
        Ok(text)
    }

    /// Returns whether a series of this kind and key is held.
    pub fn holds(&self, kind: MetricKind, key: &Key) -> bool
        ensures { (setup : Setup) (log : Log) → IsAfter setup log self.now
            → result ≡ is_some (cells_after setup (steps log) (series_at kind key.now)) }
    {
        is_held(&self.registry, kind, key)
    }

    /// Returns the number of series that are held, which is the number of lines of `text`. It allocates nothing.
    ///
    /// It saturates at 2^64 - 1, which no memory holds.
    pub fn len(&self) -> usize
        ensures { (setup : Setup) (log : Log) → IsAfter setup log self.now →
            (held : ℕ) × IsHeldNumber (cells_after setup (steps log)) held × (result ≡ min held usize.MAX) }
    {
        held_number(&self.registry)
    }
}
