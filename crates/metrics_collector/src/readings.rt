//! The series of a collector, and their readings: which series are shown, and which leave.
ghost use Rattle.std.specs.Prelude.{◌≡◌, ◌⊎◌, ℕ, true, false, None, OnOk, IfOk, IfErr, if◌then◌else◌};
ghost use Rattle.std.specs.Arc.{arc_value};
ghost use Rattle.std.specs.Fn.{FnOnceReturnsAt};
ghost use Rattle.metrics.specs.declared.error.Error.TheVariants.{Memory as OutOfMemory, BadShards as NotShards};
ghost use Rattle.metrics_names.specs.Names.{KeyParts, key_eq};
ghost use Rattle.metrics_names.specs.declared.kind.MetricKind.{MetricKind as AnyKind};
ghost use Rattle.metrics_registry.specs.Held.{is_shard_count as is_count};
ghost use Rattle.metrics_registry.specs.Recency.{table_answer};
ghost use Rattle.metrics_registry.specs.RecencyEntries.{rules_of, table_of, check_of};
ghost use Rattle.metrics_collector.specs.Gathering.{AddsRow, IsUnread};

mod counters;
mod removal;

use crate::cells::{
    CollectorCells, CounterHandle, GaugeHandle, HistogramHandle, Seen, SharedCell, Watched,
};
use crate::epoch::Epoch;
use crate::gathered::{Gathered, GatheredSeries};
use crate::rows::Rows;
use metrics::{Error, Key, MetricKind, MetricKindMask};
use metrics_counts::CountNotes;
use metrics_exporter::Bounds;
use metrics_registry::{Generation, OwnedRecency};
use metrics_shared_registry::Registry;
use std::alloc::Global;
use std::marker::PhantomData;
use std::sync::{Arc, Mutex, Wait};

/// What becomes of a series that was looked at.
#[derive(Clone, Copy, Debug, PartialEq, Eq)]
enum Fate {
    /// It is in use, and shown.
    Shown,
    /// It isn't shown until it changes: it is idle, but some thread has a handle.
    Hidden,
    /// It is idle, and it seems that no thread has a handle.
    Gone,
}

ghost use Rattle.metrics_collector.specs.Fates.{fate_of, IsKeptOrGone};

/// Checks a series once.
fn look(
    recency: &mut OwnedRecency<Key>,
    kind: MetricKind,
    key: &Key,
    generation: Generation,
    has_clones: bool,
    now: u64,
) -> Result<Fate, Error>
    ensures rules { rules_of recency.new ≡ rules_of recency.old }
    ensures fate { IfOk result (λ fate. fate ≡ fate_of (table_answer (rules_of recency.old)
        (check_of kind key.now generation now true) (table_of key_eq recency.old)) has_clones) }
    ensures err { IfErr result (λ e. e ≡ OutOfMemory) }
{
    if recency.note(kind, key, generation, now)? {
        return Ok(Fate::Shown);
    }
    if has_clones {
        return Ok(Fate::Hidden);
    }
    Ok(Fate::Gone)
}

/// Returns whether a series is idle, and forgets it.
fn is_idle(
    recency: &mut OwnedRecency<Key>,
    kind: MetricKind,
    key: &Key,
    generation: Generation,
    now: u64,
) -> bool
    ensures rules { rules_of recency.new ≡ rules_of recency.old }
    ensures idle { result ≡ true → table_answer (rules_of recency.old)
        (check_of kind key.now generation now true) (table_of key_eq recency.old) ≡ false }
    ensures notes { (k : AnyKind) (q : KeyParts)
        → IsKeptOrGone (table_of key_eq recency.old k q) (table_of key_eq recency.new k q) }
    ensures forgotten { table_of key_eq recency.new kind key.now ≡ None }
{
    let stays = recency.note(kind, key, generation, now).unwrap_or(true);
    recency.forget(kind, key);
    !stays
}

/// A series of a kind that seems to leave.
#[derive(Drop)]
struct Idle<C> {
    key: Key,
    of: PhantomData<C>,
}

/// Returns whether a series leaves: nobody else holds its cell, and at the generation that the cell then has it is idle. It notes
/// nothing. If nobody else holds the cell it forgets the series, also one that stays: so what changed since the last look is
/// shown by the next reading.
fn leaves<W: Wait, C: Watched>(
    rt: &W,
    recency: &mut OwnedRecency<Key>,
    idle: &Idle<C>,
    cell: &mut Arc<C::Cell>,
    now: u64,
) -> bool
    ensures rules { rules_of recency.new ≡ rules_of recency.old }
    ensures alone { result ≡ true → (generation : ℕ) × C.Cell.is_last (arc_value cell.old) generation
        × (table_answer (rules_of recency.old) (check_of C.kind_held idle.now.key generation now true)
        (table_of key_eq recency.old) ≡ false) }
    ensures notes { (k : AnyKind) (q : KeyParts)
        → IsKeptOrGone (table_of key_eq recency.old k q) (table_of key_eq recency.new k q) }
    ensures forgotten { result ≡ true → table_of key_eq recency.new C.kind_held idle.now.key ≡ None }
    ensures same { cell.new ≡ cell.old }
{
    match Arc::get_mut(cell) {
        Some(alone) => is_idle(
            recency,
            C::kind(),
            &idle.key,
            alone.last_generation(rt),
            now,
        ),
        None => false,
    }
}

/// A kind of series of a registry.
///
/// The type of what is found idle decides which series may be shown to it: those of another kind have another type.
trait Kind: Drop {
    /// Looks at each series of the kind.
    fn visit<W: Wait>(
        registry: &Registry<Key, CollectorCells>,
        rt: &W,
        readings: &mut Readings,
        reading: &mut Reading,
        found: &mut Vec<Idle<Self>>,
    );

    /// Looks again at a series of the kind, with its shard locked, and removes it if it leaves.
    fn remove<W: Wait>(
        registry: &Registry<Key, CollectorCells>,
        rt: &W,
        readings: &mut Readings,
        idle: &Idle<Self>,
        now: u64,
    );
}

impl Kind for GaugeHandle {
    fn visit<W: Wait>(
        registry: &Registry<Key, CollectorCells>,
        rt: &W,
        readings: &mut Readings,
        reading: &mut Reading,
        found: &mut Vec<Idle<GaugeHandle>>,
    ) {
        registry.visit_gauges(
            rt,
            |key, cell| readings.gather(rt, reading, found, key, cell),
        );
    }

    fn remove<W: Wait>(
        registry: &Registry<Key, CollectorCells>,
        rt: &W,
        readings: &mut Readings,
        idle: &Idle<GaugeHandle>,
        now: u64,
    ) {
        let recency = &mut readings.recency;
        let leaves = |cell: &mut GaugeHandle| -> bool
            ensures { cell.new ≡ cell.old }
        { leaves(rt, recency, idle, &mut cell.cell, now) };
        registry.remove_gauge_if(rt, &idle.key, leaves);
    }
}

impl Kind for HistogramHandle {
    fn visit<W: Wait>(
        registry: &Registry<Key, CollectorCells>,
        rt: &W,
        readings: &mut Readings,
        reading: &mut Reading,
        found: &mut Vec<Idle<HistogramHandle>>,
    ) {
        registry.visit_histograms(
            rt,
            |key, cell| readings.gather(rt, reading, found, key, cell),
        );
    }

    fn remove<W: Wait>(
        registry: &Registry<Key, CollectorCells>,
        rt: &W,
        readings: &mut Readings,
        idle: &Idle<HistogramHandle>,
        now: u64,
    ) {
        let recency = &mut readings.recency;
        let leaves = |cell: &mut HistogramHandle| -> bool
            ensures { cell.new ≡ cell.old }
        { leaves(rt, recency, idle, &mut cell.cell, now) };
        registry.remove_histogram_if(rt, &idle.key, leaves);
    }
}

/// Shows that each series of a kind was visited, and what was found idle was looked at again. Only `Readings::walk` makes one.
#[derive(Drop)]
struct Walked<C> {
    of: PhantomData<C>,
}

/// What one reading finds.
#[derive(Drop)]
struct Reading {
    now: u64,
    rows: Rows,
    /// Whether an idle series stays since some thread has a handle.
    has_held_idle: bool,
    /// Why it gathers no more.
    refused: Option<Error>,
}

impl Reading {
    /// Returns what was read, once each kind was walked.
    fn finish(
        self,
        _counters: Walked<CounterHandle>,
        _gauges: Walked<GaugeHandle>,
        _histograms: Walked<HistogramHandle>,
    ) -> (Gathered, Option<Error>) {
        let series = self.rows.into_vec();
        (Gathered { series }, self.refused)
    }
}

/// The notes of all readings of a registry. Whoever reads has them for itself until it ends.
#[derive(Drop)]
struct Readings {
    alloc: Global,
    /// The kinds of which idle series leave.
    watched: MetricKindMask,
    /// Of counters.
    counts: CountNotes<Key>,
    /// Of gauges and histograms.
    recency: OwnedRecency<Key>,
}

impl Readings {
    /// Begins without notes. A series of a kind in the mask is idle if it kept its generation for longer than the timeout.
    fn new(alloc: Global, mask: MetricKindMask, idle_timeout: Option<u64>) -> Readings {
        let watched = match idle_timeout {
            Some(_) => mask,
            None => MetricKindMask::NONE,
        };
        let is_watched = watched.matches(MetricKind::Counter);
        let timeout = if is_watched { idle_timeout } else { None };
        Readings {
            alloc,
            watched,
            counts: CountNotes::new(alloc, timeout),
            recency: OwnedRecency::new(alloc, mask, idle_timeout),
        }
    }

    /// Reads a cell once. A series is looked at with the generation that it then had, unless no timeout asks for one.
    fn look_at<W: Wait, C: Watched>(
        &mut self,
        rt: &W,
        reading: &mut Reading,
        found: &mut Vec<Idle<C>>,
        key: &Key,
        cell: &C,
    ) -> Result<(), Error>
        ensures shown { OnOk result (AddsRow C.kind_held key.now reading.old.rows reading.new.rows
            ⊎ ((reading.new.rows ≡ reading.old.rows) × (generation : ℕ) × (table_answer (rules_of self.old.recency)
            (check_of C.kind_held key.now generation reading.old.now true) (table_of key_eq self.old.recency) ≡ false))) }
    {
        if !self.watched.matches(C::kind()) {
            return Ok(reading.rows.push(key, cell.held(rt)?)?);
        }
        let has_clones = Arc::strong_count(cell.shared()) > 1;
        let Seen { generation, value } = cell.seen(rt)?;
        let recency = &mut self.recency;
        match look(recency, C::kind(), key, generation, has_clones, reading.now)? {
            Fate::Shown => {
                if let Err(refused) = reading.rows.push(key, value) {
                    // The next reading finds it new.
                    recency.forget(C::kind(), key);
                    return Err(Error::from(refused));
                }
            }
            Fate::Hidden => reading.has_held_idle = true,
            Fate::Gone => found.push(Idle {
                key: key.clone()?,
                of: PhantomData,
            })?,
        }
        Ok(())
    }

    /// Adds a series to the reading if it is shown, and to what was found idle if it seems to leave.
    fn gather<W: Wait, C: Watched>(
        &mut self,
        rt: &W,
        reading: &mut Reading,
        found: &mut Vec<Idle<C>>,
        key: &Key,
        cell: &C,
    ) {
        if reading.refused.is_none() {
            reading.refused = self.look_at(rt, reading, found, key, cell).err();
        }
    }

    /// Walks over the series of one kind, while others may use the registry. Then it looks again at those that seem to leave,
    /// each with its shard locked, and removes them.
    fn walk<W: Wait, C: Kind>(
        &mut self,
        rt: &W,
        registry: &Registry<Key, CollectorCells>,
        reading: &mut Reading,
    ) -> Walked<C> {
        let mut found = Vec::new(self.alloc);
        C::visit(registry, rt, self, reading, &mut found);
        for idle in &found {
            C::remove(registry, rt, self, idle, reading.now);
        }
        Walked { of: PhantomData }
    }

    /// Reads each cell once, into the memory of these rows, and removes idle series that nobody holds. Ends the epoch if an
    /// idle series stays.
    fn read<W: Wait>(
        &mut self,
        rt: &W,
        registry: &Registry<Key, CollectorCells>,
        epoch: &Epoch,
        now: u64,
        rows: Vec<GatheredSeries>,
    ) -> Result<Gathered, Error> {
        let mut reading = Reading {
            now,
            rows: Rows::reusing(rows),
            has_held_idle: false,
            refused: None,
        };
        let counters = self.walk(rt, registry, &mut reading);
        let gauges = self.walk(rt, registry, &mut reading);
        let histograms = self.walk(rt, registry, &mut reading);
        if reading.has_held_idle {
            epoch.end();
        }
        let (gathered, refused) = reading.finish(counters, gauges, histograms);
        match refused {
            None => Ok(gathered),
            Some(error) => {
                self.forget_all(&gathered);
                Err(error)
            }
        }
    }

    /// Forgets series that were gathered for a text that nobody saw, so that the next reading finds them new.
    fn forget_all(&mut self, gathered: &Gathered) {
        for one in &gathered.series {
            self.show_again(one.kind(), &one.key);
        }
    }

    /// Has the next reading show a series, though it may be as before.
    fn show_again(&mut self, kind: MetricKind, key: &Key) {
        match kind {
            MetricKind::Counter => self.counts.show_again(key),
            MetricKind::Gauge | MetricKind::Histogram => self.recency.forget(kind, key),
        }
    }

    /// Forgets a series that is removed.
    fn forget(&mut self, kind: MetricKind, key: &Key) {
        match kind {
            MetricKind::Counter => self.counts.forget(key),
            MetricKind::Gauge | MetricKind::Histogram => self.recency.forget(kind, key),
        }
    }
}

/// The series of a collector by their keys, and what its readings noted of them.
///
/// Nothing outside this module reaches the registry or the notes. So a series that leaves has passed `leaves`.
#[derive(Drop)]
pub(crate) struct Series {
    registry: Registry<Key, CollectorCells>,
    readings: Mutex<Readings>,
    epoch: Epoch,
}

impl Series {
    ghost use Rattle.metrics_collector.specs.Series.{counter_key, gauge_key, histogram_key};

    /// Begins without series, in this many shards, a power of two from 1 to 1,024.
    pub fn new(
        alloc: Global,
        shards: usize,
        mask: MetricKindMask,
        idle_timeout: Option<u64>,
        bounds: Bounds,
    ) -> Result<Series, Error>
        ensures ok { IfOk result (λ s. s.registry.storage.bounds ≡ bounds) }
        ensures err { IfErr result (λ e. e ≡ (if is_count shards then OutOfMemory else NotShards)) }
    {
        let registry = Registry::new(alloc, CollectorCells::new(alloc, bounds), shards)?;
        Ok(Series {
            registry,
            readings: Mutex::new(Readings::new(alloc, mask, idle_timeout)),
            epoch: Epoch::new(),
        })
    }

    /// Returns the number of the epoch.
    #[inline(always)]
    pub fn epoch(&self) -> u64 {
        self.epoch.number()
    }

    /// Lets each histogram that is made from then on have up to this many parts.
    pub fn set_stripes(&self, stripes: usize) {
        self.registry.storage().set_stripes(stripes);
    }

    /// Calls `op` once on the cell of a counter, and returns its result. The cell is made if the key isn't held.
    pub fn on_counter<W: Wait, V, F: FnOnce(&CounterHandle) -> V + Drop>(
        &self,
        rt: &W,
        key: &Key,
        op: F,
    ) -> Result<V, Error>
        requires { F.IsAlwaysCallable op }
        ensures called { IfOk result (λ v. (h : CounterHandle) × (counter_key h ≡ key.now)
            × FnOnceReturnsAt F.FnOnce op h v) }
        ensures err { IfErr result (λ e. e ≡ OutOfMemory) }
    {
        self.registry.get_or_create_counter(rt, key, op)
    }

    /// Calls `op` once on the cell of a gauge, and returns its result. The cell is made if the key isn't held.
    pub fn on_gauge<W: Wait, V, F: FnOnce(&GaugeHandle) -> V + Drop>(
        &self,
        rt: &W,
        key: &Key,
        op: F,
    ) -> Result<V, Error>
        requires { F.IsAlwaysCallable op }
        ensures called { IfOk result (λ v. (h : GaugeHandle) × (gauge_key h ≡ key.now)
            × FnOnceReturnsAt F.FnOnce op h v) }
        ensures err { IfErr result (λ e. e ≡ OutOfMemory) }
    {
        self.registry.get_or_create_gauge(rt, key, op)
    }

    /// Calls `op` once on the cell of a histogram, and returns its result. The cell is made if the key isn't held.
    pub fn on_histogram<W: Wait, V, F: FnOnce(&HistogramHandle) -> V + Drop>(
        &self,
        rt: &W,
        key: &Key,
        op: F,
    ) -> Result<V, Error>
        requires { F.IsAlwaysCallable op }
        ensures called { IfOk result (λ v. (h : HistogramHandle) × (histogram_key h ≡ key.now)
            × FnOnceReturnsAt F.FnOnce op h v) }
        ensures err { IfErr result (λ e. e ≡ OutOfMemory) }
    {
        self.registry.get_or_create_histogram(rt, key, op)
    }

    /// Reads each cell once, into the memory of these rows, and removes idle series that nobody holds.
    pub fn read<W: Wait>(
        &self,
        rt: &W,
        now: u64,
        rows: Vec<GatheredSeries>,
    ) -> Result<Gathered, Error>
        ensures { IfErr result IsUnread }
    {
        let mut readings = self.readings.lock(rt);
        match readings.read(rt, &self.registry, &self.epoch, now, rows) {
            Ok(gathered) => Ok(gathered),
            Err(Error::CountFull) => Err(Error::CountFull),
            Err(_) => Err(Error::Memory),
        }
    }

    /// Forgets series that were gathered for a text that nobody saw, so that the next reading finds them new.
    pub fn forget_all<W: Wait>(&self, rt: &W, gathered: &Gathered) {
        self.readings.lock(rt).forget_all(gathered);
    }
}
