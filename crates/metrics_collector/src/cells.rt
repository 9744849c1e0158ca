//! The cells of a collector, and the handles by which threads change them.
ghost use Rattle.std.specs.Prelude.{◌≡◌, [], IfOk, MatchResult};
ghost use Rattle.std.specs.Arc.{arc_value};
ghost use Rattle.metrics.specs.declared.error.Error.TheVariants.{Memory as OutOfMemory};
ghost use Rattle.metrics_names.specs.declared.kind.MetricKind.TheVariants.{Gauge as GaugeKind};
ghost use Rattle.metrics_names.specs.declared.kind.MetricKind.TheVariants.{Histogram as HistogramKind};

use crate::gathered::Value;
use crate::note::KeyNote;
use crate::parts::Parts;
use crate::quantiles::quantile_bound;
use metrics::{Error, Key, MetricKind};
use metrics_cells::{CounterFn, GaugeFn, HistogramFn, gauge_value};
use metrics_counts::CountCell;
use metrics_exporter::Bounds;
use metrics_registry::{Generation, Quantile, Storage};
use metrics_storage::Histogram;
use std::alloc::{AllocError, Global};
use std::sync::atomic::{AtomicBool, AtomicU64, AtomicUsize, Ordering};
use std::sync::{Arc, Wait};

/// A counter's cell, which any thread may keep and change. It is a `CounterFn` too.
///
/// An update is one locked instruction. The count itself shows activity, so an update that leaves it as it is shows none: an
/// increment by 0, or `absolute` of a value that isn't above the count. An increment adds its amount to a total once, and the
/// total never falls: the cell is a `CountCell`.
///
/// A handle has 8 bytes. It keeps its series in the collector: one that is kept for ever keeps some 240 bytes, and the key's
/// texts.
#[derive(Clone, Drop)]
pub struct CounterHandle {
    pub(crate) cell: Arc<CountCell<Key>>,
}

impl CounterHandle {
    ghost use Rattle.metrics_collector.specs.Series.{counter_key};

    /// Makes a handle of a cell that no collector has: nobody but its clones reads what it counts.
    ///
    /// It is of a key without a name. Fails only when out of memory, with `Error::Memory`.
    pub fn noop(alloc: Global) -> Result<CounterHandle, Error>
        ensures { MatchResult result (λ h. counter_key h ≡ record { name = []; labels = [] }) (λ e. e ≡ OutOfMemory) }
    {
        let (cells, key) = apart(alloc)?;
        cells.counter(&key)
    }

    /// Adds to the count once, modulo 2^64. An increment by 0 is no activity: it keeps no series from being idle.
    #[inline(always)]
    pub fn increment(&self, value: u64) {
        self.cell.increment(value);
    }

    /// Raises the count to the value, if it is below that. Otherwise it is no activity.
    #[inline(always)]
    pub fn absolute(&self, value: u64) {
        self.cell.absolute(value);
    }

    /// Returns the count at the moment.
    pub fn value(&self) -> u64 {
        self.cell.value()
    }
}

impl CounterFn for CounterHandle {
    #[inline(always)]
    fn increment(&self, value: u64) {
        self.increment(value);
    }

    #[inline(always)]
    fn absolute(&self, value: u64) {
        self.absolute(value);
    }
}

/// What the handles of a gauge share.
///
/// No update is missed. An update changes the value, and then sets the flag unless it finds it set. A reading takes the flag
/// away, and then reads the value. All these steps have one order. So the reading that takes the flag which an update set or
/// found comes after that update's change: it counts a change, and reads that value or a later one. In another order of the
/// two steps, on either side, a change could fall between them.
#[derive(Drop)]
pub(crate) struct GaugeCell {
    key: KeyNote,
    value: AtomicU64,
    /// Whether it was updated since a reading last took this away.
    is_changed: AtomicBool,
    /// How many readings found it updated, modulo 2^64. Only readings change it, one at a time.
    changes: AtomicU64,
}

impl GaugeCell {
    /// Notes an update that was made.
    fn note(&self) {
        if !self.is_changed.load(Ordering::SeqCst) {
            self.is_changed.store(true, Ordering::SeqCst);
        }
    }

    /// Returns how many readings found it updated, this one among them.
    fn changes(&self) -> u64 {
        if self.is_changed.swap(false, Ordering::SeqCst) {
            self.changes.fetch_add(1, Ordering::SeqCst);
        }
        self.changes.load(Ordering::SeqCst)
    }
}

/// A gauge's cell, which any thread may keep and change. It is a `GaugeFn` too.
///
/// Setting a gauge to the value that it has is activity too. So an update notes that there was one, which costs no atomic
/// change unless a reading was made since the last update.
///
/// A handle has 8 bytes. It keeps its series in the collector: one that is kept for ever keeps some 250 bytes, and the key's
/// texts.
#[derive(Clone, Drop)]
pub struct GaugeHandle {
    pub(crate) cell: Arc<GaugeCell>,
}

impl GaugeHandle {
    ghost use Rattle.metrics_collector.specs.Series.{gauge_key};

    /// Makes a handle of a cell that no collector has: nobody but its clones reads its value.
    ///
    /// It is of a key without a name. Fails only when out of memory, with `Error::Memory`.
    pub fn noop(alloc: Global) -> Result<GaugeHandle, Error>
        ensures { MatchResult result (λ h. gauge_key h ≡ record { name = []; labels = [] }) (λ e. e ≡ OutOfMemory) }
    {
        let (cells, key) = apart(alloc)?;
        cells.gauge(&key)
    }

    /// Adds to the value, and saturates at the ends of `i64`. It may have to try again while other threads change the cell.
    pub fn increment<W: Wait>(&self, rt: &W, value: i64) {
        GaugeFn::increment(&self.cell.value, rt, value);
        self.cell.note();
    }

    /// Subtracts from the value, and saturates at the ends of `i64`. It may have to try again while other threads change the
    /// cell.
    pub fn decrement<W: Wait>(&self, rt: &W, value: i64) {
        GaugeFn::decrement(&self.cell.value, rt, value);
        self.cell.note();
    }

    /// Replaces the value.
    pub fn set(&self, value: i64) {
        GaugeFn::set(&self.cell.value, value);
        self.cell.note();
    }

    /// Returns the value at the moment.
    pub fn value(&self) -> i64 {
        gauge_value(&self.cell.value)
    }
}

impl GaugeFn for GaugeHandle {
    fn increment<W: Wait>(&self, rt: &W, value: i64) {
        self.increment(rt, value);
    }

    fn decrement<W: Wait>(&self, rt: &W, value: i64) {
        self.decrement(rt, value);
    }

    fn set(&self, value: i64) {
        self.set(value);
    }
}

/// A histogram's cell, which any thread may keep and record into. It is a `HistogramFn` too.
///
/// No sample is lost: the cell has no room to run out of, and nothing has to drain it. The number of samples shows activity.
///
/// The samples are in parts, each under a lock of its own, and a handle records into one of them. The collector and `clone`
/// assign parts in turn. So give each thread a handle of its own: then they seldom wait for each other.
///
/// A handle has 16 bytes. It keeps its series in the collector: one that is kept for ever keeps some 420 bytes, 8 for each
/// bound, 8 for each further part that there may be, and the key's texts. Each further part has some 220 bytes and 8 for each
/// bound from its first sample on. The bounds themselves are in memory once, however many histograms have them.
#[derive(Drop)]
pub struct HistogramHandle {
    pub(crate) cell: Arc<Parts>,
    place: usize,
}

impl HistogramHandle {
    ghost use Rattle.metrics_collector.specs.Series.{histogram_key};

    /// Makes a handle of a cell that no collector has: nobody but its clones reads what it records. It has one part.
    ///
    /// It is of a key without a name. Fails only when out of memory, with `Error::Memory`.
    pub fn noop(alloc: Global) -> Result<HistogramHandle, Error>
        ensures { MatchResult result (λ h. histogram_key h ≡ record { name = []; labels = [] }) (λ e. e ≡ OutOfMemory) }
    {
        let (cells, key) = apart(alloc)?;
        cells.histogram(&key)
    }

    /// Records a sample. Fails with `Error::CountFull`, and records nothing, only if the count of its part would pass 2^64 - 1.
    ///
    /// It may wait for a thread that records into the same part or reads it.
    pub fn record<W: Wait>(&self, rt: &W, value: i64) -> Result<(), Error> {
        self.cell.record(rt, self.place, value)
    }

    /// Returns the number of samples at the moment, modulo 2^64. It allocates nothing.
    pub fn count<W: Wait>(&self, rt: &W) -> u64 {
        self.cell.count(rt)
    }

    /// Returns the sum of the samples at the moment. Fails as `read` does.
    pub fn sum<W: Wait>(&self, rt: &W) -> Result<i128, Error> {
        Ok(self.read(rt)?.sum())
    }

    /// Returns the least bound that the sample at a quantile is at most, at the moment, and `None` if that sample is above all
    /// bounds, or there is none (`quantile_bound`). Fails as `read` does.
    pub fn quantile_bound<W: Wait>(
        &self,
        rt: &W,
        quantile: &Quantile,
    ) -> Result<Option<i64>, Error> {
        quantile_bound(&self.read(rt)?, quantile)
    }

    /// Returns what the cell holds at the moment: count, sum and buckets, which agree. Fails with `Error::Memory`, or with
    /// `Error::CountFull` if there are more than 2^64 - 1 samples.
    pub fn read<W: Wait>(&self, rt: &W) -> Result<Histogram, Error> {
        self.cell.read(rt)
    }
}

/// A clone records into the next part.
impl Clone for HistogramHandle {
    ghost is_clone = { λ x y. arc_value y.cell ≡ arc_value x.cell };

    fn clone(&self) -> Result<HistogramHandle, AllocError> {
        let cell = self.cell.clone()?;
        let place = cell.next_place();
        Ok(HistogramHandle { cell, place })
    }
}

/// A sample is rejected, with `Error::CountFull`, only if the count of its part would pass 2^64 - 1.
impl HistogramFn for HistogramHandle {
    type Error = Error;

    fn record<W: Wait>(&self, rt: &W, value: i64) -> Result<(), Error> {
        self.record(rt, value)
    }
}

/// What a cell held, and its generation then.
#[derive(Drop)]
pub(crate) struct Seen {
    pub generation: Generation,
    pub value: Value,
}

/// What the handles of a series share.
pub(crate) trait SharedCell: Drop {
    ghost use Rattle.std.specs.Prelude.{◌≡◌, ℕ};

    /// The cell had this generation when nobody else had the cell. Code that is generic over cells gets it from `last_generation`
    /// alone, as it can't see what an implementation has here.
    ghost is_last: { Self → ℕ → Type 0 };

    /// Returns a number that each activity changes. It takes no memory.
    fn generation<W: Wait>(&self, rt: &W) -> Generation;

    /// Returns that number for the last time. Only `Arc::get_mut` lends a cell so, once there is no other handle: then nobody
    /// else can change the cell, and each change that was made is seen.
    fn last_generation<W: Wait>(&mut self, rt: &W) -> Generation
        ensures last { is_last self.old result }
        ensures same { self.new ≡ self.old };
}

impl SharedCell for CountCell<Key> {
    ghost is_last = { λ cell generation. Unit {0} };

    fn generation<W: Wait>(&self, _rt: &W) -> Generation {
        Generation::new(self.value())
    }

    fn last_generation<W: Wait>(&mut self, rt: &W) -> Generation {
        self.generation(rt)
    }
}

impl SharedCell for GaugeCell {
    ghost is_last = { λ cell generation. Unit {0} };

    fn generation<W: Wait>(&self, _rt: &W) -> Generation {
        Generation::new(self.changes())
    }

    fn last_generation<W: Wait>(&mut self, rt: &W) -> Generation {
        self.generation(rt)
    }
}

impl SharedCell for Parts {
    ghost is_last = { λ cell generation. Unit {0} };

    fn generation<W: Wait>(&self, rt: &W) -> Generation {
        Generation::new(self.count(rt))
    }

    fn last_generation<W: Wait>(&mut self, rt: &W) -> Generation {
        self.generation(rt)
    }
}

/// A handle that a reading looks at.
pub(crate) trait Watched: Drop {
    ghost use Rattle.std.specs.Prelude.{◌≡◌, IfOk};
    ghost use Rattle.metrics_collector.specs.Gathering.{kind_of, IsGenerationOf};
    ghost use Rattle.metrics_names.specs.declared.kind.MetricKind.{MetricKind as AnyKind};

    type Cell: SharedCell;

    /// The kind of its series.
    ghost kind_held: { AnyKind };

    fn kind() -> MetricKind
        ensures { result ≡ kind_held };

    /// Returns what all handles of the series share.
    fn shared(&self) -> &Arc<Self::Cell>;

    /// Returns what it holds at the moment.
    fn held<W: Wait>(&self, rt: &W) -> Result<Value, Error>
        ensures { IfOk result (λ value. kind_of value ≡ kind_held) };

    /// Returns what it holds at the moment, with its generation then.
    fn seen<W: Wait>(&self, rt: &W) -> Result<Seen, Error>
        ensures kind { IfOk result (λ seen. kind_of seen.value ≡ kind_held) }
        ensures generation { IfOk result (λ seen. IsGenerationOf seen.value seen.generation) };
}

impl Watched for GaugeHandle {
    type Cell = GaugeCell;

    ghost kind_held = { GaugeKind };

    fn kind() -> MetricKind {
        MetricKind::Gauge
    }

    fn shared(&self) -> &Arc<GaugeCell> {
        &self.cell
    }

    fn held<W: Wait>(&self, _rt: &W) -> Result<Value, Error> {
        Ok(Value::Level(self.value()))
    }

    /// An update changes the value and then notes it. They are read in the other order: an update between the two reads is
    /// shown at once, and again by the next reading.
    fn seen<W: Wait>(&self, rt: &W) -> Result<Seen, Error> {
        let generation = self.cell.generation(rt);
        let value = self.held(rt)?;
        Ok(Seen { generation, value })
    }
}

impl Watched for HistogramHandle {
    type Cell = Parts;

    ghost kind_held = { HistogramKind };

    fn kind() -> MetricKind {
        MetricKind::Histogram
    }

    fn shared(&self) -> &Arc<Parts> {
        &self.cell
    }

    fn held<W: Wait>(&self, rt: &W) -> Result<Value, Error> {
        Ok(self.seen(rt)?.value)
    }

    fn seen<W: Wait>(&self, rt: &W) -> Result<Seen, Error> {
        let samples = self.read(rt)?;
        let generation = Generation::new(samples.count());
        let value = Value::Samples(Box::new(self.cell.allocator(), samples)?);
        Ok(Seen { generation, value })
    }
}

/// How many parts a histogram may have, unless the caller says otherwise.
const PARTS: usize = 8;

/// Makes the cells of a collector.
#[derive(Drop)]
pub struct CollectorCells {
    alloc: Global,
    bounds: Bounds,
    /// How many parts a histogram may have besides its first one.
    others: AtomicUsize,
}

impl CollectorCells {
    /// Makes a storage whose histograms count at the bounds of their names, in up to 8 parts.
    pub fn new(alloc: Global, bounds: Bounds) -> CollectorCells
        ensures { result.bounds ≡ bounds }
    {
        CollectorCells {
            alloc,
            bounds,
            others: AtomicUsize::new(PARTS - 1),
        }
    }

    /// Lets each histogram that is made from then on have up to this many parts, and at least one.
    pub(crate) fn set_stripes(&self, stripes: usize) {
        self.others
            .store(stripes.saturating_sub(1), Ordering::SeqCst);
    }
}

/// Makes the cells of no collector, and the key that they are for, which has no name.
fn apart(alloc: Global) -> Result<(CollectorCells, Key), Error>
    ensures { MatchResult result (λ made. made.1 ≡ record { name = []; labels = [] }) (λ e. e ≡ OutOfMemory) }
{
    let cells = CollectorCells::new(alloc, Bounds::new(alloc, &[0])?);
    cells.set_stripes(1);
    Ok((cells, Key::from_name(alloc, "")?))
}

/// A cell is one of its key. No contract says what it holds.
impl Storage<Key> for CollectorCells {
    ghost use Rattle.metrics_collector.specs.Series.{counter_key, gauge_key, histogram_key};

    type Counter = CounterHandle;

    type Gauge = GaugeHandle;

    type Histogram = HistogramHandle;

    ghost makes_counter = { λ storage key cell. counter_key cell ≡ key };

    ghost makes_gauge = { λ storage key cell. gauge_key cell ≡ key };

    ghost makes_histogram = { λ storage key cell. histogram_key cell ≡ key };

    fn counter(&self, key: &Key) -> Result<CounterHandle, Error> {
        let cell = Arc::new(self.alloc, CountCell::new(key))?;
        Ok(CounterHandle { cell })
    }

    fn gauge(&self, key: &Key) -> Result<GaugeHandle, Error> {
        let cell = GaugeCell {
            key: KeyNote::of(key),
            value: AtomicU64::new(0),
            is_changed: AtomicBool::new(false),
            changes: AtomicU64::new(0),
        };
        Ok(GaugeHandle {
            cell: Arc::new(self.alloc, cell)?,
        })
    }

    fn histogram(&self, key: &Key) -> Result<HistogramHandle, Error> {
        let empty = self.bounds.of(key.name()).clone()?;
        let others = self.others.load(Ordering::SeqCst);
        let cell = Parts::new(self.alloc, key, empty, others)?;
        Ok(HistogramHandle {
            cell: Arc::new(self.alloc, cell)?,
            place: others,
        })
    }
}
