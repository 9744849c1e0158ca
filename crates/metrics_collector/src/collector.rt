//! A collector.
ghost use Rattle.std.specs.Prelude.{◌≡◌, List, [], true, None, Some, if◌then◌else◌, string_bytes};
ghost use Rattle.std.specs.Prelude.{IfOk, IfErr, OnOk, MatchResult};
ghost use Rattle.std.specs.Fn.{FnOnceReturnsAt};
ghost use Rattle.metrics.specs.declared.error.Error.TheVariants.{Memory as OutOfMemory, BadShards as NotShards};
ghost use Rattle.metrics_registry.specs.Held.{is_shard_count as is_count};
ghost use Rattle.metrics_exporter.specs.Readings.{KeyedReading, AreOnce, cells_of_readings};
ghost use Rattle.metrics_descriptions.specs.Legends.{Legend};
ghost use Rattle.metrics_exposition.specs.declared.naming.Naming.TheVariants.{AsGiven as NamesAsGiven};
ghost use Rattle.metrics_exposition.specs.Common.{first_bad_label};
ghost use Rattle.metrics_prometheus.specs.Exposition.{IsDescribed};
ghost use Rattle.metrics_exposition.specs.Reading.{AreOfKinds};
ghost use Rattle.metrics_collector.specs.Gathering.{all_gathered, IsUnread};
ghost use Rattle.metrics_collector.specs.LeftOut.{IsEnded, IsScraped, IsScrapedOf};
ghost use Rattle.metrics_collector.specs.declared.gathered.Gathered.{Gathered as GatheredParts};

use crate::cells::{CounterHandle, GaugeHandle, HistogramHandle};
use crate::counted::with_number;
use crate::gathered::{Gathered, GatheredSeries};
use crate::keys::{is_kept, kept_key};
use crate::readings::Series;
use crate::repeats::with_repeated;
use metrics::{Error, Key, Label, MetricKind, MetricKindMask, Unit};
use metrics_cells::CounterFn;
use metrics_exporter::Bounds;
use metrics_prometheus::{
    BadLabel, CountedText, Descriptions, Naming, WholeNumbers, counted_exposition_of,
    first_bad_label,
};
use std::alloc::{AllocError, Global};
use std::mem;
use std::sync::{Mutex, RwLock, Wait};
use std::time::Duration;

/// Metrics that threads share by reference, and their text for Prometheus.
///
/// A thread asks for a handle once, and then changes its cell with no look-up. While some thread has a handle of a series, the
/// series stays: when idle it is hidden from the texts, and shown again once it changes. An idle series of which no thread has
/// a handle is removed, and begins anew when it is asked for again.
#[derive(Drop)]
pub struct Collector {
    alloc: Global,
    labels: Vec<Label>,
    naming: Naming,
    series: Series,
    /// The rows of the last text.
    rows: Mutex<Vec<GatheredSeries>>,
    descriptions: RwLock<Descriptions>,
    /// Whether each text has a gauge with the number of series that it leaves out.
    has_left_out_gauge: bool,
}

impl Collector {
    ghost use Rattle.metrics_collector.specs.Labelling.{IsKept};
    ghost use Rattle.metrics_collector.specs.Series.{counter_key, gauge_key, histogram_key};

    /// Makes a collector without series, in this many shards, a power of two from 1 to 1,024.
    ///
    /// A series of a kind in the mask is idle if it kept its generation over readings further apart than the timeout. Without
    /// a timeout none is. The timeout and the moments of `gather` and `render` are in one unit of the caller's choice: seconds
    /// for `render_after`.
    pub fn new(
        alloc: Global,
        shards: usize,
        mask: MetricKindMask,
        idle_timeout: Option<u64>,
        bounds: Bounds,
    ) -> Result<Collector, Error>
        ensures ok { IfOk result (λ c. (c.series.registry.storage.bounds ≡ bounds) × (c.naming ≡ NamesAsGiven)) }
        ensures err { IfErr result (λ e. e ≡ (if is_count shards then OutOfMemory else NotShards)) }
    {
        let series = Series::new(alloc, shards, mask, idle_timeout, bounds)?;
        Ok(Collector {
            alloc,
            labels: Vec::new(alloc),
            naming: Naming::AsGiven,
            series,
            rows: Mutex::new(Vec::new(alloc)),
            descriptions: RwLock::new(Descriptions::new(alloc)),
            has_left_out_gauge: false,
        })
    }

    /// Adds these labels to all series from then on. A series' own label wins over one of the same name.
    ///
    /// # Errors
    ///
    /// `BadLabel`, with the collector as it was, if a name isn't one of a label, is reserved by Prometheus (`le`, or with two
    /// underscores at its start), or comes twice (`first_bad_label`).
    pub fn with_labels(self, labels: Vec<Label>) -> Result<Collector, (BadLabel, Collector)>
        ensures { MatchResult result
            (λ c. (first_bad_label [] labels.items ≡ None) × (c ≡ record self { labels = labels }))
            (λ e. (first_bad_label [] labels.items ≡ Some e.0) × (e.1 ≡ self)) }
    {
        match first_bad_label(&labels) {
            Some(bad) => Err((bad, self)),
            None => {
                let mut collector = self;
                collector.labels = labels;
                Ok(collector)
            }
        }
    }

    /// Ends each text with the gauge `metrics_left_out_series`, which has the collector's labels: the number of series that
    /// this text leaves out, also 0. Each has a line `# left out: ..` there, which Prometheus doesn't read (`left_out`).
    ///
    /// Give no series of your own this name: Prometheus would reject the text.
    pub fn with_left_out_gauge(self) -> Collector
        ensures { result ≡ record self { has_left_out_gauge = true } }
    {
        let mut collector = self;
        collector.has_left_out_gauge = true;
        collector
    }

    /// Shows names and units as the naming has them. Without this call they are shown as they are given.
    pub fn with_naming(self, naming: Naming) -> Collector
        ensures { result ≡ record self { naming = naming } }
    {
        let mut collector = self;
        collector.naming = naming;
        collector
    }

    /// Splits the samples of each histogram that is made from then on into up to this many parts, each under a lock of its own.
    /// 0 counts as 1. Without this call there are up to 8.
    ///
    /// Handles get the parts in turn, so more parts let more threads record at one time. What is read is the same. A part
    /// takes 8 bytes, and from its first sample on some 220 and 8 for each bound.
    pub fn with_stripes(self, stripes: usize) -> Collector
        ensures { result ≡ self }
    {
        self.series.set_stripes(stripes);
        self
    }

    /// Replaces the text of a name of this kind, and the unit if there is a new one. A call that fails changes nothing.
    ///
    /// It waits while a text is written.
    pub fn describe<W: Wait>(
        &self,
        rt: &W,
        alloc: Global,
        kind: MetricKind,
        name: &str,
        unit: Option<Unit>,
        text: &str,
    ) -> Result<(), Error>
        ensures { IfErr result (λ e. e ≡ OutOfMemory) }
    {
        let described = self
            .descriptions
            .write(rt)
            .describe(alloc, kind, name, unit, text);
        Ok(described?)
    }

    /// Calls `op` once on the cell of the counter that a key names.
    fn on_counter<W: Wait, V, F: FnOnce(&CounterHandle) -> V + Drop>(
        &self,
        rt: &W,
        key: &Key,
        op: F,
    ) -> Result<V, Error>
        requires { F.IsAlwaysCallable op }
        ensures called { IfOk result (λ v. (h : CounterHandle) × IsKept self.now.labels.items key.now (counter_key h)
            × FnOnceReturnsAt F.FnOnce op h v) }
        ensures err { IfErr result (λ e. e ≡ OutOfMemory) }
    {
        if is_kept(key, &self.labels) {
            return self.series.on_counter(rt, key, op);
        }
        let kept = kept_key(self.alloc, key, &self.labels)?;
        self.series.on_counter(rt, &kept, op)
    }

    /// Returns a handle of a counter, which begins at 0 if it is new. Labels in another order name the same series.
    ///
    /// An update is one locked instruction. An increment by 0 is no activity. A handle keeps its series, as long as it is kept:
    /// some 240 bytes and the key's texts.
    pub fn counter<W: Wait>(&self, rt: &W, key: &Key) -> Result<CounterHandle, Error>
        ensures key { IfOk result (λ h. IsKept self.now.labels.items key.now (counter_key h)) }
        ensures err { IfErr result (λ e. e ≡ OutOfMemory) }
    {
        let handle = |cell: &CounterHandle| -> Result<CounterHandle, AllocError>
            ensures { IfOk result (λ h. counter_key h ≡ counter_key cell.now) }
        { cell.clone() };
        Ok(self.on_counter(rt, key, handle)??)
    }

    /// Adds to a counter without keeping a handle. A new counter begins at 0.
    ///
    /// It looks the key up, which a handle's update doesn't. It fails with `Error::Memory` only if the series is new, or if
    /// the key's labels aren't in order.
    pub fn increment<W: Wait>(&self, rt: &W, key: &Key, value: u64) -> Result<(), Error>
        ensures key { OnOk result ((h : CounterHandle) × IsKept self.now.labels.items key.now (counter_key h)) }
        ensures err { IfErr result (λ e. e ≡ OutOfMemory) }
    {
        self.on_counter(rt, key, |cell: &CounterHandle| {
            CounterFn::increment(cell, value)
        })
    }

    /// Calls `op` once on the cell of the gauge that a key names.
    fn on_gauge<W: Wait, V, F: FnOnce(&GaugeHandle) -> V + Drop>(
        &self,
        rt: &W,
        key: &Key,
        op: F,
    ) -> Result<V, Error>
        requires { F.IsAlwaysCallable op }
        ensures called { IfOk result (λ v. (h : GaugeHandle) × IsKept self.now.labels.items key.now (gauge_key h)
            × FnOnceReturnsAt F.FnOnce op h v) }
        ensures err { IfErr result (λ e. e ≡ OutOfMemory) }
    {
        if is_kept(key, &self.labels) {
            return self.series.on_gauge(rt, key, op);
        }
        let kept = kept_key(self.alloc, key, &self.labels)?;
        self.series.on_gauge(rt, &kept, op)
    }

    /// Returns a handle of a gauge, which begins at 0 if it is new. Labels in another order name the same series.
    ///
    /// Each update is activity, even one that leaves the value as it is. A handle keeps its series, as long as it is kept:
    /// some 250 bytes and the key's texts.
    pub fn gauge<W: Wait>(&self, rt: &W, key: &Key) -> Result<GaugeHandle, Error>
        ensures key { IfOk result (λ h. IsKept self.now.labels.items key.now (gauge_key h)) }
        ensures err { IfErr result (λ e. e ≡ OutOfMemory) }
    {
        let handle = |cell: &GaugeHandle| -> Result<GaugeHandle, AllocError>
            ensures { IfOk result (λ h. gauge_key h ≡ gauge_key cell.now) }
        { cell.clone() };
        Ok(self.on_gauge(rt, key, handle)??)
    }

    /// Calls `op` once on the cell of the histogram that a key names.
    fn on_histogram<W: Wait, V, F: FnOnce(&HistogramHandle) -> V + Drop>(
        &self,
        rt: &W,
        key: &Key,
        op: F,
    ) -> Result<V, Error>
        requires { F.IsAlwaysCallable op }
        ensures called { IfOk result (λ v. (h : HistogramHandle) × IsKept self.now.labels.items key.now (histogram_key h)
            × FnOnceReturnsAt F.FnOnce op h v) }
        ensures err { IfErr result (λ e. e ≡ OutOfMemory) }
    {
        if is_kept(key, &self.labels) {
            return self.series.on_histogram(rt, key, op);
        }
        let kept = kept_key(self.alloc, key, &self.labels)?;
        self.series.on_histogram(rt, &kept, op)
    }

    /// Returns a handle of a histogram, which begins without samples if it is new. Labels in another order name the same
    /// series.
    ///
    /// Each sample is activity. Ask for a handle in each thread: those of one histogram seldom wait for each other. A handle
    /// keeps its series, as long as it is kept: some 420 bytes, 8 for each bound, and the key's texts.
    pub fn histogram<W: Wait>(&self, rt: &W, key: &Key) -> Result<HistogramHandle, Error>
        ensures key { IfOk result (λ h. IsKept self.now.labels.items key.now (histogram_key h)) }
        ensures err { IfErr result (λ e. e ≡ OutOfMemory) }
    {
        let handle = |cell: &HistogramHandle| -> Result<HistogramHandle, AllocError>
            ensures { IfOk result (λ h. histogram_key h ≡ histogram_key cell.now) }
        { cell.clone() };
        Ok(self.on_histogram(rt, key, handle)??)
    }

    /// Returns the number of the epoch. Whoever keeps handles for later look-ups (`Local` of `metrics_local`) drops them in the
    /// next one, so that idle series can leave.
    ///
    /// An epoch ends with a reading that finds an idle series of which some thread has a handle, and once `remove` has removed a
    /// series.
    #[inline(always)]
    pub fn epoch(&self) -> u64 {
        self.series.epoch()
    }

    /// Reads each cell once, and returns the series in use. An idle series is removed if no thread has a handle.
    ///
    /// # Waiting
    ///
    /// Readings go one after another. A thread with a handle waits for none, except to record into a histogram's part that is
    /// being read. Nor does a look-up of a series that is there. A new series waits until the reading has left its shard, and
    /// meanwhile look-ups in that shard wait behind it. To remove an idle series its shard is locked for this one alone.
    ///
    /// # Errors
    ///
    /// `Error::Memory`, and `Error::CountFull` if a histogram has more than 2^64 - 1 samples.
    pub fn gather<W: Wait>(&self, rt: &W, alloc: Global, now: u64) -> Result<Gathered, Error>
        ensures { IfErr result IsUnread }
    {
        self.series.read(rt, now, Vec::new(alloc))
    }

    /// Adds the gauge of what a text leaves out, if there is to be one.
    fn ended(&self, alloc: Global, counted: CountedText) -> Result<String, Error>
        ensures ok { IfOk result (λ all. IsEnded self.now.has_left_out_gauge self.now.labels.items
            (string_bytes counted.text) (string_bytes all)) }
        ensures err { IfErr result (λ e. e ≡ OutOfMemory) }
    {
        if self.has_left_out_gauge {
            return with_number(alloc, counted, &self.labels);
        }
        Ok(counted.text)
    }

    /// Writes series with this collector's descriptions and naming.
    fn described<W: Wait>(
        &self,
        rt: &W,
        alloc: Global,
        gathered: &Gathered,
    ) -> Result<CountedText, Error>
        ensures text { IfOk result (λ counted. (legend : Legend) × (kept : List KeyedReading)
            × AreOnce (all_gathered gathered.now) kept × AreOfKinds (cells_of_readings kept)
            × IsDescribed self.now.naming legend (cells_of_readings kept) (string_bytes counted.text)) }
        ensures err { IfErr result (λ e. e ≡ OutOfMemory) }
    {
        let descriptions = self.descriptions.read(rt);
        counted_exposition_of(
            alloc,
            self.naming,
            &WholeNumbers,
            &descriptions,
            &gathered.series,
        )
    }

    /// Writes what a reading gathered.
    fn text_once<W: Wait>(
        &self,
        rt: &W,
        alloc: Global,
        gathered: &Gathered,
    ) -> Result<String, Error>
        ensures text { IfOk result (λ text. (legend : Legend) × (kept : List KeyedReading)
            × AreOnce (all_gathered gathered.now) kept × AreOfKinds (cells_of_readings kept)
            × IsScraped self.now.naming legend self.now.has_left_out_gauge self.now.labels.items (cells_of_readings kept)
            (string_bytes text)) }
        ensures err { IfErr result (λ e. e ≡ OutOfMemory) }
    {
        let counted = self.described(rt, alloc, gathered)?;
        self.ended(alloc, counted)
    }

    /// Writes series that were gathered, of this collector or of several, or a part of them: with this collector's descriptions,
    /// naming, and gauge of what is left out. Its labels are in the keys of what it gathered.
    ///
    /// A series that comes again, such as one that was pushed beside a gathered one, is left out, and has a line that says so.
    /// Each row is looked for among those before it.
    pub fn text_of<W: Wait>(
        &self,
        rt: &W,
        alloc: Global,
        gathered: &Gathered,
    ) -> Result<String, Error>
        ensures text { IfOk result (λ text. (legend : Legend) × (kept : List KeyedReading)
            × AreOnce (all_gathered gathered.now) kept × AreOfKinds (cells_of_readings kept)
            × IsScrapedOf self.now.naming legend self.now.has_left_out_gauge self.now.labels.items (cells_of_readings kept)
            gathered.now.series.items (string_bytes text)) }
        ensures err { IfErr result (λ e. e ≡ OutOfMemory) }
    {
        let counted = self.described(rt, alloc, gathered)?;
        let all = with_repeated(alloc, counted, &gathered.series)?;
        self.ended(alloc, all)
    }

    /// Removes a series of a kind, and returns whether it was there.
    ///
    /// A handle that is kept then counts into nothing, until it is asked for anew: that makes a new series, which begins at 0.
    /// The call waits for a reading to end. It fails with `Error::Memory` only if the key's labels aren't in order, or the
    /// collector has labels.
    pub fn remove<W: Wait>(&self, rt: &W, kind: MetricKind, key: &Key) -> Result<bool, Error>
        ensures { IfErr result (λ e. e ≡ OutOfMemory) }
    {
        if is_kept(key, &self.labels) {
            return Ok(self.series.remove(rt, kind, key));
        }
        let kept = kept_key(self.alloc, key, &self.labels)?;
        Ok(self.series.remove(rt, kind, &kept))
    }

    /// Reads each cell once, and returns the text of the series that are in use. The moment is in the unit of the idle timeout.
    ///
    /// # Errors
    ///
    /// Those of `gather`. The next one then shows what this one found, even if it comes after the timeout.
    ///
    /// # Memory
    ///
    /// The collector keeps the rows of its last text for the next one: some 70 bytes and its name for each series, and for a
    /// histogram 80 bytes more, and 8 for each bound.
    pub fn render<W: Wait>(&self, rt: &W, alloc: Global, now: u64) -> Result<String, Error>
        ensures text { IfOk result (λ text. (legend : Legend) × (gathered : GatheredParts) × (kept : List KeyedReading)
            × AreOnce (all_gathered gathered) kept × AreOfKinds (cells_of_readings kept)
            × IsScraped self.now.naming legend self.now.has_left_out_gauge self.now.labels.items (cells_of_readings kept)
            (string_bytes text)) }
        ensures err { IfErr result IsUnread }
    {
        let rows = mem::replace(&mut *self.rows.lock(rt), Vec::new(alloc));
        let gathered = self.series.read(rt, now, rows)?;
        let text = self.text_once(rt, alloc, &gathered);
        if text.is_err() {
            self.series.forget_all(rt, &gathered);
        }
        let Gathered { series } = gathered;
        *self.rows.lock(rt) = series;
        text
    }
    /// Renders as `render` does, at a moment in whole seconds: those of a duration since the caller's start. So the idle timeout
    /// is in seconds too.
    pub fn render_after<W: Wait>(
        &self,
        rt: &W,
        alloc: Global,
        since_start: Duration,
    ) -> Result<String, Error>
        ensures text { IfOk result (λ text. (legend : Legend) × (gathered : GatheredParts) × (kept : List KeyedReading)
            × AreOnce (all_gathered gathered) kept × AreOfKinds (cells_of_readings kept)
            × IsScraped self.now.naming legend self.now.has_left_out_gauge self.now.labels.items (cells_of_readings kept)
            (string_bytes text)) }
        ensures err { IfErr result IsUnread }
    {
        self.render(rt, alloc, since_start.as_secs())
    }
}
