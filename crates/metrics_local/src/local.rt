//! Handles that a thread keeps for its look-ups.
ghost use Rattle.std.specs.Prelude.{◌≡◌, ◌++◌, ◌∷◌, [], true, None, Some, IsSome, length, slice_get, option_map};
ghost use Rattle.std.specs.Prelude.{OnOk, IfOk, IfErr, MatchOption, MatchResult};
ghost use Rattle.metrics_names.specs.Names.{key_eq};
ghost use Rattle.metrics_registry.specs.Held.{held};
ghost use Rattle.metrics.specs.declared.error.Error.TheVariants.{Memory as OutOfMemory};

use metrics::{Error, Key};
use metrics_layered::SharedRecorder;
use metrics_registry::{Cells, EqualClone};
use std::alloc::Global;
use std::hash::Hash;
use std::marker::Model;
use std::sync::Wait;

/// Look-ups for one thread, on a recorder that threads share. It keeps each handle that it asked for, with its key.
///
/// A look-up of a key that it keeps costs a load of the recorder's epoch, a hash and a comparison of keys. It takes no lock,
/// allocates nothing and never fails. Other threads have a `Local` each.
///
/// A handle keeps its series. So in the recorder's next epoch the first look-up drops all handles, and asks anew: an idle
/// series leaves a `Collector` with a later reading, once each `Local` that had it was used since. One that isn't used any
/// longer keeps its series, until it is dropped or cleared.
#[derive(Drop)]
pub struct Local<S: SharedRecorder> {
    on: S,
    epoch: u64,
    counters: Cells<Key, S::Counter>,
    gauges: Cells<Key, S::Gauge>,
    histograms: Cells<Key, S::Histogram>,
}

/// Returns the place of a key's handle, if one is kept.
fn place_of<H: Drop>(kept: &Cells<Key, H>, key: &Key) -> Option<usize>
    ensures { MatchOption result (held key_eq kept.now key.now ≡ None)
        (λ place. (h : H) × (held key_eq kept.now key.now ≡ Some h) × (slice_get kept.now place ≡ Some (key.now, h))) }
{
    kept.place(key)
}

/// Keeps a handle for a key that has none, and returns its place.
fn keep<K: Hash + EqualClone + Drop, H: Drop>(
    kept: &mut Cells<K, H>,
    key: &K,
    handle: H,
) -> Result<usize, Error>
    requires { held K.eq kept.old key.now ≡ None }
    ensures place { IfOk result (λ place. place ≡ length kept.old) }
    ensures ok { OnOk result ((k : K) × (K.eq key.now k ≡ true) × (kept.new ≡ kept.old ++ (k, handle) ∷ [])) }
    ensures err { IfErr result (λ e. (e ≡ OutOfMemory) × (kept.new ≡ kept.old)) }
{
    kept.insert(key, handle)
}

impl<S: SharedRecorder> Model for Local<S> {
    ghost use Rattle.metrics_local.specs.Keeping.{Kept, AreGiven};

    ghost Value = { Kept S S.Counter S.Gauge S.Histogram };

    ghost view = { λ l. record {
      on = l.on;
      epoch = l.epoch;
      counters = l.counters;
      gauges = l.gauges;
      histograms = l.histograms;
    } };

    ghost invariant = { λ l. AreGiven (S.gives_counter l.on) l.counters × AreGiven (S.gives_gauge l.on) l.gauges
        × AreGiven (S.gives_histogram l.on) l.histograms };
}

impl<S: SharedRecorder> Local<S> {
    ghost use Rattle.std.specs.Borrow.{sem};
    ghost use Rattle.std.specs.Prelude.{ℕ};
    ghost use Rattle.metrics_local.specs.Keeping.{ends_so, nothing_on, IsOfEpoch, FindsCounter, FindsGauge, FindsHistogram};
    ghost use Rattle.metrics_local.specs.contracts.local.Local.{the_row};

    /// Begins without handles, on a recorder: mostly a reference or an `Arc` of one, which are such recorders too.
    pub fn new(alloc: Global, on: S) -> Local<S>
        ensures { (epoch : ℕ) × (result ≡ nothing_on on epoch) }
    {
        let epoch = on.epoch();
        Local {
            on,
            epoch,
            counters: Cells::new(alloc),
            gauges: Cells::new(alloc),
            histograms: Cells::new(alloc),
        }
    }

    /// Returns the recorder.
    pub fn recorder(&self) -> &S
        ensures { result.now ≡ self.now.on }
    {
        &self.on
    }

    /// Drops all handles.
    pub fn clear(&mut self)
        ensures { self.new ≡ nothing_on self.old.on self.old.epoch }
    {
        self.counters.clear();
        self.gauges.clear();
        self.histograms.clear();
    }

    /// Drops all handles if the recorder is in another epoch than the one in which they were asked for.
    fn renew(&mut self)
        ensures epoch { IsOfEpoch self.old self.new }
        ensures on { self.new.on ≡ self.old.on }
    {
        let epoch = self.on.epoch();
        if epoch != self.epoch {
            self.clear();
            self.epoch = epoch;
        }
    }

    /// Looks up a counter, and returns the place of its handle.
    fn find_counter<W: Wait>(&mut self, rt: &W, key: &Key) -> Result<usize, Error>
        ensures found { IfOk result (λ place. (h : S.Counter) × (slice_get self.new.counters place ≡ Some (key.now, h))
            × FindsCounter S.gives_counter key.now h self.old self.new) }
        ensures err { IfErr result (λ e. (e ≡ OutOfMemory) × IsOfEpoch self.old self.new
            × (held key_eq self.new.counters key.now ≡ None)) }
    {
        self.renew();
        if let Some(place) = place_of(&self.counters, key) {
            return Ok(place);
        }
        let handle = self.on.counter(rt, key)?;
        keep(&mut self.counters, key, handle)
    }

    /// Returns the handle of a counter at a place.
    fn counter_at(&self, place: usize) -> &S::Counter
        requires { IsSome (slice_get self.now.counters place) }
        ensures { option_map (λ e. e.1) (slice_get self.now.counters place) ≡ Some result.now }
    {
        let Some((_, handle)) = self.counters.at(place) else {
            unreachable!()
        };
        handle
    }

    /// Returns the handle of the counter that a key names. It asks the recorder for it unless it keeps one.
    ///
    /// Fails only when out of memory, with `Error::Memory`, and never for a key whose handle it keeps.
    pub fn counter<W: Wait>(&mut self, rt: &W, key: &Key) -> Result<&S::Counter, Error>
        ensures* finds { sem 𝓛 (ends_so (the_row S.row S.Counter.row S.Gauge.row S.Histogram.row S.Histogram.Error.row
            S.SharedRecorder S.Counter.Clone S.Gauge.Clone S.Histogram.Clone) self.entry
            (λ after. MatchResult result
            (λ h. FindsCounter S.gives_counter key.now h.now self.old after)
            (λ e. (e ≡ OutOfMemory) × IsOfEpoch self.old after × (held key_eq after.counters key.now ≡ None)))) }
    {
        let place = self.find_counter(rt, key)?;
        Ok(self.counter_at(place))
    }

    /// Looks up a gauge, and returns the place of its handle.
    fn find_gauge<W: Wait>(&mut self, rt: &W, key: &Key) -> Result<usize, Error>
        ensures found { IfOk result (λ place. (h : S.Gauge) × (slice_get self.new.gauges place ≡ Some (key.now, h))
            × FindsGauge S.gives_gauge key.now h self.old self.new) }
        ensures err { IfErr result (λ e. (e ≡ OutOfMemory) × IsOfEpoch self.old self.new
            × (held key_eq self.new.gauges key.now ≡ None)) }
    {
        self.renew();
        if let Some(place) = place_of(&self.gauges, key) {
            return Ok(place);
        }
        let handle = self.on.gauge(rt, key)?;
        keep(&mut self.gauges, key, handle)
    }

    /// Returns the handle of a gauge at a place.
    fn gauge_at(&self, place: usize) -> &S::Gauge
        requires { IsSome (slice_get self.now.gauges place) }
        ensures { option_map (λ e. e.1) (slice_get self.now.gauges place) ≡ Some result.now }
    {
        let Some((_, handle)) = self.gauges.at(place) else {
            unreachable!()
        };
        handle
    }

    /// Returns the handle of the gauge that a key names, as `counter` does.
    pub fn gauge<W: Wait>(&mut self, rt: &W, key: &Key) -> Result<&S::Gauge, Error>
        ensures* finds { sem 𝓛 (ends_so (the_row S.row S.Counter.row S.Gauge.row S.Histogram.row S.Histogram.Error.row
            S.SharedRecorder S.Counter.Clone S.Gauge.Clone S.Histogram.Clone) self.entry
            (λ after. MatchResult result
            (λ h. FindsGauge S.gives_gauge key.now h.now self.old after)
            (λ e. (e ≡ OutOfMemory) × IsOfEpoch self.old after × (held key_eq after.gauges key.now ≡ None)))) }
    {
        let place = self.find_gauge(rt, key)?;
        Ok(self.gauge_at(place))
    }

    /// Looks up a histogram, and returns the place of its handle.
    fn find_histogram<W: Wait>(&mut self, rt: &W, key: &Key) -> Result<usize, Error>
        ensures found { IfOk result (λ place. (h : S.Histogram) × (slice_get self.new.histograms place ≡ Some (key.now, h))
            × FindsHistogram S.gives_histogram key.now h self.old self.new) }
        ensures err { IfErr result (λ e. (e ≡ OutOfMemory) × IsOfEpoch self.old self.new
            × (held key_eq self.new.histograms key.now ≡ None)) }
    {
        self.renew();
        if let Some(place) = place_of(&self.histograms, key) {
            return Ok(place);
        }
        let handle = self.on.histogram(rt, key)?;
        keep(&mut self.histograms, key, handle)
    }

    /// Returns the handle of a histogram at a place.
    fn histogram_at(&self, place: usize) -> &S::Histogram
        requires { IsSome (slice_get self.now.histograms place) }
        ensures { option_map (λ e. e.1) (slice_get self.now.histograms place) ≡ Some result.now }
    {
        let Some((_, handle)) = self.histograms.at(place) else {
            unreachable!()
        };
        handle
    }

    /// Returns the handle of the histogram that a key names, as `counter` does.
    pub fn histogram<W: Wait>(&mut self, rt: &W, key: &Key) -> Result<&S::Histogram, Error>
        ensures* finds { sem 𝓛 (ends_so (the_row S.row S.Counter.row S.Gauge.row S.Histogram.row S.Histogram.Error.row
            S.SharedRecorder S.Counter.Clone S.Gauge.Clone S.Histogram.Clone) self.entry
            (λ after. MatchResult result
            (λ h. FindsHistogram S.gives_histogram key.now h.now self.old after)
            (λ e. (e ≡ OutOfMemory) × IsOfEpoch self.old after × (held key_eq after.histograms key.now ≡ None)))) }
    {
        let place = self.find_histogram(rt, key)?;
        Ok(self.histogram_at(place))
    }
}
