//! Recorders under rules.
ghost use Rattle.std.specs.Prelude.{◌≡◌, ◌≢◌, ◌∷◌, [], length, slice_get, option_map, MatchResult, IfOk, IfErr};
ghost use Rattle.metrics.specs.declared.error.Error.TheVariants.{Memory as OutOfMemory};
ghost use Rattle.metrics_names.specs.declared.kind.MetricKind.TheVariants.{Counter as CounterKind, Gauge as GaugeKind};
ghost use Rattle.metrics_names.specs.declared.kind.MetricKind.TheVariants.{Histogram as HistogramKind};
ghost use Rattle.metrics_rules.specs.Meanings.{rules_meaning};
ghost use Rattle.metrics_rules.specs.Nodes.{leaves_of};

use crate::ask::{Counters, Gauges, Histograms, handles_under};
use crate::describe::{Description, describe_under};
use crate::recorder::SharedRecorder;
use crate::updates::{CounterHandles, GaugeHandles, HistogramHandles};
use metrics::{Error, Key, MetricKind, Unit};
use metrics_rules::Rules;
use std::alloc::Global;
use std::sync::Wait;

/// Recorders that threads share, one for each leaf of the rules that say where a name goes.
#[derive(Drop)]
pub struct Layered<R> {
    alloc: Global,
    rules: Rules,
    recorders: Vec<R>,
}

impl<R: Drop> Layered<R> {
    /// Puts recorders under rules, in the order of the leaves. Returns both if there isn't one for each leaf.
    pub fn new(
        alloc: Global,
        rules: Rules,
        recorders: Vec<R>,
    ) -> Result<Layered<R>, (Rules, Vec<R>)>
        ensures { MatchResult result
            (λ l. (l.rules ≡ rules) × (l.recorders.items ≡ recorders.items)
            × (leaves_of (rules_meaning rules) ≡ length recorders.items))
            (λ e. (e.0 ≡ rules) × (e.1 ≡ recorders) × (leaves_of (rules_meaning rules) ≢ length recorders.items)) }
    {
        if rules.leaves() != recorders.len() {
            return Err((rules, recorders));
        }
        Ok(Layered {
            alloc,
            rules,
            recorders,
        })
    }

    /// Puts one recorder under rules of one leaf. Returns both if there isn't exactly one leaf, and when out of memory.
    pub fn under(alloc: Global, rules: Rules, recorder: R) -> Result<Layered<R>, (Rules, R)>
        ensures { MatchResult result
            (λ l. (l.rules ≡ rules) × (l.recorders.items ≡ recorder ∷ []) × (leaves_of (rules_meaning rules) ≡ 1))
            (λ e. e ≡ (rules, recorder)) }
    {
        let mut recorders = Vec::new(alloc);
        if rules.leaves() != 1 || recorders.reserve(1).is_err() {
            return Err((rules, recorder));
        }
        recorders.push_reserved(recorder);
        Ok(Layered {
            alloc,
            rules,
            recorders,
        })
    }

    /// Returns the rules.
    pub fn rules(&self) -> &Rules
        ensures { result.now ≡ self.now.rules }
    {
        &self.rules
    }

    /// Returns the recorder of a leaf. Leaves are numbered from 0, from left to right.
    pub fn leaf(&self, leaf: usize) -> Option<&R>
        ensures { option_map (λ r. r.now) result ≡ slice_get self.now.recorders.items leaf }
    {
        self.recorders.get(leaf)
    }
}

impl<R: SharedRecorder> Layered<R> {
    ghost use Rattle.metrics_layered.specs.Layering.{HasEachTarget};

    /// Returns the number of the epoch, which ends with that of each recorder: the sum of their numbers, modulo 2^64.
    #[inline(always)]
    pub fn epoch(&self) -> u64 {
        let mut sum: u64 = 0;
        for recorder in &self.recorders {
            sum = sum.wrapping_add(recorder.epoch());
        }
        sum
    }

    /// Replaces the text of a name of this kind in each of its targets, under the name there, and the unit if there is a new one.
    /// Returns how many targets there are. A call that fails may have described the first of them.
    pub fn describe<W: Wait>(
        &self,
        rt: &W,
        alloc: Global,
        kind: MetricKind,
        name: &str,
        unit: Option<Unit>,
        text: &str,
    ) -> Result<usize, Error>
        ensures { MatchResult result (λ n. n ≡ length ((rules_meaning self.now.rules).targets kind name.now))
            (λ e. e ≡ OutOfMemory) }
    {
        let by = Description { alloc, unit, text };
        describe_under(rt, &self.rules, &self.recorders, kind, name, by)
    }

    /// Returns a handle of the counters of a key: one in each target of its name, and none if a filter rejects it.
    ///
    /// # Memory
    ///
    /// A look-up makes the names below prefixes anew. A handle of one target allocates nothing more than its recorder does.
    pub fn counter<W: Wait>(&self, rt: &W, key: &Key) -> Result<CounterHandles<R::Counter>, Error>
        ensures given { IfOk result (λ h. HasEachTarget R.gives_counter CounterKind self.now key.now h.cells) }
        ensures err { IfErr result (λ e. e ≡ OutOfMemory) }
    {
        let cells = handles_under::<Counters, R, W>(
            rt,
            self.alloc,
            &self.rules,
            &self.recorders,
            key,
        )?;
        Ok(CounterHandles::of(cells))
    }

    /// Returns a handle of the gauges of a key, as `counter` does.
    pub fn gauge<W: Wait>(&self, rt: &W, key: &Key) -> Result<GaugeHandles<R::Gauge>, Error>
        ensures given { IfOk result (λ h. HasEachTarget R.gives_gauge GaugeKind self.now key.now h.cells) }
        ensures err { IfErr result (λ e. e ≡ OutOfMemory) }
    {
        let cells = handles_under::<Gauges, R, W>(
            rt,
            self.alloc,
            &self.rules,
            &self.recorders,
            key,
        )?;
        Ok(GaugeHandles::of(cells))
    }

    /// Returns a handle of the histograms of a key, as `counter` does.
    pub fn histogram<W: Wait>(
        &self,
        rt: &W,
        key: &Key,
    ) -> Result<HistogramHandles<R::Histogram>, Error>
        ensures given { IfOk result (λ h. HasEachTarget R.gives_histogram HistogramKind self.now key.now h.cells) }
        ensures err { IfErr result (λ e. e ≡ OutOfMemory) }
    {
        let cells = handles_under::<Histograms, R, W>(
            rt,
            self.alloc,
            &self.rules,
            &self.recorders,
            key,
        )?;
        Ok(HistogramHandles::of(cells))
    }
}
