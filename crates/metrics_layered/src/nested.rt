//! Recorders under rules, and pointers to recorders, as recorders that threads share.
use crate::layered::Layered;
use crate::recorder::SharedRecorder;
use crate::updates::{CounterHandles, GaugeHandles, HistogramHandles};
use metrics::{Error, Key, MetricKind, Unit};
use std::alloc::Global;
use std::sync::{Arc, Wait};

/// A handle has the cells of all targets of its name.
impl<R: SharedRecorder> SharedRecorder for Layered<R> {
    ghost use Rattle.std.specs.Prelude.{length};
    ghost use Rattle.metrics_names.specs.declared.kind.MetricKind.TheVariants.{Counter as CounterKind, Gauge as GaugeKind};
    ghost use Rattle.metrics_names.specs.declared.kind.MetricKind.TheVariants.{Histogram as HistogramKind};
    ghost use Rattle.metrics_rules.specs.Meanings.{rules_meaning};
    ghost use Rattle.metrics_layered.specs.Layering.{HasEachTarget};

    type Counter = CounterHandles<R::Counter>;

    type Gauge = GaugeHandles<R::Gauge>;

    type Histogram = HistogramHandles<R::Histogram>;

    ghost gives_counter = { λ l key found. HasEachTarget R.gives_counter CounterKind l key found.cells };

    ghost gives_gauge = { λ l key found. HasEachTarget R.gives_gauge GaugeKind l key found.cells };

    ghost gives_histogram = { λ l key found. HasEachTarget R.gives_histogram HistogramKind l key found.cells };

    ghost targets_of = { λ l kind name. length ((rules_meaning l.rules).targets kind name) };

    fn epoch(&self) -> u64 {
        self.epoch()
    }

    fn describe<W: Wait>(
        &self,
        rt: &W,
        alloc: Global,
        kind: MetricKind,
        name: &str,
        unit: Option<Unit>,
        text: &str,
    ) -> Result<usize, Error> {
        self.describe(rt, alloc, kind, name, unit, text)
    }

    fn counter<W: Wait>(&self, rt: &W, key: &Key) -> Result<CounterHandles<R::Counter>, Error> {
        self.counter(rt, key)
    }

    fn gauge<W: Wait>(&self, rt: &W, key: &Key) -> Result<GaugeHandles<R::Gauge>, Error> {
        self.gauge(rt, key)
    }

    fn histogram<W: Wait>(
        &self,
        rt: &W,
        key: &Key,
    ) -> Result<HistogramHandles<R::Histogram>, Error> {
        self.histogram(rt, key)
    }
}

/// The handles of the recorder behind the reference.
impl<R: SharedRecorder> SharedRecorder for &R {
    type Counter = R::Counter;

    type Gauge = R::Gauge;

    type Histogram = R::Histogram;

    ghost gives_counter = { λ r key handle. R.gives_counter r.now key handle };

    ghost gives_gauge = { λ r key handle. R.gives_gauge r.now key handle };

    ghost gives_histogram = { λ r key handle. R.gives_histogram r.now key handle };

    ghost targets_of = { λ r kind name. R.targets_of r.now kind name };

    #[inline(always)]
    fn epoch(&self) -> u64 {
        (**self).epoch()
    }

    fn describe<W: Wait>(
        &self,
        rt: &W,
        alloc: Global,
        kind: MetricKind,
        name: &str,
        unit: Option<Unit>,
        text: &str,
    ) -> Result<usize, Error> {
        (**self).describe(rt, alloc, kind, name, unit, text)
    }

    fn counter<W: Wait>(&self, rt: &W, key: &Key) -> Result<R::Counter, Error> {
        (**self).counter(rt, key)
    }

    fn gauge<W: Wait>(&self, rt: &W, key: &Key) -> Result<R::Gauge, Error> {
        (**self).gauge(rt, key)
    }

    fn histogram<W: Wait>(&self, rt: &W, key: &Key) -> Result<R::Histogram, Error> {
        (**self).histogram(rt, key)
    }
}

/// The handles of the recorder inside.
impl<R: SharedRecorder> SharedRecorder for Arc<R> {
    ghost use Rattle.std.specs.Arc.{arc_value};

    type Counter = R::Counter;

    type Gauge = R::Gauge;

    type Histogram = R::Histogram;

    ghost gives_counter = { λ r key handle. R.gives_counter (arc_value r) key handle };

    ghost gives_gauge = { λ r key handle. R.gives_gauge (arc_value r) key handle };

    ghost gives_histogram = { λ r key handle. R.gives_histogram (arc_value r) key handle };

    ghost targets_of = { λ r kind name. R.targets_of (arc_value r) kind name };

    #[inline(always)]
    fn epoch(&self) -> u64 {
        (**self).epoch()
    }

    fn describe<W: Wait>(
        &self,
        rt: &W,
        alloc: Global,
        kind: MetricKind,
        name: &str,
        unit: Option<Unit>,
        text: &str,
    ) -> Result<usize, Error> {
        (**self).describe(rt, alloc, kind, name, unit, text)
    }

    fn counter<W: Wait>(&self, rt: &W, key: &Key) -> Result<R::Counter, Error> {
        (**self).counter(rt, key)
    }

    fn gauge<W: Wait>(&self, rt: &W, key: &Key) -> Result<R::Gauge, Error> {
        (**self).gauge(rt, key)
    }

    fn histogram<W: Wait>(&self, rt: &W, key: &Key) -> Result<R::Histogram, Error> {
        (**self).histogram(rt, key)
    }
}
