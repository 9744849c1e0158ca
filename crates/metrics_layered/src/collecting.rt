//! A collector as a recorder that threads share.
use crate::recorder::SharedRecorder;
use metrics::{Error, Key, MetricKind, Unit};
use metrics_collector::{Collector, CounterHandle, GaugeHandle, HistogramHandle};
use std::alloc::Global;
use std::sync::Wait;

/// A handle is of the series of the key that was asked for, with the collector's labels.
impl SharedRecorder for Collector {
    ghost use Rattle.metrics_collector.specs.Labelling.{IsKept};
    ghost use Rattle.metrics_collector.specs.Series.{counter_key, gauge_key, histogram_key};

    type Counter = CounterHandle;

    type Gauge = GaugeHandle;

    type Histogram = HistogramHandle;

    ghost gives_counter = { λ c key h. IsKept c.labels.items key (counter_key h) };

    ghost gives_gauge = { λ c key h. IsKept c.labels.items key (gauge_key h) };

    ghost gives_histogram = { λ c key h. IsKept c.labels.items key (histogram_key h) };

    ghost targets_of = { λ c kind name. 1 };

    #[inline(always)]
    fn epoch(&self) -> u64 {
        self.epoch()
    }

    fn describe<W: Wait>(
        &self,
        rt: &W,
        alloc: Global,
        kind: MetricKind,
        name: &str,
        unit: Option<Unit>,
        text: &str,
    ) -> Result<usize, Error> {
        self.describe(rt, alloc, kind, name, unit, text)?;
        Ok(1)
    }

    fn counter<W: Wait>(&self, rt: &W, key: &Key) -> Result<CounterHandle, Error> {
        self.counter(rt, key)
    }

    fn gauge<W: Wait>(&self, rt: &W, key: &Key) -> Result<GaugeHandle, Error> {
        self.gauge(rt, key)
    }

    fn histogram<W: Wait>(&self, rt: &W, key: &Key) -> Result<HistogramHandle, Error> {
        self.histogram(rt, key)
    }
}
