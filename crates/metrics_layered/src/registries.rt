//! A registry as a recorder that threads share.
use crate::recorder::SharedRecorder;
use metrics::{Error, Key, MetricKind, Unit};
use metrics_cells::{CounterFn, GaugeFn, HistogramFn};
use metrics_registry::Storage;
use metrics_shared_registry::Registry;
use std::alloc::{AllocError, Global};
use std::sync::Wait;

/// A handle is a clone of a cell that the storage makes for an equal key. A registry keeps no descriptions.
///
/// It has one epoch, whatever is removed from it.
impl<S: Storage<Key> + Drop> SharedRecorder for Registry<Key, S>
where
    S::Counter: CounterFn + Clone + Drop,
    S::Gauge: GaugeFn + Clone + Drop,
    S::Histogram: HistogramFn + Clone + Drop,
{
    ghost use Rattle.std.specs.Prelude.{IfOk};
    ghost use Rattle.metrics_names.specs.Names.{key_eq};
    ghost use Rattle.metrics_shared_registry.specs.Made.{FitsKey};

    type Counter = S::Counter;

    type Gauge = S::Gauge;

    type Histogram = S::Histogram;

    ghost gives_counter = { λ r key handle. (c : S.Counter) × FitsKey key_eq S.makes_counter key c
        × S.Counter.is_clone c handle };

    ghost gives_gauge = { λ r key handle. (c : S.Gauge) × FitsKey key_eq S.makes_gauge key c × S.Gauge.is_clone c handle };

    ghost gives_histogram = { λ r key handle. (c : S.Histogram) × FitsKey key_eq S.makes_histogram key c
        × S.Histogram.is_clone c handle };

    ghost targets_of = { λ r kind name. 1 };

    fn epoch(&self) -> u64 {
        0
    }

    fn describe<W: Wait>(
        &self,
        _rt: &W,
        _alloc: Global,
        _kind: MetricKind,
        _name: &str,
        _unit: Option<Unit>,
        _text: &str,
    ) -> Result<usize, Error> {
        Ok(1)
    }

    fn counter<W: Wait>(&self, rt: &W, key: &Key) -> Result<S::Counter, Error> {
        let handle = |cell: &S::Counter| -> Result<S::Counter, AllocError>
            ensures { IfOk result (λ h. S.Counter.is_clone cell.now h) }
        { cell.clone() };
        Ok(self.get_or_create_counter(rt, key, handle)??)
    }

    fn gauge<W: Wait>(&self, rt: &W, key: &Key) -> Result<S::Gauge, Error> {
        let handle = |cell: &S::Gauge| -> Result<S::Gauge, AllocError>
            ensures { IfOk result (λ h. S.Gauge.is_clone cell.now h) }
        { cell.clone() };
        Ok(self.get_or_create_gauge(rt, key, handle)??)
    }

    fn histogram<W: Wait>(&self, rt: &W, key: &Key) -> Result<S::Histogram, Error> {
        let handle = |cell: &S::Histogram| -> Result<S::Histogram, AllocError>
            ensures { IfOk result (λ h. S.Histogram.is_clone cell.now h) }
        { cell.clone() };
        Ok(self.get_or_create_histogram(rt, key, handle)??)
    }
}
