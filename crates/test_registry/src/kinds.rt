//! Registries with one owner and under locks as maps from a kind and a key to a cell that ones are added to.

use metrics::{Error, Key, MetricKind};
use metrics_bucket::AtomicBucket;
use metrics_registry::{OwnedRegistry, Storage};
use metrics_shared_registry::{AtomicStorage, Generational, Registry};
use std::alloc::Global;
use std::collections::HashMap;
use std::sync::atomic::{AtomicU64, Ordering};
use std::sync::{Arc, Wait};

/// All kinds.
pub const KINDS: [MetricKind; 3] = [
    MetricKind::Counter,
    MetricKind::Gauge,
    MetricKind::Histogram,
];

/// The call of a kind, of three names. With a function, what it makes of that call's answer.
macro_rules! of_kind {
    ($kind:expr, $on:expr, $counters:ident $gauges:ident $histograms:ident, $given:tt) => {
        match $kind {
            MetricKind::Counter => $on.$counters $given,
            MetricKind::Gauge => $on.$gauges $given,
            MetricKind::Histogram => $on.$histograms $given,
        }
    };
    ($kind:expr, $then:ident($with:expr), $on:expr, $counters:ident $gauges:ident $histograms:ident, $given:tt) => {
        match $kind {
            MetricKind::Counter => $then($with, $on.$counters $given),
            MetricKind::Gauge => $then($with, $on.$gauges $given),
            MetricKind::Histogram => $then($with, $on.$histograms $given),
        }
    };
}

pub(crate) use of_kind;

/// A cell that any thread may change. Adding allocates nothing.
pub trait Cell: Clone + Drop {
    fn add<W: Wait>(&self, rt: &W);

    /// Returns how many ones were added.
    fn ones<W: Wait>(&self, rt: &W) -> u64;
}

impl Cell for Arc<AtomicU64> {
    fn add<W: Wait>(&self, _rt: &W) {
        self.fetch_add(1, Ordering::SeqCst);
    }

    fn ones<W: Wait>(&self, _rt: &W) -> u64 {
        self.load(Ordering::SeqCst)
    }
}

impl Cell for Arc<AtomicBucket<i64>> {
    fn add<W: Wait>(&self, rt: &W) {
        let _ = self.push(rt, 1);
    }

    fn ones<W: Wait>(&self, rt: &W) -> u64 {
        self.data_with(rt, |_: &[i64]| {}).unwrap_or(0) as u64
    }
}

/// A clone allocates, and has the very cell.
impl<T: Cell> Cell for Box<T> {
    fn add<W: Wait>(&self, rt: &W) {
        (**self).add(rt);
    }

    fn ones<W: Wait>(&self, rt: &W) -> u64 {
        (**self).ones(rt)
    }
}

impl<T: Cell> Cell for Generational<T> {
    fn add<W: Wait>(&self, rt: &W) {
        self.with_increment(|cell: &T| cell.add(rt));
    }

    fn ones<W: Wait>(&self, rt: &W) -> u64 {
        self.get_inner().ones(rt)
    }
}

/// How a call of get-or-create ended.
#[derive(Clone, Copy)]
pub struct Added {
    /// How often the closure was called.
    pub calls: u64,
    /// How many ones the cell has then.
    pub ones: Result<u64, Error>,
}

/// How many handles a list has, and how many ones the cell has that it has for a key.
pub type Handles = (usize, Option<u64>);

/// A kind and a key whose handles are asked for, and whether a one is added through that of the key.
pub type Asked<'a> = (MetricKind, &'a Key, bool);

/// A map from kinds and keys to cells.
pub trait Entries: Drop {
    /// Adds a one to a cell, which is made if the key isn't held.
    fn add<W: Wait>(&mut self, rt: &W, kind: MetricKind, key: &Key) -> Added;

    /// Returns how many ones were added to a cell, if the key is held.
    fn ones<W: Wait>(&self, rt: &W, kind: MetricKind, key: &Key) -> Result<Option<u64>, Error>;

    /// Returns the list of handles. A one may be added through that of the key.
    fn handles<W: Wait>(&self, rt: &W, alloc: Global, asked: Asked<'_>) -> Result<Handles, Error>;

    /// Keeps the names that begin with a text. Returns how often the closure was called.
    fn retain<W: Wait>(&mut self, rt: &W, kind: MetricKind, prefix: &str) -> usize;

    /// Returns how often a visit's closure is called.
    fn visits<W: Wait>(&self, rt: &W, kind: MetricKind) -> usize;

    fn delete<W: Wait>(&mut self, rt: &W, kind: MetricKind, key: &Key) -> bool;

    fn clear<W: Wait>(&mut self, rt: &W);
}

/// Whether a key's name begins with a text. It counts its calls.
fn begins(calls: &mut usize, key: &Key, prefix: &str) -> bool {
    *calls = calls.wrapping_add(1);
    key.name().starts_with(prefix)
}

/// Adds a one, counts the call, and returns how many ones there are.
fn add_one<W: Wait, C: Cell>(rt: &W, calls: &mut u64, cell: &C) -> u64 {
    *calls = calls.wrapping_add(1);
    cell.add(rt);
    cell.ones(rt)
}

fn ones_of<W: Wait, C: Cell>(rt: &W, found: Option<&C>) -> Result<Option<u64>, Error> {
    match found {
        Some(cell) => Ok(Some(cell.ones(rt))),
        None => Ok(None),
    }
}

fn ones_of_clone<W: Wait, C: Cell>(
    rt: &W,
    found: Result<Option<C>, Error>,
) -> Result<Option<u64>, Error> {
    match found {
        Ok(Some(cell)) => Ok(Some(cell.ones(rt))),
        Ok(None) => Ok(None),
        Err(error) => Err(error),
    }
}

fn listed<W: Wait, C: Cell>(
    (rt, (_, key, adds)): (&W, Asked<'_>),
    handles: Result<HashMap<Key, C>, Error>,
) -> Result<Handles, Error> {
    match handles {
        Ok(handles) => {
            let ones = match handles.get(key) {
                Some(cell) => {
                    if adds {
                        cell.add(rt);
                    }
                    Some(cell.ones(rt))
                }
                None => None,
            };
            Ok((handles.len(), ones))
        }
        Err(error) => Err(error),
    }
}

impl Entries for OwnedRegistry<Key, AtomicStorage> {
    fn add<W: Wait>(&mut self, rt: &W, kind: MetricKind, key: &Key) -> Added {
        let mut calls = 0u64;
        let ones = of_kind!(kind, self,
            get_or_create_counter get_or_create_gauge get_or_create_histogram,
            (key, |cell| add_one(rt, &mut calls, cell)));
        Added { calls, ones }
    }

    fn ones<W: Wait>(&self, rt: &W, kind: MetricKind, key: &Key) -> Result<Option<u64>, Error> {
        of_kind!(kind, ones_of(rt), self, get_counter get_gauge get_histogram, (key))
    }

    fn handles<W: Wait>(&self, rt: &W, alloc: Global, asked: Asked<'_>) -> Result<Handles, Error> {
        of_kind!(asked.0, listed((rt, asked)), self,
            get_counter_handles get_gauge_handles get_histogram_handles, (alloc))
    }

    fn retain<W: Wait>(&mut self, _rt: &W, kind: MetricKind, prefix: &str) -> usize {
        let mut calls = 0usize;
        of_kind!(kind, self, retain_counters retain_gauges retain_histograms,
            (|key: &Key, _| begins(&mut calls, key, prefix)));
        calls
    }

    fn visits<W: Wait>(&self, _rt: &W, kind: MetricKind) -> usize {
        let mut calls = 0usize;
        of_kind!(kind, self, visit_counters visit_gauges visit_histograms,
            (|_, _| calls = calls.wrapping_add(1)));
        calls
    }

    fn delete<W: Wait>(&mut self, _rt: &W, kind: MetricKind, key: &Key) -> bool {
        of_kind!(kind, self, delete_counter delete_gauge delete_histogram, (key))
    }

    fn clear<W: Wait>(&mut self, _rt: &W) {
        OwnedRegistry::clear(self);
    }
}

impl<S: Storage<Key> + Drop> Entries for &Registry<Key, S>
where
    S::Counter: Cell,
    S::Gauge: Cell,
    S::Histogram: Cell,
{
    fn add<W: Wait>(&mut self, rt: &W, kind: MetricKind, key: &Key) -> Added {
        let mut calls = 0u64;
        let ones = of_kind!(kind, self,
            get_or_create_counter get_or_create_gauge get_or_create_histogram,
            (rt, key, |cell| add_one(rt, &mut calls, cell)));
        Added { calls, ones }
    }

    fn ones<W: Wait>(&self, rt: &W, kind: MetricKind, key: &Key) -> Result<Option<u64>, Error> {
        of_kind!(kind, ones_of_clone(rt), self, get_counter get_gauge get_histogram, (rt, key))
    }

    fn handles<W: Wait>(&self, rt: &W, alloc: Global, asked: Asked<'_>) -> Result<Handles, Error> {
        of_kind!(asked.0, listed((rt, asked)), self,
            get_counter_handles get_gauge_handles get_histogram_handles, (rt, alloc))
    }

    fn retain<W: Wait>(&mut self, rt: &W, kind: MetricKind, prefix: &str) -> usize {
        let mut calls = 0usize;
        of_kind!(kind, self, retain_counters retain_gauges retain_histograms,
            (rt, |key: &Key, _| begins(&mut calls, key, prefix)));
        calls
    }

    fn visits<W: Wait>(&self, rt: &W, kind: MetricKind) -> usize {
        let mut calls = 0usize;
        of_kind!(kind, self, visit_counters visit_gauges visit_histograms,
            (rt, |_, _| calls = calls.wrapping_add(1)));
        calls
    }

    fn delete<W: Wait>(&mut self, rt: &W, kind: MetricKind, key: &Key) -> bool {
        of_kind!(kind, self, delete_counter delete_gauge delete_histogram, (rt, key))
    }

    fn clear<W: Wait>(&mut self, rt: &W) {
        Registry::clear(self, rt);
    }
}
