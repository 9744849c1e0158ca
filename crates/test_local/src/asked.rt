//! How often a `Local` asks its recorder, and of which epoch its handles are.

use crate::given::{KINDS, add};
use metrics::{Error, Key, MetricKind, Unit};
use metrics_cells::{CounterFn, GaugeFn, HistogramFn};
use metrics_layered::SharedRecorder;
use metrics_local::Local;
use std::alloc::Global;
use std::process::Abort;
use std::sync::Wait;
use std::sync::atomic::{AtomicBool, AtomicU64, Ordering};

/// A cell that does nothing.
#[derive(Clone, Drop)]
struct Nothing;

impl CounterFn for Nothing {
    fn increment(&self, _value: u64) {}

    fn absolute(&self, _value: u64) {}
}

impl GaugeFn for Nothing {
    fn increment<W: Wait>(&self, _rt: &W, _value: i64) {}

    fn decrement<W: Wait>(&self, _rt: &W, _value: i64) {}

    fn set(&self, _value: i64) {}
}

impl HistogramFn for Nothing {
    type Error = u8;

    fn record<W: Wait>(&self, _rt: &W, _value: i64) -> Result<(), u8> {
        Ok(())
    }
}

/// A recorder that counts how often it is asked. It can end an epoch while it is asked.
#[derive(Drop)]
struct Asked {
    epoch: AtomicU64,
    times: AtomicU64,
    ends_epochs: AtomicBool,
}

impl Asked {
    fn new() -> Asked {
        Asked {
            epoch: AtomicU64::new(7),
            times: AtomicU64::new(0),
            ends_epochs: AtomicBool::new(false),
        }
    }

    fn note(&self) {
        self.times.fetch_add(1, Ordering::SeqCst);
        if self.ends_epochs.load(Ordering::SeqCst) {
            self.epoch.fetch_add(1, Ordering::SeqCst);
        }
    }
}

impl SharedRecorder for Asked {
    ghost use Rattle.std.specs.Prelude.{⊤};

    type Counter = Nothing;

    type Gauge = Nothing;

    type Histogram = Nothing;

    ghost gives_counter = { λ on key handle. ⊤ };

    ghost gives_gauge = { λ on key handle. ⊤ };

    ghost gives_histogram = { λ on key handle. ⊤ };

    ghost targets_of = { λ on kind name. 1 };

    fn epoch(&self) -> u64 {
        self.epoch.load(Ordering::SeqCst)
    }

    fn describe<W: Wait>(
        &self,
        _rt: &W,
        _alloc: Global,
        _kind: MetricKind,
        _name: &str,
        _unit: Option<Unit>,
        _text: &str,
    ) -> Result<usize, Error> {
        Ok(1)
    }

    fn counter<W: Wait>(&self, _rt: &W, _key: &Key) -> Result<Nothing, Error> {
        self.note();
        Ok(Nothing)
    }

    fn gauge<W: Wait>(&self, _rt: &W, _key: &Key) -> Result<Nothing, Error> {
        self.note();
        Ok(Nothing)
    }

    fn histogram<W: Wait>(&self, _rt: &W, _key: &Key) -> Result<Nothing, Error> {
        self.note();
        Ok(Nothing)
    }
}

/// Looks up two names of each kind, some times.
fn look_up<R: AllocGlobal + Abort + Wait>(rt: &R, local: &mut Local<&Asked>, times: u32) {
    for _ in 0..times {
        for kind in KINDS {
            add(rt, local, kind, "a", 1);
            add(rt, local, kind, "b", 1);
        }
    }
}

/// A recorder is asked once for each kind and key in an epoch, however often that is looked up.
#[test]
fn a_recorder_is_asked_once_in_an_epoch(rt: HostRuntime) {
    let on = Asked::new();
    let mut local = Local::new(rt.alloc(), &on);
    look_up(&rt, &mut local, 3);
    assert!(&rt; on.times.load(Ordering::SeqCst) == 6);
    on.epoch.store(6, Ordering::SeqCst);
    look_up(&rt, &mut local, 3);
    assert!(&rt; on.times.load(Ordering::SeqCst) == 12);
    local.clear();
    look_up(&rt, &mut local, 3);
    assert!(&rt; on.times.load(Ordering::SeqCst) == 18);
}

/// A handle that was asked for while an epoch ended may be of a series that is gone, so the next look-up asks anew.
#[test]
fn a_handle_of_an_epoch_that_ended_meanwhile_is_asked_for_anew(rt: HostRuntime) {
    let on = Asked::new();
    let mut local = Local::new(rt.alloc(), &on);
    on.ends_epochs.store(true, Ordering::SeqCst);
    add(&rt, &mut local, MetricKind::Counter, "a", 1);
    on.ends_epochs.store(false, Ordering::SeqCst);
    assert!(&rt; on.times.load(Ordering::SeqCst) == 1);
    look_up(&rt, &mut local, 1);
    assert!(&rt; on.times.load(Ordering::SeqCst) == 7);
}
