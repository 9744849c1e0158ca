//! Asks the recorder of each target of a key for a handle.
ghost use Rattle.std.specs.Prelude.{◌≡◌, IfOk, IfErr};
ghost use Rattle.metrics.specs.declared.error.Error.TheVariants.{Memory as OutOfMemory};
ghost use Rattle.metrics_names.specs.Names.{KeyParts};
ghost use Rattle.metrics_names.specs.declared.kind.MetricKind.{MetricKind as AnyKind};
ghost use Rattle.metrics_names.specs.declared.kind.MetricKind.TheVariants.{Counter as CounterKind, Gauge as GaugeKind};
ghost use Rattle.metrics_names.specs.declared.kind.MetricKind.TheVariants.{Histogram as HistogramKind};
ghost use Rattle.metrics_rules.specs.Meanings.{rules_meaning};
ghost use Rattle.metrics_layered.specs.Handing.{handles_of, AreGiven};

use crate::handles::Handles;
use crate::recorder::SharedRecorder;
use metrics::{Error, Key, MetricKind, Refused};
use metrics_rules::{Rules, Scratch, Visitor};
use std::alloc::Global;
use std::sync::Wait;

/// Asks recorders `R` for handles of one kind.
pub(crate) trait Asks<R> {
    type Handle: Drop;

    /// The kind of the handles.
    ghost of_kind: { AnyKind };

    /// Whether a handle is one that a recorder gives for the key.
    ghost gives: { R → KeyParts → Self.Handle → Type 0 };

    fn kind() -> MetricKind
        ensures { result ≡ of_kind };

    /// Asks a recorder for a handle of the cell that a key names.
    fn ask<W: Wait>(recorder: &R, rt: &W, key: &Key) -> Result<Self::Handle, Error>
        ensures { IfOk result (gives recorder.now key.now) };
}

/// Asks for counters.
pub(crate) struct Counters;

impl<R: SharedRecorder> Asks<R> for Counters {
    type Handle = R::Counter;

    ghost of_kind = { CounterKind };

    ghost gives = { λ recorder key handle. R.gives_counter recorder key handle };

    fn kind() -> MetricKind {
        MetricKind::Counter
    }

    fn ask<W: Wait>(recorder: &R, rt: &W, key: &Key) -> Result<R::Counter, Error> {
        recorder.counter(rt, key)
    }
}

/// Asks for gauges.
pub(crate) struct Gauges;

impl<R: SharedRecorder> Asks<R> for Gauges {
    type Handle = R::Gauge;

    ghost of_kind = { GaugeKind };

    ghost gives = { λ recorder key handle. R.gives_gauge recorder key handle };

    fn kind() -> MetricKind {
        MetricKind::Gauge
    }

    fn ask<W: Wait>(recorder: &R, rt: &W, key: &Key) -> Result<R::Gauge, Error> {
        recorder.gauge(rt, key)
    }
}

/// Asks for histograms.
pub(crate) struct Histograms;

impl<R: SharedRecorder> Asks<R> for Histograms {
    type Handle = R::Histogram;

    ghost of_kind = { HistogramKind };

    ghost gives = { λ recorder key handle. R.gives_histogram recorder key handle };

    fn kind() -> MetricKind {
        MetricKind::Histogram
    }

    fn ask<W: Wait>(recorder: &R, rt: &W, key: &Key) -> Result<R::Histogram, Error> {
        recorder.histogram(rt, key)
    }
}

/// Asks the recorder of each leaf that it is shown.
#[derive(Drop)]
struct Asking<'a, A: Asks<R>, R, W> {
    rt: &'a W,
    alloc: Global,
    recorders: &'a [R],
    found: Handles<A::Handle>,
}

impl<A: Asks<R>, R, W: Wait> Visitor<Key> for Asking<'_, A, R, W> {
    ghost use Rattle.std.specs.Prelude.{◌≡◌, ◌++◌, ◌∷◌, [], slice_get, Some};
    ghost use Rattle.metrics_layered.specs.Handing.{handles_of as found_by};

    ghost accepts = { λ v leaf key w. (h : A.Handle) × (r : R) × (slice_get v.recorders.now leaf ≡ Some r) × A.gives r key h
        × (found_by w.found ≡ found_by v.found ++ h ∷ []) × (w.recorders.now ≡ v.recorders.now) };

    ghost refuses = { λ v leaf key e w. Unit {0} };

    fn visit(&mut self, leaf: usize, key: &Key) -> Result<(), Refused> {
        let Some(recorder) = self.recorders.get(leaf) else {
            return Err(Refused::NoSuchBook);
        };
        match A::ask(recorder, self.rt, key) {
            Ok(handle) => Ok(self.found.push(self.alloc, handle)?),
            Err(_) => Err(Refused::Memory { acted: 0 }),
        }
    }
}

/// Returns the handles of a key's targets, in order: for each, one that the recorder of its leaf gives for the key as it is
/// there.
pub(crate) fn handles_under<A: Asks<R>, R, W: Wait>(
    rt: &W,
    alloc: Global,
    rules: &Rules,
    recorders: &[R],
    key: &Key,
) -> Result<Handles<A::Handle>, Error>
    ensures given { IfOk result (λ found. AreGiven A.gives recorders.now key.now.labels
        ((rules_meaning rules.now).targets A.of_kind key.now.name) (handles_of found)) }
    ensures err { IfErr result (λ e. e ≡ OutOfMemory) }
{
    let mut scratch = Scratch::new(alloc);
    let mut asking: Asking<A, R, W> = Asking {
        rt,
        alloc,
        recorders,
        found: Handles::noop(),
    };
    match rules.visit(A::kind(), key, &mut scratch, &mut asking) {
        Ok(_count) => Ok(asking.found),
        Err(_stopped) => Err(Error::Memory),
    }
}
