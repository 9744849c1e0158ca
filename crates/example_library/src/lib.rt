//! A library that tells of the requests that it answers, on any recorder that threads share. It names no collector and no layer.
#![tactic(auto)]

ghost use Rattle.std.specs.Prelude.{◌≡◌, [], IfErr, MatchResult};
ghost use Rattle.metrics.specs.declared.error.Error.TheVariants.{Memory as OutOfMemory};

#[cfg(test)]
mod tests;

use metrics::{Error, Key, MetricKind, Unit};
use metrics_util::layered::SharedRecorder;
use metrics_util::{CounterFn, GaugeFn, HistogramFn};
use std::sync::Wait;

/// Replaces the texts and units of the metrics. Fails only when out of memory.
pub fn describe<R: AllocGlobal + Wait, S: SharedRecorder>(rt: &R, on: &S) -> Result<(), Error>
    ensures { IfErr result (λ e. e ≡ OutOfMemory) }
{
    let alloc = rt.alloc();
    let kind = MetricKind::Counter;
    on.describe(rt, alloc, kind, "requests", None, "answered requests")?;
    let unit = Some(Unit::Milliseconds);
    for (name, text) in [
        ("http.took", "until the answer"),
        ("db.took", "of which in the database"),
    ] {
        on.describe(rt, alloc, MetricKind::Histogram, name, unit, text)?;
    }
    Ok(())
}

fn counter<R: AllocGlobal + Wait, S: SharedRecorder>(
    rt: &R,
    on: &S,
    name: &str,
) -> Result<S::Counter, Error>
    ensures { IfErr result (λ e. e ≡ OutOfMemory) }
{
    on.counter(rt, &Key::from_name(rt.alloc(), name)?)
}

fn gauge<R: AllocGlobal + Wait, S: SharedRecorder>(
    rt: &R,
    on: &S,
    name: &str,
) -> Result<S::Gauge, Error>
    ensures { IfErr result (λ e. e ≡ OutOfMemory) }
{
    on.gauge(rt, &Key::from_name(rt.alloc(), name)?)
}

fn histogram<R: AllocGlobal + Wait, S: SharedRecorder>(
    rt: &R,
    on: &S,
    name: &str,
) -> Result<S::Histogram, Error>
    ensures { IfErr result (λ e. e ≡ OutOfMemory) }
{
    on.histogram(rt, &Key::from_name(rt.alloc(), name)?)
}

/// The metrics of one worker.
#[derive(Drop)]
pub struct Requests<S: SharedRecorder> {
    answered: S::Counter,
    debug: S::Counter,
    open: S::Gauge,
    took: S::Histogram,
    query: S::Histogram,
}

impl<S: SharedRecorder> Requests<S> {
    /// Asks for the handles, once for each worker. Fails only when out of memory.
    pub fn new<R: AllocGlobal + Wait>(rt: &R, on: &S) -> Result<Requests<S>, Error>
        ensures { IfErr result (λ e. e ≡ OutOfMemory) }
    {
        Ok(Requests {
            answered: counter(rt, on, "requests")?,
            debug: counter(rt, on, "debug.calls")?,
            open: gauge(rt, on, "http.open")?,
            took: histogram(rt, on, "http.took")?,
            query: histogram(rt, on, "db.took")?,
        })
    }

    /// Tells of a request: its milliseconds until the answer, and of those the ones in the database.
    pub fn answer<W: Wait>(&self, rt: &W, took: i64, query: i64) {
        self.open.increment(rt, 1);
        self.debug.increment(1);
        let _full = self.took.record(rt, took);
        let _full = self.query.record(rt, query);
        self.answered.increment(1);
        self.open.decrement(rt, 1);
    }
}
