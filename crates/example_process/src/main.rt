//! Metrics of the process beside those of a collector, read from files of Linux when a scraper asks.
#![tactic(auto)]

#[cfg(test)]
mod tests;
mod usage;

use crate::usage::{Usage, read_usage};
use anyhow::Result;
use metrics::{Error, Key, MetricKind, MetricKindMask, Unit};
use metrics_util::collector::{Bounds, Collector, Gathered, Naming};
use std::rt::Files;
use std::sync::Wait;

/// Kind, name and unit of each, and what it is. Under `Naming::Recommended` they have Prometheus's standard names, such as
/// `process_cpu_seconds_total`.
const DESCRIBED: [(MetricKind, &str, Option<Unit>, &str); 6] = [
    (
        MetricKind::Counter,
        "process.cpu",
        Some(Unit::Milliseconds),
        "Total user and system CPU time spent in seconds.",
    ),
    (
        MetricKind::Gauge,
        "process.resident_memory",
        Some(Unit::Bytes),
        "Resident memory size in bytes.",
    ),
    (
        MetricKind::Gauge,
        "process.virtual_memory",
        Some(Unit::Bytes),
        "Virtual memory size in bytes.",
    ),
    (
        MetricKind::Gauge,
        "process.open_fds",
        None,
        "Number of open file descriptors.",
    ),
    (
        MetricKind::Gauge,
        "process.max_fds",
        None,
        "Maximum number of open file descriptors.",
    ),
    (
        MetricKind::Gauge,
        "process.start_time",
        Some(Unit::Milliseconds),
        "Start time of the process since unix epoch in seconds.",
    ),
];

fn describe_process<R: AllocGlobal + Wait>(rt: &R, on: &Collector) -> Result<(), Error> {
    for (kind, name, unit, text) in DESCRIBED {
        on.describe(rt, rt.alloc(), kind, name, unit, text)?;
    }
    Ok(())
}

/// Adds a gauge, if there is a value.
fn push_gauge<R: AllocGlobal>(
    rt: &R,
    gathered: &mut Gathered,
    name: &str,
    value: Option<i64>,
) -> Result<(), Error> {
    if let Some(value) = value {
        gathered.push_gauge(Key::from_name(rt.alloc(), name)?, value)?;
    }
    Ok(())
}

/// Adds what the process uses to what was gathered.
fn push_process<R: AllocGlobal>(
    rt: &R,
    gathered: &mut Gathered,
    usage: &Usage,
) -> Result<(), Error> {
    if let Some(cpu) = usage.cpu_milliseconds {
        gathered.push_counter(Key::from_name(rt.alloc(), "process.cpu")?, cpu)?;
    }
    push_gauge(
        rt,
        gathered,
        "process.resident_memory",
        usage.resident_bytes,
    )?;
    push_gauge(rt, gathered, "process.virtual_memory", usage.virtual_bytes)?;
    push_gauge(rt, gathered, "process.open_fds", usage.open_files)?;
    push_gauge(rt, gathered, "process.max_fds", usage.most_files)?;
    push_gauge(rt, gathered, "process.start_time", usage.start_milliseconds)
}

/// Returns the text of the collector's series and of the process.
fn scrape<R: AllocGlobal + Clone + Drop + Files + Wait>(
    rt: &R,
    on: &Collector,
    now: u64,
) -> Result<String, Error> {
    let mut gathered = on.gather(rt, rt.alloc(), now)?;
    push_process(rt, &mut gathered, &read_usage(rt))?;
    on.text_of(rt, rt.alloc(), &gathered)
}

/// Counts, scrapes, and prints the lines that are the same in each run: the types.
fn main(rt: HostRuntime) -> Result<()> {
    let bounds = Bounds::new(rt.alloc(), &[10])?;
    let on = Collector::new(rt.alloc(), 1, MetricKindMask::ALL, None, bounds)?;
    let on = on.with_naming(Naming::Recommended);
    describe_process(&rt, &on)?;
    let jobs = on.counter(&rt, &Key::from_name(rt.alloc(), "jobs.done")?)?;
    jobs.increment(3);
    let text = scrape(&rt, &on, 0)?;
    for line in text.lines() {
        if line.starts_with("# TYPE ") {
            println!(rt; "{line}")?;
        }
    }
    Ok(())
}
