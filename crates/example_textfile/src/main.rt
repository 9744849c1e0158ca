//! Keeps Prometheus's text in a file, for node_exporter's textfile collector.
#![tactic(auto)]

use anyhow::Result;
use metrics::{Error, Key, MetricKindMask};
use metrics_util::collector::{Bounds, Collector};
use metrics_util::exporter::write_textfile;
use std::fs;
use std::rt::Files;
use std::sync::Wait;

/// Keeps the text in the file, so that no reader sees a part of it.
fn publish<R: AllocGlobal + Files + Wait>(rt: &R, on: &Collector, path: &str) -> Result<()> {
    let text = on.render(rt, rt.alloc(), 0)?;
    write_textfile(rt, rt.alloc(), path, text.as_str())?;
    Ok(())
}

fn count<R: AllocGlobal + Wait>(rt: &R, on: &Collector) -> Result<(), Error> {
    let jobs = on.counter(rt, &Key::from_name(rt.alloc(), "jobs.done")?)?;
    jobs.increment(3);
    Ok(())
}

fn main(rt: HostRuntime) -> Result<()> {
    let bounds = Bounds::new(rt.alloc(), &[10])?;
    let on = Collector::new(rt.alloc(), 1, MetricKindMask::ALL, None, bounds)?;
    count(&rt, &on)?;
    publish(&rt, &on, "jobs.prom")?;
    print!(rt; "{}", fs::read_to_string(&rt, "jobs.prom")?)?;
    fs::remove_file(&rt, "jobs.prom")?;
    Ok(())
}
