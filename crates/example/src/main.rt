//! Counts under a prefix and past a filter, as the text that Prometheus collects.
#![tactic(auto)]

use anyhow::Result;
use metrics::{Error, Key, MetricKindMask, Recorder, Reset, Snapshot};
use metrics_util::debugging::DebuggingRecorder;
use metrics_util::exporter::{Exporter, exposition};
use metrics_util::layers::{Child, FilterLayer, PrefixLayer};
use std::alloc::Global;

fn tree(alloc: Global) -> Result<Child<DebuggingRecorder>, Error> {
    let prefix = PrefixLayer::new(alloc, "app")?;
    let filter = FilterLayer::from_patterns(alloc, &["debug"])?;
    let book = Child::leaf(DebuggingRecorder::new(alloc)?);
    Ok(book.prefix(alloc, &prefix)?.filter(alloc, &filter)?)
}

/// Counts two names, and answers what the book has.
fn count<R: Recorder>(alloc: Global, mut on: R) -> Result<Snapshot, Error> {
    for (name, by) in [("hits", 2), ("debug.hits", 5)] {
        let counter = on.register_counter(alloc, &Key::from_name(alloc, name)?)?;
        counter.increment(&mut on, by)?;
    }
    Ok(on.snapshot_with(alloc, 0, Reset::KeepGauges)?)
}

fn main(rt: HostRuntime) -> Result<()> {
    let alloc = rt.alloc();
    let mut exporter = Exporter::new(alloc, 1, MetricKindMask::ALL, Some(60), &[10])?;
    exporter.absorb(&count(alloc, tree(alloc)?)?)?;
    print!(rt; "{}", exposition(&exporter, alloc)?)?;
    Ok(())
}
