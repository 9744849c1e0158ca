//! A recorder of one's own: it counts the calls that change something, and passes them through.
#![tactic(auto)]

ghost use Rattle.std.specs.Prelude.{◌≡◌};

use anyhow::Result;
use metrics::{
    Address, Error, Key, KeyName, MetricKind, Recorder, Refused, Reset, Snapshot, Unit, Update,
};
use metrics_debugging::DebuggingRecorder;
use std::alloc::Global;

#[derive(Drop)]
struct Counting<R> {
    on: R,
    calls: u64,
}

impl<R> Counting<R> {
    fn count(&mut self)
        ensures { self.new.on ≡ self.old.on }
    {
        self.calls = self.calls.saturating_add(1);
    }
}

impl<R: Recorder> Recorder for Counting<R> {
    ghost meaning = { λ c. R.meaning c.on };

    fn books(&self) -> usize {
        self.on.books()
    }

    fn describe(
        &mut self,
        alloc: Global,
        kind: MetricKind,
        name: &KeyName,
        unit: Option<Unit>,
        text: &str,
    ) -> Result<usize, Refused> {
        self.count();
        self.on.describe(alloc, kind, name, unit, text)
    }

    fn register(
        &mut self,
        alloc: Global,
        kind: MetricKind,
        key: &Key,
    ) -> Result<Vec<Address>, Refused> {
        self.count();
        self.on.register(alloc, kind, key)
    }

    fn holds(&self, kind: MetricKind, at: Address) -> bool {
        self.on.holds(kind, at)
    }

    fn update(&mut self, at: Address, by: Update) -> Result<(), Refused> {
        self.count();
        self.on.update(at, by)
    }

    fn snapshot_with(
        &mut self,
        alloc: Global,
        book: usize,
        reset: Reset,
    ) -> Result<Snapshot, Refused> {
        self.count();
        self.on.snapshot_with(alloc, book, reset)
    }
}

fn series_of_hits<R: Recorder>(alloc: Global, on: &mut R) -> Result<usize, Error> {
    let hits = on.register_counter(alloc, &Key::from_name(alloc, "hits")?)?;
    hits.increment(on, 2)?;
    Ok(on.snapshot(alloc, 0)?.as_slice().len())
}

/// How many calls a recorder met while the hits were counted, and how many series it has then.
fn count_hits<R: Recorder>(alloc: Global, on: R) -> Result<(u64, usize), Error> {
    let mut on = Counting { on, calls: 0 };
    let series = series_of_hits(alloc, &mut on)?;
    Ok((on.calls, series))
}

fn main(rt: HostRuntime) -> Result<()> {
    let alloc = rt.alloc();
    let (calls, series) = count_hits(alloc, DebuggingRecorder::new(alloc)?)?;
    println!(rt; "{calls} calls, {series} series")?;
    Ok(())
}
