//! A service under rules: eight workers count by a library, names begin with a prefix, names with a pattern go nowhere, the
//! histograms of a database go to a collector of their own, and a scraper writes each collector's text into a file.
#![tactic(auto)]

ghost use Rattle.std.specs.Thread.{IsSync};

use anyhow::{Result, anyhow};
use example_library::{Requests, describe};
use metrics::{Error, Label, MetricKindMask};
use metrics_util::collector::{Bounds, Collector, LabelList, Naming};
use metrics_util::exporter::write_textfile;
use metrics_util::layered::Layered;
use metrics_util::layers::{FilterLayer, PrefixLayer};
use metrics_util::rules::{RouterBuilder, Rules};
use std::alloc::Global;
use std::fs;
use std::rt::Files;
use std::sync::Wait;
use std::thread::{Threads, join, map_indices};

/// The file of each collector.
const FILES: [&str; 2] = ["service.prom", "db.prom"];

/// Prefix `app`, then a filter of `debug`; histograms of `app.db.` go to leaf 1, and all else to leaf 0.
fn rules(alloc: Global) -> Result<Rules, Error> {
    let mut router = RouterBuilder::new(alloc, Rules::leaf());
    router.add_route(MetricKindMask::HISTOGRAM, "app.db.", Rules::leaf())?;
    let filter = FilterLayer::from_patterns(alloc, &["debug"])?;
    let below = router.build().filter(alloc, &filter)?;
    Ok(below.prefix(alloc, &PrefixLayer::new(alloc, "app")?)?)
}

/// A collector whose series leave after 60 seconds without a change.
fn collector(alloc: Global, bounds: &[i64]) -> Result<Collector> {
    let bounds = Bounds::new(alloc, bounds)?;
    let collector = Collector::new(alloc, 4, MetricKindMask::ALL, Some(60), bounds)?;
    let collector = collector.with_naming(Naming::Recommended);
    let labelled = collector.with_labels(Label::list(alloc, &[("zone", "east")])?);
    Ok(labelled.map_err(|bad| bad.0)?)
}

/// Writes the text of each collector at a moment, in seconds, into its file.
fn scrape<R: AllocGlobal + Files + Wait>(rt: &R, on: &Layered<Collector>, now: u64) -> Result<()> {
    for leaf in 0..FILES.len() {
        if let Some(collector) = on.leaf(leaf) {
            let text = collector.render(rt, rt.alloc(), now)?;
            write_textfile(rt, rt.alloc(), FILES[leaf], text.as_str())?;
        }
    }
    Ok(())
}

/// Answers 1,000 requests.
fn work<R: AllocGlobal + Wait>(rt: &R, on: &Layered<Collector>) -> Result<(), Error> {
    let requests = Requests::new(rt, on)?;
    for request in 0..1000 {
        requests.answer(rt, request % 100, request % 20);
    }
    Ok(())
}

fn serve<R: AllocGlobal + Files + Threads + Wait + Sync>(
    rt: &R,
    on: &Layered<Collector>,
) -> Result<()>
    requires { IsSync R.row }
{
    describe(rt, on)?;
    let workers = || map_indices(rt, rt.alloc(), 8, &|_| work(rt, on));
    let (worked, scraped) = join(rt, workers, || scrape(rt, on, 10));
    scraped?;
    for one in worked? {
        one?;
    }
    scrape(rt, on, 20)
}

fn main(rt: HostRuntime) -> Result<()> {
    let alloc = rt.alloc();
    let collectors = vec![in alloc; collector(alloc, &[10, 50])?, collector(alloc, &[5, 15])?]?;
    let Ok(on) = Layered::new(alloc, rules(alloc)?, collectors) else {
        return Err(anyhow!("a collector for each leaf"));
    };
    serve(&rt, &on)?;
    for file in FILES {
        print!(rt; "{}", fs::read_to_string(&rt, file)?)?;
        fs::remove_file(&rt, file)?;
    }
    Ok(())
}
