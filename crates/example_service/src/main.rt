//! A service: eight workers count what they do, while a scraper keeps Prometheus's text in a file.
#![tactic(auto)]

ghost use Rattle.std.specs.Thread.{IsSync};

use anyhow::Result;
use metrics::{Error, Key, MetricKindMask};
use metrics_util::collector::{Bounds, Collector};
use metrics_util::exporter::write_textfile;
use std::fs;
use std::rt::{Clock, Files};
use std::sync::Wait;
use std::sync::atomic::{AtomicBool, Ordering};
use std::thread::{Threads, join, map_indices, sleep};
use std::time::{Duration, Instant};

/// What node_exporter's textfile collector reads.
const FILE: &str = "service.prom";

/// Makes handles once, and then updates without a look-up. The gauge goes down before an error leaves the loop.
fn work<R: AllocGlobal + Wait>(rt: &R, on: &Collector) -> Result<(), Error> {
    let requests = on.counter(rt, &Key::from_name(rt.alloc(), "http.requests")?)?;
    let open = on.gauge(rt, &Key::from_name(rt.alloc(), "http.open")?)?;
    let took = on.histogram(rt, &Key::from_name(rt.alloc(), "http.ms")?)?;
    for request in 0..1000 {
        open.increment(rt, 1);
        requests.increment(1);
        let recorded = took.record(rt, request % 100);
        open.decrement(rt, 1);
        recorded?;
    }
    Ok(())
}

/// Keeps the text in the file, ten times a second, and once more after the flag is set.
fn scrape<R: AllocGlobal + Clock + Files + Wait>(
    rt: &R,
    on: &Collector,
    start: Instant,
    is_over: &AtomicBool,
) -> Result<()> {
    for _ in rt.forever() {
        let is_last = is_over.load(Ordering::SeqCst);
        let text = on.render_after(rt, rt.alloc(), start.elapsed(rt)?)?;
        write_textfile(rt, rt.alloc(), FILE, text.as_str())?;
        if is_last {
            break;
        }
        sleep(rt, Duration::from_millis(100));
    }
    Ok(())
}

fn serve<R: AllocGlobal + Clock + Files + Threads + Wait + Sync>(
    rt: &R,
    on: &Collector,
) -> Result<()>
    requires { IsSync R.row }
{
    let start = Instant::now(rt)?;
    let is_over = AtomicBool::new(false);
    let workers = || {
        let worked = map_indices(rt, rt.alloc(), 8, &|_| work(rt, on));
        is_over.store(true, Ordering::SeqCst);
        worked
    };
    let (worked, scraped) = join(rt, workers, || scrape(rt, on, start, &is_over));
    scraped?;
    for one in worked? {
        one?;
    }
    Ok(())
}

fn main(rt: HostRuntime) -> Result<()> {
    let bounds = Bounds::new(rt.alloc(), &[10, 50])?;
    let on = Collector::new(rt.alloc(), 4, MetricKindMask::ALL, Some(60), bounds)?;
    serve(&rt, &on.with_left_out_gauge())?;
    print!(rt; "{}", fs::read_to_string(&rt, FILE)?)?;
    fs::remove_file(&rt, FILE)?;
    Ok(())
}
