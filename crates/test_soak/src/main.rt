//! Eight threads on the histograms of one registry and on one bucket, for as many seconds as the program's word says.
//! Six push into cells that are made if they aren't there, one clears, and one removes and expires cells. Each sample
//! is counted in and out. Eight more threads use a collector.
#![tactic(auto)]

mod collector;

ghost use Rattle.std.specs.Thread.{IsSync};

use anyhow::{Result, anyhow};
use metrics::{Error, Key, MetricKindMask};
use metrics_bucket::AtomicBucket;
use metrics_registry::Generation;
use metrics_shared_registry::{AtomicStorage, Recency, Registry};
use std::alloc::Global;
use std::env;
use std::rt::{Clock, Env};
use std::sync::Wait;
use std::thread::{self, Threads, join};
use std::time::Instant;

const THREADS: usize = 8;

/// The keys, each of which a round of pushes uses equally often.
const KEYS: usize = 16;

/// How many pushes are between two looks at the clock.
const PUSHES: usize = 256;

/// How many samples, and their sum modulo 2^64.
#[derive(Clone, Copy, PartialEq)]
struct Samples {
    count: u64,
    sum: u64,
}

impl Samples {
    fn none() -> Samples {
        Samples { count: 0, sum: 0 }
    }

    fn add(&mut self, values: &[i64]) {
        for value in values {
            self.join(Samples {
                count: 1,
                sum: value.cast_unsigned(),
            });
        }
    }

    fn join(&mut self, other: Samples) {
        self.count = self.count.wrapping_add(other.count);
        self.sum = self.sum.wrapping_add(other.sum);
    }
}

/// What went in and what came out.
#[derive(Clone, Copy)]
struct Counts {
    pushed: Samples,
    taken: Samples,
}

/// When the time is up.
#[derive(Clone, Copy)]
pub(crate) struct Deadline {
    start: Instant,
    seconds: u64,
}

impl Deadline {
    fn new<R: Clock>(rt: &R, seconds: u64) -> Result<Deadline> {
        Ok(Deadline {
            start: Instant::now(rt)?,
            seconds,
        })
    }

    /// Returns whether the time is up.
    pub fn is_over<R: Clock>(self, rt: &R) -> bool {
        match self.start.elapsed(rt) {
            Ok(passed) => passed.as_secs() >= self.seconds,
            Err(_) => true,
        }
    }
}

#[derive(Drop)]
struct Shared {
    alloc: Global,
    deadline: Deadline,
    keys: Vec<Key>,
    cells: Registry<Key, AtomicStorage>,
    recency: Recency<Key>,
    bucket: AtomicBucket<i64>,
}

fn keys(alloc: Global) -> Result<Vec<Key>> {
    let mut keys = Vec::new(alloc);
    for number in 0..KEYS {
        keys.push(Key::from_name(alloc, format!(in alloc; "key {number}")?.as_str())?)?;
    }
    Ok(keys)
}

impl Shared {
    fn new(alloc: Global, deadline: Deadline) -> Result<Shared> {
        Ok(Shared {
            alloc,
            deadline,
            keys: keys(alloc)?,
            cells: Registry::atomic(alloc, 4)?,
            bucket: AtomicBucket::new(alloc, 16)?,
            recency: Recency::new(alloc, MetricKindMask::HISTOGRAM, Some(2)),
        })
    }
}

/// Takes all samples, and retries while another walk is under way.
fn take<W: Wait>(rt: &W, bucket: &AtomicBucket<i64>, taken: &mut Samples) {
    for _ in rt.forever() {
        if bucket.clear_with(rt, |values| taken.add(values)).is_ok() {
            return;
        }
    }
}

/// Pushes into each key's histogram, which is made if it isn't there, and into the bucket. A full one rejects the value.
fn push<W: Wait>(rt: &W, on: &Shared, counts: &mut Counts) -> Result<(), Error> {
    for number in 0..PUSHES {
        let value = number as i64;
        let Some(key) = on.keys.get(number % KEYS) else {
            continue;
        };
        let record = |cell: &std::sync::Arc<AtomicBucket<i64>>| cell.push(rt, value).is_ok();
        if on.cells.get_or_create_histogram(rt, key, record)? {
            counts.pushed.add(&[value]);
        }
        if on.bucket.push(rt, value).is_ok() {
            counts.pushed.add(&[value]);
        }
    }
    Ok(())
}

/// Clears each histogram in place, and the bucket.
fn clear<W: Wait>(rt: &W, on: &Shared, counts: &mut Counts) {
    on.cells
        .visit_histograms(rt, |_, cell| take(rt, cell, &mut counts.taken));
    take(rt, &on.bucket, &mut counts.taken);
}

/// Removes histograms in three ways, and takes what they held: nobody else removes any, so no sample comes after that.
fn remove<W: Wait>(rt: &W, on: &Shared, counts: &mut Counts, now: u64) -> Result<(), Error> {
    for (key, cell) in &on.cells.get_histogram_handles(rt, on.alloc)? {
        let generation = Generation::new(0);
        if !on
            .recency
            .should_store_histogram(rt, key, generation, now, &on.cells)?
        {
            take(rt, cell, &mut counts.taken);
        }
    }
    if let Some(key) = on.keys.get((now % KEYS as u64) as usize)
        && let Some(cell) = on.cells.get_histogram(rt, key)?
    {
        on.cells.delete_histogram(rt, key);
        take(rt, &cell, &mut counts.taken);
    }
    let is_kept = now % 8 != 7;
    on.cells.retain_histograms(rt, |_, cell| {
        take(rt, cell, &mut counts.taken);
        is_kept
    });
    Ok(())
}

/// What one thread does until the time is up: the first removes, the second clears, all others push.
fn work<R: Clock + Wait>(rt: &R, on: &Shared, thread: usize) -> Result<Counts, Error> {
    let mut counts = Counts {
        pushed: Samples::none(),
        taken: Samples::none(),
    };
    for now in 0..u64::MAX {
        match thread {
            0 => remove(rt, on, &mut counts, now)?,
            1 => clear(rt, on, &mut counts),
            _ => push(rt, on, &mut counts)?,
        }
        if on.deadline.is_over(rt) {
            break;
        }
    }
    Ok(counts)
}

fn soak<R: Clock + Threads + Wait + Sync>(
    rt: &R,
    alloc: Global,
    deadline: Deadline,
) -> Result<Counts>
    requires { IsSync R.row }
{
    let on = &Shared::new(alloc, deadline)?;
    let mut counts = Counts {
        pushed: Samples::none(),
        taken: Samples::none(),
    };
    for worked in thread::map_indices(rt, on.alloc, THREADS, &|thread| work(rt, on, thread))? {
        let more = worked?;
        counts.pushed.join(more.pushed);
        counts.taken.join(more.taken);
    }
    clear(rt, on, &mut counts);
    Ok(counts)
}

fn seconds(rt: &(impl Env + AllocGlobal)) -> Result<u64> {
    match env::args(rt)?.skip(1).next() {
        Some(word) => Ok(word.parse::<u64>()?),
        None => Ok(1),
    }
}

/// Each sample that went in came out once.
fn expect_samples(counts: Counts) -> Result<()> {
    let (pushed, taken) = (counts.pushed, counts.taken);
    if pushed != taken || pushed.count == 0 {
        return Err(anyhow!(
            "{} of sum {} went in, {} of sum {} came out",
            pushed.count,
            pushed.sum,
            taken.count,
            taken.sum
        ));
    }
    Ok(())
}

fn main(rt: HostRuntime) -> Result<()> {
    let alloc = rt.alloc();
    let deadline = Deadline::new(&rt, seconds(&rt)?)?;
    let (counts, collected) = join(
        &rt,
        || soak(&rt, alloc, deadline),
        || collector::soak(&rt, alloc, deadline),
    );
    expect_samples(counts?)?;
    collected?;
    println!(rt; "each sample came out once")?;
    println!(rt; "each change of a collector's counters and histograms was shown once")?;
    Ok(())
}
