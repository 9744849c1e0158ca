//! The storm as a whole.
ghost use Rattle.std.specs.Prelude.{◌≡◌, ◌+◌, ◌-◌, ◌*◌, ◌<◌, ◌≤◌, ◌^◌, length, None, IfOk, IfErr};
ghost use Rattle.std.specs.Prelude.{All};
ghost use Rattle.tool_grammar.specs.declared.error.RunError.TheVariants.{Memory};
ghost use Rattle.tool_storm.specs.Numbers.{sum_below};
ghost use Rattle.tool_storm.specs.Pens.{IsFresh, weights};
ghost use Rattle.tool_storm.specs.Ran.{IsRan};

use crate::bucket::Bucket;
use crate::gate::Gate;
use crate::pens::split_among;
use crate::shared::Shared;
use crate::threads::{Ran, run};
use metrics_bucket::{RuledBucket, Visitor};
use metrics_growing::GrowingBucket;
use metrics_shared::reservoir::AtomicSamplingReservoir;
use rand_core::{Rng, SeedableRng};
use rand_xoshiro::Xoshiro256PlusPlus;
use std::alloc::Global;
use std::sync::Wait;
use std::sync::atomic::AtomicUsize;
use std::thread::{self, Threads};
use tool_grammar::RunError;

/// How many values the reservoir keeps.
const SAMPLES: usize = 16;

/// What a storm's threads did.
#[derive(Clone, Copy, PartialEq, Eq, Debug, Drop)]
pub struct Totals {
    /// How many values the workers pushed into the bucket, and their sum.
    pub pushed: (u64, u64),
    /// How many values the clearer and `settle` found, and their sum.
    pub found: (u64, u64),
    /// How many values the reservoir held, of how many that were pushed into it, and the sum of those pushed.
    pub sampled: (u64, u64, i128),
    /// How many workers the gate stopped.
    pub stopped: usize,
}

/// What a reservoir held, how many values were pushed into it, and their sum.
fn sampled<R: Wait, G: Rng + Drop>(
    rt: &R,
    reservoir: &AtomicSamplingReservoir<G>,
) -> (u64, u64, i128) {
    let mut totals = (0, 0, 0);
    reservoir.consume(rt, |drain| {
        totals = (
            drain.len() as u64,
            drain.unsampled_len(),
            drain.unsampled_sum(),
        );
    });
    totals
}

/// The bucket and the reservoir, a pen for each worker, and one for the clearer.
fn prepared<B: Bucket>(
    alloc: Global,
    pushers: usize,
    values: u64,
    blocks: usize,
) -> Result<(Shared<B>, Vec<B::Pen>, B::Pen), RunError>
    requires pushers { pushers ≤ 64 }
    requires blocks { (0 < blocks) × (blocks ≤ 1024) }
    ensures pen { IfOk result (λ r. B.owns r.0.bucket r.2 × IsFresh (B.bags r.2)) }
    ensures pens { IfOk result (λ r. All (λ p. B.owns r.0.bucket p × IsFresh (B.bags p)) r.1.items) }
    ensures count { IfOk result (λ r. (length r.1.items ≡ pushers) × (r.0.values ≡ values)) }
    ensures whole { IfOk result (λ r. (B.bags r.2).weight + weights B.bags r.1.items ≡ B.whole) }
    ensures err { IfErr result (λ e. e ≡ Memory None) }
{
    let (bucket, pen) = B::open(alloc, blocks)?;
    let mut pens = Vec::new(alloc);
    let Ok(()) = split_among(&bucket, pen, pushers + 1, &mut pens) else {
        return Err(RunError::Memory(None));
    };
    let Some(pen) = pens.pop() else {
        unreachable!()
    };
    let generator = Xoshiro256PlusPlus::seed_from_u64(1);
    let Ok(reservoir) = AtomicSamplingReservoir::new(alloc, SAMPLES, generator) else {
        return Err(RunError::Memory(None));
    };
    let shared = Shared {
        bucket,
        reservoir,
        values,
        ended: AtomicUsize::new(0),
    };
    Ok((shared, pens, pen))
}

/// Runs a worker for each pen of `pens`, and the clearer with `pen`.
fn run_all<R: Threads + Wait + Sync, G: Gate + Sync, B: Bucket>(
    rt: &R,
    shared: &Shared<B>,
    gate: &G,
    pens: Vec<B::Pen>,
    pen: B::Pen,
) -> Result<Ran<B::Pen>, RunError>
    requires pen { B.owns shared.now.bucket pen × IsFresh (B.bags pen) }
    requires pens { All (λ p. B.owns shared.now.bucket p × IsFresh (B.bags p)) pens.items }
    requires values { shared.now.values < 2 ^ 63 }
    requires room { length pens.items < 2 ^ 63 }
    ensures own { IfOk result (λ r. B.owns shared.now.bucket r.pen) }
    ensures ok { IfOk result (λ r. IsRan shared.now.values ((B.bags pen).weight + weights B.bags pens.items)
        (length pens.items) (B.bags r.pen) r.pushed r.found r.stopped) }
    ensures err { IfErr result (λ e. e ≡ Memory None) }
{
    thread::scope(
        thread::scope_env(),
        rt,
        |scope| -> Result<Ran<B::Pen>, RunError>
            requires { B.owns shared.now.bucket pen × IsFresh (B.bags pen)
                × All (λ p. B.owns shared.now.bucket p × IsFresh (B.bags p)) pens.items
                × (shared.now.values < 2 ^ 63) × (length pens.items < 2 ^ 63) }
            ensures { IfOk result (λ r. B.owns shared.entry.now.bucket r.pen
                × IsRan shared.entry.now.values ((B.bags pen).weight + weights B.bags pens.items)
                (length pens.items) (B.bags r.pen) r.pushed r.found r.stopped)
                × IfErr result (λ e. e ≡ Memory None) }
        { run(scope, rt, shared, gate, pens, pen, 0) },
    )
}

/// A storm on any bucket.
fn storm_on<R: Threads + Wait + Sync, G: Gate + Sync, B: Bucket>(
    rt: &R,
    alloc: Global,
    pushers: usize,
    values: u64,
    blocks: usize,
    gate: &G,
) -> Result<Totals, RunError>
    requires pushers { (0 < pushers) × (pushers ≤ 64) }
    requires values { values ≤ 1000000 }
    requires blocks { (0 < blocks) × (blocks ≤ 1024) }
    ensures stopped { IfOk result (λ t. t.stopped ≤ pushers) }
    ensures pushed { IfOk result (λ t. t.pushed ≡ ((pushers - t.stopped) * values, (pushers - t.stopped) * sum_below values)) }
    ensures found { IfOk result (λ t. t.found ≡ t.pushed) }
    ensures err { IfErr result (λ e. e ≡ Memory None) }
{
    let (shared, pens, pen) = prepared::<B>(alloc, pushers, values, blocks)?;
    let ran = run_all(rt, &shared, gate, pens, pen)?;
    let sampled = sampled(rt, &shared.reservoir);
    let Ran {
        pen,
        pushed,
        mut found,
        stopped,
    } = ran;
    let Shared { bucket, .. } = shared;
    let rest = bucket.settle_all(rt, alloc, pen)?;
    found.see(rest.as_slice());
    Ok(Totals {
        pushed: (pushed.count, pushed.sum),
        found: (found.count, found.sum),
        sampled,
        stopped,
    })
}

/// Starts `pushers` workers, 1 to 64. Each passes the gate and then pushes the numbers below `values`, at most
/// 1,000,000, into a reservoir of 16 and into one bucket of 1 to 1,024 blocks, retrying while the bucket is full.
/// Meanwhile the calling thread clears the bucket, until all workers ended. A worker that the gate stops pushes
/// nothing.
///
/// The only error is out of memory; it also covers a thread that can't be started.
pub fn storm<R: Threads + Wait + Sync, G: Gate + Sync>(
    rt: &R,
    alloc: Global,
    pushers: usize,
    values: u64,
    blocks: usize,
    gate: &G,
) -> Result<Totals, RunError>
    requires pushers { (0 < pushers) × (pushers ≤ 64) }
    requires values { values ≤ 1000000 }
    requires blocks { (0 < blocks) × (blocks ≤ 1024) }
    ensures stopped { IfOk result (λ t. t.stopped ≤ pushers) }
    ensures pushed { IfOk result (λ t. t.pushed ≡ ((pushers - t.stopped) * values, (pushers - t.stopped) * sum_below values)) }
    ensures found { IfOk result (λ t. t.found ≡ t.pushed) }
    ensures err { IfErr result (λ e. e ≡ Memory None) }
{
    storm_on::<R, G, RuledBucket<u64>>(rt, alloc, pushers, values, blocks, gate)
}

/// Runs `storm` on a growing bucket whose first segment has this many blocks: no worker waits for room.
///
/// The only error is out of memory; it also covers a thread that can't be started.
pub fn storm_growing<R: Threads + Wait + Sync, G: Gate + Sync>(
    rt: &R,
    alloc: Global,
    pushers: usize,
    values: u64,
    blocks: usize,
    gate: &G,
) -> Result<Totals, RunError>
    requires pushers { (0 < pushers) × (pushers ≤ 64) }
    requires values { values ≤ 1000000 }
    requires blocks { (0 < blocks) × (blocks ≤ 1024) }
    ensures stopped { IfOk result (λ t. t.stopped ≤ pushers) }
    ensures pushed { IfOk result (λ t. t.pushed ≡ ((pushers - t.stopped) * values, (pushers - t.stopped) * sum_below values)) }
    ensures found { IfOk result (λ t. t.found ≡ t.pushed) }
    ensures err { IfErr result (λ e. e ≡ Memory None) }
{
    storm_on::<R, G, GrowingBucket<u64>>(rt, alloc, pushers, values, blocks, gate)
}
