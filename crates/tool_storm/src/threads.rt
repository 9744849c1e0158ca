//! Workers in threads of their own, and the clearer.
ghost use Rattle.std.specs.Prelude.{◌≡◌, ℕ, ◌+◌, ◌<◌, ◌^◌, if◌then◌else◌, None, IfOk, IfErr, All};
ghost use Rattle.std.specs.Prelude.{length};
ghost use Rattle.tool_grammar.specs.declared.error.RunError.TheVariants.{Memory};
ghost use Rattle.tool_storm.specs.Tallies.{Adds};
ghost use Rattle.tool_storm.specs.Pens.{IsFresh, IsJoined, weights};
ghost use Rattle.tool_storm.specs.Worked.{IsWorked};
ghost use Rattle.tool_storm.specs.Ran.{IsRan};

use crate::bucket::Bucket;
use crate::clearer::clear_until;
use crate::gate::Gate;
use crate::shared::Shared;
use crate::tally::Tally;
use crate::worker::{Worked, Works, work};
use std::snapshot::Snapshot;
use std::sync::Wait;
use std::thread::{Scope, Threads};
use tool_grammar::RunError;

/// Workers that ended, and the clearer: the pen that theirs were joined into, what was pushed and found, and how many
/// the gate stopped.
#[derive(Drop)]
pub(crate) struct Ran<P> {
    pub(crate) pen: P,
    pub(crate) pushed: Tally,
    pub(crate) found: Tally,
    pub(crate) stopped: usize,
}

/// Clears until all have ended, once no worker is left to start.
fn clear_all<R: Wait, B: Bucket>(
    rt: &R,
    shared: &Shared<B>,
    pen: B::Pen,
    started: usize,
) -> Ran<B::Pen>
    requires own { B.owns shared.now.bucket pen }
    requires fresh { IsFresh (B.bags pen) }
    ensures own { B.owns shared.now.bucket result.pen }
    ensures ran { (values : ℕ)
        → IsRan values (B.bags pen).weight 0 (B.bags result.pen) result.pushed result.found result.stopped }
{
    let (pen, found) = clear_until(rt, shared, pen, started);
    Ran {
        pen,
        pushed: Tally::new(),
        found,
        stopped: 0,
    }
}

/// One more worker has ended.
fn joined<B: Bucket>(
    bucket: &B,
    ran: Ran<B::Pen>,
    worked: Worked<B::Pen>,
) -> Result<Ran<B::Pen>, RunError>
    requires own { B.owns bucket.now ran.pen × B.owns bucket.now worked.pen }
    requires room { ran.stopped + 1 < 2 ^ 64 }
    ensures own { IfOk result (λ r. B.owns bucket.now r.pen) }
    ensures ok { IfOk result (λ r. IsJoined (B.bags ran.pen) (B.bags worked.pen) (B.bags r.pen)
        × Adds ran.pushed worked.pushed.count worked.pushed.sum r.pushed × (r.found ≡ ran.found)
        × (r.stopped ≡ ran.stopped + (if worked.stopped then 1 else 0))) }
    ensures err { IfErr result (λ e. e ≡ Memory None) }
{
    let Ran {
        mut pen,
        mut pushed,
        found,
        stopped,
    } = ran;
    bucket.join(&mut pen, worked.pen)?;
    pushed.add(worked.pushed);
    Ok(Ran {
        pen,
        pushed,
        found,
        stopped: stopped + usize::from(worked.stopped),
    })
}

/// Starts a worker for each pen, from the number `worker` on, clears until they ended, and joins them. If a thread
/// can't be started, those already started end first.
pub(crate) fn run<'s, 'e, R: Threads + Wait + Sync, G: Gate + Sync, B: Bucket>(
    scope: &'s Scope<'s, &'e ()>,
    rt: &'e R,
    shared: &'e Shared<B>,
    gate: &'e G,
    mut pens: Vec<B::Pen>,
    pen: B::Pen,
    worker: usize,
) -> Result<Ran<B::Pen>, RunError>
    requires pen { B.owns shared.now.bucket pen × IsFresh (B.bags pen) }
    requires pens { All (λ p. B.owns shared.now.bucket p × IsFresh (B.bags p)) pens.items }
    requires values { shared.now.values < 2 ^ 63 }
    requires room { worker + length pens.items < 2 ^ 63 }
    ensures own { IfOk result (λ r. B.owns shared.now.bucket r.pen) }
    ensures ok { IfOk result (λ r. IsRan shared.now.values ((B.bags pen).weight + weights B.bags pens.items)
        (length pens.items) (B.bags r.pen) r.pushed r.found r.stopped) }
    ensures err { IfErr result (λ e. e ≡ Memory None) }
{
    let Some(mine) = pens.pop() else {
        return Ok(clear_all(rt, shared, pen, worker));
    };
    let promise = Works {
        pen: Snapshot::of(&mine),
        bucket: Snapshot::of(&shared.bucket),
        values: shared.values,
    };
    match scope.spawn_with(
        promise,
        move || -> Result<Worked<B::Pen>, RunError>
            requires { B.owns shared.now.bucket mine × (shared.now.values < 2 ^ 63) }
            ensures { IfOk result (λ w. B.owns shared.entry.now.bucket w.pen
                × IsWorked (B.bags mine) shared.entry.now.values (B.bags w.pen) w.pushed w.stopped)
                × IfErr result (λ e. e ≡ Memory None) }
        { work(rt, shared, gate, mine, worker) },
    ) {
        Ok(thread) => {
            let ran = run(scope, rt, shared, gate, pens, pen, worker + 1);
            let worked = thread.join(rt);
            joined(&shared.bucket, ran?, worked?)
        }
        Err(_) => {
            clear_until(rt, shared, pen, worker);
            Err(RunError::Memory(None))
        }
    }
}
