//! The threads that push.
ghost use Rattle.std.specs.Prelude.{◌≡◌, ◌^◌, ◌<◌, None, IfOk, OnOk, IfErr};
ghost use Rattle.tool_grammar.specs.declared.error.RunError.TheVariants.{Memory};
ghost use Rattle.tool_storm.specs.Numbers.{count_of, sum_of, below};
ghost use Rattle.tool_storm.specs.Tallies.{Tells};
ghost use Rattle.tool_storm.specs.Pens.{HasPushed};
ghost use Rattle.tool_storm.specs.Worked.{IsWorked};

use crate::bucket::Bucket;
use crate::gate::Gate;
use crate::shared::Shared;
use crate::tally::Tally;
use std::snapshot::Snapshot;
use std::sync::Wait;
use std::sync::atomic::Ordering;
use std::thread::Promise;
use tool_grammar::RunError;

/// A worker that ended: its pen, what it pushed, and whether the gate stopped it.
#[derive(Drop)]
pub(crate) struct Worked<P> {
    pub(crate) pen: P,
    pub(crate) pushed: Tally,
    pub(crate) stopped: bool,
}

/// That a worker with this pen pushes the numbers below `values`, or is stopped, or fails.
#[derive(Drop)]
pub(crate) struct Works<B: Bucket> {
    pub(crate) pen: Snapshot<B::Pen>,
    pub(crate) bucket: Snapshot<B>,
    pub(crate) values: u64,
}

impl<B: Bucket> Promise<Result<Worked<B::Pen>, RunError>> for Works<B> {
    ghost use Rattle.std.specs.Prelude.{◌≡◌, None, IfOk, IfErr};
    ghost use Rattle.tool_grammar.specs.declared.error.RunError.TheVariants.{Memory};
    ghost use Rattle.tool_storm.specs.Worked.{IsWorked};

    ghost kept_by = { λ p r. IfOk r (λ w. B.owns p.bucket.value w.pen
        × IsWorked (B.bags p.pen.value) p.values (B.bags w.pen) w.pushed w.stopped) × IfErr r (λ e. e ≡ Memory None) };
}

/// Pushes the numbers below `values` into the bucket and the reservoir.
fn push_all<R: Wait, B: Bucket>(
    rt: &R,
    shared: &Shared<B>,
    pen: &mut B::Pen,
) -> Result<Tally, RunError>
    requires own { B.owns shared.now.bucket pen.old }
    requires values { shared.now.values < 2 ^ 63 }
    ensures own { B.owns shared.now.bucket pen.new }
    ensures pen { OnOk result (HasPushed (B.bags pen.old) (below shared.now.values) (B.bags pen.new)) }
    ensures pushed { IfOk result (λ t. Tells t (count_of (below shared.now.values)) (sum_of (below shared.now.values))) }
    ensures err { IfErr result (λ e. e ≡ Memory None) }
{
    let mut pushed = Tally::new();
    for value in 0..shared.values {
        shared.bucket.push_one(rt, pen, value)?;
        // It fails only past 2^64 - 1 values.
        let _ = shared.reservoir.push(rt, value as i64);
        pushed.add(Tally {
            count: 1,
            sum: value,
        });
    }
    Ok(pushed)
}

/// What a worker's thread does.
pub(crate) fn work<R: Wait, G: Gate, B: Bucket>(
    rt: &R,
    shared: &Shared<B>,
    gate: &G,
    mut pen: B::Pen,
    worker: usize,
) -> Result<Worked<B::Pen>, RunError>
    requires own { B.owns shared.now.bucket pen }
    requires values { shared.now.values < 2 ^ 63 }
    ensures own { IfOk result (λ w. B.owns shared.now.bucket w.pen) }
    ensures ok { IfOk result (λ w. IsWorked (B.bags pen) shared.now.values (B.bags w.pen) w.pushed w.stopped) }
    ensures err { IfErr result (λ e. e ≡ Memory None) }
{
    let stopped = !gate.pass(rt, worker);
    let pushed = if stopped {
        Ok(Tally::new())
    } else {
        push_all(rt, shared, &mut pen)
    };
    shared.ended.fetch_add(1, Ordering::SeqCst);
    let pushed = pushed?;
    Ok(Worked {
        pen,
        pushed,
        stopped,
    })
}
