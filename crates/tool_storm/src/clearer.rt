//! The thread that clears.
ghost use Rattle.tool_storm.specs.Pens.{IsFresh, HasTaken, TellsTaken};

use crate::bucket::Bucket;
use crate::shared::Shared;
use crate::tally::Tally;
use crossbeam_utils::Backoff;
use std::sync::Wait;
use std::sync::atomic::Ordering;

/// Clears until so many workers have ended, and then once more.
pub(crate) fn clear_until<R: Wait, B: Bucket>(
    rt: &R,
    shared: &Shared<B>,
    mut pen: B::Pen,
    started: usize,
) -> (B::Pen, Tally)
    requires own { B.owns shared.now.bucket pen }
    requires fresh { IsFresh (B.bags pen) }
    ensures own { B.owns shared.now.bucket result.0 }
    ensures taken { HasTaken (B.bags pen) (B.bags result.0) }
    ensures found { TellsTaken result.1 (B.bags result.0) }
{
    let mut found = Tally::new();
    let pause = Backoff::new();
    for _ in rt.forever() {
        let last = shared.ended.load(Ordering::SeqCst) >= started;
        shared.bucket.clear_once(rt, &mut pen, &mut found);
        if last {
            break;
        }
        pause.snooze();
    }
    (pen, found)
}
