//! A bucket of fixed size: a push waits while it is full.
ghost use Rattle.std.specs.Prelude.{◌≡◌, false};
ghost use Rattle.metrics_bucket.specs.Account.{IsPushed};

use crate::bucket::Bucket;
use crate::tally::Tally;
use crossbeam_utils::Backoff;
use metrics::Error;
use metrics_bucket::{Pen, RuledBucket};
use std::alloc::Global;
use std::sync::Wait;
use tool_grammar::RunError;

/// Pushes one value, retrying while the bucket is full.
fn push_waiting<R: Wait>(rt: &R, bucket: &RuledBucket<u64>, pen: &mut Pen, value: u64)
    requires own { pen.old.home ≡ bucket.now }
    requires free { pen.old.ticket ≡ false }
    ensures { IsPushed pen.old value pen.new }
{
    let pause = Backoff::new();
    for _ in rt.forever() {
        if bucket.push_as(rt, pen, value).is_ok() {
            return;
        }
        pause.snooze();
    }
    unreachable!()
}

impl Bucket for RuledBucket<u64> {
    type Pen = Pen;

    ghost use Rattle.std.specs.Prelude.{◌≡◌, false};
    ghost use Rattle.tool_storm.specs.Pens.{bags_of};

    ghost owns = { λ home pen. (pen.home ≡ home) × (pen.ticket ≡ false) };

    ghost bags = { bags_of };

    ghost whole = { 1024 };

    fn open(alloc: Global, blocks: usize) -> Result<(RuledBucket<u64>, Pen), RunError> {
        RuledBucket::new(alloc, blocks).or(Err(RunError::Memory(None)))
    }

    fn split(&self, pen: &mut Pen) -> Result<Pen, Error> {
        pen.split()
    }

    fn join(&self, pen: &mut Pen, other: Pen) -> Result<(), RunError> {
        pen.join(other);
        Ok(())
    }

    fn push_one<R: Wait>(&self, rt: &R, pen: &mut Pen, value: u64) -> Result<(), RunError> {
        push_waiting(rt, self, pen, value);
        Ok(())
    }

    fn clear_once<R: Wait>(&self, rt: &R, pen: &mut Pen, found: &mut Tally) {
        let _ = self.clear_to_as(rt, pen, found);
    }

    fn settle_all<R: Wait>(self, _rt: &R, alloc: Global, pen: Pen) -> Result<Vec<u64>, RunError> {
        self.settle(alloc, pen).or(Err(RunError::Memory(None)))
    }
}
