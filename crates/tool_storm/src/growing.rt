//! A growing bucket: no push waits for room.
use crate::bucket::Bucket;
use crate::tally::Tally;
use metrics::Error;
use metrics_growing::{GrowPen, GrowingBucket};
use std::alloc::Global;
use std::sync::Wait;
use tool_grammar::RunError;

impl Bucket for GrowingBucket<u64> {
    type Pen = GrowPen;

    ghost use Rattle.metrics_growing.specs.Parts.{IsOf};
    ghost use Rattle.tool_storm.specs.Pens.{bags_in};

    ghost owns = { IsOf };

    ghost bags = { bags_in };

    // `settle` itself finds whether the pen is whole.
    ghost whole = { 0 };

    fn open(alloc: Global, blocks: usize) -> Result<(GrowingBucket<u64>, GrowPen), RunError> {
        GrowingBucket::new(alloc, blocks).or(Err(RunError::Memory(None)))
    }

    fn split(&self, pen: &mut GrowPen) -> Result<GrowPen, Error> {
        pen.split()
    }

    fn join(&self, pen: &mut GrowPen, other: GrowPen) -> Result<(), RunError> {
        pen.join(other).or(Err(RunError::Memory(None)))
    }

    fn push_one<R: Wait>(&self, rt: &R, pen: &mut GrowPen, value: u64) -> Result<(), RunError> {
        match self.push(rt, pen, value) {
            Ok(()) => Ok(()),
            Err(_) => Err(RunError::Memory(None)),
        }
    }

    fn clear_once<R: Wait>(&self, rt: &R, pen: &mut GrowPen, found: &mut Tally) {
        let _ = self.clear_to(rt, pen, found);
    }

    fn settle_all<R: Wait>(
        self,
        rt: &R,
        alloc: Global,
        mut pen: GrowPen,
    ) -> Result<Vec<u64>, RunError> {
        self.settle(rt, alloc, &mut pen)
            .or(Err(RunError::Memory(None)))
    }
}
