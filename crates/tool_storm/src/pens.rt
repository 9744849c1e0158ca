//! A pen for each thread.
ghost use Rattle.std.specs.Prelude.{◌≡◌, ◌+◌, ◌<◌, ◌≤◌, OnOk, IfErr, All, length};
ghost use Rattle.metrics.specs.declared.error.Error.TheVariants.{Memory as OutOfMemory};
ghost use Rattle.tool_storm.specs.Pens.{IsFresh, weights};

use crate::bucket::Bucket;
use metrics::Error;

/// Splits a pen into so many, and appends them to the others.
pub(crate) fn split_among<B: Bucket>(
    bucket: &B,
    mut pen: B::Pen,
    count: usize,
    pens: &mut Vec<B::Pen>,
) -> Result<(), Error>
    requires count { 0 < count }
    requires pen { B.owns bucket.now pen × IsFresh (B.bags pen) }
    requires pens { All (λ p. B.owns bucket.now p × IsFresh (B.bags p)) pens.old.items }
    ensures fresh { OnOk result (All (λ p. B.owns bucket.now p × IsFresh (B.bags p)) pens.new.items) }
    ensures weights { OnOk result (weights B.bags pens.new.items ≡ weights B.bags pens.old.items + (B.bags pen).weight) }
    ensures length { OnOk result (length pens.new.items ≡ length pens.old.items + count) }
    ensures err { IfErr result (λ e. count ≤ (B.bags pen).weight → e ≡ OutOfMemory) }
{
    if count == 1 {
        let Ok(()) = pens.push(pen) else {
            return Err(Error::Memory);
        };
        return Ok(());
    }
    let other = bucket.split(&mut pen)?;
    split_among(bucket, pen, count - count / 2, pens)?;
    split_among(bucket, other, count / 2, pens)
}
