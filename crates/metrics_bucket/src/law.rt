//! The law of the bucket's histories.
ghost use Rattle.metrics_bucket.specs.BucketLaw.{BucketLaw};

/// Does nothing. Its contract states what holds after every history of single steps of any number of threads.
///
/// Each ticket is given once, and each finished push is in one place. Walks find what was pushed, and what a clear takes is
/// complete.
pub fn bucket_law()
    ensures { BucketLaw }
{}
