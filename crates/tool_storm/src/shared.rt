//! What all threads of a storm share.

use metrics_shared::reservoir::AtomicSamplingReservoir;
use rand_xoshiro::Xoshiro256PlusPlus;
use std::sync::atomic::AtomicUsize;

/// The bucket and the reservoir that the workers push into, the numbers that each pushes (those below `values`), and how
/// many workers have ended.
#[derive(Drop)]
pub(crate) struct Shared<B> {
    pub(crate) bucket: B,
    pub(crate) reservoir: AtomicSamplingReservoir<Xoshiro256PlusPlus>,
    pub(crate) values: u64,
    pub(crate) ended: AtomicUsize,
}
