//! Storage of samples that has one owner.
#![tactic(auto)]

mod block;
mod bucket;
mod histogram;
mod laws;
mod places;
pub mod reservoir;
mod scale;

pub use block::{BLOCK_SIZE, Block};
pub use bucket::OwnedBucket;
pub use histogram::Histogram;
pub use laws::{histogram_law, reservoir_law};
pub use metrics::Error;
// A contract that names a block needs the types of the block's fields to be exported.
#[doc(hidden)]
pub use places::{Allocation, BlockPtr, Places};
