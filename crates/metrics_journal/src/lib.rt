//! A registry that keeps a journal of its calls, under one lock.
#![tactic(auto)]

mod calls;
mod registry;
mod shard;
mod steps;
mod tally;

pub use calls::ShardCall;
pub use metrics::Error;
pub use registry::JournaledRegistry;
pub use shard::JournaledShard;
pub use tally::Tally;
