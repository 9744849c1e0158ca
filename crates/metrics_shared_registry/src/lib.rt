//! A registry that several threads share, with generations of its cells and recency.
#![tactic(auto)]

mod generational;
mod lock;
mod recency;
mod registry;
mod shard;
mod storage;

pub use generational::Generational;
pub use metrics::Error;
pub use recency::Recency;
pub use registry::Registry;
pub use storage::{AtomicStorage, GenerationalAtomicStorage, GenerationalStorage};
