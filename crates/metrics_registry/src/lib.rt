//! A registry of cells by kind and key, with generations and recency, and quantiles with their labels.
#![tactic(auto)]

mod cells;
mod generation;
mod keys;
mod kinds;
mod laws;
mod plain;
mod quantile;
mod recency;
mod registry;
mod storage;

pub use cells::Cells;
pub use generation::{Counted, Generation};
pub use keys::{DefaultHashable, EqualClone, Hashable, KeyHasher};
pub use kinds::{Kinds, is_shard_count, shard_by_mask, shard_of};
pub use laws::recency_law;
pub use metrics::Error;
pub use plain::PlainStorage;
pub use quantile::{Quantile, parse_quantiles};
pub use recency::OwnedRecency;
pub use registry::OwnedRegistry;
pub use storage::{HistogramMaker, Storage};
