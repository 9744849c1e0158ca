//! A lock-free bucket of samples: many threads push into it while one at a time reads or clears it.
#![tactic(auto)]

mod atomic;
mod bucket;
mod clears;
mod gathered;
mod law;
mod pen;
mod readings;
mod rule;
mod sample;
mod spares;
mod steps;
mod view;
mod visitor;
mod walker;
mod walking;

pub use atomic::AtomicBucket;
pub use bucket::{RuledBucket, is_block_count};
pub use gathered::Gathered;
pub use law::bucket_law;
pub use pen::Pen;
pub use sample::Sample;
pub use spares::Spares;
pub use visitor::{Shown, Visitor};
