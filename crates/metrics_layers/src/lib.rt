//! Layers over any recorder.
#![tactic(auto)]

mod filter;
mod layer;
mod prefix;
mod stack;

pub use filter::{Filter, FilterLayer, is_refused};
pub use layer::Layer;
pub use prefix::{Prefix, PrefixLayer, dotted_name};
pub use stack::Stack;
