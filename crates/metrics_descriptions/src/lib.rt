//! The descriptions of names.
#![tactic(auto)]

mod descriptions;

pub use descriptions::{Described, Descriptions};
