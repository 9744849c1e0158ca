//! Cells of metrics that several threads change.
//!
//! A word is a counter or a gauge by the trait that it is used through, and so is an `Arc` of one.
#![tactic(auto)]

mod atomics;
mod generation;
mod handles;
mod pause;

pub use atomics::{counter_value, gauge_value};
pub use generation::AtomicGeneration;
pub use handles::{CounterFn, GaugeFn, HistogramFn};
pub use pause::Pause;
