//! A state: what an exporter holds as lines, and an exporter that reads them.
#![tactic(auto)]

mod body;
mod entries;
mod error;
mod laws;
mod lines;
mod notes;
mod reading;
mod runs;
mod totals;
mod units;
mod writing;

pub use error::StateError;
pub use laws::state_law;
pub use reading::read_state;
pub use writing::write_state;
