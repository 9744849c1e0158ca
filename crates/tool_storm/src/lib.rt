//! Many threads push into one bucket and one reservoir, while another clears the bucket.
#![tactic(auto)]

mod bucket;
mod clearer;
mod gate;
mod growing;
mod pens;
mod ruled;
mod shared;
mod tally;
mod text;
mod threads;
mod totals;
mod worker;

pub use gate::Gate;
pub use text::text_of_totals;
pub use totals::{Totals, storm, storm_growing};
