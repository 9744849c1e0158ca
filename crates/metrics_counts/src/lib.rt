//! Counters that any thread may change, and watches to which a count never falls.
#![tactic(auto)]

mod cell;
mod note;
mod notes;
mod seat;
mod view;
mod watch;

pub use cell::CountCell;
pub use note::CountNote;
pub use notes::CountNotes;
pub use seat::Seat;
pub use view::View;
pub use watch::Watch;
