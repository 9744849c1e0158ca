//! Lists of calls, made on a recorder one after another.
#![tactic(auto)]

mod journaled;
mod registers;
mod replaying;

pub use journaled::Journaled;
pub use replaying::{answer_of, replay};
