//! Call lines and the texts of answers and errors: which call a line spells, and how an answer is printed.
#![tactic(auto)]

mod calls;
mod cuts;
mod error;
mod laws;
mod numbers;
mod printing;
mod words;

pub use calls::{call_of, key_of};
pub use cuts::{place_of, split_at_first, split_before, strip_prefix};
pub use error::RunError;
pub use laws::one_call_at_most;
pub use numbers::{digit_of, number_of, signed_number_of};
pub use printing::write_answer;
pub use words::{kind_of, kinds_of, name_of, unit_of, unit_text, update_of};
