//! A machine reads a stream line by line, and answers each line by a text; and the status at its end.
#![tactic(auto)]

mod machine;
mod status;
mod stream;
mod waiting;

pub use machine::{LineMachine, Unanswered, at_line, flush, run_lines, run_lines_leaving};
pub use status::{exit_of, status_of};
pub use stream::{Broken, Fault, Found, next_line, write_text};
pub use tool_grammar::RunError;
