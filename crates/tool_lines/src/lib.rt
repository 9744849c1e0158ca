//! The line program as a library: a tree of recorders from tree lines, calls from call lines, exporters and storms.
#![tactic(auto)]

mod commands;
mod exports;
mod handles;
mod laws;
mod requests;
mod running;
mod trees;

pub use commands::command;
pub use handles::Handles;
pub use laws::{first_run, one_text_at_most, part_begins_whole};
pub use running::run;
pub use tool_grammar::RunError;
pub use trees::tree;
