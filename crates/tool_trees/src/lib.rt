//! Tree lines: what each says, the trees of recorders that they spell, and the stack that builds these.
#![tactic(auto)]

mod building;
mod laws;
mod level;
mod putting;
mod routing;
mod tree_line;
mod words;

pub use laws::{one_tree_at_most, targets_in_order};
pub use level::{Level, LineError};
pub use putting::read_line;
pub use tree_line::{RouteWord, TreeLine};
pub use words::tree_line_of;
