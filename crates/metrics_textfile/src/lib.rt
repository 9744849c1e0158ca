//! A text file for a collector of files, such as node_exporter's: each reader sees all of one text, or of the one before.
#![tactic(auto)]

mod error;
mod place;
mod writing;

pub use error::TextfileError;
pub use place::textfile_place;
pub use writing::write_textfile;
