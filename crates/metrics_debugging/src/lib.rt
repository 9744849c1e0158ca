//! A recorder that keeps one book in memory, and its snapshotter.
#![tactic(auto)]

mod debugging;

pub use debugging::{DebuggingRecorder, Snapshotter};
