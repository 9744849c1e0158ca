//! Look-ups for one thread, on a recorder that threads share: a key's handle is asked for once, and kept for the next look-up.
#![tactic(auto)]

mod local;

pub use local::Local;
