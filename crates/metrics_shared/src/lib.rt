//! What several threads share under a lock.
#![tactic(auto)]

mod install;
mod recoverable;
pub mod reservoir;
mod shared;
mod slot;

pub use install::{Install, SetRecorderError};
pub use recoverable::{RecoverableRecorder, RecoveryHandle, SlotRecorder};
pub use shared::Shared;
pub use slot::Slot;
