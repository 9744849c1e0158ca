//! A recorder of the stack, and why a tree line fails.
ghost use Rattle.std.specs.Prelude.{◌≡◌, ◌↔◌};
ghost use Rattle.metrics.specs.declared.error.Error.TheVariants.{Memory as IsRefused};
ghost use Rattle.tool_trees.specs.declared.level.LineError.TheVariants.{Memory as NoMemory};

use metrics::Error;
use metrics_debugging::DebuggingRecorder;
use metrics_trees::Child;
use std::alloc::AllocFailed;

/// A recorder of the stack, and its number of levels.
#[derive(Drop)]
pub struct Level {
    /// The recorder.
    pub child: Child<DebuggingRecorder>,
    /// Its number of levels.
    pub levels: u64,
}

/// Why a tree line failed.
#[derive(Clone, Copy)]
pub enum LineError {
    Memory,
    /// The line is a bad one.
    Bad,
}

/// Any failure of the library other than out of memory is the line's fault.
impl From<Error> for LineError {
    ghost from_gives = { λ e l. (e ≡ IsRefused) ↔ (l ≡ NoMemory) };

    fn from(error: Error) -> LineError {
        match error {
            Error::Memory => LineError::Memory,
            _ => LineError::Bad,
        }
    }
}

/// The recorder in the error is dropped.
impl<T: Drop> From<(Error, T)> for LineError {
    ghost from_gives = { λ e l. (e.0 ≡ IsRefused) ↔ (l ≡ NoMemory) };

    fn from(refused: (Error, T)) -> LineError {
        LineError::from(refused.0)
    }
}

impl<T: Drop> From<AllocFailed<T>> for LineError {
    ghost from_gives = { λ _ l. l ≡ NoMemory };

    fn from(_error: AllocFailed<T>) -> LineError {
        LineError::Memory
    }
}

/// Returns the error of a call, and drops what the call was given. A caller that drops a recorder itself is proved anew
/// for each kind of recorder.
pub fn refusing<T: Drop>(error: LineError, _given: T) -> LineError
    ensures { result ≡ error }
{
    error
}
