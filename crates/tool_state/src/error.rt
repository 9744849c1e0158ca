//! Why a state is not written or read.

use metrics::Error;
use metrics_names::Refused;
use std::alloc::AllocError;
use thiserror::Error as ThisError;

/// Why a state is not written or read.
#[derive(Clone, Copy, Debug, PartialEq, Eq, ThisError)]
pub enum StateError {
    /// Out of memory.
    #[error("memory")]
    Memory,
    /// A name or a label of a series has no line of the language, or a description's text has none.
    #[error("a series has no line")]
    NoLine,
    /// The first line isn't that of a state with this title.
    #[error("not a state of this program with these options")]
    Foreign,
    /// There are fewer or more lines than the first one says, or the last one lacks its line feed.
    #[error("not whole")]
    Cut,
    /// A line after the first one says nothing that a state says.
    #[error("a line is not one of a state")]
    BadLine,
}

/// An update that fails for its count, or any other failure but memory, comes from a line that no state has.
impl From<Error> for StateError {
    fn from(error: Error) -> StateError {
        match error {
            Error::Memory => StateError::Memory,
            _ => StateError::BadLine,
        }
    }
}

impl From<Refused> for StateError {
    fn from(_error: Refused) -> StateError {
        StateError::Memory
    }
}

impl From<AllocError> for StateError {
    fn from(_error: AllocError) -> StateError {
        StateError::Memory
    }
}
