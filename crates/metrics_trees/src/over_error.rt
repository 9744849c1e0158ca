//! Why recorders could not be put under rules.

use thiserror::Error as ThisError;

/// Why recorders could not be put under rules. The call returns both.
#[derive(Clone, Copy, Debug, PartialEq, Eq, ThisError)]
pub enum OverError {
    /// There are fewer recorders than leaves, or more.
    #[error("not one recorder for each leaf")]
    NotOneEach,
    /// There would be more than 65,536 books.
    #[error("too many books")]
    TooManyBooks,
    /// Out of memory.
    #[error("memory")]
    Memory,
}
