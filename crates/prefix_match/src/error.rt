//! Why a set of patterns was not made, or a trie not changed.
use thiserror::Error;

/// Why a set of patterns was not made, or a trie not changed.
#[derive(Debug, Clone, Copy, PartialEq, Eq, Error)]
pub enum MatchError {
    /// A growth found no memory. Nothing changed.
    #[error("memory")]
    Memory,
    /// The patterns have more than 1,048,576 bytes together.
    #[error("patterns too long")]
    PatternsTooLong,
}
