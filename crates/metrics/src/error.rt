//! Why a call of the library failed.
ghost use Rattle.std.specs.Prelude.{◌≡◌};
ghost use Rattle.metrics.specs.declared.error.Error.TheVariants.{Memory as MemoryRefused};

use metrics_names::Refused;
use std::alloc::{AllocError, AllocFailed};
use thiserror::Error as ThisError;

/// Why a call of the library failed. It returns its arguments if its signature says so.
#[derive(Clone, Copy, Debug, PartialEq, Eq, ThisError)]
pub enum Error {
    /// Out of memory. Nothing changed, with four exceptions. If the error was made from a `Refused`, the call has acted on the
    /// targets that this reported. An expiry keeps the checks that it made. A copy of cells into a map keeps the first n. A pen
    /// keeps the spare pens that it joined, and of a growing bucket knows their segments.
    #[error("memory")]
    Memory,
    /// The mask has no kind.
    #[error("empty mask")]
    EmptyMask,
    /// No earlier call gave that target number.
    #[error("no such target")]
    NoSuchTarget,
    /// There would be more than 65,536 books.
    #[error("too many books")]
    TooManyBooks,
    /// The patterns have more than 1,048,576 bytes together.
    #[error("patterns too long")]
    PatternsTooLong,
    /// The count would pass 2^64 - 1. Nothing changed but what the call's own docs say.
    #[error("count full")]
    CountFull,
    /// The live side of a bucket has no free place. Nothing changed.
    #[error("full")]
    Full,
    /// Another thread changed the word between this call's load and its exchange. This call changed nothing.
    #[error("raced")]
    Raced,
    /// Another walk holds the turn. This call changed nothing, but its pen may know more segments of a growing bucket.
    #[error("busy")]
    Busy,
    /// No pen is free, a pen or tally of weight 1 was to be split, or another pen is out where all are wanted. No value has
    /// moved.
    #[error("no pen")]
    NoPen,
    /// The number of shards is not a power of two from 1 to 1,024. Nothing was made.
    #[error("bad number of shards")]
    BadShards,
    /// The slot is empty. Nothing changed.
    #[error("gone")]
    Gone,
    /// The number of blocks is not from 1 to 1,024. Nothing was made.
    #[error("bad number of blocks")]
    BadBlocks,
    /// A histogram would have no bounds. Nothing was made.
    #[error("no bounds")]
    NoBounds,
    /// No series of that kind is at that address. Nothing changed.
    #[error("no such address")]
    NoSuchAddress,
    /// The number is not below the number of books. Nothing changed.
    #[error("no such book")]
    NoSuchBook,
    /// No earlier successful register call has that number and the update's kind. Nothing changed.
    #[error("bad handle")]
    BadHandle,
}

impl From<AllocError> for Error {
    ghost from_gives = { λ e r. r ≡ MemoryRefused };

    fn from(_error: AllocError) -> Error {
        Error::Memory
    }
}

impl<T: Drop> From<AllocFailed<T>> for Error {
    ghost from_gives = { λ e r. r ≡ MemoryRefused };

    fn from(_error: AllocFailed<T>) -> Error {
        Error::Memory
    }
}

/// Converts a recorder's failure by `?`. The number of targets is lost.
impl From<Refused> for Error {
    ghost use Rattle.metrics.specs.Errors.{error_of};

    ghost from_gives = { λ e r. r ≡ error_of e };

    fn from(refused: Refused) -> Error {
        match refused {
            Refused::Memory { .. } => Error::Memory,
            Refused::NoSuchAddress => Error::NoSuchAddress,
            Refused::NoSuchBook => Error::NoSuchBook,
            Refused::BadHandle => Error::BadHandle,
        }
    }
}

/// Converts an error that comes with the call's argument by `?`. The argument is dropped.
impl<T: Drop> From<(Error, T)> for Error {
    ghost from_gives = { λ e r. r ≡ e.0 };

    fn from(refused: (Error, T)) -> Error {
        refused.0
    }
}
