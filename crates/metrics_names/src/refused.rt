//! Why a call failed.
ghost use Rattle.std.specs.Prelude.{◌≡◌, ◌^◌, ◌-◌};
ghost use Rattle.metrics_names.specs.declared.refused.Refused.TheVariants.{Memory as MemoryRefused};

use std::alloc::{AllocError, AllocFailed};
use thiserror::Error;

/// Why a call of a recorder or a handle failed.
#[derive(Clone, Copy, Debug, PartialEq, Eq, Error)]
pub enum Refused {
    /// Out of memory. The call has acted on its first `acted` targets and on no others. If no recorder or handle was called,
    /// `acted` is 0 and nothing changed.
    #[error("memory, acted {acted}")]
    Memory { acted: usize },
    /// No series of that kind is at that address. Nothing changed.
    #[error("no such address")]
    NoSuchAddress,
    /// The number is not below the number of books. Nothing changed.
    #[error("no such book")]
    NoSuchBook,
    /// No earlier successful register call has that number and the update's kind. Nothing changed.
    #[error("bad handle")]
    BadHandle,
}

impl Refused {
    ghost use Rattle.metrics_names.specs.Refusals.{after_front, CanFollow, IsPast};

    /// Adds the first `front` targets, which a call had reached before it failed, to what it reports.
    ///
    /// It saturates at `usize::MAX`, which no recorder can reach.
    pub fn after(self, front: usize) -> Refused
        ensures sum { CanFollow front self → result ≡ after_front front self }
        ensures most { IsPast front self → result ≡ MemoryRefused (2 ^ 64 - 1) }
    {
        match self {
            Refused::Memory { acted } => Refused::Memory {
                acted: front.saturating_add(acted),
            },
            other => other,
        }
    }
}

impl From<AllocError> for Refused {
    ghost from_gives = { λ e r. r ≡ MemoryRefused 0 };

    fn from(_error: AllocError) -> Refused {
        Refused::Memory { acted: 0 }
    }
}

impl<T: Drop> From<AllocFailed<T>> for Refused {
    ghost from_gives = { λ e r. r ≡ MemoryRefused 0 };

    fn from(_error: AllocFailed<T>) -> Refused {
        Refused::Memory { acted: 0 }
    }
}
