//! Why a program stopped, and its message.
ghost use Rattle.std.specs.Prelude.{◌≡◌};

use std::alloc::AllocError;
use std::fmt;
use thiserror::Error;

/// Why a run stopped.
#[derive(Clone, Copy, Debug, PartialEq, Eq, Error)]
pub enum RunError {
    /// Out of memory: the number of the line that was being read, if one was.
    #[error("{place}memory", place = Place(.0))]
    Memory(Option<u64>),
    /// The line's number.
    #[error("line {0}: bad line")]
    BadLine(u64),
    /// The reader or the writer failed.
    #[error("device failed")]
    Device,
}

impl From<AllocError> for RunError {
    ghost use Rattle.std.specs.Prelude.{None};
    ghost use Rattle.tool_grammar.specs.declared.error.RunError.TheVariants.{Memory};

    ghost from_gives = { λ _ e. e ≡ Memory None };

    fn from(_error: AllocError) -> RunError {
        RunError::Memory(None)
    }
}

/// The place of an error before its message.
#[derive(Drop)]
struct Place<'a>(&'a Option<u64>);

impl fmt::Display for Place<'_> {
    fn fmt<W: fmt::Write>(&self, f: &mut fmt::Formatter<W>) -> fmt::Result {
        match self.0 {
            Some(number) => write!(f, "line {number}: "),
            None => Ok(()),
        }
    }
}
