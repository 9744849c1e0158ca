//! Filling the one cell that a program's threads read a recorder from.
ghost use Rattle.std.specs.Prelude.{◌≡◌, IfErr};
ghost use Rattle.metrics_shared.specs.declared.install.SetRecorderError.TheVariants.{Taken};

use crate::shared::Shared;
use metrics::Recorder;
use std::fmt;
use std::sync::{OnceLock, Wait};
use thiserror::Error;

/// Why a recorder was not installed, with the recorder.
#[derive(Drop, Error)]
pub enum SetRecorderError<R> {
    /// The cell is taken. It stays as it was.
    #[error("a recorder is installed already")]
    Taken(R),
    /// Out of memory for what goes into the cell.
    #[error("memory")]
    Memory(R),
}

/// Leaves the recorder out, so that the error of any recorder can be shown.
impl<R> fmt::Debug for SetRecorderError<R> {
    fn fmt<W: fmt::Write>(&self, f: &mut fmt::Formatter<W>) -> fmt::Result {
        match self {
            SetRecorderError::Taken(_) => write!(f, "Taken(..)"),
            SetRecorderError::Memory(_) => write!(f, "Memory(..)"),
        }
    }
}

/// A recorder that a cell can be filled with.
pub trait Install: Recorder + Sized {
    /// Puts the recorder under a lock and into the cell. Returns the recorder if the cell is taken.
    fn install<W: Wait>(
        self,
        rt: &W,
        cell: &OnceLock<Shared<Self>>,
    ) -> Result<(), SetRecorderError<Self>>
        ensures { IfErr result (λ e. (recorder : Self) × (e ≡ Taken recorder)) }
    {
        match cell.set(rt, Shared::new(self)) {
            Ok(_) => Ok(()),
            Err(shared) => Err(SetRecorderError::Taken(shared.into_inner())),
        }
    }
}

impl<R: Recorder> Install for R {}
