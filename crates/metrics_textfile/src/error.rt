//! Why a text file could not be written.

use std::alloc::AllocError;
use std::error::Error;
use std::{fmt, io};

/// Why a text file could not be written. Its message says what failed, and at which path.
#[derive(Debug, Drop)]
pub enum TextfileError {
    /// Out of memory for the names of files.
    Memory,
    /// The path is empty, or a slash is at its end.
    NoName,
    /// What is at this path is no regular file: a folder, a pipe or a device.
    NotAFile(String),
    /// This path could not be looked at, or too many links lead on from it.
    Look(String, io::Error),
    /// The file beside it, of this path, could not be made.
    Make(String, io::Error),
    /// The file beside it, of this path, could not be written. It was removed.
    Write(String, io::Error),
    /// The file beside it, of the first path, could not be renamed to the second. It was removed.
    Rename(String, String, io::Error),
}

impl TextfileError {
    /// Returns whether no text can ever be written to that path.
    pub fn is_unfit(&self) -> bool {
        matches!(self, TextfileError::NoName | TextfileError::NotAFile(_))
    }
}

impl From<AllocError> for TextfileError {
    fn from(_error: AllocError) -> TextfileError {
        TextfileError::Memory
    }
}

impl fmt::Display for TextfileError {
    fn fmt<W: fmt::Write>(&self, f: &mut fmt::Formatter<W>) -> fmt::Result {
        match self {
            TextfileError::Memory => f.write_str("memory"),
            TextfileError::NoName => {
                f.write_str("the path of a textfile is empty, or a slash is at its end")
            }
            TextfileError::NotAFile(path) => write!(f, "{path}: not a regular file"),
            TextfileError::Look(path, e) => write!(f, "can't look at {path}: {e}"),
            TextfileError::Make(path, e) => write!(f, "can't make {path}: {e}"),
            TextfileError::Write(path, e) => write!(f, "can't write {path}: {e}"),
            TextfileError::Rename(from, to, e) => write!(f, "can't rename {from} to {to}: {e}"),
        }
    }
}

impl Error for TextfileError {}
