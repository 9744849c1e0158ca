//! A text is written beside its place, and renamed.

use crate::error::TextfileError;
use crate::place::textfile_place;
use std::alloc::Global;
use std::fs::{OpenFile, OpenOptions, Permissions};
use std::io;
use std::io::Write;
use std::os::unix::fs::{OpenOptionsExt, PermissionsExt};
use std::rt::Files;

/// How many names are tried for the file beside the place.
const NAMES: u32 = 10_000;

/// The owner reads and writes the file, and everybody else reads it.
const MODE: u32 = 0o644;

/// Makes a file beside the place that was not there before, and returns its path and the file. A link, a pipe or a
/// folder at a name is left alone, and the next name is tried.
fn make_beside<F: Files>(
    files: &F,
    alloc: Global,
    place: &str,
) -> Result<(String, F::File), TextfileError> {
    for n in 0..NAMES {
        let beside = format!(in alloc; "{place}.{n}.tmp")?;
        let made = OpenOptions::new()
            .write(true)
            .create_new(true)
            .mode(MODE)
            .open(files, beside.as_str());
        match made {
            Ok(file) => return Ok((beside, file)),
            Err(e) if e.kind() == io::ErrorKind::AlreadyExists => {}
            Err(e) => return Err(TextfileError::Make(beside, e)),
        }
    }
    Err(TextfileError::Make(
        format!(in alloc; "{place}.{NAMES}.tmp")?,
        io::Error::from(io::ErrorKind::AlreadyExists),
    ))
}

/// Writes the text, and waits until the disk has it.
fn fill<W: Write + OpenFile + Drop>(mut file: W, text: &str) -> io::Result<()> {
    file.write_all(text.as_bytes())?;
    file.set_permissions(Permissions::from_mode(MODE))?;
    file.sync_all()
}

/// Puts the text into the file at `path`, whole or not at all: a reader sees this text or the one before, also beside other
/// writers, and after a kill or a failure of power. The text is written to a new file beside it, which is synced and renamed.
/// That file is named PATH.N.tmp with the first N that is free; a kill may leave it there.
///
/// Links at `path` are followed to the file that they name. The file has mode 0644, whatever the umask.
///
/// Errors, after which the old file stays and nothing is left beside it:
/// - `NoName`, `NotAFile` and `Look` as in `textfile_place`;
/// - `Make`, `Write` and `Rename` if that step failed, with the cause;
/// - `Memory`.
pub fn write_textfile<F: Files>(
    files: &F,
    alloc: Global,
    path: &str,
    text: &str,
) -> Result<(), TextfileError> {
    let place = textfile_place(files, alloc, path)?;
    let (beside, file) = make_beside(files, alloc, place.as_str())?;
    if let Err(e) = fill(file, text) {
        let _ = files.remove_file(beside.as_str());
        return Err(TextfileError::Write(beside, e));
    }
    match files.rename(beside.as_str(), place.as_str()) {
        Ok(()) => Ok(()),
        Err(e) => {
            let _ = files.remove_file(beside.as_str());
            Err(TextfileError::Rename(beside, place, e))
        }
    }
}
