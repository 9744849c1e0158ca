//! Where a text goes.

use crate::error::TextfileError;
use std::alloc::{AllocError, Global};
use std::io;
use std::path::PathBuf;
use std::rt::Files;

/// How many links lead on from a path at most.
const LINKS: u32 = 40;

/// The path that a link leads to, seen from the folder of the link.
fn led_to(alloc: Global, link: &str, to: &PathBuf) -> Result<String, AllocError> {
    let to = to.as_str();
    match link.rsplit_once('/') {
        Some((folder, _)) if !to.starts_with('/') => format!(in alloc; "{folder}/{to}"),
        _ => String::from_str(alloc, to),
    }
}

/// The path that a link leads to, or none if no link is at the path. Something else than a file there is an error.
fn next_place<F: Files>(
    files: &F,
    alloc: Global,
    path: &str,
) -> Result<Option<String>, TextfileError> {
    let found = match files.symlink_metadata(path) {
        Ok(found) => found,
        Err(e) if e.kind() == io::ErrorKind::NotFound => return Ok(None),
        Err(e) => return Err(TextfileError::Look(String::from_str(alloc, path)?, e)),
    };
    if found.is_symlink() {
        return match files.read_link(alloc, path) {
            Ok(to) => Ok(Some(led_to(alloc, path, &to)?)),
            Err(e) => Err(TextfileError::Look(String::from_str(alloc, path)?, e)),
        };
    }
    if found.is_file() {
        return Ok(None);
    }
    Err(TextfileError::NotAFile(String::from_str(alloc, path)?))
}

/// Returns an error if something else than a regular file is at the path, or where links from it lead.
fn expect_file<F: Files>(files: &F, alloc: Global, path: &str) -> Result<(), TextfileError> {
    match files.metadata(path) {
        Ok(found) if !found.is_file() => {
            Err(TextfileError::NotAFile(String::from_str(alloc, path)?))
        }
        _ => Ok(()),
    }
}

/// Returns the path of the file that a text at `path` goes to: links are followed to the file that they name, which may
/// be missing.
///
/// Errors:
/// - `NoName` if the path is empty, or a slash is at its end;
/// - `NotAFile` if a folder, a pipe or a device is there;
/// - `Look` if the system doesn't say what is there, or after more than 40 links;
/// - `Memory`.
pub fn textfile_place<F: Files>(
    files: &F,
    alloc: Global,
    path: &str,
) -> Result<String, TextfileError> {
    if path.is_empty() || path.ends_with('/') {
        return Err(TextfileError::NoName);
    }
    expect_file(files, alloc, path)?;
    let mut place = String::from_str(alloc, path)?;
    for _ in 0..LINKS {
        match next_place(files, alloc, place.as_str())? {
            Some(next) => place = next,
            None => return Ok(place),
        }
    }
    Err(TextfileError::Look(
        place,
        io::Error::new(io::ErrorKind::Other, "too many links"),
    ))
}
