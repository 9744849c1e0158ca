//! A text file is replaced whole or not at all, whatever call of the system fails.

use metrics_textfile::{TextfileError, write_textfile};
use std::alloc::Allocator;
use std::cell::Cell;
use std::fs::{FileTimes, Metadata, OpenFile, OpenOptions, Permissions};
use std::io;
use std::io::{ErrorKind, Read, Seek, SeekFrom, Write};
use std::os::unix::fs::PermissionsExt;
use std::rt::Files;
use test_trial::Trial;

/// A folder with the file `m.prom`, links at the names `m.prom.0.tmp` and `m.prom.1.tmp`, and one file beside them at most. The
/// call before which `left` is 0 fails.
#[derive(Drop)]
struct Folder {
    left: Cell<usize>,
    /// The lengths of the text that `m.prom` has, of the one beside it, and how much of that is on the disk.
    held: Cell<usize>,
    beside: Cell<Option<usize>>,
    synced: Cell<usize>,
    mode: Cell<u32>,
}

impl Folder {
    /// Counts a call, which fails if none is left.
    fn call(&self) -> io::Result<()> {
        match self.left.get() {
            0 => Err(io::Error::from(ErrorKind::Other)),
            left => {
                self.left.set(left.saturating_sub(1));
                Ok(())
            }
        }
    }
}

/// The folder as files of a system.
#[derive(Drop)]
struct Room<'a> {
    folder: &'a Folder,
}

/// The file beside `m.prom`, which accepts three bytes a write.
#[derive(Drop)]
struct Paper<'a> {
    folder: &'a Folder,
}

/// No folder can be read.
#[derive(Drop)]
struct Closed;

fn unsupported<T>() -> io::Result<T> {
    Err(io::Error::from(ErrorKind::Unsupported))
}

impl Read for Closed {
    fn read(&mut self, _buf: &mut [u8]) -> io::Result<usize> {
        Ok(0)
    }
}

impl Read for Paper<'_> {
    fn read(&mut self, _buf: &mut [u8]) -> io::Result<usize> {
        Ok(0)
    }
}

impl Seek for Paper<'_> {
    fn seek(&mut self, _to: SeekFrom) -> io::Result<u64> {
        unsupported()
    }
}

impl Write for Paper<'_> {
    fn write(&mut self, buf: &[u8]) -> io::Result<usize> {
        self.folder.call()?;
        let n = buf.len().min(3);
        let held = self.folder.beside.get().unwrap_or(0);
        self.folder.beside.set(Some(held.saturating_add(n)));
        Ok(n)
    }

    fn flush(&mut self) -> io::Result<()> {
        Ok(())
    }
}

impl OpenFile for Paper<'_> {
    fn metadata(&self) -> io::Result<Metadata> {
        unsupported()
    }

    fn set_len(&self, _size: u64) -> io::Result<()> {
        unsupported()
    }

    fn sync_all(&self) -> io::Result<()> {
        self.folder.call()?;
        self.folder
            .synced
            .set(self.folder.beside.get().unwrap_or(0));
        Ok(())
    }

    fn sync_data(&self) -> io::Result<()> {
        unsupported()
    }

    fn set_permissions(&self, perm: Permissions) -> io::Result<()> {
        self.folder.call()?;
        self.folder.mode.set(perm.mode());
        Ok(())
    }
}

/// A length that no text of the test has.
const SPOILT: usize = 1000;

impl<'a> Files for Room<'a> {
    type File = Paper<'a>;

    type Dir = Closed;

    fn open_file(&self, how: &OpenOptions, path: &str) -> io::Result<Paper<'a>> {
        let is_taken = ["m.prom.0.tmp", "m.prom.1.tmp"].contains(&path);
        if is_taken && how.asks_create_new() {
            return Err(io::Error::from(ErrorKind::AlreadyExists));
        }
        self.folder.call()?;
        if is_taken || path.ends_with(".prom") {
            self.folder.held.set(SPOILT);
        }
        self.folder.beside.set(Some(0));
        Ok(Paper {
            folder: self.folder,
        })
    }

    fn open_dir(&self, _path: &str) -> io::Result<Closed> {
        unsupported()
    }

    fn metadata(&self, _path: &str) -> io::Result<Metadata> {
        Ok(Metadata::of_file(self.folder.held.get() as u64))
    }

    fn symlink_metadata(&self, _path: &str) -> io::Result<Metadata> {
        self.folder.call()?;
        Ok(Metadata::of_file(self.folder.held.get() as u64))
    }

    fn copy(&self, _from: &str, _to: &str) -> io::Result<u64> {
        unsupported()
    }

    fn rename(&self, _from: &str, to: &str) -> io::Result<()> {
        self.folder.call()?;
        if to == "m.prom" {
            self.folder.held.set(self.folder.synced.get());
            self.folder.beside.set(None);
        }
        Ok(())
    }

    fn remove_file(&self, path: &str) -> io::Result<()> {
        if path == "m.prom" {
            self.folder.held.set(SPOILT);
        }
        self.folder.beside.set(None);
        Ok(())
    }

    fn create_dir(&self, _path: &str) -> io::Result<()> {
        unsupported()
    }

    fn remove_dir(&self, _path: &str) -> io::Result<()> {
        unsupported()
    }

    fn remove_dir_all<B: Allocator>(&self, _alloc: B, _path: &str) -> io::Result<()> {
        unsupported()
    }
}

/// Whatever call fails, the file has all of the old text or all of the new one, which is on the disk and may be read by all,
/// and nothing is left beside it. Links at the first names are left alone.
#[test]
fn a_file_is_replaced_whole_or_not_at_all(rt: HostRuntime) {
    let trial = Trial::new(rt.alloc());
    for left in 0..20 {
        let folder = Folder {
            left: Cell::new(left),
            held: Cell::new(4),
            beside: Cell::new(None),
            synced: Cell::new(0),
            mode: Cell::new(0),
        };
        trial.begin();
        let written = write_textfile(
            &Room { folder: &folder },
            rt.alloc(),
            "m.prom",
            "fresh text\n",
        );
        trial.calm();
        assert_eq!(rt; folder.beside.get(), None);
        match written {
            Ok(()) => assert_eq!(rt; (folder.held.get(), folder.mode.get()), (11, 0o644)),
            Err(TextfileError::Memory) => assert_eq!(rt; folder.held.get(), 4),
            Err(_) => assert!(rt; folder.held.get() == 4 && left < 19),
        }
    }
}
