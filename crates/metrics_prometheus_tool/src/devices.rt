//! Standard input and standard output, with a note of what failed.
ghost use Rattle.std.specs.Prelude.{◌≡◌};

use std::cell::Cell;
use std::io::{ErrorKind, Read, Write};
use std::{fmt, io};

/// What failed first of standard input and standard output.
#[derive(Drop)]
pub struct Failure {
    of: Cell<Option<&'static str>>,
    code: Cell<Option<i32>>,
    is_reader_gone: Cell<bool>,
}

impl Failure {
    /// Begins with none.
    pub fn new() -> Failure {
        Failure {
            of: Cell::new(None),
            code: Cell::new(None),
            is_reader_gone: Cell::new(false),
        }
    }

    /// Notes a failure of a stream, if it is the first one, and passes the result through.
    fn noted<T>(&self, of: &'static str, answered: io::Result<T>) -> io::Result<T>
        ensures { result ≡ answered }
    {
        match &answered {
            Err(e) if e.kind() != ErrorKind::Interrupted && self.of.get().is_none() => {
                self.of.set(Some(of));
                self.code.set(e.raw_os_error());
                self.is_reader_gone.set(e.kind() == ErrorKind::BrokenPipe);
            }
            _ => {}
        }
        answered
    }

    /// Returns whether nobody reads standard output any longer.
    pub fn is_reader_gone(&self) -> bool {
        self.is_reader_gone.get()
    }
}

impl fmt::Display for Failure {
    fn fmt<W: fmt::Write>(&self, f: &mut fmt::Formatter<W>) -> fmt::Result {
        match (self.of.get(), self.code.get()) {
            (Some(of), Some(code)) => write!(f, "{of}: {}", io::Error::from_raw_os_error(code)),
            (Some(of), None) => write!(f, "{of} failed"),
            (None, _) => f.write_str("device failed"),
        }
    }
}

/// A stream of this name, whose failures are noted.
#[derive(Drop)]
pub struct Noting<'a, T: Drop> {
    pub stream: T,
    pub of: &'static str,
    pub failure: &'a Failure,
}

impl<T: Read + Drop> Read for Noting<'_, T> {
    fn read(&mut self, buf: &mut [u8]) -> io::Result<usize> {
        let read = self.stream.read(buf);
        self.failure.noted(self.of, read)
    }
}

impl<T: Write + Drop> Write for Noting<'_, T> {
    fn write(&mut self, buf: &[u8]) -> io::Result<usize> {
        let written = self.stream.write(buf);
        self.failure.noted(self.of, written)
    }

    fn flush(&mut self) -> io::Result<()> {
        let flushed = self.stream.flush();
        self.failure.noted(self.of, flushed)
    }
}
