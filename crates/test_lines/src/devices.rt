//! Readers and writers that are slow, or fail, and what the program does over them.

use std::alloc::{AllocError, Global};
use std::io;
use std::io::{BufRead, BufReader, ErrorKind, Read, Write};
use std::process::Abort;
use std::sync::Wait;
use std::thread::Threads;
use tool_lines::command;

/// The message of an end out of memory.
pub const MEMORY: &str = "out of memory";

/// Returns at most `most` bytes a read, and fails at the read before which `left` is 0.
#[derive(Drop)]
pub struct FaultyReader<'a> {
    /// The bytes that are left to read.
    pub rest: &'a [u8],
    /// The most bytes of a read.
    pub most: usize,
    /// How many reads succeed.
    pub left: usize,
}

impl Read for FaultyReader<'_> {
    fn read(&mut self, buf: &mut [u8]) -> io::Result<usize> {
        if self.left == 0 {
            return Err(io::Error::from(ErrorKind::Other));
        }
        self.left -= 1;
        let n = buf.len().min(self.rest.len()).min(self.most);
        buf[..n].copy_from_slice(&self.rest[..n]);
        self.rest = &self.rest[n..];
        Ok(n)
    }
}

/// Accepts at most `most` bytes a write, and fails at the write before which `left` is 0, or at a flush. Notes the most
/// bytes that it was offered.
#[derive(Drop)]
pub struct FaultyWriter {
    /// What was written.
    pub held: Vec<u8>,
    /// The most bytes of a write.
    pub most: usize,
    /// How many writes succeed.
    pub left: usize,
    /// Whether a flush succeeds.
    pub is_flush_good: bool,
    /// The most bytes that a write was offered.
    pub offered: usize,
}

impl Write for FaultyWriter {
    fn write(&mut self, buf: &[u8]) -> io::Result<usize> {
        if self.left == 0 {
            return Err(io::Error::from(ErrorKind::Other));
        }
        self.left -= 1;
        self.offered = self.offered.max(buf.len());
        let n = self.most.min(buf.len());
        self.held.extend_from_slice(&buf[..n])?;
        Ok(n)
    }

    fn flush(&mut self) -> io::Result<()> {
        if self.is_flush_good {
            Ok(())
        } else {
            Err(io::Error::from(ErrorKind::Other))
        }
    }
}

/// Returns a writer with room for all that a test writes, and a flush that succeeds.
pub fn writer(rt: &impl Abort, alloc: Global, most: usize, left: usize) -> FaultyWriter {
    FaultyWriter {
        held: Vec::with_capacity(alloc, 32_768).expect(rt, MEMORY),
        most,
        left,
        is_flush_good: true,
        offered: 0,
    }
}

/// Ends the test if memory ran out.
pub fn end_if_refused(rt: &impl Abort, is_refused: bool) {
    let found: Result<(), AllocError> = if is_refused { Err(AllocError) } else { Ok(()) };
    found.expect(rt, MEMORY);
}

fn tells_memory(held: &[u8]) -> bool {
    str::from_utf8(held).is_ok_and(|text| text.contains("memory"))
}

/// Returns the status of the program, and what it writes to its errors.
pub fn report<R: Threads + Wait + Sync + Abort, I: BufRead + Drop>(
    rt: &R,
    alloc: Global,
    words: &[&str],
    mut input: I,
    output: &mut FaultyWriter,
) -> (u8, Vec<u8>) {
    let mut errors = writer(rt, alloc, 1, 1000);
    let status = command(rt, alloc, words, &mut input, output, &mut errors);
    let FaultyWriter { held, .. } = errors;
    end_if_refused(rt, tells_memory(&held) || tells_memory(&output.held));
    (status, held)
}

/// Returns the same of a run over a text that is read by three bytes and answered by a byte a write, and the answers.
pub fn ran_slowly<R: Threads + Wait + Sync + Abort>(
    rt: &R,
    alloc: Global,
    rest: &[u8],
    (left, writes): (usize, usize),
) -> ((u8, Vec<u8>), Vec<u8>) {
    let most = 3;
    let reader = FaultyReader { rest, most, left };
    let input = BufReader::with_capacity(alloc, 4, reader).expect(rt, MEMORY);
    let mut output = writer(rt, alloc, 1, writes);
    let report = report(rt, alloc, &["run"], input, &mut output);
    let FaultyWriter { held, .. } = output;
    (report, held)
}
