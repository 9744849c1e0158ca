//! Devices that fail, answers that are written in time, and words and numbers that no text case can spell.

use crate::devices::{FaultyReader, MEMORY, end_if_refused, ran_slowly, report, writer};
use crate::expositions::options_of;
use metrics_debugging::DebuggingRecorder;
use metrics_exporter::Exporter;
use std::alloc::Global;
use std::cell::Cell;
use std::fmt::Display;
use std::io;
use std::io::{BufRead, BufReader, Read, Write};
use std::process::Abort;
use test_trial::Trial;
use tool_lines::{RunError, command, run};
use tool_prometheus::Surroundings;

const GOOD: &[u8] = b"book\nprefix app\nend\ndescribe counter hits count all hits\n\
    register counter hits host=a\nincrement 0 2\nincrement 0 3\nsnapshot 0\nsnapshot 0\n";

const GOOD_TEXT: &[u8] = b"described 1\nregistered 0 1\nupdated 1\nupdated 1\n\
    snapshot 0 1\ncounter app.hits host=a unit count value 5 text all hits\n\
    snapshot 0 1\ncounter app.hits host=a unit count value 0 text all hits\n";

const BAD: &[u8] = b"book\nend\nincrement 0 1\njump\n";

const BAD_TEXT: &[u8] = b"refused E18 bad handle\n";

/// Whether the program stopped because a device failed.
fn is_device((status, errors): &(u8, Vec<u8>)) -> bool {
    *status == 1 && errors.as_slice() == b"device failed\n".as_slice()
}

/// Whether a device failed, and a beginning of the answers was written. Out of memory ends the test.
fn is_cut(rt: &impl Abort, report: &(u8, Vec<u8>), held: &[u8], whole: &[u8]) -> bool {
    let is_beginning = whole.starts_with(held);
    let last = held.rsplit(|byte| *byte == b'\n').next().unwrap_or(held);
    let is_refusal = b"refused E1 memory".as_slice().starts_with(last);
    end_if_refused(rt, !is_beginning && is_refusal);
    is_device(report) && is_beginning
}

#[test]
fn each_read_and_each_write_fails(rt: HostRuntime) {
    let alloc = rt.alloc();
    for (text, whole, good) in [(GOOD, GOOD_TEXT, 0), (BAD, BAD_TEXT, 2)] {
        let ((status, _), held) = ran_slowly(&rt, alloc, text, (1000, 1000));
        assert_eq!(rt; (status, held.as_slice()), (good, whole));
        for reads in 0..text.len() / 3 {
            let (report, held) = ran_slowly(&rt, alloc, text, (reads, 1000));
            assert!(rt; is_cut(&rt, &report, &held, whole), "at read {reads}");
        }
        for writes in 0..whole.len() {
            let (report, held) = ran_slowly(&rt, alloc, text, (1000, writes));
            assert!(rt; is_cut(&rt, &report, &held, whole), "at write {writes}");
            assert_eq!(rt; held.len(), writes);
        }
    }
}

#[test]
fn the_flush_fails(rt: HostRuntime) {
    let before: &[u8] = b"book\njump\n";
    for (text, whole) in [(GOOD, GOOD_TEXT), (BAD, BAD_TEXT), (before, b"".as_slice())] {
        let mut output = writer(&rt, rt.alloc(), 1000, 1000);
        output.is_flush_good = false;
        assert!(rt; is_device(&report(&rt, rt.alloc(), &["run"], text, &mut output)));
        assert_eq!(rt; output.held.as_slice(), whole);
    }
}

#[test]
fn faults_of_errors_are_ignored(rt: HostRuntime) {
    let alloc = rt.alloc();
    let (mut input, mut output) = (BAD, writer(&rt, alloc, 1000, 1000));
    let mut errors = writer(&rt, alloc, 1000, 0);
    let status = command(&rt, alloc, &["run"], &mut input, &mut output, &mut errors);
    end_if_refused(&rt, status == 1);
    assert_eq!(rt; (status, output.held.as_slice()), (2, BAD_TEXT));
}

#[test]
fn a_storm_whose_writer_fails(rt: HostRuntime) {
    let words = ["storm", "1", "3", "1"];
    let whole = b"pushed 3 sum 3\nfound 3 sum 3\nsampled 3 of 3 sum 3\n".as_slice();
    for (writes, is_flush_good) in [(0, true), (9, true), (99, false), (99, true)] {
        let mut output = writer(&rt, rt.alloc(), 5, writes);
        output.is_flush_good = is_flush_good;
        let report = report(&rt, rt.alloc(), &words, b"".as_slice(), &mut output);
        let is_good = writes == 99 && is_flush_good;
        assert_eq!(rt; (report.0 == 0, is_device(&report)), (is_good, !is_good));
        let out = writes.saturating_mul(5).min(whole.len());
        assert!(rt; output.held.len() == out && whole.starts_with(&output.held));
    }
}

/// Words that no text case can spell: none, empty ones, and ones with a line feed.
const WRONG: [&[&str]; 12] = [
    &[],
    &[""],
    &["run", ""],
    &["storm", "", "1", "1"],
    &["storm", "1", "", "1"],
    &["storm", "1", "1", ""],
    &["storm", "1", "1", "1", ""],
    &["export", "", "c", "5", "10"],
    &["export", "1", "", "5", "10"],
    &["export", "1", "c", "", "10"],
    &["export", "1", "c", "5", ""],
    &["export", "1", "c", "5", "10\n"],
];

const USAGE: &[u8] = b"usage: metrics_tool run | storm P V B [grow] | export S M T B\n";

#[test]
fn wrong_words_ask_for_nothing(rt: HostRuntime) {
    let alloc = rt.alloc();
    for words in WRONG {
        let mut output = writer(&rt, alloc, 1000, 1000);
        let (status, errors) = report(&rt, alloc, words, GOOD, &mut output);
        assert_eq!(rt;
            (status, errors.as_slice(), output.held.len()),
            (2, USAGE, 0)
        );
    }
}

/// No clock, no file, and nobody who reads messages.
#[derive(Drop)]
struct Alone;

impl Surroundings for Alone {
    ghost use Rattle.std.specs.Prelude.{None as Unknown};

    ghost asked = { λ _. Unknown };

    fn seconds(&mut self) -> u64 {
        0
    }

    fn tell<M: Display + Drop>(&mut self, _message: M) {}

    fn tell_device(&mut self) {}

    fn keep(&mut self, _on: &Exporter) -> bool {
        true
    }

    fn publish(&mut self, _text: &str) -> bool {
        false
    }
}

/// The status of an exporter for Prometheus whose writer accepts so many bytes, and how many it accepted.
fn shown_to(rt: &impl Abort, alloc: Global, given: &[u8], writes: usize) -> (u8, usize) {
    let options = options_of(rt, alloc, ("-", "-"));
    let (mut input, mut output) = (given, writer(rt, alloc, 1, writes));
    let (status, _) = tool_prometheus::command(alloc, options, Alone, &mut input, &mut output);
    (status, output.held.len())
}

/// What is held at the end of the input is shown whole, or the device failed.
#[test]
fn the_end_of_an_exporter_fails(rt: HostRuntime) {
    let given: &[u8] = b"increment 2 hits\n";
    let whole = b"# TYPE hits counter\nhits 2\n\n".len();
    for writes in 0..whole + 1 {
        let wanted = (if writes < whole { 1 } else { 0 }, writes);
        end_if_refused(&rt, shown_to(&rt, rt.alloc(), given, writes) != wanted);
    }
}

/// What a run over a new book writes, from a line on.
fn answered<I: BufRead + Drop, O: Write>(
    rt: &impl Abort,
    alloc: Global,
    mut input: I,
    output: &mut O,
    first: u64,
) -> Result<u64, RunError> {
    let mut book = DebuggingRecorder::new(alloc).expect(rt, MEMORY);
    let found = run(alloc, &mut book, &mut input, output, first);
    end_if_refused(rt, matches!(&found, Err(RunError::Memory(_))));
    found
}

#[test]
fn numbers_of_lines_stop(rt: HostRuntime) {
    let alloc = rt.alloc();
    let bad: &[u8] = b"snapshot 0\nsnapshot 0\njump\n";
    let good: &[u8] = b"snapshot 0\nsnapshot 7";
    for first in [1, u64::MAX - 3, u64::MAX - 2, u64::MAX - 1, u64::MAX] {
        let mut output = writer(&rt, alloc, 1000, 1000);
        let found = answered(&rt, alloc, bad, &mut output, first);
        assert_eq!(rt; found, Err(RunError::BadLine(first.saturating_add(2))));
        let found = answered(&rt, alloc, good, &mut output, first);
        assert_eq!(rt; found, Ok(2));
    }
    let last = RunError::BadLine(u64::MAX);
    let text = format!(in alloc; "{last}").expect(&rt, MEMORY);
    assert_eq!(rt; text.as_str(), "line 18446744073709551615: bad line");
}

/// A line so many times, and the lines after it.
fn repeated(rt: &impl Abort, alloc: Global, line: &[u8], times: usize, after: &[u8]) -> Vec<u8> {
    let mut text = Vec::new(alloc);
    for _ in 0..times {
        text.extend_from_slice(line).expect(rt, MEMORY);
    }
    text.extend_from_slice(after).expect(rt, MEMORY);
    text
}

/// A fanout accepts at most 65,536 recorders, of which none needs to be a book.
#[test]
fn fanouts_of_many_noops(rt: HostRuntime) {
    let good: &[u8] = b"fanout 65536\nfanout 2\nend\n";
    for (after, want) in [(good, 0), (b"fanout 65537\nend\n".as_slice(), 2)] {
        let text = repeated(&rt, rt.alloc(), b"noop\n", 65_537, after);
        let mut output = writer(&rt, rt.alloc(), 1000, 1000);
        let (status, _) = report(&rt, rt.alloc(), &["run"], text.as_slice(), &mut output);
        assert_eq!(rt; status, want);
    }
}

/// Lines, each of 11 bytes; each has the answer `snapshot 0 0`, of 13 bytes with its line feed.
const TYPED: &[u8] = b"snapshot 0\nsnapshot 0\nsnapshot 0\nsnapshot 0\nsnapshot 0\n";

/// Notes whether the answer to a line of the reader is not written by the next read.
#[derive(Drop)]
struct Typist<'a> {
    reader: FaultyReader<'a>,
    out: &'a Cell<usize>,
    is_kept_waiting: &'a Cell<bool>,
}

impl Read for Typist<'_> {
    fn read(&mut self, buf: &mut [u8]) -> io::Result<usize> {
        let lines = TYPED.len().saturating_sub(self.reader.rest.len()) / 11;
        if self.out.get() < lines.saturating_mul(13) {
            self.is_kept_waiting.set(true);
        }
        self.reader.read(buf)
    }
}

/// Accepts all bytes, and counts them.
#[derive(Drop)]
struct Screen<'a> {
    out: &'a Cell<usize>,
}

impl Write for Screen<'_> {
    fn write(&mut self, buf: &[u8]) -> io::Result<usize> {
        self.out.set(self.out.get().saturating_add(buf.len()));
        Ok(buf.len())
    }

    fn flush(&mut self) -> io::Result<()> {
        Ok(())
    }
}

/// Whether the answers to lines of which so many bytes are read at a time are all written, and were before each read.
fn are_out_in_time(rt: &impl Abort, alloc: Global, most: usize) -> bool {
    let (out, is_kept_waiting) = (Cell::new(0), Cell::new(false));
    let (rest, left) = (TYPED, 1000);
    let typist = Typist {
        reader: FaultyReader { rest, most, left },
        out: &out,
        is_kept_waiting: &is_kept_waiting,
    };
    let input = BufReader::new(alloc, typist).expect(rt, MEMORY);
    let found = answered(rt, alloc, input, &mut Screen { out: &out }, 1);
    found == Ok(5) && out.get() == 65 && !is_kept_waiting.get()
}

#[test]
fn answers_are_out_before_a_read(rt: HostRuntime) {
    for most in [1, 3, 11, 16, 22, 30, 1000] {
        assert!(rt; are_out_in_time(&rt, rt.alloc(), most), "{most} bytes");
    }
}

/// Less than a block of 8192 bytes waits, and one answer after it. So answers of 13 bytes leave in pieces of 631, which
/// are 8203 bytes, and there are four pieces; answers to few lines leave in one. Without memory for the block each
/// answer would leave alone, so no allocation may fail.
#[test]
fn answers_to_lines_at_hand_are_written_in_blocks(rt: HostRuntime) {
    for (times, writes, held, offered) in [(1, 1, 65, 65), (400, 4, 26_000, 8203)] {
        let text = repeated(&rt, rt.alloc(), TYPED, times, b"");
        let mut output = writer(&rt, rt.alloc(), 10_000, writes);
        Trial::new(rt.alloc()).calm();
        let found = answered(&rt, rt.alloc(), text.as_slice(), &mut output, 1);
        assert!(rt; found.is_ok_and(|lines| lines as usize == times.saturating_mul(5)));
        assert_eq!(rt; (output.held.len(), output.offered), (held, offered));
    }
}
