//! Runs of an exporter for Prometheus: what it asks of its surroundings, and what it tells them.

use crate::devices::{MEMORY, end_if_refused};
use metrics_exporter::Exporter;
use std::alloc::Global;
use std::fmt::Display;
use std::io;
use std::io::Write;
use std::process::Abort;
use test_trial::Trial;
use tool_export::plan_of;
use tool_prometheus::{Dialect, Items, Naming, Options, Surroundings};

/// A clock of these moments, and a file that keeps its texts, but for the one with the number `bad`. Keeps messages too.
#[derive(Drop)]
struct Stage<'a, R> {
    rt: &'a R,
    alloc: Global,
    moments: &'a [u64],
    given: usize,
    bad: usize,
    tried: usize,
    files: Vec<String>,
    said: Vec<String>,
}

impl<R: Abort> Surroundings for Stage<'_, R> {
    ghost use Rattle.std.specs.Prelude.{None as Unknown};

    ghost asked = { λ _. Unknown };

    fn seconds(&mut self) -> u64 {
        let now = self.moments.get(self.given).copied();
        self.given = self.given.saturating_add(1);
        now.unwrap_or(0)
    }

    fn tell<M: Display + Drop>(&mut self, message: M) {
        let words = format!(in self.alloc; "{message}").expect(self.rt, MEMORY);
        end_if_refused(self.rt, self.said.push(words).is_err());
    }

    fn tell_device(&mut self) {
        self.tell("device");
    }

    fn keep(&mut self, _on: &Exporter) -> bool {
        true
    }

    fn publish(&mut self, text: &str) -> bool {
        self.tried = self.tried.saturating_add(1);
        if self.tried == self.bad {
            return false;
        }
        let text = String::from_str(self.alloc, text).expect(self.rt, MEMORY);
        end_if_refused(self.rt, self.files.push(text).is_err());
        true
    }
}

/// Counts what was written, and how much of it was flushed.
#[derive(Drop)]
struct Pipe {
    written: usize,
    flushed: usize,
}

impl Write for Pipe {
    fn write(&mut self, buf: &[u8]) -> io::Result<usize> {
        self.written = self.written.saturating_add(buf.len());
        Ok(buf.len())
    }

    fn flush(&mut self) -> io::Result<()> {
        self.flushed = self.written;
        Ok(())
    }
}

/// Options that change nothing, of an exporter with these idle kinds and this timeout.
pub fn options_of(rt: &impl Abort, alloc: Global, (kinds, timeout): (&str, &str)) -> Options {
    let plan = plan_of(alloc, "1", kinds, timeout, "5").expect(rt, MEMORY);
    Options {
        plan: plan.expect(rt, "a plan"),
        naming: Naming::AsGiven,
        prefixes: Items::from(Vec::new(alloc)),
        units: Items::from(Vec::new(alloc)),
        dialect: Dialect {
            labels: Items::from(Vec::new(alloc)),
            places: Items::from(Vec::new(alloc)),
        },
        prefix: None,
        drops: Items::from(Vec::new(alloc)),
        skips_bad: false,
        has_file: false,
        at_scrapes_only: false,
        every: None,
        max_series: None,
        is_strict: false,
        accepts_partial: false,
        tells_self: false,
    }
}

/// What a run over the lines did: its status, its surroundings, and its output. No request for memory fails.
fn ran<'a, R: Abort>(
    rt: &'a R,
    alloc: Global,
    lines: &[u8],
    clock_and_bad: (&'a [u64], usize),
    has_file: bool,
) -> (u8, Stage<'a, R>, Pipe) {
    ran_every(rt, alloc, lines, clock_and_bad, has_file, None)
}

/// The same with a period of scrapes, in which bad lines are skipped.
fn ran_every<'a, R: Abort>(
    rt: &'a R,
    alloc: Global,
    mut lines: &[u8],
    (moments, bad): (&'a [u64], usize),
    has_file: bool,
    every: Option<u64>,
) -> (u8, Stage<'a, R>, Pipe) {
    Trial::new(alloc).calm();
    let options = Options {
        skips_bad: every.is_some(),
        has_file,
        every,
        ..options_of(rt, alloc, ("cgh", "60"))
    };
    let stage = Stage {
        rt,
        alloc,
        moments,
        given: 0,
        bad,
        tried: 0,
        files: Vec::new(alloc),
        said: Vec::new(alloc),
    };
    let mut pipe = Pipe {
        written: 0,
        flushed: 0,
    };
    let (status, stage) = tool_prometheus::command(alloc, options, stage, &mut lines, &mut pipe);
    (status, stage, pipe)
}

/// Whether these are the texts.
fn are(found: &[String], texts: &[&str]) -> bool {
    found.len() == texts.len()
        && found
            .iter()
            .zip(texts)
            .all(|(text, same)| text.as_str() == *same)
}

/// Moments that are as far apart as the timeout, and further.
const KEPT: &[u64] = &[1000, 1060];

const GONE: &[u64] = &[1000, 1061];

/// A scrape without a moment asks the clock once, in the unit of the timeout: 60 later a series is kept, 61 later it goes.
#[test]
fn the_clock_removes_idle_series(rt: HostRuntime) {
    let lines = b"increment 1 a\nscrape\nincrement 2 b\nscrape\n".as_slice();
    let (a, b) = ("# TYPE a counter\na 1\n", "# TYPE b counter\nb 2\n");
    let both = "# TYPE a counter\na 1\n# TYPE b counter\nb 2\n";
    for (moments, second) in [(KEPT, both), (GONE, b)] {
        let (status, stage, _) = ran(&rt, rt.alloc(), lines, (moments, 0), true);
        assert_eq!(rt; (status, stage.given), (0, 2));
        assert!(rt; are(&stage.files, &[a, second]));
    }
}

/// Each scrape's text is put into the file, and the end's, in order. One that fails is lost, and the status is 1.
#[test]
fn each_scrape_is_put_into_the_file(rt: HostRuntime) {
    let lines = b"increment 1 a\nscrape 1\nincrement 1 a\nscrape 2\nincrement 1 a\n".as_slice();
    let texts = [
        "# TYPE a counter\na 1\n",
        "# TYPE a counter\na 2\n",
        "# TYPE a counter\na 3\n",
    ];
    for bad in 0..4 {
        let (status, stage, pipe) = ran(&rt, rt.alloc(), lines, (&[], bad), true);
        assert_eq!(rt;
            (status, stage.tried, pipe.written),
            (if bad == 0 { 0 } else { 1 }, 3, 0)
        );
        let wanted = match bad {
            1 => are(&stage.files, &[texts[1], texts[2]]),
            2 => are(&stage.files, &[texts[0], texts[2]]),
            3 => are(&stage.files, &[texts[0], texts[1]]),
            _ => are(&stage.files, &texts),
        };
        assert!(rt; wanted, "the file without text {bad}");
    }
}

/// A series that is left out is reported at the first scrape that leaves it out, and not again.
#[test]
fn a_series_left_out_is_reported_once(rt: HostRuntime) {
    let lines =
        b"increment 1 a.b\nincrement 1 a-b\nscrape 1\nscrape 2\nset 1 a_b\nscrape 3\nscrape 4\n".as_slice();
    let (status, stage, _) = ran(&rt, rt.alloc(), lines, (&[], 0), false);
    assert_eq!(rt; status, 0);
    assert!(rt;
        are(
            &stage.said,
            &[
                "line 1: name \"a.b\" is spelled \"a_b\"",
                "line 2: name \"a-b\" is spelled \"a_b\"",
                "left out: counter a.b: labels equal those of a-b",
                "left out: gauge a_b: name taken by a counter",
            ]
        )
    );
}

/// All that was written is flushed at the end, also what the end of the input writes.
#[test]
fn the_end_is_flushed(rt: HostRuntime) {
    let all = "# TYPE a counter\na 1\n\n".len();
    for (lines, written) in [
        (b"increment 1 a\nscrape 1\n".as_slice(), all),
        (b"increment 1 a\n".as_slice(), all),
        (b"".as_slice(), 0),
    ] {
        let (status, _, pipe) = ran(&rt, rt.alloc(), lines, (&[], 0), false);
        assert_eq!(rt; (status, pipe.written, pipe.flushed), (0, written, written));
    }
}

/// With a period of 10 seconds each line reads the clock once, and so does the start. A scrape follows a line that comes 10
/// seconds or more after the last scrape, or after the clock went back.
#[test]
fn a_period_of_the_clock_scrapes(rt: HostRuntime) {
    let (one, two, three) = (
        "# TYPE a counter\na 1\n",
        "# TYPE a counter\na 2\n",
        "# TYPE a counter\na 3\n",
    );
    let a = "increment 1 a\n";
    for (lines, moments, texts) in [
        ([a, a, "\n", a], [100, 109, 110, 119, 120], [two, three]),
        ([a, a, a, "# \n"], [100, 150, 159, 159, 160], [one, three]),
        ([a, a, "\n", "\n"], [100, 99, 50, 59, 59], [one, two]),
        ([a, a, "\n", a], [0, 9, 9, 1000, 1009], [two, three]),
        (
            [a, "scrape\n", a, a],
            [100, 105, 108, 117, 118],
            [one, three],
        ),
        (
            [a, "scrape 7\n", a, a],
            [100, 105, 108, 117, 118],
            [one, three],
        ),
        ([a, "jump\n", a, a], [100, 105, 110, 119, 120], [one, three]),
        (
            [a, "scrape\n", "jump\n", a],
            [100, 109, 111, 120, 120],
            [one, two],
        ),
    ] {
        let lines = lines.concat(rt.alloc()).expect(&rt, MEMORY);
        let (_, stage, _) = ran_every(
            &rt,
            rt.alloc(),
            lines.as_bytes(),
            (&moments, 0),
            true,
            Some(10),
        );
        assert_eq!(rt; stage.given, 5);
        assert!(rt; are(&stage.files, &texts));
    }
}

/// A line's update comes before the scrape that follows it, so its series is not idle then. Without a file the text goes to the
/// output.
#[test]
fn a_scrape_by_the_clock_follows_its_line(rt: HostRuntime) {
    let lines = b"increment 1 a\nincrement 1 a\n".as_slice();
    let moments = [100, 160, 221];
    let (status, stage, _) = ran_every(&rt, rt.alloc(), lines, (&moments, 0), true, Some(60));
    assert_eq!(rt; status, 0);
    assert!(rt;
        are(
            &stage.files,
            &["# TYPE a counter\na 1\n", "# TYPE a counter\na 2\n"]
        )
    );
    let written = "# TYPE a counter\na 1\n\n# TYPE a counter\na 2\n\n".len();
    let (_, _, pipe) = ran_every(&rt, rt.alloc(), lines, (&moments, 0), false, Some(60));
    assert_eq!(rt; pipe.written, written);
}
