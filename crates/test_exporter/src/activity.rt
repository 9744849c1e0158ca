//! Series of a book that stay as long as they are active, whatever their values; and snapshots that are absorbed in two parts.

use crate::given::{Exports, MEMORY, expect_text, exporter_of, fill, key};
use metrics::{
    Counter, Error, Gauge, Histogram, KeyName, MetricKindMask, Recorder, Reset, Snapshot, Update,
};
use metrics_debugging::DebuggingRecorder;
use metrics_exporter::{Exporter, PartlyAbsorbed};
use std::alloc::Global;
use std::process::Abort;
use test_trial::{Trial, Wrong, done, expect, made};

/// An exporter that removes series of any kind that are idle for more than 5.
fn watching(rt: &impl Abort, alloc: Global) -> Exporter {
    Exporter::new(alloc, 2, MetricKindMask::ALL, Some(5), &[10]).expect(rt, MEMORY)
}

const TEMP: &str = "gauge temp value 7\n";

const HITS: &str = "counter hits value 0\n";

fn temp_of<R: Recorder>(rt: &impl Abort, alloc: Global, book: &mut R) -> Gauge {
    book.register_gauge(alloc, &key(rt, alloc, "temp", &[]))
        .expect(rt, MEMORY)
}

fn hits_of<R: Recorder>(rt: &impl Abort, alloc: Global, book: &mut R) -> Counter {
    book.register_counter(alloc, &key(rt, alloc, "hits", &[]))
        .expect(rt, MEMORY)
}

/// A book, and an exporter that absorbs its snapshots.
#[derive(Drop)]
struct Scraped<R, E> {
    alloc: Global,
    book: R,
    exporter: E,
}

impl<R: Recorder, E: Exports> Scraped<R, E> {
    /// Absorbs the book's snapshot, and expires. Returns how many series went.
    fn scrape(&mut self, now: u64) -> Result<usize, Error> {
        let snapshot = self.book.snapshot_with(self.alloc, 0, Reset::KeepGauges)?;
        self.exporter.absorb(&snapshot)?;
        self.exporter.expire(now)
    }

    /// Scrapes at a moment, and compares how many series went, and the lines of the others.
    fn expect_scrape(&mut self, rt: &impl Abort, (now, removed, wanted): (u64, usize, &str)) {
        let went = self.scrape(now).expect(rt, MEMORY);
        assert!(rt; went == removed);
        expect_text(rt, &self.exporter, wanted);
    }

    fn scrape_set(&mut self, rt: &impl Abort) {
        let temp = temp_of(rt, self.alloc, &mut self.book);
        for now in [10, 16, 22, 28, 34] {
            temp.set(&mut self.book, 7).expect(rt, MEMORY);
            self.expect_scrape(rt, (now, 0, TEMP));
        }
    }

    fn scrape_idle(&mut self, rt: &impl Abort) {
        let temp = temp_of(rt, self.alloc, &mut self.book);
        temp.set(&mut self.book, 7).expect(rt, MEMORY);
        for scraped in [
            (10, 0, TEMP),
            (15, 0, TEMP),
            (16, 1, ""),
            (17, 0, ""),
            (40, 0, ""),
        ] {
            self.expect_scrape(rt, scraped);
        }
        temp.increment(&mut self.book, 0).expect(rt, MEMORY);
        self.expect_scrape(rt, (50, 0, TEMP));
        self.expect_scrape(rt, (56, 1, ""));
    }

    fn scrape_registered(&mut self, rt: &impl Abort) {
        let _hits = hits_of(rt, self.alloc, &mut self.book);
        for scraped in [(10, 0, HITS), (16, 1, ""), (17, 0, "")] {
            self.expect_scrape(rt, scraped);
        }
        let _again = hits_of(rt, self.alloc, &mut self.book);
        self.expect_scrape(rt, (18, 0, HITS));
    }

    fn make(&mut self, rt: &impl Abort, which: Scrapes) {
        match which {
            Scrapes::Set => self.scrape_set(rt),
            Scrapes::Idle => self.scrape_idle(rt),
            Scrapes::Registered => self.scrape_registered(rt),
        }
    }
}

/// Which scrapes to make.
#[derive(Clone, Copy)]
enum Scrapes {
    Set,
    Idle,
    Registered,
}

/// Makes scrapes of a book by an exporter.
fn scrape_all<R: Recorder, E: Exports>(
    rt: &impl Abort,
    alloc: Global,
    (book, exporter): (R, E),
    which: Scrapes,
) {
    let mut scraped = Scraped {
        alloc,
        book,
        exporter,
    };
    scraped.make(rt, which);
}

/// Makes a book and an exporter of it.
fn with_both(rt: &impl Abort, alloc: Global, which: Scrapes) {
    let book = DebuggingRecorder::new(alloc).expect(rt, MEMORY);
    scrape_all(rt, alloc, (book, watching(rt, alloc)), which);
}

#[test]
fn a_gauge_that_is_set_at_each_scrape_stays(rt: HostRuntime) {
    with_both(&rt, rt.alloc(), Scrapes::Set);
}

#[test]
fn an_idle_gauge_goes_once_and_comes_back_when_it_is_updated(rt: HostRuntime) {
    with_both(&rt, rt.alloc(), Scrapes::Idle);
}

#[test]
fn a_counter_that_is_registered_shows_0(rt: HostRuntime) {
    with_both(&rt, rt.alloc(), Scrapes::Registered);
}

/// The lines of the first 0, 1, 2 and 3 of the rows: the gauge is idle, so its row means no update.
const LINES: [&str; 4] = [
    "",
    "counter hits value 2\n",
    "counter hits value 2\nhistogram lat count 3 sum 56 le 20 2\n",
    "counter hits value 2\nhistogram lat count 3 sum 56 le 20 2\n",
];

/// A histogram whose name is described.
fn lat_of<R: Recorder>(rt: &impl Abort, alloc: Global, book: &mut R) -> Histogram {
    let name = KeyName::new(alloc, "lat").expect(rt, MEMORY);
    book.describe_histogram(alloc, &name, None, "time")
        .expect(rt, MEMORY);
    book.register_histogram(alloc, &key(rt, alloc, "lat", &[]))
        .expect(rt, MEMORY)
}

/// The rows of a counter and of a histogram that are active, and of a gauge that is idle.
fn rows_of_three<R: Recorder>(rt: &impl Abort, alloc: Global, mut book: R) -> Snapshot {
    let hits = hits_of(rt, alloc, &mut book);
    let lat = lat_of(rt, alloc, &mut book);
    let temp = temp_of(rt, alloc, &mut book);
    temp.set(&mut book, 7).expect(rt, MEMORY);
    book.snapshot_with(alloc, 0, Reset::KeepGauges)
        .expect(rt, MEMORY);
    hits.increment(&mut book, 2).expect(rt, MEMORY);
    for sample in [12, 30, 14] {
        lat.record(&mut book, sample).expect(rt, MEMORY);
    }
    book.snapshot_with(alloc, 0, Reset::KeepGauges)
        .expect(rt, MEMORY)
}

/// Returns the snapshot of a new book.
fn three_rows(rt: &impl Abort, alloc: Global) -> Snapshot {
    let book = DebuggingRecorder::new(alloc).expect(rt, MEMORY);
    rows_of_three(rt, alloc, book)
}

fn expect_from_second<E: Exports>(rt: &impl Abort, alloc: Global, mut exporter: E) {
    let rows = three_rows(rt, alloc);
    fill(
        rt,
        alloc,
        &mut exporter,
        &[
            ("hits", &[], Update::Increment(2)),
            ("lat", &[], Update::Record(12)),
            ("lat", &[], Update::Record(30)),
        ],
    );
    let part = PartlyAbsorbed {
        error: Error::Memory,
        rows: 1,
        samples: 2,
    };
    exporter.absorb_from(&rows, part).expect(rt, MEMORY);
    expect_text(rt, &exporter, LINES[3]);
}

#[test]
fn a_snapshot_is_absorbed_from_the_middle_of_its_second_row(rt: HostRuntime) {
    expect_from_second(&rt, rt.alloc(), exporter_of(&rt, rt.alloc(), &[20]));
}

/// Checks the lines after so many rows.
fn expect_lines<E: Exports>(exporter: &E, rows: usize) -> Result<(), Wrong> {
    let text = done(exporter.text())?;
    expect(
        LINES.get(rows) == Some(&text.as_str()),
        "another part than the one that was told",
    )
}

/// Absorbs rows. The first call may run out of memory in any of them, and a second one absorbs the rest.
fn absorb_in_parts<E: Exports>(
    trial: &mut Trial,
    mut exporter: E,
    rows: &Snapshot,
) -> Result<(), Wrong> {
    trial.begin();
    let first = exporter.absorb(rows);
    trial.calm();
    if let Err(part) = first {
        trial.note(part.error)?;
        expect(part.samples == 0, "samples that take memory")?;
        expect_lines(&exporter, part.rows)?;
        done(exporter.absorb_from(rows, part))?;
    }
    expect_lines(&exporter, 3)
}

#[test]
fn a_snapshot_is_absorbed_from_where_memory_ran_out(rt: HostRuntime) {
    let alloc = rt.alloc();
    let rows = three_rows(&rt, alloc);
    let mut trial = Trial::new(alloc);
    let make = move || Exporter::new(alloc, 2, MetricKindMask::NONE, None, &[20]);
    let exporter = made(&mut trial, &make).expect(&rt, "wrong");
    absorb_in_parts(&mut trial, exporter, &rows).expect(&rt, "wrong");
}
