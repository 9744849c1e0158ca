//! Lines of series that are updated, checked and removed.

use crate::given::{Exports, Given, MEMORY, fill, key};
use metrics::{MetricKindMask, Update};
use metrics_exporter::Exporter;
use std::alloc::Global;
use std::process::Abort;
use test_trial::{Trial, Wrong, done, expect, made};

/// A series of each kind.
const SERIES: [Given; 3] = [
    ("lat", &[], Update::Record(12)),
    ("temp", &[], Update::Set(-3)),
    ("hits", &[("host", "a")], Update::Increment(2)),
];

/// The text of the first 0, 1, 2 and 3 of them: their order is that of their kinds.
const TEXTS: [&str; 4] = [
    "",
    "histogram lat count 1 sum 12 le 10 0 le 25 1\n",
    "gauge temp value -3\nhistogram lat count 1 sum 12 le 10 0 le 25 1\n",
    "counter hits host=a value 2\ngauge temp value -3\nhistogram lat count 1 sum 12 le 10 0 le 25 1\n",
];

const AGAIN: &str =
    "counter hits host=a value 1\ngauge temp value -3\nhistogram lat count 1 sum 12 le 10 0 le 25 1\n";

/// Expires at a moment, and compares how many series went, how many are left, and their lines.
fn expect_scrape<E: Exports>(
    rt: &impl Abort,
    exporter: &mut E,
    now: u64,
    wanted: (usize, usize, &str),
) {
    let removed = exporter.expire(now).expect(rt, MEMORY);
    let text = exporter.text().expect(rt, MEMORY);
    assert_eq!(rt;
        (removed, exporter.len(), text.as_str()),
        wanted,
        "at {now}"
    );
}

fn expect_begun_again<E: Exports>(rt: &impl Abort, alloc: Global, mut exporter: E) {
    fill(rt, alloc, &mut exporter, &SERIES);
    expect_scrape(rt, &mut exporter, 10, (0, 3, TEXTS[3]));
    expect_scrape(rt, &mut exporter, 15, (0, 3, TEXTS[3]));
    expect_scrape(rt, &mut exporter, 16, (1, 2, TEXTS[2]));
    let again = ("hits", [("host", "a")].as_slice(), Update::Increment(1));
    fill(rt, alloc, &mut exporter, &[again]);
    expect_scrape(rt, &mut exporter, 17, (0, 3, AGAIN));
}

#[test]
fn an_idle_counter_goes_and_begins_again(rt: HostRuntime) {
    let made = Exporter::new(rt.alloc(), 4, MetricKindMask::COUNTER, Some(5), &[10, 25]);
    expect_begun_again(&rt, rt.alloc(), made.expect(&rt, MEMORY));
}

/// Checks that the first `count` series are held. The first call for the text may run out of memory; a second one returns it.
fn expect_held<E: Exports>(trial: &mut Trial, exporter: &E, count: usize) -> Result<(), Wrong> {
    let text = made(trial, &|| exporter.text())?;
    expect(exporter.len() == count, "another number of series")?;
    expect(TEXTS.get(count) == Some(&text.as_str()), "another text")
}

/// Makes an update. If it fails nothing has changed, and it is made again.
fn update<E: Exports>(
    rt: &impl Abort,
    trial: &mut Trial,
    exporter: &mut E,
    given: &Given,
) -> Result<(), Wrong> {
    let (name, labels, by) = given;
    let key = key(rt, trial.alloc, name, labels);
    let held = exporter.len();
    trial.begin();
    let first = exporter.update(&key, *by);
    trial.calm();
    if let Err(error) = first {
        trial.note(error)?;
        expect_held(trial, exporter, held)?;
        done(exporter.update(&key, *by))?;
    }
    expect_held(trial, exporter, held.saturating_add(1))
}

/// Expires at a moment at which these are idle. If it fails some series may have gone, the last first, and a second
/// call removes the others.
fn expire<E: Exports>(
    trial: &mut Trial,
    exporter: &mut E,
    now: u64,
    idle: usize,
) -> Result<(), Wrong> {
    let held = exporter.len();
    trial.begin();
    let first = exporter.expire(now);
    trial.calm();
    let removed = match first {
        Ok(removed) => removed,
        Err(error) => {
            trial.note(error)?;
            let left = exporter.len();
            expect_held(trial, exporter, left)?;
            let gone = held.saturating_sub(left);
            gone.saturating_add(done(exporter.expire(now))?)
        }
    };
    expect(removed == idle, "another number of idle series")?;
    expect_held(trial, exporter, held.saturating_sub(idle))
}

fn go_on_after_a_refusal<E: Exports>(
    rt: &impl Abort,
    trial: &mut Trial,
    mut exporter: E,
) -> Result<(), Wrong> {
    for given in &SERIES {
        update(rt, trial, &mut exporter, given)?;
    }
    expire(trial, &mut exporter, 10, 0)?;
    expire(trial, &mut exporter, 16, 3)
}

#[test]
fn an_exporter_goes_on_after_a_refusal(rt: HostRuntime) {
    let alloc = rt.alloc();
    let mut trial = Trial::new(alloc);
    let make = move || Exporter::new(alloc, 4, MetricKindMask::ALL, Some(5), &[10, 25]);
    let exporter = made(&mut trial, &make).expect(&rt, "wrong");
    go_on_after_a_refusal(&rt, &mut trial, exporter).expect(&rt, "wrong");
}
