//! Rounds of calls of each kind on a new book: by a list of calls, and by a journal.
ghost use Rattle.metrics.specs.Meaning.{AreNew};

use crate::given::Test;
use metrics::{
    Answer, Call, CompositeKey, DebugValue, Error, Key, Label, MetricKind, Recorder, Refused, Row,
    RowValue, Snapshot, Update,
};
use metrics_debugging::DebuggingRecorder;
use metrics_replay::{Journaled, replay};
use std::collections::HashMap;
use std::process::Abort;

/// A series: its kind, its name, whether it has a label, and what it is updated by.
type Series = (MetricKind, &'static str, bool, Update);

/// A register and an update of each, and then a snapshot, are the nine calls of a round.
const ROUND: [Series; 4] = [
    (
        MetricKind::Counter,
        "test.counter",
        true,
        Update::Increment(123),
    ),
    (
        MetricKind::Gauge,
        "test.gauge.incr",
        false,
        Update::Add(456),
    ),
    (MetricKind::Gauge, "test.gauge.set", false, Update::Set(654)),
    (
        MetricKind::Histogram,
        "test.histogram",
        false,
        Update::Record(789),
    ),
];

fn key_of<P: Abort>(test: &Test<P>, (_, name, has_label, _): Series) -> Key {
    let mut labels = Vec::new(test.alloc);
    if has_label {
        let label = test.ok(Label::new(test.alloc, "counter.key", "counter.value"));
        test.ok(labels.push(label));
    }
    test.ok(Key::from_parts(test.alloc, name, labels))
}

/// The call at a place of two rounds.
fn call_at<P: Abort>(test: &Test<P>, place: u8) -> Call {
    let place = usize::from(place);
    let number = place / 9 * 4 + place % 9 / 2;
    match ROUND.get(place % 9 / 2) {
        None => Call::Snapshot(0),
        Some(series) if place % 9 % 2 == 0 => Call::Register(series.0, key_of(test, *series)),
        Some(series) => Call::Update(number, series.3),
    }
}

fn calls<P: Abort>(test: &Test<P>, count: u8) -> Vec<Call> {
    let mut calls = Vec::new(test.alloc);
    for place in 0..count {
        test.ok(calls.push(call_at(test, place)));
    }
    calls
}

/// Whether a series has this value, after an update or before it.
fn is_value(value: &DebugValue, by: Update, is_updated: bool) -> bool {
    match (value, by) {
        (DebugValue::Counter(n), Update::Increment(by)) => *n == if is_updated { by } else { 0 },
        (DebugValue::Gauge(n), Update::Add(by) | Update::Set(by)) => {
            *n == if is_updated { by } else { 0 }
        }
        (DebugValue::Histogram(samples), Update::Record(by)) => match samples.as_slice() {
            [sample] => is_updated && *sample == by,
            samples => !is_updated && samples.is_empty(),
        },
        _ => false,
    }
}

/// Whether a key has the name and the labels of a series.
fn is_key(key: &Key, name: &str, has_label: bool) -> bool {
    let are_labels = match key.labels() {
        [label] => has_label && label.key() == "counter.key" && label.value() == "counter.value",
        labels => !has_label && labels.is_empty(),
    };
    are_labels && key.name() == name
}

/// Whether this is the row of a series, after an update or before it.
fn is_row(row: Option<&Row>, (kind, name, has_label, by): Series, is_updated: bool) -> bool {
    match row {
        Some((key, None, None, value)) => {
            key.kind() == kind
                && is_key(key.key(), name, has_label)
                && is_value(value, by, is_updated)
        }
        _ => false,
    }
}

/// Whether these are the rows of a round. Of its registers and updates, which come by turns, these were done.
fn are_rows(rows: &[Row], done: &[bool]) -> bool {
    let mut rows = rows.iter();
    let mut done = done.iter();
    for series in ROUND {
        let is_held = done.next() == Some(&true);
        let is_updated = done.next() == Some(&true);
        if is_held && !is_row(rows.next(), series, is_updated) {
            return false;
        }
    }
    rows.next().is_none()
}

fn expect_rows<P: Abort>(test: &Test<P>, rows: &[Row], done: &[bool]) {
    assert!(test.rt; are_rows(rows, done));
}

/// Whether a map has the row of a series that was updated.
fn is_in_map<P: Abort>(
    test: &Test<P>,
    map: &HashMap<CompositeKey, RowValue>,
    series: Series,
) -> bool {
    let key = CompositeKey::new(series.0, key_of(test, series));
    match map.get(&key) {
        Some((None, None, value)) => is_value(value, series.3, true),
        _ => false,
    }
}

/// Checks the rows of a round as a map.
fn expect_map<P: Abort>(test: &Test<P>, map: &HashMap<CompositeKey, RowValue>) {
    assert!(test.rt; map.len() == 4);
    for series in ROUND {
        assert!(test.rt; is_in_map(test, map, series), "at {}", series.1);
    }
}

fn expect_snapshot<P: Abort>(test: &Test<P>, rows: Snapshot, as_map: bool) {
    if !as_map {
        return expect_rows(test, rows.into_vec().as_slice(), &[true; 8]);
    }
    match rows.into_hashmap(test.alloc) {
        Ok(map) => expect_map(test, &map),
        Err(_) => test.ok::<(), _>(Err(Error::Memory)),
    }
}

/// Which calls of a round were done, by their answers.
#[derive(Drop)]
struct Round {
    done: Vec<bool>,
}

impl Round {
    fn new<P: Abort>(test: &Test<P>) -> Round {
        Round {
            done: test.ok(Vec::with_capacity(test.alloc, 9)),
        }
    }

    /// Notes the next answer. A failed call acted on nothing, and the handle of a failed register call is bad.
    fn take<P: Abort>(&mut self, test: &Test<P>, answer: &Answer) {
        let is_done = !matches!(answer, Answer::Refused(_));
        match answer {
            Answer::Refused(Refused::BadHandle) => {
                assert!(test.rt; self.done.as_slice().last() == Some(&false))
            }
            Answer::Refused(refused) => test.note(*refused),
            Answer::Snapshot(rows) => expect_rows(test, rows.as_slice(), self.done.as_slice()),
            _ => {}
        }
        if matches!(answer, Answer::Snapshot(_)) {
            self.done.clear();
        } else {
            test.ok(self.done.push(is_done));
        }
    }

    /// Checks what the book has, unless the last call was a snapshot.
    fn expect_book<P: Abort, R: Recorder>(&self, test: &Test<P>, on: &mut R) {
        let rows = test.ok(on.snapshot(test.alloc, 0));
        if !self.done.is_empty() {
            expect_rows(test, rows.as_slice(), self.done.as_slice());
        }
    }
}

/// Replays the first calls. The first try may fail as a whole, and then the book has no row.
fn replayed<P: Abort, R: Recorder>(test: &Test<P>, book: &mut R, calls: &[Call]) -> Vec<Answer> {
    test.begin();
    let first = replay(test.alloc, book, calls);
    test.calm();
    match first {
        Ok(answers) => answers,
        Err(refused) => {
            test.note(refused);
            test.expect_names(book, 0, &[]);
            test.ok(replay(test.alloc, book, calls))
        }
    }
}

/// Checks the snapshot that an answer may be.
fn expect_answer<P: Abort>(test: &Test<P>, answer: Answer, as_map: bool) {
    match answer {
        Answer::Snapshot(rows) => expect_snapshot(test, rows, as_map),
        _ => {}
    }
}

fn expect_answers<P: Abort>(test: &Test<P>, answers: Vec<Answer>, as_map: bool) {
    let mut round = Round::new(test);
    for answer in answers {
        round.take(test, &answer);
        expect_answer(test, answer, as_map);
    }
}

fn expect_replayed<P: Abort, R: Recorder>(test: &Test<P>, mut on: R, as_map: bool) {
    let answers = replayed(test, &mut on, calls(test, 18).as_slice());
    assert!(test.rt; answers.len() == 18);
    expect_answers(test, answers, as_map);
}

#[test]
fn two_rounds_are_replayed(rt: HostRuntime) {
    let test = Test::whole(&rt, rt.alloc());
    for as_map in [false, true] {
        expect_replayed(&test, test.book(), as_map);
    }
}

/// Which calls of a round these answers are of.
fn taken<P: Abort>(test: &Test<P>, answers: &[Answer]) -> Round {
    let mut round = Round::new(test);
    for answer in answers {
        round.take(test, answer);
    }
    round
}

fn expect_held<P: Abort, R: Recorder>(test: &Test<P>, mut on: R) {
    let answers = replayed(test, &mut on, calls(test, 9).as_slice());
    taken(test, answers.as_slice()).expect_book(test, &mut on);
}

#[test]
fn a_replay_goes_on_after_a_refusal(rt: HostRuntime) {
    let test = Test::marked(&rt, rt.alloc());
    expect_held(&test, test.book());
}

/// Makes a call of a journal. The first try may fail: then it is not made, and the journal is as it was.
fn make<P: Abort, R: Recorder>(
    test: &Test<P>,
    on: &mut Journaled<R>,
    round: &mut Round,
    place: u8,
) {
    let (call, again) = (call_at(test, place), call_at(test, place));
    test.begin();
    let first = on.call(call);
    test.calm();
    match first {
        Ok(answer) => round.take(test, answer),
        Err(refused) => {
            test.note(refused);
            assert!(test.rt; on.journal().len() == usize::from(place));
            round.take(test, test.ok(on.call(again)));
        }
    }
    assert!(test.rt; on.journal().len() == usize::from(place) + 1);
}

fn expect_journal<P: Abort, R: Recorder>(test: &Test<P>, on: R, count: u8)
    requires { AreNew (R.meaning on).contents }
{
    let mut round = Round::new(test);
    let mut journaled = Journaled::new(test.alloc, on);
    for place in 0..count {
        make(test, &mut journaled, &mut round, place);
    }
    assert!(test.rt; journaled.recorder().books() == 1);
}

#[test]
fn two_rounds_are_journaled(rt: HostRuntime) {
    let Ok(book) = DebuggingRecorder::new(rt.alloc()) else {
        panic!(rt; "out of memory")
    };
    expect_journal(&Test::whole(&rt, rt.alloc()), book, 18);
}

#[test]
fn a_journal_has_each_call_once(rt: HostRuntime) {
    let Ok(book) = DebuggingRecorder::new(rt.alloc()) else {
        panic!(rt; "out of memory")
    };
    expect_journal(&Test::marked(&rt, rt.alloc()), book, 9);
}
