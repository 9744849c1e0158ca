//! What the tests share: calls whose first try may fail, and what a recorder has then.

use metrics::{Address, DebugValue, Error, Key, MetricKind, Recorder, Reset, Row, Update};
use metrics_debugging::DebuggingRecorder;
use std::alloc::{AllocError, Global};
use std::fmt::Debug;
use std::process::Abort;
use test_trial::Trial;

/// The book that the tests use.
pub type Book = DebuggingRecorder;

/// A register call by kind and name, and the addresses that it returns: book and series.
pub type Registered<'a> = (MetricKind, &'a str, &'a [(usize, usize)]);

/// A test, which ends at a failed call; or which continues after those between its marks.
#[derive(Drop)]
pub struct Test<'a, P: Abort> {
    /// The runtime.
    pub rt: &'a P,
    /// The memory that calls allocate from.
    pub alloc: Global,
    trial: Trial,
    goes_on: bool,
}

impl<'a, P: Abort> Test<'a, P> {
    /// Returns a test that ends at a failed call.
    pub fn whole(rt: &'a P, alloc: Global) -> Test<'a, P> {
        let trial = Trial::new(alloc);
        Test {
            rt,
            alloc,
            trial,
            goes_on: false,
        }
    }

    /// Returns a test that continues after a failed call.
    pub fn marked(rt: &'a P, alloc: Global) -> Test<'a, P> {
        let trial = Trial::new(alloc);
        Test {
            rt,
            alloc,
            trial,
            goes_on: true,
        }
    }

    /// Lets memory run out from here on.
    pub fn begin(&self) {
        if self.goes_on {
            self.trial.begin();
        }
    }

    /// Ends the test at a failed call from here on.
    pub fn calm(&self) {
        if self.goes_on {
            self.trial.calm();
        }
    }

    /// Returns the result of a call that succeeds.
    pub fn ok<T, E: Debug>(&self, answer: Result<T, E>) -> T {
        if self.goes_on {
            answer.expect(self.rt, "refused with memory at hand")
        } else {
            answer.expect(self.rt, "out of memory")
        }
    }

    /// Returns the result of a call that succeeds, and would return its argument on failure.
    pub fn made<M, R: Drop>(&self, answer: Result<M, (Error, R)>) -> M {
        match answer {
            Ok(made) => made,
            Err((error, _)) => self.ok(Err(error)),
        }
    }

    /// Notes a failed call between the marks, which acted on nothing.
    pub fn note<E: Debug + Drop + PartialEq + From<AllocError>>(&self, error: E) {
        if self.goes_on {
            assert_eq!(self.rt; error, E::from(AllocError));
        } else {
            self.ok(Err(error))
        }
    }

    /// The same of a call that leaves the recorder with the gauge as it is.
    pub fn note_unchanged<E, R: Recorder>(&self, error: E, on: &mut R)
    where
        E: Debug + Drop + PartialEq + From<AllocError>,
    {
        self.note(error);
        self.expect_gauge(on);
    }

    /// Returns the result of a call. The first try may fail.
    pub fn tried<T, E, F: FnMut() -> Result<T, E>>(&self, mut call: F) -> T
    where
        E: Debug + Drop + PartialEq + From<AllocError>,
        requires { F.IsAlwaysCallable call }
    {
        self.begin();
        let first = call();
        self.calm();
        match first {
            Ok(answer) => answer,
            Err(error) => {
                self.note(error);
                self.ok(call())
            }
        }
    }

    /// Returns what a call makes of a recorder. The first try may fail, and returns the recorder unchanged.
    pub fn made_from<R: Recorder, M, F>(&self, on: R, mut call: F) -> M
    where
        F: FnMut(R) -> Result<M, (Error, R)>,
        requires { F.IsAlwaysCallable call }
    {
        self.begin();
        let first = call(on);
        self.calm();
        match first {
            Ok(made) => made,
            Err((error, mut back)) => {
                self.note_unchanged(error, &mut back);
                self.made(call(back))
            }
        }
    }

    /// Returns the recorder of a call that can't be done, which leaves it unchanged.
    pub fn given_back<R: Recorder, M, F: FnMut(R) -> Result<M, (Error, R)>>(
        &self,
        on: R,
        why: Error,
        mut call: F,
    ) -> R
        requires { F.IsAlwaysCallable call }
    {
        self.begin();
        let answer = call(on);
        self.calm();
        match answer {
            Ok(_) => panic!(self.rt; "what can't be done is done"),
            Err((error, mut back)) => {
                assert_eq!(self.rt; error, why);
                self.expect_gauge(&mut back);
                back
            }
        }
    }

    /// Returns a new book.
    pub fn book(&self) -> Book {
        self.ok(DebuggingRecorder::new(self.alloc))
    }

    /// Returns a book whose only series is the gauge `g` with the value 3, which identifies it.
    pub fn book_of_gauge(&self) -> Book {
        let mut book = self.book();
        self.expect_registered(&mut book, &[(MetricKind::Gauge, "g", &[(0, 0)])]);
        let set = book.update(Address { book: 0, series: 0 }, Update::Set(3));
        assert_eq!(self.rt; set, Ok(()));
        book
    }

    /// Checks that the last book of a recorder has the gauge alone.
    pub fn expect_gauge<R: Recorder>(&self, on: &mut R) {
        let last = on.books().checked_sub(1).expect(self.rt, "no book");
        let rows = self.ok(on.snapshot_with(self.alloc, last, Reset::KeepGauges));
        assert!(self.rt; are_gauge(rows.as_slice()));
    }

    /// Checks that each register call of a table returns its addresses.
    pub fn expect_registered<R: Recorder>(&self, on: &mut R, wanted: &[Registered]) {
        for (kind, name, addresses) in wanted {
            let is_right = self.is_registered(on, (*kind, name, addresses));
            assert!(self.rt; is_right, "at {name}");
        }
    }

    fn is_registered<R: Recorder>(&self, on: &mut R, (kind, name, wanted): Registered) -> bool {
        let key = self.ok(Key::from_name(self.alloc, name));
        let found = self.ok(on.register(self.alloc, kind, &key));
        are_addresses(found.as_slice(), wanted)
    }

    /// Checks that the rows of a book have these names.
    pub fn expect_names<R: Recorder>(&self, on: &mut R, book: usize, names: &[&str]) {
        let rows = self.ok(on.snapshot(self.alloc, book));
        assert!(self.rt; are_names(rows.as_slice(), names), "in book {book}");
    }
}

fn are_names(rows: &[Row], names: &[&str]) -> bool {
    if rows.len() != names.len() {
        return false;
    }
    for (row, name) in rows.iter().zip(names) {
        if row.0.key().name() != *name {
            return false;
        }
    }
    true
}

fn are_gauge(rows: &[Row]) -> bool {
    match rows {
        [row] => row.0.key().name() == "g" && matches!(row.3, DebugValue::Gauge(3)),
        _ => false,
    }
}

fn are_addresses(found: &[Address], wanted: &[(usize, usize)]) -> bool {
    if found.len() != wanted.len() {
        return false;
    }
    for (at, (book, series)) in found.iter().zip(wanted) {
        if at.book != *book || at.series != *series {
            return false;
        }
    }
    true
}
