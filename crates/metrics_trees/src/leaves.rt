//! The recorders at the leaves of a tree.
ghost use Rattle.std.specs.Prelude.{◌≡◌, ◌+◌, ◌<◌, ◌≤◌, ◌++◌, length, map, nat_lt, cond, MatchResult, OnOk};
ghost use Rattle.std.specs.Result.{result_map_both};
ghost use Rattle.metrics.specs.Meaning.{Describes, Registers, Updates, Snapshots, holds_at};
ghost use Rattle.metrics.specs.Layers.{joined_all};
ghost use Rattle.metrics_trees.specs.Calls.{Calls, Stay};
ghost use Rattle.metrics_trees.specs.Leaves.{recorders_of, HasRoom};
ghost use Rattle.metrics_trees.specs.Recorders.{books_in, most_books, start};
ghost use Rattle.metrics_rules.specs.Nodes.{most_leaves};
ghost use Rattle.metrics.specs.declared.error.Error.TheVariants.{Memory, TooManyBooks};

use crate::row::{MOST_BOOKS, Row};
use metrics::{
    Address, Error, Key, KeyName, MetricKind, Recorder, Refused, Reset, Snapshot, Unit, Update,
};
use std::alloc::{AllocError, Global};
use std::mem;

/// The recorders at the leaves of a tree, by number. One alone takes no memory of its own.
#[derive(Drop)]
pub enum Leaves<B: Recorder> {
    Empty,
    One(B),
    Several(Row<B>),
}

impl<B: Recorder> Leaves<B> {
    /// Makes room for other recorders at the end, if there would be at most 65,536 books. The recorders stay, whatever the
    /// result.
    ///
    /// # Errors
    ///
    /// `TooManyBooks` if there would be more, and else `Memory`.
    pub(crate) fn make_room(&mut self, alloc: Global, others: &Leaves<B>) -> Result<(), Error>
        requires most { length (recorders_of others.now) ≤ most_leaves }
        ensures recorders { recorders_of self.new ≡ recorders_of self.old }
        ensures room { let n = books_in (map B.meaning (recorders_of self.old))
            + books_in (map B.meaning (recorders_of others.now)) in MatchResult result
            (λ done. (n ≤ most_books) × HasRoom (length (recorders_of others.now)) self.new)
            (λ e. e ≡ cond (nat_lt most_books n) TooManyBooks Memory) }
    {
        if others.books() > MOST_BOOKS - self.books() {
            return Err(Error::TooManyBooks);
        }
        if self.reserve(alloc, others.len()).is_err() {
            return Err(Error::Memory);
        }
        Ok(())
    }

    /// Makes room for so many recorders more at the end. The recorders stay, whatever the result.
    fn reserve(&mut self, alloc: Global, additional: usize) -> Result<(), AllocError>
        requires additional { additional ≤ most_leaves }
        requires few { books_in (map B.meaning (recorders_of self.old)) ≤ most_books }
        ensures recorders { recorders_of self.new ≡ recorders_of self.old }
        ensures room { OnOk result (HasRoom additional self.new) }
    {
        match self {
            Leaves::Empty => Ok(()),
            Leaves::One(_) => {
                let mut row = Row::with_room(alloc, additional + 1)?;
                let Leaves::One(recorder) = mem::replace(self, Leaves::Empty) else {
                    unreachable!()
                };
                row.push_reserved(recorder);
                *self = Leaves::Several(row);
                Ok(())
            }
            Leaves::Several(row) => row.reserve(additional),
        }
    }

    /// Moves the recorders of others to the end, where there is room for them.
    pub(crate) fn append_reserved(&mut self, others: Leaves<B>)
        requires room { HasRoom (length (recorders_of others)) self.old }
        requires few { books_in (map B.meaning (recorders_of self.old))
            + books_in (map B.meaning (recorders_of others)) ≤ most_books }
        ensures { recorders_of self.new ≡ recorders_of self.old ++ recorders_of others }
    {
        match self {
            Leaves::Empty => *self = others,
            Leaves::One(_) => unreachable!(),
            Leaves::Several(row) => match others {
                Leaves::Empty => {}
                Leaves::One(recorder) => row.push_reserved(recorder),
                Leaves::Several(other) => row.append_reserved(other.recorders),
            },
        }
    }

    /// The number of recorders.
    pub(crate) fn len(&self) -> usize
        ensures { result ≡ length (recorders_of self.now) }
    {
        match self {
            Leaves::Empty => 0,
            Leaves::One(_) => 1,
            Leaves::Several(row) => row.recorders.len(),
        }
    }

    /// The number of books of all, at most 65,536.
    pub(crate) fn books(&self) -> usize
        ensures count { result ≡ books_in (map B.meaning (recorders_of self.now)) }
        ensures most { result ≤ most_books }
    {
        match self {
            Leaves::Empty => 0,
            Leaves::One(recorder) => recorder.books(),
            Leaves::Several(row) => row.books,
        }
    }

    /// The number of books before a recorder.
    pub(crate) fn before(&self, leaf: usize) -> usize
        requires { leaf < length (recorders_of self.now) }
        ensures { result ≡ start leaf (map B.meaning (recorders_of self.now)) }
    {
        match self {
            Leaves::Empty => 0,
            Leaves::One(_) => 0,
            Leaves::Several(row) => row.starts[leaf],
        }
    }

    /// Describes a name in one recorder.
    pub(crate) fn describe(
        &mut self,
        alloc: Global,
        kind: MetricKind,
        leaf: usize,
        name: &KeyName,
        unit: Option<Unit>,
        text: &str,
    ) -> Result<usize, Refused>
        requires { leaf < length (recorders_of self.old) }
        ensures { Calls B.meaning leaf (recorders_of self.old) (recorders_of self.new)
            (λ a c. Describes a c kind name.now unit text.now result) }
    {
        match self {
            Leaves::Empty => Ok(0),
            Leaves::One(recorder) => recorder.describe(alloc, kind, name, unit, text),
            Leaves::Several(row) => row.recorders[leaf].describe(alloc, kind, name, unit, text),
        }
    }

    /// Registers a key in one recorder.
    pub(crate) fn register(
        &mut self,
        alloc: Global,
        kind: MetricKind,
        leaf: usize,
        key: &Key,
    ) -> Result<Vec<Address>, Refused>
        requires { leaf < length (recorders_of self.old) }
        ensures { Calls B.meaning leaf (recorders_of self.old) (recorders_of self.new)
            (λ a c. Registers a c kind key.now (result_map_both (λ v. v.items) (λ e. e) result)) }
    {
        match self {
            Leaves::Empty => Ok(Vec::new(alloc)),
            Leaves::One(recorder) => recorder.register(alloc, kind, key),
            Leaves::Several(row) => row.recorders[leaf].register(alloc, kind, key),
        }
    }

    #[tactic(auto, using(crate::proofs::JoinedLemmas::holds_none))]
    pub(crate) fn holds(&self, kind: MetricKind, at: Address) -> bool
        ensures { result ≡ holds_at kind at (joined_all (map B.meaning (recorders_of self.now))).contents }
    {
        match self {
            Leaves::Empty => false,
            Leaves::One(recorder) => recorder.holds(kind, at),
            Leaves::Several(row) => match row.place_of(at.book) {
                None => false,
                Some((number, book)) => {
                    let series = at.series;
                    row.recorders[number].holds(kind, Address { book, series })
                }
            },
        }
    }

    pub(crate) fn update(&mut self, at: Address, by: Update) -> Result<(), Refused>
        ensures stay { Stay B.meaning (recorders_of self.old) (recorders_of self.new) }
        ensures updates { Updates (joined_all (map B.meaning (recorders_of self.old)))
            (joined_all (map B.meaning (recorders_of self.new))) at by result }
    {
        match self {
            Leaves::Empty => Err(Refused::NoSuchAddress),
            Leaves::One(recorder) => recorder.update(at, by),
            Leaves::Several(row) => match row.place_of(at.book) {
                None => Err(Refused::NoSuchAddress),
                Some((number, book)) => {
                    let series = at.series;
                    row.recorders[number].update(Address { book, series }, by)
                }
            },
        }
    }

    pub(crate) fn snapshot_with(
        &mut self,
        alloc: Global,
        book: usize,
        reset: Reset,
    ) -> Result<Snapshot, Refused>
        ensures stay { Stay B.meaning (recorders_of self.old) (recorders_of self.new) }
        ensures snapshots { Snapshots (joined_all (map B.meaning (recorders_of self.old)))
            (joined_all (map B.meaning (recorders_of self.new))) book reset result }
    {
        match self {
            Leaves::Empty => Err(Refused::NoSuchBook),
            Leaves::One(recorder) => recorder.snapshot_with(alloc, book, reset),
            Leaves::Several(row) => match row.place_of(book) {
                None => Err(Refused::NoSuchBook),
                Some((number, there)) => row.recorders[number].snapshot_with(alloc, there, reset),
            },
        }
    }
}
