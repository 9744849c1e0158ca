//! Recorders by number.
ghost use Rattle.std.specs.Prelude.{◌≡◌, ◌+◌, ◌≤◌, ◌++◌, ◌∷◌, [], ℕ, suc, length};
ghost use Rattle.std.specs.Prelude.{map, nat_le, IfOk, OnOk, MatchOption, MatchResult};
ghost use Rattle.metrics_rules.specs.Branches.{HasSpare};
ghost use Rattle.metrics_rules.specs.Nodes.{AreStarts};
ghost use Rattle.metrics_trees.specs.Places.{IsPlace};
ghost use Rattle.metrics_trees.specs.Recorders.{BooksFit, books_in, most_books, row_refusal};

use crate::over_error::OverError;
use crate::places::last_start;
use metrics::Recorder;
use std::alloc::{AllocError, Global};

/// How many books there may be in all.
pub(crate) const MOST_BOOKS: usize = 65_536;

/// Recorders by number, with at most 65,536 books in all.
#[derive(Drop)]
pub struct Row<B: Recorder> {
    pub(crate) recorders: Vec<B>,
    /// The number of books before each.
    pub(crate) starts: Vec<usize>,
    /// The number of books of all.
    pub(crate) books: usize,
    ghost starts_are: { AreStarts starts.items (map B.meaning recorders.items) },
    ghost count: { books ≡ books_in (map B.meaning recorders.items) },
    ghost most: { books ≤ most_books },
}

impl<B: Recorder> Row<B> {
    /// These recorders, if they have at most 65,536 books. If that fails it returns them.
    ///
    /// # Errors
    ///
    /// `TooManyBooks` if they have more, and else `Memory`.
    pub(crate) fn new(recorders: Vec<B>) -> Result<Row<B>, (OverError, Vec<B>)>
        ensures { MatchResult result
            (λ row. row.recorders.items ≡ recorders.items)
            (λ e. (e.0 ≡ row_refusal (map B.meaning recorders.items)) × (e.1 ≡ recorders)) }
    {
        if !are_few(&recorders) {
            return Err((OverError::TooManyBooks, recorders));
        }
        match Row::with_room(*recorders.allocator(), recorders.len()) {
            Ok(mut row) => {
                row.append_reserved(recorders);
                Ok(row)
            }
            Err(_) => Err((OverError::Memory, recorders)),
        }
    }

    /// No recorders, with room for so many.
    pub(crate) fn with_room(alloc: Global, room: usize) -> Result<Row<B>, AllocError>
        ensures { IfOk result (λ row. (row.recorders.items ≡ [])
            × HasSpare room row.recorders row.starts) }
    {
        Ok(Row {
            recorders: Vec::with_capacity(alloc, room)?,
            starts: Vec::with_capacity(alloc, room)?,
            books: 0,
        })
    }

    /// Makes room for so many recorders more. The recorders stay, whatever the result.
    pub(crate) fn reserve(&mut self, additional: usize) -> Result<(), AllocError>
        ensures recorders { self.new.recorders.items ≡ self.old.recorders.items }
        ensures spare { OnOk result (HasSpare additional self.new.recorders self.new.starts) }
    {
        self.recorders.reserve(additional)?;
        self.starts.reserve(additional)
    }

    /// Adds a recorder at the end, which has room for it.
    pub(crate) fn push_reserved(&mut self, recorder: B)
        requires spare { HasSpare 1 self.old.recorders self.old.starts }
        requires few { BooksFit (map B.meaning self.old.recorders.items) (B.meaning recorder) }
        ensures items { self.new.recorders.items ≡ self.old.recorders.items ++ recorder ∷ [] }
        ensures spare { (n : ℕ) → HasSpare (suc n) self.old.recorders self.old.starts →
            HasSpare n self.new.recorders self.new.starts }
    {
        let end = self.books + recorder.books();
        self.recorders.push_reserved(recorder);
        self.starts.push_reserved(self.books);
        self.books = end;
    }

    /// Moves recorders to the end, which has room for them.
    pub(crate) fn append_reserved(&mut self, recorders: Vec<B>)
        requires spare { HasSpare (length recorders.items) self.old.recorders self.old.starts }
        requires few { books_in (map B.meaning self.old.recorders.items)
            + books_in (map B.meaning recorders.items) ≤ most_books }
        ensures { self.new.recorders.items ≡ self.old.recorders.items ++ recorders.items }
    {
        for recorder in recorders {
            self.push_reserved(recorder);
        }
    }

    /// The recorder that has a book, and the book's number there.
    #[tactic(auto, using(crate::proofs::PlacesLemmas::ascends))]
    pub(crate) fn place_of(&self, book: usize) -> Option<(usize, usize)>
        ensures { let all = map B.meaning self.now.recorders.items in
            MatchOption result (books_in all ≤ book) (IsPlace all book) }
    {
        if book >= self.books {
            return None;
        }
        let number = last_start(&self.starts, book);
        Some((number, book - self.starts[number]))
    }
}

/// Whether recorders have at most 65,536 books.
fn are_few<B: Recorder>(recorders: &[B]) -> bool
    ensures { result ≡ nat_le (books_in (map B.meaning recorders.now)) most_books }
{
    let mut books: usize = 0;
    for recorder in recorders {
        books = books.saturating_add(recorder.books());
    }
    books <= MOST_BOOKS
}
