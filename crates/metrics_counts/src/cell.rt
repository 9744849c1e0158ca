//! A counter's cell.
ghost use Rattle.std.specs.Prelude.{◌≡◌, ℕ, ◌-◌};
ghost use Rattle.metrics_counts.specs.Counting.{first_view, WasAdded};
ghost use Rattle.metrics_counts.specs.Owning.{Counted, counted_coded, cell_owns, cell_shares};

use crate::seat::Seat;
use std::marker::{Brand, Move, Owns, PhantomData};
use std::sync::atomic::Ordering::SeqCst;
use std::sync::atomic::raw;

/// A count that any thread may change: the remainder, modulo 2^64, of a total that only rises.
///
/// Contracts see the key that it was made for. The key itself isn't kept.
pub struct CountCell<K> {
    word: u64,
    marker: PhantomData<K>,
}

impl<K> Owns for CountCell<K> {
    ghost Value = { Counted K };

    ghost coded = { counted_coded K.code };

    ghost shr_at = { λ d p κ. cell_shares d.name p κ };
}

impl<K> Move for CountCell<K> {
    ghost own_val = { λ d vs. cell_owns d.name (λ n. Fields.own_val (record { word = n; marker = record {} }) vs) };
}

impl<K> CountCell<K> {
    /// Makes a cell for a key, with the count 0.
    pub fn new(key: &K) -> CountCell<K>
        ensures { result.key ≡ key.now }
    {
        let _ = key;
        CountCell {
            word: 0,
            marker: PhantomData,
        }
    }

    /// Returns a new seat, which saw and added nothing.
    #[inline(always)]
    pub fn enter(&self) -> Seat
        ensures { (result.cell ≡ self.now.name) × (result.view ≡ first_view) }
    {
        Seat {
            marker: PhantomData,
        }
    }

    /// Adds to the total, once, and returns the count before.
    #[inline(always)]
    pub fn add(&self, seat: &mut Seat, value: u64) -> u64
        requires { seat.old.cell ≡ self.now.name }
        ensures { (seat.new.cell ≡ seat.old.cell) × WasAdded value seat.old.view result seat.new.view }
    {
        unsafe { raw::fetch_add::<Brand>(&raw const self.word, value, SeqCst) }
    }

    /// Adds to the total what the count lacks of the value, if it is below that, and returns the count before.
    #[inline(always)]
    pub fn raise(&self, seat: &mut Seat, value: u64) -> u64
        requires { seat.old.cell ≡ self.now.name }
        ensures { (seat.new.cell ≡ seat.old.cell) × WasAdded (value - result) seat.old.view result seat.new.view }
    {
        unsafe { raw::fetch_max::<Brand>(&raw const self.word, value, SeqCst) }
    }

    /// Looks at the total, and returns the count.
    #[inline(always)]
    pub fn look(&self, seat: &mut Seat) -> u64
        requires { seat.old.cell ≡ self.now.name }
        ensures { (seat.new.cell ≡ seat.old.cell) × WasAdded 0 seat.old.view result seat.new.view }
    {
        unsafe { raw::load::<Brand>(&raw const self.word, SeqCst) }
    }

    /// Returns the count at the moment.
    pub fn value(&self) -> u64 {
        let mut seat = self.enter();
        self.look(&mut seat)
    }

    /// Adds to the count once, modulo 2^64, and returns the seat that did. It has no bytes, and may be dropped.
    #[inline(always)]
    pub fn increment(&self, value: u64) -> Seat
        ensures { (found : ℕ) × WasAdded value first_view found result.view }
    {
        let mut seat = self.enter();
        self.add(&mut seat, value);
        seat
    }

    /// Raises the count to the value, if it is below that, and returns the seat that did. It has no bytes, and may be dropped.
    #[inline(always)]
    pub fn absolute(&self, value: u64) -> Seat
        ensures { (found : ℕ) × WasAdded (value - found) first_view found result.view }
    {
        let mut seat = self.enter();
        self.raise(&mut seat, value);
        seat
    }
}

impl<K> Drop for CountCell<K> {
    fn drop(self) {
        let Self { word: _, marker: _ } = self;
    }
}

unsafe impl<K> Send for CountCell<K> {}

unsafe impl<K> Sync for CountCell<K> {}
