//! A thread's own view of a counter.
ghost use Rattle.std.specs.Prelude.{◌≡◌, ◌-◌, ◌≤◌};
ghost use Rattle.metrics_counts.specs.Counting.{IsWordOf, WasAdded};

use crate::cell::CountCell;
use crate::seat::Seat;
use std::alloc::Global;
use std::marker::Model;
use std::sync::Arc;

/// A counter, what was seen of it, and what was added by this watch. Contracts see the `View`.
#[derive(Drop)]
pub struct Watch<K> {
    cell: Arc<CountCell<K>, Global>,
    seat: Seat,
}

impl<K> Model for Watch<K> {
    ghost use Rattle.std.specs.Prelude.{◌≡◌, ◌≤◌};
    ghost use Rattle.std.specs.Arc.{arc_value};
    ghost use Rattle.metrics_counts.specs.declared.view.View.{View as Known};

    ghost Value = { Known };

    ghost view = { λ w. w.seat.view };

    ghost invariant = { λ w. (w.seat.cell ≡ (arc_value w.cell).name) × (w.seat.view.added ≤ w.seat.view.seen) };
}

impl<K> Watch<K> {
    /// Begins to watch. It has added nothing.
    pub fn new(cell: Arc<CountCell<K>, Global>) -> Watch<K>
        ensures { result.added ≡ 0 }
    {
        let seat = cell.enter();
        Watch { cell, seat }
    }

    /// Returns the count. The total that is then seen is none below the one seen before, and has all that this watch added.
    pub fn read(&mut self) -> u64
        ensures rises { self.old.seen ≤ self.new.seen }
        ensures own { self.new.added ≤ self.new.seen }
        ensures count { IsWordOf self.new.seen result }
        ensures same { self.new.added ≡ self.old.added }
    {
        self.cell.look(&mut self.seat)
    }

    /// Adds to the total, once, and returns the count before.
    pub fn increment(&mut self, value: u64) -> u64
        ensures { WasAdded value self.old result self.new }
    {
        self.cell.add(&mut self.seat, value)
    }

    /// Adds to the total what the count lacks of the value, if it is below that, and returns the count before.
    pub fn absolute(&mut self, value: u64) -> u64
        ensures { WasAdded (value - result) self.old result self.new }
    {
        self.cell.raise(&mut self.seat, value)
    }
}
