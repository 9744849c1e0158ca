//! The bucket, and the calls that push.
ghost use Rattle.std.specs.Prelude.{◌≡◌, ℕ, ◌+◌, ◌*◌, ◌^◌, ◌<◌, ◌≤◌, ◌↔◌, ◌⊎◌, true};
ghost use Rattle.std.specs.Prelude.{false, IsTrue, IfOk, OnOk, IfErr, MatchResult, length, take, drop, map, [], ◌++◌};
ghost use Rattle.std.specs.Prelude.{◌-◌, ◌/◌, vec_capacity, MatchBool};
ghost use Rattle.metrics_bucket.specs.Account.{first_account, with_ticket, looked_at, IsLookedAnew, IsPushed};
ghost use Rattle.std.specs.Arc.{arc_value};
ghost use Rattle.metrics_bucket.specs.BucketState.{blocks_of, place_index, first_view, holding_at, having_seen, pushing};
ghost use Rattle.metrics_bucket.specs.Blocks.{Settled};
ghost use Rattle.metrics_bucket.specs.declared.view.Hold.TheVariants.{Nothing, Ticket, Settling};
ghost use Rattle.metrics_bucket.specs.Steps.{count_all, HasLooked, HasLookedAnew, HasPushed, IsControl, IsFullFor};
ghost use Rattle.metrics_bucket.specs.Steps.{values_known, ArePartsOf};

use crate::pen::{Pen, Words};
use crate::sample::Sample;
use crate::steps::{
    DrawTicket, FinishPush, LookAtControl, LookAtSettled, LookToSettle, WriteValue,
};
use crate::view::{Turn, View};
use atomic_table::{Seat, Table};
use metrics::Error;
use metrics_cells::Pause;
use std::alloc::Global;
use std::marker::{Model, PhantomData};
use std::sync::{Arc, Wait};

/// How many places a block has.
pub(crate) const BLOCK_SIZE: usize = 64;

/// Returns whether a bucket may have so many blocks on each side: 1 to 1,024.
pub fn is_block_count(blocks: usize) -> bool
    ensures { MatchBool result ((0 < blocks) × (blocks ≤ 1024)) ((blocks ≡ 0) ⊎ (1024 < blocks)) }
{
    0 < blocks && blocks <= 1024
}

/// A bucket of two sides, each with 64 places for each block. Any number of threads push into its live side, each with a `Pen` of
/// its own, while one at a time reads or clears it.
///
/// Contracts see it as its home: which table of words it is, and how many places a side has.
#[derive(Drop)]
pub struct RuledBucket<T: Sample> {
    pub(crate) table: Arc<Words, Global>,
    pub(crate) places: usize,
    of: PhantomData<T>,
}

impl<T: Sample> Model for RuledBucket<T> {
    ghost use Rattle.std.specs.Prelude.{◌≡◌, ◌+◌, ◌*◌, ◌^◌, ◌<◌};
    ghost use Rattle.std.specs.Arc.{arc_value};
    ghost use Rattle.metrics_bucket.specs.Account.{Home, home_code};
    ghost use Rattle.metrics_bucket.specs.BucketState.{blocks_of};

    ghost Value = { Home };

    ghost coded = { home_code };

    ghost view = { λ b. record { table = (arc_value b.table).shared.table_id; places = b.places } };

    ghost invariant = { λ b. ((arc_value b.table).shared.table_id.words ≡ 2 + 2 * b.places + 2 * blocks_of b.places)
        × ((arc_value b.table).shared.key.0 ≡ b.places) × (0 < b.places) × (b.places < 2 ^ 60) };
}

impl<T: Sample> RuledBucket<T> {
    /// Makes a bucket of 1 to 1,024 blocks on each side, and its whole pen.
    ///
    /// Fails with `BadBlocks` for another number of blocks, otherwise only when out of memory.
    pub fn new(alloc: Global, blocks: usize) -> Result<(RuledBucket<T>, Pen), Error>
        ensures ok { IfOk result (λ r. (r.0.places ≡ 64 * blocks) × (r.1 ≡ first_account r.0)) }
        ensures good { (0 < blocks) × (blocks ≤ 1024) → IfErr result (λ e. e ≡ Error.Memory) }
        ensures bad { (blocks ≡ 0) ⊎ (1024 < blocks) → result ≡ Err Error.BadBlocks }
    {
        if !is_block_count(blocks) {
            return Err(Error::BadBlocks);
        }
        Self::of_places(alloc, BLOCK_SIZE * blocks)
    }

    /// Makes a bucket of any number of places on each side, and its whole pen.
    ///
    /// Fails only when out of memory.
    pub fn of_places(alloc: Global, places: usize) -> Result<(RuledBucket<T>, Pen), Error>
        requires { (0 < places) × (places < 2 ^ 60) }
        ensures ok { IfOk result (λ r. (r.0.places ≡ places) × (r.1 ≡ first_account r.0)) }
        ensures err { IfErr result (λ e. e ≡ Error.Memory) }
    {
        let (bucket, table, seat) = Self::of_key(alloc, places, false)?;
        let pen = Pen {
            table,
            seat,
            weight: 1024,
            ticket: None,
        };
        Ok((bucket, pen))
    }

    // Makes a bucket, its table, and its first seat. Threads may enter an open one at any time.
    fn of_key(
        alloc: Global,
        places: usize,
        many: bool,
    ) -> Result<(RuledBucket<T>, Arc<Words, Global>, Seat<Turn, View>), Error>
        requires { (0 < places) × (places < 2 ^ 60) }
        ensures home { IfOk result (λ r. (r.0.places ≡ places) × (r.0.table ≡ (arc_value r.1).shared.table_id)) }
        ensures key { IfOk result (λ r. ((arc_value r.1).shared.key ≡ (places, many))
            × ((arc_value r.1).shared.table_id.words ≡ 2 + 2 * places + 2 * blocks_of places)) }
        ensures seat { IfOk result (λ r. (r.2.table_id ≡ (arc_value r.1).shared.table_id)
            × (r.2.me ≡ (first_view many places, []))) }
        ensures err { IfErr result (λ e. e ≡ Error.Memory) }
    {
        let blocks = (places + (BLOCK_SIZE - 1)) / BLOCK_SIZE;
        let Ok(words) = vec![in alloc; 0u64; 2 + 2 * places + 2 * blocks] else {
            return Err(Error::Memory);
        };
        let mut slots = Vec::new(alloc);
        if slots.push(Turn { walks: 0 }).is_err() {
            return Err(Error::Memory);
        }
        let Ok((table, seat)) = Table::new(alloc, words.as_slice(), slots, &(places, many)) else {
            return Err(Error::Memory);
        };
        let Ok(table) = Arc::new(alloc, table) else {
            return Err(Error::Memory);
        };
        let Ok(same) = Arc::try_clone(&table) else {
            return Err(Error::Memory);
        };
        let bucket = RuledBucket {
            table,
            places,
            of: PhantomData,
        };
        Ok((bucket, same, seat))
    }

    // Makes a bucket that threads may enter at any time, and its table.
    pub(crate) fn open_places(
        alloc: Global,
        places: usize,
    ) -> Result<(RuledBucket<T>, Arc<Words, Global>), Error>
        requires { (0 < places) × (places < 2 ^ 60) }
        ensures home { IfOk result (λ r. (r.0.places ≡ places) × (r.0.table ≡ (arc_value r.1).shared.table_id)) }
        ensures key { IfOk result (λ r. ((arc_value r.1).shared.key ≡ (places, true))
            × ((arc_value r.1).shared.table_id.words ≡ 2 + 2 * places + 2 * blocks_of places)) }
        ensures err { IfErr result (λ e. e ≡ Error.Memory) }
    {
        let (bucket, table, _) = Self::of_key(alloc, places, true)?;
        Ok((bucket, table))
    }

    /// Returns the same bucket, for values of another type.
    ///
    /// A value that was pushed as another type comes out as the value of its word.
    /// Fails only when out of memory.
    pub fn try_clone_as<U: Sample>(&self) -> Result<RuledBucket<U>, Error>
        ensures ok { IfOk result (λ b. b ≡ self.now) }
        ensures err { IfErr result (λ e. e ≡ Error.Memory) }
    {
        let Ok(table) = Arc::try_clone(&self.table) else {
            return Err(Error::Memory);
        };
        Ok(RuledBucket {
            table,
            places: self.places,
            of: PhantomData,
        })
    }

    // Returns the index of a side's place among the values.
    pub(crate) fn place_index(&self, side: usize, at: usize) -> usize
        requires { (side < 2) × (at < self.now.places) }
        ensures { (result ≡ place_index self.now.places side at) × (result < self.now.places + self.now.places) }
    {
        if side == 0 { at } else { self.places + at }
    }

    // Returns the word with the marks of a side's block, one bit for each place.
    pub(crate) fn marks_word(&self, side: usize, block: usize) -> usize
        requires { (side < 2) × (64 * block < self.now.places) }
        ensures { (result ≡ 2 + (self.now.places + self.now.places) + place_index (blocks_of self.now.places) side block)
            × (result < self.now.table.words) }
    {
        let blocks = (self.places + (BLOCK_SIZE - 1)) / BLOCK_SIZE;
        let first = 2 + 2 * self.places;
        if side == 0 {
            first + block
        } else {
            first + blocks + block
        }
    }

    // Reads the control word without a pen.
    pub(crate) fn control(&self) -> u64 {
        self.table.shared.peek(0)
    }

    /// Returns whether no ticket of the live side was drawn, by the control word that it sees.
    ///
    /// A push that is under way counts, and a value that a clear is about to take does not.
    pub fn is_empty_as(&self, pen: &mut Pen) -> bool
        requires own { pen.old.home ≡ self.now }
        requires free { pen.old.ticket ≡ false }
        ensures looked { IsLookedAnew pen.old pen.new }
        ensures seen { IsTrue result ↔ (pen.new.seen / 2 ≡ 0) }
        ensures whole { pen.old.weight ≡ 1024 → (IsTrue result ↔ (length pen.old.pushed ≡ count_all pen.old.taken)) }
    {
        self.table.shared.load::<LookAtControl>(&mut pen.seat, 0) < 2
    }

    /// Draws a ticket, which `finish_as` uses up.
    ///
    /// A walk that reaches its place waits until then, so a pen that never finishes leaves walks waiting.
    /// `Full`: by the word that it saw, the live side has no place left.
    /// `Raced`: a place was left, but another thread changed the word in between; another try may succeed.
    pub fn begin_as(&self, pen: &mut Pen) -> Result<(), Error>
        requires own { pen.old.home ≡ self.now }
        requires free { pen.old.ticket ≡ false }
        ensures ok { OnOk result ((pen.new ≡ with_ticket (looked_at pen.old pen.new.seen pen.new.looks) true)
            × (pen.new.seen / 2 < self.now.places)) }
        ensures err { IfErr result (λ e. IsLookedAnew pen.old pen.new
            × (((e ≡ Error.Full) × (self.now.places ≤ pen.new.seen / 2))
            ⊎ ((e ≡ Error.Raced) × (pen.new.seen / 2 < self.now.places)))) }
        ensures whole { pen.old.weight ≡ 1024
            → MatchResult result (λ _. length pen.old.pushed < count_all pen.old.taken + self.now.places)
            (λ e. (e ≡ Error.Full) × IsFullFor self.now.places pen.old.pushed pen.old.taken) }
    {
        pen.ticket = Some(self.draw(&mut pen.seat)?);
        Ok(())
    }

    // Draws a ticket: its side and its place. The errors are those of `begin_as`.
    fn draw(&self, seat: &mut Seat<Turn, View>) -> Result<(usize, usize), Error>
        requires home { (seat.old.table_id ≡ self.now.table) × (seat.old.me.0.places ≡ self.now.places)
            × (0 < seat.old.me.0.weight) }
        requires hold { seat.old.me.0.hold ≡ Nothing }
        ensures table { seat.new.table_id ≡ seat.old.table_id }
        ensures ok { IfOk result (λ t. (e : ℕ) × (t.0 < 2) × (t.1 < self.now.places)
            × (seat.new.me ≡ (
              holding_at (having_seen seat.old.me.0 seat.new.me.0.seen seat.new.me.0.looks) e
                  (Ticket t.0 t.1),
              seat.old.me.1,
            )) × (seat.new.me.0.seen / 2 < self.now.places)) }
        ensures err { IfErr result (λ e. HasLookedAnew seat.old.me seat.new.me
            × (((e ≡ Error.Full) × (self.now.places ≤ seat.new.me.0.seen / 2))
            ⊎ ((e ≡ Error.Raced) × (seat.new.me.0.seen / 2 < self.now.places)))) }
        ensures whole { seat.old.me.0.weight ≡ 1024
            → MatchResult result (λ _. length seat.old.me.0.pushed < count_all seat.old.me.0.taken + self.now.places)
            (λ e. (e ≡ Error.Full) × IsFullFor self.now.places seat.old.me.0.pushed seat.old.me.0.taken) }
    {
        let found = self.table.shared.load::<LookAtControl>(seat, 0);
        self.draw_at(seat, found)
    }

    // Draws the next ticket by the control word that the seat saw last.
    fn draw_at(&self, seat: &mut Seat<Turn, View>, found: u64) -> Result<(usize, usize), Error>
        requires home { (seat.old.table_id ≡ self.now.table) × (seat.old.me.0.places ≡ self.now.places)
            × (0 < seat.old.me.0.weight) }
        requires hold { seat.old.me.0.hold ≡ Nothing }
        requires looked { (found / 2 ≤ self.now.places) × IsControl seat.old.me.0 found }
        ensures table { seat.new.table_id ≡ seat.old.table_id }
        ensures ok { IfOk result (λ t. (e : ℕ) × (t.0 < 2) × (t.1 < self.now.places)
            × (seat.new.me ≡ (holding_at seat.old.me.0 e (Ticket t.0 t.1), seat.old.me.1)) × (found / 2 < self.now.places)) }
        ensures err { IfErr result (λ e. (seat.new.me ≡ seat.old.me)
            × (((e ≡ Error.Full) × (self.now.places ≤ found / 2)) ⊎ ((e ≡ Error.Raced) × (found / 2 < self.now.places)))) }
        ensures whole { seat.old.me.0.weight ≡ 1024
            → MatchResult result (λ _. length seat.old.me.0.pushed < count_all seat.old.me.0.taken + self.now.places)
            (λ e. (e ≡ Error.Full) × IsFullFor self.now.places seat.old.me.0.pushed seat.old.me.0.taken) }
    {
        let given = (found / 2) as usize;
        if given >= self.places {
            return Err(Error::Full);
        }
        let shared = &self.table.shared;
        if shared.compare_exchange::<DrawTicket>(seat, 0, found, found + 2) != found {
            return Err(Error::Raced);
        }
        Ok(((found % 2) as usize, given))
    }

    // Stores the value at a ticket's place, and marks the place.
    fn fill(&self, seat: &mut Seat<Turn, View>, side: usize, at: usize, value: T)
        requires home { (seat.old.table_id ≡ self.now.table) × (seat.old.me.0.places ≡ self.now.places)
            × (0 < seat.old.me.0.weight) }
        requires ticket { (side < 2) × (at < self.now.places) × (seat.old.me.0.hold ≡ Ticket side at) }
        ensures table { seat.new.table_id ≡ seat.old.table_id }
        ensures pushed { seat.new.me ≡ (pushing seat.old.me.0 at (T.word value), seat.old.me.1) }
    {
        let place_index = self.place_index(side, at);
        self.table
            .shared
            .store::<WriteValue>(seat, 2 + place_index, value.to_word());
        let marks = self.marks_word(side, at / BLOCK_SIZE);
        let mark = 1u64 << (at % BLOCK_SIZE);
        self.table.shared.fetch_add::<FinishPush>(seat, marks, mark);
    }

    /// Stores the value at the ticket's place.
    pub fn finish_as(&self, pen: &mut Pen, value: T)
        requires own { pen.old.home ≡ self.now }
        requires ticket { pen.old.ticket ≡ true }
        ensures pushed { IsPushed pen.old (T.word value) pen.new }
        ensures seen { pen.new.seen ≡ pen.old.seen }
    {
        let Some((side, at)) = pen.ticket else {
            unreachable!()
        };
        self.fill(&mut pen.seat, side, at, value);
        pen.ticket = None;
    }

    /// Pushes a value in at most four steps on the words, or returns it, with an error of `begin_as`.
    pub fn try_push_as(&self, pen: &mut Pen, value: T) -> Result<(), (Error, T)>
        requires own { pen.old.home ≡ self.now }
        requires free { pen.old.ticket ≡ false }
        ensures ok { OnOk result (IsPushed pen.old (T.word value) pen.new × (pen.new.seen / 2 < self.now.places)) }
        ensures err { IfErr result (λ e. IsLookedAnew pen.old pen.new
            × (((e.0 ≡ Error.Full) × (self.now.places ≤ pen.new.seen / 2))
            ⊎ ((e.0 ≡ Error.Raced) × (pen.new.seen / 2 < self.now.places))) × (e.1 ≡ value)) }
        ensures whole { pen.old.weight ≡ 1024
            → MatchResult result (λ _. length pen.old.pushed < count_all pen.old.taken + self.now.places)
            (λ e. (e.0 ≡ Error.Full) × IsFullFor self.now.places pen.old.pushed pen.old.taken) }
    {
        match self.begin_as(pen) {
            Ok(()) => {
                self.finish_as(pen, value);
                Ok(())
            }
            Err(e) => Err((e, value)),
        }
    }

    /// Pushes a value, and tries again after a lost race.
    ///
    /// `Full` returns the value: by the word that it saw last, the live side has no place left.
    pub fn push_as<R: Wait>(&self, rt: &R, pen: &mut Pen, value: T) -> Result<(), (Error, T)>
        requires own { pen.old.home ≡ self.now }
        requires free { pen.old.ticket ≡ false }
        ensures ok { OnOk result (IsPushed pen.old (T.word value) pen.new × (pen.new.seen / 2 < self.now.places)) }
        ensures err { IfErr result (λ e. IsLookedAnew pen.old pen.new
            × (self.now.places ≤ pen.new.seen / 2) × (e.0 ≡ Error.Full)
            × (e.1 ≡ value)) }
        ensures whole { pen.old.weight ≡ 1024
            → MatchResult result (λ _. length pen.old.pushed < count_all pen.old.taken + self.now.places)
            (λ e. (e.0 ≡ Error.Full) × IsFullFor self.now.places pen.old.pushed pen.old.taken) }
    {
        self.push_by(rt, &mut pen.seat, value)
    }

    // Pushes a value by a seat that holds nothing, and tries again after a lost race.
    pub(crate) fn push_by<R: Wait>(
        &self,
        rt: &R,
        seat: &mut Seat<Turn, View>,
        value: T,
    ) -> Result<(), (Error, T)>
        requires home { (seat.old.table_id ≡ self.now.table) × (seat.old.me.0.places ≡ self.now.places)
            × (0 < seat.old.me.0.weight) }
        requires hold { seat.old.me.0.hold ≡ Nothing }
        ensures table { seat.new.table_id ≡ seat.old.table_id }
        ensures ok { OnOk result (HasPushed seat.old.me (T.word value) seat.new.me
            × (seat.new.me.0.seen / 2 < self.now.places)) }
        ensures err { IfErr result (λ e. HasLookedAnew seat.old.me seat.new.me × (self.now.places ≤ seat.new.me.0.seen / 2)
            × (e.0 ≡ Error.Full) × (e.1 ≡ value)) }
        ensures whole { seat.old.me.0.weight ≡ 1024
            → MatchResult result (λ _. length seat.old.me.0.pushed < count_all seat.old.me.0.taken + self.now.places)
            (λ e. (e.0 ≡ Error.Full) × IsFullFor self.now.places seat.old.me.0.pushed seat.old.me.0.taken) }
    {
        let pause = Pause::new();
        for _ in rt.forever() {
            match self.draw(seat) {
                Ok((side, at)) => {
                    self.fill(seat, side, at, value);
                    return Ok(());
                }
                Err(Error::Full) => return Err((Error::Full, value)),
                Err(_) => pause.after_lost_race(),
            }
        }
        unreachable!()
    }

    // Pushes a value by a seat that holds nothing and has just looked, and tries again after a lost race.
    pub(crate) fn push_after<R: Wait>(
        &self,
        rt: &R,
        seat: &mut Seat<Turn, View>,
        found: u64,
        value: T,
    ) -> Result<(), (Error, T)>
        requires home { (seat.old.table_id ≡ self.now.table) × (seat.old.me.0.places ≡ self.now.places)
            × (0 < seat.old.me.0.weight) }
        requires hold { seat.old.me.0.hold ≡ Nothing }
        requires looked { (seat.old.me.0.seen ≡ found) × (found / 2 ≤ self.now.places) × IsControl seat.old.me.0 found }
        ensures table { seat.new.table_id ≡ seat.old.table_id }
        ensures ok { OnOk result (HasPushed seat.old.me (T.word value) seat.new.me
            × (seat.new.me.0.seen / 2 < self.now.places)) }
        ensures err { IfErr result (λ e. HasLooked seat.old.me seat.new.me × (self.now.places ≤ seat.new.me.0.seen / 2)
            × (e.0 ≡ Error.Full) × (e.1 ≡ value)) }
    {
        match self.draw_at(seat, found) {
            Ok((side, at)) => {
                self.fill(seat, side, at, value);
                Ok(())
            }
            Err(Error::Full) => Err((Error::Full, value)),
            Err(_) => {
                Pause::new().after_lost_race();
                self.push_by(rt, seat, value)
            }
        }
    }

    // Appends these values of the live side to the others.
    fn settled_chunk(
        &self,
        seat: &mut Seat<Turn, View>,
        side: usize,
        start: usize,
        end: usize,
        values: &mut Vec<T>,
    )
        requires home { (seat.old.table_id ≡ self.now.table) × (seat.old.me.0.places ≡ self.now.places) }
        requires knows { (0 < seat.old.me.0.weight) × (side < 2)
            × (seat.old.me.0.hold ≡ Settling side (values_known seat.old.me.0.hold)) }
        requires part { (start ≤ end) × (end ≤ length (values_known seat.old.me.0.hold)) × (end ≤ self.now.places) }
        requires room { length values.old.items + (end - start) ≤ vec_capacity values.old }
        ensures seat { (seat.new.table_id ≡ seat.old.table_id) × (seat.new.me ≡ seat.old.me) }
        ensures values { values.new.items ≡ values.old.items
            ++ map T.value (take (end - start) (drop start (values_known seat.old.me.0.hold))) }
        ensures room { vec_capacity values.new ≡ vec_capacity values.old }
    {
        for at in start..end {
            let word = 2 + self.place_index(side, at);
            let bits = self.table.shared.load::<LookAtSettled>(seat, word);
            values.push_reserved(T::of_word(bits));
        }
    }

    // Collects the live side's values, in the bucket's order.
    fn settled_values(&self, seat: &mut Seat<Turn, View>, values: &mut Vec<T>)
        requires home { (seat.old.table_id ≡ self.now.table) × (seat.old.me.0.places ≡ self.now.places) }
        requires whole { (seat.old.me.0.weight ≡ 1024) × (seat.old.me.0.hold ≡ Nothing) × (seat.old.me.1 ≡ []) }
        requires room { (values.old.items ≡ []) × (self.now.places ≤ vec_capacity values.old) }
        ensures { Settled T.value seat.old.me.0.pushed seat.old.me.0.taken values.new.items
            × ArePartsOf seat.old.me.0.read seat.old.me.0.pushed }
    {
        let control = self.table.shared.load::<LookToSettle>(seat, 0);
        let side = (control % 2) as usize;
        let given = (control / 2) as usize;
        let mut chunks = (given + (BLOCK_SIZE - 1)) / BLOCK_SIZE;
        while chunks > 0 {
            chunks -= 1;
            let start = BLOCK_SIZE * chunks;
            let end = given.min(start + BLOCK_SIZE);
            self.settled_chunk(seat, side, start, end, values);
        }
    }

    /// Ends the bucket, and returns the values that were pushed and not taken.
    ///
    /// They are in ticket order in blocks of 64, the newest block first. If there is no memory for all places of a side, it
    /// returns bucket and pen.
    pub fn settle(self, alloc: Global, pen: Pen) -> Result<Vec<T>, (RuledBucket<T>, Pen)>
        requires own { pen.home ≡ self }
        requires whole { pen.weight ≡ 1024 }
        requires free { pen.ticket ≡ false }
        ensures ok { IfOk result (λ v. Settled T.value pen.pushed pen.taken v.items × ArePartsOf pen.read pen.pushed) }
        ensures err { IfErr result (λ e. (e.0 ≡ self) × (e.1 ≡ pen)) }
    {
        let Ok(mut values) = Vec::with_capacity(alloc, self.places) else {
            return Err((self, pen));
        };
        let Pen {
            table: _,
            mut seat,
            weight: _,
            ticket: _,
        } = pen;
        self.settled_values(&mut seat, &mut values);
        Ok(values)
    }
}
