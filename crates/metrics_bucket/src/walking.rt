//! The walk over the places of a side, which clears and readings share.
ghost use Rattle.std.specs.Prelude.{◌≡◌, ℕ, ◌+◌, ◌-◌, ◌*◌, ◌^◌, ◌<◌, ◌≤◌, length, take, drop};
ghost use Rattle.std.specs.Prelude.{map, min, replicate, [], ◌∷◌, IsTrue, false};
ghost use Rattle.std.specs.List.{FoldsTo};
ghost use Rattle.metrics_bucket.specs.Blocks.{valued, newest_first};
ghost use Rattle.metrics_bucket.specs.BucketState.{holding, put_visit, side_of, visits_of, values_in};
ghost use Rattle.metrics_bucket.specs.Places.{Reaches};
ghost use Rattle.metrics_bucket.specs.WalkSteps.{IsValueOf};
ghost use Rattle.metrics_bucket.specs.declared.view.Walk.{Walk};
ghost use Rattle.metrics_bucket.specs.History.{HasVisit, CanLeave, turn_at};
ghost use Rattle.metrics_bucket.specs.WalkedPlaces.{AreMarked, AreUnseen, Goes, IsBlock, IsWalked, Walks, walking, walk_of};
ghost use Rattle.metrics_bucket.specs.declared.view.Visit.TheVariants.{Unseen, Marked, Read};

use crate::bucket::{BLOCK_SIZE, RuledBucket};
use crate::pen::SharedWords;
use crate::sample::Sample;
use crate::steps::{LeaveTurn, LookAtMarks, ReadValue};
use crate::view::{Turn, View};
use crate::visitor::Visitor;
use crate::walker::Walker;
use atomic_table::Seat;
use crossbeam_utils::Backoff;
use std::sync::Wait;

impl<T: Sample> RuledBucket<T> {
    // Looks at the marks of a block, at this word, and returns whether those of the walk's places are all set.
    #[inline(always)]
    fn are_set<W: Walker>(
        shared: &SharedWords,
        seat: &mut Seat<Turn, View>,
        marks: usize,
        side: usize,
        block: usize,
        end: usize,
    ) -> bool
        requires home { (seat.old.table_id ≡ shared.now.table_id) × (0 < seat.old.me.0.weight) }
        requires word { marks < shared.now.table_id.words }
        requires block { IsBlock W.kind seat.old.me marks side block end }
        requires visits { AreUnseen (64 * block) end (visits_of seat.old.me.0.hold) }
        ensures table { seat.new.table_id ≡ seat.old.table_id }
        ensures marked { IsTrue result → Goes (λ _. Marked) W.kind seat.old.me seat.new.me side (64 * block) end }
        ensures other { result ≡ false → seat.new.me ≡ seat.old.me }
    {
        let mask = u64::MAX >> (BLOCK_SIZE - (end - BLOCK_SIZE * block));
        shared.load::<LookAtMarks>(seat, marks) & mask == mask
    }

    // Waits until the marks of a block, at this word, are set.
    #[inline(never)]
    fn wait_for<R: Wait, W: Walker>(
        rt: &R,
        shared: &SharedWords,
        seat: &mut Seat<Turn, View>,
        marks: usize,
        side: usize,
        block: usize,
        end: usize,
    )
        requires home { (seat.old.table_id ≡ shared.now.table_id) × (0 < seat.old.me.0.weight) }
        requires word { marks < shared.now.table_id.words }
        requires block { IsBlock W.kind seat.old.me marks side block end }
        requires visits { AreUnseen (64 * block) end (visits_of seat.old.me.0.hold) }
        ensures table { seat.new.table_id ≡ seat.old.table_id }
        ensures marked { Goes (λ _. Marked) W.kind seat.old.me seat.new.me side (64 * block) end }
    {
        let pause = Backoff::new();
        for _ in rt.forever() {
            pause.snooze();
            if Self::are_set::<W>(shared, seat, marks, side, block, end) {
                return;
            }
        }
        unreachable!()
    }

    // Counts one more finished walk, for the next holder of the turn.
    fn count_walk(&self, seat: &mut Seat<Turn, View>)
        requires home { seat.old.table_id ≡ self.now.table }
        requires turn { seat.old.me.1 ≡ (0, turn_at seat.old.me.0.turn) ∷ [] }
        ensures { (seat.new.table_id ≡ seat.old.table_id)
            × (seat.new.me ≡ (seat.old.me.0, (0, turn_at (seat.old.me.0.turn + 1)) ∷ [])) }
    {
        let turn = seat.slot_mut(&self.table.shared, 0);
        turn.walks = turn.walks.wrapping_add(1);
    }

    // Ends a walk that is done with all its places, and returns the turn.
    fn leave<W: Walker>(&self, seat: &mut Seat<Turn, View>)
        requires home { (seat.old.table_id ≡ self.now.table) × (0 < seat.old.me.0.weight) }
        requires hold { (seat.old.me.0.hold ≡ walking W.kind (side_of seat.old.me.0.hold) (visits_of seat.old.me.0.hold))
            × CanLeave seat.old.me.0.hold }
        requires turn { seat.old.me.1 ≡ (0, turn_at seat.old.me.0.turn) ∷ [] }
        requires reach { Reaches seat.old.me.0.pushed seat.old.me.0.epoch (length (visits_of seat.old.me.0.hold)) }
        ensures table { seat.new.table_id ≡ seat.old.table_id }
        ensures walked { IsWalked W.kind seat.old.me (length (visits_of seat.old.me.0.hold)) (walk_of seat.old.me.0) seat.new.me }
    {
        self.count_walk(seat);
        self.table.shared.store::<LeaveTurn>(seat, 1, 0);
    }

    // Reads the value of a place whose mark was seen, at this word.
    #[inline(always)]
    fn read_place(shared: &SharedWords, seat: &mut Seat<Turn, View>, value: usize, at: usize) -> T
        requires home { (seat.old.table_id ≡ shared.now.table_id) × (0 < seat.old.me.0.weight) }
        requires word { (value < shared.now.table_id.words) × IsValueOf seat.old.me.0 value at }
        requires visit { HasVisit seat.old.me.0.hold at Marked }
        ensures { (x : ℕ) × (result ≡ T.value x) × (seat.new.table_id ≡ seat.old.table_id)
            × (seat.new.me ≡ (holding seat.old.me.0 (put_visit seat.old.me.0.hold at (Read x)), seat.old.me.1)) }
    {
        let bits = shared.load::<ReadValue>(seat, value);
        T::of_word(bits)
    }

    // Reads the values of these places, whose marks were seen, and stores them at the start of the room.
    fn read_block<W: Walker>(
        &self,
        seat: &mut Seat<Turn, View>,
        side: usize,
        start: usize,
        end: usize,
        room: &mut [T],
    )
        requires home { (seat.old.table_id ≡ self.now.table) × (seat.old.me.0.places ≡ self.now.places)
            × (0 < seat.old.me.0.weight) }
        requires hold { (side < 2) × (end ≤ self.now.places)
            × (seat.old.me.0.hold ≡ walking W.kind side (visits_of seat.old.me.0.hold)) }
        requires part { (start ≤ end) × (end - start ≤ length room.old) }
        requires visits { AreMarked start end (visits_of seat.old.me.0.hold) }
        ensures seat { (seat.new.table_id ≡ seat.old.table_id) × Goes Read W.kind seat.old.me seat.new.me side start end }
        ensures room { take (end - start) room.new
            ≡ map T.value (take (end - start) (drop start (values_in (visits_of seat.new.me.0.hold)))) }
    {
        let shared = &self.table.shared;
        let value = 2 + self.place_index(side, 0);
        for at in start..end {
            let found = Self::read_place(shared, seat, value + at, at);
            room[at - start] = found;
        }
    }

    // Waits for the marks of a block, walks over its places, and stores their values at the start of the room.
    fn walk_block<R: Wait, W: Walker>(
        &self,
        rt: &R,
        seat: &mut Seat<Turn, View>,
        side: usize,
        block: usize,
        end: usize,
        room: &mut [T],
    )
        requires home { (seat.old.table_id ≡ self.now.table) × (seat.old.me.0.places ≡ self.now.places)
            × (0 < seat.old.me.0.weight) }
        requires hold { (side < 2) × (end ≤ self.now.places)
            × (seat.old.me.0.hold ≡ walking W.kind side (visits_of seat.old.me.0.hold)) }
        requires part { (64 * block < end) × (end ≡ min (length (visits_of seat.old.me.0.hold)) (64 * block + 64))
            × (end - 64 * block ≤ length room.old) }
        requires visits { AreUnseen (64 * block) end (visits_of seat.old.me.0.hold) }
        ensures seat { (seat.new.table_id ≡ seat.old.table_id)
            × Walks W.kind seat.old.me seat.new.me side (64 * block) end }
        ensures room { take (end - 64 * block) room.new
            ≡ map T.value (take (end - 64 * block) (drop (64 * block) (values_in (visits_of seat.new.me.0.hold)))) }
    {
        let shared = &self.table.shared;
        let marks = self.marks_word(side, block);
        if !Self::are_set::<W>(shared, seat, marks, side, block, end) {
            Self::wait_for::<R, W>(rt, shared, seat, marks, side, block, end);
        }
        self.read_block::<W>(seat, side, BLOCK_SIZE * block, end, room);
        W::leave_block(shared, seat, marks, side, block, end);
    }

    // Walks over all places that were given, and shows each chunk to the visitor.
    fn walk_side<R: Wait, W: Walker, V: Visitor<T>>(
        &self,
        rt: &R,
        seat: &mut Seat<Turn, View>,
        side: usize,
        given: usize,
        visitor: &mut V,
    )
        requires home { (seat.old.table_id ≡ self.now.table) × (seat.old.me.0.places ≡ self.now.places)
            × (0 < seat.old.me.0.weight) }
        requires hold { (side < 2) × (given ≤ self.now.places)
            × (seat.old.me.0.hold ≡ walking W.kind side (replicate given Unseen)) }
        requires size { given < 2 ^ 60 }
        requires call { V.ready visitor.old }
        ensures seat { (seat.new.table_id ≡ seat.old.table_id) × Walks W.kind seat.old.me seat.new.me side 0 given }
        ensures calls { FoldsTo V.saw visitor.old
            (valued T.value (newest_first (values_in (visits_of seat.new.me.0.hold)))) visitor.new }
        ensures ready { V.ready visitor.new }
    {
        let mut room = [T::of_word(0); BLOCK_SIZE];
        let mut chunks = (given + (BLOCK_SIZE - 1)) / BLOCK_SIZE;
        while chunks > 0 {
            chunks -= 1;
            let start = BLOCK_SIZE * chunks;
            let end = given.min(start + BLOCK_SIZE);
            self.walk_block::<R, W>(rt, seat, side, chunks, end, &mut room);
            visitor.see(&room[..end - start]);
        }
    }

    // Walks over all places that were given, and returns the turn.
    pub(crate) fn walk_and_leave<R: Wait, W: Walker, V: Visitor<T>>(
        &self,
        rt: &R,
        seat: &mut Seat<Turn, View>,
        side: usize,
        given: usize,
        visitor: &mut V,
    )
        requires home { (seat.old.table_id ≡ self.now.table) × (seat.old.me.0.places ≡ self.now.places)
            × (0 < seat.old.me.0.weight) }
        requires hold { (side < 2) × (given ≤ self.now.places)
            × (seat.old.me.0.hold ≡ walking W.kind side (replicate given Unseen)) }
        requires turn { seat.old.me.1 ≡ (0, turn_at seat.old.me.0.turn) ∷ [] }
        requires reach { Reaches seat.old.me.0.pushed seat.old.me.0.epoch given }
        requires call { V.ready visitor.old }
        ensures table { seat.new.table_id ≡ seat.old.table_id }
        ensures walked { (w : Walk) × IsWalked W.kind seat.old.me given w seat.new.me
            × FoldsTo V.saw visitor.old (valued T.value (newest_first w.values)) visitor.new }
        ensures ready { V.ready visitor.new }
    {
        let _places = self.places;
        self.walk_side::<R, W, V>(rt, seat, side, given, visitor);
        self.leave::<W>(seat);
    }
}
