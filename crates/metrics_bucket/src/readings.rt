//! The calls that read all values.
ghost use Rattle.std.specs.Prelude.{◌≡◌, ℕ, ◌+◌, ◌-◌, ◌/◌, ◌%◌, ◌<◌, ◌≤◌, ◌⊎◌, length};
ghost use Rattle.std.specs.Prelude.{map, vec_len, ◌≢◌, [], ◌∷◌, false, IfOk, IfErr};
ghost use Rattle.metrics_bucket.specs.Facts.{weigh, weigh_pushes, weigh_walks};
ghost use Rattle.metrics_bucket.specs.declared.view.Walk.{Walk};
ghost use Rattle.metrics_bucket.specs.Places.{Reaches, Covers};
ghost use Rattle.std.specs.List.{FoldsTo};
ghost use Rattle.std.specs.Fn.{CalledAt};
ghost use Rattle.metrics_bucket.specs.Blocks.{valued, newest_first};
ghost use Rattle.metrics.specs.Book.{blocks};
ghost use Rattle.metrics_bucket.specs.BucketState.{holding};
ghost use Rattle.metrics_bucket.specs.History.{CanQuit, turn_at};
ghost use Rattle.metrics_bucket.specs.Account.{IsRead, IsBusy};
ghost use Rattle.metrics_bucket.specs.Steps.{WasBusy};
ghost use Rattle.metrics_bucket.specs.ReadPlaces.{has_read, looked_to_read, IsFree};
ghost use Rattle.metrics_bucket.specs.declared.view.Hold.TheVariants.{Nothing};

use crate::bucket::RuledBucket;
use crate::gathered::Gathered;
use crate::pen::Pen;
use crate::sample::Sample;
use crate::steps::{ClaimTurn, GiveTurnBack, LookToRead};
use crate::view::{Turn, View};
use crate::visitor::{Shown, Visitor};
use crate::walker::Reader;
use atomic_table::Seat;
use metrics::Error;
use std::alloc::Global;
use std::sync::Wait;

impl<T: Sample> RuledBucket<T> {
    // Claims the turn, and returns the control word, which says how many places were given.
    fn claim_and_look(&self, seat: &mut Seat<Turn, View>) -> Result<u64, Error>
        requires home { (seat.old.table_id ≡ self.now.table) × (seat.old.me.0.places ≡ self.now.places)
            × (0 < seat.old.me.0.weight) }
        requires hold { (seat.old.me.0.hold ≡ Nothing) × (seat.old.me.1 ≡ []) }
        ensures table { seat.new.table_id ≡ seat.old.table_id }
        ensures ok { IfOk result (λ r. (e : ℕ) × (n : ℕ)
            × (seat.new.me ≡ (looked_to_read seat.old.me.0 e n r, (0, turn_at n) ∷ [])) × (r / 2 ≤ self.now.places)
            × Reaches seat.old.me.0.pushed e (r / 2) × (seat.old.me.0.weight ≡ 1024 → e ≡ length seat.old.me.0.taken)) }
        ensures err { IfErr result (λ e. WasBusy seat.old.me seat.new.me × (e ≡ Error.Busy)
            × (seat.old.me.0.weight ≢ 1024)) }
    {
        let shared = &self.table.shared;
        if shared.compare_exchange::<ClaimTurn>(seat, 1, 0, 1) != 0 {
            return Err(Error::Busy);
        }
        Ok(shared.load::<LookToRead>(seat, 0))
    }

    // Gives the turn back after reading nothing.
    fn give_turn_back(&self, seat: &mut Seat<Turn, View>)
        requires home { (seat.old.table_id ≡ self.now.table) × (0 < seat.old.me.0.weight) }
        requires hold { CanQuit seat.old.me.0.hold × (seat.old.me.1 ≡ (0, turn_at seat.old.me.0.turn) ∷ []) }
        ensures { (seat.new.table_id ≡ seat.old.table_id) × (seat.new.me ≡ (holding seat.old.me.0 Nothing, [])) }
    {
        self.table.shared.store::<GiveTurnBack>(seat, 1, 0);
    }

    // Reads all places that were given, and shows the values to the visitor.
    pub(crate) fn show_to<R: Wait, V: Visitor<T>>(
        &self,
        rt: &R,
        seat: &mut Seat<Turn, View>,
        visitor: &mut V,
    ) -> Result<usize, Error>
        requires home { (seat.old.table_id ≡ self.now.table) × (seat.old.me.0.places ≡ self.now.places)
            × (0 < seat.old.me.0.weight) }
        requires hold { (seat.old.me.0.hold ≡ Nothing) × (seat.old.me.1 ≡ []) }
        requires call { V.ready visitor.old }
        ensures table { seat.new.table_id ≡ seat.old.table_id }
        ensures ok { IfOk result (λ n. (w : Walk) × (k : ℕ) × (length w.values ≡ n)
            × (seat.new.me ≡ (has_read seat.old.me.0 k w, [])) × Covers seat.old.me.0.pushed w
            × (seat.old.me.0.weight ≡ 1024 → w.epoch ≡ length seat.old.me.0.taken)
            × (seat.old.me.0.weight ≡ 1024 → (h : ℕ → ℕ)
            → weigh_pushes h seat.old.me.0.pushed ≡ weigh h w.values + weigh_walks h seat.old.me.0.taken)
            × FoldsTo V.saw visitor.old (valued T.value (newest_first w.values)) visitor.new) }
        ensures count { IfOk result (λ n. n ≤ self.now.places) }
        ensures ready { V.ready visitor.new }
        ensures err { IfErr result (λ e. WasBusy seat.old.me seat.new.me × (visitor.new ≡ visitor.old) × (e ≡ Error.Busy)
            × (seat.old.me.0.weight ≢ 1024)) }
    {
        let control = self.claim_and_look(seat)?;
        let given = (control / 2) as usize;
        self.walk_and_leave::<R, Reader, V>(rt, seat, (control % 2) as usize, given, visitor);
        Ok(given)
    }

    // Reads all places that were given into one vector.
    pub(crate) fn gather_values<R: Wait>(
        &self,
        rt: &R,
        alloc: Global,
        seat: &mut Seat<Turn, View>,
    ) -> Result<Vec<T>, Error>
        requires home { (seat.old.table_id ≡ self.now.table) × (seat.old.me.0.places ≡ self.now.places)
            × (0 < seat.old.me.0.weight) }
        requires hold { (seat.old.me.0.hold ≡ Nothing) × (seat.old.me.1 ≡ []) }
        ensures table { seat.new.table_id ≡ seat.old.table_id }
        ensures ok { IfOk result (λ v. (w : Walk) × (k : ℕ) × (v.items ≡ map T.value (blocks w.values))
            × (seat.new.me ≡ (has_read seat.old.me.0 k w, [])) × Covers seat.old.me.0.pushed w
            × (seat.old.me.0.weight ≡ 1024 → w.epoch ≡ length seat.old.me.0.taken)
            × (seat.old.me.0.weight ≡ 1024 → (h : ℕ → ℕ)
            → weigh_pushes h seat.old.me.0.pushed ≡ weigh h w.values + weigh_walks h seat.old.me.0.taken)) }
        ensures count { IfOk result (λ v. vec_len v ≤ self.now.places) }
        ensures err { IfErr result (λ e. ((e ≡ Error.Memory) × IsFree seat.old.me seat.new.me)
            ⊎ ((e ≡ Error.Busy) × WasBusy seat.old.me seat.new.me × (seat.old.me.0.weight ≢ 1024))) }
    {
        let control = self.claim_and_look(seat)?;
        let given = (control / 2) as usize;
        let Ok(values) = Vec::with_capacity(alloc, given) else {
            self.give_turn_back(seat);
            return Err(Error::Memory);
        };
        let mut gathered = Gathered { values };
        self.walk_and_leave::<R, Reader, Gathered<T>>(
            rt,
            seat,
            (control % 2) as usize,
            given,
            &mut gathered,
        );
        Ok(gathered.values)
    }

    /// Returns all values that were pushed and not taken, in ticket order in blocks of 64, the newest block first.
    ///
    /// It waits for pushes that drew a ticket before it looked.
    /// `Busy`: another walk is under way.
    /// `Memory`: out of memory for the values. Nothing changed.
    pub fn data_as<R: Wait>(&self, rt: &R, alloc: Global, pen: &mut Pen) -> Result<Vec<T>, Error>
        requires own { pen.old.home ≡ self.now }
        requires free { pen.old.ticket ≡ false }
        ensures ok { IfOk result (λ v. (walk : Walk) × (v.items ≡ map T.value (blocks walk.values))
            × IsRead pen.old walk pen.new) }
        ensures count { IfOk result (λ v. vec_len v ≤ self.now.places) }
        ensures err { IfErr result (λ e. ((e ≡ Error.Memory) × (pen.new ≡ pen.old))
            ⊎ ((e ≡ Error.Busy) × IsBusy pen.old pen.new × (pen.old.weight ≢ 1024))) }
    {
        self.gather_values(rt, alloc, &mut pen.seat)
    }

    /// Reads all values as `data_as` does, shows them to the visitor in chunks of 64, the newest chunk first, and returns their
    /// number.
    pub fn data_to_as<R: Wait, V: Visitor<T>>(
        &self,
        rt: &R,
        pen: &mut Pen,
        visitor: &mut V,
    ) -> Result<usize, Error>
        requires own { pen.old.home ≡ self.now }
        requires free { pen.old.ticket ≡ false }
        requires call { V.ready visitor.old }
        ensures ok { IfOk result (λ n. (walk : Walk) × (length walk.values ≡ n) × IsRead pen.old walk pen.new
            × FoldsTo V.saw visitor.old (valued T.value (newest_first walk.values)) visitor.new) }
        ensures count { IfOk result (λ n. n ≤ self.now.places) }
        ensures ready { V.ready visitor.new }
        ensures err { IfErr result (λ e. IsBusy pen.old pen.new × (visitor.new ≡ visitor.old) × (e ≡ Error.Busy)
            × (pen.old.weight ≢ 1024)) }
    {
        self.show_to(rt, &mut pen.seat, visitor)
    }

    /// Reads all values as `data_as` does, and shows them to `f` in chunks of 64, the newest chunk first.
    pub fn data_with_as<R: Wait, F: FnMut(&[T])>(
        &self,
        rt: &R,
        pen: &mut Pen,
        f: F,
    ) -> Result<usize, Error>
        requires own { pen.old.home ≡ self.now }
        requires free { pen.old.ticket ≡ false }
        requires call { F.IsAlwaysCallable f }
        ensures ok { IfOk result (λ n. (walk : Walk) × (length walk.values ≡ n) × IsRead pen.old walk pen.new
            × ((last : F) × FoldsTo (λ p x q. CalledAt F.FnMut p x tt q) f (valued T.value (newest_first walk.values)) last)) }
        ensures count { IfOk result (λ n. n ≤ self.now.places) }
        ensures err { IfErr result (λ e. IsBusy pen.old pen.new × (e ≡ Error.Busy) × (pen.old.weight ≢ 1024)) }
    {
        let mut shown = Shown { f };
        self.data_to_as(rt, pen, &mut shown)
    }
}
