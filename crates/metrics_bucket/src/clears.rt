//! The calls that take all values.
ghost use Rattle.std.specs.Prelude.{◌≡◌, ℕ, ◌-◌, ◌<◌, ◌≤◌, length, ◌≢◌, [], false, IfOk, OnOk, IfErr};
ghost use Rattle.metrics_bucket.specs.Facts.{weigh_pushes, weigh_walks};
ghost use Rattle.metrics_bucket.specs.declared.view.Walk.{Walk};
ghost use Rattle.metrics_bucket.specs.Places.{Covers};
ghost use Rattle.std.specs.List.{FoldsTo};
ghost use Rattle.std.specs.Fn.{CalledAt};
ghost use Rattle.metrics_bucket.specs.Blocks.{valued, newest_first};
ghost use Rattle.metrics_bucket.specs.Account.{IsTaken, IsBusy};
ghost use Rattle.metrics_bucket.specs.Steps.{WasBusy};
ghost use Rattle.metrics_bucket.specs.ClearedPlaces.{has_taken, IsSideTaken};
ghost use Rattle.metrics_bucket.specs.declared.view.Hold.TheVariants.{Nothing};

use crate::bucket::RuledBucket;
use crate::pen::Pen;
use crate::sample::Sample;
use crate::steps::{ClaimTurn, LookToClear, TakeSide};
use crate::view::{Turn, View};
use crate::visitor::{Nobody, Shown, Visitor};
use crate::walker::Clearer;
use atomic_table::Seat;
use metrics::Error;
use std::sync::Wait;

impl<T: Sample> RuledBucket<T> {
    // Claims the turn, takes the live side, and returns it, and how many places were given.
    fn claim_side(&self, seat: &mut Seat<Turn, View>) -> Result<(usize, usize), Error>
        requires home { (seat.old.table_id ≡ self.now.table) × (seat.old.me.0.places ≡ self.now.places)
            × (0 < seat.old.me.0.weight) }
        requires hold { (seat.old.me.0.hold ≡ Nothing) × (seat.old.me.1 ≡ []) }
        ensures table { seat.new.table_id ≡ seat.old.table_id }
        ensures ok { IfOk result (λ t. (t.0 < 2) × (t.1 ≤ self.now.places) × IsSideTaken seat.old.me t.0 t.1 seat.new.me) }
        ensures err { IfErr result (λ e. WasBusy seat.old.me seat.new.me × (e ≡ Error.Busy)
            × (seat.old.me.0.weight ≢ 1024)) }
    {
        let shared = &self.table.shared;
        if shared.compare_exchange::<ClaimTurn>(seat, 1, 0, 1) != 0 {
            return Err(Error::Busy);
        }
        let live = shared.load::<LookToClear>(seat, 0) % 2;
        let control = shared.swap::<TakeSide>(seat, 0, 1 - live);
        Ok((live as usize, (control / 2) as usize))
    }

    // Takes all values, and shows them to the visitor.
    pub(crate) fn claim_and_clear<R: Wait, V: Visitor<T>>(
        &self,
        rt: &R,
        seat: &mut Seat<Turn, View>,
        visitor: &mut V,
    ) -> Result<usize, Error>
        requires home { (seat.old.table_id ≡ self.now.table) × (seat.old.me.0.places ≡ self.now.places)
            × (0 < seat.old.me.0.weight) }
        requires hold { (seat.old.me.0.hold ≡ Nothing) × (seat.old.me.1 ≡ []) }
        requires call { V.ready visitor.old }
        ensures table { seat.new.table_id ≡ seat.old.table_id }
        ensures ok { IfOk result (λ n. (w : Walk) × (k : ℕ) × (length w.values ≡ n)
            × (seat.new.me ≡ (has_taken seat.old.me.0 k w, [])) × Covers seat.old.me.0.pushed w
            × (seat.old.me.0.weight ≡ 1024 → w.epoch ≡ length seat.old.me.0.taken)
            × FoldsTo V.saw visitor.old (valued T.value (newest_first w.values)) visitor.new) }
        ensures count { IfOk result (λ n. n ≤ self.now.places) }
        ensures ready { V.ready visitor.new }
        ensures whole { seat.old.me.0.weight ≡ 1024
            → OnOk result ((h : ℕ → ℕ) → weigh_pushes h seat.new.me.0.pushed ≡ weigh_walks h seat.new.me.0.taken) }
        ensures err { IfErr result (λ e. WasBusy seat.old.me seat.new.me × (visitor.new ≡ visitor.old) × (e ≡ Error.Busy)
            × (seat.old.me.0.weight ≢ 1024)) }
    {
        let taken = self.claim_side(seat)?;
        self.walk_and_leave::<R, Clearer, V>(rt, seat, taken.0, taken.1, visitor);
        Ok(taken.1)
    }

    /// Takes all values that were pushed and not taken, shows them to the visitor, and returns their number.
    ///
    /// They come in ticket order in chunks of 64, the newest chunk first. It waits for pushes that drew a ticket before it
    /// took the side; later ones go to the other side.
    /// `Busy`: another walk is under way, perhaps the one whose closure or visitor made this call.
    pub fn clear_to_as<R: Wait, V: Visitor<T>>(
        &self,
        rt: &R,
        pen: &mut Pen,
        visitor: &mut V,
    ) -> Result<usize, Error>
        requires own { pen.old.home ≡ self.now }
        requires free { pen.old.ticket ≡ false }
        requires call { V.ready visitor.old }
        ensures ok { IfOk result (λ n. (walk : Walk) × (length walk.values ≡ n) × IsTaken pen.old walk pen.new
            × FoldsTo V.saw visitor.old (valued T.value (newest_first walk.values)) visitor.new) }
        ensures count { IfOk result (λ n. n ≤ self.now.places) }
        ensures ready { V.ready visitor.new }
        ensures err { IfErr result (λ e. IsBusy pen.old pen.new × (visitor.new ≡ visitor.old) × (e ≡ Error.Busy)
            × (pen.old.weight ≢ 1024)) }
    {
        self.claim_and_clear(rt, &mut pen.seat, visitor)
    }

    /// Takes all values as `clear_to_as` does, and shows them to `f`, which may push into this bucket with another pen. If it is
    /// `Busy`, `f` was not called.
    pub fn clear_with_as<R: Wait, F: FnMut(&[T])>(
        &self,
        rt: &R,
        pen: &mut Pen,
        f: F,
    ) -> Result<usize, Error>
        requires own { pen.old.home ≡ self.now }
        requires free { pen.old.ticket ≡ false }
        requires call { F.IsAlwaysCallable f }
        ensures ok { IfOk result (λ n. (walk : Walk) × (length walk.values ≡ n) × IsTaken pen.old walk pen.new
            × ((last : F) × FoldsTo (λ p x q. CalledAt F.FnMut p x tt q) f (valued T.value (newest_first walk.values)) last)) }
        ensures count { IfOk result (λ n. n ≤ self.now.places) }
        ensures err { IfErr result (λ e. IsBusy pen.old pen.new × (e ≡ Error.Busy) × (pen.old.weight ≢ 1024)) }
    {
        let mut shown = Shown { f };
        self.clear_to_as(rt, pen, &mut shown)
    }

    /// Takes all values as `clear_to_as` does, and shows them to nobody.
    pub fn clear_as<R: Wait>(&self, rt: &R, pen: &mut Pen) -> Result<usize, Error>
        requires own { pen.old.home ≡ self.now }
        requires free { pen.old.ticket ≡ false }
        ensures ok { IfOk result (λ n. (walk : Walk) × (length walk.values ≡ n) × IsTaken pen.old walk pen.new) }
        ensures count { IfOk result (λ n. n ≤ self.now.places) }
        ensures err { IfErr result (λ e. IsBusy pen.old pen.new × (e ≡ Error.Busy) × (pen.old.weight ≢ 1024)) }
    {
        self.claim_and_clear(rt, &mut pen.seat, &mut Nobody)
    }
}
