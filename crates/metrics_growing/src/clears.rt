//! The calls that take all values.
ghost use Rattle.std.specs.Prelude.{◌≡◌, ◌≢◌, ◌+◌, ◌<◌, ◌≤◌, ◌^◌, ◌⊎◌, List};
ghost use Rattle.std.specs.Prelude.{map, length, slice_index_or, IfOk, IfErr};
ghost use Rattle.std.specs.Fn.{CalledAt};
ghost use Rattle.std.specs.List.{FoldsTo};
ghost use Rattle.metrics_bucket.specs.declared.view.Walk.{Walk};
ghost use Rattle.metrics_bucket.specs.Blocks.{valued, newest_first};
ghost use Rattle.metrics_bucket.specs.Steps.{count_all};
ghost use Rattle.metrics_growing.specs.Parts.{Part, IsOf, Keeps, home_of, ChangedAt, TakenIn, HeldIn};
ghost use Rattle.metrics_growing.specs.Parts.{WaitedAndTakenIn, FirstHeld, FoundHeld, Took, TookAll, all_chunks};
ghost use Rattle.metrics_growing.specs.Bags.{sum_of, places_in, first_weight};

use crate::bucket::{GrowingBucket, LINKS};
use crate::known::Known;
use crate::pen::GrowPen;
use crossbeam_utils::Backoff;
use metrics::Error;
use metrics_bucket::{RuledBucket, Sample, Shown, Visitor};
use std::sync::Wait;

impl<T: Sample> GrowingBucket<T> {
    // Meets all segments that are linked, and makes none.
    pub(crate) fn meet_all(&self, known: &mut Vec<Known>) -> Result<(), Error>
        requires own { IsOf self.now known.old.items }
        ensures own { IsOf self.now known.new.items }
        ensures keeps { Keeps known.old.items known.new.items }
        ensures err { IfErr result (λ e. (e ≡ Error.Memory)
            ⊎ ((e ≡ Error.NoPen) × (length known.new.items < length self.now))) }
    {
        for _ in 0..LINKS {
            if !self.meet(known)? {
                return Ok(());
            }
        }
        Ok(())
    }

    // Returns how many segments are known, which are no more than links.
    pub(crate) fn count_known(&self, known: &Vec<Known>) -> usize
        requires own { IsOf self.now known.now.items }
        ensures { (result ≡ length known.now.items) × (result ≤ 64) }
    {
        let links = self.links.len();
        known.len().min(links)
    }

    // Returns the bucket of a segment that is known, for values of this type.
    fn bucket_at(&self, known: &mut Vec<Known>, at: usize) -> Result<RuledBucket<T>, Error>
        requires own { IsOf self.now known.old.items }
        requires at { at < length known.old.items }
        ensures same { known.new.items ≡ known.old.items }
        ensures ok { IfOk result (λ b. (d : Part) → b ≡ home_of (slice_index_or known.old.items at d)) }
        ensures err { IfErr result (λ e. e ≡ Error.Memory) }
    {
        let Some(link) = self.links.get(at) else {
            unreachable!()
        };
        let Some(part) = known.get_mut(at) else {
            unreachable!()
        };
        part.bucket_of::<T>(link)
    }

    // Returns the buckets of all segments that are known.
    pub(crate) fn buckets(&self, known: &mut Vec<Known>) -> Result<Vec<RuledBucket<T>>, Error>
        requires own { IsOf self.now known.old.items }
        ensures same { known.new.items ≡ known.old.items }
        ensures ok { IfOk result (λ v. v.items ≡ map home_of known.old.items) }
        ensures err { IfErr result (λ e. e ≡ Error.Memory) }
    {
        let mut buckets = Vec::new(self.alloc);
        for at in 0..known.len() {
            let bucket = self.bucket_at(known, at)?;
            let Ok(()) = buckets.push(bucket) else {
                return Err(Error::Memory);
            };
        }
        Ok(buckets)
    }

    // Clears a segment that is known, if its turn is free.
    fn clear_at<R: Wait, V: Visitor<T>>(
        &self,
        rt: &R,
        known: &mut Vec<Known>,
        buckets: &[RuledBucket<T>],
        at: usize,
        visitor: &mut V,
    ) -> Result<usize, Error>
        requires own { IsOf self.now known.old.items }
        requires at { at < length known.old.items }
        requires buckets { buckets.now ≡ map home_of known.old.items }
        requires call { V.ready visitor.old }
        ensures own { IsOf self.now known.new.items }
        ensures homes { map home_of known.new.items ≡ map home_of known.old.items }
        ensures size { length known.new.items ≡ length known.old.items }
        ensures ok { IfOk result (λ n. (walk : Walk) × (length walk.values ≡ n)
            × ChangedAt (TakenIn walk) at known.old.items known.new.items
            × FoldsTo V.saw visitor.old (valued T.value (newest_first walk.values)) visitor.new) }
        ensures count { IfOk result (λ n. (n < 2 ^ 58)
            × ((d : Part) → n ≤ places_in (slice_index_or known.old.items at d))) }
        ensures ready { V.ready visitor.new }
        ensures err { IfErr result (λ e. ChangedAt HeldIn at known.old.items known.new.items
            × (visitor.new ≡ visitor.old) × (e ≡ Error.Busy) × (at ≡ 0 → first_weight known.old.items ≢ 1024)) }
    {
        let Some(link) = self.links.get(at) else {
            unreachable!()
        };
        let Some(part) = known.get_mut(at) else {
            unreachable!()
        };
        part.clear(rt, link, &buckets[at], visitor)
    }

    // Clears a segment. The first one may be busy; at a later one it waits for the turn.
    fn clear_one<R: Wait, V: Visitor<T>>(
        &self,
        rt: &R,
        known: &mut Vec<Known>,
        buckets: &[RuledBucket<T>],
        at: usize,
        visitor: &mut V,
    ) -> Result<usize, Error>
        requires own { IsOf self.now known.old.items }
        requires at { at < length known.old.items }
        requires buckets { buckets.now ≡ map home_of known.old.items }
        requires call { V.ready visitor.old }
        ensures own { IsOf self.now known.new.items }
        ensures homes { map home_of known.new.items ≡ map home_of known.old.items }
        ensures size { length known.new.items ≡ length known.old.items }
        ensures ok { IfOk result (λ n. (walk : Walk) × (length walk.values ≡ n)
            × ChangedAt (WaitedAndTakenIn walk) at known.old.items known.new.items
            × FoldsTo V.saw visitor.old (valued T.value (newest_first walk.values)) visitor.new) }
        ensures count { IfOk result (λ n. (n < 2 ^ 58)
            × ((d : Part) → n ≤ places_in (slice_index_or known.old.items at d))) }
        ensures ready { V.ready visitor.new }
        ensures err { IfErr result (λ e. FirstHeld known.old.items known.new.items × (visitor.new ≡ visitor.old)
            × (at ≡ 0) × (e ≡ Error.Busy) × (first_weight known.old.items ≢ 1024)) }
    {
        let pause = Backoff::new();
        for _ in rt.forever() {
            match self.clear_at(rt, known, buckets, at, visitor) {
                Ok(count) => return Ok(count),
                Err(_) if at == 0 => return Err(Error::Busy),
                Err(_) => pause.snooze(),
            }
        }
        unreachable!()
    }

    // Clears all segments that are known, from the first on.
    pub(crate) fn clear_all<R: Wait, V: Visitor<T>>(
        &self,
        rt: &R,
        known: &mut Vec<Known>,
        buckets: &[RuledBucket<T>],
        visitor: &mut V,
    ) -> Result<usize, Error>
        requires own { IsOf self.now known.old.items }
        requires buckets { buckets.now ≡ map home_of known.old.items }
        requires call { V.ready visitor.old }
        ensures own { IsOf self.now known.new.items }
        ensures ok { IfOk result (λ n. (walks : List Walk) × (length walks ≡ length known.old.items)
            × (count_all walks ≡ n) × Took known.old.items walks known.new.items
            × FoldsTo V.saw visitor.old (valued T.value (all_chunks walks)) visitor.new) }
        ensures count { IfOk result (λ n. n ≤ sum_of places_in known.old.items) }
        ensures ready { V.ready visitor.new }
        ensures err { IfErr result (λ e. FirstHeld known.old.items known.new.items × (visitor.new ≡ visitor.old)
            × (e ≡ Error.Busy) × (0 < length known.old.items) × (first_weight known.old.items ≢ 1024)) }
    {
        let mut count = 0usize;
        for at in 0..self.count_known(known) {
            let more = self.clear_one(rt, known, buckets, at, visitor)?;
            count += more;
        }
        Ok(count)
    }

    /// Takes all values that were pushed and not taken, shows them to the visitor, and returns their number.
    ///
    /// It goes from segment to segment, and shows each segment's values in chunks of 64, the newest chunk first. It waits for
    /// pushes that drew a ticket before it took their segment's side.
    /// `Busy`: another walk is under way in the first segment. It waits for one in a later segment.
    /// `NoPen`: a segment that the pen doesn't know has no spare pen left. A pen that knows all 64 never meets it.
    /// `Memory`: out of memory for a pen of a segment.
    /// After each of them no value was taken or shown; the pen may know more segments.
    pub fn clear_to<R: Wait, V: Visitor<T>>(
        &self,
        rt: &R,
        pen: &mut GrowPen,
        visitor: &mut V,
    ) -> Result<usize, Error>
        requires own { IsOf self.now pen.old }
        requires call { V.ready visitor.old }
        ensures ready { V.ready visitor.new }
        ensures own { IsOf self.now pen.new }
        ensures ok { IfOk result (λ n. (walks : List Walk) × (count_all walks ≡ n) × TookAll pen.old walks pen.new
            × FoldsTo V.saw visitor.old (valued T.value (all_chunks walks)) visitor.new) }
        ensures count { IfOk result (λ n. n ≤ sum_of places_in pen.new) }
        ensures err { IfErr result (λ e. (visitor.new ≡ visitor.old)
            × (((e ≡ Error.Busy) × FoundHeld pen.old pen.new × (first_weight pen.new ≢ 1024)) ⊎ (Keeps pen.old pen.new
            × (((e ≡ Error.NoPen) × (length pen.new < length self.now)) ⊎ (e ≡ Error.Memory))))) }
    {
        let known = &mut pen.known;
        self.meet_all(known)?;
        let buckets = self.buckets(known)?;
        self.clear_all(rt, known, &buckets, visitor)
    }

    /// Takes all values as `clear_to` does, and shows them to `f`, which may push into this bucket with another pen.
    ///
    /// A clear made inside `f` is `Busy` while this one walks the first segment. Later it waits for ever, for the turn of the
    /// segment that this one walks. After an error `f` was not called.
    pub fn clear_with<R: Wait, F: FnMut(&[T])>(
        &self,
        rt: &R,
        pen: &mut GrowPen,
        f: F,
    ) -> Result<usize, Error>
        requires own { IsOf self.now pen.old }
        requires call { F.IsAlwaysCallable f }
        ensures own { IsOf self.now pen.new }
        ensures ok { IfOk result (λ n. (walks : List Walk) × (count_all walks ≡ n) × TookAll pen.old walks pen.new
            × ((last : F) × FoldsTo (λ p x q. CalledAt F.FnMut p x tt q) f (valued T.value (all_chunks walks)) last)) }
        ensures count { IfOk result (λ n. n ≤ sum_of places_in pen.new) }
        ensures err { IfErr result (λ e.
            ((e ≡ Error.Busy) × FoundHeld pen.old pen.new × (first_weight pen.new ≢ 1024)) ⊎ (Keeps pen.old pen.new
            × (((e ≡ Error.NoPen) × (length pen.new < length self.now)) ⊎ (e ≡ Error.Memory)))) }
    {
        let mut shown = Shown { f };
        self.clear_to(rt, pen, &mut shown)
    }
}
