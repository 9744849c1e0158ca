//! The call that returns all values that are left.
ghost use Rattle.std.specs.Prelude.{◌≡◌, ◌<◌, ◌^◌, ◌⊎◌, ◌↔◌, IsTrue, All, length, slice_index_or, IfOk};
ghost use Rattle.std.specs.Prelude.{IfErr};
ghost use Rattle.metrics_growing.specs.Parts.{Part, IsOf, IsWhole, Gathered as GatheredIn, ChangedAt, EachOf, SpareIn};
ghost use Rattle.metrics_growing.specs.Bags.{sum_of, places_in, Settled};

use crate::bucket::GrowingBucket;
use crate::known::Known;
use crate::pen::GrowPen;
use metrics::Error;
use metrics_bucket::{Gathered, Sample};
use std::alloc::Global;
use std::sync::Wait;

// Returns whether there is no other pen of any of these segments.
fn are_whole(known: &[Known]) -> bool
    ensures { IsTrue result ↔ All IsWhole known.now }
{
    for at in 0..known.len() {
        if !known[at].is_whole() {
            return false;
        }
    }
    true
}

impl<T: Sample> GrowingBucket<T> {
    // Joins the spare pens of a segment that is known.
    fn gather_at(&self, known: &mut Vec<Known>, at: usize) -> Result<(), Error>
        requires own { IsOf self.now known.old.items }
        requires at { at < length known.old.items }
        ensures own { IsOf self.now known.new.items }
        ensures size { length known.new.items ≡ length known.old.items }
        ensures spare { ChangedAt SpareIn at known.old.items known.new.items }
        ensures err { IfErr result (λ e. e ≡ Error.Memory) }
    {
        let Some(link) = self.links.get(at) else {
            unreachable!()
        };
        let Some(part) = known.get_mut(at) else {
            unreachable!()
        };
        part.gather(link)
    }

    // Joins the spare pens of all segments that are known.
    fn gather_all(&self, known: &mut Vec<Known>) -> Result<(), Error>
        requires own { IsOf self.now known.old.items }
        ensures own { IsOf self.now known.new.items }
        ensures spare { EachOf SpareIn known.old.items known.new.items }
        ensures err { IfErr result (λ e. e ≡ Error.Memory) }
    {
        for at in 0..known.len() {
            self.gather_at(known, at)?;
        }
        Ok(())
    }

    // Returns how many places a side of a segment that is known has.
    fn places_at(&self, known: &mut Vec<Known>, at: usize) -> usize
        requires own { IsOf self.now known.old.items }
        requires at { at < length known.old.items }
        ensures same { known.new.items ≡ known.old.items }
        ensures size { result < 2 ^ 58 }
        ensures places { (d : Part) → result ≡ places_in (slice_index_or known.old.items at d) }
    {
        let Some(link) = self.links.get(at) else {
            unreachable!()
        };
        let Some(part) = known.get_mut(at) else {
            unreachable!()
        };
        part.places(link)
    }

    // Returns how many places a side of all known segments together has.
    fn all_places(&self, known: &mut Vec<Known>) -> usize
        requires own { IsOf self.now known.old.items }
        ensures same { known.new.items ≡ known.old.items }
        ensures places { result ≡ sum_of places_in known.old.items }
    {
        let mut places = 0usize;
        for at in 0..self.count_known(known) {
            places += self.places_at(known, at);
        }
        places
    }

    /// Returns all values that were pushed and not taken, if the pen is whole in each segment.
    ///
    /// Those of the first segment come first, each segment's in ticket order in blocks of 64, the newest block first. They
    /// count as taken from then on.
    /// `NoPen`: there is another pen of some segment.
    /// If it fails no value has moved, and the pen keeps the spare pens that it has joined.
    pub fn settle<R: Wait>(&self, rt: &R, alloc: Global, pen: &mut GrowPen) -> Result<Vec<T>, Error>
        requires own { IsOf self.now pen.old }
        ensures own { IsOf self.now pen.new }
        ensures ok { IfOk result (λ v. Settled T.value pen.old pen.new v.items) }
        ensures err { IfErr result (λ e. GatheredIn pen.old pen.new
            × ((e ≡ Error.Memory) ⊎ ((e ≡ Error.NoPen) × (All IsWhole pen.new → ⊥)))) }
    {
        let known = &mut pen.known;
        if let Err(Error::Memory) = self.meet_all(known) {
            return Err(Error::Memory);
        }
        self.gather_all(known)?;
        if !are_whole(known) {
            return Err(Error::NoPen);
        }
        let buckets = self.buckets(known)?;
        let places = self.all_places(known);
        let Ok(values) = Vec::with_capacity(alloc, places) else {
            return Err(Error::Memory);
        };
        let mut gathered = Gathered { values };
        let Ok(_) = self.clear_all(rt, known, &buckets, &mut gathered) else {
            unreachable!()
        };
        Ok(gathered.values)
    }
}
