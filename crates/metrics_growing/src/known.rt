//! What a pen has of one segment.
ghost use Rattle.std.specs.Prelude.{◌≡◌, ◌≢◌, ◌<◌, ◌≤◌, ◌^◌, ◌⊎◌, ◌↔◌, IsTrue};
ghost use Rattle.std.specs.Prelude.{length, IfOk, OnOk, IfErr};
ghost use Rattle.once_cell.specs.Once.{cell_name};
ghost use Rattle.std.specs.List.{FoldsTo};
ghost use Rattle.metrics_bucket.specs.declared.view.Walk.{Walk};
ghost use Rattle.metrics_bucket.specs.Blocks.{valued, newest_first};
ghost use Rattle.metrics_growing.specs.Parts.{IsWhole, left_part, right_part, joined_part, PushedIn};
ghost use Rattle.metrics_growing.specs.Parts.{PassedIn, LostIn, TakenIn, HeldIn, SpareIn};

use crate::segment::Segment;
use metrics::Error;
use metrics_bucket::{Pen, RuledBucket, Sample, Visitor};
use once_cell::race::{Note, OnceBox};
use std::marker::Model;
use std::sync::Wait;

/// A pen of one segment, and a note that shows whose it is.
///
/// Contracts see it as the link's name and the pen's account.
#[derive(Drop)]
pub(crate) struct Known {
    pub(crate) pen: Pen,
    pub(crate) note: Note<Segment>,
}

impl Model for Known {
    ghost use Rattle.metrics_growing.specs.Parts.{Part, part_code};

    ghost Value = { Part };

    ghost coded = { part_code };

    ghost use Rattle.metrics_growing.specs.Known.{part_of, IsKnown};

    ghost view = { part_of };

    ghost invariant = { IsKnown };
}

impl Known {
    pub(crate) fn push(&mut self, link: &OnceBox<Segment>, word: u64) -> Result<(), Error>
        requires link { self.old.link ≡ cell_name link.now }
        ensures ok { OnOk result (PushedIn word self.old self.new) }
        ensures err { IfErr result (λ e. ((e ≡ Error.Full) × PassedIn self.old self.new)
            ⊎ ((e ≡ Error.Raced) × LostIn self.old self.new)) }
    {
        let Some(segment) = link.get_as(&mut self.note) else {
            unreachable!()
        };
        match segment.core.try_push_as(&mut self.pen, word) {
            Ok(()) => Ok(()),
            Err((e, _)) => Err(e),
        }
    }

    /// Returns the segment's bucket, for values of this type.
    pub(crate) fn bucket_of<T: Sample>(
        &mut self,
        link: &OnceBox<Segment>,
    ) -> Result<RuledBucket<T>, Error>
        requires link { self.old.link ≡ cell_name link.now }
        ensures same { self.new ≡ self.old }
        ensures ok { IfOk result (λ b. b ≡ self.old.account.home) }
        ensures err { IfErr result (λ e. e ≡ Error.Memory) }
    {
        let Some(segment) = link.get_as(&mut self.note) else {
            unreachable!()
        };
        segment.core.try_clone_as::<T>()
    }

    /// Returns how many places a side of the segment has.
    pub(crate) fn places(&mut self, link: &OnceBox<Segment>) -> usize
        requires link { self.old.link ≡ cell_name link.now }
        ensures same { self.new ≡ self.old }
        ensures places { (result ≡ self.old.account.home.places) × (result < 2 ^ 58) }
    {
        let Some(segment) = link.get_as(&mut self.note) else {
            unreachable!()
        };
        segment.places
    }

    /// Takes all values in the segment.
    pub(crate) fn clear<T: Sample, R: Wait, V: Visitor<T>>(
        &mut self,
        rt: &R,
        link: &OnceBox<Segment>,
        bucket: &RuledBucket<T>,
        visitor: &mut V,
    ) -> Result<usize, Error>
        requires link { self.old.link ≡ cell_name link.now }
        requires bucket { self.old.account.home ≡ bucket.now }
        requires call { V.ready visitor.old }
        ensures ok { IfOk result (λ n. (walk : Walk) × (length walk.values ≡ n) × TakenIn walk self.old self.new
            × FoldsTo V.saw visitor.old (valued T.value (newest_first walk.values)) visitor.new) }
        ensures count { IfOk result (λ n. (n ≤ self.old.account.home.places) × (n < 2 ^ 58)) }
        ensures ready { V.ready visitor.new }
        ensures err { IfErr result (λ e. HeldIn self.old self.new × (visitor.new ≡ visitor.old) × (e ≡ Error.Busy)
            × (self.old.account.weight ≢ 1024)) }
    {
        // It says that the segment has few places, so that counts of several add up.
        self.places(link);
        bucket.clear_to_as(rt, &mut self.pen, visitor)
    }

    /// Joins the segment's spare pens that still wait.
    pub(crate) fn gather(&mut self, link: &OnceBox<Segment>) -> Result<(), Error>
        requires link { self.old.link ≡ cell_name link.now }
        ensures spare { SpareIn self.old self.new }
        ensures err { IfErr result (λ e. e ≡ Error.Memory) }
    {
        let Some(segment) = link.get_as(&mut self.note) else {
            unreachable!()
        };
        segment.spares.gather(&mut self.pen)
    }

    pub(crate) fn is_whole(&self) -> bool
        ensures { IsTrue result ↔ IsWhole self.now }
    {
        self.pen.is_whole()
    }

    /// Returns a new pen with half of the weight.
    pub(crate) fn split(&mut self) -> Result<Known, Error>
        ensures ok { IfOk result (λ k. (self.new ≡ left_part self.old) × (k ≡ right_part self.old)) }
        ensures err { IfErr result (λ e. (self.new ≡ self.old) × (1 < self.old.account.weight → e ≡ Error.Memory)) }
        ensures lightest { self.old.account.weight ≡ 1 → result ≡ Err Error.NoPen }
    {
        let pen = self.pen.split()?;
        let note = self.note.again();
        Ok(Known { pen, note })
    }

    /// Adds another pen of the same segment.
    pub(crate) fn join(&mut self, other: Known)
        requires link { other.link ≡ self.old.link }
        ensures { self.new ≡ joined_part self.old other }
    {
        let Known { pen, note } = other;
        self.note.compare(note);
        self.pen.join(pen);
    }
}
