//! A thread's part of a growing bucket.
ghost use Rattle.std.specs.Prelude.{◌≡◌, ℕ, ◌+◌, ◌<◌, ◌≤◌, List, length, vec_capacity, IfOk, OnOk, IfErr};
ghost use Rattle.metrics_growing.specs.Parts.{IsOf, AreOfOne, left_parts, right_parts, joined_parts};
ghost use Rattle.metrics_growing.specs.Bags.{first_weight, pushed_by, taken_by};

use crate::known::Known;
use metrics::Error;
use std::alloc::Global;
use std::marker::Model;

/// A thread's part of one growing bucket, which each call on the bucket borrows: a pen for each segment that it knows.
///
/// Contracts see it as a list of parts, each with its link's name and its pen's account.
#[derive(Drop)]
pub struct GrowPen {
    pub(crate) alloc: Global,
    pub(crate) known: Vec<Known>,
}

impl Model for GrowPen {
    ghost use Rattle.std.specs.Prelude.{List, ⊤};
    ghost use Rattle.std.specs.Coded.{coded_list};
    ghost use Rattle.metrics_growing.specs.Parts.{Part, part_code};

    ghost Value = { List Part };

    ghost coded = { coded_list part_code };

    ghost view = { λ p. p.known.items };

    ghost invariant = { λ _. ⊤ };
}

// Joins what both know, and appends what only the others have.
fn take_in(known: &mut Vec<Known>, others: Vec<Known>)
    requires own { AreOfOne known.old.items others.items }
    requires room { length others.items ≤ vec_capacity known.old }
    ensures { known.new.items ≡ joined_parts known.old.items others.items }
{
    let mut at = 0usize;
    for part in others {
        match known.get_mut(at) {
            Some(mine) => mine.join(part),
            None => known.push_reserved(part),
        }
        at += 1;
    }
}

impl GrowPen {
    /// Returns a new pen with half of the weight in the first segment, and in no other.
    ///
    /// `NoPen`: one part of the weight can't be split.
    pub fn split(&mut self) -> Result<GrowPen, Error>
        ensures ok { IfOk result (λ p. (self.new ≡ left_parts self.old) × (p ≡ right_parts self.old)) }
        ensures own { (links : List ℕ) → IsOf links self.old → IsOf links self.new × IfOk result (λ p. IsOf links p) }
        ensures err { IfErr result (λ e. (self.new ≡ self.old) × (1 < first_weight self.old → e ≡ Error.Memory)) }
        ensures lightest { first_weight self.old ≡ 1 → result ≡ Err Error.NoPen }
    {
        let Some(first) = self.known.get_mut(0) else {
            return Err(Error::NoPen);
        };
        let half = first.split()?;
        let Ok(mut known) = Vec::with_capacity(self.alloc, 1) else {
            first.join(half);
            return Err(Error::Memory);
        };
        known.push_reserved(half);
        Ok(GrowPen {
            alloc: self.alloc,
            known,
        })
    }

    /// Adds another pen of the same bucket, with its account.
    ///
    /// It can run out of memory only if the other pen knows more segments. Then both stay unchanged.
    pub fn join(&mut self, other: GrowPen) -> Result<(), (Error, GrowPen)>
        requires own { AreOfOne self.old other }
        ensures ok { OnOk result (self.new ≡ joined_parts self.old other) }
        ensures sums { OnOk result ((h : ℕ → ℕ) → (pushed_by h self.new ≡ pushed_by h self.old + pushed_by h other)
            × (taken_by h self.new ≡ taken_by h self.old + taken_by h other)) }
        ensures own { (links : List ℕ) → IsOf links self.old → IsOf links other → IsOf links self.new }
        ensures err { IfErr result (λ e. (self.new ≡ self.old) × (e.0 ≡ Error.Memory) × (e.1 ≡ other)
            × (length self.old < length other)) }
    {
        let more = other.known.len().saturating_sub(self.known.len());
        if self.known.reserve(more).is_err() {
            return Err((Error::Memory, other));
        }
        let GrowPen { alloc: _, known } = other;
        take_in(&mut self.known, known);
        Ok(())
    }
}
