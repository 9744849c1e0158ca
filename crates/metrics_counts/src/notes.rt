//! What is noted of counters, by key.
ghost use Rattle.std.specs.Prelude.{◌≡◌, None, IfOk, IfSome, IfNone, IsSome};

use crate::cell::CountCell;
use crate::note::CountNote;
use metrics_registry::EqualClone;
use std::alloc::{AllocError, Global};
use std::collections::HashMap;
use std::hash::Hash;
use std::sync::Arc;

/// The counts that were seen of counters, by key, if there is an idle timeout.
#[derive(Drop)]
pub struct CountNotes<K: Hash> {
    timeout: Option<u64>,
    notes: HashMap<K, CountNote<K>>,
}

impl<K: Hash + EqualClone + Drop> CountNotes<K> {
    ghost use Rattle.metrics_counts.specs.Noting.{noted_of, IsNoLess, IsCountOf, IsIdle, IsLateCount, OthersStay, total_of_note};

    /// Begins without notes. Without a timeout none is made.
    pub fn new(alloc: Global, timeout: Option<u64>) -> CountNotes<K>
        ensures timeout { result.timeout ≡ timeout }
        ensures empty { (q : K) → noted_of K.eq result q ≡ None }
    {
        CountNotes {
            timeout,
            notes: HashMap::new(alloc),
        }
    }

    /// Looks at a counter at this moment. Returns its count, or `None` if it is idle: it is as it was noted, and more than the
    /// timeout passed since.
    pub fn look(
        &mut self,
        key: &K,
        cell: &Arc<CountCell<K>>,
        now: u64,
    ) -> Result<Option<u64>, AllocError>
        ensures timeout { self.new.timeout ≡ self.old.timeout }
        ensures rises { IsNoLess (noted_of K.eq self.old key.now) (noted_of K.eq self.new key.now) }
        ensures others { OthersStay K.eq key.now (noted_of K.eq self.old) (noted_of K.eq self.new) }
        ensures shown { IfOk result (λ found. IfSome found (λ count. IsSome self.old.timeout
            → IsCountOf (noted_of K.eq self.new key.now) count)) }
        ensures idle { IfOk result (λ found. IfNone found
            (IsIdle self.old.timeout now (noted_of K.eq self.old key.now) (noted_of K.eq self.new key.now))) }
    {
        let Some(timeout) = self.timeout else {
            return Ok(Some(cell.value()));
        };
        let Some(note) = self.notes.get_mut(key) else {
            let (note, count) = CountNote::new(cell.clone()?, now);
            self.notes.insert(key.clone()?, note)?;
            return Ok(Some(count));
        };
        match note.look(timeout, now) {
            Some(count) => Ok(Some(count)),
            None => Ok(None),
        }
    }

    /// Takes away what is noted of a key whose count was found changed more than the timeout ago, and returns the count.
    pub fn take_late(&mut self, key: &K, now: u64) -> Option<u64>
        ensures timeout { self.new.timeout ≡ self.old.timeout }
        ensures taken { IfSome result (λ count. IsLateCount self.old.timeout now (noted_of K.eq self.old key.now) count
            × (noted_of K.eq self.new key.now ≡ None)) }
        ensures others { OthersStay K.eq key.now (noted_of K.eq self.old) (noted_of K.eq self.new) }
        ensures kept { IfNone result ((q : K) → noted_of K.eq self.new q ≡ noted_of K.eq self.old q) }
    {
        let timeout = self.timeout?;
        let note = self.notes.get(key)?;
        if !note.is_late(timeout, now) {
            return None;
        }
        let count = note.count();
        self.notes.remove(key);
        Some(count)
    }

    /// Has the next look at a key show its count.
    pub fn show_again(&mut self, key: &K)
        ensures timeout { self.new.timeout ≡ self.old.timeout }
        ensures total { total_of_note (noted_of K.eq self.new key.now) ≡ total_of_note (noted_of K.eq self.old key.now) }
        ensures others { OthersStay K.eq key.now (noted_of K.eq self.old) (noted_of K.eq self.new) }
    {
        if let Some(note) = self.notes.get_mut(key) {
            note.show_again();
        }
    }

    /// Removes the note of a key.
    pub fn forget(&mut self, key: &K)
        ensures timeout { self.new.timeout ≡ self.old.timeout }
        ensures gone { noted_of K.eq self.new key.now ≡ None }
        ensures others { OthersStay K.eq key.now (noted_of K.eq self.old) (noted_of K.eq self.new) }
    {
        self.notes.remove(key);
    }
}
