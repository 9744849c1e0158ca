//! A recorder that can be taken back after it was installed.
ghost use Rattle.std.specs.Prelude.{◌≡◌, [], Option, None, Ok, IfErr, MatchOption};
ghost use Rattle.std.specs.Fn.{FnOnceReturnsAtMut};
ghost use Rattle.std.specs.Result.{result_map_both};
ghost use Rattle.metrics.specs.Meaning.{KeepsTargets, Describes, Registers, Updates};
ghost use Rattle.metrics.specs.declared.error.Error.TheVariants.{Memory as OutOfMemory, Gone};

use crate::install::SetRecorderError;
use crate::slot::Slot;
use metrics::{Address, Error, Key, KeyName, MetricKind, Recorder, Refused, Unit, Update};
use std::alloc::{AllocError, Global};
use std::marker::Model;
use std::sync::{Arc, Mutex, OnceLock, Wait};

/// A slot that a recorder and a recovery handle share.
type SharedSlot<R> = Arc<Mutex<Slot<R>>, Global>;

/// Makes an empty slot, and returns it twice.
fn empty_slot<R: Recorder>(alloc: Global) -> Result<(SharedSlot<R>, SharedSlot<R>), AllocError> {
    let slot = Arc::new(alloc, Mutex::new(Slot::empty()))?;
    let other = Arc::try_clone(&slot)?;
    Ok((slot, other))
}

/// A recorder that is to be called through a slot, from which it can be taken back.
#[derive(Drop)]
pub struct RecoverableRecorder<R> {
    recorder: R,
}

impl<R> Model for RecoverableRecorder<R> {
    ghost Value = { R };

    ghost view = { λ r. r.recorder };
}

impl<R: Recorder> RecoverableRecorder<R> {
    ghost use Rattle.metrics_shared.specs.Install.{recorder_of};

    /// Wraps the recorder, without allocating.
    pub fn new(recorder: R) -> RecoverableRecorder<R>
        ensures { result ≡ recorder }
    {
        RecoverableRecorder { recorder }
    }

    /// Puts the recorder into a slot. The first result calls it there, the second takes it out.
    ///
    /// It makes the slot first, and puts the recorder in last. Returns the recorder when out of memory.
    pub fn build<W: Wait>(
        self,
        rt: &W,
        alloc: Global,
    ) -> Result<(SlotRecorder<R>, RecoveryHandle<R>), (Error, R)>
        ensures { IfErr result (λ e. (e.0 ≡ OutOfMemory) × (e.1 ≡ self)) }
    {
        let RecoverableRecorder { recorder } = self;
        let Ok((slot, other)) = empty_slot(alloc) else {
            return Err((Error::Memory, recorder));
        };
        *slot.lock(rt) = Slot::new(recorder);
        Ok((SlotRecorder { slot }, RecoveryHandle { slot: other }))
    }

    /// Puts the recorder into a slot, and what calls it there into the cell. The result takes it out.
    ///
    /// It makes the slot before it looks at the cell, and puts the recorder in last. Whoever finds the slot in the cell
    /// before that waits for the recorder. Returns the recorder when out of memory, or if the cell is taken.
    pub fn install<W: Wait>(
        self,
        rt: &W,
        alloc: Global,
        cell: &OnceLock<SlotRecorder<R>>,
    ) -> Result<RecoveryHandle<R>, SetRecorderError<R>>
        ensures { IfErr result (λ e. recorder_of e ≡ self) }
    {
        let RecoverableRecorder { recorder } = self;
        let Ok((slot, other)) = empty_slot(alloc) else {
            return Err(SetRecorderError::Memory(recorder));
        };
        let mut held = other.lock(rt);
        if cell.set(rt, SlotRecorder { slot }).is_err() {
            return Err(SetRecorderError::Taken(recorder));
        }
        *held = Slot::new(recorder);
        drop(held);
        Ok(RecoveryHandle { slot: other })
    }
}

/// Calls a recorder in its slot. Each call holds the slot's lock until it returns.
///
/// After the recorder was taken out a call does nothing.
#[derive(Drop)]
pub struct SlotRecorder<R> {
    slot: SharedSlot<R>,
}

impl<R: Recorder> SlotRecorder<R> {
    ghost use Rattle.metrics_shared.specs.Slot.{CallsSlot};

    /// Calls `f` on the recorder under the lock, and returns its result.
    ///
    /// Returns `None` after the recorder was taken out, and doesn't call `f`. An `f` that calls this slot again waits for ever.
    pub fn with<W: Wait, V, F: FnOnce(&mut R) -> V + Drop>(&self, rt: &W, f: F) -> Option<V>
        requires { F.IsAlwaysCallable f }
        ensures { (old : Option R) × (new : Option R) × CallsSlot old new (result ≡ None)
            (λ old new. MatchOption result ⊥ (λ v. FnOnceReturnsAtMut F.FnOnce f old v new)) }
    {
        self.slot.lock(rt).with(f)
    }

    /// Calls `Recorder::describe`. Returns 0 after the recorder was taken out.
    pub fn describe<W: Wait>(
        &self,
        rt: &W,
        alloc: Global,
        kind: MetricKind,
        name: &KeyName,
        unit: Option<Unit>,
        text: &str,
    ) -> Result<usize, Refused>
        ensures { (old : Option R) × (new : Option R) × CallsSlot old new (result ≡ Ok 0)
            (λ old new. KeepsTargets (R.meaning old) (R.meaning new)
            × Describes (R.meaning old) (R.meaning new) kind name.now unit text.now result) }
    {
        self.slot.lock(rt).describe(alloc, kind, name, unit, text)
    }

    /// Calls `Recorder::register`. Returns the empty list after the recorder was taken out.
    pub fn register<W: Wait>(
        &self,
        rt: &W,
        alloc: Global,
        kind: MetricKind,
        key: &Key,
    ) -> Result<Vec<Address>, Refused>
        ensures { (old : Option R) × (new : Option R)
            × CallsSlot old new (result_map_both (λ v. v.items) (λ e. e) result ≡ Ok [])
            (λ old new. KeepsTargets (R.meaning old) (R.meaning new)
            × Registers (R.meaning old) (R.meaning new) kind key.now (result_map_both (λ v. v.items) (λ e. e) result)) }
    {
        self.slot.lock(rt).register(alloc, kind, key)
    }

    /// Calls `Recorder::update`. Does nothing after the recorder was taken out.
    pub fn update<W: Wait>(&self, rt: &W, at: Address, by: Update) -> Result<(), Refused>
        ensures { (old : Option R) × (new : Option R) × CallsSlot old new (result ≡ Ok tt)
            (λ old new. KeepsTargets (R.meaning old) (R.meaning new)
            × Updates (R.meaning old) (R.meaning new) at by result) }
    {
        self.slot.lock(rt).update(at, by)
    }
}

/// Takes a recorder out of its slot.
#[derive(Drop)]
pub struct RecoveryHandle<R> {
    slot: SharedSlot<R>,
}

impl<R: Recorder> RecoveryHandle<R> {
    /// Returns the recorder. Fails with `Gone` if the slot is empty.
    pub fn into_inner<W: Wait>(self, rt: &W) -> Result<R, Error>
        ensures { IfErr result (λ e. e ≡ Gone) }
    {
        self.slot.lock(rt).take().ok_or(Error::Gone)
    }
}
