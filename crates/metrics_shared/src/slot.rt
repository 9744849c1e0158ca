//! A place for a recorder, from which it can be taken.
ghost use Rattle.std.specs.Prelude.{◌≡◌, [], None, Some, Ok, MatchOption};
ghost use Rattle.std.specs.Fn.{FnOnceReturnsAtMut};
ghost use Rattle.std.specs.Result.{result_map_both};
ghost use Rattle.metrics.specs.Meaning.{KeepsTargets, Describes, Registers, Updates};
ghost use Rattle.metrics_shared.specs.Slot.{CallsSlot};

use metrics::{Address, Key, KeyName, MetricKind, Recorder, Refused, Unit, Update};
use std::alloc::Global;
use std::marker::Model;

/// A recorder, until it is taken out. An empty slot accepts each call and does nothing.
#[derive(Drop)]
pub struct Slot<R> {
    recorder: Option<R>,
}

impl<R> Model for Slot<R> {
    ghost use Rattle.std.specs.Prelude.{Option};

    ghost Value = { Option R };

    ghost view = { λ s. s.recorder };
}

impl<R: Recorder> Slot<R> {
    /// Makes a slot with a recorder in it.
    pub fn new(recorder: R) -> Slot<R>
        ensures { result ≡ Some recorder }
    {
        Slot {
            recorder: Some(recorder),
        }
    }

    /// Makes a slot without a recorder.
    pub(crate) fn empty() -> Slot<R>
        ensures { result ≡ None }
    {
        Slot { recorder: None }
    }

    /// Takes the recorder out, if it is there. The slot is empty afterwards.
    pub fn take(&mut self) -> Option<R>
        ensures taken { result ≡ self.old }
        ensures emptied { self.new ≡ None }
    {
        self.recorder.take()
    }

    /// Calls `f` on the recorder, and returns its result. An empty slot returns `None`, and doesn't call `f`.
    pub fn with<V, F: FnOnce(&mut R) -> V + Drop>(&mut self, f: F) -> Option<V>
        requires { F.IsAlwaysCallable f }
        ensures { CallsSlot self.old self.new (result ≡ None)
            (λ old new. MatchOption result ⊥ (λ v. FnOnceReturnsAtMut F.FnOnce f old v new)) }
    {
        let Some(recorder) = &mut self.recorder else {
            return None;
        };
        Some(f(recorder))
    }

    /// Calls `Recorder::describe`. An empty slot returns 0.
    pub fn describe(
        &mut self,
        alloc: Global,
        kind: MetricKind,
        name: &KeyName,
        unit: Option<Unit>,
        text: &str,
    ) -> Result<usize, Refused>
        ensures { CallsSlot self.old self.new (result ≡ Ok 0) (λ old new. KeepsTargets (R.meaning old) (R.meaning new)
            × Describes (R.meaning old) (R.meaning new) kind name.now unit text.now result) }
    {
        match &mut self.recorder {
            Some(recorder) => recorder.describe(alloc, kind, name, unit, text),
            None => Ok(0),
        }
    }

    /// Calls `Recorder::register`. An empty slot returns the empty list.
    pub fn register(
        &mut self,
        alloc: Global,
        kind: MetricKind,
        key: &Key,
    ) -> Result<Vec<Address>, Refused>
        ensures { CallsSlot self.old self.new (result_map_both (λ v. v.items) (λ e. e) result ≡ Ok [])
            (λ old new. KeepsTargets (R.meaning old) (R.meaning new)
            × Registers (R.meaning old) (R.meaning new) kind key.now (result_map_both (λ v. v.items) (λ e. e) result)) }
    {
        match &mut self.recorder {
            Some(recorder) => recorder.register(alloc, kind, key),
            None => Ok(Vec::new(alloc)),
        }
    }

    /// Calls `Recorder::update`. An empty slot returns `Ok` and does nothing.
    pub fn update(&mut self, at: Address, by: Update) -> Result<(), Refused>
        ensures { CallsSlot self.old self.new (result ≡ Ok tt) (λ old new. KeepsTargets (R.meaning old) (R.meaning new)
            × Updates (R.meaning old) (R.meaning new) at by result) }
    {
        match &mut self.recorder {
            Some(recorder) => recorder.update(at, by),
            None => Ok(()),
        }
    }
}
