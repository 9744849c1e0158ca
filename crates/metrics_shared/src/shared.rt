//! A recorder under a lock.
//!
//! A call's contract is the recorder's own, of what it found under the lock and what it left there. No contract says which
//! recorder it found: other threads may call it at any time.
ghost use Rattle.std.specs.Fn.{FnOnceReturnsAtMut};
ghost use Rattle.std.specs.Result.{result_map_both};
ghost use Rattle.metrics.specs.Meaning.{KeepsTargets, Describes, Registers, Updates, Snapshots};

use metrics::{
    Address, Key, KeyName, MetricKind, Recorder, Refused, Reset, Snapshot, Unit, Update,
};
use std::alloc::Global;
use std::sync::{Mutex, Wait};

/// A recorder that any thread may call. Each call holds the lock until it returns.
///
/// A book keeps each series from its first registration on: a counter with one label takes some 375 bytes. So a book behind a
/// lock is for a fixed set of names; a collector is also for those that come and go.
#[derive(Drop)]
pub struct Shared<R> {
    recorder: Mutex<R>,
}

impl<R: Recorder> Shared<R> {
    /// Puts a recorder under a lock, without allocating.
    pub fn new(recorder: R) -> Shared<R> {
        Shared {
            recorder: Mutex::new(recorder),
        }
    }

    /// Calls `f` on the recorder under the lock, and returns its result. An `f` that calls this recorder again waits for ever.
    pub fn with<W: Wait, V, F: FnOnce(&mut R) -> V>(&self, rt: &W, f: F) -> V
        requires { F.IsAlwaysCallable f }
        ensures { (old : R) × (new : R) × FnOnceReturnsAtMut F.FnOnce f old result new }
    {
        let mut recorder = self.recorder.lock(rt);
        f(&mut *recorder)
    }

    /// Calls `Recorder::describe` under the lock.
    pub fn describe<W: Wait>(
        &self,
        rt: &W,
        alloc: Global,
        kind: MetricKind,
        name: &KeyName,
        unit: Option<Unit>,
        text: &str,
    ) -> Result<usize, Refused>
        ensures { (old : R) × (new : R) × KeepsTargets (R.meaning old) (R.meaning new)
            × Describes (R.meaning old) (R.meaning new) kind name.now unit text.now result }
    {
        self.recorder
            .lock(rt)
            .describe(alloc, kind, name, unit, text)
    }

    /// Calls `Recorder::register` under the lock.
    pub fn register<W: Wait>(
        &self,
        rt: &W,
        alloc: Global,
        kind: MetricKind,
        key: &Key,
    ) -> Result<Vec<Address>, Refused>
        ensures { (old : R) × (new : R) × KeepsTargets (R.meaning old) (R.meaning new)
            × Registers (R.meaning old) (R.meaning new) kind key.now (result_map_both (λ v. v.items) (λ e. e) result) }
    {
        self.recorder.lock(rt).register(alloc, kind, key)
    }

    /// Calls `Recorder::update` under the lock.
    pub fn update<W: Wait>(&self, rt: &W, at: Address, by: Update) -> Result<(), Refused>
        ensures { (old : R) × (new : R) × KeepsTargets (R.meaning old) (R.meaning new)
            × Updates (R.meaning old) (R.meaning new) at by result }
    {
        self.recorder.lock(rt).update(at, by)
    }

    /// Calls `Recorder::snapshot` under the lock.
    pub fn snapshot<W: Wait>(&self, rt: &W, alloc: Global, book: usize) -> Result<Snapshot, Refused>
        ensures { (old : R) × (new : R) × KeepsTargets (R.meaning old) (R.meaning new)
            × Snapshots (R.meaning old) (R.meaning new) book Reset.All result }
    {
        self.recorder.lock(rt).snapshot(alloc, book)
    }

    /// Calls `Recorder::snapshot_with` under the lock.
    pub fn snapshot_with<W: Wait>(
        &self,
        rt: &W,
        alloc: Global,
        book: usize,
        reset: Reset,
    ) -> Result<Snapshot, Refused>
        ensures { (old : R) × (new : R) × KeepsTargets (R.meaning old) (R.meaning new)
            × Snapshots (R.meaning old) (R.meaning new) book reset result }
    {
        self.recorder.lock(rt).snapshot_with(alloc, book, reset)
    }

    /// Returns the recorder.
    pub fn into_inner(self) -> R {
        self.recorder.into_inner()
    }
}
