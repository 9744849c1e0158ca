//! Layers that wrap a recorder one after another.
ghost use Rattle.std.specs.Prelude.{◌≡◌, None, IfOk, IfErr, OnOk, unwrap_or};
ghost use Rattle.metrics.specs.declared.error.Error.TheVariants.{Memory};

use crate::layer::Layer;
use metrics::{
    Address, Error, Key, KeyName, MetricKind, Recorder, Refused, Reset, Snapshot, Unit, Update,
};
use std::alloc::Global;

/// A recorder under layers. The layer that was pushed last sees a name first.
#[derive(Drop)]
pub struct Stack<R> {
    inner: R,
}

impl<R: Recorder> Stack<R> {
    ghost use Rattle.metrics_layers.specs.Stacks.{stacked_recorder};

    /// Makes a stack without layers over a recorder.
    pub fn new(inner: R) -> Stack<R>
        ensures meaning { ⟦<Stack<R> as Recorder>⟧.meaning result ≡ R.meaning inner }
        ensures inner { stacked_recorder result ≡ inner }
    {
        Stack { inner }
    }

    /// Wraps the stack in a layer. Returns the stack's recorder if that fails.
    pub fn push<L: Layer<R>>(self, alloc: Global, layer: L) -> Result<Stack<L::Output>, (Error, R)>
        ensures made { IfOk result (λ s. ⟦<Stack<L::Output> as Recorder>⟧.meaning s
            ≡ L.over layer (⟦<Stack<R> as Recorder>⟧.meaning self)) }
        ensures faultless { OnOk result (L.fault layer ≡ None) }
        ensures refused { IfErr result (λ e.
            (e.0 ≡ unwrap_or (L.fault layer) Memory) × (e.1 ≡ stacked_recorder self)) }
    {
        match layer.layer(alloc, self.inner) {
            Ok(inner) => Ok(Stack::new(inner)),
            Err(refused) => Err(refused),
        }
    }
}

impl<R: Recorder> Recorder for Stack<R> {
    ghost meaning = { λ s. R.meaning s.inner };

    fn books(&self) -> usize {
        self.inner.books()
    }

    fn describe(
        &mut self,
        alloc: Global,
        kind: MetricKind,
        name: &KeyName,
        unit: Option<Unit>,
        text: &str,
    ) -> Result<usize, Refused> {
        self.inner.describe(alloc, kind, name, unit, text)
    }

    fn register(
        &mut self,
        alloc: Global,
        kind: MetricKind,
        key: &Key,
    ) -> Result<Vec<Address>, Refused> {
        self.inner.register(alloc, kind, key)
    }

    fn holds(&self, kind: MetricKind, at: Address) -> bool {
        self.inner.holds(kind, at)
    }

    fn update(&mut self, at: Address, by: Update) -> Result<(), Refused> {
        self.inner.update(at, by)
    }

    fn snapshot_with(
        &mut self,
        alloc: Global,
        book: usize,
        reset: Reset,
    ) -> Result<Snapshot, Refused> {
        self.inner.snapshot_with(alloc, book, reset)
    }
}
