//! A recorder of one of two types.

use crate::debugging::{Reset, Snapshot};
use crate::handles::{Address, Update};
use crate::recorder::Recorder;
use either::Either;
use metrics_names::{Key, KeyName, MetricKind, Refused, Unit};
use std::alloc::Global;

/// Calls the recorder that it holds. So one tree over `Either<A, C>` can have recorders of several types.
impl<A: Recorder, C: Recorder> Recorder for Either<A, C> {
    ghost use Rattle.either.specs.Either.{either};

    ghost meaning = { either A.meaning C.meaning };

    fn books(&self) -> usize {
        match self {
            Either::Left(on) => on.books(),
            Either::Right(on) => on.books(),
        }
    }

    fn describe(
        &mut self,
        alloc: Global,
        kind: MetricKind,
        name: &KeyName,
        unit: Option<Unit>,
        text: &str,
    ) -> Result<usize, Refused> {
        match self {
            Either::Left(on) => on.describe(alloc, kind, name, unit, text),
            Either::Right(on) => on.describe(alloc, kind, name, unit, text),
        }
    }

    fn register(
        &mut self,
        alloc: Global,
        kind: MetricKind,
        key: &Key,
    ) -> Result<Vec<Address>, Refused> {
        match self {
            Either::Left(on) => on.register(alloc, kind, key),
            Either::Right(on) => on.register(alloc, kind, key),
        }
    }

    fn holds(&self, kind: MetricKind, at: Address) -> bool {
        match self {
            Either::Left(on) => on.holds(kind, at),
            Either::Right(on) => on.holds(kind, at),
        }
    }

    fn update(&mut self, at: Address, by: Update) -> Result<(), Refused> {
        match self {
            Either::Left(on) => on.update(at, by),
            Either::Right(on) => on.update(at, by),
        }
    }

    fn snapshot_with(
        &mut self,
        alloc: Global,
        book: usize,
        reset: Reset,
    ) -> Result<Snapshot, Refused> {
        match self {
            Either::Left(on) => on.snapshot_with(alloc, book, reset),
            Either::Right(on) => on.snapshot_with(alloc, book, reset),
        }
    }
}
