//! The `Recorder` trait, and the recorders that keep nothing of their own.
ghost use Rattle.std.specs.Prelude.{◌≡◌, ◌≤◌, length};
ghost use Rattle.std.specs.Result.{result_map_both};
ghost use Rattle.metrics.specs.Meaning.{Meaning, KeepsTargets, Describes, Registers, Updates, Snapshots, holds_at, nothing};

use crate::debugging::{Reset, Snapshot};
use crate::handles::{Address, Counter, Gauge, Histogram, Update};
use metrics_names::{Key, KeyName, MetricKind, Refused, Unit};
use std::alloc::Global;

/// Accepts names and updates, and reports what it kept of them.
///
/// A recorder has books, numbered from 0, each a list of series. A name of some kind has targets: the books
/// that a metric of that name goes to, each with its name there. No call changes the number of books or the
/// targets of a name.
pub trait Recorder: Drop {
    /// The contents of the books, and the targets of each kind and name.
    ghost meaning: { Self → Meaning };

    /// Returns the number of books.
    fn books(&self) -> usize
        ensures count { result ≡ length (meaning self.now).contents }
        ensures most { result ≤ 65536 };

    /// Describes a name in each of its targets, for all labels, and returns the number of targets.
    ///
    /// The text replaces the earlier one; the unit does only if there is one.
    /// Fails only when out of memory.
    fn describe(
        &mut self,
        alloc: Global,
        kind: MetricKind,
        name: &KeyName,
        unit: Option<Unit>,
        text: &str,
    ) -> Result<usize, Refused>
        ensures keeps { KeepsTargets (meaning self.old) (meaning self.new) }
        ensures describes { Describes (meaning self.old) (meaning self.new) kind name.now unit text.now result };

    /// Registers a key in each of its name's targets, and returns the address in each of them, in order.
    ///
    /// A key that a book already has keeps its place and its value.
    /// Fails only when out of memory. Then `acted` also counts targets that had the key already, or whose address could
    /// not be kept afterwards.
    fn register(
        &mut self,
        alloc: Global,
        kind: MetricKind,
        key: &Key,
    ) -> Result<Vec<Address>, Refused>
        ensures keeps { KeepsTargets (meaning self.old) (meaning self.new) }
        ensures registers { Registers (meaning self.old) (meaning self.new) kind key.now
            (result_map_both (λ v. v.items) (λ e. e) result) };

    /// Returns whether a series of that kind is at the address.
    fn holds(&self, kind: MetricKind, at: Address) -> bool
        ensures { result ≡ holds_at kind at (meaning self.now).contents };

    /// Updates the series at the address.
    ///
    /// Fails with `NoSuchAddress` if no series of the update's kind is there.
    /// Only `Record` can run out of memory.
    fn update(&mut self, at: Address, by: Update) -> Result<(), Refused>
        ensures keeps { KeepsTargets (meaning self.old) (meaning self.new) }
        ensures updates { Updates (meaning self.old) (meaning self.new) at by result };

    /// Returns the rows of a book, and then resets the series of some kinds: counters and gauges to 0, histograms to no
    /// samples.
    ///
    /// Fails with `NoSuchBook` if the number is not below the number of books.
    /// Changes nothing when out of memory.
    fn snapshot_with(
        &mut self,
        alloc: Global,
        book: usize,
        reset: Reset,
    ) -> Result<Snapshot, Refused>
        ensures keeps { KeepsTargets (meaning self.old) (meaning self.new) }
        ensures snapshots { Snapshots (meaning self.old) (meaning self.new) book reset result };

    /// Returns the rows of a book, and then resets the series of all kinds.
    ///
    /// Fails as `snapshot_with`.
    fn snapshot(&mut self, alloc: Global, book: usize) -> Result<Snapshot, Refused>
        ensures keeps { KeepsTargets (meaning self.old) (meaning self.new) }
        ensures snapshots { Snapshots (meaning self.old) (meaning self.new) book Reset.All result }
    {
        self.snapshot_with(alloc, book, Reset::All)
    }

    /// Describes a counter, as `describe`.
    fn describe_counter(
        &mut self,
        alloc: Global,
        name: &KeyName,
        unit: Option<Unit>,
        text: &str,
    ) -> Result<usize, Refused>
        ensures keeps { KeepsTargets (meaning self.old) (meaning self.new) }
        ensures describes { Describes (meaning self.old) (meaning self.new) MetricKind.Counter name.now unit text.now result }
    {
        self.describe(alloc, MetricKind::Counter, name, unit, text)
    }

    /// Describes a gauge, as `describe`.
    fn describe_gauge(
        &mut self,
        alloc: Global,
        name: &KeyName,
        unit: Option<Unit>,
        text: &str,
    ) -> Result<usize, Refused>
        ensures keeps { KeepsTargets (meaning self.old) (meaning self.new) }
        ensures describes { Describes (meaning self.old) (meaning self.new) MetricKind.Gauge name.now unit text.now result }
    {
        self.describe(alloc, MetricKind::Gauge, name, unit, text)
    }

    /// Describes a histogram, as `describe`.
    fn describe_histogram(
        &mut self,
        alloc: Global,
        name: &KeyName,
        unit: Option<Unit>,
        text: &str,
    ) -> Result<usize, Refused>
        ensures keeps { KeepsTargets (meaning self.old) (meaning self.new) }
        ensures describes { Describes (meaning self.old) (meaning self.new) MetricKind.Histogram name.now unit text.now result }
    {
        self.describe(alloc, MetricKind::Histogram, name, unit, text)
    }

    /// Registers a counter, as `register`, and returns its handle.
    fn register_counter(&mut self, alloc: Global, key: &Key) -> Result<Counter, Refused>
        ensures keeps { KeepsTargets (meaning self.old) (meaning self.new) }
        ensures registers { Registers (meaning self.old) (meaning self.new) MetricKind.Counter key.now result }
    {
        match self.register(alloc, MetricKind::Counter, key) {
            Ok(found) => Ok(Counter::from(found)),
            Err(refused) => Err(refused),
        }
    }

    /// Registers a gauge, as `register`, and returns its handle.
    fn register_gauge(&mut self, alloc: Global, key: &Key) -> Result<Gauge, Refused>
        ensures keeps { KeepsTargets (meaning self.old) (meaning self.new) }
        ensures registers { Registers (meaning self.old) (meaning self.new) MetricKind.Gauge key.now result }
    {
        match self.register(alloc, MetricKind::Gauge, key) {
            Ok(found) => Ok(Gauge::from(found)),
            Err(refused) => Err(refused),
        }
    }

    /// Registers a histogram, as `register`, and returns its handle.
    fn register_histogram(&mut self, alloc: Global, key: &Key) -> Result<Histogram, Refused>
        ensures keeps { KeepsTargets (meaning self.old) (meaning self.new) }
        ensures registers { Registers (meaning self.old) (meaning self.new) MetricKind.Histogram key.now result }
    {
        match self.register(alloc, MetricKind::Histogram, key) {
            Ok(found) => Ok(Histogram::from(found)),
            Err(refused) => Err(refused),
        }
    }
}

/// Any recorder behind a pointer, so that one tree can have recorders of several types.
#[derive(Drop)]
pub struct Boxed(pub Box<dyn Recorder + Send>);

impl Recorder for Boxed {
    ghost meaning = { λ b. (Recorder-box b.0).meaning b.0.value };

    fn books(&self) -> usize {
        self.0.books()
    }

    fn describe(
        &mut self,
        alloc: Global,
        kind: MetricKind,
        name: &KeyName,
        unit: Option<Unit>,
        text: &str,
    ) -> Result<usize, Refused> {
        self.0.describe(alloc, kind, name, unit, text)
    }

    fn register(
        &mut self,
        alloc: Global,
        kind: MetricKind,
        key: &Key,
    ) -> Result<Vec<Address>, Refused> {
        self.0.register(alloc, kind, key)
    }

    fn holds(&self, kind: MetricKind, at: Address) -> bool {
        self.0.holds(kind, at)
    }

    fn update(&mut self, at: Address, by: Update) -> Result<(), Refused> {
        self.0.update(at, by)
    }

    fn snapshot_with(
        &mut self,
        alloc: Global,
        book: usize,
        reset: Reset,
    ) -> Result<Snapshot, Refused> {
        self.0.snapshot_with(alloc, book, reset)
    }
}

/// Passes each call to the recorder that it borrows, so that a tree can be built over a recorder that somebody else owns.
impl<R: Recorder> Recorder for &mut R {
    ghost meaning = { λ r. R.meaning r.now };

    fn books(&self) -> usize {
        (**self).books()
    }

    fn describe(
        &mut self,
        alloc: Global,
        kind: MetricKind,
        name: &KeyName,
        unit: Option<Unit>,
        text: &str,
    ) -> Result<usize, Refused> {
        (**self).describe(alloc, kind, name, unit, text)
    }

    fn register(
        &mut self,
        alloc: Global,
        kind: MetricKind,
        key: &Key,
    ) -> Result<Vec<Address>, Refused> {
        (**self).register(alloc, kind, key)
    }

    fn holds(&self, kind: MetricKind, at: Address) -> bool {
        (**self).holds(kind, at)
    }

    fn update(&mut self, at: Address, by: Update) -> Result<(), Refused> {
        (**self).update(at, by)
    }

    fn snapshot_with(
        &mut self,
        alloc: Global,
        book: usize,
        reset: Reset,
    ) -> Result<Snapshot, Refused> {
        (**self).snapshot_with(alloc, book, reset)
    }
}

/// Accepts each call and keeps nothing: it has neither books nor targets.
#[derive(Clone, Copy, Debug, Default)]
pub struct NoopRecorder;

impl Recorder for NoopRecorder {
    ghost meaning = { λ _. nothing };

    fn books(&self) -> usize {
        0
    }

    fn describe(
        &mut self,
        _alloc: Global,
        _kind: MetricKind,
        _name: &KeyName,
        _unit: Option<Unit>,
        _text: &str,
    ) -> Result<usize, Refused> {
        Ok(0)
    }

    fn register(
        &mut self,
        alloc: Global,
        _kind: MetricKind,
        _key: &Key,
    ) -> Result<Vec<Address>, Refused> {
        Ok(Vec::new(alloc))
    }

    fn holds(&self, _kind: MetricKind, _at: Address) -> bool {
        false
    }

    fn update(&mut self, _at: Address, _by: Update) -> Result<(), Refused> {
        Err(Refused::NoSuchAddress)
    }

    fn snapshot_with(
        &mut self,
        _alloc: Global,
        _book: usize,
        _reset: Reset,
    ) -> Result<Snapshot, Refused> {
        Err(Refused::NoSuchBook)
    }
}
