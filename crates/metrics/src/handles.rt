//! Addresses of series, updates, and typed handles.
ghost use Rattle.std.specs.Prelude.{◌≡◌, ◌<◌, [], true};
ghost use Rattle.metrics.specs.declared.handles.Update.TheVariants.{Increment, Absolute, Add, Subtract, Set, Record};
ghost use Rattle.metrics.specs.Book.{kind_of};
ghost use Rattle.metrics.specs.Cells.{count_with, level_with};
ghost use Rattle.metrics.specs.Meaning.{KeepsTargets};
ghost use Rattle.metrics.specs.Answering.{AllHeld, places, UpdatesAll, UpdatesHandle, holds_all};

use crate::recorder::Recorder;
use metrics_names::{Items, MetricKind, Refused};
use std::alloc::Global;
use std::marker::Model;

/// The place of a series: the number of its book, and its place there in order of first registration.
#[derive(Clone, Copy, Debug, PartialEq, Eq, PartialOrd, Ord, Hash)]
pub struct Address {
    pub book: usize,
    pub series: usize,
}

/// A change of a series' value.
///
/// `Increment` and `Absolute` are for counters, `Add`, `Subtract` and `Set` for gauges, `Record` for
/// histograms.
#[derive(Clone, Copy, Debug, PartialEq, Eq)]
pub enum Update {
    /// Adds, modulo 2^64.
    Increment(u64),
    /// Keeps the greater of the value and this one.
    Absolute(u64),
    /// Adds, and saturates at the ends of `i64`.
    Add(i64),
    /// Subtracts, and saturates at the ends of `i64`.
    Subtract(i64),
    /// Replaces the value.
    Set(i64),
    /// Adds a sample.
    Record(i64),
}

impl Update {
    /// Returns the kind of series that the update is for.
    pub fn kind(self) -> MetricKind
        ensures { result ≡ kind_of self }
    {
        match self {
            Update::Increment(_) | Update::Absolute(_) => MetricKind::Counter,
            Update::Add(_) | Update::Subtract(_) | Update::Set(_) => MetricKind::Gauge,
            Update::Record(_) => MetricKind::Histogram,
        }
    }

    /// Returns what the update makes of a count. One of another kind leaves it as it is.
    pub fn count_after(self, count: u64) -> u64
        ensures { result ≡ count_with self count }
    {
        match self {
            Update::Increment(more) => count.wrapping_add(more),
            Update::Absolute(least) => count.max(least),
            _ => count,
        }
    }

    /// Returns what the update makes of a gauge's value. One of another kind leaves it as it is.
    pub fn level_after(self, level: i64) -> i64
        ensures { result ≡ level_with self level }
    {
        match self {
            Update::Add(more) => level.saturating_add(more),
            Update::Subtract(less) => level.saturating_sub(less),
            Update::Set(to) => to,
            _ => level,
        }
    }
}

/// Updates the series at each address, in order. The addresses are known to be held.
fn update_held<R: Recorder>(on: &mut R, found: &[Address], by: Update) -> Result<usize, Refused>
    requires { AllHeld (kind_of by) found.now (R.meaning on.old).contents }
    ensures keeps { KeepsTargets (R.meaning on.old) (R.meaning on.new) }
    ensures updates { UpdatesAll (R.meaning on.old) (R.meaning on.new) (places found.now) by result }
{
    for (i, at) in found.iter().enumerate() {
        match on.update(*at, by) {
            Ok(()) => {}
            Err(refused) => return Err(refused.after(i)),
        }
    }
    Ok(found.len())
}

/// Whether a series of the kind is at each address.
fn are_held<R: Recorder>(on: &R, kind: MetricKind, found: &[Address]) -> bool
    ensures { result ≡ holds_all kind found.now (R.meaning on.now).contents }
{
    for at in found {
        if !on.holds(kind, *at) {
            return false;
        }
    }
    true
}

/// Updates the series at each address, in order, if each address has one of the update's kind.
///
/// Returns how many series it updated.
/// Fails with `NoSuchAddress` if some address has no series of the update's kind, and then changes nothing.
/// Only `Record` can run out of memory. Then `acted` says how many series have the sample.
pub fn update_all<R: Recorder>(on: &mut R, found: &[Address], by: Update) -> Result<usize, Refused>
    ensures keeps { KeepsTargets (R.meaning on.old) (R.meaning on.new) }
    ensures updates { UpdatesHandle (R.meaning on.old) (R.meaning on.new) found.now by result }
{
    if let [only] = found {
        on.update(*only, by)?;
        return Ok(1);
    }
    if are_held(on, by.kind(), found) {
        update_held(on, found, by)
    } else {
        Err(Refused::NoSuchAddress)
    }
}

/// A handle of a counter: the addresses that a register call returned.
#[derive(Clone, Debug, PartialEq, Eq, Drop)]
pub struct Counter {
    addresses: Items<Address>,
}

impl Model for Counter {
    ghost use Rattle.std.specs.Prelude.{List};
    ghost use Rattle.metrics.specs.declared.handles.Address.{Address};

    ghost Value = { List Address };

    ghost view = { λ a. a.addresses };

    ghost inverse = { λ as'. record { addresses = as' } };
}

impl From<Vec<Address>> for Counter {
    ghost from_gives = { λ v h. h ≡ v.items };

    fn from(addresses: Vec<Address>) -> Counter {
        Counter {
            addresses: Items::from(addresses),
        }
    }
}

impl Counter {
    /// Makes a handle of no series: each call updates none.
    pub fn noop(alloc: Global) -> Counter
        ensures { result ≡ [] }
    {
        Counter {
            addresses: Items::from(Vec::new(alloc)),
        }
    }

    /// Returns the addresses of the series.
    pub fn addresses(&self) -> &[Address]
        ensures { result.now ≡ self.now }
    {
        self.addresses.as_slice()
    }

    /// Adds, modulo 2^64.
    ///
    /// A handle is its addresses: on another recorder than that of its registration it updates what is there. Returns how many
    /// series it updated.
    /// Fails with `NoSuchAddress` if some address has no counter, and then changes nothing.
    pub fn increment<R: Recorder>(&self, on: &mut R, n: u64) -> Result<usize, Refused>
        ensures keeps { KeepsTargets (R.meaning on.old) (R.meaning on.new) }
        ensures updates { UpdatesHandle (R.meaning on.old) (R.meaning on.new) self.now (Increment n) result }
    {
        update_all(on, self.addresses(), Update::Increment(n))
    }

    /// Raises the count to the value, if it is below that.
    ///
    /// A handle is its addresses: on another recorder than that of its registration it updates what is there. Returns how many
    /// series it updated.
    /// Fails with `NoSuchAddress` if some address has no counter, and then changes nothing.
    pub fn absolute<R: Recorder>(&self, on: &mut R, n: u64) -> Result<usize, Refused>
        ensures keeps { KeepsTargets (R.meaning on.old) (R.meaning on.new) }
        ensures updates { UpdatesHandle (R.meaning on.old) (R.meaning on.new) self.now (Absolute n) result }
    {
        update_all(on, self.addresses(), Update::Absolute(n))
    }
}

/// A handle of a gauge: the addresses that a register call returned.
#[derive(Clone, Debug, PartialEq, Eq, Drop)]
pub struct Gauge {
    addresses: Items<Address>,
}

impl Model for Gauge {
    ghost use Rattle.std.specs.Prelude.{List};
    ghost use Rattle.metrics.specs.declared.handles.Address.{Address};

    ghost Value = { List Address };

    ghost view = { λ a. a.addresses };

    ghost inverse = { λ as'. record { addresses = as' } };
}

impl From<Vec<Address>> for Gauge {
    ghost from_gives = { λ v h. h ≡ v.items };

    fn from(addresses: Vec<Address>) -> Gauge {
        Gauge {
            addresses: Items::from(addresses),
        }
    }
}

impl Gauge {
    /// Makes a handle of no series: each call updates none.
    pub fn noop(alloc: Global) -> Gauge
        ensures { result ≡ [] }
    {
        Gauge {
            addresses: Items::from(Vec::new(alloc)),
        }
    }

    /// Returns the addresses of the series.
    pub fn addresses(&self) -> &[Address]
        ensures { result.now ≡ self.now }
    {
        self.addresses.as_slice()
    }

    /// Adds, and saturates at the ends of `i64`.
    ///
    /// A handle is its addresses: on another recorder than that of its registration it updates what is there. Returns how many
    /// series it updated.
    /// Fails with `NoSuchAddress` if some address has no gauge, and then changes nothing.
    pub fn increment<R: Recorder>(&self, on: &mut R, n: i64) -> Result<usize, Refused>
        ensures keeps { KeepsTargets (R.meaning on.old) (R.meaning on.new) }
        ensures updates { UpdatesHandle (R.meaning on.old) (R.meaning on.new) self.now (Add n) result }
    {
        update_all(on, self.addresses(), Update::Add(n))
    }

    /// Subtracts, and saturates at the ends of `i64`.
    ///
    /// A handle is its addresses: on another recorder than that of its registration it updates what is there. Returns how many
    /// series it updated.
    /// Fails with `NoSuchAddress` if some address has no gauge, and then changes nothing.
    pub fn decrement<R: Recorder>(&self, on: &mut R, n: i64) -> Result<usize, Refused>
        ensures keeps { KeepsTargets (R.meaning on.old) (R.meaning on.new) }
        ensures updates { UpdatesHandle (R.meaning on.old) (R.meaning on.new) self.now (Subtract n) result }
    {
        update_all(on, self.addresses(), Update::Subtract(n))
    }

    /// Replaces the value.
    ///
    /// A handle is its addresses: on another recorder than that of its registration it updates what is there. Returns how many
    /// series it updated.
    /// Fails with `NoSuchAddress` if some address has no gauge, and then changes nothing.
    pub fn set<R: Recorder>(&self, on: &mut R, n: i64) -> Result<usize, Refused>
        ensures keeps { KeepsTargets (R.meaning on.old) (R.meaning on.new) }
        ensures updates { UpdatesHandle (R.meaning on.old) (R.meaning on.new) self.now (Set n) result }
    {
        update_all(on, self.addresses(), Update::Set(n))
    }
}

/// A handle of a histogram: the addresses that a register call returned.
#[derive(Clone, Debug, PartialEq, Eq, Drop)]
pub struct Histogram {
    addresses: Items<Address>,
}

impl Model for Histogram {
    ghost use Rattle.std.specs.Prelude.{List};
    ghost use Rattle.metrics.specs.declared.handles.Address.{Address};

    ghost Value = { List Address };

    ghost view = { λ a. a.addresses };

    ghost inverse = { λ as'. record { addresses = as' } };
}

impl From<Vec<Address>> for Histogram {
    ghost from_gives = { λ v h. h ≡ v.items };

    fn from(addresses: Vec<Address>) -> Histogram {
        Histogram {
            addresses: Items::from(addresses),
        }
    }
}

impl Histogram {
    /// Makes a handle of no series: each call updates none.
    pub fn noop(alloc: Global) -> Histogram
        ensures { result ≡ [] }
    {
        Histogram {
            addresses: Items::from(Vec::new(alloc)),
        }
    }

    /// Returns the addresses of the series.
    pub fn addresses(&self) -> &[Address]
        ensures { result.now ≡ self.now }
    {
        self.addresses.as_slice()
    }

    /// Adds a sample.
    ///
    /// A handle is its addresses: on another recorder than that of its registration it updates what is there. Returns how many
    /// series it updated.
    /// When out of memory `acted` says how many series have the sample.
    /// Fails with `NoSuchAddress` if some address has no histogram, and then changes nothing.
    pub fn record<R: Recorder>(&self, on: &mut R, sample: i64) -> Result<usize, Refused>
        ensures keeps { KeepsTargets (R.meaning on.old) (R.meaning on.new) }
        ensures updates { UpdatesHandle (R.meaning on.old) (R.meaning on.new) self.now (Record sample) result }
    {
        update_all(on, self.addresses(), Update::Record(sample))
    }
}
