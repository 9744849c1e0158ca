//! What is noted of a counter.
ghost use Rattle.std.specs.Prelude.{◌≡◌, ◌≤◌, ◌%◌, ◌^◌, true, Some, None, IfSome, IfNone};
ghost use Rattle.metrics_counts.specs.Counting.{IsWordOf};
ghost use Rattle.metrics_counts.specs.Noted.{is_late as late};

use crate::cell::CountCell;
use crate::watch::Watch;
use std::marker::Model;
use std::sync::Arc;

/// A counter, its count when it was looked at last, and the moment at which it was found changed.
///
/// There is no moment if no reading that succeeded has shown the count yet. Contracts see the total, and that moment.
#[derive(Drop)]
pub struct CountNote<K> {
    watch: Watch<K>,
    count: u64,
    since: Option<u64>,
}

impl<K> Model for CountNote<K> {
    ghost use Rattle.std.specs.Prelude.{◌≡◌};
    ghost use Rattle.metrics_counts.specs.Counting.{IsWordOf};
    ghost use Rattle.metrics_counts.specs.Noted.{Noted};

    ghost Value = { Noted };

    ghost view = { λ n. record { total = n.watch.seen; since = n.since } };

    ghost invariant = { λ n. IsWordOf n.watch.seen n.count };
}

/// Returns whether more than the timeout passed since a moment.
fn is_late(timeout: u64, since: Option<u64>, now: u64) -> bool
    ensures { result ≡ late timeout since now }
{
    match since {
        Some(moment) => now.saturating_sub(moment) > timeout,
        None => false,
    }
}

impl<K> CountNote<K> {
    /// Notes the count that a counter has at this moment, and returns it too.
    pub fn new(cell: Arc<CountCell<K>>, now: u64) -> (CountNote<K>, u64)
        ensures count { IsWordOf result.0.total result.1 }
        ensures since { result.0.since ≡ Some now }
    {
        let mut watch = Watch::new(cell);
        let count = watch.read();
        let note = CountNote {
            watch,
            count,
            since: Some(now),
        };
        (note, count)
    }

    /// Returns the count when it was looked at last.
    pub fn count(&self) -> u64
        ensures { IsWordOf self.now.total result }
    {
        self.count
    }

    /// Returns whether more than the timeout passed since the count was found changed.
    pub fn is_late(&self, timeout: u64, now: u64) -> bool
        ensures { result ≡ late timeout self.now.since now }
    {
        is_late(timeout, self.since, now)
    }

    /// Looks at the counter again, and returns its count. Returns `None` if that is as before, and more than the timeout passed
    /// since it was found changed.
    pub fn look(&mut self, timeout: u64, now: u64) -> Option<u64>
        ensures rises { self.old.total ≤ self.new.total }
        ensures shown { IfSome result (λ count. IsWordOf self.new.total count) }
        ensures idle { IfNone result ((self.new.total % 2 ^ 64 ≡ self.old.total % 2 ^ 64)
            × (late timeout self.old.since now ≡ true)) }
    {
        let count = self.watch.read();
        if count != self.count {
            self.count = count;
            self.since = Some(now);
            return Some(count);
        }
        if is_late(timeout, self.since, now) {
            return None;
        }
        if self.since.is_none() {
            self.since = Some(now);
        }
        Some(count)
    }

    /// Has the next look show the count, though it may be as before.
    pub fn show_again(&mut self)
        ensures { self.new ≡ record self.old { since = None } }
    {
        self.since = None;
    }
}
