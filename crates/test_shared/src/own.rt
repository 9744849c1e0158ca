//! A recorder of one's own: a book that fails some calls, and that reports its end.

use metrics::{
    Address, Key, KeyName, MetricKind, Recorder, Refused, Reset, Snapshot, Unit, Update,
};
use metrics_debugging::DebuggingRecorder;
use std::alloc::Global;
use std::process::Abort;
use std::sync::Arc;
use std::sync::atomic::{AtomicU64, Ordering};

/// What a snapshot answers.
type Shown = Result<Snapshot, Refused>;

/// How many recorders have ended.
pub type Ends = Arc<AtomicU64, Global>;

/// A book that reports out of memory after it described without a unit, after it registered a histogram, and before it
/// records the sample 6. Its end is counted.
pub struct Own {
    book: DebuggingRecorder,
    ends: Ends,
}

impl Own {
    /// Returns a new book whose end is counted.
    pub fn new(rt: &impl Abort, alloc: Global, ends: &Ends) -> Own {
        Own {
            book: DebuggingRecorder::new(alloc).expect(rt, "out of memory"),
            ends: Arc::try_clone(ends).expect(rt, "too many clones"),
        }
    }
}

/// Returns the count while no recorder has ended.
pub fn no_ends(rt: &impl Abort, alloc: Global) -> Ends {
    Arc::new(alloc, AtomicU64::new(0)).expect(rt, "out of memory")
}

/// Returns how many recorders have ended.
pub fn ended(ends: &Ends) -> u64 {
    ends.load(Ordering::SeqCst)
}

impl Drop for Own {
    fn drop(self) {
        let Own { book: _, ends } = self;
        ends.fetch_add(1, Ordering::SeqCst);
    }
}

impl Recorder for Own {
    ghost meaning = { λ s. ⟦<DebuggingRecorder as Recorder>⟧.meaning s.book };

    fn books(&self) -> usize {
        self.book.books()
    }

    fn describe(
        &mut self,
        alloc: Global,
        kind: MetricKind,
        name: &KeyName,
        unit: Option<Unit>,
        text: &str,
    ) -> Result<usize, Refused> {
        match self.book.describe(alloc, kind, name, unit, text) {
            Ok(count) => {
                if unit.is_some() {
                    Ok(count)
                } else {
                    Err(Refused::Memory { acted: 1 })
                }
            }
            Err(refused) => Err(refused),
        }
    }

    fn register(
        &mut self,
        alloc: Global,
        kind: MetricKind,
        key: &Key,
    ) -> Result<Vec<Address>, Refused> {
        match self.book.register(alloc, kind, key) {
            Ok(found) => {
                if kind == MetricKind::Histogram {
                    Err(Refused::Memory { acted: 1 })
                } else {
                    Ok(found)
                }
            }
            Err(refused) => Err(refused),
        }
    }

    fn holds(&self, kind: MetricKind, at: Address) -> bool {
        self.book.holds(kind, at)
    }

    fn update(&mut self, at: Address, by: Update) -> Result<(), Refused> {
        match by {
            Update::Record(6) if self.book.holds(MetricKind::Histogram, at) => {
                Err(Refused::Memory { acted: 0 })
            }
            _ => self.book.update(at, by),
        }
    }

    fn snapshot_with(&mut self, alloc: Global, book: usize, reset: Reset) -> Shown {
        self.book.snapshot_with(alloc, book, reset)
    }
}
