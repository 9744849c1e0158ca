//! Epochs: how long a handle that was looked up may be kept for the next look-up.

use std::sync::atomic::{AtomicU64, Ordering};

/// The number of an epoch, modulo 2^64. It begins at 0.
#[derive(Drop)]
pub(crate) struct Epoch {
    number: AtomicU64,
}

impl Epoch {
    /// Begins with the first epoch.
    pub fn new() -> Epoch {
        Epoch {
            number: AtomicU64::new(0),
        }
    }

    /// Returns the number.
    #[inline(always)]
    pub fn number(&self) -> u64 {
        self.number.load(Ordering::SeqCst)
    }

    /// Begins the next epoch.
    pub fn end(&self) {
        self.number.fetch_add(1, Ordering::SeqCst);
    }
}
