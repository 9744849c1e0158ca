//! A count of changes that threads share.

use std::sync::atomic::{AtomicU64, Ordering};

/// The number of changes of a value, modulo 2^64. Any thread may raise it, so no contract says what it is.
#[derive(Debug, Drop)]
pub struct AtomicGeneration(AtomicU64);

impl AtomicGeneration {
    /// Makes a generation that has counted no changes.
    pub fn new() -> AtomicGeneration {
        AtomicGeneration(AtomicU64::new(0))
    }

    /// Returns the number of changes.
    pub fn load(&self) -> u64 {
        self.0.load(Ordering::SeqCst)
    }

    /// Adds one to the number, modulo 2^64.
    pub fn raise(&self) {
        self.0.fetch_add(1, Ordering::SeqCst);
    }
}
