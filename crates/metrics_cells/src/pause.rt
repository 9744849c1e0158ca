//! Pauses after lost races.

use std::cell::Cell;
use std::hint;

/// How many spin hints the first pause has.
const FIRST: u32 = 32;

/// How many the longest has.
const LONGEST: u32 = 128;

/// Pauses for a loop that tries again because another thread was first.
///
/// The first pause has 32 spin hints, each later one twice as many, up to 128: a few microseconds at most. Threads that try
/// again at once slow each other down, since each try moves the word's cache line to another core.
#[derive(Drop)]
pub struct Pause {
    hints: Cell<u32>,
}

impl Pause {
    /// Returns pauses of which none was made.
    pub fn new() -> Pause {
        Pause {
            hints: Cell::new(FIRST),
        }
    }

    /// Makes the next pause.
    pub fn after_lost_race(&self) {
        let hints = self.hints.get();
        for _ in 0..hints {
            hint::spin_loop();
        }
        self.hints.set(hints.saturating_mul(2).min(LONGEST));
    }
}
