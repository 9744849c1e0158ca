//! When a thread makes its changes, beside one that reads, and for how long it does.

use std::process::Abort;
use std::rt::Clock;
use std::time::Instant;

/// When the time of some threads is up. On a busy machine they make fewer changes until then.
#[derive(Clone, Copy)]
pub struct Limit {
    start: Instant,
    seconds: u64,
}

impl Limit {
    /// The time begins. A test should take less than ten seconds.
    pub fn new<R: Abort + Clock>(rt: &R, seconds: u64) -> Limit {
        Limit {
            start: Instant::now(rt).expect(rt, "no clock"),
            seconds,
        }
    }

    /// Returns whether the time is up.
    pub fn is_over<R: Abort + Clock>(self, rt: &R) -> bool {
        self.start.elapsed(rt).expect(rt, "no clock").as_secs() >= self.seconds
    }
}

/// How often the writer looks at most whether its next change is due, for each reading or change.
pub const LOOKS: u64 = 100_000;

/// When the next change is due: two readings after the last one, at another moment of a reading each time.
#[derive(Drop)]
pub struct Turns {
    wanted: u64,
    looks: u64,
    delay: u64,
    waited: u64,
}

impl Turns {
    /// The first change is due at once.
    pub fn new() -> Turns {
        Turns {
            wanted: 0,
            looks: 0,
            delay: 0,
            waited: 0,
        }
    }

    /// Returns whether the next change is due, once so many readings have ended.
    pub fn is_due(&mut self, read: u64) -> bool {
        if read < self.wanted {
            self.looks = self.looks.wrapping_add(1);
            return false;
        }
        self.waited = self.waited.wrapping_add(1);
        self.waited > self.delay
    }

    /// Notes that a change was made when so many readings had ended.
    pub fn made(&mut self, read: u64) {
        self.wanted = read.saturating_add(2);
        self.delay = self.delay.wrapping_add(97) % self.looks.max(1);
        (self.looks, self.waited) = (0, 0);
    }
}
