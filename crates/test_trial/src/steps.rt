//! Steps that threads take in an order.

use std::sync::Wait;
use std::sync::atomic::{AtomicU64, Ordering};
use std::time::Duration;

/// Sleeps for about so many milliseconds.
pub fn sleep<R: Wait>(rt: &R, millis: u64) {
    AtomicU64::new(0).park_timeout(rt, 0, Duration::from_millis(millis));
}

/// Waits until the step is reached, or for some milliseconds. Whether it is reached.
pub fn is_reached<R: Wait>(rt: &R, step: &AtomicU64, wanted: u64, millis: u64) -> bool {
    for _ in 0..millis {
        if step.load(Ordering::SeqCst) >= wanted {
            return true;
        }
        sleep(rt, 1);
    }
    step.load(Ordering::SeqCst) >= wanted
}
