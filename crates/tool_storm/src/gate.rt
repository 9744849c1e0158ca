//! The gate that lets workers begin.
use std::sync::Wait;

/// What each worker of a storm passes before its first push.
pub trait Gate {
    /// Returns whether this worker, by its number from 0, may begin. May wait before it returns.
    fn pass<R: Wait>(&self, rt: &R, worker: usize) -> bool;
}
