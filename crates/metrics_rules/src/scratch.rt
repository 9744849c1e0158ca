//! Where a visit writes the names below prefixes.
use crate::named::Named;
use std::alloc::Global;

/// Where a visit writes the names below prefixes: keys, or names. It begins without memory.
///
/// It suffices for any rules, and visits reuse its memory. Threads that visit at the same time each have their own.
#[derive(Drop)]
pub struct Scratch<K> {
    pub(crate) alloc: Global,
    /// What is below the first prefix on a way.
    pub(crate) there: K,
    /// What is below the prefixes after that one, if there were some.
    pub(crate) below: Option<Box<Scratch<K>>>,
}

impl<K: Named> Scratch<K> {
    /// Makes one, without allocating.
    pub fn new(alloc: Global) -> Scratch<K> {
        Scratch {
            alloc,
            there: K::empty(alloc),
            below: None,
        }
    }

    /// Keeps what was below the prefixes after the first one, if it was used and there is memory.
    pub(crate) fn keep(&mut self, below: Scratch<K>) {
        if below.there.name().is_empty() {
            return;
        }
        if let Ok(kept) = Box::new(self.alloc, below) {
            self.below = Some(kept);
        }
    }
}
