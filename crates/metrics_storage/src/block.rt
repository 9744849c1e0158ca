//! A block: 64 places of raw memory. The first of them are filled.
ghost use Rattle.std.specs.Prelude.{◌≡◌, ◌<◌, ◌≤◌, ◌==◌, [], ◌∷◌, ◌++◌, length, MatchResult, IfErr};
ghost use Rattle.std.specs.Prelude.{IsOk, OnOk, ◌↔◌};
ghost use Rattle.metrics.specs.declared.error.Error.TheVariants.{Memory as OutOfMemory};

pub use crate::places::BLOCK_SIZE;
use crate::places::{Allocation, BlockPtr, Places, allocate, deallocate};
use metrics::Error;
use std::alloc::Global;
use std::marker::Model;
use std_alloc::room::may_hold;

/// Up to 64 values, in the order of their pushes. They lie side by side.
pub struct Block<T> {
    start: BlockPtr<T>,
    len: usize,
    places: Places<T>,
    allocation: Allocation<T, Global>,
    alloc: Global,
}

impl<T> Model for Block<T> {
    ghost use Rattle.std.specs.Prelude.{List};
    ghost use Rattle.metrics_storage.specs.Block.{IsBlock};

    ghost Value = { List T };

    ghost view = { λ b. b.places.values };

    ghost invariant = { IsBlock };
}

impl<T> Block<T> {
    /// Makes an empty block. Fails with `Error::Memory` when out of memory.
    pub fn new(alloc: Global) -> Result<Self, Error>
        ensures { MatchResult result (λ block. block ≡ []) (λ e. e ≡ OutOfMemory) }
    {
        if !may_hold::<T>(BLOCK_SIZE) {
            return Err(Error::Memory);
        }
        let (start, places, allocation) = allocate(&alloc)?;
        Ok(Block {
            start,
            len: 0,
            places,
            allocation,
            alloc,
        })
    }

    /// Returns the number of values.
    pub fn len(&self) -> usize
        ensures value { result ≡ length self.now }
        ensures fits { result ≤ 64 }
    {
        self.len
    }

    /// Returns the values, in place.
    pub fn data(&self) -> &[T]
        ensures value { result.now ≡ self.now }
        ensures fits { length result.now ≤ 64 }
    {
        self.places.lend(self.start, self.len)
    }

    /// Adds a value at the end. Returns the value if the block is full.
    pub fn push(&mut self, value: T) -> Result<(), T>
        ensures variant { IsOk result ↔ (length self.old < 64) }
        ensures ok { OnOk result (self.new ≡ self.old ++ value ∷ []) }
        ensures err { IfErr result (λ back. (back ≡ value) × (self.new ≡ self.old) × (length self.old ≡ 64)) }
    {
        if self.len == BLOCK_SIZE {
            return Err(value);
        }
        self.places.push(self.start, self.len, value);
        self.len += 1;
        Ok(())
    }

    /// Drops each value, the last first.
    fn clear(&mut self)
    where
        T: Drop,
        ensures { self.new ≡ [] }
    {
        while 0 < self.len {
            self.len -= 1;
            drop(self.places.take_last(self.start, self.len));
        }
    }

    /// Ends an empty block. `T` need not be `Drop`.
    fn free(self)
        requires { self ≡ [] }
    {
        let Block {
            start,
            len: _,
            places,
            allocation,
            alloc,
        } = self;
        deallocate(&alloc, start, places, allocation);
    }
}

// The values are dropped, and then the memory goes back.
impl<T: Drop> Drop for Block<T> {
    fn drop(mut self) {
        self.clear();
        self.free();
    }
}
