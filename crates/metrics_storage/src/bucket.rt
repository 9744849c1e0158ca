//! A bucket of one owner: a list of blocks. Only the last has room.
ghost use Rattle.std.specs.Prelude.{◌≡◌, ◌==◌, ◌%◌, ◌<◌, [], ◌∷◌, ◌++◌, length, reverse, IfOk};
ghost use Rattle.std.specs.Prelude.{IfErr, OnOk, OnErr, MatchResult};
ghost use Rattle.std.specs.List.{AllZip};
ghost use Rattle.metrics.specs.Book.{chunks, blocks as bucket_order, joined_lists};
ghost use Rattle.metrics_storage.specs.Bucket.{AddsToLast, HasNoRoom, IsCalledAtEach, TakesEach, TakesInTurn};
ghost use Rattle.metrics.specs.declared.error.Error.TheVariants.{Memory as OutOfMemory};

use crate::Block;
use metrics::{Error, HistogramCell};
use std::alloc::{AllocError, Global};
use std::marker::Model;

/// Adds a value to the last block, or returns it if that has no room.
fn push_last<T>(blocks: &mut Vec<Block<T>>, value: T) -> Result<(), T>
    ensures ok { OnOk result (AddsToLast blocks.old.items value blocks.new.items) }
    ensures err { IfErr result (λ back. (back ≡ value) × HasNoRoom blocks.old.items
        × (blocks.new.items ≡ blocks.old.items)) }
{
    match blocks.last_mut() {
        Some(block) => block.push(value),
        None => Err(value),
    }
}

/// Adds an empty block at the end.
fn add_block<T: Drop>(blocks: &mut Vec<Block<T>>) -> Result<(), Error>
    ensures ok { OnOk result (blocks.new.items ≡ blocks.old.items ++ [] ∷ []) }
    ensures err { OnErr result (blocks.new.items ≡ blocks.old.items) }
{
    let block = Block::new(*blocks.allocator())?;
    blocks.push(block)?;
    Ok(())
}

/// Adds a block with one value, or returns the value when out of memory.
fn push_new<T: Drop>(blocks: &mut Vec<Block<T>>, value: T) -> Result<(), T>
    ensures ok { OnOk result (blocks.new.items ≡ blocks.old.items ++ (value ∷ []) ∷ []) }
    ensures err { IfErr result (λ back. (back ≡ value) × (blocks.new.items ≡ blocks.old.items)) }
{
    match add_block(blocks) {
        Ok(()) => push_last(blocks, value),
        Err(_) => Err(value),
    }
}

/// Shows what each block holds, the newest first.
fn show<T, F: FnMut(&[T])>(blocks: &[Block<T>], f: &mut F)
    requires { F.IsAlwaysCallable f.old }
    ensures calls { IsCalledAtEach F.FnMut f.old (reverse blocks.now) f.new }
    ensures callable { F.IsAlwaysCallable f.new }
{
    let mut rest = blocks;
    while let Some((newest, older)) = rest.split_last() {
        f(newest.data());
        rest = older;
    }
}

/// Shows what each block holds, the newest first, and no further time.
fn show_once<T, F: FnMut(&[T])>(blocks: &[Block<T>], mut f: F)
    requires { TakesInTurn F.FnMut f (reverse blocks.now) }
    ensures calls { (last : F) × IsCalledAtEach F.FnMut f (reverse blocks.now) last }
{
    let mut rest = blocks;
    while let Some((newest, older)) = rest.split_last() {
        f(newest.data());
        rest = older;
    }
}

/// Takes each block out, the newest first, and shows what it held before dropping it.
fn take_out<T: Drop, F: FnMut(&[T])>(blocks: &mut Vec<Block<T>>, f: &mut F)
    requires { F.IsAlwaysCallable f.old }
    ensures empty { blocks.new.items ≡ [] }
    ensures calls { IsCalledAtEach F.FnMut f.old (reverse blocks.old.items) f.new }
    ensures callable { F.IsAlwaysCallable f.new }
{
    while let Some(block) = blocks.pop() {
        f(block.data());
    }
}

/// Takes each block out, the newest first, and shows what it held exactly once, before dropping it.
fn take_out_once<T: Drop, F: FnMut(&[T])>(blocks: &mut Vec<Block<T>>, mut f: F)
    requires { TakesInTurn F.FnMut f (reverse blocks.old.items) }
    ensures empty { blocks.new.items ≡ [] }
    ensures calls { (last : F) × IsCalledAtEach F.FnMut f (reverse blocks.old.items) last }
{
    while let Some(block) = blocks.pop() {
        f(block.data());
    }
}

/// A clone of each value: what each block holds, the newest block first.
fn copied<T: Clone + Drop>(blocks: &[Block<T>], alloc: Global) -> Result<Vec<T>, AllocError>
    ensures clones { IfOk result (λ v. AllZip T.is_clone (joined_lists (reverse blocks.now)) v.items) }
    ensures refused { OnErr result (0 < length blocks.now) }
{
    let mut values = Vec::new(alloc);
    let mut rest = blocks;
    while let Some((newest, older)) = rest.split_last() {
        values.extend_with_clones(newest.data())?;
        rest = older;
    }
    Ok(values)
}

/// The values pushed since the last clear, in blocks of 64.
///
/// The walks and the clears go from block to block, the newest first, and through each block in the order of its
/// pushes. That is the order of the lock-free bucket of metrics-util.
#[derive(Drop)]
pub struct OwnedBucket<T> {
    blocks: Vec<Block<T>>,
}

impl<T> Model for OwnedBucket<T> {
    ghost use Rattle.std.specs.Prelude.{List};
    ghost use Rattle.metrics.specs.Book.{joined_lists};
    ghost use Rattle.metrics_storage.specs.Bucket.{AreChunks};

    ghost Value = { List T };

    ghost view = { λ b. joined_lists b.blocks.items };

    ghost invariant = { λ b. AreChunks b.blocks.items };
}

impl<T: Drop> OwnedBucket<T> {
    /// Makes an empty bucket, which allocates nothing.
    pub fn new(alloc: Global) -> Self
        ensures { result ≡ [] }
    {
        OwnedBucket {
            blocks: Vec::new(alloc),
        }
    }

    /// Returns whether nothing was pushed since the last clear.
    pub fn is_empty(&self) -> bool
        ensures { result ≡ (length self.now == 0) }
    {
        self.blocks.is_empty()
    }

    /// Adds a value, or returns it if a new block is needed and there is no memory for it.
    pub fn push(&mut self, value: T) -> Result<(), T>
        ensures ok { OnOk result (self.new ≡ self.old ++ value ∷ []) }
        ensures err { IfErr result (λ back. (back ≡ value) × (self.new ≡ self.old)) }
        ensures refused { OnErr result (length self.old % 64 ≡ 0) }
    {
        match push_last(&mut self.blocks, value) {
            Ok(()) => Ok(()),
            Err(value) => push_new(&mut self.blocks, value),
        }
    }

    /// Returns a clone of each value, in bucket order. Fails with `Error::Memory` when out of memory, and never if there are no
    /// values.
    pub fn data(&self) -> Result<Vec<T>, Error>
    where
        T: Clone,
        ensures clones { MatchResult result (λ v. AllZip T.is_clone (bucket_order self.now) v.items) (λ e. e ≡ OutOfMemory) }
        ensures same { IfOk result (λ v. ((x y : T) → T.is_clone x y → y ≡ x) → v.items ≡ bucket_order self.now) }
        ensures refused { OnErr result (0 < length self.now) }
    {
        Ok(copied(&self.blocks, *self.blocks.allocator())?)
    }

    /// Shows the values to `f`, once for each block, the newest first. So `f` needn't be callable a further time.
    pub fn data_with<F: FnMut(&[T])>(&self, f: F)
        requires { TakesEach F.FnMut f (reverse (chunks self.now)) }
        ensures { (last : F) × IsCalledAtEach F.FnMut f (reverse (chunks self.now)) last }
    {
        show_once(&self.blocks, f);
    }

    /// Does what `data_with` does, for a closure that the caller keeps: what it gathered is then known.
    pub fn data_to<F: FnMut(&[T])>(&self, f: &mut F)
        requires { F.IsAlwaysCallable f.old }
        ensures calls { IsCalledAtEach F.FnMut f.old (reverse (chunks self.now)) f.new }
        ensures callable { F.IsAlwaysCallable f.new }
    {
        show(&self.blocks, f);
    }

    /// Removes all values.
    pub fn clear(&mut self)
        ensures { self.new ≡ [] }
    {
        self.blocks.clear();
    }

    /// Removes all values, after showing them to `f` as `data_with` does.
    pub fn clear_with<F: FnMut(&[T])>(&mut self, f: F)
        requires { TakesEach F.FnMut f (reverse (chunks self.old)) }
        ensures empty { self.new ≡ [] }
        ensures calls { (last : F) × IsCalledAtEach F.FnMut f (reverse (chunks self.old)) last }
    {
        take_out_once(&mut self.blocks, f);
    }

    /// Does what `clear_with` does, for a closure that the caller keeps.
    pub fn clear_to<F: FnMut(&[T])>(&mut self, f: &mut F)
        requires { F.IsAlwaysCallable f.old }
        ensures empty { self.new ≡ [] }
        ensures calls { IsCalledAtEach F.FnMut f.old (reverse (chunks self.old)) f.new }
        ensures callable { F.IsAlwaysCallable f.new }
    {
        take_out(&mut self.blocks, f);
    }
}

impl HistogramCell for OwnedBucket<i64> {
    type Error = Error;

    ghost samples = { λ b. b };

    ghost refuses = { λ b e. (e ≡ OutOfMemory) × (length b % 64 ≡ 0) };

    fn record(&mut self, value: i64) -> Result<(), Error> {
        match self.push(value) {
            Ok(()) => Ok(()),
            Err(_) => Err(Error::Memory),
        }
    }
}
