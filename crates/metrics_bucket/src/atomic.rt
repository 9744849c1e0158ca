//! A bucket that any thread may use.
ghost use Rattle.std.specs.Prelude.{true, [], ◌≡◌, ℕ, ◌*◌, ◌/◌, ◌<◌, ◌≤◌, ◌⊎◌, List, length};
ghost use Rattle.std.specs.Prelude.{vec_len, IfOk, IfErr, IsOk};
ghost use Rattle.std.specs.Fn.{CalledAt};
ghost use Rattle.std.specs.List.{FoldsTo};
ghost use Rattle.metrics_bucket.specs.Blocks.{valued, newest_first};
ghost use Rattle.std.specs.Arc.{arc_value};

use crate::bucket::{BLOCK_SIZE, RuledBucket, is_block_count};
use crate::pen::Words;
use crate::sample::Sample;
use crate::steps::LookAtControl;
use crate::view::{Turn, View};
use crate::visitor::{Nobody, Shown};
use atomic_table::Seat;
use metrics::Error;
use metrics_cells::HistogramFn;
use std::alloc::Global;
use std::sync::{Arc, Wait};

/// A bucket that any thread may push into, read and clear. It has two sides, each with 64 places for each block.
///
/// It uses no lock, and any number of calls may run at once. Each block takes some 1 KB of memory.
#[derive(Drop)]
pub struct AtomicBucket<T: Sample> {
    bucket: RuledBucket<T>,
    door: Arc<Words, Global>,
    ghost own: { bucket.table ≡ (arc_value door).shared.table_id },
    ghost key: { (arc_value door).shared.key ≡ (bucket.places, true) },
    ghost some_word: { 0 < (arc_value door).shared.table_id.words },
}

impl<T: Sample> AtomicBucket<T> {
    ghost use Rattle.metrics_bucket.specs.Sides.{side_places};
    ghost use Rattle.metrics_bucket.specs.BucketState.{new_view, seeing};

    /// Makes an empty bucket of 1 to 1,024 blocks on each side.
    ///
    /// Fails with `BadBlocks` for another number of blocks, otherwise only when out of memory.
    pub fn new(alloc: Global, blocks: usize) -> Result<AtomicBucket<T>, Error>
        ensures places { IfOk result (λ b. side_places b ≡ 64 * blocks) }
        ensures good { (0 < blocks) × (blocks ≤ 1024) → IfErr result (λ e. e ≡ Error.Memory) }
        ensures bad { (blocks ≡ 0) ⊎ (1024 < blocks) → result ≡ Err Error.BadBlocks }
    {
        if !is_block_count(blocks) {
            return Err(Error::BadBlocks);
        }
        let (bucket, door) = RuledBucket::<T>::open_places(alloc, BLOCK_SIZE * blocks)?;
        Ok(AtomicBucket { bucket, door })
    }

    // Enters a new thread, which has done nothing.
    #[inline(always)]
    fn enter(&self) -> (u64, Seat<Turn, View>)
        ensures table { result.1.table_id ≡ self.now.bucket.table }
        ensures me { result.1.me ≡ (seeing (new_view self.now.bucket.places 1) result.0, []) }
        ensures room { result.0 / 2 ≤ self.now.bucket.places }
    {
        self.door.shared.load_new_seat::<LookAtControl>(0)
    }

    /// Returns whether no value was pushed since the last clear. A push that is under way counts as a value. It never fails.
    pub fn is_empty<R: Wait>(&self, _rt: &R) -> Result<bool, Error>
        ensures { IsOk result }
    {
        Ok(self.bucket.control() < 2)
    }

    /// Pushes a value, or returns it.
    ///
    /// `Full`: the live side has no place left.
    pub fn push<R: Wait>(&self, rt: &R, value: T) -> Result<(), (Error, T)>
        ensures { IfErr result (λ e. (e.0 ≡ Error.Full) × (e.1 ≡ value)) }
    {
        let (found, mut seat) = self.enter();
        self.bucket.push_after(rt, &mut seat, found, value)
    }

    /// Returns all values since the last clear, in blocks of 64, the newest block first.
    ///
    /// It waits for pushes that were under way when it looked.
    /// `Busy`: another walk is under way.
    /// `Memory`: out of memory for the values. Nothing changed.
    pub fn data<R: Wait>(&self, rt: &R, alloc: Global) -> Result<Vec<T>, Error>
        ensures count { IfOk result (λ v. vec_len v ≤ side_places self.now) }
        ensures err { IfErr result (λ e. (e ≡ Error.Memory) ⊎ (e ≡ Error.Busy)) }
    {
        let (_, mut seat) = self.enter();
        self.bucket.gather_values(rt, alloc, &mut seat)
    }

    /// Reads all values as `data` does, shows them to `f` in chunks of 64, the newest chunk first, and returns their number.
    ///
    /// `f` may push into this bucket.
    /// `Busy`: another walk is under way.
    pub fn data_with<R: Wait, F: FnMut(&[T])>(&self, rt: &R, f: F) -> Result<usize, Error>
        requires { F.IsAlwaysCallable f }
        ensures ok { IfOk result (λ n. (words : List ℕ) × (length words ≡ n)
            × ((last : F) × FoldsTo (λ p x q. CalledAt F.FnMut p x tt q) f (valued T.value (newest_first words)) last)) }
        ensures count { IfOk result (λ n. n ≤ side_places self.now) }
        ensures err { IfErr result (λ e. e ≡ Error.Busy) }
    {
        let mut shown = Shown { f };
        let (_, mut seat) = self.enter();
        self.bucket.show_to(rt, &mut seat, &mut shown)
    }

    /// Takes all values, and returns their number.
    ///
    /// `Busy`: another walk is under way.
    pub fn clear<R: Wait>(&self, rt: &R) -> Result<usize, Error>
        ensures count { IfOk result (λ n. n ≤ side_places self.now) }
        ensures err { IfErr result (λ e. e ≡ Error.Busy) }
    {
        let (_, mut seat) = self.enter();
        self.bucket.claim_and_clear(rt, &mut seat, &mut Nobody)
    }

    /// Takes all values, shows them to `f` in chunks of 64, the newest chunk first, and returns their number.
    ///
    /// It waits for pushes that were under way when it took them; later pushes are for the next walk. `f` may push into this
    /// bucket.
    /// `Busy`: another walk is under way.
    pub fn clear_with<R: Wait, F: FnMut(&[T])>(&self, rt: &R, f: F) -> Result<usize, Error>
        requires { F.IsAlwaysCallable f }
        ensures ok { IfOk result (λ n. (words : List ℕ) × (length words ≡ n)
            × ((last : F) × FoldsTo (λ p x q. CalledAt F.FnMut p x tt q) f (valued T.value (newest_first words)) last)) }
        ensures count { IfOk result (λ n. n ≤ side_places self.now) }
        ensures err { IfErr result (λ e. e ≡ Error.Busy) }
    {
        let mut shown = Shown { f };
        let (_, mut seat) = self.enter();
        self.bucket.claim_and_clear(rt, &mut seat, &mut shown)
    }
}

impl HistogramFn for AtomicBucket<i64> {
    type Error = Error;

    /// Pushes the sample.
    fn record<R: Wait>(&self, rt: &R, value: i64) -> Result<(), Error>
        ensures { IfErr result (λ e. e ≡ Error.Full) }
    {
        match self.push(rt, value) {
            Ok(()) => Ok(()),
            Err((error, _)) => Err(error),
        }
    }
}
