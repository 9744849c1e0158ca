//! What makes cells that several threads change.
ghost use Rattle.std.specs.Prelude.{◌≡◌, ◌*◌, ◌<◌, ◌≤◌, ◌⊎◌, MatchResult};
ghost use Rattle.std.specs.Arc.{arc_value};
ghost use Rattle.metrics_bucket.specs.Sides.{side_places};

use crate::generational::Generational;
use metrics::Error;
use metrics_bucket::{AtomicBucket, is_block_count};
use metrics_registry::Storage;
use std::alloc::Global;
use std::sync::Arc;
use std::sync::atomic::AtomicU64;

/// The default number of blocks of each side of a histogram's bucket.
const BLOCKS: usize = 16;

/// Makes cells that any thread may change: a word that begins at 0 for a counter and for a gauge, and an empty bucket for a
/// histogram.
///
/// A bucket has 16 blocks, 1,024 samples, or as many blocks as the storage was made with.
#[derive(Clone, Copy, Debug)]
pub struct AtomicStorage {
    alloc: Global,
    blocks: usize,
    ghost some_blocks: { (0 < blocks) × (blocks ≤ 1024) },
}

impl AtomicStorage {
    /// Makes a storage whose cells allocate from `alloc`. A histogram takes some 17 KB.
    pub fn new(alloc: Global) -> AtomicStorage
        ensures { result.blocks ≡ 16 }
    {
        AtomicStorage {
            alloc,
            blocks: BLOCKS,
        }
    }

    /// Makes a storage whose histograms have this many blocks of 64 samples, 1 to 1,024.
    ///
    /// A histogram takes some 600 bytes, and 1 KB for each block.
    pub fn with_blocks(alloc: Global, blocks: usize) -> Result<AtomicStorage, Error>
        ensures { MatchResult result (λ s. (s.blocks ≡ blocks) × (0 < blocks) × (blocks ≤ 1024))
            (λ e. (e ≡ Error.BadBlocks) × ((blocks ≡ 0) ⊎ (1024 < blocks))) }
    {
        if !is_block_count(blocks) {
            return Err(Error::BadBlocks);
        }
        Ok(AtomicStorage { alloc, blocks })
    }
}

/// A histogram has the room that the storage notes. No contract says what a cell holds.
impl<K> Storage<K> for AtomicStorage {
    type Counter = Arc<AtomicU64>;

    type Gauge = Arc<AtomicU64>;

    type Histogram = Arc<AtomicBucket<i64>>;

    ghost makes_counter = { λ storage key cell. Unit {0} };

    ghost makes_gauge = { λ storage key cell. Unit {0} };

    ghost makes_histogram = { λ storage key cell. side_places (arc_value cell) ≡ 64 * storage.blocks };

    fn counter(&self, _key: &K) -> Result<Arc<AtomicU64>, Error> {
        Ok(Arc::new(self.alloc, AtomicU64::new(0))?)
    }

    fn gauge(&self, _key: &K) -> Result<Arc<AtomicU64>, Error> {
        Ok(Arc::new(self.alloc, AtomicU64::new(0))?)
    }

    fn histogram(&self, _key: &K) -> Result<Arc<AtomicBucket<i64>>, Error> {
        let bucket = AtomicBucket::new(self.alloc, self.blocks)?;
        Ok(Arc::new(self.alloc, bucket)?)
    }
}

/// Makes the cells that another storage makes, each with a generation.
#[derive(Clone, Drop)]
pub struct GenerationalStorage<S> {
    inner: S,
    alloc: Global,
}

impl<S> GenerationalStorage<S> {
    /// Makes a storage of `inner`'s cells, whose generations allocate from `alloc`.
    pub fn new(alloc: Global, inner: S) -> GenerationalStorage<S>
        ensures { result.inner ≡ inner }
    {
        GenerationalStorage { inner, alloc }
    }
}

/// Makes the cells of an `AtomicStorage`, each with a generation.
pub type GenerationalAtomicStorage = GenerationalStorage<AtomicStorage>;

impl GenerationalStorage<AtomicStorage> {
    /// Makes a storage whose cells and generations allocate from `alloc`. Its histograms have 16 blocks.
    pub fn atomic(alloc: Global) -> GenerationalAtomicStorage
        ensures { result.inner.blocks ≡ 16 }
    {
        GenerationalStorage::new(alloc, AtomicStorage::new(alloc))
    }

    /// Makes such a storage whose histograms have this many blocks of 64 samples, 1 to 1,024.
    pub fn with_blocks(alloc: Global, blocks: usize) -> Result<GenerationalAtomicStorage, Error>
        ensures { MatchResult result (λ s. (s.inner.blocks ≡ blocks) × (0 < blocks) × (blocks ≤ 1024))
            (λ e. (e ≡ Error.BadBlocks) × ((blocks ≡ 0) ⊎ (1024 < blocks))) }
    {
        let inner = AtomicStorage::with_blocks(alloc, blocks)?;
        Ok(GenerationalStorage::new(alloc, inner))
    }
}

impl<K, S: Storage<K>> Storage<K> for GenerationalStorage<S>
where
    S::Counter: Drop,
    S::Gauge: Drop,
    S::Histogram: Drop,
{
    type Counter = Generational<S::Counter>;

    type Gauge = Generational<S::Gauge>;

    type Histogram = Generational<S::Histogram>;

    ghost makes_counter = { λ storage key cell. S.makes_counter storage.inner key cell.inner };

    ghost makes_gauge = { λ storage key cell. S.makes_gauge storage.inner key cell.inner };

    ghost makes_histogram = { λ storage key cell. S.makes_histogram storage.inner key cell.inner };

    fn counter(&self, key: &K) -> Result<Generational<S::Counter>, Error> {
        let cell = self.inner.counter(key)?;
        Generational::new(self.alloc, cell)
    }

    fn gauge(&self, key: &K) -> Result<Generational<S::Gauge>, Error> {
        let cell = self.inner.gauge(key)?;
        Generational::new(self.alloc, cell)
    }

    fn histogram(&self, key: &K) -> Result<Generational<S::Histogram>, Error> {
        let cell = self.inner.histogram(key)?;
        Generational::new(self.alloc, cell)
    }
}
