//! Cells without a generation.
ghost use Rattle.std.specs.Prelude.{◌≡◌, [], pos};

use crate::storage::Storage;
use metrics::Error;
use metrics_storage::OwnedBucket;
use std::alloc::Global;

/// Makes a `u64` for a counter, an `i64` for a gauge and an `OwnedBucket<i64>` for a histogram.
///
/// It allocates nothing and never fails.
#[derive(Clone, Copy, Debug)]
pub struct PlainStorage {
    alloc: Global,
}

impl PlainStorage {
    /// Makes a storage whose buckets allocate from `alloc`.
    pub fn new(alloc: Global) -> PlainStorage {
        PlainStorage { alloc }
    }
}

impl<K> Storage<K> for PlainStorage {
    type Counter = u64;

    type Gauge = i64;

    type Histogram = OwnedBucket<i64>;

    ghost makes_counter = { λ storage key cell. cell ≡ 0 };

    ghost makes_gauge = { λ storage key cell. cell ≡ pos 0 };

    ghost makes_histogram = { λ storage key cell. cell ≡ [] };

    fn counter(&self, _key: &K) -> Result<u64, Error>
        ensures { result ≡ Ok 0 }
    {
        Ok(0)
    }

    fn gauge(&self, _key: &K) -> Result<i64, Error>
        ensures { result ≡ Ok (pos 0) }
    {
        Ok(0)
    }

    fn histogram(&self, _key: &K) -> Result<OwnedBucket<i64>, Error>
        ensures { result ≡ Ok [] }
    {
        Ok(OwnedBucket::new(self.alloc))
    }
}
