//! A storage of cells whose clones allocate.
ghost use Rattle.std.specs.Prelude.{◌≡◌, IfErr};
ghost use Rattle.metrics.specs.declared.error.Error.TheVariants.{Memory as OutOfMemory};

use metrics::Error;
use metrics_registry::Storage;
use std::alloc::Global;
use std::sync::Arc;
use std::sync::atomic::AtomicU64;

/// A cell whose clone allocates, and has the very word.
pub type Boxed = Box<Arc<AtomicU64>>;

/// Makes such a cell for each kind.
#[derive(Clone, Copy, Debug)]
pub struct Copies {
    /// The memory of its cells.
    pub alloc: Global,
}

impl Copies {
    fn cell(&self) -> Result<Boxed, Error>
        ensures { IfErr result (λ e. e ≡ OutOfMemory) }
    {
        let word = Arc::new(self.alloc, AtomicU64::new(0))?;
        Ok(Box::new(self.alloc, word)?)
    }
}

impl<K> Storage<K> for Copies {
    type Counter = Boxed;

    type Gauge = Boxed;

    type Histogram = Boxed;

    ghost makes_counter = { λ storage key cell. Unit {0} };

    ghost makes_gauge = { λ storage key cell. Unit {0} };

    ghost makes_histogram = { λ storage key cell. Unit {0} };

    fn counter(&self, _key: &K) -> Result<Boxed, Error> {
        self.cell()
    }

    fn gauge(&self, _key: &K) -> Result<Boxed, Error> {
        self.cell()
    }

    fn histogram(&self, _key: &K) -> Result<Boxed, Error> {
        self.cell()
    }
}
