//! The cells of a shard. Each was made for its key.
ghost use Rattle.std.specs.Prelude.{◌≡◌, [], true, false, None, Some, IfOk, IfErr, IfSome};
ghost use Rattle.std.specs.Fn.{FnOnceReturnsAt, FnOnceReturnsAtMut};
ghost use Rattle.metrics.specs.declared.error.Error.TheVariants.{Memory as OutOfMemory};
ghost use Rattle.metrics_registry.specs.Held.{held, CallsEach, Sets};
ghost use Rattle.metrics_shared_registry.specs.Made.{IsMadeFor, EachIsMade};

use metrics::Error;
use metrics_registry::{Cells, EqualClone, Hashable, Storage};
use std::alloc::Global;
use std::collections::HashMap;
use std::marker::{Model, PhantomData};

/// A kind of cells. No value of it is made.
pub(crate) trait CellKind<K> {
    type Cell;

    /// Some storage makes this cell for the key.
    ghost makes: { K → Self.Cell → Type 0 };
}

/// The counters of a storage.
pub(crate) struct CountersOf<S> {
    of: PhantomData<S>,
}

/// The gauges of a storage.
pub(crate) struct GaugesOf<S> {
    of: PhantomData<S>,
}

/// The histograms of a storage.
pub(crate) struct HistogramsOf<S> {
    of: PhantomData<S>,
}

impl<K, S: Storage<K>> CellKind<K> for CountersOf<S> {
    ghost use Rattle.metrics_shared_registry.specs.Made.{MadeBySome};

    type Cell = S::Counter;

    ghost makes = { λ key cell. MadeBySome S.makes_counter key cell };
}

impl<K, S: Storage<K>> CellKind<K> for GaugesOf<S> {
    ghost use Rattle.metrics_shared_registry.specs.Made.{MadeBySome};

    type Cell = S::Gauge;

    ghost makes = { λ key cell. MadeBySome S.makes_gauge key cell };
}

impl<K, S: Storage<K>> CellKind<K> for HistogramsOf<S> {
    ghost use Rattle.metrics_shared_registry.specs.Made.{MadeBySome};

    type Cell = S::Histogram;

    ghost makes = { λ key cell. MadeBySome S.makes_histogram key cell };
}

/// Cells by their keys. The cell that a key finds was made for that key.
#[derive(Drop)]
pub(crate) struct MadeCells<K: Hashable, M: CellKind<K>> {
    cells: Cells<K, M::Cell>,
}

impl<K: Hashable, M: CellKind<K>> Model for MadeCells<K, M> {
    ghost use Rattle.std.specs.Prelude.{List};
    ghost use Rattle.metrics_shared_registry.specs.Made.{AreMade};

    ghost Value = { List (K × M.Cell) };

    ghost view = { λ m. m.cells };

    ghost invariant = { λ m. AreMade K.eq M.makes m.cells };
}

impl<K: Hashable + EqualClone + Drop, M: CellKind<K>> MadeCells<K, M>
where
    M::Cell: Drop,
{
    /// Begins without cells.
    pub fn new(alloc: Global) -> MadeCells<K, M>
        ensures { result ≡ [] }
    {
        MadeCells {
            cells: Cells::new(alloc),
        }
    }

    /// Removes every entry.
    pub fn clear(&mut self)
        ensures { self.new ≡ [] }
    {
        self.cells.clear();
    }

    /// Returns the cell of a key, if the key is held.
    pub fn get(&self, key: &K) -> Option<&M::Cell>
        ensures { IfSome result (λ c. IsMadeFor K.eq M.makes key.now c.now) }
    {
        self.cells.get(key)
    }

    /// Calls `op` once on the cell of a key, and returns its result. It adds this cell if the key isn't held.
    pub fn get_or_insert<V, F: FnOnce(&M::Cell) -> V + Drop>(
        &mut self,
        key: &K,
        cell: M::Cell,
        op: F,
    ) -> Result<V, Error>
        requires op { F.IsAlwaysCallable op }
        requires made { M.makes key.now cell }
        ensures called { IfOk result (λ v. (c : M.Cell) × IsMadeFor K.eq M.makes key.now c × FnOnceReturnsAt F.FnOnce op c v) }
        ensures err { IfErr result (λ e. e ≡ OutOfMemory) }
    {
        let call = |cell: &mut M::Cell| -> V
            requires { F.IsAlwaysCallable op }
            ensures { FnOnceReturnsAt F.FnOnce op cell.old result × (cell.new ≡ cell.old) }
        { op(cell) };
        self.cells.change_or_create(key, cell, call)
    }

    /// Calls `f` once for each entry, and returns it as the calls left it.
    pub fn visit<F: FnMut(&K, &M::Cell)>(&self, f: F) -> F
        requires { F.IsAlwaysCallable f }
        ensures calls { CallsEach F.FnMut f self.now result }
        ensures made { EachIsMade K.eq M.makes self.now }
        ensures callable { F.IsAlwaysCallable result }
    {
        self.cells.visit(f)
    }

    /// Keeps the entries for which `f` returns true, and returns it as the calls left it.
    pub fn retain<F: FnMut(&K, &M::Cell) -> bool>(&mut self, f: F) -> F
        requires { F.IsAlwaysCallable f }
        ensures { F.IsAlwaysCallable result }
    {
        self.cells.retain(f)
    }

    /// Adds a clone of each cell to the handles. Fails only when out of memory.
    pub fn copy_into(&self, handles: &mut HashMap<K, M::Cell>) -> Result<(), Error>
    where
        M::Cell: Clone,
        ensures { IfErr result (λ e. e ≡ OutOfMemory) }
    {
        self.cells.copy_into(handles)
    }

    /// Removes a key, and returns whether it was held.
    pub fn remove(&mut self, key: &K) -> bool {
        self.cells.remove(key)
    }

    /// Removes a key if `f` returns true for its cell, and returns whether it did. Otherwise `f` leaves the cell as it was.
    pub fn remove_if<F: FnOnce(&mut M::Cell) -> bool + Drop>(&mut self, key: &K, f: F) -> bool
        requires call { F.IsAlwaysCallable f }
        requires keeps { (cell : M.Cell) (left : M.Cell) → FnOnceReturnsAtMut F.FnOnce f cell false left → left ≡ cell }
        ensures removed { result ≡ true → (cell : M.Cell) × (left : M.Cell) × IsMadeFor K.eq M.makes key.now cell
            × FnOnceReturnsAtMut F.FnOnce f cell true left × (held K.eq self.old key.now ≡ Some cell)
            × Sets K.eq key.now None self.old self.new }
        ensures kept { result ≡ false → (q : K) → held K.eq self.new q ≡ held K.eq self.old q }
    {
        let Ok(leaves) = self.cells.change(key, f) else {
            return false;
        };
        if leaves {
            self.cells.remove(key);
        }
        leaves
    }
}

/// The cells of each kind, independent of one another.
#[derive(Drop)]
pub(crate) struct Shard<K: Hashable, S: Storage<K>> {
    pub counters: MadeCells<K, CountersOf<S>>,
    pub gauges: MadeCells<K, GaugesOf<S>>,
    pub histograms: MadeCells<K, HistogramsOf<S>>,
}

impl<K: Hashable + EqualClone + Drop, S: Storage<K>> Shard<K, S>
where
    S::Counter: Drop,
    S::Gauge: Drop,
    S::Histogram: Drop,
{
    /// Makes empty maps for all kinds, without allocating.
    pub fn new(alloc: Global) -> Shard<K, S> {
        Shard {
            counters: MadeCells::new(alloc),
            gauges: MadeCells::new(alloc),
            histograms: MadeCells::new(alloc),
        }
    }

    /// Removes every entry of every kind.
    pub fn clear(&mut self) {
        self.counters.clear();
        self.gauges.clear();
        self.histograms.clear();
    }
}
