//! The cells of one kind.
ghost use Rattle.std.specs.Prelude.{◌≡◌, ◌<◌, ◌^◌, ◌∷◌, ◌++◌, []};
ghost use Rattle.std.specs.Prelude.{None, Some, IfOk, IfErr, OnOk, IfSome, IfNone};
ghost use Rattle.std.specs.Prelude.{is_some, length, option_map, slice_get};
ghost use Rattle.std.specs.Option.{option_copied, option_copied_mut};
ghost use Rattle.std.specs.Map.{keys_of};
ghost use Rattle.std.specs.Map.Iter.{deref_pair, ShowsInOrder};
ghost use Rattle.std.specs.Fn.{FnOnceReturnsAtMut, FnOnceTakesAtMut};
ghost use Rattle.std.specs.List.{IsDistinct};
ghost use Rattle.std.specs.HashMap.{get};
ghost use Rattle.metrics.specs.declared.error.Error.TheVariants.{Memory as OutOfMemory};
ghost use Rattle.metrics_registry.specs.Held.{held, place_of, Removes, Calls, CallsAt, MayCall, Adds, Appends, ChangesAt};
ghost use Rattle.metrics_registry.specs.Held.{TakesEach, CallsEach, RetainsEach, Copies, CopiesFront, AreCopied};

use crate::keys::EqualClone;
use indexmap::IndexMap;
use indexmap::map::Iter;
use metrics::Error;
use std::alloc::Global;
use std::collections::HashMap;
use std::hash::Hash;
use std::marker::Model;

/// The cells of one kind by their keys. Contracts see the list of the entries, in which each key occurs once.
///
/// An entry's place is its number in the order in which the keys came. It stays until a key is removed: the last entry then
/// moves to that key's place.
#[derive(Drop)]
pub struct Cells<K: Hash, C> {
    map: IndexMap<K, C>,
}

impl<K: Hash, C> Model for Cells<K, C> {
    ghost use Rattle.std.specs.Prelude.{List};

    ghost Value = { List (K × C) };

    ghost view = { λ c. c.map.entries };
}

/// Adds a copy of an entry to the handles.
fn copy_one<K: Hash + EqualClone, C: Clone>(
    handles: &mut HashMap<K, C>,
    key: &K,
    cell: &C,
) -> Result<(), Error>
    ensures ok { OnOk result (Copies K.eq C.is_clone ((key.now, cell.now) ∷ []) (get K.eq handles.old) (get K.eq handles.new)) }
    ensures err { IfErr result (λ e. (e ≡ OutOfMemory) × ((q : K) → get K.eq handles.new q ≡ get K.eq handles.old q)) }
{
    let key = key.clone()?;
    let cell = cell.clone()?;
    match handles.insert(key, cell) {
        Ok(_) => Ok(()),
        Err(refused) => Err(Error::from(refused)),
    }
}

/// Keeps the entries for which `f` returns true, in their order, and returns `f` as the calls left it.
fn keep<K: Hash + Drop, C: Drop, F: FnMut(&K, &C) -> bool>(map: &mut IndexMap<K, C>, f: F) -> F
    requires { TakesEach F.FnMut f map.old.entries }
    ensures retains { RetainsEach F.FnMut f map.old.entries map.new.entries result }
    ensures once { IsDistinct K.eq (keys_of map.old.entries) × IsDistinct K.eq (keys_of map.new.entries) }
    ensures callable { F.IsAlwaysCallable f → F.IsAlwaysCallable result }
{
    let mut f = f;
    let mut kept = 0;
    for i in 0..map.len() {
        let Some((key, cell)) = map.get_index(i) else {
            unreachable!()
        };
        if f(key, cell) {
            map.swap_indices(kept, i);
            kept += 1;
        }
    }
    map.truncate(kept);
    f
}

impl<K: Hash + Drop, C: Drop> Cells<K, C> {
    ghost use Rattle.std.specs.Borrow.{sem};
    ghost use Rattle.metrics_registry.specs.Lending.{lends_cell};

    /// Makes an empty map of cells, without allocating.
    pub fn new(alloc: Global) -> Cells<K, C>
        ensures { result ≡ [] }
    {
        Cells {
            map: IndexMap::new(alloc),
        }
    }

    /// Returns the number of entries.
    pub fn len(&self) -> usize
        ensures len { result ≡ length self.now }
        ensures once { IsDistinct K.eq (keys_of self.now) }
    {
        self.map.len()
    }

    /// Returns an iterator over the entries, by their places.
    pub fn iter(&self) -> Iter<'_, K, C>
        ensures entries { result ≡ self.now }
        ensures runs { ShowsInOrder (deref_pair {K = K} {X = C}) }
        ensures once { IsDistinct K.eq (keys_of self.now) }
        ensures fits { length self.now < 2 ^ 63 }
    {
        self.map.iter()
    }

    /// Returns the cell of a key, if the key is held.
    pub fn get(&self, key: &K) -> Option<&C>
        ensures { option_copied result ≡ held K.eq self.now key.now }
    {
        self.map.get(key)
    }

    /// Borrows the cell of a key, if the key is held. The others stay unchanged.
    pub fn get_mut(&mut self, key: &K) -> Option<&mut C>
        ensures* lends { sem 𝓛 (lends_cell K.row C.row K.Hash self.entry key.now result) }
        ensures found { option_copied_mut result ≡ held K.eq self.old key.now }
    {
        self.map.get_mut(key)
    }

    /// Calls `op` once on the cell of a key, and returns its result. Returns `op` if the key isn't held.
    pub fn change<V, F: FnOnce(&mut C) -> V>(&mut self, key: &K, op: F) -> Result<V, F>
        requires { (cell : C) → held K.eq self.old key.now ≡ Some cell → FnOnceTakesAtMut F.FnOnce op cell }
        ensures ok { IfOk result (λ v. Calls K.eq (FnOnceReturnsAtMut F.FnOnce op) key.now v self.old self.new) }
        ensures err { IfErr result (λ f. (f ≡ op) × (held K.eq self.old key.now ≡ None) × (self.new ≡ self.old)) }
        ensures keys { keys_of self.new ≡ keys_of self.old }
        ensures once { IsDistinct K.eq (keys_of self.new) }
    {
        let Some(cell) = self.map.get_mut(key) else {
            return Err(op);
        };
        Ok(op(cell))
    }

    /// Calls `op` once on a cell, adds the cell at a key that isn't held, and returns the result of `op`.
    ///
    /// Fails only when out of memory. Then it changes nothing, and drops the cell and `op`.
    pub fn create<V, F: FnOnce(&mut C) -> V + Drop>(
        &mut self,
        key: &K,
        cell: C,
        op: F,
    ) -> Result<V, Error>
    where
        K: EqualClone,
        requires op { FnOnceTakesAtMut F.FnOnce op cell }
        requires absent { held K.eq self.old key.now ≡ None }
        ensures ok { IfOk result (λ v. Adds K.eq (FnOnceReturnsAtMut F.FnOnce op) key.now cell v self.old self.new) }
        ensures appends { IfOk result
            (λ v. Appends K.is_clone (FnOnceReturnsAtMut F.FnOnce op) key.now cell v self.old self.new) }
        ensures err { IfErr result (λ e. (e ≡ OutOfMemory) × (self.new ≡ self.old)) }
        ensures once { OnOk result (IsDistinct K.eq (keys_of self.new)) }
    {
        let key = key.clone()?;
        self.map.reserve(1)?;
        let mut cell = cell;
        let answer = op(&mut cell);
        let Ok(_) = self.map.insert(key, cell) else {
            unreachable!()
        };
        Ok(answer)
    }

    /// Calls `op` once on the cell of a key, and returns its result. It adds the given cell if the key isn't held, and drops it
    /// otherwise.
    ///
    /// It clones the key, then looks it up once: for a key that may well be held, `change` costs less.
    /// Fails only when out of memory. Then it changes nothing, and drops the cell and `op`.
    pub fn change_or_create<V, F: FnOnce(&mut C) -> V + Drop>(
        &mut self,
        key: &K,
        cell: C,
        op: F,
    ) -> Result<V, Error>
    where
        K: EqualClone,
        requires { MayCall K.eq (λ _ c. c ≡ cell) (FnOnceTakesAtMut F.FnOnce op) key.now self.old }
        ensures ok { IfOk result
            (λ v. CallsAt K.eq (λ _ c. c ≡ cell) (FnOnceReturnsAtMut F.FnOnce op) key.now v self.old self.new) }
        ensures err { IfErr result (λ e. (e ≡ OutOfMemory) × (self.new ≡ self.old)) }
        ensures once { OnOk result (IsDistinct K.eq (keys_of self.new)) }
    {
        let key = key.clone()?;
        let cell = self.map.entry(key)?.or_insert(cell);
        Ok(op(cell))
    }

    /// Adds a cell at a key that isn't held, and returns its place.
    ///
    /// Fails only when out of memory. Then it changes nothing, and drops the cell.
    pub fn insert(&mut self, key: &K, cell: C) -> Result<usize, Error>
    where
        K: EqualClone,
        requires { held K.eq self.old key.now ≡ None }
        ensures place { IfOk result (λ place. place ≡ length self.old) }
        ensures ok { OnOk result ((k : K) × K.is_clone key.now k × (self.new ≡ self.old ++ (k, cell) ∷ [])) }
        ensures err { IfErr result (λ e. (e ≡ OutOfMemory) × (self.new ≡ self.old)) }
        ensures once { OnOk result (IsDistinct K.eq (keys_of self.new)) }
    {
        let key = key.clone()?;
        self.map.reserve(1)?;
        let place = self.map.len();
        let Ok(_) = self.map.insert(key, cell) else {
            unreachable!()
        };
        Ok(place)
    }

    /// Removes a key, and returns whether it was held.
    pub fn remove(&mut self, key: &K) -> bool
        ensures removed { Removes K.eq key.now result self.old self.new }
        ensures once { IsDistinct K.eq (keys_of self.new) }
    {
        self.map.swap_remove(key).is_some()
    }

    /// Calls `f` once for each entry, in the order of their places, and returns it as the calls left it.
    pub fn visit<F: FnMut(&K, &C)>(&self, f: F) -> F
        requires { TakesEach F.FnMut f self.now }
        ensures calls { CallsEach F.FnMut f self.now result }
        ensures once { IsDistinct K.eq (keys_of self.now) }
        ensures callable { F.IsAlwaysCallable f → F.IsAlwaysCallable result }
    {
        let mut f = f;
        for (key, cell) in &self.map {
            f(key, cell);
        }
        f
    }

    /// Keeps the entries for which `f` returns true.
    ///
    /// It calls `f` once for each entry, in the order of their places, and returns it as the calls left it.
    pub fn retain<F: FnMut(&K, &C) -> bool>(&mut self, f: F) -> F
        requires { TakesEach F.FnMut f self.old }
        ensures retains { RetainsEach F.FnMut f self.old self.new result }
        ensures once { IsDistinct K.eq (keys_of self.old) × IsDistinct K.eq (keys_of self.new) }
        ensures callable { F.IsAlwaysCallable f → F.IsAlwaysCallable result }
    {
        keep(&mut self.map, f)
    }

    /// Returns the keys, each with a clone of its cell.
    ///
    /// Fails only when out of memory, and never if there are no entries.
    pub fn handles(&self, alloc: Global) -> Result<HashMap<K, C>, Error>
    where
        K: EqualClone,
        C: Clone,
        ensures { AreCopied K.eq C.is_clone self.now result }
    {
        let mut handles = HashMap::new(alloc);
        self.copy_into(&mut handles)?;
        Ok(handles)
    }

    /// Adds a clone of each cell to the handles, in the order of their places.
    ///
    /// Fails only when out of memory. Then the first n cells may have been added.
    pub fn copy_into(&self, handles: &mut HashMap<K, C>) -> Result<(), Error>
    where
        K: EqualClone,
        C: Clone,
        ensures ok { OnOk result (Copies K.eq C.is_clone self.now (get K.eq handles.old) (get K.eq handles.new)) }
        ensures err { IfErr result (λ e. (e ≡ OutOfMemory)
            × CopiesFront K.eq C.is_clone self.now (get K.eq handles.old) (get K.eq handles.new)) }
    {
        for (key, cell) in &self.map {
            copy_one(handles, key, cell)?;
        }
        Ok(())
    }

    /// Removes every entry.
    pub fn clear(&mut self)
        ensures { self.new ≡ [] }
    {
        self.map.clear();
    }

    /// Returns the place of a key, if it is held.
    pub fn place(&self, key: &K) -> Option<usize>
        ensures { result ≡ place_of K.eq self.now key.now }
    {
        self.map.get_index_of(key)
    }

    /// Returns the entry at a place.
    pub fn at(&self, place: usize) -> Option<(&K, &C)>
        ensures { option_map deref_pair result ≡ slice_get self.now place }
    {
        self.map.get_index(place)
    }

    /// Calls `op` once on the cell at a place, and returns its result.
    pub fn change_at<V, F: FnOnce(&mut C) -> V + Drop>(&mut self, place: usize, op: F) -> Option<V>
        requires { (entry : K × C) → slice_get self.old place ≡ Some entry → FnOnceTakesAtMut F.FnOnce op entry.1 }
        ensures some { IfSome result (λ v. ChangesAt (FnOnceReturnsAtMut F.FnOnce op) place v self.old self.new) }
        ensures none { IfNone result (self.new ≡ self.old) }
        ensures found { is_some result ≡ is_some (slice_get self.old place) }
        ensures once { IsDistinct K.eq (keys_of self.new) }
    {
        let cell = self.map.get_index_mut(place)?;
        Some(op(cell))
    }
}
