//! Lists that their copies share.
ghost use Rattle.std.specs.Prelude.{◌≡◌, IfOk, []};
ghost use Rattle.std.specs.Cmp.Lexicographic.{pointwise, slice_cmp, slice_partial_cmp, lists_equiv, lists_agrees, lists_total};
ghost use Rattle.std.specs.Cmp.Lexicographic.{lists_ties, lists_per, lists_po};
ghost use Rattle.std.specs.Hash as fed;
ghost use Rattle.std.specs.Hash.{items_Alike};

use std::alloc::{AllocError, Global};
use std::cmp::Ordering;
use std::fmt;
use std::hash::{Hash, Hasher};
use std::marker::Model;
use std::sync::Arc;

/// A list that its clones share, so that a clone allocates nothing. An empty list allocates nothing at all.
///
/// Lists compare item by item, and a list is less than each longer one that begins with it.
#[derive(Drop)]
pub struct SharedItems<T> {
    shared: Option<Arc<Vec<T>>>,
}

impl<T> Model for SharedItems<T> {
    ghost use Rattle.std.specs.Prelude.{List};
    ghost use Rattle.metrics_names.specs.Shared.{items_of};

    ghost Value = { List T };

    ghost view = { λ a. items_of a.shared };
}

impl<T> SharedItems<T> {
    /// No items.
    pub(crate) fn empty() -> SharedItems<T>
        ensures { result ≡ [] }
    {
        SharedItems { shared: None }
    }

    /// The items of a `Vec`.
    pub(crate) fn new(alloc: Global, vec: Vec<T>) -> Result<SharedItems<T>, AllocError>
    where
        T: Drop,
        ensures { IfOk result (λ items. items ≡ vec.items) }
    {
        if vec.is_empty() {
            return Ok(SharedItems::empty());
        }
        let shared = Arc::new(alloc, vec)?;
        Ok(SharedItems {
            shared: Some(shared),
        })
    }

    pub(crate) fn as_slice(&self) -> &[T]
        ensures { result.now ≡ self.now }
    {
        match &self.shared {
            Some(vec) => vec.as_slice(),
            None => &[],
        }
    }
}

impl<T: Drop> Clone for SharedItems<T> {
    ghost is_clone = { λ a b. b ≡ a };

    fn clone(&self) -> Result<SharedItems<T>, AllocError> {
        match &self.shared {
            Some(vec) => Ok(SharedItems {
                shared: Some(Arc::try_clone(vec)?),
            }),
            None => Ok(SharedItems::empty()),
        }
    }
}

impl<T: PartialEq> PartialEq for SharedItems<T> {
    ghost eq = { pointwise T.eq };

    ghost laws = { lists_per T.laws };

    fn eq(&self, other: &SharedItems<T>) -> bool {
        if self.shared.is_none() && other.shared.is_none() {
            return true;
        }
        let items = self.as_slice();
        let others = other.as_slice();
        if items.len() != others.len() {
            return false;
        }
        for i in 0..items.len() {
            if items[i] != others[i] {
                return false;
            }
        }
        true
    }
}

impl<T: Eq> Eq for SharedItems<T> {
    ghost laws = { lists_equiv T.Eq.laws };
}

impl<T: PartialOrd> PartialOrd for SharedItems<T> {
    ghost partial_cmp = { slice_partial_cmp T.partial_cmp };

    ghost laws = { lists_po T.PartialOrd.laws };

    fn partial_cmp(&self, other: &SharedItems<T>) -> Option<Ordering> {
        self.as_slice().partial_cmp(&other.as_slice())
    }
}

impl<T: Ord> Ord for SharedItems<T> {
    ghost cmp = { slice_cmp T.cmp };

    ghost total = { lists_total T.total };

    ghost matches_partial_cmp = { lists_agrees T.matches_partial_cmp };

    ghost matches_eq = { lists_ties T.cmp T.matches_eq };

    fn cmp(&self, other: &SharedItems<T>) -> Ordering {
        self.as_slice().cmp(&other.as_slice())
    }
}

impl<T: Hash> Hash for SharedItems<T> {
    ghost hash_input = { fed.slice T.hash_input };

    ghost respects_eq = { (items_Alike (record { fed = T.respects_eq })).fed };

    fn hash<H: Hasher>(&self, state: &mut H) {
        self.as_slice().hash(state);
    }
}

impl<T: fmt::Debug> fmt::Debug for SharedItems<T> {
    fn fmt<W: fmt::Write>(&self, f: &mut fmt::Formatter<W>) -> fmt::Result {
        f.debug_list().entries(self.as_slice()).finish()
    }
}
