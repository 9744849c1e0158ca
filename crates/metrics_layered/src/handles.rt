//! The handles of a name's targets, as one.
ghost use Rattle.std.specs.Prelude.{◌≡◌, ◌++◌, ◌∷◌, [], length, slice_get, option_map, OnOk};
ghost use Rattle.metrics_layered.specs.Handing.{handles_of};

use std::alloc::{AllocError, Global};
use std::mem;

/// The handles of the cells of a name's targets, in order.
#[derive(Clone, Drop)]
pub enum Handles<H> {
    /// The name has no target.
    Noop,
    One(H),
    Several(Vec<H>),
}

impl<H> Handles<H> {
    /// The handles where there are several, and else none.
    #[inline(always)]
    pub(crate) fn several(&self) -> &[H] {
        match self {
            Handles::Several(all) => all.as_slice(),
            _ => &[],
        }
    }
}

impl<H: Drop> Handles<H> {
    /// Returns the handles of a name without targets.
    pub fn noop() -> Handles<H>
        ensures { handles_of result ≡ [] }
    {
        Handles::Noop
    }

    /// Returns the number of cells.
    pub fn len(&self) -> usize
        ensures { result ≡ length (handles_of self.now) }
    {
        match self {
            Handles::Noop => 0,
            Handles::One(_) => 1,
            Handles::Several(all) => all.len(),
        }
    }

    /// Returns the handle of the cell of one target, counted from 0.
    pub fn get(&self, target: usize) -> Option<&H>
        ensures { option_map (λ h. h.now) result ≡ slice_get (handles_of self.now) target }
    {
        match self {
            Handles::Noop => None,
            Handles::One(only) => { if target == 0 { Some(only) } else { None } }
            Handles::Several(all) => all.get(target),
        }
    }

    /// Adds a handle at the end. When out of memory the handles are lost.
    pub(crate) fn push(&mut self, alloc: Global, handle: H) -> Result<(), AllocError>
        ensures { OnOk result (handles_of self.new ≡ handles_of self.old ++ handle ∷ []) }
    {
        match mem::replace(self, Handles::Noop) {
            Handles::Noop => {
                *self = Handles::One(handle);
                Ok(())
            }
            Handles::One(first) => {
                let mut all = Vec::new(alloc);
                all.push(first)?;
                all.push(handle)?;
                *self = Handles::Several(all);
                Ok(())
            }
            Handles::Several(mut all) => {
                all.push(handle)?;
                *self = Handles::Several(all);
                Ok(())
            }
        }
    }
}
