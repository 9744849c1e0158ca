//! What one caller knows of a counter.
ghost use Rattle.std.specs.Prelude.{ℕ, Bool};
ghost use Rattle.metrics_counts.specs.declared.view.View.{View as Known};
ghost use Rattle.metrics_counts.specs.Owning.{seat_owns, view_coded};

use std::marker::{Model, PhantomData};

/// A caller at a counter's cell. It has no bytes, and may be dropped.
///
/// Contracts see which cell it is at, and the caller's `View`.
pub struct Seat {
    pub(crate) marker: PhantomData<()>,
    pub ghost cell: { ℕ },
    pub ghost has_stepped: { Bool },
    pub ghost id: { ℕ },
    pub ghost view: { Known } by { view_coded },
}

impl Model for Seat {
    ghost also_owns = { λ s. seat_owns s.has_stepped s.cell s.id s.view };
}

impl Drop for Seat {
    fn drop(self) {
        let Self { marker: _ } = self;
    }
}

unsafe impl Send for Seat {}
