//! Texts that their copies share.
ghost use Rattle.std.specs.Prelude.{◌≡◌, ◌==◌, Some, IfOk};
ghost use Rattle.std.specs.Cmp.{partial_equiv_from_equiv};
ghost use Rattle.std.specs.Cmp.Lexicographic.{pointwise, nat_list_eq_equiv};

use std::alloc::{AllocError, Global};
use std::fmt;
use std::marker::Model;
use std::sync::Arc;

/// A text that its clones share, so that a clone allocates nothing. Contracts see it as its bytes.
#[derive(Drop)]
pub struct SharedText {
    shared: Arc<String>,
}

impl Model for SharedText {
    ghost use Rattle.std.specs.Prelude.{ℕ, List, string_bytes};
    ghost use Rattle.std.specs.Arc.{arc_value};

    ghost Value = { List ℕ };

    ghost view = { λ a. string_bytes (arc_value a.shared) };
}

impl SharedText {
    /// Copies a text.
    ///
    /// Fails only when out of memory.
    pub fn new(alloc: Global, text: &str) -> Result<SharedText, AllocError>
        ensures { IfOk result (λ t. t ≡ text.now) }
    {
        let string = String::from_str(alloc, text)?;
        Ok(SharedText {
            shared: Arc::new(alloc, string)?,
        })
    }

    /// Returns the text.
    pub fn as_str(&self) -> &str
        ensures { result.now ≡ self.now }
    {
        self.shared.as_str()
    }
}

impl Clone for SharedText {
    ghost is_clone = { λ s t. t ≡ s };

    fn clone(&self) -> Result<SharedText, AllocError> {
        Ok(SharedText {
            shared: Arc::try_clone(&self.shared)?,
        })
    }
}

impl PartialEq for SharedText {
    ghost eq = { pointwise ◌==◌ };

    ghost laws = { partial_equiv_from_equiv nat_list_eq_equiv };

    fn eq(&self, other: &SharedText) -> bool {
        self.as_str() == other.as_str()
    }
}

impl Eq for SharedText {
    ghost laws = { nat_list_eq_equiv };
}

impl fmt::Debug for SharedText {
    fn fmt<W: fmt::Write>(&self, f: &mut fmt::Formatter<W>) -> fmt::Result {
        fmt::Debug::fmt(&self.as_str(), f)
    }
}

impl fmt::Display for SharedText {
    ghost output = { λ s. Some s };

    fn fmt<W: fmt::Write>(&self, f: &mut fmt::Formatter<W>) -> fmt::Result {
        f.pad(self.as_str())
    }
}
