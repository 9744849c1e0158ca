//! The key of a row.
ghost use Rattle.std.specs.Prelude.{◌≡◌, IfOk, IsTrue};
ghost use Rattle.metrics_exposition.specs.Labels.{AreReady};

use metrics::Key;
use metrics_exposition::are_ready;
use std::alloc::AllocError;
use std::marker::Model;
use std::ops::Deref;

/// The key of a row. It knows whether a text shows its labels as they are, once it has looked at them. Contracts see it as the
/// key.
#[derive(Drop)]
pub struct RowKey {
    key: Key,
    /// Nothing until it has looked.
    is_ready: Option<bool>,
}

impl Model for RowKey {
    ghost use Rattle.std.specs.Prelude.{◌≡◌, true, Some};
    ghost use Rattle.metrics_names.specs.Names.{KeyParts};
    ghost use Rattle.metrics_exposition.specs.Labels.{AreReady};

    ghost Value = { KeyParts };

    ghost view = { λ k. k.key };

    ghost invariant = { λ k. k.is_ready ≡ Some true → AreReady k.key.labels };
}

impl RowKey {
    /// Makes a row's key of a key. Allocates nothing.
    pub fn new(key: Key) -> RowKey
        ensures { result ≡ key }
    {
        RowKey {
            key,
            is_ready: None,
        }
    }

    /// Returns a copy. Fails when out of memory.
    pub fn clone(&self) -> Result<RowKey, AllocError>
        ensures { IfOk result (λ k. k ≡ self.now) }
    {
        Ok(RowKey {
            key: self.key.clone()?,
            is_ready: self.is_ready,
        })
    }

    /// Returns the key alone.
    pub fn into_key(self) -> Key
        ensures { result ≡ self }
    {
        let RowKey { key, is_ready: _ } = self;
        key
    }

    /// Looks at the labels, unless it has.
    pub(crate) fn look(&mut self)
        ensures { self.new ≡ self.old }
    {
        if self.is_ready.is_none() {
            self.is_ready = Some(are_ready(self.key.labels()));
        }
    }

    /// Returns whether it has seen that a text shows its labels as they are.
    pub(crate) fn is_ready(&self) -> bool
        ensures { IsTrue result → AreReady self.now.labels }
    {
        match self.is_ready {
            Some(is_ready) => is_ready,
            None => false,
        }
    }
}

impl Deref for RowKey {
    type Target = Key;

    ghost deref_gives = { λ k key. key ≡ k };

    fn deref(&self) -> &Key {
        &self.key
    }
}
