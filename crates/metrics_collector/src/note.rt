//! A key that only clauses read.
ghost use Rattle.std.specs.Prelude.{◌≡◌};
ghost use base.Fml.{ftrue};
ghost use Rattle.metrics_names.specs.Names.{KeyParts};

use metrics::Key;
use std::marker::{Model, PhantomData, Send, Sync};

/// A key that only clauses read. It has no bytes.
///
/// It is std's `Snapshot` of a key, which has no law of its own on threads: a struct around one is found to be `Sync` only by a
/// search through all that it holds.
#[derive(Drop)]
pub(crate) struct KeyNote {
    marker: PhantomData<Key>,
    pub ghost key: { KeyParts },
}

impl Model for KeyNote {
    ghost also_owns = { λ _. ftrue };
}

unsafe impl Send for KeyNote {}

unsafe impl Sync for KeyNote {}

impl KeyNote {
    /// Notes a key.
    pub fn of(key: &Key) -> KeyNote
        ensures { result.key ≡ key.now }
    {
        let _ = key;
        KeyNote {
            marker: PhantomData,
        }
    }
}
