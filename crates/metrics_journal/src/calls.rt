//! Calls of a shard as values.

use metrics::MetricKind;

/// A call of a shard of a registry.
#[derive(Clone, Debug, PartialEq, Eq, Drop)]
pub enum ShardCall<K> {
    /// Makes a cell if the key isn't held, and replies whether the key was new.
    Create(MetricKind, K),
    /// Removes a cell, and replies whether the key was there.
    Delete(MetricKind, K),
    /// Replies whether the key is there.
    Has(MetricKind, K),
}

impl<K> ShardCall<K> {
    ghost use Rattle.std.specs.Prelude.{◌≡◌};
    ghost use Rattle.metrics_journal.specs.Journal.{key_of};

    /// Returns the key that the call is about.
    pub fn key(&self) -> &K
        ensures { result.now ≡ key_of self.now }
    {
        match self {
            ShardCall::Create(_, key) => key,
            ShardCall::Delete(_, key) => key,
            ShardCall::Has(_, key) => key,
        }
    }
}
