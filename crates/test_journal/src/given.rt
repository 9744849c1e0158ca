//! What the tests share: the registry, and calls by act, kind and name.

use metrics::{Error, Key, MetricKind};
use metrics_journal::{JournaledRegistry, ShardCall};
use metrics_registry::PlainStorage;
use std::alloc::Global;

/// A registry with journals of its calls.
pub type Registry<T, F> = JournaledRegistry<Key, PlainStorage, T, F>;

/// A call with its reply.
pub type Pair = (ShardCall<Key>, bool);

/// What a call does.
#[derive(Clone, Copy, Debug, PartialEq, Eq)]
pub enum Act {
    Create,
    Has,
    Delete,
}

/// Returns the call of a key without labels.
pub fn call_of(
    alloc: Global,
    act: Act,
    kind: MetricKind,
    name: &str,
) -> Result<ShardCall<Key>, Error> {
    let key = Key::from_name(alloc, name)?;
    Ok(match act {
        Act::Create => ShardCall::Create(kind, key),
        Act::Has => ShardCall::Has(kind, key),
        Act::Delete => ShardCall::Delete(kind, key),
    })
}

/// Returns whether this is the call of a key without labels.
pub fn is_call(call: &ShardCall<Key>, act: Act, kind: MetricKind, name: &str) -> bool {
    let found = match call {
        ShardCall::Create(kind, _) => (Act::Create, *kind),
        ShardCall::Has(kind, _) => (Act::Has, *kind),
        ShardCall::Delete(kind, _) => (Act::Delete, *kind),
    };
    let key = call.key();
    found == (act, kind) && key.name() == name && key.labels().is_empty()
}
