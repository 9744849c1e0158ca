//! A prefix before each name.
ghost use Rattle.std.specs.Prelude.{◌≡◌, None, IfOk, MatchResult};
ghost use Rattle.metrics_names.specs.declared.refused.Refused.TheVariants.{Memory as MemoryRefused};
ghost use Rattle.metrics.specs.Layers.{dotted, prefixed};
ghost use Rattle.metrics.specs.declared.error.Error.TheVariants.{Memory};

use crate::layer::Layer;
use metrics::{
    Address, Error, Key, KeyName, MetricKind, Recorder, Refused, Reset, Snapshot, Text, Unit,
    Update,
};
use std::alloc::{AllocError, Global};
use std::marker::Model;

/// Adds a prefix and a dot before each name, also if the prefix is empty. Labels stay.
#[derive(Debug, Drop)]
pub struct PrefixLayer {
    prefix: Text,
}

impl Model for PrefixLayer {
    ghost use Rattle.std.specs.Prelude.{ℕ, List};

    ghost Value = { List ℕ };

    ghost view = { λ a. a.prefix };
}

impl PrefixLayer {
    /// Makes a layer with a copy of the prefix.
    ///
    /// Fails only when out of memory.
    pub fn new(alloc: Global, prefix: &str) -> Result<PrefixLayer, Error>
        ensures { MatchResult result (λ l. l ≡ prefix.now) (λ e. e ≡ Memory) }
    {
        Ok(PrefixLayer {
            prefix: Text::new(alloc, prefix)?,
        })
    }

    /// Returns a copy of the prefix.
    pub fn prefix(&self) -> Result<Text, AllocError>
        ensures { IfOk result (λ t. t ≡ self.now) }
    {
        self.prefix.clone()
    }
}

/// Joins prefix, dot and name.
///
/// Fails only when out of memory.
pub fn dotted_name(alloc: Global, prefix: &str, name: &str) -> Result<KeyName, Refused>
    ensures { MatchResult result (λ n. n ≡ dotted prefix.now name.now) (λ e. e ≡ MemoryRefused 0) }
{
    let mut text = String::with_capacity(alloc, prefix.len() + 1 + name.len())?;
    text.push_str(prefix)?;
    text.push_str(".")?;
    text.push_str(name)?;
    Ok(KeyName::from(text))
}

impl<R: Recorder> Layer<R> for PrefixLayer {
    type Output = Prefix<R>;

    ghost over = { prefixed };

    ghost fault = { λ _. None };

    fn layer(&self, alloc: Global, inner: R) -> Result<Prefix<R>, (Error, R)> {
        match self.prefix() {
            Ok(prefix) => Ok(Prefix {
                prefix,
                there: Key::from(KeyName::from(String::new(alloc))),
                inner,
            }),
            Err(_) => Err((Error::Memory, inner)),
        }
    }
}

/// A prefix over a recorder: each name reaches it as prefix, dot, name.
///
/// It keeps the last key that was registered, which shares its labels with the caller's key. So a register call allocates
/// only for a name that is longer than all earlier ones.
#[derive(Drop)]
pub struct Prefix<R> {
    prefix: Text,
    /// The last key as it reached the recorder. The next replaces it.
    there: Key,
    inner: R,
}

impl<R: Recorder> Recorder for Prefix<R> {
    ghost meaning = { λ p. prefixed p.prefix (R.meaning p.inner) };

    fn books(&self) -> usize {
        self.inner.books()
    }

    fn describe(
        &mut self,
        alloc: Global,
        kind: MetricKind,
        name: &KeyName,
        unit: Option<Unit>,
        text: &str,
    ) -> Result<usize, Refused> {
        let full = dotted_name(alloc, self.prefix.as_str(), name.as_str())?;
        self.inner.describe(alloc, kind, &full, unit, text)
    }

    fn register(
        &mut self,
        alloc: Global,
        kind: MetricKind,
        key: &Key,
    ) -> Result<Vec<Address>, Refused> {
        self.there.set_below(self.prefix.as_str(), key)?;
        self.inner.register(alloc, kind, &self.there)
    }

    fn holds(&self, kind: MetricKind, at: Address) -> bool {
        self.inner.holds(kind, at)
    }

    fn update(&mut self, at: Address, by: Update) -> Result<(), Refused> {
        self.inner.update(at, by)
    }

    fn snapshot_with(
        &mut self,
        alloc: Global,
        book: usize,
        reset: Reset,
    ) -> Result<Snapshot, Refused> {
        self.inner.snapshot_with(alloc, book, reset)
    }
}
