//! Labels from pairs of texts.
ghost use Rattle.std.specs.Prelude.{◌≡◌, MatchResult, map};
ghost use Rattle.metrics.specs.declared.error.Error.TheVariants.{Memory as OutOfMemory};

use metrics::{Error, Label};
use std::alloc::Global;

/// Returns a label of each pair of a name and a value, in their order.
fn labels_from(alloc: Global, pairs: &[(&str, &str)]) -> Result<Vec<Label>, Error>
    ensures { MatchResult result (λ made. made.items ≡ map (λ l. (l.0.now, l.1.now)) pairs.now) (λ e. e ≡ OutOfMemory) }
{
    let mut made = Vec::with_capacity(alloc, pairs.len())?;
    for (key, value) in pairs {
        made.push(Label::new(alloc, key, value)?)?;
    }
    Ok(made)
}

/// Adds `Label::list`.
pub trait LabelList {
    /// Returns a label of each pair of a name and a value, in their order, as `Collector::with_labels` takes them.
    ///
    /// Fails with `Error::Memory` when out of memory.
    fn list(alloc: Global, pairs: &[(&str, &str)]) -> Result<Vec<Label>, Error>
        ensures { MatchResult result (λ made. made.items ≡ map (λ l. (l.0.now, l.1.now)) pairs.now)
            (λ e. e ≡ OutOfMemory) };
}

impl LabelList for Label {
    fn list(alloc: Global, pairs: &[(&str, &str)]) -> Result<Vec<Label>, Error> {
        labels_from(alloc, pairs)
    }
}
