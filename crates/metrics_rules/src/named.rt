//! What rules are asked about.
ghost use Rattle.std.specs.Prelude.{◌≡◌, MatchResult};
ghost use Rattle.metrics.specs.Layers.{dotted};
ghost use Rattle.metrics_names.specs.Names.{KeyParts};
ghost use Rattle.metrics_names.specs.declared.refused.Refused.TheVariants.{Memory};

use metrics::{Key, KeyName, Refused};
use metrics_layers::dotted_name;
use std::alloc::Global;

/// A key, or a name, which is meant as the key without labels.
pub trait Named: Drop {
    /// The key.
    ghost parts: { Self → KeyParts };

    /// Makes one with an empty name, without allocating.
    fn empty(alloc: Global) -> Self;

    /// Returns the name.
    fn name(&self) -> &str
        ensures { result.now ≡ (parts self.now).name };

    /// Becomes prefix, dot and the name of another, with its labels. When out of memory it is valid but unspecified.
    fn set_below(&mut self, alloc: Global, prefix: &str, above: &Self) -> Result<(), Refused>
        ensures { MatchResult result
            (λ done. parts self.new ≡ record {
              name = dotted prefix.now (parts above.now).name;
              labels = (parts above.now).labels;
            })
            (λ e. e ≡ Memory 0) };
}

/// It allocates only for a name that is longer than all earlier ones.
impl Named for Key {
    ghost parts = { λ k. k };

    fn empty(alloc: Global) -> Key {
        Key::from(KeyName::empty(alloc))
    }

    fn name(&self) -> &str {
        self.name()
    }

    fn set_below(&mut self, _alloc: Global, prefix: &str, above: &Key) -> Result<(), Refused> {
        self.set_below(prefix, above)
    }
}

impl Named for KeyName {
    ghost use Rattle.std.specs.Prelude.{[]};

    ghost parts = { λ n. record { name = n; labels = [] } };

    fn empty(alloc: Global) -> KeyName {
        KeyName::from(String::new(alloc))
    }

    fn name(&self) -> &str {
        self.as_str()
    }

    fn set_below(&mut self, alloc: Global, prefix: &str, above: &KeyName) -> Result<(), Refused> {
        *self = dotted_name(alloc, prefix, above.as_str())?;
        Ok(())
    }
}
