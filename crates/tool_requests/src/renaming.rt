//! The key that rules have for one.
ghost use Rattle.std.specs.Prelude.{◌≡◌, IfOk, option_map, Some as There};
ghost use Rattle.tool_requests.specs.Names.{ruled_name, named_key};

use crate::cache::SeriesCache;
use metrics::{Key, MetricKind, Refused};
use metrics_rules::{Rules, Scratch, Visitor};
use std::alloc::Global;

/// Copies the first key that it is shown.
#[derive(Drop)]
pub(crate) struct First {
    found: Option<Key>,
}

impl Visitor<Key> for First {
    ghost use Rattle.std.specs.Prelude.{◌≡◌, Some as There};
    ghost use Rattle.std.specs.Option.{option_or};
    ghost use Rattle.metrics_names.specs.declared.refused.Refused.TheVariants.{Memory};

    ghost accepts = { λ v leaf key w. w.found ≡ option_or v.found (There key) };

    ghost refuses = { λ v leaf key e w. e ≡ Memory 0 };

    fn visit(&mut self, _leaf: usize, key: &Key) -> Result<(), Refused> {
        if self.found.is_none() {
            self.found = Some(key.clone()?);
        }
        Ok(())
    }
}

/// Memory that one line after another uses: for names below prefixes, and for series that came before. It begins without any.
#[derive(Drop)]
pub struct Room {
    below: Scratch<Key>,
    /// Series of earlier lines.
    pub(crate) cache: SeriesCache,
}

impl Room {
    /// Makes one, without allocating.
    pub fn new(alloc: Global) -> Room {
        Room {
            below: Scratch::new(alloc),
            cache: SeriesCache::new(alloc),
        }
    }

    /// Returns whether the last line was one of a series that an earlier line had.
    pub fn knew_series(&self) -> bool {
        self.cache.is_hit
    }

    /// Forgets the series of earlier lines.
    pub fn forget_series(&mut self) {
        self.cache.clear();
    }

    /// Returns the key by the name that the rules have for it, or none if they drop it.
    pub(crate) fn key_by(
        &mut self,
        rules: &Rules,
        kind: MetricKind,
        key: &Key,
    ) -> Result<Option<Key>, Refused>
        ensures { IfOk result (λ found. found
            ≡ option_map (named_key key.now.labels) (ruled_name (There rules.now) kind key.now.name)) }
    {
        let mut first = First { found: None };
        match rules.visit(kind, key, &mut self.below, &mut first) {
            Ok(_count) => Ok(first.found),
            Err(stopped) => Err(stopped.refused),
        }
    }
}
