//! What a visit shows its targets to.
ghost use Rattle.std.specs.Prelude.{ℕ, ◌≡◌, ◌∷◌, [], MatchResult};
ghost use Rattle.metrics.specs.Targets.{raise};
ghost use Rattle.metrics_names.specs.Names.{KeyParts};
ghost use Rattle.metrics_names.specs.declared.refused.Refused.{Refused as Refusal};
ghost use Rattle.metrics_rules.specs.Visits.{Visits, FitsMore, after_more};

use crate::named::Named;
use metrics::Refused;

/// What a visit of a key or a name shows its targets to, one after another.
///
/// `accepts` says how an accepted target changes the visitor, and `refuses` what a refused one does. A visit says which targets
/// it showed.
pub trait Visitor<K: Named> {
    ghost accepts: { Self → ℕ → KeyParts → Self → Type 0 };

    ghost refuses: { Self → ℕ → KeyParts → Refusal → Self → Type 0 };

    /// Accepts a target: the number of a leaf, and the key or name as it is there.
    fn visit(&mut self, leaf: usize, key: &K) -> Result<(), Refused>
        ensures { MatchResult result
            (λ done. accepts self.old leaf (K.parts key.now) self.new)
            (λ e. refuses self.old leaf (K.parts key.now) e self.new) };
}

/// Where a visit ended before its last target.
#[derive(Clone, Copy, Debug, PartialEq, Eq)]
pub struct Stopped {
    /// How many targets had accepted, from the first on.
    pub accepted: usize,
    /// Why the next one didn't.
    pub refused: Refused,
}

/// The result of a visit, where so many targets had accepted before.
#[inline(always)]
pub(crate) fn with_more(accepted: usize, visited: Result<usize, Stopped>) -> Result<usize, Stopped>
    requires { FitsMore accepted visited }
    ensures { result ≡ after_more accepted visited }
{
    match visited {
        Ok(more) => Ok(accepted + more),
        Err(stopped) => Err(Stopped {
            accepted: accepted + stopped.accepted,
            refused: stopped.refused,
        }),
    }
}

/// Shows one target.
#[inline(always)]
pub(crate) fn show<K: Named, V: Visitor<K>>(
    visitor: &mut V,
    leaf: usize,
    key: &K,
) -> Result<usize, Stopped>
    ensures { Visits V.accepts V.refuses (K.parts key.now).labels visitor.old
        (raise leaf ((0, (K.parts key.now).name) ∷ [])) visitor.new result }
{
    match visitor.visit(leaf, key) {
        Ok(()) => Ok(1),
        Err(refused) => Err(Stopped {
            accepted: 0,
            refused,
        }),
    }
}
