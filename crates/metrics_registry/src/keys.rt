//! Keys by the number that picks their shard, and hashers.
ghost use Rattle.std.specs.Prelude.{◌≡◌, ℕ, true, Some, IsSome};
ghost use Rattle.metrics_names.specs.Hashing.{hash_number, key_number, key_number_same};
ghost use Rattle.std.proofs.Common.{ap};

use metrics_names::Key;
use std::hash::{FoldHasher, Hash, Hasher};
use std::marker::Model;

/// A key with a number of its own, by which a registry picks the key's shard.
pub trait Hashable: Hash {
    /// The number of a value.
    ghost number: { Self → ℕ };

    /// Returns the number of the key, any `u64`. Equal keys have equal numbers.
    fn hashable(&self) -> u64
        ensures { result ≡ number self.now };

    /// Equal values have equal numbers.
    ghost same: { (x y : Self) → Self.eq x y ≡ true → number x ≡ number y };
}

/// A value whose clones are equal to it, as a registry requires of its keys.
pub trait EqualClone: Clone + Eq {
    /// A clone of a value equals the value.
    ghost clones: { (value clone : Self) → Self.is_clone value clone → Self.eq value clone ≡ true };
}

/// Returns the number of a value by std's fast hasher, whose seed is fixed: whoever picks the values can make them collide.
fn folded<H: Hash>(value: &H) -> u64
    ensures { result ≡ hash_number (H.hash_input value.now) }
{
    let mut state = FoldHasher::default();
    value.hash(&mut state);
    state.finish()
}

impl Hashable for Key {
    ghost number = { key_number };

    ghost same = { key_number_same };

    /// The number that the key keeps.
    fn hashable(&self) -> u64 {
        self.number()
    }
}

impl EqualClone for Key {
    ghost use Rattle.std.specs.Prelude.{List};
    ghost use Rattle.std.proofs.Common.{sym, ◌∙◌};
    ghost use Rattle.metrics_names.specs.Names.{KeyParts};
    ghost use Rattle.metrics_names.specs.Equality.{key_eq-Decides};

    ghost clones = { λ k c h.
        let name : h.0.name ≡ h.1.name = sym h.4.0.2 ∙ (sym h.4.0.4 ∙ h.4.0.3) in
        let P : List ℕ → List (List ℕ × List ℕ) → KeyParts = λ n l. record { name = n; labels = l } in
        (key_eq-Decides k c).1
        (sym h.2 ∙ (ap (λ n. P n h.0.labels) name ∙ (ap (λ l. P h.1.name l) (sym h.4.1.0) ∙ h.3))) };
}

impl EqualClone for u64 {
    ghost use Rattle.std.proofs.Common.{rules};

    ghost clones = { Prim.search rules };
}

/// Passes through a number that is a hash already: `finish` returns what `write_u64` wrote last.
#[derive(Clone, Copy, Debug)]
pub struct KeyHasher {
    hash: Option<u64>,
}

impl Model for KeyHasher {
    ghost use Rattle.std.specs.Prelude.{ℕ, Option};

    ghost Value = { Option ℕ };

    ghost view = { λ h. h.hash };

    ghost inverse = { λ o. record { hash = o } };
}

impl Default for KeyHasher {
    ghost use Rattle.std.specs.Prelude.{◌≡◌, None};

    ghost is_default = { λ h. h ≡ None };

    /// A hasher to which nothing was written.
    fn default() -> KeyHasher {
        KeyHasher { hash: None }
    }
}

impl KeyHasher {
    /// Replaces the number.
    pub fn write_u64(&mut self, number: u64)
        ensures { self.new ≡ Some number }
    {
        self.hash = Some(number);
    }

    /// Returns the number that was written last. There has to be one.
    pub fn finish(&self) -> u64
        requires { IsSome self.now }
        ensures { self.now ≡ Some result }
    {
        match self.hash {
            Some(number) => number,
            None => unreachable!(),
        }
    }
}

/// Makes any value that can be hashed a `Hashable` key, by std's fast hasher.
#[derive(Clone, Debug, PartialEq, Eq, PartialOrd, Ord, Hash, Drop)]
pub struct DefaultHashable<H: Hash>(pub H);

impl<H: Hash> Hashable for DefaultHashable<H> {
    ghost number = { λ k. hash_number (H.hash_input k.0) };

    ghost same = { λ x y e. ap hash_number (H.respects_eq x.0 y.0 e) };

    fn hashable(&self) -> u64 {
        folded(&self.0)
    }
}

impl<H: Hash + EqualClone> EqualClone for DefaultHashable<H> {
    ghost clones = { λ k c h. H.clones k.0 c.0 h };
}
