//! The bounds of histograms by their names and units.
ghost use Rattle.std.specs.Prelude.{◌≡◌, ◌<◌, ℕ, [], List, Option as Maybe, Some as Just, All};
ghost use Rattle.std.specs.Prelude.{None as Nothing, length, if◌then◌else◌, nat_lt, IfOk, IfErr, OnOk, OnErr, bytes_eq};
ghost use Rattle.std.specs.Option.{unwrap_or};
ghost use Rattle.indexmap.specs.IndexMap.{get, get_by_text};
ghost use Rattle.metrics.specs.declared.error.Error.TheVariants.{Memory as OutOfMemory, NoBounds as WithoutBounds};
ghost use Rattle.metrics_storage.specs.Histogram.{no_samples, bounds_of};
ghost use Rattle.metrics_names.specs.declared.common.Unit.{Unit as Measure};
ghost use Rattle.metrics_exporter.specs.Prefixes.{IsEmpty, ArePlaces, AreEmptyAt, at_longest};
ghost use Rattle.metrics_exporter.specs.Units.{unit_eq};

use indexmap::IndexMap;
use metrics::{Error, Unit};
use metrics_storage::Histogram;
use prefix_match::PrefixTrie;
use std::alloc::Global;

/// Which bounds a histogram counts at, in the unit of its samples: those of exactly its name, otherwise those of the longest
/// prefix that the name begins with, otherwise those of the unit, otherwise the default ones.
#[derive(Drop)]
pub struct Bounds {
    default: Histogram,
    exact: IndexMap<String, Histogram>,
    units: IndexMap<Unit, Histogram>,
    prefixes: PrefixTrie,
    chosen: Vec<Histogram>,
    ghost unused: { IsEmpty default },
    ghost all_unused: { All IsEmpty chosen.items },
    ghost exact_unused: { AreEmptyAt (get_by_text exact) },
    ghost units_unused: { AreEmptyAt (get unit_eq units) },
    ghost within: { ArePlaces prefixes.pairs (length chosen.items) },
}

/// Returns a histogram without samples at these bounds. Fails with `NoBounds` if there are none.
fn empty_at(alloc: Global, bounds: &[i64]) -> Result<Histogram, Error>
    ensures ok { IfOk result (λ h. h ≡ no_samples bounds.now) }
    ensures some { OnOk result (0 < length bounds.now) }
    ensures err { IfErr result (λ e. e ≡ (if nat_lt 0 (length bounds.now) then OutOfMemory else WithoutBounds)) }
{
    match Histogram::new(alloc, bounds)? {
        Some(empty) => Ok(empty),
        None => Err(Error::NoBounds),
    }
}

impl Bounds {
    ghost use Rattle.metrics_exporter.specs.Choice.{IsChoice, IsPrefixChoice, chosen_at, set_for, exact_for, unit_for};
    ghost use Rattle.metrics_exporter.specs.Choice.{default_in, bounds_in, bounds_for};

    /// Returns bounds that are `default` for each name. Fails with `NoBounds` if it is empty, otherwise only when out of
    /// memory.
    pub fn new(alloc: Global, default: &[i64]) -> Result<Bounds, Error>
        ensures ok { IfOk result (λ b. (b.default ≡ no_samples default.now) × (b.prefixes.pairs ≡ [])) }
        ensures some { OnOk result (0 < length default.now) }
        ensures exact { IfOk result (λ b. (name : List ℕ) → exact_for b name ≡ Nothing) }
        ensures units { IfOk result (λ b. (unit : Measure) → unit_for b unit ≡ Nothing) }
        ensures all { IfOk result (λ b. (unit : Maybe Measure) (name : List ℕ) → bounds_in b unit name ≡ default.now) }
        ensures err { IfErr result (λ e. e ≡ (if nat_lt 0 (length default.now) then OutOfMemory else WithoutBounds)) }
    {
        let default = empty_at(alloc, default)?;
        Ok(Bounds {
            default,
            exact: IndexMap::new(alloc),
            units: IndexMap::new(alloc),
            prefixes: PrefixTrie::new(alloc),
            chosen: Vec::new(alloc),
        })
    }

    /// Sets other bounds for the names that begin with the prefix, unless a longer prefix or exact bounds are theirs.
    /// Fails with `NoBounds` if there are none, otherwise with `Memory`. A call that fails changes no choice.
    pub fn set(&mut self, alloc: Global, prefix: &str, bounds: &[i64]) -> Result<(), Error>
        ensures default { self.new.default ≡ self.old.default }
        ensures ok { OnOk result (chosen_at self.new prefix.now ≡ no_samples bounds.now) }
        ensures sets { OnOk result ((p : List ℕ) → set_for self.new p
            ≡ (if bytes_eq p prefix.now then Just bounds.now else set_for self.old p)) }
        ensures exact { (name : List ℕ) → exact_for self.new name ≡ exact_for self.old name }
        ensures units { (unit : Measure) → unit_for self.new unit ≡ unit_for self.old unit }
        ensures refused { OnErr result ((p : List ℕ) → set_for self.new p ≡ set_for self.old p) }
        ensures err { IfErr result (λ e. e ≡ (if nat_lt 0 (length bounds.now) then OutOfMemory else WithoutBounds)) }
    {
        let empty = empty_at(alloc, bounds)?;
        self.chosen.reserve(1)?;
        let at = self.chosen.len();
        match self.prefixes.insert(prefix.as_bytes(), at) {
            Ok(_) => {
                self.chosen.push_reserved(empty);
                Ok(())
            }
            Err(_) => Err(Error::Memory),
        }
    }

    /// Sets other bounds for this name alone, whatever is set for its prefixes.
    /// Fails with `NoBounds` if there are none, otherwise with `Memory`. A call that fails changes no choice.
    pub fn set_exact(&mut self, alloc: Global, name: &str, bounds: &[i64]) -> Result<(), Error>
        ensures default { self.new.default ≡ self.old.default }
        ensures sets { OnOk result ((n : List ℕ) → exact_for self.new n
            ≡ (if bytes_eq name.now n then Just bounds.now else exact_for self.old n)) }
        ensures prefixes { (p : List ℕ) → set_for self.new p ≡ set_for self.old p }
        ensures units { (unit : Measure) → unit_for self.new unit ≡ unit_for self.old unit }
        ensures refused { OnErr result ((n : List ℕ) → exact_for self.new n ≡ exact_for self.old n) }
        ensures err { IfErr result (λ e. e ≡ (if nat_lt 0 (length bounds.now) then OutOfMemory else WithoutBounds)) }
    {
        let empty = empty_at(alloc, bounds)?;
        self.exact.insert(String::from_str(alloc, name)?, empty)?;
        Ok(())
    }

    /// Sets other bounds for the names of this unit, unless exact bounds or those of a prefix are theirs.
    /// Fails with `NoBounds` if there are none, otherwise with `Memory`. A call that fails changes no choice.
    pub fn set_unit(&mut self, alloc: Global, unit: Unit, bounds: &[i64]) -> Result<(), Error>
        ensures default { self.new.default ≡ self.old.default }
        ensures sets { OnOk result ((u : Measure) → unit_for self.new u
            ≡ (if unit_eq unit u then Just bounds.now else unit_for self.old u)) }
        ensures exact { (name : List ℕ) → exact_for self.new name ≡ exact_for self.old name }
        ensures prefixes { (p : List ℕ) → set_for self.new p ≡ set_for self.old p }
        ensures refused { OnErr result ((u : Measure) → unit_for self.new u ≡ unit_for self.old u) }
        ensures err { IfErr result (λ e. e ≡ (if nat_lt 0 (length bounds.now) then OutOfMemory else WithoutBounds)) }
    {
        let empty = empty_at(alloc, bounds)?;
        self.units.insert(unit, empty)?;
        Ok(())
    }

    /// Returns the bounds of a unit, otherwise the default ones.
    fn default_of(&self, unit: Option<Unit>) -> &Histogram
        ensures { result.now ≡ no_samples (default_in self.now unit) }
    {
        let Some(unit) = unit else {
            return &self.default;
        };
        match self.units.get(&unit) {
            Some(set) => set,
            None => &self.default,
        }
    }

    /// Returns the bounds of the longest prefix of a name, otherwise the other ones.
    fn of_prefix<'a>(&'a self, name: &str, other: &'a Histogram) -> &'a Histogram
        requires { IsEmpty other.now }
        ensures choice { other.now ≡ self.now.default → IsPrefixChoice self.now name.now result.now }
        ensures bounds { result.now ≡ no_samples (at_longest (bounds_of other.now) (set_for self.now) name.now) }
    {
        let Some(at) = self.prefixes.longest(name.as_bytes()) else {
            return other;
        };
        match self.chosen.get(at) {
            Some(chosen) => chosen,
            None => &self.default,
        }
    }

    /// Returns the bounds of exactly this name, otherwise those of its longest prefix, otherwise the other ones.
    fn of_name<'a>(&'a self, name: &str, other: &'a Histogram) -> &'a Histogram
        requires { IsEmpty other.now }
        ensures choice { other.now ≡ self.now.default → IsChoice self.now name.now result.now }
        ensures bounds { result.now ≡ no_samples (unwrap_or (exact_for self.now name.now)
            (at_longest (bounds_of other.now) (set_for self.now) name.now)) }
    {
        match self.exact.get(name) {
            Some(exact) => exact,
            None => self.of_prefix(name, other),
        }
    }

    /// Returns a histogram without samples at the bounds of a name.
    pub fn of(&self, name: &str) -> &Histogram
        ensures choice { IsChoice self.now name.now result.now }
        ensures bounds { result.now ≡ no_samples (bounds_for self.now name.now) }
    {
        self.of_name(name, &self.default)
    }

    /// Returns a histogram without samples at the bounds of a name in this unit, if any.
    pub fn of_unit(&self, unit: Option<Unit>, name: &str) -> &Histogram
        ensures { result.now ≡ no_samples (bounds_in self.now unit name.now) }
    {
        self.of_name(name, self.default_of(unit))
    }
}
