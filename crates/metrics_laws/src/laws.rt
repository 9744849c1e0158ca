//! Laws of the definitions.
ghost use Rattle.std.specs.Prelude.{◌≡◌, ℕ, List};
ghost use Rattle.std.specs.Cmp.Lexicographic.{slice_cmp};
ghost use Rattle.std.specs.Ordering.{nat_cmp};
ghost use Rattle.metrics_names.specs.Names.{KeyParts, SeriesKey, series_key_eq, label_cmp, key_cmp, series_key_cmp};
ghost use Rattle.metrics_laws.specs.Laws.{EqualityIsOfAllParts, FilterTestsSubstrings, WinnerIsWinner};
ghost use Rattle.metrics_laws.specs.Laws.{ChunksAreTheList, ChunksAreFull};

use metrics::{CompositeKey, Key, KeyName, Label};

/// Does nothing. Its contract has the laws that say what the definitions mean.
pub fn definition_laws()
    // `==` and the order of composite keys, and the order of their parts.
    ensures equality { (a b : SeriesKey) → ⟦<CompositeKey as PartialEq>⟧.eq a b ≡ series_key_eq a b }
    ensures order { (a b : SeriesKey) → ⟦<CompositeKey as Ord>⟧.cmp a b ≡ series_key_cmp a b }
    ensures label_order { (a b : List ℕ × List ℕ) → ⟦<Label as Ord>⟧.cmp a b ≡ label_cmp a b }
    ensures name_order { (a b : List ℕ) → ⟦<KeyName as Ord>⟧.cmp a b ≡ slice_cmp nat_cmp a b }
    ensures key_order { (a b : KeyParts) → ⟦<Key as Ord>⟧.cmp a b ≡ key_cmp a b }
    ensures all_parts { EqualityIsOfAllParts }

    // Layers and samples.
    ensures filter { FilterTestsSubstrings }
    ensures router { WinnerIsWinner }
    ensures chunks { ChunksAreTheList }
    ensures full_chunks { ChunksAreFull }
{}
