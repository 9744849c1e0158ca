//! Laws of the definitions.
ghost use Rattle.std.specs.Prelude.{◌≡◌, ℕ, ℤ, List, Option as Maybe, Ok};
ghost use Rattle.metrics_exporter.specs.Exporting.{Cells, Setup, Step, IsExpiry};
ghost use Rattle.metrics_registry.specs.Idleness.{Answered};
ghost use Rattle.metrics_names.specs.Names.{KeyParts};
ghost use Rattle.metrics_exporter.specs.ExporterText.{IsText};
ghost use Rattle.metrics_exporter.specs.Prefixes.{at_longest, IsSetAtLongest, IsSetAtNone};
ghost use Rattle.metrics_exporter.specs.ExporterExamples.{AnsweredSo, KeptAtFifteen, GoneAtSixteen, BeginsAgain};

use crate::keys::key_order;

/// Does nothing. Its contract has the laws of the exporter's definitions.
pub fn exporter_law()
    // There is no more than one text of the series that are held.
    ensures one { (cells : Cells) (a b : List ℕ) → IsText cells a → IsText cells b → a ≡ b }
    // There is at most one list of checks that an expiry made of all held series, and one result.
    ensures expiry { (setup : Setup) (before : List Step) (now : ℕ) (a b : List (Answered KeyParts)) (n m : ℕ)
        → IsExpiry setup before now a (Ok n) → IsExpiry setup before now b (Ok m) → (a ≡ b) × (n ≡ m) }
    // A name has the bounds of the longest prefix that any are set for, otherwise the default ones.
    ensures longest { (default ns : List ℤ) (set : List ℕ → Maybe (List ℤ)) (name prefix : List ℕ)
        → IsSetAtLongest set name prefix ns → at_longest default set name ≡ ns }
    ensures default { (default : List ℤ) (set : List ℕ → Maybe (List ℤ)) (name : List ℕ)
        → IsSetAtNone set name → at_longest default set name ≡ default }
    // Examples: a counter that is removed at 16 after an update at 10, and that begins again.
    ensures answered { AnsweredSo }
    ensures fifteen { KeptAtFifteen }
    ensures sixteen { GoneAtSixteen }
    ensures again { BeginsAgain }
{
    key_order();
}
