//! A bucket of a storm, and the pens of its threads.
ghost use Rattle.std.specs.Prelude.{◌≡◌, ℕ, ◌+◌, ◌<◌, ◌≤◌, ◌∷◌, [], None, IfOk, OnOk, IfErr};
ghost use Rattle.metrics.specs.declared.error.Error.TheVariants.{Memory as OutOfMemory};
ghost use Rattle.metrics_bucket.specs.Facts.{weigh};
ghost use Rattle.tool_grammar.specs.declared.error.RunError.TheVariants.{Memory};
ghost use Rattle.tool_storm.specs.Pens.{Bags, IsFresh, HasPushed, HasTaken, IsSplit, IsJoined, TellsTaken};

use crate::tally::Tally;
use metrics::Error;
use std::alloc::Global;
use std::sync::Wait;
use tool_grammar::RunError;

/// A bucket of numbers, into which each thread pushes with a pen of its own.
pub(crate) trait Bucket: Sync + Drop {
    type Pen: Send + Drop;

    /// The pen is of this bucket.
    ghost owns: { Self → Self.Pen → Type 0 };

    /// What the pen's account says.
    ghost bags: { Self.Pen → Bags };

    /// The weight of all pens of a bucket.
    ghost whole: { ℕ };

    /// Makes a bucket of so many blocks, and its first pen.
    fn open(alloc: Global, blocks: usize) -> Result<(Self, Self::Pen), RunError>
        requires { (0 < blocks) × (blocks ≤ 1024) }
        ensures own { IfOk result (λ r. owns r.0 r.1) }
        ensures fresh { IfOk result (λ r. IsFresh (bags r.1) × ((bags r.1).weight ≡ whole)) }
        ensures err { IfErr result (λ e. e ≡ Memory None) };

    /// Returns a new pen with half of the weight.
    fn split(&self, pen: &mut Self::Pen) -> Result<Self::Pen, Error>
        requires own { owns self.now pen.old }
        ensures own { IfOk result (λ p. owns self.now pen.new × owns self.now p) }
        ensures ok { IfOk result (λ p. IsSplit (bags pen.old) (bags pen.new) (bags p)) }
        ensures err { IfErr result (λ e. 1 < (bags pen.old).weight → e ≡ OutOfMemory) };

    /// Adds another pen, with its account.
    fn join(&self, pen: &mut Self::Pen, other: Self::Pen) -> Result<(), RunError>
        requires own { owns self.now pen.old × owns self.now other }
        ensures own { OnOk result (owns self.now pen.new) }
        ensures ok { OnOk result (IsJoined (bags pen.old) (bags other) (bags pen.new)) }
        ensures err { IfErr result (λ e. e ≡ Memory None) };

    /// Pushes one value. Where there is no room, it waits for it or makes some.
    fn push_one<R: Wait>(&self, rt: &R, pen: &mut Self::Pen, value: u64) -> Result<(), RunError>
        requires own { owns self.now pen.old }
        ensures own { owns self.now pen.new }
        ensures ok { OnOk result (HasPushed (bags pen.old) (value ∷ []) (bags pen.new)) }
        ensures err { IfErr result (λ e. e ≡ Memory None) };

    /// Clears once, if no other walk is under way and there is memory for it.
    fn clear_once<R: Wait>(&self, rt: &R, pen: &mut Self::Pen, found: &mut Tally)
        requires own { owns self.now pen.old }
        requires found { TellsTaken found.old (bags pen.old) }
        ensures own { owns self.now pen.new }
        ensures taken { HasTaken (bags pen.old) (bags pen.new) }
        ensures found { TellsTaken found.new (bags pen.new) };

    /// Returns all values that are left. There is no other pen.
    fn settle_all<R: Wait>(
        self,
        rt: &R,
        alloc: Global,
        pen: Self::Pen,
    ) -> Result<Vec<u64>, RunError>
        requires own { owns self pen }
        requires whole { (bags pen).weight ≡ whole }
        ensures ok { IfOk result (λ v. (h : ℕ → ℕ) → (bags pen).pushed h ≡ (bags pen).taken h + weigh h v.items) }
        ensures err { IfErr result (λ e. e ≡ Memory None) };
}
