//! A recorder that keeps a journal of its calls.

use crate::registers::{named_handle, note_register};
use crate::replaying::answer_of;
use metrics::{Answer, Call, MetricKind, Recorder, Refused};
use std::alloc::Global;
use std::marker::Model;

/// A recorder with the calls that were made of it, and their results.
///
/// The books were new at the first call. Each result is the expected one after the calls before it, or out of memory. The books
/// hold what the journal says.
#[derive(Drop)]
pub struct Journaled<R: Recorder> {
    alloc: Global,
    on: R,
    journal: Vec<(Call, Answer)>,
    registers: Vec<(MetricKind, usize)>,
}

impl<R: Recorder> Model for Journaled<R> {
    ghost use Rattle.metrics.specs.History.{Log};
    ghost use Rattle.metrics_replay.specs.Journaled.{IsKeptOf};

    ghost Value = { R × Log };

    ghost view = { λ j. (j.on, j.journal.items) };

    ghost invariant = { λ j. IsKeptOf (R.meaning j.on) j.journal.items j.registers.items };
}

impl<R: Recorder> Journaled<R> {
    ghost use Rattle.std.specs.Prelude.{◌≡◌, ◌++◌, ◌∷◌, [], ⊤, OnOk, IfErr, MatchResult};
    ghost use Rattle.std.specs.Borrow.{sem};
    ghost use mathlib.Core.Option.{none};
    ghost use denote.Follow.{follows_so};
    ghost use Rattle.metrics_names.specs.declared.refused.Refused.TheVariants.{Memory};
    ghost use Rattle.metrics.specs.declared.calls.Call.{Call as Called};
    ghost use Rattle.metrics.specs.declared.calls.Answer.{Answer as Answered};
    ghost use Rattle.metrics.specs.Meaning.{AreNew, KeepsTargets};
    ghost use Rattle.metrics.specs.History.{Log};
    ghost use Rattle.metrics_replay.specs.Journaled.{IsJournal};
    ghost use Rattle.metrics_replay.specs.contracts.journaled.Journaled.{the_row};

    /// Makes a recorder of new books with an empty journal, without allocating.
    pub fn new(alloc: Global, on: R) -> Journaled<R>
        requires { AreNew (R.meaning on).contents }
        ensures { result ≡ (on, []) }
    {
        Journaled {
            alloc,
            on,
            journal: Vec::new(alloc),
            registers: Vec::new(alloc),
        }
    }

    /// Makes a call of the recorder, and notes it with its result.
    fn make(&mut self, call: Call) -> Result<(), Refused>
        ensures noted { OnOk result ((answer : Answered) × (self.new.1 ≡ self.old.1 ++ (call, answer) ∷ [])) }
        ensures targets { KeepsTargets (R.meaning self.old.0) (R.meaning self.new.0) }
        ensures err { IfErr result (λ refused. (refused ≡ Memory 0) × (self.new ≡ self.old)) }
    {
        self.journal.reserve(1)?;
        self.registers.reserve(1)?;
        let handle = named_handle(&call, self.journal.as_slice(), self.registers.as_slice());
        let answer = answer_of(self.alloc, &mut self.on, &call, handle);
        note_register(&mut self.registers, &call, self.journal.len());
        self.journal.push_reserved((call, answer));
        Ok(())
    }

    /// Makes a call of the recorder, notes it with its result, and borrows the result.
    ///
    /// It makes room first. `Err` comes only if that fails, and then nothing was called or noted.
    pub fn call(&mut self, call: Call) -> Result<&Answer, Refused>
        ensures* noted { sem 𝓛 (follows_so (the_row R.row R.Recorder) (the_row R.row R.Recorder) self.entry.ghost_name none
            (λ _ _. ⊤)
            (λ after. KeepsTargets (R.meaning self.old.0) (R.meaning after.0) × MatchResult result
            (λ answer. after.1 ≡ self.old.1 ++ (call, answer.now) ∷ [])
            (λ refused. (refused ≡ Memory 0) × (after ≡ self.old)))) }
    {
        self.make(call)?;
        Ok(self.latest())
    }

    /// The result of the latest call.
    fn latest(&self) -> &Answer
        requires { (calls : Log) × (call : Called) × (answer : Answered) × (self.now.1 ≡ calls ++ (call, answer) ∷ []) }
        ensures { (calls : Log) (call : Called) (answer : Answered) → self.now.1 ≡ calls ++ (call, answer) ∷ []
            → result.now ≡ answer }
    {
        &self.journal[self.journal.len() - 1].1
    }

    /// Returns the calls that were made, in order, each with its result.
    pub fn journal(&self) -> &[(Call, Answer)]
        ensures journal { result.now ≡ self.now.1 }
        ensures legal { IsJournal (R.meaning self.now.0) result.now }
    {
        self.journal.as_slice()
    }

    /// Returns the recorder.
    pub fn recorder(&self) -> &R
        ensures recorder { result.now ≡ self.now.0 }
        ensures books { IsJournal (R.meaning result.now) self.now.1 }
    {
        let _ = &self.journal;
        &self.on
    }
}
