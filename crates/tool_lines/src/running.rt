//! Call lines on a recorder: what answers one, and the run over them.
ghost use Rattle.std.specs.Prelude.{◌≡◌, ◌++◌, ℕ, List, Some, IfSome, OnSome, OnOk, MatchResult, string_bytes};
ghost use Rattle.std.specs.Io.KnownBytes.{Consumes, Appends, IsAtEnd};
ghost use Rattle.metrics.specs.Meaning.{AreNew};
ghost use Rattle.metrics.specs.History.{Log};
ghost use Rattle.tool_stream.specs.Lines.{lines_of};
ghost use Rattle.tool_lines.specs.Output.{AnswersCalls};
ghost use Rattle.tool_grammar.specs.Grammar.{Spells, IsBad};
ghost use Rattle.tool_grammar.specs.Printing.{print, text_of};
ghost use Rattle.tool_lines.specs.Handles.{entries};
ghost use Rattle.tool_stream.specs.declared.machine.Unanswered.TheVariants.{Lost};
ghost use Rattle.tool_lines.specs.Running.{IsRun, AreSpelled, AreMade, AnswersLine, IsUnread};

use crate::handles::Handles;
use metrics::{Answer, Call, Recorder};
use metrics_replay::answer_of;
use std::alloc::Global;
use std::io::{BufRead, Write};
use std::marker::PhantomData;
use tool_grammar::{RunError, call_of, write_answer};
use tool_stream::{LineMachine, Unanswered, run_lines};

/// The call of a line.
fn read_call(alloc: Global, line: &[u8]) -> Result<Call, Unanswered>
    ensures { MatchResult result (Spells line.now) (IsUnread line.now) }
{
    match call_of(alloc, line) {
        Ok(Some(call)) => Ok(call),
        Ok(None) => Err(Unanswered::Bad),
        Err(_) => Err(Unanswered::Memory),
    }
}

/// Appends the text of an answer to `said`. `registers` is the number of register calls before it.
fn say(registers: usize, call: &Call, answer: &Answer, said: &mut String) -> Result<(), Unanswered>
    ensures { MatchResult result
        (λ _. string_bytes said.new ≡ string_bytes said.old ++ text_of registers call.now answer.now)
        (λ e. e ≡ Lost) }
{
    write_answer(said, registers, call, answer).or(Err(Unanswered::Lost))
}

/// Call lines on a recorder. The notes are what register calls returned.
struct CallLines<R> {
    of: PhantomData<R>,
}

impl<R: Recorder> LineMachine for CallLines<R> {
    type On = R;

    type Notes = Handles;

    ghost answers = { λ p line text q. AnswersLine (R.meaning p.0) (R.meaning q.0) (entries p.1) (entries q.1) line text };

    ghost is_bad = { λ on. IsBad };

    fn answer(
        alloc: Global,
        on: &mut R,
        notes: &mut Handles,
        line: &[u8],
        text: &mut String,
    ) -> Result<(), Unanswered> {
        let call = read_call(alloc, line)?;
        match &call {
            Call::Register(kind, _) => {
                if notes.reserve().is_err() {
                    drop(call);
                    return Err(Unanswered::Memory);
                }
                let answer = answer_of(alloc, on, &call, None);
                let said = say(notes.len(), &call, &answer, text);
                notes.push(*kind, answer);
                drop(call);
                said
            }
            Call::Update(number, _) => {
                let answer = answer_of(alloc, on, &call, notes.entry(*number));
                let said = say(notes.len(), &call, &answer, text);
                drop(answer);
                drop(call);
                said
            }
            _ => {
                let answer = answer_of(alloc, on, &call, None);
                let said = say(notes.len(), &call, &answer, text);
                drop(answer);
                drop(call);
                said
            }
        }
    }
}

/// Makes the call of each line of the reader, and answers it, up to the end or the first fault, and flushes the writer.
/// The first line has the number `first`.
///
/// Answers are written before a look at the reader that may wait, at the end, and before a fault is reported.
/// Interactive users see each answer before the next line is read; lines that are ready are answered together.
///
/// Returns how many calls were answered; it and the numbers of lines saturate at `u64::MAX`.
pub fn run<R: Recorder, I: BufRead, O: Write>(
    alloc: Global,
    on: &mut R,
    input: &mut I,
    output: &mut O,
    first: u64,
) -> Result<u64, RunError>
    // What was read, called and written, whether or not the bytes are known.
    ensures general { (read text : List ℕ) × Consumes (I.remaining input.old) (I.remaining input.new) read
        × Appends (O.contents output.old) (O.contents output.new) text
        × IsRun (OnSome (I.remaining input.old) (IsAtEnd (I.remaining input.new)))
        first (R.meaning on.old) (R.meaning on.new) read text result }
    // If they are known: all that the reader had was read, and the writer holds what it held and the answers.
    ensures known { OnOk result (IfSome (I.remaining input.old) (λ xs. IfSome (O.contents output.old) (λ held.
        (log : Log) × AreSpelled (lines_of xs) log × AreMade (R.meaning on.old) (R.meaning on.new) log
        × (O.contents output.new ≡ Some (held ++ print log))))) }
    // Over new books: the lines are those of calls, up to the end, the first bad one or a fault, and what was written
    // is their output; if the writing stopped, a beginning of it.
    ensures answered { AreNew (R.meaning on.old).contents
        → IfSome (I.remaining input.old) (λ xs. IfSome (O.contents output.old) (λ held.
        AnswersCalls (R.meaning on.old) (lines_of xs) (λ text. O.contents output.new ≡ Some (held ++ text)) result)) }
{
    let mut handles = Handles::new(alloc);
    run_lines::<CallLines<R>, I, O>(alloc, on, &mut handles, input, output, first)
}
