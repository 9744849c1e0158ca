//! The loop over lines: a line, its answer, and so on.
ghost use Rattle.std.specs.Prelude.{◌≡◌, ◌++◌, [], ℕ, List, OnOk, OnSome, string_bytes};
ghost use Rattle.std.specs.Io.KnownBytes.{Consumes, Appends, Keeps, IsAtEnd};
ghost use Rattle.tool_stream.specs.Answering.{Replies, AnswersLine, IsRun, IsLeft, IsFlushed, fault_at};

use crate::stream::{Broken, Fault, Found};
use crate::waiting::{put, read_line, write_out};
use std::alloc::Global;
use std::io::{BufRead, Write};
use tool_grammar::RunError;

/// Why a machine returned no text for a line.
#[derive(Clone, Copy, Debug, PartialEq, Eq)]
pub enum Unanswered {
    /// The line is bad. Nothing was done.
    Bad,
    /// Out of memory while the line was read. Nothing was done.
    Memory,
    /// The line was answered, but there was no memory for the text.
    Lost,
}

/// Answers lines, one at a time: it acts on a value that outlives the run, and keeps notes for the run alone.
pub trait LineMachine {
    /// What the lines act on.
    type On;

    /// What is noted while the lines are read.
    type Notes;

    /// On a line, value and notes may return a text and become others.
    ghost answers: { Self.On × Self.Notes → List ℕ → List ℕ → Self.On × Self.Notes → Type 0 };

    /// The lines that it rejects, where it acts on a value.
    ghost is_bad: { Self.On → List ℕ → Type 0 };

    /// Answers a line, and appends its text to `text`. On failure the content of `text` is unspecified, and these notes
    /// are not used again.
    fn answer(
        alloc: Global,
        on: &mut Self::On,
        notes: &mut Self::Notes,
        line: &[u8],
        text: &mut String,
    ) -> Result<(), Unanswered>
        ensures { Replies answers is_bad (on.old, notes.old) (on.new, notes.new) line.now
            (string_bytes text.old) (string_bytes text.new) result };
}

impl From<Broken> for RunError {
    ghost use Rattle.tool_grammar.specs.declared.error.RunError.TheVariants.{Device};

    ghost from_gives = { λ _ e. e ≡ Device };

    fn from(_error: Broken) -> RunError {
        RunError::Device
    }
}

/// Answers one line: its text waits after the others. `text` holds it in between.
fn answer_line<M: LineMachine, O: Write>(
    alloc: Global,
    on: &mut M::On,
    notes: &mut M::Notes,
    line: &[u8],
    number: u64,
    text: &mut String,
    output: &mut O,
    waiting: &mut Vec<u8>,
) -> Result<(), RunError>
    ensures { AnswersLine M.answers M.is_bad (on.old, notes.old) (on.new, notes.new) line.now
        (O.contents output.old) (O.contents output.new) waiting.old.items waiting.new.items number result }
{
    text.clear();
    match M::answer(alloc, on, notes, line, text) {
        Ok(()) => match put(output, waiting, text.as_bytes()) {
            Ok(()) => Ok(()),
            Err(_) => Err(RunError::Device),
        },
        Err(Unanswered::Bad) => Err(RunError::BadLine(number)),
        Err(Unanswered::Memory) => Err(RunError::Memory(Some(number))),
        Err(Unanswered::Lost) => Err(RunError::Memory(None)),
    }
}

/// Returns the error at a line that could not be read.
pub fn at_line(fault: Fault, number: u64) -> RunError
    ensures { result ≡ fault_at number fault }
{
    match fault {
        Fault::Memory => RunError::Memory(Some(number)),
        Fault::Device => RunError::Device,
    }
}

/// Answers the lines, up to the end or the first fault. Texts may still wait then. A last line without a line feed is
/// answered too if `takes_partial`; otherwise it is left in `line`, which is empty in all other cases without a fault.
fn answer_lines<M: LineMachine, I: BufRead, O: Write>(
    alloc: Global,
    on: &mut M::On,
    notes: &mut M::Notes,
    input: &mut I,
    output: &mut O,
    waiting: &mut Vec<u8>,
    line: &mut Vec<u8>,
    first: u64,
    takes_partial: bool,
) -> Result<u64, RunError>
    requires { waiting.old.items ≡ [] }
    ensures { (read text left : List ℕ) × Consumes (I.remaining input.old) (I.remaining input.new) (read ++ left)
        × Appends (O.contents output.old) (O.contents output.new) text
        × IsRun M.answers M.is_bad (OnSome (I.remaining input.old) (IsAtEnd (I.remaining input.new)))
        first (on.old, notes.old) on.new read (text ++ waiting.new.items) result
        × IsLeft takes_partial read left result × OnOk result (line.new.items ≡ left) }
{
    let mut count: u64 = 0;
    let mut number = first;
    let mut at_hand = 0;
    let mut text = String::new(alloc);
    for _ in 0..u64::MAX {
        match read_line(input, line, &mut at_hand, output, waiting) {
            Ok(Found::Line) => {
                answer_line::<M, O>(alloc, on, notes, line, number, &mut text, output, waiting)?;
                count = count.saturating_add(1);
                number = number.saturating_add(1);
            }
            Ok(Found::Last) => {
                if !takes_partial {
                    return Ok(count);
                }
                answer_line::<M, O>(alloc, on, notes, line, number, &mut text, output, waiting)?;
                line.clear();
                return Ok(count.saturating_add(1));
            }
            Ok(Found::End) => return Ok(count),
            Err(fault) => return Err(at_line(fault, number)),
        }
    }
    Err(RunError::Device)
}

/// Flushes the writer, and passes the result through. A flush that fails is the device's fault, unless memory or the
/// device failed before it.
pub fn flush<O: Write>(output: &mut O, answered: Result<u64, RunError>) -> Result<u64, RunError>
    ensures bytes { Keeps (O.contents output.old) (O.contents output.new) }
    ensures flushed { IsFlushed answered result }
{
    let is_flushed = output.flush().is_ok();
    match answered {
        Ok(_) | Err(RunError::BadLine(_)) if !is_flushed => Err(RunError::Device),
        answered => answered,
    }
}

/// Answers each line of the reader, up to the end or the first fault, and flushes the writer. The first line has the
/// number `first`. A last line without a line feed is answered too if `takes_partial`; otherwise it is left in `left`, which
/// is empty in all other cases without a fault.
///
/// Texts wait in a buffer of some 8 KiB. They are written before a look at the reader that may wait, at the end, and
/// before a fault is reported. A look may wait if the bytes last shown are used up, or what is left has no line feed. Interactive
/// users see each answer at once; file input is answered in blocks. Without memory for the buffer, texts are written
/// one by one.
///
/// Returns how many lines were answered; it and the numbers of lines saturate at `u64::MAX`.
pub fn run_lines_leaving<M: LineMachine, I: BufRead, O: Write>(
    alloc: Global,
    on: &mut M::On,
    notes: &mut M::Notes,
    input: &mut I,
    output: &mut O,
    left: &mut Vec<u8>,
    first: u64,
    takes_partial: bool,
) -> Result<u64, RunError>
    ensures { (read text after : List ℕ) × Consumes (I.remaining input.old) (I.remaining input.new) (read ++ after)
        × Appends (O.contents output.old) (O.contents output.new) text
        × IsRun M.answers M.is_bad (OnSome (I.remaining input.old) (IsAtEnd (I.remaining input.new)))
        first (on.old, notes.old) on.new read text result
        × IsLeft takes_partial read after result × OnOk result (left.new.items ≡ after) }
{
    let mut waiting = Vec::new(alloc);
    let answered = answer_lines::<M, I, O>(
        alloc,
        on,
        notes,
        input,
        output,
        &mut waiting,
        left,
        first,
        takes_partial,
    );
    match write_out(output, &mut waiting) {
        Ok(()) => flush(output, answered),
        Err(_) => flush(output, Err(RunError::Device)),
    }
}

/// Answers each line of the reader, as `run_lines_leaving`, also a last one without a line feed.
pub fn run_lines<M: LineMachine, I: BufRead, O: Write>(
    alloc: Global,
    on: &mut M::On,
    notes: &mut M::Notes,
    input: &mut I,
    output: &mut O,
    first: u64,
) -> Result<u64, RunError>
    ensures { (read text : List ℕ) × Consumes (I.remaining input.old) (I.remaining input.new) read
        × Appends (O.contents output.old) (O.contents output.new) text
        × IsRun M.answers M.is_bad (OnSome (I.remaining input.old) (IsAtEnd (I.remaining input.new)))
        first (on.old, notes.old) on.new read text result }
{
    let mut left = Vec::new(alloc);
    run_lines_leaving::<M, I, O>(alloc, on, notes, input, output, &mut left, first, true)
}
