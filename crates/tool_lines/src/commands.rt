//! The whole program, for the words of its command line.
ghost use Rattle.std.specs.Prelude.{◌≡◌, ◌≤◌, ◌++◌, ◌⊎◌, ℕ, List, Some, IfSome, OnSome, IfErr, map};
ghost use Rattle.std.specs.Io.KnownBytes.{Consumes, Appends, IsAtEnd};
ghost use Rattle.tool_export.specs.declared.plans.ExportPlan.{ExportPlan as Plan};
ghost use Rattle.tool_lines.specs.Exports.{AsksExport, EndsExport};
ghost use Rattle.tool_lines.specs.Running.{PrintsAnswers};
ghost use Rattle.tool_grammar.specs.declared.error.RunError.TheVariants.{Device as NoDevice};
ghost use Rattle.tool_lines.specs.declared.requests.Request.{Request as Asked};
ghost use Rattle.tool_lines.specs.declared.requests.StormPlan.{StormPlan as Storm};
ghost use Rattle.tool_lines.specs.declared.requests.Request.TheVariants as ask;
ghost use Rattle.tool_stream.specs.Answering.{status_number};
ghost use Rattle.tool_stream.specs.Lines.{lines_of};
ghost use Rattle.tool_lines.specs.Output.{AnswersAll, AnswersFirst, AnswersPart, RunsKnown};
ghost use Rattle.tool_lines.specs.Requests.{IsAllowed, Asks, AsksStorm, Prints, Begins};
ghost use Rattle.tool_lines.specs.Requests.{IsFault};
ghost use Rattle.tool_storm.specs.Texts.{totals_text};

use crate::exports::{export_of, is_export};
use crate::requests::{Request, StormPlan, request_of};
use crate::running::run;
use crate::trees::tree;
use std::alloc::Global;
use std::io::{BufRead, Write};
use std::sync::Wait;
use std::thread::Threads;
use tool_export::{ExportPlan, export_new};
use tool_grammar::RunError;
use tool_storm::{Gate, Totals, storm, storm_growing, text_of_totals};
use tool_stream::{flush, status_of, write_text};

const USAGE: &str = "usage: metrics_tool run | storm P V B [grow] | export S M T B";

/// Lets every worker pass.
struct Open;

impl Gate for Open {
    fn pass<R: Wait>(&self, _rt: &R, _worker: usize) -> bool {
        true
    }
}

/// Reads a tree, and answers the call lines after it.
fn answer<I: BufRead, O: Write>(
    alloc: Global,
    input: &mut I,
    output: &mut O,
) -> Result<u64, RunError>
    ensures prints { Begins PrintsAnswers (Appends (O.contents output.old) (O.contents output.new)) result }
    ensures known { RunsKnown (I.remaining input.old) (O.contents output.old) (O.contents output.new) result }
{
    match tree(alloc, input) {
        Ok((mut books, first)) => {
            let answered = run(alloc, &mut books, input, output, first);
            drop(books);
            answered
        }
        Err(e) => flush(output, Err(e)),
    }
}

/// Writes the text, and flushes the writer.
fn write_whole<O: Write>(output: &mut O, text: &[u8]) -> Result<(), RunError>
    ensures prints { Begins (λ whole. whole ≡ text.now) (Appends (O.contents output.old) (O.contents output.new)) result }
    ensures err { IfErr result (λ e. e ≡ NoDevice) }
{
    write_text(output, text)?;
    output.flush().or(Err(RunError::Device))
}

/// Writes the three lines of these totals.
fn write_totals<O: Write>(alloc: Global, totals: &Totals, output: &mut O) -> Result<(), RunError>
    ensures prints { Begins (λ whole. whole ≡ totals_text totals.now)
        (Appends (O.contents output.old) (O.contents output.new)) result }
    ensures err { IfErr result IsFault }
{
    let text = text_of_totals(alloc, totals)?;
    write_whole(output, text.as_bytes())
}

/// Does what was asked for.
fn answer_request<R: Threads + Wait + Sync, I: BufRead, O: Write>(
    rt: &R,
    alloc: Global,
    request: Request,
    input: &mut I,
    output: &mut O,
) -> Result<(), RunError>
    requires { IsAllowed request }
    ensures prints { Begins (Prints request) (Appends (O.contents output.old) (O.contents output.new)) result }
    ensures err { IfErr result (λ e. (request ≡ ask.Run → ⊥) → IsFault e) }
    ensures known { request ≡ ask.Run
        → RunsKnown (I.remaining input.old) (O.contents output.old) (O.contents output.new) result }
{
    match request {
        Request::Run => {
            answer(alloc, input, output)?;
            Ok(())
        }
        Request::Storm(plan) => {
            let totals = storm(rt, alloc, plan.pushers, plan.values, plan.blocks, &Open)?;
            write_totals(alloc, &totals, output)
        }
        Request::GrowingStorm(plan) => {
            let totals = storm_growing(rt, alloc, plan.pushers, plan.values, plan.blocks, &Open)?;
            write_totals(alloc, &totals, output)
        }
    }
}

/// Writes how the program is called, and returns the status of wrong words.
fn refuse_words<E: Write>(errors: &mut E) -> u8
    ensures { result ≡ 2 }
{
    let _ = writeln!(errors, "{USAGE}");
    2
}

/// Writes why the program stopped to `errors`, whose faults are ignored, and returns the status for it.
fn report<E: Write>(errors: &mut E, why: RunError) -> u8
    ensures { result ≡ status_number why }
{
    let _ = writeln!(errors, "{why}");
    status_of(why)
}

/// Answers the lines of an exporter, and returns the status at its end.
fn answer_export<I: BufRead, O: Write, E: Write>(
    alloc: Global,
    plan: &ExportPlan,
    input: &mut I,
    output: &mut O,
    errors: &mut E,
) -> u8
    ensures { EndsExport plan.now (OnSome (I.remaining input.old) (IsAtEnd (I.remaining input.new)))
        (Consumes (I.remaining input.old) (I.remaining input.new))
        (Appends (O.contents output.old) (O.contents output.new)) result }
{
    match export_new(alloc, plan, input, output) {
        Ok(_) => 0,
        Err(e) => report(errors, e),
    }
}

/// Does what words that begin as those of an export ask for, and returns the status.
fn answer_export_words<I: BufRead, O: Write, E: Write>(
    alloc: Global,
    words: &[&str],
    input: &mut I,
    output: &mut O,
    errors: &mut E,
) -> u8
    ensures done { result ≡ 0 → (plan : Plan) × AsksExport (map (λ w. w.now) words.now) plan }
    ensures exported { (any : Plan) → AsksExport (map (λ w. w.now) words.now) any
        → (plan : Plan) × AsksExport (map (λ w. w.now) words.now) plan
        × EndsExport plan (OnSome (I.remaining input.old) (IsAtEnd (I.remaining input.new)))
        (Consumes (I.remaining input.old) (I.remaining input.new))
        (Appends (O.contents output.old) (O.contents output.new)) result }
    ensures wrong { ((plan : Plan) → AsksExport (map (λ w. w.now) words.now) plan → ⊥) → (result ≡ 2)
        × (output.new ≡ output.old) }
    ensures status { result ≤ 2 }
{
    match export_of(alloc, words) {
        Ok(Some(plan)) => answer_export(alloc, &plan, input, output, errors),
        Ok(None) => refuse_words(errors),
        Err(_) => report(errors, RunError::Memory(None)),
    }
}

/// Runs the program for the words after its name, and returns its status. Writes why it stopped to `errors`, whose
/// faults are ignored.
pub fn command<R: Threads + Wait + Sync, I: BufRead, O: Write, E: Write>(
    rt: &R,
    alloc: Global,
    words: &[&str],
    input: &mut I,
    output: &mut O,
    errors: &mut E,
) -> u8
    // Status 0 requires words that ask for something. Then it was written: the answers to calls on a tree of new books,
    // or the three lines of a storm; or an exporter's answers, as described below.
    ensures done { result ≡ 0 → ((asked : Asked) × (text : List ℕ) × Asks (map (λ w. w.now) words.now) asked
        × Appends (O.contents output.old) (O.contents output.new) text × Prints asked text)
        ⊎ ((plan : Plan) × AsksExport (map (λ w. w.now) words.now) plan) }
    // For a run, where the bytes are known: with status 0 they are a tree and calls, and what was written is their output.
    ensures whole { result ≡ 0 → Asks (map (λ w. w.now) words.now) ask.Run
        → IfSome (I.remaining input.old) (λ bytes. IfSome (O.contents output.old) (λ held.
        AnswersAll (lines_of bytes) (λ text. O.contents output.new ≡ Some (held ++ text)))) }
    // With status 2 one of their lines is bad, and what was written is the output of those before it.
    ensures first { result ≡ 2 → Asks (map (λ w. w.now) words.now) ask.Run
        → IfSome (I.remaining input.old) (λ bytes. IfSome (O.contents output.old) (λ held.
        AnswersFirst (lines_of bytes) (λ text. O.contents output.new ≡ Some (held ++ text)))) }
    // With status 1 nothing was written, or a beginning of the output of the first lines.
    ensures part { result ≡ 1 → Asks (map (λ w. w.now) words.now) ask.Run
        → IfSome (I.remaining input.old) (λ bytes. IfSome (O.contents output.old) (λ held.
        AnswersPart (lines_of bytes) (λ text. O.contents output.new ≡ Some (held ++ text)))) }
    // With any status, also if the bytes aren't known: what was written begins a text that may be printed, so of a
    // storm's totals.
    ensures begun { (asked : Asked) → Asks (map (λ w. w.now) words.now) asked
        → (text more : List ℕ) × Appends (O.contents output.old) (O.contents output.new) text
        × Prints asked (text ++ more) }
    // For an export: what was read and written, and how that ended. If no line's answer is out of memory, the text is
    // just what the lines print, up to the end or the first bad one.
    ensures exported { (any : Plan) → AsksExport (map (λ w. w.now) words.now) any
        → (plan : Plan) × AsksExport (map (λ w. w.now) words.now) plan
        × EndsExport plan (OnSome (I.remaining input.old) (IsAtEnd (I.remaining input.new)))
        (Consumes (I.remaining input.old) (I.remaining input.new))
        (Appends (O.contents output.old) (O.contents output.new)) result }
    // Words that ask for nothing have status 2.
    ensures wrong { ((asked : Asked) → Asks (map (λ w. w.now) words.now) asked → ⊥)
        → ((plan : Plan) → AsksExport (map (λ w. w.now) words.now) plan → ⊥)
        → (result ≡ 2) × (output.new ≡ output.old) }
    // Words have only the statuses 0, 1 and 2, and a storm never has 2.
    ensures status { result ≤ 2 }
    ensures storm { (plan : Storm) → AsksStorm (map (λ w. w.now) words.now) plan → result ≤ 1 }
{
    if is_export(words) {
        return answer_export_words(alloc, words, input, output, errors);
    }
    let Some(request) = request_of(words) else {
        return refuse_words(errors);
    };
    match answer_request(rt, alloc, request, input, output) {
        Ok(()) => 0,
        Err(e) => report(errors, e),
    }
}
