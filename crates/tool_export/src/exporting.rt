//! The loop over the lines of an exporter.
ghost use Rattle.std.specs.Prelude.{◌≡◌, [], ℕ, List, OnSome, IfOk, IfErr};
ghost use Rattle.std.specs.Io.KnownBytes.{Consumes, Appends, IsAtEnd};
ghost use Rattle.metrics.specs.declared.error.Error.TheVariants.{Memory as OutOfMemory};
ghost use Rattle.metrics_exporter.specs.Exporting.{Setup};
ghost use Rattle.metrics_exporter.specs.Kept.{IsAfter, described};
ghost use Rattle.metrics_descriptions.specs.Legends.{SameLegend, no_legend};
ghost use Rattle.tool_export.specs.Exporting.{answers as answers_of, Exports, IsExport, IsExportRun};
ghost use Rattle.tool_export.specs.Plans.{setup_of, IsAllowed};
ghost use Rattle.tool_export.specs.Requests.{IsBad};

use crate::answering::answer_request;
use crate::plans::ExportPlan;
use crate::requests::request_of;
use metrics::Error;
use metrics_exporter::Exporter;
use std::alloc::Global;
use std::io::{BufRead, Write};
use tool_grammar::RunError;
use tool_stream::{LineMachine, Unanswered, flush, run_lines};

/// Answers the lines of an exporter.
pub struct ExportLines;

impl LineMachine for ExportLines {
    type On = Exporter;

    type Notes = ();

    ghost answers = { answers_of };

    ghost is_bad = { λ on. IsBad };

    fn answer(
        alloc: Global,
        on: &mut Exporter,
        _notes: &mut (),
        line: &[u8],
        text: &mut String,
    ) -> Result<(), Unanswered> {
        match request_of(alloc, line) {
            Ok(Some(request)) => match answer_request(on, &request, text) {
                Ok(()) => Ok(()),
                Err(_) => Err(Unanswered::Lost),
            },
            Ok(None) => Err(Unanswered::Bad),
            Err(_) => Err(Unanswered::Memory),
        }
    }
}

/// Answers each line of the reader on the exporter, up to the end or the first fault, and flushes the writer. The first
/// line has the number `first`. Answers are written before the reader waits for more input.
///
/// Returns how many lines were answered; it and the numbers of lines saturate at `u64::MAX`.
pub fn export<I: BufRead, O: Write>(
    alloc: Global,
    on: &mut Exporter,
    input: &mut I,
    output: &mut O,
    first: u64,
) -> Result<u64, RunError>
    // What was read, answered and written, whether or not the bytes are known, whatever the exporter holds.
    ensures general { (read text : List ℕ) × Consumes (I.remaining input.old) (I.remaining input.new) read
        × Appends (O.contents output.old) (O.contents output.new) text
        × IsExportRun (OnSome (I.remaining input.old) (IsAtEnd (I.remaining input.new)))
        first on.old on.new read text result }
    // On an exporter after no calls: if no line's answer is out of memory, the text is just what the lines print, or a
    // beginning of it if memory or the device failed.
    ensures exact { (setup : Setup) → IsAfter setup [] on.old → (read text : List ℕ)
        × Consumes (I.remaining input.old) (I.remaining input.new) read
        × Appends (O.contents output.old) (O.contents output.new) text
        × Exports setup (OnSome (I.remaining input.old) (IsAtEnd (I.remaining input.new))) first on.new read text result }
{
    let mut notes = ();
    run_lines::<ExportLines, I, O>(alloc, on, &mut notes, input, output, first)
}

/// Returns a new exporter as the plan describes it. For the plans of `plan_of` the only error is out of memory.
pub fn exporter_of(alloc: Global, plan: &ExportPlan) -> Result<Exporter, Error>
    ensures made { IfOk result (IsAfter (setup_of plan.now) []) }
    ensures undescribed { IfOk result (λ e. SameLegend (described e) no_legend) }
    ensures shards { IfOk result (λ e. e.registry.count ≡ plan.now.shards) }
    ensures err { IsAllowed plan.now → IfErr result (λ e. e ≡ OutOfMemory) }
{
    Exporter::new(
        alloc,
        plan.shards,
        plan.watched,
        plan.idle_timeout,
        plan.bounds.as_slice(),
    )
}

/// Makes an exporter, and answers each line of the reader, from line 1 on. If none can be made, it reads nothing and
/// fails with out of memory, which is the only cause for the plans of `plan_of`.
pub fn export_new<I: BufRead, O: Write>(
    alloc: Global,
    plan: &ExportPlan,
    input: &mut I,
    output: &mut O,
) -> Result<u64, RunError>
    ensures { (read text : List ℕ) × Consumes (I.remaining input.old) (I.remaining input.new) read
        × Appends (O.contents output.old) (O.contents output.new) text
        × IsExport (setup_of plan.now) (OnSome (I.remaining input.old) (IsAtEnd (I.remaining input.new))) read text result }
{
    match exporter_of(alloc, plan) {
        Ok(mut exporter) => export(alloc, &mut exporter, input, output, 1),
        Err(_) => flush(output, Err(RunError::Memory(None))),
    }
}
