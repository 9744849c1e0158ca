//! The loop over the lines of an exporter.
ghost use Rattle.std.specs.Prelude.{◌≡◌, ℕ, List, OnSome, MatchResult, Ok as Answered};
ghost use Rattle.std.specs.Io.KnownBytes.{Consumes, Appends, IsAtEnd};
ghost use Rattle.tool_prometheus.specs.Asked.{Asked, Asks, nothing_asked};
ghost use Rattle.tool_prometheus.specs.Exposed.{Takes};
ghost use Rattle.tool_prometheus.specs.Serving.{answers as answers_of, Stops, IsUntaken, EndsLines, IsPrometheusRun, or_left};

use crate::answering::{Served, answer_end, answer_in_time};
use crate::strict::note_names;
use crate::surroundings::Surroundings;
use crate::watching::Watch;
use std::alloc::Global;
use std::io::{BufRead, Write};
use std::marker::PhantomData;
use tool_grammar::RunError;
use tool_requests::{Request, Unread, named_request_of};
use tool_stream::{LineMachine, Unanswered, flush, run_lines_leaving, write_text};

/// Returns what a line asks for, and reports what the text spells otherwise. A bad line is skipped, and asks for nothing; or it
/// is an error.
#[tactic(auto, using(crate::proofs::AskedLemmas::asks_none))]
fn take_line<const SKIPS: bool, S: Surroundings>(
    alloc: Global,
    on: &mut (Served, S),
    watch: &mut Watch,
    line: &[u8],
) -> Result<Request, Unanswered>
    ensures taken { MatchResult result (λ request. Takes SKIPS on.old.0 line.now request on.new.0)
        (λ e. IsUntaken SKIPS on.old.0 line.now e × (on.new ≡ on.old)) }
    ensures asked { Asks (S.asked on.old.1) (S.asked on.new.1) nothing_asked }
{
    watch.count();
    match named_request_of(alloc, &on.0.dialect, &on.0.rules, &mut watch.room, line) {
        Ok(request) => {
            if !watch.room.knew_series() {
                watch.tell_spelled(&mut on.1, &request);
            }
            on.0.counts = on.0.counts.with_line();
            note_names(&mut on.0, &request);
            Ok(request)
        }
        Err(Unread::Memory) => Err(Unanswered::Memory),
        Err(Unread::Bad(cause, word)) => {
            if SKIPS {
                watch.pass_over(&mut on.1, line, cause, word);
                on.0.counts = on.0.counts.with_bad_line();
                on.0.has_bad = true;
                Ok(Request::Nothing)
            } else {
                watch.note(line, cause, word);
                Err(Unanswered::Bad)
            }
        }
    }
}

/// Answers the lines of an exporter, in its surroundings. With `SKIPS` bad lines are skipped.
pub struct PrometheusLines<const SKIPS: bool, S> {
    of: PhantomData<S>,
}

impl<const SKIPS: bool, S: Surroundings> LineMachine for PrometheusLines<SKIPS, S> {
    type On = (Served, S);

    type Notes = Watch;

    ghost answers = { answers_of S.asked SKIPS };

    ghost is_bad = { λ on. Stops SKIPS on.0 };

    #[tactic(auto, using(crate::proofs::AskedLemmas::asks_later))]
    fn answer(
        alloc: Global,
        on: &mut (Served, S),
        watch: &mut Watch,
        line: &[u8],
        text: &mut String,
    ) -> Result<(), Unanswered> {
        match take_line::<SKIPS, S>(alloc, on, watch, line) {
            Ok(request) => {
                match answer_in_time(alloc, &mut on.0, &mut on.1, watch, request, text) {
                    Ok(()) => Ok(()),
                    Err(_) => Err(Unanswered::Lost),
                }
            }
            Err(e) => Err(e),
        }
    }
}

/// Writes what is held, if something changed since the last scrape.
fn end<S: Surroundings, O: Write>(
    alloc: Global,
    on: &mut (Served, S),
    watch: &mut Watch,
    output: &mut O,
    count: u64,
) -> Result<u64, RunError>
    ensures { (more : Asked) × (last : List ℕ) × Appends (O.contents output.old) (O.contents output.new) last
        × Asks (S.asked on.old.1) (S.asked on.new.1) more
        × EndsLines on.old.0 on.new.0 more last (Answered count) result }
{
    let mut text = String::new(alloc);
    if answer_end(alloc, &mut on.0, &mut on.1, watch, &mut text).is_err() {
        return flush(output, Err(RunError::Memory(None)));
    }
    match write_text(output, text.as_bytes()) {
        Ok(()) => flush(output, Ok(count)),
        Err(_) => flush(output, Err(RunError::Device)),
    }
}

/// Reports a last line that is not counted, if there is one.
fn note_left<S: Surroundings>(on: &mut (Served, S), watch: &mut Watch, left: &[u8])
    ensures noted { on.new.0 ≡ record on.old.0 { has_bad = or_left left.now on.old.0.has_bad } }
    ensures asked { Asks (S.asked on.old.1) (S.asked on.new.1) nothing_asked }
{
    if left.is_empty() {
        return;
    }
    watch.tell_left(&mut on.1, left);
    on.0.has_bad = true;
}

/// Answers each line of the reader, up to the end or the first fault, and flushes the writer. A last line without a line feed
/// is answered too if `accepts_partial`; otherwise it is reported, and not counted.
pub fn prometheus<const SKIPS: bool, S: Surroundings, I: BufRead, O: Write>(
    alloc: Global,
    accepts_partial: bool,
    on: &mut (Served, S),
    watch: &mut Watch,
    input: &mut I,
    output: &mut O,
) -> Result<u64, RunError>
    ensures { (read text : List ℕ) × (more : Asked) × Consumes (I.remaining input.old) (I.remaining input.new) read
        × Appends (O.contents output.old) (O.contents output.new) text
        × Asks (S.asked on.old.1) (S.asked on.new.1) more
        × IsPrometheusRun SKIPS accepts_partial (OnSome (I.remaining input.old) (IsAtEnd (I.remaining input.new)))
        on.old.0 read text more result on.new.0 }
{
    let mut left = Vec::new(alloc);
    match run_lines_leaving::<PrometheusLines<SKIPS, S>, I, O>(
        alloc,
        on,
        watch,
        input,
        output,
        &mut left,
        1,
        accepts_partial,
    ) {
        Ok(count) => {
            note_left(on, watch, &left);
            end(alloc, on, watch, output, count)
        }
        Err(e) => Err(e),
    }
}
