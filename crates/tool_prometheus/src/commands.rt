//! The whole program, for a parsed command line.
ghost use Rattle.std.specs.Prelude.{◌≡◌, ℕ, List, [], OnSome};
ghost use Rattle.std.specs.Io.KnownBytes.{Consumes, Appends, IsAtEnd};
ghost use Rattle.tool_prometheus.specs.Asked.{Asked, Asks, nothing_asked};
ghost use Rattle.metrics_names.specs.declared.kind.MetricKind.{MetricKind as Kind};
ghost use Rattle.tool_requests.specs.Names.{ruled_name};
ghost use Rattle.tool_prometheus.specs.Names.{name_by};
ghost use Rattle.tool_prometheus.specs.Serving.{Begins, Ends, new_start, Start, IsStatus, IsPrometheusRun};

use crate::answering::Served;
use crate::counts::Counts;
use crate::making::{PrefixBounds, UnitBounds, exporter_for};
use crate::names::rules_for;
use crate::serving::prometheus;
use crate::surroundings::Surroundings;
use crate::timing::started;
use crate::watching::Watch;
use metrics::{Items, Text};
use metrics_exporter::Exporter;
use metrics_prometheus::Naming;
use metrics_rules::Rules;
use std::alloc::Global;
use std::io::{BufRead, Write};
use tool_export::ExportPlan;
use tool_grammar::RunError;
use tool_requests::{Dialect, front_of};
use tool_stream::{flush, status_of};

/// What the command line asks for.
#[derive(Drop)]
pub struct Options {
    /// How the exporter is to be made.
    pub plan: ExportPlan,
    /// Bounds in place of the plan's, by prefixes of names.
    pub prefixes: Items<PrefixBounds>,
    /// Bounds in place of the plan's, by the units of names, where no prefix has others.
    pub units: Items<UnitBounds>,
    /// The names and units that series are shown with.
    pub naming: Naming,
    /// How lines are read.
    pub dialect: Dialect,
    /// What each name gets before it, with a dot between.
    pub prefix: Option<Text>,
    /// A name in which one of these occurs is dropped.
    pub drops: Items<Text>,
    /// Bad lines are reported and skipped.
    pub skips_bad: bool,
    /// Scrapes go to a file, and not to the output.
    pub has_file: bool,
    /// The end of the input shows nothing.
    pub at_scrapes_only: bool,
    /// A scrape follows a line that comes so many seconds after the last scrape.
    pub every: Option<u64>,
    /// The most series that are held.
    pub max_series: Option<u64>,
    /// What the text doesn't have as it was given counts as bad.
    pub is_strict: bool,
    /// A last line without a line feed counts too.
    pub accepts_partial: bool,
    /// Texts have the series about the program itself.
    pub tells_self: bool,
}

/// Reports why a run stopped, and returns the status at its end.
fn final_status<S: Surroundings>(
    around: &mut S,
    watch: &mut Watch,
    answered: Result<u64, RunError>,
    has_bad: bool,
    has_failed: bool,
) -> u8
    ensures status { IsStatus answered has_bad has_failed result }
    ensures asked { Asks (S.asked around.old) (S.asked around.new) nothing_asked }
{
    watch.tell_end(around, answered);
    if has_failed {
        return 1;
    }
    match answered {
        Ok(_) => { if has_bad { 3 } else { 0 } }
        Err(e) => status_of(e),
    }
}

/// Answers each line of the reader.
fn serve<S: Surroundings, I: BufRead, O: Write>(
    alloc: Global,
    skips_bad: bool,
    accepts_partial: bool,
    on: &mut (Served, S),
    watch: &mut Watch,
    input: &mut I,
    output: &mut O,
) -> Result<u64, RunError>
    ensures { (read text : List ℕ) × (more : Asked) × Consumes (I.remaining input.old) (I.remaining input.new) read
        × Appends (O.contents output.old) (O.contents output.new) text
        × Asks (S.asked on.old.1) (S.asked on.new.1) more
        × IsPrometheusRun skips_bad accepts_partial (OnSome (I.remaining input.old) (IsAtEnd (I.remaining input.new)))
        on.old.0 read text more result on.new.0 }
{
    if skips_bad {
        prometheus::<true, S, I, O>(alloc, accepts_partial, on, watch, input, output)
    } else {
        prometheus::<false, S, I, O>(alloc, accepts_partial, on, watch, input, output)
    }
}

/// Answers each line of the reader, on an exporter of the plan.
fn serve_new<S: Surroundings, I: BufRead, O: Write>(
    alloc: Global,
    options: Options,
    exporter: Exporter,
    rules: Option<Rules>,
    around: S,
    watch: &mut Watch,
    input: &mut I,
    output: &mut O,
) -> (u8, S)
    requires named { (kind : Kind) (name : List ℕ) → ruled_name rules kind name ≡ name_by options kind name }
    ensures { (start : Start) → Begins options start exporter
        → Ends options start (OnSome (I.remaining input.old) (IsAtEnd (I.remaining input.new)))
        (Consumes (I.remaining input.old) (I.remaining input.new))
        (Appends (O.contents output.old) (O.contents output.new))
        (Asks (S.asked around) (S.asked result.1)) result.0 }
{
    let Options {
        naming,
        dialect,
        prefix,
        skips_bad,
        has_file,
        at_scrapes_only,
        every,
        max_series,
        is_strict,
        accepts_partial,
        tells_self,
        ..
    } = options;
    let mut around = around;
    let timer = started(&mut around, every);
    let served = Served {
        exporter,
        naming,
        dialect,
        front: front_of(&prefix),
        rules,
        has_file,
        at_scrapes_only,
        timer,
        max_series,
        is_strict,
        tells_self,
        counts: Counts::new(),
        last: None,
        is_changed: false,
        has_bad: false,
        has_failed: false,
    };
    let mut on = (served, around);
    let answered = serve(
        alloc,
        skips_bad,
        accepts_partial,
        &mut on,
        watch,
        input,
        output,
    );
    let (served, mut around) = on;
    let status = final_status(
        &mut around,
        watch,
        answered,
        served.has_bad,
        served.has_failed,
    );
    (status, around)
}

/// Reports that memory ran out before the first line.
fn end_before<S: Surroundings, O: Write>(alloc: Global, around: S, output: &mut O) -> (u8, S)
    ensures status { result.0 ≡ 1 }
    ensures output { Appends (O.contents output.old) (O.contents output.new) [] }
    ensures asked { Asks (S.asked around) (S.asked result.1) nothing_asked }
{
    let mut watch = Watch::new(alloc, 0);
    let answered = flush(output, Err(RunError::Memory(None)));
    let mut around = around;
    let status = final_status(&mut around, &mut watch, answered, false, false);
    (status, around)
}

/// Answers each line of the reader, from line 1 on, on an exporter of the options that may hold something. Reports why it
/// stopped, and returns the program's status and the surroundings.
pub fn command_on<S: Surroundings, I: BufRead, O: Write>(
    alloc: Global,
    options: Options,
    exporter: Exporter,
    around: S,
    input: &mut I,
    output: &mut O,
) -> (u8, S)
    ensures { (start : Start) → Begins options start exporter
        → Ends options start (OnSome (I.remaining input.old) (IsAtEnd (I.remaining input.new)))
        (Consumes (I.remaining input.old) (I.remaining input.new))
        (Appends (O.contents output.old) (O.contents output.new))
        (Asks (S.asked around) (S.asked result.1)) result.0 }
{
    let mut watch = Watch::new(alloc, front_of(&options.prefix));
    match rules_for(alloc, &options) {
        Ok(rules) => serve_new(
            alloc, options, exporter, rules, around, &mut watch, input, output,
        ),
        Err(_) => end_before(alloc, around, output),
    }
}

/// Makes an exporter, and answers each line of the reader, from line 1 on. Reports why it stopped, and returns the
/// program's status and the surroundings.
pub fn command<S: Surroundings, I: BufRead, O: Write>(
    alloc: Global,
    options: Options,
    around: S,
    input: &mut I,
    output: &mut O,
) -> (u8, S)
    ensures { Ends options new_start (OnSome (I.remaining input.old) (IsAtEnd (I.remaining input.new)))
        (Consumes (I.remaining input.old) (I.remaining input.new))
        (Appends (O.contents output.old) (O.contents output.new))
        (Asks (S.asked around) (S.asked result.1)) result.0 }
{
    match exporter_for(alloc, &options) {
        Ok(exporter) => command_on(alloc, options, exporter, around, input, output),
        Err(_) => end_before(alloc, around, output),
    }
}
