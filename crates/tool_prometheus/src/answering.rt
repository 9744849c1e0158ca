//! Answers to requests.
ghost use Rattle.std.specs.Prelude.{◌≡◌, ◌++◌, ℕ, [], List, OnOk};
ghost use Rattle.std.specs.Prelude.{string_bytes, is_ok, true, if◌then◌else◌};
ghost use Rattle.tool_prometheus.specs.Asked.{Asked, Asks, nothing_asked};
ghost use Rattle.tool_prometheus.specs.Exposed.{Answers, AnswersInTime, HasMoment, IsEnd, HandsOut, HandsOutShown};
ghost use Rattle.metrics_prometheus.specs.Counted.{counted_bytes};
ghost use Rattle.tool_prometheus.specs.Own.{with_refusal};
ghost use Rattle.tool_prometheus.specs.Exposed.{limit_text, refusal_text, scrape_text, shown_text, shows_at_end as shows_then};

use crate::counts::Counts;
use crate::limit::is_beyond;
use crate::showing::{shown_at, text_of};
use crate::strict::note_left_out;
use crate::surroundings::Surroundings;
use crate::timing::Timer;
use crate::watching::{Call, Watch};
use metrics::{Error, Key, MetricKind, Unit, Update};
use metrics_exporter::Exporter;
use metrics_prometheus::{CountedText, Naming};
use metrics_rules::Rules;
use std::alloc::{AllocError, Global};
use tool_export::report_text;
use tool_requests::{Dialect, Request};

/// What the lines act on.
#[derive(Drop)]
pub struct Served {
    /// The exporter.
    pub exporter: Exporter,
    /// The names and units that series are shown with.
    pub naming: Naming,
    /// How lines are read.
    pub dialect: Dialect,
    /// How many bytes each name that is kept has before that of its line.
    pub front: usize,
    /// The names that series get, if they don't stay as they are.
    pub rules: Option<Rules>,
    /// Scrapes go to a file, and not to the output.
    pub has_file: bool,
    /// The end of the input shows nothing.
    pub at_scrapes_only: bool,
    /// Scrapes by the clock, if there are such.
    pub timer: Option<Timer>,
    /// The most series that are held, if there is a limit.
    pub max_series: Option<u64>,
    /// What the text doesn't have as it was given counts as bad.
    pub is_strict: bool,
    /// Texts have the series about the program itself.
    pub tells_self: bool,
    /// What was counted so far.
    pub counts: Counts,
    /// The moment of the last scrape, also of one that was refused.
    pub last: Option<u64>,
    /// Something changed since the last scrape that succeeded.
    pub is_changed: bool,
    /// A bad line was skipped; or, in a strict run, a text had a name or a label otherwise than its line, or left a series out.
    pub has_bad: bool,
    /// A call was refused, or a scrape could not be put into the file.
    pub has_failed: bool,
}

/// Notes a failure, and appends a comment that reports it, unless the output has no texts; or does nothing if there was none.
fn write_refusal(
    on: &mut Served,
    watch: &mut Watch,
    call: Call,
    answered: Result<(), Error>,
    text: &mut String,
) -> Result<(), AllocError>
    ensures noted { on.new ≡ record on.old {
      counts = (if is_ok answered then on.old.counts else with_refusal on.old.counts);
      has_failed = (if is_ok answered then on.old.has_failed else true);
    } }
    ensures text { OnOk result (string_bytes text.new ≡ string_bytes text.old ++ refusal_text on.old.has_file answered) }
{
    match answered {
        Ok(()) => Ok(()),
        Err(e) => {
            on.has_failed = true;
            on.counts = on.counts.with_refusal();
            watch.refuse(call);
            if on.has_file {
                return Ok(());
            }
            write!(text, "# {}", report_text(Err(e)))
        }
    }
}

/// Notes that there would be too many series, and appends a comment that reports it, unless the output has no texts.
fn write_limit(on: &mut Served, watch: &mut Watch, text: &mut String) -> Result<(), AllocError>
    ensures noted { on.new ≡ record on.old { counts = with_refusal on.old.counts; has_failed = true } }
    ensures text { OnOk result (string_bytes text.new ≡ string_bytes text.old ++ limit_text on.old.has_file) }
{
    on.has_failed = true;
    on.counts = on.counts.with_refusal();
    watch.refuse(Call::Update);
    if on.has_file {
        return Ok(());
    }
    text.push_str("# refused too many series\n")
}

/// Updates a series, unless that would make one too many, and appends the report of a failure.
fn answer_change(
    on: &mut Served,
    watch: &mut Watch,
    key: &Key,
    by: Update,
    text: &mut String,
) -> Result<(), AllocError>
    ensures { (whole : List ℕ) × Answers on.old on.new (Request.Change key.now by) nothing_asked whole
        × OnOk result (string_bytes text.new ≡ string_bytes text.old ++ whole) }
{
    if is_beyond(&on.exporter, on.max_series, key, by) {
        return write_limit(on, watch, text);
    }
    let answered = on.exporter.update_described(key, by);
    on.is_changed = answered.is_ok() | on.is_changed;
    write_refusal(on, watch, Call::Update, answered, text)
}

/// Describes a name, and appends the report of a failure.
fn answer_describe(
    on: &mut Served,
    watch: &mut Watch,
    kind: MetricKind,
    name: &str,
    unit: Option<Unit>,
    note: &str,
    text: &mut String,
) -> Result<(), AllocError>
    ensures { (whole : List ℕ) × Answers on.old on.new (Request.Describe kind name.now unit note.now) nothing_asked whole
        × OnOk result (string_bytes text.new ≡ string_bytes text.old ++ whole) }
{
    let answered = on.exporter.describe(kind, name, unit, note);
    on.is_changed = answered.is_ok() | on.is_changed;
    write_refusal(on, watch, Call::Description, answered, text)
}

/// Keeps what is held, and puts a text into the file, if there is one. Returns whether both succeeded; if the first doesn't,
/// the file stays.
#[tactic(auto, using(crate::proofs::AskedLemmas::asks_none, crate::proofs::AskedLemmas::asks_later))]
fn hand_out<S: Surroundings>(around: &mut S, on: &Exporter, has_file: bool, shown: &str) -> bool
    ensures { (files : List (List ℕ)) × HandsOut has_file shown.now result files
        × Asks (S.asked around.old) (S.asked around.new) (record { clock = []; files = files }) }
{
    if !has_file {
        return true;
    }
    if !around.keep(on) {
        return false;
    }
    around.publish(shown)
}

/// Hands out what a scrape shows: into the file, or as text with an empty line. Or appends the report of a failure.
fn hand_out_shown<S: Surroundings>(
    on: &mut Served,
    around: &mut S,
    watch: &mut Watch,
    shown: Result<CountedText, Error>,
    text: &mut String,
) -> Result<(), AllocError>
    ensures done { (files : List (List ℕ)) × HandsOutShown counted_bytes on.old shown on.new files
        × Asks (S.asked around.old) (S.asked around.new) (record { clock = []; files = files }) }
    ensures text { OnOk result (string_bytes text.new ≡ string_bytes text.old
        ++ shown_text counted_bytes on.old.has_file shown) }
{
    match shown {
        Ok(shown) => {
            on.is_changed = false;
            note_left_out(on, around, watch, &shown);
            if !hand_out(around, &on.exporter, on.has_file, shown.text.as_str()) {
                on.has_failed = true;
            }
            write_shown(on.has_file, shown.text, text)
        }
        Err(e) => write_refusal(on, watch, Call::Scrape, Err(e), text),
    }
}

/// Appends a text and an empty line, unless it went to the file. It takes an empty text's place, and isn't copied.
fn write_shown(has_file: bool, shown: String, text: &mut String) -> Result<(), AllocError>
    ensures { OnOk result (string_bytes text.new
        ≡ string_bytes text.old ++ scrape_text has_file (string_bytes shown)) }
{
    if has_file {
        return Ok(());
    }
    if text.is_empty() {
        *text = shown;
    } else {
        text.push_str(shown.as_str())?;
    }
    text.push_str("\n")
}

/// Answers a scrape at the moment.
fn answer_scrape<S: Surroundings>(
    alloc: Global,
    on: &mut Served,
    around: &mut S,
    watch: &mut Watch,
    moment: Option<u64>,
    text: &mut String,
) -> Result<(), AllocError>
    ensures { (more : Asked) × (whole : List ℕ) × Answers on.old on.new (Request.Scrape moment) more whole
        × Asks (S.asked around.old) (S.asked around.new) more
        × OnOk result (string_bytes text.new ≡ string_bytes text.old ++ whole) }
{
    watch.tell_bad(around);
    watch.room.forget_series();
    let now = moment_of(around, moment);
    let shown = shown_at(alloc, on, now);
    hand_out_shown(on, around, watch, shown, text)
}

/// The moment of a scrape: the clock's if the line has none.
fn moment_of<S: Surroundings>(around: &mut S, moment: Option<u64>) -> u64
    ensures { (clock : List ℕ) × HasMoment moment clock result
        × Asks (S.asked around.old) (S.asked around.new) (record { clock = clock; files = [] }) }
{
    match moment {
        Some(now) => now,
        None => around.seconds(),
    }
}

/// Makes the requested call and appends its text. Fails only without memory for the text: the call is still made, and
/// the content of `text` is unspecified.
pub fn answer_request<S: Surroundings>(
    alloc: Global,
    on: &mut Served,
    around: &mut S,
    watch: &mut Watch,
    request: &Request,
    text: &mut String,
) -> Result<(), AllocError>
    ensures { (more : Asked) × (whole : List ℕ) × Answers on.old on.new request.now more whole
        × Asks (S.asked around.old) (S.asked around.new) more
        × OnOk result (string_bytes text.new ≡ string_bytes text.old ++ whole) }
{
    match request {
        Request::Change(key, by) => answer_change(on, watch, key, *by, text),
        Request::Describe(kind, name, unit, note) => {
            answer_describe(on, watch, *kind, name.as_str(), *unit, note.as_str(), text)
        }
        Request::Scrape(moment) => answer_scrape(alloc, on, around, watch, *moment, text),
        Request::Nothing => Ok(()),
    }
}

/// The first failure of two calls, if there is one.
fn both(first: Result<(), AllocError>, second: Result<(), AllocError>) -> Result<(), AllocError>
    ensures { result ≡ (if is_ok first then second else first) }
{
    match first {
        Ok(()) => second,
        Err(e) => Err(e),
    }
}

/// Answers a line's request, and after it a scrape, if the timer wants one. Fails as `answer_request`.
pub(crate) fn answer_in_time<S: Surroundings>(
    alloc: Global,
    on: &mut Served,
    around: &mut S,
    watch: &mut Watch,
    request: Request,
    text: &mut String,
) -> Result<(), AllocError>
    ensures { (more : Asked) × (whole : List ℕ) × AnswersInTime on.old request more whole on.new
        × Asks (S.asked around.old) (S.asked around.new) more
        × OnOk result (string_bytes text.new ≡ string_bytes text.old ++ whole) }
{
    let Some(timer) = on.timer else {
        return answer_request(alloc, on, around, watch, &request, text);
    };
    let now = around.seconds();
    on.timer = Some(timer.restarted(now, &request));
    let is_due = timer.is_due(now, &request);
    let request = request.at_moment(now);
    let answered = answer_request(alloc, on, around, watch, &request, text);
    if is_due {
        let next = Request::Scrape(Some(now));
        let scraped = answer_request(alloc, on, around, watch, &next, text);
        return both(answered, scraped);
    }
    answered
}

/// Whether the end of the input shows what is held.
fn shows_at_end(on: &Served) -> bool
    ensures { result ≡ shows_then on.now.at_scrapes_only on.now.is_changed }
{
    if on.at_scrapes_only {
        false
    } else {
        on.is_changed
    }
}

/// Shows what is held, at the end of the input, if something changed since the last scrape. Nothing expires then.
pub fn answer_end<S: Surroundings>(
    alloc: Global,
    on: &mut Served,
    around: &mut S,
    watch: &mut Watch,
    text: &mut String,
) -> Result<(), AllocError>
    ensures { (more : Asked) × (whole : List ℕ) × IsEnd on.old on.new more whole
        × Asks (S.asked around.old) (S.asked around.new) more
        × OnOk result (string_bytes text.new ≡ string_bytes text.old ++ whole) }
{
    if shows_at_end(on) {
        let shown = text_of(alloc, on);
        hand_out_shown(on, around, watch, shown, text)
    } else {
        Ok(())
    }
}
