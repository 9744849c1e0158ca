//! What a line says, and doing it.
ghost use Rattle.std.specs.Prelude.{◌≡◌, ◌∷◌, ◌++◌, ℕ, [], replicate, IfOk, IfSome, OnOk};
ghost use Rattle.metrics_exporter.specs.Exporting.{Setup, Log};
ghost use Rattle.metrics_exporter.specs.Kept.{IsAfter, described};
ghost use Rattle.tool_grammar.specs.Cuts.{Lacks};
ghost use Rattle.tool_grammar.specs.Grammar.{unit_word};
ghost use Rattle.tool_requests.specs.Lines.{Spells};
ghost use Rattle.tool_requests.specs.declared.requests.Request.TheVariants.{Change, Describe};
ghost use Rattle.tool_state.specs.State.{IsLine, DoesAll, made_in, plain};

use crate::error::StateError;
use metrics::{Items, Key, MetricKind, Unit, Update};
use metrics_exporter::{Error, Exporter};
use std::alloc::Global;
use tool_grammar::{number_of, split_at_first, unit_of};
use tool_prometheus::{Dialect, Request, Unread, request_of};

/// No common labels, and whole numbers.
fn plain_dialect(alloc: Global) -> Dialect
    ensures { result ≡ plain }
{
    Dialect {
        labels: Items::from(Vec::new(alloc)),
        places: Items::from(Vec::new(alloc)),
    }
}

/// The request that the rest of a line spells.
fn request_in(alloc: Global, rest: &[u8]) -> Result<Request, StateError>
    ensures { IfOk result (Spells plain rest.now) }
{
    match request_of(alloc, &plain_dialect(alloc), rest) {
        Ok(request) => Ok(request),
        Err(Unread::Memory) => Err(StateError::Memory),
        Err(Unread::Bad(_, _)) => Err(StateError::BadLine),
    }
}

/// The unit that the bytes begin with, and what follows its space.
fn unit_and_rest(bytes: &[u8]) -> Option<(Option<Unit>, &[u8])>
    ensures { IfSome result (λ f. bytes.now ≡ unit_word f.0 ++ 32 ∷ f.1.now) }
{
    let (word, rest) = split_at_first(bytes, b' ')?;
    let unit = unit_of(word)?;
    Some((unit, rest))
}

/// How many times a line's request is made, the unit that it is made in, if any, and the request.
pub(crate) fn entry_of(
    alloc: Global,
    line: &[u8],
) -> Result<(u64, Option<Unit>, Request), StateError>
    requires { Lacks 10 line.now }
    ensures { IfOk result (IsLine line.now) }
{
    let Some((digits, rest)) = split_at_first(line, b' ') else {
        return Err(StateError::BadLine);
    };
    let Some(times) = number_of(digits) else {
        return Err(StateError::BadLine);
    };
    let Some((unit, rest)) = unit_and_rest(rest) else {
        return Err(StateError::BadLine);
    };
    let request = request_in(alloc, rest)?;
    Ok((times, unit, request))
}

/// Makes an update so many times, in a unit if it is a histogram's.
fn update_times(
    on: &mut Exporter,
    times: u64,
    unit: Option<Unit>,
    key: &Key,
    by: Update,
) -> Result<(), Error>
    ensures calls { OnOk result ((setup : Setup) (log : Log) → IsAfter setup log on.old
        → IsAfter setup (log ++ made_in unit key.now (replicate times by)) on.new) }
    ensures descriptions { described on.new ≡ described on.old }
{
    for turn in 0..times {
        on.update_in(unit, key, by)?;
    }
    Ok(())
}

/// Does what a line of an update says.
fn do_update(
    on: &mut Exporter,
    times: u64,
    unit: Option<Unit>,
    key: &Key,
    by: Update,
) -> Result<(), StateError>
    ensures { OnOk result (DoesAll ((times, unit, Change key.now by) ∷ []) on.old on.new) }
{
    update_times(on, times, unit, key, by)?;
    Ok(())
}

/// Does what a line of a description says, which is made once. `measure` is the unit that the line begins with, and `unit` is the
/// name's.
fn do_description(
    on: &mut Exporter,
    times: u64,
    measure: Option<Unit>,
    kind: MetricKind,
    name: &str,
    unit: Option<Unit>,
    note: &str,
) -> Result<(), StateError>
    ensures { OnOk result (DoesAll ((times, measure, Describe kind name.now unit note.now) ∷ []) on.old on.new) }
{
    if times != 1 || measure.is_some() {
        return Err(StateError::BadLine);
    }
    on.describe(kind, name, unit, note)?;
    Ok(())
}

/// Does what a line says.
pub(crate) fn do_entry(
    on: &mut Exporter,
    times: u64,
    measure: Option<Unit>,
    request: &Request,
) -> Result<(), StateError>
    ensures { OnOk result (DoesAll ((times, measure, request.now) ∷ []) on.old on.new) }
{
    match request {
        Request::Change(key, by) => do_update(on, times, measure, key, *by),
        Request::Describe(kind, name, unit, note) => {
            do_description(
                on,
                times,
                measure,
                *kind,
                name.as_str(),
                *unit,
                note.as_str(),
            )
        }
        Request::Scrape(_) | Request::Nothing => Err(StateError::BadLine),
    }
}
