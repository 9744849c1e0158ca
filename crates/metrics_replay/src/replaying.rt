//! Lists of calls, made one after another.
ghost use Rattle.std.specs.Prelude.{◌≡◌, ◌<◌, ℕ, length, IfOk, IfErr, OnErr, option_map, false};
ghost use Rattle.metrics_names.specs.declared.refused.Refused.TheVariants.{Memory};
ghost use Rattle.metrics_names.specs.Names.{kind_eq};
ghost use Rattle.metrics.specs.Book.{kind_of, content_at};
ghost use Rattle.metrics.specs.Meaning.{KeepsTargets, AreNew};
ghost use Rattle.metrics.specs.History.{reached, content_after, ArePlain};
ghost use Rattle.metrics.specs.Answering.{UpdatesCall, IsHeld, Answers};
ghost use Rattle.metrics_replay.specs.Replaying.{log_of, handle_seen, holds_handle, UpdatesUnheld, AnswersUnheld};

use crate::registers::{named_handle, note_register};
use metrics::{Address, Answer, Call, Items, MetricKind, Recorder, Refused, Update, update_all};
use std::alloc::Global;

/// Whether a handle of the kind accepts the update.
fn takes(kind: MetricKind, by: Update) -> bool
    ensures { result ≡ kind_eq (kind_of by) kind }
{
    by.kind() == kind
}

/// Makes one call on a recorder.
///
/// `handle` is what the register call of an update's number returned, if it succeeded; other calls name none. If one of its
/// addresses isn't held, an update of its kind fails with `NoSuchAddress`, and one of another kind with `BadHandle`. Both
/// change nothing.
pub fn answer_of<R: Recorder>(
    alloc: Global,
    on: &mut R,
    call: &Call,
    handle: Option<(MetricKind, &[Address])>,
) -> Answer
    ensures keeps { KeepsTargets (R.meaning on.old) (R.meaning on.new) }
    ensures answers { IsHeld (option_map handle_seen handle.entry) (R.meaning on.old).contents
        → Answers (R.meaning on.old) (R.meaning on.new) (option_map handle_seen handle.entry) call.now result }
    ensures unheld { holds_handle (option_map handle_seen handle.entry) (R.meaning on.old).contents ≡ false
        → AnswersUnheld (R.meaning on.old) (R.meaning on.new) (option_map handle_seen handle.entry) call.now result }
{
    match call {
        Call::Describe(kind, name, unit, text) => match on.describe(
            alloc,
            *kind,
            name,
            *unit,
            text.as_str(),
        ) {
            Ok(count) => Answer::Described(count),
            Err(refused) => Answer::Refused(refused),
        },
        Call::Register(kind, key) => match on.register(alloc, *kind, key) {
            Ok(found) => Answer::Registered(Items::from(found)),
            Err(refused) => Answer::Refused(refused),
        },
        Call::Update(_, by) => update_of(on, *by, handle),
        Call::Snapshot(book) => match on.snapshot(alloc, *book) {
            Ok(rows) => Answer::Snapshot(rows),
            Err(refused) => Answer::Refused(refused),
        },
        Call::SnapshotWith(book, reset) => match on.snapshot_with(alloc, *book, *reset) {
            Ok(rows) => Answer::Snapshot(rows),
            Err(refused) => Answer::Refused(refused),
        },
    }
}

/// Updates the addresses of a handle, if it is of the update's kind.
fn update_of<R: Recorder>(
    on: &mut R,
    by: Update,
    handle: Option<(MetricKind, &[Address])>,
) -> Answer
    ensures keeps { KeepsTargets (R.meaning on.old) (R.meaning on.new) }
    ensures updates { IsHeld (option_map handle_seen handle.entry) (R.meaning on.old).contents
        → UpdatesCall (R.meaning on.old) (R.meaning on.new) (option_map handle_seen handle.entry) by result }
    ensures unheld { holds_handle (option_map handle_seen handle.entry) (R.meaning on.old).contents ≡ false
        → UpdatesUnheld (R.meaning on.old) (R.meaning on.new) (option_map handle_seen handle.entry) by result }
{
    match handle {
        None => Answer::Refused(Refused::BadHandle),
        Some((kind, found)) => {
            if takes(kind, by) {
                match update_all(on, found, by) {
                    Ok(count) => Answer::Updated(count),
                    Err(refused) => Answer::Refused(refused),
                }
            } else {
                Answer::Refused(Refused::BadHandle)
            }
        }
    }
}

/// Makes the calls in order, and returns the result of each of them.
///
/// It makes room first: for a result of each call, and for a list of where the register calls are. `Err` comes only if that
/// fails, and never for an empty list. Then nothing was called, and the recorder is unchanged.
pub fn replay<R: Recorder>(
    alloc: Global,
    on: &mut R,
    calls: &[Call],
) -> Result<Vec<Answer>, Refused>
    ensures number { IfOk result (λ answers. length answers.items ≡ length calls.now) }

    // If all books were new, each result is the expected one, or out of memory where that may happen, and the books hold what the
    // calls and results say. The other clauses hold of any books.
    ensures answers { AreNew (R.meaning on.old).contents → IfOk result (λ answers.
        ArePlain (R.meaning on.old).targets (length (R.meaning on.old).contents) (log_of calls.now answers.items)) }
    ensures contents { AreNew (R.meaning on.old).contents
        → IfOk result (λ answers. (b : ℕ) → b < length (R.meaning on.new).contents →
        content_at b (R.meaning on.new).contents
        ≡ content_after (reached (R.meaning on.old).targets b (log_of calls.now answers.items))) }

    // There are as many books, and each name has the same targets.
    ensures books { length (R.meaning on.new).contents ≡ length (R.meaning on.old).contents }
    ensures keeps { KeepsTargets (R.meaning on.old) (R.meaning on.new) }
    ensures err { IfErr result (λ e. (e ≡ Memory 0) × (on.new ≡ on.old)) }
    ensures asked { OnErr result (0 < length calls.now) }
{
    let mut answers = Vec::new(alloc);
    answers.reserve(calls.len())?;
    let mut registers = Vec::new(alloc);
    registers.reserve(calls.len())?;
    for i in 0..calls.len() {
        let call = &calls[i];
        let handle = named_handle(call, answers.as_slice(), registers.as_slice());
        let answer = answer_of(alloc, on, call, handle);
        note_register(&mut registers, call, i);
        answers.push_reserved(answer);
    }
    Ok(answers)
}
