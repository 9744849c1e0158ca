//! The register calls among those that were made, and the handles that they returned.
ghost use Rattle.std.specs.Prelude.{◌≡◌, ◌≤◌, ◌<◌, ◌+◌, ◌++◌, [], map, slice_get};
ghost use Rattle.std.specs.Prelude.{vec_len, vec_capacity, option_map};
ghost use Rattle.metrics.specs.Answering.{handle_given};
ghost use Rattle.metrics_replay.specs.Replaying.{handle_seen, handle_at, register_named, with_register};

use metrics::{Address, Answer, Call, MetricKind};

/// What has the answer of a call that was made.
pub(crate) trait Answered {
    ghost use Rattle.std.specs.Prelude.{◌≡◌};
    ghost use Rattle.metrics.specs.declared.calls.Answer.{Answer as Answering};

    /// The answer.
    ghost answer: { Self → Answering };

    /// Returns the answer.
    fn answer(&self) -> &Answer
        ensures { result.now ≡ answer self.now };
}

impl Answered for Answer {
    ghost answer = { λ a. a };

    fn answer(&self) -> &Answer {
        self
    }
}

impl Answered for (Call, Answer) {
    ghost answer = { λ e. e.1 };

    fn answer(&self) -> &Answer {
        &self.1
    }
}

/// Keeps kind and place of a register call.
pub(crate) fn note_register(registers: &mut Vec<(MetricKind, usize)>, call: &Call, place: usize)
    requires { vec_len registers.old < vec_capacity registers.old }
    ensures items { registers.new.items ≡ registers.old.items ++ with_register call.now place [] }
    ensures len { vec_len registers.new ≤ vec_len registers.old + 1 }
    ensures capacity { vec_capacity registers.new ≡ vec_capacity registers.old }
{
    match call {
        Call::Register(kind, _) => registers.push_reserved((*kind, place)),
        Call::Describe(..) | Call::Update(..) | Call::Snapshot(_) | Call::SnapshotWith(..) => {}
    }
}

/// The handle that a call names, by the answers of the calls before it and the register calls among them.
pub(crate) fn named_handle<'a, A: Answered>(
    call: &Call,
    made: &'a [A],
    registers: &[(MetricKind, usize)],
) -> Option<(MetricKind, &'a [Address])>
    ensures { option_map handle_seen result ≡ handle_at (map A.answer made.now) (register_named call.now registers.now) }
{
    match call {
        Call::Update(number, _) => handle_of(*number, made, registers),
        Call::Describe(..) | Call::Register(..) => None,
        Call::Snapshot(_) | Call::SnapshotWith(..) => None,
    }
}

/// The handle of a number.
fn handle_of<'a, A: Answered>(
    number: usize,
    made: &'a [A],
    registers: &[(MetricKind, usize)],
) -> Option<(MetricKind, &'a [Address])>
    ensures { option_map handle_seen result ≡ handle_at (map A.answer made.now) (slice_get registers.now number) }
{
    if number >= registers.len() {
        return None;
    }
    let (kind, place) = registers[number];
    if place >= made.len() {
        return None;
    }
    given(kind, made[place].answer())
}

/// What a register call returned, if it succeeded.
fn given(kind: MetricKind, answer: &Answer) -> Option<(MetricKind, &[Address])>
    ensures { option_map handle_seen result ≡ handle_given kind answer.now }
{
    match answer {
        Answer::Registered(found) => Some((kind, found.as_slice())),
        Answer::Described(_) | Answer::Updated(_) | Answer::Snapshot(_) | Answer::Refused(_) =>
            None,
    }
}
