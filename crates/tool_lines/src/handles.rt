//! What register calls returned, by their numbers.
ghost use Rattle.std.specs.Prelude.{◌≡◌, ◌++◌, ◌∷◌, [], length, OnOk, option_map};
ghost use Rattle.metrics.specs.Answering.{handle_given};
ghost use Rattle.metrics_replay.specs.Replaying.{handle_seen};
ghost use Rattle.tool_lines.specs.Handles.{entries, entry_at, HasRoom};

use metrics::{Address, Answer, Items, MetricKind};
use std::alloc::{AllocError, Global};
use std::marker::Model;
use std::slice;

/// The addresses that a register call returned. Most return one, which is stored inline.
#[derive(Drop)]
enum Kept {
    One(Address),
    List(Items<Address>),
}

/// The same as a list.
#[derive(Drop)]
struct Given {
    kept: Kept,
}

impl Model for Given {
    ghost use Rattle.std.specs.Prelude.{List};
    ghost use Rattle.metrics.specs.declared.handles.Address.{Address};
    ghost use Rattle.tool_lines.specs.Given.{kept_list};

    ghost Value = { List Address };

    ghost view = { λ given. kept_list given.kept };
}

impl Given {
    fn new(found: Items<Address>) -> Given
        ensures { result ≡ found }
    {
        let kept = match found.as_slice() {
            [one] => Kept::One(*one),
            _ => Kept::List(found),
        };
        Given { kept }
    }

    fn as_slice(&self) -> &[Address]
        ensures { result.now ≡ self.now }
    {
        match &self.kept {
            Kept::One(at) => slice::from_ref(at),
            Kept::List(found) => found.as_slice(),
        }
    }
}

/// For each register call, in order: its kind and what it returned, and nothing if it failed.
#[derive(Drop)]
pub struct Handles {
    entries: Vec<Option<(MetricKind, Given)>>,
}

impl Handles {
    /// Returns the handles before the first register call.
    pub fn new(alloc: Global) -> Handles
        ensures { entries result ≡ [] }
    {
        Handles {
            entries: Vec::new(alloc),
        }
    }

    /// Returns how many register calls there were, including those that failed.
    pub fn len(&self) -> usize
        ensures { result ≡ length (entries self.now) }
    {
        self.entries.len()
    }

    /// Returns the kind of the register call with that number, from 0, and what it returned.
    pub fn entry(&self, number: usize) -> Option<(MetricKind, &[Address])>
        ensures { option_map handle_seen result ≡ entry_at number (entries self.now) }
    {
        match self.entries.get(number) {
            Some(Some((kind, given))) => Some((*kind, given.as_slice())),
            Some(None) | None => None,
        }
    }

    /// Makes room for one more register call.
    pub fn reserve(&mut self) -> Result<(), AllocError>
        ensures entries { entries self.new ≡ entries self.old }
        ensures room { OnOk result (HasRoom self.new) }
    {
        self.entries.reserve(1)
    }

    /// Notes a register call of a kind, by its answer.
    pub fn push(&mut self, kind: MetricKind, answer: Answer)
        requires { HasRoom self.old }
        ensures { entries self.new ≡ entries self.old ++ handle_given kind answer ∷ [] }
    {
        let entry = match answer {
            Answer::Registered(found) => Some((kind, Given::new(found))),
            Answer::Described(_) | Answer::Updated(_) | Answer::Snapshot(_) | Answer::Refused(_) =>
                None,
        };
        self.entries.push_reserved(entry);
    }
}
