//! What is noted while lines are read.
ghost use Rattle.tool_prometheus.specs.Asked.{Asks, nothing_asked};

use crate::surroundings::Surroundings;
use metrics::Label;
use metrics_prometheus::{CountedText, left_out_at};
use std::alloc::Global;
use std::collections::HashSet;
use std::{fmt, mem};
use tool_grammar::RunError;
use tool_requests::{Cause, Message, Request, Room, Spelled, is_as_given};

/// How many bad lines are reported one by one.
const TOLD: u64 = 10;

/// What a line asks for that may be refused.
#[derive(Clone, Copy, Debug, PartialEq, Eq)]
pub enum Call {
    Update,
    Description,
    Scrape,
}

/// How many calls were refused.
#[derive(Clone, Copy, Drop)]
struct Refusals {
    updates: u64,
    descriptions: u64,
    scrapes: u64,
}

/// What is noted of a run.
#[derive(Drop)]
pub struct Watch {
    alloc: Global,
    /// How many bytes of each name are not of its line.
    front: usize,
    /// Memory that naming a request reuses.
    pub(crate) room: Room,
    /// How many lines were read.
    lines: u64,
    /// How many of them were bad.
    bad: u64,
    /// How many bad ones a message has had, one by one or at a scrape.
    reported: u64,
    /// The message for the bad line that ended the run.
    message: Option<String>,
    /// How many calls were refused.
    refused: Refusals,
    /// What was reported of series that are left out.
    left_out: HashSet<String>,
    /// The names that were reported, since the text spells them otherwise.
    names: HashSet<String>,
    /// The same of labels.
    labels: HashSet<String>,
}

/// Whether words are new to a set, to which they are added. Out of memory they are not, and are new again later.
fn is_new(alloc: Global, seen: &mut HashSet<String>, words: &str) -> bool {
    if seen.contains(words) {
        return false;
    }
    if let Ok(words) = String::from_str(alloc, words) {
        let _ = seen.insert(words);
    }
    true
}

impl Watch {
    /// Begins to watch a run, whose names have so many bytes before them.
    pub fn new(alloc: Global, front: usize) -> Watch {
        Watch {
            alloc,
            front,
            room: Room::new(alloc),
            lines: 0,
            bad: 0,
            reported: 0,
            message: None,
            refused: Refusals {
                updates: 0,
                descriptions: 0,
                scrapes: 0,
            },
            left_out: HashSet::new(alloc),
            names: HashSet::new(alloc),
            labels: HashSet::new(alloc),
        }
    }

    /// Counts a line.
    pub(crate) fn count(&mut self) {
        self.lines = self.lines.saturating_add(1);
    }

    /// Counts a call that was refused.
    pub(crate) fn refuse(&mut self, call: Call) {
        let refused = &mut self.refused;
        let count = match call {
            Call::Update => &mut refused.updates,
            Call::Description => &mut refused.descriptions,
            Call::Scrape => &mut refused.scrapes,
        };
        *count = count.saturating_add(1);
    }

    /// Reports a series that is left out, unless it was reported before. Out of memory, it is reported again later.
    #[tactic(auto, using(crate::proofs::AskedLemmas::asks_none, crate::proofs::AskedLemmas::asks_later))]
    fn tell_once<S: Surroundings>(&mut self, around: &mut S, words: &str)
        ensures { Asks (S.asked around.old) (S.asked around.new) nothing_asked }
    {
        if is_new(self.alloc, &mut self.left_out, words) {
            around.tell(LeftOut(words));
        }
    }

    /// Reports each series that a text leaves out, and why, once.
    #[tactic(auto, using(crate::proofs::AskedLemmas::asks_none, crate::proofs::AskedLemmas::asks_later))]
    pub(crate) fn tell_left_out<S: Surroundings>(&mut self, around: &mut S, shown: &CountedText)
        ensures { Asks (S.asked around.old) (S.asked around.new) nothing_asked }
    {
        for place in &shown.left_out {
            if let Some(words) = left_out_at(shown.text.as_str(), *place) {
                self.tell_once(around, words);
            }
        }
    }

    /// Reports a name that the text spells otherwise, once.
    #[tactic(auto, using(crate::proofs::AskedLemmas::asks_none))]
    fn tell_name<S: Surroundings>(&mut self, around: &mut S, name: &str)
        ensures { Asks (S.asked around.old) (S.asked around.new) nothing_asked }
    {
        if !is_as_given(name, self.front, true) && is_new(self.alloc, &mut self.names, name) {
            around.tell(Spelled {
                number: self.lines,
                what: "name",
                name,
                colons: true,
            });
        }
    }

    /// Reports a label whose name the text spells otherwise, once. One without a value isn't shown.
    #[tactic(auto, using(crate::proofs::AskedLemmas::asks_none))]
    fn tell_label<S: Surroundings>(&mut self, around: &mut S, label: &Label)
        ensures { Asks (S.asked around.old) (S.asked around.new) nothing_asked }
    {
        let name = label.key();
        if is_as_given(name, 0, false) || label.value().is_empty() {
            return;
        }
        if is_new(self.alloc, &mut self.labels, name) {
            around.tell(Spelled {
                number: self.lines,
                what: "label",
                name,
                colons: false,
            });
        }
    }

    /// Reports labels whose names the text spells otherwise, once each.
    #[tactic(auto, using(crate::proofs::AskedLemmas::asks_none, crate::proofs::AskedLemmas::asks_later))]
    fn tell_labels<S: Surroundings>(&mut self, around: &mut S, labels: &[Label])
        ensures { Asks (S.asked around.old) (S.asked around.new) nothing_asked }
    {
        for label in labels {
            self.tell_label(around, label);
        }
    }

    /// Reports the names and labels of a request that the text spells otherwise, once each.
    #[tactic(auto, using(crate::proofs::AskedLemmas::asks_none, crate::proofs::AskedLemmas::asks_later))]
    pub(crate) fn tell_spelled<S: Surroundings>(&mut self, around: &mut S, request: &Request)
        ensures { Asks (S.asked around.old) (S.asked around.new) nothing_asked }
    {
        match request {
            Request::Change(key, _) => {
                self.tell_name(around, key.name());
                self.tell_labels(around, key.labels());
            }
            Request::Describe(_, name, _, _) => self.tell_name(around, name.as_str()),
            Request::Scrape(_) | Request::Nothing => {}
        }
    }

    /// Notes the message for the bad line that ends the run.
    pub(crate) fn note(&mut self, line: &[u8], cause: Cause, word: &[u8]) {
        let message = Message {
            number: self.lines,
            line,
            cause,
            word,
        };
        self.message = message.to_string(self.alloc).ok();
    }

    /// Reports a bad line that is skipped, if it is one of the first.
    #[tactic(auto, using(crate::proofs::AskedLemmas::asks_none))]
    pub(crate) fn pass_over<S: Surroundings>(
        &mut self,
        around: &mut S,
        line: &[u8],
        cause: Cause,
        word: &[u8],
    )
        ensures { Asks (S.asked around.old) (S.asked around.new) nothing_asked }
    {
        self.bad = self.bad.saturating_add(1);
        if self.bad <= TOLD {
            self.reported = self.bad;
            around.tell(Message {
                number: self.lines,
                line,
                cause,
                word,
            });
        }
    }

    /// Reports, at a scrape, how many bad lines came that had no message yet.
    #[tactic(auto, using(crate::proofs::AskedLemmas::asks_none))]
    pub(crate) fn tell_bad<S: Surroundings>(&mut self, around: &mut S)
        ensures { Asks (S.asked around.old) (S.asked around.new) nothing_asked }
    {
        if self.reported < self.bad {
            let message = Further {
                number: self.lines,
                further: self.bad - self.reported,
                all: self.bad,
            };
            self.reported = self.bad;
            around.tell(message);
        }
    }

    /// Reports a last line that lacks its line feed, and is not counted.
    #[tactic(auto, using(crate::proofs::AskedLemmas::asks_none))]
    pub(crate) fn tell_left<S: Surroundings>(&mut self, around: &mut S, line: &[u8])
        ensures { Asks (S.asked around.old) (S.asked around.new) nothing_asked }
    {
        self.count();
        around.tell(Message {
            number: self.lines,
            line,
            cause: Cause::Partial,
            word: line,
        });
    }

    /// Reports why the run stopped.
    #[tactic(auto, using(crate::proofs::AskedLemmas::asks_none))]
    fn tell_stop<S: Surroundings>(&mut self, around: &mut S, answered: Result<u64, RunError>)
        ensures { Asks (S.asked around.old) (S.asked around.new) nothing_asked }
    {
        match answered {
            Ok(_) => {}
            Err(RunError::BadLine(number)) => match mem::replace(&mut self.message, None) {
                Some(message) => around.tell(message),
                None => around.tell(RunError::BadLine(number)),
            },
            Err(RunError::Device) => around.tell_device(),
            Err(e) => around.tell(e),
        }
    }

    /// Reports how many calls were refused, if some were.
    #[tactic(auto, using(crate::proofs::AskedLemmas::asks_none))]
    fn tell_refusals<S: Surroundings>(&self, around: &mut S)
        ensures { Asks (S.asked around.old) (S.asked around.new) nothing_asked }
    {
        let Refusals {
            updates,
            descriptions,
            scrapes,
        } = self.refused;
        if updates > 0 || descriptions > 0 || scrapes > 0 {
            around.tell(Refused(self.refused));
        }
    }

    /// Reports how many bad lines were skipped, unless each was reported.
    #[tactic(auto, using(crate::proofs::AskedLemmas::asks_none))]
    fn tell_skipped<S: Surroundings>(&self, around: &mut S)
        ensures { Asks (S.asked around.old) (S.asked around.new) nothing_asked }
    {
        if self.bad > TOLD {
            around.tell(Skipped(self.bad));
        }
    }

    /// Reports how many calls were refused, how many bad lines were skipped, unless each was reported, and why the run
    /// stopped.
    #[tactic(auto, using(crate::proofs::AskedLemmas::asks_later))]
    pub(crate) fn tell_end<S: Surroundings>(
        &mut self,
        around: &mut S,
        answered: Result<u64, RunError>,
    )
        ensures { Asks (S.asked around.old) (S.asked around.new) nothing_asked }
    {
        self.tell_refusals(around);
        self.tell_skipped(around);
        self.tell_stop(around, answered);
    }
}

/// Which series is left out, and why.
#[derive(Drop)]
struct LeftOut<'a>(&'a str);

impl fmt::Display for LeftOut<'_> {
    fn fmt<W: fmt::Write>(&self, f: &mut fmt::Formatter<W>) -> fmt::Result {
        let words = self.0;
        write!(f, "left out: {words}")
    }
}

/// How many lines were skipped.
#[derive(Drop)]
struct Skipped(u64);

impl fmt::Display for Skipped {
    fn fmt<W: fmt::Write>(&self, f: &mut fmt::Formatter<W>) -> fmt::Result {
        let count = self.0;
        write!(f, "{count} bad lines were skipped")
    }
}

/// How many lines were skipped without a message of their own, up to a scrape.
#[derive(Drop)]
struct Further {
    /// The number of the scrape's line.
    number: u64,
    /// Since the last message.
    further: u64,
    all: u64,
}

impl fmt::Display for Further {
    fn fmt<W: fmt::Write>(&self, f: &mut fmt::Formatter<W>) -> fmt::Result {
        let Further {
            number,
            further,
            all,
        } = *self;
        write!(
            f,
            "line {number}: {further} further bad lines were skipped, {all} in all"
        )
    }
}

/// How many calls were refused.
#[derive(Drop)]
struct Refused(Refusals);

impl fmt::Display for Refused {
    fn fmt<W: fmt::Write>(&self, f: &mut fmt::Formatter<W>) -> fmt::Result {
        let Refusals {
            updates,
            descriptions,
            scrapes,
        } = self.0;
        write!(
            f,
            "refused: {updates} updates, {descriptions} descriptions, {scrapes} scrapes"
        )
    }
}
