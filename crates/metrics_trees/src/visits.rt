//! What the recorders do at each target.
ghost use Rattle.std.specs.Prelude.{◌≡◌, ◌≤◌, None, map, IsSome};
ghost use Rattle.std.specs.Result.{result_map_both};
ghost use Rattle.metrics_trees.specs.Places.{IsAppended, CanAppend};
ghost use Rattle.metrics_trees.specs.Leaves.{recorders_of};
ghost use Rattle.metrics_trees.specs.Recorders.{books_in, most_books};
ghost use Rattle.metrics_trees.specs.Visiting.{kind_of, found_by, IsEnd};

use crate::leaves::Leaves;
use crate::places::append_answer;
use metrics::{Address, Key, KeyName, MetricKind, Recorder, Refused, Unit};
use metrics_rules::{Scratch, Stopped, Visitor};
use std::alloc::Global;

/// A register call: its kind, and the addresses so far.
#[derive(Drop)]
pub struct Call {
    pub alloc: Global,
    pub kind: MetricKind,
    pub found: Vec<Address>,
}

/// The recorders at the leaves, and the register call at hand, which registers each key that it is shown. They stay here, since
/// a contract can't follow a `&mut` in a visitor.
#[derive(Drop)]
pub struct Registrar<B: Recorder> {
    pub leaves: Leaves<B>,
    pub call: Option<Call>,
    ghost few: { books_in (map B.meaning (recorders_of leaves)) ≤ most_books },
}

impl<B: Recorder> Registrar<B> {
    /// Ends the call, and returns the addresses.
    pub(crate) fn finish(&mut self, alloc: Global) -> Vec<Address>
        ensures found { result.items ≡ found_by self.old.call }
        ensures leaves { self.new.leaves ≡ self.old.leaves }
    {
        match self.call.take() {
            Some(call) => call.found,
            None => Vec::new(alloc),
        }
    }
}

/// What is below the rules of a tree.
#[derive(Drop)]
pub struct Below<B: Recorder> {
    /// The names below prefixes in register calls, the first of which makes it.
    pub(crate) scratch: Option<Scratch<Key>>,
    pub(crate) registrar: Registrar<B>,
}

impl<B: Recorder> Below<B> {
    pub(crate) fn new(leaves: Leaves<B>) -> Below<B>
        ensures { recorders_of result.registrar.leaves ≡ recorders_of leaves }
    {
        // This call brings in the bound on the number of books.
        let _books = leaves.books();
        Below {
            scratch: None,
            registrar: Registrar { leaves, call: None },
        }
    }
}

impl<B: Recorder> Visitor<Key> for Registrar<B> {
    ghost use Rattle.std.specs.Prelude.{◌≡◌, ◌++◌};
    ghost use Rattle.metrics_trees.specs.Visiting.{Accepts, Rejects, registering, addresses_at, kind_of, found_by};

    ghost accepts = { λ v leaf key w.
        Accepts B.meaning leaf key (registering v.call (recorders_of v.leaves)) (registering w.call (recorders_of w.leaves))
        × (found_by w.call
        ≡ found_by v.call ++ addresses_at B.meaning (recorders_of v.leaves) leaf (kind_of v.call) key) };

    ghost refuses = { λ v leaf key e w.
        Rejects B.meaning leaf key e (registering v.call (recorders_of v.leaves))
        (registering w.call (recorders_of w.leaves)) };

    /// Registers the key in the recorder of the leaf. Nobody is asked outside of a call.
    fn visit(&mut self, leaf: usize, key: &Key) -> Result<(), Refused> {
        let Some(call) = &self.call else {
            return Err(Refused::Memory { acted: 0 });
        };
        if leaf >= self.leaves.len() {
            return Err(Refused::NoSuchBook);
        }
        let front = self.leaves.before(leaf);
        let answer = self.leaves.register(call.alloc, call.kind, leaf, key);
        add_answer(&mut self.call, front, answer)
    }
}

/// Adds the result of a recorder that comes after `front` books to the addresses of a call.
#[inline(always)]
fn add_answer(
    call: &mut Option<Call>,
    front: usize,
    answer: Result<Vec<Address>, Refused>,
) -> Result<(), Refused>
    requires call { IsSome call.old }
    requires fits { CanAppend front (result_map_both (λ v. v.items) (λ e. e) answer) }
    ensures kind { kind_of call.new ≡ kind_of call.old }
    ensures appended { IsAppended (found_by call.old) (found_by call.new) front
        (result_map_both (λ v. v.items) (λ e. e) answer) result }
{
    match call {
        Some(call) => append_answer(&mut call.found, front, answer),
        None => unreachable!(),
    }
}

/// Describes each name that it is shown, and counts the targets. No tree has more of them than fit.
#[derive(Drop)]
pub struct Describing<'a, B: Recorder> {
    pub alloc: Global,
    pub kind: MetricKind,
    pub unit: Option<Unit>,
    pub text: &'a str,
    pub leaves: Leaves<B>,
    pub acted: usize,
}

impl<B: Recorder> Visitor<KeyName> for Describing<'_, B> {
    ghost use Rattle.metrics_trees.specs.Visiting.{Accepts, Rejects, describing};

    ghost accepts = { λ v leaf key w.
        Accepts B.meaning leaf key (describing v.kind v.unit v.text.now (recorders_of v.leaves) v.acted)
        (describing w.kind w.unit w.text.now (recorders_of w.leaves) w.acted) };

    ghost refuses = { λ v leaf key e w.
        Rejects B.meaning leaf key e (describing v.kind v.unit v.text.now (recorders_of v.leaves) v.acted)
        (describing w.kind w.unit w.text.now (recorders_of w.leaves) w.acted) };

    fn visit(&mut self, leaf: usize, name: &KeyName) -> Result<(), Refused> {
        if leaf >= self.leaves.len() {
            return Err(Refused::NoSuchBook);
        }
        let count = self
            .leaves
            .describe(self.alloc, self.kind, leaf, name, self.unit, self.text)?;
        self.acted = self.acted.saturating_add(count);
        Ok(())
    }
}

/// The result of a call that acted on so many targets, by how its visit ended.
pub(crate) fn ended<T: Drop>(
    visited: Result<usize, Stopped>,
    done: T,
    acted: usize,
) -> Result<T, Refused>
    ensures { IsEnd visited done acted result }
{
    match visited {
        Ok(_count) => Ok(done),
        Err(stopped) => Err(stopped.refused.after(acted)),
    }
}
