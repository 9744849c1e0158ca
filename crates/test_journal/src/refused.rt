//! Journals that run out of memory: they have the calls that were made and no other.
ghost use Rattle.std.specs.Prelude.{◌≡◌};

use crate::given::{Act, Pair, Registry, call_of, is_call};
use metrics::{Error, Key, MetricKind};
use metrics_journal::{JournaledShard, Tally};
use metrics_registry::PlainStorage;
use std::alloc::Global;
use std::marker::Brand;
use std::sync::Wait;
use std::sync::ledger::{Blank, Ledger};
use std::test::Fail;
use test_trial::{Trial, Wrong, done, expect};

type Shard = JournaledShard<Key, PlainStorage>;

/// The calls on one counter.
const CALLS: [Act; 10] = [
    Act::Create,
    Act::Has,
    Act::Create,
    Act::Delete,
    Act::Delete,
    Act::Create,
    Act::Create,
    Act::Has,
    Act::Delete,
    Act::Delete,
];

/// How many of the calls are made while memory may run out.
const REFUSED: usize = 5;

/// A counter by the plain rules: whether it is held, and the calls that are noted with their replies.
#[derive(Drop)]
struct Known {
    is_held: bool,
    noted: Vec<(Act, bool)>,
}

impl Known {
    fn new(alloc: Global) -> Known {
        Known {
            is_held: false,
            noted: Vec::new(alloc),
        }
    }

    /// Notes the result of a call. The first calls may run out of memory.
    fn take(
        &mut self,
        trial: &mut Trial,
        at: usize,
        act: Act,
        answer: Result<bool, Error>,
    ) -> Result<(), Wrong> {
        match answer {
            Ok(reply) => {
                let is_right = reply == (self.is_held != (act == Act::Create));
                self.is_held = act != Act::Delete && (self.is_held || act == Act::Create);
                expect(is_right, "another reply").and(done(self.noted.push((act, reply))))
            }
            Err(error) => {
                expect(at < REFUSED, "refused with memory at hand").and(trial.note(error))
            }
        }
    }

    /// Checks that a journal has the calls that are noted, and no other.
    fn expect_noted(&self, journal: &[Pair]) -> Result<(), Wrong> {
        let mut pairs = journal.iter();
        for (act, reply) in self.noted.as_slice() {
            let is_noted = match pairs.next() {
                Some((call, said)) => {
                    is_call(call, *act, MetricKind::Counter, "a") && said == reply
                }
                None => false,
            };
            expect(is_noted, "another call in the journal")?;
        }
        expect(pairs.next().is_none(), "one more call in the journal")
    }
}

/// A call on a shard that is the only one.
fn call(alloc: Global, shard: &mut Shard, act: Act) -> Result<bool, Error>
    requires { (shard.old.shard ≡ 0) × (shard.old.shards ≡ 1) }
    ensures { (shard.new.shard ≡ 0) × (shard.new.shards ≡ 1) }
{
    let call = call_of(alloc, act, MetricKind::Counter, "a")?;
    shard.call(call)
}

/// Makes the calls, and looks at the journal after each.
fn call_all(trial: &mut Trial, shard: &mut Shard) -> Result<(), Wrong>
    requires { (shard.old.shard ≡ 0) × (shard.old.shards ≡ 1) }
{
    let mut known = Known::new(trial.alloc);
    for (at, act) in CALLS.iter().enumerate() {
        if at < REFUSED {
            trial.begin();
        }
        let answer = call(trial.alloc, shard, *act);
        trial.calm();
        known
            .take(trial, at, *act, answer)
            .and(known.expect_noted(shard.journal()))?;
    }
    Ok(())
}

/// A shard is made without memory.
#[test]
fn a_shard_notes_what_was_done(rt: HostRuntime) -> Result<(), Fail> {
    let mut trial = Trial::new(rt.alloc());
    trial.begin();
    let made = Shard::new(trial.alloc, PlainStorage::new(trial.alloc), 0, 1);
    trial.calm();
    let Ok(mut shard) = made else {
        return Err("no shard".into());
    };
    call_all(&mut trial, &mut shard)?;
    Ok(())
}

/// Makes the calls under a lock.
fn call_each<T: Ledger, F: Ledger, R: Wait>(
    rt: &R,
    trial: &mut Trial,
    registry: &Registry<T, F>,
    tally: &mut Tally<T, F>,
) -> Result<Known, Wrong> {
    let mut known = Known::new(trial.alloc);
    for (at, act) in CALLS.iter().enumerate() {
        if at < REFUSED {
            trial.begin();
        }
        let answer = match call_of(trial.alloc, *act, MetricKind::Counter, "a") {
            Ok(call) => registry.call(rt, tally, call),
            Err(error) => Err(error),
        };
        trial.calm();
        known.take(trial, at, *act, answer)?;
    }
    Ok(known)
}

/// The same under a lock, where a ledger counts the replies. Returns whether there was memory for the registry.
fn is_journaled<T: Ledger, F: Ledger, R: Wait>(
    rt: &R,
    trial: &mut Trial,
    may_refuse: bool,
    trues: Blank,
    falses: Blank,
) -> Result<bool, Wrong>
    requires trues { (trues.name ≡ T.name) × (trues.parts ≡ T.parts) × (T.parts ≡ 1024) }
    requires falses { (falses.name ≡ F.name) × (falses.parts ≡ F.parts) × (F.parts ≡ 1024) }
{
    if may_refuse {
        trial.begin();
    }
    let storage = PlainStorage::new(trial.alloc);
    let made = Registry::<T, F>::new(trial.alloc, storage, 1, trues, falses);
    trial.calm();
    match made {
        Ok((registry, mut tally)) => {
            let known = call_each(rt, trial, &registry, &mut tally)?;
            if !tally.is_whole() {
                return Err("the tally isn't whole");
            }
            let journals = registry.finish(tally);
            let journal = journals.first().ok_or("no journal")?;
            known.expect_noted(journal.as_slice()).and(Ok(true))
        }
        Err(error) => trial.note(error).and(Ok(false)),
    }
}

fn is_made<R: Wait>(rt: &R, trial: &mut Trial, may_refuse: bool) -> Result<bool, Wrong> {
    let (trues, falses) = (Blank::new(1024), Blank::new(1024));
    is_journaled::<Brand, Brand, _>(rt, trial, may_refuse, trues, falses)
}

#[test]
fn a_registry_notes_what_was_done(rt: HostRuntime) -> Result<(), Fail> {
    let mut trial = Trial::new(rt.alloc());
    if !is_made(&rt, &mut trial, true)? {
        assert!(rt; is_made(&rt, &mut trial, false)?);
    }
    Ok(())
}
