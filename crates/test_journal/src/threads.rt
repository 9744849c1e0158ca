//! Calls of several threads.
ghost use Rattle.std.specs.Prelude.{◌≡◌};

use crate::given::{Act, Pair, Registry, call_of, is_call};
use metrics::{Error, MetricKind};
use metrics_journal::Tally;
use metrics_registry::PlainStorage;
use std::alloc::Global;
use std::marker::Brand;
use std::process::Abort;
use std::sync::Wait;
use std::sync::ledger::{Blank, Ledger};
use std::thread::{Threads, join};

const NAMES: [&'static str; 10] = ["k0", "k1", "k2", "k3", "k4", "k5", "k6", "k7", "k8", "k9"];

/// Creates the ten counters, and returns how many were new.
fn create_all<T: Ledger, F: Ledger, R: Wait>(
    rt: &R,
    alloc: Global,
    registry: &Registry<T, F>,
    tally: &mut Tally<T, F>,
) -> Result<usize, Error> {
    let mut new: usize = 0;
    for name in NAMES {
        let call = call_of(alloc, Act::Create, MetricKind::Counter, name)?;
        new = new.saturating_add(usize::from(registry.call(rt, tally, call)?));
    }
    Ok(new)
}

/// Creates them in two threads, each with a tally of its own.
fn create_in_two<T: Ledger + Send + Sync, F: Ledger + Send + Sync, R: Threads + Wait + Sync>(
    rt: &R,
    alloc: Global,
    registry: &Registry<T, F>,
    tally: &mut Tally<T, F>,
) -> Result<usize, Error> {
    let mut other = tally.split()?;
    let (first, second) = join(
        rt,
        || create_all(rt, alloc, registry, tally),
        || create_all(rt, alloc, registry, &mut other),
    );
    tally.join(other);
    Ok(first?.saturating_add(second?))
}

/// The same in four threads.
fn create_in_four<T: Ledger + Send + Sync, F: Ledger + Send + Sync, R: Threads + Wait + Sync>(
    rt: &R,
    alloc: Global,
    registry: &Registry<T, F>,
    tally: &mut Tally<T, F>,
) -> Result<usize, Error> {
    let mut other = tally.split()?;
    let (first, second) = join(
        rt,
        || create_in_two(rt, alloc, registry, tally),
        || create_in_two(rt, alloc, registry, &mut other),
    );
    tally.join(other);
    Ok(first?.saturating_add(second?))
}

/// How many pairs of all journals create the counter of a name, and how many of these replied true.
fn found(journals: &[Vec<Pair>], name: &str) -> (usize, usize) {
    let mut pairs = 0usize;
    let mut new = 0usize;
    for journal in journals {
        for (call, reply) in journal {
            if is_call(call, Act::Create, MetricKind::Counter, name) {
                pairs = pairs.saturating_add(1);
                new = new.saturating_add(usize::from(*reply));
            }
        }
    }
    (pairs, new)
}

/// Each counter was created four times, and was new once. There are no other pairs.
fn expect_names<R: Abort>(rt: &R, journals: &[Vec<Pair>]) {
    let mut pairs = 0usize;
    for journal in journals {
        pairs = pairs.saturating_add(journal.len());
    }
    assert_eq!(rt; (journals.len(), pairs), (4, 40));
    for name in NAMES {
        assert_eq!(rt; found(journals, name), (4, 1), "{name}");
    }
}

fn expect_all<T: Ledger + Send + Sync, F: Ledger + Send + Sync, R: Threads + Wait + Abort + Sync>(
    rt: &R,
    alloc: Global,
    trues: Blank,
    falses: Blank,
)
    requires trues { (trues.name ≡ T.name) × (trues.parts ≡ T.parts) × (T.parts ≡ 1024) }
    requires falses { (falses.name ≡ F.name) × (falses.parts ≡ F.parts) × (F.parts ≡ 1024) }
{
    let made = Registry::<T, F>::new(alloc, PlainStorage::new(alloc), 4, trues, falses);
    let (registry, mut tally) = made.expect(rt, "out of memory");
    let created = create_in_four(rt, alloc, &registry, &mut tally);
    assert_eq!(rt; created.expect(rt, "out of memory"), 10);
    assert!(rt; tally.is_whole());
    expect_names(rt, registry.finish(tally).as_slice());
}

#[test]
fn four_threads_create_ten_counters(rt: HostRuntime) {
    expect_all::<Brand, Brand, _>(&rt, rt.alloc(), Blank::new(1024), Blank::new(1024));
}
