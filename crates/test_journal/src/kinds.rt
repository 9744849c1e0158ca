//! Calls of each kind on two keys, read in the journals of two shards.
ghost use Rattle.std.specs.Prelude.{◌≡◌};

use crate::given::{Act, Pair, Registry, call_of, is_call};
use metrics::MetricKind;
use metrics_journal::Tally;
use metrics_registry::{PlainStorage, shard_of};
use std::alloc::Global;
use std::marker::Brand;
use std::process::Abort;
use std::sync::Wait;
use std::sync::ledger::{Blank, Ledger};

/// A call, and what it replies.
type Row = (Act, MetricKind, &'static str, bool);

const ROWS: [Row; 16] = [
    (Act::Create, MetricKind::Counter, "a", true),
    (Act::Create, MetricKind::Counter, "a", false),
    (Act::Delete, MetricKind::Counter, "a", true),
    (Act::Delete, MetricKind::Counter, "a", false),
    (Act::Create, MetricKind::Gauge, "a", true),
    (Act::Has, MetricKind::Gauge, "a", true),
    (Act::Has, MetricKind::Histogram, "a", false),
    (Act::Create, MetricKind::Histogram, "b", true),
    (Act::Create, MetricKind::Histogram, "b", false),
    (Act::Has, MetricKind::Counter, "b", false),
    (Act::Delete, MetricKind::Gauge, "a", true),
    (Act::Has, MetricKind::Gauge, "a", false),
    (Act::Delete, MetricKind::Gauge, "a", false),
    (Act::Has, MetricKind::Histogram, "b", true),
    (Act::Delete, MetricKind::Histogram, "b", true),
    (Act::Delete, MetricKind::Counter, "b", false),
];

/// Whether a pair is that of a row.
fn is_row(pair: Option<&Pair>, row: &Row) -> bool {
    match pair {
        Some((call, reply)) => is_call(call, row.0, row.1, row.2) && *reply == row.3,
        None => false,
    }
}

/// Whether the journal of a shard has the rows of a key of this shard, and no others.
fn has_rows(shard: usize, journal: &[Pair]) -> bool {
    let Some((call, _)) = journal.first() else {
        return false;
    };
    let key = call.key();
    let mut pairs = journal.iter();
    for row in &ROWS {
        if row.2 == key.name() && !is_row(pairs.next(), row) {
            return false;
        }
    }
    pairs.next().is_none() && shard_of(key, 2) == shard
}

/// Makes the calls, each of which replies what its row says.
fn call_all<T: Ledger, F: Ledger, R: Wait + Abort>(
    rt: &R,
    alloc: Global,
    registry: &Registry<T, F>,
    tally: &mut Tally<T, F>,
) {
    for row in &ROWS {
        let call = call_of(alloc, row.0, row.1, row.2).expect(rt, "out of memory");
        let reply = registry.call(rt, tally, call);
        assert_eq!(rt; reply.expect(rt, "out of memory"), row.3);
    }
}

fn expect_rows<T: Ledger, F: Ledger, R: Wait + Abort>(
    rt: &R,
    alloc: Global,
    trues: Blank,
    falses: Blank,
)
    requires trues { (trues.name ≡ T.name) × (trues.parts ≡ T.parts) × (T.parts ≡ 1024) }
    requires falses { (falses.name ≡ F.name) × (falses.parts ≡ F.parts) × (F.parts ≡ 1024) }
{
    let made = Registry::<T, F>::new(alloc, PlainStorage::new(alloc), 2, trues, falses);
    let (registry, mut tally) = made.expect(rt, "out of memory");
    call_all(rt, alloc, &registry, &mut tally);
    assert!(rt; tally.is_whole());
    let journals = registry.finish(tally);
    assert_eq!(rt; journals.len(), 2);
    for (shard, journal) in journals.iter().enumerate() {
        assert!(rt; has_rows(shard, journal.as_slice()), "shard {shard}");
    }
}

#[test]
fn each_kind_has_calls_of_its_own(rt: HostRuntime) {
    expect_rows::<Brand, Brand, _>(&rt, rt.alloc(), Blank::new(1024), Blank::new(1024));
}
