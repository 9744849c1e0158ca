//! What a snapshot returns: samples in bucket order, and a map.

use crate::given::Test;
use metrics::{
    Address, CompositeKey, DebugValue, Key, KeyName, Label, MetricKind, Recorder, RowValue,
    Snapshot, Unit, Update,
};
use std::collections::HashMap;
use std::process::Abort;

/// A key with one label.
fn labelled<P: Abort>(test: &Test<P>) -> Key {
    let label = test.ok(Label::new(test.alloc, "k", "v"));
    let labels = test.ok(Vec::from_array(test.alloc, [label]));
    test.ok(Key::from_parts(test.alloc, "a", labels))
}

/// Checks that the only row has these samples.
fn expect_samples<P: Abort>(test: &Test<P>, rows: &Snapshot, wanted: &[i64]) {
    match rows.as_slice() {
        [(_, _, _, DebugValue::Histogram(found))] => {
            assert_eq!(test.rt; found.as_slice(), wanted)
        }
        _ => panic!(test.rt; "no histogram"),
    }
}

/// Records 0 to 64, which begins a second block, and takes two snapshots. Each call's first try may run out of memory.
fn expect_bucket_order<P: Abort, R: Recorder>(test: &Test<P>, on: &mut R) {
    let at = Address { book: 0, series: 0 };
    let mut wanted = [64i64; 65];
    for sample in 0..65u8 {
        test.tried(|| on.update(at, Update::Record(i64::from(sample))));
        if sample < 64 {
            wanted[usize::from(sample) + 1] = i64::from(sample);
        }
    }
    let rows = test.tried(|| on.snapshot(test.alloc, 0));
    expect_samples(test, &rows, &wanted);
    let rows = test.tried(|| on.snapshot(test.alloc, 0));
    expect_samples(test, &rows, &[]);
}

fn expect_newest_first<P: Abort, R: Recorder>(test: &Test<P>, mut on: R) {
    test.expect_registered(&mut on, &[(MetricKind::Histogram, "h", &[(0, 0)])]);
    expect_bucket_order(test, &mut on);
}

#[test]
fn samples_come_newest_block_first(rt: HostRuntime) {
    let test = Test::marked(&rt, rt.alloc());
    expect_newest_first(&test, test.book());
}

/// The rows of a described counter, and of a histogram of the same key.
fn rows_of_two<P: Abort, R: Recorder>(test: &Test<P>, mut on: R, key: &Key) -> Snapshot {
    let name = test.ok(KeyName::new(test.alloc, "a"));
    let seen = on.describe_counter(test.alloc, &name, Some(Unit::Bytes), "text");
    assert!(test.rt; test.ok(seen) == 1);
    for kind in [MetricKind::Histogram, MetricKind::Counter] {
        test.ok(on.register(test.alloc, kind, key));
    }
    test.ok(on.snapshot(test.alloc, 0))
}

/// The snapshot as a map. The first try may run out of memory, and returns the snapshot.
fn map_of<P: Abort>(test: &Test<P>, rows: Snapshot) -> HashMap<CompositeKey, RowValue> {
    test.begin();
    let first = rows.into_hashmap(test.alloc);
    test.calm();
    match first {
        Ok(map) => map,
        Err(rows) => test.ok(rows.into_hashmap(test.alloc)),
    }
}

/// Whether this is the described counter.
fn is_described(value: &RowValue) -> bool {
    match value {
        (Some(Unit::Bytes), Some(text), DebugValue::Counter(0)) => text.as_str() == "text",
        _ => false,
    }
}

#[test]
fn a_snapshot_becomes_a_map(rt: HostRuntime) {
    let test = Test::marked(&rt, rt.alloc());
    let key = labelled(&test);
    let map = map_of(&test, rows_of_two(&test, test.book(), &key));
    assert_eq!(rt; map.len(), 2);
    let counter = CompositeKey::new(MetricKind::Counter, key);
    assert!(rt; map.get(&counter).is_some_and(is_described));
}
