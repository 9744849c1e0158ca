//! A `Local` of recorders under rules, of a registry, and of pointers to recorders.

use crate::given::{KINDS, MEMORY, add, collector, key};
use metrics::{Key, MetricKind};
use metrics_cells::counter_value;
use metrics_collector::Collector;
use metrics_layered::{Layered, SharedRecorder};
use metrics_layers::PrefixLayer;
use metrics_local::Local;
use metrics_rules::{FanoutBuilder, Rules};
use metrics_shared_registry::{AtomicStorage, Registry};
use std::process::Abort;
use std::sync::{Arc, Wait};

/// Two leaves, of which the second has names with the prefix `app`.
fn layered<R: AllocGlobal + Abort>(rt: &R) -> Layered<Collector> {
    let prefix = PrefixLayer::new(rt.alloc(), "app").expect(rt, MEMORY);
    let below = Rules::leaf().prefix(rt.alloc(), &prefix).ok();
    let mut fanout = FanoutBuilder::default(rt.alloc());
    for child in [Rules::leaf(), below.expect(rt, MEMORY)] {
        fanout.add_child(child).ok().expect(rt, MEMORY);
    }
    let mut all = Vec::new(rt.alloc());
    for _ in 0..2 {
        all.push(collector(rt)).expect(rt, MEMORY);
    }
    Layered::new(rt.alloc(), fanout.build(), all)
        .ok()
        .expect(rt, "a collector for each leaf")
}

/// What the counter of a leaf has.
fn count_at<R: AllocGlobal + Abort + Wait>(rt: &R, on: &Layered<Collector>, leaf: usize) -> u64 {
    let name = if leaf == 0 { "a" } else { "app.a" };
    let leaf = on.leaf(leaf).expect(rt, "the leaf");
    leaf.counter(rt, &key(rt, name)).expect(rt, MEMORY).value()
}

/// A look-up under rules has a cell in each target, and what leaves one of them is asked for anew.
#[test]
fn each_leaf_ends_the_epoch(rt: HostRuntime) {
    let on = layered(&rt);
    let mut local = Local::new(rt.alloc(), &on);
    for (leaf, name, left) in [(0, "a", [3, 5]), (1, "app.a", [8, 3])] {
        add(&rt, &mut local, MetricKind::Counter, "a", 2);
        let below = on.leaf(leaf).expect(&rt, "the leaf");
        let removed = below.remove(&rt, MetricKind::Counter, &key(&rt, name));
        assert!(&rt; removed.expect(&rt, MEMORY));
        add(&rt, &mut local, MetricKind::Counter, "a", 3);
        let counts = [count_at(&rt, &on, 0), count_at(&rt, &on, 1)];
        assert!(&rt; counts == left);
    }
}

/// Looks each kind up twice.
fn work<R: AllocGlobal + Abort + Wait, S: SharedRecorder + Drop>(rt: &R, on: S) {
    let mut local = Local::new(rt.alloc(), on);
    for by in [2, 3] {
        for kind in KINDS {
            add(rt, &mut local, kind, "a", by);
        }
    }
}

fn expect_count<R: AllocGlobal + Abort + Wait>(
    rt: &R,
    on: &Registry<Key, AtomicStorage>,
    wanted: u64,
) {
    let found = on.get_counter(rt, &key(rt, "a")).expect(rt, MEMORY);
    assert!(rt; found.map(|cell| counter_value(&cell)) == Some(wanted));
}

#[test]
fn a_local_is_of_a_registry_and_of_pointers(rt: HostRuntime) {
    let storage = AtomicStorage::new(rt.alloc());
    let on = Registry::new(rt.alloc(), storage, 4).expect(&rt, MEMORY);
    work(&rt, &on);
    work(&rt, &&on);
    let on = Arc::new(rt.alloc(), on).expect(&rt, MEMORY);
    work(&rt, &on);
    expect_count(&rt, &on, 15);
    work(&rt, Arc::try_clone(&on).expect(&rt, MEMORY));
    expect_count(&rt, &on, 20);
}
