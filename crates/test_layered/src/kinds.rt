//! Handles of each kind, and a library that names no recorder.

use crate::given::{MEMORY, collector, count, expect_leaf, key, layered, prefixed, record, set};
use metrics::Key;
use metrics_bucket::AtomicBucket;
use metrics_cells::{counter_value, gauge_value};
use metrics_layered::{Layered, SharedRecorder};
use metrics_rules::Rules;
use metrics_shared_registry::{AtomicStorage, Registry};
use std::process::Abort;
use std::sync::{Arc, Wait};

/// What a library does on any recorder.
fn work<R: AllocGlobal + Abort + Wait, S: SharedRecorder>(rt: &R, on: &S) {
    count(rt, on, "hits", 2);
    set(rt, on, "open", -3);
    record(rt, on, "ms", 7);
}

#[test]
fn a_library_counts_on_a_collector_and_under_rules(rt: HostRuntime) {
    let alone = collector(&rt);
    work(&rt, &alone);
    let text = alone.render(&rt, rt.alloc(), 10).expect(&rt, MEMORY);
    let wanted = "# TYPE hits counter\nhits 2\n# TYPE ms histogram\n\
        ms_bucket{le=\"10\"} 1\nms_bucket{le=\"+Inf\"} 1\nms_sum 7\nms_count 1\n# TYPE open gauge\nopen -3\n";
    assert_eq!(rt; text.as_str(), wanted);
    let on = layered(&rt, prefixed(&rt, "app", Rules::leaf()));
    work(&rt, &on);
    let wanted = "# TYPE app_hits counter\napp_hits 2\n# TYPE app_ms histogram\n\
        app_ms_bucket{le=\"10\"} 1\napp_ms_bucket{le=\"+Inf\"} 1\napp_ms_sum 7\napp_ms_count 1\n\
        # TYPE app_open gauge\napp_open -3\n";
    expect_leaf(&rt, &on, 0, wanted);
}

/// What a registry has of a library's work, by its keys.
fn expect_registry<R: AllocGlobal + Abort + Wait>(
    rt: &R,
    on: &Registry<Key, AtomicStorage>,
    counts: Option<u64>,
    levels: Option<i64>,
) {
    let hits = on.get_counter(rt, &key(rt, "hits")).expect(rt, MEMORY);
    assert_eq!(rt; hits.map(|cell| counter_value(&cell)), counts);
    let open = on.get_gauge(rt, &key(rt, "open")).expect(rt, MEMORY);
    assert_eq!(rt; open.map(|cell| gauge_value(&cell)), levels);
}

fn registry<R: AllocGlobal + Abort>(rt: &R) -> Registry<Key, AtomicStorage> {
    let storage = AtomicStorage::new(rt.alloc());
    Registry::new(rt.alloc(), storage, 4).expect(rt, MEMORY)
}

#[test]
fn a_library_counts_in_a_registry(rt: HostRuntime) {
    let on = registry(&rt);
    expect_registry(&rt, &on, None, None);
    work(&rt, &on);
    work(&rt, &on);
    expect_registry(&rt, &on, Some(4), Some(-3));
    let samples: Arc<AtomicBucket<i64>> = on
        .histogram(&rt, &key(&rt, "ms"))
        .expect(&rt, "a histogram");
    assert_eq!(rt; samples.data(&rt, rt.alloc()).expect(&rt, MEMORY).len(), 2);
}

#[test]
fn a_reference_and_an_arc_are_the_recorder(rt: HostRuntime) {
    let on = Arc::new(rt.alloc(), registry(&rt)).expect(&rt, MEMORY);
    work(&rt, &on);
    work(&rt, &&*on);
    work(&rt, &&on);
    expect_registry(&rt, &on, Some(6), Some(-3));
}

#[test]
fn one_recorder_is_put_under_rules(rt: HostRuntime) {
    let rules = prefixed(&rt, "app", Rules::leaf());
    let Ok(on) = Layered::under(rt.alloc(), rules, registry(&rt)) else {
        panic!(rt; "out of memory")
    };
    work(&rt, &on);
    let below = on.leaf(0).expect(&rt, "the leaf");
    expect_registry(&rt, below, None, None);
    let hits = below.get_counter(&rt, &key(&rt, "app.hits"));
    let hits = hits.expect(&rt, MEMORY).expect(&rt, "a counter");
    assert_eq!(rt; counter_value(&hits), 2);
}

/// A service gives what it has by reference, and keeps it.
#[test]
fn references_are_put_under_rules(rt: HostRuntime) {
    let kept = collector(&rt);
    let Ok(on) = Layered::under(rt.alloc(), prefixed(&rt, "app", Rules::leaf()), &kept) else {
        panic!(rt; "out of memory")
    };
    count(&rt, &on, "hits", 2);
    let text = kept.render(&rt, rt.alloc(), 10).expect(&rt, MEMORY);
    assert_eq!(rt; text.as_str(), "# TYPE app_hits counter\napp_hits 2\n");
}
