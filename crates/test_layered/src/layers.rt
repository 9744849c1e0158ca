//! Prefix, filter, fanout, router, and several of them.

use crate::given::{
    MEMORY, collector, count, expect_leaf, filtered, layered, prefixed, record, set, taken,
};
use metrics::{MetricKind, MetricKindMask, Unit};
use metrics_layered::{Layered, SharedRecorder};
use metrics_rules::{FanoutBuilder, RouterBuilder, Rules};
use std::process::Abort;
use std::sync::Wait;

/// Describes a counter, and returns how many targets it has.
fn described<R: AllocGlobal + Abort + Wait, S: SharedRecorder>(
    rt: &R,
    on: &S,
    name: &str,
) -> usize {
    on.describe(
        rt,
        rt.alloc(),
        MetricKind::Counter,
        name,
        Some(Unit::Count),
        "all hits",
    )
    .expect(rt, MEMORY)
}

#[test]
fn a_prefix_is_before_each_name(rt: HostRuntime) {
    let rules = prefixed(&rt, "all", prefixed(&rt, "app", Rules::leaf()));
    let on = layered(&rt, rules);
    count(&rt, &on, "hits", 2);
    assert_eq!(rt; described(&rt, &on, "hits"), 1);
    let wanted = "# HELP app_all_hits all hits\n# TYPE app_all_hits counter\napp_all_hits 2\n";
    expect_leaf(&rt, &on, 0, wanted);
}

#[test]
fn a_rejected_name_reaches_no_cell(rt: HostRuntime) {
    let on = layered(&rt, filtered(&rt, "debug", Rules::leaf()));
    count(&rt, &on, "x.debug.y", 2);
    set(&rt, &on, "debug", 2);
    record(&rt, &on, "a debug", 2);
    assert_eq!(rt; described(&rt, &on, "debugging"), 0);
    expect_leaf(&rt, &on, 0, "");
    count(&rt, &on, "x.debu", 3);
    assert_eq!(rt; described(&rt, &on, "x.debu"), 1);
    let wanted = "# HELP x_debu all hits\n# TYPE x_debu counter\nx_debu 3\n";
    expect_leaf(&rt, &on, 0, wanted);
}

/// Two names at one leaf, and the same with another prefix at the next.
fn fanout<R: AllocGlobal + Abort>(rt: &R) -> Rules {
    let mut fanout = FanoutBuilder::default(rt.alloc());
    for prefix in ["a", "b"] {
        taken(rt, fanout.add_child(prefixed(rt, prefix, Rules::leaf())));
    }
    taken(rt, fanout.add_child(Rules::leaf()));
    fanout.build()
}

#[test]
fn a_fanout_changes_each_target(rt: HostRuntime) {
    let on = layered(&rt, fanout(&rt));
    count(&rt, &on, "hits", 2);
    count(&rt, &on, "hits", 3);
    assert_eq!(rt; described(&rt, &on, "hits"), 3);
    let wanted = "# HELP a_hits all hits\n# TYPE a_hits counter\na_hits 5\n";
    expect_leaf(&rt, &on, 0, wanted);
    let wanted = "# HELP b_hits all hits\n# TYPE b_hits counter\nb_hits 5\n";
    expect_leaf(&rt, &on, 1, wanted);
    let wanted = "# HELP hits all hits\n# TYPE hits counter\nhits 5\n";
    expect_leaf(&rt, &on, 2, wanted);
}

#[test]
fn the_longest_route_of_a_kind_wins(rt: HostRuntime) {
    let mut router = RouterBuilder::new(rt.alloc(), Rules::leaf());
    for (mask, pattern) in [
        (MetricKindMask::ALL, "db"),
        (MetricKindMask::GAUGE, "db.pool"),
    ] {
        let added = router.add_route(mask, pattern, Rules::leaf());
        taken(&rt, added.map(|_number| ()));
    }
    let on = layered(&rt, router.build());
    count(&rt, &on, "d", 1);
    count(&rt, &on, "db.pool", 2);
    set(&rt, &on, "db.pool.open", 3);
    expect_leaf(&rt, &on, 0, "# TYPE d counter\nd 1\n");
    expect_leaf(&rt, &on, 1, "# TYPE db_pool counter\ndb_pool 2\n");
    let wanted = "# TYPE db_pool_open gauge\ndb_pool_open 3\n";
    expect_leaf(&rt, &on, 2, wanted);
}

/// The outer layer comes first: a filter below a prefix sees the name with the prefix.
#[test]
fn layers_act_from_outside_in(rt: HostRuntime) {
    let below = prefixed(&rt, "app", filtered(&rt, "app", Rules::leaf()));
    let on = layered(&rt, below);
    count(&rt, &on, "hits", 1);
    expect_leaf(&rt, &on, 0, "");
    let above = filtered(&rt, "app", prefixed(&rt, "app", Rules::leaf()));
    let on = layered(&rt, above);
    count(&rt, &on, "hits", 1);
    count(&rt, &on, "app", 1);
    let wanted = "# TYPE app_hits counter\napp_hits 1\n";
    expect_leaf(&rt, &on, 0, wanted);
}

#[test]
fn a_wrong_number_of_recorders_returns_both(rt: HostRuntime) {
    let mut one = Vec::new(rt.alloc());
    one.push(collector(&rt)).expect(&rt, MEMORY);
    let Err((rules, one)) = Layered::new(rt.alloc(), fanout(&rt), one) else {
        panic!(rt; "three leaves and one recorder")
    };
    assert_eq!(rt; rules.leaves(), 3);
    assert_eq!(rt; one.len(), 1);
}

#[test]
fn rules_of_another_number_of_leaves_are_returned(rt: HostRuntime) {
    let Err((rules, one)) = Layered::under(rt.alloc(), fanout(&rt), collector(&rt)) else {
        panic!(rt; "three leaves and one recorder")
    };
    assert_eq!(rt; rules.leaves(), 3);
    count(&rt, &one, "hits", 1);
    let text = one.render(&rt, rt.alloc(), 10).expect(&rt, MEMORY);
    assert_eq!(rt; text.as_str(), "# TYPE hits counter\nhits 1\n");
}
