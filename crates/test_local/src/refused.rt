//! What is kept after a look-up that ran out of memory.

use crate::given::{KINDS, add, collector, expect_a, key, try_add};
use metrics::MetricKind;
use metrics_local::Local;
use std::process::Abort;
use std::sync::Wait;
use test_trial::Trial;

/// While memory may run out, a key that is kept is found, and a new one is found or kept out. With memory it is found.
fn expect_found<R: AllocGlobal + Abort + Wait>(rt: &R, trial: &mut Trial, kind: MetricKind) {
    let on = collector(rt);
    let mut local = Local::new(rt.alloc(), &on);
    let (a, b) = (key(rt, "a"), key(rt, "b"));
    add(rt, &mut local, kind, "b", 1);
    trial.begin();
    let new = try_add(rt, &mut local, kind, &a, 2);
    let held = try_add(rt, &mut local, kind, &b, 1);
    trial.calm();
    assert!(rt; held.is_none());
    if let Some(error) = new {
        trial.note(error).expect(rt, "another error");
        add(rt, &mut local, kind, "a", 2);
    }
    add(rt, &mut local, kind, "a", 3);
    expect_a(rt, &on, 10, kind, Some(5));
}

#[test]
fn a_look_up_without_memory_keeps_what_there_is(rt: HostRuntime) {
    let mut trial = Trial::new(rt.alloc());
    for kind in KINDS {
        expect_found(&rt, &mut trial, kind);
    }
}
