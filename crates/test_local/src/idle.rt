//! Series that a `Local` holds, and that go idle.

use crate::given::{KINDS, MEMORY, add, collector, expect_a, key};
use metrics::MetricKind;
use metrics_collector::Collector;
use metrics_layered::SharedRecorder;
use metrics_local::Local;
use std::process::Abort;
use std::sync::Wait;

/// Adds 2 to the series `a` of a kind, and reads until it is hidden.
fn hide<R: AllocGlobal + Abort + Wait, S: SharedRecorder>(
    rt: &R,
    on: &Collector,
    local: &mut Local<S>,
    kind: MetricKind,
) {
    add(rt, local, kind, "a", 2);
    expect_a(rt, on, 10, kind, Some(2));
    expect_a(rt, on, 16, kind, None);
}

/// Adds 3 and 4 to it, and compares what is shown of it at a moment.
fn add_and_read<R: AllocGlobal + Abort + Wait, S: SharedRecorder>(
    rt: &R,
    on: &Collector,
    local: &mut Local<S>,
    (kind, now, wanted): (MetricKind, u64, i128),
) {
    add(rt, local, kind, "a", 3);
    add(rt, local, kind, "a", 4);
    expect_a(rt, on, now, kind, Some(wanted));
}

/// Once the `Local` looked up another series, the next reading removes the idle one. It comes back at 0.
fn expect_left<R: AllocGlobal + Abort + Wait>(rt: &R, kind: MetricKind, other: MetricKind) {
    let on = collector(rt);
    let mut local = Local::new(rt.alloc(), &on);
    hide(rt, &on, &mut local, kind);
    add(rt, &mut local, other, "b", 1);
    expect_a(rt, &on, 17, kind, None);
    add(rt, &mut local, kind, "a", 3);
    expect_a(rt, &on, 18, kind, Some(3));
}

#[test]
fn an_idle_series_leaves_once_its_local_was_used(rt: HostRuntime) {
    for kind in KINDS {
        for other in KINDS {
            expect_left(&rt, kind, other);
        }
    }
}

/// A series that is looked up before the next reading is the same one: what it had isn't lost, and shown once.
fn expect_back<R: AllocGlobal + Abort + Wait>(rt: &R, kind: MetricKind) {
    let on = collector(rt);
    let mut local = Local::new(rt.alloc(), &on);
    hide(rt, &on, &mut local, kind);
    add_and_read(rt, &on, &mut local, (kind, 17, 9));
}

#[test]
fn a_hidden_series_that_is_looked_up_again_goes_on(rt: HostRuntime) {
    for kind in KINDS {
        expect_back(&rt, kind);
    }
}

/// A `Local` that isn't used keeps what it looked up, over any number of readings. `clear` drops it.
fn expect_kept<R: AllocGlobal + Abort + Wait>(rt: &R, kind: MetricKind, is_cleared: bool) {
    let on = collector(rt);
    let mut local = Local::new(rt.alloc(), &on);
    add(rt, &mut local, kind, "a", 2);
    expect_a(rt, &on, 10, kind, Some(2));
    for now in [16, 17, 30] {
        expect_a(rt, &on, now, kind, None);
    }
    if is_cleared {
        local.clear();
    }
    expect_a(rt, &on, 31, kind, None);
    add(rt, &mut local, kind, "a", 3);
    let wanted = if is_cleared { 3 } else { 5 };
    expect_a(rt, &on, 32, kind, Some(wanted));
}

#[test]
fn a_local_that_is_not_used_keeps_its_series(rt: HostRuntime) {
    for kind in KINDS {
        expect_kept(&rt, kind, false);
        expect_kept(&rt, kind, true);
    }
}

/// What is looked up after `remove` is the new series. The epoch ends only if there was one.
fn expect_anew<R: AllocGlobal + Abort + Wait>(rt: &R, kind: MetricKind) {
    let on = collector(rt);
    let mut local = Local::new(rt.alloc(), &on);
    add(rt, &mut local, kind, "a", 2);
    let epoch = on.epoch();
    for is_there in [true, false] {
        let removed = on.remove(rt, kind, &key(rt, "a")).expect(rt, MEMORY);
        assert!(rt; removed == is_there);
        assert!(rt; on.epoch() == epoch.wrapping_add(1));
    }
    add_and_read(rt, &on, &mut local, (kind, 10, 7));
}

#[test]
fn a_local_counts_into_no_removed_series(rt: HostRuntime) {
    for kind in KINDS {
        expect_anew(&rt, kind);
    }
}

/// Reads at a moment, and returns how many epochs ended meanwhile.
fn ended<R: AllocGlobal + Abort + Wait>(rt: &R, on: &Collector, now: u64) -> u64 {
    let before = on.epoch();
    on.gather(rt, rt.alloc(), now).expect(rt, MEMORY);
    on.epoch().wrapping_sub(before)
}

/// Only a reading that finds an idle series which somebody holds ends the epoch, and each such reading ends one.
fn expect_ended<R: AllocGlobal + Abort + Wait>(rt: &R, kind: MetricKind) {
    let on = collector(rt);
    let mut local = Local::new(rt.alloc(), &on);
    add(rt, &mut local, kind, "a", 2);
    let mut seen = [0; 6];
    for (one, now) in seen.iter_mut().zip(&[10, 15, 16, 17]) {
        *one = ended(rt, &on, *now);
    }
    local.clear();
    for (one, now) in seen.iter_mut().skip(4).zip(&[18, 30]) {
        *one = ended(rt, &on, *now);
    }
    assert!(rt; seen == [0, 0, 1, 1, 0, 0]);
}

#[test]
fn an_epoch_ends_only_where_an_idle_series_is_held(rt: HostRuntime) {
    for kind in KINDS {
        expect_ended(&rt, kind);
    }
}
