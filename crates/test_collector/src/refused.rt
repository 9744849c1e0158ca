//! What is left after an allocation failed. Each test then continues with memory available.

use crate::given::{
    MEMORY, collector, count, counter, expect_text, gauge, histogram, labels, record, set,
};
use crate::series::sums_of;
use metrics::{Error, Key, MetricKind, MetricKindMask};
use metrics_cells::{CounterFn, GaugeFn, HistogramFn};
use metrics_collector::{Bounds, Collector, Gathered};
use std::process::Abort;
use std::sync::Wait;
use test_trial::Trial;

/// Notes an error, which has to be out of memory.
fn note<R: Abort>(rt: &R, trial: &mut Trial, error: Error) {
    trial.note(error).expect(rt, "another error");
}

/// Asks for a handle and drops it. Returns why there was none.
fn ask<W: Wait>(rt: &W, on: &Collector, kind: MetricKind, key: &Key) -> Option<Error> {
    match kind {
        MetricKind::Counter => on.counter(rt, key).err(),
        MetricKind::Gauge => on.gauge(rt, key).err(),
        MetricKind::Histogram => on.histogram(rt, key).err(),
    }
}

const OLD: &str = "# TYPE old counter\nold{host=\"h\",zone=\"e\"} 5\n";

/// Asks for a handle of a name with a label. A call that runs out of memory makes no series, and changes none.
fn ask_twice<R: AllocGlobal + Abort + Wait>(
    rt: &R,
    trial: &mut Trial,
    on: &Collector,
    (kind, name, zone): (MetricKind, &str, &str),
) {
    let key = Key::from_labels(rt.alloc(), name, &[("zone", zone)]).expect(rt, MEMORY);
    trial.begin();
    let error = ask(rt, on, kind, &key);
    trial.calm();
    if let Some(error) = error {
        note(rt, trial, error);
        expect_text(rt, on, 10, OLD);
        assert_eq!(rt; ask(rt, on, kind, &key), None);
    }
}

/// Asks for an old series, and then for a new one of a kind.
fn expect_asked<R: AllocGlobal + Abort + Wait>(
    rt: &R,
    trial: &mut Trial,
    kind: MetricKind,
    wanted: &str,
) {
    let made = collector(rt, MetricKindMask::ALL).with_labels(labels(rt));
    let on = made.ok().expect(rt, "good labels");
    count(rt, &on, "old", 5);
    ask_twice(rt, trial, &on, (MetricKind::Counter, "old", "e"));
    ask_twice(rt, trial, &on, (kind, "new", "1"));
    expect_text(rt, &on, 10, wanted);
}

const WITH_COUNTER: &str = "# TYPE new counter\nnew{host=\"h\",zone=\"1\"} 0\n\
    # TYPE old counter\nold{host=\"h\",zone=\"e\"} 5\n";

const WITH_GAUGE: &str = "# TYPE new gauge\nnew{host=\"h\",zone=\"1\"} 0\n\
    # TYPE old counter\nold{host=\"h\",zone=\"e\"} 5\n";

const WITH_HISTOGRAM: &str = "# TYPE new histogram\n\
    new_bucket{host=\"h\",zone=\"1\",le=\"10\"} 0\nnew_bucket{host=\"h\",zone=\"1\",le=\"+Inf\"} 0\n\
    new_sum{host=\"h\",zone=\"1\"} 0\nnew_count{host=\"h\",zone=\"1\"} 0\n\
    # TYPE old counter\nold{host=\"h\",zone=\"e\"} 5\n";

#[test]
fn a_handle_without_memory_makes_no_series(rt: HostRuntime) {
    let mut trial = Trial::new(rt.alloc());
    expect_asked(&rt, &mut trial, MetricKind::Counter, WITH_COUNTER);
    expect_asked(&rt, &mut trial, MetricKind::Gauge, WITH_GAUGE);
    expect_asked(&rt, &mut trial, MetricKind::Histogram, WITH_HISTOGRAM);
}

/// Describes a counter. Returns why it couldn't be.
fn describe<R: AllocGlobal + Wait>(rt: &R, on: &Collector, text: &str) -> Option<Error> {
    on.describe(rt, rt.alloc(), MetricKind::Counter, "a", None, text)
        .err()
}

/// Describes anew. A call that runs out of memory keeps the description.
fn describe_twice<R: AllocGlobal + Abort + Wait>(
    rt: &R,
    trial: &mut Trial,
    on: &Collector,
    text: &str,
    (before, after): (&str, &str),
) {
    trial.begin();
    let error = describe(rt, on, text);
    trial.calm();
    if let Some(error) = error {
        note(rt, trial, error);
        expect_text(rt, on, 10, before);
        assert_eq!(rt; describe(rt, on, text), None);
    }
    expect_text(rt, on, 10, after);
}

const FIRST: &str = "# HELP a one\n# TYPE a counter\na 1\n";

const SECOND: &str = "# HELP a two\n# TYPE a counter\na 1\n";

#[test]
fn a_description_without_memory_changes_nothing(rt: HostRuntime) {
    let mut trial = Trial::new(rt.alloc());
    let on = collector(&rt, MetricKindMask::ALL);
    count(&rt, &on, "a", 1);
    describe_twice(
        &rt,
        &mut trial,
        &on,
        "one",
        ("# TYPE a counter\na 1\n", FIRST),
    );
    describe_twice(&rt, &mut trial, &on, "two", (FIRST, SECOND));
}

/// The lowest bound of a name.
fn bound_of(bounds: &Bounds, name: &str) -> Option<i64> {
    bounds.of(name).bounds().first().copied()
}

/// Sets the bound of a prefix. A call that runs out of memory keeps the one before.
fn set_twice<R: Abort>(
    rt: &R,
    trial: &mut Trial,
    bounds: &mut Bounds,
    prefix: &str,
    (before, bound): (i64, i64),
) {
    trial.begin();
    let error = bounds.set(trial.alloc, prefix, &[bound]).err();
    trial.calm();
    if let Some(error) = error {
        note(rt, trial, error);
        assert_eq!(rt; bound_of(bounds, "http"), Some(before));
        assert_eq!(rt; bounds.set(trial.alloc, prefix, &[bound]), Ok(()));
    }
    assert_eq!(rt; bound_of(bounds, "http"), Some(bound));
}

#[test]
fn bounds_without_memory_change_nothing(rt: HostRuntime) {
    let mut trial = Trial::new(rt.alloc());
    let mut bounds = Bounds::new(rt.alloc(), &[1]).expect(&rt, MEMORY);
    for (prefix, change) in [("ht", (1, 2)), ("http", (2, 3)), ("http", (3, 4))] {
        set_twice(&rt, &mut trial, &mut bounds, prefix, change);
    }
    assert_eq!(&rt; bound_of(&bounds, "ht"), Some(2));
}

/// Updates series of each kind, and keeps no handles.
fn update<R: AllocGlobal + Abort + Wait>(rt: &R, on: &Collector) {
    count(rt, on, "c", 1);
    set(rt, on, "g", 3);
    record(rt, on, "h", 2);
}

/// Compares the next text, which is late if the first one ran out of memory.
fn expect_next<R: AllocGlobal + Abort + Wait>(
    rt: &R,
    trial: &mut Trial,
    on: &Collector,
    wanted: &str,
) {
    trial.begin();
    let first = on.render(rt, trial.alloc, 20);
    trial.calm();
    match first {
        Ok(text) => assert!(rt; text.as_str() == wanted),
        Err(error) => {
            note(rt, trial, error);
            expect_text(rt, on, 40, wanted);
        }
    }
}

const NEW: &str = "# TYPE c counter\nc 1\n# TYPE g gauge\ng 3\n# TYPE h histogram\n\
    h_bucket{le=\"10\"} 1\nh_bucket{le=\"+Inf\"} 1\nh_sum 2\nh_count 1\n";

const BEFORE: &str = "# TYPE hidden counter\nhidden 1\n# TYPE left counter\nleft 1\n";

const AFTER: &str = "# TYPE hidden counter\nhidden 3\n# TYPE left counter\nleft 0\n";

/// What a reading without memory met is shown by the next one, though after the timeout. A series that was idle stays
/// hidden if a handle is kept, and is gone otherwise.
fn expect_readings<R: AllocGlobal + Abort + Wait>(rt: &R, trial: &mut Trial, on: &Collector) {
    let hidden = counter(rt, on, "hidden");
    CounterFn::increment(&hidden, 1);
    count(rt, on, "left", 1);
    expect_text(rt, on, 10, BEFORE);
    update(rt, on);
    expect_next(rt, trial, on, NEW);
    CounterFn::increment(&hidden, 2);
    count(rt, on, "left", 0);
    expect_text(rt, on, 60, AFTER);
}

#[test]
fn a_reading_without_memory_counts_for_nothing(rt: HostRuntime) {
    let mut trial = Trial::new(rt.alloc());
    let on = collector(&rt, MetricKindMask::ALL);
    expect_readings(&rt, &mut trial, &on);
}

/// The same for series that were shown before, and have changed.
#[test]
fn a_change_that_a_reading_without_memory_met_is_shown(rt: HostRuntime) {
    let mut trial = Trial::new(rt.alloc());
    let on = collector(&rt, MetricKindMask::ALL);
    update(&rt, &on);
    expect_text(&rt, &on, 15, NEW);
    update(&rt, &on);
    expect_next(&rt, &mut trial, &on, CHANGED);
}

const CHANGED: &str = "# TYPE c counter\nc 2\n# TYPE g gauge\ng 3\n# TYPE h histogram\n\
    h_bucket{le=\"10\"} 2\nh_bucket{le=\"+Inf\"} 2\nh_sum 4\nh_count 2\n";

/// What was gathered is a series of each kind, with so many updates by 1.
fn expect_updates<R: Abort>(rt: &R, gathered: &Gathered, updates: u64) {
    assert_eq!(rt; gathered.series.len(), 3);
    assert_eq!(rt;
        sums_of(gathered),
        (updates, updates.cast_signed(), updates)
    );
}

/// Updates series by handles that are kept, and reads each time. After a reading without memory the next one shows all
/// updates, though it is late.
fn expect_kept<R: AllocGlobal + Abort + Wait>(rt: &R, trial: &mut Trial, on: &Collector) {
    let (c, g, h) = (
        counter(rt, on, "c"),
        gauge(rt, on, "g"),
        histogram(rt, on, "h"),
    );
    for updates in 1..4u64 {
        CounterFn::increment(&c, 1);
        GaugeFn::increment(&g, rt, 1);
        h.record(rt, 1).expect(rt, MEMORY);
        let now = updates.wrapping_mul(20);
        trial.begin();
        let first = on.gather(rt, trial.alloc, now);
        trial.calm();
        match first {
            Ok(gathered) => expect_updates(rt, &gathered, updates),
            Err(error) => {
                note(rt, trial, error);
                let late = on.gather(rt, trial.alloc, now.wrapping_add(10));
                expect_updates(rt, &late.expect(rt, MEMORY), updates);
            }
        }
    }
}

#[test]
fn readings_without_memory_lose_no_update_of_a_kept_handle(rt: HostRuntime) {
    let mut trial = Trial::new(rt.alloc());
    let on = collector(&rt, MetricKindMask::ALL);
    expect_kept(&rt, &mut trial, &on);
}
