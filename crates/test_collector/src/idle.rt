//! Series that are idle: hidden while somebody has a handle, and otherwise gone.

use crate::given::{
    collector, counter, expect_text, expect_texts, gauge, histogram, set, update_each,
};
use metrics::MetricKindMask;
use metrics_cells::{CounterFn, GaugeFn, HistogramFn};
use metrics_collector::Collector;
use std::process::Abort;
use std::sync::Wait;

const TEMP: &str = "# TYPE temp gauge\ntemp 7\n";

fn set_at_each<R: AllocGlobal + Abort + Wait>(rt: &R, on: &Collector) {
    let temp = gauge(rt, on, "temp");
    for now in [10, 16, 22, 28, 34] {
        GaugeFn::set(&temp, 7);
        expect_text(rt, on, now, TEMP);
    }
}

/// Setting a gauge to the value that it has is activity.
#[test]
fn a_gauge_that_is_set_at_each_scrape_is_in_each_text(rt: HostRuntime) {
    let on = collector(&rt, MetricKindMask::ALL);
    set_at_each(&rt, &on);
}

#[test]
fn an_idle_gauge_goes_once_and_comes_back_when_it_is_updated(rt: HostRuntime) {
    let on = collector(&rt, MetricKindMask::ALL);
    set(&rt, &on, "temp", 7);
    expect_texts(
        &rt,
        &on,
        &[(10, TEMP), (15, TEMP), (16, ""), (17, ""), (30, "")],
    );
    set(&rt, &on, "temp", 7);
    expect_texts(&rt, &on, &[(40, TEMP), (45, TEMP), (46, ""), (47, "")]);
}

/// One update of a counter, a gauge and a histogram by 2.
const ONCE: &str = "# TYPE c counter\nc 2\n# TYPE g gauge\ng 2\n# TYPE h histogram\n\
    h_bucket{le=\"10\"} 1\nh_bucket{le=\"+Inf\"} 1\nh_sum 2\nh_count 1\n";

/// A second one.
const TWICE: &str = "# TYPE c counter\nc 4\n# TYPE g gauge\ng 4\n# TYPE h histogram\n\
    h_bucket{le=\"10\"} 2\nh_bucket{le=\"+Inf\"} 2\nh_sum 4\nh_count 2\n";

/// None.
const NEVER: &str = "# TYPE c counter\nc 0\n# TYPE g gauge\ng 0\n# TYPE h histogram\n\
    h_bucket{le=\"10\"} 0\nh_bucket{le=\"+Inf\"} 0\nh_sum 0\nh_count 0\n";

/// Updates each series by 2, and renders at some moments, while the handles are kept. Then drops them.
fn update_all<R: AllocGlobal + Abort + Wait>(rt: &R, on: &Collector, times: &[&[(u64, &str)]]) {
    let c = counter(rt, on, "c");
    let g = gauge(rt, on, "g");
    let h = histogram(rt, on, "h");
    for wanted in times {
        CounterFn::increment(&c, 2);
        GaugeFn::increment(&g, rt, 2);
        h.record(rt, 2).expect(rt, "the count fits");
        expect_texts(rt, on, wanted);
    }
}

#[test]
fn a_kept_handle_counts_on_where_its_series_was_hidden(rt: HostRuntime) {
    let on = collector(&rt, MetricKindMask::ALL);
    let first = [(10, ONCE), (15, ONCE), (16, ""), (17, ""), (100, "")];
    update_all(
        &rt,
        &on,
        &[&first, &[(200, TWICE), (205, TWICE), (206, "")]],
    );
}

#[test]
fn a_series_without_handles_begins_anew(rt: HostRuntime) {
    let on = collector(&rt, MetricKindMask::ALL);
    update_all(&rt, &on, &[&[(10, ONCE), (16, "")], &[(20, TWICE)]]);
    expect_texts(&rt, &on, &[(25, TWICE), (26, "")]);
    update_all(&rt, &on, &[&[(30, ONCE)]]);
    expect_texts(&rt, &on, &[(36, "")]);
    update_all(&rt, &on, &[]);
    expect_texts(&rt, &on, &[(40, NEVER), (45, NEVER), (46, "")]);
}

/// Makes updates that change no count, and one that does.
fn update_by_nothing<R: AllocGlobal + Abort + Wait>(rt: &R, on: &Collector) {
    let hits = counter(rt, on, "hits");
    CounterFn::absolute(&hits, 3);
    expect_text(rt, on, 10, "# TYPE hits counter\nhits 3\n");
    CounterFn::increment(&hits, 0);
    CounterFn::absolute(&hits, 3);
    CounterFn::absolute(&hits, 2);
    expect_text(rt, on, 16, "");
    CounterFn::absolute(&hits, 4);
    expect_text(rt, on, 22, "# TYPE hits counter\nhits 4\n");
}

#[test]
fn an_update_that_changes_no_count_is_no_activity(rt: HostRuntime) {
    let on = collector(&rt, MetricKindMask::ALL);
    update_by_nothing(&rt, &on);
}

const LEVEL: &str = "# TYPE g gauge\ng 2\n# TYPE h histogram\n\
    h_bucket{le=\"10\"} 1\nh_bucket{le=\"+Inf\"} 1\nh_sum 2\nh_count 1\n";

#[test]
fn a_kind_outside_of_the_mask_is_never_idle(rt: HostRuntime) {
    let on = collector(&rt, MetricKindMask::COUNTER);
    update_each(&rt, &on, ["c", "g", "h"], (2, 2, 2));
    expect_texts(&rt, &on, &[(10, ONCE), (16, LEVEL), (1000, LEVEL)]);
}
