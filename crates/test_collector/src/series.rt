//! Which series there are, and what is shown of them.

use crate::given::{
    MEMORY, collector, count, counter, expect_text, histogram, labels, record, set, update_each,
};
use metrics::{Error, Key, MetricKind, MetricKindMask, Unit};
use metrics_cells::{CounterFn, GaugeFn, HistogramFn};
use metrics_collector::{Bounds, Collector, Gathered, HistogramHandle, Naming, Value};
use std::fmt::Write;
use std::process::Abort;
use std::sync::Wait;

/// Adds 1 to a counter with labels by a handle, and 2 without one.
fn hit<R: AllocGlobal + Abort + Wait>(rt: &R, on: &Collector, labels: &[(&str, &str)]) {
    let key = Key::from_labels(rt.alloc(), "hits", labels).expect(rt, MEMORY);
    let hits = on.counter(rt, &key).expect(rt, MEMORY);
    CounterFn::increment(&hits, 1);
    on.increment(rt, &key, 2).expect(rt, MEMORY);
}

#[test]
fn labels_in_another_order_name_the_same_series(rt: HostRuntime) {
    let on = collector(&rt, MetricKindMask::ALL);
    hit(&rt, &on, &[("a", "1"), ("b", "2")]);
    hit(&rt, &on, &[("b", "2"), ("a", "1")]);
    hit(&rt, &on, &[("a", "2"), ("b", "1")]);
    let wanted = "# TYPE hits counter\nhits{a=\"1\",b=\"2\"} 6\nhits{a=\"2\",b=\"1\"} 3\n";
    expect_text(&rt, &on, 10, wanted);
}

#[test]
fn a_series_own_label_wins_over_one_of_the_collector(rt: HostRuntime) {
    let made = collector(&rt, MetricKindMask::ALL).with_labels(labels(&rt));
    let on = made.ok().expect(&rt, "good labels");
    hit(&rt, &on, &[("zone", "own"), ("b", "1")]);
    hit(&rt, &on, &[("b", "1"), ("zone", "own")]);
    hit(&rt, &on, &[]);
    expect_text(
        &rt,
        &on,
        10,
        "# TYPE hits counter\nhits{b=\"1\",host=\"h\",zone=\"own\"} 6\nhits{host=\"h\",zone=\"e\"} 3\n",
    );
}

fn describe<R: AllocGlobal + Abort + Wait>(rt: &R, on: &Collector, kind: MetricKind, text: &str) {
    on.describe(rt, rt.alloc(), kind, "hits", Some(Unit::Count), text)
        .expect(rt, MEMORY);
}

/// The last description of a name and kind is shown.
#[test]
fn a_description_is_shown_before_its_kind(rt: HostRuntime) {
    let on = collector(&rt, MetricKindMask::ALL);
    describe(&rt, &on, MetricKind::Counter, "some hits");
    describe(&rt, &on, MetricKind::Counter, "all hits");
    describe(&rt, &on, MetricKind::Gauge, "no hits");
    hit(&rt, &on, &[]);
    expect_text(
        &rt,
        &on,
        10,
        "# HELP hits all hits\n# TYPE hits counter\nhits 3\n",
    );
}

/// Histograms count at 1, and at one other bound for each of these prefixes.
fn bounds_by_prefix<R: AllocGlobal + Abort>(rt: &R, prefixes: &[(&str, i64)]) -> Bounds {
    let mut bounds = Bounds::new(rt.alloc(), &[1]).expect(rt, MEMORY);
    for (prefix, bound) in prefixes {
        let set = bounds.set(rt.alloc(), prefix, &[*bound]);
        set.expect(rt, MEMORY);
    }
    bounds
}

/// Records into histograms, and compares the text.
fn expect_bounds<R: AllocGlobal + Abort + Wait>(
    rt: &R,
    bounds: Bounds,
    names: &[&str],
    wanted: &str,
) {
    let made = Collector::new(rt.alloc(), 1, MetricKindMask::NONE, None, bounds);
    let on = made.expect(rt, MEMORY);
    for name in names {
        record(rt, &on, name, 4);
    }
    expect_text(rt, &on, 10, wanted);
}

const BY_PREFIX: &str = "# TYPE b histogram\n\
    b_bucket{le=\"1\"} 0\nb_bucket{le=\"+Inf\"} 1\nb_sum 4\nb_count 1\n\
    # TYPE h histogram\n\
    h_bucket{le=\"3\"} 0\nh_bucket{le=\"+Inf\"} 1\nh_sum 4\nh_count 1\n\
    # TYPE ha histogram\n\
    ha_bucket{le=\"5\"} 1\nha_bucket{le=\"+Inf\"} 1\nha_sum 4\nha_count 1\n\
    # TYPE hat histogram\n\
    hat_bucket{le=\"5\"} 1\nhat_bucket{le=\"+Inf\"} 1\nhat_sum 4\nhat_count 1\n";

#[test]
fn the_longest_prefix_gives_the_bounds(rt: HostRuntime) {
    let bounds = bounds_by_prefix(&rt, &[("ha", 5), ("h", 3), ("hab", 7)]);
    expect_bounds(&rt, bounds, &["b", "h", "ha", "hat"], BY_PREFIX);
}

const BY_EMPTY_PREFIX: &str = "# TYPE b histogram\n\
    b_bucket{le=\"2\"} 0\nb_bucket{le=\"+Inf\"} 1\nb_sum 4\nb_count 1\n\
    # TYPE h histogram\n\
    h_bucket{le=\"3\"} 0\nh_bucket{le=\"+Inf\"} 1\nh_sum 4\nh_count 1\n";

#[test]
fn the_empty_prefix_goes_before_the_default_bounds(rt: HostRuntime) {
    let bounds = bounds_by_prefix(&rt, &[("", 2), ("h", 3)]);
    expect_bounds(&rt, bounds, &["b", "h"], BY_EMPTY_PREFIX);
}

fn error_of<R: AllocGlobal + Abort>(rt: &R, shards: usize) -> Option<Error> {
    let bounds = Bounds::new(rt.alloc(), &[10]).expect(rt, MEMORY);
    Collector::new(rt.alloc(), shards, MetricKindMask::ALL, None, bounds).err()
}

#[test]
fn shards_are_a_power_of_two_up_to_1024(rt: HostRuntime) {
    for shards in [0, 3, 2048] {
        assert_eq!(rt; error_of(&rt, shards), Some(Error::BadShards), "{shards}");
    }
}

/// The key of a name with a number as its label.
fn numbered<R: AllocGlobal + Abort>(rt: &R, name: &str, number: i64) -> Key {
    let at = format!(in rt.alloc(); "{number}").expect(rt, MEMORY);
    Key::from_labels(rt.alloc(), name, &[("at", at.as_str())]).expect(rt, MEMORY)
}

/// Makes the series of a number, one of each kind.
fn update_at<R: AllocGlobal + Abort + Wait>(rt: &R, on: &Collector, number: i64) {
    let made = on.counter(rt, &numbered(rt, "c", number));
    CounterFn::increment(&made.expect(rt, MEMORY), 1);
    let made = on.gauge(rt, &numbered(rt, "g", number));
    GaugeFn::set(&made.expect(rt, MEMORY), number);
    let made = on.histogram(rt, &numbered(rt, "h", number));
    let recorded = made.expect(rt, MEMORY).record(rt, number);
    recorded.expect(rt, "the count fits");
}

/// The numbers, as a text sorts them.
const NUMBERS: [i64; 24] = [
    10, 11, 12, 13, 14, 15, 16, 17, 18, 19, 20, 21, 22, 23, 24, 25, 26, 27, 28, 29, 30, 31, 32, 33,
];

/// The text of all series.
fn text_of_all<R: AllocGlobal + Abort>(rt: &R) -> String {
    let mut text = String::new(rt.alloc());
    write!(text, "# TYPE c counter\n").expect(rt, MEMORY);
    for at in NUMBERS {
        write!(text, "c{{at=\"{at}\"}} 1\n").expect(rt, MEMORY);
    }
    write!(text, "# TYPE g gauge\n").expect(rt, MEMORY);
    for at in NUMBERS {
        write!(text, "g{{at=\"{at}\"}} {at}\n").expect(rt, MEMORY);
    }
    write!(text, "# TYPE h histogram\n").expect(rt, MEMORY);
    for at in NUMBERS {
        let low = u8::from(at == 10);
        write!(
            text,
            "h_bucket{{at=\"{at}\",le=\"10\"}} {low}\nh_bucket{{at=\"{at}\",le=\"+Inf\"}} 1\n\
            h_sum{{at=\"{at}\"}} {at}\nh_count{{at=\"{at}\"}} 1\n"
        )
        .expect(rt, MEMORY);
    }
    text
}

/// Makes all series, and reads them. Then reads again when they are idle.
///
/// A text shows each once, however often it was read. So what was gathered is counted too.
fn read_all<R: AllocGlobal + Abort + Wait>(rt: &R, on: &Collector, [now, idle]: [u64; 2]) {
    for number in NUMBERS {
        update_at(rt, on, number);
    }
    let gathered = on.gather(rt, rt.alloc(), now).expect(rt, MEMORY);
    assert_eq!(rt; gathered.series.len(), 72);
    expect_text(rt, on, now, text_of_all(rt).as_str());
    expect_text(rt, on, idle, "");
}

#[test]
fn each_series_of_each_shard_is_read_once_and_leaves_once_it_is_idle(rt: HostRuntime) {
    let on = collector(&rt, MetricKindMask::ALL);
    for moments in [[10, 16], [20, 26]] {
        read_all(&rt, &on, moments);
    }
}

#[test]
fn handles_made_twice_share_a_cell(rt: HostRuntime) {
    let on = collector(&rt, MetricKindMask::ALL);
    let hits = counter(&rt, &on, "hits");
    count(&rt, &on, "hits", 2);
    CounterFn::increment(&hits, 3);
    count(&rt, &on, "hits", 4);
    expect_text(&rt, &on, 10, "# TYPE hits counter\nhits 9\n");
}

/// The counts, values of gauges and samples of all series, added up.
pub fn sums_of(gathered: &Gathered) -> (u64, i64, u64) {
    let mut sums = (0u64, 0i64, 0u64);
    for series in &gathered.series {
        match &series.value {
            Value::Count(count) => sums.0 = sums.0.wrapping_add(*count),
            Value::Level(level) => sums.1 = sums.1.wrapping_add(*level),
            Value::Samples(samples) => sums.2 = sums.2.wrapping_add(samples.count()),
        }
    }
    sums
}

/// A text shows one of them, since a name has one kind there.
#[test]
fn one_key_has_a_series_of_each_kind(rt: HostRuntime) {
    let on = collector(&rt, MetricKindMask::ALL);
    update_each(&rt, &on, ["a", "a", "a"], (2, 7, 9));
    let gathered = on.gather(&rt, rt.alloc(), 10).expect(&rt, MEMORY);
    assert_eq!(&rt; (gathered.series.len(), sums_of(&gathered)), (3, (2, 7, 1)));
}

/// Makes a handle four times, and clones each nine times.
fn clones<R: AllocGlobal + Abort + Wait>(rt: &R, on: &Collector) -> Vec<HistogramHandle> {
    let mut all = Vec::new(rt.alloc());
    for _ in 0..4 {
        let one = histogram(rt, on, "h");
        for _ in 0..9 {
            let clone = one.clone().expect(rt, "few clones");
            all.push(clone).expect(rt, MEMORY);
        }
        all.push(one).expect(rt, MEMORY);
    }
    all
}

/// Records a sample through each: 0, 1, 2 and so on.
fn record_each<R: Abort + Wait>(rt: &R, handles: &[HistogramHandle]) {
    let mut sample = 0;
    for handle in handles {
        handle.record(rt, sample).expect(rt, "the count fits");
        sample = sample.wrapping_add(1);
    }
}

/// Records a 100 through each, and reads after each, when the sample before is too long ago.
fn record_and_read<R: AllocGlobal + Abort + Wait>(
    rt: &R,
    on: &Collector,
    handles: &[HistogramHandle],
) {
    let mut now = 0u64;
    for handle in handles {
        handle.record(rt, 100).expect(rt, "the count fits");
        now = now.wrapping_add(10);
        let gathered = on.gather(rt, rt.alloc(), now).expect(rt, MEMORY);
        assert_eq!(rt; gathered.series.len(), 1, "at {now}");
    }
}

fn expect_each_sample<R: AllocGlobal + Abort + Wait>(rt: &R, on: &Collector) {
    let handles = clones(rt, on);
    record_each(rt, &handles);
    record_and_read(rt, on, &handles);
    drop(handles);
    expect_text(
        rt,
        on,
        400,
        "# TYPE h histogram\nh_bucket{le=\"10\"} 11\nh_bucket{le=\"+Inf\"} 80\nh_sum 4780\nh_count 80\n",
    );
}

#[test]
fn each_sample_through_many_handles_and_clones_is_counted_and_is_activity(rt: HostRuntime) {
    expect_each_sample(&rt, &collector(&rt, MetricKindMask::ALL));
    for stripes in [0, 1, 3] {
        let on = collector(&rt, MetricKindMask::ALL).with_stripes(stripes);
        expect_each_sample(&rt, &on);
    }
}

const RECOMMENDED: &str = "# TYPE hits_total counter\nhits_total 3\n\
    # HELP temp_seconds t\n# TYPE temp_seconds gauge\ntemp_seconds 0.007\n";

#[test]
fn a_naming_decides_names_and_units(rt: HostRuntime) {
    let on = collector(&rt, MetricKindMask::ALL).with_naming(Naming::Recommended);
    let unit = Some(Unit::Milliseconds);
    let described = on.describe(&rt, rt.alloc(), MetricKind::Gauge, "temp", unit, "t");
    described.expect(&rt, MEMORY);
    count(&rt, &on, "hits", 3);
    set(&rt, &on, "temp", 7);
    expect_text(&rt, &on, 10, RECOMMENDED);
}
