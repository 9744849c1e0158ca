//! Which labels all series may have.

use crate::given::{MEMORY, collector, count, expect_text};
use metrics::{Label, MetricKindMask};
use metrics_collector::{BadLabel, Collector, LabelList};
use std::process::Abort;

/// Gives a collector two labels of these names.
fn with_names<R: AllocGlobal + Abort>(
    rt: &R,
    names: [&str; 2],
) -> Result<Collector, (BadLabel, Collector)> {
    let mut labels = Vec::new(rt.alloc());
    for name in names {
        let label = Label::new(rt.alloc(), name, "v").expect(rt, MEMORY);
        labels.push(label).expect(rt, MEMORY);
    }
    collector(rt, MetricKindMask::ALL).with_labels(labels)
}

const BAD: [([&str; 2], BadLabel); 8] = [
    (["a", "__region"], BadLabel::Reserved),
    (["le", "a"], BadLabel::Reserved),
    (["region", "region"], BadLabel::Repeated),
    (["a", ""], BadLabel::Name),
    (["a b", "a"], BadLabel::Name),
    (["9a", "a"], BadLabel::Name),
    (["a", "a:b"], BadLabel::Name),
    (["ä", "__a"], BadLabel::Name),
];

/// A label that can't be one of all series is an error, and the collector that comes back has none.
#[test]
fn a_bad_label_is_an_error(rt: HostRuntime) {
    for (names, bad) in BAD {
        let (error, on) = with_names(&rt, names).err().expect(&rt, "a bad label");
        assert_eq!(&rt; error, bad);
        count(&rt, &on, "hits", 1);
        expect_text(&rt, &on, 10, "# TYPE hits counter\nhits 1\n");
    }
}

/// These are good, `_` alone and letters of both cases too.
#[test]
fn a_good_label_is_in_each_series(rt: HostRuntime) {
    let made = with_names(&rt, ["_", "Zone_9"]);
    let on = made.ok().expect(&rt, "good labels");
    count(&rt, &on, "hits", 1);
    let wanted = "# TYPE hits counter\nhits{Zone_9=\"v\",_=\"v\"} 1\n";
    expect_text(&rt, &on, 10, wanted);
}

/// A list of labels in their order.
#[test]
fn labels_of_a_list(rt: HostRuntime) {
    let labels = Label::list(rt.alloc(), &[("b", "1"), ("a", "2")]).expect(&rt, MEMORY);
    let on = collector(&rt, MetricKindMask::ALL).with_labels(labels).ok();
    let on = on.expect(&rt, "good labels");
    count(&rt, &on, "hits", 1);
    expect_text(
        &rt,
        &on,
        10,
        "# TYPE hits counter\nhits{a=\"2\",b=\"1\"} 1\n",
    );
}
