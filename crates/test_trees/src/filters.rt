//! Which names a filter rejects, and how long its patterns may be.

use crate::given::Test;
use metrics::{Error, Key, MetricKind, Recorder};
use metrics_layers::{FilterLayer, Layer};
use std::process::Abort;

/// Patterns, whether case is folded, and two names with whether each passes.
type Filtered = (&'static [&'static str], bool, [(&'static str, bool); 2]);

const FILTERED: [Filtered; 4] = [
    (&[], false, [("x", true), ("", true)]),
    (&[""], false, [("x", false), ("", false)]),
    (&["OdO"], true, [("a.todo", false), ("a.to", true)]),
    (&["x", "É"], true, [("É", false), ("é", true)]),
];

/// A layer of patterns, given at once or added one by one.
fn layer_of<P: Abort>(test: &Test<P>, patterns: &[&str], adds: bool) -> FilterLayer {
    if !adds {
        return test.ok(FilterLayer::from_patterns(test.alloc, patterns));
    }
    let mut layer = FilterLayer::default(test.alloc);
    for pattern in patterns {
        test.ok(layer.add_pattern(pattern));
    }
    layer
}

/// Whether a name reaches the book below.
fn is_passed<P: Abort, R: Recorder>(test: &Test<P>, on: &mut R, name: &str) -> bool {
    let key = test.ok(Key::from_name(test.alloc, name));
    let found = test.ok(on.register(test.alloc, MetricKind::Counter, &key));
    found.len() == 1
}

fn expect_passed<P: Abort, R: Recorder>(test: &Test<P>, mut on: R, names: [(&str, bool); 2]) {
    for (name, passes) in names {
        assert!(test.rt; is_passed(test, &mut on, name) == passes, "at {name}");
    }
}

/// Checks which names pass a layer over a new book.
fn expect_passing<P: Abort>(test: &Test<P>, layer: &FilterLayer, names: [(&str, bool); 2]) {
    expect_passed(test, test.made(layer.layer(test.alloc, test.book())), names);
}

#[test]
fn a_filter_refuses_names_that_have_a_pattern(rt: HostRuntime) {
    let test = Test::whole(&rt, rt.alloc());
    for (patterns, folds, names) in FILTERED {
        for (adds, use_dfa) in [(false, false), (false, true), (true, false), (true, true)] {
            let mut layer = layer_of(&test, patterns, adds);
            layer.case_insensitive(folds).use_dfa(use_dfa);
            expect_passing(&test, &layer, names);
        }
    }
}

#[test]
fn a_refused_pattern_filters_nothing(rt: HostRuntime) {
    let test = Test::marked(&rt, rt.alloc());
    let mut layer = FilterLayer::default(rt.alloc());
    layer.case_insensitive(true);
    test.begin();
    let first = layer.add_pattern("OdO");
    test.calm();
    if let Err(error) = first {
        test.note(error);
        expect_passing(&test, &layer, [("a.todo", true), ("a.to", true)]);
        test.ok(layer.add_pattern("OdO"));
    }
    expect_passing(&test, &layer, [("a.todo", false), ("a.to", true)]);
}

/// A layer of 256 equal patterns, which have 1,048,576 bytes together.
fn longest_layer<P: Abort>(test: &Test<P>, use_dfa: bool) -> FilterLayer {
    let mut pattern = String::new(test.alloc);
    for _ in 0..4_096u16 {
        test.ok(pattern.push('a'));
    }
    let mut layer = layer_of(test, &[pattern.as_str(); 256], false);
    layer.use_dfa(use_dfa);
    layer
}

fn expect_accepted<P: Abort, R: Recorder>(test: &Test<P>, layer: &FilterLayer, on: R) {
    let mut on = test.made_from(on, |on| layer.layer(test.alloc, on));
    test.expect_gauge(&mut on);
}

fn expect_too_long<P: Abort, R: Recorder>(test: &Test<P>, layer: &FilterLayer, on: R) {
    test.given_back(on, Error::PatternsTooLong, |on| layer.layer(test.alloc, on));
}

/// Checks that the longest layer is accepted, and rejected with one byte more.
fn expect_limit<P: Abort>(test: &Test<P>, use_dfa: bool) {
    let mut layer = longest_layer(test, use_dfa);
    expect_accepted(test, &layer, test.book_of_gauge());
    test.ok(layer.add_pattern("b"));
    expect_too_long(test, &layer, test.book_of_gauge());
}

#[test]
fn one_byte_past_the_limit_is_too_long(rt: HostRuntime) {
    let test = Test::marked(&rt, rt.alloc());
    expect_limit(&test, false);
    expect_limit(&test, true);
}
