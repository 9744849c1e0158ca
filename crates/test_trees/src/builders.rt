//! Trees, and their builders: a failed call returns the recorder unchanged.

use crate::given::{Book, Test};
use crate::layers::{filter, prefix};
use metrics::MetricKind::{Counter, Gauge, Histogram};
use metrics::{Error, MetricKindMask, Recorder};
use metrics_trees::{Child, FanoutBuilder, RouterBuilder};
use std::process::Abort;

/// Checks that a tree has so many books, and the gauge in the last.
fn expect_books<P: Abort, R: Recorder>(test: &Test<P>, mut on: R, books: usize) {
    assert!(test.rt; on.books() == books);
    test.expect_gauge(&mut on);
}

fn under_prefix<P: Abort, B: Recorder>(test: &Test<P>, child: Child<B>) -> Child<B> {
    let layer = prefix(test, "a");
    test.made_from(child, |child| child.prefix(test.alloc, &layer))
}

fn under_filter<P: Abort, B: Recorder>(test: &Test<P>, child: Child<B>) -> Child<B> {
    let layer = filter(test);
    test.made_from(child, |child| child.filter(test.alloc, &layer))
}

#[test]
fn a_child_comes_back_from_a_layer(rt: HostRuntime) {
    let test = Test::marked(&rt, rt.alloc());
    let child = under_prefix(&test, Child::leaf(test.book_of_gauge()));
    expect_books(&test, under_filter(&test, child), 1);
}

/// Adds a book that has the gauge. The first try may run out of memory.
fn add<P: Abort>(test: &Test<P>, builder: &mut FanoutBuilder<Book>) {
    let child = Child::leaf(test.book_of_gauge());
    test.made_from(child, |child| builder.add_recorder(child));
}

/// Adds a book of no series, with memory available.
fn add_empty<P: Abort>(test: &Test<P>, builder: &mut FanoutBuilder<Book>) {
    test.made(builder.add_recorder(Child::leaf(test.book())));
}

/// Adds 65,536 books, of which some have the gauge.
fn add_all<P: Abort>(test: &Test<P>, builder: &mut FanoutBuilder<Book>) {
    for book in 1..=65_536u32 {
        if book <= 100 || book == 65_536 {
            add(test, builder);
        } else {
            add_empty(test, builder);
        }
    }
}

/// Checks that one book more is returned.
fn expect_full<P: Abort>(test: &Test<P>, builder: &mut FanoutBuilder<Book>) {
    let child = Child::leaf(test.book_of_gauge());
    test.given_back(
        child,
        Error::TooManyBooks,
        |child| builder.add_recorder(child),
    );
}

#[test]
fn a_fanout_has_at_most_65536_books(rt: HostRuntime) {
    let test = Test::marked(&rt, rt.alloc());
    let mut builder = FanoutBuilder::default(rt.alloc());
    add_all(&test, &mut builder);
    expect_full(&test, &mut builder);
    expect_books(&test, builder.build(), 65_536);
}

/// Adds routes to a target that an empty mask returns first. Each first try may run out of memory.
fn add_routes<P: Abort, B: Recorder>(
    test: &Test<P>,
    builder: &mut RouterBuilder<B>,
    target: Child<B>,
) {
    let none = |target| builder.add_route(MetricKindMask::NONE, "q", target);
    let target = test.given_back(target, Error::EmptyMask, none);
    let two = MetricKindMask::COUNTER | MetricKindMask::GAUGE;
    let number = test.made_from(target, |target| builder.add_route(two, "q", target));
    assert!(test.rt; number == 0);
    test.tried(|| builder.add_route_to(MetricKindMask::COUNTER, "bar", 0));
}

/// Checks where names go that the routes are for.
fn expect_routed<P: Abort, R: Recorder>(test: &Test<P>, mut on: R) {
    test.expect_gauge(&mut on);
    test.expect_registered(
        &mut on,
        &[(Counter, "q", &[(1, 1)]), (Gauge, "q", &[(1, 2)])],
    );
    test.expect_registered(
        &mut on,
        &[(Histogram, "q", &[(0, 1)]), (Counter, "bar", &[(1, 3)])],
    );
}

#[test]
fn a_router_gives_its_recorder_back(rt: HostRuntime) {
    let test = Test::marked(&rt, rt.alloc());
    let default = Child::leaf(test.book_of_gauge());
    let mut builder = RouterBuilder::from_recorder(rt.alloc(), default);
    add_routes(&test, &mut builder, Child::leaf(test.book_of_gauge()));
    expect_routed(&test, builder.build());
}
