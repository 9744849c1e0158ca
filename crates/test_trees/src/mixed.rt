//! Recorders of three types in one tree: a book, a book under a prefix, and a recorder that keeps nothing.
//!
//! Once they are leaves of one type that is one of three, and once each behind a pointer.

use crate::given::{Book, Registered, Test};
use either::Either;
use metrics::MetricKind::{Counter, Gauge, Histogram};
use metrics::{Boxed, MetricKindMask, NoopRecorder, Recorder};
use metrics_layers::{Prefix, PrefixLayer, Stack};
use metrics_trees::{Child, Fanout, FanoutBuilder, Router, RouterBuilder};
use std::process::Abort;

type Prefixed = Stack<Prefix<Book>>;

type Leaf = Either<Book, Either<Prefixed, NoopRecorder>>;

/// A book that has `p.` before each name.
fn prefixed<P: Abort>(test: &Test<P>) -> Prefixed {
    let layer = test.ok(PrefixLayer::new(test.alloc, "p"));
    test.made(Stack::new(test.book()).push(test.alloc, layer))
}

fn fanout_of<P: Abort, B: Recorder>(test: &Test<P>, first: B, second: B, third: B) -> Fanout<B> {
    let mut builder = FanoutBuilder::default(test.alloc);
    test.made(builder.add_recorder(Child::leaf(first)));
    test.made(builder.add_recorder(Child::leaf(second)));
    test.made(builder.add_recorder(Child::leaf(third)));
    builder.build()
}

/// Sends the names of a kind that begin with `h` to a recorder.
fn route<P: Abort, B: Recorder>(
    test: &Test<P>,
    builder: &mut RouterBuilder<B>,
    mask: MetricKindMask,
    leaf: B,
) {
    test.made(builder.add_route(mask, "h", Child::leaf(leaf)));
}

/// Counters `h` go to the second recorder, gauges `h` to the third, and the rest to the first.
fn router_of<P: Abort, B: Recorder>(test: &Test<P>, first: B, second: B, third: B) -> Router<B> {
    let mut builder = RouterBuilder::from_recorder(test.alloc, Child::leaf(first));
    route(test, &mut builder, MetricKindMask::COUNTER, second);
    route(test, &mut builder, MetricKindMask::GAUGE, third);
    builder.build()
}

/// Checks what register calls return, and the only name in each of two books.
fn expect_calls<P: Abort, R: Recorder>(
    test: &Test<P>,
    mut on: R,
    wanted: &[Registered],
    first: &str,
) {
    test.expect_registered(&mut on, wanted);
    assert!(test.rt; on.books() == 2);
    test.expect_names(&mut on, 0, &[first]);
    test.expect_names(&mut on, 1, &["p.hits"]);
}

fn expect_all<P: Abort, B: Recorder>(test: &Test<P>, first: B, second: B, third: B) {
    let wanted: [Registered; 1] = [(Counter, "hits", &[(0, 0), (1, 0)])];
    let fanout = fanout_of(test, first, second, third);
    expect_calls(test, fanout, &wanted, "hits");
}

fn book_leaf<P: Abort>(test: &Test<P>) -> Leaf {
    Either::Left(test.book())
}

fn prefixed_leaf<P: Abort>(test: &Test<P>) -> Leaf {
    Either::Right(Either::Left(prefixed(test)))
}

#[test]
fn a_fanout_of_three_types(rt: HostRuntime) {
    let test = Test::whole(&rt, rt.alloc());
    let nothing = Either::Right(Either::Right(NoopRecorder));
    expect_all(&test, book_leaf(&test), prefixed_leaf(&test), nothing);
}

fn expect_routed<P: Abort, B: Recorder>(test: &Test<P>, first: B, second: B, third: B) {
    let wanted: [Registered; 3] = [
        (Counter, "hits", &[(1, 0)]),
        (Gauge, "heat", &[]),
        (Histogram, "hours", &[(0, 0)]),
    ];
    let router = router_of(test, first, second, third);
    expect_calls(test, router, &wanted, "hours");
}

#[test]
fn a_router_of_three_types_behind_pointers(rt: HostRuntime) {
    let test = Test::whole(&rt, rt.alloc());
    let book = test.ok(Box::new(rt.alloc(), test.book()));
    let below = test.ok(Box::new(rt.alloc(), prefixed(&test)));
    let nothing = test.ok(Box::new(rt.alloc(), NoopRecorder));
    expect_routed(&test, Boxed(book), Boxed(below), Boxed(nothing));
}
