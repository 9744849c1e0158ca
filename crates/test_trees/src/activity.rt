//! Which series a snapshot calls active: those of its own book, below each layer.

use crate::given::{Book, Test};
use crate::layers::{filter, prefix};
use either::Either;
use metrics::{
    Address, Boxed, Key, MetricKind, MetricKindMask, NoopRecorder, Recorder, Reset, Snapshot,
    Update,
};
use metrics_debugging::Snapshotter;
use metrics_layers::{Layer, Stack};
use metrics_trees::{Child, Fanout, FanoutBuilder, Router, RouterBuilder};
use std::process::Abort;

/// For each of two books, whether its first and its second gauge were active.
type Marks = [[bool; 2]; 2];

/// The names of the gauges, of which each book of a fanout gets both.
const SHARED: [&str; 2] = ["low", "high"];

/// The names of the gauges, of which each book of a router gets two.
const ROUTED: [&str; 4] = ["in.low", "out.low", "in.high", "out.high"];

fn register_all<P: Abort, R: Recorder>(test: &Test<P>, on: &mut R, names: &[&str]) {
    for name in names {
        let key = test.ok(Key::from_name(test.alloc, name));
        test.ok(on.register(test.alloc, MetricKind::Gauge, &key));
    }
}

/// Whether the rows are those of two gauges, active as wanted.
fn are_marked(rows: &Snapshot, wanted: [bool; 2]) -> bool {
    let marks = rows.activity();
    for (i, active) in wanted.iter().enumerate() {
        if marks.get(i).map_or(true, |mark| *mark) != *active {
            return false;
        }
    }
    rows.as_slice().len() == 2
}

/// Checks the marks of the two books' snapshots, after which all is idle.
fn expect_marks<P: Abort, R: Recorder>(test: &Test<P>, on: &mut R, wanted: Marks) {
    for (book, wanted) in wanted.iter().enumerate() {
        let rows = test.ok(on.snapshot_with(test.alloc, book, Reset::KeepGauges));
        assert!(test.rt; are_marked(&rows, *wanted), "in book {book}");
    }
}

/// Checks them likewise, by the calls that reset gauges too.
fn expect_reset<P: Abort, R: Recorder>(test: &Test<P>, on: &mut R, wanted: Marks) {
    let [first, second] = wanted;
    let rows = test.ok(on.snapshot(test.alloc, 0));
    assert!(test.rt; are_marked(&rows, first), "in the first book");
    let rows = test.ok(Snapshotter::of(1).snapshot(test.alloc, on));
    assert!(test.rt; are_marked(&rows, second), "in the second book");
}

fn set<P: Abort, R: Recorder>(test: &Test<P>, on: &mut R, (book, series): (usize, usize)) {
    let set = on.update(Address { book, series }, Update::Set(5));
    assert_eq!(test.rt; set, Ok(()));
}

/// Checks two gauges in each of two books: one that is set, or registered again, is active, and its neighbours are idle.
fn expect_activity<P: Abort, R: Recorder>(test: &Test<P>, mut on: R, names: &[&str]) {
    register_all(test, &mut on, names);
    expect_marks(test, &mut on, [[true, true], [true, true]]);
    set(test, &mut on, (0, 0));
    expect_marks(test, &mut on, [[true, false], [false, false]]);
    set(test, &mut on, (1, 1));
    expect_marks(test, &mut on, [[false, false], [false, true]]);
    set(test, &mut on, (0, 1));
    set(test, &mut on, (1, 0));
    expect_reset(test, &mut on, [[false, true], [true, false]]);
    expect_marks(test, &mut on, [[false, false], [false, false]]);
    register_all(test, &mut on, names);
    expect_reset(test, &mut on, [[true, true], [true, true]]);
}

/// Two recorders, of which each gets each name.
fn both<P: Abort, B: Recorder>(test: &Test<P>, one: B, other: B) -> Fanout<B> {
    let mut builder = FanoutBuilder::default(test.alloc);
    test.made(builder.add_recorder(Child::leaf(one)));
    test.made(builder.add_recorder(Child::leaf(other)));
    builder.build()
}

/// Two books, of which each gets each name.
fn fanout<P: Abort>(test: &Test<P>) -> Fanout<Book> {
    both(test, test.book(), test.book())
}

/// Two books, of which the second gets the names that begin with `out`, and the first the others.
fn router<P: Abort>(test: &Test<P>) -> Router<Book> {
    let mut builder = RouterBuilder::from_recorder(test.alloc, Child::leaf(test.book()));
    let target = Child::leaf(test.book());
    test.made(builder.add_route(MetricKindMask::ALL, "out", target));
    builder.build()
}

#[test]
fn a_fanout_keeps_each_books_activity(rt: HostRuntime) {
    let test = Test::whole(&rt, rt.alloc());
    expect_activity(&test, fanout(&test), &SHARED);
}

#[test]
fn a_router_keeps_each_books_activity(rt: HostRuntime) {
    let test = Test::whole(&rt, rt.alloc());
    expect_activity(&test, router(&test), &ROUTED);
}

fn expect_below<P: Abort, L: Layer<Fanout<Book>>>(test: &Test<P>, layer: L) {
    let on = test.made(layer.layer(test.alloc, fanout(test)));
    expect_activity(test, on, &SHARED);
}

#[test]
fn a_layer_keeps_each_books_activity(rt: HostRuntime) {
    let test = Test::whole(&rt, rt.alloc());
    expect_below(&test, prefix(&test, "a"));
    expect_below(&test, filter(&test));
}

#[test]
fn a_layer_of_a_tree_keeps_each_books_activity(rt: HostRuntime) {
    let test = Test::whole(&rt, rt.alloc());
    let below = test.made(fanout(&test).prefix(rt.alloc(), &prefix(&test, "a")));
    expect_activity(&test, below, &SHARED);
    let below = test.made(router(&test).filter(rt.alloc(), &filter(&test)));
    expect_activity(&test, below, &ROUTED);
}

#[test]
fn a_stack_keeps_each_books_activity(rt: HostRuntime) {
    let test = Test::whole(&rt, rt.alloc());
    expect_activity(&test, Stack::new(router(&test)), &ROUTED);
}

fn expect_both<P: Abort, B: Recorder>(test: &Test<P>, one: B, other: B) {
    expect_activity(test, both(test, one, other), &SHARED);
}

#[test]
fn a_pointer_keeps_each_books_activity(rt: HostRuntime) {
    let test = Test::whole(&rt, rt.alloc());
    let one = test.ok(Box::new(rt.alloc(), test.book()));
    let other = test.ok(Box::new(rt.alloc(), test.book()));
    expect_both(&test, Boxed(one), Boxed(other));
    let mut lent = router(&test);
    expect_activity(&test, &mut lent, &ROUTED);
}

fn expect_either<P: Abort, A: Recorder, C: Recorder>(test: &Test<P>, on: Either<A, C>) {
    expect_activity(test, on, &SHARED);
}

#[test]
fn either_keeps_each_books_activity(rt: HostRuntime) {
    let test = Test::whole(&rt, rt.alloc());
    expect_either::<_, _, NoopRecorder>(&test, Either::Left(fanout(&test)));
    expect_either::<_, NoopRecorder, _>(&test, Either::Right(fanout(&test)));
}
