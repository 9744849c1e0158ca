//! Layers, and stacks of them: a call that runs out of memory returns the recorder unchanged.

use crate::given::Test;
use metrics::MetricKind::Counter;
use metrics::{Key, Recorder};
use metrics_layers::{FilterLayer, Layer, Prefix, PrefixLayer, Stack};
use std::process::Abort;

/// Returns a layer. The first try may run out of memory.
pub fn prefix<P: Abort>(test: &Test<P>, text: &str) -> PrefixLayer {
    test.tried(|| PrefixLayer::new(test.alloc, text))
}

/// Returns a layer likewise.
pub fn filter<P: Abort>(test: &Test<P>) -> FilterLayer {
    test.tried(|| FilterLayer::from_patterns(test.alloc, &["x.t", "he"]))
}

fn expect_layered<P: Abort, R: Recorder, L: Layer<R>>(test: &Test<P>, layer: L, on: R) {
    let mut on = test.made_from(on, |on| layer.layer(test.alloc, on));
    test.expect_gauge(&mut on);
}

#[test]
fn a_layer_gives_its_recorder_back(rt: HostRuntime) {
    let test = Test::marked(&rt, rt.alloc());
    expect_layered(&test, prefix(&test, "a"), test.book_of_gauge());
    expect_layered(&test, filter(&test), test.book_of_gauge());
}

/// Pushes a layer, and if that fails an equal one on the recorder that it returned.
fn pushed<P: Abort, R: Recorder, L: Layer<R>>(
    test: &Test<P>,
    stack: Stack<R>,
    layer: L,
    equal: L,
) -> Stack<L::Output> {
    test.begin();
    let first = stack.push(test.alloc, layer);
    test.calm();
    match first {
        Ok(stack) => stack,
        Err((error, mut inner)) => {
            test.note_unchanged(error, &mut inner);
            test.made(Stack::new(inner).push(test.alloc, equal))
        }
    }
}

/// Registers a counter. The first try may run out of memory, and then the book has the gauge alone.
fn register<P: Abort, R: Recorder>(test: &Test<P>, on: &mut R, name: &str) {
    let key = test.ok(Key::from_name(test.alloc, name));
    test.begin();
    let first = on.register(test.alloc, Counter, &key);
    test.calm();
    if let Err(refused) = first {
        test.note_unchanged(refused, on);
    }
}

/// Checks names below the layers: the one that was pushed last sees a name first.
fn expect_stacked<P: Abort, R: Recorder>(test: &Test<P>, mut on: R) {
    register(test, &mut on, "x.todo");
    register(test, &mut on, "x");
    test.expect_registered(
        &mut on,
        &[(Counter, "x.todo", &[]), (Counter, "x", &[(0, 1)])],
    );
    test.expect_names(&mut on, 0, &["g", "a.b.x"]);
}

fn push_prefix<P: Abort, R: Recorder>(
    test: &Test<P>,
    stack: Stack<R>,
    text: &str,
) -> Stack<Prefix<R>> {
    pushed(test, stack, prefix(test, text), prefix(test, text))
}

fn push_filter<P: Abort, R: Recorder>(test: &Test<P>, stack: Stack<R>) {
    expect_stacked(test, pushed(test, stack, filter(test), filter(test)));
}

fn push_second<P: Abort, R: Recorder>(test: &Test<P>, stack: Stack<R>) {
    push_filter(test, push_prefix(test, stack, "b"));
}

/// Pushes two prefixes, and then a filter.
fn push_all<P: Abort, R: Recorder>(test: &Test<P>, on: R) {
    push_second(test, push_prefix(test, Stack::new(on), "a"));
}

#[test]
fn each_push_gives_the_recorder_back(rt: HostRuntime) {
    let test = Test::marked(&rt, rt.alloc());
    push_all(&test, test.book_of_gauge());
}
