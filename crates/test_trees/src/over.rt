//! Trees over rules: one recorder for each leaf.

use crate::given::{Book, Test};
use metrics::MetricKind::Gauge;
use metrics::Recorder;
use metrics_rules::{FanoutBuilder, Rules};
use metrics_trees::{Child, OverError};
use std::process::Abort;

/// Rules of two leaves, of which each gets each name.
fn rules<P: Abort>(test: &Test<P>) -> Rules {
    let mut builder = FanoutBuilder::default(test.alloc);
    test.made(builder.add_child(Rules::leaf()));
    test.made(builder.add_child(Rules::leaf()));
    builder.build()
}

/// So many books of no series.
fn books<P: Abort>(test: &Test<P>, count: usize) -> Vec<Book> {
    let mut books = Vec::new(test.alloc);
    for _ in 0..count {
        let pushed = books.push(test.book()).is_ok();
        assert!(test.rt; pushed, "out of memory");
    }
    books
}

/// Checks that so many books are returned, with the rules.
fn expect_back<P: Abort>(test: &Test<P>, count: usize) {
    match Child::over(rules(test), books(test, count)) {
        Ok(_tree) => panic!(test.rt; "made of {count} books"),
        Err((error, rules, back)) => {
            assert_eq!(test.rt; error, OverError::NotOneEach);
            assert!(test.rt; rules.leaves() == 2);
            assert!(test.rt; back.len() == count);
        }
    }
}

#[test]
fn too_few_and_too_many_recorders_come_back(rt: HostRuntime) {
    let test = Test::whole(&rt, rt.alloc());
    expect_back(&test, 0);
    expect_back(&test, 1);
    expect_back(&test, 3);
}

#[test]
fn a_tree_is_made_of_rules_and_recorders(rt: HostRuntime) {
    let test = Test::whole(&rt, rt.alloc());
    match Child::over(rules(&test), books(&test, 2)) {
        Ok(mut tree) => {
            assert!(rt; tree.rules().leaves() == 2 && tree.books() == 2);
            test.expect_registered(&mut tree, &[(Gauge, "q", &[(0, 0), (1, 0)])]);
        }
        Err((OverError::Memory, _, _)) => panic!(rt; "out of memory"),
        Err((error, _, _)) => panic!(rt; "refused: {error}"),
    }
}
