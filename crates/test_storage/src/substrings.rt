//! Both forms of the automaton, with expected answers and counts from outside.

use crate::values::check;
use prefix_match::{MatchError, SubstringSet};
use std::alloc::Global;
use std::process::Abort;

/// Patterns, whether case is folded, a text, and what links and table answer: whether it matches, after how many moves.
type Row = (
    &'static [&'static str],
    bool,
    &'static str,
    [(bool, u64); 2],
);

const ROWS: [Row; 7] = [
    (
        &["he", "she", "his", "hers"],
        false,
        "ushers",
        [(true, 3), (true, 3)],
    ),
    (&["ab"], false, "aab", [(true, 4), (true, 2)]),
    (&["abcd", "bx"], false, "abcbx", [(true, 6), (true, 5)]),
    (&["AB"], true, "xab", [(true, 2), (true, 2)]),
    (&[""], false, "x", [(true, 0), (true, 0)]),
    (&[], false, "x", [(false, 0), (false, 0)]),
    (&["É"], true, "é", [(false, 2), (false, 2)]),
];

fn expect_moves(rt: &impl Abort, alloc: Global, row: &Row, is_table: bool, moves: (bool, u64)) {
    let made = SubstringSet::new(alloc, row.0, row.1, is_table);
    let set = made.expect(rt, "out of memory");
    check(rt, set.is_match_counted(row.2.as_bytes()) == moves);
    check(rt, set.is_match(row.2.as_bytes()) == moves.0);
    drop(set);
}

#[test]
fn both_forms_make_these_moves(rt: HostRuntime) {
    for row in &ROWS {
        let [by_links, by_table] = row.3;
        expect_moves(&rt, rt.alloc(), row, false, by_links);
        expect_moves(&rt, rt.alloc(), row, true, by_table);
    }
}

fn long_text(rt: &impl Abort, alloc: Global, len: usize) -> String {
    let mut text = String::new(alloc);
    for _ in 0..len {
        text.push('a').expect(rt, "out of memory");
    }
    text
}

#[test]
fn the_limit_is_accepted(rt: HostRuntime) {
    let half = long_text(&rt, rt.alloc(), 524_288);
    let patterns = [half.as_str(), half.as_str()];
    let made = SubstringSet::new(rt.alloc(), &patterns, true, false);
    let set = made.expect(&rt, "out of memory");
    check(
        &rt,
        set.is_match_counted(half.as_bytes()) == (true, 524_288),
    );
    check(&rt, set.is_match(b"aaaab") == false);
    drop(set);
    drop(half);
}

#[test]
fn one_byte_past_the_limit_is_refused(rt: HostRuntime) {
    let half = long_text(&rt, rt.alloc(), 524_288);
    let patterns = [half.as_str(), "b", half.as_str()];
    for is_table in [false, true] {
        let made = SubstringSet::new(rt.alloc(), &patterns, true, is_table);
        check(&rt, made.err() == Some(MatchError::PatternsTooLong));
    }
    drop(half);
}
