//! Reservoirs with one owner, which allocate when they are made and not later.

use crate::values::check;
use metrics_storage::reservoir::{Drain, Reservoir};
use metrics_storage::reservoir_law;
use std::alloc::Global;
use std::mem;
use std::process::Abort;

/// What a drain reports: the number of values, their sum and the rate.
type Drained = (u64, i128, (u64, u64));

/// What the drain of a reservoir without values reports.
const NOTHING: Drained = (0, 0, (1, 1));

/// The pushes on a reservoir, each with its draw, its size, what a drain reports and what it yields.
type Row = (usize, &'static [(i64, u64)], Drained, &'static [i64]);

const ROWS: [Row; 4] = [
    (
        2,
        &[(10, 0), (20, 0), (30, 1), (40, 3)],
        (4, 100, (2, 4)),
        &[10, 30],
    ),
    (0, &[(1, 0), (1, 0), (1, 0)], (3, 3, (0, 3)), &[]),
    (2, &[], NOTHING, &[]),
    (4, &[(10, 0), (20, 0)], (2, 30, (1, 1)), &[10, 20]),
];

fn reservoir_of(rt: &impl Abort, alloc: Global, row: &Row) -> Reservoir {
    let mut reservoir = Reservoir::new(alloc, row.0).expect(rt, "out of memory");
    for (value, draw) in row.1 {
        assert!(rt; *draw <= reservoir.pushed());
        reservoir
            .push(*value, *draw)
            .expect(rt, "a push is refused");
    }
    reservoir
}

fn expect_drain(rt: &impl Abort, mut drain: Drain<'_>, drained: Drained, items: &[i64]) {
    let (count, sum) = (drain.unsampled_len(), drain.unsampled_sum());
    check(rt, (count, sum, drain.sample_rate()) == drained);
    check(rt, drain.len() == items.len());
    for item in items {
        check(rt, drain.next() == Some(*item));
    }
    check(rt, drain.next() == None);
}

#[test]
fn reservoirs_tell_what_was_pushed(rt: HostRuntime) {
    for row in &ROWS {
        let mut reservoir = reservoir_of(&rt, rt.alloc(), row);
        expect_drain(&rt, reservoir.drain(), row.2, row.3);
        reservoir.reset();
        check(&rt, reservoir.is_empty());
        expect_drain(&rt, reservoir.drain(), NOTHING, &[]);
        drop(reservoir);
    }
    reservoir_law();
}

/// Whether the drain is read in part, or forgotten.
#[test]
fn a_consume_empties(rt: HostRuntime) {
    for row in &ROWS {
        let mut reservoir = reservoir_of(&rt, rt.alloc(), row);
        let mut first = None;
        reservoir.consume(|mut drain| first = drain.next());
        check(&rt, first == row.3.first().copied());
        expect_drain(&rt, reservoir.drain(), NOTHING, &[]);
        let mut reservoir = reservoir_of(&rt, rt.alloc(), row);
        reservoir.consume(|drain| mem::forget(drain));
        expect_drain(&rt, reservoir.drain(), NOTHING, &[]);
        drop(reservoir);
    }
}
