//! Storms through gates.

use crate::devices::MEMORY;
use std::alloc::Global;
use std::process::Abort;
use std::sync::Wait;
use std::sync::atomic::{AtomicU64, Ordering};
use std::time::Duration;
use test_trial::Trial;
use tool_lines::RunError;
use tool_storm::{Gate, Totals, storm, storm_growing};

struct OnlyOdd;

impl Gate for OnlyOdd {
    fn pass<R: Wait>(&self, _rt: &R, worker: usize) -> bool {
        worker % 2 == 1
    }
}

/// Stops one worker, or holds each of two workers until the other has arrived.
#[derive(Drop)]
enum Door {
    AllBut(usize),
    Pair { come: AtomicU64, pause: AtomicU64 },
}

impl Gate for Door {
    fn pass<R: Wait>(&self, rt: &R, worker: usize) -> bool {
        match self {
            Door::AllBut(stopped) => worker != *stopped,
            Door::Pair { come, pause } => is_met(rt, come, pause),
        }
    }
}

/// Waits until both have come.
fn is_met<R: Wait>(rt: &R, come: &AtomicU64, pause: &AtomicU64) -> bool {
    come.fetch_add(1, Ordering::SeqCst);
    for _ in 0..10_000 {
        if come.load(Ordering::SeqCst) == 2 {
            return true;
        }
        pause.park_timeout(rt, 0, Duration::from_millis(1));
    }
    false
}

fn two_at_once() -> Door {
    Door::Pair {
        come: AtomicU64::new(0),
        pause: AtomicU64::new(0),
    }
}

/// What a storm does whose workers push so many values, of this sum.
fn totals_of(values: u64, sum: u32, stopped: usize) -> Totals {
    Totals {
        pushed: (values, sum.into()),
        found: (values, sum.into()),
        sampled: (16, values, sum.into()),
        stopped,
    }
}

/// Two of three workers push 0 to 99.
#[test]
fn one_of_three_is_stopped(rt: HostRuntime) {
    let wanted = totals_of(200, 9900, 1);
    for worker in 0..3 {
        let gate = Door::AllBut(worker);
        let totals = storm(&rt, rt.alloc(), 3, 100, 4, &gate).expect(&rt, MEMORY);
        assert_eq!(rt; totals, wanted);
        let totals = storm_growing(&rt, rt.alloc(), 3, 100, 4, &gate).expect(&rt, MEMORY);
        assert_eq!(rt; totals, wanted);
    }
}

/// 32 of 64 workers push 0 to 499.
fn expect_half(rt: &impl Abort, totals: Result<Totals, RunError>) {
    let totals = totals.expect(rt, MEMORY);
    assert_eq!(rt; totals, totals_of(16_000, 3_992_000, 32));
}

#[test]
fn many_push_into_one_block(rt: HostRuntime) {
    expect_half(&rt, storm(&rt, rt.alloc(), 64, 500, 1, &OnlyOdd));
}

#[test]
fn many_push_into_a_growing_bucket(rt: HostRuntime) {
    expect_half(&rt, storm_growing(&rt, rt.alloc(), 64, 500, 1, &OnlyOdd));
}

/// A storm that may lack memory or a thread, and after it one whose two workers wait for one another. They push 0 to 99.
fn expect_at_once<F>(rt: &impl Abort, alloc: Global, run: F)
where
    F: Fn(&Door) -> Result<Totals, RunError>,
    requires { F.IsAlwaysCallable run }
{
    let wanted = totals_of(200, 9900, 0);
    let trial = Trial::new(alloc);
    trial.begin();
    let first = run(&Door::AllBut(2));
    trial.calm();
    assert!(rt; first == Ok(wanted) || first == Err(RunError::Memory(None)));
    let totals = run(&two_at_once()).expect(rt, MEMORY);
    assert_eq!(rt; totals, wanted);
}

#[test]
fn workers_run_at_once(rt: HostRuntime) {
    let run = |door: &Door| storm(&rt, rt.alloc(), 2, 100, 4, door);
    expect_at_once(&rt, rt.alloc(), run);
}

#[test]
fn workers_of_a_growing_bucket_run_at_once(rt: HostRuntime) {
    let run = |door: &Door| storm_growing(&rt, rt.alloc(), 2, 100, 4, door);
    expect_at_once(&rt, rt.alloc(), run);
}
