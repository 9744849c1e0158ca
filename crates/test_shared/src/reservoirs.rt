//! A reservoir that threads share, with the values of the Rust crate's tests in whole numbers.

use metrics_cells::HistogramFn;
use metrics_shared::reservoir::AtomicSamplingReservoir;
use rand_core::{Rng, SeedableRng};
use rand_xoshiro::Xoshiro256PlusPlus;
use std::alloc::Global;
use std::mem;
use std::process::Abort;
use std::sync::Wait;
use std::sync::atomic::{AtomicU64, Ordering};
use std::thread::{self, Threads, join};
use test_trial::{is_reached, sleep};

type Shared = AtomicSamplingReservoir<Xoshiro256PlusPlus>;

/// What a drain reported: the number of values and their sum, the rate, and how many items it yielded.
type Drained = (u64, i128, (u64, u64), usize);

/// What the drain of a reservoir without values reports.
const NOTHING: Drained = (0, 0, (1, 1), 0);

/// A new reservoir of this size.
fn sampling(rt: &impl Abort, alloc: Global, size: usize, seed: u64) -> Shared {
    let generator = Xoshiro256PlusPlus::seed_from_u64(seed);
    AtomicSamplingReservoir::new(alloc, size, generator).expect(rt, "out of memory")
}

/// Pushes the numbers below `values`, which allocates nothing.
fn push_all<R: Abort + Wait, G: Rng + Drop>(
    rt: &R,
    reservoir: &AtomicSamplingReservoir<G>,
    values: i64,
) {
    for value in 0..values {
        reservoir.push(rt, value).expect(rt, "a push is refused");
    }
}

fn consumed<R: Wait, G: Rng + Drop>(rt: &R, reservoir: &AtomicSamplingReservoir<G>) -> Drained {
    let mut drained = NOTHING;
    reservoir.consume(rt, |drain| {
        let (len, sum) = (drain.unsampled_len(), drain.unsampled_sum());
        drained = (len, sum, drain.sample_rate(), drain.count());
    });
    drained
}

/// The size, and by turns how many values are pushed and what a drain reports.
type Turns = (usize, &'static [(i64, Drained)]);

const TURNS: [Turns; 4] = [
    (0, &[(3, (3, 3, (0, 3), 0))]),
    (64, &[(0, NOTHING), (10, (10, 45, (1, 1), 10))]),
    (16, &[(1000, (1000, 499_500, (16, 1000), 16))]),
    (
        64,
        &[
            (100, (100, 4950, (64, 100), 64)),
            (50, (50, 1225, (1, 1), 50)),
        ],
    ),
];

#[test]
fn shared_reservoirs_tell_what_was_pushed(rt: HostRuntime) {
    for (size, turns) in TURNS {
        let reservoir = sampling(&rt, rt.alloc(), size, 1);
        for (values, wanted) in turns {
            assert!(&rt; reservoir.is_empty(&rt));
            push_all(&rt, &reservoir, *values);
            assert_eq!(&rt; reservoir.is_empty(&rt), *values == 0);
            assert!(&rt;
                consumed(&rt, &reservoir) == *wanted,
                "size {size}, {values} values"
            );
        }
    }
}

/// The value that a reservoir of size 1 holds after the numbers below `values` were recorded.
fn held<R: Abort + Wait>(rt: &R, alloc: Global, seed: u64, values: i64) -> i64 {
    let reservoir = sampling(rt, alloc, 1, seed);
    for value in 0..values {
        reservoir
            .record(rt, value)
            .expect(rt, "a record is refused");
    }
    let mut held = None;
    reservoir.consume(rt, |drain| held = drain.last());
    held.expect(rt, "nothing is held")
}

/// Of two values both are held under some seed, and of a hundred one of the first half.
#[test]
fn shared_reservoir_draws_the_whole_range(rt: HostRuntime) {
    let mut has_held = [false, false];
    let mut is_first_half_held = false;
    for seed in 0..64 {
        let value = held(&rt, rt.alloc(), seed, 2);
        has_held = [has_held[0] || value == 0, has_held[1] || value == 1];
        is_first_half_held |= held(&rt, rt.alloc(), seed, 100) < 50;
    }
    assert!(&rt; has_held == [true, true]);
    assert!(&rt; is_first_half_held);
}

#[test]
fn values_pushed_meanwhile_stay(rt: HostRuntime) {
    let reservoir = sampling(&rt, rt.alloc(), 4, 1);
    push_all(&rt, &reservoir, 3);
    let mut is_pushed = false;
    reservoir.consume(&rt, |_drain| is_pushed = reservoir.push(&rt, 9).is_ok());
    assert!(&rt; is_pushed);
    assert!(&rt; consumed(&rt, &reservoir) == (1, 9, (1, 1), 1));
}

#[test]
fn a_forgotten_drain_empties(rt: HostRuntime) {
    let reservoir = sampling(&rt, rt.alloc(), 4, 1);
    push_all(&rt, &reservoir, 3);
    reservoir.consume(&rt, |drain| mem::forget(drain));
    assert!(&rt; consumed(&rt, &reservoir) == NOTHING);
    assert!(&rt; consumed(&rt, &reservoir) == NOTHING);
}

/// Pushes 1 a thousand times, and returns whether each was accepted.
fn push_ones<R: Wait, G: Rng + Drop>(rt: &R, reservoir: &AtomicSamplingReservoir<G>) -> bool {
    let mut is_done = true;
    for _ in 0..1000 {
        is_done &= reservoir.push(rt, 1).is_ok();
    }
    is_done
}

/// How many values several drains reported together.
fn drained<R: Wait, G: Rng + Drop>(
    rt: &R,
    reservoir: &AtomicSamplingReservoir<G>,
    drains: u16,
) -> u64 {
    let mut total: u64 = 0;
    for _ in 0..drains {
        total = total.saturating_add(consumed(rt, reservoir).0);
    }
    total
}

fn expect_all<R: Abort + Threads + Wait + Sync, G: Rng + Drop + Send>(
    rt: &R,
    alloc: Global,
    reservoir: &AtomicSamplingReservoir<G>,
) {
    let (done, total) = join(
        rt,
        || thread::map_indices(rt, alloc, 4, &|_| push_ones(rt, reservoir)),
        || drained(rt, reservoir, 300),
    );
    for is_done in done.expect(rt, "out of memory") {
        assert!(rt; is_done);
    }
    assert_eq!(rt; total.saturating_add(drained(rt, reservoir, 1)), 4000);
}

#[test]
fn four_threads_push_while_one_consumes(rt: HostRuntime) {
    let reservoir = sampling(&rt, rt.alloc(), 16, 1);
    expect_all(&rt, rt.alloc(), &reservoir);
}

/// How long a thread waits for the other one, in milliseconds.
const LONG: u64 = 2000;

/// A first thread consumes until a second one has reached its own `consume` and had time for it. Returns the step that
/// the second one's closure saw, and `None` if the first can't be started.
fn step_of_the_second<R: Threads + Wait + Sync, G: Rng + Drop + Send>(
    rt: &R,
    reservoir: &AtomicSamplingReservoir<G>,
) -> Option<u64> {
    let step = &AtomicU64::new(0);
    let (_, seen) = join(
        rt,
        || reservoir.consume(rt, |_drain| {
            step.store(1, Ordering::SeqCst);
            is_reached(rt, step, 2, LONG);
            sleep(rt, 50);
            step.store(3, Ordering::SeqCst);
        }),
        || {
            let is_started = is_reached(rt, step, 1, LONG);
            step.store(2, Ordering::SeqCst);
            let mut seen = 0;
            reservoir.consume(rt, |_drain| seen = step.load(Ordering::SeqCst));
            is_started.then_some(seen)
        },
    );
    seen
}

#[test]
fn second_consume_waits_for_the_first(rt: HostRuntime) {
    let reservoir = sampling(&rt, rt.alloc(), 4, 1);
    let seen = step_of_the_second(&rt, &reservoir);
    assert_eq!(&rt; seen.expect(&rt, "out of memory"), 3);
}
