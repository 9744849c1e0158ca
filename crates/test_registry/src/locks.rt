//! Calls of one shard that two threads make at once.
ghost use Rattle.std.specs.Thread.{IsSync};

use crate::kinds::{KINDS, of_kind};
use crate::threads::{Numbers, add_to_each};
use metrics::{Error, MetricKind};
use metrics_registry::DefaultHashable;
use metrics_shared_registry::{AtomicStorage, Registry};
use std::alloc::Global;
use std::process::Abort;
use std::sync::Wait;
use std::sync::atomic::{AtomicU64, Ordering};
use std::thread::{self, Threads, join};
use test_trial::{Trial, is_reached, sleep};

/// A call that changes no shard, of a key that is held.
#[derive(Clone, Copy, Debug)]
enum Call {
    Visit,
    GetOrCreate,
    Get,
    Handles,
}

/// How long a thread waits for the other one at most, in milliseconds.
const LONG: u64 = 5000;

/// How long no look-up comes back until they all wait, in milliseconds.
const STILL: u64 = 50;

/// Waits inside a closure until the other call has come back.
fn wait_inside<W: Wait>(rt: &W, came_back: &mut bool, step: &AtomicU64) {
    step.store(1, Ordering::SeqCst);
    *came_back = is_reached(rt, step, 2, LONG);
}

/// Makes a call that waits in its closure. Whether the other call came back meanwhile.
fn is_shared<W: Wait>(
    rt: &W,
    on: &Numbers,
    kind: MetricKind,
    outer: Call,
    step: &AtomicU64,
) -> bool {
    let key = DefaultHashable(0);
    let mut came_back = false;
    match outer {
        Call::Visit => of_kind!(kind, on, visit_counters visit_gauges visit_histograms,
            (rt, |_, _| wait_inside(rt, &mut came_back, step))),
        _ => {
            let called = of_kind!(kind, on,
                get_or_create_counter get_or_create_gauge get_or_create_histogram,
                (rt, &key, |_| wait_inside(rt, &mut came_back, step)));
            came_back &= called.is_ok();
        }
    }
    came_back
}

fn is_ok<T: Drop>(_: (), answer: Result<T, Error>) -> bool {
    answer.is_ok()
}

/// Makes a call once the other thread is inside.
fn make<W: Wait>(
    rt: &W,
    alloc: Global,
    on: &Numbers,
    (kind, call): (MetricKind, Call),
    step: &AtomicU64,
) -> bool {
    let key = DefaultHashable(0);
    is_reached(rt, step, 1, LONG);
    let is_made = match call {
        Call::Visit => {
            of_kind!(kind, on, visit_counters visit_gauges visit_histograms, (rt, |_, _| {}));
            true
        }
        Call::GetOrCreate => of_kind!(kind, is_ok(()), on,
            get_or_create_counter get_or_create_gauge get_or_create_histogram, (rt, &key, |_| {})),
        Call::Get => of_kind!(kind, is_ok(()), on, get_counter get_gauge get_histogram, (rt, &key)),
        Call::Handles => of_kind!(kind, is_ok(()), on,
            get_counter_handles get_gauge_handles get_histogram_handles, (rt, alloc)),
    };
    step.store(2, Ordering::SeqCst);
    is_made
}

fn expect_shared<R: Abort + Threads + Wait + Sync>(
    rt: &R,
    alloc: Global,
    on: &Numbers,
    kind: MetricKind,
    calls: (Call, Call),
)
    requires { IsSync R.row }
{
    let (outer, call) = calls;
    let step = &AtomicU64::new(0);
    let (is_shared, is_made) = join(
        rt,
        || is_shared(rt, on, kind, outer, step),
        || make(rt, alloc, on, (kind, call), step),
    );
    assert!(rt; is_made);
    assert!(rt; is_shared, "{call:?} waits for {outer:?}");
}

/// No memory is refused.
#[test]
fn a_visit_and_a_look_up_of_a_held_key_share_the_lock(rt: HostRuntime) {
    let alloc = rt.alloc();
    Trial::new(alloc).calm();
    let storage = AtomicStorage::with_blocks(alloc, 1).expect(&rt, "one block");
    let on = Registry::new(alloc, storage, 1).expect(&rt, "out of memory");
    for kind in KINDS {
        add_to_each(&rt, &on, kind, 1).expect(&rt, "out of memory");
        for outer in [Call::Visit, Call::GetOrCreate] {
            for call in [Call::Visit, Call::GetOrCreate, Call::Get, Call::Handles] {
                expect_shared(&rt, alloc, &on, kind, (outer, call));
            }
        }
    }
}

/// Waits inside a closure until the look-ups wait behind the delete. Whether they did so before that came back.
fn meets_no_reader<W: Wait>(rt: &W, [step, looks]: [&AtomicU64; 2]) -> bool {
    step.store(1, Ordering::SeqCst);
    is_reached(rt, looks, 1, LONG);
    for _ in 0..LONG / STILL {
        let seen = looks.load(Ordering::SeqCst);
        sleep(rt, STILL);
        if looks.load(Ordering::SeqCst) == seen {
            return step.load(Ordering::SeqCst) == 1;
        }
    }
    false
}

/// Looks a held key up until the delete has come back. Whether each look-up went well.
fn look_up<W: Wait>(
    rt: &W,
    on: &Numbers,
    kind: MetricKind,
    [step, looks]: [&AtomicU64; 2],
) -> bool {
    let key = DefaultHashable(0);
    let mut is_good = is_reached(rt, step, 1, LONG);
    for _ in rt.forever() {
        if step.load(Ordering::SeqCst) == 2 {
            break;
        }
        is_good &= of_kind!(kind, is_ok(()), on, get_counter get_gauge get_histogram, (rt, &key));
        looks.fetch_add(1, Ordering::SeqCst);
    }
    is_good
}

/// The first thread is inside a closure of a held key, the second one deletes another key, and the third one looks the first up.
fn goes_well<W: Wait>(
    rt: &W,
    on: &Numbers,
    kind: MetricKind,
    thread: usize,
    told: [&AtomicU64; 2],
) -> bool {
    let mut is_good = false;
    if thread == 0 {
        let called = of_kind!(kind, on,
            get_or_create_counter get_or_create_gauge get_or_create_histogram,
            (rt, &DefaultHashable(0), |_| is_good = meets_no_reader(rt, told)));
        is_good &= called.is_ok();
    } else if thread == 1 {
        is_reached(rt, told[1], 1, LONG);
        is_good = of_kind!(kind, on, delete_counter delete_gauge delete_histogram,
            (rt, &DefaultHashable(1)));
        told[0].store(2, Ordering::SeqCst);
    } else {
        is_good = look_up(rt, on, kind, told);
    }
    is_good
}

/// No memory is refused.
#[test]
fn a_delete_waits_for_a_reader_and_later_readers_wait_for_it(rt: HostRuntime) {
    let alloc = rt.alloc();
    Trial::new(alloc).calm();
    let storage = AtomicStorage::with_blocks(alloc, 1).expect(&rt, "one block");
    let on = &Registry::new(alloc, storage, 1).expect(&rt, "out of memory");
    for kind in KINDS {
        add_to_each(&rt, on, kind, 2).expect(&rt, "out of memory");
        let [step, looks] = [&AtomicU64::new(0), &AtomicU64::new(0)];
        let goes_well = |thread: usize| goes_well(&rt, on, kind, thread, [step, looks]);
        for is_good in thread::map_indices(&rt, alloc, 3, &goes_well).expect(&rt, "out of memory") {
            assert!(rt; is_good);
        }
    }
}
