//! Threads that have a `Local` each.
ghost use Rattle.std.specs.Thread.{IsSync};

use crate::given::{KINDS, MEMORY, collector, expect_a, key, try_add};
use metrics::{Error, Key};
use metrics_collector::Collector;
use metrics_local::Local;
use std::process::Abort;
use std::sync::Wait;
use std::sync::atomic::{AtomicUsize, Ordering};
use std::thread::{Threads, for_each_mut};

/// How often each thread looks up each series at a time.
const TIMES: u32 = 500;

/// How many threads look up.
const THREADS: usize = 2;

/// What one thread has.
#[derive(Drop)]
struct Worker<'a> {
    local: Local<&'a Collector>,
    failed: Option<Error>,
}

fn workers<'a, R: AllocGlobal + Abort>(rt: &R, on: &'a Collector, count: usize) -> Vec<Worker<'a>> {
    let mut all = Vec::new(rt.alloc());
    for _ in 0..count {
        let local = Local::new(rt.alloc(), on);
        all.push(Worker {
            local,
            failed: None,
        })
        .expect(rt, MEMORY);
    }
    all
}

/// Adds 1 to the series of each kind, so many times.
fn work<W: Wait>(rt: &W, worker: &mut Worker<'_>, key: &Key) {
    for _ in 0..TIMES {
        for kind in KINDS {
            if let Some(error) = try_add(rt, &mut worker.local, kind, key, 1) {
                worker.failed = Some(error);
            }
        }
    }
}

fn expect_done<R: Abort>(rt: &R, workers: &[Worker<'_>]) {
    for worker in workers {
        assert!(rt; worker.failed.is_none(), "out of memory: Memory");
    }
}

fn work_all<R: AllocGlobal + Abort + Threads + Wait + Sync>(
    rt: &R,
    workers: &mut [Worker<'_>],
    key: &Key,
)
    requires { IsSync R.row }
{
    for_each_mut(rt, workers, THREADS, &|_, worker| work(rt, worker, key));
    expect_done(rt, workers);
}

/// Reads, and compares what is shown of the series of each kind.
fn expect_each<R: AllocGlobal + Abort + Wait>(
    rt: &R,
    on: &Collector,
    now: u64,
    wanted: Option<i128>,
) {
    for kind in KINDS {
        expect_a(rt, on, now, kind, wanted);
    }
}

/// All threads count into one series. Once it was idle, and each thread looked up another, it is gone and begins anew.
#[test]
fn threads_count_into_one_series(rt: HostRuntime) {
    let on = collector(&rt);
    let mut workers = workers(&rt, &on, THREADS);
    let (a, b) = (key(&rt, "a"), key(&rt, "b"));
    let wanted = i128::from(TIMES).wrapping_mul(2);
    for start in [10, 30, 50] {
        work_all(&rt, workers.as_mut_slice(), &a);
        expect_each(&rt, &on, start, Some(wanted));
        expect_each(&rt, &on, start + 6, None);
        work_all(&rt, workers.as_mut_slice(), &b);
        expect_each(&rt, &on, start + 7, None);
    }
}

/// Reads at moments that are further apart than the timeout, until the other threads have ended.
fn read_until<R: AllocGlobal + Abort + Wait>(rt: &R, on: &Collector, ended: &AtomicUsize) {
    for step in 1..100_000u64 {
        if ended.load(Ordering::SeqCst) >= THREADS {
            break;
        }
        on.gather(rt, rt.alloc(), step * 10).expect(rt, MEMORY);
    }
}

/// The first thread reads while the others work.
fn work_and_read<R: AllocGlobal + Abort + Threads + Wait + Sync>(
    rt: &R,
    on: &Collector,
    workers: &mut [Worker<'_>],
    key: &Key,
)
    requires { IsSync R.row }
{
    let ended = &AtomicUsize::new(0);
    for_each_mut(
        rt,
        workers,
        THREADS + 1,
        &|thread, worker| {
            if thread == 0 {
                read_until(rt, on, ended);
            } else {
                work(rt, worker, key);
                ended.fetch_add(1, Ordering::SeqCst);
            }
        },
    );
    expect_done(rt, workers);
}

/// While somebody holds a handle the series stays, however many epochs end meanwhile. So no count is lost, and none comes
/// twice.
#[test]
fn no_count_is_lost_while_epochs_end(rt: HostRuntime) {
    let on = collector(&rt);
    let a = key(&rt, "a");
    let held = (
        on.counter(&rt, &a).expect(&rt, MEMORY),
        on.gauge(&rt, &a).expect(&rt, MEMORY),
        on.histogram(&rt, &a).expect(&rt, MEMORY),
    );
    let mut workers = workers(&rt, &on, THREADS + 1);
    work_and_read(&rt, &on, workers.as_mut_slice(), &a);
    let wanted = u64::from(TIMES).wrapping_mul(2);
    assert!(&rt; held.0.value() == wanted);
    assert!(&rt; u64::try_from(held.1.value()).ok() == Some(wanted));
    assert!(&rt; held.2.count(&rt) == wanted);
}
