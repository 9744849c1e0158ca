//! What was gathered, while allocations fail. Each test then continues with memory available.

use crate::given::{MEMORY, collector, count, key, record, set};
use crate::series::sums_of;
use metrics::{Error, MetricKind, MetricKindMask};
use metrics_collector::{AbsorbError, Collector, Gathered};
use std::process::Abort;
use std::sync::Wait;
use test_trial::Trial;

/// Reads a new collector with a series of each kind, by one number.
fn gathered<R: AllocGlobal + Abort + Wait>(rt: &R, number: u64) -> (Collector, Gathered) {
    let on = collector(rt, MetricKindMask::ALL);
    count(rt, &on, "hits", number);
    set(rt, &on, "open", number.cast_signed());
    record(rt, &on, "took", number.cast_signed());
    let gathered = on.gather(rt, rt.alloc(), 10).expect(rt, MEMORY);
    (on, gathered)
}

/// Notes an error, which has to be out of memory.
fn note<R: Abort>(rt: &R, trial: &mut Trial, error: Error) {
    trial.note(error).expect(rt, "another error");
}

#[test]
fn absorbing_without_memory_changes_nothing(rt: HostRuntime) {
    let mut trial = Trial::new(rt.alloc());
    let (_on, mut gathered_here) = gathered(&rt, 2);
    let (_other, gathered_there) = gathered(&rt, 5);
    trial.begin();
    let absorbed = gathered_here.absorb(trial.alloc, &gathered_there);
    trial.calm();
    if let Err(error) = absorbed {
        assert_eq!(&rt; error, AbsorbError::Memory);
        note(&rt, &mut trial, Error::Memory);
        assert_eq!(&rt; sums_of(&gathered_here), (2, 2, 1));
        let again = gathered_here.absorb(trial.alloc, &gathered_there);
        assert_eq!(&rt; again, Ok(()));
    }
    assert_eq!(&rt; sums_of(&gathered_here), (7, 5, 2));
}

/// Adds a counter and a gauge. A call that runs out of memory adds nothing, and returns the key.
#[test]
fn pushing_without_memory_returns_the_key(rt: HostRuntime) {
    let mut trial = Trial::new(rt.alloc());
    let (_on, mut gathered) = gathered(&rt, 2);
    for name in ["a", "b", "c"] {
        let key = key(&rt, name);
        trial.begin();
        let pushed = gathered.push_counter(key, 10);
        trial.calm();
        if let Err((error, key)) = pushed {
            note(&rt, &mut trial, error);
            assert_eq!(&rt; key.name(), name);
            assert!(&rt; gathered.push_counter(key, 10).is_ok());
        }
    }
    let key = key(&rt, "d");
    trial.begin();
    let pushed = gathered.push_gauge(key, 10);
    trial.calm();
    if let Err((error, key)) = pushed {
        note(&rt, &mut trial, error);
        assert_eq!(&rt; key.name(), "d");
        assert!(&rt; gathered.push_gauge(key, 10).is_ok());
    }
    assert_eq!(&rt; sums_of(&gathered), (32, 12, 1));
}

const HITS: &str =
    "# TYPE hits counter\nhits 2\n# left out: counter hits: labels equal those of hits\n\
    # TYPE metrics_left_out_series gauge\nmetrics_left_out_series 1\n";

/// Keeping a part allocates nothing. A text that runs out of memory leaves all as it was.
#[test]
fn a_text_without_memory_changes_nothing(rt: HostRuntime) {
    let mut trial = Trial::new(rt.alloc());
    let (on, mut gathered) = gathered(&rt, 2);
    assert!(&rt; gathered.push_counter(key(&rt, "hits"), 9).is_ok());
    let on = on.with_left_out_gauge();
    trial.begin();
    gathered.retain(|row| row.kind() == MetricKind::Counter);
    let first = on.text_of(&rt, trial.alloc, &gathered);
    trial.calm();
    let text = match first {
        Ok(text) => text,
        Err(error) => {
            note(&rt, &mut trial, error);
            on.text_of(&rt, trial.alloc, &gathered).expect(&rt, MEMORY)
        }
    };
    assert_eq!(&rt; text.as_str(), HITS);
}
