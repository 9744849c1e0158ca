//! States that are written, read and refused.

use crate::given::{
    MEMORY, States, answer_to, expect_state, is_read_back, measure, new_exporter,
    new_exporter_by_unit, refusal_of, update,
};
use metrics::{Unit, Update};
use metrics_exporter::Exporter;
use std::alloc::Global;
use std::process::Abort;
use tool_state::StateError;

/// An exporter with some series of each kind.
fn filled(rt: &impl Abort, alloc: Global) -> Exporter {
    let mut on = new_exporter(rt, alloc, &[10, 25]);
    let odd = [("path", "a \"b\" \\c\n"), ("status", "200")];
    update(rt, alloc, &mut on, ("hits", &odd, Update::Increment(3)));
    update(rt, alloc, &mut on, ("hits", &[], Update::Increment(0)));
    update(rt, alloc, &mut on, ("temp", &[], Update::Set(-7)));
    update(rt, alloc, &mut on, ("", &[], Update::Set(0)));
    for sample in [1, 2, 2, 11, 12, 99] {
        update(rt, alloc, &mut on, ("lat", &[], Update::Record(sample)));
    }
    States::describe(&mut on, "hits", Some(Unit::Count), "All hits.").expect(rt, MEMORY);
    States::describe(&mut on, "absent", None, "No series.").expect(rt, MEMORY);
    on
}

/// The state of the filled exporter.
const STATE: &str = "test 1 8 lines
1 - describe counter hits count All hits.
1 - increment 3 hits path=\"a \\\"b\\\" \\\\c\\n\" status=200
1 - increment 0 hits
1 - set -7 temp
1 - set 0 -
3 - record 10 lat
2 - record 25 lat
1 - record 47 lat
";

/// The samples of a histogram are others, with the same counts and the same sum.
#[test]
fn a_state_has_a_line_for_each_call(rt: HostRuntime) {
    expect_state(&rt, rt.alloc(), &filled(&rt, rt.alloc()), STATE);
}

/// An exporter with four histograms: one that was made before its name was in bytes, one that was made after, one whose name
/// was in seconds first, and one whose name has no unit.
fn measured(rt: &impl Abort, alloc: Global) -> Exporter {
    let mut on = new_exporter_by_unit(rt, alloc);
    measure(rt, alloc, &mut on, ("early", &[20, 2000]));
    on.describe_samples("early", Unit::Bytes).expect(rt, MEMORY);
    measure(rt, alloc, &mut on, ("early", &[5000]));
    on.describe_samples("late", Unit::Bytes).expect(rt, MEMORY);
    measure(rt, alloc, &mut on, ("late", &[20, 2000]));
    on.describe_samples("changed", Unit::Seconds)
        .expect(rt, MEMORY);
    measure(rt, alloc, &mut on, ("changed", &[20]));
    on.describe_samples("changed", Unit::Bytes)
        .expect(rt, MEMORY);
    measure(rt, alloc, &mut on, ("changed", &[2000]));
    measure(rt, alloc, &mut on, ("plain", &[20]));
    on
}

/// The state of these histograms: the units are those that they were made in.
const MEASURED: &str = "test 1 11 lines
1 - describe histogram early bytes Samples.
1 - describe histogram late bytes Samples.
1 - describe histogram changed bytes Samples.
1 - record 25 early
1 - record 3497 early
1 - record 3498 early
1 bytes record 995 late
1 bytes record 1025 late
1 seconds record 60 changed
1 seconds record 1960 changed
1 - record 20 plain
";

#[test]
fn a_state_has_the_unit_that_a_histogram_was_made_in(rt: HostRuntime) {
    expect_state(&rt, rt.alloc(), &measured(&rt, rt.alloc()), MEASURED);
}

#[test]
fn what_is_read_is_what_was_written(rt: HostRuntime) {
    let old = filled(&rt, rt.alloc());
    let mut new = new_exporter(&rt, rt.alloc(), &[10, 25]);
    assert!(rt; is_read_back(&rt, rt.alloc(), &old, &mut new));
}

/// What is read is shown the same, and has the same state.
#[test]
fn a_histogram_that_is_read_keeps_its_bounds(rt: HostRuntime) {
    let old = measured(&rt, rt.alloc());
    let mut new = new_exporter_by_unit(&rt, rt.alloc());
    assert!(rt; is_read_back(&rt, rt.alloc(), &old, &mut new));
    expect_state(&rt, rt.alloc(), &new, MEASURED);
}

/// The next of a row of numbers that look random.
fn next(seed: u64) -> u64 {
    seed.wrapping_mul(6_364_136_223_846_793_005)
        .wrapping_add(1_442_695_040_888_963_407)
}

/// Whether a histogram of so many samples, each shifted to the right by so many bits, is read back.
fn is_histogram_read_back(rt: &impl Abort, alloc: Global, bounds: &[i64], shift: u32) -> bool {
    let mut old = new_exporter(rt, alloc, bounds);
    let mut seed = u64::from(shift);
    for _ in 0..50 {
        seed = next(seed);
        let sample = ((seed >> 1) as i64).wrapping_sub(1 << 62) >> shift.min(62);
        update(rt, alloc, &mut old, ("lat", &[], Update::Record(sample)));
    }
    let mut new = new_exporter(rt, alloc, bounds);
    is_read_back(rt, alloc, &old, &mut new)
}

#[test]
fn any_histogram_is_read_back(rt: HostRuntime) {
    for shift in [0, 1, 30, 50, 56, 58, 60, 61, 62] {
        for bounds in [
            [0, 0, 0].as_slice(),
            &[5, 3, 1, 3],
            &[-10, 0, 10],
            &[i64::MIN, i64::MAX],
            &[i64::MIN, -1, 7, i64::MAX],
            &[1_000_000_000_000],
        ] {
            assert!(rt;
                is_histogram_read_back(&rt, rt.alloc(), bounds, shift),
                "{shift}"
            );
        }
    }
}

/// What a new exporter answers to the first bytes of the state.
fn answer_to_first(rt: &impl Abort, alloc: Global, count: usize) -> Result<(), StateError> {
    let mut on = new_exporter(rt, alloc, &[10, 25]);
    let first = STATE.as_bytes().get(..count).unwrap_or(&[]);
    answer_to(rt, alloc, &mut on, first)
}

#[test]
fn each_shorter_state_is_refused(rt: HostRuntime) {
    for count in 0..STATE.len() {
        assert!(rt; answer_to_first(&rt, rt.alloc(), count).is_err(), "{count}");
    }
    assert!(rt; answer_to_first(&rt, rt.alloc(), STATE.len()).is_ok());
}

#[test]
fn other_bytes_are_refused(rt: HostRuntime) {
    for (bytes, wanted) in [
        ("", StateError::Foreign),
        ("test 10 0 lines\n", StateError::Foreign),
        ("test 2 0 lines\n", StateError::Foreign),
        ("test 1 01 lines\n", StateError::Foreign),
        ("test 1 1 lines\n", StateError::Cut),
        ("test 1 0 lines\n1 - set 1 a\n", StateError::Cut),
        ("test 1 1 lines\n1 - set 1 a", StateError::Cut),
        ("test 1 1 lines\nset 1 a\n", StateError::BadLine),
        ("test 1 1 lines\n- set 1 a\n", StateError::BadLine),
        ("test 1 1 lines\n1 set 1 a\n", StateError::BadLine),
        ("test 1 1 lines\n1 hours record 1 a\n", StateError::BadLine),
        ("test 1 1 lines\n1 seconds\n", StateError::BadLine),
        ("test 1 1 lines\n1 - scrape 1\n", StateError::BadLine),
        ("test 1 1 lines\n1 - # a\n", StateError::BadLine),
        ("test 1 1 lines\n1 - \n", StateError::BadLine),
        (
            "test 1 1 lines\n1 - set 1 a{b=\"c\"}\n",
            StateError::BadLine,
        ),
        (
            "test 1 1 lines\n1 bytes describe histogram a bytes b\n",
            StateError::BadLine,
        ),
        (
            "test 1 1 lines\n2 - describe histogram a bytes b\n",
            StateError::BadLine,
        ),
    ] {
        let mut on = new_exporter(&rt, rt.alloc(), &[10]);
        let answer = answer_to(&rt, rt.alloc(), &mut on, bytes.as_bytes());
        assert!(rt; answer == Err(wanted), "{bytes}");
    }
}

/// Whether a series of this name and this label is refused where the state is written.
fn has_no_line(rt: &impl Abort, alloc: Global, name: &str, label: (&str, &str)) -> bool {
    let mut on = new_exporter(rt, alloc, &[10]);
    update(rt, alloc, &mut on, (name, &[label], Update::Set(1)));
    refusal_of(rt, alloc, &on) == Some(StateError::NoLine)
}

#[test]
fn a_series_without_a_line_is_refused(rt: HostRuntime) {
    for (name, label) in [
        ("a b", ("c", "d")),
        ("-", ("c", "d")),
        ("a\n", ("c", "d")),
        ("a", ("c d", "e")),
        ("a", ("c", "\t")),
        ("a=b", ("c", "d")),
    ] {
        assert!(rt; has_no_line(&rt, rt.alloc(), name, label), "{name}");
    }
}
