//! The files of a process, as Linux writes them.

use crate::usage::{cpu_milliseconds, most_files, start_milliseconds, status_bytes};

const STAT: &str =
    "17160 (a b) c) R 17155 17155 3990 0 -1 4194304 98 0 0 0 250 31 0 0 20 0 1 0 80394 3133440 360 1844 0\n";

const SYSTEM: &str = "cpu  1 2 3\nbtime 1795906848\nprocesses 17\n";

const STATUS: &str = "Name:\tcat\nVmSize:\t    3060 kB\nVmRSS:\t    1696 kB\nThreads:\t1\n";

const LIMITS: &str =
    "Limit                     Soft Limit           Hard Limit           Units     \n\
    Max processes             96364                96364                processes \n\
    Max open files            1024                 1048576              files     \n";

#[test]
fn times_are_in_milliseconds(rt: HostRuntime) {
    assert_eq!(&rt; cpu_milliseconds(STAT), Some(2810));
    assert_eq!(&rt; start_milliseconds(STAT, SYSTEM), Some(1_795_907_651_940));
}

#[test]
fn sizes_are_in_bytes(rt: HostRuntime) {
    assert_eq!(&rt; status_bytes(STATUS, "VmRSS:"), Some(1_736_704));
    assert_eq!(&rt; status_bytes(STATUS, "VmSize:"), Some(3_133_440));
    assert_eq!(&rt; most_files(LIMITS), Some(1024));
}

/// A text that is cut off, has no number or is too large says nothing.
#[test]
fn what_is_not_said_is_none(rt: HostRuntime) {
    for stat in [
        "",
        "1 (a) R 1 2 3",
        "1 a R 1",
        "1 (a) R 0 0 0 0 0 0 0 0 0 0 18446744073709551615 1",
    ] {
        assert_eq!(&rt; cpu_milliseconds(stat), None);
        assert_eq!(&rt; start_milliseconds(stat, SYSTEM), None);
    }
    assert_eq!(&rt;
        start_milliseconds(STAT, "btime 18446744073709551615"),
        None
    );
    for status in ["", "VmRSS:", "VmRSS: kB", "VmRSS: 18446744073709551615 kB"] {
        assert_eq!(&rt; status_bytes(status, "VmRSS:"), None);
    }
    assert_eq!(&rt;
        most_files("Max open files            unlimited            unlimited            files"),
        None
    );
}
