//! Tree lines past a limit are bad lines, and no want of memory.

use crate::devices::{MEMORY, report, writer};
use std::alloc::Global;
use std::process::Abort;
use std::sync::Wait;
use std::thread::Threads;

/// These bytes so many times, one after the other.
fn times(rt: &impl Abort, alloc: Global, parts: &[(&[u8], usize)]) -> Vec<u8> {
    let mut text = Vec::new(alloc);
    for (part, count) in parts {
        for _ in 0..*count {
            text.extend_from_slice(part).expect(rt, MEMORY);
        }
    }
    text
}

/// Whether a run stops at the line of this number as at a bad one, and writes nothing.
fn is_bad_at<R: Threads + Wait + Sync + Abort>(
    rt: &R,
    alloc: Global,
    number: usize,
    parts: &[(&[u8], usize)],
) -> bool {
    let text = times(rt, alloc, parts);
    let mut output = writer(rt, alloc, 1000, 1000);
    let (status, errors) = report(rt, alloc, &["run"], text.as_slice(), &mut output);
    let want = format!(in alloc; "line {number}: bad line\n").expect(rt, MEMORY);
    status == 2 && errors.as_slice() == want.as_bytes() && output.held.is_empty()
}

/// The patterns of a filter have 1,048,576 bytes at most, and repeated ones count again.
#[test]
fn too_long_patterns_are_a_bad_line(rt: HostRuntime) {
    for form in [b"dfa".as_slice(), b"links".as_slice()] {
        for (count, copies) in [(1_048_577, 1), (524_289, 2)] {
            let text = times(&rt, rt.alloc(), &[(b" ", 1), (b"a", count)]);
            let patterns = (text.as_slice(), copies);
            let parts = [
                (b"book\nfilter cs ".as_slice(), 1),
                (form, 1),
                patterns,
                (b"\nend\n", 1),
            ];
            assert!(rt;
                is_bad_at(&rt, rt.alloc(), 2, &parts),
                "{count} bytes, {copies} times"
            );
        }
    }
}

/// Whether the line after a fanout over 65,536 books, with one book more on the stack, is a bad one.
fn is_one_too_many<R: Threads + Wait + Sync + Abort>(rt: &R, alloc: Global, last: &[u8]) -> bool {
    let parts = [
        (b"book\n".as_slice(), 65_537),
        (b"fanout 65536\n", 1),
        (last, 1),
    ];
    is_bad_at(rt, alloc, 65_539, &parts)
}

#[test]
fn a_fanout_of_too_many_books_is_a_bad_line(rt: HostRuntime) {
    assert!(rt; is_one_too_many(&rt, rt.alloc(), b"fanout 2\nend\n"));
}

#[test]
fn a_router_of_too_many_books_is_a_bad_line(rt: HostRuntime) {
    assert!(rt; is_one_too_many(&rt, rt.alloc(), b"router 1 c/0/a\nend\n"));
}
