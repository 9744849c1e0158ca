//! What a room knows of earlier lines.

use std::alloc::Global;
use test_trial::Trial;
use tool_requests::{Dialect, Items, Room, named_request_of};

/// Reads a line, and returns whether the room knew its series.
fn knew(alloc: Global, room: &mut Room, line: &str) -> bool {
    let dialect = Dialect {
        labels: Items::from(Vec::new(alloc)),
        places: Items::from(Vec::new(alloc)),
    };
    let _ = named_request_of(alloc, &dialect, &None, room, line.as_bytes());
    room.knew_series()
}

/// A room knows the series of each update that it has read, by the bytes behind the amount, until it forgets them.
#[test]
fn a_room_knows_series_until_it_forgets_them(rt: HostRuntime) {
    let alloc = rt.alloc();
    Trial::new(alloc).calm();
    let mut room = Room::new(alloc);
    for (line, known) in [
        ("increment 1 a", false),
        ("set 2 a", true),
        ("increment 1 a x=1", false),
        ("increment 1 a", true),
        ("increment y a", false),
        ("increment 1 a", true),
        ("# 1 a", false),
        ("increment 1 a x=1", true),
        ("scrape", false),
    ] {
        assert_eq!(rt; knew(alloc, &mut room, line), known, "{line}");
    }
    room.forget_series();
    assert!(rt; !knew(alloc, &mut room, "increment 1 a"));
    assert!(rt; knew(alloc, &mut room, "increment 1 a"));
}
