//! The trie of routes, whose answers stay when memory runs out.

use crate::values::check;
use metrics::Error;
use prefix_match::PrefixTrie;
use std::process::Abort;
use test_trial::Trial;

/// A pattern and its value.
type Entry = (&'static str, usize);

const ENTRIES: [Entry; 6] = [("abc", 1), ("a", 0), ("", 2), ("a", 3), ("é", 4), ("è", 5)];

/// The value of the longest of the entries that begins a text, the last of equal ones.
fn plain_longest(entries: &[Entry], text: &str) -> Option<usize> {
    let mut best = None;
    let mut length = 0;
    for (pattern, value) in entries {
        if text.as_bytes().starts_with(pattern.as_bytes()) && length <= pattern.len() {
            best = Some(*value);
            length = pattern.len();
        }
    }
    best
}

/// The value that an entry replaces.
fn plain_old(entries: &[Entry], text: &str) -> Option<usize> {
    let mut old = None;
    for (pattern, value) in entries {
        if *pattern == text {
            old = Some(*value);
        }
    }
    old
}

fn expect_longest(rt: &impl Abort, trie: &PrefixTrie, entries: &[Entry]) {
    for text in ["abcx", "abd", "x", "", "éa", "è", "ê"] {
        let found = trie.longest(text.as_bytes());
        check(rt, found == plain_longest(entries, text));
    }
}

/// Inserts an entry, and again if memory ran out, which leaves every answer as it was.
fn insert(
    rt: &impl Abort,
    trial: &mut Trial,
    trie: &mut PrefixTrie,
    before: &[Entry],
    entry: Entry,
) {
    let (pattern, value) = entry;
    trial.begin();
    let first = trie.insert(pattern.as_bytes(), value);
    trial.calm();
    let old = match first {
        Ok(old) => old,
        Err(_) => {
            trial.note(Error::Memory).expect(rt, "refused");
            expect_longest(rt, trie, before);
            let second = trie.insert(pattern.as_bytes(), value);
            second.expect(rt, "refused with memory at hand")
        }
    };
    check(rt, old == plain_old(before, pattern));
}

#[test]
fn the_longest_pattern_is_found(rt: HostRuntime) {
    let mut trial = Trial::new(rt.alloc());
    let mut trie = PrefixTrie::new(rt.alloc());
    for (at, entry) in ENTRIES.into_iter().enumerate() {
        let (before, _) = ENTRIES.split_at(at.min(ENTRIES.len()));
        insert(&rt, &mut trial, &mut trie, before, entry);
        let (held, _) = ENTRIES.split_at((at.saturating_add(1)).min(ENTRIES.len()));
        expect_longest(&rt, &trie, held);
    }
    drop(trie);
}

/// Reserves a pattern, where the first try may run out of memory and leaves every answer.
fn reserve(rt: &impl Abort, trial: &mut Trial, trie: &mut PrefixTrie) {
    trial.begin();
    let first = trie.reserve(b"abd");
    trial.calm();
    check(
        rt,
        (trie.longest(b"abcd"), trie.longest(b"abdx")) == (Some(1), None),
    );
    if first.is_err() {
        trial.note(Error::Memory).expect(rt, "refused");
        trie.reserve(b"abd")
            .expect(rt, "refused with memory at hand");
    }
}

/// An insert that was reserved allocates nothing.
#[test]
fn a_reserved_route_is_not_refused(rt: HostRuntime) {
    let mut trial = Trial::new(rt.alloc());
    let mut trie = PrefixTrie::new(rt.alloc());
    let inserted = trie.insert(b"abc", 1);
    check(
        &rt,
        inserted.expect(&rt, "refused with memory at hand") == None,
    );
    reserve(&rt, &mut trial, &mut trie);
    trial.begin();
    let inserted = trie.insert(b"abd", 2);
    trial.calm();
    check(
        &rt,
        inserted.expect(&rt, "a reserved route is refused") == None,
    );
    check(
        &rt,
        (trie.longest(b"abcd"), trie.longest(b"abdx")) == (Some(1), Some(2)),
    );
    drop(trie);
}
