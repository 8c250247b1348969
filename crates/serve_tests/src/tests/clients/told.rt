//! What clients were told in a session, and what stands in its journal.

use link_node::Event;
use lk_talks::{Happened, SEATS};
use std::alloc::Global;
use std::process::Abort;

/// Puts bytes behind others.
pub fn append(rt: &impl Abort, bytes: &mut Vec<u8>, more: &[u8]) {
    bytes.extend_from_slice(more).expect(rt, "memory for bytes");
}

/// What the client in a seat was told, in order, with `N` for the number of each state: that depends on how the threads step.
pub fn told_to(rt: &impl Abort, alloc: Global, passed: &[Happened], seat: u8) -> Vec<u8> {
    let mut bytes = Vec::new(alloc);
    for row in passed {
        append_told(rt, &mut bytes, said_in(row, seat));
    }
    bytes
}

/// Fails where the clients in some seats, from the first on, were told something else than this, or one in another seat was told anything.
pub fn expect_told(
    rt: &impl Abort,
    alloc: Global,
    passed: &[Happened],
    told: &[&[u8]],
    number: usize,
) {
    for seat in 0..SEATS {
        let found = told_to(rt, alloc, passed, seat);
        assert_eq!(rt; found.as_slice(), wanted_in(told, seat), "{number} {seat}");
    }
}

fn wanted_in<'a>(told: &[&'a [u8]], seat: u8) -> &'a [u8] {
    match told.get(usize::from(seat)) {
        Some(bytes) => bytes,
        None => b"",
    }
}

// The line that a row says was said to the client in a seat, nothing if it says none.
fn said_in(row: &Happened, seat: u8) -> &[u8] {
    match row {
        Happened::Said(other, line) if *other == seat => line,
        _ => b"",
    }
}

fn append_told(rt: &impl Abort, bytes: &mut Vec<u8>, line: &[u8]) {
    if !line.starts_with(b"status") && !line.starts_with(b"changed") {
        append(rt, bytes, line);
        return;
    }
    append(rt, bytes, front_of(line));
    append(rt, bytes, b"N\n");
}

// A line up to its last space and with it.
fn front_of(line: &[u8]) -> &[u8] {
    let mut end = 0;
    for (at, byte) in line.iter().enumerate() {
        if *byte == b' ' {
            end = at;
        }
    }
    match line.get(..=end) {
        Some(front) => front,
        None => line,
    }
}

/// How many rows of a record are of this kind: `c` a client that came, `l` one that left, `s` one that was let go.
pub fn count_of(passed: &[Happened], kind: u8) -> u64 {
    let mut count = 0u64;
    for row in passed {
        count = count.wrapping_add(u64::from(kind_of(row) == kind));
    }
    count
}

fn kind_of(row: &Happened) -> u8 {
    match row {
        Happened::Came(_) => b'c',
        Happened::Left(_) => b'l',
        Happened::Shut(_) => b's',
        Happened::Heard(_, _) | Happened::Said(_, _) => b'*',
    }
}

/// How many commits stand in a journal.
pub fn commits_in(events: &[Event]) -> u64 {
    let mut count = 0u64;
    for event in events {
        count = count.wrapping_add(u64::from(matches!(event, Event::App { .. })));
    }
    count
}

/// Some bytes so many times.
pub fn repeated(rt: &impl Abort, alloc: Global, bytes: &[u8], times: u16) -> Vec<u8> {
    let mut all = Vec::new(alloc);
    for _ in 0..times {
        append(rt, &mut all, bytes);
    }
    all
}

/// Fails where something was heard while a whole line waited for its answer, or one waits at the end.
pub fn expect_answers_first(rt: &impl Abort, passed: &[Happened]) {
    let mut waiting = 0i64;
    for (number, row) in passed.iter().enumerate() {
        assert!(rt;
            waiting == 0 || !matches!(row, Happened::Heard(_, _)),
            "{number}"
        );
        waiting = waiting.wrapping_add(wait_of(row));
    }
    assert!(rt; waiting == 0);
}

// How many lines more wait for their answers behind a row.
fn wait_of(row: &Happened) -> i64 {
    match row {
        Happened::Heard(_, bytes) => line_feeds_in(bytes),
        Happened::Said(_, line) if line.starts_with(b"changed") => 0,
        Happened::Said(_, _) => -1,
        Happened::Came(_) | Happened::Left(_) | Happened::Shut(_) => 0,
    }
}

fn line_feeds_in(bytes: &[u8]) -> i64 {
    let mut count = 0i64;
    for byte in bytes {
        count = count.wrapping_add(i64::from(*byte == b'\n'));
    }
    count
}
