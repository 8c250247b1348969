//! Whole texts that are written to a sink in memory.

use crate::tests::expect;
use lk_outside::{BytesSink, WRITE, write_whole};
use std::alloc::Global;
use std::process::Abort;

const TEXT: &[u8] = b"beat";

// A call of number 0 is never made.
const NONE: u64 = 0;

// A text, whether all of it is written, and what was written and how many writes have failed afterwards.
type Write = (&'static [u8], bool, &'static [u8], u64);

// The room, the most bytes of a write and the write that fails; the answer, the bytes and the count of faults.
const WRITES: &[(usize, usize, u64, bool, &[u8], u64)] = &[
    (4, 1, NONE, true, b"beat", 0),
    (9, 9, NONE, true, b"beat", 0),
    (4, 1, 1, false, b"", 1),
    (4, 1, 2, false, b"b", 1),
    (4, 1, 4, false, b"bea", 1),
    (4, 1, 5, true, b"beat", 0),
    (9, 3, 2, false, b"bea", 1),
    (3, 2, NONE, false, b"bea", 1),
    (0, 9, NONE, false, b"", 1),
];

// Writes to a sink of that room that takes at most so many bytes a write, and of which one write fails.
fn expect_writes(
    rt: &impl Abort,
    alloc: Global,
    (room, most, call): (usize, usize, u64),
    writes: &[Write],
) {
    assert!(rt; most > 0);
    let failing = vec![in alloc; (WRITE, call)].expect(rt, "memory for a call");
    let sink = BytesSink::new(alloc, room, most, failing);
    write_all(rt, &mut sink.expect(rt, "memory for a sink"), writes);
}

fn write_all(rt: &impl Abort, sink: &mut BytesSink, writes: &[Write]) {
    for write in writes {
        expect_write(rt, sink, write);
    }
}

fn expect_write(rt: &impl Abort, sink: &mut BytesSink, write: &Write) {
    let whole = write_whole(sink, write.0);
    expect(rt, &"answer", &whole, &write.1);
    expect_written(rt, sink, write);
}

fn expect_written(rt: &impl Abort, sink: &BytesSink, write: &Write) {
    expect(rt, &"written", &sink.bytes(), &write.2);
    expect(rt, &"faults", &sink.fault_count(), &write.3);
}

// rule: Rose
#[test]
fn a_sink_takes_all_or_a_prefix_up_to_its_failure(rt: HostRuntime) {
    for &(room, most, call, whole, bytes, faults) in WRITES {
        let writes = [(TEXT, whole, bytes, faults)];
        expect_writes(&rt, rt.alloc(), (room, most, call), &writes);
    }
}

#[test]
fn a_write_after_a_failure_begins_anew_behind_the_prefix(rt: HostRuntime) {
    let writes = [
        (TEXT, false, b"b".as_slice(), 1),
        (TEXT, true, b"bbeat".as_slice(), 1),
    ];
    expect_writes(&rt, rt.alloc(), (9, 1, 2), &writes);
}

#[test]
fn writing_nothing_calls_nothing(rt: HostRuntime) {
    let empty = b"".as_slice();
    expect_writes(&rt, rt.alloc(), (0, 1, 1), &[(empty, true, empty, 0)]);
}
