//! Whole texts that are read from a source in memory.

use crate::tests::expect;
use lk_outside::{BytesSource, InputFault, READ, read_all};
use std::alloc::Global;
use std::process::Abort;

const TEXT: &[u8] = b"beat";

// A call of number 0 is never made.
const NONE: u64 = 0;

const FAILED: Option<InputFault> = Some(InputFault::Failed);

const TOO_LONG: Option<InputFault> = Some(InputFault::TooLong);

// The most bytes of a read, the limit and the read that fails; the fault, the bytes left and the count of faults.
const READS: &[(usize, usize, u64, Option<InputFault>, usize, u64)] = &[
    (1, 4, NONE, None, 0, 0),
    (9, 4, NONE, None, 0, 0),
    (1, 3, NONE, TOO_LONG, 0, 0),
    (1, 2, NONE, TOO_LONG, 1, 0),
    (1, 0, NONE, TOO_LONG, 3, 0),
    (9, 2, NONE, TOO_LONG, 0, 0),
    (1, 4, 1, FAILED, 4, 1),
    (1, 4, 2, FAILED, 3, 1),
    (1, 4, 3, FAILED, 2, 1),
    (3, 4, 2, FAILED, 1, 1),
    // The read that would have met the end.
    (1, 4, 5, FAILED, 0, 1),
    (1, 4, 6, None, 0, 0),
];

// Two pieces and one byte.
const PIECES_AND_ONE: &[u8] = &[b'7'; 131_073];

// The limit, the fault and the bytes left of it.
const PIECES: &[(usize, Option<InputFault>, usize)] = &[
    (131_073, None, 0),
    (131_072, TOO_LONG, 0),
    (131_071, TOO_LONG, 1),
    (65_535, TOO_LONG, 65_537),
];

// The limit of a read; its fault, or else how many bytes it gives and its last ones.
type Read = (usize, Option<InputFault>, usize, &'static [u8]);

// Reads a source of this text that gives at most so many bytes a read, and of which one read fails. Expects so many bytes left and so
// many faults at the end.
fn expect_reads(
    rt: &impl Abort,
    alloc: Global,
    (text, most, call): (Vec<u8>, usize, u64),
    reads: &[Read],
    left: (usize, u64),
) {
    assert!(rt; most > 0);
    let failing = vec![in alloc; (READ, call)].expect(rt, "memory for a call");
    let mut source = BytesSource::new(text, most, failing);
    for read in reads {
        expect_read(rt, alloc, &mut source, read);
    }
    let found = (source.rest().len(), source.fault_count());
    expect(rt, &"left", &found, &left);
}

fn expect_read(rt: &impl Abort, alloc: Global, source: &mut BytesSource, read: &Read) {
    match read_all(alloc, source, read.0) {
        Ok(bytes) => expect_bytes(rt, &bytes, read),
        Err(found) => expect(rt, &read.0, &Some(found), &read.1),
    }
}

fn expect_bytes(rt: &impl Abort, bytes: &[u8], read: &Read) {
    expect(rt, &read.0, &None, &read.1);
    expect(rt, &read.0, &bytes.len(), &read.2);
    expect(rt, &read.0, &bytes.ends_with(read.3), &true);
}

fn text_of(rt: &impl Abort, alloc: Global, text: &[u8]) -> Vec<u8> {
    text.to_vec(alloc).expect(rt, "memory for a text")
}

// rule: Rose
#[test]
fn a_source_is_read_to_its_end_its_limit_or_its_failure(rt: HostRuntime) {
    for &(most, limit, call, fault, left, faults) in READS {
        let text = text_of(&rt, rt.alloc(), TEXT);
        let reads = [(limit, fault, 4, TEXT)];
        expect_reads(&rt, rt.alloc(), (text, most, call), &reads, (left, faults));
    }
}

#[test]
fn a_read_after_a_failure_goes_on_where_that_one_stopped(rt: HostRuntime) {
    let text = text_of(&rt, rt.alloc(), TEXT);
    let reads = [(4, FAILED, 0, TEXT), (4, None, 3, b"eat".as_slice())];
    expect_reads(&rt, rt.alloc(), (text, 1, 2), &reads, (0, 1));
}

#[test]
fn an_empty_source_is_read_within_any_limit(rt: HostRuntime) {
    let reads = [(0, None, 0, b"".as_slice())];
    expect_reads(
        &rt,
        rt.alloc(),
        (Vec::new(rt.alloc()), 1, NONE),
        &reads,
        (0, 0),
    );
}

#[test]
fn a_text_over_the_limit_costs_at_most_one_more_piece(rt: HostRuntime) {
    for &(limit, fault, left) in PIECES {
        let text = text_of(&rt, rt.alloc(), PIECES_AND_ONE);
        let reads = [(limit, fault, 131_073, b"7".as_slice())];
        expect_reads(&rt, rt.alloc(), (text, 200_000, NONE), &reads, (left, 0));
    }
}
