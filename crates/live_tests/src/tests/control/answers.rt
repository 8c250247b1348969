//! What clients are answered, worked out by hand.
//!
//! Each link opens at 0 with 500,000 microseconds per beat from beat 0 there, and all is done at that moment.

use super::session::{Given, Session, USUAL, append, served};
use arrayvec::ArrayVec;
use link_control::Served;
use std::alloc::Global;
use std::process::Abort;
use std::sync::Wait;

// How many bytes a read gives at most.
const MOSTS: &[usize] = &[1, 2, 3, 512];

// What is sent, and what is answered.
const ROWS: &[(&[u8], &[u8])] = &[
    (b"", b""),
    (
        b"status\ntempo 250000\nbeat 1000000\nnope\n",
        b"status 500000 0 0 0 0\nok 1\nbeat 4000000\nbad\n",
    ),
    (
        b"beat 1000000\ntime 1000000\nplay\nstatus\nstop\nstatus\ntempo 60060\nstatus\n",
        b"beat 2000000\ntime 500000\nok 1\nstatus 500000 0 0 1 0\nok 2\nstatus 500000 0 0 0 0\nok 3\nstatus 60060 0 0 0 0\n",
    ),
    // Half a microsecond is rounded away from 0, and what is too far is the nearest that isn't.
    (
        b"time 1\ntime -1\ntime -3\nbeat -1\n",
        b"time 1\ntime -1\ntime -2\nbeat -2\n",
    ),
    (
        b"beat 1152921504606846976\nbeat -1152921504606846976\ntime 1152921504606846976\n",
        b"beat 1152921504606846976\nbeat -1152921504606846976\ntime 576460752303423488\n",
    ),
    // Each line feed ends a line, and what stands behind the last one is none.
    (b"\n\n", b"bad\nbad\n"),
    (b"play", b""),
    (b"play\nplay", b"ok 1\n"),
    (b"play\n\nplay\n", b"ok 1\nbad\nok 2\n"),
    (b"pl\nay\n", b"bad\nbad\n"),
    (
        b"status\r\nplay \n\xff\xfe\nplay\x00\nplay\n",
        b"bad\nbad\nbad\nbad\nok 1\n",
    ),
];

// An alive of a peer in the node's session: 250,000 microseconds per beat, beat 1 at 500,000 and so beat 0 at 250,000, and playing from
// beat 0 on.
const ALIVE: &[u8] = b"_asdp_v\x01\x01\x05\x00\x00BBBBBBBB\
tmln\x00\x00\x00\x18\x00\x00\x00\x00\x00\x03\xd0\x90\
\x00\x00\x00\x00\x00\x0fB@\x00\x00\x00\x00\x00\x07\xa1\x20\
sess\x00\x00\x00\x08AAAAAAAA\
stst\x00\x00\x00\x11\x01\x00\x00\x00\x00\x00\x00\x00\x00\x00\x00\x00\x00\x00\x00\x00\x01";

// How long a line is, and how it and the next one are answered.
const LENGTHS: &[(usize, &[u8])] = &[
    (24, b"beat 1152921504606846976\nok 1\n"),
    (25, b"bad\nok 1\n"),
    (64, b"bad\nok 1\n"),
    (65, b"bad\nok 1\n"),
    (66, b"bad\nok 1\n"),
    (511, b"bad\nok 1\n"),
    (512, b"bad\nok 1\n"),
    (600, b"bad\nok 1\n"),
];

// How many lines are sent, what stands behind them, how it ends, and how many lines are answered.
const COUNTS: &[(u16, &[u8], Served, u16)] = &[
    (4_095, b"", Served::Ended, 4_095),
    (4_096, b"", Served::Ended, 4_096),
    (4_096, b"play", Served::Ended, 4_096),
    (4_097, b"", Served::Lines, 4_096),
    (4_098, b"play\n", Served::Lines, 4_096),
];

// Fails where a session ended or was answered otherwise, or has another line logged than these.
fn expect_session(rt: &impl Abort, session: &Session, end: Served, answers: &[u8], lines: usize) {
    assert_eq!(rt; session.talk.bytes(), answers);
    assert!(rt; session.end == end && session.log.lines.len() == lines);
}

// A row's answers, however many bytes a read gives.
fn expect_answers<R: Wait + Abort>(
    rt: &R,
    alloc: Global,
    given: &Given,
    answers: &[u8],
    lines: usize,
) {
    for most in MOSTS {
        let given = Given {
            most: *most,
            ..*given
        };
        let session = served(rt, alloc, &given);
        expect_session(rt, &session, Served::Ended, answers, lines);
    }
}

fn line_feeds_in(bytes: &[u8]) -> usize {
    let mut count = 0usize;
    for byte in bytes {
        count = count.wrapping_add(usize::from(*byte == b'\n'));
    }
    count
}

// rule: whole_lines_of, HasServed, captured_over, status_text_of, ok_text_of, Answers.answer_of, bad_text, EndsServing
#[test]
fn each_line_is_answered_however_the_bytes_come(rt: HostRuntime) {
    for &(sent, answers) in ROWS {
        let given = Given { sent, ..USUAL };
        expect_answers(&rt, rt.alloc(), &given, answers, line_feeds_in(sent));
    }
}

// rule: status_text_of, Answers.answer_of
#[test]
fn a_client_is_told_what_the_node_heard(rt: HostRuntime) {
    let given = Given {
        sent: b"status\nbeat 250000\ntime 2000000\ntempo 500000\nstop\nstatus\n",
        heard: ALIVE,
        ..USUAL
    };
    expect_answers(
        &rt,
        rt.alloc(),
        &given,
        b"status 250000 1000000 250000 1 1\nbeat 1000000\ntime 500000\nok 1\nok 2\nstatus 500000 1000000 500000 0 1\n",
        6,
    );
}

// A line of that length, a number of zeros behind a one, and then another one.
fn long_line(length: usize) -> ArrayVec<u8, 700> {
    let mut text = ArrayVec::new();
    let _room = text.try_extend_from_slice(b"beat 1");
    for _ in 6..length {
        let _room = text.try_push(b'0');
    }
    let _room = text.try_extend_from_slice(b"\nplay\n");
    text
}

// rule: AreControlLines, HasServed, bad_text
#[test]
fn a_long_line_is_bad_and_the_next_one_is_read(rt: HostRuntime) {
    for &(length, answers) in LENGTHS {
        let text = long_line(length);
        let given = Given {
            sent: &text,
            ..USUAL
        };
        expect_answers(&rt, rt.alloc(), &given, answers, 2);
    }
}

// A line so many times, and what stands behind it.
fn repeated(rt: &impl Abort, alloc: Global, line: &[u8], times: u16, behind: &[u8]) -> Vec<u8> {
    let mut text = Vec::new(alloc);
    for _ in 0..times {
        append(rt, &mut text, line);
    }
    append(rt, &mut text, behind);
    text
}

// rule: HasServed, EndsServing
#[test]
fn no_line_behind_4096_is_answered(rt: HostRuntime) {
    for &(times, behind, end, count) in COUNTS {
        expect_count(&rt, rt.alloc(), times, behind, end, count);
    }
}

fn expect_count<R: Wait + Abort>(
    rt: &R,
    alloc: Global,
    times: u16,
    behind: &[u8],
    end: Served,
    count: u16,
) {
    let sent = repeated(rt, alloc, b"status\n", times, behind);
    let answers = repeated(rt, alloc, b"status 500000 0 0 0 0\n", count, b"");
    let given = Given {
        sent: &sent,
        ..USUAL
    };
    let session = served(rt, alloc, &given);
    expect_session(rt, &session, end, &answers, usize::from(count));
}
