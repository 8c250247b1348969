//! Lines that ask for nothing, and what is wrong with them.

use arrayvec::ArrayVec;
use link_asks::{Command, Reason, ask_of, reason_of};
use std::process::Abort;

// What is wrong with some lines.
const ROWS: &[(Reason, &[&[u8]])] = &[
    (
        Reason::NoCommand,
        &[
            b"",
            b"\r",
            b" ",
            b"\t",
            b"\r\r",
            b" status",
            b"Status",
            b"STATUS",
            b"statu",
            b"statuss",
            b"status\t",
            b"status\x00",
            b"status\r\r",
            b"sta\rtus",
            b"\rstatus",
            b"\xff\xfe",
            b"\xef\xbb\xbfstatus",
            b"beat\t1",
            b"bpm\t120",
            b"play\r 5",
            b"watching",
            b"ends",
            b"ok",
            b"changed",
            b"bad",
            b"hello word",
            b"1",
        ],
    ),
    (
        Reason::Takes(Command::Status),
        &[
            b"status ",
            b"status  ",
            b"status now",
            b"status 1",
            b"status \r",
            b"status \r\r",
        ],
    ),
    (Reason::Takes(Command::Now), &[b"now ", b"now 1"]),
    (
        Reason::Takes(Command::Beat),
        &[
            b"beat",
            b"beat\r",
            b"beat ",
            b"beat  1",
            b"beat 1 ",
            b"beat 1 2",
            b"beat +1",
            b"beat 01",
            b"beat 00",
            b"beat -0",
            b"beat -01",
            b"beat -",
            b"beat --1",
            b"beat 1.0",
            b"beat 1e3",
            b"beat 0x1",
            b"beat 1_000",
            b"beat 1,000",
            b"beat one",
            b"beat 1\t",
            b"beat \t1",
            b"beat 1\r2",
            b"beat 1\r\r",
            b"beat 1\x00",
            b"beat 1152921504606846977",
            b"beat -1152921504606846977",
            b"beat 11529215046068469760",
            b"beat 9223372036854775808",
            b"beat 18446744073709551617",
            b"beat 340282366920938463463374607431768211457",
        ],
    ),
    (
        Reason::Takes(Command::Phase),
        &[
            b"phase",
            b"phase ",
            b"phase 1 2",
            b"phase 1152921504606846977",
            b"phase -1152921504606846977",
        ],
    ),
    (
        Reason::Takes(Command::Time),
        &[
            b"time",
            b"time ",
            b"time 1 2",
            b"time 1152921504606846977",
            b"time -1152921504606846977",
        ],
    ),
    (
        Reason::Takes(Command::Tempo),
        &[
            b"tempo",
            b"tempo ",
            b"tempo 60059",
            b"tempo 3000001",
            b"tempo 5000000",
            b"tempo 060060",
            b"tempo +500000",
            b"tempo -500000",
            b"tempo 500000.0",
            b"tempo 500000 1",
            b"tempo 18446744073710051616",
        ],
    ),
    (
        Reason::Takes(Command::Play),
        &[
            b"play ",
            b"play  5",
            b"play now",
            b"play +5",
            b"play 05",
            b"play 1 2",
            b"play 1152921504606846977",
        ],
    ),
    (
        Reason::Takes(Command::Stop),
        &[
            b"stop ",
            b"stop  5",
            b"stop now",
            b"stop 1 2",
            b"stop -1152921504606846977",
        ],
    ),
    (
        Reason::Takes(Command::Force),
        &[
            b"force",
            b"force ",
            b"force 1",
            b"force 1 ",
            b"force  1 2",
            b"force 1  2",
            b"force 1 2 ",
            b"force 1 2 3",
            b"force 1,2",
            b"force 1\t2",
            b"force 1152921504606846977 0",
            b"force 0 1152921504606846977",
        ],
    ),
    (
        Reason::Takes(Command::Request),
        &[
            b"request",
            b"request 1",
            b"request 1 ",
            b"request 1  2",
            b"request 1 2 3",
            b"request -1152921504606846977 0",
            b"request 0 -1152921504606846977",
        ],
    ),
    (
        Reason::Takes(Command::Quantum),
        &[
            b"quantum",
            b"quantum ",
            b"quantum -1",
            b"quantum -0",
            b"quantum 04",
            b"quantum 4.5",
            b"quantum 1099511627777",
            b"quantum 10995116277760",
        ],
    ),
    (Reason::Takes(Command::Watch), &[b"watch ", b"watch 1"]),
    (
        Reason::Takes(Command::Unwatch),
        &[b"unwatch ", b"unwatch all"],
    ),
    (
        Reason::Takes(Command::Clients),
        &[b"clients ", b"clients 2"],
    ),
    (Reason::Takes(Command::Gates), &[b"gates ", b"gates 0"]),
    (Reason::Takes(Command::End), &[b"end ", b"end now"]),
];

fn expect_reason(rt: &impl Abort, line: &[u8], reason: Reason, number: usize) {
    let right = ask_of(line).is_none() && reason_of(line) == reason;
    assert!(rt; right, "{reason:?} {number}");
}

fn expect_all(rt: &impl Abort, reason: Reason, lines: &[&[u8]]) {
    for (number, line) in lines.iter().enumerate() {
        expect_reason(rt, line, reason, number);
    }
}

// rule: Asks.Says, IsAsk, IsReason
#[test]
fn what_is_spelled_otherwise_is_told_its_reason(rt: HostRuntime) {
    for &(reason, lines) in ROWS {
        expect_all(&rt, reason, lines);
    }
}

// How many bytes a line has before its end, the end, and what is wrong with it.
const LENGTHS: &[(usize, &[u8], Reason)] = &[
    (127, b"", Reason::Takes(Command::Beat)),
    (127, b"\r", Reason::Takes(Command::Beat)),
    (128, b"", Reason::Takes(Command::Beat)),
    (128, b"\r", Reason::TooLong),
    (129, b"", Reason::TooLong),
    (130, b"", Reason::TooLong),
    (400, b"\r", Reason::TooLong),
];

// A line of so many bytes, a one with zeros behind it, and its end.
fn long_line(length: usize, end: &[u8]) -> ArrayVec<u8, 500> {
    let mut text = ArrayVec::new();
    let _room = text.try_extend_from_slice(b"beat 1");
    for _ in 6..length {
        let _room = text.try_push(b'0');
    }
    let _room = text.try_extend_from_slice(end);
    text
}

// rule: AreAsks, IsReason
#[test]
fn a_line_has_at_most_128_bytes(rt: HostRuntime) {
    for &(length, end, reason) in LENGTHS {
        expect_reason(&rt, &long_line(length, end), reason, length);
    }
}
