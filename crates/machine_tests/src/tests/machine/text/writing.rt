//! The lines of scripts, as they are written.

use super::expect_line;
use crate::tests::machine::expect;
use arrayvec::ArrayVec;
use client_state::Commit;
use link_node::{Config, Event, GateSetup};
use link_text::{LineBuf, write_event, write_head};
use lk_base::{ClientStart, Endpoint, Gate, NodeId, Timeline, Wire};
use std::process::Abort;

/// 2^55, the last moment of an event.
const LAST: i64 = 36_028_797_018_963_968;

/// 2^60, the limit of numbers.
const LIMIT: i64 = 1_152_921_504_606_846_976;

/// 127.0.0.1:20808.
const HERE: Endpoint = Endpoint {
    addr: 2_130_706_433,
    port: 20_808,
};

/// 224.76.78.75:20808.
const THERE: Endpoint = Endpoint {
    addr: 3_763_097_163,
    port: 20_808,
};

/// 255.255.255.255:65535.
const HIGHEST: Endpoint = Endpoint {
    addr: 4_294_967_295,
    port: 65_535,
};

/// A datagram of these bytes.
fn wire(bytes: &[u8]) -> Wire {
    let mut wire = Wire::new();
    let _all = wire.try_extend_from_slice(bytes);
    wire
}

// Fails where a datagram that came is told otherwise than by a row's line.
fn expect_arrivals(rt: &impl Abort, rows: &[(i64, u8, Endpoint, &[u8], &[u8])]) {
    for (row, (now, gate, from, bytes, wanted)) in rows.iter().enumerate() {
        let event = Event::Rx {
            gate: Gate(*gate),
            from: *from,
            bytes: wire(bytes),
            now: *now,
        };
        let mut line = LineBuf::new();
        write_event(&mut line, &event);
        expect_line(rt, row, &line, wanted);
    }
}

#[test]
fn a_datagram_that_came_is_told_in_hex_and_none_by_a_hyphen(rt: HostRuntime) {
    expect_arrivals(
        &rt,
        &[
            (1, 3, HERE, b"", b"rx 1 3 127.0.0.1:20808 -\n"),
            (0, 0, THERE, b"\x00", b"rx 0 0 224.76.78.75:20808 00\n"),
            (
                LAST,
                255,
                HIGHEST,
                b"\xab\xcd\xef\x01",
                b"rx 36028797018963968 255 255.255.255.255:65535 abcdef01\n",
            ),
        ],
    );
}

#[test]
fn the_longest_datagram_finds_room(rt: HostRuntime) {
    let event = Event::Rx {
        gate: Gate(2),
        from: HERE,
        bytes: wire(&[0x5f; 513]),
        now: 7,
    };
    let mut line = LineBuf::new();
    write_event(&mut line, &event);
    let text = line.as_slice();
    // 23 bytes before the digits, 1,026 digits and a line feed.
    expect(&rt, 0, &text.len(), &1_050);
    expect(
        &rt,
        1,
        &text.starts_with(b"rx 7 2 127.0.0.1:20808 5f5f"),
        &true,
    );
    expect(&rt, 2, &text.ends_with(b"5f5f\n"), &true);
}

/// A timeline, a start and a quantum with numbers of their own in every place.
const EDITED: Commit = Commit {
    timeline: Some(Timeline {
        mpb: 3_000_000,
        beat: LIMIT,
        time: -LIMIT,
    }),
    start: Some(ClientStart {
        playing: false,
        time: 3,
        stamp: -4,
    }),
    quantum: Some(1_099_511_627_776),
    at: 6,
};

/// One without the quantum, one of the start alone, one of the timeline alone, one of nothing and one of a quantum alone.
const BEGUN: Commit = Commit {
    quantum: None,
    ..EDITED
};

const STOPPED: Commit = Commit {
    timeline: None,
    ..BEGUN
};

const MOVED: Commit = Commit {
    start: None,
    ..BEGUN
};

const NONE: Commit = Commit {
    timeline: None,
    start: None,
    quantum: None,
    at: -7,
};

const COUNTED: Commit = Commit {
    quantum: Some(0),
    ..NONE
};

// Fails where a commit is told otherwise than by a row's line: the audio thread's of a number, an application's where that is 0.
fn expect_commits(rt: &impl Abort, rows: &[(i64, u64, Commit, &[u8])]) {
    for (row, (now, number, commit, wanted)) in rows.iter().enumerate() {
        let (commit, number, now) = (*commit, *number, *now);
        let event = if number == 0 {
            Event::App { commit, now }
        } else {
            Event::Audio {
                number,
                commit,
                now,
            }
        };
        let mut line = LineBuf::new();
        write_event(&mut line, &event);
        expect_line(rt, row, &line, wanted);
    }
}

#[test]
fn a_commit_is_told_by_what_it_carries(rt: HostRuntime) {
    expect_commits(
        &rt,
        &[
            (5, 0, NONE, b"app 5 -7\n"),
            (
                5,
                0,
                MOVED,
                b"app 5 6 t 3000000 1152921504606846976 -1152921504606846976\n",
            ),
            (5, 0, STOPPED, b"app 5 6 s 0 3 -4\n"),
            (
                5,
                0,
                BEGUN,
                b"app 5 6 t 3000000 1152921504606846976 -1152921504606846976 s 0 3 -4\n",
            ),
            (5, 0, COUNTED, b"app 5 -7 q 0\n"),
            (
                5,
                0,
                EDITED,
                b"app 5 6 t 3000000 1152921504606846976 -1152921504606846976 s 0 3 -4 q 1099511627776\n",
            ),
            (0, 1, NONE, b"audio 0 1 -7\n"),
            (
                LAST,
                1_152_921_504_606_846_975,
                STOPPED,
                b"audio 36028797018963968 1152921504606846975 6 s 0 3 -4\n",
            ),
            (
                9,
                8,
                EDITED,
                b"audio 9 8 6 t 3000000 1152921504606846976 -1152921504606846976 s 0 3 -4 q 1099511627776\n",
            ),
        ],
    );
}

// Fails where an event is told otherwise than by a line.
fn expect_event(rt: &impl Abort, event: &Event, wanted: &[u8]) {
    let mut line = LineBuf::new();
    write_event(&mut line, event);
    expect_line(rt, 0, &line, wanted);
}

#[test]
fn a_tick_and_the_end_are_told_by_their_moment(rt: HostRuntime) {
    expect_event(&rt, &Event::Tick { now: 0 }, b"tick 0\n");
    expect_event(&rt, &Event::Tick { now: -1 }, b"tick -1\n");
    expect_event(&rt, &Event::End { now: LAST }, b"end 36028797018963968\n");
    expect_event(&rt, &Event::End { now: 10 }, b"end 10\n");
}

/// Four gates: with two destinations, with none, with one and with two.
fn four_gates() -> Config {
    let mut two = ArrayVec::new();
    let _first = two.try_push(THERE);
    let _second = two.try_push(HIGHEST);
    let mut one = ArrayVec::new();
    let _only = one.try_push(HERE);
    let mut others = ArrayVec::new();
    let _first = others.try_push(HIGHEST);
    let _second = others.try_push(HERE);
    let mut gates = ArrayVec::new();
    let _a = gates.try_push(GateSetup {
        local: HERE,
        peers: two,
    });
    let _b = gates.try_push(GateSetup {
        local: HIGHEST,
        peers: ArrayVec::new(),
    });
    let _c = gates.try_push(GateSetup {
        local: THERE,
        peers: one,
    });
    let _d = gates.try_push(GateSetup {
        local: Endpoint { addr: 0, port: 1 },
        peers: others,
    });
    Config {
        id: NodeId(*b"!ABCDEF~"),
        seed: 18_446_744_073_709_551_615,
        mpb: 3_000_000,
        sync: true,
        group: 65_535,
        quantum: 1_099_511_627_776,
        gates,
    }
}

/// Fails where the lines of a head aren't these.
pub fn expect_head(
    rt: &impl Abort,
    line: &mut LineBuf,
    config: &Config,
    now: i64,
    lines: &[&[u8]],
) {
    let mut k = 0u32;
    for wanted in lines {
        expect(rt, k as usize, &write_head(line, config, now, k), &true);
        expect_line(rt, k as usize, line, wanted);
        k = k.wrapping_add(1);
    }
}

// Fails where one of these lines is written, or the last one doesn't stay.
fn expect_past(rt: &impl Abort, line: &mut LineBuf, config: &Config, ks: &[u32], last: &[u8]) {
    for (row, k) in ks.iter().enumerate() {
        expect(rt, row, &write_head(line, config, LAST, *k), &false);
        expect_line(rt, row, line, last);
    }
}

#[test]
fn a_head_is_told_line_by_line_and_ends(rt: HostRuntime) {
    let config = four_gates();
    let mut line = LineBuf::new();
    expect_head(
        &rt,
        &mut line,
        &config,
        LAST,
        &[
            b"replay 2\n",
            b"node !ABCDEF~ 18446744073709551615 3000000 1 36028797018963968\n",
            b"group 65535\n",
            b"quantum 1099511627776\n",
            b"gate 127.0.0.1:20808\n",
            b"to 224.76.78.75:20808\n",
            b"to 255.255.255.255:65535\n",
            b"gate 255.255.255.255:65535\n",
            b"gate 224.76.78.75:20808\n",
            b"to 127.0.0.1:20808\n",
            b"gate 0.0.0.0:1\n",
            b"to 255.255.255.255:65535\n",
            b"to 127.0.0.1:20808\n",
        ],
    );
    expect_past(
        &rt,
        &mut line,
        &config,
        &[13, 14, 4_294_967_295],
        b"to 127.0.0.1:20808\n",
    );
}
