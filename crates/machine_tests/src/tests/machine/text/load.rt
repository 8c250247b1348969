//! The node and the events of a load, worked out apart from the code: the words by PCG's reference generator, the lines by the rule.

use super::expect_line;
use super::writing::expect_head;
use client_state::State;
use link_node::Event;
use link_text::{LineBuf, LoadEvents, write_event};
use lk_base::{ClientStart, NodeId, Timeline};
use std::process::Abort;

/// What the node shows.
const STATE: State = State {
    timeline: Timeline {
        mpb: 486_123,
        beat: -1_234_567,
        time: 987_654,
    },
    start: ClientStart {
        playing: true,
        time: 5,
        stamp: 6,
    },
    sync: true,
    peers: 2,
    moment: 1_000_000,
    app: 3,
    audio: 0,
    session: NodeId(*b"LOADNODE"),
    quantum: 4_000_000,
};

// The event of a seed before which there were so many.
fn event_after(seed: u64, before: u8) -> Event {
    let mut events = LoadEvents::new(seed);
    for _k in 0..before {
        let _event = events.next(&STATE);
    }
    events.next(&STATE)
}

// Fails where an event of the seed 7 is told otherwise than by a row's line: that before which there were so many.
fn expect_events(rt: &impl Abort, rows: &[(u8, &[u8])]) {
    for (row, (before, wanted)) in rows.iter().enumerate() {
        let mut line = LineBuf::new();
        write_event(&mut line, &event_after(7, *before));
        expect_line(rt, row, &line, wanted);
    }
}

#[test]
fn each_kind_of_event_is_spelled(rt: HostRuntime) {
    expect_events(
        &rt,
        &[
            (
                0,
                b"rx 1002484 0 127.0.0.1:30014 5f6c696e6b5f7601015f5f68740000000800000000000f4bf4\n",
            ),
            (1, b"tick 1016406\n"),
            (
                4,
                b"rx 1052337 0 127.0.0.1:30007 5f617364705f7601010500005045455230303037746d6c6e0000001800000000000635d80000000\
000001388000000000000000073657373000000084c4f41444e4f4445737473740000001100000000000000000000000000000000006\
d657034000000067f0000017537\n",
            ),
            (
                5,
                b"rx 1052410 0 127.0.0.1:30009 5f617364705f7601010500005045455230303039746d6c6e000000180000000000063da80000000\
000001770000000000000000073657373000000085045455230303039737473740000001100000000000000000000000000000000006\
d657034000000067f0000017539\n",
            ),
            (
                13,
                b"rx 1116864 0 127.0.0.1:30008 5f617364705f7601030000005045455230303038\n",
            ),
            (14, b"app 1122621 1122621 t 392500 -1234567 1013647\n"),
        ],
    );
}

#[test]
fn a_load_has_one_node_of_one_gate(rt: HostRuntime) {
    let mut line = LineBuf::new();
    expect_head(
        &rt,
        &mut line,
        &LoadEvents::new(7).config(),
        1_000_000,
        &[
            b"replay 2\n",
            b"node LOADNODE 7 500000 1 1000000\n",
            b"group 0\n",
            b"quantum 4000000\n",
            b"gate 127.0.0.1:20808\n",
            b"to 127.0.0.1:20809\n",
        ],
    );
}
