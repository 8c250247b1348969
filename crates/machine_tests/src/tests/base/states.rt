//! Edits of a state, and its clicks, by exact fractions.

ghost use Rattle.std.specs.Prelude.{◌≡◌};
ghost use Rattle.lk_base.specs.Ranges.{IsQuantum, IsWithinLimit};
ghost use Rattle.lk_base.specs.Timeline.{IsTidy};

use super::clicks::{a_block, expect_found};
use super::{LONGEST, a_place, a_quantum, a_timeline, start, timeline};
use crate::tests::expect;
use client_state::State;
use lk_base::{LIMIT, NodeId, Timeline};
use std::process::Abort;

// A timeline, the tempo that is set and when, and the timeline afterwards.
const TEMPI: &[[i64; 8]] = &[
    [500_000, 0, 0, 250_000, 1_000_000, 250_000, 0, 500_000],
    [500_000, 0, 0, 60_060, 1_000_000, 60_060, 0, 879_880],
    [500_000, 0, 0, 60_059, 1_000_000, 60_060, 0, 879_880],
    [500_000, 0, 0, i64::MIN, 1_000_000, 60_060, 0, 879_880],
    [
        500_000, 0, 0, 3_000_000, 1_000_000, 3_000_000, 0, -5_000_000,
    ],
    [
        500_000, 0, 0, 3_000_001, 1_000_000, 3_000_000, 0, -5_000_000,
    ],
    [500_000, 0, 0, i64::MAX, -1_000_000, 3_000_000, 0, 5_000_000],
    [
        500_000, 7_000_001, -3, 333_333, -2_500_000, 333_333, 7_000_001, -833_337,
    ],
    [60_060, 0, 0, 3_000_000, -1, 3_000_000, 0, 50],
    [500_000, LIMIT, LIMIT, 250_000, LIMIT, 250_000, LIMIT, LIMIT],
    [
        500_000, -LIMIT, -LIMIT, 3_000_000, LIMIT, 3_000_000, -LIMIT, -LIMIT,
    ],
    [
        500_000, -LIMIT, LIMIT, 60_060, -LIMIT, 60_060, -LIMIT, -LIMIT,
    ],
    [3_000_000, LIMIT, 0, 60_060, LIMIT, 60_060, LIMIT, LIMIT],
    [3_000_000, 5, 1, 3_000_000, 2, 3_000_000, 5, 2],
    [500_000, 0, 0, 500_000, 123_457, 500_000, 0, 0],
    [
        60_060,
        1,
        0,
        60_061,
        1_000_000_000_000_000,
        60_061,
        1,
        -16_650_016_650,
    ],
];

// A timeline; the beat, the time and the quantum that are forced or requested; the origins afterwards, and those after a request with
// peers.
const FORCED: &[[i64; 10]] = &[
    [
        500_000, 0, 0, 4_000_000, 0, 4_000_000, 4_000_000, 0, 4_000_000, 0,
    ],
    [500_000, 0, 0, 1_000_000, 0, 4_000_000, 0, -500_000, 0, 0],
    [
        500_000, 0, 0, 2_000_000, 0, 4_000_000, 4_000_000, 1_000_000, 0, 0,
    ],
    [
        500_000, 0, 0, 3_000_000, 0, 4_000_000, 4_000_000, 500_000, 0, 0,
    ],
    [
        500_000, 3_000_000, 250, 1_000_000, -777_777, 4_000_000, 3_000_000, 722_223, -1_000_000,
        250,
    ],
    [500_000, 0, 0, 1_000_000, 0, 0, 1_000_000, 0, 1_000_000, 0],
    [
        500_000, 7, 9, -5, 1_000_001, 0, -1_999_989, 9, -1_999_989, 9,
    ],
    [500_000, 0, 0, 1, 3, 1, -3, 1, -3, 1],
    [
        60_060,
        123_456_789,
        -77,
        5_000_001,
        1_000_000,
        3_000_001,
        -11_543_256,
        -21_021,
        -11_543_256,
        -78,
    ],
    [
        60_060,
        0,
        0,
        LIMIT,
        0,
        1_099_511_627_776,
        LIMIT,
        0,
        LIMIT,
        0,
    ],
    [
        3_000_000,
        -LIMIT,
        LIMIT,
        -LIMIT,
        -LIMIT,
        1_099_511_627_776,
        -LIMIT,
        LIMIT,
        -LIMIT,
        LIMIT,
    ],
    [500_000, LIMIT, 0, 1, 0, 1_099_511_627_776, 0, 0, 0, 0],
    [
        500_000,
        LIMIT,
        LIMIT,
        -LIMIT,
        LIMIT,
        4_000_000,
        -LIMIT,
        LIMIT - 576_512,
        -LIMIT + 1_693_952,
        LIMIT,
    ],
    [
        500_000, -LIMIT, -LIMIT, LIMIT, -LIMIT, 0, LIMIT, -LIMIT, LIMIT, -LIMIT,
    ],
    [
        3_000_000,
        -7,
        5,
        1_500_000,
        -1_000_000_000_000,
        4_000_000,
        333_335_999_993,
        3_500_000,
        333_331_999_993,
        5,
    ],
    [
        2_000_000, 2_500_000, 3, 0, -2, 4_000_000, -1_500_000, -3, -1_500_000, 3,
    ],
    [60_060, 0, 0, 2_000_000, 30_030, 4_000_000, 0, -90_090, 0, 0],
];

// Whether a state plays, since when, its quantum, and its clicks in its first second.
const CLICKED: &[(bool, i64, i64, &[(i64, bool)])] = &[
    (false, 0, 4_000_000, &[]),
    (true, i64::MIN, 4_000_000, &[(0, true), (500_000, false)]),
    (true, 0, 4_000_000, &[(0, true), (500_000, false)]),
    (true, 1, 4_000_000, &[(500_000, false)]),
    (true, 500_000, 4_000_000, &[(500_000, false)]),
    (true, 500_001, 4_000_000, &[]),
    (true, 1_000_000, 4_000_000, &[]),
    (true, i64::MAX, 4_000_000, &[]),
    // The beat at 500,000 has the phase 1,000,000, then 0, and 0 where there is no quantum.
    (true, 0, 1_500_000, &[(0, true), (500_000, false)]),
    (true, 0, 1_000_000, &[(0, true), (500_000, true)]),
    (true, 0, 0, &[(0, true), (500_000, true)]),
];

// A quantum that is set, and the one that a state has then.
const QUANTA: &[(i64, i64)] = &[
    (0, 0),
    (1, 1),
    (4_000_000, 4_000_000),
    (LONGEST, LONGEST),
    (LONGEST + 1, LONGEST),
    (i64::MAX, LONGEST),
    (-1, 0),
    (i64::MIN, 0),
];

// A state of this timeline, with numbers of its own everywhere else.
pub(super) fn state(tl: Timeline, peers: u32) -> State
    ensures { result.timeline ≡ tl }
{
    State {
        timeline: tl,
        start: start(true, -5, 6),
        sync: false,
        peers,
        moment: 7,
        app: 8,
        audio: 9,
        session: NodeId(*b"ABCDEFGH"),
        quantum: 10,
    }
}

// Sets the tempo, and expects this timeline and all else as it was.
fn expect_tempo(rt: &impl Abort, row: &[i64; 8]) {
    let [mpb, beat, time, set, at, want_mpb, want_beat, want_time] = *row;
    let found = tempo_set(a_timeline(rt, mpb, beat, time), set, a_place(rt, at));
    let wanted = timeline(want_mpb, want_beat, want_time);
    expect(rt, row, &found, &state(wanted, 2));
}

fn tempo_set(tl: Timeline, set: i64, at: i64) -> State
    requires tl { IsTidy tl }
    requires at { IsWithinLimit at }
{
    let mut now = state(tl, 2);
    now.set_tempo(set, at);
    now
}

// Forces the beat, with a peer, and expects all but the timeline as it was.
fn expect_forced(rt: &impl Abort, row: &[i64; 10]) {
    let [
        mpb,
        beat,
        time,
        asked,
        at,
        quantum,
        want_beat,
        want_time,
        ..
    ] = *row;
    let tl = a_timeline(rt, mpb, beat, time);
    let found = forced(
        tl,
        a_place(rt, asked),
        a_place(rt, at),
        a_quantum(rt, quantum),
    );
    expect(
        rt,
        row,
        &found,
        &state(timeline(mpb, want_beat, want_time), 1),
    );
}

fn forced(tl: Timeline, beat: i64, at: i64, quantum: i64) -> State
    requires tl { IsTidy tl }
    requires beat { IsWithinLimit beat }
    requires at { IsWithinLimit at }
    requires quantum { IsQuantum quantum }
{
    let mut now = state(tl, 1);
    now.force_beat(beat, at, quantum);
    now
}

// Requests the beat with so many peers, and expects these origins and all else as it was.
fn expect_requested(rt: &impl Abort, row: &[i64; 10], peers: u32, want_beat: i64, want_time: i64) {
    let [mpb, beat, time, asked, at, quantum, ..] = *row;
    let tl = a_timeline(rt, mpb, beat, time);
    let found = requested(
        tl,
        peers,
        a_place(rt, asked),
        a_place(rt, at),
        a_quantum(rt, quantum),
    );
    expect(
        rt,
        row,
        &found,
        &state(timeline(mpb, want_beat, want_time), peers),
    );
}

fn requested(tl: Timeline, peers: u32, beat: i64, at: i64, quantum: i64) -> State
    requires tl { IsTidy tl }
    requires beat { IsWithinLimit beat }
    requires at { IsWithinLimit at }
    requires quantum { IsQuantum quantum }
{
    let mut now = state(tl, peers);
    now.request_beat(beat, at, quantum);
    now
}

// The clicks of the first second of a state that plays from that time on, or doesn't play.
fn expect_clicks(rt: &impl Abort, playing: bool, from: i64, quantum: i64, wanted: &[(i64, bool)]) {
    let mut state = state(a_timeline(rt, 500_000, 0, 0), 0);
    state.quantum = a_quantum(rt, quantum);
    state.set_playing(playing, from);
    let block = a_block(rt, 0, 1_000_000);
    expect_found(rt, from, &state.clicks(block), wanted);
}

// Sets the quantum, and expects this one and all else as it was.
fn expect_quantum(rt: &impl Abort, set: i64, wanted: i64) {
    let mut now = state(timeline(500_000, 0, 0), 0);
    let mut then = now;
    now.set_quantum(set);
    then.quantum = wanted;
    expect(rt, &set, &now, &then);
}

// rule: tempo_set_of
#[test]
fn a_tempo_is_clamped_and_keeps_the_beat_at_its_time(rt: HostRuntime) {
    for row in TEMPI {
        expect_tempo(&rt, row);
    }
}

// rule: forced_of, IsUnclippedForce, requested_of
#[test]
fn a_beat_is_forced_at_its_time_and_requested_with_peers_at_the_next_match(rt: HostRuntime) {
    for row in FORCED {
        expect_forced(&rt, row);
        expect_requested(&rt, row, 0, row[6], row[7]);
        expect_requested(&rt, row, 1, row[8], row[9]);
    }
}

// rule: played_of, clicks_in
#[test]
fn a_state_clicks_while_it_plays_from_its_start_on(rt: HostRuntime) {
    for &(playing, from, quantum, wanted) in CLICKED {
        expect_clicks(&rt, playing, from, quantum, wanted);
    }
}

// rule: quantum_set_of
#[test]
fn a_quantum_is_taken_to_the_nearest_of_its_range(rt: HostRuntime) {
    for &(set, wanted) in QUANTA {
        expect_quantum(&rt, set, wanted);
    }
}
