//! Timelines on their way from a client to a session, by exact fractions.

use super::{a_place, a_timeline, timeline};
use crate::tests::expect;
use client_state::{OriginSpent, session_from_client};
use ghost_xform::XForm;
use lk_base::LIMIT;
use std::process::Abort;

// The session's timeline, the client's, when it was edited, the offset, and what that gives the session. An mpb of 0 stands for a
// spent origin.
const GIVEN: &[[i64; 11]] = &[
    [
        500_000, 0, 0, 250_000, 0, 500_000, 1_000_000, 0, 250_000, 2_000_000, 1_000_000,
    ],
    [
        500_000, 0, 0, 250_000, 2_000_000, 1_000_000, 1_000_000, 0, 250_000, 2_000_000, 1_500_000,
    ],
    [
        500_000, LIMIT, 0, 250_000, 0, 500_000, 1_000_000, 0, 0, 0, 0,
    ],
    [
        250_000, 2_000_000, 1_000_000, 500_000, 0, 0, 1_000_000, 0, 500_000, 2_000_001, 1_000_001,
    ],
    [500_000, 0, 0, 500_000, 0, 0, 1_000_000, 0, 500_000, 0, 0],
    [
        500_000, 0, 0, 500_000, 0, 0, 1_000_000, 1, 500_000, 2_000_002, 1_000_002,
    ],
    [500_000, LIMIT, 0, 500_000, 0, LIMIT, 1_000_000, 0, 0, 0, 0],
    [
        500_000, LIMIT, LIMIT, 500_000, 3, -LIMIT, 1_000_000, 0, 0, 0, 0,
    ],
    [
        500_000,
        LIMIT,
        LIMIT,
        500_000,
        3,
        -LIMIT + 1,
        1_000_000,
        -1,
        0,
        0,
        0,
    ],
    [
        500_000, 7_000_000, 0, 500_000, 0, -3_500_000, 5, 0, 500_000, 7_000_000, 0,
    ],
    [
        500_000, 7_000_000, 0, 500_000, 0, -3_499_999, 5, 0, 500_000, 7_000_010, 6,
    ],
    [
        500_000, 7_000_000, 0, 500_001, 0, -3_500_000, 5, 0, 500_001, 7_000_010, 12,
    ],
    [
        3_000_000,
        -LIMIT,
        LIMIT,
        60_060,
        LIMIT,
        -LIMIT,
        LIMIT,
        LIMIT,
        60_060,
        -LIMIT + 1,
        -69_244_465_566_687_229,
    ],
    [
        60_060,
        LIMIT - 1,
        -LIMIT,
        3_000_000,
        0,
        LIMIT,
        -LIMIT,
        -LIMIT,
        3_000_000,
        LIMIT,
        LIMIT,
    ],
    [
        500_000,
        0,
        0,
        500_000,
        0,
        1,
        -1_000_000_000,
        0,
        500_000,
        1,
        2,
    ],
    [
        500_000, 16_000_000, 0, 500_000, 0, 1_000_000, 2_000_000, -9_000_000, 500_000, 16_000_000,
        0,
    ],
    [
        500_000,
        LIMIT - 1,
        0,
        500_000,
        5,
        0,
        0,
        7,
        500_000,
        LIMIT,
        576_460_752_303_423_495,
    ],
    [60_060, 0, 0, 60_060, 0, 1, 0, i64::MIN, 60_060, 1, -LIMIT],
    [
        500_000,
        0,
        0,
        500_000,
        0,
        0,
        0,
        i64::MAX,
        500_000,
        LIMIT,
        LIMIT,
    ],
];

fn expect_given(rt: &impl Abort, row: &[i64; 11]) {
    let [
        mpb,
        beat,
        time,
        by_mpb,
        by_beat,
        by_time,
        at,
        offset,
        want_mpb,
        want_beat,
        want_time,
    ] = *row;
    let session = a_timeline(rt, mpb, beat, time);
    let client = a_timeline(rt, by_mpb, by_beat, by_time);
    let given = session_from_client(&session, &client, a_place(rt, at), XForm { offset });
    let wanted = if want_mpb == 0 {
        Err(OriginSpent)
    } else {
        Ok(timeline(want_mpb, want_beat, want_time))
    };
    expect(rt, row, &given, &wanted);
}

// rule: renewed_of, session_from_client_of
#[test]
fn an_edited_timeline_wins_over_the_session_unless_its_origin_is_spent(rt: HostRuntime) {
    for row in GIVEN {
        expect_given(&rt, row);
    }
}
