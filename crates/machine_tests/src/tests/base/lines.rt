//! Beats, times, phases and encoded beats, by exact fractions.

ghost use Rattle.std.specs.Prelude.{◌^◌, ◌+◌};
ghost use Rattle.lk_base.specs.Ranges.{IsWithin};

use super::{LONGEST, a_place, a_quantum, a_timeline};
use crate::tests::expect;
use lk_base::{LIMIT, Timeline};
use std::process::Abort;
use timeline_math::{
    beat_at, closest_match, encoded_beat, encoded_time, next_match, phase, tidy, time_at,
};

// A tempo and both origins, and what they become.
const TIDIED: &[[i64; 6]] = &[
    [60_059, LIMIT + 1, -LIMIT - 1, 60_060, LIMIT, -LIMIT],
    [60_060, LIMIT, -LIMIT, 60_060, LIMIT, -LIMIT],
    [3_000_000, -LIMIT, LIMIT, 3_000_000, -LIMIT, LIMIT],
    [3_000_001, -LIMIT - 1, LIMIT + 1, 3_000_000, -LIMIT, LIMIT],
    [i64::MIN, i64::MIN, i64::MAX, 60_060, -LIMIT, LIMIT],
    [i64::MAX, 1, -1, 3_000_000, 1, -1],
];

// A timeline, a time, and the beat there.
const BEATS: &[[i64; 5]] = &[
    [2_000_000, 0, 0, 1, 1],
    [2_000_000, 0, 0, -1, -1],
    [60_060, 0, 0, 1, 17],
    [60_060, 0, 0, -1, -17],
    [500_000, LIMIT, 0, 1, LIMIT],
    [500_000, -LIMIT, 0, -1, -LIMIT],
    [3_000_000, 0, 0, 1, 0],
    [3_000_000, 0, 0, 2, 1],
    [3_000_000, 0, 0, -2, -1],
    [2_000_000, 0, 0, 3, 2],
    [2_000_000, 0, 0, -3, -2],
    [500_000, 7, -3, -10, -7],
    [60_060, 0, LIMIT, -LIMIT, -LIMIT],
    [60_060, 0, -LIMIT, LIMIT, LIMIT],
    [3_000_000, -LIMIT, LIMIT, -LIMIT, -LIMIT],
    [500_000, 1_000_000, 0, LIMIT, LIMIT],
    [500_000, -1, 0, -LIMIT, -LIMIT],
    [3_000_000, 0, -LIMIT, LIMIT, 768_614_336_404_564_651],
    [500_000, 0, 0, -LIMIT, -LIMIT],
];

// A timeline, a beat, and its time.
const TIMES: &[[i64; 5]] = &[
    [500_000, 0, 0, 1, 1],
    [500_000, 0, 0, -1, -1],
    [60_060, 0, 0, 8, 0],
    [60_060, 0, 0, 9, 1],
    [60_060, 0, 0, -9, -1],
    [3_000_000, 0, 0, 1, 3],
    [3_000_000, 0, 0, -1, -3],
    [500_000, 0, LIMIT, 1, LIMIT],
    [500_000, 0, LIMIT, -1_000_000, LIMIT - 500_000],
    [3_000_000, LIMIT, -LIMIT, -LIMIT, -LIMIT],
    [3_000_000, -LIMIT, LIMIT, LIMIT, LIMIT],
    [1_000_000, 5, -9, -4, -18],
    [60_060, LIMIT, 0, -LIMIT, -138_488_931_133_374_459],
    [2_500_000, 0, 0, 1, 3],
    [2_500_000, 0, 0, -1, -3],
];

// A beat, a target and a quantum; the beat's phase, its next match and its closest one.
const MATCHES: &[[i64; 6]] = &[
    [-1, 0, 4_000_000, 3_999_999, 0, 0],
    [
        5_000_000, 3_000_000, 4_000_000, 1_000_000, 7_000_000, 3_000_000,
    ],
    [5_000_000, 3_000_000, 0, 0, 5_000_000, 5_000_000],
    [10, 0, 3, 1, 12, 9],
    [8, 0, 3, 2, 9, 6],
    [-5, 0, 3, 1, -3, -6],
    [7, -7, 1, 0, 7, 6],
    [-7, -3, 4, 1, -7, -7],
    [6, 0, 4, 2, 8, 4],
    [5, 0, 4, 1, 8, 4],
    [
        LIMIT,
        -LIMIT,
        4_000_000,
        2_846_976,
        LIMIT + 2_306_048,
        LIMIT - 1_693_952,
    ],
    [
        -LIMIT,
        LIMIT,
        4_000_000,
        1_153_024,
        -LIMIT + 1_693_952,
        -LIMIT + 1_693_952,
    ],
    [LIMIT, 0, LONGEST, 0, LIMIT, LIMIT],
    [-LIMIT, 1, LONGEST, 0, -LIMIT + 1, -LIMIT + 1],
    [0, -1, LONGEST, 0, 1_099_511_627_775, -1],
    [2_000_000, 0, 4_000_000, 2_000_000, 4_000_000, 0],
    [1_999_999, 0, 4_000_000, 1_999_999, 4_000_000, 0],
    [-2_000_001, 0, 4_000_000, 1_999_999, 0, -4_000_000],
];

// A timeline, a time, a quantum, and the encoded beat there.
const ENCODED: &[[i64; 6]] = &[
    [500_000, 1_000_000, 0, 0, 4_000_000, 0],
    [500_000, 1_000_000, 0, 0, 0, 1_000_000],
    [500_000, 1_000_000, 0, 0, 1, 999_999],
    [500_000, 5, 0, 250_000, 3, 500_003],
    [500_000, -3_000_000, 0, 1_000_000, 4_000_000, -2_000_000],
    [500_000, LIMIT, 0, LIMIT, LONGEST, LIMIT],
    [500_000, -LIMIT, 0, -LIMIT, LONGEST, -LIMIT],
    [60_060, 123_456_789, -77, 1_000_000, 3_000_001, 139_651_340],
    [2_000_000, 2_500_000, 3, -2, 4_000_000, 3_999_997],
];

// A timeline, an encoded beat, a quantum, and its time.
const DECODED: &[[i64; 6]] = &[
    [500_000, 1_000_000, 0, 0, 4_000_000, 0],
    [500_000, 1_000_000, 0, 1_000_000, 0, 0],
    [500_000, 1_000_000, 0, 3_000_000, 4_000_000, 1_500_000],
    [500_000, 5, 0, 500_006, 3, 250_002],
    [500_000, LIMIT, 0, LIMIT + 2 * LONGEST, LONGEST, 0],
    [500_000, -LIMIT, 0, -LIMIT - 2 * LONGEST, LONGEST, 0],
    [3_000_000, 0, LIMIT, 5_000_001, 4_000_000, LIMIT],
    [60_060, -7, 0, -1_000_000, 4, -60_060],
    [2_000_000, 2_500_000, 3, 1, 1, -4_999_993],
];

fn expect_tidied(rt: &impl Abort, row: &[i64; 6]) {
    let [mpb, beat, time, want_mpb, want_beat, want_time] = *row;
    let given = Timeline { mpb, beat, time };
    let wanted = Timeline {
        mpb: want_mpb,
        beat: want_beat,
        time: want_time,
    };
    expect(rt, row, &tidy(&given), &wanted);
}

fn expect_beat(rt: &impl Abort, row: &[i64; 5]) {
    let [mpb, beat, time, at, want] = *row;
    let tl = a_timeline(rt, mpb, beat, time);
    expect(rt, row, &beat_at(&tl, a_place(rt, at)), &want);
}

fn expect_time(rt: &impl Abort, row: &[i64; 5]) {
    let [mpb, beat, time, at, want] = *row;
    let tl = a_timeline(rt, mpb, beat, time);
    expect(rt, row, &time_at(&tl, a_place(rt, at)), &want);
}

fn expect_matches(rt: &impl Abort, row: &[i64; 6]) {
    let [beat, target, quantum, past, next, closest] = *row;
    let beat = a_place(rt, beat);
    let target = a_place(rt, target);
    let quantum = a_quantum(rt, quantum);
    expect(rt, row, &phase(beat, quantum), &past);
    expect(rt, row, &next_match(beat, target, quantum), &next);
    expect(rt, row, &closest_match(beat, target, quantum), &closest);
}

fn expect_encoded(rt: &impl Abort, row: &[i64; 6]) {
    let [mpb, beat, time, at, quantum, want] = *row;
    let tl = a_timeline(rt, mpb, beat, time);
    let quantum = a_quantum(rt, quantum);
    expect(rt, row, &encoded_beat(&tl, a_place(rt, at), quantum), &want);
}

// The same number, which has to be a beat that may be encoded.
fn an_encoded(rt: &impl Abort, number: i64) -> i64
    ensures { IsWithin (2 ^ 60 + 2 ^ 41) result }
{
    assert!(rt; -LIMIT - 2 * LONGEST <= number && number <= LIMIT + 2 * LONGEST);
    number
}

fn expect_decoded(rt: &impl Abort, row: &[i64; 6]) {
    let [mpb, beat, time, encoded, quantum, want] = *row;
    let tl = a_timeline(rt, mpb, beat, time);
    let quantum = a_quantum(rt, quantum);
    expect(
        rt,
        row,
        &encoded_time(&tl, an_encoded(rt, encoded), quantum),
        &want,
    );
}

// rule: clamped_of
#[test]
fn numbers_outside_their_ranges_are_brought_to_the_nearest_end(rt: HostRuntime) {
    for row in TIDIED {
        expect_tidied(&rt, row);
    }
}

// rule: beat_at
#[test]
fn beats_stand_where_exact_fractions_put_them(rt: HostRuntime) {
    for row in BEATS {
        expect_beat(&rt, row);
    }
}

// rule: time_at
#[test]
fn times_stand_where_exact_fractions_put_them(rt: HostRuntime) {
    for row in TIMES {
        expect_time(&rt, row);
    }
}

// rule: phase_of, next_match_of, closest_match_of
#[test]
fn phases_and_matches_are_counted_from_the_multiples_below(rt: HostRuntime) {
    for row in MATCHES {
        expect_matches(&rt, row);
    }
}

// rule: encoded_beat
#[test]
fn an_encoded_beat_has_the_phase_of_its_place_past_the_origin(rt: HostRuntime) {
    for row in ENCODED {
        expect_encoded(&rt, row);
    }
}

#[test]
fn an_encoded_beat_has_the_time_of_its_place_past_the_origin(rt: HostRuntime) {
    for row in DECODED {
        expect_decoded(&rt, row);
    }
}
