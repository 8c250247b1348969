//! Rows of words, read and written.

use super::commits::{Parts, commit_of};
use super::{LONGEST, timeline};
use crate::tests::expect;
use client_state::{Commit, State};
use lk_base::{ClientStart, LIMIT, NodeId};
use std::process::Abort;

// The words of -1, of -7, of 2^60 and of -2^60.
const MINUS_ONE: u64 = 18_446_744_073_709_551_615;

const MINUS_SEVEN: u64 = 18_446_744_073_709_551_609;

const TOP: u64 = 1_152_921_504_606_846_976;

const BOTTOM: u64 = 17_293_822_569_102_704_640;

// The words of 2^40 and of what is one more.
const LONGEST_WORD: u64 = 1_099_511_627_776;

const TOO_LONG: u64 = LONGEST_WORD + 1;

// The words of a state, its timeline, its start, its other numbers, its session and its quantum, and whether it gives the same words.
const STATES: &[(
    [u64; 11],
    (i64, i64, i64),
    (bool, i64, i64),
    bool,
    u32,
    i64,
    ([u8; 8], i64),
    bool,
)] = &[
    (
        [
            500_000,
            0,
            0,
            5,
            MINUS_SEVEN,
            15,
            9,
            1,
            2,
            0x4142_4344_4546_4748,
            4_000_000,
        ],
        (500_000, 0, 0),
        (true, 5, -7),
        true,
        3,
        9,
        (*b"ABCDEFGH", 4_000_000),
        true,
    ),
    (
        [
            60_060,
            TOP,
            BOTTOM,
            TOP,
            BOTTOM,
            17_179_869_182,
            BOTTOM,
            MINUS_ONE,
            0,
            MINUS_ONE,
            LONGEST_WORD,
        ],
        (60_060, LIMIT, -LIMIT),
        (false, LIMIT, -LIMIT),
        true,
        4_294_967_295,
        -LIMIT,
        ([255; 8], LONGEST),
        true,
    ),
    (
        [
            3_000_000,
            BOTTOM,
            TOP,
            BOTTOM,
            TOP,
            17_179_869_181,
            TOP,
            0,
            MINUS_ONE,
            0,
            0,
        ],
        (3_000_000, -LIMIT, LIMIT),
        (true, -LIMIT, LIMIT),
        false,
        4_294_967_295,
        LIMIT,
        ([0; 8], 0),
        true,
    ),
    (
        [
            1_000_000,
            MINUS_ONE,
            MINUS_SEVEN,
            MINUS_ONE,
            0,
            4,
            MINUS_ONE,
            7,
            7,
            0x0102_0304_0506_0708,
            1,
        ],
        (1_000_000, -1, -7),
        (false, -1, 0),
        false,
        1,
        -1,
        ([1, 2, 3, 4, 5, 6, 7, 8], 1),
        true,
    ),
    (
        [
            0,
            TOP + 1,
            BOTTOM - 1,
            TOP + 1,
            BOTTOM - 1,
            MINUS_ONE,
            TOP + 1,
            3,
            4,
            1,
            MINUS_SEVEN,
        ],
        (60_060, LIMIT, -LIMIT),
        (true, LIMIT, -LIMIT),
        true,
        4_294_967_295,
        LIMIT,
        ([0, 0, 0, 0, 0, 0, 0, 1], 0),
        false,
    ),
    (
        [
            MINUS_ONE,
            1 << 63,
            MINUS_ONE / 2,
            1 << 63,
            MINUS_ONE / 2,
            1 << 34,
            1 << 63,
            0,
            0,
            1 << 63,
            MINUS_ONE / 2,
        ],
        (60_060, -LIMIT, LIMIT),
        (false, -LIMIT, LIMIT),
        false,
        0,
        -LIMIT,
        ([128, 0, 0, 0, 0, 0, 0, 0], LONGEST),
        false,
    ),
    (
        [3_000_001, 1, 2, 3, 4, 17_179_869_189, 5, 0, 0, 0, 6],
        (3_000_000, 1, 2),
        (true, 3, 4),
        false,
        1,
        5,
        ([0; 8], 6),
        false,
    ),
    (
        [60_059, 1, 2, 3, 4, 9_223_372_036_854_775_810, 5, 0, 0, 0, 6],
        (60_060, 1, 2),
        (false, 3, 4),
        true,
        0,
        5,
        ([0; 8], 6),
        false,
    ),
    // A quantum alone is out of range.
    (
        [500_000, 1, 2, 3, 4, 0, 5, 0, 0, 0, TOO_LONG],
        (500_000, 1, 2),
        (false, 3, 4),
        false,
        0,
        5,
        ([0; 8], LONGEST),
        false,
    ),
    (
        [500_000, 1, 2, 3, 4, 0, 5, 0, 0, 0, MINUS_ONE],
        (500_000, 1, 2),
        (false, 3, 4),
        false,
        0,
        5,
        ([0; 8], 0),
        false,
    ),
];

// The words of a commit, its parts, when it was made, and whether it gives the same words.
const COMMITS: &[([u64; 11], Parts, i64, bool)] = &[
    (
        [0, 0, 0, 0, 0, 0, 9, 0, 0, 0, 0],
        (None, None, None),
        9,
        true,
    ),
    (
        [1, 500_000, 0, MINUS_SEVEN, 0, 0, MINUS_ONE, 0, 0, 0, 0],
        (Some((500_000, 0, -7)), None, None),
        -1,
        true,
    ),
    (
        [2, 0, 0, 0, MINUS_ONE, 3, TOP, 0, 0, 0, 0],
        (None, Some((false, -1, 3)), None),
        LIMIT,
        true,
    ),
    (
        [6, 0, 0, 0, TOP, BOTTOM, BOTTOM, 0, 0, 0, 0],
        (None, Some((true, LIMIT, -LIMIT)), None),
        -LIMIT,
        true,
    ),
    (
        [8, 0, 0, 0, 0, 0, 9, 0, 0, 0, LONGEST_WORD],
        (None, None, Some(LONGEST)),
        9,
        true,
    ),
    (
        [8, 0, 0, 0, 0, 0, 9, 0, 0, 0, 0],
        (None, None, Some(0)),
        9,
        true,
    ),
    (
        [15, 60_060, TOP, BOTTOM, 1, 2, 3, 0, 0, 0, 3_000_000],
        (
            Some((60_060, LIMIT, -LIMIT)),
            Some((true, 1, 2)),
            Some(3_000_000),
        ),
        3,
        true,
    ),
    (
        [3, 3_000_000, 1, 2, 3, 4, 5, 0, 0, 0, 0],
        (Some((3_000_000, 1, 2)), Some((false, 3, 4)), None),
        5,
        true,
    ),
    (
        [4, 1, 2, 3, 4, 5, 6, 7, 8, 9, 10],
        (None, None, None),
        6,
        false,
    ),
    (
        [16, 1, 2, 3, 4, 5, 6, 7, 8, 9, 10],
        (None, None, None),
        6,
        false,
    ),
    (
        [8, 1, 2, 3, 4, 5, 6, 7, 8, 9, TOO_LONG],
        (None, None, Some(LONGEST)),
        6,
        false,
    ),
    (
        [5, 1, TOP + 1, 3, 4, 5, 6, 7, 8, 9, 10],
        (Some((60_060, LIMIT, 3)), None, None),
        6,
        false,
    ),
    (
        [
            MINUS_ONE,
            MINUS_ONE,
            BOTTOM - 1,
            1 << 63,
            1 << 63,
            MINUS_ONE / 2,
            TOP + 1,
            7,
            8,
            9,
            MINUS_ONE,
        ],
        (
            Some((60_060, -LIMIT, -LIMIT)),
            Some((true, -LIMIT, LIMIT)),
            Some(0),
        ),
        LIMIT,
        false,
    ),
];

// Reads the state of these words, and whether it gives the same words.
fn expect_state(rt: &impl Abort, words: &[u64; 11], wanted: &State, stored: bool) {
    let found = State::from_row(words);
    expect(rt, words, &found, wanted);
    let row = found.row();
    expect(rt, words, &(row == *words), &stored);
    expect(rt, words, &State::from_row(&row), wanted);
}

// Reads the commit of these words, and whether it gives the same words.
fn expect_commit(rt: &impl Abort, words: &[u64; 11], wanted: &Commit, stored: bool) {
    let found = Commit::from_row(words);
    expect(rt, words, &found, wanted);
    expect(rt, words, &found.is_tidy(), &true);
    let row = found.row();
    expect(rt, words, &(row == *words), &stored);
    expect(rt, words, &Commit::from_row(&row), wanted);
}

// rule: words_of_state, state_of_words
#[test]
fn a_state_is_read_from_its_words_and_numbers_out_of_range_are_brought_in(rt: HostRuntime) {
    for &(words, line, (playing, from, stamp), sync, peers, moment, profile, stored) in STATES {
        let wanted = State {
            timeline: timeline(line.0, line.1, line.2),
            start: ClientStart {
                playing,
                time: from,
                stamp,
            },
            sync,
            peers,
            moment,
            app: words[7],
            audio: words[8],
            session: NodeId(profile.0),
            quantum: profile.1,
        };
        expect_state(&rt, &words, &wanted, stored);
    }
}

// rule: words_of_commit, state_of_words
#[test]
fn a_commit_is_read_from_its_words_and_what_has_no_flag_is_passed_over(rt: HostRuntime) {
    for &(words, parts, at, stored) in COMMITS {
        expect_commit(&rt, &words, &commit_of(parts, at), stored);
    }
}
