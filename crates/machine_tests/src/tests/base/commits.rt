//! What a commit carries, and what is shown.

use super::states::state;
use super::{LONGEST, start, timeline};
use crate::tests::expect;
use client_state::{Commit, Own, State, shown};
use lk_base::{ClientStart, LIMIT, Timeline};
use std::process::Abort;

const A: Timeline = Timeline {
    mpb: 500_000,
    beat: 0,
    time: 0,
};

const B: Timeline = Timeline {
    mpb: 500_000,
    beat: 0,
    time: 1,
};

const C: Timeline = Timeline {
    mpb: 500_000,
    beat: 1,
    time: 0,
};

const D: Timeline = Timeline {
    mpb: 500_001,
    beat: 0,
    time: 1,
};

const HELD: ClientStart = ClientStart {
    playing: true,
    time: 4,
    stamp: 5,
};

const STAMPED: ClientStart = ClientStart {
    playing: true,
    time: 4,
    stamp: 100,
};

const STOPPED: ClientStart = ClientStart {
    playing: false,
    time: 4,
    stamp: 6,
};

const LATER: ClientStart = ClientStart {
    playing: true,
    time: 8,
    stamp: 5,
};

const STOPS: ClientStart = ClientStart {
    playing: false,
    time: 4,
    stamp: 100,
};

const MOVES: ClientStart = ClientStart {
    playing: true,
    time: 8,
    stamp: 100,
};

// The timeline, the start and the quantum of a state.
type Told = (Timeline, ClientStart, i64);

// The state captured, the one shown and the one edited, and what a commit at 100 carries.
const CARRIED: &[(
    Told,
    Told,
    Told,
    Option<Timeline>,
    Option<ClientStart>,
    Option<i64>,
)] = &[
    ((A, HELD, 4), (A, HELD, 4), (A, HELD, 4), None, None, None),
    (
        (A, HELD, 4),
        (B, HELD, 4),
        (B, STAMPED, 4),
        Some(B),
        None,
        None,
    ),
    (
        (A, HELD, 4),
        (B, STOPPED, 3),
        (A, HELD, 4),
        Some(A),
        Some(STAMPED),
        Some(4),
    ),
    (
        (B, STOPPED, 4),
        (A, HELD, 4),
        (A, HELD, 4),
        Some(A),
        Some(STAMPED),
        None,
    ),
    (
        (A, HELD, 4),
        (A, STAMPED, 4),
        (C, LATER, 3),
        Some(C),
        Some(MOVES),
        Some(3),
    ),
    (
        (C, HELD, 4),
        (C, HELD, 4),
        (B, STOPPED, 4),
        Some(B),
        Some(STOPS),
        None,
    ),
    (
        (B, LATER, 4),
        (C, HELD, 3),
        (D, LATER, 3),
        Some(D),
        Some(MOVES),
        Some(3),
    ),
    // The quantum alone differs: from the captured one, from the shown one, and from both.
    (
        (A, HELD, 4),
        (A, HELD, 3),
        (A, HELD, 3),
        None,
        None,
        Some(3),
    ),
    (
        (A, HELD, 3),
        (A, HELD, 4),
        (A, HELD, 3),
        None,
        None,
        Some(3),
    ),
    (
        (A, HELD, 4),
        (A, HELD, 4),
        (A, HELD, 3),
        None,
        None,
        Some(3),
    ),
    (
        (A, HELD, 4),
        (A, HELD, 3),
        (A, HELD, 0),
        None,
        None,
        Some(0),
    ),
];

// The timeline, the start and the quantum of a commit: whether each is there, and its numbers.
pub(super) type Parts = (
    Option<(i64, i64, i64)>,
    Option<(bool, i64, i64)>,
    Option<i64>,
);

const NEW: Option<(i64, i64, i64)> = Some((250_000, 3, 4));

const BEGUN: Option<(bool, i64, i64)> = Some((false, 1, 2));

const BAR: Option<i64> = Some(3_000_000);

// The number of one's own last commit and of those taken, its parts, and the timeline, the start and the quantum shown then.
const SHOWN: &[(u64, u64, Parts, (i64, i64, i64), (bool, i64, i64), i64)] = &[
    (1, 0, (NEW, None, None), (250_000, 3, 4), (true, -5, 6), 10),
    (
        1,
        0,
        (None, BEGUN, None),
        (500_000, 0, 0),
        (false, 1, 2),
        10,
    ),
    (
        1,
        0,
        (None, None, BAR),
        (500_000, 0, 0),
        (true, -5, 6),
        3_000_000,
    ),
    (
        2,
        1,
        (NEW, BEGUN, BAR),
        (250_000, 3, 4),
        (false, 1, 2),
        3_000_000,
    ),
    (2, 0, (None, None, None), (500_000, 0, 0), (true, -5, 6), 10),
    (1, 1, (NEW, BEGUN, BAR), (500_000, 0, 0), (true, -5, 6), 10),
    (1, 2, (NEW, BEGUN, BAR), (500_000, 0, 0), (true, -5, 6), 10),
    (
        u64::MAX,
        u64::MAX - 1,
        (NEW, None, Some(0)),
        (250_000, 3, 4),
        (true, -5, 6),
        0,
    ),
    (
        u64::MAX,
        u64::MAX,
        (NEW, None, BAR),
        (500_000, 0, 0),
        (true, -5, 6),
        10,
    ),
];

// The parts of a commit, when it was made, and whether it is tidy.
const TIDY: &[(Parts, i64, bool)] = &[
    ((None, None, None), 0, true),
    ((None, None, None), LIMIT, true),
    ((None, None, None), -LIMIT, true),
    ((None, None, None), LIMIT + 1, false),
    ((None, None, None), -LIMIT - 1, false),
    ((Some((60_060, LIMIT, -LIMIT)), None, None), 0, true),
    ((Some((3_000_000, -LIMIT, LIMIT)), None, None), 0, true),
    ((Some((60_059, 0, 0)), None, None), 0, false),
    ((Some((3_000_001, 0, 0)), None, None), 0, false),
    ((Some((500_000, LIMIT + 1, 0)), None, None), 0, false),
    ((Some((500_000, 0, -LIMIT - 1)), None, None), 0, false),
    ((None, Some((true, LIMIT, -LIMIT)), None), 0, true),
    ((None, Some((true, LIMIT + 1, 0)), None), 0, false),
    ((None, Some((false, 0, -LIMIT - 1)), None), 0, false),
    ((None, None, Some(0)), 0, true),
    ((None, None, Some(LONGEST)), 0, true),
    ((None, None, Some(-1)), 0, false),
    ((None, None, Some(LONGEST + 1)), 0, false),
];

// The commit of these parts, made then.
pub(super) fn commit_of((tl, begins, quantum): Parts, at: i64) -> Commit {
    Commit {
        timeline: tl.map(|(mpb, beat, time)| timeline(mpb, beat, time)),
        start: begins.map(|(playing, time, stamp)| start(playing, time, stamp)),
        quantum,
        at,
    }
}

fn state_of(told: &Told) -> State {
    let mut held = state(told.0, 1);
    held.start = told.1;
    held.quantum = told.2;
    held
}

fn expect_carried(rt: &impl Abort, old: &Told, seen: &Told, new: &Told, wanted: &Commit) {
    let commit = Commit::between(&state_of(old), &state_of(seen), &state_of(new), 100);
    expect(rt, new, &commit, wanted);
}

// What is shown of a state with the last commit laid over it, or with none.
fn expect_shown(
    rt: &impl Abort,
    last: Option<(u64, Commit)>,
    taken: u64,
    tl: (i64, i64, i64),
    begins: (bool, i64, i64),
    quantum: i64,
) {
    let old = state(A, 1);
    let mut wanted = old;
    wanted.timeline = timeline(tl.0, tl.1, tl.2);
    wanted.start = start(begins.0, begins.1, begins.2);
    wanted.quantum = quantum;
    expect(rt, &taken, &shown(&Own { last }, taken, &old), &wanted);
}

// rule: played_of, commit_between
#[test]
fn a_commit_carries_what_differs_from_the_captured_or_the_shown_state(rt: HostRuntime) {
    for (old, seen, new, timeline, start, quantum) in CARRIED {
        let wanted = Commit {
            timeline: *timeline,
            start: *start,
            quantum: *quantum,
            at: 100,
        };
        expect_carried(&rt, old, seen, new, &wanted);
    }
}

// rule: shown_over
#[test]
fn an_own_commit_shows_until_it_is_taken(rt: HostRuntime) {
    for &(number, taken, parts, tl, begins, quantum) in SHOWN {
        let last = Some((number, commit_of(parts, 9)));
        expect_shown(&rt, last, taken, tl, begins, quantum);
    }
    expect_shown(&rt, None, 0, (500_000, 0, 0), (true, -5, 6), 10);
}

// rule: IsTidy
#[test]
fn a_commit_is_tidy_where_each_of_its_numbers_is_in_range(rt: HostRuntime) {
    for &(parts, at, tidy) in TIDY {
        let commit = commit_of(parts, at);
        expect(&rt, &commit, &commit.is_tidy(), &tidy);
    }
}
