//! An audio device and a pace in memory.

ghost use Rattle.std.specs.Prelude.{All, IfOk};
ghost use Rattle.lk_base.specs.Ranges.{IsMoment};
ghost use Rattle.lk_outside.specs.Audio.{IsBlock};

use super::super::clicks::expect_found;
use crate::tests::expect;
use lk_base::{Block, Click, Clicks};
use lk_outside::Played::Done;
use lk_outside::{Audio, ListAudio, ListPace, NEXT, Next, PLAY, Pace, Played};
use std::alloc::{AllocError, Global};
use std::process::Abort;

const FIRST: Block = Block {
    start: 0,
    length: 1_000_000,
};

const SECOND: Block = Block {
    start: 1_000_000,
    length: 1,
};

const THIRD: Block = Block {
    start: 36_028_797_018_963_968,
    length: 500,
};

// What is done with a device, and what comes of it.
enum Step {
    Next(Next),
    // Plays one click at this moment.
    Play(i64, Played),
    // The blocks given, and those left.
    Blocks(&'static [Block], &'static [Block]),
    // The plays, of one click each.
    Plays(&'static [i64]),
    // How many blocks were given, clicks played and calls failed.
    Counts(usize, usize, u64),
}

const ONE: Step = Step::Next(Next::Block(FIRST));

const TWO: Step = Step::Next(Next::Block(SECOND));

const THREE: Step = Step::Next(Next::Block(THIRD));

const FAILS: Step = Step::Next(Next::Failed);

const CLOSED: Step = Step::Next(Next::Closed);

// After three calls of which one failed.
const TWO_OF_THREE: Step = Step::Blocks(&[FIRST, SECOND], &[THIRD]);

// The call that fails.
const ASKS: &[(u64, &[Step])] = &[
    (
        1,
        &[
            FAILS,
            ONE,
            TWO,
            TWO_OF_THREE,
            THREE,
            CLOSED,
            CLOSED,
            Step::Counts(3, 0, 1),
        ],
    ),
    (
        2,
        &[
            ONE,
            FAILS,
            TWO,
            TWO_OF_THREE,
            THREE,
            CLOSED,
            CLOSED,
            Step::Counts(3, 0, 1),
        ],
    ),
    (
        3,
        &[
            ONE,
            TWO,
            FAILS,
            TWO_OF_THREE,
            THREE,
            CLOSED,
            CLOSED,
            Step::Counts(3, 0, 1),
        ],
    ),
];

// The play that fails.
const PLAYS: &[(u64, &[Step])] = &[
    (
        1,
        &[
            Step::Play(5, Played::Failed),
            Step::Play(6, Done),
            Step::Play(7, Done),
            Step::Plays(&[6, 7]),
            Step::Counts(0, 2, 1),
        ],
    ),
    (
        2,
        &[
            Step::Play(5, Done),
            Step::Play(6, Played::Failed),
            Step::Play(7, Done),
            Step::Plays(&[5, 7]),
            Step::Counts(0, 2, 1),
        ],
    ),
    (
        3,
        &[
            Step::Play(5, Done),
            Step::Play(6, Done),
            Step::Play(7, Played::Failed),
            Step::Plays(&[5, 6]),
            Step::Counts(0, 2, 1),
        ],
    ),
];

// With three blocks.
const FOUR_PLAYS: &[Step] = &[
    Step::Play(5, Done),
    Step::Play(6, Done),
    Step::Play(7, Done),
    Step::Play(8, Played::Failed),
    Step::Counts(0, 3, 1),
];

// Without blocks.
const NO_BLOCKS: &[Step] = &[CLOSED, Step::Play(5, Played::Failed), Step::Counts(0, 0, 1)];

// How late, the moment, and the answer; the last moment is 36,028,797,018,963,968.
const PACES: &[(i64, i64, i64)] = &[
    (0i64, 0i64, 0i64),
    (0, 36_028_797_018_963_968, 36_028_797_018_963_968),
    (3, 5, 8),
    (36_028_797_018_963_968, 0, 36_028_797_018_963_968),
    (
        36_028_797_018_963_968,
        36_028_797_018_963_968,
        36_028_797_018_963_968,
    ),
    (1, 36_028_797_018_963_967, 36_028_797_018_963_968),
    (2, 36_028_797_018_963_967, 36_028_797_018_963_968),
];

fn three_blocks(alloc: Global) -> Result<Vec<Block>, AllocError>
    ensures { IfOk result (λ blocks. All IsBlock blocks.items) }
{
    Ok(vec![in alloc; FIRST, SECOND, THIRD]?)
}

// A device of three blocks, whose call of this kind and number fails.
fn device_of(alloc: Global, failing: (u8, u64)) -> Result<ListAudio, AllocError> {
    let failing = vec![in alloc; failing]?;
    ListAudio::new(alloc, three_blocks(alloc)?, failing)
}

fn expect_run(rt: &impl Abort, alloc: Global, failing: (u8, u64), steps: &[Step]) {
    let mut audio = device_of(alloc, failing).expect(rt, "memory for a device");
    play(rt, &mut audio, steps);
}

fn play(rt: &impl Abort, audio: &mut ListAudio, steps: &[Step]) {
    for (k, step) in steps.iter().enumerate() {
        take(rt, audio, k, step);
    }
}

fn take(rt: &impl Abort, audio: &mut ListAudio, k: usize, step: &Step) {
    match step {
        Step::Next(next) => expect(rt, &k, &audio.next(), next),
        Step::Play(at, played) => expect(rt, &k, &audio.play(&click(*at)), played),
        Step::Blocks(given, left) => {
            expect(rt, &k, &(audio.given(), audio.rest()), &(*given, *left));
        }
        Step::Plays(wanted) => expect_plays(rt, audio, wanted),
        Step::Counts(given, plays, faults) => {
            let counts = (
                audio.given().len(),
                audio.plays().len(),
                audio.fault_count(),
            );
            expect(rt, &k, &counts, &(*given, *plays, *faults));
        }
    }
}

// One click at a moment, with an accent.
fn click(at: i64) -> Clicks {
    let mut clicks = Clicks::new();
    clicks.push(Click { at, accent: true });
    clicks
}

fn expect_plays(rt: &impl Abort, audio: &ListAudio, wanted: &[i64]) {
    expect(rt, &"plays", &audio.plays().len(), &wanted.len());
    for (clicks, at) in audio.plays().iter().zip(wanted) {
        expect_found(rt, *at, clicks, &[(*at, true)]);
    }
}

// The same number, which has to be a moment.
fn a_moment(rt: &impl Abort, number: i64) -> i64
    ensures { IsMoment result }
{
    assert!(rt; 0 <= number && number <= 36_028_797_018_963_968);
    number
}

// Once, and once more.
fn expect_until(rt: &impl Abort, late: i64, moment: i64, answer: i64) {
    let mut pace = ListPace::new(a_moment(rt, late));
    let moment = a_moment(rt, moment);
    for _ in 0..2 {
        expect(rt, &(late, moment), &pace.until(moment), &answer);
    }
}

// rule: Rose
#[test]
fn a_failing_call_takes_no_block(rt: HostRuntime) {
    for &(call, steps) in ASKS {
        expect_run(&rt, rt.alloc(), (NEXT, call), steps);
    }
}

// rule: Rose
#[test]
fn a_failing_play_plays_nothing(rt: HostRuntime) {
    for &(call, steps) in PLAYS {
        expect_run(&rt, rt.alloc(), (PLAY, call), steps);
    }
}

// A call of number 0 is never made.
#[test]
fn there_is_room_for_as_many_plays_as_blocks(rt: HostRuntime) {
    expect_run(&rt, rt.alloc(), (PLAY, 0), FOUR_PLAYS);
}

#[test]
fn there_is_room_for_no_play_without_blocks(rt: HostRuntime) {
    let alloc = rt.alloc();
    let empty = ListAudio::new(alloc, Vec::new(alloc), Vec::new(alloc));
    let mut audio = empty.expect(&rt, "memory for a device");
    play(&rt, &mut audio, NO_BLOCKS);
}

// rule: IsPaced
#[test]
fn a_moment_is_answered_late_but_never_after_the_last_one(rt: HostRuntime) {
    for &(late, moment, answer) in PACES {
        expect_until(&rt, late, moment, answer);
    }
}
