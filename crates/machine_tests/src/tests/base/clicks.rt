//! The clicks of blocks, worked out microsecond by microsecond.

ghost use Rattle.std.specs.Prelude.{pos, ◌≤ℤ◌, ◌+ℤ◌};
ghost use Rattle.lk_base.specs.Ranges.{IsWithinLimit};

use super::{a_quantum, a_timeline};
use crate::tests::expect;
use lk_base::{Block, Click, LIMIT};
use std::process::Abort;
use timeline_math::clicks;

// A timeline, the start and the length of a block, a quantum, and the clicks: when, and whether accented.
struct Clicking {
    line: [i64; 3],
    block: [i64; 2],
    quantum: i64,
    clicks: &'static [(i64, bool)],
}

const AT_THE_ENDS: &[Clicking] = &[
    Clicking {
        line: [500_000, 0, 0],
        block: [0, 1_000_000],
        quantum: 4_000_000,
        clicks: &[(0, true), (500_000, false)],
    },
    Clicking {
        line: [500_000, 0, 0],
        block: [1, 499_999],
        quantum: 4_000_000,
        clicks: &[],
    },
    Clicking {
        line: [500_000, 0, 0],
        block: [0, 500_000],
        quantum: 1,
        clicks: &[(0, true)],
    },
    Clicking {
        line: [500_000, 0, 0],
        block: [0, 0],
        quantum: 1,
        clicks: &[],
    },
];

const HALFWAY: &[Clicking] = &[
    Clicking {
        line: [2_000_000, 0, 0],
        block: [-4_000_000, 1_000_000],
        quantum: 2_000_000,
        clicks: &[(-4_000_000, true)],
    },
    Clicking {
        line: [2_000_000, 0, 0],
        block: [-2_000_100, 200],
        quantum: 2_000_000,
        clicks: &[(-2_000_000, false)],
    },
    Clicking {
        line: [2_000_000, 0, 0],
        block: [-100, 200],
        quantum: 2_000_000,
        clicks: &[(0, true)],
    },
    Clicking {
        line: [2_000_000, 0, 0],
        block: [1_999_900, 200],
        quantum: 2_000_000,
        clicks: &[(1_999_999, false)],
    },
    Clicking {
        line: [3_000_000, 0, 0],
        block: [2_999_000, 2_000],
        quantum: 1_000_000,
        clicks: &[(2_999_999, true)],
    },
    Clicking {
        line: [3_000_000, 0, 0],
        block: [-3_000_100, 200],
        quantum: 0,
        clicks: &[(-3_000_001, true)],
    },
];

const FASTEST: &[Clicking] = &[
    Clicking {
        line: [60_060, 0, 0],
        block: [0, 1_000_000],
        quantum: 4_000_000,
        clicks: &[
            (0, true),
            (60_060, false),
            (120_120, false),
            (180_180, false),
            (240_240, true),
            (300_300, false),
            (360_360, false),
            (420_420, false),
            (480_480, true),
            (540_540, false),
            (600_600, false),
            (660_660, false),
            (720_720, true),
            (780_780, false),
            (840_840, false),
            (900_900, false),
            (960_960, true),
        ],
    },
    Clicking {
        line: [60_060, 0, 0],
        block: [-1_000_000, 1_000_000],
        quantum: 3_000_000,
        clicks: &[
            (-960_960, false),
            (-900_900, true),
            (-840_840, false),
            (-780_780, false),
            (-720_720, true),
            (-660_660, false),
            (-600_600, false),
            (-540_540, true),
            (-480_480, false),
            (-420_420, false),
            (-360_360, true),
            (-300_300, false),
            (-240_240, false),
            (-180_180, true),
            (-120_120, false),
            (-60_060, false),
        ],
    },
];

const AT_THE_LIMITS: &[Clicking] = &[
    Clicking {
        line: [500_000, 0, -LIMIT],
        block: [-LIMIT, 1_000_000],
        quantum: 4_000_000,
        clicks: &[(-LIMIT, true), (-LIMIT + 500_000, false)],
    },
    Clicking {
        line: [500_000, 0, -LIMIT + 1],
        block: [-LIMIT, 1_000_000],
        quantum: 4_000_000,
        clicks: &[(-LIMIT + 1, true), (-LIMIT + 500_001, false)],
    },
    Clicking {
        line: [500_000, LIMIT - 1_500_000, LIMIT - 1_000_000],
        block: [LIMIT - 1_000_000, 1_000_000],
        quantum: 4_000_000,
        clicks: &[(LIMIT - 1_000_000, true), (LIMIT - 500_000, false)],
    },
    Clicking {
        line: [500_000, -LIMIT, 0],
        block: [-600_000, 700_000],
        quantum: 4_000_000,
        clicks: &[],
    },
];

// The block of these numbers, which has to be of at most a second and within the limit.
pub(super) fn a_block(rt: &impl Abort, start: i64, length: i64) -> Block
    ensures length { (pos 0 ≤ℤ result.length) × (result.length ≤ℤ pos 1_000_000) }
    ensures start { IsWithinLimit result.start }
    ensures end { IsWithinLimit (result.start +ℤ result.length) }
{
    assert!(rt; 0 <= length && length <= 1_000_000);
    assert!(rt; -LIMIT <= start && start <= LIMIT - length);
    Block { start, length }
}

fn expect_clicks(rt: &impl Abort, case: &Clicking) {
    let [mpb, beat, time] = case.line;
    let tl = a_timeline(rt, mpb, beat, time);
    let block = a_block(rt, case.block[0], case.block[1]);
    let found = clicks(&tl, block, a_quantum(rt, case.quantum));
    expect_found(rt, block.start, &found, case.clicks);
}

// Whether these are the clicks of a block: when, and whether accented.
pub(super) fn expect_found(rt: &impl Abort, start: i64, found: &[Click], wanted: &[(i64, bool)]) {
    expect(rt, &start, &found.len(), &wanted.len());
    for (click, wanted) in found.iter().zip(wanted) {
        expect(rt, &start, &(click.at, click.accent), wanted);
    }
}

// rule: clicks_of
#[test]
fn a_block_has_the_click_at_its_start_and_not_the_one_at_its_end(rt: HostRuntime) {
    for case in AT_THE_ENDS {
        expect_clicks(&rt, case);
    }
}

// rule: clicks_at, is_accented
#[test]
fn a_beat_halfway_between_two_microseconds_clicks_away_from_the_origin(rt: HostRuntime) {
    for case in HALFWAY {
        expect_clicks(&rt, case);
    }
}

// rule: is_accented
#[test]
fn a_second_of_the_fastest_tempo_has_up_to_17_clicks(rt: HostRuntime) {
    for case in FASTEST {
        expect_clicks(&rt, case);
    }
}

// rule: clicks_at
#[test]
fn clicks_stand_at_the_limits_of_time_and_none_where_beats_are_clipped(rt: HostRuntime) {
    for case in AT_THE_LIMITS {
        expect_clicks(&rt, case);
    }
}
