//! At which moments the lines of a client are answered.

use super::session::{Given, USUAL, served};
use client_state::Commit;
use link_control::LineLog;
use lk_base::ClientStart;
use std::alloc::Global;
use std::process::Abort;
use std::sync::Wait;

// How late the pace answers, and the moments of four lines: 2^55 is the last one that there is.
const ROWS: &[(i64, [i64; 4])] = &[
    (0, [0, 0, 0, 0]),
    (1, [1, 2, 3, 4]),
    (250_000, [250_000, 500_000, 750_000, 1_000_000]),
    (
        12_009_599_006_321_323,
        [
            12_009_599_006_321_323,
            24_019_198_012_642_646,
            36_028_797_018_963_968,
            36_028_797_018_963_968,
        ],
    ),
    (
        36_028_797_018_963_967,
        [
            36_028_797_018_963_967,
            36_028_797_018_963_968,
            36_028_797_018_963_968,
            36_028_797_018_963_968,
        ],
    ),
    (36_028_797_018_963_968, [36_028_797_018_963_968; 4]),
];

// Fails where the lines of a log have other moments, or something else than the second and the third one a commit, which are numbered
// from 1 and start to play at their own moment.
fn expect_log(rt: &impl Abort, late: i64, log: &[LineLog], moments: &[i64; 4]) {
    let mut right = log.len() == 4;
    for (k, (line, moment)) in log.iter().zip(moments).enumerate() {
        right = is_right(k as u64, line, *moment) & right;
    }
    assert!(rt; right, "{late}");
}

fn is_right(k: u64, line: &LineLog, moment: i64) -> bool {
    line.moment == moment
        && match line.commit {
            Some((number, commit)) => number == k && is_start(&commit, moment),
            None => k == 0 || k == 3,
        }
}

// Whether a commit is made at a moment, and starts to play then.
fn is_start(commit: &Commit, moment: i64) -> bool {
    let start = ClientStart {
        playing: true,
        time: moment,
        stamp: moment,
    };
    commit.at == moment && commit.start == Some(start)
}

fn expect_row<R: Wait + Abort>(rt: &R, alloc: Global, late: i64, moments: &[i64; 4]) {
    let given = Given {
        sent: b"status\nplay\nplay\nnope\n",
        late,
        ..USUAL
    };
    let session = served(rt, alloc, &given);
    expect_log(rt, late, &session.log.lines, moments);
}

// rule: act_asked
#[test]
fn each_line_is_answered_as_late_as_the_pace_is(rt: HostRuntime) {
    for &(late, moments) in ROWS {
        expect_row(&rt, rt.alloc(), late, &moments);
    }
}
