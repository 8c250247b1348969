//! Cases worked out apart from the code: by exact fractions, by hand, or by a reference.

ghost use Rattle.lk_base.specs.Ranges.{IsQuantum, IsWithinLimit};
ghost use Rattle.lk_base.specs.Timeline.{IsTidy};

mod clicks;
mod commits;
mod conversions;
mod filter;
mod ids;
mod lines;
mod numbers;
mod offsets;
mod outside;
mod rows;
mod states;
mod together;

use crate::tests::expect;
use lk_base::{ClientStart, Timeline, clip};
use std::process::Abort;
use timeline_math::tidy;

const LONGEST: i64 = 1_099_511_627_776;

const fn timeline(mpb: i64, beat: i64, time: i64) -> Timeline {
    Timeline { mpb, beat, time }
}

fn start(playing: bool, time: i64, stamp: i64) -> ClientStart {
    ClientStart {
        playing,
        time,
        stamp,
    }
}

// The same number, which has to be a beat or a time within the limit.
fn a_place(rt: &impl Abort, number: i64) -> i64
    ensures { IsWithinLimit result }
{
    let place = clip(number as i128);
    expect(rt, &"place", &number, &place);
    place
}

// The same number, which has to be a quantum.
fn a_quantum(rt: &impl Abort, number: i64) -> i64
    ensures { IsQuantum result }
{
    assert!(rt; 0 <= number && number <= LONGEST);
    number
}

// The timeline of these numbers, which have to be tidy as they are.
fn a_timeline(rt: &impl Abort, mpb: i64, beat: i64, time: i64) -> Timeline
    ensures { IsTidy result }
{
    let given = Timeline { mpb, beat, time };
    let tl = tidy(&given);
    expect(rt, &"timeline", &given, &tl);
    tl
}
