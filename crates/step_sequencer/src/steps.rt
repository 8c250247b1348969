//! The steps that begin in frames.

ghost use Rattle.std.specs.Prelude.{◌≡◌, ◌+◌, ◌^◌, ◌<◌, ◌≤◌, ◌++◌, length};
ghost use Rattle.lk_base.specs.Ranges.{IsMoment, IsWithinLimit};
ghost use Rattle.lk_base.specs.Timeline.{IsTidy};
ghost use Rattle.client_state.specs.State.{IsTidyState};
ghost use Rattle.step_sequencer.specs.Frames as frames_spec;
ghost use Rattle.step_sequencer.specs.Steps as spec;
ghost use Rattle.step_sequencer.specs.Steps.{hits_of, struck_from};

use crate::frames::frame_time;
use arrayvec::ArrayVec;
use client_state::State;
use lk_base::Timeline;
use timeline_math::beat_at;

/// A step, in microbeats: a quarter of a beat.
const STEP: i64 = 250_000;

/// A step and the frame in which it begins.
#[derive(Clone, Copy, Debug, Default, PartialEq, Eq)]
pub struct Hit {
    pub frame: u32,
    /// Counted from the timeline's beat origin, from 0 on and below.
    pub step: i64,
}

/// The steps that begin in at most 960 frames: a step lasts 15,015 microseconds at least, and 960 frames last 20,000.
pub type Hits = ArrayVec<Hit, 2>;

/// The step at a time: how many quarters of a beat are passed since the beat origin, rounded down.
///
/// Waits: never. Memory: none.
#[tactic(auto, unfolding(crate::specs::Steps::step_at, timeline_math::specs::Clicks::since))]
pub fn step_at(tl: &Timeline, time: i64) -> i64
    requires tidy { IsTidy tl.now }
    requires time { IsWithinLimit time }
    ensures { result ≡ spec.step_at tl.now time }
{
    (beat_at(tl, time) - tl.beat).div_euclid(STEP)
}

/// The step that begins in a frame, by the host time at which frame 0 begins: none where the state doesn't play at the frame's end.
///
/// Waits: never. Memory: none.
#[tactic(auto, unfolding(crate::specs::Steps::step_in))]
pub fn step_in(state: &State, origin: i64, frame: u32) -> Option<i64>
    requires tidy { IsTidyState state.now }
    requires origin { IsMoment origin }
    requires frame { frame < 2 ^ 31 }
    ensures { result ≡ spec.step_in state.now origin frame }
{
    let end = before(origin, frame + 1);
    if !plays_at(state, end) {
        return None;
    }
    let last = step_at(&state.timeline, before(origin, frame));
    let step = step_at(&state.timeline, end);
    if last < step { Some(step) } else { None }
}

// The last microsecond before a frame.
#[tactic(auto, unfolding(crate::specs::Frames::frame_time))]
fn before(origin: i64, frame: u32) -> i64
    requires { IsMoment origin }
    ensures value { result ≡ frames_spec.before origin frame }
    ensures within { IsWithinLimit result }
{
    frame_time(origin, frame) - 1
}

#[tactic(auto, unfolding(crate::specs::Steps::plays_at))]
fn plays_at(state: &State, time: i64) -> bool
    ensures { result ≡ spec.plays_at state.now time }
{
    state.start.playing && state.start.time <= time
}

/// The steps that begin in so many frames from the first on, at most 960, each with its frame and in order.
///
/// Waits: never. Memory: none.
pub fn steps_begun(state: &State, origin: i64, first: u32, count: u32) -> Hits
    requires tidy { IsTidyState state.now }
    requires origin { IsMoment origin }
    requires count { count ≤ 960 }
    requires end { first + count < 2 ^ 31 }
    ensures { result.items ≡ struck_from state.now origin first count }
{
    let mut hits = Hits::new();
    for k in 0..count {
        add_hit(state, origin, first + k, &mut hits);
    }
    hits
}

// Adds the step that begins in a frame, if one does.
fn add_hit(state: &State, origin: i64, frame: u32, hits: &mut Hits)
    requires tidy { IsTidyState state.now }
    requires origin { IsMoment origin }
    requires frame { frame < 2 ^ 31 }
    requires room { length (hits.old.items ++ hits_of frame (spec.step_in state.now origin frame)) ≤ 2 }
    ensures { hits.new.items ≡ hits.old.items ++ hits_of frame (spec.step_in state.now origin frame) }
{
    if let Some(step) = step_in(state, origin, frame) {
        hits.push(Hit { frame, step });
    }
}
