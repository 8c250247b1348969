//! Beats that carry the phase of a timeline, and the times of such beats.

ghost use Rattle.std.specs.Prelude.{◌≡◌, pos, ◌+◌, ◌*◌, ◌^◌, ◌≤◌, ◌+ℤ◌, ◌-ℤ◌, ◌≤ℤ◌, unsigned_abs};
ghost use Rattle.lk_base.specs.Ranges.{IsQuantum, IsWithin, IsWithinLimit};
ghost use Rattle.lk_base.specs.Rounding.{clipped_of};
ghost use Rattle.lk_base.specs.Timeline.{IsTidy};
ghost use Rattle.timeline_math.specs.Beats.{beat_at};
ghost use Rattle.timeline_math.specs.Quantum.{phase_of, closest_match_of};
ghost use Rattle.timeline_math.specs.Encoding as spec;

use crate::beats::{beat_at, time_at};
use crate::quantum::{closest_match, phase};
use lk_base::{Timeline, clip};

/// A beat near the one at `time`, in microbeats, whose own phase says how far the beat at `time` is into a
/// quantum, where a quantum begins at the timeline's beat origin. It isn't clipped. After Link 3 (`Phase.hpp`,
/// `toPhaseEncodedBeats`).
#[tactic(auto, unfolding(crate::specs::Encoding::encoded_beat))]
pub fn encoded_beat(tl: &Timeline, time: i64, quantum: i64) -> i64
    requires tidy { IsTidy tl.now }
    requires time { IsWithinLimit time }
    requires quantum { IsQuantum quantum }
    ensures value { result ≡ spec.encoded_beat tl.now time quantum }
    ensures phase { phase_of result quantum
        ≡ phase_of (beat_at tl.now time -ℤ tl.now.beat) quantum }
    ensures near { pos (2 * unsigned_abs (result -ℤ beat_at tl.now time)) ≤ℤ (quantum +ℤ pos 1) }
    ensures within { IsWithin (2 ^ 60 + 2 ^ 40) result }
{
    let beat = beat_at(tl, time);
    closest_match(beat, beat - tl.beat, quantum)
}

/// The time of an encoded beat, in microseconds, clipped: that of the beat that it was made from. After Link 3
/// (`Phase.hpp`, `fromPhaseEncodedBeats`).
#[tactic(auto, unfolding(crate::specs::Encoding::encoded_time))]
pub fn encoded_time(tl: &Timeline, beat: i64, quantum: i64) -> i64
    requires tidy { IsTidy tl.now }
    requires beat { IsWithin (2 ^ 60 + 2 ^ 41) beat }
    requires quantum { IsQuantum quantum }
    ensures value { result ≡ spec.encoded_time tl.now beat quantum }
    ensures within { IsWithinLimit result }
{
    let past = phase(beat - tl.beat, quantum);
    let inside = closest_match(quantum - past, quantum - phase(beat, quantum), quantum);
    time_at(tl, replaced(beat, past, quantum - inside))
}

// The beat with `rest` in the place of what it is past, clipped.
fn replaced(beat: i64, past: i64, rest: i64) -> i64
    requires beat { IsWithin (2 ^ 60 + 2 ^ 41) beat }
    requires past { IsQuantum past }
    requires rest { IsWithin (2 ^ 42) rest }
    ensures value { result ≡ clipped_of (beat -ℤ past +ℤ rest) }
    ensures within { IsWithinLimit result }
{
    clip((beat - past + rest) as i128)
}
