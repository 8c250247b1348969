//! When pulses come.

ghost use Rattle.std.specs.Prelude.{◌≡◌, pos, ◌+◌, ◌*◌, ◌^◌, ◌+ℤ◌, ◌-ℤ◌, ◌*ℤ◌, ◌<ℤ◌, ◌≤ℤ◌, IfSome, IfNone};
ghost use Rattle.lk_base.specs.Ranges.{IsWithin, IsWithinLimit};
ghost use Rattle.lk_base.specs.Timeline.{IsTidy};
ghost use Rattle.timeline_math.specs.Clicks.{since};
ghost use Rattle.link_midi.specs.Pulse.{pulse_of};
ghost use Rattle.link_midi.specs.Progress.{IsBeatOf, IsPulseTime};

use lk_base::{LIMIT, Timeline};
use timeline_math::beat_at;

// When a pulse is passed, if that is before `end`.
pub(crate) fn pulse_time(tl: &Timeline, pulse: i64, from: i64, end: i64) -> Option<i64>
    requires tidy { IsTidy tl.now }
    requires pulse { pulse ≡ pulse_of tl.now (from -ℤ pos 1) +ℤ pos 1 }
    requires from { IsWithinLimit (from -ℤ pos 1) }
    requires end { IsWithinLimit end }
    requires order { from ≤ℤ end }
    ensures some { IfSome result (IsPulseTime tl.now pulse from end) }
    ensures none { IfNone result (pulse_of tl.now (end -ℤ pos 1) ≡ pulse -ℤ pos 1) }
{
    let whole = beat_of(pulse);
    if tl.beat + whole > LIMIT {
        return None;
    }
    let time = time_of(tl, whole);
    if time > end {
        return None;
    }
    let at = first_at(tl, time, whole);
    if at < end { Some(at) } else { None }
}

// The first microbeat past the origin at which a pulse is passed.
fn beat_of(pulse: i64) -> i64
    requires { IsWithin (2 ^ 46) pulse }
    ensures beat { IsBeatOf pulse result }
    ensures within { IsWithin (2 ^ 62) result }
{
    (pulse * 125_000 + 2).div_euclid(3)
}

// One of two microseconds at which so many microbeats past the origin are reached, if nothing is clipped: the later one.
fn time_of(tl: &Timeline, whole: i64) -> i64
    requires tidy { IsTidy tl.now }
    requires whole { IsWithin (2 ^ 61 + 2 ^ 20) whole }
    ensures early { ((result -ℤ tl.now.time -ℤ pos 1) *ℤ pos 2_000_000) ≤ℤ (pos 2 *ℤ (whole *ℤ tl.now.mpb) -ℤ tl.now.mpb) }
    ensures late { (pos 2 *ℤ (whole *ℤ tl.now.mpb) -ℤ tl.now.mpb) <ℤ ((result -ℤ tl.now.time) *ℤ pos 2_000_000) }
{
    let twice = 2 * lasting(tl, whole) - tl.mpb as i128;
    tl.time + half_million(twice) + 1
}

fn lasting(tl: &Timeline, whole: i64) -> i128
    requires tidy { IsTidy tl.now }
    requires whole { IsWithin (2 ^ 61 + 2 ^ 20) whole }
    ensures value { result ≡ whole *ℤ tl.now.mpb }
    ensures within { IsWithin (3_000_000 * (2 ^ 61 + 2 ^ 20)) result }
{
    whole as i128 * tl.mpb as i128
}

fn half_million(twice: i128) -> i64
    requires { IsWithin (6_000_000 * (2 ^ 61 + 2 ^ 21)) twice }
    ensures low { (result *ℤ pos 2_000_000) ≤ℤ twice }
    ensures high { twice <ℤ ((result +ℤ pos 1) *ℤ pos 2_000_000) }
    ensures within { IsWithin (3 * (2 ^ 61 + 2 ^ 21)) result }
{
    twice.div_euclid(2_000_000) as i64
}

// Which of two microseconds is the first at which `whole` microbeats past the origin are reached.
fn first_at(tl: &Timeline, time: i64, whole: i64) -> i64
    requires tidy { IsTidy tl.now }
    requires time { IsWithinLimit (time -ℤ pos 1) }
    requires reached { whole ≤ℤ since tl.now time }
    requires unreached { since tl.now (time -ℤ pos 2) <ℤ whole }
    ensures early { time ≤ℤ (result +ℤ pos 1) }
    ensures late { result ≤ℤ time }
    ensures before { since tl.now (result -ℤ pos 1) <ℤ whole }
    ensures there { whole ≤ℤ since tl.now result }
{
    if since_at(tl, time - 1) >= whole {
        time - 1
    } else {
        time
    }
}

// The pulse at a time.
#[tactic(auto, unfolding(crate::specs::Pulse::pulse_of))]
pub(crate) fn pulse_at(tl: &Timeline, time: i64) -> i64
    requires tidy { IsTidy tl.now }
    requires time { IsWithinLimit time }
    ensures { result ≡ pulse_of tl.now time }
{
    (24 * since_at(tl, time) as i128).div_euclid(1_000_000) as i64
}

#[tactic(auto, unfolding(timeline_math::specs::Clicks::since))]
fn since_at(tl: &Timeline, time: i64) -> i64
    requires tidy { IsTidy tl.now }
    requires time { IsWithinLimit time }
    ensures value { result ≡ since tl.now time }
    ensures within { IsWithin (2 ^ 61) result }
{
    beat_at(tl, time) - tl.beat
}
