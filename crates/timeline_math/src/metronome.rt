//! The clicks of a block of audio time, found from whole beat to whole beat.

ghost use Rattle.std.specs.Prelude.{◌≡◌, ℤ, pos, ◌+◌, ◌^◌, ◌≤◌, ◌+ℤ◌, ◌-ℤ◌, ◌*ℤ◌, ◌<ℤ◌, ◌≤ℤ◌, unsigned_abs, IfSome, IfNone, []};
ghost use Rattle.std.specs.Bool.{OnTrue, OnFalse};
ghost use Rattle.arrayvec.specs.ArrayVec.{array_vec_len};
ghost use Rattle.lk_base.specs.Ranges.{IsQuantum, IsWithin, IsWithinLimit};
ghost use Rattle.lk_base.specs.Timeline.{IsTidy};
ghost use Rattle.timeline_math.specs.Clicks.{since, clicks_of};
ghost use Rattle.timeline_math.specs.Clicks as spec;
ghost use Rattle.timeline_math.specs.Metronome.{clicks_between, IsNextBeat, IsBeatTime, HasClicks};

use crate::beats::{BEAT, beat_near};
use crate::quantum::phase;
use arrayvec::ArrayVec;
use lk_base::{Block, Click, Clicks, LIMIT, Timeline};

/// The clicks of a block, in order of time: its microseconds at which a whole beat is passed, counted from the
/// timeline's origin. One is accented in the first beat of the quantum.
pub fn clicks(tl: &Timeline, block: Block, quantum: i64) -> Clicks
    requires tidy { IsTidy tl.now }
    requires length { (pos 0 ≤ℤ block.length) × (block.length ≤ℤ pos 1_000_000) }
    requires start { IsWithinLimit block.start }
    requires end { IsWithinLimit (block.start +ℤ block.length) }
    requires quantum { IsQuantum quantum }
    ensures clicks { result.items ≡ clicks_of tl.now block quantum }
    ensures few { array_vec_len result ≤ 17 }
{
    let end = block.start + block.length;
    let mut place = first_place(tl, block.start);
    let mut clicks = ArrayVec::new();
    while next_click(tl, quantum, block.start, end, &mut place, &mut clicks) {}
    clicks
}

// How far a block is searched: so many whole beats come next, from a time on.
#[derive(Clone, Copy)]
struct Place {
    beats: i64,
    from: i64,
}

fn first_place(tl: &Timeline, start: i64) -> Place
    requires tidy { IsTidy tl.now }
    requires start { IsWithinLimit start }
    ensures next { IsNextBeat tl.now result.beats start }
    ensures from { result.from ≡ start }
{
    Place {
        beats: first_beat(tl, start),
        from: start,
    }
}

fn first_beat(tl: &Timeline, start: i64) -> i64
    requires tidy { IsTidy tl.now }
    requires start { IsWithinLimit start }
    ensures { IsNextBeat tl.now result start }
{
    next_whole(since_at(tl, start - 1))
}

// The first whole beat above.
fn next_whole(beat: i64) -> i64
    requires { IsWithin (2 ^ 61) beat }
    ensures low { ((result -ℤ pos 1) *ℤ pos 1_000_000) ≤ℤ beat }
    ensures high { beat <ℤ (result *ℤ pos 1_000_000) }
{
    beat.div_euclid(BEAT) + 1
}

// Adds the next click before `end`, if there is one.
fn next_click(
    tl: &Timeline,
    quantum: i64,
    start: i64,
    end: i64,
    place: &mut Place,
    clicks: &mut Clicks,
) -> bool
    requires tidy { IsTidy tl.now }
    requires quantum { IsQuantum quantum }
    requires start { IsWithinLimit start }
    requires end { IsWithinLimit end }
    requires length { end ≤ℤ (start +ℤ pos 1_000_000) }
    requires so_far { HasClicks tl.now quantum start end
        place.old.beats place.old.from clicks.old.items }
    ensures more { OnTrue result (HasClicks tl.now quantum start end
        place.new.beats place.new.from clicks.new.items) }
    ensures further { OnTrue result (place.old.from <ℤ place.new.from) }
    ensures all { OnFalse result (clicks.new.items ≡ clicks_between tl.now quantum start end) }
    ensures few { OnFalse result (array_vec_len clicks.new ≤ 17) }
{
    match beat_time(tl, place.beats, place.from, end) {
        None => false,
        Some(at) => {
            let accent = is_accented(tl, quantum, at);
            clicks.push(Click { at, accent });
            place.beats += 1;
            place.from = at + 1;
            true
        }
    }
}

// When so many whole beats are passed, if that is before `end`.
fn beat_time(tl: &Timeline, beats: i64, from: i64, end: i64) -> Option<i64>
    requires tidy { IsTidy tl.now }
    requires next { IsNextBeat tl.now beats from }
    requires from { IsWithinLimit from }
    requires end { IsWithinLimit end }
    requires order { from ≤ℤ end }
    ensures some { IfSome result (IsBeatTime tl.now beats from end) }
    ensures none { IfNone result ((q : ℤ) → clicks_between tl.now q from end ≡ []) }
{
    let whole = beats * BEAT;
    if tl.beat + whole > LIMIT {
        return None;
    }
    let time = time_of(tl, beats);
    if time > end {
        return None;
    }
    let at = first_at(tl, time, whole);
    if at < end { Some(at) } else { None }
}

// Which of two microseconds is the first at which `whole` microbeats past the origin are reached.
fn first_at(tl: &Timeline, time: i64, whole: i64) -> i64
    requires tidy { IsTidy tl.now }
    requires time { IsWithin (2 ^ 60 + 1) (time -ℤ pos 1) }
    requires reached { whole ≤ℤ since tl.now time }
    requires unreached { since tl.now (time -ℤ pos 2) <ℤ whole }
    ensures early { time ≤ℤ (result +ℤ pos 1) }
    ensures late { result ≤ℤ time }
    ensures before { since tl.now (result -ℤ pos 1) <ℤ whole }
    ensures there { whole ≤ℤ since tl.now result }
{
    if since_at(tl, time - 1) >= whole {
        time - 1
    } else {
        time
    }
}

// The time of so many beats past the origin, if nothing is clipped.
fn time_of(tl: &Timeline, beats: i64) -> i64
    requires tidy { IsTidy tl.now }
    requires beats { IsWithin 2_305_843_009_214 beats }
    ensures { result ≡ tl.now.time +ℤ beats *ℤ tl.now.mpb }
{
    tl.time + lasting(tl, beats)
}

fn lasting(tl: &Timeline, beats: i64) -> i64
    requires tidy { IsTidy tl.now }
    requires beats { IsWithin 2_305_843_009_214 beats }
    ensures value { result ≡ beats *ℤ tl.now.mpb }
    ensures within { IsWithin 6_917_529_027_642_000_000 result }
{
    beats * tl.mpb
}

#[tactic(auto, unfolding(crate::specs::Clicks::is_accented))]
fn is_accented(tl: &Timeline, quantum: i64, time: i64) -> bool
    requires tidy { IsTidy tl.now }
    requires quantum { IsQuantum quantum }
    requires time { IsWithinLimit time }
    ensures { result ≡ spec.is_accented tl.now quantum time }
{
    phase(since_at(tl, time), quantum) < BEAT
}

#[tactic(auto, unfolding(crate::specs::Clicks::since))]
fn since_at(tl: &Timeline, time: i64) -> i64
    requires tidy { IsTidy tl.now }
    requires time { IsWithin (2 ^ 60 + 1) time }
    ensures value { result ≡ since tl.now time }
    ensures within { IsWithin (2 ^ 61) result }
{
    beat_near(tl, time) - tl.beat
}
