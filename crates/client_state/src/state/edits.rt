//! Edits of a state. None of them takes memory or waits, and what each gives is tidy.

ghost use Rattle.std.specs.Prelude.{◌≡◌, pos, ◌^◌, ◌-ℤ◌, ◌≤ℤ◌};
ghost use Rattle.lk_base.specs.Ranges.{IsQuantum, IsWithin, IsWithinLimit};
ghost use Rattle.lk_base.specs.Rounding.{clipped_of};
ghost use Rattle.lk_base.specs.Timeline.{IsTidy};
ghost use Rattle.timeline_math.specs.Tidying.{clamped_of};
ghost use Rattle.client_state.specs.Edits.{advance_of, forced_of, next_time_of, quantum_set_of, requested_of, tempo_set_of};

use crate::state::{QUANTUM_MAX, State};
use lk_base::{Timeline, clip, moved};
use timeline_math::{
    beat_at, closest_match, encoded_beat, encoded_time, next_match, tidy, time_at,
};

impl State {
    ghost use Rattle.client_state.specs.Edits.{tempo_set_of, forced_of, requested_of, quantum_set_of, played_of};

    /// Sets the tempo, in microseconds per beat, clamped to 60,060..=3,000,000, and keeps the beat at the host time
    /// `at`, but for a rounding of at most 8 microbeats, where the new time origin isn't clipped.
    pub fn set_tempo(&mut self, mpb: i64, at: i64)
        requires tidy { IsTidy self.old.timeline }
        requires at { IsWithinLimit at }
        ensures value { self.new ≡ record self.old { timeline = tempo_set_of self.old.timeline mpb at } }
        ensures tidy { IsTidy self.new.timeline }
    {
        self.timeline = tempo_set(&self.timeline, mpb, at);
    }

    /// Makes the beat at the host time `at` one with the phase of `beat`, counted from the beat origin, whatever the
    /// peers have. Where nothing is clipped, the time origin moves by as long as at most half a quantum of beats,
    /// rounded up, lasts, and the beat origin by a whole number of quanta, and it is so but for a rounding of at most
    /// 17 microbeats; with the quantum 0 only the beat origin moves, and the beat at `at` is `beat`. After Link 3
    /// (`forceBeatAtTime`); the formula is this project's own.
    pub fn force_beat(&mut self, beat: i64, at: i64, quantum: i64)
        requires tidy { IsTidy self.old.timeline }
        requires beat { IsWithinLimit beat }
        requires at { IsWithinLimit at }
        requires quantum { IsQuantum quantum }
        ensures value { self.new ≡ record self.old { timeline = forced_of self.old.timeline beat at quantum } }
        ensures tidy { IsTidy self.new.timeline }
    {
        self.timeline = forced(&self.timeline, beat, at, quantum);
    }

    /// The same where no peer is in the session. Where one is, `at` is first moved on to the time of the next beat with
    /// the phase of `beat`, so that the peers' phase is kept. After Link 3 (`requestBeatAtTime`); the formula is this
    /// project's own.
    pub fn request_beat(&mut self, beat: i64, at: i64, quantum: i64)
        requires tidy { IsTidy self.old.timeline }
        requires beat { IsWithinLimit beat }
        requires at { IsWithinLimit at }
        requires quantum { IsQuantum quantum }
        ensures value { self.new
            ≡ record self.old { timeline = requested_of self.old.peers self.old.timeline beat at quantum } }
        ensures tidy { IsTidy self.new.timeline }
    {
        self.timeline = requested(self.peers, &self.timeline, beat, at, quantum);
    }

    /// Sets the quantum, in microbeats, taken to the nearest of 0..=2^40.
    pub fn set_quantum(&mut self, quantum: i64)
        ensures value { self.new ≡ record self.old { quantum = quantum_set_of quantum } }
        ensures within { IsQuantum self.new.quantum }
    {
        self.quantum = nearest_quantum(quantum);
    }

    /// Starts or stops playing at a host time. The stamp stays: a commit sets it.
    pub fn set_playing(&mut self, playing: bool, time: i64)
        ensures { self.new ≡ record self.old { start = played_of self.old.start playing time } }
    {
        self.start.playing = playing;
        self.start.time = time;
    }
}

// The nearest length that a quantum may have.
pub(crate) fn nearest_quantum(quantum: i64) -> i64
    ensures value { result ≡ quantum_set_of quantum }
    ensures within { IsQuantum result }
{
    quantum.clamp(0, QUANTUM_MAX)
}

// The line of the clamped tempo through the beat that is there at `at`, with the same beat origin.
#[tactic(auto, unfolding(crate::specs::Edits::tempo_set_of))]
fn tempo_set(tl: &Timeline, mpb: i64, at: i64) -> Timeline
    requires tidy { IsTidy tl.now }
    requires at { IsWithinLimit at }
    ensures value { result ≡ tempo_set_of tl.now mpb at }
    ensures tidy { IsTidy result }
{
    let there = Timeline {
        mpb: clamped(mpb),
        beat: beat_at(tl, at),
        time: at,
    };
    Timeline {
        mpb: there.mpb,
        beat: tl.beat,
        time: time_at(&there, tl.beat),
    }
}

// The tempo nearest to this one that a timeline may have.
fn clamped(mpb: i64) -> i64
    ensures value { result ≡ clamped_of mpb }
    ensures fastest { pos 60_060 ≤ℤ result }
    ensures slowest { result ≤ℤ pos 3_000_000 }
{
    let tidied = tidy(&Timeline {
        mpb,
        beat: 0,
        time: 0,
    });
    tidied.mpb
}

// The line whose encoded beat at `at` is moved to the closest match of `beat`, which is then named `beat`.
#[tactic(auto, unfolding(crate::specs::Edits::forced_of))]
fn forced(tl: &Timeline, beat: i64, at: i64, quantum: i64) -> Timeline
    requires tidy { IsTidy tl.now }
    requires beat { IsWithinLimit beat }
    requires at { IsWithinLimit at }
    requires quantum { IsQuantum quantum }
    ensures value { result ≡ forced_of tl.now beat at quantum }
    ensures tidy { IsTidy result }
{
    let here = encoded_beat(tl, at, quantum);
    let there = closest_match(here, beat, quantum);
    Timeline {
        mpb: tl.mpb,
        beat: moved(tl.beat, apart(there, beat)),
        time: advanced(tl, there, here),
    }
}

// The time origin, earlier by as long as the beats from `here` to `there` last, clipped.
fn advanced(tl: &Timeline, there: i64, here: i64) -> i64
    requires tidy { IsTidy tl.now }
    requires there { IsWithin (2 ^ 61) there }
    requires here { IsWithin (2 ^ 61) here }
    ensures value { result ≡ clipped_of (tl.now.time -ℤ advance_of tl.now (there -ℤ here)) }
    ensures within { IsWithinLimit result }
{
    moved_back(tl.time, advance(tl, apart(here, there)))
}

// How long so many microbeats last from beat 0 on.
#[tactic(auto, unfolding(crate::specs::Edits::advance_of))]
fn advance(tl: &Timeline, shift: i128) -> i128
    requires tidy { IsTidy tl.now }
    ensures value { result ≡ advance_of tl.now shift }
    ensures within { IsWithin (2 ^ 63) result }
{
    apart(time_at(tl, 0), time_at(tl, clip(shift)))
}

// How far `to` is from `from`.
fn apart(from: i64, to: i64) -> i128
    requires from { IsWithin (2 ^ 62) from }
    requires to { IsWithin (2 ^ 62) to }
    ensures value { result ≡ to -ℤ from }
    ensures within { IsWithin (2 ^ 63) result }
{
    to as i128 - from as i128
}

// A time origin moved back, clipped.
fn moved_back(origin: i64, by: i128) -> i64
    requires origin { IsWithinLimit origin }
    requires by { IsWithin (2 ^ 63) by }
    ensures value { result ≡ clipped_of (origin -ℤ by) }
    ensures within { IsWithinLimit result }
{
    clip(origin as i128 - by)
}

// The line with the beat forced, with peers at its next match.
#[tactic(auto, unfolding(crate::specs::Edits::requested_of))]
fn requested(peers: u32, tl: &Timeline, beat: i64, at: i64, quantum: i64) -> Timeline
    requires tidy { IsTidy tl.now }
    requires beat { IsWithinLimit beat }
    requires at { IsWithinLimit at }
    requires quantum { IsQuantum quantum }
    ensures value { result ≡ requested_of peers tl.now beat at quantum }
    ensures tidy { IsTidy result }
{
    if peers > 0 {
        forced(tl, beat, next_time(tl, beat, at, quantum), quantum)
    } else {
        forced(tl, beat, at, quantum)
    }
}

// The time of the next beat with the phase of `beat`.
#[tactic(auto, unfolding(crate::specs::Edits::next_time_of))]
fn next_time(tl: &Timeline, beat: i64, at: i64, quantum: i64) -> i64
    requires tidy { IsTidy tl.now }
    requires beat { IsWithinLimit beat }
    requires at { IsWithinLimit at }
    requires quantum { IsQuantum quantum }
    ensures value { result ≡ next_time_of tl.now beat at quantum }
    ensures within { IsWithinLimit result }
{
    let here = encoded_beat(tl, at, quantum);
    let next = next_match(here, beat, quantum);
    encoded_time(tl, clip(next as i128), quantum)
}
