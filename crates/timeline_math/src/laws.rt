//! What holds of the definitions: each law is the contract of a function with an empty body.

ghost use Rattle.std.specs.Prelude.{◌≡◌, ℤ, pos, ◌+◌, ◌*◌, ◌≤◌, ◌+ℤ◌, ◌-ℤ◌, ◌≤ℤ◌, ◌↔◌, IsTrue, unsigned_abs};
ghost use Rattle.lk_base.specs.Ranges.{IsQuantum};
ghost use Rattle.lk_base.specs.Timeline.{IsTidy};
ghost use Rattle.timeline_math.specs.Beats.{beat_at, time_at};
ghost use Rattle.lk_base.specs.declared.timeline.Timeline.{Timeline};
ghost use Rattle.timeline_math.specs.Clicks.{clicks_at, is_accented, IsInReach, Passes, PassesBeat};
ghost use Rattle.timeline_math.specs.Encoding.{encoded_beat, encoded_time};
ghost use Rattle.timeline_math.specs.Quantum.{phase_of};
ghost use Rattle.timeline_math.specs.Tidying.{tidy_of};

use lk_base::Timeline;

/// A later time has no earlier beat.
pub fn beats_rise(tl: &Timeline, earlier: i64, later: i64)
    requires tidy { IsTidy tl.now }
    requires order { earlier ≤ℤ later }
    ensures { beat_at tl.now earlier ≤ℤ beat_at tl.now later }
{}

/// A later beat has no earlier time.
pub fn times_rise(tl: &Timeline, earlier: i64, later: i64)
    requires tidy { IsTidy tl.now }
    requires order { earlier ≤ℤ later }
    ensures { time_at tl.now earlier ≤ℤ time_at tl.now later }
{}

/// A tidied timeline is tidy, and tidying it again changes nothing.
pub fn tidying_settles(tl: &Timeline)
    ensures tidy { IsTidy (tidy_of tl.now) }
    ensures again { tidy_of (tidy_of tl.now) ≡ tidy_of tl.now }
{}

/// An encoded beat has the phase of the beat's place past the origin, and lies at most half a quantum,
/// rounded up, from the beat.
pub fn encoded_beats_keep_phase(tl: &Timeline, time: i64, quantum: i64)
    requires { IsQuantum quantum }
    ensures phase { phase_of (encoded_beat tl.now time quantum) quantum
        ≡ phase_of (beat_at tl.now time -ℤ tl.now.beat) quantum }
    ensures near { pos (2 * unsigned_abs (encoded_beat tl.now time quantum -ℤ beat_at tl.now time))
        ≤ℤ (quantum +ℤ pos 1) }
{}

/// An encoded beat has the time of the beat that it was made from.
pub fn encoded_times_undo_encoded_beats(tl: &Timeline, time: i64, quantum: i64)
    requires { IsQuantum quantum }
    ensures { encoded_time tl.now (encoded_beat tl.now time quantum) quantum
        ≡ time_at tl.now (beat_at tl.now time) }
{}

/// A click stands exactly where a whole beat is passed.
pub fn clicks_pass_beats(tl: &Timeline, time: i64)
    requires { IsTidy tl.now }
    ensures { IsTrue (clicks_at tl.now time) ↔ Passes tl.now time }
{}

/// A beat clicks in one microsecond alone.
pub fn beats_click_once()
    ensures { (tl : Timeline) (k one other : ℤ) → IsTidy tl → PassesBeat tl k one → PassesBeat tl k other → one ≡ other }
{}

/// Two timelines of one tempo click alike and have the same accents and pass the same beats, each counted from its own time
/// origin, where nothing is clipped.
pub fn equal_tempos_click_alike()
    ensures click { (tl other : Timeline) (time there : ℤ) → IsTidy tl → IsTidy other → tl.mpb ≡ other.mpb
        → (time -ℤ tl.time) ≡ (there -ℤ other.time) → IsInReach tl time → IsInReach other there
        → clicks_at tl time ≡ clicks_at other there }
    ensures accent { (tl other : Timeline) (time there q : ℤ) → IsTidy tl → IsTidy other → tl.mpb ≡ other.mpb
        → (time -ℤ tl.time) ≡ (there -ℤ other.time) → IsInReach tl time → IsInReach other there
        → is_accented tl q time ≡ is_accented other q there }
    ensures beat { (tl other : Timeline) (k time there : ℤ) → IsTidy tl → IsTidy other → tl.mpb ≡ other.mpb
        → (time -ℤ tl.time) ≡ (there -ℤ other.time) → IsInReach tl time → IsInReach other there
        → PassesBeat tl k time → PassesBeat other k there }
{}
