//! From a client's start to a session's and back, and which of two starts counts.

ghost use Rattle.std.specs.Prelude.{◌≡◌, ◌^◌, int_lt, List, [], ◌∷◌, ◌++◌, if◌then◌else◌, Some, None, unwrap_or};
ghost use Rattle.lk_base.specs.Ranges.{IsWithinLimit};
ghost use Rattle.lk_base.specs.Timeline.{IsTidy};
ghost use Rattle.lk_base.specs.declared.start.SessionStart.{SessionStart};
ghost use Rattle.client_state.specs.Starts.{latest_start_of, start_to_client_of, start_to_session_of};

use crate::timelines::ghost_beat;
use ghost_xform::XForm;
use lk_base::{ClientStart, SessionStart, Timeline};
use timeline_math::time_at;

/// The session's start for a client's: the beat of its time, and its stamp in ghost time.
#[tactic(auto, unfolding(crate::specs::Starts::start_to_session_of))]
pub fn start_to_session(start: &ClientStart, session: &Timeline, xform: XForm) -> SessionStart
    requires { IsTidy session.now }
    ensures value { result ≡ start_to_session_of start.now session.now xform.offset }
    ensures beats { IsWithinLimit result.beats }
    ensures stamp { IsWithinLimit result.stamp }
{
    SessionStart {
        playing: start.playing,
        beats: ghost_beat(session, start.time, xform),
        stamp: xform.to_ghost(start.stamp),
    }
}

/// The client's start for a session's: the time of its beat, and its stamp in host time.
#[tactic(auto, unfolding(crate::specs::Starts::start_to_client_of))]
pub fn start_to_client(start: &SessionStart, session: &Timeline, xform: XForm) -> ClientStart
    requires session { IsTidy session.now }
    requires beats { IsWithinLimit start.now.beats }
    ensures value { result ≡ start_to_client_of start.now session.now xform.offset }
    ensures time { IsWithinLimit result.time }
    ensures stamp { IsWithinLimit result.stamp }
{
    ClientStart {
        playing: start.playing,
        time: xform.to_host(time_at(session, start.beats)),
        stamp: xform.to_host(start.stamp),
    }
}

/// The start that was seen, where it was set later than the one held; else None.
pub fn later_start(held: &SessionStart, seen: &SessionStart) -> Option<SessionStart>
    ensures value { result ≡ (if int_lt held.now.stamp seen.now.stamp then Some seen.now else None) }
    // Where the one held is the first of greatest stamp of those taken, what is held then is so too.
    ensures latest { (first : SessionStart) (later : List SessionStart) → held.now ≡ latest_start_of first later
        → unwrap_or result held.now ≡ latest_start_of first (later ++ seen.now ∷ []) }
{
    if seen.stamp > held.stamp {
        Some(*seen)
    } else {
        None
    }
}
