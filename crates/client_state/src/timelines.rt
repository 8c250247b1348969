//! From a session's timeline to a client's and back.

ghost use Rattle.std.specs.Prelude.{◌≡◌, pos, ◌^◌, ◌↔◌, ◌⊎◌, ◌<ℤ◌, None, Some, Ok, IsErr, IfOk, IsTrue};
ghost use Rattle.lk_base.specs.Ranges.{IsWithinLimit};
ghost use Rattle.lk_base.specs.Timeline.{IsTidy};
ghost use Rattle.client_state.specs.Timelines.{KeepsBeat, client_from_session_of, new_origin_of, renewed_of, session_from_client_of};
ghost use Rattle.client_state.specs.Timelines as spec;
ghost use Rattle.ghost_xform.specs.GhostTime.{ghost_of};
ghost use Rattle.timeline_math.specs.Beats.{beat_at};

use ghost_xform::XForm;
use lk_base::{LIMIT, Timeline};
use timeline_math::{beat_at, time_at};

/// The session's beat origin is the greatest that there is, so that no later one can win over it.
#[derive(Clone, Copy, Debug, PartialEq, Eq)]
pub struct OriginSpent;

/// The client's timeline for a session's: with the session's tempo, and with the session's beat 0 at the client's beat at
/// that time, so that the client's beats go on at `now`. After Link 3 (`ClientSessionTimelines.hpp`); the formula is this
/// project's own.
#[tactic(auto, unfolding(crate::specs::Timelines::client_from_session_of, crate::specs::Timelines::zero_time_of))]
pub fn client_from_session(
    client: &Timeline,
    session: &Timeline,
    now: i64,
    xform: XForm,
) -> Timeline
    requires client { IsTidy client.now }
    requires session { IsTidy session.now }
    requires now { IsWithinLimit now }
    ensures value { result ≡ client_from_session_of client.now session.now now xform.offset }
    ensures tidy { IsTidy result }
{
    let going_on = Timeline {
        mpb: session.mpb,
        beat: beat_at(client, now),
        time: now,
    };
    let zero = xform.to_host(time_at(session, 0));
    Timeline {
        mpb: session.mpb,
        beat: beat_at(&going_on, zero),
        time: zero,
    }
}

/// The session's timeline for a client's, which was edited at the host time `at`.
///
/// Where the session's beat at the client's time origin is 0 and the tempi are equal, nothing changes. Else the new one
/// has the client's tempo, beat 0 at the client's time origin, and the beat origin of the session's beat at `at`, or one
/// more than the session's where that is greater, so that it wins: `OriginSpent` exactly where there is none greater.
#[tactic(auto, unfolding(crate::specs::Timelines::session_from_client_of))]
pub fn session_from_client(
    session: &Timeline,
    client: &Timeline,
    at: i64,
    xform: XForm,
) -> Result<Timeline, OriginSpent>
    requires session { IsTidy session.now }
    requires client { IsTidy client.now }
    requires at { IsWithinLimit at }
    ensures kept { KeepsBeat session.now client.now xform.offset → result ≡ Ok session.now }
    ensures spent { IsErr result
        ↔ ((¬ (KeepsBeat session.now client.now xform.offset)) × (session.now.beat ≡ pos (2 ^ 60))) }
    ensures renewed { ¬ (KeepsBeat session.now client.now xform.offset) → ¬ (session.now.beat ≡ pos (2 ^ 60))
        → result ≡ Ok (renewed_of session.now client.now at xform.offset) }
    ensures tidy { IfOk result IsTidy }
    ensures later { IfOk result (λ tl. (tl ≡ session.now) ⊎ (session.now.beat <ℤ tl.beat)) }
    ensures value { IfOk result (λ tl. session_from_client_of session.now client.now at xform.offset ≡ Some tl) }
    ensures none { IsErr result ↔ (session_from_client_of session.now client.now at xform.offset ≡ None) }
{
    if keeps_beat(session, client, xform) {
        Ok(*session)
    } else if session.beat == LIMIT {
        Err(OriginSpent)
    } else {
        Ok(renewed(session, client, at, xform))
    }
}

// Whether neither beat 0 nor the tempo changes.
#[tactic(auto, unfolding(crate::specs::Timelines::keeps_beat))]
fn keeps_beat(session: &Timeline, client: &Timeline, xform: XForm) -> bool
    requires session { IsTidy session.now }
    ensures value { result ≡ spec.keeps_beat session.now client.now xform.offset }
    ensures keeps { IsTrue result ↔ KeepsBeat session.now client.now xform.offset }
{
    session.mpb == client.mpb && ghost_beat(session, client.time, xform) == 0
}

// The timeline that wins over the session's.
#[tactic(auto, unfolding(crate::specs::Timelines::renewed_of))]
fn renewed(session: &Timeline, client: &Timeline, at: i64, xform: XForm) -> Timeline
    requires session { IsTidy session.now }
    requires client { IsTidy client.now }
    requires greater { session.now.beat <ℤ pos (2 ^ 60) }
    ensures value { result ≡ renewed_of session.now client.now at xform.offset }
    ensures tidy { IsTidy result }
    ensures later { session.now.beat <ℤ result.beat }
{
    let origin = new_origin(session, at, xform);
    let from_zero = Timeline {
        mpb: client.mpb,
        beat: 0,
        time: xform.to_ghost(client.time),
    };
    Timeline {
        mpb: client.mpb,
        beat: origin,
        time: time_at(&from_zero, origin),
    }
}

// The session's beat at the time of the edit, or one more than its origin.
#[tactic(auto, unfolding(crate::specs::Timelines::new_origin_of))]
fn new_origin(session: &Timeline, at: i64, xform: XForm) -> i64
    requires session { IsTidy session.now }
    requires greater { session.now.beat <ℤ pos (2 ^ 60) }
    ensures value { result ≡ new_origin_of session.now at xform.offset }
    ensures within { IsWithinLimit result }
    ensures later { session.now.beat <ℤ result }
{
    ghost_beat(session, at, xform).max(session.beat + 1)
}

// The session's beat at a host time.
pub(crate) fn ghost_beat(session: &Timeline, host: i64, xform: XForm) -> i64
    requires { IsTidy session.now }
    ensures value { result ≡ beat_at session.now (ghost_of xform.offset host) }
    ensures within { IsWithinLimit result }
{
    beat_at(session, xform.to_ghost(host))
}
