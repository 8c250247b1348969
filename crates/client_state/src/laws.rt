//! Laws of edits, conversions and rows, in a musician's words: to call one is to know it.

ghost use Rattle.std.specs.Prelude.{◌≡◌, ◌≤◌, ◌<◌, ◌^◌, ◌+ℤ◌, ◌-ℤ◌, ◌*ℤ◌, ◌<ℤ◌, ℕ, ℤ, pos, Some, unsigned_abs};
ghost use Rattle.lk_base.specs.Ranges.{IsQuantum, IsWithinLimit};
ghost use Rattle.lk_base.specs.Timeline.{IsTidy};
ghost use Rattle.lk_base.specs.declared.timeline.Timeline.{Timeline};
ghost use Rattle.timeline_math.specs.Beats.{beat_at};
ghost use Rattle.timeline_math.specs.Clicks.{clicks_at, is_accented, PassesBeat};
ghost use Rattle.client_state.specs.Commit.{IsTidyCommit};
ghost use Rattle.client_state.specs.Edits.{tempo_set_of, match_of, forced_of, requested_of};
ghost use Rattle.client_state.specs.State.{IsId, IsTidyState};
ghost use Rattle.client_state.specs.Timelines.{going_on, zero_time_of, client_from_session_of, session_from_client_of, Follows, IsInReachOf};
ghost use Rattle.client_state.specs.Unclipped.{IsUnclippedTempo, IsUnclippedForce, IsUnclippedRequest, IsUnclippedReturn, wide_beat_at};
ghost use Rattle.client_state.specs.Words.{words_of_state, state_of_words, words_of_commit, commit_of_words};
ghost use Rattle.client_state.specs.declared.commit.Commit.{Commit};
ghost use Rattle.client_state.specs.declared.state.State.{State};

use timeline_math::{beats_click_once, equal_tempos_click_alike};

/// Setting a tempo keeps the beat at that moment, but for at most 8 microbeats of rounding, where the new time origin
/// isn't clipped.
pub fn tempo_keeps_the_beat()
    ensures { (tl : Timeline) (mpb at : ℤ) → IsTidy tl → IsUnclippedTempo tl mpb at
        → unsigned_abs (beat_at (tempo_set_of tl mpb at) at -ℤ beat_at tl at) ≤ 8 }
{}

/// Where nothing is clipped, forcing a beat puts the beat at that moment, counted from the beat origin, on the forced
/// beat but for whole quanta and at most 17 microbeats of rounding. Without a quantum it is the forced beat.
pub fn forced_beats_fall_on_the_quantum()
    ensures quantum { (tl : Timeline) (beat at q : ℤ) → IsTidy tl → IsQuantum q → pos 0 <ℤ q
        → IsUnclippedForce tl beat at q
        → (k : ℤ) × (unsigned_abs
        ((beat_at (forced_of tl beat at q) at -ℤ (forced_of tl beat at q).beat) -ℤ (beat +ℤ k *ℤ q)) ≤ 17) }
    ensures free { (tl : Timeline) (beat at : ℤ) → IsTidy tl → IsUnclippedForce tl beat at (pos 0)
        → beat_at (forced_of tl beat at (pos 0)) at ≡ beat }
{}

/// A forced beat moves the beat origin by a whole number of quanta, where the new one isn't clipped.
pub fn forced_beats_move_the_origin_by_quanta()
    ensures { (tl : Timeline) (beat at q : ℤ) → IsQuantum q → pos 0 <ℤ q
        → IsWithinLimit (tl.beat +ℤ (beat -ℤ match_of tl beat at q))
        → (k : ℤ) × ((forced_of tl beat at q).beat ≡ tl.beat +ℤ k *ℤ q) }
{}

/// With peers a requested beat keeps the phase, where nothing is clipped: the beat origin moves by a whole number of quanta,
/// and the time origin by at most 3 microseconds of rounding.
pub fn requested_beats_keep_the_phase()
    ensures origin { (peers : ℕ) (tl : Timeline) (beat at q : ℤ) → 0 < peers → IsQuantum q → pos 0 <ℤ q
        → IsUnclippedRequest tl beat at q
        → (k : ℤ) × ((requested_of peers tl beat at q).beat ≡ tl.beat +ℤ k *ℤ q) }
    ensures time { (peers : ℕ) (tl : Timeline) (beat at q : ℤ) → 0 < peers → IsTidy tl → IsQuantum q
        → IsUnclippedRequest tl beat at q
        → unsigned_abs ((requested_of peers tl beat at q).time -ℤ tl.time) ≤ 3 }
{}

/// At the moment of a renewal a client's beat is exactly the one of before, where the beat of the client's line at the
/// session's beat 0 isn't clipped.
pub fn renewed_clients_keep_their_beat()
    ensures { (client session : Timeline) (now offset : ℤ) → IsTidy session
        → IsWithinLimit (wide_beat_at (going_on client session now) (zero_time_of session offset))
        → beat_at (client_from_session_of client session now offset) now ≡ beat_at client now }
{}

/// A client's timeline that went to the session and comes back moves no beat by more than 2 microbeats, where nothing is
/// clipped.
pub fn returned_timelines_keep_beats()
    ensures { (client session given : Timeline) (at now offset time : ℤ) → IsTidy client → IsTidy session
        → session_from_client_of session client at offset ≡ Some given
        → IsUnclippedReturn client given now offset time
        → unsigned_abs (beat_at (client_from_session_of client given now offset) time -ℤ beat_at client time) ≤ 2 }
{}

/// Clients of one session click together: of two that follow it, whatever their offsets, a host time clicks for the one
/// exactly where the host time of the same ghost time clicks for the other, with the same accents, where nothing is clipped.
/// And where both click one beat, they do so in one microsecond of ghost time. A client follows the session that it was
/// made from, at whatever moment and from whatever timeline.
pub fn clients_of_a_session_click_together()
    ensures follows { (client session : Timeline) (now offset : ℤ)
        → Follows session (client_from_session_of client session now offset) offset }
    ensures click { (session client other : Timeline) (offset other_offset time : ℤ) → IsTidy client → IsTidy other
        → Follows session client offset → Follows session other other_offset
        → IsInReachOf session client offset time
        → IsInReachOf session other other_offset (time +ℤ offset -ℤ other_offset)
        → clicks_at client time ≡ clicks_at other (time +ℤ offset -ℤ other_offset) }
    ensures accent { (session client other : Timeline) (offset other_offset time q : ℤ) → IsTidy client → IsTidy other
        → Follows session client offset → Follows session other other_offset
        → IsInReachOf session client offset time
        → IsInReachOf session other other_offset (time +ℤ offset -ℤ other_offset)
        → is_accented client q time ≡ is_accented other q (time +ℤ offset -ℤ other_offset) }
    ensures beat { (session client other : Timeline) (offset other_offset k time there : ℤ) → IsTidy client → IsTidy other
        → Follows session client offset → Follows session other other_offset
        → IsInReachOf session client offset time → IsInReachOf session other other_offset there
        → PassesBeat client k time → PassesBeat other k there → (time +ℤ offset) ≡ (there +ℤ other_offset) }
{
    // Laws, for the proof.
    equal_tempos_click_alike();
    beats_click_once();
}

/// A tidy state and a tidy commit are read back from their rows. The second and third premises hold of all states in code.
pub fn rows_are_read_back()
    ensures state { (state : State) → IsTidyState state → state.peers < 2 ^ 32 → IsId state.session
        → state_of_words (words_of_state state) ≡ state }
    ensures commit { (commit : Commit) → IsTidyCommit commit → commit_of_words (words_of_commit commit) ≡ commit }
{}
