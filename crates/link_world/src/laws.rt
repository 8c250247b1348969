//! Laws of worlds: to call one is to know it.

ghost use Rattle.std.specs.Prelude.{ℤ, pos, ◌*◌, ◌+ℤ◌, ◌-ℤ◌, ◌≤ℤ◌, List, unsigned_abs};
ghost use Rattle.std.specs.List.{AllByRecursion};
ghost use Rattle.lk_base.specs.Ranges.{IsMoment};
ghost use Rattle.lk_base.specs.Timeline.{IsTidy};
ghost use Rattle.lk_base.specs.declared.timeline.Timeline.{Timeline};
ghost use Rattle.timeline_math.specs.Clicks.{PassesBeat};
ghost use Rattle.ping_measure.specs.Life.{Life};
ghost use Rattle.client_state.specs.Timelines.{Follows, IsInReachOf};
ghost use Rattle.link_node.specs.Config.{ConfigValue, IsConfig};
ghost use Rattle.link_world.specs.Agreement.{HasOrigins, Agrees, Converges, IsSoundWorld};
ghost use Rattle.link_world.specs.Apart.{HasMeasured, offset_by};
ghost use Rattle.link_world.specs.Stored.{IsStoredConfig};
ghost use Rattle.link_world.specs.World.{WorldValue, TurnValue, HasOneWorld, IsWorldOf};

use asdp_messages::{measurements_tell_no_state, written_is_read};
use client_state::clients_of_a_session_click_together;
use link_node::{
    best_timelines_are_told, clients_follow_sessions, moments_never_fall, nodes_are_well_formed,
    timelines_are_brought, timelines_stay, told_timelines_are_held, who_is_left_founds,
};
use ping_measure::honest_pongs_bound_the_error;

/// A schedule leads to one world.
pub fn one_world()
    ensures { HasOneWorld }
{}

/// Two nodes that follow one session, and measured one clock with honest pongs after at most so many microseconds, click each
/// beat at moments that are by that clock at most half of both round trips and 1 microsecond apart, where nothing is clipped.
/// A node whose offset is exact, as a founder's by its own clock, adds nothing to that but the half microsecond of the other's.
pub fn one_beat_clicks_nearly_at_once()
    ensures measured { (session client other : Timeline) (life there : Life) (ahead other_ahead round_trip other_round_trip : ℤ) (k time at : ℤ)
        → HasMeasured life ahead round_trip → HasMeasured there other_ahead other_round_trip
        → IsTidy client → IsTidy other → Follows session client (offset_by life) → Follows session other (offset_by there)
        → IsInReachOf session client (offset_by life) time → IsInReachOf session other (offset_by there) at
        → PassesBeat client k time → PassesBeat other k at
        → pos (2 * unsigned_abs ((time +ℤ ahead) -ℤ (at +ℤ other_ahead))) ≤ℤ (round_trip +ℤ other_round_trip +ℤ pos 2) }
    ensures founder { (session client other : Timeline) (there : Life) (offset other_ahead other_round_trip : ℤ) (k time at : ℤ)
        → HasMeasured there other_ahead other_round_trip
        → IsTidy client → IsTidy other → Follows session client offset → Follows session other (offset_by there)
        → IsInReachOf session client offset time → IsInReachOf session other (offset_by there) at
        → PassesBeat client k time → PassesBeat other k at
        → pos (2 * unsigned_abs ((time +ℤ offset) -ℤ (at +ℤ other_ahead))) ≤ℤ (other_round_trip +ℤ pos 1) }
{
    // Laws, for the proof.
    clients_of_a_session_click_together();
    honest_pongs_bound_the_error();
}

// What holds of each world that a schedule leads to. That ids and endpoints are stored holds of all configs in code.
pub(crate) fn worlds_are_sound()
    ensures { (configs : List ConfigValue) (now : ℤ) (turns : List TurnValue) (w : WorldValue)
        → AllByRecursion IsConfig configs → AllByRecursion IsStoredConfig configs → IsMoment now
        → IsWorldOf configs now turns w → IsSoundWorld configs now turns w }
{
    // Laws of what stands below, for the proof.
    timelines_are_brought();
    best_timelines_are_told();
    nodes_are_well_formed();
    moments_never_fall();
    who_is_left_founds();
    written_is_read();
    measurements_tell_no_state();
    clients_follow_sessions();
    timelines_stay();
    told_timelines_are_held();
    clients_of_a_session_click_together();
}

// Who took the same holds the same.
pub(crate) fn the_same_agree()
    ensures { (w : WorldValue) → Agrees w }
{
    // A law, for the proof: the timeline that counts is the first of greatest beat origin.
    best_timelines_are_told();
}

// Who took all that was made holds the greatest of it.
pub(crate) fn who_took_all_converges()
    ensures { (configs : List ConfigValue) (now : ℤ) (turns : List TurnValue) (w : WorldValue)
        → HasOrigins configs now turns w → Converges configs now turns w }
{}
