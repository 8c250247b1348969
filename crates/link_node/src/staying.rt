//! What a step keeps and what it leads to: laws for what stands above. To call one is to know it.

ghost use Rattle.std.specs.Prelude.{◌≡◌, ◌<◌, ◌<ℤ◌, ◌≤ℤ◌, ◌⊎◌, ℤ, List, Some, length, false};
ghost use Rattle.lk_base.specs.Ranges.{IsMoment};
ghost use Rattle.lk_base.specs.declared.ids.NodeId.{NodeId};
ghost use Rattle.lk_base.specs.declared.timeline.Timeline.{Timeline};
ghost use Rattle.asdp_messages.specs.declared.message.StateMsg.{StateMsg};
ghost use Rattle.timeline_math.specs.Tidying.{tidy_of};
ghost use Rattle.peer_gateway.specs.Happenings.{Has};
ghost use Rattle.session_choice.specs.Winning.{Wins};
ghost use Rattle.link_node.specs.Brought.{IsTakenIn, committed_by, taken_in};
ghost use Rattle.link_node.specs.Config.{ConfigValue};
ghost use Rattle.link_node.specs.Event.{EventValue};
ghost use Rattle.link_node.specs.Machine.{Machine, session_in, timeline_in, offset_in};
ghost use Rattle.link_node.specs.Measured.{IsMeasured};
ghost use Rattle.link_node.specs.Opening.{opened};
ghost use Rattle.link_node.specs.Publishing.{alike};
ghost use Rattle.link_node.specs.Runs.{machine_after, published_by, replayed};
ghost use Rattle.client_state.specs.declared.commit.Commit.{Commit};
ghost use Rattle.lk_base.specs.declared.start.ClientStart.{ClientStart};
ghost use Rattle.lk_base.specs.declared.start.SessionStart.{SessionStart};
ghost use Rattle.link_node.specs.Starting.{BringsStart};
ghost use Rattle.link_node.specs.Staying.{IsFounded, IsKnownIn, IsFollowing, ShowsBest, Hears, IsSpent, CarriesNoQuantum, commit_in, last_of, only_counted};
ghost use Rattle.link_node.specs.Step.{step_of, change_of};
ghost use Rattle.link_node.specs.WellFormed.{IsMachine};
ghost use Rattle.link_node.specs.declared.event.Change.TheVariants.{Same, Published};

use session_choice::{not_both_win, one_best};

/// A node that had peers and has none founds a session, and no other draws an id.
pub fn who_is_left_founds()
    ensures founds { (m : Machine) (e : EventValue) → 0 < m.peers → (step_of m e).peers ≡ 0 → IsFounded m (step_of m e) }
    ensures alone { (m : Machine) (e : EventValue) → m.peers ≡ 0
        → ((step_of m e).drawn ≡ m.drawn) × ((step_of m e).id ≡ m.id) }
    ensures among { (m : Machine) (e : EventValue) → 0 < (step_of m e).peers
        → ((step_of m e).drawn ≡ m.drawn) × ((step_of m e).id ≡ m.id) }
{}

/// A state is published just where it differs from the one before in more than its moment, and the last one published
/// is the node's.
pub fn states_are_published()
    ensures same { (m : Machine) (e : EventValue) → change_of m e ≡ Same → (step_of m e).published ≡ m.published }
    ensures new { (m : Machine) (e : EventValue) → change_of m e ≡ Published
        → alike (step_of m e).published m.published ≡ false }
    ensures last { (m : Machine) (es : List EventValue)
        → last_of m.published (published_by m es) ≡ (machine_after m es).published }
{}

/// Each timeline that a session has taken it keeps, until it is forgotten or the node founds a session; so does the current
/// one while the node stays in it.
pub fn timelines_stay()
    ensures known { (m : Machine) (e : EventValue) (session : NodeId) (tl : Timeline) → IsMachine m
        → (step_of m e).drawn ≡ m.drawn → IsTakenIn m session tl → IsKnownIn (step_of m e) session
        → IsTakenIn (step_of m e) session tl }
    ensures current { (m : Machine) (e : EventValue) (tl : Timeline) → IsMachine m → IsMachine (step_of m e)
        → (step_of m e).drawn ≡ m.drawn → session_in (step_of m e) ≡ session_in m
        → Has (taken_in m) tl → Has (taken_in (step_of m e)) tl }
{}

/// A node leaves its session for one that wins over it, by the offset that was measured, or for one that it founds.
pub fn sessions_are_left_for_winners()
    ensures { (m : Machine) (e : EventValue) → (step_of m e).drawn ≡ m.drawn
        → (session_in (step_of m e) ≡ session_in m)
        ⊎ Wins (session_in (step_of m e)) (offset_in (step_of m e)) (session_in m) (offset_in m) (step_of m e).moment }
{
    // A law, for the proof: what the test of who wins says.
    not_both_win();
}

/// A client has its session's tempo, and its time origin is the host time of the session's beat 0: so at the opening,
/// and after each step; and the state published last shows that timeline.
pub fn clients_follow_sessions()
    ensures opening { (config : ConfigValue) (now : ℤ) → IsMoment now → IsFollowing (opened config now) }
    ensures step { (m : Machine) (e : EventValue) → IsFollowing m → IsFollowing (step_of m e) }
    ensures shown { (m : Machine) (e : EventValue) → (step_of m e).published.timeline ≡ (step_of m e).client }
    ensures run { (config : ConfigValue) (now : ℤ) (es : List EventValue) → IsMoment now → ShowsBest (replayed config now es) }
{
    // A law, for the proof: a timeline that isn't above the best one leaves it the best.
    one_best();
}

/// Where no session is founded, a timeline that is heard is taken, unless its session is a new one for which there is no
/// room. A session that becomes known so waits to be measured.
pub fn heard_timelines_are_taken()
    ensures known { (m : Machine) (e : EventValue) (msg : StateMsg) → Hears m e msg → (step_of m e).drawn ≡ m.drawn
        → IsKnownIn m msg.fields.session → IsTakenIn (step_of m e) msg.fields.session (tidy_of msg.fields.timeline) }
    ensures new { (m : Machine) (e : EventValue) (msg : StateMsg) → Hears m e msg → (step_of m e).drawn ≡ m.drawn
        → (IsKnownIn m msg.fields.session → ⊥) → length m.sessions.others < 64
        → IsTakenIn (step_of m e) msg.fields.session (tidy_of msg.fields.timeline)
        × Has (step_of m e).waiting msg.fields.session }
{}

/// Who hears its own session told, and has room for the peer's row, stays in that session, has taken the timeline told, and
/// holds one whose beat origin is at least the one told.
pub fn told_timelines_are_held()
    ensures stays { (m : Machine) (e : EventValue) (msg : StateMsg) → Hears m e msg → msg.fields.session ≡ session_in m
        → ((step_of m e).drawn ≡ m.drawn) × (session_in (step_of m e) ≡ session_in m) }
    ensures taken { (m : Machine) (e : EventValue) (msg : StateMsg) → Hears m e msg → msg.fields.session ≡ session_in m
        → Has (taken_in (step_of m e)) (tidy_of msg.fields.timeline) }
    ensures held { (m : Machine) (e : EventValue) (msg : StateMsg) → Hears m e msg → msg.fields.session ≡ session_in m
        → (tidy_of msg.fields.timeline).beat ≤ℤ (timeline_in (step_of m e)).beat }
{
    // A law, for the proof: the timeline that counts is the first of greatest beat origin.
    one_best();
}

/// Each start that the current session has taken after a step, it had taken before, or the event is a message that tells
/// it in that session, or with sync a commit whose start's image it is.
pub fn starts_are_brought()
    ensures { (m : Machine) (e : EventValue) (start : SessionStart) → Has (step_of m e).starts start
        → Has m.starts start ⊎ BringsStart m e start }
{}

/// Where no session is founded, the current session and its offset stay, or the event is a pong that ends a measurement
/// of that session with that offset.
pub fn offsets_are_measured()
    ensures { (m : Machine) (e : EventValue) → (step_of m e).drawn ≡ m.drawn
        → ((session_in (step_of m e) ≡ session_in m) × (offset_in (step_of m e) ≡ offset_in m))
        ⊎ IsMeasured m e (session_in (step_of m e)) (offset_in (step_of m e)) }
{}

/// Where no session is founded, a timeline that a commit gives is the session's from then on. A commit's start that is
/// later than the client's becomes the client's, unless the commit's timeline has no greater origin to go to.
pub fn commits_count()
    ensures timeline { (m : Machine) (e : EventValue) (session : NodeId) (tl : Timeline) → Has (committed_by e m) (session, tl)
        → (step_of m e).drawn ≡ m.drawn → (session_in (step_of m e) ≡ session) × (timeline_in (step_of m e) ≡ tl) }
    ensures start { (m : Machine) (e : EventValue) (commit : Commit) (start : ClientStart) → commit_in e ≡ Some commit
        → commit.start ≡ Some start → m.client_start.stamp <ℤ start.stamp → (IsSpent m commit → ⊥)
        → (step_of m e).client_start ≡ start }
{
    // A law, for the proof: a timeline of greater beat origin than the best one is the best.
    one_best();
}

/// A node's quantum is the one that it was opened with, or the one of the commit taken last that has one: a commit whose
/// timeline has no greater origin to go to gives none, and nothing else changes it.
pub fn quanta_are_committed()
    ensures opening { (config : ConfigValue) (now : ℤ) → (opened config now).quantum ≡ config.quantum }
    ensures taken { (m : Machine) (e : EventValue) (commit : Commit) (quantum : ℤ) → commit_in e ≡ Some commit
        → commit.quantum ≡ Some quantum → (IsSpent m commit → ⊥) → (step_of m e).quantum ≡ quantum }
    ensures kept { (m : Machine) (e : EventValue) → CarriesNoQuantum e → (step_of m e).quantum ≡ m.quantum }
    ensures spent { (m : Machine) (e : EventValue) (commit : Commit) → commit_in e ≡ Some commit → IsSpent m commit
        → (step_of m e).quantum ≡ m.quantum }
{}

/// A commit whose timeline has no greater origin to go to only counts: neither its timeline, its start nor its quantum is
/// taken, and nothing changes but the moment, the counts and so the state that is published.
pub fn spent_origins_only_count()
    ensures { (m : Machine) (e : EventValue) (commit : Commit) → IsMachine m → commit_in e ≡ Some commit → IsSpent m commit
        → step_of m e ≡ only_counted m e }
{}
