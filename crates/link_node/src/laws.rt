//! Laws of the machine's step and of whole runs, for what stands above: to call one is to know it.

ghost use Rattle.std.specs.Prelude.{◌≡◌, ◌≤◌, ◌⊎◌, ◌≤ℤ◌, ℕ, ℤ, List, [], ◌∷◌, ◌++◌, length};
ghost use Rattle.std.specs.Int.{int_max};
ghost use Rattle.std.specs.List.{AllByRecursion};
ghost use Rattle.lk_base.specs.declared.ids.NodeId.{NodeId};
ghost use Rattle.lk_base.specs.declared.timeline.Timeline.{Timeline};
ghost use Rattle.client_state.specs.declared.commit.Commit.{Commit};
ghost use Rattle.peer_gateway.specs.Happenings.{Has};
ghost use Rattle.session_choice.specs.Best.{IsBest};
ghost use Rattle.link_node.specs.Brought.{IsTakenIn, made_by, Brings, IsToldIn};
ghost use Rattle.link_node.specs.Event.{EventValue, Fits, moment_of, app_after, audio_after};
ghost use Rattle.link_node.specs.Event as event;
ghost use Rattle.link_node.specs.Machine.{Machine, timeline_in};
ghost use Rattle.link_node.specs.Runs.{machine_after, sent_by, published_by};
ghost use Rattle.link_node.specs.Step.{step_of, sends_of};

use session_choice::one_best;

/// A step leads to the greater of the moment before and the event's, so moments never fall. The config stays.
pub fn moments_never_fall()
    ensures moment { (m : Machine) (e : EventValue) → (step_of m e).moment ≡ int_max m.moment (moment_of e) }
    ensures never_falls { (m : Machine) (e : EventValue) → m.moment ≤ℤ (step_of m e).moment }
    ensures reaches { (m : Machine) (e : EventValue) → m.moment ≤ℤ moment_of e → (step_of m e).moment ≡ moment_of e }
    ensures config { (m : Machine) (e : EventValue) → (step_of m e).config ≡ m.config }
{}

/// Application commits are counted, and the number of the last audio commit is kept, which never falls.
pub fn commits_are_counted()
    ensures app { (m : Machine) (e : EventValue) → (step_of m e).app ≡ app_after m.app e }
    ensures audio { (m : Machine) (e : EventValue) → (step_of m e).audio ≡ audio_after m.audio e }
    ensures never_falls { (m : Machine) (e : EventValue) → Fits (length m.config.gates) m.app m.audio e
        → m.audio ≤ (step_of m e).audio }
{}

/// A commit sends nothing.
pub fn commits_send_nothing()
    ensures app { (m : Machine) (commit : Commit) (now : ℤ) → sends_of m (event.App commit now) ≡ [] }
    ensures audio { (m : Machine) (number : ℕ) (commit : Commit) (now : ℤ) → sends_of m (event.Audio number commit now) ≡ [] }
{}

/// Each timeline that a session has taken after a step, it had taken before, or it is made in this step (a session was
/// founded with it, or a commit gave it), or the event is a message that tells it.
pub fn timelines_are_brought()
    ensures { (m : Machine) (e : EventValue) (session : NodeId) (tl : Timeline) → IsTakenIn (step_of m e) session tl
        → IsTakenIn m session tl ⊎ (Has (made_by m e) (session, tl) ⊎ Brings e session tl) }
{}

/// Each state message that is sent tells the current session and its timeline, which is the first of greatest beat origin that
/// the session has taken: a response as it was before the event, an alive as it is after it.
pub fn best_timelines_are_told()
    ensures told { (m : Machine) (e : EventValue) → AllByRecursion (IsToldIn m e) (sends_of m e) }
    ensures best { (m : Machine) → IsBest (m.sessions.current.first ∷ m.sessions.current.later) (timeline_in m) }
{
    // A law, for the proof: the timeline that counts is the first of greatest beat origin.
    one_best();
}

/// A run of two lists of events is the run of the second from where the first has led.
pub fn runs_go_on()
    ensures machine { (m : Machine) (es fs : List EventValue)
        → machine_after m (es ++ fs) ≡ machine_after (machine_after m es) fs }
    ensures sent { (m : Machine) (es fs : List EventValue)
        → sent_by m (es ++ fs) ≡ sent_by m es ++ sent_by (machine_after m es) fs }
    ensures published { (m : Machine) (es fs : List EventValue)
        → published_by m (es ++ fs) ≡ published_by m es ++ published_by (machine_after m es) fs }
{}
