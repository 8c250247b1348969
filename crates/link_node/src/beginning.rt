//! What a session begins with that is founded or joined, and which starts are taken: laws for what stands above. To call one
//! is to know it.

ghost use Rattle.std.specs.Prelude.{◌≡◌, ◌+◌, ◌+ℤ◌, ◌<ℤ◌, pos, [], Some, IsTrue};
ghost use Rattle.lk_base.specs.declared.start.ClientStart.{ClientStart};
ghost use Rattle.asdp_messages.specs.declared.message.StateMsg.{StateMsg};
ghost use Rattle.ghost_xform.specs.GhostTime.{ghost_of};
ghost use Rattle.client_state.specs.Starts.{start_to_client_of, start_to_session_of};
ghost use Rattle.client_state.specs.declared.commit.Commit.{Commit};
ghost use Rattle.link_node.specs.Event.{EventValue, moment_of};
ghost use Rattle.link_node.specs.Founding.{GoesOnAlone};
ghost use Rattle.link_node.specs.Machine.{Machine, session_in, timeline_in, offset_in, start_in};
ghost use Rattle.link_node.specs.Staying.{Hears, IsSpent, commit_in};
ghost use Rattle.link_node.specs.Step.{at_moment, taken, step_of};

/// A founded session goes on with the tempo and, exactly, the beat of the one that is left, which is the node's session once
/// the event was taken. It has no start, waits for nobody and measures nothing.
pub fn founded_sessions_go_on()
    ensures { (m : Machine) (e : EventValue) → (step_of m e).drawn ≡ m.drawn + 1
        → GoesOnAlone (taken e (at_moment (moment_of e) m)) (step_of m e) }
{}

/// A session that is joined has no start yet, and is measured anew 30 seconds later.
pub fn joined_sessions_have_no_start()
    ensures starts { (m : Machine) (e : EventValue) → (step_of m e).drawn ≡ m.drawn
        → (session_in (step_of m e) ≡ session_in m → ⊥) → (step_of m e).starts ≡ [] }
    ensures remeasured { (m : Machine) (e : EventValue) → (step_of m e).drawn ≡ m.drawn
        → (session_in (step_of m e) ≡ session_in m → ⊥)
        → (step_of m e).remeasure_at ≡ Some ((step_of m e).moment +ℤ pos 30_000_000) }
{}

/// Where no session is founded, a start that is heard in the current session and is later than its own becomes its own, and
/// with sync the client's. With sync, a commit's start that is later than the client's and than the session's becomes the
/// session's, unless the commit's timeline has no greater origin to go to.
pub fn later_starts_are_taken()
    ensures session { (m : Machine) (e : EventValue) (msg : StateMsg) → Hears m e msg → (step_of m e).drawn ≡ m.drawn
        → msg.fields.session ≡ session_in m → (start_in m).stamp <ℤ msg.fields.start.stamp
        → start_in (step_of m e) ≡ msg.fields.start }
    ensures client { (m : Machine) (e : EventValue) (msg : StateMsg) → Hears m e msg → (step_of m e).drawn ≡ m.drawn
        → msg.fields.session ≡ session_in m → (start_in m).stamp <ℤ msg.fields.start.stamp → IsTrue m.config.sync
        → (step_of m e).client_start ≡ start_to_client_of msg.fields.start (timeline_in (step_of m e)) (offset_in (step_of m e)) }
    ensures commit { (m : Machine) (e : EventValue) (commit : Commit) (start : ClientStart) → commit_in e ≡ Some commit
        → commit.start ≡ Some start → (IsSpent m commit → ⊥) → (step_of m e).drawn ≡ m.drawn → IsTrue m.config.sync
        → m.client_start.stamp <ℤ start.stamp → (start_in m).stamp <ℤ ghost_of (offset_in m) start.stamp
        → start_in (step_of m e) ≡ start_to_session_of start (timeline_in (step_of m e)) (offset_in (step_of m e)) }
{}
