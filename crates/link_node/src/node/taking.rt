//! Taking the state that a peer tells.

use crate::node::Node;
use asdp_messages::StateMsg;
use client_state::{later_start, start_to_client};
use link_payload::PeerFields;
use lk_base::{ClientStart, Gate, NodeId, SessionStart};
use peer_gateway::Seen;
use session_choice::Saw;
use timeline_math::tidy;

impl Node {
    ghost use Rattle.std.specs.Prelude.{◌≡◌, ◌<◌, [], ◌∷◌, ◌++◌, length, if◌then◌else◌};
    ghost use Rattle.link_payload.specs.Fields.{AreInRange};
    ghost use Rattle.timeline_math.specs.Tidying.{tidy_of};
    ghost use Rattle.client_state.specs.Commit.{IsTidyStart};
    ghost use Rattle.client_state.specs.Starts.{start_to_client_of};
    ghost use Rattle.session_choice.specs.History.{saw_of, saw_after};
    ghost use Rattle.session_choice.specs.declared.verdict.Saw.TheVariants.{New};
    ghost use Rattle.peer_gateway.specs.Answers.{seen_of};
    ghost use Rattle.link_node.specs.Machine.{Machine, timeline_in, offset_in};
    ghost use Rattle.link_node.specs.Standing.{HasParts, gates_of, app_of, audio_of};
    ghost use Rattle.link_node.specs.Taking.{is_current, sighted, state_taken, timeline_taken, followed, start_taken, with_start};
    ghost use Rattle.link_node.specs.WellFormed.{AreSessions, IsInLimits};

    // The peer's row, its timeline and its start; nothing where there is no room for the row.
    pub(super) fn take_state(&mut self, gate: Gate, msg: &StateMsg)
        requires gate { gate.0 < gates_of self.old }
        requires range { AreInRange msg.now.fields }
        ensures stands { (m : Machine) → AreSessions m → HasParts self.old m → HasParts self.new (state_taken gate msg.now m) }
        ensures gates { gates_of self.new ≡ gates_of self.old }
        ensures app { app_of self.new ≡ app_of self.old }
        ensures audio { audio_of self.new ≡ audio_of self.old }
    {
        match self.sight(gate, msg) {
            Seen::TableFull => {}
            Seen::New | Seen::Known => {
                self.take_timeline(&msg.fields);
                self.take_start(&msg.fields);
            }
        }
    }

    // The row of the peer, with the session that it tells.
    fn sight(&mut self, gate: Gate, msg: &StateMsg) -> Seen
        requires { gate.0 < gates_of self.old }
        ensures answer { (m : Machine) → HasParts self.old m → result ≡ seen_of gate msg.now.from m.life }
        ensures stands { (m : Machine) → HasParts self.old m → HasParts self.new (sighted gate msg.now m) }
        ensures gates { gates_of self.new ≡ gates_of self.old }
        ensures app { app_of self.new ≡ app_of self.old }
        ensures audio { audio_of self.new ≡ audio_of self.old }
    {
        self.peers.saw(
            gate,
            msg.from,
            msg.ttl,
            msg.fields.session,
            msg.fields.endpoint,
            self.moment,
        )
    }

    // The timeline is taken tidied. A new session waits where there is room.
    fn take_timeline(&mut self, fields: &PeerFields)
        ensures stands { (m : Machine)
            → (saw_of m.sessions fields.now.session (tidy_of fields.now.timeline) ≡ New → length m.waiting < 65)
            → HasParts self.old m → HasParts self.new (timeline_taken fields.now m) }
        ensures gates { gates_of self.new ≡ gates_of self.old }
        ensures app { app_of self.new ≡ app_of self.old }
        ensures audio { audio_of self.new ≡ audio_of self.old }
    {
        let saw = self.see(fields);
        self.follow(saw, fields.session);
    }

    // It goes to the sessions.
    fn see(&mut self, fields: &PeerFields) -> Saw
        ensures answer { (m : Machine) → HasParts self.old m
            → result ≡ saw_of m.sessions fields.now.session (tidy_of fields.now.timeline) }
        ensures stands { (m : Machine) → HasParts self.old m
            → HasParts self.new (record m { sessions = saw_after m.sessions fields.now.session (tidy_of fields.now.timeline) }) }
        ensures gates { gates_of self.new ≡ gates_of self.old }
        ensures app { app_of self.new ≡ app_of self.old }
        ensures audio { audio_of self.new ≡ audio_of self.old }
    {
        self.sessions.saw(fields.session, tidy(&fields.timeline))
    }

    // A new session waits to be measured, and a later timeline of the current one renews the client's.
    fn follow(&mut self, saw: Saw, session: NodeId)
        ensures stands { (m : Machine) → (saw ≡ New → length m.waiting < 65)
            → HasParts self.old m → HasParts self.new (followed saw session m) }
        ensures gates { gates_of self.new ≡ gates_of self.old }
        ensures app { app_of self.new ≡ app_of self.old }
        ensures audio { audio_of self.new ≡ audio_of self.old }
    {
        match saw {
            Saw::New => self.wait(session),
            Saw::Taken => {
                if self.is_current(session) {
                    self.renew();
                }
            }
            Saw::Kept | Saw::Full => {}
        }
    }

    // A session waits, after all others. Where 65 wait there is no room.
    pub(super) fn wait(&mut self, session: NodeId)
        ensures stands { (m : Machine) → length m.waiting < 65
            → HasParts self.old m → HasParts self.new (record m { waiting = m.waiting ++ session ∷ [] }) }
        ensures measure { self.new.measure ≡ self.old.measure }
        ensures gates { gates_of self.new ≡ gates_of self.old }
        ensures app { app_of self.new ≡ app_of self.old }
        ensures audio { audio_of self.new ≡ audio_of self.old }
    {
        let _room = self.waiting.try_push(session);
    }

    // Whether a session is the current one.
    pub(super) fn is_current(&self, session: NodeId) -> bool
        ensures { (m : Machine) → HasParts self.now m → result ≡ is_current session m }
    {
        session == self.sessions.current().session
    }

    // A start counts in the current session alone, where it is later than the one held; with sync it is the client's too.
    fn take_start(&mut self, fields: &PeerFields)
        requires range { AreInRange fields.now }
        ensures stands { (m : Machine) → HasParts self.old m → HasParts self.new (start_taken fields.now m) }
        ensures gates { gates_of self.new ≡ gates_of self.old }
        ensures app { app_of self.new ≡ app_of self.old }
        ensures audio { audio_of self.new ≡ audio_of self.old }
    {
        if self.is_current(fields.session) {
            self.hold_start(&fields.start);
        }
    }

    fn hold_start(&mut self, start: &SessionStart)
        requires range { IsInLimits start.now }
        ensures stands { (m : Machine) → HasParts self.old m → HasParts self.new (with_start start.now m) }
        ensures gates { gates_of self.new ≡ gates_of self.old }
        ensures app { app_of self.new ≡ app_of self.old }
        ensures audio { audio_of self.new ≡ audio_of self.old }
    {
        if let Some(start) = later_start(&self.session_start, start) {
            self.client_start = self.client_start_by(&start);
            self.session_start = start;
        }
    }

    // The client's start, where the session has this one: with sync it is the same.
    fn client_start_by(&self, start: &SessionStart) -> ClientStart
        requires range { IsInLimits start.now }
        ensures value { (m : Machine) → HasParts self.now m → result
            ≡ (if m.config.sync then start_to_client_of start.now (timeline_in m) (offset_in m) else m.client_start) }
        ensures tidy { IsTidyStart result }
    {
        if !self.config.sync {
            return self.client_start;
        }
        let current = self.sessions.current();
        start_to_client(start, &current.timeline, current.xform)
    }
}
