//! The state that clients are shown.

ghost use Rattle.std.specs.Prelude.{◌≡◌, ◌==◌, ◌&&◌};
ghost use Rattle.std.specs.Ordering.{int_eq};
ghost use Rattle.lk_base.specs.IdOrder.{same_id};
ghost use Rattle.client_state.specs.Commit.{same_bool};
ghost use Rattle.link_node.specs.Publishing.{alike, same_client_start};

use crate::event::Change;
use crate::node::Node;
use client_state::State;
use lk_base::ClientStart;

impl Node {
    ghost use Rattle.std.specs.Prelude.{◌≡◌};
    ghost use Rattle.client_state.specs.State.{IsTidyState};
    ghost use Rattle.link_node.specs.Machine.{Machine};
    ghost use Rattle.link_node.specs.Publishing.{state_in, change_in, shown};
    ghost use Rattle.link_node.specs.Standing.{HasParts, gates_of, app_of, audio_of};

    // The state is published where it differs from the last one in more than the moment.
    pub(super) fn publish(&mut self) -> Change
        ensures change { (m : Machine) → HasParts self.old m → result ≡ change_in m }
        ensures stands { (m : Machine) → HasParts self.old m → HasParts self.new (shown m) }
        ensures gates { gates_of self.new ≡ gates_of self.old }
        ensures app { app_of self.new ≡ app_of self.old }
        ensures audio { audio_of self.new ≡ audio_of self.old }
    {
        let state = self.formed();
        if is_alike(&state, &self.published) {
            return Change::Same;
        }
        self.published = state;
        Change::Published
    }

    // The state as it is now.
    fn formed(&self) -> State
        ensures value { (m : Machine) → HasParts self.now m → result ≡ state_in m }
        ensures tidy { IsTidyState result }
    {
        State {
            timeline: self.client,
            start: self.client_start,
            sync: self.config.sync,
            peers: self.peer_count,
            moment: self.moment,
            app: self.app,
            audio: self.audio,
            session: self.sessions.current().session,
            quantum: self.quantum,
        }
    }
}

// Whether two states are the same in all but the moment.
#[tactic(auto, unfolding(crate::specs::Publishing::alike))]
fn is_alike(a: &State, b: &State) -> bool
    ensures { result ≡ alike a.now b.now }
{
    a.timeline == b.timeline && is_same_start(&a.start, &b.start) && has_same_counts(a, b)
}

fn is_same_start(a: &ClientStart, b: &ClientStart) -> bool
    ensures { result ≡ same_client_start a.now b.now }
{
    a.playing == b.playing && a.time == b.time && a.stamp == b.stamp
}

// Whether two states have the same sync, peers, commits, session and quantum.
fn has_same_counts(a: &State, b: &State) -> bool
    ensures { result ≡
        (same_bool a.now.sync b.now.sync
        && ((a.now.peers == b.now.peers)
        && ((a.now.app == b.now.app)
        && ((a.now.audio == b.now.audio)
        && (same_id a.now.session b.now.session && int_eq a.now.quantum b.now.quantum))))) }
{
    a.sync == b.sync
        && a.peers == b.peers
        && a.app == b.app
        && a.audio == b.audio
        && a.session == b.session
        && a.quantum == b.quantum
}
