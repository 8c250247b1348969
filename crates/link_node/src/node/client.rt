//! What a client is shown after the session's timeline or offset was touched.

use crate::node::Node;
use client_state::client_from_session;

impl Node {
    ghost use Rattle.link_node.specs.Client.{renewed};
    ghost use Rattle.link_node.specs.Machine.{Machine};
    ghost use Rattle.std.specs.Prelude.{◌≡◌};
    ghost use Rattle.link_node.specs.Standing.{HasParts, gates_of, app_of, audio_of};

    // The client's timeline goes on from its beat now, with the session's tempo and beats.
    pub(super) fn renew(&mut self)
        ensures stands { (m : Machine) → HasParts self.old m → HasParts self.new (renewed m) }
        ensures gates { gates_of self.new ≡ gates_of self.old }
        ensures app { app_of self.new ≡ app_of self.old }
        ensures audio { audio_of self.new ≡ audio_of self.old }
    {
        let current = self.sessions.current();
        self.client = client_from_session(
            &self.client,
            &current.timeline,
            self.moment,
            current.xform,
        );
    }
}
