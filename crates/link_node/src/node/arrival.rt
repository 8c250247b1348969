//! A datagram that comes on a gate from an endpoint.

use crate::node::Node;
use crate::sends::{Sending, Sends};
use asdp_messages::{Message, read_datagram};
use lk_base::{Endpoint, Gate, NodeId, Wire};
use ping_measure::answer_ping;

impl Node {
    ghost use Rattle.std.specs.Prelude.{◌≡◌, ◌<◌, ◌≤◌, ◌+◌, ◌++◌, length};
    ghost use Rattle.asdp_messages.specs.Reading.{reading_of};
    ghost use Rattle.link_node.specs.Arrival.{arrived, answers_to, is_heard, pongs_to};
    ghost use Rattle.link_node.specs.Machine.{Machine};
    ghost use Rattle.link_node.specs.Standing.{HasParts, gates_of, app_of, audio_of};
    ghost use Rattle.link_node.specs.WellFormed.{AreSessions};

    // By the message in it. What isn't read does nothing.
    pub(super) fn arrive(&mut self, gate: Gate, from: Endpoint, bytes: &Wire, sends: &mut Sends)
        requires gate { gate.0 < gates_of self.old }
        requires room { length sends.old < 160 }
        ensures stands { (m : Machine) → AreSessions m → HasParts self.old m
            → HasParts self.new (arrived gate from (reading_of bytes.now.items) m) }
        ensures sends { (m : Machine) → HasParts self.old m
            → sends.new ≡ sends.old ++ answers_to gate from (reading_of bytes.now.items) m }
        ensures len { length sends.new ≤ length sends.old + 1 }
        ensures gates { gates_of self.new ≡ gates_of self.old }
        ensures app { app_of self.new ≡ app_of self.old }
        ensures audio { audio_of self.new ≡ audio_of self.old }
    {
        match read_datagram(bytes) {
            Ok(Message::Alive(msg)) => {
                if self.is_heard(&msg.from, msg.group) {
                    // The response is written first, so it carries the state of before.
                    self.respond(gate, from, sends);
                    self.take_state(gate, &msg);
                }
            }
            Ok(Message::Response(msg)) => {
                if self.is_heard(&msg.from, msg.group) {
                    self.take_state(gate, &msg);
                }
            }
            Ok(
                Message::Bye {
                    from: id,
                    group,
                    ..
                },
            ) => {
                if self.is_heard(&id, group) {
                    let _had_row = self.peers.bye(gate, id);
                }
            }
            Ok(Message::Ping { payload }) => self.answer(gate, from, payload, sends),
            Ok(Message::Pong(pong)) => self.hear_pong(gate, from, &pong, sends),
            Ok(Message::OtherDiscovery { .. } | Message::OtherLink { .. }) | Err(_) => {}
        }
    }

    // A peer of the node's own group is heard, and nobody hears itself.
    fn is_heard(&self, id: &NodeId, group: u16) -> bool
        ensures { (m : Machine) → HasParts self.now m → result ≡ is_heard id.now group m }
    {
        *id != self.id && group == self.config.group
    }

    // A ping is answered where its payload has at most 32 bytes.
    fn answer(&self, gate: Gate, to: Endpoint, payload: &[u8], sends: &mut Sends)
        requires { length sends.old < 160 }
        ensures sends { (m : Machine) → HasParts self.now m → sends.new ≡ sends.old ++ pongs_to gate to payload.now m }
        ensures len { length sends.new ≤ length sends.old + 1 }
    {
        let current = self.sessions.current();
        let ghost_time = current.xform.to_ghost(self.moment);
        if let Some(bytes) = answer_ping(payload, current.session, ghost_time) {
            sends.push(Sending { gate, to, bytes });
        }
    }
}
