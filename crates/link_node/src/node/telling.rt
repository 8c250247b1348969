//! What a node tells its peers of itself.

ghost use Rattle.std.specs.Prelude.{◌≡◌, ◌≤◌, ◌<◌, ◌+◌, ◌++◌, length, map, option_map, slice_get, Some};
ghost use Rattle.link_node.specs.Sent.{sent_on};

use crate::config::{Config, GateSetup};
use crate::node::Node;
use crate::sends::{Sending, Sends};
use arrayvec::ArrayVec;
use asdp_messages::{write_alive, write_bye, write_response};
use link_payload::PeerFields;
use lk_base::{Endpoint, Gate, Wire, append};

impl Node {
    ghost use Rattle.std.specs.Prelude.{◌≡◌, ◌≤◌, ◌<◌, ◌+◌, ◌∷◌, [], ◌++◌, length, Option, slice_get};
    ghost use Rattle.lk_base.specs.declared.endpoint.Endpoint.{Endpoint};
    ghost use Rattle.link_node.specs.Machine.{Machine};
    ghost use Rattle.link_node.specs.Standing.{HasParts, gates_of};
    ghost use Rattle.link_node.specs.Telling.{fields_in, response_to, alives_in, byes_in, alive_of, bye_of};
    ghost use Rattle.link_node.specs.Sent.{sent_at};

    // The state of the current session.
    fn fields(&self, endpoint: Option<Endpoint>) -> PeerFields
        ensures { (m : Machine) → HasParts self.now m → result ≡ fields_in endpoint m }
    {
        let current = self.sessions.current();
        PeerFields {
            timeline: current.timeline,
            session: current.session,
            start: self.session_start,
            endpoint,
        }
    }

    // A response on a gate.
    pub(super) fn respond(&self, gate: Gate, to: Endpoint, sends: &mut Sends)
        requires room { length sends.old < 160 }
        ensures sends { (m : Machine) → HasParts self.now m → sends.new ≡ sends.old ++ response_to gate to m ∷ [] }
        ensures len { length sends.new ≡ length sends.old + 1 }
    {
        let fields = self.fields(local_of(&self.config, gate));
        let bytes = write_response(self.id, self.config.group, &fields);
        sends.push(Sending { gate, to, bytes });
    }

    // An alive from each gate to each of its destinations, in order.
    pub(super) fn send_alives(&self, sends: &mut Sends)
        requires room { length sends.old + 128 ≤ 160 }
        ensures sends { (m : Machine) → HasParts self.now m → sends.new ≡ sends.old ++ alives_in m }
        ensures len { length sends.new ≤ length sends.old + 128 }
    {
        for k in 0..self.config.gates.len() {
            self.send_alive(k, sends);
        }
    }

    // An alive from one gate to each of its destinations.
    fn send_alive(&self, k: usize, sends: &mut Sends)
        requires gate { k < gates_of self.now }
        requires room { length sends.old + 32 ≤ 160 }
        ensures sends { (m : Machine) → HasParts self.now m
            → sends.new ≡ sends.old ++ sent_at (alive_of m) k (slice_get m.config.gates k) }
        ensures len { length sends.new ≤ length sends.old + 32 }
    {
        let gate = gate_at(&self.config, k);
        let alive = write_alive(self.id, self.config.group, &self.fields(Some(gate.local)));
        send_to_each(Gate(k as u8), &gate.peers, &alive, sends);
    }

    // A bye from each gate to each of its destinations, in order.
    pub(super) fn send_byes(&self, sends: &mut Sends)
        requires room { length sends.old + 128 ≤ 160 }
        ensures sends { (m : Machine) → HasParts self.now m → sends.new ≡ sends.old ++ byes_in m }
        ensures len { length sends.new ≤ length sends.old + 128 }
    {
        for k in 0..self.config.gates.len() {
            self.send_bye(k, sends);
        }
    }

    // A bye from one gate to each of its destinations.
    fn send_bye(&self, k: usize, sends: &mut Sends)
        requires gate { k < gates_of self.now }
        requires room { length sends.old + 32 ≤ 160 }
        ensures sends { (m : Machine) → HasParts self.now m
            → sends.new ≡ sends.old ++ sent_at (bye_of m) k (slice_get m.config.gates k) }
        ensures len { length sends.new ≤ length sends.old + 32 }
    {
        let gate = gate_at(&self.config, k);
        let bye = write_bye(self.id, self.config.group);
        send_to_each(Gate(k as u8), &gate.peers, &bye, sends);
    }
}

// The gate of a number.
fn gate_at(config: &Config, k: usize) -> &GateSetup
    requires { k < length config.now.gates.items }
    ensures { slice_get config.now.gates.items k ≡ Some result.now }
{
    &config.gates[k]
}

// The local endpoint of a gate.
fn local_of(config: &Config, gate: Gate) -> Option<Endpoint>
    ensures { result ≡ option_map (λ setup. setup.local) (slice_get config.now.gates.items gate.0) }
{
    match config.gates.get(usize::from(gate.0)) {
        Some(setup) => Some(setup.local),
        None => None,
    }
}

// The bytes from a gate to each destination, in order.
fn send_to_each(gate: Gate, peers: &ArrayVec<Endpoint, 32>, bytes: &Wire, sends: &mut Sends)
    requires { length sends.old + 32 ≤ 160 }
    ensures sends { sends.new ≡ sends.old ++ map (sent_on gate bytes.now.items) peers.now.items }
    ensures len { length sends.new ≤ length sends.old + 32 }
{
    for to in peers.as_slice() {
        let mut copy = Wire::new();
        append(&mut copy, bytes);
        sends.push(Sending {
            gate,
            to: *to,
            bytes: copy,
        });
    }
}
