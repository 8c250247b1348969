//! What a node is opened with.

ghost use Rattle.std.specs.Prelude.{◌≡◌, map};
ghost use Rattle.link_node.specs.Config.{config_value, gate_value};

use arrayvec::ArrayVec;
use lk_base::{Endpoint, NodeId};

/// A gate: one of a node's own sockets.
#[derive(Debug, Default, Drop)]
pub struct GateSetup {
    /// Where peers reach it.
    pub local: Endpoint,
    /// Where it sends its alives and byes.
    pub peers: ArrayVec<Endpoint, 32>,
}

/// What a node is opened with.
#[derive(Debug, Drop)]
pub struct Config {
    /// The own id, until the node founds a session.
    pub id: NodeId,
    /// What the ids that it draws begin with.
    pub seed: u64,
    /// The tempo of its first session, in microseconds per beat: 60,060..=3,000,000.
    pub mpb: i64,
    /// Whether starts are shared with the session.
    pub sync: bool,
    /// Which messages it hears, and with which it sends: those of this group.
    pub group: u16,
    /// The length of a bar in microbeats: 0..=2^40, where 0 is none.
    pub quantum: i64,
    /// One to four, by number from 0.
    pub gates: ArrayVec<GateSetup, 4>,
}

// The same config once more.
pub(crate) fn copied(config: &Config) -> Config
    ensures { config_value result ≡ config_value config.now }
{
    Config {
        id: config.id,
        seed: config.seed,
        mpb: config.mpb,
        sync: config.sync,
        group: config.group,
        quantum: config.quantum,
        gates: copied_gates(&config.gates),
    }
}

fn copied_gates(gates: &ArrayVec<GateSetup, 4>) -> ArrayVec<GateSetup, 4>
    ensures { map gate_value result.items ≡ map gate_value gates.now.items }
{
    let mut copies = ArrayVec::new();
    for gate in gates.as_slice() {
        copies.push(copied_gate(gate));
    }
    copies
}

fn copied_gate(gate: &GateSetup) -> GateSetup
    ensures { gate_value result ≡ gate_value gate.now }
{
    let mut peers = ArrayVec::new();
    let _copied = peers.try_extend_from_slice(&gate.peers);
    GateSetup {
        local: gate.local,
        peers,
    }
}
