//! The config of a node.

ghost use Rattle.link_node.specs.Config.{config_value, IsConfig};

use arrayvec::ArrayVec;
use link_node::{Config, GateSetup};
use lk_base::{Endpoint, NodeId};

/// The node's own id, so that of its first session.
pub const OWN: NodeId = NodeId(*b"AAAAAAAA");

/// The endpoint with that port.
pub fn endpoint(port: u16) -> Endpoint {
    Endpoint {
        addr: 0x0A00_0001,
        port,
    }
}

/// A node of 500,000 microseconds per beat with these gates, each of which sends its alives to so many endpoints. With none it has a gate
/// that sends none.
pub fn config_of(gates: &[u16]) -> Config
    ensures { IsConfig (config_value result) }
{
    let mut setups = gates_of(gates);
    if setups.is_empty() {
        setups.push(gate_of(0, 0));
    }
    Config {
        id: OWN,
        seed: 1,
        mpb: 500_000,
        sync: true,
        group: 0,
        quantum: 4_000_000,
        gates: setups,
    }
}

fn gates_of(gates: &[u16]) -> ArrayVec<GateSetup, 4> {
    let mut setups = ArrayVec::new();
    for destinations in gates {
        let _room = setups.try_push(gate_of(setups.len() as u16, *destinations));
    }
    setups
}

// The gate k has the port 10 * (k + 1), and its destinations the ports after it.
fn gate_of(k: u16, destinations: u16) -> GateSetup {
    let local = k.wrapping_add(1).wrapping_mul(10);
    let mut peers = ArrayVec::new();
    for to in 0..destinations.min(9) {
        let _room = peers.try_push(endpoint(local.wrapping_add(to).wrapping_add(1)));
    }
    GateSetup {
        local: endpoint(local),
        peers,
    }
}
