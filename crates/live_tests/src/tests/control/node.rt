//! The node of each link.

ghost use Rattle.std.specs.Prelude.{◌≡◌, length};
ghost use Rattle.link_node.specs.Config.{config_value, IsConfig};

use arrayvec::ArrayVec;
use link_node::{Config, GateSetup};
use lk_base::{Endpoint, NodeId};

/// Where each talk is opened.
pub const HERE: Endpoint = Endpoint {
    addr: 0x7F00_0001,
    port: 5001,
};

/// A node of 500,000 microseconds per beat with a gate that sends nothing.
pub fn config() -> Config
    ensures config { IsConfig (config_value result) }
    ensures gate { length (config_value result).gates ≡ 1 }
{
    let mut gates = ArrayVec::new();
    gates.push(GateSetup {
        local: HERE,
        peers: ArrayVec::new(),
    });
    Config {
        id: NodeId(*b"AAAAAAAA"),
        seed: 1,
        mpb: 500_000,
        sync: true,
        group: 0,
        quantum: 4_000_000,
        gates,
    }
}
