//! Worlds of a few peers.

ghost use Rattle.std.specs.Prelude.{◌≡◌, ◌≤◌, ◌<◌, ◌+◌, All, IfOk, length};
ghost use Rattle.link_node.specs.Config.{config_value, IsConfig};
ghost use Rattle.link_world.specs.Standing.{peers_in};

mod chance;
mod turns;
mod two;

use super::{OPENING, endpoint};
use arrayvec::ArrayVec;
use link_node::{Config, GateSetup};
use link_world::{Turn, World};
use lk_base::{Endpoint, Gate, NodeId, Timeline};
use std::alloc::{AllocError, Global};

// The id of the peer of a number below 4: eight times the letter of that number, from A.
fn id_of(peer: u32) -> NodeId {
    NodeId([b'A'.wrapping_add((peer % 26) as u8); 8])
}

// And its port: 20,000 and the number.
fn endpoint_of(peer: u32) -> Endpoint {
    endpoint(20_000 + (peer % 1_000) as u16)
}

// One that sends to each other peer.
fn gate_of(peer: u32, peers: u32) -> GateSetup {
    let mut others = ArrayVec::new();
    for other in 0..peers {
        if other != peer {
            let _room = others.try_push(endpoint_of(other));
        }
    }
    GateSetup {
        local: endpoint_of(peer),
        peers: others,
    }
}

// One gate behind as many without destinations as the peer's number is, so that a sending tells by its gate whose it is.
fn gates_of(peer: u32, peers: u32) -> ArrayVec<GateSetup, 4>
    requires { peer < 4 }
    ensures { length result.items ≡ peer + 1 }
{
    let mut gates = ArrayVec::new();
    for gate in 0..peer {
        gates.push(GateSetup {
            local: endpoint_of(100 + gate),
            peers: ArrayVec::new(),
        });
    }
    gates.push(gate_of(peer, peers));
    gates
}

// The group of a peer: where the peers are to be apart, those of odd number have one of their own.
fn group_of(peer: u32, apart: bool) -> u16 {
    u16::from(apart && peer % 2 == 1)
}

fn config_of(peer: u32, peers: u32, apart: bool) -> Config
    requires { peer < 4 }
    ensures { IsConfig (config_value result) }
{
    Config {
        id: id_of(peer),
        seed: u64::from(peer),
        mpb: 500_000,
        sync: true,
        group: group_of(peer, apart),
        quantum: 4_000_000,
        gates: gates_of(peer, peers),
    }
}

fn configs_of(alloc: Global, peers: u32, apart: bool) -> Result<Vec<Config>, AllocError>
    ensures { IfOk result (λ configs. All (λ config. IsConfig (config_value config)) configs.items) }
{
    let mut configs = Vec::new(alloc);
    for peer in 0..peers.min(4) {
        configs.push(config_of(peer, peers, apart))?;
    }
    Ok(configs)
}

// The world of so many peers, in one group or apart, after a script.
fn world_of(alloc: Global, peers: u32, apart: bool, script: &[Turn]) -> Result<World, AllocError> {
    World::run(alloc, &configs_of(alloc, peers, apart)?, OPENING, script)
}

// The datagram of a number comes from one peer to another.
fn hear(index: u32, from: u32, peer: u32, now: i64) -> Turn {
    Turn::Deliver {
        index,
        peer,
        gate: Gate((peer % 4) as u8),
        from: endpoint_of(from),
        now,
    }
}

// A peer's session, and the timeline that it has there.
fn held(world: &World, peer: usize) -> (NodeId, Timeline)
    requires { peer < peers_in world.now }
{
    let node = world.peer(peer);
    (node.session(), node.session_timeline())
}
