//! The config of a node with one gate.

ghost use Rattle.std.specs.Prelude.{◌≡◌, ◌≤ℤ◌, pos};
ghost use Rattle.link_node.specs.Config.{config_value, gate_value, IsConfig};
ghost use Rattle.link_live.specs.OneGate.{one_gate_from};

use arrayvec::ArrayVec;
use link_node::{Config, GateSetup};
use lk_base::IdSource;

/// The config of a node with one gate, whose first session has this tempo, in microseconds per beat. It counts in bars of four beats,
/// shares its starts, and is in group 0. The node's id is the first that is drawn from the seed. Memory: none.
pub fn one_gate_config(seed: u64, mpb: i64, gate: GateSetup) -> Config
    requires tempo { (pos 60_060 ≤ℤ mpb) × (mpb ≤ℤ pos 3_000_000) }
    ensures value { config_value result ≡ one_gate_from seed mpb (gate_value gate) }
    ensures ranges { IsConfig (config_value result) }
{
    let mut gates = ArrayVec::new();
    gates.push(gate);
    Config {
        id: IdSource::new(seed, 1).draw(),
        seed,
        mpb,
        sync: true,
        group: 0,
        quantum: 4_000_000,
        gates,
    }
}
