//! What the types say of configs, for proofs: to call it is to know it.

ghost use Rattle.std.specs.Prelude.{◌<◌, ◌^◌, map};
ghost use Rattle.std.specs.List.{AllByRecursion};
ghost use Rattle.lk_base.specs.Endpoint.{IsEndpoint};
ghost use Rattle.link_node.specs.Config.{config_value, gate_value};
ghost use Rattle.link_world.specs.Stored.{IsStoredConfig, IsStoredGate, IsStoredId};

use arrayvec::ArrayVec;
use link_node::{Config, GateSetup};
use lk_base::{Endpoint, NodeId};

// Of all configs.
pub(crate) fn configs_are_stored(configs: &[Config])
    ensures { AllByRecursion IsStoredConfig (map config_value configs.now) }
{
    for config in configs {
        config_is_stored(config);
    }
}

fn config_is_stored(config: &Config)
    ensures { IsStoredConfig (config_value config.now) }
{
    id_is_stored(config.id);
    group_is_stored(config.group);
    gates_are_stored(&config.gates);
}

fn gates_are_stored(gates: &ArrayVec<GateSetup, 4>)
    ensures { AllByRecursion IsStoredGate (map gate_value gates.now.items) }
{
    for gate in gates.as_slice() {
        endpoint_is_stored(gate.local);
    }
}

fn id_is_stored(id: NodeId)
    ensures { IsStoredId id }
{}

fn group_is_stored(group: u16)
    ensures { group < 2 ^ 16 }
{}

fn endpoint_is_stored(endpoint: Endpoint)
    ensures { IsEndpoint endpoint }
{}
