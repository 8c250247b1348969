//! How gates stand, as clients are told.

ghost use Rattle.std.specs.Prelude.{◌≡◌, ◌≤◌, map, take};
ghost use Rattle.session_server.specs.Gates.{gate_state_of, told_gate_of};

use arrayvec::ArrayVec;
use link_asks::{GateState, GateTold};

/// How a gate stands of a port whose gates were bound or not, and of which a call failed or not.
pub fn gate_state(bound: bool, failed: bool) -> GateState
    ensures { result ≡ gate_state_of bound failed }
{
    match (bound, failed) {
        (false, _) => GateState::Unbound,
        (true, false) => GateState::Bound,
        (true, true) => GateState::Failed,
    }
}

/// What is told of so many gates, in order, that stand so, and of each of which so many datagrams were refused.
///
/// Waits: no. Memory: none.
pub fn told_gates(state: GateState, refused: &[u64; 4], count: usize) -> ArrayVec<GateTold, 4>
    requires { count ≤ 4 }
    ensures { result.items ≡ map (told_gate_of state) (take count refused.now) }
{
    let mut gates = ArrayVec::new();
    while gates.len() < count {
        let refused = refused[gates.len()];
        gates.push(GateTold { state, refused });
    }
    gates
}
