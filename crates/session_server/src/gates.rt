//! The gates that words ask for.

ghost use Rattle.std.specs.Prelude.{◌≡◌, ◌≤◌, ◌+◌, true, length, map, take, drop, All, Some, slice_get, codes, IfOk, IfErr};
ghost use Rattle.std.specs.Str.{bytes_eq};
ghost use Rattle.std.specs.String.{string_bytes};
ghost use Rattle.lk_base.specs.Endpoint.{IsEndpoint};
ghost use Rattle.link_node.specs.Config.{gate_value};
ghost use Rattle.link_script.specs.ReplayScript.{IsGate};
ghost use Rattle.session_server.specs.Words as spec;
ghost use Rattle.session_server.specs.Words.{IsFaultIn, PartValue, SaysGates, gate_parts_of, to_part_of};

use crate::fault::WordsFault;
use crate::parts::find;
use arrayvec::ArrayVec;
use link_lines::endpoint_of;
use link_node::GateSetup;
use lk_base::Endpoint;

/// The address of this machine that others don't reach.
const OWN_ADDRESS: u32 = 0x7f00_0001;

/// The gates that words ask for, each with the destinations behind it.
///
/// Waits: no. Memory: none.
pub fn gates_of(words: &[String]) -> Result<ArrayVec<GateSetup, 4>, WordsFault>
    ensures says { IfOk result (λ gates. SaysGates (map string_bytes words.now) (map gate_value gates.items)) }
    ensures some { IfOk result (λ gates. 1 ≤ length gates.items) }
    ensures each { IfOk result (λ gates. All IsGate (map gate_value gates.items)) }
    ensures fault { IfErr result (IsFaultIn (map string_bytes words.now)) }
{
    let mut gates = ArrayVec::new();
    let mut number = 0;
    while let Some(given) = find(words, "--gate", "--to", number) {
        if given.name != "--gate" {
            return Err(WordsFault::StrayTo);
        }
        let Some(local) = endpoint_of(given.text.as_bytes()) else {
            return Err(WordsFault::Gate(number));
        };
        if gates.is_full() {
            return Err(WordsFault::Gates);
        }
        let peers = destinations_from(words, number + 1)?;
        number += 1 + peers.len();
        gates.push(GateSetup { local, peers });
    }
    if gates.is_empty() {
        gates.push(own_gate());
    }
    Ok(gates)
}

// The destinations from a place on among the words of gates and destinations, up to the next gate.
fn destinations_from(words: &[String], start: usize) -> Result<ArrayVec<Endpoint, 32>, WordsFault>
    requires { start ≤ length (gate_parts_of (map string_bytes words.now)) }
    ensures says { IfOk result (λ peers. map to_part_of peers.items ≡ take (length peers.items) (drop start (gate_parts_of (map string_bytes words.now)))) }
    ensures each { IfOk result (λ peers. All IsEndpoint peers.items × (length peers.items ≤ 32)) }
    ensures stops { IfOk result (λ peers. (given : PartValue)
        → slice_get (gate_parts_of (map string_bytes words.now)) (start + length peers.items) ≡ Some given
        → bytes_eq given.name (codes "--gate") ≡ true) }
    ensures fault { IfErr result (IsFaultIn (map string_bytes words.now)) }
{
    let mut peers = ArrayVec::new();
    let mut number = start;
    while let Some(given) = find(words, "--gate", "--to", number) {
        if given.name == "--gate" {
            return Ok(peers);
        }
        if peers.is_full() {
            return Err(WordsFault::Destinations);
        }
        let Some(to) = endpoint_of(given.text.as_bytes()) else {
            return Err(WordsFault::Gate(number));
        };
        peers.push(to);
        number += 1;
    }
    Ok(peers)
}

// The gate of words that ask for none.
fn own_gate() -> GateSetup
    ensures { gate_value result ≡ spec.own_gate }
{
    GateSetup {
        local: Endpoint {
            addr: OWN_ADDRESS,
            port: 0,
        },
        peers: ArrayVec::new(),
    }
}
