//! Reading the lines of a script's head.

ghost use Rattle.std.specs.Prelude.{◌≡◌, ◌≤◌, ◌<◌, ◌^◌, ◌∷◌, [], ℕ, ℤ, List, length, map, codes, IfSome, IfNone};
ghost use Rattle.std.specs.Fmt.{decimal, signed_decimal};
ghost use Rattle.lk_base.specs.Endpoint.{IsEndpoint};
ghost use Rattle.lk_base.specs.Ranges.{IsQuantum};
ghost use Rattle.lk_base.specs.declared.endpoint.Endpoint.{Endpoint};
ghost use Rattle.link_node.specs.Config.{ConfigValue, gate_value};
ghost use Rattle.link_text.specs.HeadParts.{HasDestinations, HasGates, IsKnownVersion, IsNode, IsNodeLine, LacksGate, LacksTo, plain_of};
ghost use Rattle.link_lines.specs.LineWords.{words_of};
ghost use Rattle.link_text.specs.Places.{IsAhead, counting_from};
ghost use Rattle.link_script.specs.ReplayScript.{gate_line, group_line, node_line, quantum_line, to_line, version_line};
ghost use Rattle.link_lines.specs.Words.{endpoint_text_of, truth_text_of};

use crate::place::{Place, line_from};
use crate::values::{endpoint_in, id_in, moment_in, number_in, quantum_in, tempo_in, truth_in};
use arrayvec::ArrayVec;
use link_lines::{first_word, is_end, is_word};
use link_node::GateSetup;
use lk_base::{Endpoint, NodeId};

/// The greatest group.
pub(crate) const GROUP_MAX: u64 = 65_535;

/// What the line of a node says.
#[derive(Clone, Copy)]
pub(crate) struct Node {
    pub id: NodeId,
    pub seed: u64,
    /// The tempo of its first session, in microseconds per beat.
    pub mpb: i64,
    /// Whether starts are shared with the session.
    pub sync: bool,
    /// The opening moment, in microseconds.
    pub now: i64,
}

/// The next line from a place on, and the place behind it.
pub(crate) fn next_line(text: &[u8], place: Place) -> Option<(&[u8], Place)>
    requires { IsAhead text.now place }
    ensures ahead { IfSome result (λ found. IsAhead text.now found.1) }
    ensures some { IfSome result (λ found.
        counting_from text.now place.at ≡ found.0.now ∷ counting_from text.now found.1.at) }
    ensures none { IfNone result (counting_from text.now place.at ≡ []) }
{
    if place.at == text.len() {
        return None;
    }
    Some(line_from(text, place))
}

/// The version that the first line of a script says.
pub(crate) fn version_of(line: &[u8]) -> Option<u8>
    ensures some { IfSome result (λ version. IsKnownVersion version × (line.now ≡ version_line version)) }
    ensures none { IfNone result ((version : ℕ) → IsKnownVersion version → line.now ≡ version_line version → ⊥) }
{
    if is_word(line, b"replay 1") {
        return Some(1);
    }
    if is_word(line, b"replay 2") {
        return Some(2);
    }
    None
}

/// What the line of a node says.
pub(crate) fn node_of(line: &[u8]) -> Option<Node>
    ensures some { IfSome result (IsNodeLine line.now) }
    ensures none { IfNone result ((config : ConfigValue) (now : ℤ) → IsNode config now
        → line.now ≡ node_line config now → ⊥) }
{
    node_in(line)
}

// What the words of a node's line say.
fn node_in(line: &[u8]) -> Option<Node>
    ensures some { IfSome result (λ node. IsNode (plain_of node) node.now × (words_of line.now
        ≡ codes "node" ∷ node.id.0 ∷ decimal node.seed ∷ signed_decimal node.mpb ∷ truth_text_of node.sync
        ∷ signed_decimal node.now ∷ [])) }
    ensures none { IfNone result ((config : ConfigValue) (now : ℤ) → IsNode config now → words_of line.now
        ≡ codes "node" ∷ config.id.0 ∷ decimal config.seed ∷ signed_decimal config.mpb ∷ truth_text_of config.sync
        ∷ signed_decimal now ∷ [] → ⊥) }
{
    let (kind, left) = first_word(line);
    if !is_word(kind, b"node") {
        return None;
    }
    let Some((id, left)) = id_in(left) else {
        return None;
    };
    let Some((seed, left)) = number_in(left, u64::MAX) else {
        return None;
    };
    let Some((mpb, left)) = tempo_in(left) else {
        return None;
    };
    let Some((sync, left)) = truth_in(left) else {
        return None;
    };
    let Some((now, left)) = moment_in(left) else {
        return None;
    };
    if !is_end(left) {
        return None;
    }
    Some(Node {
        id,
        seed,
        mpb,
        sync,
        now,
    })
}

/// The group that its line says.
pub(crate) fn group_of(line: &[u8]) -> Option<u16>
    ensures some { IfSome result (λ group. (group < 2 ^ 16) × (line.now ≡ group_line group)) }
    ensures none { IfNone result ((group : ℕ) → group < 2 ^ 16 → line.now ≡ group_line group → ⊥) }
{
    group_behind(line)
}

// The group that stands behind the word for it, at the end of the line.
fn group_behind(line: &[u8]) -> Option<u16>
    ensures some { IfSome result (λ group. (group < 2 ^ 16)
        × (words_of line.now ≡ codes "group" ∷ decimal group ∷ [])) }
    ensures none { IfNone result ((group : ℕ) → group < 2 ^ 16
        → words_of line.now ≡ codes "group" ∷ decimal group ∷ [] → ⊥) }
{
    let (kind, left) = first_word(line);
    if !is_word(kind, b"group") {
        return None;
    }
    let Some((group, left)) = number_in(left, GROUP_MAX) else {
        return None;
    };
    if !is_end(left) {
        return None;
    }
    Some(group as u16)
}

/// The quantum that its line says, in microbeats.
pub(crate) fn quantum_of(line: &[u8]) -> Option<i64>
    ensures some { IfSome result (λ quantum. IsQuantum quantum × (line.now ≡ quantum_line quantum)) }
    ensures none { IfNone result ((quantum : ℤ) → IsQuantum quantum → line.now ≡ quantum_line quantum → ⊥) }
{
    quantum_behind(line)
}

// The quantum that stands behind the word for it, at the end of the line.
fn quantum_behind(line: &[u8]) -> Option<i64>
    ensures some { IfSome result (λ quantum. IsQuantum quantum
        × (words_of line.now ≡ codes "quantum" ∷ signed_decimal quantum ∷ [])) }
    ensures none { IfNone result ((quantum : ℤ) → IsQuantum quantum
        → words_of line.now ≡ codes "quantum" ∷ signed_decimal quantum ∷ [] → ⊥) }
{
    let (kind, left) = first_word(line);
    if !is_word(kind, b"quantum") {
        return None;
    }
    let Some((quantum, left)) = quantum_in(left) else {
        return None;
    };
    if !is_end(left) {
        return None;
    }
    Some(quantum)
}

/// The gates whose lines stand from a place on, at most four, and the place behind them.
pub(crate) fn gates_from(text: &[u8], start: Place) -> (ArrayVec<GateSetup, 4>, Place)
    requires { IsAhead text.now start }
    ensures ahead { IsAhead text.now result.1 }
    ensures gates { HasGates (counting_from text.now start.at) (map gate_value result.0.items)
        (counting_from text.now result.1.at) }
    ensures all { LacksGate (length result.0.items) (counting_from text.now result.1.at) }
{
    let mut gates = ArrayVec::new();
    let mut place = start;
    while place.at < text.len() && !gates.is_full() {
        let (line, next) = line_from(text, place);
        let Some(local) = gate_of(line) else {
            return (gates, place);
        };
        let (peers, behind) = destinations_from(text, next);
        gates.push(GateSetup { local, peers });
        place = behind;
    }
    (gates, place)
}

// The destinations whose lines stand from a place on, at most 32, and the place behind them.
fn destinations_from(text: &[u8], start: Place) -> (ArrayVec<Endpoint, 32>, Place)
    requires { IsAhead text.now start }
    ensures ahead { IsAhead text.now result.1 }
    ensures destinations { HasDestinations (counting_from text.now start.at) result.0.items
        (counting_from text.now result.1.at) }
    ensures all { LacksTo (length result.0.items) (counting_from text.now result.1.at) }
    ensures further { start.at ≤ result.1.at }
{
    let mut destinations = ArrayVec::new();
    let mut place = start;
    while place.at < text.len() && !destinations.is_full() {
        let (line, next) = line_from(text, place);
        let Some(to) = destination_of(line) else {
            return (destinations, place);
        };
        destinations.push(to);
        place = next;
    }
    (destinations, place)
}

// The endpoint that the line of a gate says.
pub(crate) fn gate_of(line: &[u8]) -> Option<Endpoint>
    ensures some { IfSome result (λ e. IsEndpoint e × (line.now ≡ gate_line e)) }
    ensures none { IfNone result ((e : Endpoint) → IsEndpoint e → line.now ≡ gate_line e → ⊥) }
{
    endpoint_behind(line, b"gate")
}

// The endpoint that the line of a destination says.
pub(crate) fn destination_of(line: &[u8]) -> Option<Endpoint>
    ensures some { IfSome result (λ e. IsEndpoint e × (line.now ≡ to_line e)) }
    ensures none { IfNone result ((e : Endpoint) → IsEndpoint e → line.now ≡ to_line e → ⊥) }
{
    endpoint_behind(line, b"to")
}

// The endpoint that stands behind a word, at the end of the line.
fn endpoint_behind(line: &[u8], kind: &[u8]) -> Option<Endpoint>
    ensures some { IfSome result (λ e. IsEndpoint e
        × (words_of line.now ≡ kind.now ∷ endpoint_text_of e ∷ [])) }
    ensures none { IfNone result ((e : Endpoint) → IsEndpoint e
        → words_of line.now ≡ kind.now ∷ endpoint_text_of e ∷ [] → ⊥) }
{
    let (word, left) = first_word(line);
    if !is_word(word, kind) {
        return None;
    }
    let Some((endpoint, left)) = endpoint_in(left) else {
        return None;
    };
    if !is_end(left) {
        return None;
    }
    Some(endpoint)
}
