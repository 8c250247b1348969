//! Replay scripts: checking one, and taking its events.

ghost use Rattle.std.specs.Prelude.{◌≡◌, ◌≤◌, ◌<◌, ◌-◌, ◌^◌, ◌∷◌, [], ◌↔◌, ℕ, ℤ, List, length, IsTrue, IfOk, IfErr, IfSome, IfNone};
ghost use Rattle.lk_base.specs.Ranges.{IsQuantum};
ghost use Rattle.link_node.specs.Config.{ConfigValue, config_value};
ghost use Rattle.link_node.specs.Event.{EventValue, event_value, audio_after};
ghost use Rattle.link_text.specs.HeadParts.{IsFront, IsKnownVersion, IsNode, config_of, plain_of};
ghost use Rattle.link_text.specs.Places.{AreOfVersion, HasBadEvent, IsAhead, IsOfVersion, counting_from};
ghost use Rattle.link_script.specs.ReplayScript.{AreEventLines, IsBehindLine, IsChecked, IsEventLine, IsLineFault, IsNextEvent, IsWithoutQuantum, SaysFrom, SaysSome, group_line, node_line, quantum_line, version_line};
ghost use Rattle.link_text.specs.SaidEvent.{said_value};

use crate::event_read::said_of;
use crate::fault::BadLine;
use crate::head::Head;
use crate::head_read::{Node, gates_from, group_of, next_line, node_of, quantum_of, version_of};
use crate::place::{Place, first_place, line_from, pass};
use crate::said_event::{SaidEvent, event_of};
use link_lines::line_at;
use link_node::{Config, Event};

/// How many gates a node may have.
const MOST_GATES: u8 = 4;

/// Reads a replay script to its end: its head, and where its events begin; or the first line at fault. Empty lines and those
/// that begin with `#` are passed over. Memory: none.
pub fn check_replay(text: &[u8]) -> Result<Head, BadLine>
    requires { length text.now ≤ 2 ^ 32 - 2 }
    ensures script { IfOk result (λ head. IsChecked text.now head.version (config_value head.config) head.now head.first) }
    ensures fault { IfErr result (λ bad. IsLineFault text.now bad.line) }
{
    match read_script(text) {
        Ok(head) => Ok(head),
        Err(place) => Err(BadLine {
            line: place.number as u32,
        }),
    }
}

/// The next event of a script that was checked, and moves on to where the line after it begins. None where no event's line
/// stands from the place on. Memory: none.
pub fn next_event(text: &[u8], at: &mut usize) -> Option<Event>
    requires { SaysSome text.now at.old }
    ensures some { IfSome result (λ event. IsNextEvent text.now at.old at.new (event_value event)) }
    ensures place { IfSome result (λ _. IsBehindLine text.now at.old at.new) }
    ensures none { IfNone result ((gates audio : ℕ) (es : List EventValue) → SaysFrom gates audio text.now at.old es → es ≡ []) }
    ensures stays { IfNone result (at.new ≡ at.old) }
{
    let start = Place { at: *at, number: 1 };
    let place = pass(text, start);
    if place.at == text.len() {
        return None;
    }
    let (line, next) = line_at(text, place.at);
    let Some(said) = said_of(line, MOST_GATES, 0) else {
        return None;
    };
    *at = next;
    Some(event_of(said))
}

/// What a script says before its gates.
#[derive(Clone, Copy)]
struct Front {
    version: u8,
    node: Node,
    group: u16,
    quantum: i64,
    /// The place behind it.
    behind: Place,
}

// The whole script, or the place of the first line at fault.
fn read_script(text: &[u8]) -> Result<Head, Place>
    requires { length text.now ≤ 2 ^ 32 - 2 }
    ensures script { IfOk result (λ head. IsChecked text.now head.version (config_value head.config) head.now head.first) }
    ensures fault { IfErr result (λ place. IsLineFault text.now place.number) }
{
    let front = match front_of(text) {
        Ok(front) => front,
        Err(place) => return Err(place),
    };
    let (gates, place) = gates_from(text, front.behind);
    if gates.is_empty() {
        return Err(front.behind);
    }
    if let Err(bad) = events_from(text, place, front.version, gates.len() as u8) {
        return Err(bad);
    }
    Ok(Head {
        version: front.version,
        config: Config {
            id: front.node.id,
            seed: front.node.seed,
            mpb: front.node.mpb,
            sync: front.node.sync,
            group: front.group,
            quantum: front.quantum,
            gates,
        },
        now: front.node.now,
        first: place.at,
    })
}

// What stands before the gates, or the place of the first line at fault there. A script of version 1 says neither group nor quantum.
fn front_of(text: &[u8]) -> Result<Front, Place>
    requires { length text.now ≤ 2 ^ 32 - 2 }
    ensures front { IfOk result (λ front.
        IsFront text.now front.version (config_of front.node front.group front.quantum) front.node.now front.behind) }
    ensures fault { IfErr result (λ place. IsLineFault text.now place.number) }
{
    let first = first_place(text);
    let Some((version, second)) = version_from(text, first) else {
        return Err(first);
    };
    let Some((node, third)) = node_from(text, second) else {
        return Err(second);
    };
    if version == 1 {
        return Ok(Front {
            version,
            node,
            group: 0,
            quantum: 4_000_000,
            behind: third,
        });
    }
    let Some((group, fourth)) = group_from(text, third) else {
        return Err(third);
    };
    let Some((quantum, behind)) = quantum_from(text, fourth) else {
        return Err(fourth);
    };
    Ok(Front {
        version,
        node,
        group,
        quantum,
        behind,
    })
}

// The version that the version line says and the place behind it, if that is the next one.
fn version_from(text: &[u8], place: Place) -> Option<(u8, Place)>
    requires { IsAhead text.now place }
    ensures ahead { IfSome result (λ found. IsAhead text.now found.1) }
    ensures some { IfSome result (λ found. IsKnownVersion found.0
        × (counting_from text.now place.at ≡ version_line found.0 ∷ counting_from text.now found.1.at)) }
    ensures none { IfNone result ((version : ℕ) (rest : List (List ℕ)) → IsKnownVersion version
        → counting_from text.now place.at ≡ version_line version ∷ rest → ⊥) }
{
    let (line, next) = next_line(text, place)?;
    Some((version_of(line)?, next))
}

// What the node's line says and the place behind it, if that is the next one.
fn node_from(text: &[u8], place: Place) -> Option<(Node, Place)>
    requires { IsAhead text.now place }
    ensures ahead { IfSome result (λ found. IsAhead text.now found.1) }
    ensures some { IfSome result (λ found. IsNode (plain_of found.0) found.0.now
        × (counting_from text.now place.at ≡ node_line (plain_of found.0) found.0.now ∷ counting_from text.now found.1.at)) }
    ensures none { IfNone result ((config : ConfigValue) (now : ℤ) (rest : List (List ℕ)) → IsNode config now
        → counting_from text.now place.at ≡ node_line config now ∷ rest → ⊥) }
{
    let (line, next) = next_line(text, place)?;
    Some((node_of(line)?, next))
}

// The group that its line says and the place behind it, if that is the next one.
fn group_from(text: &[u8], place: Place) -> Option<(u16, Place)>
    requires { IsAhead text.now place }
    ensures ahead { IfSome result (λ found. IsAhead text.now found.1) }
    ensures some { IfSome result (λ found. (found.0 < 2 ^ 16)
        × (counting_from text.now place.at ≡ group_line found.0 ∷ counting_from text.now found.1.at)) }
    ensures none { IfNone result ((group : ℕ) (rest : List (List ℕ)) → group < 2 ^ 16
        → counting_from text.now place.at ≡ group_line group ∷ rest → ⊥) }
{
    let (line, next) = next_line(text, place)?;
    Some((group_of(line)?, next))
}

// The quantum that its line says and the place behind it, if that is the next one.
fn quantum_from(text: &[u8], place: Place) -> Option<(i64, Place)>
    requires { IsAhead text.now place }
    ensures ahead { IfSome result (λ found. IsAhead text.now found.1) }
    ensures some { IfSome result (λ found. IsQuantum found.0
        × (counting_from text.now place.at ≡ quantum_line found.0 ∷ counting_from text.now found.1.at)) }
    ensures none { IfNone result ((quantum : ℤ) (rest : List (List ℕ)) → IsQuantum quantum
        → counting_from text.now place.at ≡ quantum_line quantum ∷ rest → ⊥) }
{
    let (line, next) = next_line(text, place)?;
    Some((quantum_of(line)?, next))
}

// Whether all lines from a place on say events of a version; the error is the first that says none.
fn events_from(text: &[u8], start: Place, version: u8, gates: u8) -> Result<(), Place>
    requires ahead { IsAhead text.now start }
    requires some_gate { 0 < gates }
    requires few_gates { gates ≤ 4 }
    ensures events { IfOk result (λ done. (es : List EventValue)
        × AreEventLines gates 0 (counting_from text.now start.at) es × AreOfVersion version es) }
    ensures fault { IfErr result (HasBadEvent version gates text.now (counting_from text.now start.at)) }
{
    let mut place = start;
    let mut audio = 0;
    while place.at < text.len() {
        let (line, next) = line_from(text, place);
        let Some(event) = event_in(line, version, gates, audio) else {
            return Err(place);
        };
        audio = audio_behind(&event, audio);
        place = next;
    }
    Ok(())
}

// The event that a line says in a script of a version: in version 1 a commit has no quantum.
fn event_in(line: &[u8], version: u8, gates: u8, audio: u64) -> Option<SaidEvent<'_>>
    requires some_gate { 0 < gates }
    requires few_gates { gates ≤ 4 }
    ensures some { IfSome result (λ event. IsEventLine gates audio line.now (said_value event)
        × IsOfVersion version (said_value event)) }
    ensures none { IfNone result ((e : EventValue) → IsEventLine gates audio line.now e → IsOfVersion version e → ⊥) }
{
    let Some(event) = said_of(line, gates, audio) else {
        return None;
    };
    if version == 1 && !is_without_quantum(&event) {
        return None;
    }
    Some(event)
}

// Whether an event is no commit of a quantum.
fn is_without_quantum(event: &SaidEvent<'_>) -> bool
    ensures { IsTrue result ↔ IsWithoutQuantum (said_value event.now) }
{
    match event {
        SaidEvent::App { commit, .. } | SaidEvent::Audio { commit, .. } => {
            commit.quantum.is_none()
        }
        _ => true,
    }
}

// The number of the last audio commit, once an event has come.
pub(crate) fn audio_behind(event: &SaidEvent<'_>, audio: u64) -> u64
    ensures { result ≡ audio_after audio (said_value event.now) }
{
    match event {
        SaidEvent::Audio { number, .. } => *number,
        _ => audio,
    }
}
