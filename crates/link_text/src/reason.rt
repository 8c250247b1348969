//! Why a line of a script is at fault, for people: only that it is safe is proved of it.

ghost use Rattle.std.specs.Prelude.{◌≤◌, ◌<◌, ◌-◌, ◌^◌, length};

use crate::event_read::said_of;
use crate::head_read::{destination_of, gate_of, version_of};
use crate::place::{first_place, line_from};
use crate::replay_script::audio_behind;
use std::fmt;

mod expected;
mod explained;
mod found;

pub use expected::Expected;
use explained::{explained, pair_explained};
pub use found::{Excerpt, Found};

/// What was expected at a place of a line, and what stands there. Its text is for people, as `column 6: expected a tempo from 60060
/// to 3000000 microseconds per beat, found "1"`.
#[derive(Clone, Copy, Debug, PartialEq, Eq)]
pub struct Reason {
    pub expected: Expected,
    /// In bytes, from 1.
    pub column: u32,
    pub found: Found,
}

impl fmt::Display for Reason {
    fn fmt<W: fmt::Write>(&self, f: &mut fmt::Formatter<W>) -> fmt::Result {
        write!(
            f,
            "column {}: expected {}, found {}",
            self.column,
            self.expected.text(),
            self.found
        )
    }
}

/// What a script says besides its gates.
#[derive(Clone, Copy, PartialEq, Eq)]
enum Kind {
    /// A node, and events.
    Replay,
    /// A setup, and commands.
    Live,
    /// A setup alone.
    Head,
}

/// What a script has on its next line.
#[derive(Clone, Copy)]
enum Stage {
    Version,
    /// The line of a node in a replay script of this version, or of a setup.
    Opening { version: u8 },
    /// The group and the quantum of a replay script of version 2.
    Group,
    Quantum,
    /// The last gate stands with so many destinations.
    Gates { before: Before, destinations: u8 },
    /// Events, or commands, or the end.
    Body { before: Before },
}

/// What the lines before say for one of an event or of a command.
#[derive(Clone, Copy)]
struct Before {
    /// Of a replay script.
    version: u8,
    gates: u8,
    /// The number of the last audio commit.
    audio: u64,
}

/// Why a line of a replay script, counted from 1, is at fault, where those before it are not. Memory: none.
pub fn explain(text: &[u8], line: u32) -> Reason
    requires { length text.now ≤ 2 ^ 32 - 2 }
{
    explain_as(Kind::Replay, text, line)
}

/// Why a line of a live script, counted from 1, is at fault, where those before it are not. Memory: none.
pub fn explain_live(text: &[u8], line: u32) -> Reason
    requires { length text.now ≤ 2 ^ 32 - 2 }
{
    explain_as(Kind::Live, text, line)
}

/// Why a line of a live script's head, counted from 1, is at fault, where those before it are not. Memory: none.
pub fn explain_head(text: &[u8], line: u32) -> Reason
    requires { length text.now ≤ 2 ^ 32 - 2 }
{
    explain_as(Kind::Head, text, line)
}

/// Why a line is no pair of a sample count and a host time. Memory: none.
pub fn explain_pair(line: &[u8]) -> Reason {
    pair_explained(line)
}

fn explain_as(kind: Kind, text: &[u8], line: u32) -> Reason
    requires { length text.now ≤ 2 ^ 32 - 2 }
{
    let mut stage = Stage::Version;
    let mut place = first_place(text);
    while place.at < text.len() && place.number < line as usize {
        let (here, next) = line_from(text, place);
        stage = stage_behind(kind, stage, here);
        place = next;
    }
    if place.at >= text.len() {
        return Reason {
            expected: expected_at(kind, stage),
            column: 1,
            found: Found::TextEnd,
        };
    }
    explained(kind, line_from(text, place).0, stage)
}

// What a script has behind a line.
fn stage_behind(kind: Kind, stage: Stage, line: &[u8]) -> Stage {
    match stage {
        Stage::Version => Stage::Opening {
            version: version_of(line).unwrap_or(1),
        },
        Stage::Opening { version: 2 } => Stage::Group,
        Stage::Opening { version } => no_gate_yet(version),
        Stage::Group => Stage::Quantum,
        Stage::Quantum => no_gate_yet(2),
        Stage::Gates {
            before,
            destinations,
        } => behind_gates(kind, before, destinations, line),
        Stage::Body { before } => behind_body(kind, before, line),
    }
}

fn no_gate_yet(version: u8) -> Stage {
    Stage::Gates {
        before: Before {
            version,
            gates: 0,
            audio: 0,
        },
        destinations: 0,
    }
}

fn behind_gates(kind: Kind, before: Before, destinations: u8, line: &[u8]) -> Stage {
    if gate_of(line).is_some() {
        return Stage::Gates {
            before: Before {
                gates: before.gates.saturating_add(1),
                ..before
            },
            destinations: 0,
        };
    }
    if destination_of(line).is_some() {
        return Stage::Gates {
            before,
            destinations: destinations.saturating_add(1),
        };
    }
    behind_body(kind, before, line)
}

fn behind_body(kind: Kind, before: Before, line: &[u8]) -> Stage {
    let Before { gates, audio, .. } = before;
    if kind != Kind::Replay || gates == 0 || gates > 4 {
        return Stage::Body { before };
    }
    let audio = match said_of(line, gates, audio) {
        Some(event) => audio_behind(&event, audio),
        None => audio,
    };
    Stage::Body {
        before: Before { audio, ..before },
    }
}

// What the first word of a line is expected to be.
fn expected_at(kind: Kind, stage: Stage) -> Expected {
    match kind {
        Kind::Replay => expected_in_replay(stage),
        Kind::Live => expected_in_live(stage),
        Kind::Head => expected_in_head(stage),
    }
}

fn expected_in_replay(stage: Stage) -> Expected {
    match stage {
        Stage::Version => Expected::Version,
        Stage::Opening { .. } => Expected::Node,
        Stage::Group => Expected::Group,
        Stage::Quantum => Expected::Quantum,
        Stage::Gates {
            before,
            destinations,
        } => match lines_open(before.gates, destinations) {
            Open::Gate => Expected::Gate,
            Open::GateOrDestination => Expected::GateDestinationOrEvent,
            Open::FurtherGate => Expected::GateOrEvent,
            Open::Destination => Expected::DestinationOrEvent,
            Open::Neither => Expected::Event,
        },
        Stage::Body { .. } => Expected::Event,
    }
}

fn expected_in_live(stage: Stage) -> Expected {
    match stage {
        Stage::Version => Expected::LiveVersion,
        // Neither a group nor a quantum has a line of its own.
        Stage::Opening { .. } | Stage::Group | Stage::Quantum => Expected::Setup,
        Stage::Gates {
            before,
            destinations,
        } => match lines_open(before.gates, destinations) {
            Open::Gate => Expected::Gate,
            Open::GateOrDestination => Expected::GateDestinationOrCommand,
            Open::FurtherGate => Expected::GateOrCommand,
            Open::Destination => Expected::DestinationOrCommand,
            Open::Neither => Expected::Command,
        },
        Stage::Body { .. } => Expected::Command,
    }
}

fn expected_in_head(stage: Stage) -> Expected {
    match stage {
        Stage::Gates {
            before,
            destinations,
        } => match lines_open(before.gates, destinations) {
            Open::Gate => Expected::Gate,
            Open::GateOrDestination => Expected::GateDestinationOrEnd,
            Open::FurtherGate => Expected::GateOrEnd,
            Open::Destination => Expected::DestinationOrEnd,
            Open::Neither => Expected::ScriptEnd,
        },
        Stage::Body { .. } => Expected::ScriptEnd,
        _ => expected_in_live(stage),
    }
}

/// Which lines of gates may follow.
enum Open {
    /// The first gate has to.
    Gate,
    GateOrDestination,
    /// The last gate has all its destinations.
    FurtherGate,
    /// All gates stand.
    Destination,
    Neither,
}

fn lines_open(gates: u8, destinations: u8) -> Open {
    if gates == 0 {
        Open::Gate
    } else if gates >= 4 && destinations >= 32 {
        Open::Neither
    } else if gates >= 4 {
        Open::Destination
    } else if destinations >= 32 {
        Open::FurtherGate
    } else {
        Open::GateOrDestination
    }
}
