//! Where a line stops to be what is expected.

use crate::event_read::AUDIO_MAX;
use crate::head_read::GROUP_MAX;
use crate::hex_word::is_hex_word;
use crate::live_read::BLOCK_MAX;
use crate::reason::{Before, Excerpt, Expected, Found, Kind, Reason, Stage, expected_at};
use crate::values::{
    endpoint_in, id_in, moment_in, number_in, quantum_in, signed_in, tempo_in, truth_in,
};
use link_lines::{first_word, is_word, next_word, signed_of};

/// Why a line is at fault at a stage of a script.
pub(crate) fn explained(kind: Kind, line: &[u8], stage: Stage) -> Reason {
    match stage {
        Stage::Version => version(kind, line),
        Stage::Opening { .. } => opening(kind, line),
        Stage::Group => group(line),
        Stage::Quantum => quantum(line),
        Stage::Gates {
            before,
            destinations,
        } => head(kind, line, stage, before, destinations),
        Stage::Body { before } => body(kind, line, stage, before),
    }
}

/// Why a line is no pair of a sample count and a host time.
pub(crate) fn pair_explained(line: &[u8]) -> Reason {
    let (word, left) = first_word(line);
    if line.is_empty() {
        return behind(line, left, Expected::SampleCount);
    }
    if signed_of(word).is_none() {
        return at(0, word, left, Expected::SampleCount);
    }
    let Some((_, rest)) = signed_in(left) else {
        return behind(line, left, Expected::HostTime);
    };
    behind(line, rest, Expected::LineEnd)
}

// What is found where a word was expected behind a part of a line.
fn behind(line: &[u8], left: &[u8], expected: Expected) -> Reason {
    let start = line.len().saturating_sub(left.len());
    match next_word(left) {
        Some((word, rest)) => at(start.saturating_add(1), word, rest, expected),
        None => Reason {
            expected,
            column: column_of(start),
            found: Found::LineEnd,
        },
    }
}

// What is found where a word stands so many bytes behind the start of the line.
fn at(start: usize, word: &[u8], rest: &[u8], expected: Expected) -> Reason {
    if rest.is_empty() && word.last() == Some(&b'\r') {
        return Reason {
            expected,
            column: column_of(start.saturating_add(word.len()).saturating_sub(1)),
            found: Found::CarriageReturn,
        };
    }
    let found = if word.is_empty() {
        Found::NoWord
    } else {
        Found::Word(Excerpt::new(word))
    };
    Reason {
        expected,
        column: column_of(start),
        found,
    }
}

fn column_of(start: usize) -> u32 {
    u32::try_from(start).unwrap_or(u32::MAX).saturating_add(1)
}

fn version(kind: Kind, line: &[u8]) -> Reason {
    let expected = expected_at(kind, Stage::Version);
    let (word, left) = first_word(line);
    let named = match kind {
        Kind::Replay => is_word(word, b"replay"),
        Kind::Live | Kind::Head => is_word(word, b"link"),
    };
    if !named {
        return at(0, word, left, expected);
    }
    let Some((number, rest)) = next_word(left) else {
        return behind(line, left, expected);
    };
    if !is_version(kind, number) {
        return behind(line, left, expected);
    }
    behind(line, rest, Expected::LineEnd)
}

fn is_version(kind: Kind, number: &[u8]) -> bool {
    is_word(number, b"1") || (kind == Kind::Replay && is_word(number, b"2"))
}

fn opening(kind: Kind, line: &[u8]) -> Reason {
    match kind {
        Kind::Replay => node(line),
        Kind::Live | Kind::Head => setup(line),
    }
}

fn node(line: &[u8]) -> Reason {
    let (word, left) = first_word(line);
    if !is_word(word, b"node") {
        return at(0, word, left, Expected::Node);
    }
    let Some((_, seed)) = id_in(left) else {
        return behind(line, left, Expected::Id);
    };
    let Some((_, tempo)) = number_in(seed, u64::MAX) else {
        return behind(line, seed, Expected::Seed);
    };
    let Some((_, sync)) = tempo_in(tempo) else {
        return behind(line, tempo, Expected::Tempo);
    };
    let Some((_, moment)) = truth_in(sync) else {
        return behind(line, sync, Expected::Truth);
    };
    let Some((_, left)) = moment_in(moment) else {
        return behind(line, moment, Expected::Moment);
    };
    behind(line, left, Expected::LineEnd)
}

fn group(line: &[u8]) -> Reason {
    let (word, left) = first_word(line);
    if !is_word(word, b"group") {
        return at(0, word, left, Expected::Group);
    }
    match number_in(left, GROUP_MAX) {
        Some((_, left)) => behind(line, left, Expected::LineEnd),
        None => behind(line, left, Expected::GroupNumber),
    }
}

fn quantum(line: &[u8]) -> Reason {
    let (word, left) = first_word(line);
    if !is_word(word, b"quantum") {
        return at(0, word, left, Expected::Quantum);
    }
    quantum_length(line, left)
}

fn setup(line: &[u8]) -> Reason {
    let (word, left) = first_word(line);
    if !is_word(word, b"setup") {
        return at(0, word, left, Expected::Setup);
    }
    let Some((_, sync)) = tempo_in(left) else {
        return behind(line, left, Expected::Tempo);
    };
    let Some((_, left)) = truth_in(sync) else {
        return behind(line, sync, Expected::Truth);
    };
    behind(line, left, Expected::LineEnd)
}

fn head(kind: Kind, line: &[u8], stage: Stage, before: Before, destinations: u8) -> Reason {
    let (word, left) = first_word(line);
    let first = is_word(word, b"gate") && before.gates < 4;
    let further = is_word(word, b"to") && before.gates > 0 && destinations < 32;
    if first || further {
        return match endpoint_in(left) {
            Some((_, left)) => behind(line, left, Expected::LineEnd),
            None => behind(line, left, Expected::Endpoint),
        };
    }
    body(kind, line, stage, before)
}

fn body(kind: Kind, line: &[u8], stage: Stage, before: Before) -> Reason {
    match kind {
        Kind::Replay => event(line, stage, before),
        Kind::Live => command(line, stage, before.gates),
        Kind::Head => end(line, stage, before.gates),
    }
}

fn event(line: &[u8], stage: Stage, before: Before) -> Reason {
    let (word, left) = first_word(line);
    let arrival = is_word(word, b"rx");
    let app = is_word(word, b"app");
    let sound = is_word(word, b"audio");
    let alone = is_word(word, b"tick") || is_word(word, b"end");
    if before.gates == 0 || !(arrival || app || sound || alone) {
        return at(0, word, left, expected_at(Kind::Replay, stage));
    }
    let Some((_, rest)) = moment_in(left) else {
        return behind(line, left, Expected::Moment);
    };
    if arrival {
        return datagram(line, rest, before.gates);
    }
    if app {
        return commit(line, rest, before.version);
    }
    if sound {
        return audio_commit(line, rest, before);
    }
    behind(line, rest, Expected::LineEnd)
}

fn datagram(line: &[u8], left: &[u8], gates: u8) -> Reason {
    let Some((_, from)) = number_in(left, u64::from(gates.saturating_sub(1))) else {
        return behind(line, left, Expected::GateNumber { gates });
    };
    let Some((_, bytes)) = endpoint_in(from) else {
        return behind(line, from, Expected::Endpoint);
    };
    match next_word(bytes) {
        Some((word, left)) if is_hex_word(word) => behind(line, left, Expected::LineEnd),
        _ => behind(line, bytes, Expected::Bytes),
    }
}

fn audio_commit(line: &[u8], left: &[u8], before: Before) -> Reason {
    match number_in(left, AUDIO_MAX) {
        Some((0, _)) => behind(line, left, Expected::AudioNumber),
        Some((number, rest)) => {
            if number <= before.audio {
                return behind(line, left, Expected::GreaterAudioNumber);
            }
            commit(line, rest, before.version)
        }
        None => behind(line, left, Expected::AudioNumber),
    }
}

fn commit(line: &[u8], left: &[u8], version: u8) -> Reason {
    let Some((_, parts)) = signed_in(left) else {
        return behind(line, left, Expected::Signed);
    };
    let Some((word, tempo)) = next_word(parts) else {
        return behind(line, parts, Expected::LineEnd);
    };
    if is_word(word, b"t") {
        return timeline(line, tempo, version);
    }
    start(line, parts, version, Expected::Parts { version })
}

fn timeline(line: &[u8], left: &[u8], version: u8) -> Reason {
    let Some((_, beat)) = tempo_in(left) else {
        return behind(line, left, Expected::Tempo);
    };
    let Some((_, time)) = signed_in(beat) else {
        return behind(line, beat, Expected::Signed);
    };
    let Some((_, left)) = signed_in(time) else {
        return behind(line, time, Expected::Signed);
    };
    start(line, left, version, Expected::LaterParts { version })
}

// From the start of a commit on, in place of which something else may be expected too.
fn start(line: &[u8], left: &[u8], version: u8, expected: Expected) -> Reason {
    let Some((word, playing)) = next_word(left) else {
        return behind(line, left, Expected::LineEnd);
    };
    if !is_word(word, b"s") {
        return last_part(line, left, version, expected);
    }
    let Some((_, time)) = truth_in(playing) else {
        return behind(line, playing, Expected::Truth);
    };
    let Some((_, stamp)) = signed_in(time) else {
        return behind(line, time, Expected::Signed);
    };
    let Some((_, left)) = signed_in(stamp) else {
        return behind(line, stamp, Expected::Signed);
    };
    last_part(line, left, version, Expected::LastPart { version })
}

// From the quantum of a commit on, which version 1 doesn't have.
fn last_part(line: &[u8], left: &[u8], version: u8, expected: Expected) -> Reason {
    let Some((word, rest)) = next_word(left) else {
        return behind(line, left, Expected::LineEnd);
    };
    if !is_word(word, b"q") {
        return behind(line, left, expected);
    }
    if version == 1 {
        return behind(line, left, Expected::NoQuantum);
    }
    quantum_length(line, rest)
}

// The length of a quantum, at the end of the line.
fn quantum_length(line: &[u8], left: &[u8]) -> Reason {
    match quantum_in(left) {
        Some((_, left)) => behind(line, left, Expected::LineEnd),
        None => behind(line, left, Expected::QuantumLength),
    }
}

fn command(line: &[u8], stage: Stage, gates: u8) -> Reason {
    let (word, left) = first_word(line);
    let app = is_word(word, b"at");
    if gates == 0 || !(app || is_word(word, b"block")) {
        return at(0, word, left, expected_at(Kind::Live, stage));
    }
    if app {
        return match moment_in(left) {
            Some((_, rest)) => act(line, rest),
            None => behind(line, left, Expected::Moment),
        };
    }
    match number_in(left, BLOCK_MAX) {
        Some((0, _)) => behind(line, left, Expected::BlockNumber),
        Some((_, rest)) => shared_act(line, rest, Expected::BlockAct),
        None => behind(line, left, Expected::BlockNumber),
    }
}

fn act(line: &[u8], left: &[u8]) -> Reason {
    let Some((word, rest)) = next_word(left) else {
        return behind(line, left, Expected::Act);
    };
    if is_word(word, b"force") || is_word(word, b"request") {
        return match signed_in(rest) {
            Some((_, left)) => behind(line, left, Expected::LineEnd),
            None => behind(line, rest, Expected::Beat),
        };
    }
    if is_word(word, b"look") {
        return behind(line, rest, Expected::LineEnd);
    }
    shared_act(line, left, Expected::Act)
}

// What an application and an audio thread do alike.
fn shared_act(line: &[u8], left: &[u8], expected: Expected) -> Reason {
    let Some((word, rest)) = next_word(left) else {
        return behind(line, left, expected);
    };
    if is_word(word, b"tempo") {
        return match tempo_in(rest) {
            Some((_, left)) => behind(line, left, Expected::LineEnd),
            None => behind(line, rest, Expected::Tempo),
        };
    }
    if is_word(word, b"quantum") {
        return quantum_length(line, rest);
    }
    if is_word(word, b"play") || is_word(word, b"stop") {
        return behind(line, rest, Expected::LineEnd);
    }
    behind(line, left, expected)
}

// Behind the gates, where there is no command.
fn end(line: &[u8], stage: Stage, gates: u8) -> Reason {
    let (word, left) = first_word(line);
    let command = is_word(word, b"at") || is_word(word, b"block");
    if gates > 0 && command {
        return at(0, word, left, Expected::NoCommand);
    }
    at(0, word, left, expected_at(Kind::Head, stage))
}
