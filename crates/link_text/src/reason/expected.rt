//! What is expected at a place of a line.

/// What is expected at a place of a line.
#[derive(Clone, Copy, Debug, PartialEq, Eq)]
pub enum Expected {
    Version,
    Node,
    Group,
    Quantum,
    Gate,
    GateDestinationOrEvent,
    GateOrEvent,
    DestinationOrEvent,
    Event,
    Id,
    Seed,
    Tempo,
    Truth,
    Moment,
    /// The number of a group.
    GroupNumber,
    /// The length of a quantum.
    QuantumLength,
    Endpoint,
    /// Of one to four gates.
    GateNumber { gates: u8 },
    Bytes,
    AudioNumber,
    /// An audio commit's number up to that of the last one.
    GreaterAudioNumber,
    Signed,
    /// A part of a commit, or the end of the line; version 1 has no quantum.
    Parts { version: u8 },
    /// A part of a commit that stands behind a timeline, or the end of the line.
    LaterParts { version: u8 },
    /// The part of a commit that stands behind a start, or the end of the line.
    LastPart { version: u8 },
    /// None in a commit of version 1.
    NoQuantum,
    LineEnd,
    LiveVersion,
    Setup,
    GateDestinationOrCommand,
    GateOrCommand,
    DestinationOrCommand,
    Command,
    GateDestinationOrEnd,
    GateOrEnd,
    DestinationOrEnd,
    /// No line behind the gates.
    ScriptEnd,
    /// None in a script for a node under control.
    NoCommand,
    BlockNumber,
    /// What an application does.
    Act,
    /// What an audio thread does.
    BlockAct,
    Beat,
    SampleCount,
    HostTime,
}

impl Expected {
    /// What it is in words.
    pub fn text(self) -> &'static str {
        match self {
            Expected::Version => "`replay 1` or `replay 2`",
            Expected::Node => "`node` and a node's id, seed, tempo, sync and opening moment",
            Expected::Group =>
                "`group` and a number from 0 to 65535, which stand before the gates in version 2",
            Expected::Quantum =>
                "`quantum` and a number from 0 to 1099511627776, which stand before the gates in version 2",
            Expected::Gate => "`gate` and the endpoint of the node's first gate",
            Expected::GateDestinationOrEvent =>
                "`gate`, `to` or an event: `rx`, `tick`, `app`, `audio` or `end`",
            Expected::GateOrEvent =>
                "`gate` or an event, as the gate has 32 destinations: `rx`, `tick`, `app`, `audio` or `end`",
            Expected::DestinationOrEvent =>
                "`to` or an event, as the node has four gates: `rx`, `tick`, `app`, `audio` or `end`",
            Expected::Event => "an event: `rx`, `tick`, `app`, `audio` or `end`",
            Expected::Id => "an id of eight characters from ! to ~",
            Expected::Seed => "a number from 0 to 18446744073709551615",
            Expected::Tempo =>
                "a tempo from 60060 to 3000000 microseconds per beat (500000 is 120 beats a minute)",
            Expected::Truth => "1 or 0",
            Expected::Moment => "a moment from 0 to 36028797018963968 microseconds",
            Expected::GroupNumber => "a number from 0 to 65535",
            Expected::QuantumLength =>
                "a number from 0 to 1099511627776 microbeats (4000000 is four beats)",
            Expected::Endpoint => "an endpoint as in 127.0.0.1:20808",
            Expected::GateNumber { gates: 1 } => "0, the number of the only gate",
            Expected::GateNumber { gates: 2 } => "0 or 1, the number of a gate",
            Expected::GateNumber { gates: 3 } => "the number of a gate from 0 to 2",
            Expected::GateNumber { .. } => "the number of a gate from 0 to 3",
            Expected::Bytes => "at most 513 bytes in hex digits, two for each, or `-` for none",
            Expected::AudioNumber => "a number from 1 to 1152921504606846975",
            Expected::GreaterAudioNumber => "a greater number than that of the last audio commit",
            Expected::Signed => "a number from -1152921504606846976 to 1152921504606846976",
            Expected::Parts { version: 1 } =>
                "`t` and a timeline, `s` and a start, or the end of the line",
            Expected::Parts { .. } =>
                "`t` and a timeline, `s` and a start, `q` and a quantum, or the end of the line",
            Expected::LaterParts { version: 1 } => "`s` and a start, or the end of the line",
            Expected::LaterParts { .. } =>
                "`s` and a start, `q` and a quantum, or the end of the line",
            Expected::LastPart { version: 1 } => "the end of the line",
            Expected::LastPart { .. } => "`q` and a quantum, or the end of the line",
            Expected::NoQuantum => "no quantum: only a script that begins with `replay 2` has one",
            Expected::LineEnd => "the end of the line",
            Expected::LiveVersion => "`link 1`",
            Expected::Setup => "`setup` and a tempo and a sync",
            Expected::GateDestinationOrCommand => "`gate`, `to` or a command: `at` or `block`",
            Expected::GateOrCommand =>
                "`gate` or a command, as the gate has 32 destinations: `at` or `block`",
            Expected::DestinationOrCommand =>
                "`to` or a command, as there are four gates: `at` or `block`",
            Expected::Command => "a command: `at` or `block`",
            Expected::GateDestinationOrEnd => "`gate`, `to` or the end of the script",
            Expected::GateOrEnd =>
                "`gate` or the end of the script, as the gate has 32 destinations",
            Expected::DestinationOrEnd => "`to` or the end of the script, as there are four gates",
            Expected::ScriptEnd => "the end of the script",
            Expected::NoCommand =>
                "no command: a script for `control` has none, as its client gives them",
            Expected::BlockNumber => "the number of a block from 1 to 524288",
            Expected::Act => "`tempo`, `force`, `request`, `quantum`, `play`, `stop` or `look`",
            Expected::BlockAct => "`tempo`, `quantum`, `play` or `stop`",
            Expected::Beat => "a beat from -1152921504606846976 to 1152921504606846976 microbeats",
            Expected::SampleCount =>
                "a sample count from -1152921504606846976 to 1152921504606846976",
            Expected::HostTime =>
                "a host time from -1152921504606846976 to 1152921504606846976 microseconds",
        }
    }
}
