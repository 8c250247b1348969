//! When playing starts or stops.

/// Whether a session plays, since which of its beats, and when that was set.
#[derive(Clone, Copy, Debug, PartialEq, Eq)]
pub struct SessionStart {
    pub playing: bool,
    /// The beat of the change, in microbeats.
    pub beats: i64,
    /// The ghost time at which it was set, in microseconds: of two starts the greater stamp counts.
    pub stamp: i64,
}

/// Whether a client plays, since which host time, and when that was set.
#[derive(Clone, Copy, Debug, PartialEq, Eq)]
pub struct ClientStart {
    pub playing: bool,
    /// The host time of the change, in microseconds.
    pub time: i64,
    /// The host time at which it was set, in microseconds: of two starts the greater stamp counts.
    pub stamp: i64,
}
