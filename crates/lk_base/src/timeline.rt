//! The line of time that the peers of a session share.

/// A tempo, and a beat and a time that it pins together. The term is Link 3's (`Timeline.hpp`).
#[derive(Clone, Copy, Debug, PartialEq, Eq)]
pub struct Timeline {
    /// The tempo, in microseconds per beat: less is faster.
    pub mpb: i64,
    /// The beat origin, in microbeats.
    pub beat: i64,
    /// The time origin, in microseconds: of ghost time for a session, of host time for a client.
    pub time: i64,
}
