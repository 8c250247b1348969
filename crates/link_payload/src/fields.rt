//! What peers tell of themselves, and to each other.

use lk_base::{Endpoint, NodeId, SessionStart, Timeline};

/// The state of a peer.
#[derive(Clone, Copy, Debug, PartialEq, Eq)]
pub struct PeerFields {
    /// The timeline of its session, in ghost time.
    pub timeline: Timeline,
    /// The session that it is in.
    pub session: NodeId,
    /// The start of its session.
    pub start: SessionStart,
    /// Where it answers pings, if it says so.
    pub endpoint: Option<Endpoint>,
}

/// What a pong says.
#[derive(Clone, Copy, Debug, PartialEq, Eq)]
pub struct PongFields {
    /// The session of its sender.
    pub session: NodeId,
    /// The ghost time at which it was sent, in microseconds.
    pub ghost_time: i64,
    /// The host time that the ping carried, in microseconds, or 0.
    pub host: i64,
    /// The ghost time that the ping carried, in microseconds, or 0.
    pub previous: i64,
}

/// What a ping says.
#[derive(Clone, Copy, Debug, PartialEq, Eq)]
pub struct PingFields {
    /// The host time at which it is sent, in microseconds.
    pub host: i64,
    /// The ghost time of the pong before, in microseconds, if there was one.
    pub previous: Option<i64>,
}
