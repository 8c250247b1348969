//! The state that a client looks at and edits.

use lk_base::{ClientStart, NodeId, Timeline};

mod clicks;
pub(crate) mod edits;
mod row;

/// The longest quantum, in microbeats: 2^40.
pub const QUANTUM_MAX: i64 = 1 << 40;

/// What a client is shown of its session, in the host's clock.
#[derive(Clone, Copy, Debug, PartialEq, Eq)]
pub struct State {
    pub timeline: Timeline,
    pub start: ClientStart,
    /// Whether starts are shared with the session.
    pub sync: bool,
    /// How many peers are in the session.
    pub peers: u32,
    /// The host time at which it was formed, in microseconds.
    pub moment: i64,
    /// How many application commits were taken.
    pub app: u64,
    /// The number of the last audio commit taken, 0 for none.
    pub audio: u64,
    /// The session that it is of.
    pub session: NodeId,
    /// The length of a bar, in microbeats, 0 for none: what phases and accents are counted in.
    pub quantum: i64,
}
