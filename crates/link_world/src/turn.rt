//! What may happen in a world.

use link_node::Event;
use lk_base::{Endpoint, Gate};

/// One turn of a schedule. Peers and datagrams go by number from 0, peers in the order of their configs and datagrams in the order in which
/// they were sent.
#[derive(Debug, Drop)]
pub enum Turn {
    /// The peer takes an event that is no datagram.
    Local {
        peer: u32,
        event: Event,
    },
    /// A datagram that was sent once comes to the peer, on this gate, as if from this endpoint, at this moment.
    Deliver {
        index: u32,
        peer: u32,
        gate: Gate,
        from: Endpoint,
        now: i64,
    },
}
