//! What a datagram says.

use link_payload::{PeerFields, PongFields};
use lk_base::NodeId;

/// A message that tells the state of a peer.
#[derive(Clone, Copy, Debug, PartialEq, Eq)]
pub struct StateMsg {
    /// The sender.
    pub from: NodeId,
    /// For how long the message counts, in seconds.
    pub ttl: u8,
    /// Peers listen to their own group alone.
    pub group: u16,
    /// The sender's state.
    pub fields: PeerFields,
}

/// A message. The payloads of a bye and of an unknown kind aren't kept.
#[derive(Clone, Copy, Debug, PartialEq, Eq)]
pub enum Message<'a> {
    /// A peer tells its state to all.
    Alive(StateMsg),
    /// A peer tells its state to the sender of an alive.
    Response(StateMsg),
    /// A peer goes. `ttl` is in seconds.
    Bye { from: NodeId, ttl: u8, group: u16 },
    /// A peer asks for the ghost time. The payload goes back unchanged in the pong.
    Ping { payload: &'a [u8] },
    /// The answer to a ping.
    Pong(PongFields),
    /// A discovery message of another kind.
    OtherDiscovery { kind: u8 },
    /// A measurement message of another kind.
    OtherLink { kind: u8 },
}
