//! The headers of messages, as Link 3 has them. That of a discovery message is eight bytes that name
//! the protocol, the kind, the time to live in seconds, the group in two bytes and the sender's id in
//! eight. That of a measurement message is eight bytes that name the protocol, and the kind.

use lk_base::NodeId;

/// The first eight bytes of a discovery message, `_asdp_v` and the version 1, read as a big-endian
/// number.
pub const DISCOVERY_PROTOCOL: u64 = 0x5f61_7364_705f_7601;

/// The kind of an alive: a peer tells its state to all.
pub const DISCOVERY_ALIVE: u8 = 1;

/// The kind of a response: a peer tells its state to the sender of an alive.
pub const DISCOVERY_RESPONSE: u8 = 2;

/// The kind of a bye: a peer goes.
pub const DISCOVERY_BYE: u8 = 3;

/// For how long a message that is sent counts, in seconds.
pub const TIME_TO_LIVE: u8 = 5;

/// How many bytes the header of a discovery message has.
pub const DISCOVERY_HEADER_LEN: usize = 20;

/// The first eight bytes of a measurement message, `_link_v` and the version 1, read as a big-endian
/// number.
pub const LINK_PROTOCOL: u64 = 0x5f6c_696e_6b5f_7601;

/// The kind of a ping: it asks for the ghost time.
pub const LINK_PING: u8 = 1;

/// The kind of a pong: it answers a ping.
pub const LINK_PONG: u8 = 2;

/// How many bytes the header of a measurement message has.
pub const LINK_HEADER_LEN: usize = 9;

/// The greatest number of bytes of a datagram.
pub const GREATEST_LEN: usize = 512;

// What the header of a discovery message says beside the name of the protocol.
#[derive(Clone, Copy)]
pub struct Header {
    pub kind: u8,
    pub ttl: u8,
    pub group: u16,
    pub from: NodeId,
}
