//! Peers by their numbers, and what they send.

ghost use Rattle.lk_base.specs.Ranges.{IsMoment};
ghost use Rattle.lk_outside.specs.Coming.{IsToCome};

use link_payload::PeerFields;
use lk_base::{Endpoint, Gate, NodeId, SessionStart, Timeline, Wire};
use lk_outside::Arrival;

/// The id of a peer.
pub fn id_of(number: u16) -> NodeId {
    NodeId(u64::from(number).to_be_bytes())
}

/// From where a peer sends.
pub fn endpoint_of(number: u16) -> Endpoint {
    Endpoint {
        addr: 0x7F00_0001,
        port: number.wrapping_add(30_000),
    }
}

/// What a peer says of its session: 500,000 microseconds per beat from that beat on at time 0, no start, and where it answers pings.
pub fn fields_of(session: NodeId, beat: i64, endpoint: Option<Endpoint>) -> PeerFields {
    PeerFields {
        timeline: Timeline {
            mpb: 500_000,
            beat,
            time: 0,
        },
        session,
        start: SessionStart {
            playing: false,
            beats: 0,
            stamp: 0,
        },
        endpoint,
    }
}

/// A datagram of a peer that comes at a moment.
pub fn coming(number: u16, bytes: Wire, now: i64) -> Arrival
    requires { IsMoment now }
    ensures { IsToCome result }
{
    Arrival::Datagram {
        gate: Gate(0),
        from: endpoint_of(number),
        bytes,
        now,
    }
}
