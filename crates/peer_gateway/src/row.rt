//! What is kept of a peer.

ghost use Rattle.std.specs.Prelude.{◌≡◌};
ghost use Rattle.lk_base.specs.IdOrder.{same_id};
ghost use Rattle.lk_base.specs.Ranges.{IsMoment};
ghost use Rattle.peer_gateway.specs.Happenings.{row_seen};

use lk_base::{Endpoint, Gate, NodeId, u64_at};

/// A peer as it was last seen on one gate.
#[derive(Clone, Copy, Debug, PartialEq, Eq)]
pub struct PeerRow {
    pub gate: Gate,
    pub id: NodeId,
    /// The session that it is in.
    pub session: NodeId,
    /// Where it answers pings, if it said so.
    pub endpoint: Option<Endpoint>,
    /// The host time at which the row ends, in microseconds.
    pub limit: i64,
}

/// What follows from a peer that was seen on a gate.
#[derive(Clone, Copy, Debug, PartialEq, Eq)]
pub enum Seen {
    /// It has a row on this gate from now on.
    New,
    /// It had a row on this gate, which tells the new things now.
    Known,
    /// The gate has 128 rows, and none of this id. Nothing changed.
    TableFull,
}

// The row of a peer that is seen at the host time `now`: it ends a second after its time to live.
pub(crate) fn sighted(
    gate: Gate,
    id: NodeId,
    ttl: u8,
    session: NodeId,
    endpoint: Option<Endpoint>,
    now: i64,
) -> PeerRow
    requires { IsMoment now }
    ensures { result ≡ row_seen gate id ttl session endpoint now }
{
    PeerRow {
        gate,
        id,
        session,
        endpoint,
        limit: now + (i64::from(ttl) + 1) * 1_000_000,
    }
}

// Whether two ids are the same. Their eight bytes are compared as one number, which is faster than one byte after the other.
pub(crate) fn is_same(a: &NodeId, b: &NodeId) -> bool
    ensures { result ≡ same_id a.now b.now }
{
    let (first, _) = u64_at(&a.0);
    let (second, _) = u64_at(&b.0);
    first == second
}
