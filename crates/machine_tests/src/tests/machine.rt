ghost use Rattle.std.specs.Prelude.{◌≤◌, length};
ghost use Rattle.link_payload.specs.Entries.{AreBytes};

mod node;
mod text;
mod world;

use link_payload::PeerFields;
use lk_base::{Endpoint, NodeId, SessionStart, Timeline, Wire, append};
use std::fmt::Debug;
use std::process::Abort;

// The host time at which each node opens.
const OPENING: i64 = 1_000_000;

// The id of each node, so of its first session, and those of two peers.
const OWN: NodeId = NodeId(*b"AAAAAAAA");

const PEER: NodeId = NodeId(*b"BBBBBBBB");

const OTHER: NodeId = NodeId(*b"CCCCCCCC");

const STILL: SessionStart = SessionStart {
    playing: false,
    beats: 0,
    stamp: 0,
};

// The first session's timeline, as it is opened.
const FIRST: Timeline = Timeline {
    mpb: 500_000,
    beat: 0,
    time: 0,
};

fn endpoint(port: u16) -> Endpoint {
    Endpoint {
        addr: 0x0A00_0001,
        port,
    }
}

fn timeline(mpb: i64, beat: i64, time: i64) -> Timeline {
    Timeline { mpb, beat, time }
}

// The same bytes.
fn wire_of(bytes: &[u8]) -> Wire
    requires { length bytes.now ≤ 513 }
    ensures bytes { AreBytes result.items }
    ensures len { length result.items ≤ 513 }
{
    let mut wire = Wire::new();
    append(&mut wire, bytes);
    wire
}

// What a peer in a session tells that answers pings at this port.
fn fields(session: NodeId, timeline: Timeline, start: SessionStart, port: u16) -> PeerFields {
    PeerFields {
        timeline,
        session,
        start,
        endpoint: Some(endpoint(port)),
    }
}

// Fails, telling the number of the row and both, where what is found for a table's row isn't what the row tells.
fn expect<T: PartialEq + Debug>(rt: &impl Abort, row: usize, found: &T, wanted: &T) {
    assert_eq!(rt; *found, *wanted, "row {row}");
}

// Fails, telling the number of the row.
fn fail(rt: &impl Abort, row: usize) {
    assert!(rt; false, "row {row}");
}
