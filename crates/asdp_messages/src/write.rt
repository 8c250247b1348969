//! Writing messages.

ghost use Rattle.std.specs.Prelude.{◌≡◌, ◌+◌, ◌≤◌, ◌++◌, Ok, length, is_some, if◌then◌else◌};
ghost use Rattle.arrayvec.specs.ArrayVec.{array_vec_len};
ghost use Rattle.lk_base.specs.Ranges.{IsWithinLimit};
ghost use Rattle.link_payload.specs.declared.fields.PingFields.{PingFields};
ghost use Rattle.link_payload.specs.Fields.{IsTidyFields, IsTidyPing, echoing};
ghost use Rattle.link_payload.specs.Spelling.{spelled_ping_of};
ghost use Rattle.asdp_messages.specs.Datagram.{IsReadAs};
ghost use Rattle.asdp_messages.specs.Datagram.MessageValue.{Alive, Response, Bye, Ping, Pong};
ghost use Rattle.asdp_messages.specs.Spelling.{sent, spelled_of, spelled_header_of, spelled_link_header_of};
ghost use Rattle.asdp_messages.specs.Spelling as written;

use crate::header::{
    DISCOVERY_ALIVE, DISCOVERY_BYE, DISCOVERY_PROTOCOL, DISCOVERY_RESPONSE, Header, LINK_PING,
    LINK_PONG, LINK_PROTOCOL, TIME_TO_LIVE,
};
use crate::laws::written_is_read;
use byteorder::{BigEndian, ByteOrder};
use link_payload::{
    PeerFields, PingFields, fields_are_stored, write_ping, write_pong, write_state,
};
use lk_base::{NodeId, Wire, append};

/// An alive, with a time to live of 5 seconds: 107 bytes with an endpoint, 93 without.
#[tactic(auto, unfolding(crate::specs::Spelling::spelled_of))]
pub fn write_alive(from: NodeId, group: u16, fields: &PeerFields) -> Wire
    ensures items { result.items ≡ spelled_of (written.Alive (sent from group fields.now)) }
    ensures len { array_vec_len result ≡ (if is_some fields.now.endpoint then 107 else 93) }
    ensures reads_back { IsTidyFields fields.now
        → IsReadAs result.items (Ok (Alive (sent from group fields.now))) }
{
    // A law, for the proof: what the types say of the fields.
    fields_are_stored(fields);
    // A law, for the proof: what is written is read again.
    written_is_read();
    let mut out = Wire::new();
    let header = Header {
        kind: DISCOVERY_ALIVE,
        ttl: TIME_TO_LIVE,
        group,
        from,
    };
    put_header(&mut out, &header);
    write_state(&mut out, fields);
    out
}

/// A response, with a time to live of 5 seconds: 107 bytes with an endpoint, 93 without.
#[tactic(auto, unfolding(crate::specs::Spelling::spelled_of))]
pub fn write_response(from: NodeId, group: u16, fields: &PeerFields) -> Wire
    ensures items { result.items ≡ spelled_of (written.Response (sent from group fields.now)) }
    ensures len { array_vec_len result ≡ (if is_some fields.now.endpoint then 107 else 93) }
    ensures reads_back { IsTidyFields fields.now
        → IsReadAs result.items (Ok (Response (sent from group fields.now))) }
{
    // A law, for the proof: what the types say of the fields.
    fields_are_stored(fields);
    // A law, for the proof: what is written is read again.
    written_is_read();
    let mut out = Wire::new();
    let header = Header {
        kind: DISCOVERY_RESPONSE,
        ttl: TIME_TO_LIVE,
        group,
        from,
    };
    put_header(&mut out, &header);
    write_state(&mut out, fields);
    out
}

/// A bye, with a time to live of 0 seconds and no payload: 20 bytes.
#[tactic(auto, unfolding(crate::specs::Spelling::spelled_of))]
pub fn write_bye(from: NodeId, group: u16) -> Wire
    ensures items { result.items ≡ spelled_of (written.Bye from 0 group) }
    ensures len { array_vec_len result ≡ 20 }
    ensures reads_back { IsReadAs result.items (Ok (Bye from 0 group)) }
{
    // A law, for the proof: what is written is read again.
    written_is_read();
    let mut out = Wire::new();
    let header = Header {
        kind: DISCOVERY_BYE,
        ttl: 0,
        group,
        from,
    };
    put_header(&mut out, &header);
    out
}

/// A ping: 41 bytes with a ghost time, 25 without.
#[tactic(auto, unfolding(crate::specs::Spelling::spelled_of))]
pub fn write_ping_message(ping: &PingFields) -> Wire
    ensures items { result.items ≡ spelled_of (written.Ping ping.now) }
    ensures len { array_vec_len result ≡ (if is_some ping.now.previous then 41 else 25) }
    ensures reads_back { IsReadAs result.items (Ok (Ping (spelled_ping_of ping.now))) }
{
    // A law, for the proof: what is written is read again.
    written_is_read();
    let mut out = Wire::new();
    put_link_header(&mut out, LINK_PING);
    write_ping(&mut out, ping);
    out
}

/// A pong, which gives back the payload of the ping that it answers: 41 bytes and that payload's.
#[tactic(auto, unfolding(crate::specs::Spelling::spelled_of))]
pub fn write_pong_message(session: NodeId, ghost_time: i64, echo: &[u8]) -> Wire
    requires { length echo.now ≤ 32 }
    ensures items { result.items ≡ spelled_of (written.Pong session ghost_time echo.now) }
    ensures len { array_vec_len result ≡ 41 + length echo.now }
    ensures reads_back { (ping : PingFields) → IsTidyPing ping → IsWithinLimit ghost_time
        → echo.now ≡ spelled_ping_of ping
        → IsReadAs result.items (Ok (Pong (echoing session ghost_time ping))) }
{
    // A law, for the proof: what is written is read again.
    written_is_read();
    let mut out = Wire::new();
    put_link_header(&mut out, LINK_PONG);
    write_pong(&mut out, session, ghost_time, echo);
    out
}

#[tactic(auto, unfolding(crate::specs::Spelling::spelled_link_header_of))]
fn put_link_header(out: &mut Wire, kind: u8)
    requires { array_vec_len out.old + 9 ≤ 513 }
    ensures items { out.new.items ≡ out.old.items ++ spelled_link_header_of kind }
    ensures len { array_vec_len out.new ≡ array_vec_len out.old + 9 }
{
    let mut protocol = [0; 8];
    BigEndian::write_u64(&mut protocol, LINK_PROTOCOL);
    append(out, &protocol);
    append(out, &[kind]);
}

fn put_header(out: &mut Wire, header: &Header)
    requires { array_vec_len out.old + 20 ≤ 513 }
    ensures items { let h = header.now in
        out.new.items ≡ out.old.items ++ spelled_header_of h.kind h.ttl h.group h.from }
    ensures len { array_vec_len out.new ≡ array_vec_len out.old + 20 }
{
    let mut protocol = [0; 8];
    BigEndian::write_u64(&mut protocol, DISCOVERY_PROTOCOL);
    append(out, &protocol);
    append(out, &[header.kind, header.ttl]);
    let mut group = [0; 2];
    BigEndian::write_u16(&mut group, header.group);
    append(out, &group);
    append(out, &header.from.0);
}
