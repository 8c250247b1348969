//! Writing states, pings and pongs.

ghost use Rattle.std.specs.Prelude.{◌≡◌, ◌+◌, ◌≤◌, ◌++◌, ◌∷◌, length, is_some, if◌then◌else◌};
ghost use Rattle.arrayvec.specs.ArrayVec.{array_vec_len};
ghost use Rattle.byteorder.specs.Endian.{big_bytes};
ghost use Rattle.link_payload.specs.Entries.{spelled_number_of};
ghost use Rattle.link_payload.specs.Spelling.{spelled_timeline_of, spelled_start_of, spelled_endpoint_of, spelled_state_of, spelled_ping_of, spelled_pong_of};

use crate::fields::{PeerFields, PingFields};
use crate::key::{
    ENDPOINT, ENDPOINT_SIZE, GHOST_TIME, HOST_TIME, PREVIOUS_GHOST_TIME, SESSION, SESSION_SIZE,
    START, START_SIZE, TIME_SIZE, TIMELINE, TIMELINE_SIZE,
};
use byteorder::{BigEndian, ByteOrder};
use lk_base::{Endpoint, NodeId, SessionStart, Timeline, Wire, append};

/// Appends the entries of a state: 87 bytes with an endpoint, 73 without.
#[tactic(auto, using(crate::proofs::SpellingLemmas::lengths), unfolding(crate::specs::Spelling::spelled_state_of, crate::specs::Spelling::spelled_endpoint_entry_of, crate::specs::Entries::spelled_entry_of))]
pub fn write_state(out: &mut Wire, fields: &PeerFields)
    requires { array_vec_len out.old + (if is_some fields.now.endpoint then 87 else 73) ≤ 513 }
    ensures items { out.new.items ≡ out.old.items ++ spelled_state_of fields.now }
    ensures len { array_vec_len out.new
        ≡ array_vec_len out.old + (if is_some fields.now.endpoint then 87 else 73) }
{
    put_entry_head(out, TIMELINE, TIMELINE_SIZE);
    put_timeline(out, fields.timeline);
    put_entry_head(out, SESSION, SESSION_SIZE);
    append(out, &fields.session.0);
    put_entry_head(out, START, START_SIZE);
    put_start(out, fields.start);
    if let Some(endpoint) = fields.endpoint {
        put_entry_head(out, ENDPOINT, ENDPOINT_SIZE);
        put_endpoint(out, endpoint);
    }
}

/// Appends the entries of a ping: 32 bytes with a ghost time, 16 without.
#[tactic(auto, using(crate::proofs::SpellingLemmas::lengths), unfolding(crate::specs::Spelling::spelled_ping_of, crate::specs::Spelling::spelled_previous_entry_of, crate::specs::Entries::spelled_entry_of))]
pub fn write_ping(out: &mut Wire, ping: &PingFields)
    requires { array_vec_len out.old + 32 ≤ 513 }
    ensures items { out.new.items ≡ out.old.items ++ spelled_ping_of ping.now }
    ensures len { array_vec_len out.new
        ≡ array_vec_len out.old + (if is_some ping.now.previous then 32 else 16) }
{
    put_entry_head(out, HOST_TIME, TIME_SIZE);
    put_i64(out, ping.host);
    if let Some(previous) = ping.previous {
        put_entry_head(out, PREVIOUS_GHOST_TIME, TIME_SIZE);
        put_i64(out, previous);
    }
}

/// Appends the entries of a pong, and after them the payload of the ping that it answers, unchanged:
/// 32 bytes and that payload's.
#[tactic(auto, using(crate::proofs::SpellingLemmas::lengths), unfolding(crate::specs::Spelling::spelled_pong_of, crate::specs::Entries::spelled_entry_of))]
pub fn write_pong(out: &mut Wire, session: NodeId, ghost_time: i64, echo: &[u8])
    requires echo { length echo.now ≤ 32 }
    requires room { array_vec_len out.old + 64 ≤ 513 }
    ensures items { out.new.items ≡ out.old.items ++ spelled_pong_of session ghost_time echo.now }
    ensures len { array_vec_len out.new ≡ array_vec_len out.old + 32 + length echo.now }
{
    put_entry_head(out, SESSION, SESSION_SIZE);
    append(out, &session.0);
    put_entry_head(out, GHOST_TIME, TIME_SIZE);
    put_i64(out, ghost_time);
    append(out, echo);
}

#[tactic(auto, unfolding(crate::specs::Spelling::spelled_timeline_of))]
fn put_timeline(out: &mut Wire, timeline: Timeline)
    requires { array_vec_len out.old + 24 ≤ 513 }
    ensures items { out.new.items ≡ out.old.items ++ spelled_timeline_of timeline }
    ensures len { array_vec_len out.new ≡ array_vec_len out.old + 24 }
{
    put_i64(out, timeline.mpb);
    put_i64(out, timeline.beat);
    put_i64(out, timeline.time);
}

#[tactic(auto, unfolding(crate::specs::Spelling::spelled_start_of))]
fn put_start(out: &mut Wire, start: SessionStart)
    requires { array_vec_len out.old + 17 ≤ 513 }
    ensures items { out.new.items ≡ out.old.items ++ spelled_start_of start }
    ensures len { array_vec_len out.new ≡ array_vec_len out.old + 17 }
{
    append(out, &[u8::from(start.playing)]);
    put_i64(out, start.beats);
    put_i64(out, start.stamp);
}

#[tactic(auto, unfolding(crate::specs::Spelling::spelled_endpoint_of))]
fn put_endpoint(out: &mut Wire, endpoint: Endpoint)
    requires { array_vec_len out.old + 6 ≤ 513 }
    ensures items { out.new.items ≡ out.old.items ++ spelled_endpoint_of endpoint }
    ensures len { array_vec_len out.new ≡ array_vec_len out.old + 6 }
{
    put_u32(out, endpoint.addr);
    put_u16(out, endpoint.port);
}

fn put_entry_head(out: &mut Wire, key: u32, size: u32)
    requires { array_vec_len out.old + 8 ≤ 513 }
    ensures items { out.new.items ≡ out.old.items ++ (big_bytes 4 key ++ big_bytes 4 size) }
    ensures len { array_vec_len out.new ≡ array_vec_len out.old + 8 }
{
    put_u32(out, key);
    put_u32(out, size);
}

#[tactic(auto, unfolding(crate::specs::Entries::spelled_number_of))]
fn put_i64(out: &mut Wire, number: i64)
    requires { array_vec_len out.old + 8 ≤ 513 }
    ensures items { out.new.items ≡ out.old.items ++ spelled_number_of number }
    ensures len { array_vec_len out.new ≡ array_vec_len out.old + 8 }
{
    let mut bytes = [0; 8];
    BigEndian::write_i64(&mut bytes, number);
    append(out, &bytes);
}

fn put_u32(out: &mut Wire, number: u32)
    requires { array_vec_len out.old + 4 ≤ 513 }
    ensures items { out.new.items ≡ out.old.items ++ big_bytes 4 number }
    ensures len { array_vec_len out.new ≡ array_vec_len out.old + 4 }
{
    let mut bytes = [0; 4];
    BigEndian::write_u32(&mut bytes, number);
    append(out, &bytes);
}

fn put_u16(out: &mut Wire, number: u16)
    requires { array_vec_len out.old + 2 ≤ 513 }
    ensures items { out.new.items ≡ out.old.items ++ big_bytes 2 number }
    ensures len { array_vec_len out.new ≡ array_vec_len out.old + 2 }
{
    let mut bytes = [0; 2];
    BigEndian::write_u16(&mut bytes, number);
    append(out, &bytes);
}
