//! The line that tells how a datagram is read.

ghost use Rattle.std.specs.Prelude.{◌≡◌, ◌≤◌, ◌+◌, ◌*◌, ◌++◌, ◌∷◌, [], length, codes};
ghost use Rattle.std.specs.Fmt.{decimal, signed_decimal};
ghost use Rattle.arrayvec.specs.ArrayVec.{array_vec_len};
ghost use Rattle.asdp_messages.specs.Datagram.{HasShortPing, IsShortMessage, answer_value, message_value};
ghost use Rattle.link_lines.specs.Words.{truth_text_of};
ghost use Rattle.link_lines.specs.Line.{line_of};
ghost use Rattle.link_text.specs.ReadingLine.{fault_words_of, id_text_of, key_text_of, maybe_endpoint_text_of, message_words_of, payload_fault_words_of, payload_text_of, reading_line_of, state_words_of};

use asdp_messages::{Message, StateMsg, WireFault};
use link_lines::{
    LineBuf, put, put_decimal, put_endpoint, put_hex, put_short_hex, put_signed, put_timeline,
    put_truth,
};
use link_payload::{PayloadFault, PongFields};
use lk_base::{Endpoint, NodeId, SessionStart};

/// Writes the line of a datagram's message or of its fault, with its line feed, in place of what the buffer held. Ids and keys are
/// hex digits of lower case, numbers are decimal, and an absent endpoint or an empty payload is `-`.
///
/// Waits: no. Memory: none.
#[tactic(auto, unfolding(crate::specs::ReadingLine::reading_line_of))]
pub fn write_reading(line: &mut LineBuf, reading: &Result<Message<'_>, WireFault>)
    requires { HasShortPing (answer_value reading.now) }
    ensures { line.new.items ≡ reading_line_of (answer_value reading.now) }
{
    line.clear();
    match reading {
        Ok(message) => put_message(line, message),
        Err(fault) => {
            put(line, b"fault ");
            put_fault(line, fault);
        }
    }
}

// The words of a message, and the line feed.
fn put_message(line: &mut LineBuf, message: &Message<'_>)
    requires room { array_vec_len line.old ≤ 6 }
    requires short { IsShortMessage (message_value message.now) }
    ensures { line.new.items ≡ line.old.items ++ line_of (message_words_of (message_value message.now)) }
{
    match message {
        Message::Alive(state) => {
            put(line, b"alive ");
            put_state(line, state);
        }
        Message::Response(state) => {
            put(line, b"response ");
            put_state(line, state);
        }
        Message::Bye { from, ttl, group } => {
            put(line, b"bye ");
            put_sender(line, *from, *ttl, *group);
            put(line, b"\n");
        }
        Message::Ping { payload } => {
            put(line, b"ping ");
            put_payload(line, payload);
            put(line, b"\n");
        }
        Message::Pong(fields) => {
            put(line, b"pong ");
            put_pong(line, *fields);
        }
        Message::OtherDiscovery { kind } => {
            put(line, b"other discovery ");
            put_decimal(line, u64::from(*kind));
            put(line, b"\n");
        }
        Message::OtherLink { kind } => {
            put(line, b"other link ");
            put_decimal(line, u64::from(*kind));
            put(line, b"\n");
        }
    }
}

// The words of a fault, and the line feed.
fn put_fault(line: &mut LineBuf, fault: &WireFault)
    requires { array_vec_len line.old ≤ 6 }
    ensures { line.new.items ≡ line.old.items ++ line_of (fault_words_of fault.now) }
{
    match fault {
        WireFault::Short { len } => {
            put(line, b"short ");
            put_decimal(line, u64::from(*len));
            put(line, b"\n");
        }
        WireFault::NotLink => put(line, b"notlink\n"),
        WireFault::TooLong { len } => {
            put(line, b"toolong ");
            put_decimal(line, u64::from(*len));
            put(line, b"\n");
        }
        WireFault::Payload(fault) => put_payload_fault(line, fault),
    }
}

// The words of a payload's fault, and the line feed.
fn put_payload_fault(line: &mut LineBuf, fault: &PayloadFault)
    requires { array_vec_len line.old ≤ 6 }
    ensures { line.new.items ≡ line.old.items ++ line_of (payload_fault_words_of fault.now) }
{
    match fault {
        PayloadFault::Cut { at } => {
            put(line, b"cut ");
            put_decimal(line, u64::from(*at));
        }
        PayloadFault::WrongSize { key, size } => {
            put(line, b"size ");
            put_key(line, *key);
            put(line, b" ");
            put_decimal(line, u64::from(*size));
        }
        PayloadFault::Missing { key } => {
            put(line, b"missing ");
            put_key(line, *key);
        }
        PayloadFault::OutOfRange { key, value } => {
            put(line, b"range ");
            put_key(line, *key);
            put(line, b" ");
            put_signed(line, *value);
        }
    }
    put(line, b"\n");
}

// The words of a state, and the line feed.
fn put_state(line: &mut LineBuf, state: &StateMsg)
    requires { array_vec_len line.old ≤ 15 }
    ensures { line.new.items ≡ line.old.items ++ line_of (state_words_of state.now) }
{
    let fields = &state.fields;
    put_sender(line, state.from, state.ttl, state.group);
    put(line, b" ");
    put_timeline(line, fields.timeline);
    put(line, b" ");
    put_id(line, fields.session);
    put(line, b" ");
    put_start(line, fields.start);
    put(line, b" ");
    put_maybe_endpoint(line, fields.endpoint);
    put(line, b"\n");
}

// The sender, the time to live and the group.
fn put_sender(line: &mut LineBuf, from: NodeId, ttl: u8, group: u16)
    requires { array_vec_len line.old ≤ 15 }
    ensures items { line.new.items
        ≡ line.old.items ++ (id_text_of from ++ 32 ∷ (decimal ttl ++ 32 ∷ decimal group)) }
    ensures len { array_vec_len line.new ≤ array_vec_len line.old + 58 }
{
    put_id(line, from);
    put(line, b" ");
    put_decimal(line, u64::from(ttl));
    put(line, b" ");
    put_decimal(line, u64::from(group));
}

// Whether it plays, the beats and the stamp.
fn put_start(line: &mut LineBuf, start: SessionStart)
    requires { array_vec_len line.old ≤ 1000 }
    ensures items { line.new.items ≡ line.old.items
        ++ (truth_text_of start.playing ++ 32 ∷ (signed_decimal start.beats ++ 32 ∷ signed_decimal start.stamp)) }
    ensures len { array_vec_len line.new ≤ array_vec_len line.old + 45 }
{
    put_truth(line, start.playing);
    put(line, b" ");
    put_signed(line, start.beats);
    put(line, b" ");
    put_signed(line, start.stamp);
}

// The words of a pong, and the line feed.
fn put_pong(line: &mut LineBuf, fields: PongFields)
    requires { array_vec_len line.old ≤ 15 }
    ensures { line.new.items ≡ line.old.items ++ line_of (
        id_text_of fields.session ∷ signed_decimal fields.ghost_time ∷ signed_decimal fields.host ∷ signed_decimal fields.previous ∷ []) }
{
    put_id(line, fields.session);
    put(line, b" ");
    put_signed(line, fields.ghost_time);
    put(line, b" ");
    put_signed(line, fields.host);
    put(line, b" ");
    put_signed(line, fields.previous);
    put(line, b"\n");
}

// An id, in sixteen hex digits.
#[tactic(auto, unfolding(crate::specs::ReadingLine::id_text_of))]
fn put_id(line: &mut LineBuf, id: NodeId)
    requires { array_vec_len line.old ≤ 1000 }
    ensures items { line.new.items ≡ line.old.items ++ id_text_of id }
    ensures len { array_vec_len line.new ≡ array_vec_len line.old + 16 }
{
    put_short_hex(line, &id.0);
}

// A key, in eight hex digits.
#[tactic(auto, unfolding(crate::specs::ReadingLine::key_text_of))]
fn put_key(line: &mut LineBuf, key: u32)
    requires { array_vec_len line.old ≤ 1000 }
    ensures items { line.new.items ≡ line.old.items ++ key_text_of key }
    ensures len { array_vec_len line.new ≡ array_vec_len line.old + 8 }
{
    put_short_hex(line, &key.to_be_bytes());
}

// A payload in hex digits, and `-` where it is empty.
#[tactic(auto, unfolding(crate::specs::ReadingLine::payload_text_of))]
fn put_payload(line: &mut LineBuf, payload: &[u8])
    requires room { array_vec_len line.old ≤ 15 }
    requires short { length payload.now ≤ 503 }
    ensures items { line.new.items ≡ line.old.items ++ payload_text_of payload.now }
    ensures len { array_vec_len line.new ≤ array_vec_len line.old + 1006 }
{
    if payload.is_empty() {
        put(line, b"-");
    } else {
        put_hex(line, payload);
    }
}

// An endpoint, and `-` for none.
#[tactic(auto, unfolding(crate::specs::ReadingLine::maybe_endpoint_text_of))]
fn put_maybe_endpoint(line: &mut LineBuf, endpoint: Option<Endpoint>)
    requires { array_vec_len line.old ≤ 1000 }
    ensures items { line.new.items ≡ line.old.items ++ maybe_endpoint_text_of endpoint }
    ensures len { array_vec_len line.new ≤ array_vec_len line.old + 104 }
{
    match endpoint {
        Some(endpoint) => put_endpoint(line, endpoint),
        None => put(line, b"-"),
    }
}
