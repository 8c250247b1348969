//! Writing the line of an event.

ghost use Rattle.std.specs.Prelude.{◌≡◌, ◌≤◌, ◌+◌, ◌++◌, ◌∷◌, length};
ghost use Rattle.std.specs.Fmt.{signed_decimal};
ghost use Rattle.arrayvec.specs.ArrayVec.{array_vec_len};
ghost use Rattle.link_node.specs.Event.{Audio, Rx, event_value};
ghost use Rattle.link_script.specs.ReplayScript.{commit_words, event_line, ended, hex_word, quantum_words, start_words, timeline_words};
ghost use Rattle.link_text.specs.Spaced.{spaced};
ghost use Rattle.link_lines.specs.Words.{joined};

use client_state::Commit;
use link_lines::{
    LineBuf, put, put_client_start, put_decimal, put_endpoint, put_hex, put_signed, put_timeline,
};
use link_node::Event;
use lk_base::{ClientStart, Endpoint, Gate, Timeline};

/// Puts the line of an event in place of what the buffer held. The bytes of a datagram are hex digits of lower case, and a
/// hyphen where there are none. Memory: none.
#[tactic(auto, unfolding(link_script::specs::ReplayScript::event_words))]
pub fn write_event(line: &mut LineBuf, event: &Event)
    ensures { line.new.items ≡ ended (event_line (event_value event.now)) }
{
    match event {
        Event::Rx {
            gate,
            from,
            bytes,
            now,
        } => write_arrival(line, *gate, *from, bytes, *now),
        Event::Tick { now } => {
            line.clear();
            put(line, b"tick ");
            put_signed(line, *now);
            put(line, b"\n");
        }
        Event::App { commit, now } => {
            line.clear();
            put(line, b"app ");
            put_signed(line, *now);
            put(line, b" ");
            put_commit(line, commit);
            put(line, b"\n");
        }
        Event::Audio {
            number,
            commit,
            now,
        } => write_audio(line, *number, commit, *now),
        Event::End { now } => {
            line.clear();
            put(line, b"end ");
            put_signed(line, *now);
            put(line, b"\n");
        }
    }
}

// Puts the line of a datagram that came in place of what the buffer held.
#[tactic(auto, unfolding(link_script::specs::ReplayScript::event_words))]
fn write_arrival(line: &mut LineBuf, gate: Gate, from: Endpoint, bytes: &[u8], now: i64)
    requires { length bytes.now ≤ 513 }
    ensures { line.new.items ≡ ended (event_line (Rx gate from bytes.now now)) }
{
    line.clear();
    put(line, b"rx ");
    put_signed(line, now);
    put(line, b" ");
    put_decimal(line, u64::from(gate.0));
    put(line, b" ");
    put_endpoint(line, from);
    put(line, b" ");
    put_bytes(line, bytes);
    put(line, b"\n");
}

// Puts the line of a commit of the audio thread in place of what the buffer held.
#[tactic(auto, unfolding(link_script::specs::ReplayScript::event_words))]
fn write_audio(line: &mut LineBuf, number: u64, commit: &Commit, now: i64)
    ensures { line.new.items ≡ ended (event_line (Audio number commit.now now)) }
{
    line.clear();
    put(line, b"audio ");
    put_signed(line, now);
    put(line, b" ");
    put_decimal(line, number);
    put(line, b" ");
    put_commit(line, commit);
    put(line, b"\n");
}

/// Bytes in hex digits, and a hyphen for none.
pub(crate) fn put_bytes(line: &mut LineBuf, bytes: &[u8])
    requires short { length bytes.now ≤ 513 }
    requires room { array_vec_len line.old ≤ 173 }
    ensures items { line.new.items ≡ line.old.items ++ hex_word bytes.now }
    ensures len { array_vec_len line.new ≤ array_vec_len line.old + 1026 }
{
    if bytes.is_empty() {
        put(line, b"-");
    } else {
        put_hex(line, bytes);
    }
}

// The moment of a commit, and what it carries.
fn put_commit(line: &mut LineBuf, commit: &Commit)
    requires { array_vec_len line.old ≤ 900 }
    ensures items { line.new.items ≡ line.old.items ++ joined (commit_words commit.now) }
    ensures len { array_vec_len line.new ≤ array_vec_len line.old + 200 }
{
    put_signed(line, commit.at);
    put_edited_timeline(line, &commit.timeline);
    put_edited_start(line, &commit.start);
    put_edited_quantum(line, &commit.quantum);
}

// The words of a timeline where it is there, each behind a space.
fn put_edited_timeline(line: &mut LineBuf, timeline: &Option<Timeline>)
    requires { array_vec_len line.old ≤ 990 }
    ensures items { line.new.items ≡ line.old.items ++ spaced (timeline_words timeline.now) }
    ensures len { array_vec_len line.new ≤ array_vec_len line.old + 68 }
{
    if let Some(timeline) = timeline {
        put(line, b" t ");
        put_timeline(line, *timeline);
    }
}

// The words of a start where it is there, each behind a space.
fn put_edited_start(line: &mut LineBuf, start: &Option<ClientStart>)
    requires { array_vec_len line.old ≤ 990 }
    ensures items { line.new.items ≡ line.old.items ++ spaced (start_words start.now) }
    ensures len { array_vec_len line.new ≤ array_vec_len line.old + 48 }
{
    if let Some(start) = start {
        put(line, b" s ");
        put_client_start(line, *start);
    }
}

// The words of a quantum where it is there, each behind a space.
fn put_edited_quantum(line: &mut LineBuf, quantum: &Option<i64>)
    requires { array_vec_len line.old ≤ 1100 }
    ensures items { line.new.items ≡ line.old.items ++ spaced (quantum_words quantum.now) }
    ensures len { array_vec_len line.new ≤ array_vec_len line.old + 24 }
{
    if let Some(quantum) = quantum {
        put(line, b" q ");
        put_signed(line, *quantum);
    }
}
