//! The text of an answer, and how it is written.

ghost use Rattle.std.specs.Prelude.{◌≡◌, ◌≤◌, ◌+◌, ◌*◌, ◌^◌, ◌-ℤ◌, ◌*ℤ◌, pos, ◌++◌, ◌∷◌, [], codes, length, if◌then◌else◌, IfSome};
ghost use Rattle.std.specs.Fmt.{decimal, signed_decimal};
ghost use Rattle.arrayvec.specs.ArrayVec.{array_vec_len};
ghost use Rattle.client_state.specs.State.{IsTidyState};
ghost use Rattle.hex.specs.Hex.{encode_lower};
ghost use Rattle.lk_base.specs.Ranges.{IsWithin, IsWithinLimit};
ghost use Rattle.lk_base.specs.Timeline.{IsTidy};
ghost use Rattle.link_asks.specs.Answers.{answer_to, bad_text_of, changed_text_of, facts_of, gate_state_text_of, gate_words, ok_text, ok_text_of, phase_since_origin, since_origin, time_since_origin};
ghost use Rattle.link_asks.specs.Asks.{IsAsk};
ghost use Rattle.link_asks.specs.Reasons.{no_end_text};
ghost use Rattle.link_asks.specs.Views.{view_words};
ghost use Rattle.link_lines.specs.Line.{line_of};
ghost use Rattle.link_lines.specs.Words.{truth_text_of};
ghost use Rattle.timeline_math.specs.Beats.{beat_at};

use crate::ask::Ask;
use crate::known::{GateState, GateTold, Known};
use crate::reason::{Reason, reason_text};
use crate::view::{View, view_of};
use client_state::State;
use link_lines::{LineBuf, put, put_decimal, put_short_hex, put_signed, put_truth};
use lk_base::{Timeline, clip, moved, near};
use timeline_math::{phase, time_at};

/// Puts the answer to a line that asks for this in place of what the buffer held; `reason` is what is wrong with one that asks for
/// nothing. Memory: none.
#[tactic(auto, unfolding(crate::specs::Answers::answer_to))]
pub fn put_answer(line: &mut LineBuf, asked: Option<Ask>, reason: Reason, known: &Known)
    requires range { IfSome asked IsAsk }
    requires tidy { IsTidyState known.now.shown }
    requires gates { length known.now.gates.now ≤ 4 }
    ensures { line.new.items ≡ answer_to asked reason (facts_of known.now) }
{
    line.clear();
    let Some(asked) = asked else {
        put_bad(line, reason_text(reason));
        return;
    };
    match asked {
        Ask::Status => put_view(line, b"status", &view_of(&known.shown), known.published),
        Ask::Now => put_now(
            line,
            known.at,
            since_origin(&known.shown.timeline, known.at),
            phase_at(&known.shown, known.at),
        ),
        Ask::Beat(time) => put_beat(line, since_origin(&known.shown.timeline, time)),
        Ask::Phase(time) => put_phase(line, phase_at(&known.shown, time)),
        Ask::Time(beat) => put_time(line, time_of(&known.shown.timeline, beat)),
        Ask::Tempo(_)
        | Ask::Play(_)
        | Ask::Stop(_)
        | Ask::Force(_, _)
        | Ask::Request(_, _)
        | Ask::Quantum(_) => put_number(line, known.number),
        Ask::Watch | Ask::Unwatch => put_ok(line),
        Ask::Clients => put_clients(line, known.clients),
        Ask::Gates => put_gates(line, known.gates),
        Ask::End => put_end(line, known.may_end),
    }
}

/// Puts the line that tells a watching client what is shown of a published state of this number in place of what the buffer held.
/// Memory: none.
#[tactic(auto, unfolding(crate::specs::Answers::changed_text_of))]
pub fn put_changed(line: &mut LineBuf, view: &View, published: u64)
    ensures { line.new.items ≡ changed_text_of view.now published }
{
    line.clear();
    put_view(line, b"changed", view, published);
}

// ---- beats

// The beat at a time, counted from the beat origin.
#[tactic(auto, unfolding(crate::specs::Answers::since_origin))]
fn since_origin(timeline: &Timeline, time: i64) -> i64
    requires { IsTidy timeline.now }
    ensures value { result ≡ since_origin timeline.now time }
    ensures within { IsWithin (2 ^ 61) result }
{
    beat_then(timeline, time) - timeline.beat
}

// The beat at any time: that of a clock may be beyond the limit, within which `beat_at` counts.
#[tactic(auto, unfolding(timeline_math::specs::Beats::beat_at))]
fn beat_then(timeline: &Timeline, time: i64) -> i64
    requires { IsTidy timeline.now }
    ensures value { result ≡ beat_at timeline.now time }
    ensures within { IsWithinLimit result }
{
    let ahead = millionfold(between(timeline.time, time));
    moved(timeline.beat, near(ahead, timeline.mpb as i128))
}

fn between(from: i64, to: i64) -> i128
    ensures value { result ≡ to -ℤ from }
    ensures within { IsWithin (2 ^ 64) result }
{
    to as i128 - from as i128
}

fn millionfold(n: i128) -> i128
    requires { IsWithin (2 ^ 64) n }
    ensures value { result ≡ n *ℤ pos 1_000_000 }
    ensures within { IsWithin (2 ^ 84) result }
{
    n * 1_000_000
}

// The time of a beat that is counted so.
#[tactic(auto, unfolding(crate::specs::Answers::time_since_origin))]
fn time_of(timeline: &Timeline, beat: i64) -> i64
    requires tidy { IsTidy timeline.now }
    requires beat { IsWithinLimit beat }
    ensures { result ≡ time_since_origin timeline.now beat }
{
    time_at(timeline, clip(timeline.beat as i128 + beat as i128))
}

// The phase of the beat at a time in the quantum.
#[tactic(auto, unfolding(crate::specs::Answers::phase_since_origin))]
fn phase_at(shown: &State, time: i64) -> i64
    requires { IsTidyState shown.now }
    ensures { result ≡ phase_since_origin shown.now time }
{
    phase(since_origin(&shown.timeline, time), shown.quantum)
}

// ---- lines, each put in an empty buffer

// What is wrong.
#[tactic(auto, unfolding(crate::specs::Answers::bad_text_of))]
fn put_bad(line: &mut LineBuf, reason: &[u8])
    requires empty { line.old.items ≡ [] }
    requires short { length reason.now ≤ 150 }
    ensures { line.new.items ≡ bad_text_of reason.now }
{
    put(line, b"bad ");
    put(line, reason);
    put(line, b"\n");
}

// A word, and what is shown.
fn put_view(line: &mut LineBuf, word: &[u8], view: &View, published: u64)
    requires empty { line.old.items ≡ [] }
    requires short { length word.now ≤ 10 }
    ensures { line.new.items ≡ line_of (word.now ∷ view_words view.now published) }
{
    put(line, word);
    put(line, b" ");
    put_timeline_of(line, view);
    put(line, b" ");
    put_playing(line, view);
    put(line, b" ");
    put_session(line, view, published);
    put(line, b"\n");
}

// The timeline that is shown.
fn put_timeline_of(line: &mut LineBuf, view: &View)
    requires { array_vec_len line.old ≤ 1000 }
    ensures items { line.new.items ≡ line.old.items
        ++ (signed_decimal view.now.mpb ++ 32 ∷ (signed_decimal view.now.beat ++ 32 ∷ signed_decimal view.now.time)) }
    ensures len { array_vec_len line.new ≤ array_vec_len line.old + 65 }
{
    put_signed(line, view.mpb);
    put(line, b" ");
    put_signed(line, view.beat);
    put(line, b" ");
    put_signed(line, view.time);
}

// Whether it plays, since when, and the peers.
fn put_playing(line: &mut LineBuf, view: &View)
    requires { array_vec_len line.old ≤ 1000 }
    ensures items { line.new.items ≡ line.old.items
        ++ (truth_text_of view.now.playing ++ 32 ∷ (signed_decimal view.now.start_time ++ 32 ∷ decimal view.now.peers)) }
    ensures len { array_vec_len line.new ≤ array_vec_len line.old + 44 }
{
    put_truth(line, view.playing);
    put(line, b" ");
    put_signed(line, view.start_time);
    put(line, b" ");
    put_decimal(line, u64::from(view.peers));
}

// The quantum, the session, and the number of the state.
fn put_session(line: &mut LineBuf, view: &View, published: u64)
    requires { array_vec_len line.old ≤ 1000 }
    ensures items { line.new.items ≡ line.old.items
        ++ (signed_decimal view.now.quantum ++ 32 ∷ (encode_lower view.now.session.0 ++ 32 ∷ decimal published)) }
    ensures len { array_vec_len line.new ≤ array_vec_len line.old + 59 }
{
    put_signed(line, view.quantum);
    put(line, b" ");
    put_short_hex(line, &view.session.0);
    put(line, b" ");
    put_decimal(line, published);
}

// A time, its beat and its phase.
fn put_now(line: &mut LineBuf, at: i64, beat: i64, phase: i64)
    requires { line.old.items ≡ [] }
    ensures { line.new.items ≡ line_of (codes "now" ∷ signed_decimal at ∷ signed_decimal beat ∷ signed_decimal phase ∷ []) }
{
    put(line, b"now ");
    put_signed(line, at);
    put(line, b" ");
    put_signed(line, beat);
    put(line, b" ");
    put_signed(line, phase);
    put(line, b"\n");
}

// A beat.
fn put_beat(line: &mut LineBuf, beat: i64)
    requires { line.old.items ≡ [] }
    ensures { line.new.items ≡ line_of (codes "beat" ∷ signed_decimal beat ∷ []) }
{
    put(line, b"beat ");
    put_signed(line, beat);
    put(line, b"\n");
}

// A phase.
fn put_phase(line: &mut LineBuf, phase: i64)
    requires { line.old.items ≡ [] }
    ensures { line.new.items ≡ line_of (codes "phase" ∷ signed_decimal phase ∷ []) }
{
    put(line, b"phase ");
    put_signed(line, phase);
    put(line, b"\n");
}

// A time.
fn put_time(line: &mut LineBuf, time: i64)
    requires { line.old.items ≡ [] }
    ensures { line.new.items ≡ line_of (codes "time" ∷ signed_decimal time ∷ []) }
{
    put(line, b"time ");
    put_signed(line, time);
    put(line, b"\n");
}

// The number of a commit.
#[tactic(auto, unfolding(crate::specs::Answers::ok_text_of))]
fn put_number(line: &mut LineBuf, number: u64)
    requires { line.old.items ≡ [] }
    ensures { line.new.items ≡ ok_text_of number }
{
    put(line, b"ok ");
    put_decimal(line, number);
    put(line, b"\n");
}

// That it is done.
#[tactic(auto, unfolding(crate::specs::Answers::ok_text))]
fn put_ok(line: &mut LineBuf)
    requires { line.old.items ≡ [] }
    ensures { line.new.items ≡ ok_text }
{
    put(line, b"ok\n");
}

// How many clients there are.
fn put_clients(line: &mut LineBuf, clients: u32)
    requires { line.old.items ≡ [] }
    ensures { line.new.items ≡ line_of (codes "clients" ∷ decimal clients ∷ []) }
{
    put(line, b"clients ");
    put_decimal(line, u64::from(clients));
    put(line, b"\n");
}

// Whether the serving ends.
#[tactic(auto, unfolding(crate::specs::Reasons::no_end_text))]
fn put_end(line: &mut LineBuf, may_end: bool)
    requires { line.old.items ≡ [] }
    ensures { line.new.items ≡ (if may_end then ok_text else bad_text_of no_end_text) }
{
    if may_end {
        put_ok(line);
    } else {
        put_bad(
            line,
            b"end is for a server that was started with --end-allowed",
        );
    }
}

// How many gates there are, and how each stands.
fn put_gates(line: &mut LineBuf, gates: &[GateTold])
    requires empty { line.old.items ≡ [] }
    requires few { length gates.now ≤ 4 }
    ensures { line.new.items ≡ line_of (codes "gates" ∷ decimal (length gates.now) ∷ gate_words gates.now) }
{
    put(line, b"gates ");
    put_decimal(line, gates.len() as u64);
    for gate in gates {
        put_gate(line, gate);
    }
    put(line, b"\n");
}

// How a gate stands, behind a space.
fn put_gate(line: &mut LineBuf, gate: &GateTold)
    requires { array_vec_len line.old ≤ 1000 }
    ensures items { line.new.items ≡ line.old.items ++ 32 ∷ (gate_state_text_of gate.now.state ++ 32 ∷ decimal gate.now.refused) }
    ensures len { array_vec_len line.new ≤ array_vec_len line.old + 29 }
{
    put(line, b" ");
    put_gate_state(line, gate.state);
    put(line, b" ");
    put_decimal(line, gate.refused);
}

#[tactic(auto, unfolding(crate::specs::Answers::gate_state_text_of))]
fn put_gate_state(line: &mut LineBuf, state: GateState)
    requires { array_vec_len line.old ≤ 1010 }
    ensures items { line.new.items ≡ line.old.items ++ gate_state_text_of state }
    ensures len { array_vec_len line.new ≤ array_vec_len line.old + 7 }
{
    match state {
        GateState::Bound => put(line, b"bound"),
        GateState::Unbound => put(line, b"unbound"),
        GateState::Failed => put(line, b"failed"),
    }
}
