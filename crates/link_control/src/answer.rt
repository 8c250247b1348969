//! The answer to a line: its text, and how it is written.

ghost use Rattle.std.specs.Prelude.{◌≡◌, ◌≤◌, ◌+◌, ◌++◌, ◌∷◌, [], codes, IfSome, IsSome};
ghost use Rattle.std.specs.Bool.{OnFalse, OnTrue};
ghost use Rattle.std.specs.Fmt.{decimal, signed_decimal};
ghost use Rattle.arrayvec.specs.ArrayVec.{array_vec_len};
ghost use Rattle.client_state.specs.State.{IsTidyState};
ghost use Rattle.lk_outside.specs.Faults.{Rose};
ghost use Rattle.lk_outside.specs.Sink.{Appends};
ghost use Rattle.link_text.specs.ControlLine.{IsControlLine};
ghost use Rattle.link_lines.specs.Line.{line_of};
ghost use Rattle.link_lines.specs.Words.{truth_text_of};
ghost use Rattle.link_control.specs.Answers.{answer_of, ok_text_of, status_text_of};
ghost use Rattle.link_control.specs.ServingNow.{IsWrittenInPart};

use client_state::State;
use link_text::{ControlLine, LineBuf, put, put_decimal, put_signed, put_truth};
use lk_outside::{Put, Talk};
use timeline_math::{beat_at, time_at};

/// Puts the answer to a line that asks for this in place of what the buffer held, where this state is shown and the line's commit has this
/// number. Memory: none.
#[tactic(auto, unfolding(crate::specs::Answers::answer_of, crate::specs::Answers::bad_text))]
pub(crate) fn put_answer(line: &mut LineBuf, asked: Option<ControlLine>, number: u64, shown: &State)
    requires range { IfSome asked IsControlLine }
    requires tidy { IsTidyState shown.now }
    ensures { line.new.items ≡ answer_of asked number shown.now }
{
    line.clear();
    let Some(asked) = asked else {
        put(line, b"bad\n");
        return;
    };
    match asked {
        ControlLine::Status => put_status(line, shown),
        ControlLine::Tempo(_) | ControlLine::Play | ControlLine::Stop => put_ok(line, number),
        ControlLine::Beat(time) => put_beat(line, beat_at(&shown.timeline, time)),
        ControlLine::Time(beat) => put_time(line, time_at(&shown.timeline, beat)),
    }
}

// The shown timeline, whether it plays, and the peers, in an empty buffer.
#[tactic(auto, unfolding(crate::specs::Answers::status_text_of))]
fn put_status(line: &mut LineBuf, shown: &State)
    requires { line.old.items ≡ [] }
    ensures { line.new.items ≡ status_text_of shown.now }
{
    put(line, b"status ");
    put_shown(line, shown);
    put(line, b"\n");
}

// The words of the shown state.
fn put_shown(line: &mut LineBuf, shown: &State)
    requires { array_vec_len line.old ≤ 1000 }
    ensures items { line.new.items ≡ line.old.items ++ (signed_decimal shown.now.timeline.mpb ++ 32 ∷ (signed_decimal shown.now.timeline.beat
        ++ 32 ∷ (signed_decimal shown.now.timeline.time ++ 32 ∷ (truth_text_of shown.now.start.playing ++ 32 ∷ decimal shown.now.peers)))) }
    ensures len { array_vec_len line.new ≤ array_vec_len line.old + 88 }
{
    put_signed(line, shown.timeline.mpb);
    put(line, b" ");
    put_signed(line, shown.timeline.beat);
    put(line, b" ");
    put_signed(line, shown.timeline.time);
    put(line, b" ");
    put_truth(line, shown.start.playing);
    put(line, b" ");
    put_decimal(line, u64::from(shown.peers));
}

// The number of the commit, in an empty buffer.
#[tactic(auto, unfolding(crate::specs::Answers::ok_text_of))]
fn put_ok(line: &mut LineBuf, number: u64)
    requires { line.old.items ≡ [] }
    ensures { line.new.items ≡ ok_text_of number }
{
    put(line, b"ok ");
    put_decimal(line, number);
    put(line, b"\n");
}

// A beat, in an empty buffer.
fn put_beat(line: &mut LineBuf, beat: i64)
    requires { line.old.items ≡ [] }
    ensures { line.new.items ≡ line_of (codes "beat" ∷ signed_decimal beat ∷ []) }
{
    put(line, b"beat ");
    put_signed(line, beat);
    put(line, b"\n");
}

// A time, in an empty buffer.
fn put_time(line: &mut LineBuf, time: i64)
    requires { line.old.items ≡ [] }
    ensures { line.new.items ≡ line_of (codes "time" ∷ signed_decimal time ∷ []) }
{
    put(line, b"time ");
    put_signed(line, time);
    put(line, b"\n");
}

/// Writes all of an answer to the client. Answers false where the talk failed, and then not all of it was written.
///
/// Waits: in the talk. Memory: none.
pub(crate) fn say<L: Talk>(talk: &mut L, answer: &[u8]) -> bool
    requires opened { IsSome (L.seen talk.old).opened }
    ensures whole { OnTrue result (Appends (L.seen talk.old).written answer.now (L.seen talk.new).written) }
    ensures part { OnFalse result (IsWrittenInPart (L.seen talk.old).written answer.now (L.seen talk.new).written) }
    ensures quiet { OnTrue result ((L.seen talk.new).faults ≡ (L.seen talk.old).faults) }
    ensures cause { OnFalse result (Rose (L.seen talk.old).faults (L.seen talk.new).faults) }
    ensures left { (L.seen talk.new).left ≡ (L.seen talk.old).left }
    ensures opened { (L.seen talk.new).opened ≡ (L.seen talk.old).opened }
{
    let mut done = 0;
    while done < answer.len() {
        match talk.write(&answer[done..]) {
            Put::Took(count) => done += count,
            Put::Failed => return false,
        }
    }
    true
}
