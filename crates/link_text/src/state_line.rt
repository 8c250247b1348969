//! The line of a state, the last line of a replay, and the line of a load.

ghost use Rattle.std.specs.Prelude.{◌≡◌, ◌≤◌, ◌+◌, ◌++◌, ◌∷◌, []};
ghost use Rattle.std.specs.Fmt.{decimal, signed_decimal};
ghost use Rattle.arrayvec.specs.ArrayVec.{array_vec_len};
ghost use Rattle.hex.specs.Hex.{encode_lower};
ghost use Rattle.link_lines.specs.Line.{line_of};
ghost use Rattle.link_text.specs.Load.{load_line_of};
ghost use Rattle.link_text.specs.ReplayText.{state_line_of, done_line_of, profile_words};
ghost use Rattle.link_text.specs.Spaced.{spaced};
ghost use Rattle.link_lines.specs.Words.{truth_text_of};

use client_state::State;
use link_lines::{
    LineBuf, put, put_client_start, put_decimal, put_short_hex, put_signed, put_timeline, put_truth,
};
use lk_base::NodeId;

/// Puts the line of a state by its number in place of what the buffer held: in version 1 without its session and quantum.
/// Memory: none.
pub fn write_state_line(line: &mut LineBuf, version: u8, number: u64, state: &State)
    ensures { line.new.items ≡ state_line_of version number state.now }
{
    line.clear();
    put(line, b"state ");
    put_decimal(line, number);
    put(line, b" ");
    put_timeline(line, state.timeline);
    put(line, b" ");
    put_client_start(line, state.start);
    put(line, b" ");
    put_counts(line, state);
    put_profile(line, version, state);
    put(line, b"\n");
}

/// Puts the last line of a replay in place of what the buffer held: how many events there were, how many states with the
/// opening one, and how many datagrams were sent. Memory: none.
#[tactic(auto, unfolding(crate::specs::ReplayText::done_line_of))]
pub fn write_done_line(line: &mut LineBuf, events: u64, states: u64, sends: u64)
    ensures { line.new.items ≡ done_line_of events states sends }
{
    line.clear();
    put(line, b"done ");
    put_totals(line, events, states, sends);
}

/// Puts the line of a load in place of what the buffer held: how many events there were, how many states with the opening one,
/// and how many datagrams were sent. Memory: none.
#[tactic(auto, unfolding(crate::specs::Load::load_line_of))]
pub fn write_load_line(line: &mut LineBuf, events: u64, states: u64, sends: u64)
    ensures { line.new.items ≡ load_line_of events states sends }
{
    line.clear();
    put(line, b"load ");
    put_totals(line, events, states, sends);
}

// How many events, states and datagrams there were, and the line feed.
fn put_totals(line: &mut LineBuf, events: u64, states: u64, sends: u64)
    requires { array_vec_len line.old ≤ 1000 }
    ensures { line.new.items ≡ line.old.items ++ line_of (decimal events ∷ decimal states ∷ decimal sends ∷ []) }
{
    put_decimal(line, events);
    put(line, b" ");
    put_decimal(line, states);
    put(line, b" ");
    put_decimal(line, sends);
    put(line, b"\n");
}

// Whether starts are shared, the peers, the moment, and the commits taken.
fn put_counts(line: &mut LineBuf, state: &State)
    requires { array_vec_len line.old ≤ 1000 }
    ensures items { line.new.items ≡ line.old.items
        ++ (truth_text_of state.now.sync ++ 32 ∷ (decimal state.now.peers ++ 32 ∷ (signed_decimal state.now.moment
        ++ 32 ∷ (decimal state.now.app ++ 32 ∷ decimal state.now.audio)))) }
    ensures len { array_vec_len line.new ≤ array_vec_len line.old + 86 }
{
    put_truth(line, state.sync);
    put(line, b" ");
    put_decimal(line, u64::from(state.peers));
    put(line, b" ");
    put_signed(line, state.moment);
    put(line, b" ");
    put_decimal(line, state.app);
    put(line, b" ");
    put_decimal(line, state.audio);
}

// The session and the quantum, each behind a space: version 1 tells neither.
fn put_profile(line: &mut LineBuf, version: u8, state: &State)
    requires { array_vec_len line.old ≤ 1000 }
    ensures items { line.new.items ≡ line.old.items ++ spaced (profile_words version state.now) }
    ensures len { array_vec_len line.new ≤ array_vec_len line.old + 39 }
{
    if version == 1 {
        return;
    }
    put(line, b" ");
    put_session(line, state.session);
    put(line, b" ");
    put_signed(line, state.quantum);
}

// A session, in sixteen hex digits.
fn put_session(line: &mut LineBuf, session: NodeId)
    requires { array_vec_len line.old ≤ 1001 }
    ensures items { line.new.items ≡ line.old.items ++ encode_lower session.0 }
    ensures len { array_vec_len line.new ≡ array_vec_len line.old + 16 }
{
    put_short_hex(line, &session.0);
}
