//! The loop of the audio thread: for each block one capture, and the messages of what it shows.

ghost use Rattle.std.specs.Prelude.{◌≡◌, ◌^◌, ℕ, pos, ◌≤ℤ◌, [], All};
ghost use Rattle.client_state.specs.declared.state.State.{State as AnyState};
ghost use Rattle.link_midi.specs.Events.{events_of, running_after, span};
ghost use Rattle.link_midi.specs.Messages.{IsMessage};
ghost use Rattle.link_shared.specs.Audio.{HasReadAudio};
ghost use Rattle.midi_clock.specs.Player.{CanPlay, HasOnlyRead, HasPlayCause, IsPlayed};
ghost use Rattle.midi_clock.specs.Sent.{counts_of};

use crate::sending::{Tally, send, wait_until};
use crate::telling::Teller;
use audio_handoff::StateCell;
use client_state::State;
use link_midi::{MidiClock, MidiEvents, positions_are_short};
use link_shared::{AudioPass, Link, LinkName};
use lk_base::Block;
use lk_outside::{Pace, Sink};

/// How long a block is, in microseconds.
const BLOCK_LENGTH: i64 = 2_000;

/// How the loop ended.
#[derive(Clone, Copy, Debug, PartialEq, Eq)]
pub enum PlayEnd {
    /// All blocks were played.
    Played,
    /// A message could not be written.
    Output,
}

/// Plays so many blocks that follow on each other from the host time `origin` on, in microseconds, and sends their MIDI clock to `midi`.
/// A block is made when it is one block ahead, or once the messages of the block before are out. What the session shows is told on
/// standard error.
///
/// Waits: for the times of blocks and messages, in the sink, and for standard error; not for the link. Memory: none.
pub fn play<C: StateCell<11, Way = ()>, N: LinkName, P: Pace, M: Sink, R: Eprint>(
    rt: &R,
    link: &Link<C, N>,
    pass: &mut AudioPass<C, N>,
    origin: i64,
    blocks: u32,
    pace: &mut P,
    midi: &mut M,
    tally: &mut Tally,
) -> PlayEnd
    requires ready { CanPlay origin blocks }
    requires none { tally.old.counts ≡ counts_of [] }
    ensures read { HasOnlyRead pass.old pass.new }
    ensures played { IsPlayed blocks origin pass.old pass.new (M.seen midi.old).told (M.seen midi.new).told tally.new.counts result }
    ensures cause { HasPlayCause (M.seen midi.old).faults (M.seen midi.new).faults result }
{
    let mut clock = MidiClock::new();
    let mut events = MidiEvents::new();
    let mut teller = Teller::new();
    let mut number = 0;
    while number < blocks {
        let start = origin + BLOCK_LENGTH * i64::from(number);
        wait_until(pace, start - BLOCK_LENGTH);
        let state = make_block(link, pass, start, &mut clock, &mut events);
        if !send(events.as_slice(), pace, midi, tally) {
            return PlayEnd::Output;
        }
        tell(rt, &mut teller, &state, start);
        number += 1;
    }
    wait_until(pace, origin + BLOCK_LENGTH * i64::from(blocks));
    PlayEnd::Played
}

/// Captures once, and puts the messages of the block that begins at `start`, by the state captured, in place of what `events` held. As
/// nothing is committed, the state published is the one that is shown.
///
/// Waits: no. Memory: none.
pub fn make_block<C: StateCell<11, Way = ()>, N: LinkName>(
    link: &Link<C, N>,
    pass: &mut AudioPass<C, N>,
    start: i64,
    clock: &mut MidiClock,
    events: &mut MidiEvents,
) -> State
    requires start { (pos 0 ≤ℤ start) × (start ≤ℤ pos (2 ^ 57)) }
    ensures read { (number : ℕ) × (shown : AnyState) × HasReadAudio pass.old pass.new number result shown }
    ensures events { events.new.items ≡ events_of result clock.old (span start 2_000) }
    ensures clock { clock.new ≡ running_after result clock.old (span start 2_000) }
    ensures messages { All (λ event. IsMessage event.message) events.new.items }
{
    // A law, for the proof: these messages have bytes.
    positions_are_short();
    let capture = link.capture_audio(&(), pass);
    let block = Block {
        start,
        length: BLOCK_LENGTH,
    };
    clock.block_into(&capture.state, block, events);
    capture.state
}

// Tells what a state shows, if that is due. Waits: for standard error. Memory: none.
fn tell<R: Eprint>(rt: &R, teller: &mut Teller, state: &State, time: i64)
    requires { (pos 0 ≤ℤ time) × (time ≤ℤ pos (2 ^ 57)) }
{
    if let Some(view) = teller.due(state, time) {
        let _printed = eprintln!(rt; "midi_clock: {view}");
    }
}
