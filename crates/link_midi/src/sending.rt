//! The events of a time that pulses.

ghost use Rattle.std.specs.Prelude.{◌≡◌, ◌<◌, ◌≤◌, true, false, not, ◌&&◌, if◌then◌else◌, [], ◌++◌};
ghost use Rattle.arrayvec.specs.ArrayVec.{array_vec_len};
ghost use Rattle.link_midi.specs.Pulse.{pulse_of, pulses_at};
ghost use Rattle.link_midi.specs.Events as spec;
ghost use Rattle.link_midi.specs.Events.{wants_at, opening_at, events_at, running_at};

use crate::message::{MidiEvent, MidiEvents, MidiMessage};
use client_state::State;

// Adds the events of a time that pulses, and tells whether it runs after it.
pub(crate) fn send(
    state: &State,
    running: bool,
    at: i64,
    pulse: i64,
    events: &mut MidiEvents,
) -> bool
    requires pulse { pulse ≡ pulse_of state.now.timeline at }
    requires pulses { pulses_at state.now.timeline at ≡ true }
    requires wanted { running ≡ true → wants_at state.now at ≡ true }
    requires room { array_vec_len events.old ≤ 403 }
    requires space { running ≡ false → array_vec_len events.old ≤ 401 }
    ensures sent { events.new.items ≡ events.old.items ++ events_at state.now running at }
    ensures runs { result ≡ running_at state.now running at }
{
    let begins = begins(state, running, at, pulse);
    opening(begins, pulse, at, events);
    events.push(MidiEvent {
        at,
        message: MidiMessage::Clock,
    });
    running || begins
}

#[tactic(auto, unfolding(crate::specs::Events::wants_at))]
pub(crate) fn wants(state: &State, time: i64) -> bool
    ensures { result ≡ wants_at state.now time }
{
    state.start.playing && state.start.time <= time
}

fn begins(state: &State, running: bool, at: i64, pulse: i64) -> bool
    ensures { result ≡ (not running && wants_at state.now at && spec.is_sixteenth pulse) }
{
    !running && wants(state, at) && is_sixteenth(pulse)
}

// Starts or continues, if it begins.
fn opening(begins: bool, pulse: i64, at: i64, events: &mut MidiEvents)
    requires room { array_vec_len events.old ≤ 403 }
    requires space { begins ≡ true → array_vec_len events.old ≤ 401 }
    ensures sent { events.new.items ≡ events.old.items ++ (if begins then opening_at at (spec.position_of pulse) else []) }
    ensures room { array_vec_len events.new ≤ 403 }
{
    if begins {
        begin(position(pulse), at, events);
    }
}

// Starts at the first sixteenth, or continues at another.
fn begin(position: u16, at: i64, events: &mut MidiEvents)
    requires room { array_vec_len events.old ≤ 401 }
    ensures sent { events.new.items ≡ events.old.items ++ opening_at at position }
    ensures room { array_vec_len events.new ≤ 403 }
{
    if position == 0 {
        events.push(MidiEvent {
            at,
            message: MidiMessage::Start,
        });
    } else {
        events.push(MidiEvent {
            at,
            message: MidiMessage::Position(position),
        });
        events.push(MidiEvent {
            at,
            message: MidiMessage::Continue,
        });
    }
}

#[tactic(auto, unfolding(crate::specs::Events::is_sixteenth))]
fn is_sixteenth(pulse: i64) -> bool
    ensures { result ≡ spec.is_sixteenth pulse }
{
    pulse.rem_euclid(6) == 0
}

#[tactic(auto, unfolding(crate::specs::Events::position_of))]
fn position(pulse: i64) -> u16
    ensures value { result ≡ spec.position_of pulse }
    ensures short { result < 16_384 }
{
    pulse.div_euclid(6).rem_euclid(16_384) as u16
}
