//! MIDI clock: the System Real-Time and Song Position Pointer messages that a node's states and blocks of time become.
//!
//! In reading order: `message`, `pulse` (when the next pulse comes), `sending` (what is sent with it), `clock` (the events of a block);
//! last `laws`.
#![tactic(auto)]

mod clock;
mod laws;
mod message;
mod pulse;
mod sending;

pub use clock::MidiClock;
pub use laws::{
    a_continue_follows_its_position, a_cut_changes_nothing, each_pulse_has_a_clock, one_pulse,
    positions_are_short, pulses_are_single,
};
pub use message::{MidiEvent, MidiEvents, MidiMessage};
