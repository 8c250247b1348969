//! The clock, found from pulse to pulse.

ghost use Rattle.std.specs.Prelude.{◌≡◌, pos, ◌≤◌, ◌+ℤ◌, ◌-ℤ◌, ◌<ℤ◌, ◌≤ℤ◌, false, not, ◌&&◌, if◌then◌else◌, [], ◌∷◌, count_by};
ghost use Rattle.std.specs.Bool.{OnTrue, OnFalse};
ghost use Rattle.lk_base.specs.Ranges.{IsWithinLimit};
ghost use Rattle.client_state.specs.State.{IsTidyState};
ghost use Rattle.link_midi.specs.declared.message.MidiMessage.TheVariants.{Stop};
ghost use Rattle.link_midi.specs.Events.{event, wants_at, events_of, running_after};
ghost use Rattle.link_midi.specs.Messages.{is_clock, is_other};
ghost use Rattle.link_midi.specs.Progress.{HasEvents, events_between, running_between};

use crate::message::{MidiEvent, MidiEvents, MidiMessage};
use crate::pulse::{pulse_at, pulse_time};
use crate::sending::{send, wants};
use client_state::State;
use lk_base::Block;
use std::marker::Model;

/// A MIDI clock, by whether those that listen to it run: they were told to start or to go on, and not to stop since.
#[derive(Debug, Drop)]
pub struct MidiClock {
    running: bool,
}

impl Model for MidiClock {
    ghost use Rattle.std.specs.Prelude.{Bool};

    ghost Value = { Bool };

    ghost view = { λ clock. clock.running };
}

impl MidiClock {
    /// A clock that isn't running.
    pub fn new() -> MidiClock
        ensures { result ≡ false }
    {
        MidiClock { running: false }
    }

    /// The events of a block that a state is played in, each at its microsecond, and in order: at most 400 clocks and 3 others. The block's
    /// length is from 1 to 1,000,000 microseconds. Blocks of one state that adjoin give each of its pulses once.
    ///
    /// Waits: never. Memory: none. It clears room for 404 events each time: where that is too much, `block_into` keeps it.
    pub fn block(&mut self, state: &State, block: Block) -> MidiEvents
        requires tidy { IsTidyState state.now }
        requires some { pos 1 ≤ℤ block.length }
        requires short { block.length ≤ℤ pos 1_000_000 }
        requires before { IsWithinLimit (block.start -ℤ pos 1) }
        requires end { IsWithinLimit (block.start +ℤ block.length) }
        ensures events { result.items ≡ events_of state.now self.old block }
        ensures runs { self.new ≡ running_after state.now self.old block }
        ensures clocks { count_by is_clock result.items ≤ 400 }
        ensures others { count_by is_other result.items ≤ 3 }
    {
        let mut events = MidiEvents::new();
        self.block_into(state, block, &mut events);
        events
    }

    /// The same as `block`, in place of what `events` held.
    ///
    /// Waits: never. Memory: none.
    pub fn block_into(&mut self, state: &State, block: Block, events: &mut MidiEvents)
        requires tidy { IsTidyState state.now }
        requires some { pos 1 ≤ℤ block.length }
        requires short { block.length ≤ℤ pos 1_000_000 }
        requires before { IsWithinLimit (block.start -ℤ pos 1) }
        requires end { IsWithinLimit (block.start +ℤ block.length) }
        ensures events { events.new.items ≡ events_of state.now self.old block }
        ensures runs { self.new ≡ running_after state.now self.old block }
        ensures clocks { count_by is_clock events.new.items ≤ 400 }
        ensures others { count_by is_other events.new.items ≤ 3 }
    {
        events.clear();
        let was = self.running;
        let end = block.start + block.length;
        let mut place = opened(state, was, block.start, end, events);
        while next_pulse(state, was, block.start, end, &mut place, events) {}
        self.running = place.running;
    }
}

// How far a block is searched: the last pulse before a time, and whether it runs there.
#[derive(Clone, Copy)]
struct Place {
    running: bool,
    pulse: i64,
    from: i64,
}

// Stops, where the state doesn't want to run any more.
fn opened(state: &State, running: bool, start: i64, end: i64, events: &mut MidiEvents) -> Place
    requires tidy { IsTidyState state.now }
    requires before { IsWithinLimit (start -ℤ pos 1) }
    requires end { IsWithinLimit end }
    requires order { start <ℤ end }
    requires none { events.old.items ≡ [] }
    ensures { HasEvents state.now running start end result.running result.pulse result.from events.new.items }
{
    stop(stops(state, running, start), start, events);
    Place {
        running: runs_on(state, running, start),
        pulse: pulse_at(&state.timeline, start - 1),
        from: start,
    }
}

fn stops(state: &State, running: bool, start: i64) -> bool
    ensures { result ≡ (running && not (wants_at state.now start)) }
{
    running && !wants(state, start)
}

fn runs_on(state: &State, running: bool, start: i64) -> bool
    ensures { result ≡ (running && wants_at state.now start) }
{
    running && wants(state, start)
}

fn stop(stops: bool, start: i64, events: &mut MidiEvents)
    requires { events.old.items ≡ [] }
    ensures { events.new.items ≡ (if stops then event start Stop ∷ [] else []) }
{
    if stops {
        events.push(MidiEvent {
            at: start,
            message: MidiMessage::Stop,
        });
    }
}

// Adds the events of the next pulse before `end`, if there is one.
fn next_pulse(
    state: &State,
    was: bool,
    start: i64,
    end: i64,
    place: &mut Place,
    events: &mut MidiEvents,
) -> bool
    requires tidy { IsTidyState state.now }
    requires before { IsWithinLimit (start -ℤ pos 1) }
    requires end { IsWithinLimit end }
    requires length { end ≤ℤ (start +ℤ pos 1_000_000) }
    requires so_far { HasEvents state.now was start end place.old.running place.old.pulse place.old.from events.old.items }
    ensures more { OnTrue result (HasEvents state.now was start end place.new.running place.new.pulse place.new.from events.new.items) }
    ensures further { OnTrue result (place.old.from <ℤ place.new.from) }
    ensures all { OnFalse result (events.new.items ≡ events_between state.now was start end) }
    ensures runs { OnFalse result (place.new.running ≡ running_between state.now was start end) }
    ensures clocks { OnFalse result (count_by is_clock events.new.items ≤ 400) }
    ensures others { OnFalse result (count_by is_other events.new.items ≤ 3) }
{
    match pulse_time(&state.timeline, place.pulse + 1, place.from, end) {
        None => false,
        Some(at) => {
            place.pulse += 1;
            place.running = send(state, place.running, at, place.pulse, events);
            place.from = at + 1;
            true
        }
    }
}
