//! The lines of a replay, handed over.

ghost use Rattle.std.specs.Prelude.{◌≡◌, ◌≤◌, length, map, IfOk, OnOk, OnErr};
ghost use Rattle.std.specs.List.{flat_map};
ghost use Rattle.lk_outside.specs.Faults.{Rose};
ghost use Rattle.link_node.specs.Event.{event_value, moment_of, sending_value};
ghost use Rattle.link_node.specs.Runs.{shown_by};
ghost use Rattle.link_text.specs.ReplayText.{done_line_of, sending_line_of, state_line_of, states_text_of};
ghost use Rattle.link_commands.specs.Outlet.{HandsOver, HandsPart};

use crate::counts::Counts;
use crate::outlet::{Outlet, SinkFailed};
use client_state::State;
use link_node::{Change, Event, Sending};
use link_text::{LineBuf, write_done_line, write_sending, write_state_line};
use lk_outside::Sink;

/// Hands over the line of a state by its number, as this version of replay scripts has it.
pub fn hand_state<K: Sink>(
    version: u8,
    number: u64,
    state: &State,
    line: &mut LineBuf,
    outlet: &mut Outlet,
    out: &mut K,
) -> Result<(), SinkFailed>
    ensures kept { OnOk result (HandsOver (state_line_of version number state.now)
        (K.seen out.old).told outlet.old.kept.items (K.seen out.new).told outlet.new.kept.items) }
    ensures part { OnErr result (HandsPart (state_line_of version number state.now)
        (K.seen out.old).told outlet.old.kept.items (K.seen out.new).told) }
    ensures quiet { OnOk result ((K.seen out.new).faults ≡ (K.seen out.old).faults) }
    ensures cause { OnErr result (Rose (K.seen out.old).faults (K.seen out.new).faults) }
{
    write_state_line(line, version, number, state);
    outlet.put_line(out, line.as_slice())
}

/// Hands over the line of a state by its number, if it was published, and says how many lines that is.
pub fn hand_published<K: Sink>(
    version: u8,
    change: Change,
    number: u64,
    state: &State,
    line: &mut LineBuf,
    outlet: &mut Outlet,
    out: &mut K,
) -> Result<u64, SinkFailed>
    ensures count { IfOk result (λ count. count ≡ length (shown_by change state.now)) }
    ensures few { IfOk result (λ count. count ≤ 1) }
    ensures kept { OnOk result (HandsOver (states_text_of version number (shown_by change state.now))
        (K.seen out.old).told outlet.old.kept.items (K.seen out.new).told outlet.new.kept.items) }
    ensures part { OnErr result (HandsPart (states_text_of version number (shown_by change state.now))
        (K.seen out.old).told outlet.old.kept.items (K.seen out.new).told) }
    ensures quiet { OnOk result ((K.seen out.new).faults ≡ (K.seen out.old).faults) }
    ensures cause { OnErr result (Rose (K.seen out.old).faults (K.seen out.new).faults) }
{
    match change {
        Change::Same => Ok(0),
        Change::Published => {
            hand_state(version, number, state, line, outlet, out)?;
            Ok(1)
        }
    }
}

/// Hands over the lines of the datagrams that follow from an event.
pub fn hand_sends<K: Sink>(
    event: &Event,
    sends: &[Sending],
    line: &mut LineBuf,
    outlet: &mut Outlet,
    out: &mut K,
) -> Result<(), SinkFailed>
    ensures kept { OnOk result (HandsOver (flat_map (sending_line_of (moment_of (event_value event.now))) (map sending_value sends.now))
        (K.seen out.old).told outlet.old.kept.items (K.seen out.new).told outlet.new.kept.items) }
    ensures part { OnErr result (HandsPart (flat_map (sending_line_of (moment_of (event_value event.now))) (map sending_value sends.now))
        (K.seen out.old).told outlet.old.kept.items (K.seen out.new).told) }
    ensures quiet { OnOk result ((K.seen out.new).faults ≡ (K.seen out.old).faults) }
    ensures cause { OnErr result (Rose (K.seen out.old).faults (K.seen out.new).faults) }
{
    for sending in sends {
        hand_sending(event, sending, line, outlet, out)?;
    }
    Ok(())
}

// Hands over the line of a datagram that follows from an event.
fn hand_sending<K: Sink>(
    event: &Event,
    sending: &Sending,
    line: &mut LineBuf,
    outlet: &mut Outlet,
    out: &mut K,
) -> Result<(), SinkFailed>
    ensures kept { OnOk result (HandsOver (sending_line_of (moment_of (event_value event.now)) (sending_value sending.now))
        (K.seen out.old).told outlet.old.kept.items (K.seen out.new).told outlet.new.kept.items) }
    ensures part { OnErr result (HandsPart (sending_line_of (moment_of (event_value event.now)) (sending_value sending.now))
        (K.seen out.old).told outlet.old.kept.items (K.seen out.new).told) }
    ensures quiet { OnOk result ((K.seen out.new).faults ≡ (K.seen out.old).faults) }
    ensures cause { OnErr result (Rose (K.seen out.old).faults (K.seen out.new).faults) }
{
    write_sending(line, moment(event), sending);
    outlet.put_line(out, line.as_slice())
}

/// The moment of an event, in microseconds.
pub(crate) fn moment(event: &Event) -> i64
    ensures { result ≡ moment_of (event_value event.now) }
{
    match event {
        Event::Rx { now, .. }
        | Event::Tick { now }
        | Event::App { now, .. }
        | Event::Audio { now, .. }
        | Event::End { now } => *now,
    }
}

/// Hands over the last line.
pub fn hand_done<K: Sink>(
    counts: &Counts,
    line: &mut LineBuf,
    outlet: &mut Outlet,
    out: &mut K,
) -> Result<(), SinkFailed>
    ensures kept { OnOk result (HandsOver (done_line_of counts.now.events counts.now.states counts.now.sends)
        (K.seen out.old).told outlet.old.kept.items (K.seen out.new).told outlet.new.kept.items) }
    ensures part { OnErr result (HandsPart (done_line_of counts.now.events counts.now.states counts.now.sends)
        (K.seen out.old).told outlet.old.kept.items (K.seen out.new).told) }
    ensures quiet { OnOk result ((K.seen out.new).faults ≡ (K.seen out.old).faults) }
    ensures cause { OnErr result (Rose (K.seen out.old).faults (K.seen out.new).faults) }
{
    write_done_line(line, counts.events, counts.states, counts.sends);
    outlet.put_line(out, line.as_slice())
}
