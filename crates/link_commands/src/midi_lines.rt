//! The lines of `midi`, handed over.

ghost use Rattle.std.specs.Prelude.{◌≡◌, All, OnOk, OnErr};
ghost use Rattle.std.specs.List.{flat_map};
ghost use Rattle.lk_outside.specs.Faults.{Rose};
ghost use Rattle.link_midi.specs.Messages.{IsMessage};
ghost use Rattle.link_commands.specs.MidiText.{blocks_line_of, midi_line_of};
ghost use Rattle.link_commands.specs.Outlet.{HandsOver, HandsPart};

use crate::outlet::{Outlet, SinkFailed};
use link_midi::MidiEvent;
use link_text::{LineBuf, put, put_decimal, put_short_hex, put_signed};
use lk_outside::Sink;

/// Hands over the lines of MIDI events.
pub(crate) fn hand_midi_events<K: Sink>(
    events: &[MidiEvent],
    line: &mut LineBuf,
    outlet: &mut Outlet,
    out: &mut K,
) -> Result<(), SinkFailed>
    requires { All (λ event. IsMessage event.message) events.now }
    ensures kept { OnOk result (HandsOver (flat_map midi_line_of events.now)
        (K.seen out.old).told outlet.old.kept.items (K.seen out.new).told outlet.new.kept.items) }
    ensures part { OnErr result (HandsPart (flat_map midi_line_of events.now)
        (K.seen out.old).told outlet.old.kept.items (K.seen out.new).told) }
    ensures quiet { OnOk result ((K.seen out.new).faults ≡ (K.seen out.old).faults) }
    ensures cause { OnErr result (Rose (K.seen out.old).faults (K.seen out.new).faults) }
{
    for event in events {
        put_midi(line, event);
        outlet.put_line(out, line.as_slice())?;
    }
    Ok(())
}

// Puts the line of a MIDI event in place of what the buffer held.
#[tactic(auto, unfolding(crate::specs::MidiText::midi_line_of))]
fn put_midi(line: &mut LineBuf, event: &MidiEvent)
    requires { IsMessage event.now.message }
    ensures { line.new.items ≡ midi_line_of event.now }
{
    line.clear();
    put(line, b"midi ");
    put_signed(line, event.at);
    put(line, b" ");
    put_short_hex(line, event.message.bytes().as_slice());
    put(line, b"\n");
}

/// Hands over the last line.
pub(crate) fn hand_blocks_done<K: Sink>(
    blocks: u64,
    events: u64,
    line: &mut LineBuf,
    outlet: &mut Outlet,
    out: &mut K,
) -> Result<(), SinkFailed>
    ensures kept { OnOk result (HandsOver (blocks_line_of blocks events)
        (K.seen out.old).told outlet.old.kept.items (K.seen out.new).told outlet.new.kept.items) }
    ensures part { OnErr result (HandsPart (blocks_line_of blocks events)
        (K.seen out.old).told outlet.old.kept.items (K.seen out.new).told) }
    ensures quiet { OnOk result ((K.seen out.new).faults ≡ (K.seen out.old).faults) }
    ensures cause { OnErr result (Rose (K.seen out.old).faults (K.seen out.new).faults) }
{
    put_blocks(line, blocks, events);
    outlet.put_line(out, line.as_slice())
}

// Puts how many blocks and how many MIDI events there were in place of what the buffer held.
#[tactic(auto, unfolding(crate::specs::MidiText::blocks_line_of))]
fn put_blocks(line: &mut LineBuf, blocks: u64, events: u64)
    ensures { line.new.items ≡ blocks_line_of blocks events }
{
    line.clear();
    put(line, b"done ");
    put_decimal(line, blocks);
    put(line, b" ");
    put_decimal(line, events);
    put(line, b"\n");
}
