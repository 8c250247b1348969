//! Messages that are sent, each when its time has come.

ghost use Rattle.std.specs.Prelude.{◌≡◌, ◌<◌, ◌+◌, ◌^◌, pos, ◌≤ℤ◌, List, All, length};
ghost use Rattle.std.specs.Bool.{OnTrue, OnFalse};
ghost use Rattle.lk_outside.specs.Faults.{Rose};
ghost use Rattle.lk_outside.specs.Sink.{Appends};
ghost use Rattle.link_midi.specs.Messages.{IsMessage};
ghost use Rattle.link_midi.specs.declared.message.MidiEvent.{MidiEvent as AnyEvent};
ghost use Rattle.midi_clock.specs.Player.{AreCutAt, CountsMore};
ghost use Rattle.midi_clock.specs.Sent.{counts_of, midi_bytes_of};

use crate::counts::Counts;
use link_midi::MidiEvent;
use lk_base::MOMENT_MAX;
use lk_outside::{Pace, Sink, write_whole};

/// What was sent: how many messages, and how many microseconds the latest of them was sent behind its time.
#[derive(Clone, Copy, Debug, PartialEq, Eq)]
pub struct Tally {
    pub counts: Counts,
    pub latest: i64,
}

impl Tally {
    ghost use Rattle.std.specs.Prelude.{[]};

    /// That of no messages.
    pub fn new() -> Tally
        ensures { result.counts ≡ counts_of [] }
    {
        Tally {
            counts: Counts::new(),
            latest: 0,
        }
    }
}

/// Sends messages to `midi`, each whole and when its time has come. Answers whether all went out; from the first that can't be written on
/// none does.
///
/// Waits: for the messages' times, and in the sink. Memory: none.
pub fn send<P: Pace, M: Sink>(
    events: &[MidiEvent],
    pace: &mut P,
    midi: &mut M,
    tally: &mut Tally,
) -> bool
    requires messages { All (λ event. IsMessage event.message) events.now }
    requires few { (sent : List AnyEvent) × (tally.old.counts ≡ counts_of sent) × (length sent + length events.now < 2 ^ 63) }
    ensures whole { OnTrue result (Appends (M.seen midi.old).told (midi_bytes_of events.now) (M.seen midi.new).told) }
    ensures counted { OnTrue result (CountsMore events.now tally.old.counts tally.new.counts) }
    ensures cut { OnFalse result ((here : List AnyEvent) × AreCutAt events.now (M.seen midi.old).told (M.seen midi.new).told here
        × CountsMore here tally.old.counts tally.new.counts) }
    ensures works { OnTrue result ((M.seen midi.new).faults ≡ (M.seen midi.old).faults) }
    ensures fails { OnFalse result (Rose (M.seen midi.old).faults (M.seen midi.new).faults) }
{
    for event in events {
        let late = wait_until(pace, event.at);
        if !write_whole(midi, event.message.bytes().as_slice()) {
            return false;
        }
        tally.counts.add(event);
        tally.latest = tally.latest.max(late);
    }
    true
}

/// Waits until a time, and answers how many microseconds behind it that was, at least 0. A time before the first moment has come, and one
/// behind the last comes with that.
///
/// Waits: for the time. Memory: none.
pub fn wait_until<P: Pace>(pace: &mut P, time: i64) -> i64
    ensures { pos 0 ≤ℤ result }
{
    let moment = time.clamp(0, MOMENT_MAX);
    (pace.until(moment) - moment).max(0)
}
