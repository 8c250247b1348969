//! How many messages were sent.

ghost use Rattle.std.specs.Prelude.{◌≡◌, ◌<◌, ◌^◌, List, [], ◌∷◌, length};
ghost use Rattle.link_midi.specs.declared.message.MidiEvent.{MidiEvent as AnyEvent};
ghost use Rattle.midi_clock.specs.Player.{CountsMore};
ghost use Rattle.midi_clock.specs.Sent.{counts_of};

use link_midi::{MidiEvent, MidiMessage};

/// How many messages of each kind were sent. A song position is told with its continue.
#[derive(Clone, Copy, Debug, Default, PartialEq, Eq)]
pub struct Counts {
    pub clocks: u64,
    pub starts: u64,
    pub continues: u64,
    pub stops: u64,
}

impl Counts {
    /// The counts of no messages.
    pub fn new() -> Counts
        ensures { result ≡ counts_of [] }
    {
        Counts {
            clocks: 0,
            starts: 0,
            continues: 0,
            stops: 0,
        }
    }

    /// Counts one message more.
    ///
    /// Waits: no. Memory: none.
    pub fn add(&mut self, event: &MidiEvent)
        requires few { (sent : List AnyEvent) × (self.old ≡ counts_of sent) × (length sent < 2 ^ 63) }
        ensures { CountsMore (event.now ∷ []) self.old self.new }
    {
        match event.message {
            MidiMessage::Clock => self.clocks += 1,
            MidiMessage::Start => self.starts += 1,
            MidiMessage::Continue => self.continues += 1,
            MidiMessage::Stop => self.stops += 1,
            MidiMessage::Position(_) => {}
        }
    }
}
