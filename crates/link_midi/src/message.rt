//! MIDI messages, and when they are sent. Their bytes are those of the MIDI 1.0 Detailed Specification: System Real-Time Messages, and Song
//! Position Pointer of the System Common Messages.

ghost use Rattle.std.specs.Prelude.{◌≡◌};

use arrayvec::ArrayVec;

/// A message of MIDI's clock.
#[derive(Clone, Copy, Debug, Default, PartialEq, Eq)]
pub enum MidiMessage {
    /// One of 24 in a quarter note.
    #[default]
    Clock,
    /// From the song's beginning.
    Start,
    /// From the song position that was told last.
    Continue,
    Stop,
    /// The song position in sixteenths, below 16,384.
    Position(u16),
}

/// A message and the host time at which it is sent.
#[derive(Clone, Copy, Debug, Default, PartialEq, Eq)]
pub struct MidiEvent {
    pub at: i64,
    pub message: MidiMessage,
}

/// The events of a block, in order: at most 400 clocks and 3 others.
pub type MidiEvents = ArrayVec<MidiEvent, 404>;

impl MidiMessage {
    ghost use Rattle.link_midi.specs.Messages.{bytes_of, IsMessage};

    /// The message's bytes.
    #[tactic(auto, unfolding(crate::specs::Messages::bytes_of))]
    pub fn bytes(&self) -> ArrayVec<u8, 3>
        requires { IsMessage self.now }
        ensures { result.items ≡ bytes_of self.now }
    {
        let mut bytes = ArrayVec::new();
        match *self {
            MidiMessage::Clock => bytes.push(0xF8),
            MidiMessage::Start => bytes.push(0xFA),
            MidiMessage::Continue => bytes.push(0xFB),
            MidiMessage::Stop => bytes.push(0xFC),
            MidiMessage::Position(sixteenths) => {
                bytes.push(0xF2);
                bytes.push((sixteenths % 128) as u8);
                bytes.push((sixteenths / 128) as u8);
            }
        }
        bytes
    }
}
