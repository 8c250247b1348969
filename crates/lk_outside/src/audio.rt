//! What asks for sound and plays it.

ghost use Rattle.lk_outside.specs.Audio.{AudioSeen, IsNext, GivesNext, HasNextCause, Plays, HasPlayCause};

use lk_base::{Block, Clicks};

/// What an audio device asks for next.
#[derive(Clone, Copy, Debug, PartialEq, Eq)]
pub enum Next {
    /// The clicks of this block.
    Block(Block),
    /// Nothing any more.
    Closed,
    /// The device failed, and counted it. No block was taken.
    Failed,
}

/// What a play answers.
#[derive(Clone, Copy, Debug, PartialEq, Eq)]
pub enum Played {
    /// The clicks are played.
    Done,
    /// The device failed, and counted it. Nothing was played.
    Failed,
}

/// An audio device, which asks for the clicks of one block after the other.
pub trait Audio {
    /// The blocks left, those given and what was played, where the device tells them, and how often a call has failed. That count never
    /// falls, and stays at its type's last value.
    ghost seen: { Self → AudioSeen };

    /// The next block: its start is a moment, its length at most a second.
    fn next(&mut self) -> Next
        ensures answer { IsNext result }
        ensures contents { GivesNext (seen self.old).told (seen self.new).told result }
        ensures cause { HasNextCause (seen self.old).faults (seen self.new).faults result };

    /// Plays the clicks of a block.
    fn play(&mut self, clicks: &Clicks) -> Played
        ensures contents { Plays (seen self.old).told (seen self.new).told clicks.now.items result }
        ensures cause { HasPlayCause (seen self.old).faults (seen self.new).faults result };
}
