//! How a run of the program ends.

ghost use Rattle.std.specs.Prelude.{◌≡◌};
ghost use Rattle.midi_clock.specs.Statuses.{ended_as, status_number_of};

use crate::player::PlayEnd;
use std::fmt;

/// How a run ended. Its number is the exit status, its text is for the person who ran it.
#[derive(Clone, Copy, Debug, PartialEq, Eq)]
pub enum Status {
    Done,
    /// The words are none that the program takes.
    Words,
    /// The gate could not be bound, or a socket broke. What was left was played without peers.
    Network,
    /// The system told no time.
    Time,
    /// The journal had no room for an event.
    Events,
    Output,
    Memory,
}

impl Status {
    /// The status's number.
    pub fn number(self) -> u8
        ensures { result ≡ status_number_of self }
    {
        match self {
            Status::Done => 0,
            Status::Words => 2,
            Status::Network => 3,
            Status::Time => 4,
            Status::Events => 6,
            Status::Output => 7,
            Status::Memory => 9,
        }
    }
}

/// The status of a session by how its loop ended, whether its port failed and whether its journal was full: that of the first cause that
/// holds.
pub fn status_of(end: PlayEnd, failed: bool, full: bool) -> Status
    ensures { result ≡ ended_as end failed full }
{
    match end {
        PlayEnd::Output => Status::Output,
        PlayEnd::Played if failed => Status::Network,
        PlayEnd::Played if full => Status::Events,
        PlayEnd::Played => Status::Done,
    }
}

impl fmt::Display for Status {
    fn fmt<W: fmt::Write>(&self, f: &mut fmt::Formatter<W>) -> fmt::Result {
        f.write_str(match self {
            Status::Done => "done",
            Status::Words => USAGE,
            Status::Network =>
                "the network failed: the address has to be this machine's and its port free; what was left was played without peers",
            Status::Time => "the system tells no time",
            Status::Events =>
                "the journal was full before the run ended, and what the network brought then was not taken; a run with fewer seconds has room",
            Status::Output =>
                "standard output could not be written; the MIDI that was written ends there",
            Status::Memory => "no memory was left",
        })
    }
}

/// What is told where the words are none that the program takes.
const USAGE: &str = "Usage: midi_clock [OPTIONS] <SECONDS> <MPB> <LOCAL> [TO].. > DEVICE

Arguments:
  <SECONDS>  how many seconds it plays, from 1 to 86400, which is a day
  <MPB>      the tempo to begin with, in microseconds per beat, from 60060 to 3000000; 500000 is 120 beats a minute
  <LOCAL>    where peers reach it: an address of this machine and a free port, as 127.0.0.1:18001
  [TO]..     up to 32 endpoints of peers, to which it tells of itself

Options:
      --quantum <N>  the length of a bar in microbeats, told and no part of the MIDI, from 0, which is none, to 1099511627776 [default: 4000000]
      --group <N>    the group of the nodes that hear each other, from 0, which all Link programs are in, to 65535 [default: 0]";
