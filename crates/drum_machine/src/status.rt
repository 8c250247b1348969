//! How a run of the program ends.

ghost use Rattle.std.specs.Prelude.{◌≡◌};
ghost use Rattle.drum_machine.specs.Statuses.{ended_as, status_number_of};

use crate::player::PlayEnd;
use std::fmt;

/// How a run ended. Its number is the exit status, its text is for the person who ran it.
#[derive(Clone, Copy, Debug, PartialEq, Eq)]
pub enum Status {
    Done,
    /// The words are none that the program takes.
    Words,
    /// The gate could not be bound, or a socket broke. What was left was played without peers.
    Network,
    /// The system told no time, which the audio device needs.
    Audio,
    Input,
    /// The journal had no room for an event.
    Events,
    Output,
    /// The pattern is at fault in this line, counted from 1.
    Pattern { line: u8 },
    /// The pattern is longer than what is read.
    TooLong,
    Memory,
}

impl Status {
    /// The status's number.
    pub fn number(self) -> u8
        ensures { result ≡ status_number_of self }
    {
        match self {
            Status::Done => 0,
            Status::Words => 2,
            Status::Network => 3,
            Status::Audio => 4,
            Status::Input => 5,
            Status::Events => 6,
            Status::Output => 7,
            Status::Pattern { .. } | Status::TooLong => 8,
            Status::Memory => 9,
        }
    }
}

/// The status of a session by how its loop ended, whether its port failed and whether its journal was full: that of the first cause that
/// holds.
pub fn status_of(end: PlayEnd, failed: bool, full: bool) -> Status
    ensures { result ≡ ended_as end failed full }
{
    match end {
        PlayEnd::Output => Status::Output,
        PlayEnd::Device => Status::Audio,
        PlayEnd::Played if failed => Status::Network,
        PlayEnd::Played if full => Status::Events,
        PlayEnd::Played => Status::Done,
    }
}

impl fmt::Display for Status {
    fn fmt<W: fmt::Write>(&self, f: &mut fmt::Formatter<W>) -> fmt::Result {
        match self {
            Status::Done => f.write_str("done"),
            Status::Words => f.write_str(USAGE),
            Status::Network => f.write_str(
                "the network failed: the address has to be this machine's and its port free; what was left was played without peers",
            ),
            Status::Audio => f.write_str(
                "the audio device failed, as the system tells no time; the output ends there",
            ),
            Status::Input => f.write_str(
                "standard input could not be read; it has to be a pattern, as examples/drums/four.pattern",
            ),
            Status::Events => f.write_str(
                "the journal was full before the run ended, and what the network brought then was not taken; a run with fewer blocks has room",
            ),
            Status::Output => f.write_str(
                "the output could not be written; what was written is the front of it",
            ),
            Status::Pattern { line } => write_fault(f, *line),
            Status::TooLong => f.write_str(
                "the pattern is longer than 4096 bytes; it has to be three lines, as in examples/drums/four.pattern",
            ),
            Status::Memory => f.write_str("no memory was left"),
        }
    }
}

/// What is told where the words are none that the program takes.
const USAGE: &str = "these words are none that it takes

Usage: drum_machine < PATTERN                                        four bars in memory, told step by step
       drum_machine <BLOCKS> <TEMPO> <LOCAL> [TO].. < PATTERN > WAV  beside peers on the network

  <BLOCKS>  how many blocks of 20 milliseconds are played, from 1 to 524288
  <TEMPO>   the tempo to begin with, in microseconds per beat, from 60060 to 3000000; 500000 is 120 beats a minute
  <LOCAL>   where peers reach it: an address of this machine and a free port, as 127.0.0.1:18001
  [TO]..    up to 32 endpoints of peers, to which it tells of itself";

// Writes what a line of the pattern has to be.
fn write_fault<W: fmt::Write>(f: &mut fmt::Formatter<W>, line: u8) -> fmt::Result {
    let (word, marks) = match line {
        1 => ("kick", "x...x...x...x..."),
        2 => ("snare", "....x.......x..."),
        3 => ("hat", "x.x.x.x.x.x.x.x."),
        _ => {
            return write!(
                f,
                "line {line} of the pattern is at fault: it has three lines, and nothing behind them"
            );
        }
    };
    write!(
        f,
        "line {line} of the pattern is at fault: it has to be \"{word}\", a space, 16 marks, each x or a dot, and a line feed, as in \"{word} {marks}\""
    )
}
