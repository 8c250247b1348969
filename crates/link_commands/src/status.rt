//! How a call of the program ends.

ghost use Rattle.std.specs.Prelude.{◌≡◌};
ghost use Rattle.link_commands.specs.Statuses.{status_number_of};

use crate::reason::Reason;
use thiserror::Error;

/// What a command's input is written in.
#[derive(Clone, Copy, Debug, PartialEq, Eq)]
pub enum Grammar {
    /// A replay script.
    ReplayScript,
    /// Datagrams in hex, one a line.
    HexLines,
    /// A live script.
    LiveScript,
    /// Pairs of a sample count and a host time, one a line.
    Pairs,
    /// The head of a live script, without commands.
    LiveHead,
}

/// How a call of the program ended. Its number is the program's exit status, and its text is for the person who ran it.
#[derive(Clone, Copy, Debug, PartialEq, Eq, Error)]
pub enum Status {
    /// 0: all was read, done and written.
    #[error("done")]
    Done,
    /// 2: the words after the program's name are none of its forms.
    #[error("these words are no command of this program; nothing was read or written")]
    Words,
    /// 3: the gates could not be bound, or another call of the port failed. The run went on without the network.
    #[error("the network failed: a gate could not be bound (its address must be this machine's, and its port free), or a socket broke; a run that had begun went on without it")]
    Port,
    /// 4: a call of the audio device failed, with which the blocks ended. The run went on without it.
    #[error("the audio device failed; a run that had begun went on without it")]
    Audio,
    /// 5: the input could not be read.
    #[error("standard input could not be read; nothing was written")]
    Input,
    /// 6: an event found the journal full.
    #[error("the journal was full before the run ended, and what came then was not taken; `--events` gives it more room, up to 524288")]
    Events,
    /// 7: the output could not be written.
    #[error("standard output could not be written; what was written is the front of the output")]
    Sink,
    /// 8: the input is outside the grammar, first at this line, counted from 1. The reason is in words for people.
    #[error("line {line}, {reason}; nothing was written")]
    Script {
        grammar: Grammar,
        line: u32,
        reason: Reason,
    },
    /// 9: there was no memory. Nothing was written, unless a run on the network had begun.
    #[error("no memory was left; nothing was written, unless a run on the network had begun: it ended there")]
    Memory,
    /// 10: the input is longer than so many bytes, which are what the command takes.
    #[error("the input is longer than {limit} bytes; nothing was written")]
    TooLong {
        limit: u64,
    },
    /// 10 too: a live script has more than so many commands, which are what a run takes.
    #[error("the script has more than {limit} commands; nothing was run or written")]
    TooMany {
        limit: u64,
    },
    /// 11: the client's endpoint could not be opened, or a call of the talk with it failed. The client was served no further.
    #[error("the client could not be served: its endpoint could not be opened (its address must be this machine's, and its port free), or the connection broke; the run ended there")]
    Talk,
    /// 12: the client sent one line more than are answered.
    #[error("the client sent more than 4096 lines, which are what one run answers; it ended there")]
    Lines,
}

impl Status {
    /// The status's number.
    pub fn number(self) -> u8
        ensures { result ≡ status_number_of self }
    {
        match self {
            Status::Done => 0,
            Status::Words => 2,
            Status::Port => 3,
            Status::Audio => 4,
            Status::Input => 5,
            Status::Events => 6,
            Status::Sink => 7,
            Status::Script { .. } => 8,
            Status::Memory => 9,
            Status::TooLong { .. } | Status::TooMany { .. } => 10,
            Status::Talk => 11,
            Status::Lines => 12,
        }
    }
}
