//! How a run of the program ends.

ghost use Rattle.std.specs.Prelude.{◌≡◌};
ghost use Rattle.session_server.specs.Statuses.{ended_as, status_number_of};

use link_clients::ServeEnd;
use std::fmt;

/// How a run ended. Its number is the exit status, its text is for the person who ran it.
#[derive(Clone, Copy, Debug, PartialEq, Eq)]
pub enum Status {
    Done,
    /// The words are none that the program takes, or a file that they name isn't there, or says no secret.
    Words,
    /// A gate could not be bound, or a socket of one broke. Clients were served on, without peers.
    Network,
    /// The system told no time.
    Time,
    /// A script could not be read.
    Input,
    /// The journal had no room for an event.
    Events,
    /// A script is no head of a live script.
    Script,
    Memory,
    /// A script is too long.
    TooLong,
    /// Clients could not be listened for, or a call of their sockets failed.
    Talks,
}

impl Status {
    /// The status's number.
    pub fn number(self) -> u8
        ensures { result ≡ status_number_of self }
    {
        match self {
            Status::Done => 0,
            Status::Words => 2,
            Status::Network => 3,
            Status::Time => 4,
            Status::Input => 5,
            Status::Events => 6,
            Status::Script => 8,
            Status::Memory => 9,
            Status::TooLong => 10,
            Status::Talks => 11,
        }
    }
}

/// The status of a session by how its run ended.
pub fn status_of(end: ServeEnd) -> Status
    ensures { result ≡ ended_as end }
{
    match end {
        ServeEnd::Memory => Status::Memory,
        ServeEnd::Port => Status::Network,
        ServeEnd::Talks => Status::Talks,
        ServeEnd::Events => Status::Events,
        ServeEnd::Well => Status::Done,
    }
}

impl fmt::Display for Status {
    fn fmt<W: fmt::Write>(&self, f: &mut fmt::Formatter<W>) -> fmt::Result {
        f.write_str(match self {
            Status::Done => "done",
            Status::Words => USAGE,
            Status::Network =>
                "the network failed: a gate's address has to be this machine's, and its port free; clients were served on, without peers",
            Status::Time => "the system tells no time",
            Status::Input => "the script could not be read",
            Status::Events => "the journal is full, and so the session ended",
            Status::Script => "the script has to be the head of a live script, without commands",
            Status::Memory => "no memory was left",
            Status::TooLong => "the script is too long",
            Status::Talks =>
                "clients could not be listened for, or their sockets failed: the address has to be this machine's, and the port free",
        })
    }
}

/// What is told where the words are none that the program takes.
const USAGE: &str = "Usage: session_server [OPTIONS] <ENDPOINT>

Arguments:
  <ENDPOINT>  where clients connect, as 127.0.0.1:20900; for port 0 the system picks one

Options:
      --gate <ENDPOINT>   where peers reach it: an address of this machine and a free port; up to 4 [default: 127.0.0.1:0]
      --to <ENDPOINT>     an endpoint that the --gate before it tells of itself; up to 32 each
      --script <FILE>     the head of a live script, in place of --gate, --to, the tempo and --sync
      --mpb <N>           the tempo to begin with, in microseconds per beat, from 60060 to 3000000 [default: 500000]
      --bpm <X>           the same in beats per minute, as 120 or 120.5, with at most six places
      --sync              starts and stops are shared with the session
      --quantum <N>       the length of a bar in microbeats at first, from 0, which is none, to 1099511627776 [default: 4000000]
      --group <N>         the group of the nodes that hear each other, from 0, which all Link programs are in, to 65535 [default: 0]
      --events <N>        how many events the journal takes, from 1 to 524288 [default: 524288]
      --hours <H>         ends after so many hours, as 8 or 0.01
      --secret <FILE>     a client's first line has to be `hello WORD`, with the first line of FILE for WORD
      --end-allowed       a client's line `end` ends it
      --until-input-ends  the end of standard input ends it";
