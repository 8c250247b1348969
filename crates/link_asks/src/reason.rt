//! What is wrong with a line that asks for nothing.

ghost use Rattle.std.specs.Prelude.{◌≡◌, ◌≤◌, length};
ghost use Rattle.link_asks.specs.Reasons.{IsReason, reason_text_of, takes_text_of};

use crate::asking::{LONGEST, without_return};
use crate::command::{Command, command_of};
use link_lines::first_word;

/// What is wrong with a line.
#[derive(Clone, Copy, Debug, PartialEq, Eq)]
pub enum Reason {
    /// It has more than 128 bytes.
    TooLong,
    /// Its first word is no command.
    NoCommand,
    /// What follows this command isn't what the command takes.
    Takes(Command),
}

/// What is wrong with a line that asks for nothing. Memory: none.
pub fn reason_of(line: &[u8]) -> Reason
    ensures { IsReason line.now result }
{
    if line.len() > LONGEST {
        return Reason::TooLong;
    }
    let (word, _) = first_word(without_return(line));
    let Some(command) = command_of(word) else {
        return Reason::NoCommand;
    };
    Reason::Takes(command)
}

/// How a reason is told.
#[tactic(auto, unfolding(crate::specs::Reasons::reason_text_of))]
pub(crate) fn reason_text(reason: Reason) -> &'static [u8]
    ensures value { result.now ≡ reason_text_of reason }
    ensures short { length result.now ≤ 150 }
{
    match reason {
        Reason::TooLong => b"a line has at most 128 bytes",
        Reason::NoCommand => {
            b"no such command; there are status now beat phase time tempo bpm play stop force request quantum watch unwatch clients gates end"
        }
        Reason::Takes(command) => takes_text(command),
    }
}

// What a command takes.
#[tactic(auto, unfolding(crate::specs::Reasons::takes_text_of))]
fn takes_text(command: Command) -> &'static [u8]
    ensures value { result.now ≡ takes_text_of command }
    ensures short { length result.now ≤ 150 }
{
    match command {
        Command::Status => b"status takes nothing",
        Command::Now => b"now takes nothing",
        Command::Beat => b"beat takes a time in microseconds, within 2^60 of 0",
        Command::Phase => b"phase takes a time in microseconds, within 2^60 of 0",
        Command::Time => b"time takes a beat in microbeats, within 2^60 of 0",
        Command::Tempo => b"tempo takes microseconds per beat, from 60060 to 3000000",
        Command::Bpm => b"bpm takes beats per minute, from 20 to 999, with up to six places",
        Command::Play => b"play takes nothing, or a time in microseconds, within 2^60 of 0",
        Command::Stop => b"stop takes nothing, or a time in microseconds, within 2^60 of 0",
        Command::Force =>
            b"force takes a beat in microbeats and a time in microseconds, within 2^60 of 0",
        Command::Request =>
            b"request takes a beat in microbeats and a time in microseconds, within 2^60 of 0",
        Command::Quantum => b"quantum takes microbeats, from 0 to 1099511627776",
        Command::Watch => b"watch takes nothing",
        Command::Unwatch => b"unwatch takes nothing",
        Command::Clients => b"clients takes nothing",
        Command::Gates => b"gates takes nothing",
        Command::End => b"end takes nothing",
    }
}
