//! Reading a line of a client.

ghost use Rattle.std.specs.Prelude.{◌≡◌, ◌∷◌, [], IfSome, IfNone};
ghost use Rattle.std.specs.Str.Lines.{strip_carriage_return};
ghost use Rattle.link_asks.specs.Asks.{IsAsk, IsAsked, Says};
ghost use Rattle.link_asks.specs.Commands.{command_text_of};
ghost use Rattle.link_asks.specs.declared.ask.Ask as ask;
ghost use Rattle.link_lines.specs.LineWords.{words_left, words_of};

use crate::ask::Ask;
use crate::command::{Command, command_of};
use crate::left::{pair_left, quantum_left, signed_left, tempo_left, time_left, word_left};
use crate::tempo_text::tempo_of;
use link_lines::{first_word, is_end};

/// How many bytes a line has at most that asks for something; the longest has fewer.
pub(crate) const LONGEST: usize = 128;

/// What a line, without its line feed, asks for; none where it is spelled otherwise or out of range. Memory: none.
pub fn ask_of(line: &[u8]) -> Option<Ask>
    ensures { IsAsked line.now result }
{
    if line.len() > LONGEST {
        return None;
    }
    ask_in(without_return(line))
}

/// The line without a carriage return at its end.
pub(crate) fn without_return(line: &[u8]) -> &[u8]
    ensures { result.now ≡ strip_carriage_return line.now }
{
    match line {
        [front @ .., b'\r'] => front,
        _ => line,
    }
}

// What the words of a line ask for.
fn ask_in(line: &[u8]) -> Option<Ask>
    ensures some { IfSome result (λ asked. IsAsk asked × Says (words_of line.now) asked) }
    ensures none { IfNone result ((asked : ask.Ask) → IsAsk asked → Says (words_of line.now) asked → ⊥) }
{
    let (word, left) = first_word(line);
    let Some(command) = command_of(word) else {
        return None;
    };
    asked_by(command, left)
}

// What a command asks for with all that is left of its line.
fn asked_by(command: Command, left: &[u8]) -> Option<Ask>
    ensures some { IfSome result (λ asked. IsAsk asked × Says (command_text_of command ∷ words_left left.now) asked) }
    ensures none { IfNone result ((asked : ask.Ask) → IsAsk asked → Says (command_text_of command ∷ words_left left.now) asked → ⊥) }
{
    match command {
        Command::Status => alone(left, Ask::Status),
        Command::Now => alone(left, Ask::Now),
        Command::Beat => Some(Ask::Beat(signed_left(left)?)),
        Command::Phase => Some(Ask::Phase(signed_left(left)?)),
        Command::Time => Some(Ask::Time(signed_left(left)?)),
        Command::Tempo => Some(Ask::Tempo(tempo_left(left)?)),
        Command::Bpm => Some(Ask::Tempo(tempo_of(word_left(left)?)?)),
        Command::Play => Some(Ask::Play(time_left(left)?)),
        Command::Stop => Some(Ask::Stop(time_left(left)?)),
        Command::Force => {
            let (beat, at) = pair_left(left)?;
            Some(Ask::Force(beat, at))
        }
        Command::Request => {
            let (beat, at) = pair_left(left)?;
            Some(Ask::Request(beat, at))
        }
        Command::Quantum => Some(Ask::Quantum(quantum_left(left)?)),
        Command::Watch => alone(left, Ask::Watch),
        Command::Unwatch => alone(left, Ask::Unwatch),
        Command::Clients => alone(left, Ask::Clients),
        Command::Gates => alone(left, Ask::Gates),
        Command::End => alone(left, Ask::End),
    }
}

// What is asked for where nothing is left.
fn alone(left: &[u8], asked: Ask) -> Option<Ask>
    ensures some { IfSome result (λ it. (it ≡ asked) × (words_left left.now ≡ [])) }
    ensures none { IfNone result (words_left left.now ≡ [] → ⊥) }
{
    if !is_end(left) {
        return None;
    }
    Some(asked)
}
