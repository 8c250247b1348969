//! The words of `midi`.

ghost use Rattle.std.specs.Prelude.{◌≡◌, ◌≤◌, codes, map, IfOk, IsErrOf};
ghost use Rattle.std.specs.String.{string_bytes};
ghost use Rattle.clap.specs.Words.{FailsBy, HasMatchesOf, fault_of};
ghost use Rattle.link_words.specs.CommandWords.{HasNumber};
ghost use Rattle.link_words.specs.MidiWords.{BeginsMidi, IsMidi, IsMidiCommand, NamesMidi, midi_app};

use crate::command_line::begins_with;
use crate::command_name::CommandName;
use crate::command_words::{WordsFault, bare, number_in, within};
use crate::value_words::number;
use clap::error::ErrorKind;
use clap::{ArgMatches, Command, Error};
use std::alloc::{AllocError, Global};

/// Which blocks words ask for.
#[derive(Clone, Copy, Debug, PartialEq, Eq)]
pub struct MidiNumbers {
    /// How long each block is, in microseconds.
    pub length: u64,
    /// How many blocks.
    pub blocks: u64,
    ghost some: { 1 ≤ length },
    ghost short: { length ≤ 1_000_000 },
    ghost few: { blocks ≤ 524_288 },
}

/// Which blocks the words ask for: `midi`, a length from 1 to 1,000,000 microseconds and a number of blocks from 0 to 524,288.
///
/// Memory: what clap needs to read the words.
pub fn midi_numbers(alloc: Global, words: &[String]) -> Result<MidiNumbers, WordsFault>
    ensures named { IfOk result (λ numbers. NamesMidi words.now numbers.length numbers.blocks) }
    ensures not_taken { IsErrOf result WordsFault.NotTaken → IsMidi words.now → ⊥ }
    ensures memory { IsErrOf result WordsFault.Memory → BeginsMidi words.now }
{
    if !begins_with(words, CommandName::Midi) {
        return Err(WordsFault::NotTaken);
    }
    match midi_matches(alloc, words) {
        Ok(matches) => Ok(MidiNumbers {
            length: number_in(&matches, "LENGTH"),
            blocks: number_in(&matches, "BLOCKS"),
        }),
        Err(error) if error.kind() == ErrorKind::OutOfMemory => Err(WordsFault::Memory),
        Err(_) => Err(WordsFault::NotTaken),
    }
}

/// What clap makes of the words.
pub fn midi_matches<'a>(alloc: Global, words: &'a [String]) -> Result<ArgMatches<'a>, Error>
    ensures matches { IfOk result (HasMatchesOf midi_app (map string_bytes words.entry.now)) }
    ensures kinds { FailsBy (fault_of midi_app (map string_bytes words.entry.now)) result }
    ensures length { IfOk result (λ m. HasNumber m (codes "LENGTH") 1 1_000_000) }
    ensures blocks { IfOk result (λ m. HasNumber m (codes "BLOCKS") 0 524_288) }
{
    midi_command(alloc)?.try_get_matches_from(words)
}

/// The command, with what is told of it.
pub fn midi_command<'a>(alloc: Global) -> Result<Command<'a>, AllocError>
    ensures { IfOk result IsMidiCommand }
{
    // Each argument is made where it is taken, so that none has to be given back where one before it fails.
    bare(alloc, "midi", "jorazhil midi")?
        .arg(number(
            alloc,
            "LENGTH",
            "how long each block is, in microseconds, from 1 to 1000000",
            within(1, 1_000_000),
        ))?
        .arg(number(
            alloc,
            "BLOCKS",
            "how many blocks, from 0 to 524288",
            within(0, 524_288),
        ))
}
