//! The words of `load`.

ghost use Rattle.std.specs.Prelude.{◌≡◌, ◌≤◌, ◌-◌, ◌^◌, codes, map, IfOk, IsErrOf};
ghost use Rattle.std.specs.String.{string_bytes};
ghost use Rattle.clap.specs.Words.{FailsBy, HasMatchesOf, fault_of};
ghost use Rattle.link_words.specs.CommandWords.{HasNumber};
ghost use Rattle.link_words.specs.LoadWords.{BeginsLoad, IsLoad, IsLoadCommand, NamesLoad, load_app};

use crate::command_line::begins_with;
use crate::command_name::CommandName;
use crate::command_words::{WordsFault, bare, number_in, within};
use crate::value_words::number;
use clap::error::ErrorKind;
use clap::{ArgMatches, Command, Error, value_parser};
use std::alloc::{AllocError, Global};

/// Which load words ask for.
#[derive(Clone, Copy, Debug, PartialEq, Eq)]
pub struct LoadNumbers {
    pub seed: u64,
    /// How many events.
    pub count: u64,
}

/// Which load the words ask for: `load`, a seed and a number of events from 1 to 524,288.
///
/// Memory: what clap needs to read the words.
pub fn load_numbers(alloc: Global, words: &[String]) -> Result<LoadNumbers, WordsFault>
    ensures named { IfOk result (λ numbers. NamesLoad words.now numbers.seed numbers.count) }
    ensures count { IfOk result (λ numbers. (1 ≤ numbers.count) × (numbers.count ≤ 524_288)) }
    ensures not_taken { IsErrOf result WordsFault.NotTaken → IsLoad words.now → ⊥ }
    ensures memory { IsErrOf result WordsFault.Memory → BeginsLoad words.now }
{
    if !begins_with(words, CommandName::Load) {
        return Err(WordsFault::NotTaken);
    }
    match load_matches(alloc, words) {
        Ok(matches) => Ok(LoadNumbers {
            seed: number_in(&matches, "SEED"),
            count: number_in(&matches, "COUNT"),
        }),
        Err(error) if error.kind() == ErrorKind::OutOfMemory => Err(WordsFault::Memory),
        Err(_) => Err(WordsFault::NotTaken),
    }
}

/// What clap makes of the words.
pub fn load_matches<'a>(alloc: Global, words: &'a [String]) -> Result<ArgMatches<'a>, Error>
    ensures matches { IfOk result (HasMatchesOf load_app (map string_bytes words.entry.now)) }
    ensures kinds { FailsBy (fault_of load_app (map string_bytes words.entry.now)) result }
    ensures seed { IfOk result (λ m. HasNumber m (codes "SEED") 0 (2 ^ 64 - 1)) }
    ensures count { IfOk result (λ m. HasNumber m (codes "COUNT") 1 524_288) }
{
    load_command(alloc)?.try_get_matches_from(words)
}

/// The command, with what is told of it.
pub fn load_command<'a>(alloc: Global) -> Result<Command<'a>, AllocError>
    ensures { IfOk result IsLoadCommand }
{
    // Each argument is made where it is taken, so that none has to be given back where one before it fails.
    bare(alloc, "load", "jorazhil load")?
        .arg(number(
            alloc,
            "SEED",
            "the seed of the events, from 0 to 18446744073709551615",
            value_parser!(u64),
        ))?
        .arg(number(
            alloc,
            "COUNT",
            "how many events, from 1 to 524288",
            within(1, 524_288),
        ))
}
