//! The words of `live`.

ghost use Rattle.std.specs.Prelude.{◌≡◌, ◌≤◌, ◌^◌, codes, map, IfOk, IsErrOf};
ghost use Rattle.std.specs.String.{string_bytes};
ghost use Rattle.clap.specs.Words.{FailsBy, HasMatchesOf, fault_of};
ghost use Rattle.lk_base.specs.Ranges.{IsQuantum};
ghost use Rattle.link_words.specs.CommandWords.{HasNumber};
ghost use Rattle.link_words.specs.LiveCommand.{IsLiveCommand};
ghost use Rattle.link_words.specs.LiveWords.{BeginsLive, IsLive, NamesLive, live_app};

use crate::command_line::begins_with;
use crate::command_name::CommandName;
use crate::command_words::{WordsFault, bare, number_in, within};
use crate::option_words::{events, flag, flag_in, group, group_in, microbeats_in, option, quantum};
use clap::error::ErrorKind;
use clap::{ArgMatches, Command, Error};
use std::alloc::{AllocError, Global};

/// How a live run is set up by its words.
#[derive(Clone, Copy, Debug, PartialEq, Eq)]
pub struct LiveOptions {
    /// How many events the journal takes.
    pub events: u64,
    /// How many blocks are played at most.
    pub blocks: u64,
    /// The length in microbeats that accents and phases are counted in at first; 0 is none.
    pub quantum: i64,
    /// The group of the messages that are heard and sent.
    pub group: u16,
    /// Whether the run's replay script is written.
    pub record: bool,
}

/// How the words set up a live run: `live`, with the options `--events` (1 to 524,288; 262,144 where it is not given), `--blocks` (0 to
/// 524,288; 262,144), `--quantum` (0 to 2^40 microbeats; 4,000,000) and `--group` (0 to 65,535; 0), and the flag `--record`.
///
/// Memory: what clap needs to read the words.
pub fn live_options(alloc: Global, words: &[String]) -> Result<LiveOptions, WordsFault>
    ensures named { IfOk result (NamesLive words.now) }
    ensures ranges { IfOk result (λ options.
        (1 ≤ options.events) × (options.events ≤ 524_288) × (options.blocks ≤ 524_288) × IsQuantum options.quantum) }
    ensures not_taken { IsErrOf result WordsFault.NotTaken → IsLive words.now → ⊥ }
    ensures memory { IsErrOf result WordsFault.Memory → BeginsLive words.now }
{
    if !begins_with(words, CommandName::Live) {
        return Err(WordsFault::NotTaken);
    }
    match live_matches(alloc, words) {
        Ok(matches) => Ok(LiveOptions {
            events: number_in(&matches, "events"),
            blocks: number_in(&matches, "blocks"),
            quantum: microbeats_in(&matches, "quantum"),
            group: group_in(&matches, "group"),
            record: flag_in(&matches, "record"),
        }),
        Err(error) if error.kind() == ErrorKind::OutOfMemory => Err(WordsFault::Memory),
        Err(_) => Err(WordsFault::NotTaken),
    }
}

/// What clap makes of the words.
pub fn live_matches<'a>(alloc: Global, words: &'a [String]) -> Result<ArgMatches<'a>, Error>
    ensures matches { IfOk result (HasMatchesOf live_app (map string_bytes words.entry.now)) }
    ensures kinds { FailsBy (fault_of live_app (map string_bytes words.entry.now)) result }
    ensures events { IfOk result (λ m. HasNumber m (codes "events") 1 524_288) }
    ensures blocks { IfOk result (λ m. HasNumber m (codes "blocks") 0 524_288) }
    ensures quantum { IfOk result (λ m. HasNumber m (codes "quantum") 0 (2 ^ 40)) }
    ensures group { IfOk result (λ m. HasNumber m (codes "group") 0 65_535) }
{
    live_command(alloc)?.try_get_matches_from(words)
}

/// The command, with what is told of it.
pub fn live_command<'a>(alloc: Global) -> Result<Command<'a>, AllocError>
    ensures { IfOk result IsLiveCommand }
{
    // Each argument is made where it is taken, so that none has to be given back where one before it fails.
    bare(alloc, "live", "jorazhil live")?
        .override_usage("jorazhil live [OPTIONS] < SCRIPT")
        .arg(events(alloc))?
        .arg(option(
            alloc,
            "blocks",
            "262144",
            "how many blocks of 20 milliseconds are played at most, from 0 to 524288",
            within(0, 524_288),
        ))?
        .arg(quantum(
            alloc,
            "the length in microbeats that accents and phases are counted in at first, from 0, which is none, to 1099511627776",
        ))?
        .arg(group(alloc))?
        .arg(flag(alloc, "record", "also writes the run's replay script"))
}
