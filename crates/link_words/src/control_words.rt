//! The words of `control`.

ghost use Rattle.std.specs.Prelude.{◌≡◌, ◌≤◌, ◌^◌, codes, map, IfOk, IsErrOf};
ghost use Rattle.std.specs.String.{string_bytes};
ghost use Rattle.clap.specs.Words.{FailsBy, HasMatchesOf, fault_of, rule_of};
ghost use Rattle.lk_base.specs.Ranges.{IsQuantum};
ghost use Rattle.link_words.specs.CommandWords.{HasNumber};
ghost use Rattle.link_words.specs.ControlCommand.{IsControlCommand};
ghost use Rattle.link_words.specs.ControlWords.{BeginsControl, IsControl, NamesControl, control_app, text_rule};
ghost use Rattle.link_words.specs.OptionWords.{IsLocalArg};

use crate::command_line::begins_with;
use crate::command_name::CommandName;
use crate::command_words::{WordsFault, bare, number_in};
use crate::endpoint_words::endpoint_in;
use crate::option_words::{events, group, group_in, microbeats_in, quantum};
use clap::error::ErrorKind;
use clap::{Arg, ArgAction, ArgMatches, Command, Error};
use lk_base::Endpoint;
use std::alloc::{AllocError, Global};

/// How a run under control is set up by its words.
#[derive(Clone, Copy, Debug, PartialEq, Eq)]
pub struct ControlOptions {
    /// Where the client connects.
    pub at: Endpoint,
    /// How many events the journal takes.
    pub events: u64,
    /// The length in microbeats that beats are counted in at first; 0 is none.
    pub quantum: i64,
    /// The group of the messages that are heard and sent.
    pub group: u16,
}

/// How the words set up a run under control: `control`, the endpoint at which it listens for its client, as `127.0.0.1:20900`, and the
/// options `--events` (1 to 524,288; 262,144 where it is not given), `--quantum` (0 to 2^40 microbeats; 4,000,000) and `--group` (0 to
/// 65,535; 0).
///
/// Memory: what clap needs to read the words.
pub fn control_options(alloc: Global, words: &[String]) -> Result<ControlOptions, WordsFault>
    ensures named { IfOk result (NamesControl words.now) }
    ensures ranges { IfOk result (λ options. (1 ≤ options.events) × (options.events ≤ 524_288) × IsQuantum options.quantum) }
    ensures not_taken { IsErrOf result WordsFault.NotTaken → IsControl words.now → ⊥ }
    ensures memory { IsErrOf result WordsFault.Memory → BeginsControl words.now }
{
    if !begins_with(words, CommandName::Control) {
        return Err(WordsFault::NotTaken);
    }
    match control_matches(alloc, words) {
        Ok(matches) => match endpoint_in(&matches, "ENDPOINT") {
            Some(at) => Ok(ControlOptions {
                at,
                events: number_in(&matches, "events"),
                quantum: microbeats_in(&matches, "quantum"),
                group: group_in(&matches, "group"),
            }),
            None => Err(WordsFault::NotTaken),
        },
        Err(error) if error.kind() == ErrorKind::OutOfMemory => Err(WordsFault::Memory),
        Err(_) => Err(WordsFault::NotTaken),
    }
}

/// What clap makes of the words.
pub fn control_matches<'a>(alloc: Global, words: &'a [String]) -> Result<ArgMatches<'a>, Error>
    ensures matches { IfOk result (HasMatchesOf control_app (map string_bytes words.entry.now)) }
    ensures kinds { FailsBy (fault_of control_app (map string_bytes words.entry.now)) result }
    ensures events { IfOk result (λ m. HasNumber m (codes "events") 1 524_288) }
    ensures quantum { IfOk result (λ m. HasNumber m (codes "quantum") 0 (2 ^ 40)) }
    ensures group { IfOk result (λ m. HasNumber m (codes "group") 0 65_535) }
{
    control_command(alloc)?.try_get_matches_from(words)
}

/// The command, with what is told of it.
pub fn control_command<'a>(alloc: Global) -> Result<Command<'a>, AllocError>
    ensures { IfOk result IsControlCommand }
{
    // Each argument is made where it is taken, so that none has to be given back where one before it fails.
    bare(alloc, "control", "jorazhil control")?
        .override_usage("jorazhil control [OPTIONS] <ENDPOINT> < SCRIPT")
        .arg(text(
            alloc,
            "ENDPOINT",
            "where the client connects, as 127.0.0.1:20900",
        ))?
        .arg(events(alloc))?
        .arg(quantum(
            alloc,
            "the length in microbeats that beats are counted in at first, from 0, which is none, to 1099511627776",
        ))?
        .arg(group(alloc))
}

// A value that is needed, any text.
fn text<'a>(alloc: Global, id: &'a str, help: &'a str) -> Arg<'a>
    ensures rule { rule_of result ≡ text_rule id.entry.now }
    ensures kept { IsLocalArg result id.entry.now }
{
    Arg::new(alloc, id)
        .required(true)
        .action(ArgAction::Set)
        .help(help)
}
