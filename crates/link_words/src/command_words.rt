//! What the commands share whose words clap reads.

ghost use Rattle.std.specs.Prelude.{◌≡◌, ◌≤◌, ℕ, pos, IfOk};
ghost use Rattle.clap.specs.declared.builder.value_parser.ValueParser.TheVariants.{Unsigned};
ghost use Rattle.link_words.specs.CommandWords.{HasNumber, IsBare, IsNumberIn};

use clap::builder::ValueParser;
use clap::{ArgMatches, Command, value_parser};
use std::alloc::{AllocError, Global};

/// Why words ask for no run of a command.
#[derive(Clone, Copy, Debug, PartialEq, Eq)]
pub enum WordsFault {
    /// They are not those of the command.
    NotTaken,
    /// There was no memory to read them.
    Memory,
}

/// The command of this name, before its arguments; `shown` is what its usage begins with.
pub(crate) fn bare<'a>(alloc: Global, name: &'a str, shown: &str) -> Result<Command<'a>, AllocError>
    ensures { IfOk result (IsBare name.entry.now) }
{
    let command = Command::new(alloc, name).bin_name(shown)?;
    Ok(command.disable_help_flag(true).disable_version_flag(true))
}

/// What takes a whole number in this range.
pub(crate) fn within<'a>(least: i64, most: i64) -> ValueParser<'a>
    ensures { (a b : ℕ) → least ≡ pos a → most ≡ pos b → result ≡ Unsigned a b }
{
    value_parser!(u64).range(least..=most)
}

/// The number of this name, which the words or a default give.
pub fn number_in(matches: &ArgMatches<'_>, id: &str) -> u64
    requires some { (least : ℕ) × (most : ℕ) × HasNumber matches.now id.now least most }
    ensures is { IsNumberIn matches.now id.now result }
    ensures range { (least most : ℕ) → HasNumber matches.now id.now least most → (least ≤ result) × (result ≤ most) }
{
    matches.get_one::<u64>(id).unwrap_or(0)
}
