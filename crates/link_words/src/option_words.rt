//! What commands share that have options and flags.

ghost use Rattle.std.specs.Prelude.{◌≡◌, ◌↔◌, ◌^◌, ℕ, pos, true, Some, codes};
ghost use Rattle.clap.specs.Words.{found_of, one_text, rule_of};
ghost use Rattle.clap.specs.declared.builder.value_parser.ValueParser.TheVariants.{Unsigned};
ghost use Rattle.lk_base.specs.Ranges.{IsQuantum};
ghost use Rattle.link_words.specs.CommandWords.{HasNumber, IsNumberIn};
ghost use Rattle.link_words.specs.OptionWords.{IsLocalArg, IsOptionArg, flag_rule, option_rule};

use crate::command_words::{number_in, within};
use clap::builder::ValueParser;
use clap::{Arg, ArgAction, ArgMatches};
use std::alloc::Global;

/// An option with a default, whose value is a whole number in the parser's range.
pub(crate) fn option<'a>(
    alloc: Global,
    id: &'a str,
    default: &'a str,
    help: &'a str,
    parser: ValueParser<'a>,
) -> Arg<'a>
    ensures rule { (least most : ℕ) → parser.entry ≡ Unsigned least most
        → rule_of result ≡ option_rule id.entry.now least most default.entry.now }
    ensures kept { (least most : ℕ) → parser.entry ≡ Unsigned least most → IsOptionArg result id.entry.now least most }
{
    Arg::new(alloc, id)
        .long(id)
        .action(ArgAction::Set)
        .value_name("N")
        .value_parser(parser)
        .default_value(default)
        .help(help)
}

/// The option `events` of a run that keeps a journal.
pub(crate) fn events<'a>(alloc: Global) -> Arg<'a>
    ensures rule { rule_of result ≡ option_rule (codes "events") 1 524_288 (codes "262144") }
    ensures kept { IsOptionArg result (codes "events") 1 524_288 }
{
    option(
        alloc,
        "events",
        "262144",
        "how many events the journal takes, from 1 to 524288",
        within(1, 524_288),
    )
}

/// The option `quantum` of a run beside peers, with what is told of it.
pub(crate) fn quantum<'a>(alloc: Global, help: &'a str) -> Arg<'a>
    ensures rule { rule_of result ≡ option_rule (codes "quantum") 0 (2 ^ 40) (codes "4000000") }
    ensures kept { IsOptionArg result (codes "quantum") 0 (2 ^ 40) }
{
    option(
        alloc,
        "quantum",
        "4000000",
        help,
        within(0, 1_099_511_627_776),
    )
}

/// The option `group` of a run beside peers.
pub(crate) fn group<'a>(alloc: Global) -> Arg<'a>
    ensures rule { rule_of result ≡ option_rule (codes "group") 0 65_535 (codes "0") }
    ensures kept { IsOptionArg result (codes "group") 0 65_535 }
{
    option(
        alloc,
        "group",
        "0",
        "the group of the nodes that hear each other, from 0, which all Link programs are in, to 65535",
        within(0, 65_535),
    )
}

/// A flag.
pub(crate) fn flag<'a>(alloc: Global, id: &'a str, help: &'a str) -> Arg<'a>
    ensures rule { rule_of result ≡ flag_rule id.entry.now }
    ensures kept { IsLocalArg result id.entry.now }
{
    Arg::new(alloc, id)
        .long(id)
        .action(ArgAction::SetTrue)
        .help(help)
}

/// The number of microbeats of this name.
pub(crate) fn microbeats_in(matches: &ArgMatches<'_>, id: &str) -> i64
    requires some { HasNumber matches.now id.now 0 (2 ^ 40) }
    ensures is { (number : ℕ) × IsNumberIn matches.now id.now number × (result ≡ pos number) }
    ensures range { IsQuantum result }
{
    number_in(matches, id) as i64
}

/// The group of this name.
pub(crate) fn group_in(matches: &ArgMatches<'_>, id: &str) -> u16
    requires some { HasNumber matches.now id.now 0 65_535 }
    ensures { IsNumberIn matches.now id.now result }
{
    number_in(matches, id) as u16
}

/// Whether the flag of this name was given.
pub(crate) fn flag_in(matches: &ArgMatches<'_>, id: &str) -> bool
    ensures { (result ≡ true) ↔ (one_text (found_of matches.now) id.now ≡ Some (codes "true")) }
{
    matches.get_one::<bool>(id).unwrap_or(false)
}
