//! What commands share that have two values and no flag.

ghost use Rattle.std.specs.Prelude.{◌≡◌, ℕ};
ghost use Rattle.clap.specs.Words.{rule_of};
ghost use Rattle.clap.specs.declared.builder.value_parser.ValueParser.TheVariants.{Unsigned};
ghost use Rattle.link_words.specs.ValueCommand.{IsNumberArg};
ghost use Rattle.link_words.specs.ValueWords.{number_rule};

use clap::builder::ValueParser;
use clap::{Arg, ArgAction};
use std::alloc::Global;

/// A value that is needed, a whole number in the parser's range.
pub(crate) fn number<'a>(
    alloc: Global,
    id: &'a str,
    help: &'a str,
    parser: ValueParser<'a>,
) -> Arg<'a>
    ensures rule { (least most : ℕ) → parser.entry ≡ Unsigned least most → rule_of result ≡ number_rule id.entry.now least most }
    ensures kept { (least most : ℕ) → parser.entry ≡ Unsigned least most → IsNumberArg result id.entry.now least most }
{
    Arg::new(alloc, id)
        .required(true)
        .action(ArgAction::Set)
        .value_parser(parser)
        .help(help)
}
