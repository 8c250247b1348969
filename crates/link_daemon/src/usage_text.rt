//! What is told of words that are no command, for people: only that it is safe is proved of it.

use clap::error::ErrorKind;
use clap::{ArgMatches, Command, Error};
use link_text::{Excerpt, endpoint_of};
use link_words::{
    CommandName, command_named, control_command, control_matches, live_command, live_matches,
    load_command, load_matches, midi_command, midi_matches,
};
use std::alloc::{AllocError, Global};

/// The commands, each with its form.
const COMMANDS: &str = "Usage: jorazhil <COMMAND>\n\n  \
    jorazhil replay < SCRIPT                   reads a script on standard input, and writes what the node sends and shows\n  \
    jorazhil decode < DATAGRAMS                reads datagrams in hex on standard input, one a line, and tells in a line what each says\n  \
    jorazhil filter < PAIRS                    reads pairs of a sample count and a host time on standard input, one a line, and gives each a smooth host time\n  \
    jorazhil midi <LENGTH> <BLOCKS> < SCRIPT   reads a script on standard input, plays it in BLOCKS blocks of LENGTH microseconds, and writes the MIDI clock\n  \
    jorazhil load <SEED> <COUNT>               runs a node through generated events, and writes how much there was and the last state\n  \
    jorazhil live [OPTIONS] < SCRIPT           plays a live script beside its peers, and writes how much there was and the last state\n  \
    jorazhil control <ENDPOINT> < SCRIPT       plays beside its peers, driven line by line by a program that connects to ENDPOINT";

/// What words are told that name no command: which of them is at fault, and what would be right.
pub fn usage(alloc: Global, words: &[String]) -> Result<String, AllocError> {
    let [first, rest @ ..] = words else {
        return format!(in alloc; "no command was given\n\n{COMMANDS}");
    };
    match command_named(words) {
        Some(CommandName::Load) => command_usage(
            alloc,
            "load runs a node through generated events",
            rest,
            load_command(alloc)?,
            load_matches(alloc, words),
        ),
        Some(CommandName::Midi) => command_usage(
            alloc,
            "midi plays a script in blocks, and tells its MIDI clock",
            rest,
            midi_command(alloc)?.override_usage("jorazhil midi <LENGTH> <BLOCKS> < SCRIPT"),
            midi_matches(alloc, words),
        ),
        Some(CommandName::Live) => command_usage(
            alloc,
            "live plays a live script beside its peers",
            rest,
            live_command(alloc)?,
            live_matches(alloc, words),
        ),
        Some(CommandName::Control) => control_usage(alloc, words, rest),
        Some(CommandName::Replay) => input_usage(alloc, CommandName::Replay, "SCRIPT", rest),
        Some(CommandName::Decode) => input_usage(alloc, CommandName::Decode, "DATAGRAMS", rest),
        Some(CommandName::Filter) => input_usage(alloc, CommandName::Filter, "PAIRS", rest),
        None if is_request(first.as_str()) => {
            format!(in alloc; "a runtime for tempo sessions\n\n{COMMANDS}")
        }
        None => format!(in alloc;
            "{} is no command\n\n{COMMANDS}",
            Excerpt::new(first.as_bytes())
        ),
    }
}

/// What is told where a word is no text.
pub fn unreadable_usage(alloc: Global) -> Result<String, AllocError> {
    format!(in alloc; "a word is not UTF-8 text\n\n{COMMANDS}")
}

// What is told behind a command that reads standard input and takes no other word.
fn input_usage(
    alloc: Global,
    command: CommandName,
    input: &str,
    rest: &[String],
) -> Result<String, AllocError> {
    let command = command.word();
    let Some(word) = rest.first() else {
        return format!(in alloc; "{COMMANDS}");
    };
    if is_request(word.as_str()) {
        return format!(in alloc;
            "{command} reads standard input\n\nUsage: jorazhil {command} < {input}"
        );
    }
    format!(in alloc;
        "{} is one word too many: {command} takes no other word, and reads standard input\n\nUsage: jorazhil {command} < {input}",
        Excerpt::new(word.as_bytes())
    )
}

// What is told behind `control`. Where clap takes its words, the endpoint among them may be none.
fn control_usage(alloc: Global, words: &[String], rest: &[String]) -> Result<String, AllocError> {
    let mut command = control_command(alloc)?;
    let matches = control_matches(alloc, words);
    let Some(word) = no_endpoint(&matches) else {
        return command_usage(
            alloc,
            "control listens at ENDPOINT for a client that drives a node line by line",
            rest,
            command,
            matches,
        );
    };
    let help = command.render_help()?;
    format!(in alloc;
        "{} is no endpoint: four numbers from 0 to 255 parted by dots, a colon and a port, as 127.0.0.1:20900\n\n{}",
        Excerpt::new(word.as_bytes()),
        help.as_str().trim_end()
    )
}

// The word that stands for the endpoint, where it is none and doesn't ask for help.
fn no_endpoint<'a>(matches: &Result<ArgMatches<'a>, Error>) -> Option<&'a str> {
    let Ok(found) = matches else {
        return None;
    };
    let word = found.get_str("ENDPOINT")?;
    if is_request(word) || endpoint_of(word.as_bytes()).is_some() {
        return None;
    }
    Some(word)
}

// What is told behind a command whose words clap reads.
fn command_usage(
    alloc: Global,
    about: &str,
    rest: &[String],
    mut command: Command<'_>,
    matches: Result<ArgMatches<'_>, Error>,
) -> Result<String, AllocError> {
    fault_and_help(alloc, about, rest, &mut command, &matches)
}

// What clap finds wrong with the words, and what the command takes. Where they ask for help, what it does stands in place of the fault.
fn fault_and_help(
    alloc: Global,
    about: &str,
    rest: &[String],
    command: &mut Command<'_>,
    matches: &Result<ArgMatches<'_>, Error>,
) -> Result<String, AllocError> {
    let help = command.render_help()?;
    let forms = help.as_str().trim_end();
    if rest.first().is_some_and(|word| is_request(word.as_str())) {
        return format!(in alloc; "{about}\n\n{forms}");
    }
    let Err(error) = matches else {
        return String::from_str(alloc, forms);
    };
    if error.kind() == ErrorKind::OutOfMemory {
        return Err(AllocError);
    }
    let told = format!(in alloc; "{error}")?;
    format!(in alloc; "{}\n\n{forms}", reason_in(told.as_str()))
}

// What is wrong, without the head, the usage and the tip of clap's text. A tip says how to give a word that begins with a hyphen as a
// value, which no value of these commands is.
fn reason_in(text: &str) -> &str {
    let text = text.strip_prefix("error: ").unwrap_or(text);
    front(front(text, "\n\nUsage:"), "\n\n  tip:").trim_end()
}

// What stands before a mark, or all where there is none.
fn front<'a>(text: &'a str, mark: &str) -> &'a str {
    match text.split_once(mark) {
        Some((before, _)) => before,
        None => text,
    }
}

// Whether the word asks for help or for the version.
fn is_request(word: &str) -> bool {
    matches!(word, "--help" | "-h" | "help" | "--version" | "-V")
}
