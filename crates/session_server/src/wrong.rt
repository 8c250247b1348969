//! What is wrong with words, in words for a person.

use crate::fault::WordsFault;
use crate::parts::find;
use std::fmt;

/// Words with what is wrong with them.
#[derive(Clone, Copy)]
pub struct Wrong<'a> {
    pub words: &'a [String],
    pub fault: WordsFault,
}

impl<'a> fmt::Display for Wrong<'a> {
    fn fmt<W: fmt::Write>(&self, f: &mut fmt::Formatter<W>) -> fmt::Result {
        let words = self.words;
        match self.fault {
            WordsFault::NoEndpoint => {
                f.write_str("the endpoint where clients connect is missing: as 127.0.0.1:20900")
            }
            WordsFault::Endpoint => put_place(
                f,
                words,
                0,
                "is no endpoint where clients could connect, as 127.0.0.1:20900",
            ),
            WordsFault::TooMuch => put_place(
                f,
                words,
                1,
                "is none of the options, and only one word stands without",
            ),
            WordsFault::Script => put_option(
                f,
                words,
                "--script",
                "a file, with the head of a live script",
            ),
            WordsFault::Beside => f.write_str(
                "--script stands for --gate, --to, --mpb, --bpm and --sync, and so none of these may stand beside it",
            ),
            WordsFault::Gate(number) => put_gate(f, words, number),
            WordsFault::StrayTo => {
                f.write_str(
                    "--to tells a destination of the --gate before it, and none stands before the first",
                )
            }
            WordsFault::Gates => f.write_str("--gate is given more than 4 times"),
            WordsFault::Destinations => f.write_str(
                "--to is given more than 32 times behind one --gate",
            ),
            WordsFault::Tempo => put_tempo(f, words),
            WordsFault::Sync => put_twice(f, "--sync"),
            WordsFault::Quantum => put_option(
                f,
                words,
                "--quantum",
                "a whole number of microbeats, from 0 to 1099511627776",
            ),
            WordsFault::Group => put_option(f, words, "--group", "a whole number from 0 to 65535"),
            WordsFault::Events => put_option(
                f,
                words,
                "--events",
                "a whole number from 1 to 524288",
            ),
            WordsFault::Hours => put_option(
                f,
                words,
                "--hours",
                "a number of hours, from 0.000001 to 8760, with at most six places",
            ),
            WordsFault::Secret => put_option(
                f,
                words,
                "--secret",
                "a file, whose first line is the secret",
            ),
            WordsFault::EndAllowed => put_twice(f, "--end-allowed"),
            WordsFault::UntilInputEnds => put_twice(f, "--until-input-ends"),
        }
    }
}

// Tells of a word that is neither an option nor a value.
fn put_place<W: fmt::Write>(
    f: &mut fmt::Formatter<W>,
    words: &[String],
    number: usize,
    wrong: &str,
) -> fmt::Result {
    let word = text_of(words, "", "", number);
    write!(f, "\"{word}\" {wrong}")
}

// Tells of an option what has to stand behind it, or that it is given twice.
fn put_option<W: fmt::Write>(
    f: &mut fmt::Formatter<W>,
    words: &[String],
    name: &str,
    right: &str,
) -> fmt::Result {
    if find(words, name, name, 1).is_some() {
        return put_twice(f, name);
    }
    let text = text_of(words, name, name, 0);
    if text.is_empty() {
        write!(f, "behind {name} has to stand {right}")
    } else {
        write!(f, "\"{text}\" behind {name} has to be {right}")
    }
}

fn put_twice<W: fmt::Write>(f: &mut fmt::Formatter<W>, name: &str) -> fmt::Result {
    write!(f, "{name} is given more than once")
}

// Tells of a gate or a destination that is no endpoint.
fn put_gate<W: fmt::Write>(
    f: &mut fmt::Formatter<W>,
    words: &[String],
    number: usize,
) -> fmt::Result {
    let text = text_of(words, "--gate", "--to", number);
    let name = find(words, "--gate", "--to", number).map_or("--gate", |given| given.name);
    write!(
        f,
        "\"{text}\" behind {name} has to be an endpoint, as 192.168.1.20:17000"
    )
}

// Tells of a tempo.
fn put_tempo<W: fmt::Write>(f: &mut fmt::Formatter<W>, words: &[String]) -> fmt::Result {
    if find(words, "--mpb", "--bpm", 1).is_some() {
        return f.write_str("only one tempo may be given, by --mpb or by --bpm");
    }
    if find(words, "--mpb", "--mpb", 0).is_some() {
        return put_option(
            f,
            words,
            "--mpb",
            "a whole number of microseconds per beat, from 60060 to 3000000",
        );
    }
    put_option(
        f,
        words,
        "--bpm",
        "beats per minute from 20 to 999, as 120 or 120.5, with at most six places",
    )
}

// The value of the part in a place among those of these names; empty where there is none.
fn text_of<'a>(words: &'a [String], first: &str, second: &str, number: usize) -> &'a str {
    find(words, first, second, number).map_or("", |given| given.text)
}
