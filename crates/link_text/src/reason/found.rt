//! What stands at a place of a line.

use std::fmt;

/// How many bytes of a word are shown.
const SHOWN: usize = 40;

/// What stands at a place of a line.
#[derive(Clone, Copy, Debug, PartialEq, Eq)]
pub enum Found {
    Word(Excerpt),
    /// No word between two spaces, or between a space and an end of the line.
    NoWord,
    /// A carriage return at the end of the line: lines end in line feeds alone.
    CarriageReturn,
    LineEnd,
    TextEnd,
}

/// The first bytes of a word, at most 40.
#[derive(Clone, Copy, Debug, PartialEq, Eq)]
pub struct Excerpt {
    bytes: [u8; SHOWN],
    len: u8,
    more: bool,
}

impl Excerpt {
    /// The first bytes of a word.
    pub fn new(word: &[u8]) -> Excerpt {
        let mut bytes = [0; SHOWN];
        let mut len: u8 = 0;
        for (to, from) in bytes.iter_mut().zip(word) {
            *to = *from;
            len = len.saturating_add(1);
        }
        Excerpt {
            bytes,
            len,
            more: word.len() > SHOWN,
        }
    }
}

impl fmt::Display for Found {
    fn fmt<W: fmt::Write>(&self, f: &mut fmt::Formatter<W>) -> fmt::Result {
        match self {
            Found::Word(excerpt) => write!(f, "{excerpt}"),
            Found::NoWord => f.write_str("no word (words are parted by single spaces)"),
            Found::CarriageReturn => {
                f.write_str("a carriage return (lines end in line feeds alone)")
            }
            Found::LineEnd => f.write_str("the end of the line"),
            Found::TextEnd => f.write_str("the end of the text"),
        }
    }
}

// In double quotes, with escapes, and dots where more bytes follow.
impl fmt::Display for Excerpt {
    fn fmt<W: fmt::Write>(&self, f: &mut fmt::Formatter<W>) -> fmt::Result {
        f.write_char('"')?;
        for byte in self.bytes.iter().take(usize::from(self.len)) {
            write_escaped(f, *byte)?;
        }
        f.write_char('"')?;
        if self.more {
            f.write_str("...")?;
        }
        Ok(())
    }
}

// A byte as it is where it is visible, and else with a backslash.
fn write_escaped<W: fmt::Write>(f: &mut fmt::Formatter<W>, byte: u8) -> fmt::Result {
    match byte {
        b'\t' => f.write_str("\\t"),
        b'\r' => f.write_str("\\r"),
        b'"' => f.write_str("\\\""),
        b'\\' => f.write_str("\\\\"),
        b' '..=b'~' => f.write_char(char::from(byte)),
        _ => write!(f, "\\x{byte:02x}"),
    }
}
