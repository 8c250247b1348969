//! Why a line is at fault, in words for people: only that they are safe is proved of them.

use link_text::Found;
use std::fmt;

/// Why a line of an input is at fault. Its text is for people, as `column 3: expected a hex digit, found "g"`.
#[derive(Clone, Copy, Debug, PartialEq, Eq)]
pub enum Reason {
    /// Of a replay script.
    Script(link_text::Reason),
    /// Of a pair of a sample count and a host time.
    Pair(link_text::Reason),
    /// A character that is no hex digit, at a column counted in bytes from 1.
    NoDigit { column: u32, found: Found },
    /// Hex digits, an odd number of them: one is lacking at the column behind them.
    OddDigits { column: u32 },
}

impl fmt::Display for Reason {
    fn fmt<W: fmt::Write>(&self, f: &mut fmt::Formatter<W>) -> fmt::Result {
        match self {
            Reason::Script(reason) | Reason::Pair(reason) => write!(f, "{reason}"),
            Reason::NoDigit { column, found } => {
                write!(f, "column {column}: expected a hex digit, found {found}")
            }
            Reason::OddDigits { column } => write!(
                f,
                "column {column}: expected a second hex digit for the last byte, found the end of the line"
            ),
        }
    }
}
