//! Why a text is not answered by its output.

use crate::reason::Reason;

/// Why a command did not take a text.
#[derive(Clone, Copy, Debug, PartialEq, Eq)]
pub enum TextFault {
    /// The first line outside the grammar, counted from 1, and why, in words for people.
    Line { line: u32, reason: Reason },
    /// There was no memory.
    Memory,
}
