//! Where a text is outside its grammar.

/// The first line at fault, counted from 1, with those that are passed over.
#[derive(Clone, Copy, Debug, PartialEq, Eq)]
pub struct BadLine {
    pub line: u32,
}
