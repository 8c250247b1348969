//! Spans of audio time, and the clicks that fall into one.

use arrayvec::ArrayVec;

/// A span of audio time: its start, and the microseconds from there on up to but not `start + length`.
#[derive(Clone, Copy, Debug, PartialEq, Eq)]
pub struct Block {
    /// The host time of its first microsecond.
    pub start: i64,
    /// How long it is, in microseconds.
    pub length: i64,
}

/// A whole beat that falls into a block.
#[derive(Clone, Copy, Debug, Default, PartialEq, Eq)]
pub struct Click {
    /// Its host time, in microseconds.
    pub at: i64,
    /// Whether it is on the first beat of the quantum.
    pub accent: bool,
}

/// The clicks of a block, in order of time. A second at the fastest tempo has 17.
pub type Clicks = ArrayVec<Click, 18>;
