//! What a seat of the table knows. No value of these types is made.
use std::collections::LinkedList;

/// Where a reader is in a read.
pub enum Phase {
    Idle,
    /// It has looked, and the back row is new to it.
    SawNew,
    /// It loads the words of its row.
    Loading,
}

/// A writer: which row it has, the rows made, the words stored for the next one, and its steps.
pub struct WriterState {
    pub place: u64,
    pub made: LinkedList<LinkedList<u64>>,
    pub stored: LinkedList<u64>,
    pub steps: u64,
}

/// A reader: which row it has and that row's number, how far it is in a read, what it has read and was told, and its
/// steps.
pub struct ReaderState {
    pub place: u64,
    pub number: u64,
    pub phase: Phase,
    pub loaded: LinkedList<u64>,
    pub seen: LinkedList<(u64, LinkedList<u64>)>,
    pub looks: LinkedList<u64>,
    pub told: u64,
    pub heard: LinkedList<(u64, LinkedList<u64>)>,
    pub steps: u64,
}

/// A note: a number, and what the reader had read.
pub struct NoteState {
    pub number: u64,
    pub seen: LinkedList<(u64, LinkedList<u64>)>,
    pub steps: u64,
}

pub enum View {
    /// The first seat, which knows the opening row alone.
    Opens(LinkedList<u64>),
    Writes(WriterState),
    Reads(ReaderState),
    Notes(NoteState),
    /// Both ends in one hand.
    Settled(WriterState, ReaderState),
    /// A seat that was taken in by another.
    Spent,
}
