//! What a pass of the cell knows, its rule, and what each step tells.
ghost use Rattle.audio_handoff.specs.SeqRule.{Kept, Opened, Published, WasRead, Checked, Ended, parted_left, parted_right, noted_left, noted_right, told_both, settled_both};
ghost use Rattle.audio_handoff.specs.declared.seq_state.plays.Known.TheVariants.{Blank, Spent};

use atomic_table::{Join, Split};
use crossbeam_utils::rule::{Outcome, Protocol};
use std::collections::LinkedList;

/// A reader: the number that it last read, what it has read and was told, and the list of the last note. No value of it
/// is made.
pub struct ReaderKnown {
    pub number: u64,
    pub seen: LinkedList<(u64, LinkedList<u64>)>,
    pub looks: LinkedList<u64>,
    pub told: u64,
    pub heard: LinkedList<(u64, LinkedList<u64>)>,
}

/// A note: a number, and what the reader had read. No value of it is made.
pub struct NoteKnown {
    pub number: u64,
    pub seen: LinkedList<(u64, LinkedList<u64>)>,
}

/// What a pass knows. No value of it is made.
pub enum Known {
    /// The first pass, before there is a row.
    Blank,
    /// Both ends in one hand, at the start and at the end: the rows made, and the reader.
    Both(LinkedList<LinkedList<u64>>, ReaderKnown),
    Writes(LinkedList<LinkedList<u64>>),
    Reads(ReaderKnown),
    Notes(NoteKnown),
    /// A pass whose knowledge went to another.
    Spent,
}

/// The rule of a cell that holds the last row in its first `W` words, and that row's number in its last word.
pub struct LastRow<const W: usize>;

impl<const W: usize> Protocol<[u64; 16], Known> for LastRow<W> {
    ghost holds = { Kept W };

    ghost first = { Blank };
}

/// The opening row is stored.
pub struct Open<const W: usize>;

impl<const W: usize> Outcome<[u64; 16], Known> for Open<W> {
    ghost then = { Opened W };
}

/// The two ends are parted.
pub struct Part;

impl Split<Known> for Part {
    ghost left = { parted_left };

    ghost right = { parted_right };
}

/// The writer stores a row.
pub struct Publish<const W: usize>;

impl<const W: usize> Outcome<[u64; 16], Known> for Publish<W> {
    ghost then = { Published W };
}

/// The reader loads the row.
pub struct Look<const W: usize>;

impl<const W: usize> Outcome<[u64; 16], Known> for Look<W> {
    ghost then = { WasRead W };
}

/// A note is split off.
pub struct Note;

impl Split<Known> for Note {
    ghost left = { noted_left };

    ghost right = { noted_right };
}

/// All that a pass knows goes to a new pass, which has made no call and so can be joined.
pub struct Whole;

impl Split<Known> for Whole {
    ghost left = { λ _. Spent };

    ghost right = { λ view. view };
}

/// The reader takes in a note.
pub struct Tell;

impl Join<Known> for Tell {
    ghost both = { told_both };

    ghost spent = { Spent };
}

/// The reader loads the row after a join: what the note's maker had read, it has read.
pub struct Check;

impl Outcome<[u64; 16], Known> for Check {
    ghost then = { Checked };
}

/// The writer takes in the reader, at the end.
pub struct Settle;

impl Join<Known> for Settle {
    ghost both = { settled_both };

    ghost spent = { Spent };
}

/// The last row is loaded, with both ends in one hand.
pub struct End<const W: usize>;

impl<const W: usize> Outcome<[u64; 16], Known> for End<W> {
    ghost then = { Ended W };
}
