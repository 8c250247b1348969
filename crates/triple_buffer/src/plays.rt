//! Every kind of atomic step, and what it tells the seat that takes it.
//!
//! Each raises the steps of the seat that takes it by one. No view changes but that seat's, and at a join the one of
//! the seat that is taken in.
ghost use Rattle.std.specs.Prelude.{ℕ};
ghost use Rattle.triple_buffer.specs.declared.views.View.TheVariants.{Opens, Spent};
ghost use Rattle.triple_buffer.specs.Rule.{Kept};
ghost use Rattle.triple_buffer.specs.Steps.{Stored, Shown, Looked, Turned, Loaded, Finished, Checked};
ghost use Rattle.triple_buffer.specs.Views.{opened_left, opened_right, noted_left, noted_right, told_both, settled_both};

use crate::views::View;
use atomic_table::{Join, Play, Split, TableRule};

/// The rule of the three rows. The table is told the opening row.
pub struct ThreeRows;

impl<const W: usize> TableRule<(), View, [u64; W]> for ThreeRows {
    ghost holds = { Kept };

    ghost first = { Opens };
}

/// The opening split: the first seat becomes the writer, and the new one is the reader.
pub struct Open;

impl Split<View> for Open {
    ghost left = { opened_left };

    ghost right = { opened_right };
}

/// The writer stores a word into its row.
pub struct Store;

impl Play<(), View> for Store {
    ghost then = { Stored };
}

/// The writer swaps the state word: its row is handed over, and the old back row is its own.
pub struct Show;

impl Play<(), View> for Show {
    ghost then = { Shown };
}

/// The reader loads the state word.
pub struct Look;

impl Play<(), View> for Look {
    ghost then = { Looked };
}

/// The reader swaps the state word, having found it fresh: the old back row is its own.
pub struct Turn;

impl Play<(), View> for Turn {
    ghost then = { Turned };
}

/// The reader loads a word of its row.
pub struct Load;

impl Play<(), View> for Load {
    ghost then = { Loaded };
}

/// The reader loads the last word of its row, which ends the read.
pub struct LastLoad;

impl Play<(), View> for LastLoad {
    ghost then = { Finished };
}

/// A seat is split for a note: the writer's, the reader's outside a read, or a note's.
pub struct Note;

impl Split<View> for Note {
    ghost left = { noted_left };

    ghost right = { noted_right };
}

/// The reader takes in a note, outside a read.
pub struct Tell;

impl Join<View> for Tell {
    ghost both = { told_both };

    ghost spent = { Spent };
}

/// The reader loads the state word after a join: what the note's maker had read, it has read.
pub struct Check;

impl Play<(), View> for Check {
    ghost then = { Checked };
}

/// The writer takes in the reader, at the end.
pub struct Settle;

impl Join<View> for Settle {
    ghost both = { settled_both };

    ghost spent = { Spent };
}
