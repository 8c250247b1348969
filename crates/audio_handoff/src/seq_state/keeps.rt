//! That each step of the cell keeps its rule: functions that do nothing, whose facts the steps need.
ghost use Rattle.std.specs.Prelude.{◌≡◌, ◌^◌, ◌<◌, [], ◌∷◌, length};
ghost use Rattle.crossbeam_utils.specs.Register.{Turns, Forks, Merges};
ghost use Rattle.crossbeam_utils.specs.Seq.{cell_view};
ghost use Rattle.audio_handoff.specs.SeqRule.{Kept, Opened, Published, WasRead, Checked, Ended, rows_in, reader_in, note_in, number_of, parted_left, parted_right, told_both, settled_both};
ghost use Rattle.audio_handoff.specs.declared.seq_state.plays.Known.TheVariants.{Blank, Both, Writes, Reads, Notes, Spent};

use super::plays::Known;
use crossbeam_utils::atomic::seq_cell::Pass;

/// The rule holds before the opening row.
pub(super) fn may_begin<const W: usize>(words: &[u64; 16])
    requires { length words.now ≡ 16 }
    ensures { Kept W words.now (Blank ∷ []) }
{}

/// The opening row may be stored.
pub(super) fn may_open<const W: usize>(pass: &Pass<[u64; 16], Known>, words: &[u64; 16])
    requires blank { cell_view pass.now ≡ Blank }
    requires length { length words.now ≡ 16 }
    requires number { number_of words.now ≡ 0 }
    ensures { Turns (Kept W) pass.now.id (cell_view pass.now) (λ _. words.now) (Opened W) }
{}

/// The two ends may be parted.
pub(super) fn may_part<const W: usize>(pass: &Pass<[u64; 16], Known>)
    requires { cell_view pass.now ≡ Both (rows_in (cell_view pass.now)) (reader_in (cell_view pass.now)) }
    ensures { Forks (Kept W) pass.now.id (cell_view pass.now) (parted_left (cell_view pass.now)) (parted_right (cell_view pass.now)) }
{}

/// The next row may be stored.
pub(super) fn may_publish<const W: usize>(pass: &Pass<[u64; 16], Known>, words: &[u64; 16])
    requires writer { cell_view pass.now ≡ Writes (rows_in (cell_view pass.now)) }
    requires room { length (rows_in (cell_view pass.now)) < 2 ^ 60 }
    requires length { length words.now ≡ 16 }
    requires number { number_of words.now ≡ length (rows_in (cell_view pass.now)) }
    ensures { Turns (Kept W) pass.now.id (cell_view pass.now) (λ _. words.now) (Published W) }
{}

/// The row may be read.
pub(super) fn may_read<const W: usize>(pass: &Pass<[u64; 16], Known>)
    requires { cell_view pass.now ≡ Reads (reader_in (cell_view pass.now)) }
    ensures { Turns (Kept W) pass.now.id (cell_view pass.now) (λ x. x) (WasRead W) }
{}

/// All that a note knows may go to a new pass.
pub(super) fn may_move_note<const W: usize>(pass: &Pass<[u64; 16], Known>)
    requires { cell_view pass.now ≡ Notes (note_in (cell_view pass.now)) }
    ensures { Forks (Kept W) pass.now.id (cell_view pass.now) Spent (cell_view pass.now) }
{}

/// All that a reader knows may go to a new pass.
pub(super) fn may_move_reader<const W: usize>(pass: &Pass<[u64; 16], Known>)
    requires { cell_view pass.now ≡ Reads (reader_in (cell_view pass.now)) }
    ensures { Forks (Kept W) pass.now.id (cell_view pass.now) Spent (cell_view pass.now) }
{}

/// The reader may take in a note.
pub(super) fn may_tell<const W: usize>(pass: &Pass<[u64; 16], Known>, note: &Pass<[u64; 16], Known>)
    requires reader { cell_view pass.now ≡ Reads (reader_in (cell_view pass.now)) }
    requires note { cell_view note.now ≡ Notes (note_in (cell_view note.now)) }
    ensures { Merges (Kept W) pass.now.id (cell_view pass.now) note.now.id (cell_view note.now) (told_both (cell_view pass.now) (cell_view note.now)) Spent }
{}

/// The reader may look after a join.
pub(super) fn may_check<const W: usize>(pass: &Pass<[u64; 16], Known>)
    requires { cell_view pass.now ≡ Reads (reader_in (cell_view pass.now)) }
    ensures { Turns (Kept W) pass.now.id (cell_view pass.now) (λ x. x) Checked }
{}

/// The writer may take in the reader.
pub(super) fn may_settle<const W: usize>(
    pass: &Pass<[u64; 16], Known>,
    reader: &Pass<[u64; 16], Known>,
)
    requires writer { cell_view pass.now ≡ Writes (rows_in (cell_view pass.now)) }
    requires reader { cell_view reader.now ≡ Reads (reader_in (cell_view reader.now)) }
    ensures { Merges (Kept W) pass.now.id (cell_view pass.now) reader.now.id (cell_view reader.now) (settled_both (cell_view pass.now) (cell_view reader.now)) Spent }
{}

/// The last row may be loaded.
pub(super) fn may_end<const W: usize>(pass: &Pass<[u64; 16], Known>)
    requires { cell_view pass.now ≡ Both (rows_in (cell_view pass.now)) (reader_in (cell_view pass.now)) }
    ensures { Turns (Kept W) pass.now.id (cell_view pass.now) (λ x. x) (Ended W) }
{}
