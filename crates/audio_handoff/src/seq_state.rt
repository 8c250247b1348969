//! A cell that may wait: one cell of 16 words, the row first and its number last.
ghost use Rattle.std.specs.Prelude.{◌≡◌, ◌+◌, ◌<◌, [], length, IfOk, IfErr};
ghost use Rattle.std.specs.Result.{IsOk};
ghost use Rattle.crossbeam_utils.specs.Seq.{cell_view};
ghost use Rattle.audio_handoff.specs.Cell.{HasSameReads, HasSameRows, IsNoteOfReader, IsNoteOfWriter};
ghost use Rattle.audio_handoff.specs.SeqRule.{RestsAsWriter, RestsAsReader, RestsAsNote, row_of, number_of, writing_of, reading_of, noting_of};

use crate::cell::{Read, StateCell};
use crossbeam_utils::atomic::seq_cell::{Pass, RuledSeqCell};
use keeps::{
    may_begin, may_check, may_end, may_move_note, may_move_reader, may_open, may_part, may_publish,
    may_read, may_settle, may_tell,
};
use plays::{Check, End, Known, LastRow, Look, Note, Open, Part, Publish, Settle, Tell, Whole};
use std::alloc::{AllocError, Global};
use std::marker::PhantomData;
use std::sync::Wait;

mod keeps;
mod plays;

/// A cell of rows of `W` words, from 1 to 15. A call that reads or writes the words may wait for another one, through
/// the runtime's handle.
#[derive(Drop)]
pub struct SeqState<R: Wait, const W: usize> {
    cell: RuledSeqCell<[u64; 16], Known, LastRow<W>, 16>,
    runtime: PhantomData<R>,
    ghost wide: { (0 < W) × (W < 16) },
}

/// The right to make rows.
#[derive(Drop)]
pub struct SeqWriter {
    /// How many rows were made.
    made: u64,
    pass: Pass<[u64; 16], Known>,
    ghost rests: { RestsAsWriter made (cell_view pass) },
}

/// The right to read rows.
#[derive(Drop)]
pub struct SeqReader {
    /// The number last read.
    number: u64,
    pass: Pass<[u64; 16], Known>,
    ghost rests: { RestsAsReader number (cell_view pass) },
}

/// A number on its way to the reader. It has no bytes.
#[derive(Drop)]
pub struct SeqNote {
    pass: Pass<[u64; 16], Known>,
    ghost rests: { RestsAsNote (cell_view pass) },
}

/// The words of a row and its number.
fn words_of(row: &[u64], number: u64) -> [u64; 16]
    requires { length row.now < 16 }
    ensures row { row_of (length row.now) result ≡ row.now }
    ensures number { number_of result ≡ number }
    ensures length { length result ≡ 16 }
{
    let mut words = [0u64; 16];
    words[..row.len()].copy_from_slice(row);
    words[15] = number;
    words
}

impl<R: Wait, const W: usize> StateCell<W> for SeqState<R, W> {
    ghost use Rattle.std.specs.Prelude.{false};

    type Way = R;

    type Writer = SeqWriter;

    type Reader = SeqReader;

    type Note = SeqNote;

    ghost cell = { λ t. t.cell.table.shared.table_id };

    ghost writing = { λ t. writing_of t.pass.table_id (cell_view t.pass) };

    ghost reading = { λ t. reading_of t.pass.table_id (cell_view t.pass) };

    ghost noting = { λ t. noting_of t.pass.table_id (cell_view t.pass) };

    ghost tells_steps = { false };

    fn make(
        alloc: Global,
        way: &R,
        row: &[u64],
    ) -> Result<(SeqState<R, W>, SeqWriter, SeqReader), AllocError> {
        let empty = [0u64; 16];
        may_begin::<W>(&empty);
        let (cell, mut pass) = RuledSeqCell::ruled(alloc, empty)?;
        let words = words_of(row, 0);
        may_open::<W>(&pass, &words);
        cell.swap_as::<Open<W>, R>(way, &mut pass, words);
        may_part::<W>(&pass);
        let reader = cell.split_pass::<Part>(&mut pass);
        Ok((
            SeqState {
                cell,
                runtime: PhantomData,
            },
            SeqWriter { made: 1, pass },
            SeqReader {
                number: 0,
                pass: reader,
            },
        ))
    }

    fn publish(&self, way: &R, writer: &mut SeqWriter, row: &[u64; W]) -> u64 {
        let SeqWriter { made, pass } = writer;
        let number = *made;
        let words = words_of(row, number);
        may_publish::<W>(pass, &words);
        self.cell.swap_as::<Publish<W>, R>(way, pass, words);
        *made = number + 1;
        number
    }

    fn is_spent(&self, writer: &SeqWriter) -> bool {
        writer.made == 1 << 60
    }

    fn read(&self, way: &R, reader: &mut SeqReader) -> Read<W> {
        let SeqReader { number, pass } = reader;
        may_read::<W>(pass);
        let words = self.cell.load_as::<Look<W>, R>(way, pass);
        *number = words[15];
        let mut row = [0u64; W];
        row.copy_from_slice(&words[..W]);
        Read {
            number: words[15],
            row,
        }
    }

    /// It never takes memory.
    #[tactic(auto, using(crate::proofs::SeqSteps::notes_of_writer))]
    fn note_of_writer(
        &self,
        _alloc: Global,
        _way: &R,
        writer: &mut SeqWriter,
    ) -> Result<SeqNote, AllocError>
        requires { writer.old.pass.table_id ≡ self.now.cell.table.shared.table_id }
        ensures made { IsOk result }
        ensures note { IfOk result (λ note. IsNoteOfWriter self.now.cell.table.shared.table_id (writing_of writer.old.pass.table_id (cell_view writer.old.pass)) (noting_of note.pass.table_id (cell_view note.pass))) }
        ensures writer { HasSameRows (writing_of writer.old.pass.table_id (cell_view writer.old.pass)) (writing_of writer.new.pass.table_id (cell_view writer.new.pass)) }
        ensures refused { IfErr result (λ _. writing_of writer.new.pass.table_id (cell_view writer.new.pass) ≡ writing_of writer.old.pass.table_id (cell_view writer.old.pass)) }
    {
        let SeqWriter { made: _, pass } = writer;
        Ok(SeqNote {
            pass: self.cell.split_pass::<Note>(pass),
        })
    }

    /// It never takes memory.
    #[tactic(auto, using(crate::proofs::SeqSteps::notes_of_reader))]
    fn note_of_reader(
        &self,
        _alloc: Global,
        _way: &R,
        reader: &mut SeqReader,
    ) -> Result<SeqNote, AllocError>
        requires { reader.old.pass.table_id ≡ self.now.cell.table.shared.table_id }
        ensures made { IsOk result }
        ensures note { IfOk result (λ note. IsNoteOfReader self.now.cell.table.shared.table_id (reading_of reader.old.pass.table_id (cell_view reader.old.pass)) (noting_of note.pass.table_id (cell_view note.pass))) }
        ensures reader { HasSameReads (reading_of reader.old.pass.table_id (cell_view reader.old.pass)) (reading_of reader.new.pass.table_id (cell_view reader.new.pass)) }
        ensures refused { IfErr result (λ _. reading_of reader.new.pass.table_id (cell_view reader.new.pass) ≡ reading_of reader.old.pass.table_id (cell_view reader.old.pass)) }
    {
        let SeqReader { number: _, pass } = reader;
        Ok(SeqNote {
            pass: self.cell.split_pass::<Note>(pass),
        })
    }

    /// It never takes memory.
    #[tactic(auto, using(crate::proofs::SeqSteps::copies_note))]
    fn copy_note(&self, _alloc: Global, _way: &R, note: &mut SeqNote) -> Result<SeqNote, AllocError>
        requires { note.old.pass.table_id ≡ self.now.cell.table.shared.table_id }
        ensures made { IsOk result }
        ensures copy { IfOk result (λ copy. noting_of copy.pass.table_id (cell_view copy.pass) ≡ noting_of note.old.pass.table_id (cell_view note.old.pass)) }
        ensures note { noting_of note.new.pass.table_id (cell_view note.new.pass) ≡ noting_of note.old.pass.table_id (cell_view note.old.pass) }
    {
        let SeqNote { pass } = note;
        Ok(SeqNote {
            pass: self.cell.split_pass::<Note>(pass),
        })
    }

    fn tell(&self, way: &R, reader: &mut SeqReader, note: SeqNote) {
        let SeqReader { number: _, pass } = reader;
        let SeqNote { pass: mut noted } = note;
        may_move_note::<W>(&noted);
        let whole = self.cell.split_pass::<Whole>(&mut noted);
        may_tell::<W>(pass, &whole);
        self.cell.join_pass::<Tell>(pass, whole);
        may_check::<W>(pass);
        self.cell.load_as::<Check, R>(way, pass);
    }

    fn settle(self, way: &R, writer: SeqWriter, reader: SeqReader) -> Read<W> {
        let SeqWriter { made: _, mut pass } = writer;
        let SeqReader {
            number: _,
            pass: mut read,
        } = reader;
        may_move_reader::<W>(&read);
        let whole = self.cell.split_pass::<Whole>(&mut read);
        may_settle::<W>(&pass, &whole);
        self.cell.join_pass::<Settle>(&mut pass, whole);
        may_end::<W>(&pass);
        let words = self.cell.load_as::<End<W>, R>(way, &mut pass);
        let mut row = [0u64; W];
        row.copy_from_slice(&words[..W]);
        let number = words[15];
        Read { number, row }
    }

    fn last_read(&self, reader: &SeqReader) -> u64 {
        reader.number
    }
}
