//! The triple buffer, and its calls.
ghost use Rattle.std.specs.Prelude.{◌≡◌, ◌+◌, [], ◌∷◌, ◌<◌, length, true, IfOk, IfErr};
ghost use Rattle.std.specs.Result.{IsOk};
ghost use Rattle.audio_handoff.specs.Cell.{HasSameReads, HasSameRows, IsNoteOfReader, IsNoteOfWriter};
ghost use Rattle.triple_buffer.specs.Tokens.{IsThreeRows, writing_of, reading_of, noting_of};

use crate::plays::{Note, Open, Settle, Show, Tell, ThreeRows};
use crate::tokens::{TripleNote, TripleReader, TripleWriter};
use crate::views::View;
use crate::word::StateWord;
use atomic_table::Table;
use audio_handoff::{Read, StateCell};
use settle::{copy_row, newest};
use std::alloc::{AllocError, Global};

mod settle;
mod steps;

/// A cell of rows of `W` words, from 1 to 15, on one table of atomic words. No call waits, and none but `make` takes
/// memory.
#[derive(Drop)]
pub struct Triple<const W: usize> {
    table: Table<(), View, [u64; W], ThreeRows, Global>,
    ghost wide: { IsThreeRows W table.shared.table_id table.shared.key },
}

/// A triple buffer tells its steps, of which each call promises how many it takes: a publish of W words W + 1 of the writer, and a read
/// W + 1 or W + 2 of the reader.
pub fn triple_tells_its_steps<const W: usize>()
    ensures { ⟦<Triple<W> as StateCell<W>>⟧.tells_steps ≡ true }
{}

impl<const W: usize> StateCell<W> for Triple<W> {
    type Way = ();

    type Writer = TripleWriter<W>;

    type Reader = TripleReader<W>;

    type Note = TripleNote<W>;

    ghost cell = { λ t. t.table.shared.table_id };

    ghost writing = { λ t. writing_of t.seat.table_id t.seat.me.0 };

    ghost reading = { λ t. reading_of t.seat.table_id t.seat.me.0 };

    ghost noting = { λ t. noting_of t.seat.table_id t.seat.me.0 };

    ghost tells_steps = { true };

    fn make(
        alloc: Global,
        _way: &(),
        row: &[u64],
    ) -> Result<(Triple<W>, TripleWriter<W>, TripleReader<W>), AllocError> {
        let mut key = [0u64; W];
        key.copy_from_slice(row);
        let mut words = Vec::new(alloc);
        words.push(1)?;
        words.extend_from_slice(&key)?;
        words.extend_from_slice(&key)?;
        words.extend_from_slice(&key)?;
        let (table, mut seat) = Table::of_words(alloc, words.as_slice(), &key)?;
        let reader = table.shared.split_seat::<Open>(&mut seat);
        Ok((
            Triple { table },
            TripleWriter {
                place: 2,
                made: 1,
                seat,
            },
            TripleReader {
                place: 0,
                number: 0,
                seat: reader,
            },
        ))
    }

    fn publish(&self, _way: &(), writer: &mut TripleWriter<W>, row: &[u64; W]) -> u64 {
        let TripleWriter { place, made, seat } = writer;
        let number = *made;
        self.store(seat, *place, row);
        let shown = StateWord {
            number,
            fresh: true,
            back: *place,
        };
        let found = self.table.shared.swap::<Show>(seat, 0, shown.pack());
        *place = StateWord::unpack(found).back;
        *made = number + 1;
        number
    }

    fn is_spent(&self, writer: &TripleWriter<W>) -> bool {
        writer.made == 1 << 60
    }

    fn read(&self, _way: &(), reader: &mut TripleReader<W>) -> Read<W> {
        let TripleReader {
            place,
            number,
            seat,
        } = reader;
        let (own, newest) = self.catch_up(seat, *place, *number);
        let row = self.gather(seat, own);
        *place = own;
        *number = newest;
        Read {
            number: newest,
            row,
        }
    }

    /// It never takes memory.
    fn note_of_writer(
        &self,
        _alloc: Global,
        _way: &(),
        writer: &mut TripleWriter<W>,
    ) -> Result<TripleNote<W>, AllocError>
        requires { writer.old.seat.table_id ≡ self.now.table.shared.table_id }
        ensures made { IsOk result }
        ensures note { IfOk result (λ note. IsNoteOfWriter self.now.table.shared.table_id (writing_of writer.old.seat.table_id writer.old.seat.me.0) (noting_of note.seat.table_id note.seat.me.0)) }
        ensures writer { HasSameRows (writing_of writer.old.seat.table_id writer.old.seat.me.0) (writing_of writer.new.seat.table_id writer.new.seat.me.0) }
        ensures refused { IfErr result (λ _. writing_of writer.new.seat.table_id writer.new.seat.me.0 ≡ writing_of writer.old.seat.table_id writer.old.seat.me.0) }
    {
        let TripleWriter {
            place: _,
            made: _,
            seat,
        } = writer;
        Ok(TripleNote {
            seat: self.table.shared.split_seat::<Note>(seat),
        })
    }

    /// It never takes memory.
    fn note_of_reader(
        &self,
        _alloc: Global,
        _way: &(),
        reader: &mut TripleReader<W>,
    ) -> Result<TripleNote<W>, AllocError>
        requires { reader.old.seat.table_id ≡ self.now.table.shared.table_id }
        ensures made { IsOk result }
        ensures note { IfOk result (λ note. IsNoteOfReader self.now.table.shared.table_id (reading_of reader.old.seat.table_id reader.old.seat.me.0) (noting_of note.seat.table_id note.seat.me.0)) }
        ensures reader { HasSameReads (reading_of reader.old.seat.table_id reader.old.seat.me.0) (reading_of reader.new.seat.table_id reader.new.seat.me.0) }
        ensures refused { IfErr result (λ _. reading_of reader.new.seat.table_id reader.new.seat.me.0 ≡ reading_of reader.old.seat.table_id reader.old.seat.me.0) }
    {
        let TripleReader {
            place: _,
            number: _,
            seat,
        } = reader;
        Ok(TripleNote {
            seat: self.table.shared.split_seat::<Note>(seat),
        })
    }

    /// It never takes memory.
    fn copy_note(
        &self,
        _alloc: Global,
        _way: &(),
        note: &mut TripleNote<W>,
    ) -> Result<TripleNote<W>, AllocError>
        requires { note.old.seat.table_id ≡ self.now.table.shared.table_id }
        ensures made { IsOk result }
        ensures copy { IfOk result (λ copy. noting_of copy.seat.table_id copy.seat.me.0 ≡ noting_of note.old.seat.table_id note.old.seat.me.0) }
        ensures note { noting_of note.new.seat.table_id note.new.seat.me.0 ≡ noting_of note.old.seat.table_id note.old.seat.me.0 }
    {
        let TripleNote { seat } = note;
        Ok(TripleNote {
            seat: self.table.shared.split_seat::<Note>(seat),
        })
    }

    fn tell(&self, _way: &(), reader: &mut TripleReader<W>, note: TripleNote<W>) {
        let TripleReader {
            place: _,
            number: _,
            seat,
        } = reader;
        let TripleNote { seat: other } = note;
        self.table.shared.join_seat::<Tell>(seat, other);
        self.check(seat);
    }

    fn settle(self, _way: &(), writer: TripleWriter<W>, reader: TripleReader<W>) -> Read<W> {
        let TripleWriter {
            place: _,
            made: _,
            mut seat,
        } = writer;
        let TripleReader {
            place,
            number,
            seat: other,
        } = reader;
        let Triple { table } = self;
        table.shared.join_seat::<Settle>(&mut seat, other);
        let closed = table.close_with(seat);
        let (last, newest) = newest(closed.word(0), place, number);
        let mut row = [0u64; W];
        copy_row(&closed, last, &mut row);
        closed.free();
        Read {
            number: newest,
            row,
        }
    }

    fn last_read(&self, reader: &TripleReader<W>) -> u64 {
        reader.number
    }
}
