//! The steps of a call: a word each of one row, a look with the swap that may follow it, and the load after a join.
ghost use Rattle.std.specs.Prelude.{◌≡◌, ◌+◌, ◌<◌, []};
ghost use Rattle.audio_handoff.specs.Cell.{Grows};
ghost use Rattle.triple_buffer.specs.Tokens.{RestsAsReader, HasCaughtUp};
ghost use Rattle.triple_buffer.specs.declared.views.Phase.TheVariants.{Loading};
ghost use Rattle.triple_buffer.specs.declared.views.View.TheVariants.{Reads, Writes};
ghost use Rattle.triple_buffer.specs.Views.{writer_in, reader_in, after_stores, after_read, reader_stepped};

use super::Triple;
use crate::plays::{Check, LastLoad, Load, Look, Store, Turn};
use crate::views::View;
use crate::word::StateWord;
use atomic_table::Seat;

impl<const W: usize> Triple<W> {
    /// Stores the row's words into the writer's row, a step each.
    pub(super) fn store(&self, seat: &mut Seat<(), View>, place: usize, row: &[u64; W])
        requires table { seat.old.table_id ≡ self.now.table.shared.table_id }
        requires writer { seat.old.me.0 ≡ Writes (writer_in seat.old.me.0) }
        requires place { ((writer_in seat.old.me.0).place ≡ place) × (place < 3) }
        requires empty { (writer_in seat.old.me.0).stored ≡ [] }
        ensures table { (seat.new.table_id ≡ seat.old.table_id) × (seat.new.me.1 ≡ seat.old.me.1) }
        ensures stored { seat.new.me.0 ≡ Writes (after_stores (writer_in seat.old.me.0) row.now W) }
    {
        for i in 0..W {
            self.table
                .shared
                .store::<Store>(seat, place * W + 1 + i, row[i]);
        }
    }

    /// Looks, and takes the back row where it is new to the reader. Answers the reader's row and its number.
    pub(super) fn catch_up(
        &self,
        seat: &mut Seat<(), View>,
        place: usize,
        number: u64,
    ) -> (usize, u64)
        requires table { seat.old.table_id ≡ self.now.table.shared.table_id }
        requires rests { RestsAsReader place number seat.old.me }
        ensures table { seat.new.table_id ≡ seat.old.table_id }
        ensures caught_up { HasCaughtUp seat.old.me seat.new.me result.0 result.1 }
    {
        let shared = &self.table.shared;
        let looked = StateWord::unpack(shared.load::<Look>(seat, 0));
        if !looked.fresh {
            return (place, number);
        }
        let own = StateWord {
            number,
            fresh: false,
            back: place,
        };
        let taken = StateWord::unpack(shared.swap::<Turn>(seat, 0, own.pack()));
        (taken.back, taken.number)
    }

    /// Loads the words of the reader's row, a step each. The last one ends the read.
    pub(super) fn gather(&self, seat: &mut Seat<(), View>, place: usize) -> [u64; W]
        requires table { seat.old.table_id ≡ self.now.table.shared.table_id }
        requires reader { seat.old.me.0 ≡ Reads (reader_in seat.old.me.0) }
        requires place { ((reader_in seat.old.me.0).place ≡ place) × (place < 3) }
        requires loading { ((reader_in seat.old.me.0).phase ≡ Loading) × ((reader_in seat.old.me.0).loaded ≡ []) }
        ensures table { (seat.new.table_id ≡ seat.old.table_id) × (seat.new.me.1 ≡ seat.old.me.1) }
        ensures read { seat.new.me.0 ≡ Reads (after_read (reader_in seat.old.me.0) result W) }
    {
        let shared = &self.table.shared;
        let last = W - 1;
        let mut row = [0u64; W];
        for i in 0..last {
            row[i] = shared.load::<Load>(seat, place * W + 1 + i);
        }
        row[last] = shared.load::<LastLoad>(seat, place * W + 1 + last);
        row
    }

    /// A load after a join: what the note's maker had read, this reader has read.
    pub(super) fn check(&self, seat: &mut Seat<(), View>)
        requires table { seat.old.table_id ≡ self.now.table.shared.table_id }
        requires reader { seat.old.me.0 ≡ Reads (reader_in seat.old.me.0) }
        ensures table { (seat.new.table_id ≡ seat.old.table_id) × (seat.new.me.1 ≡ seat.old.me.1) }
        ensures same { seat.new.me.0 ≡ Reads (reader_stepped (reader_in seat.old.me.0)) }
        ensures heard { Grows (reader_in seat.old.me.0).heard (reader_in seat.old.me.0).seen }
    {
        self.table.shared.load::<Check>(seat, 0);
    }
}
