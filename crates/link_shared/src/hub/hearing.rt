//! What the applications' passes that were handed in knew.
ghost use Rattle.std.specs.Prelude.{◌≡◌, true, All, map};
ghost use Rattle.crossbeam_queue.specs.Passes.{view, IsSamePass, IsPassOf};
ghost use Rattle.link_shared.specs.Draining.{WasHeard};
ghost use Rattle.link_shared.specs.Handed.{IsOf, AreHanded, WasTold, app_view_of};

use crate::hub::HandedPass;
use crate::name::LinkName;
use crate::queue::{Queue, QueuePass, hear_pass};
use audio_handoff::StateCell;
use std::sync::ledger::{Book, Share};

// Counts the share of all passes handed in against the book, and hears each pass. Of the pass that was the only one the share is its own.
// Waits: by the way. Memory: none.
pub(crate) fn hear_all<C: StateCell<11>, N: LinkName>(
    queue: &Queue,
    own: &mut QueuePass,
    book: &mut Book<N>,
    cell: &C,
    way: &C::Way,
    reader: &mut C::Reader,
    handed: Vec<HandedPass<C>>,
    mut share: Share<N>,
)
    requires queue { (queue.now.table.shared.table_id ≡ N.queue) × IsPassOf queue.now own.old }
    requires pushes { (view own.old).pushes ≡ true }
    requires cell { (C.cell cell.now ≡ N.app_states) × ((C.reading reader.old).cell ≡ N.app_states) }
    requires handed { AreHanded N.app_states N.queue N.whole N.parts handed.items share.parts share.amount }
    ensures own { IsSamePass own.old own.new }
    ensures pushed { ((view own.new).pushes ≡ true) × ((view own.new).pushed ≡ (view own.old).pushed) }
    ensures total { book.new.total ≡ book.old.total }
    ensures reader { ((C.reading reader.new).cell ≡ N.app_states) × ((C.reading reader.new).seen ≡ (C.reading reader.old).seen) }
    ensures heard { All (WasHeard (C.reading reader.old).seen (view own.old).pushed book.old.total)
        (map (app_view_of N.whole) handed.items) }
{
    book.audit(&mut share);
    hear_each::<C, N>(queue, own, cell, way, reader, handed);
}

// Hears each pass, the last one first.
// Waits: by the way. Memory: none.
fn hear_each<C: StateCell<11>, N: LinkName>(
    queue: &Queue,
    own: &mut QueuePass,
    cell: &C,
    way: &C::Way,
    reader: &mut C::Reader,
    mut handed: Vec<HandedPass<C>>,
)
    requires queue { (queue.now.table.shared.table_id ≡ N.queue) × IsPassOf queue.now own.old }
    requires pushes { (view own.old).pushes ≡ true }
    requires cell { (C.cell cell.now ≡ N.app_states) × ((C.reading reader.old).cell ≡ N.app_states) }
    requires handed { All (IsOf N.app_states N.queue) handed.items }
    ensures own { IsSamePass own.old own.new }
    ensures pushed { ((view own.new).pushes ≡ true) × ((view own.new).pushed ≡ (view own.old).pushed) }
    ensures reader { ((C.reading reader.new).cell ≡ N.app_states) × ((C.reading reader.new).seen ≡ (C.reading reader.old).seen) }
    ensures told { All (WasTold (C.reading reader.old).seen (view own.old).pushed) handed.items }
{
    while let Some(pass) = handed.pop() {
        hear::<C, N>(queue, own, cell, way, reader, pass);
    }
}

// Tells the pass's note to the reader, and takes in what it knew of the commits pushed.
// Waits: by the way. Memory: none.
fn hear<C: StateCell<11>, N: LinkName>(
    queue: &Queue,
    own: &mut QueuePass,
    cell: &C,
    way: &C::Way,
    reader: &mut C::Reader,
    pass: HandedPass<C>,
)
    requires queue { (queue.now.table.shared.table_id ≡ N.queue) × IsPassOf queue.now own.old }
    requires pushes { (view own.old).pushes ≡ true }
    requires cell { (C.cell cell.now ≡ N.app_states) × ((C.reading reader.old).cell ≡ N.app_states) }
    requires pass { IsOf N.app_states N.queue pass }
    ensures own { IsSamePass own.old own.new }
    ensures pushed { ((view own.new).pushes ≡ true) × ((view own.new).pushed ≡ (view own.old).pushed) }
    ensures reader { ((C.reading reader.new).cell ≡ N.app_states) × ((C.reading reader.new).seen ≡ (C.reading reader.old).seen) }
    ensures told { WasTold (C.reading reader.old).seen (view own.old).pushed pass }
{
    let HandedPass {
        note,
        pass: known,
        ..
    } = pass;
    cell.tell(way, reader, note);
    hear_pass(queue, own, known);
}
