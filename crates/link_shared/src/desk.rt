//! What lies under the applications' lock.
ghost use Rattle.std.specs.Prelude.{◌≡◌, ◌+◌, ◌<◌, ◌≤◌, ◌^◌, List, [], ◌∷◌, ◌++◌, length, true, IfOk, IfErr, OnOk, OnErr, MatchResult};
ghost use Rattle.crossbeam_queue.specs.Passes.{view};
ghost use Rattle.audio_handoff.specs.Cell.{Pair, NumbersNeverFall};
ghost use Rattle.client_state.specs.Commit.{IsTidyCommit};
ghost use Rattle.client_state.specs.declared.commit.Commit.{Commit};
ghost use Rattle.link_shared.specs.Desk.{NoneIsNewer, RestsAsReader};

use crate::capture::{Busy, QueueFull};
use crate::name::LinkName;
use crate::queue::{Item, Push, Queue, QueuePass, hear_pass, show_pass};
use audio_handoff::{Read, StateCell};
use client_state::Commit;
use std::alloc::{AllocError, Global};
use std::sync::Wait;
use std::sync::ledger::{Book, Share};

/// The one reader of the states for applications, the one pass that pushes, and the count and the ledger of the commits
/// pushed.
#[derive(Drop)]
pub struct Desk<C: StateCell<11>, N: LinkName> {
    pub(crate) reader: C::Reader,
    pub(crate) pass: QueuePass,
    /// How many commits were pushed.
    pub(crate) pushed: u64,
    pub(crate) book: Book<N>,
    ghost reader_is: { (C.reading reader).cell ≡ N.app_states },
    ghost never_falls: { NumbersNeverFall (C.reading reader).seen },
    ghost none_is_newer: { NoneIsNewer (C.reading reader).number (C.reading reader).seen },
    ghost pass_is: { (pass.table_id ≡ N.queue) × (pass.me.1 ≡ []) × ((view pass).pushes ≡ true) },
    ghost counted: { pushed ≡ length (view pass).pushed },
    ghost in_book: { book.total ≡ pushed },
    ghost numbers_fit: { pushed ≤ 2 ^ 60 },
}

impl<C: StateCell<11>, N: LinkName> Desk<C, N> {
    /// Reads a state that is no older than any that the note's maker had read, and has the note replaced by one of it.
    /// `known` is a copy of the note. Without memory the note stays.
    /// Waits: by the way. Memory: a note.
    pub(crate) fn read(
        &mut self,
        alloc: Global,
        way: &C::Way,
        cell: &C,
        known: C::Note,
        note: &mut C::Note,
    ) -> Result<Read<11>, AllocError>
        requires cell { C.cell cell.now ≡ N.app_states }
        requires known { (C.noting known).cell ≡ N.app_states }
        requires note { (C.noting note.old).cell ≡ N.app_states }
        ensures note { (C.noting note.new).cell ≡ N.app_states }
        ensures seen { IfOk result (λ read. (between : List Pair)
            × ((C.noting note.new).seen ≡ ((C.noting known).seen ++ between) ++ (read.number, read.row) ∷ [])) }
        ensures never_falls { IfOk result (λ _. NumbersNeverFall (C.noting note.new).seen) }
        ensures refused { OnErr result (C.noting note.new ≡ C.noting note.old) }
    {
        let Desk { reader, .. } = self;
        read_anew::<C>(reader, alloc, way, cell, known, note)
    }

    /// Pushes the commit under the next number, and lets the pass know all commits pushed by then.
    /// Waits: for a place's last user in the queue. Memory: none.
    pub(crate) fn commit<R: Wait>(
        &mut self,
        rt: &R,
        queue: &Queue,
        pass: &mut QueuePass,
        share: &mut Share<N>,
        commit: Commit,
    ) -> Result<u64, Busy>
        requires queue { queue.now.table.shared.table_id ≡ N.queue }
        requires pass { (pass.old.table_id ≡ N.queue) × (pass.old.me.1 ≡ []) }
        requires share { 0 < share.old.parts }
        requires commit { IsTidyCommit commit }
        ensures pass { (pass.new.table_id ≡ N.queue) × (pass.new.me.1 ≡ []) }
        ensures parts { share.new.parts ≡ share.old.parts }
        ensures quits { (view self.new.pass).quits_pushed ≡ (view self.old.pass).quits_pushed }
        ensures pushed { IfOk result (λ number. (between : List Commit)
            × ((view pass.new).pushed ≡ ((view pass.old).pushed ++ between) ++ commit ∷ [])) }
        ensures number { IfOk result (λ number. number ≡ length (view pass.new).pushed) }
        ensures made { OnOk result (share.new.amount ≡ share.old.amount + 1) }
        ensures few { OnOk result (share.new.amount ≤ 2 ^ 60) }
        ensures sole { IfOk result (λ number. share.old.parts ≡ N.parts → share.new.amount ≡ number) }
        ensures busy { IfErr result (λ busy. (busy.commit ≡ commit) × ((view pass.new).pushed ≡ (view pass.old).pushed)
            × (share.new.amount ≡ share.old.amount)) }
    {
        let Desk {
            pass: own,
            pushed,
            book,
            ..
        } = self;
        let known = show_pass(queue, pass);
        hear_pass(queue, own, known);
        if *pushed >= 1 << 60 {
            return Err(Busy { commit });
        }
        match queue.push_as::<Push, R>(rt, own, Item::Commit(commit)) {
            Ok(()) => {}
            Err(_) => return Err(Busy { commit }),
        }
        book.add(share, 1);
        *pushed += 1;
        book.audit(share);
        *pass = show_pass(queue, own);
        Ok(*pushed)
    }

    /// Pushes a quit. It is no commit, and has no number.
    /// Waits: for a place's last user in the queue. Memory: none.
    pub(crate) fn quit<R: Wait>(&mut self, rt: &R, queue: &Queue) -> Result<(), QueueFull>
        requires queue { queue.now.table.shared.table_id ≡ N.queue }
        ensures pushed { (view self.new.pass).pushed ≡ (view self.old.pass).pushed }
        ensures quits { MatchResult result
            (λ _. (view self.new.pass).quits_pushed ≡ (view self.old.pass).quits_pushed + 1)
            (λ _. (view self.new.pass).quits_pushed ≡ (view self.old.pass).quits_pushed) }
        ensures others { (C.reading self.new.reader ≡ C.reading self.old.reader) × (self.new.pushed ≡ self.old.pushed)
            × (self.new.book.total ≡ self.old.book.total) }
    {
        let Desk { pass: own, .. } = self;
        match queue.push_as::<Push, R>(rt, own, Item::Quit) {
            Ok(()) => Ok(()),
            Err(_) => Err(QueueFull),
        }
    }
}

// Reads by a reader that has been told a copy of the note, and has the note replaced by one of what was read.
fn read_anew<C: StateCell<11>>(
    reader: &mut C::Reader,
    alloc: Global,
    way: &C::Way,
    cell: &C,
    known: C::Note,
    note: &mut C::Note,
) -> Result<Read<11>, AllocError>
    requires reader { (C.reading reader.old).cell ≡ C.cell cell.now }
    requires known { (C.noting known).cell ≡ C.cell cell.now }
    requires note { (C.noting note.old).cell ≡ C.cell cell.now }
    requires rests { RestsAsReader (C.reading reader.old) }
    ensures reader { (C.reading reader.new).cell ≡ C.cell cell.now }
    ensures note { (C.noting note.new).cell ≡ C.cell cell.now }
    ensures rests { RestsAsReader (C.reading reader.new) }
    ensures seen { IfOk result (λ read. (between : List Pair)
        × ((C.noting note.new).seen ≡ ((C.noting known).seen ++ between) ++ (read.number, read.row) ∷ [])) }
    ensures never_falls { IfOk result (λ _. NumbersNeverFall (C.noting note.new).seen) }
    ensures refused { OnErr result (C.noting note.new ≡ C.noting note.old) }
{
    cell.tell(way, reader, known);
    let read = cell.read(way, reader);
    let new = cell.note_of_reader(alloc, way, reader)?;
    *note = new;
    Ok(read)
}
