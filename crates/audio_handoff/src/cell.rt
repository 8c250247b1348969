//! What a cell is: one writer makes rows, and one reader reads the rows made.
ghost use Rattle.std.specs.Prelude.{◌≡◌, ℕ, ◌+◌, ◌^◌, ◌<◌, ◌≤◌, ◌⊎◌, ◌↔◌, Bool, true, [], ◌∷◌, ◌++◌, length, max, IfOk, IfErr, IsTrue};
ghost use Rattle.std.specs.Bool.{OnFalse};
ghost use Rattle.atomic_table.specs.Seated.{TableId};
ghost use Rattle.audio_handoff.specs.Cell.{WriterView, ReaderView, NoteView, Grows, IsLast, IsLawful, HasSameReads, HasSameRows, IsOneRead};

use std::alloc::{AllocError, Global};

/// A row that was read, with its number.
#[derive(Clone, Copy, Debug, PartialEq, Eq)]
pub struct Read<const W: usize> {
    /// How many rows were made before it: the opening row has the number 0.
    pub number: u64,
    /// The row's words.
    pub row: [u64; W],
}

/// A cell of rows of `W` words, from 1 to 15. It stands for the list of the rows made; the opening row is the first.
///
/// Its one writer makes rows. Its one reader reads whole rows whose numbers never fall. A note carries a number to
/// the reader, which then reads no older row. Every token that is handed to a call is of that cell. A call waits only
/// through its `way`, so never where the way is `()`.
pub trait StateCell<const W: usize>: Sized + Drop {
    /// What a call needs in order to wait: the runtime's handle, or `()` where no call waits.
    type Way;

    /// The right to make rows.
    type Writer: Drop + Send;

    /// The right to read rows.
    type Reader: Drop + Send;

    /// A number on its way to the reader.
    type Note: Drop + Send;

    /// Which cell it is.
    ghost cell: { Self → TableId };

    ghost writing: { Self.Writer → WriterView };

    ghost reading: { Self.Reader → ReaderView };

    ghost noting: { Self.Note → NoteView };

    /// Whether the steps of the writer and the reader are told.
    ghost tells_steps: { Bool };

    /// Makes a cell with that opening row. Memory: the cell.
    fn make(
        alloc: Global,
        way: &Self::Way,
        row: &[u64],
    ) -> Result<(Self, Self::Writer, Self::Reader), AllocError>
        requires { (0 < W) × (W < 16) × (length row.now ≡ W) }
        ensures cell { IfOk result (λ t. ((writing t.1).cell ≡ cell t.0) × ((reading t.2).cell ≡ cell t.0)) }
        ensures made { IfOk result (λ t. (writing t.1).made ≡ row.now ∷ []) }
        ensures unread { IfOk result (λ t. ((reading t.2).seen ≡ []) × ((reading t.2).looks ≡ []) × ((reading t.2).number ≡ 0) × ((reading t.2).told ≡ 0)) }
        // The step that parts the two tokens is the writer's.
        ensures steps { IfOk result (λ t. tells_steps ≡ true → ((writing t.1).steps ≡ 1) × ((reading t.2).steps ≡ 0)) };

    /// Makes the row, and answers its number. Memory: none.
    fn publish(&self, way: &Self::Way, writer: &mut Self::Writer, row: &[u64; W]) -> u64
        requires cell { (writing writer.old).cell ≡ cell self.now }
        requires room { length (writing writer.old).made < 2 ^ 60 }
        ensures cell { (writing writer.new).cell ≡ (writing writer.old).cell }
        ensures made { (writing writer.new).made ≡ (writing writer.old).made ++ row.now ∷ [] }
        ensures number { result ≡ length (writing writer.old).made }
        ensures steps { tells_steps ≡ true → (writing writer.new).steps ≡ (writing writer.old).steps + W + 1 };

    /// Whether no number is left for a further row. Waits: no. Memory: none.
    fn is_spent(&self, writer: &Self::Writer) -> bool
        requires { (writing writer.now).cell ≡ cell self.now }
        ensures spent { IsTrue result ↔ (length (writing writer.now).made ≡ 2 ^ 60) }
        ensures room { OnFalse result (length (writing writer.now).made < 2 ^ 60) };

    /// Reads a row made, which is no older than the row last read, than each row told of, and than the last row made
    /// at the step of this call that looked. Memory: none.
    fn read(&self, way: &Self::Way, reader: &mut Self::Reader) -> Read<W>
        requires { (reading reader.old).cell ≡ cell self.now }
        ensures cell { (reading reader.new).cell ≡ (reading reader.old).cell }
        ensures read { IsOneRead (reading reader.old) (reading reader.new) result.number result.row }
        ensures number { (reading reader.new).number ≡ result.number }
        ensures never_falls { ((reading reader.old).number ≤ result.number) × (result.number < 2 ^ 60) }
        ensures told { ((reading reader.new).told ≡ (reading reader.old).told) × ((reading reader.old).told ≤ result.number) }
        ensures steps { tells_steps ≡ true → ((reading reader.new).steps ≡ (reading reader.old).steps + (W + 1)) ⊎ ((reading reader.new).steps ≡ (reading reader.old).steps + (W + 2)) };

    /// A note of the last row made. Memory: the note.
    fn note_of_writer(
        &self,
        alloc: Global,
        way: &Self::Way,
        writer: &mut Self::Writer,
    ) -> Result<Self::Note, AllocError>
        requires { (writing writer.old).cell ≡ cell self.now }
        ensures note { IfOk result (λ note. ((noting note).cell ≡ cell self.now) × ((noting note).number + 1 ≡ length (writing writer.old).made) × ((noting note).seen ≡ [])) }
        ensures writer { HasSameRows (writing writer.old) (writing writer.new) }
        ensures refused { IfErr result (λ _. writing writer.new ≡ writing writer.old) };

    /// A note of the row last read, and of all that was read. Memory: the note.
    fn note_of_reader(
        &self,
        alloc: Global,
        way: &Self::Way,
        reader: &mut Self::Reader,
    ) -> Result<Self::Note, AllocError>
        requires { (reading reader.old).cell ≡ cell self.now }
        ensures note { IfOk result (λ note. ((noting note).cell ≡ cell self.now) × ((noting note).number ≡ (reading reader.old).number) × ((noting note).seen ≡ (reading reader.old).seen)) }
        ensures reader { HasSameReads (reading reader.old) (reading reader.new) }
        ensures refused { IfErr result (λ _. reading reader.new ≡ reading reader.old) };

    /// A second note of the same number. Memory: the note.
    fn copy_note(
        &self,
        alloc: Global,
        way: &Self::Way,
        note: &mut Self::Note,
    ) -> Result<Self::Note, AllocError>
        requires { (noting note.old).cell ≡ cell self.now }
        ensures copy { IfOk result (λ copy. noting copy ≡ noting note.old) }
        ensures note { noting note.new ≡ noting note.old };

    /// Tells the reader the note's number. What the note's maker had read by then, this reader has read. Memory: none.
    fn tell(&self, way: &Self::Way, reader: &mut Self::Reader, note: Self::Note)
        requires cell { (reading reader.old).cell ≡ cell self.now }
        requires note { (noting note).cell ≡ cell self.now }
        ensures told { (reading reader.new).told ≡ max (reading reader.old).told (noting note).number }
        ensures cell { (reading reader.new).cell ≡ (reading reader.old).cell }
        ensures number { (reading reader.new).number ≡ (reading reader.old).number }
        ensures looks { (reading reader.new).looks ≡ (reading reader.old).looks }
        ensures seen { (reading reader.new).seen ≡ (reading reader.old).seen }
        ensures heard { Grows (noting note).seen (reading reader.new).seen };

    /// Ends the cell, and answers the last row made. Memory: none.
    fn settle(self, way: &Self::Way, writer: Self::Writer, reader: Self::Reader) -> Read<W>
        requires writer { (writing writer).cell ≡ cell self }
        requires reader { (reading reader).cell ≡ cell self }
        ensures last { IsLast (writing writer).made result.number result.row }
        ensures lawful { IsLawful (writing writer).made (reading reader).seen (reading reader).looks (reading reader).told };

    /// The number last read, 0 before the first read. Waits: no. Memory: none.
    fn last_read(&self, reader: &Self::Reader) -> u64
        requires { (reading reader.now).cell ≡ cell self.now }
        ensures { result ≡ (reading reader.now).number };
}
