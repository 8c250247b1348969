//! What the end of a triple buffer takes from its closed table.
ghost use Rattle.std.specs.Prelude.{◌≡◌, ◌≢◌, ℕ, ◌+◌, ◌*◌, ◌<◌, length, slice_index};
ghost use Rattle.std.specs.Mem.Slots.{slots_items, slots_len, IsFull};
ghost use Rattle.triple_buffer.specs.Rule.{word_at};
ghost use Rattle.triple_buffer.specs.Word.{number_in, fresh_in, back_in};

use crate::word::StateWord;
use atomic_table::Closed;
use std::alloc::Global;

/// Copies the row at that place.
pub(super) fn copy_row(closed: &Closed<(), Global>, place: usize, row: &mut [u64])
    requires table { (slots_len closed.now.words ≡ 3 * length row.old + 1) × IsFull closed.now.words }
    requires width { length row.old < 16 }
    requires place { place < 3 }
    ensures { (i : ℕ) → i < length row.old → slice_index row.new i ≡ slice_index (slots_items closed.entry.now.words) (word_at (length row.old) place i) }
{
    let width = row.len();
    for i in 0..width {
        row[i] = closed.word(place * width + 1 + i);
    }
}

/// Where the last row made is, and its number, for a reader that has this row.
pub(super) fn newest(word: u64, place: usize, number: u64) -> (usize, u64)
    ensures fresh { fresh_in word ≡ 1 → (result.0 ≡ back_in word) × (result.1 ≡ number_in word) }
    ensures own { fresh_in word ≢ 1 → (result.0 ≡ place) × (result.1 ≡ number) }
{
    let state = StateWord::unpack(word);
    if state.fresh {
        (state.back, state.number)
    } else {
        (place, number)
    }
}
