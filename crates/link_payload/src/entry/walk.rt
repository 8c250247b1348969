//! The walk from entry to entry.

ghost use Rattle.std.specs.Prelude.{◌≡◌, ◌<◌, ◌^◌, ◌++◌, ◌∷◌, [], List, ℕ, length, map, option_map, Err};
ghost use Rattle.std.specs.Iterator.{YieldsFirstBy, item_count};
ghost use Rattle.link_payload.specs.declared.fault.PayloadFault.TheVariants.{Cut};
ghost use Rattle.link_payload.specs.Entries.{EntryValue, Spells, IsCutAt};
ghost use Rattle.link_payload.specs.Items.{entry_at_front, entry_value, item_value, items_at, items_left_of, ok_item};

use crate::entry::{Entry, EntryIter};
use crate::fault::PayloadFault;
use byteorder::{BigEndian, ByteOrder};

/// The entries of a payload, in order: they lie in the payload, and nothing is copied. Where the
/// header or the value of an entry passes the end, `Cut` comes in its place, with the place of its
/// header, and nothing after.
pub fn entries(payload: &[u8]) -> EntryIter<'_>
    requires { length payload.now < 2 ^ 32 }
    ensures all { items_left_of result ≡ items_at 0 payload.now }
    ensures spelled { (es : List EntryValue) → Spells payload.now es
        → items_left_of result ≡ map ok_item es }
    ensures cut { (n : ℕ) (es : List EntryValue) → IsCutAt payload.now n es
        → items_left_of result ≡ map ok_item es ++ Err (Cut n) ∷ [] }
{
    EntryIter {
        at: 0,
        rest: payload,
    }
}

impl<'a> Iterator for EntryIter<'a> {
    type Item = Result<Entry<'a>, PayloadFault>;

    ghost next_gives = { YieldsFirstBy item_value items_left_of };

    ghost remaining = { item_count items_left_of };

    fn next(&mut self) -> Option<Result<Entry<'a>, PayloadFault>> {
        if self.rest.is_empty() {
            return None;
        }
        let Some((entry, rest)) = first_entry(self.rest) else {
            let at = self.at;
            self.rest = &[];
            return Some(Err(PayloadFault::Cut { at }));
        };
        self.at += 8 + entry.value.len() as u32;
        self.rest = rest;
        Some(Ok(entry))
    }
}

// The entry that the bytes begin with, and the bytes after it.
#[tactic(auto, unfolding(crate::specs::Items::entry_at_front))]
fn first_entry(bytes: &[u8]) -> Option<(Entry<'_>, &[u8])>
    ensures { option_map (λ found. (entry_value found.0, found.1.now)) result
        ≡ entry_at_front bytes.now }
{
    if bytes.len() < 8 {
        return None;
    }
    let (key, after_key) = bytes.split_at(4);
    let (size, rest) = after_key.split_at(4);
    let key = BigEndian::read_u32(key);
    let size = BigEndian::read_u32(size) as usize;
    if rest.len() < size {
        return None;
    }
    let (value, rest) = rest.split_at(size);
    Some((Entry { key, value }, rest))
}
