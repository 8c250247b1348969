//! The last values of four known keys, in one walk over a payload.

ghost use Rattle.std.specs.Prelude.{◌≡◌, ◌≢◌, ◌<◌, ◌^◌, ◌==◌, ◌&&◌, ◌↔◌, ℕ, List, not, length, Option, Some, None, IfOk, IsTrue, if◌then◌else◌};
ghost use Rattle.std.specs.Option.{option_copied};
ghost use Rattle.link_payload.specs.Entries.{EntryValue, AreEntriesIn};
ghost use Rattle.link_payload.specs.Items.{entry_value};
ghost use Rattle.link_payload.specs.Fields.{has_other_size};
ghost use Rattle.link_payload.specs.Last.{HaveSizes, key_sizes_of, last_answer_of, later_of, last_bytes_after, last_bytes_of, walk_of};
ghost use Rattle.link_payload.specs.declared.fault.PayloadFault.TheVariants.{WrongSize};

use crate::entry::{Entry, entries};
use crate::fault::PayloadFault;

/// A key, and the size of its values.
#[derive(Clone, Copy)]
pub struct KeySize {
    pub key: u32,
    pub size: u32,
}

/// The four keys that a reader knows, by their places.
#[derive(Clone, Copy)]
pub struct Keys {
    pub first: KeySize,
    pub second: KeySize,
    pub third: KeySize,
    pub fourth: KeySize,
}

/// The last value of each key, by its place, where it has an entry.
#[derive(Clone, Copy)]
pub struct LastValues<'a> {
    pub first: Option<&'a [u8]>,
    pub second: Option<&'a [u8]>,
    pub third: Option<&'a [u8]>,
    pub fourth: Option<&'a [u8]>,
}

/// The last value of each key in a payload. An entry of another key is passed over. The first entry
/// whose value has another size than its key, or that is cut, is a fault.
pub fn last_values<'a>(payload: &'a [u8], keys: &Keys) -> Result<LastValues<'a>, PayloadFault>
    requires { length payload.now < 2 ^ 32 }
    ensures sizes { IfOk result (λ last. HaveSizes keys.now (last_bytes_of last)) }
    ensures answer { (es : List EntryValue) (cut : Option ℕ) → AreEntriesIn payload.now es cut
        → walk_of result ≡ last_answer_of keys.now es cut }
{
    let mut last = LastValues {
        first: None,
        second: None,
        third: None,
        fourth: None,
    };
    for item in entries(payload) {
        let entry = item?;
        if let Some(fault) = size_fault(keys, entry) {
            return Err(fault);
        }
        last = with_entry(keys, entry, last);
    }
    Ok(last)
}

fn size_fault(keys: &Keys, entry: Entry) -> Option<PayloadFault>
    requires { length entry.value.now < 2 ^ 32 }
    ensures { result ≡ (if has_other_size (key_sizes_of keys.now) (entry_value entry.entry)
        then Some (WrongSize entry.entry.key (length entry.entry.value.now)) else None) }
{
    let key = entry.key;
    let size = entry.value.len() as u32;
    if has_other(keys.first, key, size)
        || has_other(keys.second, key, size)
        || has_other(keys.third, key, size)
        || has_other(keys.fourth, key, size)
    {
        return Some(PayloadFault::WrongSize { key, size });
    }
    None
}

fn has_other(known: KeySize, key: u32, size: u32) -> bool
    ensures { result ≡ (key == known.key) && not (size == known.size) }
{
    key == known.key && size != known.size
}

fn with_entry<'a>(keys: &Keys, entry: Entry<'a>, last: LastValues<'a>) -> LastValues<'a>
    ensures { last_bytes_of result
        ≡ last_bytes_after keys.now (entry_value entry.entry) (last_bytes_of last.entry) }
{
    LastValues {
        first: later(keys.first, entry, last.first),
        second: later(keys.second, entry, last.second),
        third: later(keys.third, entry, last.third),
        fourth: later(keys.fourth, entry, last.fourth),
    }
}

fn later<'a>(known: KeySize, entry: Entry<'a>, value: Option<&'a [u8]>) -> Option<&'a [u8]>
    ensures { option_copied result ≡ later_of known (entry_value entry.entry) (option_copied value.entry) }
{
    if entry.key == known.key {
        Some(entry.value)
    } else {
        value
    }
}
