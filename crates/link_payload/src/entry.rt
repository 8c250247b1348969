//! The entries of a payload, one after the other.

ghost use Rattle.std.specs.Prelude.{◌<◌, ◌+◌, ◌^◌, length};

mod walk;

pub use walk::entries;

/// An entry of a payload.
#[derive(Clone, Copy, Debug, PartialEq, Eq)]
pub struct Entry<'a> {
    /// Four letters, read as a big-endian number.
    pub key: u32,
    /// What stands behind the key and the size.
    pub value: &'a [u8],
}

/// The entries of a payload that are left.
#[derive(Clone, Copy, Debug, Drop)]
pub struct EntryIter<'a> {
    // Where the bytes that are left begin in the payload.
    at: u32,
    rest: &'a [u8],
    ghost in_range: { at + length rest.now < 2 ^ 32 },
}
