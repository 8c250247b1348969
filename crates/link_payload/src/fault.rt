//! Why a payload is not read.

/// A fault of a payload, with the key that it concerns or its place.
#[derive(Clone, Copy, Debug, PartialEq, Eq)]
pub enum PayloadFault {
    /// The header or the value of the entry that begins `at` bytes into the payload passes its end.
    Cut { at: u32 },
    /// An entry of a known key has a value of `size` bytes, and not the number that its key asks for.
    WrongSize { key: u32, size: u32 },
    /// There is no entry of a key that has to be there.
    Missing { key: u32 },
    /// A number in the value of a key is outside its range.
    OutOfRange { key: u32, value: i64 },
}
