//! The bytes of a datagram.

ghost use Rattle.std.specs.Prelude.{◌≡◌, ◌≤◌, ◌+◌, ◌++◌, length};
ghost use Rattle.arrayvec.specs.ArrayVec.{array_vec_len};
ghost use Rattle.byteorder.specs.Endian.{big_bytes};

use arrayvec::ArrayVec;
use byteorder::{BigEndian, ByteOrder};

/// The first 513 bytes of a datagram. One has at most 512, so a length of 513 says that it was too
/// long.
pub type Wire = ArrayVec<u8, 513>;

/// Appends bytes as they are.
pub fn append(out: &mut Wire, bytes: &[u8])
    requires { array_vec_len out.old + length bytes.now ≤ 513 }
    ensures items { out.new.items ≡ out.old.items ++ bytes.now }
    ensures len { array_vec_len out.new ≡ array_vec_len out.old + length bytes.now }
{
    let _appended = out.try_extend_from_slice(bytes);
}

/// The number in the first two bytes, the highest first, and the bytes after it.
pub fn u16_at(bytes: &[u8]) -> (u16, &[u8])
    requires { 2 ≤ length bytes.now }
    ensures bytes { bytes.now ≡ big_bytes 2 result.0 ++ result.1.now }
    ensures len { length result.1.now + 2 ≡ length bytes.now }
{
    let (number, rest) = bytes.split_at(2);
    (BigEndian::read_u16(number), rest)
}

/// The number in the first four bytes, the highest first, and the bytes after it.
pub fn u32_at(bytes: &[u8]) -> (u32, &[u8])
    requires { 4 ≤ length bytes.now }
    ensures bytes { bytes.now ≡ big_bytes 4 result.0 ++ result.1.now }
    ensures len { length result.1.now + 4 ≡ length bytes.now }
{
    let (number, rest) = bytes.split_at(4);
    (BigEndian::read_u32(number), rest)
}

/// The number in the first eight bytes, the highest first, and the bytes after it.
pub fn u64_at(bytes: &[u8]) -> (u64, &[u8])
    requires { 8 ≤ length bytes.now }
    ensures bytes { bytes.now ≡ big_bytes 8 result.0 ++ result.1.now }
    ensures len { length result.1.now + 8 ≡ length bytes.now }
{
    let (number, rest) = bytes.split_at(8);
    (BigEndian::read_u64(number), rest)
}
