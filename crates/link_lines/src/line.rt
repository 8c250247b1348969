//! The text of one line, put together without taking memory.

ghost use Rattle.std.specs.Prelude.{◌≡◌, ◌≤◌, ◌+◌, ◌*◌, ◌++◌, ◌∷◌, [], length};
ghost use Rattle.std.specs.Fmt.{decimal, signed_decimal};
ghost use Rattle.arrayvec.specs.ArrayVec.{array_vec_len};
ghost use Rattle.hex.specs.Hex.{encode_lower};
ghost use Rattle.link_lines.specs.Words.{endpoint_text_of, truth_text_of};

use arrayvec::ArrayVec;
use itoa::Buffer;
use lk_base::{ClientStart, Endpoint, Timeline};

/// A line with its line feed: the longest has 1,100 bytes or so, a datagram in hex among them.
pub type LineBuf = ArrayVec<u8, 1200>;

/// Appends bytes as they are.
pub fn put(line: &mut LineBuf, bytes: &[u8])
    requires { array_vec_len line.old + length bytes.now ≤ 1200 }
    ensures items { line.new.items ≡ line.old.items ++ bytes.now }
    ensures len { array_vec_len line.new ≡ array_vec_len line.old + length bytes.now }
{
    let _appended = line.try_extend_from_slice(bytes);
}

/// Appends a number in decimal digits, of which it has 20 at most.
pub fn put_decimal(line: &mut LineBuf, n: u64)
    requires { array_vec_len line.old + 20 ≤ 1200 }
    ensures items { line.new.items ≡ line.old.items ++ decimal n }
    ensures len { array_vec_len line.new ≤ array_vec_len line.old + 20 }
{
    put(line, Buffer::new().format(n).as_bytes());
}

/// Appends a signed number in decimal digits, with a minus sign before it where it is negative.
pub fn put_signed(line: &mut LineBuf, n: i64)
    requires { array_vec_len line.old + 21 ≤ 1200 }
    ensures items { line.new.items ≡ line.old.items ++ signed_decimal n }
    ensures len { array_vec_len line.new ≤ array_vec_len line.old + 21 }
{
    put(line, Buffer::new().format(n).as_bytes());
}

/// Appends 1 for what holds and 0 for what doesn't.
#[tactic(auto, unfolding(crate::specs::Words::truth_text_of))]
pub fn put_truth(line: &mut LineBuf, holds: bool)
    requires { array_vec_len line.old + 1 ≤ 1200 }
    ensures items { line.new.items ≡ line.old.items ++ truth_text_of holds }
    ensures len { array_vec_len line.new ≡ array_vec_len line.old + 1 }
{
    if holds {
        put(line, b"1");
    } else {
        put(line, b"0");
    }
}

/// Appends tempo, beat origin and time origin, parted by spaces.
pub fn put_timeline(line: &mut LineBuf, timeline: Timeline)
    requires { array_vec_len line.old ≤ 1000 }
    ensures items { line.new.items ≡ line.old.items
        ++ (signed_decimal timeline.mpb ++ 32 ∷ (signed_decimal timeline.beat ++ 32 ∷ signed_decimal timeline.time)) }
    ensures len { array_vec_len line.new ≤ array_vec_len line.old + 65 }
{
    put_signed(line, timeline.mpb);
    put(line, b" ");
    put_signed(line, timeline.beat);
    put(line, b" ");
    put_signed(line, timeline.time);
}

/// Appends whether it plays, the time and the stamp, parted by spaces.
pub fn put_client_start(line: &mut LineBuf, start: ClientStart)
    requires { array_vec_len line.old ≤ 1000 }
    ensures items { line.new.items ≡ line.old.items
        ++ (truth_text_of start.playing ++ 32 ∷ (signed_decimal start.time ++ 32 ∷ signed_decimal start.stamp)) }
    ensures len { array_vec_len line.new ≤ array_vec_len line.old + 45 }
{
    put_truth(line, start.playing);
    put(line, b" ");
    put_signed(line, start.time);
    put(line, b" ");
    put_signed(line, start.stamp);
}

/// Appends an address and a port, as `127.0.0.1:20808`.
#[tactic(auto, unfolding(crate::specs::Words::endpoint_text_of, crate::specs::Words::dotted))]
pub fn put_endpoint(line: &mut LineBuf, endpoint: Endpoint)
    requires { array_vec_len line.old + 104 ≤ 1200 }
    ensures items { line.new.items ≡ line.old.items ++ endpoint_text_of endpoint }
    ensures len { array_vec_len line.new ≤ array_vec_len line.old + 104 }
{
    let Endpoint { addr, port } = endpoint;
    put_decimal(line, u64::from(addr / 16_777_216));
    put(line, b".");
    put_decimal(line, u64::from(addr / 65_536 % 256));
    put(line, b".");
    put_decimal(line, u64::from(addr / 256 % 256));
    put(line, b".");
    put_decimal(line, u64::from(addr % 256));
    put(line, b":");
    put_decimal(line, u64::from(port));
}

/// Appends at most 513 bytes in hex digits of lower case.
pub fn put_hex(line: &mut LineBuf, bytes: &[u8])
    requires short { length bytes.now ≤ 513 }
    requires room { array_vec_len line.old + 2 * length bytes.now ≤ 1200 }
    ensures items { line.new.items ≡ line.old.items ++ encode_lower bytes.now }
    ensures len { array_vec_len line.new ≡ array_vec_len line.old + 2 * length bytes.now }
{
    // The room is cleared before it is written, and most datagrams are short.
    if bytes.len() <= 128 {
        let mut digits = [0u8; 256];
        put_hex_by(line, bytes, &mut digits[..2 * bytes.len()]);
    } else {
        let mut digits = [0u8; 1026];
        put_hex_by(line, bytes, &mut digits[..2 * bytes.len()]);
    }
}

/// Appends at most 8 bytes in hex digits of lower case.
pub fn put_short_hex(line: &mut LineBuf, bytes: &[u8])
    requires short { length bytes.now ≤ 8 }
    requires room { array_vec_len line.old + 2 * length bytes.now ≤ 1200 }
    ensures items { line.new.items ≡ line.old.items ++ encode_lower bytes.now }
    ensures len { array_vec_len line.new ≡ array_vec_len line.old + 2 * length bytes.now }
{
    let mut digits = [0u8; 16];
    put_hex_by(line, bytes, &mut digits[..2 * bytes.len()]);
}

// Appends bytes in hex digits of lower case, by way of room for just those.
fn put_hex_by(line: &mut LineBuf, bytes: &[u8], digits: &mut [u8])
    requires digits { length digits.old ≡ 2 * length bytes.now }
    requires room { array_vec_len line.old + 2 * length bytes.now ≤ 1200 }
    ensures items { line.new.items ≡ line.old.items ++ encode_lower bytes.now }
    ensures len { array_vec_len line.new ≡ array_vec_len line.old + 2 * length bytes.now }
{
    hex::encode_to_slice(bytes, digits).unwrap();
    put(line, digits);
}
