//! Lines that tell of a run.

use arrayvec::ArrayVec;
use itoa::Buffer;

/// What is told of a run. What finds no room in it is left out.
pub type Text = ArrayVec<u8, 600>;

/// Appends bytes as they are.
pub fn put(text: &mut Text, bytes: &[u8]) {
    let _room = text.try_extend_from_slice(bytes);
}

/// Appends some bytes and a number behind them.
pub fn put_number(text: &mut Text, before: &[u8], number: i64) {
    put(text, before);
    put(text, Buffer::new().format(number).as_bytes());
}

/// Appends some bytes and a count behind them.
pub fn put_count(text: &mut Text, before: &[u8], count: u64) {
    put(text, before);
    put(text, Buffer::new().format(count).as_bytes());
}
