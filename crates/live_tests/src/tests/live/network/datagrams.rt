//! The datagrams that come, spelled byte by byte.

use super::super::nodes::endpoint;
use lk_base::{Endpoint, Wire};

/// The datagram of each letter, with zeros behind it up to its length.
///
/// `a`: an alive that counts for 5 seconds of a peer in the node's own session, of 500,000 microseconds per beat from beat 0 at time 0, as
/// this opens with, no start, and a port that answers pings; `j`, `l`: the same, with an entry of no known key behind it; `k`: an alive of
/// another one in that session with a later beat origin; `n`: an alive of the founder of another session; `o`: a pong of that one, with
/// all times; `b`: the bye of the sender of `a`; `p`: a ping; `x`: one byte.
const DATAGRAMS: [(u8, &[u8], usize); 9] = [
    (
        b'a',
        b"_asdp_v\x01\x01\x05\x00\x00BBBBBBBB\
            tmln\x00\x00\x00\x18\x00\x00\x00\x00\x00\x07\xa1\x20\
            \x00\x00\x00\x00\x00\x00\x00\x00\x00\x00\x00\x00\x00\x00\x00\x00\
            sess\x00\x00\x00\x08AAAAAAAA\
            stst\x00\x00\x00\x11\x00\x00\x00\x00\x00\x00\x00\x00\x00\x00\x00\x00\x00\x00\x00\x00\x00\
            mep4\x00\x00\x00\x06\x0a\x00\x00\x01\x00a",
        107,
    ),
    (
        b'j',
        b"_asdp_v\x01\x01\x05\x00\x00BBBBBBBB\
            tmln\x00\x00\x00\x18\x00\x00\x00\x00\x00\x07\xa1\x20\
            \x00\x00\x00\x00\x00\x00\x00\x00\x00\x00\x00\x00\x00\x00\x00\x00\
            sess\x00\x00\x00\x08AAAAAAAA\
            stst\x00\x00\x00\x11\x00\x00\x00\x00\x00\x00\x00\x00\x00\x00\x00\x00\x00\x00\x00\x00\x00\
            mep4\x00\x00\x00\x06\x0a\x00\x00\x01\x00a\
            junk\x00\x00\x01\x8d",
        512,
    ),
    (
        b'l',
        b"_asdp_v\x01\x01\x05\x00\x00BBBBBBBB\
            tmln\x00\x00\x00\x18\x00\x00\x00\x00\x00\x07\xa1\x20\
            \x00\x00\x00\x00\x00\x00\x00\x00\x00\x00\x00\x00\x00\x00\x00\x00\
            sess\x00\x00\x00\x08AAAAAAAA\
            stst\x00\x00\x00\x11\x00\x00\x00\x00\x00\x00\x00\x00\x00\x00\x00\x00\x00\x00\x00\x00\x00\
            mep4\x00\x00\x00\x06\x0a\x00\x00\x01\x00a\
            junk\x00\x00\x01\x8e",
        513,
    ),
    (
        b'k',
        b"_asdp_v\x01\x01\x05\x00\x00KKKKKKKK\
            tmln\x00\x00\x00\x18\x00\x00\x00\x00\x00\x07\xa1\x20\
            \x00\x00\x00\x00\x00\x0fB@\x00\x00\x00\x00\x00\x00\x00\x00\
            sess\x00\x00\x00\x08AAAAAAAA\
            stst\x00\x00\x00\x11\x00\x00\x00\x00\x00\x00\x00\x00\x00\x00\x00\x00\x00\x00\x00\x00\x00\
            mep4\x00\x00\x00\x06\x0a\x00\x00\x01\x00k",
        107,
    ),
    (
        b'n',
        b"_asdp_v\x01\x01\x05\x00\x00NNNNNNNN\
            tmln\x00\x00\x00\x18\x00\x00\x00\x00\x00\x07\xa1\x20\
            \x00\x00\x00\x00\x00\x00\x00\x00\x00\x00\x00\x00\x00\x00\x00\x00\
            sess\x00\x00\x00\x08NNNNNNNN\
            stst\x00\x00\x00\x11\x00\x00\x00\x00\x00\x00\x00\x00\x00\x00\x00\x00\x00\x00\x00\x00\x00\
            mep4\x00\x00\x00\x06\x0a\x00\x00\x01\x00n",
        107,
    ),
    (
        b'o',
        b"_link_v\x01\x02\
            sess\x00\x00\x00\x08NNNNNNNN\
            __gt\x00\x00\x00\x08\x00\x00\x00\x00\x00\x00\x02\xbc\
            __ht\x00\x00\x00\x08\x00\x00\x00\x00\x00\x00\x02X\
            _pgt\x00\x00\x00\x08\x00\x00\x00\x00\x00\x00\x01\xf4",
        73,
    ),
    (b'b', b"_asdp_v\x01\x03\x00\x00\x00BBBBBBBB", 20),
    (
        b'p',
        b"_link_v\x01\x01\
            __ht\x00\x00\x00\x08\x00\x00\x00\x00\x00\x00\x03\xe8",
        25,
    ),
    (b'x', b"\x00", 1),
];

/// The datagram of a small letter, no byte where there is none.
pub fn datagram_of(letter: u8) -> Wire {
    let mut wire = Wire::new();
    for (other, bytes, length) in &DATAGRAMS {
        if *other == letter {
            put(&mut wire, bytes, *length);
        }
    }
    wire
}

fn put(wire: &mut Wire, bytes: &[u8], length: usize) {
    let _room = wire.try_extend_from_slice(bytes);
    for _ in bytes.len()..length {
        let _room = wire.try_push(0);
    }
}

/// Where the datagram of a small letter comes from: a pong from where pings go, each other from the port that is its letter.
pub fn sender_of(letter: u8) -> Endpoint {
    endpoint(u16::from(if letter == b'o' { b'n' } else { letter }))
}

/// How long each datagram is, the port that it comes from, and its letter.
const LETTERS: [(usize, u8, u8); 10] = [
    (0, b'z', b'z'),
    (1, b'x', b'x'),
    (20, b'b', b'b'),
    (25, b'p', b'p'),
    (73, b'n', b'o'),
    (107, b'a', b'a'),
    (107, b'k', b'k'),
    (107, b'n', b'n'),
    (512, b'j', b'j'),
    (513, b'l', b'l'),
];

/// The letter of a datagram by its length and its sender, `*` where there is none.
pub fn letter_of(length: usize, port: u16) -> u8 {
    let mut found = b'*';
    for (long, from, letter) in &LETTERS {
        if (*long == length) & (u16::from(*from) == port) {
            found = *letter;
        }
    }
    found
}
