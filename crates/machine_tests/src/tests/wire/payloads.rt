//! Payloads, worked out byte by byte.

use crate::tests::expect;
use link_payload::{Entry, PayloadFault, PeerFields, entries, write_state};
use lk_base::{Endpoint, NodeId, SessionStart, Timeline, Wire, append};
use std::process::Abort;

const FIELDS: PeerFields = PeerFields {
    timeline: Timeline {
        mpb: 500_000,
        beat: -1,
        time: 258,
    },
    session: NodeId(*b"ABCDEFGH"),
    start: SessionStart {
        playing: true,
        beats: -256,
        stamp: 7,
    },
    endpoint: Some(Endpoint {
        addr: 0xc0a8_0007,
        port: 20_808,
    }),
};

// The same without an endpoint.
const UNREACHABLE: PeerFields = PeerFields {
    endpoint: None,
    ..FIELDS
};

const WRITTEN: &[u8] =
    b"beforetmln\0\0\0\x18\0\0\0\0\0\x07\xa1\x20\xff\xff\xff\xff\xff\xff\xff\xff\0\0\0\0\0\0\x01\x02\
sess\0\0\0\x08ABCDEFGHstst\0\0\0\x11\x01\xff\xff\xff\xff\xff\xff\xff\0\0\0\0\0\0\0\0\x07\
mep4\0\0\0\x06\xc0\xa8\0\x07\x51\x48";

const WRITTEN_WITHOUT: &[u8] =
    b"beforetmln\0\0\0\x18\0\0\0\0\0\x07\xa1\x20\xff\xff\xff\xff\xff\xff\xff\xff\0\0\0\0\0\0\x01\x02\
sess\0\0\0\x08ABCDEFGHstst\0\0\0\x11\x01\xff\xff\xff\xff\xff\xff\xff\0\0\0\0\0\0\0\0\x07";

// A state is written after six bytes, and they are all then.
fn expect_written(rt: &impl Abort, fields: &PeerFields, wanted: &[u8]) {
    let mut out = Wire::new();
    append(&mut out, b"before");
    write_state(&mut out, fields);
    expect(rt, fields, &out.as_slice(), &wanted);
}

// rule: Fields.timeline_in, start_in, spelled_state_of
#[test]
fn a_state_is_written_after_what_stands_there(rt: HostRuntime) {
    expect_written(&rt, &FIELDS, WRITTEN);
    expect_written(&rt, &UNREACHABLE, WRITTEN_WITHOUT);
}

const ITEMS: &[Option<Result<Entry<'static>, PayloadFault>>] = &[
    Some(Ok(Entry {
        key: 0x6162_6364,
        value: b"",
    })),
    Some(Ok(Entry {
        key: 0x7778_797a,
        value: b"\x07\x08",
    })),
    Some(Err(PayloadFault::Cut { at: 18 })),
    None,
];

// rule: Spells, IsCutAt
#[test]
fn entries_come_in_order_and_a_cut_ends_them(rt: HostRuntime) {
    let mut left = entries(b"abcd\0\0\0\0wxyz\0\0\0\x02\x07\x08wxyz\xff\xff\xff\xff");
    for (k, item) in ITEMS.iter().enumerate() {
        expect(&rt, &k, &left.next(), item);
    }
}
