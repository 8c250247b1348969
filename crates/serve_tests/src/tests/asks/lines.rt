//! Lines that ask for something.

use arrayvec::ArrayVec;
use link_asks::{Ask, ask_of};
use std::process::Abort;

// A line, and what it asks for.
const ROWS: &[(&[u8], Ask)] = &[
    (b"status", Ask::Status),
    (b"now", Ask::Now),
    (b"beat 0", Ask::Beat(0)),
    (b"beat -1", Ask::Beat(-1)),
    (
        b"beat 1152921504606846976",
        Ask::Beat(1_152_921_504_606_846_976),
    ),
    (
        b"beat -1152921504606846976",
        Ask::Beat(-1_152_921_504_606_846_976),
    ),
    (b"phase 5", Ask::Phase(5)),
    (
        b"phase 1152921504606846976",
        Ask::Phase(1_152_921_504_606_846_976),
    ),
    (
        b"phase -1152921504606846976",
        Ask::Phase(-1_152_921_504_606_846_976),
    ),
    (b"time -3000000", Ask::Time(-3_000_000)),
    (
        b"time 1152921504606846976",
        Ask::Time(1_152_921_504_606_846_976),
    ),
    (
        b"time -1152921504606846976",
        Ask::Time(-1_152_921_504_606_846_976),
    ),
    (b"tempo 60060", Ask::Tempo(60_060)),
    (b"tempo 500000", Ask::Tempo(500_000)),
    (b"tempo 3000000", Ask::Tempo(3_000_000)),
    (b"bpm 120", Ask::Tempo(500_000)),
    (b"play", Ask::Play(None)),
    (b"play 0", Ask::Play(Some(0))),
    (b"play -5", Ask::Play(Some(-5))),
    (
        b"play 1152921504606846976",
        Ask::Play(Some(1_152_921_504_606_846_976)),
    ),
    (
        b"play -1152921504606846976",
        Ask::Play(Some(-1_152_921_504_606_846_976)),
    ),
    (b"stop", Ask::Stop(None)),
    (b"stop 7", Ask::Stop(Some(7))),
    (
        b"stop 1152921504606846976",
        Ask::Stop(Some(1_152_921_504_606_846_976)),
    ),
    (
        b"stop -1152921504606846976",
        Ask::Stop(Some(-1_152_921_504_606_846_976)),
    ),
    (b"force 1 2", Ask::Force(1, 2)),
    (
        b"force -1152921504606846976 1152921504606846976",
        Ask::Force(-1_152_921_504_606_846_976, 1_152_921_504_606_846_976),
    ),
    (b"request 3 -4", Ask::Request(3, -4)),
    // The longest line that asks for something.
    (
        b"request -1152921504606846976 -1152921504606846976",
        Ask::Request(-1_152_921_504_606_846_976, -1_152_921_504_606_846_976),
    ),
    (b"quantum 0", Ask::Quantum(0)),
    (b"quantum 4000000", Ask::Quantum(4_000_000)),
    (b"quantum 1099511627776", Ask::Quantum(1_099_511_627_776)),
    (b"watch", Ask::Watch),
    (b"unwatch", Ask::Unwatch),
    (b"clients", Ask::Clients),
    (b"gates", Ask::Gates),
    (b"end", Ask::End),
];

// A line with a carriage return at its end.
fn with_return(line: &[u8]) -> ArrayVec<u8, 100> {
    let mut text = ArrayVec::new();
    let _room = text.try_extend_from_slice(line);
    let _room = text.try_push(b'\r');
    text
}

fn expect_ask(rt: &impl Abort, line: &[u8], ask: Ask) {
    assert!(rt; ask_of(line) == Some(ask), "{ask:?}");
    assert!(rt;
        ask_of(&with_return(line)) == Some(ask),
        "{ask:?} with a carriage return"
    );
}

// rule: Asks.Says, IsAsk, Asks
#[test]
fn each_command_is_read_with_what_it_takes(rt: HostRuntime) {
    for &(line, ask) in ROWS {
        expect_ask(&rt, line, ask);
    }
}
