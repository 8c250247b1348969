//! The texts of the answers.
//!
//! The state shown has 250,000 microseconds per beat, and beat 1 at 250,000, so that at 2,000,000 it is 7 beats behind the beat origin.

ghost use Rattle.std.specs.Prelude.{◌≤◌, length, IfSome};
ghost use Rattle.client_state.specs.State.{IsTidyState};
ghost use Rattle.link_asks.specs.Asks.{IsAsk};

use client_state::State;
use link_asks::{
    Ask, GateState, GateTold, Known, ask_of, put_answer, put_changed, reason_of, view_of,
};
use link_lines::LineBuf;
use lk_base::{ClientStart, NodeId, Timeline};
use std::process::Abort;

// A line, and its answer.
const ROWS: &[(&[u8], &[u8])] = &[
    (
        b"status",
        b"status 250000 1000000 250000 1 -1 3 4000000 000102030405feff 42\n",
    ),
    (b"now", b"now 2000000 7000000 3000000\n"),
    (b"beat 250000", b"beat 0\n"),
    (b"beat 0", b"beat -1000000\n"),
    (b"beat 1000000", b"beat 3000000\n"),
    // What is too far is the nearest that isn't, and then counted from the origin.
    (b"beat 1152921504606846976", b"beat 1152921504605846976\n"),
    (b"beat -1152921504606846976", b"beat -1152921504607846976\n"),
    (b"phase 0", b"phase 3000000\n"),
    (b"phase 249999", b"phase 3999996\n"),
    (b"phase 250000", b"phase 0\n"),
    (b"phase 1250000", b"phase 0\n"),
    (b"phase 1500000", b"phase 1000000\n"),
    (b"time 0", b"time 250000\n"),
    (b"time 1000000", b"time 500000\n"),
    (b"time -1000000", b"time 0\n"),
    // Half a microsecond is rounded away from 0.
    (b"time 1", b"time 250000\n"),
    (b"time 2", b"time 250001\n"),
    (b"time -1", b"time 250000\n"),
    (b"time -2", b"time 249999\n"),
    (b"time 1152921504606846976", b"time 288230376151711744\n"),
    (b"tempo 500000", b"ok 18446744073709551615\n"),
    (b"bpm 120", b"ok 18446744073709551615\n"),
    (b"play", b"ok 18446744073709551615\n"),
    (b"play 5", b"ok 18446744073709551615\n"),
    (b"stop", b"ok 18446744073709551615\n"),
    (b"stop 5", b"ok 18446744073709551615\n"),
    (b"force 1 2", b"ok 18446744073709551615\n"),
    (b"request 1 2", b"ok 18446744073709551615\n"),
    (b"quantum 0", b"ok 18446744073709551615\n"),
    (b"watch", b"ok\n"),
    (b"unwatch", b"ok\n"),
    (b"clients", b"clients 15\n"),
    (
        b"gates",
        b"gates 4 bound 0 unbound 1 failed 18446744073709551615 bound 70\n",
    ),
    (
        b"end",
        b"bad end is for a server that was started with --end-allowed\n",
    ),
    (
        b"help",
        b"bad no such command; there are status now beat phase time tempo bpm play stop force request quantum watch unwatch clients gates end\n",
    ),
    (b"status 1", b"bad status takes nothing\n"),
    (b"now 1", b"bad now takes nothing\n"),
    (
        b"beat",
        b"bad beat takes a time in microseconds, within 2^60 of 0\n",
    ),
    (
        b"phase",
        b"bad phase takes a time in microseconds, within 2^60 of 0\n",
    ),
    (
        b"time",
        b"bad time takes a beat in microbeats, within 2^60 of 0\n",
    ),
    (
        b"tempo",
        b"bad tempo takes microseconds per beat, from 60060 to 3000000\n",
    ),
    (
        b"bpm",
        b"bad bpm takes beats per minute, from 20 to 999, with up to six places\n",
    ),
    (
        b"play now",
        b"bad play takes nothing, or a time in microseconds, within 2^60 of 0\n",
    ),
    (
        b"stop now",
        b"bad stop takes nothing, or a time in microseconds, within 2^60 of 0\n",
    ),
    (
        b"force 1",
        b"bad force takes a beat in microbeats and a time in microseconds, within 2^60 of 0\n",
    ),
    (
        b"request 1",
        b"bad request takes a beat in microbeats and a time in microseconds, within 2^60 of 0\n",
    ),
    (
        b"quantum",
        b"bad quantum takes microbeats, from 0 to 1099511627776\n",
    ),
    (b"watch 1", b"bad watch takes nothing\n"),
    (b"unwatch 1", b"bad unwatch takes nothing\n"),
    (b"clients 1", b"bad clients takes nothing\n"),
    (b"gates 1", b"bad gates takes nothing\n"),
    (b"end 1", b"bad end takes nothing\n"),
    (
        b"status                                                                                                                           ",
        b"bad a line has at most 128 bytes\n",
    ),
];

// And where a client may end the serving, and no gate is there.
const ALLOWED: &[(&[u8], &[u8])] = &[(b"end", b"ok\n"), (b"gates", b"gates 0\n")];

// And where the numbers of the state are as far out as they can be.
const FAR: &[(&[u8], &[u8])] = &[
    (
        b"status",
        b"status 3000000 -1152921504606846976 1152921504606846976 0 1152921504606846976 4294967295 0 ffffffffffffffff 42\n",
    ),
    (b"phase 0", b"phase 0\n"),
];

// What is told of that state where it is the last one that can be numbered.
const CHANGED: &[u8] =
    b"changed 250000 1000000 250000 1 -1 3 4000000 000102030405feff 18446744073709551615\n";

const GATES: [GateTold; 4] = [
    GateTold {
        state: GateState::Bound,
        refused: 0,
    },
    GateTold {
        state: GateState::Unbound,
        refused: 1,
    },
    GateTold {
        state: GateState::Failed,
        refused: u64::MAX,
    },
    GateTold {
        state: GateState::Bound,
        refused: 70,
    },
];

fn shown() -> State
    ensures { IsTidyState result }
{
    State {
        timeline: Timeline {
            mpb: 250_000,
            beat: 1_000_000,
            time: 250_000,
        },
        start: ClientStart {
            playing: true,
            time: -1,
            stamp: 5,
        },
        sync: true,
        peers: 3,
        moment: 6,
        app: 7,
        audio: 8,
        session: NodeId(*b"\x00\x01\x02\x03\x04\x05\xfe\xff"),
        quantum: 4_000_000,
    }
}

// A state whose numbers are as far out as they can be.
fn far() -> State
    ensures { IsTidyState result }
{
    State {
        timeline: Timeline {
            mpb: 3_000_000,
            beat: -1_152_921_504_606_846_976,
            time: 1_152_921_504_606_846_976,
        },
        start: ClientStart {
            playing: false,
            time: 1_152_921_504_606_846_976,
            stamp: 0,
        },
        sync: false,
        peers: u32::MAX,
        moment: 0,
        app: 0,
        audio: 0,
        session: NodeId([0xff; 8]),
        quantum: 0,
    }
}

// What an answer is made of, where this is shown and a client may end the serving or not.
fn known_of(shown: State, may_end: bool, gates: &[GateTold]) -> Known<'_>
    requires tidy { IsTidyState shown }
    requires gates { length gates.now ≤ 4 }
    ensures tidy { IsTidyState result.shown }
    ensures gates { length result.gates.now ≤ 4 }
{
    Known {
        published: 42,
        shown,
        at: 2_000_000,
        number: u64::MAX,
        clients: 15,
        gates,
        may_end,
    }
}

// A buffer that holds something.
fn used() -> LineBuf {
    let mut line = LineBuf::new();
    let _room = line.try_extend_from_slice(b"status 1 2 3\n");
    line
}

// What a line asks for, which is in range.
fn asked_in(line: &[u8]) -> Option<Ask>
    ensures { IfSome result IsAsk }
{
    ask_of(line)
}

fn expect_answers(rt: &impl Abort, known: &Known, rows: &[(&[u8], &[u8])])
    requires tidy { IsTidyState known.now.shown }
    requires gates { length known.now.gates.now ≤ 4 }
{
    for (line, answer) in rows {
        let mut text = used();
        put_answer(&mut text, asked_in(line), reason_of(line), known);
        assert_eq!(rt; text.as_slice(), *answer);
    }
}

// rule: view_words, since_origin
#[test]
fn each_line_has_its_answer(rt: HostRuntime) {
    expect_answers(&rt, &known_of(shown(), false, &GATES), ROWS);
    expect_answers(&rt, &known_of(shown(), true, &[]), ALLOWED);
    expect_answers(&rt, &known_of(far(), false, &[]), FAR);
}

// rule: changed_text_of
#[test]
fn who_watches_is_told_the_words_of_status(rt: HostRuntime) {
    let mut line = used();
    put_changed(&mut line, &view_of(&shown()), u64::MAX);
    assert_eq!(rt; line.as_slice(), CHANGED);
}
