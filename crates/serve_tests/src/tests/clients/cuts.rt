//! That lines are answered however the clients' bytes are cut and come between each other's.
//!
//! Nothing is edited, and all is done at 0.

use super::session::{Does, Given, USUAL, put_step, served};
use super::told::{expect_answers_first, repeated};
use link_clients::ServeEnd;
use lk_talks::Step;
use std::alloc::Global;
use std::process::Abort;

// What the first client sends, and is answered.
const FIRST: &[u8] = b"status\n\
    now\r\n\
    beat 1000000\n\
    phase -500000\r\n\
    time 3\n\
    nope\n\
    beat 01\r\n\
    \n\
    clients\n\
    gates\r\n\
    bbbbbbbbbbbbbbbbbbbbbbbbbbbbbbbbbbbbbbbbbbbbbbbbbbbbbbbbbbbbbbbbbbbbbbbbbbbbbbbbbbbbbbbbbbbbbbbbbbbbbbbbbbbbbbbbbbbbbbbbbbbbbbbbb\n\
    unwatch\n\
    end\n";

const FIRST_TOLD: &[u8] = b"status 500000 0 0 0 0 0 4000000 4141414141414141 0\n\
    now 0 0 0\n\
    beat 2000000\n\
    phase 3000000\n\
    time 2\n\
    bad no such command; there are status now beat phase time tempo bpm play stop force request quantum watch unwatch clients gates end\n\
    bad beat takes a time in microseconds, within 2^60 of 0\n\
    bad no such command; there are status now beat phase time tempo bpm play stop force request quantum watch unwatch clients gates end\n\
    clients 2\n\
    gates 2 bound 0 failed 20\n\
    bad a line has at most 128 bytes\n\
    ok\n\
    bad end is for a server that was started with --end-allowed\n";

// What the second one sends, and is answered.
const SECOND: &[u8] = b"clients\r\n\
    beat -1\n\
    beat -0\n\
    quantum -1\n\
    status now\n\
    \r\n\
    time 1152921504606846976\n\
    watch\n\
    status\r\n";

const SECOND_TOLD: &[u8] = b"clients 2\n\
    beat -2\n\
    bad beat takes a time in microseconds, within 2^60 of 0\n\
    bad quantum takes microbeats, from 0 to 1099511627776\n\
    bad status takes nothing\n\
    bad no such command; there are status now beat phase time tempo bpm play stop force request quantum watch unwatch clients gates end\n\
    time 576460752303423488\n\
    ok\n\
    status 500000 0 0 0 0 0 4000000 4141414141414141 0\n";

// At how many places the first one's bytes are cut, and in how many rounds all of them are heard.
const CUTS: u16 = 220;

const ROUNDS: u16 = 5;

// Bytes in front of a place, and those behind it.
fn cut(bytes: &[u8], place: usize) -> (&[u8], &[u8]) {
    match bytes.split_at_checked(place) {
        Some(parts) => parts,
        None => (bytes, b""),
    }
}

// Both clients send all, cut at a place each, and in between are heard, so that each one's bytes come between the other's.
fn put_cut(rt: &impl Abort, alloc: Global, steps: &mut Vec<Step>, place: u16) {
    let first = cut(FIRST, usize::from(place));
    let second = cut(SECOND, usize::from(place) % (SECOND.len() + 1));
    put_step(rt, alloc, steps, Does::Sends(0, first.0));
    put_step(rt, alloc, steps, Does::Sends(1, second.0));
    put_step(rt, alloc, steps, Does::Rests(ROUNDS));
    put_step(rt, alloc, steps, Does::Sends(0, first.1));
    put_step(rt, alloc, steps, Does::Sends(1, second.1));
    put_step(rt, alloc, steps, Does::Rests(ROUNDS));
}

fn cuts(rt: &impl Abort, alloc: Global) -> Vec<Step> {
    let mut steps = Vec::new(alloc);
    put_step(rt, alloc, &mut steps, Does::Comes);
    put_step(rt, alloc, &mut steps, Does::Comes);
    for place in 0..CUTS {
        put_cut(rt, alloc, &mut steps, place);
    }
    steps
}

// rule: HasHosted, NoneWaits, IsVisit
#[test]
fn lines_are_answered_wherever_their_bytes_are_cut(rt: HostRuntime) {
    let alloc = rt.alloc();
    let given = Given {
        late: 0,
        room: 20_000,
        ..USUAL
    };
    let session = served(&rt, alloc, cuts(&rt, alloc), &given);
    assert!(rt; session.run.end == ServeEnd::Well);
    let first = session
        .talks
        .said_to(alloc, 0)
        .expect(&rt, "memory for bytes");
    let second = session
        .talks
        .said_to(alloc, 1)
        .expect(&rt, "memory for bytes");
    assert!(rt; first == repeated(&rt, alloc, FIRST_TOLD, CUTS));
    assert!(rt; second == repeated(&rt, alloc, SECOND_TOLD, CUTS));
    expect_answers_first(&rt, session.talks.passed());
}
