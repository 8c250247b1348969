//! What stands after a call that fails.

use super::session::{Does, Given, NEVER, USUAL, served, steps_of};
use super::told::{commits_in, count_of, told_to};
use link_clients::ServeEnd;
use lk_outside::{BIND, RECEIVE};
use lk_talks::{ADMIT, HEAR, LISTEN, SAY, SHUT, TURN_AWAY, WAIT};
use std::alloc::Global;
use std::process::Abort;
use std::sync::Wait;
use std::thread::Threads;

// In each of two rounds a client is heard once: for two lines, and for one.
const DOES: &[Does] = &[
    Does::Comes,
    Does::Sends(0, b"play 5\nnow 1\n"),
    Does::Rests(1),
    Does::Sends(0, b"play 6\n"),
    Does::Rests(1),
];

const NOTHING: &[u8] = b"";

const ONE: &[u8] = b"ok 1\n";

const TWO: &[u8] = b"ok 1\nbad now takes nothing\n";

const ALL: &[u8] = b"ok 1\nbad now takes nothing\nok 2\n";

// The calls of the talks and of the port that fail, how the session ends, what the client is told, and how many commits stand in the
// journal.
const ROWS: &[((u8, u64), (u8, u64), ServeEnd, &[u8], u64)] = &[
    (NEVER, NEVER, ServeEnd::Well, ALL, 2),
    ((LISTEN, 1), NEVER, ServeEnd::Talks, NOTHING, 0),
    ((LISTEN, 2), NEVER, ServeEnd::Well, ALL, 2),
    ((WAIT, 1), NEVER, ServeEnd::Talks, NOTHING, 0),
    ((WAIT, 2), NEVER, ServeEnd::Talks, TWO, 1),
    // The wait that would have told the end.
    ((WAIT, 3), NEVER, ServeEnd::Talks, ALL, 2),
    ((WAIT, 4), NEVER, ServeEnd::Well, ALL, 2),
    // The client comes, and in each round nobody else.
    ((ADMIT, 1), NEVER, ServeEnd::Talks, NOTHING, 0),
    ((ADMIT, 2), NEVER, ServeEnd::Talks, NOTHING, 0),
    ((ADMIT, 3), NEVER, ServeEnd::Talks, TWO, 1),
    ((ADMIT, 4), NEVER, ServeEnd::Well, ALL, 2),
    ((TURN_AWAY, 1), NEVER, ServeEnd::Well, ALL, 2),
    ((HEAR, 1), NEVER, ServeEnd::Talks, NOTHING, 0),
    ((HEAR, 2), NEVER, ServeEnd::Talks, TWO, 1),
    ((HEAR, 3), NEVER, ServeEnd::Well, ALL, 2),
    // What can't be answered is done, and no line behind it.
    ((SAY, 1), NEVER, ServeEnd::Talks, NOTHING, 1),
    ((SAY, 2), NEVER, ServeEnd::Talks, ONE, 1),
    ((SAY, 3), NEVER, ServeEnd::Talks, TWO, 2),
    ((SAY, 4), NEVER, ServeEnd::Well, ALL, 2),
    ((SHUT, 1), NEVER, ServeEnd::Well, ALL, 2),
    // A port that fails ends nothing.
    (NEVER, (BIND, 1), ServeEnd::Port, ALL, 2),
    (NEVER, (RECEIVE, 1), ServeEnd::Port, ALL, 2),
    // The port comes before the talks.
    ((SAY, 2), (BIND, 1), ServeEnd::Port, ONE, 1),
    ((LISTEN, 1), (BIND, 1), ServeEnd::Port, NOTHING, 0),
];

fn expect_row<R: Threads + Wait + Sync + Abort>(
    rt: &R,
    alloc: Global,
    given: &Given,
    wanted: (ServeEnd, &[u8], u64),
    number: usize,
) {
    let session = served(rt, alloc, steps_of(rt, alloc, DOES), given);
    let told = told_to(rt, alloc, session.talks.passed(), 0);
    let found = (
        session.run.end,
        told.as_slice(),
        commits_in(&session.run.events),
    );
    assert!(rt; found == wanted, "{number}");
}

// rule: ServeRun.first_of, IsHosted, EndsHosting
#[test]
fn what_was_done_before_a_fault_stands(rt: HostRuntime) {
    for (number, &(talks, port, end, told, commits)) in ROWS.iter().enumerate() {
        let given = Given {
            talks,
            port,
            ..USUAL
        };
        expect_row(&rt, rt.alloc(), &given, (end, told, commits), number);
    }
}

// What clients do behind the first 15, the call that fails, how far looks are from each other, and how many clients were let go.
const LATER: &[(&[Does], (u8, u64), i64, u64)] = &[
    (&[Does::Comes, Does::Rests(9)], (TURN_AWAY, 1), 1, 0),
    (&[Does::Rests(9)], (SHUT, 1), 100_000_000, 0),
    (&[Does::Rests(9)], (SHUT, 9), 100_000_000, 8),
];

fn expect_later<R: Threads + Wait + Sync + Abort>(
    rt: &R,
    alloc: Global,
    does: &[Does],
    given: &Given,
    gone: u64,
) {
    let mut steps = steps_of(rt, alloc, &[Does::Comes; 15]);
    let more = steps_of(rt, alloc, does);
    assert!(rt; steps.extend(more).is_ok(), "memory for steps");
    let session = served(rt, alloc, steps, given);
    let right = session.run.end == ServeEnd::Talks
        && count_of(session.talks.passed(), b's') == gone;
    assert!(rt; right && session.talks.fault_count() == 1, "{gone}");
}

// rule: EndsHosting
#[test]
fn no_call_fails_unseen_behind_15_clients(rt: HostRuntime) {
    for &(does, talks, late, gone) in LATER {
        let given = Given {
            talks,
            late,
            ..USUAL
        };
        expect_later(&rt, rt.alloc(), does, &given, gone);
    }
}
