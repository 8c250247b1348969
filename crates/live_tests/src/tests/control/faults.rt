//! What stands after a read or a write that fails.

use super::session::{Given, Session, USUAL, served};
use link_control::Served;
use lk_outside::{HEAR, SAY};
use std::alloc::Global;
use std::process::Abort;
use std::sync::Wait;

// Three lines of 7, 5 and 5 bytes, and their answers of 22, 5 and 4 bytes.
const SENT: &[u8] = b"status\nplay\nnope\n";

const ANSWERS: &[u8] = b"status 500000 0 0 0 0\nok 1\nbad\n";

// A call that is never made.
const NEVER: (u8, u64) = (SAY, 0);

// The call that fails, and how many bytes there is room for; how it ends, how many bytes of the answers are written, and how many lines
// logged. A read gives a byte.
const ROWS: &[((u8, u64), usize, Served, usize, usize)] = &[
    (NEVER, 31, Served::Ended, 31, 3),
    // The line whose answer can't be written is logged.
    ((SAY, 1), 31, Served::Failed, 0, 1),
    ((SAY, 2), 31, Served::Failed, 22, 2),
    ((SAY, 3), 31, Served::Failed, 27, 3),
    ((SAY, 4), 31, Served::Ended, 31, 3),
    (NEVER, 0, Served::Failed, 0, 1),
    (NEVER, 1, Served::Failed, 1, 1),
    (NEVER, 21, Served::Failed, 21, 1),
    (NEVER, 22, Served::Failed, 22, 2),
    (NEVER, 26, Served::Failed, 26, 2),
    (NEVER, 27, Served::Failed, 27, 3),
    (NEVER, 30, Served::Failed, 30, 3),
    // All that was heard is answered.
    ((HEAR, 1), 31, Served::Failed, 0, 0),
    ((HEAR, 7), 31, Served::Failed, 0, 0),
    ((HEAR, 8), 31, Served::Failed, 22, 1),
    ((HEAR, 12), 31, Served::Failed, 22, 1),
    ((HEAR, 13), 31, Served::Failed, 27, 2),
    // The read that would have met the end.
    ((HEAR, 18), 31, Served::Failed, 31, 3),
    ((HEAR, 19), 31, Served::Ended, 31, 3),
];

fn expect_row<R: Wait + Abort>(
    rt: &R,
    alloc: Global,
    failing: (u8, u64),
    room: usize,
    wanted: (Served, usize, usize),
) {
    let given = Given {
        sent: SENT,
        most: 1,
        room,
        failing,
        ..USUAL
    };
    let session = served(rt, alloc, &given);
    assert!(rt; is_front(&session, wanted), "{failing:?} {room}");
}

// Whether a session ended so and logged so many lines, and so many bytes of the answers' front were written.
fn is_front(session: &Session, wanted: (Served, usize, usize)) -> bool {
    let written = session.talk.bytes();
    let found = (session.end, written.len(), session.log.lines.len());
    found == wanted && ANSWERS.starts_with(written)
}

// rule: EndsServing
#[test]
fn what_is_written_before_a_fault_is_the_front_of_the_answers(rt: HostRuntime) {
    for &(failing, room, end, written, lines) in ROWS {
        expect_row(&rt, rt.alloc(), failing, room, (end, written, lines));
    }
}
