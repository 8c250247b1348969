//! That a client which sends many lines at once holds up nobody, and that none of them is lost.

use super::session::{Does, Given, USUAL, gates, put_step, served_by};
use super::told::{append, commits_in, expect_answers_first, repeated, told_to};
use arrayvec::ArrayVec;
use itoa::Buffer;
use link_clients::{Lookout, ServeEnd, Sighted};
use link_shared::Capture;
use lk_talks::{Happened, Step};
use std::alloc::Global;
use std::process::Abort;
use std::sync::Wait;
use std::thread::{Parker, Threads};
use std::time::Duration;

// How many lines it sends: the queue of a link holds a half of that. All are heard in 40 rounds, and in a further round each time that it
// is held back.
const LINES: u16 = 512;

const ROUNDS: u16 = 5_000;

/// A lookout that waits a millisecond at each eighth look while a commit is on its way: so long only is a state shown otherwise than it was
/// published. So commits pile up, and the rounds last until they are taken.
#[derive(Drop)]
struct Patient<'a, R> {
    rt: &'a R,
    looks: u64,
}

impl<'a, R: Wait> Lookout for Patient<'a, R> {
    fn look(&mut self, newest: &Capture, _at: i64, _clients: u32) -> Sighted {
        self.looks = self.looks.wrapping_add(1);
        if self.looks % 8 == 0 && newest.shown != newest.state {
            Parker::new().park_timeout(self.rt, Duration::from_millis(1));
        }
        Sighted {
            gates: gates(),
            full: false,
        }
    }
}

// The answers to so many lines that commit.
fn answers(rt: &impl Abort, alloc: Global) -> Vec<u8> {
    let mut all = Vec::new(alloc);
    for number in 1..=LINES {
        append(rt, &mut all, &answer(number));
    }
    all
}

fn answer(number: u16) -> ArrayVec<u8, 20> {
    let mut line = ArrayVec::new();
    let _room = line.try_extend_from_slice(b"ok ");
    let _room = line.try_extend_from_slice(Buffer::new().format(number).as_bytes());
    let _room = line.try_push(b'\n');
    line
}

// The second client says a line in the fourth round.
fn steps(rt: &impl Abort, alloc: Global) -> Vec<Step> {
    let mut steps = Vec::new(alloc);
    put_step(rt, alloc, &mut steps, Does::Comes);
    put_step(rt, alloc, &mut steps, Does::Comes);
    let lines = repeated(rt, alloc, b"play\n", LINES);
    put_step(rt, alloc, &mut steps, Does::Sends(0, &lines));
    put_step(rt, alloc, &mut steps, Does::Rests(3));
    put_step(rt, alloc, &mut steps, Does::Sends(1, b"clients\n"));
    put_step(rt, alloc, &mut steps, Does::Rests(ROUNDS));
    steps
}

// The last row that says that the client in a seat was told something, 0 where none does.
fn last_told(passed: &[Happened], seat: u8) -> usize {
    let mut last = 0;
    for (at, row) in passed.iter().enumerate() {
        if matches!(row, Happened::Said(other, _) if *other == seat) {
            last = at;
        }
    }
    last
}

fn flood<R: Threads + Wait + Sync + Abort>(rt: &R, alloc: Global) {
    let given = Given {
        room: 4_000,
        events: 1_000,
        ..USUAL
    };
    let patient = Patient { rt, looks: 0 };
    let session = served_by(rt, alloc, steps(rt, alloc), &given, patient);
    let passed = session.talks.passed();
    let right = session.run.end == ServeEnd::Well && commits_in(&session.run.events) == 512;
    assert!(rt; right);
    assert!(rt; told_to(rt, alloc, passed, 0) == answers(rt, alloc));
    assert!(rt; told_to(rt, alloc, passed, 1).as_slice() == b"clients 2\n".as_slice());
    assert!(rt; last_told(passed, 1) < last_told(passed, 0));
    expect_answers_first(rt, passed);
}

// rule: IsServed, NoneWaits
#[test]
fn who_floods_holds_up_nobody(rt: HostRuntime) {
    flood(&rt, rt.alloc());
}
