//! That the numbers of the commits rise by one over all clients, as the commits stand in the journal.

use super::session::{Does, Given, Session, USUAL, Watch, put_step, served};
use super::told::{append, expect_answers_first};
use arrayvec::ArrayVec;
use itoa::Buffer;
use link_clients::ServeEnd;
use link_node::Event;
use lk_talks::{Happened, Step};
use std::alloc::Global;
use std::process::Abort;
use std::sync::Wait;
use std::thread::Threads;

// How many lines each client sends, and in how many rounds all are heard.
const LINES: i64 = 15;

const ROUNDS: u16 = 200;

// How many bytes are heard at once at most.
const MOSTS: &[usize] = &[1, 2, 3, 5, 8, 9, 10, 64];

type Text = ArrayVec<u8, 40>;

// Some bytes, a number and a line feed.
fn text_of(before: &[u8], number: i64) -> Text {
    let mut text = Text::new();
    let _room = text.try_extend_from_slice(before);
    let _room = text.try_extend_from_slice(Buffer::new().format(number).as_bytes());
    let _room = text.try_push(b'\n');
    text
}

// When the client in a seat starts to play by a line of its own: no other line has that time.
fn time_of(seat: u8, line: i64) -> i64 {
    line.wrapping_add(100)
        .wrapping_add(i64::from(seat).wrapping_mul(100))
}

fn lines_of(rt: &impl Abort, alloc: Global, seat: u8) -> Vec<u8> {
    let mut lines = Vec::new(alloc);
    for line in 0..LINES {
        append(rt, &mut lines, &text_of(b"play ", time_of(seat, line)));
    }
    lines
}

fn steps(rt: &impl Abort, alloc: Global) -> Vec<Step> {
    let mut steps = Vec::new(alloc);
    for seat in 0..3u8 {
        put_step(rt, alloc, &mut steps, Does::Comes);
        put_step(
            rt,
            alloc,
            &mut steps,
            Does::Sends(seat, &lines_of(rt, alloc, seat)),
        );
    }
    put_step(rt, alloc, &mut steps, Does::Rests(ROUNDS));
    steps
}

// The seat that a row says was told a line, if it says that.
fn seat_told(row: &Happened) -> Option<u8> {
    match row {
        Happened::Said(seat, _) => Some(*seat),
        _ => None,
    }
}

fn is_numbered(row: &Happened, number: i64) -> bool {
    match row {
        Happened::Said(_, line) => line.as_slice() == text_of(b"ok ", number).as_slice(),
        _ => false,
    }
}

// When each commit starts to play, in order of what the clients were told. Fails where a number isn't the next one.
fn times_told(rt: &impl Abort, alloc: Global, passed: &[Happened]) -> Vec<i64> {
    let mut times = Vec::new(alloc);
    let mut lines = [0i64; 3];
    let mut number = 1i64;
    for row in passed {
        if let Some(seat) = seat_told(row) {
            assert!(rt; is_numbered(row, number), "{number}");
            number = number.wrapping_add(1);
            put_time(rt, &mut times, &mut lines, seat);
        }
    }
    times
}

fn put_time(rt: &impl Abort, times: &mut Vec<i64>, lines: &mut [i64; 3], seat: u8) {
    if let Some(line) = lines.get_mut(usize::from(seat)) {
        assert!(rt;
            times.push(time_of(seat, *line)).is_ok(),
            "memory for a time"
        );
        *line = line.wrapping_add(1);
    }
}

// When a commit starts to play, if it does.
fn time_in(event: &Event) -> Option<i64> {
    match event {
        Event::App { commit, .. } => Some(commit.start?.time),
        _ => None,
    }
}

// When each commit of a journal starts to play, in order.
fn times_in(rt: &impl Abort, alloc: Global, events: &[Event]) -> Vec<i64> {
    let mut times = Vec::new(alloc);
    for event in events {
        if let Some(time) = time_in(event) {
            assert!(rt; times.push(time).is_ok(), "memory for a time");
        }
    }
    times
}

fn expect_numbers<R: Threads + Wait + Sync + Abort>(rt: &R, alloc: Global, most: usize) {
    let given = Given { most, ..USUAL };
    let session = served(rt, alloc, steps(rt, alloc), &given);
    expect_told(rt, alloc, &session, most);
    expect_answers_first(rt, session.talks.passed());
}

fn expect_told(rt: &impl Abort, alloc: Global, session: &Session<Watch>, most: usize) {
    let told = times_told(rt, alloc, session.talks.passed());
    let taken = times_in(rt, alloc, &session.run.events);
    let right = session.run.end == ServeEnd::Well && told.len() == 45 && told == taken;
    assert!(rt; right, "{most}");
}

// rule: IsServed, NoneWaits
#[test]
fn commits_are_numbered_by_one_over_all_clients(rt: HostRuntime) {
    for most in MOSTS {
        expect_numbers(&rt, rt.alloc(), *most);
    }
}
