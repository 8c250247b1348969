//! Runs under a client in which calls fail or more comes than finds room, and which status tells it where several do.

use super::super::live::sides::{Sides, sides_over};
use super::super::rows::line_of;
use super::super::runs::empty_log;
use super::clients::{OPENING, SCRIPT, WORDS};
use link_daemon::Status;
use lk_outside::{BIND, BytesSink, HEAR, LISTEN, ListPace, ListPort, ListTalk, SAY, WRITE};
use std::alloc::{AllocError, Global};
use std::sync::Wait;
use std::test::Fail;
use std::thread::Threads;

/// A call that fails: its kind, and its number among those of its kind, from 1.
type Call = (u8, u64);

/// A call that is never made.
const NEVER: Call = (0, 0);

/// A run has two events at least, a tick and its end, of which this journal takes the first.
const ONE_EVENT: &str = "control 127.0.0.1:20900 --events 1";

/// One line more than are answered.
const TOO_MANY: usize = 4_097;

/// A run whose client asks for the status so often, what is wrong in it, and what comes of it.
struct Case {
    /// Whether the journal takes one event alone.
    one_event: bool,
    /// Whether a command stands behind the head.
    has_command: bool,
    asks: usize,
    of_port: Call,
    of_talk: Call,
    of_sink: Call,
    /// The number of the status, and the line at fault that it tells, 0 for none.
    status: u8,
    line: u32,
    /// How many lines are logged, and how many are answered.
    logged: usize,
    answered: usize,
}

const CASES: &[Case] = &[
    Case {
        one_event: false,
        has_command: true,
        asks: 1,
        of_port: NEVER,
        of_talk: NEVER,
        of_sink: NEVER,
        status: 8,
        line: 4,
        logged: 0,
        answered: 0,
    },
    Case {
        one_event: false,
        has_command: false,
        asks: 1,
        of_port: NEVER,
        of_talk: (LISTEN, 1),
        of_sink: NEVER,
        status: 11,
        line: 0,
        logged: 0,
        answered: 0,
    },
    Case {
        one_event: false,
        has_command: false,
        asks: 1,
        of_port: NEVER,
        of_talk: (HEAR, 1),
        of_sink: NEVER,
        status: 11,
        line: 0,
        logged: 0,
        answered: 0,
    },
    Case {
        one_event: false,
        has_command: false,
        asks: 2,
        of_port: NEVER,
        of_talk: (SAY, 1),
        of_sink: NEVER,
        status: 11,
        line: 0,
        logged: 1,
        answered: 0,
    },
    Case {
        one_event: false,
        has_command: false,
        asks: TOO_MANY,
        of_port: NEVER,
        of_talk: NEVER,
        of_sink: NEVER,
        status: 12,
        line: 0,
        logged: 4_096,
        answered: 4_096,
    },
    Case {
        one_event: false,
        has_command: false,
        asks: 1,
        of_port: NEVER,
        of_talk: NEVER,
        of_sink: (WRITE, 1),
        status: 7,
        line: 0,
        logged: 1,
        answered: 1,
    },
    // Of two causes the first in the order is told: the port, the talk, the journal, the lines, the sink. Without the network a client is
    // served all the same.
    Case {
        one_event: false,
        has_command: false,
        asks: 2,
        of_port: (BIND, 1),
        of_talk: (SAY, 2),
        of_sink: NEVER,
        status: 3,
        line: 0,
        logged: 2,
        answered: 1,
    },
    Case {
        one_event: true,
        has_command: false,
        asks: 1,
        of_port: NEVER,
        of_talk: (SAY, 1),
        of_sink: NEVER,
        status: 11,
        line: 0,
        logged: 1,
        answered: 0,
    },
    Case {
        one_event: false,
        has_command: false,
        asks: TOO_MANY,
        of_port: NEVER,
        of_talk: NEVER,
        of_sink: (WRITE, 1),
        status: 12,
        line: 0,
        logged: 4_096,
        answered: 4_096,
    },
];

// rule: ControlRun.first_of, control_app, HasEndedControl
#[test]
fn a_run_is_told_by_the_first_of_its_causes(rt: HostRuntime) -> Result<(), Fail> {
    for case in CASES {
        let (status, answered) = (case.status, case.answered);
        assert!(rt;
            is_told(&rt, rt.alloc(), case)?,
            "{status}, {answered} answered"
        );
    }
    Ok(())
}

// Whether a run is told by the status of the case, and leaves what that has.
fn is_told<R: Threads + Wait + Sync>(
    rt: &R,
    alloc: Global,
    case: &Case,
) -> Result<bool, AllocError> {
    let mut talk = talk_of(alloc, case)?;
    is_told_over(rt, alloc, case, &mut talk)
}

fn is_told_over<R: Threads + Wait + Sync>(
    rt: &R,
    alloc: Global,
    case: &Case,
    talk: &mut ListTalk,
) -> Result<bool, AllocError> {
    let (status, logged) = run_by(rt, alloc, case, talk)?;
    Ok(
        status.number() == case.status
            && line_of(status) == case.line
            && logged == case.logged
            && are_answers(talk.bytes(), case.answered),
    )
}

fn run_by<R: Threads + Wait + Sync>(
    rt: &R,
    alloc: Global,
    case: &Case,
    talk: &mut ListTalk,
) -> Result<(Status, usize), AllocError> {
    let mut port = port_of(alloc, case)?;
    let mut sides = sides_of(alloc, case)?;
    let words = if case.one_event { ONE_EVENT } else { WORDS };
    run_over(rt, alloc, words, &mut port, talk, &mut sides)
}

// How a run ended, and how many lines it logged.
fn run_over<R: Threads + Wait + Sync>(
    rt: &R,
    alloc: Global,
    words: &str,
    port: &mut ListPort,
    talk: &mut ListTalk,
    sides: &mut Sides,
) -> Result<(Status, usize), AllocError> {
    let mut log = empty_log(alloc);
    let pace = &mut ListPace::new(0);
    let status = sides.run_talking(rt, alloc, words, port, talk, pace, &mut log)?;
    Ok((status, log.lines.len()))
}

// Whether they are so many answers of the opening.
fn are_answers(bytes: &[u8], count: usize) -> bool {
    bytes.len() == count.saturating_mul(OPENING.len())
        && bytes
            .chunks_exact(OPENING.len())
            .all(|answer| answer == OPENING)
}

fn talk_of(alloc: Global, case: &Case) -> Result<ListTalk, AllocError> {
    let failing = one(alloc, case.of_talk)?;
    ListTalk::new(alloc, asks(alloc, case.asks)?, 4096, 100_000, failing)
}

// So many lines that ask for the status.
fn asks(alloc: Global, count: usize) -> Result<Vec<u8>, AllocError> {
    let mut text = Vec::new(alloc);
    for _ in 0..count {
        text.extend_from_slice(b"status\n")?;
    }
    Ok(text)
}

fn port_of(alloc: Global, case: &Case) -> Result<ListPort, AllocError> {
    ListPort::new(alloc, Vec::new(alloc), 0, one(alloc, case.of_port)?)
}

fn sides_of(alloc: Global, case: &Case) -> Result<Sides, AllocError> {
    let out = BytesSink::new(alloc, 1_000, 4096, one(alloc, case.of_sink)?)?;
    let command = if case.has_command { "at 0 look\n" } else { "" };
    let script = format!(in alloc; "{SCRIPT}{command}")?;
    let mut sides = sides_over(alloc, script.as_bytes(), 0)?;
    sides.out = out;
    Ok(sides)
}

// The list of a call that fails.
fn one(alloc: Global, call: Call) -> Result<Vec<Call>, AllocError> {
    Vec::from_slice(alloc, &[call])
}
