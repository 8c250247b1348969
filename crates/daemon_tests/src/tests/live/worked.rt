//! Runs of two blocks over a port that nothing comes to, in which one call fails or the journal is too short.

use super::blocks::blocks_of;
use super::events::count_of;
use super::sides::Sides;
use link_live::Report;
use lk_outside::{BIND, BytesSink, BytesSource, ListAudio, ListPace, ListPort, PLAY, SEND, WRITE};
use std::alloc::{AllocError, Global};
use std::sync::Wait;
use std::test::Fail;
use std::thread::Threads;

/// A call that fails: its kind, and its number among those of its kind, from 1.
type Call = (u8, u64);

/// A call that is never made.
const NEVER: Call = (0, 0);

const TEMPO: &[u8] = b"link 1\nsetup 500000 1\ngate 127.0.0.1:20808\nat 1000000 tempo 250000\n";

/// The same with a destination.
const TO: &[u8] =
    b"link 1\nsetup 500000 1\ngate 127.0.0.1:20808\nto 127.0.0.1:20809\nat 1000000 tempo 250000\n";

const THREE_TEMPOS: &[u8] = b"link 1\nsetup 500000 1\ngate 127.0.0.1:20808\n\
    at 1000000 tempo 250000\nat 1000000 tempo 400000\nat 1000000 tempo 500000\n";

/// What a run of one tempo writes where no call fails. Beat 2 is at 1,000,000, and so half a second of four beats a second before it is
/// beat 0.
const TEXT: &[u8] =
    b"# live 3 2 2 1 1 0 2 0\n# state 1 250000 0 500000 0 0 0 1 0 0 1 0 2d6b653a343a2e60 4000000\n";

/// How many there are of a run: events in the journal, reads, plays, commits made, and datagrams posted.
type Counts = [usize; 5];

/// A run, and what it leaves.
struct Case {
    shows: &'static str,
    words: &'static str,
    script: &'static [u8],
    of_port: Call,
    of_device: Call,
    of_sink: Call,
    /// The number of its status.
    status: u8,
    leaves: Counts,
    /// How many of the events are commits at least. Where the journal takes one event, that is the first turn's tick or the commit.
    taken: usize,
}

const CASES: &[Case] = &[
    Case {
        shows: "a bind that fails",
        words: "live",
        script: TEMPO,
        of_port: (BIND, 1),
        of_device: NEVER,
        of_sink: NEVER,
        status: 3,
        leaves: [3, 2, 2, 1, 0],
        taken: 1,
    },
    Case {
        shows: "a send that fails",
        words: "live",
        script: TO,
        of_port: (SEND, 1),
        of_device: NEVER,
        of_sink: NEVER,
        status: 3,
        leaves: [3, 2, 2, 1, 0],
        taken: 1,
    },
    Case {
        shows: "a play that fails",
        words: "live",
        script: TEMPO,
        of_port: NEVER,
        of_device: (PLAY, 1),
        of_sink: NEVER,
        status: 4,
        leaves: [3, 1, 0, 1, 0],
        taken: 1,
    },
    Case {
        shows: "a first write that fails",
        words: "live",
        script: TEMPO,
        of_port: NEVER,
        of_device: NEVER,
        of_sink: (WRITE, 1),
        status: 7,
        leaves: [3, 2, 2, 1, 0],
        taken: 1,
    },
    Case {
        shows: "a second write that fails",
        words: "live",
        script: TEMPO,
        of_port: NEVER,
        of_device: NEVER,
        of_sink: (WRITE, 2),
        status: 7,
        leaves: [3, 2, 2, 1, 0],
        taken: 1,
    },
    Case {
        shows: "a journal of one event",
        words: "live --events 1",
        script: TEMPO,
        of_port: NEVER,
        of_device: NEVER,
        of_sink: NEVER,
        status: 6,
        leaves: [1, 2, 2, 1, 0],
        taken: 0,
    },
    Case {
        shows: "a journal of three events and three commits",
        words: "live --events 3",
        script: THREE_TEMPOS,
        of_port: NEVER,
        of_device: NEVER,
        of_sink: NEVER,
        status: 6,
        leaves: [3, 2, 2, 3, 0],
        taken: 2,
    },
];

#[test]
fn a_run_of_two_blocks_is_told_by_what_fails_in_it(rt: HostRuntime) -> Result<(), Fail> {
    for case in CASES {
        let shows = case.shows;
        assert!(rt; is_told(&rt, rt.alloc(), case)?, "{shows}");
    }
    Ok(())
}

fn is_told<R: Threads + Wait + Sync>(
    rt: &R,
    alloc: Global,
    case: &Case,
) -> Result<bool, AllocError> {
    let mut port = port_of(alloc, case)?;
    let mut sides = sides_of(alloc, case)?;
    is_told_over(rt, alloc, case, &mut port, &mut sides)
}

fn is_told_over<R: Threads + Wait + Sync>(
    rt: &R,
    alloc: Global,
    case: &Case,
    port: &mut ListPort,
    sides: &mut Sides,
) -> Result<bool, AllocError> {
    let status = sides.run(rt, alloc, case.words, port, &mut ListPace::new(0))?;
    Ok(
        status.number() == case.status
            && counts_of(&sides.report, port.posts().len()) == case.leaves
            && count_of(&sides.report.events, b'c') >= case.taken
            && is_front(sides.out.bytes(), case.of_sink),
    )
}

fn counts_of(report: &Report, posts: usize) -> Counts {
    [
        report.events.len(),
        report.reads.len(),
        report.plays.len(),
        report.app_commits.len(),
        posts,
    ]
}

// Whether a byte of the whole text was written by each write before the one that failed, if any did.
fn is_front(text: &[u8], (_, failed): Call) -> bool {
    failed == 0 || (text.len() as u64 == failed - 1 && TEXT.starts_with(text))
}

fn port_of(alloc: Global, case: &Case) -> Result<ListPort, AllocError> {
    ListPort::new(alloc, Vec::new(alloc), 10, one(alloc, case.of_port)?)
}

// Two blocks, and a sink that takes a byte a write.
fn sides_of(alloc: Global, case: &Case) -> Result<Sides, AllocError> {
    let script = Vec::from_slice(alloc, case.script)?;
    let audio = ListAudio::new(alloc, blocks_of(alloc, 2)?, one(alloc, case.of_device)?)?;
    let out = BytesSink::new(alloc, 1_000, 1, one(alloc, case.of_sink)?)?;
    Ok(Sides {
        input: BytesSource::new(script, 4096, Vec::new(alloc)),
        audio,
        out,
        report: Report::new(alloc),
    })
}

// The list of a call that fails.
fn one(alloc: Global, call: Call) -> Result<Vec<Call>, AllocError> {
    Vec::from_slice(alloc, &[call])
}
