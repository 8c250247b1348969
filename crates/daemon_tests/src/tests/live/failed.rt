//! Runs in which calls fail, and which status tells it where several do.
//!
//! The script has one commit and the node three destinations, so a run has one bind, three sends and more at its first tick, and an event
//! each for that tick, for the commit and for the end. Two idle arrivals come, and the device has three blocks. What two causes leave is
//! the lesser of what each leaves, count by count.

ghost use Rattle.std.specs.Prelude.{All, IfOk};
ghost use Rattle.lk_outside.specs.Coming.{IsToCome};

use super::blocks::blocks_of;
use super::events::count_of;
use super::sides::Sides;
use client_state::Commit;
use link_daemon::Status;
use link_live::Report;
use link_node::Event;
use lk_base::Timeline;
use lk_outside::{
    Arrival, BIND, BytesSink, BytesSource, ListAudio, ListPort, NEXT, PLAY, READ, RECEIVE, SEND,
    WRITE,
};
use std::alloc::{AllocError, Global};
use std::process::Abort;
use std::sync::Wait;
use std::test::Fail;
use std::thread::Threads;

/// A call that fails: its kind, and its number among those of its kind, from 1.
type Call = (u8, u64);

/// A call that is never made.
const NEVER: Call = (0, 0);

/// Words that say no number of events.
const NO_NUMBER: u8 = 9;

/// What is wrong in a run, and the number of the status that comes of it.
struct Cause {
    of_port: Call,
    of_device: Call,
    of_source: Call,
    of_sink: Call,
    /// How many events the journal takes; 0 where nothing is wrong with that, and `NO_NUMBER` where the words say none.
    events: u8,
    /// Whether a line is outside the grammar.
    bad_line: bool,
    /// How many commands more the script has.
    looks: u32,
    status: u8,
    leaves: Counts,
}

/// How many there are of a run: ticks, commits and ends in the journal; reads and plays; captures and commits made; datagrams posted.
type Counts = [usize; 8];

const CAUSES: &[Cause] = &[
    Cause {
        of_port: NEVER,
        of_device: NEVER,
        of_source: NEVER,
        of_sink: NEVER,
        events: 0,
        bad_line: false,
        looks: 0,
        status: 0,
        leaves: [1, 1, 1, 3, 3, 1, 1, 6],
    },
    Cause {
        of_port: (BIND, 1),
        of_device: NEVER,
        of_source: NEVER,
        of_sink: NEVER,
        events: 0,
        bad_line: false,
        looks: 0,
        status: 3,
        leaves: [1, 1, 1, 3, 3, 1, 1, 0],
    },
    Cause {
        of_port: (BIND, 2),
        of_device: NEVER,
        of_source: NEVER,
        of_sink: NEVER,
        events: 0,
        bad_line: false,
        looks: 0,
        status: 0,
        leaves: [1, 1, 1, 3, 3, 1, 1, 6],
    },
    Cause {
        of_port: (BIND, 3),
        of_device: NEVER,
        of_source: NEVER,
        of_sink: NEVER,
        events: 0,
        bad_line: false,
        looks: 0,
        status: 0,
        leaves: [1, 1, 1, 3, 3, 1, 1, 6],
    },
    Cause {
        of_port: (RECEIVE, 1),
        of_device: NEVER,
        of_source: NEVER,
        of_sink: NEVER,
        events: 0,
        bad_line: false,
        looks: 0,
        status: 3,
        leaves: [1, 1, 1, 3, 3, 1, 1, 3],
    },
    Cause {
        of_port: (RECEIVE, 2),
        of_device: NEVER,
        of_source: NEVER,
        of_sink: NEVER,
        events: 0,
        bad_line: false,
        looks: 0,
        status: 3,
        leaves: [1, 1, 1, 3, 3, 1, 1, 3],
    },
    Cause {
        of_port: (RECEIVE, 3),
        of_device: NEVER,
        of_source: NEVER,
        of_sink: NEVER,
        events: 0,
        bad_line: false,
        looks: 0,
        status: 3,
        leaves: [1, 1, 1, 3, 3, 1, 1, 3],
    },
    Cause {
        of_port: (SEND, 1),
        of_device: NEVER,
        of_source: NEVER,
        of_sink: NEVER,
        events: 0,
        bad_line: false,
        looks: 0,
        status: 3,
        leaves: [1, 1, 1, 3, 3, 1, 1, 0],
    },
    Cause {
        of_port: (SEND, 2),
        of_device: NEVER,
        of_source: NEVER,
        of_sink: NEVER,
        events: 0,
        bad_line: false,
        looks: 0,
        status: 3,
        leaves: [1, 1, 1, 3, 3, 1, 1, 1],
    },
    Cause {
        of_port: (SEND, 3),
        of_device: NEVER,
        of_source: NEVER,
        of_sink: NEVER,
        events: 0,
        bad_line: false,
        looks: 0,
        status: 3,
        leaves: [1, 1, 1, 3, 3, 1, 1, 2],
    },
    Cause {
        of_port: NEVER,
        of_device: (NEXT, 1),
        of_source: NEVER,
        of_sink: NEVER,
        events: 0,
        bad_line: false,
        looks: 0,
        status: 4,
        leaves: [1, 1, 1, 0, 0, 1, 1, 6],
    },
    Cause {
        of_port: NEVER,
        of_device: (NEXT, 2),
        of_source: NEVER,
        of_sink: NEVER,
        events: 0,
        bad_line: false,
        looks: 0,
        status: 4,
        leaves: [1, 1, 1, 1, 1, 1, 1, 6],
    },
    Cause {
        of_port: NEVER,
        of_device: (NEXT, 3),
        of_source: NEVER,
        of_sink: NEVER,
        events: 0,
        bad_line: false,
        looks: 0,
        status: 4,
        leaves: [1, 1, 1, 2, 2, 1, 1, 6],
    },
    Cause {
        of_port: NEVER,
        of_device: (PLAY, 1),
        of_source: NEVER,
        of_sink: NEVER,
        events: 0,
        bad_line: false,
        looks: 0,
        status: 4,
        leaves: [1, 1, 1, 1, 0, 1, 1, 6],
    },
    Cause {
        of_port: NEVER,
        of_device: (PLAY, 2),
        of_source: NEVER,
        of_sink: NEVER,
        events: 0,
        bad_line: false,
        looks: 0,
        status: 4,
        leaves: [1, 1, 1, 2, 1, 1, 1, 6],
    },
    Cause {
        of_port: NEVER,
        of_device: (PLAY, 3),
        of_source: NEVER,
        of_sink: NEVER,
        events: 0,
        bad_line: false,
        looks: 0,
        status: 4,
        leaves: [1, 1, 1, 3, 2, 1, 1, 6],
    },
    Cause {
        of_port: NEVER,
        of_device: NEVER,
        of_source: (READ, 1),
        of_sink: NEVER,
        events: 0,
        bad_line: false,
        looks: 0,
        status: 5,
        leaves: [0; 8],
    },
    Cause {
        of_port: NEVER,
        of_device: NEVER,
        of_source: (READ, 2),
        of_sink: NEVER,
        events: 0,
        bad_line: false,
        looks: 0,
        status: 5,
        leaves: [0; 8],
    },
    Cause {
        of_port: NEVER,
        of_device: NEVER,
        of_source: (READ, 3),
        of_sink: NEVER,
        events: 0,
        bad_line: false,
        looks: 0,
        status: 5,
        leaves: [0; 8],
    },
    Cause {
        of_port: NEVER,
        of_device: NEVER,
        of_source: NEVER,
        of_sink: (WRITE, 1),
        events: 0,
        bad_line: false,
        looks: 0,
        status: 7,
        leaves: [1, 1, 1, 3, 3, 1, 1, 6],
    },
    Cause {
        of_port: NEVER,
        of_device: NEVER,
        of_source: NEVER,
        of_sink: (WRITE, 2),
        events: 0,
        bad_line: false,
        looks: 0,
        status: 7,
        leaves: [1, 1, 1, 3, 3, 1, 1, 6],
    },
    Cause {
        of_port: NEVER,
        of_device: NEVER,
        of_source: NEVER,
        of_sink: (WRITE, 3),
        events: 0,
        bad_line: false,
        looks: 0,
        status: 7,
        leaves: [1, 1, 1, 3, 3, 1, 1, 6],
    },
    Cause {
        of_port: NEVER,
        of_device: NEVER,
        of_source: NEVER,
        of_sink: NEVER,
        events: 1,
        bad_line: false,
        looks: 0,
        status: 6,
        leaves: [1, 0, 0, 3, 3, 1, 1, 3],
    },
    Cause {
        of_port: NEVER,
        of_device: NEVER,
        of_source: NEVER,
        of_sink: NEVER,
        events: 2,
        bad_line: false,
        looks: 0,
        status: 6,
        leaves: [1, 1, 0, 3, 3, 1, 1, 3],
    },
    Cause {
        of_port: NEVER,
        of_device: NEVER,
        of_source: NEVER,
        of_sink: NEVER,
        events: 3,
        bad_line: false,
        looks: 0,
        status: 0,
        leaves: [1, 1, 1, 3, 3, 1, 1, 6],
    },
    Cause {
        of_port: NEVER,
        of_device: NEVER,
        of_source: NEVER,
        of_sink: NEVER,
        events: NO_NUMBER,
        bad_line: false,
        looks: 0,
        status: 2,
        leaves: [0; 8],
    },
    Cause {
        of_port: NEVER,
        of_device: NEVER,
        of_source: NEVER,
        of_sink: NEVER,
        events: 0,
        bad_line: false,
        looks: 4096,
        status: 10,
        leaves: [0; 8],
    },
    Cause {
        of_port: NEVER,
        of_device: NEVER,
        of_source: NEVER,
        of_sink: NEVER,
        events: 0,
        bad_line: true,
        looks: 0,
        status: 8,
        leaves: [0; 8],
    },
];

/// In which order statuses come where several hold.
const ORDER: &[Cause] = &[
    Cause {
        of_port: NEVER,
        of_device: NEVER,
        of_source: NEVER,
        of_sink: NEVER,
        events: NO_NUMBER,
        bad_line: false,
        looks: 0,
        status: 2,
        leaves: [0; 8],
    },
    Cause {
        of_port: NEVER,
        of_device: NEVER,
        of_source: (READ, 2),
        of_sink: NEVER,
        events: 0,
        bad_line: false,
        looks: 0,
        status: 5,
        leaves: [0; 8],
    },
    Cause {
        of_port: NEVER,
        of_device: NEVER,
        of_source: NEVER,
        of_sink: NEVER,
        events: 0,
        bad_line: false,
        looks: 4096,
        status: 10,
        leaves: [0; 8],
    },
    Cause {
        of_port: NEVER,
        of_device: NEVER,
        of_source: NEVER,
        of_sink: NEVER,
        events: 0,
        bad_line: true,
        looks: 0,
        status: 8,
        leaves: [0; 8],
    },
    Cause {
        of_port: (RECEIVE, 3),
        of_device: NEVER,
        of_source: NEVER,
        of_sink: NEVER,
        events: 0,
        bad_line: false,
        looks: 0,
        status: 3,
        leaves: [1, 1, 1, 3, 3, 1, 1, 3],
    },
    Cause {
        of_port: NEVER,
        of_device: (NEXT, 2),
        of_source: NEVER,
        of_sink: NEVER,
        events: 0,
        bad_line: false,
        looks: 0,
        status: 4,
        leaves: [1, 1, 1, 1, 1, 1, 1, 6],
    },
    Cause {
        of_port: NEVER,
        of_device: NEVER,
        of_source: NEVER,
        of_sink: NEVER,
        events: 1,
        bad_line: false,
        looks: 0,
        status: 6,
        leaves: [1, 0, 0, 3, 3, 1, 1, 3],
    },
    Cause {
        of_port: NEVER,
        of_device: NEVER,
        of_source: NEVER,
        of_sink: (WRITE, 2),
        events: 0,
        bad_line: false,
        looks: 0,
        status: 7,
        leaves: [1, 1, 1, 3, 3, 1, 1, 6],
    },
];

/// Nothing is wrong.
const NOTHING: Cause = Cause {
    of_port: NEVER,
    of_device: NEVER,
    of_source: NEVER,
    of_sink: NEVER,
    events: 0,
    bad_line: false,
    looks: 0,
    status: 0,
    leaves: [1, 1, 1, 3, 3, 1, 1, 6],
};

// rule: commands_told, status_number_of, IfNothingWritten, ReadsTooMany, status_from
#[test]
fn a_call_that_fails_is_told_by_its_status(rt: HostRuntime) -> Result<(), Fail> {
    for cause in CAUSES {
        expect(&rt, rt.alloc(), cause, &NOTHING)?;
    }
    Ok(())
}

// rule: LiveRun.first_of, status_from
#[test]
fn of_two_failures_the_first_in_the_order_is_told(rt: HostRuntime) -> Result<(), Fail> {
    let mut later = ORDER;
    for first in ORDER {
        later = later.get(1..).unwrap_or(&[]);
        for second in later {
            expect(&rt, rt.alloc(), first, second)?;
        }
    }
    Ok(())
}

// What a run came to.
#[derive(Clone, Copy)]
struct Outcome {
    status: u8,
    /// How many bytes were written, and whether they are the front of a summary.
    written: u64,
    is_front: bool,
    counts: Counts,
    /// Whether each commit that was taken is the script's.
    are_own: bool,
}

// Makes a run in which both are wrong, of which the first is told, and whose commit is held until the port is over.
fn expect<R: Threads + Wait + Sync + Abort>(
    rt: &R,
    alloc: Global,
    first: &Cause,
    second: &Cause,
) -> Result<(), AllocError> {
    let found = outcome_of(rt, alloc, first, second)?;
    let (status, other) = (first.status, second.status);
    assert_eq!(rt; found.status, status, "beside {other}");
    assert!(rt; leaves(first, second, &found), "beside {other}: {status}");
    Ok(())
}

fn outcome_of<R: Threads + Wait + Sync>(
    rt: &R,
    alloc: Global,
    first: &Cause,
    second: &Cause,
) -> Result<Outcome, AllocError> {
    let port = port_of(alloc, first, second)?;
    let mut sides = sides_of(alloc, first, second)?;
    run_over(rt, alloc, words_of(first, second), port, &mut sides)
}

fn run_over<R: Threads + Wait + Sync>(
    rt: &R,
    alloc: Global,
    words: &str,
    port: ListPort,
    sides: &mut Sides,
) -> Result<Outcome, AllocError> {
    let (status, port) = sides.run_held(rt, alloc, words, port)?;
    Ok(outcome_in(status, sides, port.posts().len()))
}

fn outcome_in(status: Status, sides: &Sides, posts: usize) -> Outcome {
    let text = sides.out.bytes();
    Outcome {
        status: status.number(),
        written: text.len() as u64,
        is_front: SUMMARY.starts_with(text) || text.starts_with(SUMMARY),
        counts: counts_of(&sides.report, posts),
        are_own: sides.report.events.iter().all(|event| is_own(event)),
    }
}

const SUMMARY: &[u8] = b"# live ";

fn counts_of(report: &Report, posts: usize) -> Counts {
    let events = &report.events;
    [
        count_of(events, b't'),
        count_of(events, b'c'),
        count_of(events, b'e'),
        report.reads.len(),
        report.plays.len(),
        report.captures.len(),
        report.app_commits.len(),
        posts,
    ]
}

// What the command commits. Beat 2 is at 1,000,000, and so half a second of four beats a second before it is beat 0.
const COMMIT: Commit = Commit {
    timeline: Some(Timeline {
        mpb: 250_000,
        beat: 0,
        time: 500_000,
    }),
    start: None,
    quantum: None,
    at: 1_000_000,
};

fn is_own(event: &Event) -> bool {
    match event {
        Event::App { commit, .. } => *commit == COMMIT,
        _ => true,
    }
}

// There is as much as both causes leave; and a sink that fails has taken a byte by each write before.
fn leaves(first: &Cause, second: &Cause, found: &Outcome) -> bool {
    found.counts == lesser(first.leaves, second.leaves)
        && found.is_front
        && found.are_own
        && (first.of_sink == NEVER || found.written == first.of_sink.1.saturating_sub(1))
}

// Count by count the lesser of two.
fn lesser(mut counts: Counts, others: Counts) -> Counts {
    for k in 0..8_usize {
        counts[k] = counts[k].min(others[k]);
    }
    counts
}

// The words of the command line.
fn words_of(first: &Cause, second: &Cause) -> &'static str {
    let events = if first.events == 0 {
        second.events
    } else {
        first.events
    };
    match events {
        0 => "live --events 300",
        1 => "live --events 1",
        2 => "live --events 2",
        3 => "live --events 3",
        _ => "live --events x",
    }
}

fn port_of(alloc: Global, first: &Cause, second: &Cause) -> Result<ListPort, AllocError> {
    let failing = both(alloc, first.of_port, second.of_port)?;
    ListPort::new(alloc, idle_arrivals(alloc)?, 500, failing)
}

fn idle_arrivals(alloc: Global) -> Result<Vec<Arrival>, AllocError>
    ensures { IfOk result (λ arrivals. All IsToCome arrivals.items) }
{
    let mut arrivals = Vec::with_capacity(alloc, 2)?;
    arrivals.push(Arrival::Idle(1))?;
    arrivals.push(Arrival::Idle(2))?;
    Ok(arrivals)
}

fn sides_of(alloc: Global, first: &Cause, second: &Cause) -> Result<Sides, AllocError> {
    let input = source_of(alloc, first, second)?;
    let audio = audio_of(alloc, first, second)?;
    let out = sink_of(alloc, first, second)?;
    Ok(Sides {
        input,
        audio,
        out,
        report: Report::new(alloc),
    })
}

// A source that gives 40 bytes a read.
fn source_of(alloc: Global, first: &Cause, second: &Cause) -> Result<BytesSource, AllocError> {
    let failing = both(alloc, first.of_source, second.of_source)?;
    Ok(BytesSource::new(script_of(alloc, first, second)?, 40, failing))
}

// A device of three blocks.
fn audio_of(alloc: Global, first: &Cause, second: &Cause) -> Result<ListAudio, AllocError> {
    let failing = both(alloc, first.of_device, second.of_device)?;
    ListAudio::new(alloc, blocks_of(alloc, 3)?, failing)
}

// A sink that takes a byte a write.
fn sink_of(alloc: Global, first: &Cause, second: &Cause) -> Result<BytesSink, AllocError> {
    BytesSink::new(alloc, 1_000, 1, both(alloc, first.of_sink, second.of_sink)?)
}

// The calls that fail by either.
fn both(alloc: Global, first: Call, second: Call) -> Result<Vec<Call>, AllocError> {
    Ok(vec![in alloc; first, second]?)
}

const HEAD: &str = "link 1\nsetup 500000 1\ngate 127.0.0.1:20808\n\
    to 127.0.0.1:20809\nto 127.0.0.1:20810\nto 127.0.0.1:20811\n";

const TEMPO: &[u8] = b"at 1000000 tempo 250000\n";

const LOOK: &[u8] = b"at 0 look\n";

fn script_of(alloc: Global, first: &Cause, second: &Cause) -> Result<Vec<u8>, AllocError> {
    let mut script = Vec::from_slice(alloc, HEAD.as_bytes())?;
    if first.bad_line || second.bad_line {
        script.extend_from_slice(b"at x tempo\n")?;
    }
    script.extend_from_slice(TEMPO)?;
    for _ in 0..first.looks.max(second.looks) {
        script.extend_from_slice(LOOK)?;
    }
    Ok(script)
}
