//! What a run tells: the text that it writes, and its report.

use super::events::count_of;
use super::recorded::is_replayed;
use super::sides::{Sides, quiet_port, sides_over};
use client_state::State;
use link_daemon::Status;
use link_live::Report;
use link_node::Event;
use link_shared::Capture;
use lk_outside::{ListPace, ListPort};
use std::alloc::{AllocError, Global};
use std::sync::Wait;
use std::test::Fail;
use std::thread::Threads;

const TEMPO: &[u8] = b"link 1\nsetup 500000 1\ngate 127.0.0.1:20808\nat 1000000 tempo 250000\n";

const QUANTUM_AND_TEMPO: &[u8] =
    b"link 1\nsetup 500000 1\ngate 127.0.0.1:20808\nat 0 quantum 3000000\nat 1000000 tempo 250000\n";

const LOOKING: &[u8] =
    b"link 1\nsetup 500000 1\ngate 127.0.0.1:20808\nat 1000000 tempo 250000\nat 1000000 play\nat 1000000 look\n";

// The first turn ticks, and the commit stands before that tick where it was handed over by then.
const TICK_FIRST: &[u8] = b"tick 0\napp 0 1000000 t 250000 0 500000\nend 0\n";

const COMMIT_FIRST: &[u8] = b"app 0 1000000 t 250000 0 500000\ntick 0\nend 0\n";

/// A run of two blocks, and what is told of it.
struct Case {
    words: &'static str,
    script: &'static [u8],
    /// How many commits the script makes.
    commits: usize,
    /// How much there was, and the state that is published last. Beat 2 is at 1,000,000, and so half a second of four beats a second before
    /// it is beat 0.
    summary: &'static [u8],
    /// The head of the record, where the words ask for it.
    head: &'static str,
}

const CASES: &[Case] = &[
    Case {
        words: "live",
        script: TEMPO,
        commits: 1,
        summary: b"# live 3 2 2 1 1 0 2 0\n# state 1 250000 0 500000 0 0 0 1 0 0 1 0 2d6b653a343a2e60 4000000\n",
        head: "",
    },
    Case {
        words: "live --record",
        script: TEMPO,
        commits: 1,
        summary: b"# live 3 2 2 1 1 0 2 0\n# state 1 250000 0 500000 0 0 0 1 0 0 1 0 2d6b653a343a2e60 4000000\n",
        head: "replay 2\nnode -ke:4:.` 7 500000 1 0\ngroup 0\nquantum 4000000\ngate 127.0.0.1:20808\n",
    },
    // The quantum of the words is the first one.
    Case {
        words: "live",
        script: QUANTUM_AND_TEMPO,
        commits: 2,
        summary: b"# live 4 3 2 2 2 0 2 0\n# state 2 250000 0 500000 0 0 0 1 0 0 2 0 2d6b653a343a2e60 3000000\n",
        head: "",
    },
];

// rule: IsRecorded, flag_rule, config_from, live_line_of, live_text_of, EndsNamed
#[test]
fn a_run_tells_how_much_there_was_and_its_last_state(rt: HostRuntime) -> Result<(), Fail> {
    for case in CASES {
        let (words, commits) = (case.words, case.commits);
        let told = is_right(&rt, rt.alloc(), case)?;
        assert!(rt; told, "{words}, {commits}");
    }
    Ok(())
}

fn is_right<R: Threads + Wait + Sync>(
    rt: &R,
    alloc: Global,
    case: &Case,
) -> Result<bool, AllocError> {
    let mut sides = sides_over(alloc, case.script, 2)?;
    is_told_and_replayed(rt, alloc, case, &mut sides)
}

// Whether a run by these words is told as the script has it, and its record is replayed to what it told.
fn is_told_and_replayed<R: Threads + Wait + Sync>(
    rt: &R,
    alloc: Global,
    case: &Case,
    sides: &mut Sides,
) -> Result<bool, AllocError> {
    if !tells(rt, alloc, case, sides)? {
        return Ok(false);
    }
    if case.head.is_empty() {
        return Ok(true);
    }
    is_replayed(rt, alloc, sides.out.bytes(), &sides.report, &[])
}

fn tells<R: Threads + Wait + Sync>(
    rt: &R,
    alloc: Global,
    case: &Case,
    sides: &mut Sides,
) -> Result<bool, AllocError> {
    let mut port = quiet_port(alloc, 0)?;
    tells_over(rt, alloc, case, sides, &mut port)
}

fn tells_over<R: Threads + Wait + Sync>(
    rt: &R,
    alloc: Global,
    case: &Case,
    sides: &mut Sides,
    port: &mut ListPort,
) -> Result<bool, AllocError> {
    let status = sides.run(rt, alloc, case.words, port, &mut ListPace::new(0))?;
    Ok(status == Status::Done && is_told(sides, port, case))
}

// Whether the text and the report are those of the script, and nothing was sent.
fn is_told(sides: &Sides, port: &ListPort, case: &Case) -> bool {
    port.posts().is_empty()
        && has_commits(&sides.report, case.commits)
        && is_text_of(sides.out.bytes(), case, &sides.report.events)
}

// Whether there is a tick, so many commits and an end, a state more than commits, and of all else as much as the summary says.
fn has_commits(report: &Report, commits: usize) -> bool {
    report.events.len() == commits.saturating_add(2)
        && count_of(&report.events, b't') == 1
        && count_of(&report.events, b'c') == commits
        && count_of(&report.events, b'e') == 1
        && report.published.len() == commits.saturating_add(1)
        && report.reads.len() == 2
        && report.captures.len() == commits
        && report.app_commits.len() == commits
        && report.audio_commits.is_empty()
        && report.plays.len() == 2
}

fn is_text_of(text: &[u8], case: &Case, events: &[Event]) -> bool {
    let Some(record) = text.strip_prefix(case.summary) else {
        return false;
    };
    if case.head.is_empty() {
        return record.is_empty();
    }
    record.strip_prefix(case.head.as_bytes()) == Some(events_told(events))
}

fn events_told(events: &[Event]) -> &'static [u8] {
    match events.first() {
        Some(Event::Tick { .. }) => TICK_FIRST,
        _ => COMMIT_FIRST,
    }
}

// rule: capture_of
#[test]
fn a_look_is_shown_what_was_committed_before(rt: HostRuntime) -> Result<(), Fail> {
    let shown = looks_last(&rt, rt.alloc())?;
    assert!(rt; shown);
    Ok(())
}

// Whether a run ends with a look, the third capture, that is shown all.
fn looks_last<R: Threads + Wait + Sync>(rt: &R, alloc: Global) -> Result<bool, AllocError> {
    let mut sides = sides_over(alloc, LOOKING, 2)?;
    looks_last_over(rt, alloc, &mut sides)
}

fn looks_last_over<R: Threads + Wait + Sync>(
    rt: &R,
    alloc: Global,
    sides: &mut Sides,
) -> Result<bool, AllocError> {
    let mut port = quiet_port(alloc, 0)?;
    let status = sides.run(rt, alloc, "live", &mut port, &mut ListPace::new(0))?;
    Ok(status == Status::Done && are_shown(&sides.report.captures))
}

fn are_shown(captures: &[Capture]) -> bool {
    captures.len() == 3
        && captures
            .last()
            .is_some_and(|capture| plays_fast(&capture.shown))
}

// Whether it plays at four beats a second.
fn plays_fast(state: &State) -> bool {
    state.timeline.mpb == 250_000 && state.start.playing
}
