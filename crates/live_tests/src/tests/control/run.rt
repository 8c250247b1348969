//! Whole runs: two real threads over a port, a talk and a pace in memory.
//!
//! The link opens at 1,000,000 with 500,000 microseconds per beat from beat 0 there, and a line of the client is answered each second
//! from then on. Nothing comes to the port.

ghost use Rattle.std.specs.Prelude.{◌≡◌, ◌≤◌, [], vec_capacity};

use super::node::{HERE, config};
use super::session::{append, talk_of};
use arrayvec::ArrayVec;
use itoa::Buffer;
use link_control::{ControlEnd, ControlRoom, ControlRun, SessionLog, control_run};
use link_node::Event;
use lk_outside::{BIND, HEAR, LISTEN, ListPace, ListPort, ListTalk, Pace, RECEIVE, SAY};
use std::alloc::Global;
use std::process::Abort;
use std::sync::Wait;
use std::thread::Threads;

/// What is given to a run, and what comes of it.
#[derive(Clone, Copy)]
struct Row<'a> {
    sent: &'a [u8],
    /// How many events the journal takes.
    most: u64,
    /// The calls of the port and of the talk that fail: the k-th of a kind.
    port: (u8, u64),
    talk: (u8, u64),
    end: ControlEnd,
    answers: &'a [u8],
    /// What is told of it.
    told: &'static str,
}

/// A call that is never made.
const NEVER: (u8, u64) = (0, 0);

/// What is told where nothing was sent: the first turn ticks, and so does no other.
const NOTHING: &str = ": 0 lines, 0 captures, 0 commits, t1 c0 e1, 500000-";

/// What is told where one line was sent, which sets a tempo.
const ONE: &str = ": 1 lines, 1 captures, 1 commits, t1 c1 e1, 250000-";

/// What is told of three lines that set tempos, where there is no room for the last commit.
const FULL: &str = ": 3 lines, 3 captures, 3 commits, t1 c2 e0, 200000-";

/// What is told of as many commits as lines are answered, each of which starts to play.
const MANY: &str = ": 4096 lines, 4096 captures, 4096 commits, t1 c4096 e1, 500000p";

const ROWS: &[Row] = &[
    Row {
        sent: b"",
        most: 300,
        port: NEVER,
        talk: NEVER,
        end: ControlEnd::Well,
        answers: b"",
        told: NOTHING,
    },
    // Whether the commits were taken by then or not, the status shows both. The tempo changes at beat 2, half a second of four beats a
    // second behind beat 0.
    Row {
        sent: b"status\ntempo 250000\nplay\nstatus\nnope\n",
        most: 300,
        port: NEVER,
        talk: NEVER,
        end: ControlEnd::Well,
        answers: b"status 500000 0 1000000 0 0\nok 1\nok 2\nstatus 250000 0 1500000 1 0\nbad\n",
        told: ": 5 lines, 5 captures, 2 commits, t1 c2 e1, 250000p",
    },
    // Where the talk can't be opened no line is answered.
    Row {
        sent: b"tempo 250000\n",
        most: 300,
        port: NEVER,
        talk: (LISTEN, 1),
        end: ControlEnd::Talk,
        answers: b"",
        told: NOTHING,
    },
    // The read that would have met the end.
    Row {
        sent: b"tempo 250000\n",
        most: 300,
        port: NEVER,
        talk: (HEAR, 2),
        end: ControlEnd::Talk,
        answers: b"ok 1\n",
        told: ONE,
    },
    // What can't be answered is done.
    Row {
        sent: b"tempo 250000\nplay\n",
        most: 300,
        port: NEVER,
        talk: (SAY, 1),
        end: ControlEnd::Talk,
        answers: b"",
        told: ONE,
    },
    Row {
        sent: b"tempo 250000\n",
        most: 300,
        port: (BIND, 1),
        talk: NEVER,
        end: ControlEnd::Port,
        answers: b"ok 1\n",
        told: ONE,
    },
    Row {
        sent: b"tempo 250000\n",
        most: 300,
        port: (RECEIVE, 1),
        talk: NEVER,
        end: ControlEnd::Port,
        answers: b"ok 1\n",
        told: ONE,
    },
    // The port comes before the talk.
    Row {
        sent: b"tempo 250000\n",
        most: 300,
        port: (BIND, 1),
        talk: (LISTEN, 1),
        end: ControlEnd::Port,
        answers: b"",
        told: NOTHING,
    },
    // The tick stands before the second commit, and for the third there is no room.
    Row {
        sent: b"tempo 250000\ntempo 200000\ntempo 125000\n",
        most: 3,
        port: NEVER,
        talk: NEVER,
        end: ControlEnd::Events,
        answers: b"ok 1\nok 2\nok 3\n",
        told: FULL,
    },
    // The talk comes before the journal.
    Row {
        sent: b"tempo 250000\ntempo 200000\ntempo 125000\n",
        most: 3,
        port: NEVER,
        talk: (SAY, 3),
        end: ControlEnd::Talk,
        answers: b"ok 1\nok 2\n",
        told: FULL,
    },
];

// rule: captured_over, act_asked, IsTalked, IsClientPart, ControlRun.first_of, IsControlRun
#[test]
fn two_threads_run_over_a_link(rt: HostRuntime) {
    for row in ROWS {
        expect_row(&rt, rt.alloc(), row);
    }
}

fn expect_row<R: Threads + Wait + Sync + Abort>(rt: &R, alloc: Global, row: &Row) {
    let mut talk = talk_of(rt, alloc, row.sent, 512, 40_000, row.talk);
    let mut log = SessionLog::new(alloc).expect(rt, "memory for a log");
    let run = run_on(rt, alloc, row.most, row.port, &mut talk, &mut log);
    expect_told(rt, &run, talk.bytes(), log.lines.len(), row);
}

// Fails where a run ended otherwise, answered otherwise, or told something else.
fn expect_told(rt: &impl Abort, run: &ControlRun, answers: &[u8], lines: usize, row: &Row) {
    let (end, told) = (row.end, row.told);
    let right = run.end == end
        && answers == row.answers
        && tell(run, lines).as_slice() == told.as_bytes();
    assert!(rt; right, "{end:?}{told}");
}

// As many commits as lines are answered: the queue of a link holds a sixteenth of them.
const COMMITS: u64 = 4_096;

// rule: ok_text_of, IsClientPart
#[test]
fn a_commit_waits_for_room_in_the_queue(rt: HostRuntime) {
    let (sent, answers) = many_lines(&rt, rt.alloc());
    let row = Row {
        sent: &sent,
        most: 5_000,
        port: NEVER,
        talk: NEVER,
        end: ControlEnd::Well,
        answers: &answers,
        told: MANY,
    };
    expect_row(&rt, rt.alloc(), &row);
}

// So many lines that commit, and their answers.
fn many_lines(rt: &impl Abort, alloc: Global) -> (Vec<u8>, Vec<u8>) {
    let mut sent = Vec::new(alloc);
    let mut answers = Vec::new(alloc);
    for k in 0..COMMITS {
        let mut line = Text::new();
        put_number(&mut line, b"ok ", k.wrapping_add(1));
        put(&mut line, b"\n");
        append(rt, &mut sent, b"play\n");
        append(rt, &mut answers, &line);
    }
    (sent, answers)
}

// ---- a run

// A port that nothing comes to, of which this call fails.
fn port_of(rt: &impl Abort, alloc: Global, failing: (u8, u64)) -> ListPort {
    let failing = vec![in alloc; failing].expect(rt, "memory for a call");
    ListPort::new(alloc, Vec::new(alloc), 500, failing).expect(rt, "memory for a port")
}

fn run_on<R: Threads + Wait + Sync + Abort>(
    rt: &R,
    alloc: Global,
    most: u64,
    failing: (u8, u64),
    talk: &mut ListTalk,
    log: &mut SessionLog,
) -> ControlRun
    requires log { (log.old.lines.items ≡ []) × (4_096 ≤ vec_capacity log.old.lines) }
{
    let mut port = port_of(rt, alloc, failing);
    let room = ControlRoom::new(alloc).expect(rt, "memory for a run");
    let config = config();
    let mut pace = ListPace::new(1_000_000);
    let now = pace.until(0);
    let most = most.clamp(1, 524_288);
    let run = control_run(
        rt, alloc, &config, now, most, HERE, room, &mut port, talk, &mut pace, log,
    );
    run.expect(rt, "memory for a run")
}

// ---- what is told

/// What is told of a run. What finds no room in it is left out.
type Text = ArrayVec<u8, 100>;

fn put(text: &mut Text, bytes: &[u8]) {
    let _room = text.try_extend_from_slice(bytes);
}

// Some bytes, and a number behind them.
fn put_number(text: &mut Text, before: &[u8], number: u64) {
    put(text, before);
    put(text, Buffer::new().format(number).as_bytes());
}

// How many lines were logged, states captured and commits made; how many ticks, commits and ends stand in the journal; and of the state
// published last the tempo, and `p` where it plays, `-` where it doesn't.
fn tell(run: &ControlRun, lines: usize) -> Text {
    let mut text = Text::new();
    put_number(&mut text, b": ", lines as u64);
    put_number(&mut text, b" lines, ", run.captures.len() as u64);
    put_number(&mut text, b" captures, ", run.commits.len() as u64);
    put_number(&mut text, b" commits, t", count_of(&run.events, b't'));
    put_number(&mut text, b" c", count_of(&run.events, b'c'));
    put_number(&mut text, b" e", count_of(&run.events, b'e'));
    if let Some(state) = run.published.last() {
        put_number(&mut text, b", ", state.timeline.mpb.unsigned_abs());
        put(&mut text, if state.start.playing { b"p" } else { b"-" });
    }
    text
}

fn kind_of(event: &Event) -> u8 {
    match event {
        Event::Tick { .. } => b't',
        Event::App { .. } => b'c',
        Event::End { .. } => b'e',
        Event::Rx { .. } | Event::Audio { .. } => b'*',
    }
}

fn count_of(events: &[Event], kind: u8) -> u64 {
    let mut count = 0u64;
    for event in events {
        count = count.wrapping_add(u64::from(kind_of(event) == kind));
    }
    count
}
