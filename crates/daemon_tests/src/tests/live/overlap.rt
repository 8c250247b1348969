//! That the three loops of a run go on beside one another: each waits in its object for what another one does, in each of 100 rounds.
//!
//! In round k the port gives a datagram of a new peer once the block k was played, the device gives the block k + 1 once that datagram was
//! answered, and the pace lets the line k go once that block was given: both are shown k states or more after the first one. Where the port
//! waits for the ask of the line k too, both are shown exactly k peers. Loops that ran one after another would wait in vain, which the
//! objects notice by the number of their looks.

ghost use Rattle.std.specs.Prelude.{None};
ghost use Rattle.lk_outside.specs.ListPort.{seen_of};

use super::super::runs::{empty_log, silent_talk, spelled};
use super::blocks::block_after;
use super::events::count_of;
use super::flags::{has_come, raise};
use super::peers::{endpoint_of, fields_of, id_of};
use super::sides::{OWN, SEED, Sides, quiet_port, sides_over};
use asdp_messages::write_alive;
use link_daemon::{Status, link_main};
use link_live::Report;
use link_shared::Capture;
use lk_base::{Clicks, Endpoint, Gate, NodeId};
use lk_outside::{Arrival, Audio, Bound, ListPort, ListTalk, Next, Pace, Played, Port, Posted};
use std::alloc::{AllocError, Global};
use std::sync::Wait;
use std::sync::atomic::AtomicU64;
use std::test::Fail;
use std::thread::Threads;

/// How many rounds there are.
const ROUNDS: u16 = 100;

/// How often an object looks at a count in a call at most.
const LOOKS: u64 = 1_000_000_000;

/// What the objects of a run have done.
#[derive(Drop)]
struct Marks {
    // How many blocks the device gave.
    given: AtomicU64,
    // How many blocks were played.
    played: AtomicU64,
    // How many datagrams were answered.
    answered: AtomicU64,
    // How many lines the pace was asked for.
    asked: AtomicU64,
    // How often an object waited in vain.
    vain: AtomicU64,
}

impl Marks {
    fn new() -> Marks {
        Marks {
            given: AtomicU64::new(0),
            played: AtomicU64::new(0),
            answered: AtomicU64::new(0),
            asked: AtomicU64::new(0),
            vain: AtomicU64::new(0),
        }
    }

    // Waits until a count has come to a number, unless an object has waited in vain. Answers whether it has.
    fn wait_for(&self, count: &AtomicU64, number: u16) -> bool {
        if has_come(&self.vain, 1, 1) {
            return false;
        }
        if has_come(count, u64::from(number), LOOKS) {
            return true;
        }
        raise(&self.vain);
        false
    }
}

/// What the lines of a script are, and what the port waits for.
#[derive(Clone, Copy, PartialEq)]
enum Lines {
    /// Each looks. The port waits for a block to be played alone.
    Look,
    /// Two of three commit. The port waits for a line to be asked for too.
    Commit,
}

/// A port that gives an alive of a new peer for each block played, and tells nothing.
#[derive(Drop)]
struct Peers<'a> {
    marks: &'a Marks,
    lines: Lines,
    // It binds the gates and takes what is sent.
    port: ListPort,
    given: u16,
}

impl<'a> Peers<'a> {
    fn new(marks: &'a Marks, lines: Lines, port: ListPort) -> Peers<'a> {
        Peers {
            marks,
            lines,
            port,
            given: 0,
        }
    }

    // Waits until a round's block was played, and its line asked for where that is waited for. Answers whether they were.
    fn wait_for_round(&self, round: u16) -> bool {
        let marks = self.marks;
        marks.wait_for(&marks.played, round)
            && (self.lines == Lines::Look || marks.wait_for(&marks.asked, round))
    }
}

impl<'a> Port for Peers<'a> {
    ghost seen = { λ peers. record (seen_of peers.port) { told = None } };

    fn bind(&mut self, gates: &[Endpoint]) -> Bound {
        self.port.bind(gates)
    }

    fn receive(&mut self, _until: i64) -> Arrival {
        if self.given >= ROUNDS || !self.wait_for_round(self.given + 1) {
            return Arrival::Closed;
        }
        self.given += 1;
        Arrival::Datagram {
            gate: Gate(0),
            from: endpoint_of(self.given),
            // It is in the node's own session, and answers no pings.
            bytes: write_alive(id_of(self.given), 0, &fields_of(NodeId(*OWN), 0, None)),
            now: 0,
        }
    }

    fn send(&mut self, gate: Gate, to: Endpoint, bytes: &[u8]) -> Posted {
        let posted = self.port.send(gate, to, bytes);
        raise(&self.marks.answered);
        posted
    }
}

/// A device that gives a block for each datagram answered, after a first one, and tells nothing.
#[derive(Drop)]
struct Blocks<'a> {
    marks: &'a Marks,
    given: u16,
}

impl<'a> Blocks<'a> {
    fn new(marks: &'a Marks) -> Blocks<'a> {
        Blocks { marks, given: 0 }
    }
}

impl<'a> Audio for Blocks<'a> {
    ghost seen = { λ _. record { told = None; faults = 0 } };

    fn next(&mut self) -> Next {
        if self.given > ROUNDS || !self.marks.wait_for(&self.marks.answered, self.given) {
            return Next::Closed;
        }
        let block = block_after(self.given);
        self.given += 1;
        raise(&self.marks.given);
        Next::Block(block)
    }

    fn play(&mut self, _clicks: &Clicks) -> Played {
        raise(&self.marks.played);
        Played::Done
    }
}

/// A pace that answers each moment as asked, once the blocks before it and one more were given. It tells nothing.
#[derive(Drop)]
struct Holding<'a> {
    marks: &'a Marks,
    asks: u16,
}

impl<'a> Holding<'a> {
    fn new(marks: &'a Marks) -> Holding<'a> {
        Holding { marks, asks: 0 }
    }
}

impl<'a> Pace for Holding<'a> {
    ghost late = { λ _. None };

    fn until(&mut self, moment: i64) -> i64 {
        // The first ask is for the moment of the opening.
        if self.asks > 0 {
            raise(&self.marks.asked);
            let _came = self
                .marks
                .wait_for(&self.marks.given, self.asks.saturating_add(1));
        }
        self.asks = self.asks.saturating_add(1);
        moment
    }
}

// rule: HasReadAudio
#[test]
fn the_loops_overlap(rt: HostRuntime) -> Result<(), Fail> {
    assert!(rt; overlap(&rt, rt.alloc(), Lines::Look)?);
    Ok(())
}

#[test]
fn the_loops_overlap_where_lines_commit(rt: HostRuntime) -> Result<(), Fail> {
    assert!(rt; overlap(&rt, rt.alloc(), Lines::Commit)?);
    Ok(())
}

fn overlap<R: Threads + Wait + Sync>(
    rt: &R,
    alloc: Global,
    lines: Lines,
) -> Result<bool, AllocError> {
    let mut sides = sides_of_rounds(alloc, lines)?;
    go_in_rounds(rt, alloc, lines, &mut sides)
}

fn sides_of_rounds(alloc: Global, lines: Lines) -> Result<Sides, AllocError> {
    let script = script_of(alloc, lines)?;
    sides_over(alloc, &script, 0)
}

fn go_in_rounds<R: Threads + Wait + Sync>(
    rt: &R,
    alloc: Global,
    lines: Lines,
    sides: &mut Sides,
) -> Result<bool, AllocError> {
    let inner = quiet_port(alloc, 200)?;
    let talk = silent_talk(alloc)?;
    let words = spelled(alloc, "live")?;
    Ok(
        go_on_together(rt, alloc, &words, lines, sides, inner, talk)
            && are_rounds(&sides.report, lines),
    )
}

// Whether a run does all, and gives each datagram and each block.
fn go_on_together<R: Threads + Wait + Sync>(
    rt: &R,
    alloc: Global,
    words: &[String],
    lines: Lines,
    sides: &mut Sides,
    inner: ListPort,
    mut talk: ListTalk,
) -> bool {
    let marks = Marks::new();
    let mut port = Peers::new(&marks, lines, inner);
    let mut audio = Blocks::new(&marks);
    let status = link_main(
        rt,
        alloc,
        words,
        SEED,
        &mut sides.input,
        &mut port,
        &mut audio,
        &mut talk,
        &mut Holding::new(&marks),
        &mut sides.out,
        &mut sides.report,
        &mut empty_log(alloc),
    );
    status == Status::Done && audio.given == ROUNDS + 1 && port.given == ROUNDS
}

// Whether there was a datagram, a capture and a read in each round, with what was published before.
fn are_rounds(report: &Report, lines: Lines) -> bool {
    count_of(&report.events, b'r') == 100
        && report.reads.len() == 101
        && report.captures.len() == 100
        && report.app_commits.len() == if lines == Lines::Look { 0 } else { 66 }
        && keep_up(&report.reads, 0, lines)
        && keep_up(&report.captures, 1, lines)
}

// Whether the first capture has at least this number, the one after it at least the next one, and so on. Where the port waits for lines
// too, each has as many peers, and so nothing that came later.
fn keep_up(captures: &[Capture], first: u32, lines: Lines) -> bool {
    let mut least = first;
    for capture in captures {
        let is_astray = lines == Lines::Commit && capture.state.peers != least;
        if is_astray || capture.number < u64::from(least) {
            return false;
        }
        least = least.saturating_add(1);
    }
    true
}

fn script_of(alloc: Global, lines: Lines) -> Result<Vec<u8>, AllocError> {
    let mut script = Vec::from_slice(alloc, b"link 1\nsetup 500000 1\ngate 127.0.0.1:20808\n")?;
    for round in 0..ROUNDS {
        script.extend_from_slice(line_of(round, lines))?;
    }
    Ok(script)
}

// A look; and then, where lines commit, two that do.
fn line_of(round: u16, lines: Lines) -> &'static [u8] {
    match round % 3 {
        1 if lines == Lines::Commit => b"at 0 tempo 250000\n",
        2 if lines == Lines::Commit => b"at 0 request 1000000\n",
        _ => b"at 0 look\n",
    }
}
