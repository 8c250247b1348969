//! A node with what its last event sent, told what comes and asked what it shows.

ghost use Rattle.std.specs.Prelude.{◌≡◌, ◌≤◌};
ghost use Rattle.client_state.specs.Commit.{IsTidyCommit};
ghost use Rattle.link_node.specs.Standing.{gates_of, app_of};

use super::config;
use crate::tests::machine::{OPENING, STILL, endpoint, expect, fields, timeline, wire_of};
use asdp_messages::{write_alive, write_bye};
use client_state::{Commit, State};
use link_node::{Event, Node, Sends};
use lk_base::{ClientStart, Gate, NodeId, Timeline, Wire};
use std::alloc::{AllocError, Global};
use std::fmt::Debug;
use std::process::Abort;
use timeline_math::tidy;

// Moments are microseconds after the opening, unless they are told in host time.
#[derive(Drop)]
pub(super) enum Step {
    // Another node, with this many gates, each with this many destinations.
    Open(u8, u16),
    Tick(u32),
    // From the port 9 on a gate: an alive of a peer that is in this session with this timeline, and answers pings at the port 99;
    // a bye.
    HearPeer(u8, NodeId, NodeId, Timeline, u32),
    HearBye(u8, NodeId, u32),
    // A commit of a timeline, by tempo, beat and host time, when it is made and when it comes.
    Commit(i64, i64, i64, u32, u32),
    // How many datagrams were sent, and for how many more there is room.
    Sent(usize, usize),
    HasId(NodeId),
    // The session, and its timeline.
    IsIn(NodeId),
    HasTimeline(i64, i64, i64),
    // A whole state, with nothing played: its session, its timeline, how many peers and commits, and its moment in host time.
    Shows(NodeId, i64, i64, i64, u32, u64, i64),
    IsDue(u32),
    // The greatest moment, in host time.
    IsAt(i64),
}

#[derive(Drop)]
struct Stage {
    node: Node,
    sends: Sends,
    // How many gates there are, and how many application commits were taken.
    gates: u8,
    app: u64,
    // At which step of a script it is: a failing check tells.
    step: usize,
    ghost has_gates: { gates_of node ≡ gates },
    ghost has_one: { 1 ≤ gates },
    ghost took: { app_of node ≡ app },
}

impl Stage {
    ghost use Rattle.std.specs.Prelude.{◌≤◌};

    // A node with this many gates, each with this many destinations.
    fn open(rt: &impl Abort, alloc: Global, gates: u8, destinations: u16) -> Stage {
        assert!(rt; gates >= 1 && gates <= 4);
        Stage::made(alloc, gates, destinations).expect(rt, "memory for a node")
    }

    fn made(alloc: Global, gates: u8, destinations: u16) -> Result<Stage, AllocError>
        requires { (1 ≤ gates) × (gates ≤ 4) }
    {
        let sends = Sends::new(alloc)?;
        let node = Node::new(alloc, &config(u16::from(gates), destinations), OPENING)?;
        Ok(Stage {
            node,
            sends,
            gates,
            app: 0,
            step: 0,
        })
    }

    // A tick, so many microseconds after the opening.
    fn tick(&mut self, after: u32) {
        self.sends.clear();
        let now = OPENING + i64::from(after);
        let _change = self.node.step(&Event::Tick { now }, &mut self.sends);
    }

    // A datagram from the port 9 on a gate.
    fn hear(&mut self, rt: &impl Abort, gate: u8, bytes: &Wire, after: u32) {
        assert!(rt; gate < self.gates);
        self.sends.clear();
        let now = OPENING + i64::from(after);
        let event = Event::Rx {
            gate: Gate(gate),
            from: endpoint(9),
            bytes: wire_of(bytes),
            now,
        };
        let _change = self.node.step(&event, &mut self.sends);
    }

    // A commit of an application that is made at one moment and comes at another one.
    fn commit(&mut self, rt: &impl Abort, timeline: Timeline, made: u32, after: u32) {
        assert!(rt; self.app < 1000);
        self.sends.clear();
        let now = OPENING + i64::from(after);
        let event = Event::App {
            commit: commit(timeline, made),
            now,
        };
        let _change = self.node.step(&event, &mut self.sends);
        self.app += 1;
    }

    // Fails, telling the step as a row, and both, where the two are not the same.
    fn expect<T: PartialEq + Debug>(&self, rt: &impl Abort, found: &T, wanted: &T) {
        expect(rt, self.step, found, wanted);
    }
}

fn commit(timeline: Timeline, made: u32) -> Commit
    ensures { IsTidyCommit result }
{
    Commit {
        timeline: Some(tidy(&timeline)),
        start: None::<ClientStart>,
        quantum: None::<i64>,
        at: OPENING + i64::from(made),
    }
}

// Runs a script that begins with a node.
pub(super) fn play(rt: &impl Abort, alloc: Global, script: &[Step]) {
    let mut stage = Stage::open(rt, alloc, 1, 0);
    for (k, step) in script.iter().enumerate() {
        if let Step::Open(gates, destinations) = step {
            stage = Stage::open(rt, alloc, *gates, *destinations);
        } else {
            stage.step = k;
            take(rt, &mut stage, step);
        }
    }
}

// What comes, and else what is checked.
fn take(rt: &impl Abort, stage: &mut Stage, step: &Step) {
    match step {
        Step::Tick(after) => stage.tick(*after),
        Step::HearPeer(gate, from, session, timeline, after) => {
            let told = fields(*session, *timeline, STILL, 99);
            stage.hear(rt, *gate, &write_alive(*from, 0, &told), *after);
        }
        Step::HearBye(gate, from, after) => stage.hear(rt, *gate, &write_bye(*from, 0), *after),
        Step::Commit(mpb, beat, time, made, after) => {
            stage.commit(rt, timeline(*mpb, *beat, *time), *made, *after);
        }
        _ => check(rt, stage, step),
    }
}

fn check(rt: &impl Abort, stage: &Stage, step: &Step) {
    match step {
        Step::Sent(count, room) => {
            let found = (stage.sends.list().len(), stage.sends.room());
            stage.expect(rt, &found, &(*count, *room));
        }
        Step::HasId(id) => stage.expect(rt, &stage.node.id(), id),
        Step::IsIn(session) => stage.expect(rt, &stage.node.session(), session),
        Step::HasTimeline(mpb, beat, time) => {
            let found = stage.node.session_timeline();
            stage.expect(rt, &found, &timeline(*mpb, *beat, *time));
        }
        Step::Shows(session, mpb, beat, time, peers, app, moment) => {
            let line = timeline(*mpb, *beat, *time);
            let state = state(*session, line, *peers, *app, *moment);
            stage.expect(rt, &stage.node.state(), &state);
        }
        Step::IsDue(after) => stage.expect(rt, &stage.node.due(), &(OPENING + i64::from(*after))),
        Step::IsAt(moment) => stage.expect(rt, &stage.node.moment(), moment),
        _ => stage.expect(rt, &"known", &"unknown"),
    }
}

// With nothing played.
fn state(session: NodeId, timeline: Timeline, peers: u32, app: u64, moment: i64) -> State {
    State {
        timeline,
        start: ClientStart {
            playing: false,
            time: 0,
            stamp: 0,
        },
        sync: true,
        peers,
        moment,
        app,
        audio: 0,
        session,
        quantum: 4_000_000,
    }
}
