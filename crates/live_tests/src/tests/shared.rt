ghost use Rattle.std.specs.Prelude.{◌≡◌, ◌≤◌, length};
ghost use Rattle.std.specs.Option.{ForSome};
ghost use Rattle.client_state.specs.Commit.{IsTidyCommit, IsTidyStart};
ghost use Rattle.link_node.specs.Config.{config_value, IsConfig};
ghost use Rattle.link_live.specs.NodeRun.{ArePartsOf};

use arrayvec::ArrayVec;
use audio_handoff::{SeqState, StateCell};
use bench::Bench;
use client_state::{Commit, State};
use full_queue::{COMMITS, fill_queue, push_many};
use link_node::{Config, GateSetup, Sends};
use link_shared::{Ended, LinkName, Parts};
use lk_base::{ClientStart, Endpoint, NodeId, Timeline};
use runs::{RUNS, end_run, events_of, play_run};
use std::alloc::Global;
use std::marker::Brand;
use std::process::Abort;
use std::sync::Wait;
use std::thread::Threads;
use threads::{EVENTS, Reports, check_outcome, run_threads};
use triple_buffer::Triple;

mod bench;
mod cells;
mod full_queue;
mod hand_over;
mod runs;
mod steps;
mod threads;

/// The host time at which each node opens.
const OPENING: i64 = 1_000_000;

/// Each node, and so its session, which no other joins.
const NODE: NodeId = NodeId(*b"AAAAAAAA");

/// The quantum that each node opens with.
const QUANTUM: i64 = 4_000_000;

fn endpoint(port: u16) -> Endpoint {
    Endpoint {
        addr: 0x0A00_0001,
        port,
    }
}

/// One gate with one destination, and starts that aren't shared.
fn config() -> Config
    ensures config { IsConfig (config_value result) }
    ensures gate { length (config_value result).gates ≡ 1 }
{
    let mut peers = ArrayVec::new();
    peers.push(endpoint(2));
    let mut gates = ArrayVec::new();
    gates.push(GateSetup {
        local: endpoint(1),
        peers,
    });
    Config {
        id: NODE,
        seed: 1,
        mpb: 500_000,
        sync: false,
        group: 0,
        quantum: QUANTUM,
        gates,
    }
}

fn parts_of<C: StateCell<11>, R: Wait + Abort>(
    rt: &R,
    alloc: Global,
    way: &C::Way,
    events: u64,
) -> Parts<C>
    requires { (1 ≤ events) × (events ≤ 524_288) }
    ensures gate { length result.config.gates ≡ 1 }
    ensures shares { result.shares ≡ 65536 }
{
    let parts = Parts::<C>::new(rt, alloc, way, &config(), OPENING, events);
    parts.expect(rt, "memory for a link")
}

/// The start that plays from a time on, and was set then.
fn start_at(time: u16) -> ClientStart
    ensures { IsTidyStart result }
{
    ClientStart {
        playing: true,
        time: i64::from(time),
        stamp: i64::from(time),
    }
}

/// The start in the commit that is made at a time. Every fourth commit, of each thread's the third one, has none.
fn start_in(time: u16) -> Option<ClientStart>
    ensures { ForSome result IsTidyStart }
{
    if time & 3 == 3 {
        None
    } else {
        Some(start_at(time))
    }
}

/// A commit of such a start and of a quantum, or of the quantum alone. The quantum is as many microbeats as the time microseconds.
fn edit(time: u16) -> Commit
    ensures { IsTidyCommit result }
{
    Commit {
        timeline: None,
        start: start_in(time),
        quantum: Some(i64::from(time)),
        at: i64::from(time),
    }
}

/// The state that each node opens with.
const OPENED: State = State {
    timeline: Timeline {
        mpb: 500_000,
        beat: 0,
        time: OPENING,
    },
    start: ClientStart {
        playing: false,
        time: 0,
        stamp: 0,
    },
    sync: false,
    peers: 0,
    moment: OPENING,
    app: 0,
    audio: 0,
    session: NODE,
    quantum: QUANTUM,
};

/// The state after so many commits at the opening moment, with that start and that quantum.
fn state_of(app: u64, audio: u64, start: ClientStart, quantum: i64) -> State {
    let mut state = OPENED;
    state.app = app;
    state.audio = audio;
    state.start = start;
    state.quantum = quantum;
    state
}

/// The state with that commit over it.
fn shown_with(state: &State, time: u16) -> State {
    let mut shown = *state;
    shown.start = start_in(time).unwrap_or(state.start);
    shown.quantum = i64::from(time);
    shown
}

/// What is done with a new link.
#[derive(Clone, Copy)]
enum Doing {
    FillsQueue,
    PushesMany,
    Runs,
}

/// What is tried on a new link: what is done with it, how many events the journal takes, and the run, of which all but runs have the
/// ending alone.
#[derive(Clone, Copy)]
struct Trial<'a> {
    doing: Doing,
    events: u64,
    run: &'a str,
}

const QUEUE: Trial = Trial {
    doing: Doing::FillsQueue,
    events: 300,
    run: "z2E>1=*",
};

/// A journal of an event for each of the many commits.
const MANY: Trial = Trial {
    doing: Doing::PushesMany,
    events: COMMITS,
    run: "z2F=*",
};

fn try_link<C: StateCell<11>, N: LinkName, R: Wait + Abort>(
    rt: &R,
    alloc: Global,
    way: &C::Way,
    parts: Parts<C>,
    sends: Sends,
    trial: Trial,
)
    requires link { ArePartsOf N.app_states N.audio_states N.audio_commits N.queue N.name N.parts N.whole parts }
    requires gate { length parts.config.gates ≡ 1 }
{
    let mut bench = Bench::<C, N>::open(rt, alloc, way, parts, sends);
    try_bench(rt, alloc, way, &mut bench, trial);
    end_run(rt, way, bench, trial.run);
}

fn try_bench<C: StateCell<11>, N: LinkName, R: Wait + Abort>(
    rt: &R,
    alloc: Global,
    way: &C::Way,
    bench: &mut Bench<C, N>,
    trial: Trial,
) {
    match trial.doing {
        Doing::FillsQueue => fill_queue(rt, alloc, way, bench),
        Doing::PushesMany => push_many(rt, alloc, way, bench),
        Doing::Runs => play_run(rt, alloc, way, bench, trial.run),
    }
}

fn try_new_link<C: StateCell<11>, R: Wait + Abort>(
    rt: &R,
    alloc: Global,
    way: &C::Way,
    trial: Trial,
) {
    let sends = Sends::new(alloc).expect(rt, "memory for what is sent");
    let parts = parts_of::<C, R>(rt, alloc, way, trial.events.clamp(1, 524_288));
    try_link::<C, Brand, R>(rt, alloc, way, parts, sends, trial);
}

fn try_both_cells<R: Wait + Abort>(rt: &R, alloc: Global, trial: Trial) {
    try_new_link::<Triple<11>, R>(rt, alloc, &(), trial);
    try_new_link::<SeqState<R, 11>, R>(rt, alloc, rt, trial);
}

fn thread_link<
    C: StateCell<11> + Sync,
    N: LinkName + Send + Sync,
    R: Threads + Wait + Sync + Abort,
>(
    rt: &R,
    alloc: Global,
    way: &C::Way,
    parts: Parts<C>,
    sends: Sends,
    reports: Reports,
) -> (Ended, Reports)
where
    C::Way: Sync,
    requires link { ArePartsOf N.app_states N.audio_states N.audio_commits N.queue N.name N.parts N.whole parts }
    requires gate { length parts.config.gates ≡ 1 }
{
    let bench = Bench::<C, N>::open(rt, alloc, way, parts, sends);
    run_threads(rt, alloc, way, bench, reports)
}

fn thread_new_link<C: StateCell<11> + Sync, R: Threads + Wait + Sync + Abort>(
    rt: &R,
    alloc: Global,
    way: &C::Way,
)
where
    C::Way: Sync,
{
    let reports = Reports::new(rt, alloc);
    let sends = Sends::new(alloc).expect(rt, "memory for what is sent");
    let parts = parts_of::<C, R>(rt, alloc, way, EVENTS);
    let (ended, reports) = thread_link::<C, Brand, R>(rt, alloc, way, parts, sends, reports);
    check_outcome(rt, alloc, &ended, &reports);
}

fn thread_both_cells<R: Threads + Wait + Sync + Abort>(rt: &R, alloc: Global) {
    thread_new_link::<Triple<11>, R>(rt, alloc, &());
    thread_new_link::<SeqState<R, 11>, R>(rt, alloc, rt);
}

// rule: HasCaptured
#[test]
fn a_full_queue_hands_the_commit_back_until_a_turn_takes_one(rt: HostRuntime) {
    try_both_cells(&rt, rt.alloc(), QUEUE);
}

#[test]
fn seventy_thousand_commits_are_numbered_and_taken(rt: HostRuntime) {
    try_new_link::<Triple<11>, HostRuntime>(&rt, rt.alloc(), &(), MANY);
}

// rule: HasTurned, read_events, IsOffered, HasEnded, app_commits_in, HasCaptured, HasCommitted, IsKept, HasReadAudio
#[test]
fn steps_in_any_order_answer_as_worked_by_hand(rt: HostRuntime) {
    for run in RUNS {
        let trial = Trial {
            doing: Doing::Runs,
            events: events_of(run),
            run,
        };
        try_both_cells(&rt, rt.alloc(), trial);
    }
}

// rule: app_commits_in, HasCaptured, HasCommitted, HasReadAudio, ArePublished, IsScriptPart, IsAudioPart
#[test]
fn four_threads_see_published_states_and_lose_no_commit(rt: HostRuntime) {
    thread_both_cells(&rt, rt.alloc());
}
