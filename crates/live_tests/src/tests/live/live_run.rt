//! Live runs: three real threads over a port, a device and a pace in memory.
//!
//! The link opens at 0 with 500,000 microseconds per beat from beat 0 there, and doesn't play. Nothing comes to the port, so no moment is
//! heard after the opening. The blocks of the device are 20,000 microseconds long and begin at the opening, with a quantum of four beats.

ghost use Rattle.std.specs.Prelude.{◌≤◌, All, length};
ghost use Rattle.link_script.specs.LiveScript.{IsCommand, app as app_command, block as block_command};

use super::devices::{Blocks, device_of};
use super::events::kind_of;
use super::lines::{Text, put, put_count};
use super::nodes::config_of;
use super::scripts::script_of;
use client_state::State;
use link_live::{LiveEnd, LiveRun, Room, live_run};
use link_node::Event;
use link_script::LiveScript;
use link_text::{LineBuf, write_state_line};
use lk_outside::{BIND, ListAudio, ListPace, ListPort, NEXT, Pace, RECEIVE};
use std::alloc::Global;
use std::process::Abort;
use std::sync::Wait;
use std::thread::Threads;

/// What is given to a run, and what is told of it.
struct Row {
    /// How many blocks the device has, and how many events the journal takes.
    blocks: u16,
    most: u64,
    /// The calls of the port and of the device that fail: the k-th of a kind.
    port: (u8, u64),
    device: (u8, u64),
    commands: &'static str,
    told: &'static str,
}

/// A call that is never made.
const NEVER: (u8, u64) = (0, 0);

/// Worked out by hand.
const ROWS: &[Row] = &[
    // The first turn ticks, and so does no other.
    Row {
        blocks: 0,
        most: 300,
        port: NEVER,
        device: NEVER,
        commands: "",
        told: "Well t1 c0 u0 e1 end, 0 reads, 0 captures, 0 and 0 commits\n\
            state 1 500000 0 0 0 0 0 1 0 0 0 0 4141414141414141 4000000\n",
    },
    // Beat 2 is at 1,000,000, and so half a second of four beats a second before it is beat 0.
    Row {
        blocks: 2,
        most: 300,
        port: NEVER,
        device: NEVER,
        commands: "at 1000000 tempo 250000\n",
        told: "Well t1 c1 u0 e1 end, 2 reads, 1 captures, 1 and 0 commits\n\
            state 2 250000 0 500000 0 0 0 1 0 0 1 0 4141414141414141 4000000\n\
            state 0 500000 0 0 0 0 0 1 0 0 0 0 4141414141414141 4000000\n",
    },
    // Bars of three beats, whether that was taken by then or not.
    Row {
        blocks: 2,
        most: 300,
        port: NEVER,
        device: NEVER,
        commands: "at 0 quantum 3000000\nat 1000000 tempo 250000\n",
        told: "Well t1 c2 u0 e1 end, 2 reads, 2 captures, 2 and 0 commits\n\
            state 3 250000 0 500000 0 0 0 1 0 0 2 0 4141414141414141 3000000\n\
            state 0 500000 0 0 0 0 0 1 0 0 0 0 4141414141414141 3000000\n",
    },
    // Whether the commits were taken by then or not, the look is shown both.
    Row {
        blocks: 2,
        most: 300,
        port: NEVER,
        device: NEVER,
        commands: "at 1000000 tempo 250000\nat 2000000 play\nat 3000000 look\n",
        told: "Well t1 c2 u0 e1 end, 2 reads, 3 captures, 2 and 0 commits\n\
            state 3 250000 0 500000 1 2000000 2000000 1 0 0 2 0 4141414141414141 4000000\n\
            state 0 250000 0 500000 1 2000000 2000000 1 0 0 0 0 4141414141414141 4000000\n",
    },
    // The tick stands before the second commit, and for the third there is no room.
    Row {
        blocks: 1,
        most: 3,
        port: NEVER,
        device: NEVER,
        commands: "at 1000000 tempo 250000\nat 1000000 tempo 200000\nat 1000000 tempo 125000\n",
        told: "Events t1 c2 u0 e0, 1 reads, 3 captures, 3 and 0 commits\n\
            state 3 200000 0 600000 0 0 0 1 0 0 2 0 4141414141414141 4000000\n\
            state 0 200000 0 600000 0 0 0 1 0 0 0 0 4141414141414141 4000000\n",
    },
    Row {
        blocks: 1,
        most: 300,
        port: (RECEIVE, 1),
        device: NEVER,
        commands: "at 1000000 tempo 250000\n",
        told: "Port t1 c1 u0 e1 end, 1 reads, 1 captures, 1 and 0 commits\n\
            state 2 250000 0 500000 0 0 0 1 0 0 1 0 4141414141414141 4000000\n\
            state 0 500000 0 0 0 0 0 1 0 0 0 0 4141414141414141 4000000\n",
    },
    Row {
        blocks: 1,
        most: 300,
        port: (BIND, 1),
        device: NEVER,
        commands: "at 1000000 tempo 250000\n",
        told: "Port t1 c1 u0 e1 end, 1 reads, 1 captures, 1 and 0 commits\n\
            state 2 250000 0 500000 0 0 0 1 0 0 1 0 4141414141414141 4000000\n\
            state 0 500000 0 0 0 0 0 1 0 0 0 0 4141414141414141 4000000\n",
    },
    Row {
        blocks: 1,
        most: 300,
        port: NEVER,
        device: (NEXT, 1),
        commands: "at 1000000 tempo 250000\n",
        told: "Audio t1 c1 u0 e1 end, 0 reads, 1 captures, 1 and 0 commits\n\
            state 2 250000 0 500000 0 0 0 1 0 0 1 0 4141414141414141 4000000\n\
            state 0 500000 0 0 0 0 0 1 0 0 0 0 4141414141414141 4000000\n",
    },
    // The last commit of the audio thread is always taken. It is made at the start of the block, which is beat 0.
    Row {
        blocks: 2,
        most: 300,
        port: NEVER,
        device: NEVER,
        commands: "block 1 tempo 250000\n",
        told: "Well t1 c0 u1 e1 end, 2 reads, 0 captures, 0 and 1 commits\n\
            state 2 250000 0 0 0 0 0 1 0 0 0 1 4141414141414141 4000000\n",
    },
];

// rule: IsJournal, IsAudioPart
#[test]
fn three_threads_run_over_a_link(rt: HostRuntime) {
    for row in ROWS {
        expect_row(&rt, rt.alloc(), row);
    }
}

// ---- a run

fn expect_row<R: Threads + Wait + Sync + Abort>(rt: &R, alloc: Global, row: &Row) {
    let script = script_of(alloc, row.commands).expect(rt, "a script");
    let told = told_by(rt, alloc, row, &script);
    assert_eq!(rt; told.as_slice(), row.told.as_bytes(), "{}", row.commands);
}

fn told_by<R: Threads + Wait + Sync + Abort>(
    rt: &R,
    alloc: Global,
    row: &Row,
    script: &LiveScript,
) -> Text
    requires apps { All (λ command. IsCommand (app_command command)) script.now.apps.items }
    requires commands { All (λ command. IsCommand (block_command command)) script.now.blocks.items }
    requires few { length script.now.blocks.items ≤ 99 }
{
    let mut port = port_of(rt, alloc, row.port);
    let mut device = device_of(rt, alloc, Blocks::Short, row.blocks, row.device);
    let run = run_on(rt, alloc, row, script, &mut port, &mut device);
    tell(&run)
}

// A port that nothing comes to, of which this call fails.
fn port_of(rt: &impl Abort, alloc: Global, failing: (u8, u64)) -> ListPort {
    let failing = vec![in alloc; failing].expect(rt, "memory for a call");
    ListPort::new(alloc, Vec::new(alloc), 500, failing).expect(rt, "memory for a port")
}

fn run_on<R: Threads + Wait + Sync + Abort>(
    rt: &R,
    alloc: Global,
    row: &Row,
    script: &LiveScript,
    port: &mut ListPort,
    device: &mut ListAudio,
) -> LiveRun
    requires apps { All (λ command. IsCommand (app_command command)) script.now.apps.items }
    requires commands { All (λ command. IsCommand (block_command command)) script.now.blocks.items }
    requires few { length script.now.blocks.items ≤ 99 }
{
    let room = Room::new(alloc, script, u64::from(row.blocks)).expect(rt, "memory for a run");
    let config = config_of(&[0]);
    let mut pace = ListPace::new(0);
    let now = pace.until(0);
    let most = row.most.clamp(1, 524_288);
    let run = live_run(
        rt,
        alloc,
        &config,
        now,
        most,
        script,
        u64::from(row.blocks),
        room,
        port,
        device,
        &mut pace,
    );
    run.expect(rt, "memory for a run")
}

// ---- what is told, but for what depends on how the threads step

// A line of counts: of the events of each kind, with `end` where the last of them is that, of the reads and captures, and of the
// commits of the application and the audio thread. Then the state published last, with the count of all behind `state`, and the one
// that the last capture shows, without the count of commits taken.
fn tell(run: &LiveRun) -> Text {
    let mut text = Text::new();
    put(&mut text, end_name(run.end));
    put_events(&mut text, &run.events);
    put_count(&mut text, b", ", run.audio.reads.len() as u64);
    put_count(&mut text, b" reads, ", run.script.captures.len() as u64);
    put_count(&mut text, b" captures, ", run.script.commits.len() as u64);
    put_count(&mut text, b" and ", run.audio.commits.len() as u64);
    put(&mut text, b" commits\n");
    if let Some(state) = run.published.last() {
        put_state(&mut text, run.published.len() as u64, state);
    }
    if let Some(capture) = run.script.captures.last() {
        let mut shown = capture.shown;
        shown.app = 0;
        put_state(&mut text, 0, &shown);
    }
    text
}

fn put_state(text: &mut Text, number: u64, state: &State) {
    let mut line = LineBuf::new();
    write_state_line(&mut line, 2, number, state);
    put(text, &line);
}

fn end_name(end: LiveEnd) -> &'static [u8] {
    match end {
        LiveEnd::Memory => b"Memory",
        LiveEnd::Port => b"Port",
        LiveEnd::Audio => b"Audio",
        LiveEnd::Events => b"Events",
        LiveEnd::Well => b"Well",
    }
}

fn put_events(text: &mut Text, events: &[Event]) {
    put_count(text, b" t", count_of(events, b't'));
    put_count(text, b" c", count_of(events, b'c'));
    put_count(text, b" u", count_of(events, b'u'));
    put_count(text, b" e", count_of(events, b'e'));
    if let Some(event) = events.last() {
        put(text, if kind_of(event) == b'e' { b" end" } else { b"" });
    }
}

// How many events are of that kind.
fn count_of(events: &[Event], kind: u8) -> u64 {
    let mut count = 0u64;
    for event in events {
        count = count.wrapping_add(u64::from(kind_of(event) == kind));
    }
    count
}
