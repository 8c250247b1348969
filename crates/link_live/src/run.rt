//! A live run: three threads over one link, and its end.

ghost use Rattle.std.specs.Prelude.{◌≡◌, ◌≤◌, pos, Bool, true, false, length, map, IfOk, IsErr};
ghost use Rattle.lk_outside.specs.Pace.{IsPaced};
ghost use Rattle.link_node.specs.Config.{config_value, IsConfig};
ghost use Rattle.link_node.specs.Event.{event_value};
ghost use Rattle.link_node.specs.Runs.{AreFitting};
ghost use Rattle.link_live.specs.LiveRun.{EndsLiveRun, IsReady, first_of, setup_of, told_of};

use crate::audio::AudioReport;
use crate::node_run::run_node;
use crate::room::Room;
use crate::script::ScriptReport;
use crate::sides::{Player, Script};
use client_state::State;
use link_node::{Config, Event};
use link_script::LiveScript;
use lk_outside::{Audio, Pace, Port};
use std::alloc::{AllocError, Global};
use std::sync::Wait;
use std::thread::Threads;

/// How a live run ended: by the first of these that holds.
#[derive(Clone, Copy, Debug, PartialEq, Eq)]
pub enum LiveEnd {
    /// Memory was wanting for a capture.
    Memory,
    /// A call of the port failed.
    Port,
    /// A call of the audio device failed.
    Audio,
    /// An event found no room in the journal.
    Events,
    /// None of these.
    Well,
}

/// What a live run leaves.
#[derive(Drop)]
pub struct LiveRun {
    pub end: LiveEnd,
    pub events: Vec<Event>,
    pub published: Vec<State>,
    pub audio: AudioReport,
    pub script: ScriptReport,
}

/// Runs a node, which is opened with a config at a moment and whose journal takes so many events, on three threads: the network's loop, the
/// audio thread's over at most `blocks` blocks, and that of an application which takes the script's commands.
///
/// The error is want of memory; then nothing was called.
///
/// Waits: for the threads, and in the port, the device and the pace. Memory: before the threads begin, all that the node needs; then two
/// notes for each capture of the application.
pub fn live_run<P: Port + Send, A: Audio + Send, T: Pace + Send, R: Threads + Wait + Sync>(
    rt: &R,
    alloc: Global,
    config: &Config,
    opened_at: i64,
    events: u64,
    script: &LiveScript,
    blocks: u64,
    room: Room,
    port: &mut P,
    audio: &mut A,
    pace: &mut T,
) -> Result<LiveRun, AllocError>
    requires config { IsConfig (config_value config.now) }
    requires opening { IsPaced (T.late pace.old) (pos 0) opened_at }
    requires events { (1 ≤ events) × (events ≤ 524_288) }
    requires ready { IsReady script.now blocks room }
    ensures ends { IfOk result (λ run. EndsLiveRun (setup_of (config_value config.now) events script.now blocks) (T.late pace.old)
        (P.seen port.old) (P.seen port.new) (A.seen audio.old) (A.seen audio.new)
        (told_of (config_value config.now) opened_at run) run.end) }
    ensures few { IfOk result (λ run. length run.audio.plays.items ≤ blocks) }
    ensures fitting { IfOk result (λ run. AreFitting (length (config_value config.now).gates) 0 0 (map event_value run.events.items)) }
    ensures untouched { IsErr result → (port.new ≡ port.old) × (audio.new ≡ audio.old) × (pace.new ≡ pace.old) }
{
    let mut player = Player {
        script,
        blocks,
        report: room.audio,
    };
    let mut client = Script {
        alloc,
        script,
        report: room.script,
    };
    let run = run_node(
        rt,
        alloc,
        config,
        opened_at,
        events,
        port,
        &mut player,
        audio,
        &mut client,
        pace,
        &mut (),
    )?;
    Ok(LiveRun {
        end: end_of(run.app, run.failed, run.audio, run.full),
        events: run.events,
        published: run.published,
        audio: player.report,
        script: client.report,
    })
}

// The first that holds.
fn end_of(captured: bool, failed: bool, played: bool, full: bool) -> LiveEnd
    ensures { result ≡ first_of captured failed played full }
{
    if !captured {
        return LiveEnd::Memory;
    }
    if failed {
        return LiveEnd::Port;
    }
    if !played {
        return LiveEnd::Audio;
    }
    if full {
        return LiveEnd::Events;
    }
    LiveEnd::Well
}

/// A law: by how a run ended, what it met.
pub fn ends_tell_courses()
    ensures well { (captured failed played full : Bool) → LiveEnd.Well ≡ first_of captured failed played full
        → (captured ≡ true) × (failed ≡ false) × (played ≡ true) × (full ≡ false) }
    ensures events { (captured failed played full : Bool) → LiveEnd.Events ≡ first_of captured failed played full
        → (captured ≡ true) × (failed ≡ false) × (played ≡ true) × (full ≡ true) }
    ensures audio { (captured failed played full : Bool) → LiveEnd.Audio ≡ first_of captured failed played full
        → (captured ≡ true) × (failed ≡ false) × (played ≡ false) }
    ensures port { (captured failed played full : Bool) → LiveEnd.Port ≡ first_of captured failed played full
        → (captured ≡ true) × (failed ≡ true) }
{}
