//! A run under control: the loop of the network beside the client's, over one link, and its end.

ghost use Rattle.std.specs.Prelude.{◌≡◌, ◌≤◌, ◌<◌, ◌+◌, ◌++◌, pos, if◌then◌else◌, [], length, map, vec_capacity, vec_len, IfOk, IsErr};
ghost use Rattle.lk_outside.specs.Pace.{IsPaced};
ghost use Rattle.link_node.specs.Config.{config_value, IsConfig};
ghost use Rattle.link_node.specs.Event.{event_value};
ghost use Rattle.link_node.specs.Runs.{AreFitting};
ghost use Rattle.link_control.specs.ControlRun.{EndsControlRun, EndsTell, IsReady, first_of, told_of};
ghost use Rattle.link_control.specs.Log.{captures_in, commits_in, put_before};

use crate::log::{LineLog, SessionLog};
use crate::room::ControlRoom;
use crate::server::Served;
use crate::sides::Client;
use client_state::{Commit, State};
use link_live::{Idle, run_node};
use link_node::{Config, Event};
use link_shared::Capture;
use lk_base::Endpoint;
use lk_outside::{Pace, Port, Talk};
use std::alloc::{AllocError, Global};
use std::mem::replace;
use std::sync::Wait;
use std::thread::Threads;

/// How a run under control ended: by the first of these that holds.
#[derive(Clone, Copy, Debug, PartialEq, Eq)]
pub enum ControlEnd {
    /// Memory was wanting for a capture.
    Memory,
    /// A call of the port failed.
    Port,
    /// A call of the talk failed.
    Talk,
    /// An event found no room in the journal.
    Events,
    /// The client sent more lines than are answered.
    Lines,
    /// None of these.
    Well,
}

/// What a run under control leaves, beside its log.
#[derive(Drop)]
pub struct ControlRun {
    pub end: ControlEnd,
    pub events: Vec<Event>,
    pub published: Vec<State>,
    /// What was captured, once for each line of the log.
    pub captures: Vec<Capture>,
    /// What was committed, in order.
    pub commits: Vec<Commit>,
}

/// Runs a node, which is opened with a config at a moment and whose journal takes so many events, on two threads: the network's loop, and
/// one that opens the talk at an endpoint and serves the client. Where the talk can't be opened, no line is served.
///
/// The error is want of memory; then nothing was called, and the log is as it was.
///
/// Waits: for the threads, and in the port, the talk and the pace. Memory: before the threads begin, all that the node needs; then two
/// notes for each capture.
pub fn control_run<P: Port + Send, L: Talk + Send, T: Pace + Send, R: Threads + Wait + Sync>(
    rt: &R,
    alloc: Global,
    config: &Config,
    opened_at: i64,
    events: u64,
    at: Endpoint,
    room: ControlRoom,
    port: &mut P,
    talk: &mut L,
    pace: &mut T,
    log: &mut SessionLog,
) -> Result<ControlRun, AllocError>
    requires config { IsConfig (config_value config.now) }
    requires opening { IsPaced (T.late pace.old) (pos 0) opened_at }
    requires events { (1 ≤ events) × (events ≤ 524_288) }
    requires ready { IsReady room log.old }
    ensures ends { IfOk result (λ run. EndsControlRun (record { config = config_value config.now; events = events; at = at }) (T.late pace.old)
        (P.seen port.old) (P.seen port.new) (L.seen talk.old) (L.seen talk.new)
        (told_of (config_value config.now) opened_at run) log.new.lines.items run.end) }
    ensures fitting { IfOk result (λ run. AreFitting (length (config_value config.now).gates) 0 0 (map event_value run.events.items)) }
    ensures untouched { IsErr result → (port.new ≡ port.old) × (talk.new ≡ talk.old) × (pace.new ≡ pace.old) × (log.new.lines.items ≡ log.old.lines.items) }
{
    let ControlRoom {
        mut captures,
        mut commits,
    } = room;
    let mut client = Client {
        alloc,
        at,
        log: replace(
            log,
            SessionLog {
                lines: Vec::new(alloc),
            },
        ),
    };
    let run = run_node(
        rt,
        alloc,
        config,
        opened_at,
        events,
        port,
        &mut Idle,
        &mut (),
        &mut client,
        talk,
        pace,
    );
    *log = client.log;
    let run = run?;
    tell_captures(&log.lines, &mut captures);
    tell_commits(&log.lines, &mut commits);
    Ok(ControlRun {
        end: end_of(run.app, run.failed, run.full),
        events: run.events,
        published: run.published,
        captures,
        commits,
    })
}

// Tells what was captured at each line, in order. Memory: none.
fn tell_captures(lines: &[LineLog], captures: &mut Vec<Capture>)
    requires few { length lines.now ≤ 4_096 }
    requires empty { captures.old.items ≡ [] }
    requires room { 4_096 ≤ vec_capacity captures.old }
    ensures { captures.new.items ≡ captures_in lines.now }
{
    for line in lines {
        captures.push_reserved(line.capture);
    }
}

// Tells what was committed at the lines, in order. Memory: none.
fn tell_commits(lines: &[LineLog], commits: &mut Vec<Commit>)
    requires few { length lines.now ≤ 4_096 }
    requires empty { commits.old.items ≡ [] }
    requires room { 4_096 ≤ vec_capacity commits.old }
    ensures { commits.new.items ≡ map (λ commit. commit.1) (commits_in lines.now) }
{
    for line in lines {
        tell_commit(line.commit, commits);
    }
}

// Tells what was committed at a line, if anything was. Memory: none.
fn tell_commit(made: Option<(u64, Commit)>, commits: &mut Vec<Commit>)
    requires room { vec_len commits.old < vec_capacity commits.old }
    ensures items { commits.new.items ≡ commits.old.items ++ map (λ commit. commit.1) (put_before made []) }
    ensures capacity { vec_capacity commits.new ≡ vec_capacity commits.old }
    ensures len { vec_len commits.new ≤ vec_len commits.old + 1 }
{
    if let Some((_, commit)) = made {
        commits.push_reserved(commit);
    }
}

// The first cause that holds.
fn end_of(served: Served, failed: bool, full: bool) -> ControlEnd
    ensures { result ≡ first_of served failed full }
{
    match served {
        Served::Memory(_) => ControlEnd::Memory,
        Served::Failed => end_by(failed, false, ControlEnd::Talk),
        Served::Ended => end_by(failed, full, ControlEnd::Well),
        Served::Lines => end_by(failed, full, ControlEnd::Lines),
    }
}

// The first cause that holds, where another comes after the port's failure and the full journal.
fn end_by(failed: bool, full: bool, other: ControlEnd) -> ControlEnd
    ensures { result ≡ (if failed then ControlEnd.Port else (if full then ControlEnd.Events else other)) }
{
    if failed {
        return ControlEnd::Port;
    }
    if full {
        return ControlEnd::Events;
    }
    other
}

/// A law: by how a run ended, what it met.
pub fn control_ends_tell()
    ensures { EndsTell }
{}
