//! A run of a session server: the loop of the network beside the server's, over one link, and its end.

ghost use Rattle.std.specs.Prelude.{◌≡◌, ◌≤◌, length, map, IfOk, IsErr};
ghost use Rattle.lk_base.specs.Ranges.{IsMoment};
ghost use Rattle.link_node.specs.Config.{config_value, IsConfig};
ghost use Rattle.link_node.specs.Event.{event_value};
ghost use Rattle.link_node.specs.Runs.{AreFitting};
ghost use Rattle.link_clients.specs.ServeRun.{EndsServeRun, first_of};

use crate::hall::Hall;
use crate::lookout::{Lookout, Rig};
use crate::sides::Server;
use crate::terms::{HostEnd, ServeEnd, Terms};
use client_state::State;
use link_live::{Idle, run_node};
use link_node::{Config, Event};
use lk_base::Endpoint;
use lk_outside::{Pace, Port};
use lk_talks::Talks;
use std::alloc::{AllocError, Global};
use std::sync::Wait;
use std::thread::Threads;

/// What a run of a session server leaves.
#[derive(Drop)]
pub struct ServeRun {
    pub end: ServeEnd,
    /// The journal: each event that the node took, in order.
    pub events: Vec<Event>,
    /// Each state that it published, the opening's first.
    pub published: Vec<State>,
}

/// Runs a node, which is opened with a config at a moment and whose journal takes so many events, on two threads: the network's loop, and
/// one that listens for clients at an endpoint and serves them until serving ends. Where nobody can be listened for, it ends at once.
///
/// The error is want of memory; then nothing was called.
///
/// Waits: for the threads, and in the port, the talks, the pace and the lookout. Memory: before the threads begin, all that the node needs
/// and the seats; then two notes for each capture.
pub fn serve_run<
    P: Port + Send,
    L: Talks + Send,
    T: Pace + Send,
    B: Lookout + Send,
    R: Threads + Wait + Sync,
>(
    rt: &R,
    alloc: Global,
    config: &Config,
    opened_at: i64,
    events: u64,
    at: Endpoint,
    terms: Terms,
    port: &mut P,
    talks: &mut L,
    rig: &mut Rig<T, B>,
) -> Result<ServeRun, AllocError>
    requires config { IsConfig (config_value config.now) }
    requires opening { IsMoment opened_at }
    requires events { (1 ≤ events) × (events ≤ 524_288) }
    ensures ends { IfOk result (λ run. EndsServeRun
        (record { config = config_value config.now; opened_at = opened_at; events = events; at = at; terms = terms }) (T.late rig.old.pace)
        (P.seen port.old) (P.seen port.new) (L.seen talks.old) (L.seen talks.new)
        (map event_value run.events.items) run.published.items run.end) }
    ensures fitting { IfOk result (λ run. AreFitting (length (config_value config.now).gates) 0 0 (map event_value run.events.items)) }
    ensures untouched { IsErr result → (port.new ≡ port.old) × (talks.new ≡ talks.old) × (rig.new ≡ rig.old) }
{
    let mut server = Server {
        alloc,
        at,
        terms,
        hall: Hall::new(alloc)?,
    };
    let run = run_node(
        rt,
        alloc,
        config,
        opened_at,
        events,
        port,
        &mut Idle,
        &mut (),
        &mut server,
        talks,
        rig,
    )?;
    Ok(ServeRun {
        end: end_of(run.app, run.failed, run.full),
        events: run.events,
        published: run.published,
    })
}

// The first that holds.
fn end_of(hosted: HostEnd, failed: bool, full: bool) -> ServeEnd
    ensures { result ≡ first_of hosted failed full }
{
    if let HostEnd::Memory = hosted {
        return ServeEnd::Memory;
    }
    if failed {
        return ServeEnd::Port;
    }
    if matches!(hosted, HostEnd::Deaf | HostEnd::Failed) {
        return ServeEnd::Talks;
    }
    if full || matches!(hosted, HostEnd::Full) {
        return ServeEnd::Events;
    }
    ServeEnd::Well
}
