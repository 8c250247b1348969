//! The drum machine on the network.

ghost use Rattle.link_node.specs.Config.{gate_value};
ghost use Rattle.link_live.specs.OneGate.{one_gate_from};
ghost use Rattle.drum_machine.specs.Session.{EndsSession, devices_seen};

use crate::callback::Drums;
use crate::rig::{Devices, EVENTS};
use crate::sides::Drummer;
use crate::status::{Status, status_of};
use crate::words::Setup;
use link_live::{Idle, one_gate_config, run_node};
use lk_outside::{Audio, Port, Sink};
use std::alloc::Global;
use std::sync::Wait;
use std::thread::Threads;
use step_sequencer::Pattern;

/// Opens a node, plays its blocks beside its peers, and leaves the session.
///
/// Waits: for the threads, and in the devices. Memory: all of it before the threads begin.
pub fn play_session<
    P: Port + Send,
    A: Audio + Send,
    W: Sink + Send,
    M: Sink + Send,
    R: Threads + Wait + Sync,
>(
    rt: &R,
    alloc: Global,
    setup: Setup,
    pattern: Pattern,
    devices: &mut Devices<P, A, W, M>,
) -> Status
    ensures ends { EndsSession setup.blocks pattern (one_gate_from devices.old.seed setup.mpb (gate_value setup.gate)) devices.old.opened_at
        (devices_seen (P.seen devices.old.port) (A.seen devices.old.outlet.audio) (W.seen devices.old.outlet.sound) (M.seen devices.old.outlet.midi))
        (devices_seen (P.seen devices.new.port) (A.seen devices.new.outlet.audio) (W.seen devices.new.outlet.sound) (M.seen devices.new.outlet.midi)) result }
{
    let config = one_gate_config(devices.seed, setup.mpb, setup.gate);
    let opened_at = devices.opened_at;
    let mut drummer = Drummer {
        drums: Drums::new(pattern, opened_at),
        blocks: setup.blocks,
    };
    let Devices { port, outlet, .. } = devices;
    match run_node(
        rt,
        alloc,
        &config,
        opened_at,
        EVENTS,
        port,
        &mut drummer,
        outlet,
        &mut Idle,
        &mut (),
        &mut (),
    ) {
        Ok(run) => status_of(run.audio, run.failed, run.full),
        Err(_) => Status::Memory,
    }
}
