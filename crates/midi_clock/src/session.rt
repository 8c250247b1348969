//! The MIDI clock on the network.

ghost use Rattle.std.specs.Prelude.{◌≡◌, pos};
ghost use Rattle.link_node.specs.Config.{IsConfig, config_value, gate_value};
ghost use Rattle.midi_clock.specs.Session.{EndsSession, devices_seen, following_from};

use crate::rig::{Devices, EVENTS};
use crate::sending::Tally;
use crate::sides::Clockwork;
use crate::status::{Status, status_of};
use crate::words::Setup;
use link_live::{Config, Idle, one_gate_config, run_node};
use lk_outside::{Pace, Port, Sink};
use std::alloc::Global;
use std::sync::Wait;
use std::thread::Threads;

/// How long it listens before its first block, in microseconds, so that it begins in the session that is there.
const LISTENS: i64 = 500_000;

/// How many blocks are a second.
const BLOCKS_A_SECOND: u32 = 500;

/// Opens a node, plays its blocks beside its peers, and leaves the session. Answers how it ended, and what it sent.
///
/// Waits: for the threads, and in the devices. Memory: all of it before the threads begin.
pub fn play_session<
    P: Port + Send,
    T: Pace + Send,
    M: Sink + Send,
    R: Threads + Wait + Eprint + Sync,
>(rt: &R, alloc: Global, setup: Setup, devices: &mut Devices<P, T, M>) -> (Status, Tally)
    ensures ends { EndsSession setup.seconds
        (following_from devices.old.seed setup.mpb (gate_value setup.gate) setup.quantum setup.group) devices.old.opened_at
        (devices_seen (P.seen devices.old.port) (M.seen devices.old.outlet.midi))
        (devices_seen (P.seen devices.new.port) (M.seen devices.new.outlet.midi)) result.0 result.1.counts }
{
    let opened_at = devices.opened_at;
    let mut clockwork = Clockwork {
        origin: opened_at + LISTENS,
        blocks: setup.seconds * BLOCKS_A_SECOND,
        tally: Tally::new(),
    };
    let config = config_of(devices.seed, setup);
    let Devices { port, outlet, .. } = devices;
    match run_node(
        rt,
        alloc,
        &config,
        opened_at,
        EVENTS,
        port,
        &mut clockwork,
        outlet,
        &mut Idle,
        &mut (),
        &mut (),
    ) {
        Ok(run) => (status_of(run.audio, run.failed, run.full), clockwork.tally),
        Err(_) => (Status::Memory, clockwork.tally),
    }
}

// The config of the node. Memory: none.
fn config_of(seed: u64, setup: Setup) -> Config
    ensures value { config_value result ≡ following_from seed setup.mpb (gate_value setup.gate) setup.quantum setup.group }
    ensures ranges { IsConfig (config_value result) }
{
    let Setup {
        mpb,
        quantum,
        group,
        gate,
        ..
    } = setup;
    let mut config = one_gate_config(seed, mpb, gate);
    config.quantum = quantum;
    config.group = group;
    config
}
