//! The one call that runs a node.

ghost use Rattle.std.specs.Prelude.{◌≡◌, ◌≤◌, [], true, false, None, length, map, IfOk, IsErr};
ghost use Rattle.lk_base.specs.Ranges.{IsMoment};
ghost use Rattle.lk_outside.specs.Faults.{Rose};
ghost use Rattle.link_node.specs.Config.{config_value, gate_value, IsConfig};
ghost use Rattle.link_node.specs.Event.{event_value};
ghost use Rattle.link_node.specs.Runs.{AreFitting};
ghost use Rattle.link_shared.specs.Audio.{AudioView};
ghost use Rattle.link_shared.specs.Passes.{AppView};
ghost use Rattle.link_live.specs.Headline.{new_audio};
ghost use Rattle.link_live.specs.Network.{locals_of};
ghost use Rattle.link_live.specs.NodeRun.{ArePartsOf, IsNodeRun, new_app};

use crate::network::{post, run_laws};
use crate::side::{AppSide, AudioSide, run_beside};
use arrayvec::ArrayVec;
use client_state::State;
use link_node::{
    Config, Event, GateSetup, Sends, best_timelines_are_told, clients_follow_sessions,
    datagrams_go_out_on_gates,
};
use link_shared::{Link, LinkName, Opened, Parts};
use lk_base::Endpoint;
use lk_outside::{Bound, Port};
use std::alloc::{AllocError, Global};
use std::marker::Brand;
use std::sync::Wait;
use std::thread::Threads;
use triple_buffer::Triple;

/// What a run of a node leaves.
#[derive(Drop)]
pub struct NodeRun<X, Y> {
    /// How the audio thread's side ended, and the application's.
    pub audio: X,
    pub app: Y,
    /// No gate was bound, or a call of the port failed.
    pub failed: bool,
    /// An event found no room in the journal.
    pub full: bool,
    /// The journal: each event that the node took, in order.
    pub events: Vec<Event>,
    /// Each state that it published, the opening's first.
    pub published: Vec<State>,
}

/// Runs a node, which is opened with a config at a moment and whose journal takes so many events: binds the port to the config's gates, and
/// runs the network's loop beside two sides. One has the audio thread's pass and a device, the other the application's pass and two; `Idle`
/// stands for a side that a program hasn't. Once both have ended, the loop is asked to end, also where a side has asked before. Then the
/// node says goodbye.
///
/// The error is want of memory; then no device was called, and no side begun.
///
/// Waits: for the threads, in the port and in the sides. Memory: before the threads begin, all that the node needs; then the sides'.
pub fn run_node<
    P: Port + Send,
    A: AudioSide<R, D> + Send,
    D: Send,
    B: AppSide<R, E, F> + Send,
    E: Send,
    F: Send,
    R: Threads + Wait + Sync,
>(
    rt: &R,
    alloc: Global,
    config: &Config,
    opened_at: i64,
    events: u64,
    port: &mut P,
    audio: &mut A,
    device: &mut D,
    app: &mut B,
    first: &mut E,
    second: &mut F,
) -> Result<NodeRun<A::End, B::End>, AllocError>
    requires config { IsConfig (config_value config.now) }
    requires opening { IsMoment opened_at }
    requires events { (1 ≤ events) × (events ≤ 524_288) }
    requires audio { A.starts audio.old new_audio device.old }
    requires app { B.starts app.old new_app first.old second.old }
    ensures run { IfOk result (λ run. (pass : AudioView) × (own : AppView)
        × A.runs audio.old audio.new new_audio pass device.old device.new run.audio
        × B.runs app.old app.new new_app own first.old first.new second.old second.new run.app
        × IsNodeRun (config_value config.now) opened_at events run.failed run.full (P.seen port.old) (P.seen port.new)
        pass own (map event_value run.events.items) run.published.items) }
    ensures fitting { IfOk result (λ run. AreFitting (length (config_value config.now).gates) 0 0 (map event_value run.events.items)) }
    ensures untouched { IsErr result → (port.new ≡ port.old) × (audio.new ≡ audio.old) × (device.new ≡ device.old) × (app.new ≡ app.old)
        × (first.new ≡ first.old) × (second.new ≡ second.old) }
{
    let sends = Sends::new(alloc)?;
    let parts = Parts::<Triple<11>>::new(rt, alloc, &(), config, opened_at, events)?;
    Ok(run_parts::<Brand, P, A, D, B, E, F, R>(
        rt, parts, config, sends, port, audio, device, app, first, second,
    ))
}

// Runs the node of these parts. Waits: for the threads, in the port and in the sides. Memory: the sides'.
fn run_parts<
    N: LinkName + Send + Sync,
    P: Port + Send,
    A: AudioSide<R, D> + Send,
    D: Send,
    B: AppSide<R, E, F> + Send,
    E: Send,
    F: Send,
    R: Threads + Wait + Sync,
>(
    rt: &R,
    parts: Parts<Triple<11>>,
    config: &Config,
    mut sends: Sends,
    port: &mut P,
    audio: &mut A,
    device: &mut D,
    app: &mut B,
    first: &mut E,
    second: &mut F,
) -> NodeRun<A::End, B::End>
    requires link { ArePartsOf N.app_states N.audio_states N.audio_commits N.queue N.name N.parts N.whole parts }
    requires config { (parts.config ≡ config_value config.now) × IsConfig parts.config }
    requires opening { IsMoment parts.opened_at }
    requires audio { A.starts audio.old new_audio device.old }
    requires app { B.starts app.old new_app first.old second.old }
    ensures run { (pass : AudioView) × (own : AppView)
        × A.runs audio.old audio.new new_audio pass device.old device.new result.audio
        × B.runs app.old app.new new_app own first.old first.new second.old second.new result.app
        × IsNodeRun parts.config parts.opened_at parts.most result.failed result.full (P.seen port.old) (P.seen port.new)
        pass own (map event_value result.events.items) result.published.items }
    ensures fitting { AreFitting (length parts.config.gates) 0 0 (map event_value result.events.items) }
{
    // Laws, for the proof.
    run_laws();
    best_timelines_are_told();
    clients_follow_sessions();
    datagrams_go_out_on_gates();
    let Opened {
        link,
        mut hub,
        audio: mut audio_pass,
        app: mut app_pass,
    } = Link::<Triple<11>, N>::make(parts);
    let bound = bind(port, config);
    let (net, ends) = run_beside(
        rt,
        &link,
        &mut hub,
        port,
        bound,
        &mut sends,
        audio,
        &mut audio_pass,
        device,
        app,
        &mut app_pass,
        first,
        second,
    );
    hub.hand_in(app_pass);
    let ended = hub.last_turn(rt, link, &(), audio_pass, net.clock, &mut sends);
    let failed = post(port, sends.list(), net.failed);
    NodeRun {
        audio: ends.0,
        app: ends.1,
        failed,
        full: ended.full,
        events: ended.events,
        published: ended.published,
    }
}

/// Binds the config's gates. Answers whether the port did. Waits: in the port. Memory: none.
pub fn bind<P: Port>(port: &mut P, config: &Config) -> bool
    requires config { IsConfig (config_value config.now) }
    ensures gates { result ≡ true → (P.seen port.new).gates ≡ locals_of (config_value config.now) }
    ensures works { result ≡ true → (P.seen port.new).faults ≡ (P.seen port.old).faults }
    ensures fails { result ≡ false → Rose (P.seen port.old).faults (P.seen port.new).faults }
    ensures contents { (P.seen port.new).told ≡ (P.seen port.old).told }
{
    match port.bind(&locals(&config.gates)) {
        Bound::Ready => true,
        Bound::Failed => false,
    }
}

/// The local endpoints of gates. Memory: none.
pub fn locals(gates: &ArrayVec<GateSetup, 4>) -> ArrayVec<Endpoint, 4>
    ensures { result.items ≡ map (λ gate. gate.local) (map gate_value gates.now.items) }
{
    let mut locals = ArrayVec::new();
    for gate in gates.as_slice() {
        locals.push(gate.local);
    }
    locals
}
