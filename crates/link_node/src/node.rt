//! A node: its opening, its step, and what it tells of itself.

ghost use Rattle.std.specs.Prelude.{◌≡◌, ◌≤◌, ◌≤ℤ◌, ◌^◌, pos, IfSome, length};
ghost use Rattle.std.proofs.Props.{props};
ghost use Rattle.lk_base.specs.Ranges.{IsMoment, IsQuantum, IsWithin, IsWithinLimit};
ghost use Rattle.lk_base.specs.Timeline.{IsTidy};
ghost use Rattle.session_choice.specs.Table.{HasTidyTimelines};
ghost use Rattle.client_state.specs.Commit.{IsTidyStart};
ghost use Rattle.client_state.specs.Edits.{timeline_at};
ghost use Rattle.client_state.specs.State.{IsTidyState};
ghost use Rattle.link_node.specs.Config.{config_value, IsConfig};
ghost use Rattle.link_node.specs.Event.{event_value};
ghost use Rattle.link_node.specs.Kinds.{is_tick};
ghost use Rattle.link_node.specs.Opening.{opening_state_of};

mod arrival;
mod broadcast;
mod client;
mod commits;
mod due;
mod measuring;
mod publishing;
mod settling;
mod taking;
mod telling;
mod tick;

use crate::config::{Config, copied};
use crate::event::{Change, Event};
use crate::lasting::{nodes_are_well_formed, states_tell_the_counts};
use crate::sends::Sends;
use arrayvec::ArrayVec;
use client_state::State;
use lk_base::{ClientStart, IdSource, NodeId, SessionStart, Timeline};
use peer_gateway::Peers;
use ping_measure::Measure;
use session_choice::Sessions;
use std::alloc::{AllocError, Global};

/// How many sessions may wait: the current one and 64 others.
const SESSIONS: usize = 65;

/// A node of a tempo session: what it is after the events that it took. It takes one event after another, in one order;
/// what it sends and which states it publishes follows from its config, its opening moment and these events alone.
///
/// No call but `new` takes memory.
#[derive(Drop)]
pub struct Node {
    config: Config,
    // The greatest moment so far.
    moment: i64,
    ids: IdSource,
    id: NodeId,
    sessions: Sessions,
    session_start: SessionStart,
    peers: Peers,
    // How many peers are in the current session, as counted last.
    peer_count: u32,
    // The sessions that are to be measured, in order.
    waiting: ArrayVec<NodeId, SESSIONS>,
    // When the current session is to be measured anew.
    remeasure_at: Option<i64>,
    measure: Option<Measure>,
    last_broadcast: Option<i64>,
    // Whether what alives tell has changed since the last broadcast.
    changed: bool,
    client: Timeline,
    client_start: ClientStart,
    quantum: i64,
    app: u64,
    audio: u64,
    // The state that was published last.
    published: State,
    ghost in_time: { IsMoment moment },
    ghost gates: { (1 ≤ length config.gates.items) × (length config.gates.items ≤ 4) × (peers.gates ≡ length config.gates.items) },
    ghost timelines: { HasTidyTimelines sessions } by { Prim.hlevel props },
    ghost start: { IsWithinLimit session_start.beats × IsWithinLimit session_start.stamp },
    ghost later: { IfSome remeasure_at (IsWithin (2 ^ 56)) } by { Prim.hlevel props },
    ghost broadcast: { IfSome last_broadcast IsMoment } by { Prim.hlevel props },
    ghost client_timeline: { IsTidy client },
    ghost client_playing: { IsTidyStart client_start },
    ghost quantum_range: { IsQuantum quantum },
    ghost shown: { IsTidyState published },
}

impl Node {
    ghost use Rattle.std.specs.Prelude.{◌≡◌, ◌≤◌, ◌+◌, ◌++◌, true, false, length, IfOk};
    ghost use Rattle.lk_base.specs.Ranges.{IsMoment};
    ghost use Rattle.lk_base.specs.Timeline.{IsTidy};
    ghost use Rattle.client_state.specs.State.{IsTidyState};
    ghost use Rattle.link_node.specs.Config.{config_value, IsConfig};
    ghost use Rattle.link_node.specs.Due.{due_of};
    ghost use Rattle.link_node.specs.Event.{event_value, moment_of, Fits, app_after, audio_after};
    ghost use Rattle.link_node.specs.Machine.{Machine, session_in, timeline_in};
    ghost use Rattle.link_node.specs.Opening.{opened};
    ghost use Rattle.link_node.specs.Standing.{StandsFor, HasParts, gates_of, app_of, audio_of};
    ghost use Rattle.link_node.specs.Step.{step_of, sends_of, change_of, taken, answers, at_moment, broadcast_by, alives_by};
    ghost use Rattle.link_node.specs.Kinds.{is_tick};
    ghost use Rattle.link_node.specs.WellFormed.{AreSessions};

    /// Opens a node at a moment, alone in a session of its own that begins then with beat 0. Memory: room for the tables
    /// of its peers and sessions.
    pub fn new(alloc: Global, config: &Config, now: i64) -> Result<Node, AllocError>
        requires config { IsConfig (config_value config.now) }
        requires moment { IsMoment now }
        ensures stands { IfOk result (λ node. StandsFor node (opened (config_value config.now) now)) }
        ensures gates { IfOk result (λ node. gates_of node ≡ length config.now.gates.items) }
        ensures app { IfOk result (λ node. app_of node ≡ 0) }
        ensures audio { IfOk result (λ node. audio_of node ≡ 0) }
    {
        // A law, for the proof: a node is well formed at its opening.
        nodes_are_well_formed();
        let published = opening_state(config, now);
        let session = timeline_from(config.mpb, 0);
        Ok(Node {
            config: copied(config),
            moment: now,
            ids: IdSource::new(config.seed, 0),
            id: config.id,
            sessions: Sessions::new(alloc, config.id, session, settling::beginning_at(now))?,
            session_start: settling::STILL,
            peers: Peers::new(alloc, config.gates.len() as u8)?,
            peer_count: 0,
            waiting: ArrayVec::new(),
            remeasure_at: None,
            measure: None,
            last_broadcast: None,
            changed: false,
            client: published.timeline,
            client_start: published.start,
            quantum: published.quantum,
            app: 0,
            audio: 0,
            published,
        })
    }

    /// Takes one event, appends the datagrams that follow from it, at most 129, and tells whether it published a state.
    ///
    /// The event's gate is one of the node's, its commit is tidy, the number of an audio commit is greater than that of the
    /// last one taken and below 2^60, and fewer than 2^60 application commits were taken.
    pub fn step(&mut self, event: &Event, sends: &mut Sends) -> Change
        requires event { Fits (gates_of self.old) (app_of self.old) (audio_of self.old) (event_value event.now) }
        requires room { length sends.old + 129 ≤ 160 }
        ensures stands { (m : Machine) → StandsFor self.old m → StandsFor self.new (step_of m (event_value event.now)) }
        ensures sends { (m : Machine) → StandsFor self.old m
            → sends.new ≡ sends.old ++ sends_of m (event_value event.now) }
        ensures change { (m : Machine) → StandsFor self.old m → result ≡ change_of m (event_value event.now) }
        ensures len { length sends.new ≤ length sends.old + 129 }
        ensures gates { gates_of self.new ≡ gates_of self.old }
        ensures app { app_of self.new ≡ app_after (app_of self.old) (event_value event.now) }
        ensures audio { audio_of self.new ≡ audio_after (audio_of self.old) (event_value event.now) }
    {
        // A law, for the proof: what is well formed stays so.
        nodes_are_well_formed();
        let before = self.held();
        self.take(event, sends);
        self.settle();
        self.note(&before);
        self.broadcast_by(event, sends);
        self.publish()
    }

    /// The state that was published last.
    pub fn state(&self) -> State
        ensures value { (m : Machine) → StandsFor self.now m → result ≡ m.published }
        ensures counts { (m : Machine) → StandsFor self.now m → (result.app ≡ app_of self.now) × (result.audio ≡ audio_of self.now) }
        ensures tidy { IsTidyState result }
    {
        // A law, for the proof: the state published last tells the counts.
        states_tell_the_counts();
        self.published
    }

    /// The greatest moment so far, in microseconds.
    pub fn moment(&self) -> i64
        ensures value { (m : Machine) → StandsFor self.now m → result ≡ m.moment }
        ensures range { IsMoment result }
    {
        self.moment
    }

    /// The own id.
    pub fn id(&self) -> NodeId
        ensures { (m : Machine) → StandsFor self.now m → result ≡ m.id }
    {
        self.id
    }

    /// The session that the node is in.
    pub fn session(&self) -> NodeId
        ensures { (m : Machine) → StandsFor self.now m → result ≡ session_in m }
    {
        self.sessions.current().session
    }

    /// The timeline of that session, in its ghost time.
    pub fn session_timeline(&self) -> Timeline
        ensures value { (m : Machine) → StandsFor self.now m → result ≡ timeline_in m }
        ensures tidy { IsTidy result }
    {
        self.sessions.current().timeline
    }

    // What the event itself does, at its moment.
    fn take(&mut self, event: &Event, sends: &mut Sends)
        requires event { Fits (gates_of self.old) (app_of self.old) (audio_of self.old) (event_value event.now) }
        requires room { length sends.old + 129 ≤ 160 }
        ensures stands { (m : Machine) → AreSessions m → HasParts self.old m
            → HasParts self.new (taken (event_value event.now) (at_moment (moment_of (event_value event.now)) m)) }
        ensures sends { (m : Machine) → AreSessions m → HasParts self.old m
            → sends.new ≡ sends.old ++ answers (event_value event.now) (at_moment (moment_of (event_value event.now)) m) }
        ensures tick { is_tick (event_value event.now) ≡ true → length sends.new ≤ length sends.old + 1 }
        ensures len { length sends.new ≤ length sends.old + 128 }
        ensures gates { gates_of self.new ≡ gates_of self.old }
        ensures app { app_of self.new ≡ app_after (app_of self.old) (event_value event.now) }
        ensures audio { audio_of self.new ≡ audio_after (audio_of self.old) (event_value event.now) }
    {
        match event {
            Event::Rx {
                gate,
                from,
                bytes,
                now,
            } => {
                self.advance(*now);
                self.arrive(*gate, *from, bytes, sends);
            }
            Event::Tick { now } => {
                self.advance(*now);
                self.tick(sends);
            }
            Event::App { commit, now } => {
                self.advance(*now);
                self.take_app(commit);
            }
            Event::Audio {
                number,
                commit,
                now,
            } => {
                self.advance(*now);
                self.take_audio(*number, commit);
            }
            Event::End { now } => {
                self.advance(*now);
                self.send_byes(sends);
            }
        }
    }

    // A broadcast, in ticks alone.
    fn broadcast_by(&mut self, event: &Event, sends: &mut Sends)
        requires room { is_tick (event_value event.now) ≡ true → length sends.old + 128 ≤ 160 }
        ensures stands { (m : Machine) → HasParts self.old m → HasParts self.new (broadcast_by (event_value event.now) m) }
        ensures sends { (m : Machine) → HasParts self.old m → sends.new ≡ sends.old ++ alives_by (event_value event.now) m }
        ensures tick { is_tick (event_value event.now) ≡ true → length sends.new ≤ length sends.old + 128 }
        ensures other { is_tick (event_value event.now) ≡ false → sends.new ≡ sends.old }
        ensures gates { gates_of self.new ≡ gates_of self.old }
        ensures app { app_of self.new ≡ app_of self.old }
        ensures audio { audio_of self.new ≡ audio_of self.old }
    {
        if is_tick(event) {
            self.broadcast(sends);
        }
    }

    // The moment never falls.
    fn advance(&mut self, now: i64)
        requires { IsMoment now }
        ensures stands { (m : Machine) → HasParts self.old m → HasParts self.new (at_moment now m) }
        ensures gates { gates_of self.new ≡ gates_of self.old }
        ensures app { app_of self.new ≡ app_of self.old }
        ensures audio { audio_of self.new ≡ audio_of self.old }
    {
        self.moment = self.moment.max(now);
    }
}

// The state at the opening: beat 0 is then, and nothing plays.
fn opening_state(config: &Config, now: i64) -> State
    requires config { IsConfig (config_value config.now) }
    requires moment { IsMoment now }
    ensures value { result ≡ opening_state_of (config_value config.now) now }
    ensures tidy { IsTidyState result }
{
    State {
        timeline: timeline_from(config.mpb, now),
        start: ClientStart {
            playing: false,
            time: 0,
            stamp: 0,
        },
        sync: config.sync,
        peers: 0,
        moment: now,
        app: 0,
        audio: 0,
        session: config.id,
        quantum: config.quantum,
    }
}

// Beat 0 at a time.
fn timeline_from(mpb: i64, time: i64) -> Timeline
    requires mpb { (pos 60_060 ≤ℤ mpb) × (mpb ≤ℤ pos 3_000_000) }
    requires time { IsMoment time }
    ensures value { result ≡ timeline_at mpb (pos 0) time }
    ensures tidy { IsTidy result }
{
    Timeline { mpb, beat: 0, time }
}

// Whether the event is time alone.
fn is_tick(event: &Event) -> bool
    ensures { result ≡ is_tick (event_value event.now) }
{
    matches!(event, Event::Tick { .. })
}
