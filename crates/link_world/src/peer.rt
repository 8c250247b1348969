//! A peer of a world: a node, and what is known of which events it can take.

ghost use Rattle.std.specs.Prelude.{◌≡◌, ◌≤◌, ◌↔◌, IsTrue, length};
ghost use Rattle.lk_base.specs.Ranges.{IsMoment};
ghost use Rattle.link_node.specs.Event.{event_value, moment_of};
ghost use Rattle.link_node.specs.Standing.{gates_of, app_of, audio_of};

use client_state::Commit;
use link_node::{Config, Event, Node, Sends};
use lk_base::MOMENT_MAX;
use std::alloc::{AllocError, Global};

/// No commit has this number: 2^60.
const COMMITS: u64 = 1_152_921_504_606_846_976;

/// A node, with what its gates and the commits that it took say of the events that it can take.
#[derive(Drop)]
pub(crate) struct Peer {
    pub(crate) node: Node,
    // How many gates it has.
    gates: usize,
    // How many application commits it took, and the number of the last audio commit.
    app: u64,
    audio: u64,
    ghost gates_known: { gates_of node ≡ gates },
    ghost app_known: { app_of node ≡ app },
    ghost audio_known: { audio_of node ≡ audio },
}

impl Peer {
    ghost use Rattle.std.specs.Prelude.{◌≡◌, ◌≤◌, ◌+◌, ◌++◌, ◌<◌, ◌^◌, ◌↔◌, IsTrue, IfOk, length};
    ghost use Rattle.lk_base.specs.Ranges.{IsMoment};
    ghost use Rattle.link_node.specs.Config.{config_value, IsConfig};
    ghost use Rattle.client_state.specs.Commit.{IsTidyCommit};
    ghost use Rattle.link_node.specs.Event.{event_value, Fits, FitsKind};
    ghost use Rattle.link_node.specs.Machine.{Machine};
    ghost use Rattle.link_node.specs.Opening.{opened};
    ghost use Rattle.link_node.specs.Standing.{StandsFor};
    ghost use Rattle.link_node.specs.Step.{step_of, sends_of};
    ghost use Rattle.link_world.specs.Stored.{IsStoredEvent};

    // A peer whose node is opened.
    pub(crate) fn new(alloc: Global, config: &Config, now: i64) -> Result<Peer, AllocError>
        requires config { IsConfig (config_value config.now) }
        requires moment { IsMoment now }
        ensures { IfOk result (λ peer. StandsFor peer.node (opened (config_value config.now) now)) }
    {
        let node = Node::new(alloc, config, now)?;
        Ok(Peer {
            node,
            gates: config.gates.len(),
            app: 0,
            audio: 0,
        })
    }

    // Whether the node can take the event.
    pub(crate) fn can_take(&self, event: &Event) -> bool
        requires { IsStoredEvent (event_value event.now) }
        ensures { IsTrue result ↔ Fits self.now.gates self.now.app self.now.audio (event_value event.now) }
    {
        is_moment(moment_of(event)) && self.can_take_kind(event)
    }

    // The same, but for the moment.
    fn can_take_kind(&self, event: &Event) -> bool
        requires { IsStoredEvent (event_value event.now) }
        ensures { IsTrue result ↔ FitsKind self.now.gates self.now.app self.now.audio (event_value event.now) }
    {
        match event {
            Event::Rx { gate, .. } => usize::from(gate.0) < self.gates,
            Event::App { commit, .. } => self.can_take_app(commit),
            Event::Audio { number, commit, .. } => self.can_take_audio(*number, commit),
            Event::Tick { .. } | Event::End { .. } => true,
        }
    }

    fn can_take_app(&self, commit: &Commit) -> bool
        ensures { IsTrue result ↔ IsTidyCommit commit.now × (self.now.app < 2 ^ 60) }
    {
        self.app < COMMITS && commit.is_tidy()
    }

    fn can_take_audio(&self, number: u64, commit: &Commit) -> bool
        ensures { IsTrue result ↔ IsTidyCommit commit.now × (self.now.audio < number) × (number < 2 ^ 60) }
    {
        self.audio < number && number < COMMITS && commit.is_tidy()
    }

    // The node takes the event.
    pub(crate) fn take(&mut self, event: &Event, sends: &mut Sends)
        requires event { Fits self.old.gates self.old.app self.old.audio (event_value event.now) }
        requires room { length sends.old + 129 ≤ 160 }
        ensures stands { (m : Machine) → StandsFor self.old.node m → StandsFor self.new.node (step_of m (event_value event.now)) }
        ensures sends { (m : Machine) → StandsFor self.old.node m
            → sends.new ≡ sends.old ++ sends_of m (event_value event.now) }
    {
        let _change = self.node.step(event, sends);
        match event {
            Event::App { .. } => self.app += 1,
            Event::Audio { number, .. } => self.audio = *number,
            Event::Rx { .. } | Event::Tick { .. } | Event::End { .. } => {}
        }
    }
}

// The moment of an event.
fn moment_of(event: &Event) -> i64
    ensures { result ≡ moment_of (event_value event.now) }
{
    match event {
        Event::Rx { now, .. }
        | Event::Tick { now }
        | Event::App { now, .. }
        | Event::Audio { now, .. }
        | Event::End { now } => *now,
    }
}

// Whether an event may carry this moment.
fn is_moment(now: i64) -> bool
    ensures { IsTrue result ↔ IsMoment now }
{
    0 <= now && now <= MOMENT_MAX
}
