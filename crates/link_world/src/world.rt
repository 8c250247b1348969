//! Peers and all that they ever sent.

ghost use Rattle.std.specs.Prelude.{◌≡◌, ◌≤◌, ◌++◌, All, IfOk, OnOk, length, map};
ghost use Rattle.lk_base.specs.Ranges.{IsMoment};
ghost use Rattle.link_payload.specs.Entries.{AreBytes};
ghost use Rattle.link_node.specs.Config.{config_value, IsConfig};
ghost use Rattle.link_node.specs.Event.{sending_value};
ghost use Rattle.link_world.specs.Standing.{AreStanding};
ghost use Rattle.link_world.specs.World.{opened_world};

use crate::laws::{the_same_agree, who_took_all_converges, worlds_are_sound};
use crate::peer::Peer;
use crate::stored::configs_are_stored;
use crate::turn::Turn;
use link_node::{Config, Event, Node, Sending, Sends};
use lk_base::{Wire, append};
use std::alloc::{AllocError, Global};

/// Peers after a schedule of turns, and every datagram that they sent.
#[derive(Drop)]
pub struct World {
    peers: Vec<Peer>,
    sent: Vec<Sending>,
}

impl World {
    ghost use Rattle.std.specs.Prelude.{◌≡◌, ◌≤◌, ◌<◌, ◌^◌, ℕ, ℤ, All, IfOk, OnOk, Some, length, map, slice_get};
    ghost use Rattle.lk_base.specs.Ranges.{IsMoment};
    ghost use Rattle.link_node.specs.Config.{config_value, IsConfig};
    ghost use Rattle.link_node.specs.Event.{event_value, sending_value};
    ghost use Rattle.link_node.specs.Machine.{Machine};
    ghost use Rattle.link_node.specs.Standing.{StandsFor};
    ghost use Rattle.link_world.specs.Stored.{IsStoredEvent};
    ghost use Rattle.link_world.specs.Standing.{IsRun, StandsForWorld, peers_in, IsOffered};
    ghost use Rattle.link_world.specs.World.{WorldValue, IsWorldOf, Happens, turn_value};

    /// Opens the peers at one moment and takes the turns in order. A turn does nothing where its peer, its datagram or its
    /// gate isn't there, where a local event is a datagram, or where the peer's node can't take the event (see `Node::step`).
    ///
    /// Memory: the peers, every datagram sent, and what a turn copies.
    pub fn run(
        alloc: Global,
        configs: &[Config],
        now: i64,
        schedule: &[Turn],
    ) -> Result<World, AllocError>
        requires configs { All (λ config. IsConfig (config_value config)) configs.now }
        requires moment { IsMoment now }
        ensures run { IfOk result (IsRun (map config_value configs.now) now (map turn_value schedule.now)) }
        ensures peers { IfOk result (λ world. peers_in world ≡ length configs.now) }
    {
        // Laws, for the proof.
        worlds_are_sound();
        the_same_agree();
        who_took_all_converges();
        configs_are_stored(configs);
        World::after(alloc, configs, now, schedule)
    }

    // The peers, opened, after the turns.
    fn after(
        alloc: Global,
        configs: &[Config],
        now: i64,
        schedule: &[Turn],
    ) -> Result<World, AllocError>
        requires configs { All (λ config. IsConfig (config_value config)) configs.now }
        requires moment { IsMoment now }
        ensures stands { IfOk result (λ world. (w : WorldValue)
            × IsWorldOf (map config_value configs.now) now (map turn_value schedule.now) w × StandsForWorld world w) }
        ensures peers { IfOk result (λ world. peers_in world ≡ length configs.now) }
    {
        let mut sends = Sends::new(alloc)?;
        let mut world = World {
            peers: opened(alloc, configs, now)?,
            sent: Vec::new(alloc),
        };
        for turn in schedule {
            world.take(turn, &mut sends)?;
        }
        Ok(world)
    }

    /// How many peers there are.
    pub fn peer_count(&self) -> usize
        ensures { result ≡ peers_in self.now }
    {
        self.peers.len()
    }

    /// The peer of that number, from 0.
    pub fn peer(&self, k: usize) -> &Node
        requires { k < peers_in self.now }
        ensures { (w : WorldValue) → StandsForWorld self.now w
            → (m : Machine) × (slice_get w.machines k ≡ Some m) × StandsFor result.now m }
    {
        &self.peers[k].node
    }

    /// Every datagram ever sent, in order.
    pub fn sent(&self) -> &[Sending]
        ensures { (w : WorldValue) → StandsForWorld self.now w → map sending_value result.now ≡ w.sent }
    {
        &self.sent
    }

    // One turn.
    fn take(&mut self, turn: &Turn, sends: &mut Sends) -> Result<(), AllocError>
        ensures happens { OnOk result ((w : WorldValue) → StandsForWorld self.old w
            → (after : WorldValue) × Happens (turn_value turn.now) w after × StandsForWorld self.new after) }
        ensures peers { OnOk result (peers_in self.new ≡ peers_in self.old) }
    {
        match turn {
            Turn::Local {
                event: Event::Rx { .. },
                ..
            } => Ok(()),
            Turn::Local { peer, event } => self.offer(*peer as usize, event, sends),
            Turn::Deliver {
                index,
                peer,
                gate,
                from,
                now,
            } => {
                let Some(sending) = self.sent.get(*index as usize) else {
                    return Ok(());
                };
                let event = Event::Rx {
                    gate: *gate,
                    from: *from,
                    bytes: copied(&sending.bytes),
                    now: *now,
                };
                self.offer(*peer as usize, &event, sends)
            }
        }
    }

    // The peer of that number takes the event, where it is there and can.
    fn offer(&mut self, k: usize, event: &Event, sends: &mut Sends) -> Result<(), AllocError>
        requires { IsStoredEvent (event_value event.now) }
        ensures offered { OnOk result ((w : WorldValue) → StandsForWorld self.old w
            → (after : WorldValue) × IsOffered k (event_value event.now) w after × StandsForWorld self.new after) }
        ensures peers { OnOk result (peers_in self.new ≡ peers_in self.old) }
    {
        if k < self.peers.len() && self.peers[k].can_take(event) {
            sends.clear();
            self.peers[k].take(event, sends);
            return keep(&mut self.sent, sends);
        }
        Ok(())
    }
}

// The peers at their opening.
fn opened(alloc: Global, configs: &[Config], now: i64) -> Result<Vec<Peer>, AllocError>
    requires configs { All (λ config. IsConfig (config_value config)) configs.now }
    requires moment { IsMoment now }
    ensures { IfOk result (λ peers. AreStanding peers.items (opened_world (map config_value configs.now) now).machines) }
{
    let mut peers = Vec::new(alloc);
    for config in configs {
        peers.push(Peer::new(alloc, config, now)?)?;
    }
    Ok(peers)
}

// Appends copies of what was sent.
fn keep(sent: &mut Vec<Sending>, sends: &Sends) -> Result<(), AllocError>
    ensures { OnOk result (map sending_value sent.new.items ≡ map sending_value sent.old.items ++ sends.now) }
{
    for sending in sends.list() {
        sent.push(Sending {
            gate: sending.gate,
            to: sending.to,
            bytes: copied(&sending.bytes),
        })?;
    }
    Ok(())
}

// The same bytes.
fn copied(bytes: &[u8]) -> Wire
    requires { length bytes.now ≤ 513 }
    ensures items { result.items ≡ bytes.now }
    ensures bytes { AreBytes result.items }
    ensures len { length result.items ≤ 513 }
{
    let mut copy = Wire::new();
    append(&mut copy, bytes);
    copy
}
