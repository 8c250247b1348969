//! Worlds by chance: what holds of worlds is looked for in the values too.

ghost use Rattle.std.specs.Prelude.{◌<◌, ◌≤◌};
ghost use Rattle.link_world.specs.Standing.{peers_in};

use super::{endpoint_of, group_of, held, world_of};
use crate::tests::machine::{OPENING, expect};
use asdp_messages::{Message, read_datagram};
use client_state::Commit;
use link_node::{Event, Sending};
use link_world::{Turn, World};
use lk_base::{ClientStart, Gate, NodeId, Timeline};
use rand_core::utils::NextWord;
use rand_pcg::Lcg64Xsh32;
use std::alloc::{AllocError, Global};
use std::process::Abort;
use timeline_math::tidy;

const WORLDS: u32 = 300;

// And so many in which the peers are of two groups.
const WORLDS_APART: u32 = 100;

// Of the rounds the last ones are calm: each datagram comes once, and nobody commits.
const ROUNDS: u32 = 300;

const CALM: u32 = 220;

// A session with its timeline.
type Held = (NodeId, Timeline);

// A session with a timeline that somebody in a group made for it.
type Made = (u16, NodeId, Timeline);

fn has_session(made: &[Made], session: &NodeId) -> bool {
    for one in made {
        if one.1 == *session {
            return true;
        }
    }
    false
}

// A script in the making.
#[derive(Drop)]
struct Course {
    random: Lcg64Xsh32,
    peers: u32,
    // Whether the peers are of two groups.
    apart: bool,
    turns: Vec<Turn>,
    made: Vec<Made>,
    // Microseconds since the opening, and how many more each peer's clock is ahead of the one before.
    time: i64,
    ahead: i64,
    // How many of the datagrams came or were lost, and the peer that has just committed, if any.
    seen: usize,
    committed: Option<usize>,
}

impl Course {
    ghost use Rattle.std.specs.Prelude.{◌<◌};

    fn new(alloc: Global, seed: u64, apart: bool) -> Course {
        let mut random = Lcg64Xsh32::new(seed, 1);
        let peers = 2 + random.next_word() % 3;
        let ahead = i64::from(random.next_word() % 400_000);
        Course {
            random,
            peers,
            apart,
            turns: Vec::new(alloc),
            made: Vec::new(alloc),
            time: 0,
            ahead,
            seen: 0,
            committed: None,
        }
    }

    fn below(&mut self, n: u32) -> u32
        requires { 0 < n }
        ensures { result < n }
    {
        self.random.next_word() % n
    }

    // The moment at a peer.
    fn moment(&self, peer: u32) -> i64 {
        OPENING
            .wrapping_add(self.time)
            .wrapping_add(self.ahead.wrapping_mul(i64::from(peer)))
    }

    // Mostly a few milliseconds, at times longer, and rarely so long that peers are forgotten.
    fn pass(&mut self, calm: bool) {
        let step = match self.below(500) {
            0 if !calm => 6_000_000,
            1..=5 if !calm => 300_000,
            6..=20 if !calm => 60_000,
            _ => i64::from(self.below(8_000)),
        };
        self.time = self.time.wrapping_add(step);
    }

    fn commit(&mut self, peer: u32) -> Commit {
        let at = self.moment(peer);
        Commit {
            timeline: Some(Timeline {
                mpb: 300_000 + i64::from(self.below(1_000_000)),
                beat: 0,
                time: at.wrapping_sub(i64::from(self.below(1_000_000))),
            }),
            start: None::<ClientStart>,
            quantum: self.quantum(),
            at,
        }
    }

    // Now and then a quantum.
    fn quantum(&mut self) -> Option<i64> {
        if self.below(4) == 0 {
            Some(i64::from(self.below(8_000_000)))
        } else {
            None
        }
    }

    // Something that isn't a datagram: in calm a tick.
    fn event(&mut self, peer: u32, calm: bool) -> Event {
        let now = self.moment(peer);
        let kind = self.below(100);
        if calm || kind > 7 {
            return Event::Tick { now };
        }
        self.committed = Some(peer as usize);
        let commit = self.commit(peer);
        match kind {
            0 => Event::End { now },
            1 | 2 => Event::Audio {
                number: self.turns.len() as u64 + 1,
                commit,
                now,
            },
            _ => Event::App { commit, now },
        }
    }

    // The datagram of a number comes to its addressee.
    fn deliver(&mut self, index: usize, sending: &Sending) -> Result<(), AllocError> {
        let peer = u32::from(sending.to.port.wrapping_sub(20_000));
        let turn = Turn::Deliver {
            index: index.min(1_000_000) as u32,
            peer,
            gate: Gate((peer % 4) as u8),
            from: endpoint_of(u32::from(sending.gate.0)),
            now: self.moment(peer),
        };
        self.turns.push(turn)?;
        Ok(())
    }

    // Each new datagram comes, or is lost, or comes twice; and at times an old one comes once more, out of turn.
    fn deliver_all(&mut self, world: &World, calm: bool) -> Result<(), AllocError> {
        for (index, sending) in world.sent().iter().enumerate() {
            let copies = if index < self.seen {
                u32::from(!calm && self.below(2_000) == 0)
            } else {
                self.copies(calm)
            };
            for _ in 0..copies {
                self.deliver(index, sending)?;
            }
        }
        self.seen = world.sent().len();
        Ok(())
    }

    fn copies(&mut self, calm: bool) -> u32 {
        match self.below(100) {
            0..=1 if !calm => 0,
            2..=4 if !calm => 2,
            _ => 1,
        }
    }

    // What was made since the last round: by a founding, which gives a session of a new id, or by a commit.
    fn note(&mut self, world: &World) -> Result<(), AllocError> {
        for peer in 0..world.peer_count() {
            let one = held_in(world, peer, self.apart);
            if self.committed == Some(peer) || !has_session(&self.made, &one.1) {
                self.made.push(one)?;
            }
        }
        Ok(())
    }

    // One round: all datagrams, unless there was a commit, and then an event of a peer.
    fn go_on(&mut self, world: &World, calm: bool) -> Result<(), AllocError> {
        self.note(world)?;
        self.committed = None;
        self.pass(calm);
        let peer = self.below(self.peers.max(1));
        let event = self.event(peer, calm);
        if self.committed.is_none() {
            self.deliver_all(world, calm)?;
        }
        self.turns.push(Turn::Local { peer, event })?;
        Ok(())
    }

    fn round(&mut self, alloc: Global, calm: bool) -> Result<(), AllocError> {
        let world = world_of(alloc, self.peers, self.apart, &self.turns)?;
        self.go_on(&world, calm)
    }

    fn go_to_the_end(&mut self, alloc: Global) -> Result<(), AllocError> {
        for round in 0..ROUNDS {
            self.round(alloc, round + CALM >= ROUNDS)?;
        }
        Ok(())
    }

    // The world after it.
    fn end(&mut self, alloc: Global) -> Result<World, AllocError> {
        self.go_to_the_end(alloc)?;
        let world = world_of(alloc, self.peers, self.apart, &self.turns)?;
        self.note(&world)?;
        Ok(world)
    }
}

// ---- what is looked for

// What a peer holds, with its group.
fn held_in(world: &World, peer: usize, apart: bool) -> Made
    requires { peer < peers_in world.now }
{
    let (session, timeline) = held(world, peer);
    (group_of((peer % 4) as u32, apart), session, timeline)
}

fn is_made(made: &[Made], one: &Made) -> bool {
    for other in made {
        if *other == *one {
            return true;
        }
    }
    false
}

// What the datagram tells, if it tells a state, and in which group.
fn told(bytes: &[u8]) -> Option<Made> {
    if bytes.len() > 513 {
        return None;
    }
    match read_datagram(bytes) {
        Ok(Message::Alive(msg) | Message::Response(msg)) => {
            Some((msg.group, msg.fields.session, tidy(&msg.fields.timeline)))
        }
        _ => None,
    }
}

// All that is told and all that is held was made, in that group.
fn have_origins(made: &[Made], world: &World, apart: bool) -> bool {
    let mut all = true;
    for sending in world.sent() {
        if let Some(one) = told(&sending.bytes) {
            all = all && is_made(made, &one);
        }
    }
    for peer in 0..world.peer_count() {
        all = all && is_made(made, &held_in(world, peer, apart));
    }
    all
}

// Whether different timelines of the session have different beat origins.
fn have_own_origins(made: &[Made], session: &NodeId) -> bool {
    let mut own = true;
    for (k, one) in made.iter().enumerate() {
        for other in made.iter().skip(k) {
            own = own
                && (one.1 != *session
                    || other.1 != *session
                    || one.2 == other.2
                    || one.2.beat != other.2.beat);
        }
    }
    own
}

// Nothing that was made for the session has a greater origin.
fn is_greatest(made: &[Made], held: &Held) -> bool {
    for one in made {
        if one.1 == held.0 && one.2.beat > held.1.beat {
            return false;
        }
    }
    true
}

// Who is in a session with another holds what that one holds, where origins are own.
fn agree(made: &[Made], world: &World) -> bool {
    let mut all = true;
    for k in 0..world.peer_count() {
        let one = held(world, k);
        let own = have_own_origins(made, &one.0);
        for other in 0..world.peer_count() {
            let other = held(world, other);
            all = all && (!own || one.0 != other.0 || one.1 == other.1);
        }
    }
    all
}

// The first peer of the group of a peer.
fn first_like(peer: usize, apart: bool) -> usize
    ensures { result ≤ peer }
{
    if apart && peer % 2 == 1 { 1 } else { 0 }
}

// All of a group are in one session, and hold the greatest timeline that was made for it.
fn have_converged(made: &[Made], world: &World, apart: bool) -> bool {
    let mut all = true;
    for k in 0..world.peer_count() {
        let one = held(world, k);
        let first = held(world, first_like(k, apart));
        all = all && one.0 == first.0 && is_greatest(made, &one);
    }
    all
}

// Whether it is an alive or a bye, which go to all; the others go to those who are heard.
fn is_for_all(bytes: &[u8]) -> bool {
    if bytes.len() > 513 {
        return false;
    }
    match read_datagram(bytes) {
        Ok(Message::Alive(_) | Message::Bye { .. }) => true,
        _ => false,
    }
}

// Nobody answers or measures a peer of another group.
fn stay_apart(world: &World, apart: bool) -> bool {
    let mut all = true;
    for sending in world.sent() {
        let from = group_of(u32::from(sending.gate.0), apart);
        let to = group_of(u32::from(sending.to.port.wrapping_sub(20_000)), apart);
        all = all && (from == to || is_for_all(&sending.bytes));
    }
    all
}

// In how many of so many worlds all of a group came into one session. Fails where one doesn't keep what is promised.
fn converged_among(rt: &impl Abort, alloc: Global, worlds: u32, apart: bool) -> u32 {
    let mut converged = 0;
    for seed in 0..worlds {
        let mut course = Course::new(alloc, u64::from(seed), apart);
        let world = course.end(alloc).expect(rt, "memory for a world");
        let row = seed as usize;
        let kept = have_origins(&course.made, &world, apart)
            && agree(&course.made, &world)
            && stay_apart(&world, apart);
        expect(rt, row, &kept, &true);
        let all = have_converged(&course.made, &world, apart);
        converged = u32::wrapping_add(converged, u32::from(all));
    }
    converged
}

// rule: HasOrigins, Agrees, Converges
#[test]
fn worlds_by_chance_keep_what_is_promised(rt: HostRuntime) {
    let converged = converged_among(&rt, rt.alloc(), WORLDS, false);
    assert!(rt; converged >= WORLDS / 3, "{converged}");
}

#[test]
fn groups_by_chance_have_nothing_in_common(rt: HostRuntime) {
    let converged = converged_among(&rt, rt.alloc(), WORLDS_APART, true);
    // In a third of them there are two peers, each alone in its group.
    assert!(rt; converged >= WORLDS_APART / 3 * 2, "{converged}");
}
