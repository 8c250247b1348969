//! The events of a generated run.

ghost use Rattle.std.specs.Prelude.{◌≡◌, ◌<◌, ◌+◌, ◌%◌, ◌^◌, ◌+ℤ◌, ◌≤ℤ◌, pos, None, ℕ};
ghost use Rattle.asdp_messages.specs.Spelling.{sent, spelled_of};
ghost use Rattle.asdp_messages.specs.Spelling as written;
ghost use Rattle.lk_base.specs.Ranges.{IsMoment};
ghost use Rattle.client_state.specs.Commit.{IsTidyCommit};
ghost use Rattle.client_state.specs.State.{IsTidyState};
ghost use Rattle.link_payload.specs.Entries.{AreBytes};
ghost use Rattle.link_node.specs.Event.{Fits, event_value};
ghost use Rattle.link_text.specs.Load.{from_peer, load_commit_of, load_event_by, local_port, peer_fields_of, peer_id_of, peer_session_of};

use arrayvec::ArrayVec;
use asdp_messages::{write_alive, write_bye, write_ping_message};
use client_state::{Commit, State};
use link_node::{Config, Event, GateSetup};
use link_payload::{PeerFields, PingFields};
use lk_base::{Endpoint, Gate, NodeId, SessionStart, Timeline, Wire};
use rand_core::utils::NextWord;
use rand_pcg::Lcg64Xsh32;
use std::marker::Model;

/// The moment at which the node is opened, in microseconds.
const OPENING: i64 = 1_000_000;

/// The id of the node, and so of its first session.
const NODE: NodeId = NodeId(*b"LOADNODE");

/// The events of a load, one after the other: datagrams of up to 16 peers, ticks, and commits of an application. They are the same for the
/// same seed, but for the commits, which follow the states that the node shows. The generator is PCG's `Lcg64Xsh32` on stream 2.
///
/// It stands for the seed and how many events were made.
#[derive(Drop)]
pub struct LoadEvents {
    seed: u64,
    generator: Lcg64Xsh32,
    // How many events were made.
    made: u64,
    // The moment of the last one.
    moment: i64,
}

impl Model for LoadEvents {
    ghost use Rattle.std.specs.Prelude.{◌≡◌, ◌≤◌, ◌*◌, pos};
    ghost use Rattle.lk_base.specs.Ids.{source_after};
    ghost use Rattle.link_text.specs.Load.{load_moment_after, load_source_of};
    ghost use Rattle.link_text.specs.LoadRun.{LoadRun};

    ghost Value = { LoadRun };

    ghost view = { λ s. record { seed = s.seed; made = s.made } };

    ghost invariant = { λ s. (s.generator ≡ source_after (3 * s.made) (load_source_of s.seed))
        × (s.moment ≡ pos (load_moment_after s.seed s.made)) × (s.made ≤ 524_288) };
}

impl LoadEvents {
    ghost use Rattle.std.specs.Prelude.{◌≡◌, ◌<◌, ◌+◌, ◌^◌, ℕ};
    ghost use Rattle.link_node.specs.Config.{IsConfig, config_value};
    ghost use Rattle.link_text.specs.Load.{load_config_of, load_event_of};

    /// The load of a seed, of which no event was made yet.
    pub fn new(seed: u64) -> LoadEvents
        ensures { result ≡ record { seed = seed; made = 0 } }
    {
        LoadEvents {
            seed,
            generator: Lcg64Xsh32::new(seed, 2),
            made: 0,
            moment: OPENING,
        }
    }

    /// The config of the node that takes the events. It is opened at the moment 1,000,000.
    pub fn config(&self) -> Config
        ensures value { config_value result ≡ load_config_of self.now.seed }
        ensures config { IsConfig (config_value result) }
    {
        let mut peers = ArrayVec::new();
        peers.push(local(20_809));
        let mut gates = ArrayVec::new();
        gates.push(GateSetup {
            local: local(20_808),
            peers,
        });
        Config {
            id: NODE,
            seed: self.seed,
            mpb: 500_000,
            sync: true,
            group: 0,
            quantum: 4_000_000,
            gates,
        }
    }

    /// The next event, for the state that the node shows. Memory: none.
    pub fn next(&mut self, state: &State) -> Event
        requires few { self.old.made < 524_288 }
        requires tidy { IsTidyState state.now }
        ensures event { event_value result ≡ load_event_of self.old.seed self.old.made state.now }
        ensures made { self.new ≡ record self.old { made = self.old.made + 1 } }
        // A node with one gate can take it, whatever audio commits it took.
        ensures fits { (app audio : ℕ) → app < 2 ^ 60 → Fits 1 app audio (event_value result) }
    {
        let before = self.made;
        let kind = self.generator.next_word();
        let step = self.generator.next_word();
        let word = self.generator.next_word();
        self.moment = later(self.moment, step);
        self.made += 1;
        event_by(kind % 8, word, before, state, self.moment)
    }
}

// The moment after another, by a word.
fn later(moment: i64, word: u32) -> i64
    requires { (pos 0 ≤ℤ moment) × (moment ≤ℤ pos (2 ^ 54)) }
    ensures { result ≡ moment +ℤ pos (1 + word % 20_000) }
{
    moment + 1 + i64::from(word % 20_000)
}

// The event of a kind below 8, before which there were so many, by the word for a peer or a tempo.
fn event_by(kind: u32, word: u32, before: u64, state: &State, now: i64) -> Event
    requires few { before < 524_288 }
    requires tidy { IsTidyState state.now }
    requires moment { IsMoment now }
    ensures event { event_value result ≡ load_event_by kind (word % 16) word before state.now now }
    ensures fits { (app audio : ℕ) → app < 2 ^ 60 → Fits 1 app audio (event_value result) }
{
    let peer = (word % 16) as u16;
    if kind < 4 {
        return arrival(peer, alive(peer, before), now);
    }
    if kind == 4 {
        return arrival(peer, ping(now), now);
    }
    if kind < 7 {
        return Event::Tick { now };
    }
    if peer % 2 == 0 {
        return arrival(peer, bye(peer), now);
    }
    Event::App {
        commit: tempo_commit(word, state, now),
        now,
    }
}

// A datagram of a peer on the only gate.
fn arrival(peer: u16, bytes: Wire, now: i64) -> Event
    requires peer { peer < 16 }
    requires moment { IsMoment now }
    ensures event { event_value result ≡ from_peer peer bytes.items now }
    ensures fits { (app audio : ℕ) → Fits 1 app audio (event_value result) }
{
    // A law, for the proof: what the type says of the bytes.
    are_bytes(&bytes);
    Event::Rx {
        gate: Gate(0),
        from: local(30_000 + peer),
        bytes,
        now,
    }
}

// Each is below 256, by its type.
fn are_bytes(bytes: &[u8])
    ensures { AreBytes bytes.now }
{}

// An alive of a peer, before which there were so many events.
fn alive(peer: u16, before: u64) -> Wire
    requires peer { peer < 16 }
    requires few { before < 524_288 }
    ensures { result.items ≡ spelled_of (written.Alive (sent (peer_id_of peer) 0 (peer_fields_of before peer))) }
{
    write_alive(peer_id(peer), 0, &peer_fields(peer, before))
}

// What a peer tells in the event before which there were so many.
fn peer_fields(peer: u16, before: u64) -> PeerFields
    requires peer { peer < 16 }
    requires few { before < 524_288 }
    ensures { result ≡ peer_fields_of before peer }
{
    PeerFields {
        timeline: Timeline {
            mpb: 400_000 + 1_000 * i64::from(peer),
            beat: 1_000 * (before as i64 + 1),
            time: 0,
        },
        session: peer_session(peer),
        start: SessionStart {
            playing: false,
            beats: 0,
            stamp: 0,
        },
        endpoint: Some(local(30_000 + peer)),
    }
}

// A ping with the moment.
fn ping(now: i64) -> Wire
    ensures { result.items ≡ spelled_of (written.Ping (record { host = now; previous = None })) }
{
    write_ping_message(&PingFields {
        host: now,
        previous: None,
    })
}

// A bye of a peer.
fn bye(peer: u16) -> Wire
    ensures { result.items ≡ spelled_of (written.Bye (peer_id_of peer) 0 0) }
{
    write_bye(peer_id(peer), 0)
}

// A commit that sets the tempo of the state.
fn tempo_commit(word: u32, state: &State, now: i64) -> Commit
    requires tidy { IsTidyState state.now }
    requires moment { IsMoment now }
    ensures value { result ≡ load_commit_of word state.now now }
    ensures tidy { IsTidyCommit result }
{
    let mut edited = *state;
    edited.set_tempo(300_000 + 100 * i64::from(word % 1_000), now);
    Commit::between(state, state, &edited, now)
}

// 127.0.0.1 and a port.
fn local(port: u16) -> Endpoint
    ensures { result ≡ local_port port }
{
    Endpoint {
        addr: 0x7F00_0001,
        port,
    }
}

// The session that a peer tells: the first eight tell the node's own.
fn peer_session(peer: u16) -> NodeId
    ensures { result ≡ peer_session_of peer }
{
    if peer < 8 { NODE } else { peer_id(peer) }
}

// `PEER` and the peer's number in four digits.
fn peer_id(peer: u16) -> NodeId
    ensures { result ≡ peer_id_of peer }
{
    NodeId([
        b'P',
        b'E',
        b'E',
        b'R',
        digit(peer / 1_000),
        digit(peer / 100),
        digit(peer / 10),
        digit(peer),
    ])
}

// The last digit of a number.
fn digit(number: u16) -> u8
    ensures { result ≡ 48 + number % 10 }
{
    b'0' + (number % 10) as u8
}
