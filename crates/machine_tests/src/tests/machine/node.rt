//! Scripts worked out by hand from the rules: what a node shows and when it has work next, event by event.

ghost use Rattle.std.specs.Prelude.{◌≡◌, ◌≤◌, length};
ghost use Rattle.link_node.specs.Config.{config_value, IsConfig};

mod stage;

use super::{FIRST, OTHER, OWN, PEER, endpoint};
use arrayvec::ArrayVec;
use link_node::{Config, GateSetup};
use lk_base::{LIMIT, NodeId, Timeline};
use stage::{Step, play};

// One of 100 beats a minute, with a greater beat origin.
const SLOWER: Timeline = Timeline {
    mpb: 600_000,
    beat: 1_000_000,
    time: 0,
};

// The gate of number k has the port 1000 * (k + 1), and its destinations the ports after it.
fn port_of(gate: u16) -> u16 {
    gate.wrapping_add(1).wrapping_mul(1000)
}

fn gate_of(gate: u16, destinations: u16) -> GateSetup {
    let mut peers = ArrayVec::new();
    for k in 0..destinations {
        let _room = peers.try_push(endpoint(port_of(gate).wrapping_add(k).wrapping_add(1)));
    }
    GateSetup {
        local: endpoint(port_of(gate)),
        peers,
    }
}

fn config(gates: u16, destinations: u16) -> Config
    requires { (1 ≤ gates) × (gates ≤ 4) }
    ensures config { IsConfig (config_value result) }
    ensures gates { length result.gates.items ≡ gates }
{
    let mut setups = ArrayVec::new();
    for k in 0..gates {
        setups.push(gate_of(k, destinations));
    }
    Config {
        id: OWN,
        seed: 1,
        mpb: 500_000,
        sync: true,
        group: 0,
        quantum: 4_000_000,
        gates: setups,
    }
}

// rule: opened, state_in
#[test]
fn a_node_opens_alone_with_beat_0(rt: HostRuntime) {
    play(
        &rt,
        rt.alloc(),
        &[
            Step::Open(2, 2),
            Step::Shows(OWN, 500_000, 0, 1_000_000, 0, 0, 1_000_000),
            Step::HasId(OWN),
            Step::IsIn(OWN),
            Step::HasTimeline(500_000, 0, 0),
            Step::IsAt(1_000_000),
        ],
    );
}

// rule: at_moment
#[test]
fn moments_never_fall(rt: HostRuntime) {
    play(
        &rt,
        rt.alloc(),
        &[
            Step::Open(1, 1),
            Step::Tick(7),
            Step::IsAt(1_000_007),
            Step::Tick(3),
            Step::IsAt(1_000_007),
            Step::Tick(0),
            Step::IsAt(1_000_007),
            Step::Tick(8),
            Step::IsAt(1_000_008),
        ],
    );
}

// rule: at_moment, followed, begun, noted, is_due_after, due_of
#[test]
fn what_comes_next_is_due(rt: HostRuntime) {
    play(
        &rt,
        rt.alloc(),
        &[
            // Broadcasts are due.
            Step::Open(1, 1),
            // There was none yet.
            Step::IsDue(0),
            Step::Tick(10),
            Step::IsDue(250_010),
            Step::HearPeer(0, PEER, OWN, SLOWER, 20),
            Step::IsDue(50_010),
            Step::Tick(50_010),
            Step::IsDue(300_010),
            // The limits of rows are due.
            Step::Open(1, 1),
            Step::HearPeer(0, PEER, OWN, FIRST, 5),
            Step::Tick(5_900_000),
            Step::IsDue(6_000_005),
            // Seen again it stays longer.
            Step::HearPeer(0, PEER, OWN, FIRST, 5_900_001),
            Step::IsDue(6_150_000),
            // Waiting sessions and deadlines are due.
            Step::Open(1, 1),
            Step::Tick(0),
            Step::HearPeer(0, OTHER, OTHER, FIRST, 30),
            Step::IsDue(30),
            Step::Tick(40),
            Step::IsDue(50_040),
            // While one is measured, another one waits without being due.
            Step::HearPeer(0, PEER, PEER, FIRST, 50),
            Step::IsDue(50_040),
            // After a silence the next ping is waited for.
            Step::Tick(50_040),
            Step::IsDue(100_040),
        ],
    );
}

// A timeline of the last beat origin.
const SPENT: Timeline = Timeline {
    mpb: 500_000,
    beat: LIMIT,
    time: 0,
};

// rule: timeline_committed, committed_by, IsFollowing
#[test]
fn a_commit_s_timeline_is_made_as_of_the_commit_s_own_time(rt: HostRuntime) {
    play(
        &rt,
        rt.alloc(),
        &[
            // A new tempo begins at the session's beat.
            Step::Open(1, 0),
            // At ghost time 600,000 the session's beat is 1.2. The client's beat 0 is there, so the session's beat 1.2 comes
            // 720,000 microseconds later.
            Step::Commit(600_000, 0, 1_600_000, 600_000, 600_000),
            Step::HasTimeline(600_000, 1_200_000, 1_320_000),
            Step::Shows(OWN, 600_000, 0, 1_600_000, 0, 1, 1_600_000),
            // Of two commits at one moment the second begins a microbeat after the first.
            Step::Open(1, 0),
            // At ghost time 1,000,000 the session's beat is 2, and so is the client's, whose beat 0 is at ghost time 500,000.
            Step::Commit(250_000, 0, 1_500_000, 1_000_000, 1_000_000),
            Step::HasTimeline(250_000, 2_000_000, 1_000_000),
            Step::Shows(OWN, 250_000, 0, 1_500_000, 0, 1, 2_000_000),
            // The client's beat 0 is at ghost time 0 again, and its beat 2 and a microbeat at 1,000,000 and a half, which is rounded up.
            Step::Commit(500_000, 0, 1_000_000, 1_000_000, 1_000_000),
            Step::HasTimeline(500_000, 2_000_001, 1_000_001),
            Step::Shows(OWN, 500_000, 0, 1_000_000, 0, 2, 2_000_000),
            // Other beats alone leave the session as it is.
            Step::Open(1, 0),
            // The client's beat 3 is at the session's beat 0.
            Step::Commit(500_000, 3_000_000, 1_000_000, 600_000, 600_000),
            Step::HasTimeline(500_000, 0, 0),
            Step::Shows(OWN, 500_000, 3_000_000, 1_000_000, 0, 1, 1_600_000),
            // A commit may come later than it was made.
            Step::Open(1, 0),
            // It was made at ghost time 600,000, beat 1.2, and comes at 900,000.
            Step::Commit(600_000, 0, 1_600_000, 600_000, 900_000),
            Step::HasTimeline(600_000, 1_200_000, 1_320_000),
            Step::Shows(OWN, 600_000, 0, 1_600_000, 0, 1, 1_900_000),
            // Nothing is taken where the beat origin is spent.
            Step::Open(1, 0),
            Step::HearPeer(0, OTHER, OWN, SPENT, 10),
            Step::HasTimeline(500_000, LIMIT, 0),
            // The session's beat 0 is 2^59 microseconds before its ghost time 0, and the client's beat then is clipped.
            Step::Shows(OWN, 500_000, -LIMIT, 1_000_000 - LIMIT / 2, 1, 0, 1_000_010),
            Step::Commit(600_000, 0, 1_600_000, 600_000, 600_000),
            Step::HasTimeline(500_000, LIMIT, 0),
            Step::Shows(OWN, 500_000, -LIMIT, 1_000_000 - LIMIT / 2, 1, 1, 1_600_000),
        ],
    );
}

// What the generator draws first from the seed 1.
const DRAWN: NodeId = NodeId(*b">pz1+Yoc");

// rule: EndsRow, IsFollowing, is_left, id_drawn, founding_timeline_in, state_in
#[test]
fn who_is_left_founds_a_session(rt: HostRuntime) {
    play(
        &rt,
        rt.alloc(),
        &[
            // A peer on two gates is lost with its later row, and ghost time begins anew then.
            Step::Open(2, 0),
            Step::HearPeer(0, PEER, OWN, FIRST, 1_000_000),
            Step::HearPeer(1, PEER, OWN, FIRST, 2_000_000),
            Step::HearBye(0, PEER, 3_000_000),
            Step::Tick(7_999_999),
            Step::HasId(OWN),
            Step::Tick(8_000_000),
            Step::HasId(DRAWN),
            Step::IsIn(DRAWN),
            // The ghost time was 8,000,000, which is 16 beats after the origin.
            Step::HasTimeline(500_000, 16_000_000, 0),
            // Its beat 0 is at host time 1,000,000 as before, so ghost time is the host time less 9,000,000.
            Step::Shows(DRAWN, 500_000, 0, 1_000_000, 0, 0, 9_000_000),
        ],
    );
}

// rule: alives_in
#[test]
fn a_tick_sends_at_most_a_ping_and_alives_to_all(rt: HostRuntime) {
    play(
        &rt,
        rt.alloc(),
        &[
            Step::Open(4, 32),
            Step::HearPeer(3, OTHER, OTHER, FIRST, 7),
            Step::Sent(1, 159),
            Step::Tick(8),
            Step::Sent(129, 31),
        ],
    );
}
