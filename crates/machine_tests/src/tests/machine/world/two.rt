//! Two peers who meet: what they hold after commits, worked out by hand, and turns that reach nobody.

ghost use Rattle.std.specs.Prelude.{◌<◌};
ghost use Rattle.link_world.specs.Standing.{peers_in};

use super::held;
use super::turns::{Part, Row, world_by};
use crate::tests::machine::{FIRST, OWN, PEER, expect, timeline};
use client_state::State;
use link_node::Sending;
use link_world::World;
use lk_base::{NodeId, Timeline};
use std::alloc::Global;
use std::process::Abort;

fn made(rt: &impl Abort, alloc: Global, parts: &[Part<'_>]) -> World {
    world_by(alloc, parts).expect(rt, "memory for a world")
}

// Fails where the peers after a script hold something else than these, or sent more or fewer datagrams.
fn expect_held(
    rt: &impl Abort,
    alloc: Global,
    parts: &[Part<'_>],
    sent: usize,
    wanted: &[(NodeId, Timeline)],
) {
    let world = made(rt, alloc, parts);
    expect(rt, 0, &world.peer_count(), &wanted.len());
    expect(rt, 0, &world.sent().len(), &sent);
    for peer in 0..world.peer_count() {
        expect(rt, peer, &Some(&held(&world, peer)), &wanted.get(peer));
    }
}

// rule: measured, brought_by
#[test]
fn two_peers_come_into_one_session(rt: HostRuntime) {
    let (first, second) = ((OWN, FIRST), (PEER, FIRST));
    expect_held(&rt, rt.alloc(), &[(0, 105, &[])], 105, &[first, first]);
    // Without the last pong the second is still alone.
    expect_held(&rt, rt.alloc(), &[(0, 104, &[])], 105, &[first, second]);
}

// Fails where the peers hold other timelines of the first session than these, after each has committed at a moment and then
// heard the other's alive.
fn expect_committed(
    rt: &impl Abort,
    alloc: Global,
    moments: (i64, i64),
    first: Timeline,
    second: Timeline,
) {
    let rows = [
        Row::App(0, 600_000, moments.0),
        Row::App(1, 400_000, moments.1),
        Row::Tick(0, 4_100_000),
        Row::Tick(1, 4_100_000),
        Row::Hear(105, 0, 1, 4_100_010),
        Row::Hear(106, 1, 0, 4_100_010),
    ];
    let wanted = [(OWN, first), (OWN, second)];
    expect_held(rt, alloc, &[(0, 105, &rows)], 109, &wanted);
}

// rule: Agrees
#[test]
fn equal_origins_are_held_by_order(rt: HostRuntime) {
    // Two seconds after the opening the session is at beat 4, and so both begin there.
    expect_committed(
        &rt,
        rt.alloc(),
        (3_000_000, 3_000_000),
        timeline(600_000, 4_000_000, 2_400_000),
        timeline(400_000, 4_000_000, 1_600_000),
    );
}

// rule: timeline_taken, Machine.timeline_in, Agrees, Converges
#[test]
fn the_greater_origin_is_held_by_both(rt: HostRuntime) {
    // The later commit begins at beat 6, whoever makes it.
    let later = timeline(400_000, 6_000_000, 2_400_000);
    expect_committed(&rt, rt.alloc(), (3_000_000, 4_000_000), later, later);
    let later = timeline(600_000, 6_000_000, 3_600_000);
    expect_committed(&rt, rt.alloc(), (4_000_000, 3_000_000), later, later);
}

// What a peer tells.
fn shown(world: &World, peer: usize) -> (State, i64, NodeId, (NodeId, Timeline))
    requires { peer < peers_in world.now }
{
    let node = world.peer(peer);
    (node.state(), node.moment(), node.id(), held(world, peer))
}

fn same_peers(one: &World, other: &World) -> bool {
    let mut same = one.peer_count() == other.peer_count();
    for k in 0..one.peer_count().min(other.peer_count()) {
        same = same && shown(one, k) == shown(other, k);
    }
    same
}

fn same_sending(one: &Sending, other: &Sending) -> bool {
    one.gate == other.gate && one.to == other.to && one.bytes.as_slice() == other.bytes.as_slice()
}

fn same_sent(one: &World, other: &World) -> bool {
    let mut same = one.sent().len() == other.sent().len();
    for (a, b) in one.sent().iter().zip(other.sent()) {
        same = same && same_sending(a, b);
    }
    same
}

// Fails where the turn of a row, before a turn of the meeting and behind it all, changes the world, or where it is to and doesn't.
fn expect_changes(rt: &impl Abort, alloc: Global, place: u32, rows: &[Row], changes: bool) {
    let world = made(rt, alloc, &[(0, 105, &[])]);
    for (k, row) in rows.iter().enumerate() {
        let alone = std::slice::from_ref(row);
        let other = made(rt, alloc, &[(0, place, alone), (place, 105, alone)]);
        let same = same_peers(&world, &other) && same_sent(&world, &other);
        expect(rt, k, &same, &!changes);
    }
}

// Turns whose peer, datagram or gate isn't there, whose event is a datagram, or that a node can't take.
const IDLE: &[Row] = &[
    Row::At(105, 1, 0, 1_000_050),
    Row::At(4_294_967_295, 1, 0, 1_000_050),
    Row::At(0, 2, 0, 1_000_050),
    Row::At(0, 4_294_967_295, 0, 1_000_050),
    Row::At(0, 1, 2, 1_000_050),
    Row::At(0, 1, 255, 1_000_050),
    Row::At(0, 1, 1, -1),
    Row::At(0, 1, 1, 36_028_797_018_963_969),
    Row::Datagram(1, 1_000_050),
    Row::Datagram(0, 1_000_050),
    Row::Tick(2, 1_000_050),
    Row::Tick(0, -1),
    Row::App(1, 60_059, 1_000_050),
    Row::Audio(1, 0, 1_000_050),
    Row::Audio(1, 1_152_921_504_606_846_976, 1_000_050),
    Row::End(5, 1_000_050),
];

#[test]
fn what_reaches_nobody_changes_nothing(rt: HostRuntime) {
    expect_changes(&rt, rt.alloc(), 0, IDLE, false);
    expect_changes(&rt, rt.alloc(), 3, IDLE, false);
    expect_changes(&rt, rt.alloc(), 50, IDLE, false);
}

// rule: brought_by
#[test]
fn what_reaches_somebody_is_told(rt: HostRuntime) {
    // The same turns with all in place do change the world.
    let rows: &[Row] = &[
        Row::Hear(0, 0, 1, 1_000_050),
        Row::Hear(1, 1, 0, 1_000_050),
        Row::Tick(1, 1_400_000),
    ];
    expect_changes(&rt, rt.alloc(), 105, rows, true);
}
