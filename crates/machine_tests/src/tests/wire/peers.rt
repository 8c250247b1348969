//! Tables of peers, step by step.

ghost use Rattle.std.specs.Prelude.{◌≡◌, ◌≤◌, ◌<◌};

use crate::tests::expect;
use lk_base::{Endpoint, Gate, NodeId, Target};
use peer_gateway::{Expiry, Peers, Seen};
use std::alloc::{AllocError, Global};
use std::process::Abort;
use std::test::Fail;

// What is done with a table, and what it answers. A row without a port tells no endpoint.
#[derive(Clone, Copy)]
enum Step {
    // Gate, id, time to live, session, port, now.
    Saw(u8, u8, u8, u8, Option<u16>, u32, Seen),
    Bye(u8, u8, bool),
    Prune(u32, u32),
    Clear,
    // How many peers a session has.
    Count(u8, u32),
    // Gate, id and port of a session's target.
    Target(u8, Option<(u8, u8, u16)>),
    Least(Option<i64>),
    // The list of limits: how many; at a place the limit, the gate and the id.
    Rows(usize),
    Row(usize, i64, u8, u8),
}

use Step::{Bye, Clear, Count, Least, Prune, Row, Rows, Saw};

fn id(last: u8) -> NodeId {
    NodeId([65, 66, 67, 68, 69, 70, 71, last])
}

fn endpoint(port: u16) -> Endpoint {
    Endpoint {
        addr: 2_130_706_433,
        port,
    }
}

const STEPS: &[Step] = &[
    // an empty table
    Count(1, 0),
    Least(None),
    Step::Target(1, None),
    Prune(4_000_000_000, 0),
    Bye(0, 10, false),
    // one peer on two gates counts once, and is pinged on the lesser
    Saw(0, 10, 5, 1, Some(700), 0, Seen::New),
    Count(1, 1),
    Step::Target(1, Some((0, 10, 700))),
    Least(Some(6_000_000)),
    Saw(1, 10, 5, 1, Some(701), 0, Seen::New),
    Count(1, 1),
    Count(2, 0),
    Step::Target(1, Some((0, 10, 700))),
    // a lesser id is no target until it tells an endpoint
    Saw(2, 5, 0, 1, None, 500_000, Seen::New),
    Count(1, 2),
    Step::Target(1, Some((0, 10, 700))),
    Least(Some(1_500_000)),
    Saw(2, 5, 0, 1, Some(702), 600_000, Seen::Known),
    Count(1, 2),
    Step::Target(1, Some((2, 5, 702))),
    Least(Some(1_600_000)),
    // seen again in another session
    Saw(2, 5, 0, 2, Some(703), 700_000, Seen::Known),
    Count(1, 1),
    Count(2, 1),
    Step::Target(1, Some((0, 10, 700))),
    Step::Target(2, Some((2, 5, 703))),
    // a row lasts until its limit, and no longer
    Prune(1_699_999, 0),
    Count(2, 1),
    Prune(1_700_000, 1),
    Count(2, 0),
    Step::Target(2, None),
    Least(Some(6_000_000)),
    // a goodbye ends the row of its gate alone
    Bye(2, 5, false),
    Bye(3, 10, false),
    Bye(0, 11, false),
    Count(1, 1),
    Bye(0, 10, true),
    Count(1, 1),
    Step::Target(1, Some((1, 10, 701))),
    Bye(0, 10, false),
    Bye(1, 10, true),
    Count(1, 0),
    Least(None),
    // the founder comes first, on its least gate where it tells an endpoint
    Saw(0, 3, 1, 20, Some(800), 0, Seen::New),
    Step::Target(20, Some((0, 3, 800))),
    Saw(3, 20, 1, 20, Some(803), 0, Seen::New),
    Step::Target(20, Some((3, 20, 803))),
    Saw(2, 20, 1, 20, Some(802), 0, Seen::New),
    Step::Target(20, Some((2, 20, 802))),
    Saw(2, 20, 1, 20, None, 1, Seen::Known),
    Step::Target(20, Some((3, 20, 803))),
    Bye(3, 20, true),
    Step::Target(20, Some((0, 3, 800))),
    Count(20, 2),
    // a founder in another session is no founder of it
    Saw(1, 20, 1, 21, Some(801), 0, Seen::New),
    Step::Target(20, Some((0, 3, 800))),
    Step::Target(21, Some((1, 20, 801))),
    Count(21, 1),
    Clear,
    Count(20, 0),
    Count(21, 0),
    Least(None),
    Step::Target(20, None),
    // by id first, and then by gate
    Saw(3, 7, 9, 30, Some(900), 0, Seen::New),
    Saw(1, 7, 9, 30, Some(901), 0, Seen::New),
    Saw(0, 8, 9, 30, Some(902), 0, Seen::New),
    Step::Target(30, Some((1, 7, 901))),
    Bye(1, 7, true),
    Step::Target(30, Some((3, 7, 900))),
    Bye(3, 7, true),
    Step::Target(30, Some((0, 8, 902))),
    Bye(0, 8, true),
    Step::Target(30, None),
    // the longest and the shortest time to live
    Saw(0, 1, 255, 1, None, 0, Seen::New),
    Least(Some(256_000_000)),
    Prune(255_999_999, 0),
    Prune(256_000_000, 1),
    Saw(0, 1, 0, 1, None, 0, Seen::New),
    Prune(999_999, 0),
    Prune(1_000_000, 1),
    // a row that is seen again lasts on, and ends earlier where that tells so
    Saw(0, 1, 0, 1, None, 0, Seen::New),
    Saw(0, 1, 0, 1, None, 900_000, Seen::Known),
    Prune(1_000_000, 0),
    Least(Some(1_900_000)),
    Saw(0, 1, 5, 1, None, 1_000_000, Seen::Known),
    Least(Some(7_000_000)),
    Saw(0, 1, 0, 1, None, 1_000_000, Seen::Known),
    Least(Some(2_000_000)),
    Prune(2_000_000, 1),
    // several end at once
    Saw(0, 1, 0, 1, None, 0, Seen::New),
    Saw(1, 2, 0, 1, None, 0, Seen::New),
    Saw(2, 3, 1, 1, None, 0, Seen::New),
    Count(1, 3),
    Prune(1_000_000, 2),
    Count(1, 1),
    Least(Some(2_000_000)),
    // of one peer on two gates one row ends
    Saw(0, 9, 0, 4, None, 0, Seen::New),
    Saw(1, 9, 3, 4, None, 0, Seen::New),
    Prune(1_000_000, 1),
    Count(4, 1),
    Prune(2_000_000, 1),
    Prune(4_000_000, 1),
    Count(4, 0),
];

fn target_of((gate, last, port): (u8, u8, u16)) -> Target {
    Target {
        gate: Gate(gate),
        id: id(last),
        endpoint: endpoint(port),
    }
}

// Gates are counted from the first one, and those beyond the last are that one.
fn take(rt: &impl Abort, peers: &mut Peers, gates: u8, first: u8, k: usize, step: &Step)
    requires some { 0 < gates }
    requires gates { peers.old.gates ≡ gates }
    ensures { peers.new.gates ≡ gates }
{
    match *step {
        Saw(gate, last, ttl, session, port, now, seen) => {
            let gate = gate.wrapping_add(first).min(gates - 1);
            let told = port.map(endpoint);
            let found = peers.saw(Gate(gate), id(last), ttl, id(session), told, i64::from(now));
            expect(rt, &k, &found, &seen);
        }
        Bye(gate, last, had) => {
            let found = peers.bye(Gate(gate.wrapping_add(first)), id(last));
            expect(rt, &k, &found, &had);
        }
        Prune(now, ended) => expect(rt, &k, &peers.prune(i64::from(now)), &ended),
        Clear => peers.clear(),
        _ => check(rt, peers, k, step),
    }
}

// A step that changes nothing.
fn check(rt: &impl Abort, peers: &Peers, k: usize, step: &Step) {
    match *step {
        Count(session, count) => {
            let found = (peers.count(id(session)), peers.has(id(session)));
            expect(rt, &k, &found, &(count, count > 0));
        }
        Step::Target(session, want) => {
            expect(rt, &k, &peers.target(id(session)), &want.map(target_of));
        }
        Least(limit) => expect(rt, &k, &peers.least_limit(), &limit),
        Rows(count) => expect(rt, &k, &peers.by_limit().len(), &count),
        Row(at, limit, gate, last) => {
            let entry = Expiry {
                limit,
                gate: Gate(gate),
                id: id(last),
            };
            expect(rt, &k, &peers.by_limit().get(at).copied(), &Some(entry));
        }
        _ => expect(rt, &k, &"known", &"unknown"),
    }
}

fn take_all(rt: &impl Abort, peers: &mut Peers, gates: u8, first: u8, steps: &[Step])
    requires some { 0 < gates }
    requires gates { peers.old.gates ≡ gates }
    ensures { peers.new.gates ≡ gates }
{
    for (k, step) in steps.iter().enumerate() {
        take(rt, peers, gates, first, k, step);
    }
}

// Takes steps over an empty table of this many gates.
fn play(rt: &impl Abort, alloc: Global, gates: u8, steps: &[Step]) -> Result<(), AllocError>
    requires { (1 ≤ gates) × (gates ≤ 4) }
{
    let mut peers = Peers::new(alloc, gates)?;
    take_all(rt, &mut peers, gates, 0, steps);
    Ok(())
}

// rule: life_after, said_goodbye, was_pruned, rows_of, seen_of, row_seen, peers_in, target_of
#[test]
fn rows_are_seen_and_end_and_answer(rt: HostRuntime) -> Result<(), Fail> {
    play(&rt, rt.alloc(), 4, STEPS)?;
    Ok(())
}

const LIMITS: &[Step] = &[
    Saw(0, 72, 5, 72, None, 0, Seen::New),
    Saw(1, 73, 0, 72, None, 0, Seen::New),
    Rows(2),
    Row(0, 1_000_000, 1, 73),
    Row(1, 6_000_000, 0, 72),
    Saw(1, 73, 5, 72, None, 500_000, Seen::Known),
    Rows(2),
    Row(0, 6_000_000, 0, 72),
    Row(1, 6_500_000, 1, 73),
    Prune(6_000_000, 1),
    Rows(1),
    Row(0, 6_500_000, 1, 73),
    // those of one limit by gate, and then by id
    Saw(1, 71, 5, 72, None, 500_000, Seen::New),
    Saw(0, 74, 5, 72, None, 500_000, Seen::New),
    Saw(0, 70, 5, 72, None, 500_000, Seen::New),
    Rows(4),
    Row(0, 6_500_000, 0, 70),
    Row(1, 6_500_000, 0, 74),
    Row(2, 6_500_000, 1, 71),
    Row(3, 6_500_000, 1, 73),
    Bye(0, 74, true),
    Rows(3),
    Row(1, 6_500_000, 1, 71),
];

// rule: rows_of
#[test]
fn entries_stand_in_order_of_their_limits(rt: HostRuntime) -> Result<(), Fail> {
    play(&rt, rt.alloc(), 2, LIMITS)?;
    Ok(())
}

const FIRST: NodeId = NodeId(*b"ABCDEFGH");

const LATER: NodeId = NodeId(*b"QRSTUVWX");

fn entry(limit: i64, gate: u8, id: NodeId) -> Expiry {
    Expiry {
        limit,
        gate: Gate(gate),
        id,
    }
}

#[test]
fn a_row_that_is_seen_again_moves_to_its_new_limit(rt: HostRuntime) -> Result<(), Fail> {
    let mut peers = Peers::new(rt.alloc(), 2)?;
    expect(
        &rt,
        &"first",
        &peers.saw(Gate(0), FIRST, 5, FIRST, None, 0),
        &Seen::New,
    );
    expect(
        &rt,
        &"later",
        &peers.saw(Gate(1), LATER, 0, FIRST, None, 0),
        &Seen::New,
    );
    let rows = [entry(1_000_000, 1, LATER), entry(6_000_000, 0, FIRST)];
    expect(&rt, &"both", &peers.by_limit(), &rows.as_slice());
    let found = peers.saw(Gate(1), LATER, 5, FIRST, None, 500_000);
    expect(&rt, &"again", &found, &Seen::Known);
    let rows = [entry(6_000_000, 0, FIRST), entry(6_500_000, 1, LATER)];
    expect(&rt, &"moved", &peers.by_limit(), &rows.as_slice());
    expect(&rt, &"ended", &peers.prune(6_000_000), &1);
    expect(
        &rt,
        &"left",
        &peers.by_limit(),
        &[entry(6_500_000, 1, LATER)].as_slice(),
    );
    Ok(())
}

// A gate with the 128 ids from 0 on refuses the next, and knows each that it has.
const FULL: &[Step] = &[
    Saw(0, 128, 5, 200, None, 0, Seen::TableFull),
    Saw(0, 0, 5, 200, None, 0, Seen::Known),
    Saw(0, 127, 5, 200, None, 0, Seen::Known),
    Count(200, 128),
    Bye(0, 128, false),
    Bye(0, 64, true),
    Saw(0, 128, 5, 200, None, 0, Seen::New),
    Saw(0, 64, 5, 200, None, 0, Seen::TableFull),
    Bye(0, 128, true),
    Saw(0, 64, 5, 200, None, 0, Seen::New),
];

fn fill(rt: &impl Abort, peers: &mut Peers, gates: u8, gate: u8)
    requires some { 0 < gates }
    requires gates { peers.old.gates ≡ gates }
    ensures { peers.new.gates ≡ gates }
{
    for k in 0..128u8 {
        let step = Saw(0, k, 5, 200, None, 0, Seen::New);
        take(rt, peers, gates, gate, usize::from(k), &step);
    }
    take_all(rt, peers, gates, gate, FULL);
    expect(
        rt,
        &gate,
        &peers.by_limit().len(),
        &(128 * (usize::from(gate) + 1)),
    );
}

// Each gate is filled in turn, and all rows end at once.
fn expect_rows(rt: &impl Abort, alloc: Global, gates: u8, end: &[Step]) -> Result<(), AllocError>
    requires { (1 ≤ gates) × (gates ≤ 4) }
{
    let mut peers = Peers::new(alloc, gates)?;
    for gate in 0..gates {
        fill(rt, &mut peers, gates, gate);
    }
    take_all(rt, &mut peers, gates, 0, end);
    Ok(())
}

// rule: seen_of, is_full_on
#[test]
fn each_gate_has_128_rows(rt: HostRuntime) -> Result<(), Fail> {
    let alloc = rt.alloc();
    expect_rows(&rt, alloc, 1, &[Rows(128)])?;
    expect_rows(
        &rt,
        alloc,
        4,
        &[Prune(5_999_999, 0), Prune(6_000_000, 512), Rows(0)],
    )?;
    Ok(())
}
