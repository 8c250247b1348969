//! Whole measurements, worked out apart from the code from the rule in words, and exchanges over a made-up network.

ghost use Rattle.lk_base.specs.Ranges.{IsMoment, IsWithinLimit};

use crate::tests::expect;
use link_payload::{PingFields, PongFields};
use lk_base::{Endpoint, Gate, LIMIT, MOMENT_MAX, NodeId, Target};
use ping_measure::{Measure, MeasureFault, Outcome, answer_ping};
use std::process::Abort;

const HERE: Endpoint = Endpoint {
    addr: 0x0A00_0001,
    port: 20_808,
};

const TARGET: Target = Target {
    gate: Gate(1),
    id: NodeId(*b"ABCDEFGH"),
    endpoint: HERE,
};

const SESSION: NodeId = NodeId(*b"IJKLMNOP");

const OTHER: NodeId = NodeId(*b"IJKLMNOQ");

// What may happen to a measurement.
#[derive(Clone, Copy)]
enum Event {
    Tick,
    // A pong of the target, with its ghost time, host time and ghost time before.
    Pong(i64, i64, i64),
    // One that carries all times, from a gate, an address and a port, of a session.
    Full(u8, u32, u16, NodeId),
}

use Event::{Full, Pong, Tick};

// What follows from it: a ping that carries the moment and this ghost time, or else what the names say.
#[derive(Clone, Copy)]
enum Told {
    Idle,
    Again(Option<i64>),
    Silence,
    Strayed,
}

use Told::{Again, Idle, Silence, Strayed};

fn outcome(told: Told, now: i64) -> Outcome {
    match told {
        Idle => Outcome::Idle,
        Again(previous) => Outcome::Again(PingFields {
            host: now,
            previous,
        }),
        Silence => Outcome::Failed(MeasureFault::Silence),
        Strayed => Outcome::Failed(MeasureFault::OtherSession(OTHER)),
    }
}

fn moment(time: i64) -> i64
    ensures { IsMoment result }
{
    time.clamp(0, MOMENT_MAX)
}

// A pong of the measured session.
fn pong_of(ghost_time: i64, host: i64, previous: i64) -> PongFields
    ensures ghost_time { IsWithinLimit result.ghost_time }
    ensures host { IsWithinLimit result.host }
    ensures previous { IsWithinLimit result.previous }
{
    PongFields {
        session: SESSION,
        ghost_time: ghost_time.clamp(-LIMIT, LIMIT),
        host: host.clamp(-LIMIT, LIMIT),
        previous: previous.clamp(-LIMIT, LIMIT),
    }
}

fn started(now: i64) -> Measure {
    let (measure, _ping) = Measure::start(TARGET, SESSION, moment(now));
    measure
}

// Takes such a pong of the target.
fn hear(measure: &mut Measure, (ghost_time, host, previous): (i64, i64, i64), now: i64) -> Outcome {
    measure.pong(
        Gate(1),
        HERE,
        &pong_of(ghost_time, host, previous),
        moment(now),
    )
}

fn take(measure: &mut Measure, event: Event, now: i64) -> Outcome {
    match event {
        Tick => measure.tick(moment(now)),
        Pong(ghost_time, host, previous) => hear(measure, (ghost_time, host, previous), now),
        Full(gate, addr, port, session) => {
            let pong = PongFields {
                session,
                ghost_time: 900,
                host: 100,
                previous: 80,
            };
            measure.pong(Gate(gate), Endpoint { addr, port }, &pong, moment(now))
        }
    }
}

// What happens and when, what follows, and the deadline then.
type Step = (Event, i64, Told, i64);

// Takes steps, and is over from this moment on.
fn expect_steps(rt: &impl Abort, measure: &mut Measure, steps: &[Step], end: i64) {
    for &(event, now, told, deadline) in steps {
        let found = (
            take(measure, event, now),
            measure.deadline(),
            measure.is_over(),
        );
        expect(
            rt,
            &now,
            &found,
            &(outcome(told, now), deadline, now >= end),
        );
    }
}

const SILENCES: &[Step] = &[
    (Tick, 50_004, Idle, 50_005),
    (Tick, 50_005, Again(None), 100_005),
    (Tick, 50_006, Idle, 100_005),
    (Tick, 100_004, Idle, 100_005),
    (Tick, 100_012, Again(None), 150_012),
    (Pong(700, 120, 0), 120_000, Again(Some(700)), 170_000),
    (Tick, 169_999, Idle, 170_000),
    (Tick, 170_000, Again(None), 220_000),
    (Tick, 220_000, Again(None), 270_000),
    (Tick, 1_000_000, Again(None), 1_050_000),
    (Tick, 1_049_999, Idle, 1_050_000),
    (Tick, 1_050_000, Silence, 1_050_000),
    (Tick, 2_000_000, Idle, 1_050_000),
    (Pong(700, 120, 30), 2_000_001, Idle, 1_050_000),
    (
        Full(1, 0x0A00_0001, 20_808, OTHER),
        2_000_002,
        Idle,
        1_050_000,
    ),
];

// rule: deadline_of, is_early, tick_outcome
#[test]
fn six_silences_end_it_whatever_comes_between(rt: HostRuntime) {
    expect_steps(&rt, &mut started(5), SILENCES, 1_050_000);
}

const STRAYED: &[Step] = &[
    // From another gate, another address and another port.
    (Full(2, 0x0A00_0001, 20_808, SESSION), 10, Idle, 50_005),
    (Full(1, 0x0A00_0002, 20_808, SESSION), 11, Idle, 50_005),
    (Full(1, 0x0A00_0001, 20_809, SESSION), 12, Idle, 50_005),
    (Full(1, 0x0A00_0001, 20_809, OTHER), 13, Idle, 50_005),
    (Pong(900, 100, 80), 14, Again(Some(900)), 50_014),
    (Full(1, 0x0A00_0001, 20_808, OTHER), 15, Strayed, 50_014),
    (Pong(900, 100, 80), 16, Idle, 50_014),
    (Full(1, 0x0A00_0001, 20_808, OTHER), 17, Idle, 50_014),
    (Tick, 50_014, Idle, 50_014),
    (Tick, 60_000, Idle, 50_014),
];

// rule: opening, is_from, pong_outcome, deadline_of
#[test]
fn only_the_target_is_heard_and_only_of_the_measured_session(rt: HostRuntime) {
    let mut measure = started(5);
    expect(
        &rt,
        &"begun",
        &(measure.session(), measure.target()),
        &(SESSION, TARGET),
    );
    expect_steps(&rt, &mut measure, STRAYED, 15);
}

fn offset_of(outcome: Outcome) -> Option<i64> {
    match outcome {
        Outcome::Done(xform) => Some(xform.offset),
        _ => None,
    }
}

// The k-th pong of a peer that is about 5 seconds ahead, which may be the first of its peer, and when it comes.
fn regular(k: u16, is_first: bool) -> ((i64, i64, i64), i64) {
    let k = i64::from(k);
    let host = 1000 * k + 1000;
    let ahead = host + 5_000_000;
    let previous = if is_first { 0 } else { ahead - 773 * k % 8191 };
    ((ahead + 31 * k * k % 9973, host, previous), host + 400)
}

// Whether each of 50 regular pongs is answered with a ping.
fn are_answered(measure: &mut Measure, is_first: bool) -> bool {
    for k in 0..50 {
        let (pong, now) = regular(k, is_first && k == 0);
        if hear(measure, pong, now) != outcome(Again(Some(pong.0)), now) {
            return false;
        }
    }
    true
}

const OVER: &[Step] = &[
    (Pong(900, 100, 80), 200_000, Idle, 100_400),
    (Full(1, 0x0A00_0001, 20_808, OTHER), 200_000, Idle, 100_400),
    (Tick, 200_000, Idle, 100_400),
];

// 51 regular pongs, of which the first and the last may carry no ghost time before, are measured to this offset.
fn expect_enough(rt: &impl Abort, is_first: bool, is_last: bool, wanted: i64) {
    let mut measure = started(0);
    let answered = are_answered(&mut measure, is_first);
    let found = (answered, measure.deadline(), measure.is_over());
    expect(rt, &wanted, &found, &(true, 100_400, false));
    let (pong, now) = regular(50, is_last);
    expect(
        rt,
        &"offset",
        &offset_of(hear(&mut measure, pong, now)),
        &Some(wanted),
    );
    expect_steps(rt, &mut measure, OVER, 0);
}

// rule: point_of, points_in, counted_outcome, deadline_of
#[test]
fn more_than_100_points_are_enough(rt: HostRuntime) {
    expect_enough(&rt, true, false, 5_001_690);
    expect_enough(&rt, false, false, 5_001_685);
    expect_enough(&rt, false, true, 5_001_690);
}

// Where an exchange stands: the network's draws, the host time of the last ping, and the ghost time that it carried.
#[derive(Clone, Copy)]
struct Exchange {
    draws: u64,
    sent: i64,
    previous: i64,
}

// A delay up to the longest, and the draws after it.
fn delay(draws: u64, longest: u16) -> (i64, u64) {
    let next = draws
        .wrapping_mul(6_364_136_223_846_793_005)
        .wrapping_add(1_442_695_040_888_963_407);
    let drawn = next / (1 << 33) % (u64::from(longest) + 1);
    (drawn.min(65_535) as i64, next)
}

// The ping comes to a peer that is ahead by `ahead`, and its pong back, each after a delay of its own.
fn exchanged(measure: &mut Measure, at: &mut Exchange, ahead: i32, longest: u16) -> Outcome {
    let (out, draws) = delay(at.draws, longest);
    let (back, draws) = delay(draws, longest);
    let arrived = at.sent.wrapping_add(out);
    let read = arrived.wrapping_add(i64::from(ahead));
    let now = arrived.wrapping_add(back);
    let outcome = hear(measure, (read, at.sent, at.previous), now);
    *at = Exchange {
        draws,
        sent: now,
        previous: read,
    };
    outcome
}

// The offset that 51 exchanges measure.
fn measured(seed: u16, ahead: i32, longest: u16) -> Option<i64> {
    let mut measure = started(1);
    let mut at = Exchange {
        draws: u64::from(seed),
        sent: 1,
        previous: 0,
    };
    let mut last = None;
    for _ in 0..51 {
        last = offset_of(exchanged(&mut measure, &mut at, ahead, longest));
    }
    last
}

// Whether twice the error is at most one more than the longest delay.
fn is_near(offset: i64, ahead: i32, longest: u16) -> bool {
    (i128::from(offset) - i128::from(ahead)).unsigned_abs() * 2 <= u128::from(longest) + 1
}

// rule: AreFair
#[test]
fn an_honest_peer_is_measured_within_half_of_the_longest_delay(rt: HostRuntime) {
    for seed in 0..200u16 {
        let ahead = 7_000_001 * (i32::from(seed) - 100) + 100_000_000;
        let longest = 37 * seed + 1;
        let found = measured(seed, ahead, longest).map(|told| is_near(told, ahead, longest));
        expect(&rt, &seed, &found, &Some(true));
    }
}

// A payload, and its pong in the session QRSTUVWX at the ghost time 250, if it has one: the session, that time, and the payload.
const ANSWERS: &[(&[u8], Option<&[u8]>)] = &[
    (
        b"__ht\0\0\0\x08\0\0\0\0\0\0\x03\xe8",
        Some(
            b"_link_v\x01\x02sess\0\0\0\x08QRSTUVWX__gt\0\0\0\x08\0\0\0\0\0\0\0\xfa\
__ht\0\0\0\x08\0\0\0\0\0\0\x03\xe8",
        ),
    ),
    (
        &[7; 32],
        Some(
            b"_link_v\x01\x02sess\0\0\0\x08QRSTUVWX__gt\0\0\0\x08\0\0\0\0\0\0\0\xfa\
\x07\x07\x07\x07\x07\x07\x07\x07\x07\x07\x07\x07\x07\x07\x07\x07\
\x07\x07\x07\x07\x07\x07\x07\x07\x07\x07\x07\x07\x07\x07\x07\x07",
        ),
    ),
    (&[7; 33], None),
];

#[test]
fn a_ping_of_up_to_32_bytes_is_answered(rt: HostRuntime) {
    for &(payload, pong) in ANSWERS {
        let wire = answer_ping(payload, NodeId(*b"QRSTUVWX"), 250);
        let found = wire.as_ref().map(|wire| wire.as_slice());
        expect(&rt, &payload.len(), &found, &pong);
    }
}
