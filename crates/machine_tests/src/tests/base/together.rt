//! Two clients of one session, drawn: what both click in a second of ghost time.

ghost use Rattle.lk_base.specs.Timeline.{IsTidy};

use super::clicks::a_block;
use super::states::state;
use super::{a_place, a_quantum, a_timeline};
use crate::tests::expect;
use client_state::client_from_session;
use ghost_xform::XForm;
use lk_base::{Clicks, Timeline};
use rand_core::utils::NextWord;
use rand_pcg::Lcg64Xsh32;
use std::process::Abort;

const CASES: u32 = 500;

// A client's timeline, and how far the ghost time is ahead of the client's host time.
#[derive(Clone, Copy)]
struct Client {
    line: Timeline,
    offset: i64,
}

// Of any size within 2^50, so that nothing is clipped.
fn drawn(random: &mut Lcg64Xsh32) -> i64 {
    let high = i64::from(random.next_word()) * 524_288;
    let wide = high + i64::from(random.next_word() % 524_288) - (1 << 50);
    wide >> (random.next_word() % 50)
}

// Of any tempo.
fn drawn_timeline(rt: &impl Abort, random: &mut Lcg64Xsh32) -> Timeline
    ensures { IsTidy result }
{
    let mpb = 60_060 + i64::from(random.next_word() % 2_939_941);
    a_timeline(rt, mpb, drawn(random), drawn(random))
}

// One that was made for the session at some moment, from some timeline before.
fn drawn_client(rt: &impl Abort, random: &mut Lcg64Xsh32, session: &Timeline) -> Client
    requires { IsTidy session.now }
    ensures { IsTidy result.line }
{
    let before = drawn_timeline(rt, random);
    let now = a_place(rt, drawn(random));
    let offset = drawn(random);
    let line = client_from_session(&before, session, now, XForm { offset });
    Client { line, offset }
}

// What the client clicks, which plays since long before, in the second from a ghost time on.
fn clicks_from(rt: &impl Abort, client: &Client, from: i64, quantum: i64) -> Clicks
    requires { IsTidy client.now.line }
{
    let mut state = state(client.line, 0);
    state.quantum = a_quantum(rt, quantum);
    state.set_playing(true, i64::MIN);
    state.clicks(a_block(rt, from.wrapping_sub(client.offset), 1_000_000))
}

fn expect_together(rt: &impl Abort, random: &mut Lcg64Xsh32) {
    let session = drawn_timeline(rt, random);
    let (one, other) = (
        drawn_client(rt, random, &session),
        drawn_client(rt, random, &session),
    );
    let (from, quantum) = (drawn(random), i64::from(random.next_word() % 8_000_001));
    let found = clicks_from(rt, &one, from, quantum);
    let there = clicks_from(rt, &other, from, quantum);
    expect(rt, &session, &found.len(), &there.len());
    // At least as many as there are whole beats in a second.
    assert!(rt; found.len() as i64 >= 1_000_000 / session.mpb.max(1));
    for (click, twin) in found.iter().zip(&there) {
        let at = click.at.wrapping_add(one.offset).wrapping_sub(other.offset);
        expect(rt, &session, &(at, click.accent), &(twin.at, twin.accent));
    }
}

// rule: client_from_session_of, ClickTogether
#[test]
fn clients_of_one_session_click_at_the_same_ghost_times(rt: HostRuntime) {
    let mut random = Lcg64Xsh32::new(1, 1);
    for _ in 0..CASES {
        expect_together(&rt, &mut random);
    }
}
