//! A full queue, and more commits than 16 bits count.

use super::bench::{Bench, Network};
use super::{OPENED, edit, shown_with, start_at, state_of};
use audio_handoff::StateCell;
use client_state::State;
use link_shared::{AppPass, Busy, Capture, Got, Link, LinkName, QueueFull, Turned};
use std::alloc::Global;
use std::process::Abort;
use std::sync::Wait;

/// How many commits are pushed where a turn takes each.
pub const COMMITS: u64 = 70_000;

const TAKEN: Turned = Turned {
    quit: false,
    full: false,
};

/// Two passes capture the opening state, and the further one has no room for others. 256 commits are pushed, the next one comes
/// back, and a quit doesn't fit either. A turn makes room for one. The own last commit is shown until the state has taken it, which
/// is the 257th.
pub fn fill_queue<C: StateCell<11>, N: LinkName, R: Wait + Abort>(
    rt: &R,
    alloc: Global,
    way: &C::Way,
    bench: &mut Bench<C, N>,
) {
    let Bench {
        link,
        network,
        first,
        second,
        ..
    } = bench;
    expect_rooms(rt, first, second);
    expect_both(rt, alloc, way, link, first, second, &OPENED);
    push_all(rt, link, first);
    let shown = shown_with(&OPENED, 256);
    expect_capture(rt, alloc, way, link, first, &OPENED, &shown);
    take_all(rt, alloc, way, link, first, network);
    let last = state_of(257, 0, start_at(301), 301);
    expect_both(rt, alloc, way, link, first, second, &last);
}

fn expect_rooms<C: StateCell<11>, N: LinkName>(
    rt: &impl Abort,
    first: &AppPass<C, N>,
    second: &AppPass<C, N>,
) {
    assert!(rt; first.room() == 65_534);
    assert!(rt; second.room() == 0);
}

/// Both passes capture this state, and show no commit over it.
fn expect_both<C: StateCell<11>, N: LinkName, R: Wait + Abort>(
    rt: &R,
    alloc: Global,
    way: &C::Way,
    link: &Link<C, N>,
    first: &mut AppPass<C, N>,
    second: &mut AppPass<C, N>,
    state: &State,
) {
    expect_capture(rt, alloc, way, link, first, state, state);
    expect_capture(rt, alloc, way, link, second, state, state);
}

/// A capture is of this state and shows that. Its number is that of the commits that it has taken, each in a state of its own.
fn expect_capture<C: StateCell<11>, N: LinkName, R: Wait + Abort>(
    rt: &R,
    alloc: Global,
    way: &C::Way,
    link: &Link<C, N>,
    pass: &mut AppPass<C, N>,
    state: &State,
    shown: &State,
) {
    let wanted = Capture {
        number: state.app,
        state: *state,
        shown: *shown,
    };
    assert_eq!(rt; link.capture(rt, alloc, way, pass), Ok(wanted));
}

/// A turn with nothing else takes a commit.
fn expect_taken<C: StateCell<11>, N: LinkName, R: Wait + Abort>(
    rt: &R,
    way: &C::Way,
    link: &Link<C, N>,
    network: &mut Network<C, N>,
) {
    let turned = network.turn(rt, link, way, 0, Got::Nothing);
    assert!(rt; turned == TAKEN);
}

/// The commit that is made at a time has a number.
fn expect_commit<C: StateCell<11>, N: LinkName, R: Wait + Abort>(
    rt: &R,
    link: &Link<C, N>,
    pass: &mut AppPass<C, N>,
    time: u16,
    number: u64,
) {
    let told = link.commit(rt, pass, edit(time));
    assert!(rt; told == Ok(number), "{number}");
}

fn push_all<C: StateCell<11>, N: LinkName, R: Wait + Abort>(
    rt: &R,
    link: &Link<C, N>,
    pass: &mut AppPass<C, N>,
) {
    for number in 1..257u16 {
        expect_commit(rt, link, pass, number, u64::from(number));
    }
    expect_full(rt, link, pass);
}

/// A commit comes back, and a quit finds no room.
fn expect_full<C: StateCell<11>, N: LinkName, R: Wait + Abort>(
    rt: &R,
    link: &Link<C, N>,
    pass: &mut AppPass<C, N>,
) {
    let busy = Busy { commit: edit(300) };
    let back = link.commit(rt, pass, edit(300)) == Err(busy);
    assert!(rt; back && link.quit(rt) == Err(QueueFull));
}

/// A turn takes the first commit, and so makes room for one more. Further turns take all others, in each state of which that one is shown.
fn take_all<C: StateCell<11>, N: LinkName, R: Wait + Abort>(
    rt: &R,
    alloc: Global,
    way: &C::Way,
    link: &Link<C, N>,
    pass: &mut AppPass<C, N>,
    network: &mut Network<C, N>,
) {
    expect_taken(rt, way, link, network);
    expect_commit(rt, link, pass, 301, 257);
    let mut state = OPENED;
    for taken in 1..257u16 {
        state = taken_in(&state, taken);
        expect_capture(rt, alloc, way, link, pass, &state, &shown_with(&state, 301));
        expect_taken(rt, way, link, network);
    }
}

/// The state that has taken so many commits, the last of which is made at that time.
fn taken_in(state: &State, taken: u16) -> State {
    let mut taken_in = shown_with(state, taken);
    taken_in.app = u64::from(taken);
    taken_in
}

/// That many commits are pushed, and a turn takes each before the next one. The last state has taken all.
pub fn push_many<C: StateCell<11>, N: LinkName, R: Wait + Abort>(
    rt: &R,
    alloc: Global,
    way: &C::Way,
    bench: &mut Bench<C, N>,
) {
    let Bench {
        link,
        network,
        first,
        ..
    } = bench;
    for taken in 0..COMMITS {
        expect_commit(rt, link, first, 1, taken + 1);
        expect_taken(rt, way, link, network);
    }
    let last = state_of(COMMITS, 0, start_at(1), 1);
    expect_capture(rt, alloc, way, link, first, &last, &last);
}
