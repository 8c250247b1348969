//! Serving clients.

ghost use Rattle.std.specs.Prelude.{◌≡◌, ◌<◌, ◌≤ℤ◌, List, pos, true, IsSome};
ghost use Rattle.lk_base.specs.Ranges.{IsMoment};
ghost use Rattle.link_clients.specs.Hosting.{HasHosted};
ghost use Rattle.link_clients.specs.Standing.{Hosts, IsFresh, IsHere};
ghost use Rattle.link_clients.specs.Deeds.{Deed};

use crate::coming::{admit_all, drop_silent};
use crate::hall::Hall;
use crate::look::look;
use crate::lookout::{Lookout, Rig};
use crate::piece::hear_seat;
use crate::seat::Seat;
use crate::telling::tell_all;
use crate::terms::{HostEnd, Terms};
use audio_handoff::StateCell;
use link_shared::{AppPass, Link, LinkName};
use lk_base::MOMENT_MAX;
use lk_outside::Pace;
use lk_talks::{SEATS, Talks, Waited};
use std::alloc::Global;
use std::sync::Wait;

/// How many commits may be on their way before a client is held back that makes many, and before all are.
const SOME_ON_THEIR_WAY: u64 = 64;

const MANY_ON_THEIR_WAY: u64 = 192;

/// How many commits of its last piece a client makes that makes many.
const EAGER: u32 = 4;

/// How long a round waits at most, in microseconds: where a client is held back, where one watches, and else.
const HELD_WAIT: i64 = 1_000;

const WATCH_WAIT: i64 = 4_000;

const IDLE_WAIT: i64 = 250_000;

/// Serves clients in rounds, until serving ends. In each round it waits until something may be there; looks at the node; gives seats to who
/// came; hears each client once, for at most 64 bytes, and answers its whole lines in order; tells who watches what is shown; and lets go
/// who is silent. A client whose answers wait is neither heard nor told anything, so that it holds up nobody, and one that edits often is
/// held back while its edits are on their way.
///
/// Waits: in the talks, the pace and the lookout, for the desk, by the way, and for room in the queue. Memory: two notes for each capture.
pub(crate) fn host<C: StateCell<11>, N: LinkName, L: Talks, T: Pace, B: Lookout, R: Wait>(
    rt: &R,
    alloc: Global,
    link: &Link<C, N>,
    way: &C::Way,
    pass: &mut AppPass<C, N>,
    talks: &mut L,
    rig: &mut Rig<T, B>,
    terms: Terms,
    hall: &mut Hall,
) -> HostEnd
    requires opened { IsSome (L.seen talks.old).opened }
    requires fresh { IsFresh hall.old }
    ensures hosted { (done : List Deed) × HasHosted terms (T.late rig.old.pace) (L.seen talks.old) (L.seen talks.new) pass.old pass.new done result }
{
    let mut wait = 0;
    for _ in rt.forever() {
        let until = moment_after(hall.last, wait);
        if let Some(end) = round(rt, alloc, link, way, pass, talks, rig, terms, hall, until) {
            return end;
        }
        wait = wait_in(hall);
    }
    unreachable!()
}

// The moment so long after another one, or the last one.
fn moment_after(last: i64, wait: i64) -> i64
    requires last { IsMoment last }
    requires wait { (pos 0 ≤ℤ wait) × (wait ≤ℤ pos 250_000) }
    ensures { IsMoment result }
{
    (last + wait).min(MOMENT_MAX)
}

// A round, which waits until a moment. Answers how serving ends there, if it does. Waits and memory: as in `host`.
fn round<C: StateCell<11>, N: LinkName, L: Talks, T: Pace, B: Lookout, R: Wait>(
    rt: &R,
    alloc: Global,
    link: &Link<C, N>,
    way: &C::Way,
    pass: &mut AppPass<C, N>,
    talks: &mut L,
    rig: &mut Rig<T, B>,
    terms: Terms,
    hall: &mut Hall,
    until: i64,
) -> Option<HostEnd>
    requires opened { IsSome (L.seen talks.old).opened }
    requires moment { IsMoment until }
    ensures goes { Hosts terms (T.late rig.old.pace) (L.seen talks.old) (L.seen talks.new) pass.old pass.new hall.old hall.new result }
    ensures opened { (L.seen talks.new).opened ≡ (L.seen talks.old).opened }
    ensures late { T.late rig.new.pace ≡ T.late rig.old.pace }
{
    match talks.wait(until) {
        Waited::Went => {}
        Waited::Closed => return Some(HostEnd::Closed),
        Waited::Failed => return Some(HostEnd::Failed),
    }
    if let Some(end) = look(rt, alloc, link, way, pass, talks, rig, terms, hall) {
        return Some(end);
    }
    if let Some(end) = admit_all(talks, hall) {
        return Some(end);
    }
    if let Some(end) = hear_all(rt, alloc, link, way, pass, talks, rig, terms, hall) {
        return Some(end);
    }
    if let Some(end) = tell_all(talks, hall) {
        return Some(end);
    }
    drop_silent(talks, hall)
}

// Hears each client once that isn't held back, and answers the lines that are whole then. Answers how serving ends there, if it does.
// Waits and memory: as in `host`.
fn hear_all<C: StateCell<11>, N: LinkName, L: Talks, T: Pace, B, R: Wait>(
    rt: &R,
    alloc: Global,
    link: &Link<C, N>,
    way: &C::Way,
    pass: &mut AppPass<C, N>,
    talks: &mut L,
    rig: &mut Rig<T, B>,
    terms: Terms,
    hall: &mut Hall,
) -> Option<HostEnd>
    requires opened { IsSome (L.seen talks.old).opened }
    ensures goes { Hosts terms (T.late rig.old.pace) (L.seen talks.old) (L.seen talks.new) pass.old pass.new hall.old hall.new result }
    ensures opened { (L.seen talks.new).opened ≡ (L.seen talks.old).opened }
    ensures late { T.late rig.new.pace ≡ T.late rig.old.pace }
{
    hall.heard = false;
    for seat in 0..SEATS {
        if let Some(end) = hear_one(rt, alloc, link, way, pass, talks, rig, terms, hall, seat) {
            return Some(end);
        }
    }
    None
}

// Hears the client in a seat once, if one is there that isn't held back. Waits and memory: as in `host`.
fn hear_one<C: StateCell<11>, N: LinkName, L: Talks, T: Pace, B, R: Wait>(
    rt: &R,
    alloc: Global,
    link: &Link<C, N>,
    way: &C::Way,
    pass: &mut AppPass<C, N>,
    talks: &mut L,
    rig: &mut Rig<T, B>,
    terms: Terms,
    hall: &mut Hall,
    seat: u8,
) -> Option<HostEnd>
    requires opened { IsSome (L.seen talks.old).opened }
    requires seat { seat < 15 }
    ensures goes { Hosts terms (T.late rig.old.pace) (L.seen talks.old) (L.seen talks.new) pass.old pass.new hall.old hall.new result }
    ensures opened { (L.seen talks.new).opened ≡ (L.seen talks.old).opened }
    ensures late { T.late rig.new.pace ≡ T.late rig.old.pace }
{
    if !may_hear(hall, seat) {
        return None;
    }
    if !talks.is_clear(seat) {
        return None;
    }
    hear_seat(rt, alloc, link, way, pass, talks, rig, terms, hall, seat)
}

// How many commits are on their way.
fn on_their_way(hall: &Hall) -> u64 {
    match &hall.newest {
        Some(newest) => hall.number.saturating_sub(newest.state.app),
        None => 0,
    }
}

// Whether a client is in a seat that isn't held back.
fn may_hear(hall: &Hall, seat: u8) -> bool
    requires { seat < 15 }
    ensures { result ≡ true → IsHere hall.now seat }
{
    let way = on_their_way(hall);
    let seat = &hall.seats[seat as usize];
    seat.here && way < MANY_ON_THEIR_WAY && (way < SOME_ON_THEIR_WAY || seat.eager < EAGER)
}

// How long the next round waits at most, in microseconds.
fn wait_in(hall: &Hall) -> i64
    ensures { (pos 0 ≤ℤ result) × (result ≤ℤ pos 250_000) }
{
    if hall.heard {
        return 0;
    }
    if on_their_way(hall) >= SOME_ON_THEIR_WAY {
        return HELD_WAIT;
    }
    if is_watched(&hall.seats) {
        return WATCH_WAIT;
    }
    IDLE_WAIT
}

// Whether some client watches.
fn is_watched(seats: &[Seat]) -> bool {
    seats.iter().any(|seat| seat.watching)
}
