//! Clients that come, and clients that are let go.

ghost use Rattle.std.specs.Prelude.{◌≡◌, ◌<◌, ◌≤ℤ◌, ◌+ℤ◌, ℤ, pos, true, Option, IfSome, IsSome, length};
ghost use Rattle.lk_base.specs.Ranges.{IsMoment};
ghost use Rattle.link_shared.specs.Passes.{AppView};
ghost use Rattle.link_clients.specs.Standing.{Hosts, IsFreeIn, IsSilentIn, end_of_admitting, end_of_shutting};
ghost use Rattle.link_clients.specs.declared.terms.Terms.{Terms};

use crate::hall::Hall;
use crate::seat::Seat;
use crate::terms::HostEnd;
use lk_talks::{Admitted, SEATS, Talks};

/// How long nothing may be heard of a client, in microseconds.
const SILENCE: i64 = 600_000_000;

/// Gives a free seat to each client that is there, and turns one away where none is free. Answers how serving ends there, if it does.
///
/// Waits: no. Memory: none.
pub(crate) fn admit_all<L: Talks>(talks: &mut L, hall: &mut Hall) -> Option<HostEnd>
    requires opened { IsSome (L.seen talks.old).opened }
    ensures goes { (terms : Terms) (late : Option ℤ) (pass : AppView) → Hosts terms late (L.seen talks.old) (L.seen talks.new) pass pass hall.old hall.new result }
    ensures opened { (L.seen talks.new).opened ≡ (L.seen talks.old).opened }
{
    for _ in 0..SEATS {
        match admit(talks, hall) {
            Admitted::Came => {}
            Admitted::Nobody => return None,
            Admitted::Failed => return Some(HostEnd::Failed),
        }
    }
    None
}

// Gives a free seat to the next client that is there, or turns it away.
fn admit<L: Talks>(talks: &mut L, hall: &mut Hall) -> Admitted
    requires opened { IsSome (L.seen talks.old).opened }
    ensures goes { (terms : Terms) (late : Option ℤ) (pass : AppView)
        → Hosts terms late (L.seen talks.old) (L.seen talks.new) pass pass hall.old hall.new (end_of_admitting result) }
    ensures opened { (L.seen talks.new).opened ≡ (L.seen talks.old).opened }
{
    let Some(seat) = free_seat(&hall.seats) else {
        if talks.turn_away() {
            return Admitted::Nobody;
        }
        return Admitted::Failed;
    };
    let admitted = talks.admit(seat);
    if let Admitted::Came = admitted {
        hall.seats[seat as usize] = Seat::taken(hall.last);
    }
    admitted
}

// The first free seat, if there is one.
fn free_seat(seats: &[Seat]) -> Option<u8>
    requires { length seats.now ≡ 15 }
    ensures { IfSome result (IsFreeIn seats.now) }
{
    for seat in 0..SEATS {
        if !seats[seat as usize].here {
            return Some(seat);
        }
    }
    None
}

/// Lets go who said nothing for ten minutes, but for those who watch and take what they are told. Answers how serving ends there, if it
/// does.
///
/// Waits: no. Memory: none.
pub(crate) fn drop_silent<L: Talks>(talks: &mut L, hall: &mut Hall) -> Option<HostEnd>
    requires opened { IsSome (L.seen talks.old).opened }
    ensures goes { (terms : Terms) (late : Option ℤ) (pass : AppView) → Hosts terms late (L.seen talks.old) (L.seen talks.new) pass pass hall.old hall.new result }
    ensures opened { (L.seen talks.new).opened ≡ (L.seen talks.old).opened }
{
    for seat in 0..SEATS {
        if let Some(end) = drop_where_silent(talks, hall, seat) {
            return Some(end);
        }
    }
    None
}

// Lets the client in a seat go that said nothing for ten minutes, but for one that watches and takes what it is told.
fn drop_where_silent<L: Talks>(talks: &mut L, hall: &mut Hall, seat: u8) -> Option<HostEnd>
    requires opened { IsSome (L.seen talks.old).opened }
    requires seat { seat < 15 }
    ensures goes { (terms : Terms) (late : Option ℤ) (pass : AppView) → Hosts terms late (L.seen talks.old) (L.seen talks.new) pass pass hall.old hall.new result }
    ensures opened { (L.seen talks.new).opened ≡ (L.seen talks.old).opened }
{
    if !is_silent(hall, seat) {
        return None;
    }
    let clear = talks.is_clear(seat);
    if hall.seats[seat as usize].watching && clear {
        return None;
    }
    if drop_one(talks, hall, seat) {
        return None;
    }
    Some(HostEnd::Failed)
}

// Whether a client is in a seat of which nothing was heard for ten minutes.
fn is_silent(hall: &Hall, seat: u8) -> bool
    requires { seat < 15 }
    ensures { result ≡ true → IsSilentIn hall.now seat }
{
    let last = hall.last;
    let seat = &hall.seats[seat as usize];
    seat.here && seat.heard_at <= last - SILENCE
}

// Lets the client in a seat go. Answers whether the talks did.
fn drop_one<L: Talks>(talks: &mut L, hall: &mut Hall, seat: u8) -> bool
    requires opened { IsSome (L.seen talks.old).opened }
    requires seat { seat < 15 }
    requires silent { IsSilentIn hall.old seat }
    ensures goes { (terms : Terms) (late : Option ℤ) (pass : AppView)
        → Hosts terms late (L.seen talks.old) (L.seen talks.new) pass pass hall.old hall.new (end_of_shutting result) }
    ensures opened { (L.seen talks.new).opened ≡ (L.seen talks.old).opened }
{
    if !talks.shut(seat) {
        return false;
    }
    hall.seats[seat as usize] = Seat::free();
    true
}
