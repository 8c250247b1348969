//! Telling who watches what is shown.

ghost use Rattle.std.specs.Prelude.{◌≡◌, ◌<◌, ℤ, true, Option, Some, IsSome};
ghost use Rattle.link_shared.specs.Passes.{AppView};
ghost use Rattle.link_asks.specs.Views.{shown_view_of};
ghost use Rattle.link_clients.specs.Standing.{Hosts, IsWatchedIn, IsWatchingIn, end_of_saying};
ghost use Rattle.link_clients.specs.declared.terms.Terms.{Terms};

use crate::hall::Hall;
use crate::seat::Seat;
use crate::terms::HostEnd;
use link_asks::{View, put_changed, view_of};
use link_shared::Capture;
use lk_talks::{SEATS, Said, Talks};

/// How long it is at least from what a client was told to what it is told next, in microseconds.
const SPACING: i64 = 5_000;

/// Tells each client that watches, and takes what it is told, what was captured last, where that differs from what it was told and enough
/// time has gone by. Answers how serving ends there, if it does.
///
/// Waits: no. Memory: none.
pub(crate) fn tell_all<L: Talks>(talks: &mut L, hall: &mut Hall) -> Option<HostEnd>
    requires opened { IsSome (L.seen talks.old).opened }
    ensures goes { (terms : Terms) (late : Option ℤ) (pass : AppView) → Hosts terms late (L.seen talks.old) (L.seen talks.new) pass pass hall.old hall.new result }
    ensures opened { (L.seen talks.new).opened ≡ (L.seen talks.old).opened }
{
    let Some(newest) = hall.newest else {
        return None;
    };
    let view = view_of(&newest.shown);
    for seat in 0..SEATS {
        if let Said::Failed = tell_where_news(talks, hall, seat, &newest, view) {
            return Some(HostEnd::Failed);
        }
    }
    None
}

// Tells the client in a seat what is shown, if that is news to it. Answers what the talks did, or that all of nothing was taken.
fn tell_where_news<L: Talks>(
    talks: &mut L,
    hall: &mut Hall,
    seat: u8,
    newest: &Capture,
    view: View,
) -> Said
    requires opened { IsSome (L.seen talks.old).opened }
    requires seat { seat < 15 }
    requires newest { (hall.old.newest ≡ Some newest.now) × (view ≡ shown_view_of newest.now.shown) }
    ensures goes { (terms : Terms) (late : Option ℤ) (pass : AppView)
        → Hosts terms late (L.seen talks.old) (L.seen talks.new) pass pass hall.old hall.new (end_of_saying result) }
    ensures opened { (L.seen talks.new).opened ≡ (L.seen talks.old).opened }
    ensures newest { hall.new.newest ≡ hall.old.newest }
{
    if !is_news(hall, seat, view) {
        return Said::Taken;
    }
    if !talks.is_clear(seat) {
        return Said::Taken;
    }
    tell_one(talks, hall, seat, newest, view)
}

// Whether a client in a seat watches that wasn't told this, nor anything within 5 milliseconds.
fn is_news(hall: &Hall, seat: u8, view: View) -> bool
    requires { seat < 15 }
    ensures { result ≡ true → IsWatchedIn hall.now seat view }
{
    if !is_watching(hall, seat) {
        return false;
    }
    let told = &hall.seats[seat as usize];
    if is_told(&told.told, &view) {
        return false;
    }
    true
}

// Whether a client in a seat watches that wasn't told anything within 5 milliseconds.
fn is_watching(hall: &Hall, seat: u8) -> bool
    requires { seat < 15 }
    ensures { result ≡ true → IsWatchingIn hall.now seat }
{
    let last = hall.last;
    let seat = &hall.seats[seat as usize];
    seat.here && seat.watching && seat.told_at <= last - SPACING
}

// Whether this was told last.
fn is_told<T: Eq>(told: &Option<T>, news: &T) -> bool
    ensures { told.now ≡ Some news.now → result ≡ true }
{
    match told {
        Some(told) => told == news,
        None => false,
    }
}

// Tells the client in a seat what is shown. Answers what the talks did.
fn tell_one<L: Talks>(
    talks: &mut L,
    hall: &mut Hall,
    seat: u8,
    newest: &Capture,
    view: View,
) -> Said
    requires opened { IsSome (L.seen talks.old).opened }
    requires seat { seat < 15 }
    requires newest { (hall.old.newest ≡ Some newest.now) × (view ≡ shown_view_of newest.now.shown) }
    requires news { IsWatchedIn hall.old seat view }
    ensures goes { (terms : Terms) (late : Option ℤ) (pass : AppView)
        → Hosts terms late (L.seen talks.old) (L.seen talks.new) pass pass hall.old hall.new (end_of_saying result) }
    ensures opened { (L.seen talks.new).opened ≡ (L.seen talks.old).opened }
    ensures newest { hall.new.newest ≡ hall.old.newest }
{
    put_changed(&mut hall.line, &view, newest.number);
    let said = talks.say(seat, &hall.line);
    let last = hall.last;
    match said {
        Said::Taken => note_told(&mut hall.seats[seat as usize], view, last),
        Said::Left => hall.seats[seat as usize] = Seat::free(),
        Said::Failed => {}
    }
    said
}

// Keeps what a client was told, and when.
fn note_told(seat: &mut Seat, view: View, at: i64)
    ensures told { (seat.new.told ≡ Some view) × (seat.new.told_at ≡ at) }
    ensures stays { (seat.new.here ≡ seat.old.here) × (seat.new.watching ≡ seat.old.watching) × (seat.new.line ≡ seat.old.line) × (seat.new.heard_at ≡ seat.old.heard_at) }
{
    seat.told = Some(view);
    seat.told_at = at;
}
