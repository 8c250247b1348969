//! Looking at the node.

ghost use Rattle.std.specs.Prelude.{◌≡◌, ◌≤◌, ◌+◌, if◌then◌else◌, length};
ghost use Rattle.link_clients.specs.Standing.{Hosts, IsEndAt, heres_in};

use crate::hall::Hall;
use crate::lookout::{Lookout, Rig};
use crate::seat::Seat;
use crate::terms::{HostEnd, Terms};
use audio_handoff::StateCell;
use link_shared::{AppPass, Link, LinkName};
use lk_outside::Pace;
use lk_talks::Talks;
use std::alloc::Global;
use std::sync::Wait;

/// How many clients are there.
pub(crate) fn clients_in(seats: &[Seat]) -> u32
    requires { length seats.now ≤ 15 }
    ensures { result ≡ heres_in seats.now }
{
    let mut count = 0;
    for seat in seats {
        count = with_one(count, seat);
    }
    count
}

// One more, where a client is in the seat.
fn with_one(count: u32, seat: &Seat) -> u32
    requires { count ≤ 15 }
    ensures { result ≡ count + (if seat.now.here then 1 else 0) }
{
    if seat.here {
        return count + 1;
    }
    count
}

/// Captures at the next moment, and looks out. Answers how serving ends there, if it does.
///
/// Waits: for the desk, by the way, and in the pace and the lookout. Memory: two notes.
pub(crate) fn look<C: StateCell<11>, N: LinkName, L: Talks, T: Pace, B: Lookout, R: Wait>(
    rt: &R,
    alloc: Global,
    link: &Link<C, N>,
    way: &C::Way,
    pass: &mut AppPass<C, N>,
    talks: &L,
    rig: &mut Rig<T, B>,
    terms: Terms,
    hall: &mut Hall,
) -> Option<HostEnd>
    ensures goes { Hosts terms (T.late rig.old.pace) (L.seen talks.now) (L.seen talks.now) pass.old pass.new hall.old hall.new result }
    ensures late { T.late rig.new.pace ≡ T.late rig.old.pace }
{
    let at = rig.pace.until(hall.last);
    let Ok(capture) = link.capture(rt, alloc, way, pass) else {
        return Some(HostEnd::Memory);
    };
    hall.last = at;
    hall.newest = Some(capture);
    let clients = clients_in(&hall.seats);
    hall.sighted = rig.lookout.look(&capture, at, clients);
    end_at(terms, hall.sighted.full, at)
}

// How serving ends at a moment, if it does.
fn end_at(terms: Terms, full: bool, at: i64) -> Option<HostEnd>
    ensures { IsEndAt full terms.ends_at at result }
{
    if full {
        return Some(HostEnd::Full);
    }
    if terms.ends_at <= at {
        return Some(HostEnd::Hours);
    }
    None
}
