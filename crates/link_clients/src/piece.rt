//! What is heard of a client: its lines are answered.

ghost use Rattle.std.specs.Prelude.{◌≡◌, ◌<◌, ◌∷◌, [], Some, IfOk, IfSome, IsSome, OnErr};
ghost use Rattle.lk_base.specs.Ranges.{IsMoment};
ghost use Rattle.client_state.specs.State.{IsTidyState};
ghost use Rattle.link_asks.specs.Answers.{answer_to};
ghost use Rattle.link_asks.specs.Asks.{IsAsk};
ghost use Rattle.link_control.specs.ServingNow.{HasMade, number_of};
ghost use Rattle.link_clients.specs.Edits.{commit_asked};
ghost use Rattle.link_clients.specs.Seats.{SeatView, answered_of, nobody, watch_asked};
ghost use Rattle.link_clients.specs.Standing.{Hosts, IsGoing, IsHere, IsMade, IsMarked, IsSeated, Takes, facts_made};

use crate::edit::commit_of;
use crate::hall::Hall;
use crate::look::clients_in;
use crate::lookout::Rig;
use crate::seat::{Seat, asked_in, keep};
use crate::terms::{HostEnd, Terms};
use audio_handoff::StateCell;
use client_state::Commit;
use link_asks::{Ask, Known, Reason, View, put_answer, view_of};
use link_live::hand_over;
use link_shared::{AppPass, Capture, Link, LinkName};
use lk_outside::Pace;
use lk_talks::{Heard, Said, Talks};
use std::alloc::{AllocError, Global};
use std::sync::Wait;

/// The most bytes that a client is heard for at once, so that others are heard soon again.
const PIECE: usize = 64;

/// How it goes on with a client that is heard.
#[derive(Clone, Copy, Debug, PartialEq, Eq)]
pub(crate) enum Going {
    /// Its next byte is taken.
    On,
    /// It had left.
    Gone,
    /// Serving ended.
    Over(HostEnd),
}

/// What was done for a line before it is answered.
#[derive(Clone, Copy, Debug)]
pub(crate) struct Made {
    // The moment of the line, in microseconds.
    pub(crate) at: i64,
    pub(crate) capture: Capture,
    // What was committed, behind its number.
    pub(crate) commit: Option<(u64, Commit)>,
}

/// Hears the client in a seat once, and answers the lines that are whole then. Answers how serving ends there, if it does.
///
/// Waits: for the desk, by the way, for room in the queue, and in the pace. Memory: two notes a line.
pub(crate) fn hear_seat<C: StateCell<11>, N: LinkName, L: Talks, T: Pace, B, R: Wait>(
    rt: &R,
    alloc: Global,
    link: &Link<C, N>,
    way: &C::Way,
    pass: &mut AppPass<C, N>,
    talks: &mut L,
    rig: &mut Rig<T, B>,
    terms: Terms,
    hall: &mut Hall,
    seat: u8,
) -> Option<HostEnd>
    requires opened { IsSome (L.seen talks.old).opened }
    requires seat { seat < 15 }
    requires here { IsHere hall.old seat }
    ensures goes { Hosts terms (T.late rig.old.pace) (L.seen talks.old) (L.seen talks.new) pass.old pass.new hall.old hall.new result }
    ensures opened { (L.seen talks.new).opened ≡ (L.seen talks.old).opened }
    ensures late { T.late rig.new.pace ≡ T.late rig.old.pace }
{
    let mut piece = [0u8; PIECE];
    match talks.hear(seat, &mut piece) {
        Heard::Got(count) => {
            hall.heard = true;
            mark_heard(hall, seat);
            let bytes = &piece[..count];
            match take_bytes(
                rt, alloc, link, way, pass, talks, rig, terms, hall, seat, bytes,
            ) {
                Going::On | Going::Gone => None,
                Going::Over(end) => Some(end),
            }
        }
        Heard::Nothing => None,
        Heard::Left => {
            hall.seats[seat as usize] = Seat::free();
            None
        }
        Heard::Failed => Some(HostEnd::Failed),
    }
}

// Keeps that something was heard of the client in a seat.
fn mark_heard(hall: &mut Hall, seat: u8)
    requires { seat < 15 }
    ensures { IsMarked hall.old hall.new seat }
{
    let at = hall.last;
    let place = &mut hall.seats[seat as usize];
    place.heard_at = at;
    place.eager = 0;
}

// Takes bytes of a client in order. Waits and memory: as in `hear_seat`.
fn take_bytes<C: StateCell<11>, N: LinkName, L: Talks, T: Pace, B, R: Wait>(
    rt: &R,
    alloc: Global,
    link: &Link<C, N>,
    way: &C::Way,
    pass: &mut AppPass<C, N>,
    talks: &mut L,
    rig: &mut Rig<T, B>,
    terms: Terms,
    hall: &mut Hall,
    seat: u8,
    bytes: &[u8],
) -> Going
    requires opened { IsSome (L.seen talks.old).opened }
    requires seat { seat < 15 }
    ensures taken { Takes terms (T.late rig.old.pace) (L.seen talks.old) (L.seen talks.new) pass.old pass.new hall.old hall.new seat bytes.now result }
    ensures opened { (L.seen talks.new).opened ≡ (L.seen talks.old).opened }
    ensures late { T.late rig.new.pace ≡ T.late rig.old.pace }
{
    for byte in bytes {
        let went = take_byte(
            rt, alloc, link, way, pass, talks, rig, terms, hall, seat, *byte,
        );
        if !matches!(went, Going::On) {
            return went;
        }
    }
    Going::On
}

// Takes a byte of a client: a line feed ends a line. Waits and memory: as in `hear_seat`.
fn take_byte<C: StateCell<11>, N: LinkName, L: Talks, T: Pace, B, R: Wait>(
    rt: &R,
    alloc: Global,
    link: &Link<C, N>,
    way: &C::Way,
    pass: &mut AppPass<C, N>,
    talks: &mut L,
    rig: &mut Rig<T, B>,
    terms: Terms,
    hall: &mut Hall,
    seat: u8,
    byte: u8,
) -> Going
    requires opened { IsSome (L.seen talks.old).opened }
    requires seat { seat < 15 }
    ensures taken { Takes terms (T.late rig.old.pace) (L.seen talks.old) (L.seen talks.new) pass.old pass.new hall.old hall.new seat (byte ∷ []) result }
    ensures opened { (L.seen talks.new).opened ≡ (L.seen talks.old).opened }
    ensures late { T.late rig.new.pace ≡ T.late rig.old.pace }
{
    if byte != b'\n' {
        keep(&mut hall.seats[seat as usize].line, byte);
        return Going::On;
    }
    answer_line(rt, alloc, link, way, pass, talks, rig, terms, hall, seat)
}

// Answers the line of a client that was read, behind its line feed. Waits and memory: as in `hear_seat`.
fn answer_line<C: StateCell<11>, N: LinkName, L: Talks, T: Pace, B, R: Wait>(
    rt: &R,
    alloc: Global,
    link: &Link<C, N>,
    way: &C::Way,
    pass: &mut AppPass<C, N>,
    talks: &mut L,
    rig: &mut Rig<T, B>,
    terms: Terms,
    hall: &mut Hall,
    seat: u8,
) -> Going
    requires opened { IsSome (L.seen talks.old).opened }
    requires seat { seat < 15 }
    ensures taken { Takes terms (T.late rig.old.pace) (L.seen talks.old) (L.seen talks.new) pass.old pass.new hall.old hall.new seat (10 ∷ []) result }
    ensures opened { (L.seen talks.new).opened ≡ (L.seen talks.old).opened }
    ensures late { T.late rig.new.pace ≡ T.late rig.old.pace }
{
    let (asked, reason) = asked_in(&hall.seats[seat as usize].line);
    let Ok(made) = make(rt, alloc, link, way, pass, &mut rig.pace, hall.last, asked) else {
        return Going::Over(HostEnd::Memory);
    };
    put_line(hall, terms, asked, reason, &made);
    note(hall, &made);
    let said = talks.say(seat, &hall.line);
    let commits = made.commit.is_some();
    settle(
        &mut hall.seats[seat as usize],
        asked,
        view_of(&made.capture.shown),
        commits,
        said,
    );
    go_on(terms, asked, said)
}

// Waits until a moment, captures, and commits what a line asks for.
// Waits: in the pace, for the desk, by the way, and for room in the queue. Memory: two notes.
fn make<C: StateCell<11>, N: LinkName, T: Pace, R: Wait>(
    rt: &R,
    alloc: Global,
    link: &Link<C, N>,
    way: &C::Way,
    pass: &mut AppPass<C, N>,
    pace: &mut T,
    last: i64,
    asked: Option<Ask>,
) -> Result<Made, AllocError>
    requires range { IfSome asked IsAsk }
    requires moment { IsMoment last }
    ensures done { IfOk result (λ made. IsMade (T.late pace.old) last pass.old pass.new asked made) }
    ensures moment { IfOk result (λ made. IsMoment made.at) }
    ensures tidy { IfOk result (λ made. IsTidyState made.capture.state × IsTidyState made.capture.shown) }
    ensures refused { OnErr result (pass.new ≡ pass.old) }
    ensures late { T.late pace.new ≡ T.late pace.old }
{
    let at = pace.until(last);
    let capture = link.capture(rt, alloc, way, pass)?;
    let commit = commit_line(rt, link, pass, asked, at, &capture);
    Ok(Made {
        at,
        capture,
        commit,
    })
}

// Commits what a line asks for, if it edits something, at a moment. Answers the commit behind its number.
// Waits: for the desk, and for room in the queue. Memory: none.
#[tactic(auto, unfolding(crate::specs::Edits::commit_asked))]
fn commit_line<C: StateCell<11>, N: LinkName, R: Wait>(
    rt: &R,
    link: &Link<C, N>,
    pass: &mut AppPass<C, N>,
    asked: Option<Ask>,
    at: i64,
    capture: &Capture,
) -> Option<(u64, Commit)>
    requires range { IfSome asked IsAsk }
    requires moment { IsMoment at }
    requires tidy { IsTidyState capture.now.shown }
    ensures made { HasMade pass.old pass.new result }
    ensures value { result ≡ commit_asked asked (number_of result) at capture.now }
{
    let Some(ask) = asked else {
        return None;
    };
    let Some(commit) = commit_of(ask, at, capture) else {
        return None;
    };
    let number = hand_over(rt, link, pass, commit);
    Some((number, commit))
}

// Puts the answer to a line for which this was done into the hall's own room.
fn put_line(hall: &mut Hall, terms: Terms, asked: Option<Ask>, reason: Reason, made: &Made)
    requires range { IfSome asked IsAsk }
    requires tidy { IsTidyState made.now.capture.shown }
    ensures line { hall.new.line.items ≡ answer_to asked reason (facts_made hall.old terms.may_end made.now) }
    ensures stays { hall.new ≡ record hall.old { line = hall.new.line } }
{
    let known = Known {
        published: made.capture.number,
        shown: made.capture.shown,
        at: made.at,
        number: number_in(made.commit),
        clients: clients_in(&hall.seats),
        gates: &hall.sighted.gates,
        may_end: terms.may_end,
    };
    put_answer(&mut hall.line, asked, reason, &known);
}

// Leaves of a seat what an answer that was taken, or wasn't, leaves of it, where this was shown; of a line that commits, too.
fn settle(seat: &mut Seat, asked: Option<Ask>, shown: View, commits: bool, said: Said)
    ensures taken { said ≡ Said.Taken → (view : SeatView) → IsSeated view seat.old → IsSeated (answered_of asked shown view) seat.new }
    ensures line { seat.new.line.items ≡ [] }
    ensures here { said ≡ Said.Taken → seat.new.here ≡ seat.old.here }
    ensures gone { (said ≡ Said.Taken → ⊥) → IsSeated nobody seat.new }
{
    if !matches!(said, Said::Taken) {
        *seat = Seat::free();
        return;
    }
    seat.line.clear();
    seat.eager = seat.eager.saturating_add(u32::from(commits));
    match watch_in(asked) {
        None => {}
        Some(true) => {
            seat.watching = true;
            seat.told = Some(shown);
        }
        Some(false) => seat.watching = false,
    }
}

// Whether a line asks to be told of changes, or of none.
fn watch_in(asked: Option<Ask>) -> Option<bool>
    ensures { result ≡ watch_asked asked }
{
    match asked? {
        Ask::Watch => Some(true),
        Ask::Unwatch => Some(false),
        Ask::Status
        | Ask::Now
        | Ask::Beat(_)
        | Ask::Phase(_)
        | Ask::Time(_)
        | Ask::Tempo(_)
        | Ask::Play(_)
        | Ask::Stop(_)
        | Ask::Force(_, _)
        | Ask::Request(_, _)
        | Ask::Quantum(_)
        | Ask::Clients
        | Ask::Gates
        | Ask::End => None,
    }
}

// How it goes on with a client whose line asked for this, once the answer was taken or not.
fn go_on(terms: Terms, asked: Option<Ask>, said: Said) -> Going
    ensures { IsGoing terms asked said result }
{
    if let Said::Failed = said {
        return Going::Over(HostEnd::Failed);
    }
    if terms.may_end && matches!(asked, Some(Ask::End)) {
        return Going::Over(HostEnd::Asked);
    }
    match said {
        Said::Taken => Going::On,
        _ => Going::Gone,
    }
}

// Keeps what was done for a line.
fn note(hall: &mut Hall, made: &Made)
    requires moment { IsMoment made.now.at }
    ensures last { hall.new.last ≡ made.now.at }
    ensures newest { hall.new.newest ≡ Some made.now.capture }
    ensures stays { (hall.new.seats ≡ hall.old.seats) × (hall.new.sighted ≡ hall.old.sighted) × (hall.new.line ≡ hall.old.line) }
{
    hall.last = made.at;
    hall.newest = Some(made.capture);
    if let Some((number, _)) = made.commit {
        hall.number = number;
    }
}

// The number of a commit, 0 for none.
fn number_in(commit: Option<(u64, Commit)>) -> u64
    ensures { result ≡ number_of commit }
{
    match commit {
        Some((number, _)) => number,
        None => 0,
    }
}
