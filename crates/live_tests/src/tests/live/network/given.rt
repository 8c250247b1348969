//! What a run is given: the node, the port and the queue.

ghost use Rattle.std.specs.Prelude.{◌≡◌, ◌≤◌, true, map, All, IfOk, IfSome};
ghost use Rattle.lk_base.specs.Ranges.{IsMoment};
ghost use Rattle.lk_outside.specs.Coming.{IsToCome};
ghost use Rattle.lk_outside.specs.ListPort.{bound_of};
ghost use Rattle.std.specs.Option.{ForSome};
ghost use Rattle.lk_base.specs.Timeline.{IsTidy};
ghost use Rattle.client_state.specs.Commit.{IsTidyCommit, IsTidyStart};
ghost use Rattle.link_node.specs.Config.{config_value, gate_value, IsConfig};
ghost use Rattle.link_live.specs.Network.{locals_of};

use super::datagrams::{datagram_of, sender_of};
use arrayvec::ArrayVec;
use client_state::Commit;
use link_node::{Config, GateSetup};
use lk_base::{ClientStart, Endpoint, Gate, MOMENT_MAX, Timeline};
use lk_outside::{Arrival, Bound, ListPort, Port};
use std::alloc::{AllocError, Global};
use std::process::Abort;

/// What a run is given.
#[derive(Clone, Copy)]
pub struct Given<'a> {
    /// How many destinations each gate has.
    pub gates: &'a [u16],
    /// What is other than usual: `@` the moment at which the node opens, `m` how many events the journal takes, `h` how many datagrams the
    /// port; `!` no gate is bound; `BIND`, `RECEIVE` and `SEND` with the number of the call that fails.
    pub limits: &'a [(u8, u64)],
    /// What comes, and when, from the opening on: `i` is time alone; a letter of a datagram comes on gate 0 where it is small, on gate 1
    /// where it is great.
    pub coming: &'a [(u8, i64)],
    /// What stands in the queue: `c` an empty commit, `s` one of a start, `t` one of a timeline; `u` an empty one of the audio thread; `q`
    /// the quit.
    pub queue: &'a [u8],
}

// ---- the node

/// The host time at which the node opens.
pub fn opening_of(given: &Given) -> i64
    ensures { IsMoment result }
{
    i64::try_from(limit_of(given, b'@', 1_000_000))
        .unwrap_or(0)
        .clamp(0, MOMENT_MAX)
}

/// How many events the journal takes.
pub fn most_of(given: &Given) -> u64
    ensures { (1 ≤ result) × (result ≤ 524_288) }
{
    limit_of(given, b'm', 300).clamp(1, 524_288)
}

// The number of that letter, or what is usual.
fn limit_of(given: &Given, letter: u8, usual: u64) -> u64 {
    let mut number = usual;
    for limit in given.limits {
        if limit.0 == letter {
            number = limit.1;
        }
    }
    number
}

// ---- the port

/// A port with what comes.
pub fn port_of(rt: &impl Abort, alloc: Global, given: &Given) -> ListPort {
    let failing = Vec::from_slice(alloc, given.limits).expect(rt, "memory for calls");
    let arrivals = arrivals_of(alloc, given.coming, opening_of(given));
    let arrivals = arrivals.expect(rt, "memory for what comes");
    let room = limit_of(given, b'h', 500).min(500) as usize;
    ListPort::new(alloc, arrivals, room, failing).expect(rt, "memory for a port")
}

/// Binds a port to the gates of the config, unless none is to be bound. Answers whether they are.
pub fn bind(port: &mut ListPort, given: &Given, config: &Config) -> bool
    requires { IsConfig (config_value config.now) }
    ensures { result ≡ true → bound_of port.new ≡ locals_of (config_value config.now) }
{
    if limit_of(given, b'!', 1) == 0 {
        return false;
    }
    port.bind(&locals_at(&config.gates)) == Bound::Ready
}

// The local endpoints of the gates.
fn locals_at(gates: &ArrayVec<GateSetup, 4>) -> ArrayVec<Endpoint, 4>
    ensures { result.items ≡ map (λ gate. gate.local) (map gate_value gates.now.items) }
{
    let mut locals = ArrayVec::new();
    for gate in gates.as_slice() {
        locals.push(gate.local);
    }
    locals
}

fn arrivals_of(
    alloc: Global,
    coming: &[(u8, i64)],
    opening: i64,
) -> Result<Vec<Arrival>, AllocError>
    requires { IsMoment opening }
    ensures { IfOk result (λ arrivals. All IsToCome arrivals.items) }
{
    let mut arrivals = Vec::new(alloc);
    for (letter, after) in coming {
        arrivals.push(arrival_of(*letter, *after, opening))?;
    }
    Ok(arrivals)
}

// What a letter says to come.
fn arrival_of(letter: u8, after: i64, opening: i64) -> Arrival
    requires { IsMoment opening }
    ensures { IsToCome result }
{
    let now = (opening + after.clamp(-MOMENT_MAX, MOMENT_MAX)).clamp(0, MOMENT_MAX);
    let small = letter.to_ascii_lowercase();
    if small == b'i' {
        return Arrival::Idle(now);
    }
    Arrival::Datagram {
        gate: Gate(u8::from(small != letter)),
        from: sender_of(small),
        bytes: datagram_of(small),
        now,
    }
}

// ---- the queue

/// The commit of that letter at that place of the queue.
pub fn commit_of(letter: u8, place: u16, opening: i64) -> Commit
    requires { IsMoment opening }
    ensures { IsTidyCommit result }
{
    Commit {
        timeline: timeline_of(letter, opening),
        start: start_of(letter, opening, place),
        quantum: None,
        at: i64::from(place),
    }
}

fn timeline_of(letter: u8, opening: i64) -> Option<Timeline>
    requires { IsMoment opening }
    ensures { ForSome result IsTidy }
{
    if letter != b't' {
        return None;
    }
    Some(Timeline {
        mpb: 250_000,
        beat: 0,
        time: opening,
    })
}

// Each has a later stamp than those before it.
fn start_of(letter: u8, opening: i64, place: u16) -> Option<ClientStart>
    requires { IsMoment opening }
    ensures { ForSome result IsTidyStart }
{
    if letter != b's' {
        return None;
    }
    Some(ClientStart {
        playing: true,
        time: opening,
        stamp: opening + 1 + i64::from(place),
    })
}

/// Whether a letter of the queue is a commit of an application.
pub fn is_app_commit(letter: u8) -> bool {
    letter == b'c' || letter == b's' || letter == b't'
}
