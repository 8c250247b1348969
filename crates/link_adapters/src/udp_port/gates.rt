//! The sockets of the gates.

ghost use Rattle.std.specs.Prelude.{◌≡◌, ◌<◌, ◌≤◌, ◌+◌, ◌∷◌, ◌++◌, [], length, vec_capacity, vec_len, IfOk, IfSome, OnOk};
ghost use Rattle.link_adapters.specs.Sockets.{locals_of};

use super::address::address_of;
use super::refusal::{Taken, taken_of};
use lk_base::{Endpoint, Gate};
use mio::net::UdpSocket;
use mio::{Interest, Poll, Token};
use std::net::Net;
use std::sync::Wait;
use std::{fmt, io};

/// A gate's socket, and the local endpoint that it was bound to.
#[derive(Drop)]
pub struct GateSocket {
    pub local: Endpoint,
    pub socket: UdpSocket,
}

/// Where a datagram came from, on which gate, and how many of its bytes stand at the front of the buffer.
#[derive(Clone, Copy)]
pub struct Came {
    pub gate: Gate,
    pub from: Endpoint,
    pub count: usize,
}

/// Why gates could not be bound: the one at fault, if it is one's fault, and the error of the system, or that memory ran out.
#[derive(Clone, Copy)]
pub struct Unbound {
    pub gate: Option<Endpoint>,
    pub error: io::Error,
}

impl From<io::Error> for Unbound {
    fn from(error: io::Error) -> Unbound {
        Unbound { gate: None, error }
    }
}

impl fmt::Display for Unbound {
    fn fmt<W: fmt::Write>(&self, f: &mut fmt::Formatter<W>) -> fmt::Result {
        let error = self.error;
        match self.gate.map(address_of) {
            Some(gate) => write!(f, "the gate {gate} could not be bound: {error}"),
            None => write!(f, "the gates could not be bound: {error}"),
        }
    }
}

/// Some endpoints, for people.
#[derive(Clone, Copy)]
pub struct Named<'a>(pub &'a [Endpoint]);

impl<'a> fmt::Display for Named<'a> {
    fn fmt<W: fmt::Write>(&self, f: &mut fmt::Formatter<W>) -> fmt::Result {
        let mut left = self.0.len();
        for local in self.0 {
            let address = address_of(*local);
            left = left.saturating_sub(1);
            match left {
                0 => write!(f, "{address}")?,
                1 => write!(f, "{address} and ")?,
                _ => write!(f, "{address}, ")?,
            }
        }
        Ok(())
    }
}

/// Puts sockets bound to these endpoints into an empty list, in order; the poll hears of them under the gates' numbers. At an error the
/// first of them may be there.
///
/// Waits: no. Memory: none.
pub fn open_gates<R: Net>(
    rt: &R,
    poll: &Poll,
    locals: &[Endpoint],
    gates: &mut Vec<GateSocket>,
) -> Result<(), Unbound>
    requires empty { gates.old.items ≡ [] }
    requires room { length locals.now ≤ vec_capacity gates.old }
    ensures bound { OnOk result (locals_of gates.new.items ≡ locals.now) }
    ensures capacity { vec_capacity gates.new ≡ vec_capacity gates.old }
{
    let mut at = 0;
    while at < locals.len() {
        if let Err(error) = open_gate(rt, poll, locals[at], Token(at), gates) {
            return Err(Unbound {
                gate: Some(locals[at]),
                error,
            });
        }
        at += 1;
    }
    Ok(())
}

// Appends a socket bound to this endpoint, of which the poll hears under this token.
fn open_gate<R: Net>(
    rt: &R,
    poll: &Poll,
    local: Endpoint,
    token: Token,
    gates: &mut Vec<GateSocket>,
) -> io::Result<()>
    requires { vec_len gates.old < vec_capacity gates.old }
    ensures bound { OnOk result (locals_of gates.new.items ≡ locals_of gates.old.items ++ local ∷ []) }
    ensures count { OnOk result (vec_len gates.new ≡ vec_len gates.old + 1) }
    ensures capacity { vec_capacity gates.new ≡ vec_capacity gates.old }
{
    let mut socket = UdpSocket::bind(rt, address_of(local))?;
    poll.registry()
        .register(&mut socket, token, Interest::READABLE)?;
    gates.push_reserved(GateSocket { local, socket });
    Ok(())
}

/// Asks each gate in turn for a datagram, beginning at that number, and gives the first that is there. `None` where no gate has one.
///
/// Waits: no. Memory: none.
pub fn look_at<R: Wait>(
    rt: &R,
    gates: &Vec<GateSocket>,
    first: u8,
    buffer: &mut [u8; 513],
) -> io::Result<Option<Came>>
    requires { vec_len gates.now ≤ 4 }
    ensures { IfOk result (λ came. IfSome came (λ c. (c.gate.0 < vec_len gates.now) × (c.count ≤ 513))) }
{
    let mut turn = 0;
    while turn < gates.len() {
        let at = (usize::from(first) + turn) % gates.len();
        if let Some((from, count)) = next_of(rt, &gates[at].socket, buffer)? {
            return Ok(Some(Came {
                gate: Gate(at as u8),
                from,
                count,
            }));
        }
        turn += 1;
    }
    Ok(None)
}

// The next datagram that is there, with how many of its bytes stand at the front of the buffer.
// Waits: no. Memory: none.
fn next_of<R: Wait>(
    rt: &R,
    socket: &UdpSocket,
    buffer: &mut [u8; 513],
) -> io::Result<Option<(Endpoint, usize)>>
    ensures { IfOk result (λ came. IfSome came (λ c. c.1 ≤ 513)) }
{
    for _ in rt.forever() {
        match taken_of(socket.recv_from(buffer))? {
            Taken::Datagram(from, count) => return Ok(Some((from, count))),
            Taken::Nothing => return Ok(None),
            Taken::Passed => {}
        }
    }
    unreachable!()
}
