//! A port over UDP sockets.

mod address;
mod gates;
mod refusal;
mod refused;

ghost use Rattle.std.specs.Prelude.{◌≡◌, ◌<◌, ◌≤◌, [], length, take, vec_capacity, vec_len, None, IfOk, IfSome, OnErr, MatchOption};
ghost use Rattle.lk_base.specs.declared.endpoint.Endpoint.{Endpoint};
ghost use Rattle.lk_outside.specs.Arrivals.{IsAnswer, PostValue};
ghost use Rattle.lk_outside.specs.Port.{Binds, HasBindCause, Receives, HasReceiveCause, Posts, HasSendCause};
ghost use Rattle.link_adapters.specs.Sockets.{IsFromTime, IsInBuffer, IsTurnAfter, locals_of};

use crate::HostClock;
use crate::about::About;
use crate::host_clock::span;
pub use address::{address_of, endpoint_of};
use gates::{Came, GateSocket, Named, Unbound, look_at, open_gates};
use lk_base::{Endpoint, Gate, MOMENT_MAX, Wire, append};
use lk_outside::{Arrival, Bound, Port, Posted};
use mio::{Events, Poll};
pub use refusal::{Taken, posted_of, taken_of, waited_of};
pub use refused::RefusedSends;
use std::alloc::Global;
use std::io;
use std::mem::swap;
use std::net::Net;
use std::sync::Wait;
use std::time::Clock;

/// How many gates there are at most, and how many events one wait hears of.
const GATES: usize = 4;

/// A UDP socket for each gate, which sends and receives without waiting. No option of a socket is set but that one. What goes wrong is told
/// on standard error when it happens; datagrams that the system refuses are counted, to be told at the end.
#[derive(Drop)]
pub struct UdpPort<R: Net + Clock + Wait + Eprint + Copy + Drop> {
    rt: R,
    clock: HostClock,
    about: About,
    gates: Vec<GateSocket>,
    // Room for the gates of the next bind, so that it takes no memory.
    spare: Vec<GateSocket>,
    // Hears of the sockets of the gates.
    poll: Poll,
    events: Events<Global>,
    // The gate that is asked first.
    first: u8,
    // What a receive wrote last.
    buffer: [u8; 513],
    refused: RefusedSends,
    faults: u64,
    ghost few: { vec_len gates ≤ 4 },
    ghost room: { (4 ≤ vec_capacity gates) × (4 ≤ vec_capacity spare) },
    ghost empty: { spare.items ≡ [] },
}

impl<R: Net + Clock + Wait + Eprint + Copy + Drop> UdpPort<R> {
    /// A port with no gate, by this clock, which `rt` reads; at a bind it tells of the run what is given here. The error is the system's,
    /// or that memory ran out.
    ///
    /// Waits: no. Memory: two lists of gates, the list of events, and the counts of what the system refuses.
    pub fn new(rt: R, alloc: Global, clock: HostClock, about: About) -> io::Result<Self>
        ensures gates { IfOk result (λ port. locals_of port.gates.items ≡ []) }
        ensures faultless { IfOk result (λ port. port.faults ≡ 0) }
        ensures given { IfOk result (λ port. (port.clock ≡ clock) × (port.about ≡ about)) }
    {
        let poll = Poll::new(&rt)?;
        let events = Events::with_capacity(alloc, GATES)?;
        let refused = RefusedSends::new(alloc)?;
        let gates = Vec::with_capacity(alloc, GATES)?;
        let spare = Vec::with_capacity(alloc, GATES)?;
        Ok(UdpPort {
            rt,
            clock,
            about,
            gates,
            spare,
            poll,
            events,
            first: 0,
            buffer: [0; 513],
            refused,
            faults: 0,
        })
    }

    /// Prints on standard error what the system refused to send, in a line for each of the first 32 destinations.
    pub fn tell_refused(&self) {
        self.refused.tell(&self.rt, self.about.program);
    }

    // Sockets in place of those of before. At an error those stay.
    // Waits: no. Memory: none.
    fn rebind(&mut self, locals: &[Endpoint]) -> Result<(), Unbound>
        requires { length locals.now ≤ 4 }
        ensures gates { IfOk result (λ _. locals_of self.new.gates.items ≡ locals.now) }
        ensures kept { OnErr result (self.new.gates ≡ self.old.gates) }
        ensures faults { self.new.faults ≡ self.old.faults }
    {
        let poll = Poll::new(&self.rt)?;
        let opened = open_gates(&self.rt, &poll, locals, &mut self.spare);
        if opened.is_ok() {
            swap(&mut self.gates, &mut self.spare);
            self.poll = poll;
        }
        self.spare.clear();
        opened
    }

    // Tells that these gates are bound, and of the run.
    fn tell_bound(&self, locals: &[Endpoint]) {
        let rt = &self.rt;
        let gates = Named(locals);
        let about = self.about;
        let (program, command) = (about.program, about.command);
        let _printed = eprintln!(rt; "{program}: {command} at {gates}; {about}");
    }

    // Tells why no gates could be bound, and of the run.
    fn tell_unbound(&self, unbound: Unbound) {
        let rt = &self.rt;
        let about = self.about;
        let (program, command) = (about.program, about.command);
        let _printed = eprintln!(rt; "{program}: {unbound}; the run goes on without the network");
        let _told = eprintln!(rt; "{program}: {command} without the network; {about}");
    }

    // Takes note of a datagram that wasn't sent: one that the system refused is counted by its destination; of a port that failed it is
    // told at once.
    // Waits: no. Memory: none.
    fn note_unsent(&mut self, to: Endpoint, posted: Posted, error: io::Error)
        ensures cause { HasSendCause self.old.faults self.new.faults posted }
        ensures gates { self.new.gates ≡ self.old.gates }
        ensures turn { self.new.first ≡ self.old.first }
    {
        if posted == Posted::Failed {
            self.faults = self.faults.saturating_add(1);
            let rt = &self.rt;
            let to = address_of(to);
            let program = self.about.program;
            let _printed = eprintln!(rt;
                "{program}: a send to {to} failed: {error}; the run goes on without the network"
            );
        } else {
            self.refused.count(to, error);
        }
    }

    // What comes until a moment, in microseconds.
    // Waits: for a datagram, until that moment. Memory: none.
    fn arrival(&mut self, until: i64) -> io::Result<Arrival>
        ensures answer { IfOk result (IsAnswer (vec_len self.old.gates)) }
        ensures cause { IfOk result (HasReceiveCause self.old.faults self.new.faults) }
        ensures time { IfOk result (IsFromTime until) }
        ensures turn { IfOk result (IsTurnAfter self.old.first self.new.first) }
        ensures bytes { IfOk result (IsInBuffer self.new.buffer) }
        ensures failed { OnErr result (self.new.first ≡ self.old.first) }
        ensures gates { self.new.gates ≡ self.old.gates }
        ensures faults { self.new.faults ≡ self.old.faults }
    {
        let rt = self.rt;
        for _ in rt.forever() {
            if let Some(arrival) = self.attempt(until)? {
                return Ok(arrival);
            }
        }
        unreachable!()
    }

    // What has come, or that nothing has until now and it is that late. `None` after a wait, at the end of which something may have come.
    // Waits: for a datagram, until that moment. Memory: none.
    fn attempt(&mut self, until: i64) -> io::Result<Option<Arrival>>
        ensures answer { IfOk result (λ came. IfSome came (IsAnswer (vec_len self.old.gates))) }
        ensures cause { IfOk result (λ came. IfSome came (HasReceiveCause self.old.faults self.new.faults)) }
        ensures time { IfOk result (λ came. IfSome came (IsFromTime until)) }
        ensures turn { IfOk result (λ came. MatchOption came (self.new.first ≡ self.old.first) (IsTurnAfter self.old.first self.new.first)) }
        ensures bytes { IfOk result (λ came. IfSome came (IsInBuffer self.new.buffer)) }
        ensures failed { OnErr result (self.new.first ≡ self.old.first) }
        ensures gates { self.new.gates ≡ self.old.gates }
        ensures faults { self.new.faults ≡ self.old.faults }
    {
        let came = look_at(&self.rt, &self.gates, self.first, &mut self.buffer)?;
        let now = self.clock.moment(&self.rt)?;
        if let Some(Came { gate, from, count }) = came {
            self.first = gate.0 + 1;
            let bytes = wire_of(&self.buffer, count);
            return Ok(Some(Arrival::Datagram {
                gate,
                from,
                bytes,
                now,
            }));
        }
        if until <= now || now == MOMENT_MAX {
            return Ok(Some(Arrival::Idle(now)));
        }
        waited_of(self.poll.poll(&mut self.events, Some(span(now, until))))?;
        Ok(None)
    }
}

impl<R: Net + Clock + Wait + Eprint + Copy + Drop> Port for UdpPort<R> {
    ghost seen = { λ port. record { told = None; gates = locals_of port.gates.items; faults = port.faults } };

    // The new sockets are bound before those of before are closed, so that these stay at a failure: a gate of before is in use.
    // Waits: no. Memory: none. Tells how it came out.
    fn bind(&mut self, gates: &[Endpoint]) -> Bound
        requires some { 0 < length gates.now }
        requires few { length gates.now ≤ 4 }
        ensures gates { Binds (locals_of self.old.gates.items) (locals_of self.new.gates.items) gates.now result }
        ensures cause { HasBindCause self.old.faults self.new.faults result }
    {
        match self.rebind(gates) {
            Ok(()) => {
                self.tell_bound(gates);
                Bound::Ready
            }
            Err(unbound) => {
                self.faults = self.faults.saturating_add(1);
                self.tell_unbound(unbound);
                Bound::Failed
            }
        }
    }

    // Waits: for a datagram, until that moment. Memory: none.
    fn receive(&mut self, until: i64) -> Arrival
        requires { 0 < length (locals_of self.old.gates.items) }
        ensures answer { IsAnswer (length (locals_of self.old.gates.items)) result }
        ensures contents { Receives None None result }
        ensures gates { locals_of self.new.gates.items ≡ locals_of self.old.gates.items }
        ensures cause { HasReceiveCause self.old.faults self.new.faults result }

        // It isn't idle early, and it never closes.
        ensures time { IsFromTime until result }

        // The gate behind the one that answered is asked first the next time.
        ensures turn { IsTurnAfter self.old.first self.new.first result }

        // The bytes are those that the last receive wrote.
        ensures bytes { IsInBuffer self.new.buffer result }
    {
        match self.arrival(until) {
            Ok(arrival) => arrival,
            Err(error) => {
                self.faults = self.faults.saturating_add(1);
                let rt = &self.rt;
                let program = self.about.program;
                let _printed = eprintln!(rt;
                    "{program}: a receive failed: {error}; the run goes on without the network"
                );
                Arrival::Failed
            }
        }
    }

    // Waits: no. Memory: none.
    fn send(&mut self, gate: Gate, to: Endpoint, bytes: &[u8]) -> Posted
        requires { gate.0 < length (locals_of self.old.gates.items) }
        ensures contents { Posts None None (record { gate = gate; to = to; bytes = bytes.now }) result }
        ensures gates { locals_of self.new.gates.items ≡ locals_of self.old.gates.items }
        ensures cause { HasSendCause self.old.faults self.new.faults result }
        ensures turn { self.new.first ≡ self.old.first }

        // A datagram that goes out changes no count.
        ensures quiet { result ≡ Posted.Sent → self.new.refused ≡ self.old.refused }
    {
        let sent = self.gates[usize::from(gate.0)]
            .socket
            .send_to(bytes, address_of(to));
        let posted = posted_of(&sent);
        if let Err(error) = sent {
            self.note_unsent(to, posted, error);
        }
        posted
    }
}

// The first bytes of a buffer.
fn wire_of(buffer: &[u8; 513], count: usize) -> Wire
    requires { count ≤ 513 }
    ensures { result.items ≡ take count buffer.now }
{
    let mut bytes = Wire::new();
    append(&mut bytes, &buffer[..count]);
    bytes
}
