//! Where datagrams come from and go to.

ghost use Rattle.std.specs.Prelude.{◌≡◌, ◌<◌, ◌≤◌, length};
ghost use Rattle.lk_outside.specs.Arrivals.{IsAnswer, PostValue};
ghost use Rattle.lk_outside.specs.Port.{PortSeen, Binds, HasBindCause, Receives, HasReceiveCause, Posts, HasSendCause};

use lk_base::{Endpoint, Gate, Wire};

/// What binding answers.
#[derive(Clone, Copy, Debug, PartialEq, Eq)]
pub enum Bound {
    /// The gates are bound.
    Ready,
    /// The port failed, and counted it. The gates bound are those of before.
    Failed,
}

/// What a receive answers.
#[derive(Debug, Drop)]
pub enum Arrival {
    /// A datagram came on a gate from an endpoint.
    Datagram {
        gate: Gate,
        from: Endpoint,
        bytes: Wire,
        /// The moment of its arrival, in microseconds.
        now: i64,
    },
    /// Nothing came until this moment, in microseconds.
    Idle(i64),
    /// Nothing will come any more.
    Closed,
    /// The port failed, and counted it. Nothing was taken.
    Failed,
}

/// What a send answers.
#[derive(Clone, Copy, Debug, PartialEq, Eq)]
pub enum Posted {
    /// The datagram went out.
    Sent,
    /// The system refused this datagram, which is no fault.
    Dropped,
    /// The port failed, and counted it. Nothing was posted.
    Failed,
}

/// The sockets of a node, one a gate, numbered from 0.
pub trait Port {
    /// The arrivals left, those given and the datagrams posted, where the port tells them; the local endpoints of the gates bound, in
    /// order; and how often a call has failed. That count never falls, and stays at its type's last value.
    ghost seen: { Self → PortSeen };

    /// Binds one gate to each of these local endpoints, in place of those bound before.
    fn bind(&mut self, gates: &[Endpoint]) -> Bound
        requires some { 0 < length gates.now }
        requires few { length gates.now ≤ 4 }
        ensures gates { Binds (seen self.old).gates (seen self.new).gates gates.now result }
        ensures contents { (seen self.new).told ≡ (seen self.old).told }
        ensures cause { HasBindCause (seen self.old).faults (seen self.new).faults result };

    /// The next datagram that comes on any gate, or that none came until the moment `until`, in microseconds.
    fn receive(&mut self, until: i64) -> Arrival
        requires { 0 < length (seen self.old).gates }
        ensures answer { IsAnswer (length (seen self.old).gates) result }
        ensures contents { Receives (seen self.old).told (seen self.new).told result }
        ensures gates { (seen self.new).gates ≡ (seen self.old).gates }
        ensures cause { HasReceiveCause (seen self.old).faults (seen self.new).faults result };

    /// Sends a datagram from a gate to an endpoint.
    fn send(&mut self, gate: Gate, to: Endpoint, bytes: &[u8]) -> Posted
        requires { gate.0 < length (seen self.old).gates }
        ensures contents { Posts (seen self.old).told (seen self.new).told
            (record { gate = gate; to = to; bytes = bytes.now }) result }
        ensures gates { (seen self.new).gates ≡ (seen self.old).gates }
        ensures cause { HasSendCause (seen self.old).faults (seen self.new).faults result };
}
