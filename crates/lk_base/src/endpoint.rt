//! Where datagrams come from and go to.

ghost use Rattle.std.specs.Prelude.{◌≡◌};
ghost use Rattle.lk_base.specs.Endpoint.{endpoint_lt, gate_lt};

use crate::ids::NodeId;

/// One of a node's own sockets, by number from 0.
#[derive(Clone, Copy, Debug, PartialEq, Eq, PartialOrd, Ord)]
pub struct Gate(pub u8);

impl Gate {
    /// Whether its number is less than another's.
    pub fn is_before(&self, other: &Gate) -> bool
        ensures { result ≡ gate_lt self.now other.now }
    {
        self.cmp(other).is_lt()
    }
}

/// An IPv4 address and a UDP port; the address's first part is its most significant byte.
#[derive(Clone, Copy, Debug, Default, PartialEq, Eq, PartialOrd, Ord)]
pub struct Endpoint {
    pub addr: u32,
    pub port: u16,
}

impl Endpoint {
    /// Whether it comes before another endpoint, by the address, and by the port where that is the same.
    pub fn is_before(&self, other: &Endpoint) -> bool
        ensures { result ≡ endpoint_lt self.now other.now }
    {
        self.cmp(other).is_lt()
    }
}

/// The peer that a measurement pings: the gate that it was seen on, its id, and where it answers.
#[derive(Clone, Copy, Debug, PartialEq, Eq)]
pub struct Target {
    pub gate: Gate,
    pub id: NodeId,
    pub endpoint: Endpoint,
}
