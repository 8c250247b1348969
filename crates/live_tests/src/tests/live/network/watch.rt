//! A port in memory that notes until when it was asked to wait.

ghost use Rattle.lk_outside.specs.ListPort.{seen_of};

use arrayvec::ArrayVec;
use lk_base::{Endpoint, Gate};
use lk_outside::{Arrival, Bound, ListPort, Port, Posted};

/// The moments until which a port was asked to wait.
pub type Untils = ArrayVec<i64, 64>;

/// A port in memory, and until when each of its first 64 receives was to wait.
#[derive(Drop)]
pub struct Watch {
    pub port: ListPort,
    pub untils: Untils,
}

impl Port for Watch {
    ghost seen = { λ watch. seen_of watch.port };

    fn bind(&mut self, gates: &[Endpoint]) -> Bound {
        self.port.bind(gates)
    }

    fn receive(&mut self, until: i64) -> Arrival {
        let _room = self.untils.try_push(until);
        self.port.receive(until)
    }

    fn send(&mut self, gate: Gate, to: Endpoint, bytes: &[u8]) -> Posted {
        self.port.send(gate, to, bytes)
    }
}
