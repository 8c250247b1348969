//! A port that tells when it is over and when it sends, and a pace that holds commands until it is over.

ghost use Rattle.std.specs.Prelude.{None};
ghost use Rattle.lk_outside.specs.ListPort.{seen_of};

use super::flags::{has_come, raise};
use lk_base::{Endpoint, Gate};
use lk_outside::{Arrival, Bound, ListPort, Pace, Port, Posted};
use std::sync::atomic::AtomicU64;

/// How often the pace looks whether the port is over, in a call at most.
const LOOKS: u64 = 2_000_000_000;

/// A port in memory that raises a count once it is closed or one of its calls has failed, and another one at each send.
#[derive(Drop)]
pub struct Telling<'a> {
    pub port: ListPort,
    pub over: &'a AtomicU64,
    pub sent: &'a AtomicU64,
}

impl<'a> Port for Telling<'a> {
    ghost seen = { λ telling. seen_of telling.port };

    fn bind(&mut self, gates: &[Endpoint]) -> Bound {
        let bound = self.port.bind(gates);
        raise_where(self.over, matches!(bound, Bound::Failed));
        bound
    }

    fn receive(&mut self, until: i64) -> Arrival {
        let arrival = self.port.receive(until);
        raise_where(
            self.over,
            matches!(&arrival, Arrival::Closed | Arrival::Failed),
        );
        arrival
    }

    fn send(&mut self, gate: Gate, to: Endpoint, bytes: &[u8]) -> Posted {
        let posted = self.port.send(gate, to, bytes);
        raise_where(self.over, matches!(posted, Posted::Failed));
        raise(self.sent);
        posted
    }
}

fn raise_where(over: &AtomicU64, is_over: bool) {
    if is_over {
        raise(over);
    }
}

/// A pace that answers each moment as asked: the one of the opening at once, and those of commands once the count is raised.
#[derive(Drop)]
pub struct Holding<'a> {
    over: &'a AtomicU64,
    opened: bool,
}

impl<'a> Holding<'a> {
    /// A pace that wasn't asked yet.
    pub fn new(over: &'a AtomicU64) -> Holding<'a> {
        Holding {
            over,
            opened: false,
        }
    }
}

impl<'a> Pace for Holding<'a> {
    ghost late = { λ _. None };

    fn until(&mut self, moment: i64) -> i64 {
        if self.opened {
            let _over = has_come(self.over, 1, LOOKS);
        }
        self.opened = true;
        moment
    }
}
