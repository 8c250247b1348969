//! A port that notes what it meets.

ghost use Rattle.std.specs.Prelude.{◌≡◌, ◌<◌, ◌≤◌, length};
ghost use Rattle.lk_outside.specs.Arrivals.{IsAnswer, PostValue};
ghost use Rattle.lk_outside.specs.Port.{Binds, HasBindCause, HasReceiveCause, HasSendCause, Posts, Receives};
ghost use Rattle.serve_adapters.specs.Sighting.{no_sighting, sighting_after_bind, sighting_after_receive, sighting_after_send};

use crate::board::{Board, Sighting};
use lk_base::{Endpoint, Gate};
use lk_outside::{Arrival, Bound, Port, Posted};

/// A port that does as the one in it, and writes on a board what that one has met.
#[derive(Drop)]
pub struct NotedPort<'a, P: Port + Drop> {
    inner: P,
    board: &'a Board,
    noted: Sighting,
}

impl<'a, P: Port + Drop> NotedPort<'a, P> {
    /// The port and the board.
    ///
    /// Waits: no. Memory: none.
    pub fn new(inner: P, board: &'a Board) -> NotedPort<'a, P>
        ensures inner { result.inner ≡ inner }
        ensures noted { result.noted ≡ no_sighting }
    {
        NotedPort {
            inner,
            board,
            noted: Sighting::new(),
        }
    }

    /// The port in it.
    pub fn inner(&self) -> &P
        ensures { result.now ≡ self.now.inner }
    {
        &self.inner
    }
}

impl<'a, P: Port + Drop> Port for NotedPort<'a, P> {
    ghost seen = { λ port. P.Port.seen port.inner };

    fn bind(&mut self, gates: &[Endpoint]) -> Bound
        requires some { 0 < length gates.now }
        requires few { length gates.now ≤ 4 }
        ensures gates { Binds (P.Port.seen self.old.inner).gates (P.Port.seen self.new.inner).gates gates.now result }
        ensures contents { (P.Port.seen self.new.inner).told ≡ (P.Port.seen self.old.inner).told }
        ensures cause { HasBindCause (P.Port.seen self.old.inner).faults (P.Port.seen self.new.inner).faults result }

        // What is noted of it.
        ensures noted { self.new.noted ≡ sighting_after_bind result self.old.noted }
    {
        let bound = self.inner.bind(gates);
        self.noted.note_bind(bound);
        self.board.write(&self.noted);
        bound
    }

    fn receive(&mut self, until: i64) -> Arrival
        requires { 0 < length (P.Port.seen self.old.inner).gates }
        ensures answer { IsAnswer (length (P.Port.seen self.old.inner).gates) result }
        ensures contents { Receives (P.Port.seen self.old.inner).told (P.Port.seen self.new.inner).told result }
        ensures gates { (P.Port.seen self.new.inner).gates ≡ (P.Port.seen self.old.inner).gates }
        ensures cause { HasReceiveCause (P.Port.seen self.old.inner).faults (P.Port.seen self.new.inner).faults result }

        // What is noted of it.
        ensures noted { self.new.noted ≡ sighting_after_receive until result self.old.noted }
    {
        let arrival = self.inner.receive(until);
        self.noted.note_receive(until, &arrival);
        self.board.write(&self.noted);
        arrival
    }

    fn send(&mut self, gate: Gate, to: Endpoint, bytes: &[u8]) -> Posted
        requires { gate.0 < length (P.Port.seen self.old.inner).gates }
        ensures contents { Posts (P.Port.seen self.old.inner).told (P.Port.seen self.new.inner).told
            (record { gate = gate; to = to; bytes = bytes.now }) result }
        ensures gates { (P.Port.seen self.new.inner).gates ≡ (P.Port.seen self.old.inner).gates }
        ensures cause { HasSendCause (P.Port.seen self.old.inner).faults (P.Port.seen self.new.inner).faults result }

        // What is noted of it.
        ensures noted { self.new.noted ≡ sighting_after_send gate result self.old.noted }
    {
        let posted = self.inner.send(gate, to, bytes);
        self.noted.note_send(gate, posted);
        if posted != Posted::Sent {
            self.board.write(&self.noted);
        }
        posted
    }
}
