//! Talks over TCP.

ghost use Rattle.std.specs.Prelude.{◌≡◌, ◌<◌, ◌++◌, ◌==◌, length, None, IfOk, IsSome};
ghost use Rattle.lk_base.specs.Ranges.{IsMoment};
ghost use Rattle.lk_outside.specs.Faults.{Rose};
ghost use Rattle.lk_outside.specs.Port.{HasBindCause};
ghost use Rattle.lk_outside.specs.Talk.{Opens};
ghost use Rattle.lk_talks.specs.Talks.{HasAdmitCause, HasCause, HasHearCause, HasSayCause, HasWaitCause, IsHeard};
ghost use Rattle.serve_adapters.specs.Seat.{SendsOn};
ghost use Rattle.serve_adapters.specs.Waits.{waits_in};

use crate::hall::Hall;
use link_adapters::HostClock;
use lk_base::Endpoint;
use lk_outside::Bound;
use lk_talks::{Admitted, Heard, Said, Talks, Waited};
use std::alloc::Global;
use std::io;
use std::net::Net;
use std::time::Clock;

/// Talks with clients that come over TCP to an endpoint. What is said to a client waits for it, up to 65,536 bytes; one that doesn't read
/// them isn't there any more. Only a descriptor that is gone and a clock that tells no time are faults. What goes on is told on standard
/// error when it happens.
#[derive(Drop)]
pub struct TcpTalks<R: Net + Clock + Eprint + Input + Copy + Drop> {
    hall: Hall<R>,
    opened: Option<Endpoint>,
    faults: u64,
}

impl<R: Net + Clock + Eprint + Input + Copy + Drop> TcpTalks<R> {
    /// Talks that aren't opened, by this clock, which `rt` reads. With a `secret`, a client has no seat until its first line is `hello` and
    /// that word, which is answered `ok`: any other line is answered `bad secret`, and ends it, as ten seconds without a line do. With
    /// `until_input_ends` serving is to end once standard input has ended; one that never keeps its reader waiting, as a file, has. The
    /// error is the system's, or that memory ran out.
    ///
    /// Waits: no. Memory: all that is ever taken here.
    pub fn new(
        rt: R,
        alloc: Global,
        clock: HostClock,
        secret: Option<Vec<u8>>,
        until_input_ends: bool,
    ) -> io::Result<Self>
        ensures opened { IfOk result (λ talks. talks.opened ≡ None) }
        ensures faultless { IfOk result (λ talks. talks.faults ≡ 0) }
    {
        Ok(TcpTalks {
            hall: Hall::new(rt, alloc, clock, secret, until_input_ends)?,
            opened: None,
            faults: 0,
        })
    }

    // Counts a call that failed.
    fn fail(&mut self)
        ensures rose { Rose self.old.faults self.new.faults }
        ensures opened { self.new.opened ≡ self.old.opened }
    {
        self.faults = self.faults.saturating_add(1);
    }
}

impl<R: Net + Clock + Eprint + Input + Copy + Drop> Talks for TcpTalks<R> {
    ghost seen = { λ talks. record { passed = None; opened = talks.opened; faults = talks.faults } };

    // Clients of before stay. Waits: no. Memory: none. Tells how it came out.
    fn listen(&mut self, at: Endpoint) -> Bound
        ensures opened { Opens self.old.opened self.new.opened at result }
        ensures cause { HasBindCause self.old.faults self.new.faults result }
    {
        match self.hall.open(at) {
            Ok(()) => {
                self.opened = Some(at);
                Bound::Ready
            }
            Err(error) => {
                self.fail();
                self.hall.tell_deaf(at, error);
                Bound::Failed
            }
        }
    }

    // Waits: until that moment. Memory: none.
    fn wait(&mut self, until: i64) -> Waited
        requires moment { IsMoment until }
        requires opened { IsSome self.old.opened }
        ensures opened { self.new.opened ≡ self.old.opened }
        ensures cause { HasWaitCause self.old.faults self.new.faults result }
    {
        if self.hall.has_ended() {
            return Waited::Closed;
        }
        if let Err(error) = self.hall.pass(until) {
            self.fail();
            self.hall.tell_failed(error);
            return Waited::Failed;
        }
        if self.hall.has_ended() {
            Waited::Closed
        } else {
            Waited::Went
        }
    }

    // Waits: no. Memory: none.
    fn admit(&mut self, seat: u8) -> Admitted
        requires seat { seat < 15 }
        requires opened { IsSome self.old.opened }
        ensures opened { self.new.opened ≡ self.old.opened }
        ensures cause { HasAdmitCause self.old.faults self.new.faults result }
    {
        if self.hall.seat_one(seat) {
            Admitted::Came
        } else {
            Admitted::Nobody
        }
    }

    // Waits: no. Memory: none.
    fn turn_away(&mut self) -> bool
        requires opened { IsSome self.old.opened }
        ensures opened { self.new.opened ≡ self.old.opened }
        ensures cause { HasCause self.old.faults self.new.faults result }
    {
        self.hall.turn_away();
        true
    }

    // Waits: no. Memory: none.
    fn hear(&mut self, seat: u8, buf: &mut [u8]) -> Heard
        requires seat { seat < 15 }
        requires some { 0 < length buf.old }
        requires opened { IsSome self.old.opened }
        ensures heard { IsHeard (length buf.new) result }
        ensures opened { self.new.opened ≡ self.old.opened }
        ensures cause { HasHearCause self.old.faults self.new.faults result }

        // A client is never a fault.
        ensures fault { ¬ (result ≡ Heard.Failed) }
    {
        self.hall.hear(seat, buf)
    }

    // Waits: no. Memory: none.
    fn say(&mut self, seat: u8, bytes: &[u8]) -> Said
        requires seat { seat < 15 }
        requires opened { IsSome self.old.opened }
        ensures opened { self.new.opened ≡ self.old.opened }
        ensures cause { HasSayCause self.old.faults self.new.faults result }

        // A client is never a fault.
        ensures fault { ¬ (result ≡ Said.Failed) }

        // What is taken goes out behind all that was said before.
        ensures on_its_way { result ≡ Said.Taken →
            SendsOn (waits_in self.old.hall.seats.items seat ++ bytes.now) (waits_in self.new.hall.seats.items seat) }
    {
        self.hall.say(seat, bytes)
    }

    // Waits: no. Memory: none.
    fn shut(&mut self, seat: u8) -> bool
        requires seat { seat < 15 }
        requires opened { IsSome self.old.opened }
        ensures opened { self.new.opened ≡ self.old.opened }
        ensures cause { HasCause self.old.faults self.new.faults result }
    {
        self.hall.shut(seat);
        true
    }

    fn is_clear(&mut self, seat: u8) -> bool
        requires seat { seat < 15 }
        ensures faults { self.new.faults ≡ self.old.faults }
        ensures opened { self.new.opened ≡ self.old.opened }

        // Of the seat.
        ensures clear { result ≡ (length (waits_in self.new.hall.seats.items seat) == 0) }
    {
        self.hall.is_clear(seat)
    }
}
