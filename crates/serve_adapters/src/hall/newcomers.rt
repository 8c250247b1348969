//! Newcomers, until they have a seat.

ghost use Rattle.std.specs.Prelude.{◌≡◌, ◌<◌, ◌≤◌, take, true, false};
ghost use Rattle.lk_base.specs.Ranges.{IsMoment};
ghost use Rattle.serve_adapters.specs.Greeting.{Greets};

use super::places::{newcomer_token, seat_token};
use super::{Hall, Newcomer};
use crate::greeting::{FIRST, Greeting, greeting_of};
use crate::telling::{Refusal, tell_came, tell_not_let_in, tell_refused};
use link_adapters::waited_of;
use mio::Interest;
use mio::net::TcpStream;
use std::io;
use std::io::{ErrorKind, Read, Write};
use std::net::{Net, Shutdown, SocketAddr};
use std::time::Clock;

/// How long a newcomer's first line is waited for, in microseconds.
const PATIENCE: i64 = 10_000_000;

/// What becomes of a newcomer.
#[derive(Clone, Copy)]
enum Fate {
    /// It stays.
    Stays,
    /// It is turned away.
    Refused(Refusal),
}

impl<R: Net + Clock + Eprint + Input + Copy + Drop> Hall<R> {
    /// Lets in who is there, as far as there are places. The error is one of a listener that is gone.
    ///
    /// Waits: no. Memory: none.
    pub fn let_in(&mut self, now: i64) -> io::Result<()>
        requires { IsMoment now }
    {
        for at in 0..15 {
            if self.queued && self.newcomers[at].is_none() {
                self.let_one_in(at, now)?;
            }
        }
        Ok(())
    }

    // Lets the next one in to a place.
    fn let_one_in(&mut self, at: usize, now: i64) -> io::Result<()>
        requires at { at < 15 }
        requires now { IsMoment now }
    {
        let Some(listener) = &self.listener else {
            self.queued = false;
            return Ok(());
        };
        match listener.accept() {
            Ok((stream, from)) => {
                self.troubled = false;
                self.settle(at, stream, from, now);
                Ok(())
            }
            Err(error) if error.kind() == ErrorKind::WouldBlock => {
                self.queued = false;
                Ok(())
            }
            Err(error) => {
                self.note_trouble(error);
                waited_of(Err(error))
            }
        }
    }

    // Tells that nobody can be let in, once until somebody is.
    fn note_trouble(&mut self, error: io::Error) {
        if !self.troubled {
            self.troubled = true;
            tell_not_let_in(&self.rt, error);
        }
    }

    // Gives a newcomer its place.
    fn settle(&mut self, at: usize, stream: TcpStream, from: SocketAddr, now: i64)
        requires at { at < 15 }
        requires now { IsMoment now }
    {
        let mut stream = stream;
        // Without this option an answer may just come later.
        let _hurried = stream.set_nodelay(true);
        let registered = self
            .poll
            .registry()
            .register(&mut stream, newcomer_token(at), Interest::READABLE);
        if let Err(error) = registered {
            tell_not_let_in(&self.rt, error);
            return;
        }
        self.newcomers[at] = Some(Newcomer {
            stream,
            from,
            until: now + PATIENCE,
            ready: true,
            greeted: self.secret.is_none(),
        });
    }

    /// Hears the first lines of newcomers, as far as they are there, and turns away who didn't say the right one in time.
    ///
    /// Waits: no. Memory: none.
    pub fn hear_newcomers(&mut self, now: i64) {
        for at in 0..15 {
            let fate = match (&mut self.newcomers[at], &self.secret) {
                (Some(newcomer), Some(word)) => newcomer.hear(word, now),
                _ => Fate::Stays,
            };
            if let Fate::Refused(refusal) = fate {
                self.refuse(at, refusal);
            }
        }
    }

    /// Gives a seat to a newcomer, if one is there that may have it.
    ///
    /// Waits: no. Memory: none.
    pub fn seat_one(&mut self, seat: u8) -> bool
        requires { seat < 15 }
    {
        for at in 0..15 {
            if self.may_sit(at) {
                return self.seat_from(at, seat);
            }
        }
        false
    }

    // Gives a newcomer its seat.
    fn seat_from(&mut self, at: usize, seat: u8) -> bool
        requires at { at < 15 }
        requires seat { seat < 15 }
    {
        let Some(newcomer) = self.newcomers[at].take() else {
            return false;
        };
        let place = usize::from(seat);
        let Newcomer { stream, from, .. } = newcomer;
        let mut stream = stream;
        let registered = self.poll.registry().reregister(
            &mut stream,
            seat_token(place),
            Interest::READABLE | Interest::WRITABLE,
        );
        if let Err(error) = registered {
            tell_not_let_in(&self.rt, error);
            return false;
        }
        self.seats[place].seat(stream, from);
        if self.secret.is_some() {
            let _parting = self.seats[place].say(b"ok\n");
        }
        tell_came(&self.rt, seat, from, self.present());
        true
    }

    /// Turns away every newcomer that might have a seat.
    ///
    /// Waits: no. Memory: none.
    pub fn turn_away(&mut self) {
        for at in 0..15 {
            if self.may_sit(at) {
                self.refuse(at, Refusal::Full);
            }
        }
    }

    // Whether there is a newcomer in a place that may have a seat.
    fn may_sit(&self, at: usize) -> bool
        requires { at < 15 }
    {
        match &self.newcomers[at] {
            Some(newcomer) => newcomer.greeted,
            None => false,
        }
    }

    // Tells a newcomer why it is turned away, and everyone.
    fn refuse(&mut self, at: usize, refusal: Refusal)
        requires { at < 15 }
    {
        if let Some(newcomer) = self.newcomers[at].take() {
            let from = newcomer.from;
            newcomer.dismiss(farewell(refusal));
            tell_refused(&self.rt, from, refusal);
        }
    }
}

impl Newcomer {
    // Hears its first line, as far as it is there.
    fn hear(&mut self, word: &[u8], now: i64) -> Fate {
        if self.greeted {
            return Fate::Stays;
        }
        if self.until <= now {
            return Fate::Refused(Refusal::Silence);
        }
        if !self.ready {
            return Fate::Stays;
        }
        self.ready = false;
        let mut front = [0u8; FIRST];
        match self.stream.peek(&mut front) {
            Ok(0) => Fate::Refused(Refusal::Gone),
            Ok(count) => self.greet(&mut front, count, word),
            Err(error) if error.kind() == ErrorKind::WouldBlock => Fate::Stays,
            Err(_) => Fate::Refused(Refusal::Gone),
        }
    }

    // Takes the line off, if so many first bytes of what it sent have the right one.
    fn greet(&mut self, front: &mut [u8; FIRST], count: usize, word: &[u8]) -> Fate
        requires { count ≤ 130 }
        ensures { self.old.greeted ≡ false → self.new.greeted ≡ true → Greets (take count front.old) word.now }
    {
        match greeting_of(&front[..count], word) {
            Greeting::Waits => Fate::Stays,
            Greeting::Wrong => Fate::Refused(Refusal::Word),
            Greeting::Right(line) => match self.stream.read(&mut front[..line]) {
                Ok(taken) if taken == line => {
                    self.greeted = true;
                    Fate::Stays
                }
                _ => Fate::Refused(Refusal::Gone),
            },
        }
    }

    // Says the last to it. What it sent is read before, as far as it is there: else the system might break the stream before that is read.
    fn dismiss(self, farewell: &[u8]) {
        let mut stream = self.stream;
        let mut rest = [0u8; 4096];
        let _read = stream.read(&mut rest);
        let _written = stream.write(farewell);
        let _shut = stream.shutdown(Shutdown::Write);
    }
}

// What a client is told that is turned away.
fn farewell(refusal: Refusal) -> &'static [u8] {
    match refusal {
        Refusal::Full => b"full\n",
        Refusal::Word => b"bad secret\n",
        Refusal::Silence => b"bad secret\n",
        Refusal::Gone => b"",
    }
}
