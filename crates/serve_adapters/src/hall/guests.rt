//! The guests in their seats.

ghost use Rattle.std.specs.Prelude.{◌≡◌, ◌<◌, ◌≤◌, ◌++◌, ◌==◌, length};
ghost use Rattle.lk_talks.specs.Talks.{IsHeard};
ghost use Rattle.serve_adapters.specs.Seat.{SendsOn};
ghost use Rattle.serve_adapters.specs.Waits.{waits_in};

use super::Hall;
use crate::answers::heard_of;
use crate::telling::{Parting, tell_parted};
use lk_talks::{Heard, Said};
use std::net::Net;
use std::time::Clock;

impl<R: Net + Clock + Eprint + Input + Copy + Drop> Hall<R> {
    /// Takes what the guest in a seat sent next, as far as it is there. Where nobody is in it, that one left.
    ///
    /// Waits: no. Memory: none.
    pub fn hear(&mut self, seat: u8, buf: &mut [u8]) -> Heard
        requires seat { seat < 15 }
        requires some { 0 < length buf.old }
        ensures heard { IsHeard (length buf.new) result }
        ensures fault { ¬ (result ≡ Heard.Failed) }
    {
        let at = usize::from(seat);
        if !self.seats[at].is_taken() {
            return Heard::Left;
        }
        let Some(read) = self.seats[at].read(buf) else {
            return Heard::Nothing;
        };
        let heard = heard_of(&read);
        if heard == Heard::Left {
            self.part(
                seat,
                match read {
                    Ok(_) => Parting::Left,
                    Err(error) => Parting::Broke(error),
                },
            );
        }
        heard
    }

    /// Says these bytes to the guest in a seat: all of them go on their way, or none. One for whom there is no room left isn't there any
    /// more, nor is one whose stream broke.
    ///
    /// Waits: no. Memory: none.
    pub fn say(&mut self, seat: u8, bytes: &[u8]) -> Said
        requires { seat < 15 }
        ensures fault { ¬ (result ≡ Said.Failed) }
        ensures on_its_way { result ≡ Said.Taken →
            SendsOn (waits_in self.old.seats.items seat ++ bytes.now) (waits_in self.new.seats.items seat) }
    {
        let at = usize::from(seat);
        if !self.seats[at].is_taken() {
            return Said::Left;
        }
        match self.seats[at].say(bytes) {
            None => Said::Taken,
            Some(parting) => {
                self.part(seat, parting);
                Said::Left
            }
        }
    }

    /// Lets the guest in a seat go. What waits for it goes out as far as the system takes it at once.
    ///
    /// Waits: no. Memory: none.
    pub fn shut(&mut self, seat: u8)
        requires { seat < 15 }
    {
        self.flush(seat);
        self.part(seat, Parting::Shut);
    }

    /// Whether nothing waits for the guest in a seat.
    pub fn is_clear(&self, seat: u8) -> bool
        requires { seat < 15 }
        ensures { result ≡ (length (waits_in self.now.seats.items seat) == 0) }
    {
        self.seats[usize::from(seat)].outbox.is_empty()
    }

    /// How many guests are there.
    pub fn present(&self) -> usize
        ensures { result ≤ 15 }
    {
        let mut count = 0;
        for at in 0..15 {
            count += usize::from(self.seats[at].is_taken());
        }
        count
    }

    /// Sends what waits for any guest.
    ///
    /// Waits: no. Memory: none.
    pub fn flush_all(&mut self) {
        for seat in 0..15 {
            self.flush(seat);
        }
    }

    // Sends what waits for the guest in a seat.
    // Waits: no. Memory: none.
    fn flush(&mut self, seat: u8)
        requires { seat < 15 }
    {
        if let Err(error) = self.seats[usize::from(seat)].flush() {
            self.part(seat, Parting::Broke(error));
        }
    }

    // Closes the stream of the guest in a seat, if there is one, and tells so.
    fn part(&mut self, seat: u8, parting: Parting)
        requires { seat < 15 }
    {
        let at = usize::from(seat);
        if self.seats[at].is_taken() {
            self.seats[at].leave();
            tell_parted(&self.rt, seat, parting, self.present());
        }
    }
}
