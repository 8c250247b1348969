//! Everyone who is there: who listens, newcomers, and guests in their seats.

mod guests;
mod hears;
mod newcomers;
mod places;
mod seat;

ghost use Rattle.std.specs.Prelude.{◌≡◌, ◌<◌, pos, ◌-ℤ◌, ◌*ℤ◌, ◌≤ℤ◌, vec_len, IfOk};
ghost use Rattle.std.specs.Duration.{as_nanos};
ghost use Rattle.lk_base.specs.Ranges.{IsMoment};

use crate::input::{StandardInput, read_on, watched};
use crate::telling::{tell_deaf, tell_failed, tell_listening};
use hears::hears_of;
use link_adapters::{HostClock, address_of, waited_of};
use lk_base::Endpoint;
use lk_talks::SEATS;
use mio::net::{TcpListener, TcpStream};
use mio::{Events, Interest, Poll, Token};
use places::{INPUT, LISTENER};
use seat::Seat;
use std::alloc::{AllocError, Global};
use std::io;
use std::net::{Net, SocketAddr};
use std::time::{Clock, Duration};

/// How many events one wait hears of.
const EVENTS: usize = 64;

/// How many clients without a seat are let in at most.
const NEWCOMERS: usize = 15;

/// A client that was let in and has no seat.
#[derive(Drop)]
pub struct Newcomer {
    stream: TcpStream,
    from: SocketAddr,
    // The moment until which its first line is waited for.
    until: i64,
    // Whether bytes may be there.
    ready: bool,
    // Whether it may have a seat.
    greeted: bool,
}

/// Everyone who is there.
#[derive(Drop)]
pub struct Hall<R: Net + Clock + Eprint + Input + Copy + Drop> {
    rt: R,
    clock: HostClock,
    // The word that is asked for.
    secret: Option<Vec<u8>>,
    input: StandardInput,
    listener: Option<TcpListener>,
    // Whether somebody may be there whom the listener hasn't given.
    queued: bool,
    // Whether it was told that nobody can be let in.
    troubled: bool,
    newcomers: Vec<Option<Newcomer>>,
    seats: Vec<Seat>,
    // Hears of all their sockets, and of standard input.
    poll: Poll,
    events: Events<Global>,
    ghost newcomers_count: { vec_len newcomers ≡ 15 },
    ghost seats_count: { vec_len seats ≡ 15 },
}

impl<R: Net + Clock + Eprint + Input + Copy + Drop> Hall<R> {
    /// Nobody, by this clock, which `rt` reads. The error is the system's, or that memory ran out.
    ///
    /// Waits: no. Memory: all that is ever taken here.
    pub fn new(
        rt: R,
        alloc: Global,
        clock: HostClock,
        secret: Option<Vec<u8>>,
        until_input_ends: bool,
    ) -> io::Result<Hall<R>> {
        let poll = Poll::new(&rt)?;
        let events = Events::with_capacity(alloc, EVENTS)?;
        let newcomers = places_for_newcomers(alloc)?;
        let seats = empty_seats(alloc)?;
        let input = if until_input_ends {
            watched(&poll, INPUT)
        } else {
            StandardInput::Unwatched
        };
        Ok(Hall {
            rt,
            clock,
            secret,
            input,
            listener: None,
            queued: false,
            troubled: false,
            newcomers,
            seats,
            poll,
            events,
        })
    }

    /// Listens at an endpoint, and tells so. At an error all is as before.
    ///
    /// Waits: no. Memory: none.
    pub fn open(&mut self, at: Endpoint) -> io::Result<()> {
        let mut listener = TcpListener::bind(&self.rt, address_of(at))?;
        self.poll
            .registry()
            .register(&mut listener, LISTENER, Interest::READABLE)?;
        tell_listening(&self.rt, listener.local_addr().unwrap_or(address_of(at)));
        self.listener = Some(listener);
        self.queued = true;
        Ok(())
    }

    /// Tells that it can't be listened at an endpoint.
    pub fn tell_deaf(&self, at: Endpoint, error: io::Error) {
        tell_deaf(&self.rt, address_of(at), error);
    }

    /// Tells that waiting failed.
    pub fn tell_failed(&self, error: io::Error) {
        tell_failed(&self.rt, error);
    }

    /// Whether standard input has ended, where that was to be watched for.
    pub fn has_ended(&self) -> bool {
        self.input == StandardInput::Ended
    }

    /// Waits until something may be there, at most until a moment, in microseconds; lets newcomers in, hears their first lines, and sends
    /// what waits. The error is one of a descriptor that is gone, or of a clock that tells no time.
    ///
    /// Waits: until that moment. Memory: none.
    pub fn pass(&mut self, until: i64) -> io::Result<()>
        requires { IsMoment until }
    {
        self.flush_all();
        let now = self.clock.moment(&self.rt)?;
        waited_of(
            self.poll
                .poll(&mut self.events, Some(span_until(now, until))),
        )?;
        self.note_events();
        let now = self.clock.moment(&self.rt)?;
        self.let_in(now)?;
        self.hear_newcomers(now);
        self.flush_all();
        Ok(())
    }

    // Takes note of what the last wait heard of.
    fn note_events(&mut self) {
        let hears = hears_of(&self.events);
        self.queued = self.queued || hears.listener;
        if hears.input {
            self.input = read_on(&self.rt, &self.poll, INPUT);
        }
        for at in 0..15 {
            if hears.seats[at] {
                self.seats[at].mark();
            }
            if hears.newcomers[at] {
                self.mark_newcomer(at);
            }
        }
    }

    // Takes note that bytes of a newcomer may be there.
    fn mark_newcomer(&mut self, at: usize)
        requires { at < 15 }
    {
        if let Some(newcomer) = &mut self.newcomers[at] {
            newcomer.ready = true;
        }
    }
}

// The span from a moment to another, both in microseconds; none where that isn't later.
fn span_until(now: i64, until: i64) -> Duration
    requires now { IsMoment now }
    requires until { IsMoment until }
    ensures later { now ≤ℤ until → pos (as_nanos result) ≡ pos 1_000 *ℤ (until -ℤ now) }
    ensures past { until ≤ℤ now → as_nanos result ≡ 0 }
{
    Duration::from_micros((until - now).max(0).unsigned_abs())
}

fn places_for_newcomers(alloc: Global) -> Result<Vec<Option<Newcomer>>, AllocError>
    ensures { IfOk result (λ places. vec_len places ≡ 15) }
{
    let mut places = Vec::with_capacity(alloc, NEWCOMERS)?;
    while places.len() < NEWCOMERS {
        places.push(None)?;
    }
    Ok(places)
}

fn empty_seats(alloc: Global) -> Result<Vec<Seat>, AllocError>
    ensures { IfOk result (λ seats. vec_len seats ≡ 15) }
{
    let mut seats = Vec::with_capacity(alloc, usize::from(SEATS))?;
    while seats.len() < usize::from(SEATS) {
        seats.push(Seat::new(alloc)?)?;
    }
    Ok(seats)
}
