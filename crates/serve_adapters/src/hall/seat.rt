//! A seat, and the guest in it.

ghost use Rattle.std.specs.Prelude.{◌≡◌, ◌↔◌, [], None, IfOk, IfSome, IsSome, IsTrue};
ghost use Rattle.std.specs.Io.{ReadsAtMost};
ghost use Rattle.serve_adapters.specs.Outbox.{waiting_of};
ghost use Rattle.serve_adapters.specs.Seat.{IsSaidTo, SendsOn};

use crate::answers::is_spent;
use crate::outbox::Outbox;
use crate::telling::Parting;
use mio::net::TcpStream;
use std::alloc::{AllocError, Global};
use std::io;
use std::io::Read;
use std::net::{Shutdown, SocketAddr};

/// A client in a seat.
#[derive(Drop)]
pub struct Guest {
    pub stream: TcpStream,
    pub from: SocketAddr,
    /// Whether bytes may be there.
    pub ready: bool,
}

/// A seat, the guest in it, if there is one, and what waits for that one.
#[derive(Drop)]
pub struct Seat {
    pub guest: Option<Guest>,
    pub outbox: Outbox,
}

impl Seat {
    /// An empty one. The only error is want of memory.
    ///
    /// Waits: no. Memory: the outbox; no other call takes any.
    pub fn new(alloc: Global) -> Result<Seat, AllocError>
        ensures empty { IfOk result (λ seat. seat.guest ≡ None) }
        ensures waits { IfOk result (λ seat. waiting_of seat.outbox ≡ []) }
    {
        Ok(Seat {
            guest: None,
            outbox: Outbox::new(alloc)?,
        })
    }

    /// Whether somebody is in it.
    pub fn is_taken(&self) -> bool
        ensures { IsTrue result ↔ IsSome self.now.guest }
    {
        self.guest.is_some()
    }

    /// Seats a guest. Nothing waits for it.
    pub fn seat(&mut self, stream: TcpStream, from: SocketAddr)
        ensures taken { IsSome self.new.guest }
        ensures waits { waiting_of self.new.outbox ≡ [] }
    {
        self.outbox.clear();
        self.guest = Some(Guest {
            stream,
            from,
            ready: true,
        });
    }

    /// Closes the guest's stream. Nothing waits any more. What the guest sent is read before, as far as it is there: else the system might
    /// break the stream before the guest has read the last that it was told.
    ///
    /// Waits: no. Memory: none.
    pub fn leave(&mut self)
        ensures empty { self.new.guest ≡ None }
        ensures waits { waiting_of self.new.outbox ≡ [] }
    {
        if let Some(guest) = &mut self.guest {
            let mut rest = [0u8; 4096];
            let _read = guest.stream.read(&mut rest);
            let _shut = guest.stream.shutdown(Shutdown::Write);
        }
        self.guest = None;
        self.outbox.clear();
    }

    /// Takes note that bytes may be there.
    pub fn mark(&mut self)
        ensures waits { self.new.outbox ≡ self.old.outbox }
    {
        if let Some(guest) = &mut self.guest {
            guest.ready = true;
        }
    }

    /// Reads what is there, if bytes may be there.
    ///
    /// Waits: no. Memory: none.
    pub fn read(&mut self, buf: &mut [u8]) -> Option<io::Result<usize>>
        ensures read { IfSome result (λ read. ReadsAtMost read buf.new) }
        ensures waits { self.new.outbox ≡ self.old.outbox }
    {
        let Some(guest) = &mut self.guest else {
            return None;
        };
        if !guest.ready {
            return None;
        }
        let read = guest.stream.read(buf);
        guest.ready = !is_spent(&read);
        Some(read)
    }

    /// Says these bytes to the guest: they go on their way behind what waits. Where they find no room, or the stream is broken, this tells
    /// why the guest is to part.
    ///
    /// Waits: no. Memory: none.
    pub fn say(&mut self, bytes: &[u8]) -> Option<Parting>
        ensures { IsSaidTo (waiting_of self.old.outbox) bytes.now (waiting_of self.new.outbox) result }
    {
        if !self.outbox.push(bytes) {
            return Some(Parting::Full);
        }
        match self.flush() {
            Ok(()) => None,
            Err(error) => Some(Parting::Broke(error)),
        }
    }

    /// Sends what waits, as far as the stream takes it. The error is one of a broken stream.
    ///
    /// Waits: no. Memory: none.
    pub fn flush(&mut self) -> io::Result<()>
        ensures { SendsOn (waiting_of self.old.outbox) (waiting_of self.new.outbox) }
    {
        match &mut self.guest {
            Some(guest) => self.outbox.flush(&mut guest.stream),
            None => Ok(()),
        }
    }
}
