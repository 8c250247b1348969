//! A talk over TCP.

ghost use Rattle.std.specs.Prelude.{◌≡◌, ◌<◌, ◌≤◌, length, None, IfOk, IsSome};
ghost use Rattle.std.specs.Io.{ReadsAtMost};
ghost use Rattle.std.specs.Io.KnownBytes.{ReadConsumes, WriteAppends};
ghost use Rattle.lk_outside.specs.Port.{HasBindCause};
ghost use Rattle.lk_outside.specs.Sink.{Accepts, HasWriteCause};
ghost use Rattle.lk_outside.specs.Source.{Gives, HasReadCause, KeepsRest};
ghost use Rattle.lk_outside.specs.Talk.{Opens};
ghost use Rattle.link_adapters.specs.Adapters.{IsReadFrom, IsWrittenTo, known_of};

use crate::address_of;
use crate::stream::{got_of, put_of};
use lk_base::Endpoint;
use lk_outside::{Bound, Put, Taken, Talk};
use std::io;
use std::io::{ErrorKind, Read, Write};
use std::net::{Net, OpenListener, OpenStream, TcpListener};
use std::sync::Wait;

/// A talk with the client that first connects to an endpoint. It is taken at the first read, and from then on the system refuses any other.
/// What goes on is told on standard error when it happens.
#[derive(Drop)]
pub struct TcpTalk<R: Net + Wait + Eprint + Copy + Drop> {
    rt: R,
    opened: Option<Endpoint>,
    // Where clients connect, until one was taken.
    listener: Option<R::Listener>,
    client: Option<R::Stream>,
    // Whether it was told that the client left.
    ended: bool,
    faults: u64,
}

impl<R: Net + Wait + Eprint + Copy + Drop> TcpTalk<R> {
    /// A talk that isn't opened.
    ///
    /// Waits: no. Memory: none.
    pub fn new(rt: R) -> Self
        ensures opened { result.opened ≡ None }
        ensures faultless { result.faults ≡ 0 }
    {
        TcpTalk {
            rt,
            opened: None,
            listener: None,
            client: None,
            ended: false,
            faults: 0,
        }
    }

    // Tells where it listens. Port 0 of the endpoint stands for one that the system chose.
    fn tell_listening(&self, listener: &R::Listener, at: Endpoint) {
        let rt = &self.rt;
        let at = listener.local_addr().unwrap_or(address_of(at));
        let _printed = eprintln!(rt; "jorazhil: listening for a client at {at}");
    }

    // Takes the client that connects first, and listens for no other.
    // Waits: for a client. Memory: none.
    fn accept(&mut self) -> io::Result<()>
        ensures opened { self.new.opened ≡ self.old.opened }
        ensures faults { self.new.faults ≡ self.old.faults }
    {
        let Some(listener) = &self.listener else {
            return Err(io::Error::from(ErrorKind::NotConnected));
        };
        let (client, from) = listener.accept()?;
        // Without this option an answer may just come later.
        let _hurried = client.set_nodelay(true);
        self.client = Some(client);
        self.listener = None;
        let rt = &self.rt;
        let _printed = eprintln!(rt; "jorazhil: a client came from {from}");
        Ok(())
    }

    // Takes what the client sent next; 0 bytes where it sends no more.
    // Waits: for a client, if none was taken, and for its bytes. Memory: none.
    fn hear(&mut self, buf: &mut [u8]) -> io::Result<usize>
        ensures count { ReadsAtMost result buf.new }
        ensures bytes { ReadConsumes (known_of R.Stream.remaining self.old.client) (known_of R.Stream.remaining self.new.client)
            result buf.new }
        ensures opened { self.new.opened ≡ self.old.opened }
        ensures faults { self.new.faults ≡ self.old.faults }
    {
        if self.client.is_none() {
            self.accept()?;
        }
        let rt = self.rt;
        match &mut self.client {
            Some(client) => read_some(&rt, client, buf),
            None => Err(io::Error::from(ErrorKind::NotConnected)),
        }
    }

    // Sends the client some bytes, at least one of them.
    // Waits: while the system has no room for more. Memory: none.
    fn say(&mut self, bytes: &[u8]) -> io::Result<usize>
        ensures count { IfOk result (λ count. (1 ≤ count) × (count ≤ length bytes.now)) }
        ensures bytes { WriteAppends (known_of R.Stream.contents self.old.client) (known_of R.Stream.contents self.new.client)
            result bytes.now }
        ensures opened { self.new.opened ≡ self.old.opened }
        ensures faults { self.new.faults ≡ self.old.faults }
    {
        let rt = self.rt;
        match &mut self.client {
            Some(client) => write_some(&rt, client, bytes),
            None => Err(io::Error::from(ErrorKind::NotConnected)),
        }
    }

    // Tells, once, that the client left.
    fn tell_ended(&mut self)
        ensures opened { self.new.opened ≡ self.old.opened }
        ensures faults { self.new.faults ≡ self.old.faults }
        ensures client { self.new.client ≡ self.old.client }
    {
        if !self.ended {
            self.ended = true;
            let rt = &self.rt;
            let _printed = eprintln!(rt; "jorazhil: the client left");
        }
    }
}

impl<R: Net + Wait + Eprint + Copy + Drop> Talk for TcpTalk<R> {
    ghost seen = { λ talk. record { left = None; written = None; opened = talk.opened; faults = talk.faults } };

    // A client of before is let go only where it listens anew.
    // Waits: no. Memory: none. Tells how it came out.
    fn listen(&mut self, at: Endpoint) -> Bound
        ensures opened { Opens self.old.opened self.new.opened at result }
        ensures cause { HasBindCause self.old.faults self.new.faults result }

        // Whoever was there before stays, unless it listens anew.
        ensures fresh { result ≡ Bound.Ready → self.new.client ≡ None }
        ensures kept { result ≡ Bound.Failed → (self.new.client ≡ self.old.client) × (self.new.listener ≡ self.old.listener) }
    {
        match TcpListener::bind(&self.rt, address_of(at)) {
            Ok(listener) => {
                self.tell_listening(&listener, at);
                self.opened = Some(at);
                self.listener = Some(listener);
                self.client = None;
                self.ended = false;
                Bound::Ready
            }
            Err(error) => {
                self.faults = self.faults.saturating_add(1);
                let rt = &self.rt;
                let at = address_of(at);
                let _printed = eprintln!(rt;
                    "jorazhil: listening for a client at {at} failed: {error}"
                );
                Bound::Failed
            }
        }
    }

    // Waits: for a client, if none was taken, and for its bytes. Memory: none.
    fn read(&mut self, buf: &mut [u8]) -> Taken
        requires some { 0 < length buf.old }
        requires opened { IsSome self.old.opened }
        ensures bytes { Gives None None buf.new result }
        ensures rest { KeepsRest None buf.old buf.new result }
        ensures opened { self.new.opened ≡ self.old.opened }
        ensures cause { HasReadCause self.old.faults self.new.faults result }

        // Of a client that was there, where its bytes are known.
        ensures client { IsReadFrom (known_of R.Stream.remaining self.old.client) (known_of R.Stream.remaining self.new.client)
            buf.new result }
    {
        let heard = self.hear(buf);
        let taken = got_of(heard);
        match heard {
            Ok(0) => self.tell_ended(),
            Ok(_) => {}
            Err(error) => {
                self.faults = self.faults.saturating_add(1);
                let rt = &self.rt;
                let _printed = eprintln!(rt; "jorazhil: hearing the client failed: {error}");
            }
        }
        taken
    }

    // Waits: while the system has no room for more. Memory: none.
    fn write(&mut self, bytes: &[u8]) -> Put
        requires some { 0 < length bytes.now }
        requires opened { IsSome self.old.opened }
        ensures bytes { Accepts None None bytes.now result }
        ensures opened { self.new.opened ≡ self.old.opened }
        ensures cause { HasWriteCause self.old.faults self.new.faults result }

        // Of the client, where its bytes are known.
        ensures client { IsWrittenTo (known_of R.Stream.contents self.old.client) (known_of R.Stream.contents self.new.client)
            bytes.now result }
    {
        let said = self.say(bytes);
        let put = put_of(said);
        if let Err(error) = said {
            self.faults = self.faults.saturating_add(1);
            let rt = &self.rt;
            let _printed = eprintln!(rt; "jorazhil: answering the client failed: {error}");
        }
        put
    }
}

// Reads some bytes, again where a signal interrupts it; 0 of them at the end.
// Waits: for a byte, or the end. Memory: none.
fn read_some<R: Wait, S: Read>(rt: &R, client: &mut S, buf: &mut [u8]) -> io::Result<usize>
    ensures count { ReadsAtMost result buf.new }
    ensures bytes { ReadConsumes (S.remaining client.old) (S.remaining client.new) result buf.new }
{
    for _ in rt.forever() {
        match client.read(buf) {
            Err(error) if error.kind() == ErrorKind::Interrupted => {}
            read => return read,
        }
    }
    unreachable!()
}

// Writes some bytes, at least one, again where a signal interrupts it.
// Waits: while there is no room. Memory: none.
fn write_some<R: Wait, S: Write>(rt: &R, client: &mut S, bytes: &[u8]) -> io::Result<usize>
    ensures count { IfOk result (λ count. (1 ≤ count) × (count ≤ length bytes.now)) }
    ensures bytes { WriteAppends (S.contents client.old) (S.contents client.new) result bytes.now }
{
    for _ in rt.forever() {
        match client.write(bytes) {
            Ok(0) => return Err(io::Error::from(ErrorKind::WriteZero)),
            Ok(count) => return Ok(count),
            Err(error) if error.kind() == ErrorKind::Interrupted => {}
            Err(error) => return Err(error),
        }
    }
    unreachable!()
}
