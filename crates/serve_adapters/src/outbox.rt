//! Bytes on their way to a client.

ghost use Rattle.std.specs.Prelude.{◌≤◌, length, vec_capacity};

use crate::answers::waits_of;
use std::alloc::{AllocError, Global};
use std::io;
use std::io::Write;

/// How many bytes wait at most.
const MOST: usize = 65_536;

/// Bytes that were said to a client, and that its stream hasn't taken yet, in order: at most 65,536.
#[derive(Drop)]
pub struct Outbox {
    bytes: Vec<u8>,
    // How many of the bytes, at the front, have been taken.
    taken: usize,
    ghost within: { taken ≤ length bytes.items },
    ghost few: { length bytes.items ≤ 65_536 },
    ghost room: { 65_536 ≤ vec_capacity bytes },
}

impl Outbox {
    ghost use Rattle.std.specs.Prelude.{◌≡◌, ◌+◌, ◌++◌, ◌==◌, [], true, false, nat_le, IfOk};
    ghost use Rattle.serve_adapters.specs.Outbox.{waiting_of, IsFlushed};

    /// An empty one. The only error is want of memory.
    ///
    /// Waits: no. Memory: 65,536 bytes; no other call takes any.
    pub fn new(alloc: Global) -> Result<Outbox, AllocError>
        ensures { IfOk result (λ outbox. waiting_of outbox ≡ []) }
    {
        Ok(Outbox {
            bytes: Vec::with_capacity(alloc, MOST)?,
            taken: 0,
        })
    }

    /// Whether nothing waits.
    pub fn is_empty(&self) -> bool
        ensures { result ≡ (length (waiting_of self.now) == 0) }
    {
        self.taken == self.bytes.len()
    }

    /// Lets everything go that waits.
    pub fn clear(&mut self)
        ensures { waiting_of self.new ≡ [] }
    {
        self.bytes.clear();
        self.taken = 0;
    }

    /// Puts these bytes behind those that wait, or, where they don't fit, none of them.
    pub fn push(&mut self, bytes: &[u8]) -> bool
        ensures fits { result ≡ nat_le (length (waiting_of self.old) + length bytes.now) 65_536 }
        ensures put { result ≡ true → waiting_of self.new ≡ waiting_of self.old ++ bytes.now }
        ensures kept { result ≡ false → waiting_of self.new ≡ waiting_of self.old }
    {
        let waiting = self.bytes.len() - self.taken;
        if bytes.len() > MOST - waiting {
            return false;
        }
        if bytes.len() > MOST - self.bytes.len() {
            self.make_room();
        }
        self.bytes.extend_from_slice(bytes).unwrap();
        true
    }

    /// Offers what waits to a writer, once. An error is one that leaves the client no way to be told anything; a writer that would have to
    /// wait is none.
    ///
    /// Waits: no. Memory: none.
    pub fn flush<W: Write>(&mut self, to: &mut W) -> io::Result<()>
        ensures { IsFlushed (W.contents to.old) (W.contents to.new) (waiting_of self.old) (waiting_of self.new) }
    {
        if self.is_empty() {
            return Ok(());
        }
        let written = to.write(&self.bytes[self.taken..]);
        if let Ok(count) = written {
            self.taken += count;
        }
        waits_of(written)
    }

    // Lets the bytes go that have been taken.
    fn make_room(&mut self)
        ensures waiting { waiting_of self.new ≡ waiting_of self.old }
        ensures taken { self.new.taken ≡ 0 }
    {
        let waiting = self.bytes.len() - self.taken;
        self.bytes.copy_within(self.taken.., 0);
        self.bytes.truncate(waiting);
        self.taken = 0;
    }
}
