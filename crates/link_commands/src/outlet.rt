//! Lines on their way to a sink, which gets them in large pieces.

ghost use Rattle.std.specs.Prelude.{◌≡◌, ◌≤◌, ◌+◌, ◌++◌, [], length, IfOk, OnOk, OnErr};
ghost use Rattle.std.specs.Vec.{vec_capacity};
ghost use Rattle.lk_outside.specs.Faults.{Rose};
ghost use Rattle.lk_outside.specs.Sink.{Appends};
ghost use Rattle.lk_outside.specs.Transfer.{AppendsPrefix};
ghost use Rattle.link_commands.specs.Outlet.{HandsOver, HandsPart};

use lk_outside::{Sink, write_whole};
use std::alloc::{AllocError, Global};

/// How many bytes are gathered at most.
const ROOM: usize = 65_536;

/// The longest line that may be handed over, as `LineBuf` holds it.
const LONGEST_LINE: usize = 1200;

/// The sink failed while text was handed over to it.
#[derive(Clone, Copy, Debug, PartialEq, Eq)]
pub struct SinkFailed;

/// Bytes that were handed over and aren't written yet.
#[derive(Debug, Drop)]
pub struct Outlet {
    pub kept: Vec<u8>,
    ghost reserved: { 65_536 ≤ vec_capacity kept },
    ghost within: { length kept.items ≤ 65_536 },
}

impl Outlet {
    /// An empty outlet. It takes the memory that it will ever need.
    pub fn new(alloc: Global) -> Result<Self, AllocError>
        ensures { IfOk result (λ outlet. outlet.kept.items ≡ []) }
    {
        Ok(Outlet {
            kept: Vec::with_capacity(alloc, ROOM)?,
        })
    }

    /// Hands over a line. Where there might be no room for it, what is kept is written first, which is at least 64,337 bytes.
    pub fn put_line<K: Sink>(&mut self, out: &mut K, line: &[u8]) -> Result<(), SinkFailed>
        requires { length line.now ≤ 1200 }
        ensures bounded { length self.new.kept.items ≤ 65_536 }
        ensures kept { OnOk result (HandsOver line.now (K.seen out.old).told self.old.kept.items (K.seen out.new).told self.new.kept.items) }
        ensures part { OnErr result (HandsPart line.now (K.seen out.old).told self.old.kept.items (K.seen out.new).told) }
        ensures quiet { OnOk result ((K.seen out.new).faults ≡ (K.seen out.old).faults) }
        ensures cause { OnErr result (Rose (K.seen out.old).faults (K.seen out.new).faults) }
    {
        if self.kept.len() <= ROOM - LONGEST_LINE {
            self.keep(line);
            return Ok(());
        }
        self.flush(out)?;
        self.keep(line);
        Ok(())
    }

    // Keeps a line for which there is room.
    fn keep(&mut self, line: &[u8])
        requires { length self.old.kept.items + length line.now ≤ 65_536 }
        ensures { self.new.kept.items ≡ self.old.kept.items ++ line.now }
    {
        self.kept.extend_from_slice(line).unwrap();
    }

    /// Writes what is kept.
    pub fn flush<K: Sink>(&mut self, out: &mut K) -> Result<(), SinkFailed>
        ensures emptied { OnOk result (self.new.kept.items ≡ []) }
        ensures whole { OnOk result (Appends (K.seen out.old).told self.old.kept.items (K.seen out.new).told) }
        ensures part { OnErr result (AppendsPrefix (K.seen out.old).told self.old.kept.items (K.seen out.new).told) }
        ensures quiet { OnOk result ((K.seen out.new).faults ≡ (K.seen out.old).faults) }
        ensures cause { OnErr result (Rose (K.seen out.old).faults (K.seen out.new).faults) }
    {
        if !write_whole(out, &self.kept) {
            return Err(SinkFailed);
        }
        self.kept.clear();
        Ok(())
    }
}
