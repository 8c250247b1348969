//! Datagrams on their way out.

ghost use Rattle.std.specs.Prelude.{◌≡◌, ◌+◌};

use lk_base::{Endpoint, Gate, Wire};
use std::alloc::{AllocError, Global};
use std::marker::Model;

/// How many datagrams a list has room for: more than one event sends.
const ROOM: usize = 160;

/// A datagram to send.
#[derive(Debug, Drop)]
pub struct Sending {
    /// The gate that it goes out on.
    pub gate: Gate,
    pub to: Endpoint,
    pub bytes: Wire,
}

/// Datagrams to send, in order, at most 160. No call but `new` takes memory.
#[derive(Debug, Drop)]
pub struct Sends {
    list: Vec<Sending>,
}

impl Model for Sends {
    ghost use Rattle.std.specs.Prelude.{◌≡◌, ◌≤◌, List, length, map, vec_capacity};
    ghost use Rattle.link_node.specs.Event.{SendingValue, sending_value};

    ghost Value = { List SendingValue };

    ghost view = { λ s. map sending_value s.list.items };

    ghost invariant = { λ s. (length s.list.items ≤ 160) × (vec_capacity s.list ≡ 160) };
}

impl Sends {
    ghost use Rattle.std.specs.Prelude.{◌≡◌, ◌≤◌, ◌<◌, ◌+◌, [], ◌∷◌, ◌++◌, length, map, IfOk};
    ghost use Rattle.link_node.specs.Event.{sending_value};

    /// An empty list. Memory: room for 160 datagrams.
    pub fn new(alloc: Global) -> Result<Sends, AllocError>
        ensures { IfOk result (λ sends. sends ≡ []) }
    {
        Ok(Sends {
            list: Vec::with_capacity(alloc, ROOM)?,
        })
    }

    /// Empties the list.
    pub fn clear(&mut self)
        ensures { self.new ≡ [] }
    {
        self.list.clear();
    }

    /// The datagrams in order.
    pub fn list(&self) -> &[Sending]
        ensures { map sending_value result.now ≡ self.now }
    {
        &self.list
    }

    /// For how many more there is room.
    pub fn room(&self) -> usize
        ensures { result + length self.now ≡ 160 }
    {
        ROOM - self.list.len()
    }

    // Appends a datagram.
    pub(crate) fn push(&mut self, sending: Sending)
        requires { length self.old < 160 }
        ensures items { self.new ≡ self.old ++ sending_value sending ∷ [] }
        ensures len { length self.new ≡ length self.old + 1 }
    {
        self.list.push_reserved(sending);
    }
}
