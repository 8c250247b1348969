//! What a turn of the hub is given, and what it answers.

use client_state::State;
use link_node::Event;
use lk_base::{Endpoint, Gate, Wire};

/// What the network thread brings to a turn.
#[derive(Debug, Drop)]
pub enum Got {
    /// Time has passed, and nothing is due.
    Nothing,
    /// A datagram came on a gate from an endpoint.
    Datagram {
        gate: Gate,
        from: Endpoint,
        bytes: Wire,
    },
    /// A tick is due.
    Tick,
    /// The node is to say goodbye.
    End,
}

/// What a turn did beside taking events.
#[derive(Clone, Copy, Debug, PartialEq, Eq)]
pub struct Turned {
    /// A quit was popped.
    pub quit: bool,
    /// An event was offered while the journal held its number of events; it wasn't taken.
    pub full: bool,
}

/// What is left of a link: the journal, the states published with the opening one, and whether an event of the last turn found no room.
#[derive(Debug, Drop)]
pub struct Ended {
    pub events: Vec<Event>,
    pub published: Vec<State>,
    pub full: bool,
}
