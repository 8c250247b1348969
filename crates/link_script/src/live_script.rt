//! A live script, as it is once it was read.

use arrayvec::ArrayVec;
use link_node::GateSetup;

/// What is done.
#[derive(Clone, Copy, Debug, PartialEq, Eq)]
pub enum Act {
    /// Another tempo, in microseconds per beat.
    Tempo(i64),
    /// A beat is forced to be the present one, in microbeats.
    Force(i64),
    /// A beat is asked for, in microbeats.
    Request(i64),
    /// Another quantum, in microbeats: 0..=2^40.
    Quantum(i64),
    Play,
    Stop,
    /// The state is captured, and nothing changes.
    Look,
}

/// What an application does.
#[derive(Clone, Copy, Debug, PartialEq, Eq)]
pub struct AppCommand {
    /// The moment, in microseconds.
    pub at: i64,
    pub act: Act,
}

/// What an audio thread does.
#[derive(Clone, Copy, Debug, PartialEq, Eq)]
pub struct BlockCommand {
    /// The number of the block, from 1 to 524,288.
    pub block: u64,
    /// Neither a beat nor a look.
    pub act: Act,
}

/// A live script, read to its end.
#[derive(Debug, Drop)]
pub struct LiveScript {
    /// The tempo of the first session, in microseconds per beat.
    pub mpb: i64,
    /// Whether starts are shared with the session.
    pub sync: bool,
    pub gates: ArrayVec<GateSetup, 4>,
    /// In the order of their lines.
    pub apps: Vec<AppCommand>,
    /// In the order of their lines.
    pub blocks: Vec<BlockCommand>,
}
