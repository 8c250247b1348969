//! What an answer is made of.

use client_state::State;

/// How a gate stands.
#[derive(Clone, Copy, Debug, Default, PartialEq, Eq)]
pub enum GateState {
    Bound,
    /// It isn't bound, or couldn't be.
    #[default]
    Unbound,
    /// A call of the network failed since.
    Failed,
}

/// What is told of a gate.
#[derive(Clone, Copy, Debug, Default, PartialEq, Eq)]
pub struct GateTold {
    pub state: GateState,
    /// How many of its datagrams the system refused.
    pub refused: u64,
}

/// What the answer to a line is made of.
#[derive(Clone, Copy, Debug)]
pub struct Known<'a> {
    /// The number of the published state that was captured.
    pub published: u64,
    /// What is shown of it: the state with the node's own last commit over it, until that is taken.
    pub shown: State,
    /// The moment of the line, in microseconds.
    pub at: i64,
    /// The number of the line's commit; where it makes none, this says nothing.
    pub number: u64,
    pub clients: u32,
    pub gates: &'a [GateTold],
    /// Whether a client may end the serving.
    pub may_end: bool,
}
