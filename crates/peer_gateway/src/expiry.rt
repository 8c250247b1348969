//! When rows end.

use lk_base::{Gate, NodeId};

/// When the row of a peer on a gate ends.
#[derive(Clone, Copy, Debug, PartialEq, Eq)]
pub struct Expiry {
    /// A host time, in microseconds.
    pub limit: i64,
    pub gate: Gate,
    pub id: NodeId,
}
