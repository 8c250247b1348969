//! What a server is told of its node besides the state.

use arrayvec::ArrayVec;
use link_asks::GateTold;
use link_shared::Capture;

/// What is seen of a node besides its state.
#[derive(Debug, Drop)]
pub struct Sighted {
    /// How its gates stand, in order.
    pub gates: ArrayVec<GateTold, 4>,
    /// Whether its journal takes nothing more, so that serving is to end.
    pub full: bool,
}

/// Who looks out for a server, and tells people what happens. What it answers is the outside's own.
pub trait Lookout {
    /// What is seen of the node now; it is told what was captured last, at a moment, in microseconds, and how many clients are there.
    fn look(&mut self, newest: &Capture, at: i64, clients: u32) -> Sighted;
}

/// What a server waits by, and who looks out for it.
#[derive(Drop)]
pub struct Rig<T, B> {
    pub pace: T,
    pub lookout: B,
}
