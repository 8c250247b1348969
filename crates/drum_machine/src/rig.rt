//! The rig of a session: its devices, and what it writes to.

ghost use Rattle.lk_base.specs.Ranges.{IsMoment};

/// How many events find room in the journal: those of more than an hour beside ten peers.
pub const EVENTS: u64 = 262_144;

/// The outside of a session.
#[derive(Drop)]
pub struct Devices<P, A, W, M> {
    /// What the node's id is drawn from.
    pub seed: u64,
    /// The moment at which it opens, in microseconds.
    pub opened_at: i64,
    pub port: P,
    pub outlet: Outlet<A, W, M>,
    ghost moment: { IsMoment opened_at },
}

/// The audio thread's: the device that asks for blocks, and what their sound and their MIDI clock are written to.
#[derive(Drop)]
pub struct Outlet<A, W, M> {
    pub audio: A,
    pub sound: W,
    pub midi: M,
}
