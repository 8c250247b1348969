//! The rig of a session: its devices.

ghost use Rattle.lk_base.specs.Ranges.{IsMoment};

/// How many events find room in the journal, the most that a node takes: those of two hours and 20 minutes beside ten peers.
pub const EVENTS: u64 = 524_288;

/// The outside of a session.
#[derive(Drop)]
pub struct Devices<P, T, M> {
    /// What the node's id is drawn from.
    pub seed: u64,
    /// The moment at which it opens, in microseconds.
    pub opened_at: i64,
    pub port: P,
    pub outlet: Outlet<T, M>,
    ghost moment: { IsMoment opened_at },
}

/// The audio thread's: what it waits by, and where the MIDI goes.
#[derive(Drop)]
pub struct Outlet<T, M> {
    pub pace: T,
    pub midi: M,
}
