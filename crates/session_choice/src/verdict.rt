//! What follows from a timeline that was seen, and from an offset that was measured.

/// What follows from a timeline of a session that was seen.
#[derive(Clone, Copy, Debug, PartialEq, Eq)]
pub enum Saw {
    /// The session is known, and the timeline has the greater beat origin: it counts now.
    Taken,
    /// The session is known, and its timeline still counts.
    Kept,
    /// The session is known from now on, by this timeline.
    New,
    /// The session isn't known, and there is no room for it. Nothing changed.
    Full,
}

/// What follows from an offset of a session that was measured.
#[derive(Clone, Copy, Debug, PartialEq, Eq)]
pub enum Verdict {
    /// The session has won: it is the current one now, and the old one is among the others.
    Joined,
    /// The current session stays. Nothing changed.
    Stayed,
    /// It is the current session, which has this offset now.
    Remeasured,
    /// The session isn't known. Nothing changed.
    Unknown,
}
