//! What an application is answered.

use client_state::{Commit, State};

/// A state that a cell held, and what the pass that captured it is shown. That each of them was published is said where the link ends
/// (`Hub::last_turn`).
#[derive(Clone, Copy, Debug, PartialEq, Eq)]
pub struct Capture {
    /// How many states were published before it: the opening state has the number 0.
    pub number: u64,
    /// The state as it was published.
    pub state: State,
    /// The state with the pass's own last commit laid over it, until that is taken.
    pub shown: State,
}

/// The commit comes back: the queue was full, or no number was left.
#[derive(Clone, Copy, Debug, PartialEq, Eq)]
pub struct Busy {
    pub commit: Commit,
}

/// The queue was full.
#[derive(Clone, Copy, Debug, PartialEq, Eq)]
pub struct QueueFull;
