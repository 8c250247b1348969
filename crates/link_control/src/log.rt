//! What a session under control came to, line by line.

ghost use Rattle.std.specs.Prelude.{◌≡◌, ◌≤◌, [], IfOk, vec_capacity};

use client_state::Commit;
use link_shared::Capture;
use std::alloc::{AllocError, Global};

/// How many lines of a client are answered.
pub const MOST_LINES: usize = 4_096;

/// What was done at one line of the client.
#[derive(Clone, Copy, Debug, PartialEq, Eq)]
pub struct LineLog {
    /// The moment that the pace answered, in microseconds.
    pub moment: i64,
    /// What was captured then.
    pub capture: Capture,
    /// What was committed, behind its number, where the line changes something.
    pub commit: Option<(u64, Commit)>,
}

/// What was done at each line of the client that was captured for, in order.
#[derive(Debug, Drop)]
pub struct SessionLog {
    pub lines: Vec<LineLog>,
}

impl SessionLog {
    /// An empty log, with room for 4,096 lines. Memory: the room.
    pub fn new(alloc: Global) -> Result<SessionLog, AllocError>
        ensures empty { IfOk result (λ log. log.lines.items ≡ []) }
        ensures room { IfOk result (λ log. 4_096 ≤ vec_capacity log.lines) }
    {
        Ok(SessionLog {
            lines: Vec::with_capacity(alloc, MOST_LINES)?,
        })
    }

    /// Empties the log. Its room stays.
    pub fn clear(&mut self)
        ensures { self.new.lines.items ≡ [] }
    {
        self.lines.clear();
    }

    /// Makes room for 4,096 lines in an empty log, where it has less. Memory: the room.
    pub fn reserve(&mut self) -> Result<(), AllocError>
        requires { self.old.lines.items ≡ [] }
        ensures empty { self.new.lines.items ≡ [] }
        ensures room { IfOk result (λ done. 4_096 ≤ vec_capacity self.new.lines) }
    {
        self.lines.reserve(MOST_LINES)
    }
}
