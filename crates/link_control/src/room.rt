//! The room of a run under control.

ghost use Rattle.std.specs.Prelude.{◌≡◌, ◌≤◌, [], IfOk, vec_capacity};

use crate::log::MOST_LINES;
use client_state::Commit;
use link_shared::Capture;
use std::alloc::{AllocError, Global};

/// All room that a run under control needs beside its log: for what its report tells of the client's lines.
#[derive(Drop)]
pub struct ControlRoom {
    pub captures: Vec<Capture>,
    pub commits: Vec<Commit>,
}

impl ControlRoom {
    /// Memory: all of it.
    pub fn new(alloc: Global) -> Result<ControlRoom, AllocError>
        ensures captures { IfOk result (λ room. (room.captures.items ≡ []) × (4_096 ≤ vec_capacity room.captures)) }
        ensures commits { IfOk result (λ room. (room.commits.items ≡ []) × (4_096 ≤ vec_capacity room.commits)) }
    {
        Ok(ControlRoom {
            captures: Vec::with_capacity(alloc, MOST_LINES)?,
            commits: Vec::with_capacity(alloc, MOST_LINES)?,
        })
    }
}
